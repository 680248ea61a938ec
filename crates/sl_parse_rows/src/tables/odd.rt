// Texts with other characters than those of ASCII, and with other blanks.
use crate::asking::Phrase;

/// A text, in how many nodes the phrase stands, and what is answered.
pub type Odd = (Phrase, &'static str, u32, &'static str);

/// The rows.
#[rattlefmt::skip]
pub const ODD: &[Odd] = &[
    (Phrase::Type, "é", 0, "é@0-2 rest 0"),
    (Phrase::Type, "é.é", 0, "é.é@0-5 rest 0"),
    (Phrase::Type, "\ta\r\n[b]", 0, "a[b@5-6]@1-7 rest 0"),
    (Phrase::Type, "a[é.1]", 0, "G1 at 5"),
    (Phrase::Expr, "é + \"é\"", 0, "infix(é@0-2 + literal(Quoted \"é\")@5-9)@0-9 rest 0"),
    (Phrase::Expr, "é.é(é)", 0, "apply(select(é@0-2 é)@0-5;é@6-8)@0-9 rest 0"),
    (Phrase::Expr, "a(\"é\", b)", 0, "apply(a@0-1;literal(Quoted \"é\")@2-6,b@8-9)@0-10 rest 0"),
    (Phrase::Expr, "s\"é\" b", 0, "literal(Prefixed s\"é\")@0-5 rest 1"),
    (Phrase::Expr, "'é' +", 0, "G1 at 6"),
    (Phrase::Expr, "\ta\t+\r\n\tb", 0, "infix(a@1-2 + b@7-8)@1-8 rest 0"),
    (Phrase::Expr, "\"é\" é é", 0, "literal(Quoted \"é\")@0-4 rest 2"),
    (Phrase::Expr, "é(", 63, "G6 at 2"),
    (Phrase::Expr, "é.1", 0, "G1 at 3"),
    (Phrase::Expr, "é match { case é: é => \"é\" }", 0, "match(é@0-2;case(bind(é:é@20-22)@16-22=>call(literal(Quoted \"é\")@26-30)@26-30))@0-32 rest 0"),
    (Phrase::Block, "{ é = é }", 0, "{assign(é@2-4=é@7-9)@2-9} rest 0"),
    (Phrase::Block, "{ \"é\"\r\né }", 0, "{call(literal(Quoted \"é\")@2-6)@2-6;call(é@8-10)@8-10} rest 0"),
    (Phrase::Block, "{ l\"é\" }", 0, "{skip(Prefixed l\"é\")@2-7} rest 0"),
    (Phrase::Block, "{ Contract(é, 'é') }", 0, "{skip(Ident Contract,Mark (,Ident é,Mark ,,Letter 'é',Mark ))@2-20} rest 0"),
    (Phrase::Block, "{\té\t}", 63, "G6 at 2"),
    (Phrase::Block, "{ é é }", 0, "G1 at 5"),
    (Phrase::Block, "{ l\"\"\"a\nb\"\"\"\nc }", 0, "{skip(Prefixed l\"\"\"a\nb\"\"\")@2-12;call(c@13-14)@13-14} rest 0"),
    (Phrase::File, "import org.sireum._\t\n\t@record\tclass\tA\t(\tb\t:\tC\t)\t", 0, "file(class(note(record)@22-29 A(b:C@44-45))@22-47)@0-47"),
    (Phrase::File, "\r\nimport org.sireum._\r\n@bits(signed = T,\r\nwidth = 8) class A\r\n", 0, "file(ints(note(bits;signed=T@38-39,width=literal(Number 8)@50-51)@23-52 A)@23-60)@2-60"),
    (Phrase::File, "import org.sireum._\rclass A", 0, "G1 at 20"),
    (Phrase::File, "package é\nimport org.sireum._\nimport é._\n@é(é = \"é\") class É", 0, "G3 at 43"),
    (Phrase::File, "package é\nimport org.sireum._\nimport é._\n@record class É(é: é)", 0, "file(package é;import(é._)@31-42;class(note(record)@43-50 É(é:é@64-66))@43-67)@0-67"),
    (Phrase::File, "import org.sireum._\n@é object é { val é = é }", 0, "G3 at 20"),
    (Phrase::File, "import org.sireum._\n@enum object é { \"é\"\n'é } // é", 0, "file(enum(note(enum)@20-25 é;Quoted \"é\",Symbol 'é)@20-48)@0-48"),
    (Phrase::File, "import org.sireum._ /* é */ é", 0, "G1 at 29"),
    (Phrase::File, "import é", 0, "G2 at 7"),
    (Phrase::File, "import org.sireum._\nobject A { val a = \"é\" é }", 0, "G1 at 44"),
    (Phrase::File, "import org.sireum._\nobject A { val a = \"\"\"\n\"\"\"\nval b = c }", 0, "file(object(A {val(a=literal(Quoted \"\"\"\n\"\"\")@39-46)@31-46;val(b=c@55-56)@47-56})@20-58)@0-58"),
];
