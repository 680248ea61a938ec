// Ends of lines, and brackets and cases around them.
use super::Row;

pub(super) const LINES: &[Row] = &[
    ("a b", "Ident a, Ident b"),
    ("a\tb", "Ident a, Ident b"),
    ("a\nb", "Ident a, Separator, Ident b"),
    ("a\r\nb", "Ident a, Separator, Ident b"),
    ("a\n\rb", "Ident a, Separator, Ident b"),
    ("a\rb", "Ident a, Ident b"),
    ("a\r\rb", "Ident a, Ident b"),
    ("a\n\nb", "Ident a, Separator, Ident b"),
    ("a\n\n\n\n\nb", "Ident a, Separator, Ident b"),
    ("a\r\n\r\nb", "Ident a, Separator, Ident b"),
    ("a \t\n\t b", "Ident a, Separator, Ident b"),
    ("a\nb\nc", "Ident a, Separator, Ident b, Separator, Ident c"),
    ("a b\nc d", "Ident a, Ident b, Separator, Ident c, Ident d"),
    ("a\u{2028}\nb", "L3 at 1"),
    ("a//\nb", "Ident a, Separator, Ident b"),
    ("a // c\nb", "Ident a, Separator, Ident b"),
    ("a // c\r\nb", "Ident a, Separator, Ident b"),
    ("a // c\rb", "Ident a"),
    ("a\n// c\nb", "Ident a, Separator, Ident b"),
    ("a // \u{2028}b", "Ident a"),
    ("a/**/b", "Ident a, Ident b"),
    ("a/* c */b", "Ident a, Ident b"),
    ("a/*\n*/b", "Ident a, Separator, Ident b"),
    ("a /*\n\n\n*/ b", "Ident a, Separator, Ident b"),
    ("a/*\r\n*/b", "Ident a, Separator, Ident b"),
    ("a/*\r*/b", "Ident a, Ident b"),
    ("a/*\u{2028}*/b", "Ident a, Ident b"),
    ("a/* /*\n*/ */b", "Ident a, Separator, Ident b"),
    ("a/* /**/ \n*/b", "Ident a, Separator, Ident b"),
    ("a/* */\n/* */b", "Ident a, Separator, Ident b"),
    ("a/* */ // \nb", "Ident a, Separator, Ident b"),
    ("a/*\n*/\n/*\n*/b", "Ident a, Separator, Ident b"),
    ("a/*\n*/b/**/c", "Ident a, Separator, Ident b, Ident c"),
    ("a +/*\n*/b", "Ident a, Operator +, Ident b"),
    ("a\n", "Ident a"),
    ("a\n\n\n", "Ident a"),
    ("a\r\n", "Ident a"),
    ("a // b\n", "Ident a"),
    ("a\n// b\n\n", "Ident a"),
    ("a/*\n*/", "Ident a"),
    ("a\nb\n", "Ident a, Separator, Ident b"),
    (")\n", "Mark )"),
    ("\na", "Ident a"),
    ("\n\n// b\n/*\n*/\na", "Ident a"),
    ("a\n+b", "Ident a, Separator, Operator +, Ident b"),
    ("a +\nb", "Ident a, Operator +, Ident b"),
    ("a\n+\nb", "Ident a, Separator, Operator +, Ident b"),
    ("a\n/b", "Ident a, Separator, Operator /, Ident b"),
    ("a\n*/b", "Ident a, Separator, Operator */, Ident b"),
    ("a\n.b", "Ident a, Mark ., Ident b"),
    ("a.\nb", "Ident a, Mark ., Ident b"),
    ("a\n=b", "Ident a, Mark =, Ident b"),
    ("a\n==b", "Ident a, Separator, Operator ==, Ident b"),
    ("a\n=>b", "Ident a, Mark =>, Ident b"),
    ("a\n=>>b", "Ident a, Separator, Operator =>>, Ident b"),
    ("a\n<-b", "Ident a, Mark <-, Ident b"),
    ("a\n<--b", "Ident a, Separator, Operator <--, Ident b"),
    ("a\n:b", "Ident a, Mark :, Ident b"),
    ("a\n::b", "Ident a, Separator, Operator ::, Ident b"),
    ("a\n@b", "Ident a, Separator, Mark @, Ident b"),
    ("a\n@@b", "Ident a, Separator, Operator @@, Ident b"),
    ("a\n,b", "Ident a, Mark ,, Ident b"),
    ("a,\nb", "Ident a, Mark ,, Ident b"),
    ("_\nx", "Mark _, Separator, Ident x"),
    ("x\n_", "Ident x, Separator, Mark _"),
    ("_\n_", "Mark _, Separator, Mark _"),
    ("_\n\"a\"", "Mark _, Separator, Quoted \"a\""),
    ("__\nx", "Ident __, Separator, Ident x"),
    ("this\nx", "Word this, Separator, Ident x"),
    ("return\nx", "Word return, Separator, Ident x"),
    ("return\n}", "Word return, Mark }"),
    ("super\nx", "Word super, Ident x"),
    ("null\nx", "Word null, Ident x"),
    ("true\nx", "Word true, Ident x"),
    ("false\nx", "Word false, Ident x"),
    ("type\nx", "Word type, Ident x"),
    ("'type\nx", "Symbol 'type, Separator, Ident x"),
    ("else\"a\"\nx", "Prefixed else\"a\", Separator, Ident x"),
    ("x\nelse\"a\"", "Ident x, Separator, Prefixed else\"a\""),
    ("a\nelse b", "Ident a, Word else, Ident b"),
    ("a\nelses", "Ident a, Separator, Ident elses"),
    ("a else\nb", "Ident a, Word else, Ident b"),
    ("a\nval b", "Ident a, Separator, Word val, Ident b"),
    ("a\n(b)", "Ident a, Separator, Mark (, Ident b, Mark )"),
    ("a\n[b]", "Ident a, Mark [, Ident b, Mark ]"),
    ("a\n{b}", "Ident a, Mark {, Ident b, Mark }"),
    (
        "if (a)\nb",
        "Word if, Mark (, Ident a, Mark ), Separator, Ident b",
    ),
    ("'\n'x", "Letter '\n', Ident x"),
    ("'\n'\nx", "Letter '\n', Separator, Ident x"),
    ("x'\n'", "Ident x, Letter '\n'"),
    ("\"\"\"\n\"\"\"x", "Quoted \"\"\"\n\"\"\", Ident x"),
    (
        "\"\"\"\n\"\"\"\nx",
        "Quoted \"\"\"\n\"\"\", Separator, Ident x",
    ),
    ("x \"\"\"\n\"\"\"", "Ident x, Quoted \"\"\"\n\"\"\""),
    (
        "s\"\"\"\n\"\"\"\nx",
        "Prefixed s\"\"\"\n\"\"\", Separator, Ident x",
    ),
    ("\"\\n\"x", "Quoted \"\\n\", Ident x"),
    ("é\n变", "Ident é, Separator, Ident 变"),
    (
        "object A extends App {\r\n  val x = 1\r\n\r\n  // b\r\n  println(x)\r\n}\r\n",
        "Word object, Ident A, Word extends, Ident App, Mark {, Word val, Ident x, Mark =, Number 1, Separator, Ident println, Mark (, Ident x, Mark ), Mark }",
    ),
];

pub(super) const BRACKETS: &[Row] = &[
    ("(a\nb)", "Mark (, Ident a, Ident b, Mark )"),
    ("[a\nb]", "Mark [, Ident a, Ident b, Mark ]"),
    ("{a\nb}", "Mark {, Ident a, Separator, Ident b, Mark }"),
    ("(\na\n)", "Mark (, Ident a, Mark )"),
    ("{\na\n}\nb", "Mark {, Ident a, Mark }, Separator, Ident b"),
    ("(a\nb", "Mark (, Ident a, Ident b"),
    ("[a\nb", "Mark [, Ident a, Ident b"),
    ("{a\nb", "Mark {, Ident a, Separator, Ident b"),
    (
        "(a\nb)\nc",
        "Mark (, Ident a, Ident b, Mark ), Separator, Ident c",
    ),
    (
        "[a\nb]\nc",
        "Mark [, Ident a, Ident b, Mark ], Separator, Ident c",
    ),
    (
        "{a\nb}\nc",
        "Mark {, Ident a, Separator, Ident b, Mark }, Separator, Ident c",
    ),
    (
        "({a\nb}\nc)\nd",
        "Mark (, Mark {, Ident a, Separator, Ident b, Mark }, Ident c, Mark ), Separator, Ident d",
    ),
    (
        "[{a\nb}\nc]\nd",
        "Mark [, Mark {, Ident a, Separator, Ident b, Mark }, Ident c, Mark ], Separator, Ident d",
    ),
    (
        "{(a\nb)\nc}\nd",
        "Mark {, Mark (, Ident a, Ident b, Mark ), Separator, Ident c, Mark }, Separator, Ident d",
    ),
    (
        "{[a\nb]\nc}\nd",
        "Mark {, Mark [, Ident a, Ident b, Mark ], Separator, Ident c, Mark }, Separator, Ident d",
    ),
    (
        "([a\nb]\nc)\nd",
        "Mark (, Mark [, Ident a, Ident b, Mark ], Ident c, Mark ), Separator, Ident d",
    ),
    (
        "{{a\nb}\nc}\nd",
        "Mark {, Mark {, Ident a, Separator, Ident b, Mark }, Separator, Ident c, Mark }, Separator, Ident d",
    ),
    (
        "{({(a\nb)\nc})\nd}\ne",
        "Mark {, Mark (, Mark {, Mark (, Ident a, Ident b, Mark ), Separator, Ident c, Mark }, Mark ), Separator, Ident d, Mark }, Separator, Ident e",
    ),
    (
        "(((a\n)\nb)\nc)\nd",
        "Mark (, Mark (, Mark (, Ident a, Mark ), Ident b, Mark ), Ident c, Mark ), Separator, Ident d",
    ),
    (
        "a(b\n)(c\n)\nd",
        "Ident a, Mark (, Ident b, Mark ), Mark (, Ident c, Mark ), Separator, Ident d",
    ),
    (
        "a(\nb,\nc)",
        "Ident a, Mark (, Ident b, Mark ,, Ident c, Mark )",
    ),
    ("'('\na", "Letter '(', Separator, Ident a"),
    ("\"(\"\na", "Quoted \"(\", Separator, Ident a"),
    ("/*(*/a\nb", "Ident a, Separator, Ident b"),
    ("(a\"{\"\nb)", "Mark (, Prefixed a\"{\", Ident b, Mark )"),
    ("(a/*)*/\nb)", "Mark (, Ident a, Ident b, Mark )"),
    // closing brackets of another kind
    ("(a]\nb", "Mark (, Ident a, Mark ], Separator, Ident b"),
    ("(a}\nb", "Mark (, Ident a, Mark }, Separator, Ident b"),
    ("[a)\nb", "Mark [, Ident a, Mark ), Separator, Ident b"),
    ("[a}\nb", "Mark [, Ident a, Mark }, Separator, Ident b"),
    ("{a)\nb", "Mark {, Ident a, Mark ), Separator, Ident b"),
    ("{a]\nb", "Mark {, Ident a, Mark ], Separator, Ident b"),
    (
        "{(a}\nb",
        "Mark {, Mark (, Ident a, Mark }, Separator, Ident b",
    ),
    ("({a)\nb", "Mark (, Mark {, Ident a, Mark ), Ident b"),
    ("({a]\nb", "Mark (, Mark {, Ident a, Mark ], Ident b"),
    (
        "({a)\nb)\nc",
        "Mark (, Mark {, Ident a, Mark ), Ident b, Mark ), Separator, Ident c",
    ),
    (
        "([a)\nb]\nc",
        "Mark (, Mark [, Ident a, Mark ), Ident b, Mark ], Separator, Ident c",
    ),
    // closing brackets that close nothing
    (")\na", "Mark ), Separator, Ident a"),
    ("]\na", "Mark ], Separator, Ident a"),
    ("}\na", "Mark }, Separator, Ident a"),
    ("))\na", "Mark ), Mark ), Separator, Ident a"),
    (")(a\nb", "Mark ), Mark (, Ident a, Ident b"),
    (
        "}(a\nb)\nc",
        "Mark }, Mark (, Ident a, Ident b, Mark ), Separator, Ident c",
    ),
    ("}{a\nb", "Mark }, Mark {, Ident a, Separator, Ident b"),
    (
        "a)\nb(c\nd",
        "Ident a, Mark ), Separator, Ident b, Mark (, Ident c, Ident d",
    ),
    (
        "(a))\nb",
        "Mark (, Ident a, Mark ), Mark ), Separator, Ident b",
    ),
    (
        "(a))(b\nc",
        "Mark (, Ident a, Mark ), Mark ), Mark (, Ident b, Ident c",
    ),
];

pub(super) const CASES: &[Row] = &[
    ("case a\nb", "Word case, Ident a, Ident b"),
    ("case\na", "Word case, Ident a"),
    (
        "case a => b\nc",
        "Word case, Ident a, Mark =>, Ident b, Separator, Ident c",
    ),
    (
        "case a\nb => c\nd",
        "Word case, Ident a, Ident b, Mark =>, Ident c, Separator, Ident d",
    ),
    (
        "case a =>\nb\nc",
        "Word case, Ident a, Mark =>, Ident b, Separator, Ident c",
    ),
    ("case a\n=> b", "Word case, Ident a, Mark =>, Ident b"),
    (
        "a\nb case c\nd => e\nf",
        "Ident a, Separator, Ident b, Word case, Ident c, Ident d, Mark =>, Ident e, Separator, Ident f",
    ),
    (
        "{case a\nb => c\nd\ncase e\nf => g}\nh",
        "Mark {, Word case, Ident a, Ident b, Mark =>, Ident c, Separator, Ident d, Word case, Ident e, Ident f, Mark =>, Ident g, Mark }, Separator, Ident h",
    ),
    (
        "{\n  case _ if a\n  + b =>\n    c\n    d\n  case _ =>\n}",
        "Mark {, Word case, Mark _, Word if, Ident a, Operator +, Ident b, Mark =>, Ident c, Separator, Ident d, Word case, Mark _, Mark =>, Mark }",
    ),
    // a case in a case
    (
        "case a\ncase b\nc => d\ne => f\ng",
        "Word case, Ident a, Word case, Ident b, Ident c, Mark =>, Ident d, Ident e, Mark =>, Ident f, Separator, Ident g",
    ),
    (
        "case case a => b\nc",
        "Word case, Word case, Ident a, Mark =>, Ident b, Ident c",
    ),
    (
        "case case case a => => b\nc => d\ne",
        "Word case, Word case, Word case, Ident a, Mark =>, Mark =>, Ident b, Ident c, Mark =>, Ident d, Separator, Ident e",
    ),
    // brackets in a case
    (
        "case (a\nb) => c\nd",
        "Word case, Mark (, Ident a, Ident b, Mark ), Mark =>, Ident c, Separator, Ident d",
    ),
    (
        "case (a)\nb => c\nd",
        "Word case, Mark (, Ident a, Mark ), Ident b, Mark =>, Ident c, Separator, Ident d",
    ),
    (
        "case a {b\nc}\nd => e\nf",
        "Word case, Ident a, Mark {, Ident b, Separator, Ident c, Mark }, Ident d, Mark =>, Ident e, Separator, Ident f",
    ),
    (
        "case [a\nb]\nc => d\ne",
        "Word case, Mark [, Ident a, Ident b, Mark ], Ident c, Mark =>, Ident d, Separator, Ident e",
    ),
    (
        "case {case a\nb => c\nd}\ne => f\ng",
        "Word case, Mark {, Word case, Ident a, Ident b, Mark =>, Ident c, Separator, Ident d, Mark }, Ident e, Mark =>, Ident f, Separator, Ident g",
    ),
    // an arrow in brackets in a case
    (
        "case (a => b)\nc => d\ne",
        "Word case, Mark (, Ident a, Mark =>, Ident b, Mark ), Ident c, Mark =>, Ident d, Separator, Ident e",
    ),
    (
        "case {a => b\nc}\nd => e\nf",
        "Word case, Mark {, Ident a, Mark =>, Ident b, Separator, Ident c, Mark }, Ident d, Mark =>, Ident e, Separator, Ident f",
    ),
    // a case in brackets
    (
        "(case a => b\nc)\nd",
        "Mark (, Word case, Ident a, Mark =>, Ident b, Ident c, Mark ), Separator, Ident d",
    ),
    (
        "(case a\nb => c\nd)\ne",
        "Mark (, Word case, Ident a, Ident b, Mark =>, Ident c, Ident d, Mark ), Separator, Ident e",
    ),
    (
        "[case a => b\nc]",
        "Mark [, Word case, Ident a, Mark =>, Ident b, Ident c, Mark ]",
    ),
    (
        "({case a => b\nc}\nd)\ne",
        "Mark (, Mark {, Word case, Ident a, Mark =>, Ident b, Separator, Ident c, Mark }, Ident d, Mark ), Separator, Ident e",
    ),
    // a closing bracket over a case
    (
        "(case a)\nb",
        "Mark (, Word case, Ident a, Mark ), Separator, Ident b",
    ),
    (
        "[case a]\nb",
        "Mark [, Word case, Ident a, Mark ], Separator, Ident b",
    ),
    (
        "{case a}\nb",
        "Mark {, Word case, Ident a, Mark }, Separator, Ident b",
    ),
    (
        "{case a)\nb",
        "Mark {, Word case, Ident a, Mark ), Separator, Ident b",
    ),
    (
        "{case a\ncase b}\nc",
        "Mark {, Word case, Ident a, Word case, Ident b, Mark }, Separator, Ident c",
    ),
    (
        "{(case a\ncase b)\nc}\nd",
        "Mark {, Mark (, Word case, Ident a, Word case, Ident b, Mark ), Separator, Ident c, Mark }, Separator, Ident d",
    ),
    (
        "({case a)\nb)\nc",
        "Mark (, Mark {, Word case, Ident a, Mark ), Ident b, Mark ), Separator, Ident c",
    ),
    (
        "case (case a)\nb => c\nd",
        "Word case, Mark (, Word case, Ident a, Mark ), Ident b, Mark =>, Ident c, Separator, Ident d",
    ),
    (
        "{case a}\nb => c\nd",
        "Mark {, Word case, Ident a, Mark }, Separator, Ident b, Mark =>, Ident c, Separator, Ident d",
    ),
    // a closing bracket that closes nothing, behind a case
    ("case a)\nb", "Word case, Ident a, Mark ), Ident b"),
    ("case a]\nb", "Word case, Ident a, Mark ], Ident b"),
    ("case a}\nb", "Word case, Ident a, Mark }, Ident b"),
    (
        "case a)\nb => c\nd",
        "Word case, Ident a, Mark ), Ident b, Mark =>, Ident c, Separator, Ident d",
    ),
    (
        "(a))case b\nc => d\ne",
        "Mark (, Ident a, Mark ), Mark ), Word case, Ident b, Ident c, Mark =>, Ident d, Separator, Ident e",
    ),
    // an arrow without a case
    ("a => b\nc", "Ident a, Mark =>, Ident b, Separator, Ident c"),
    ("=> a\nb", "Mark =>, Ident a, Separator, Ident b"),
    (
        "(a => b\nc)\nd",
        "Mark (, Ident a, Mark =>, Ident b, Ident c, Mark ), Separator, Ident d",
    ),
    (
        "{a => b\nc}",
        "Mark {, Ident a, Mark =>, Ident b, Separator, Ident c, Mark }",
    ),
    ("(=> a\nb)", "Mark (, Mark =>, Ident a, Ident b, Mark )"),
    (
        "case a => b => c\nd",
        "Word case, Ident a, Mark =>, Ident b, Mark =>, Ident c, Separator, Ident d",
    ),
    (
        "(case a => b => c\nd)",
        "Mark (, Word case, Ident a, Mark =>, Ident b, Mark =>, Ident c, Ident d, Mark )",
    ),
    // a case of a class
    (
        "case class A\nclass B",
        "Word case, Word class, Ident A, Word class, Ident B",
    ),
    // what isn't the arrow or the word
    (
        "case a =>> b\nc",
        "Word case, Ident a, Operator =>>, Ident b, Ident c",
    ),
    (
        "case a \"=>\"\nb",
        "Word case, Ident a, Quoted \"=>\", Ident b",
    ),
    ("case a /*=>*/\nb", "Word case, Ident a, Ident b"),
    (
        "'case\na\nb",
        "Symbol 'case, Separator, Ident a, Separator, Ident b",
    ),
    ("case\"a\"\nb", "Prefixed case\"a\", Separator, Ident b"),
    (
        "cases\na\nb",
        "Ident cases, Separator, Ident a, Separator, Ident b",
    ),
];
