// Patterns, as the pattern of a case.

/// Each form.
pub const WHOLE: &[u8] = br#"
x match { case _ => } $ 0 $ match(x@0-1;case(any()@15-16=>))@0-21 rest 0
x match { case _: a => } $ 0 $ match(x@0-1;case(any(a@18-19)@15-19=>))@0-24 rest 0
x match { case _: a.b => } $ 0 $ match(x@0-1;case(any(a.b@18-21)@15-21=>))@0-26 rest 0
x match { case _: a[b] => } $ 0 $ match(x@0-1;case(any(a[b@20-21]@18-22)@15-22=>))@0-27 rest 0
x match { case _: a[b,c[d]] => } $ 0 $ match(x@0-1;case(any(a[b@20-21,c[d@24-25]@22-26]@18-27)@15-27=>))@0-32 rest 0
x match { case a => } $ 0 $ match(x@0-1;case(a@15-16=>))@0-21 rest 0
x match { case l => } $ 0 $ match(x@0-1;case(l@15-16=>))@0-21 rest 0
x match { case until => } $ 0 $ match(x@0-1;case(until@15-20=>))@0-25 rest 0
x match { case to => } $ 0 $ match(x@0-1;case(to@15-17=>))@0-22 rest 0
x match { case Contract => } $ 0 $ match(x@0-1;case(Contract@15-23=>))@0-28 rest 0
x match { case Invariant => } $ 0 $ match(x@0-1;case(Invariant@15-24=>))@0-29 rest 0
x match { case _a => } $ 0 $ match(x@0-1;case(_a@15-17=>))@0-22 rest 0
x match { case a: b => } $ 0 $ match(x@0-1;case(bind(a:b@18-19)@15-19=>))@0-24 rest 0
x match { case a: b.c => } $ 0 $ match(x@0-1;case(bind(a:b.c@18-21)@15-21=>))@0-26 rest 0
x match { case a: b[c] => } $ 0 $ match(x@0-1;case(bind(a:b[c@20-21]@18-22)@15-22=>))@0-27 rest 0
x match { case until: to => } $ 0 $ match(x@0-1;case(bind(until:to@22-24)@15-24=>))@0-29 rest 0
x match { case Contract: a => } $ 0 $ match(x@0-1;case(bind(Contract:a@25-26)@15-26=>))@0-31 rest 0
x match { case T: a => } $ 0 $ match(x@0-1;case(bind(T:a@18-19)@15-19=>))@0-24 rest 0
x match { case F: T => } $ 0 $ match(x@0-1;case(bind(F:T@18-19)@15-19=>))@0-24 rest 0
x match { case T => } $ 0 $ match(x@0-1;case(literal(Ident T)@15-16=>))@0-21 rest 0
x match { case F => } $ 0 $ match(x@0-1;case(literal(Ident F)@15-16=>))@0-21 rest 0
x match { case 1 => } $ 0 $ match(x@0-1;case(literal(Number 1)@15-16=>))@0-21 rest 0
x match { case -1 => } $ 0 $ match(x@0-1;case(literal(-Number 1)@15-17=>))@0-22 rest 0
x match { case - 1 => } $ 0 $ match(x@0-1;case(literal(-Number 1)@15-18=>))@0-23 rest 0
x match { case 0 => } $ 0 $ match(x@0-1;case(literal(Number 0)@15-16=>))@0-21 rest 0
x match { case "a" => } $ 0 $ match(x@0-1;case(literal(Quoted "a")@15-18=>))@0-23 rest 0
x match { case "" => } $ 0 $ match(x@0-1;case(literal(Quoted "")@15-17=>))@0-22 rest 0
x match { case """a""" => } $ 0 $ match(x@0-1;case(literal(Quoted """a""")@15-22=>))@0-27 rest 0
x match { case 'a' => } $ 0 $ match(x@0-1;case(literal(Letter 'a')@15-18=>))@0-23 rest 0
x match { case '\'' => } $ 0 $ match(x@0-1;case(literal(Letter '\'')@15-19=>))@0-24 rest 0
x match { case s"a" => } $ 0 $ match(x@0-1;case(literal(Prefixed s"a")@15-19=>))@0-24 rest 0
x match { case l"a" => } $ 0 $ match(x@0-1;case(literal(Prefixed l"a")@15-19=>))@0-24 rest 0
x match { case a.b => } $ 0 $ match(x@0-1;case(constant(a.b)@15-18=>))@0-23 rest 0
x match { case a.b.c => } $ 0 $ match(x@0-1;case(constant(a.b.c)@15-20=>))@0-25 rest 0
x match { case T.F => } $ 0 $ match(x@0-1;case(constant(T.F)@15-18=>))@0-23 rest 0
x match { case until.to => } $ 0 $ match(x@0-1;case(constant(until.to)@15-23=>))@0-28 rest 0
x match { case a.T => } $ 0 $ match(x@0-1;case(constant(a.T)@15-18=>))@0-23 rest 0
x match { case T.a => } $ 0 $ match(x@0-1;case(constant(T.a)@15-18=>))@0-23 rest 0
x match { case a . b => } $ 0 $ match(x@0-1;case(constant(a.b)@15-20=>))@0-25 rest 0
x match { case a() => } $ 0 $ match(x@0-1;case(class(a;)@15-18=>))@0-23 rest 0
x match { case a(b) => } $ 0 $ match(x@0-1;case(class(a;b@17-18)@15-19=>))@0-24 rest 0
x match { case a(b,c) => } $ 0 $ match(x@0-1;case(class(a;b@17-18,c@19-20)@15-21=>))@0-26 rest 0
x match { case a(b, c, d) => } $ 0 $ match(x@0-1;case(class(a;b@17-18,c@20-21,d@23-24)@15-25=>))@0-30 rest 0
x match { case a.b() => } $ 0 $ match(x@0-1;case(class(a.b;)@15-20=>))@0-25 rest 0
x match { case a.b(c) => } $ 0 $ match(x@0-1;case(class(a.b;c@19-20)@15-21=>))@0-26 rest 0
x match { case a.b.c(d, e) => } $ 0 $ match(x@0-1;case(class(a.b.c;d@21-22,e@24-25)@15-26=>))@0-31 rest 0
x match { case T() => } $ 0 $ match(x@0-1;case(class(T;)@15-18=>))@0-23 rest 0
x match { case F(a) => } $ 0 $ match(x@0-1;case(class(F;a@17-18)@15-19=>))@0-24 rest 0
x match { case until(to) => } $ 0 $ match(x@0-1;case(class(until;to@21-23)@15-24=>))@0-29 rest 0
x match { case Contract(a) => } $ 0 $ match(x@0-1;case(class(Contract;a@24-25)@15-26=>))@0-31 rest 0
x match { case a(_) => } $ 0 $ match(x@0-1;case(class(a;any()@17-18)@15-19=>))@0-24 rest 0
x match { case a(_: b) => } $ 0 $ match(x@0-1;case(class(a;any(b@20-21)@17-21)@15-22=>))@0-27 rest 0
x match { case a(_: b, c: d) => } $ 0 $ match(x@0-1;case(class(a;any(b@20-21)@17-21,bind(c:d@26-27)@23-27)@15-28=>))@0-33 rest 0
x match { case a(T) => } $ 0 $ match(x@0-1;case(class(a;literal(Ident T)@17-18)@15-19=>))@0-24 rest 0
x match { case a(1,-2) => } $ 0 $ match(x@0-1;case(class(a;literal(Number 1)@17-18,literal(-Number 2)@19-21)@15-22=>))@0-27 rest 0
x match { case a("b") => } $ 0 $ match(x@0-1;case(class(a;literal(Quoted "b")@17-20)@15-21=>))@0-26 rest 0
x match { case a('b') => } $ 0 $ match(x@0-1;case(class(a;literal(Letter 'b')@17-20)@15-21=>))@0-26 rest 0
x match { case a(s"b") => } $ 0 $ match(x@0-1;case(class(a;literal(Prefixed s"b")@17-21)@15-22=>))@0-27 rest 0
x match { case a(b.c) => } $ 0 $ match(x@0-1;case(class(a;constant(b.c)@17-20)@15-21=>))@0-26 rest 0
x match { case a(b.c,d) => } $ 0 $ match(x@0-1;case(class(a;constant(b.c)@17-20,d@21-22)@15-23=>))@0-28 rest 0
x match { case a(b()) => } $ 0 $ match(x@0-1;case(class(a;class(b;)@17-20)@15-21=>))@0-26 rest 0
x match { case a(b(c)) => } $ 0 $ match(x@0-1;case(class(a;class(b;c@19-20)@17-21)@15-22=>))@0-27 rest 0
x match { case a(b(c),d(e)) => } $ 0 $ match(x@0-1;case(class(a;class(b;c@19-20)@17-21,class(d;e@24-25)@22-26)@15-27=>))@0-32 rest 0
x match { case a(b(c(d(e)))) => } $ 0 $ match(x@0-1;case(class(a;class(b;class(c;class(d;e@23-24)@21-25)@19-26)@17-27)@15-28=>))@0-33 rest 0
x match { case a(b: c[d], e.f(_, T)) => } $ 0 $ match(x@0-1;case(class(a;bind(b:c[d@22-23]@20-24)@17-24,class(e.f;any()@30-31,literal(Ident T)@33-34)@26-35)@15-36=>))@0-41 rest 0
x match { case a;.b => } $ 0 $ match(x@0-1;case(constant(a.b)@15-19=>))@0-24 rest 0
x match { case a(;b;,;c;) => } $ 0 $ match(x@0-1;case(class(a;b@18-19,c@22-23)@15-25=>))@0-30 rest 0
x match { case _;: a => } $ 0 $ match(x@0-1;case(any(a@19-20)@15-20=>))@0-25 rest 0
x match { case a;:;b => } $ 0 $ match(x@0-1;case(bind(a:b@19-20)@15-20=>))@0-25 rest 0
x match { case -;1 => } $ 0 $ match(x@0-1;case(literal(-Number 1)@15-18=>))@0-23 rest 0
"#;

/// Before a guard.
pub const GUARDED: &[u8] = br#"
x match { case _ if y => z } $ 0 $ match(x@0-1;case(any()@15-16 if y@20-21=>call(z@25-26)@25-26))@0-28 rest 0
x match { case _: a.b if y => z } $ 0 $ match(x@0-1;case(any(a.b@18-21)@15-21 if y@25-26=>call(z@30-31)@30-31))@0-33 rest 0
x match { case _: a[b,c[d]] if y => z } $ 0 $ match(x@0-1;case(any(a[b@20-21,c[d@24-25]@22-26]@18-27)@15-27 if y@31-32=>call(z@36-37)@36-37))@0-39 rest 0
x match { case l if y => z } $ 0 $ match(x@0-1;case(l@15-16 if y@20-21=>call(z@25-26)@25-26))@0-28 rest 0
x match { case to if y => z } $ 0 $ match(x@0-1;case(to@15-17 if y@21-22=>call(z@26-27)@26-27))@0-29 rest 0
x match { case Invariant if y => z } $ 0 $ match(x@0-1;case(Invariant@15-24 if y@28-29=>call(z@33-34)@33-34))@0-36 rest 0
x match { case a: b if y => z } $ 0 $ match(x@0-1;case(bind(a:b@18-19)@15-19 if y@23-24=>call(z@28-29)@28-29))@0-31 rest 0
x match { case a: b[c] if y => z } $ 0 $ match(x@0-1;case(bind(a:b[c@20-21]@18-22)@15-22 if y@26-27=>call(z@31-32)@31-32))@0-34 rest 0
x match { case Contract: a if y => z } $ 0 $ match(x@0-1;case(bind(Contract:a@25-26)@15-26 if y@30-31=>call(z@35-36)@35-36))@0-38 rest 0
x match { case F: T if y => z } $ 0 $ match(x@0-1;case(bind(F:T@18-19)@15-19 if y@23-24=>call(z@28-29)@28-29))@0-31 rest 0
x match { case F if y => z } $ 0 $ match(x@0-1;case(literal(Ident F)@15-16 if y@20-21=>call(z@25-26)@25-26))@0-28 rest 0
x match { case -1 if y => z } $ 0 $ match(x@0-1;case(literal(-Number 1)@15-17 if y@21-22=>call(z@26-27)@26-27))@0-29 rest 0
x match { case 0 if y => z } $ 0 $ match(x@0-1;case(literal(Number 0)@15-16 if y@20-21=>call(z@25-26)@25-26))@0-28 rest 0
x match { case "" if y => z } $ 0 $ match(x@0-1;case(literal(Quoted "")@15-17 if y@21-22=>call(z@26-27)@26-27))@0-29 rest 0
x match { case 'a' if y => z } $ 0 $ match(x@0-1;case(literal(Letter 'a')@15-18 if y@22-23=>call(z@27-28)@27-28))@0-30 rest 0
x match { case s"a" if y => z } $ 0 $ match(x@0-1;case(literal(Prefixed s"a")@15-19 if y@23-24=>call(z@28-29)@28-29))@0-31 rest 0
x match { case a.b if y => z } $ 0 $ match(x@0-1;case(constant(a.b)@15-18 if y@22-23=>call(z@27-28)@27-28))@0-30 rest 0
x match { case T.F if y => z } $ 0 $ match(x@0-1;case(constant(T.F)@15-18 if y@22-23=>call(z@27-28)@27-28))@0-30 rest 0
x match { case a.T if y => z } $ 0 $ match(x@0-1;case(constant(a.T)@15-18 if y@22-23=>call(z@27-28)@27-28))@0-30 rest 0
x match { case a . b if y => z } $ 0 $ match(x@0-1;case(constant(a.b)@15-20 if y@24-25=>call(z@29-30)@29-30))@0-32 rest 0
x match { case a(b) if y => z } $ 0 $ match(x@0-1;case(class(a;b@17-18)@15-19 if y@23-24=>call(z@28-29)@28-29))@0-31 rest 0
x match { case a(b, c, d) if y => z } $ 0 $ match(x@0-1;case(class(a;b@17-18,c@20-21,d@23-24)@15-25 if y@29-30=>call(z@34-35)@34-35))@0-37 rest 0
x match { case a.b(c) if y => z } $ 0 $ match(x@0-1;case(class(a.b;c@19-20)@15-21 if y@25-26=>call(z@30-31)@30-31))@0-33 rest 0
x match { case T() if y => z } $ 0 $ match(x@0-1;case(class(T;)@15-18 if y@22-23=>call(z@27-28)@27-28))@0-30 rest 0
x match { case until(to) if y => z } $ 0 $ match(x@0-1;case(class(until;to@21-23)@15-24 if y@28-29=>call(z@33-34)@33-34))@0-36 rest 0
x match { case a(_) if y => z } $ 0 $ match(x@0-1;case(class(a;any()@17-18)@15-19 if y@23-24=>call(z@28-29)@28-29))@0-31 rest 0
x match { case a(_: b, c: d) if y => z } $ 0 $ match(x@0-1;case(class(a;any(b@20-21)@17-21,bind(c:d@26-27)@23-27)@15-28 if y@32-33=>call(z@37-38)@37-38))@0-40 rest 0
x match { case a(1,-2) if y => z } $ 0 $ match(x@0-1;case(class(a;literal(Number 1)@17-18,literal(-Number 2)@19-21)@15-22 if y@26-27=>call(z@31-32)@31-32))@0-34 rest 0
x match { case a('b') if y => z } $ 0 $ match(x@0-1;case(class(a;literal(Letter 'b')@17-20)@15-21 if y@25-26=>call(z@30-31)@30-31))@0-33 rest 0
x match { case a(b.c) if y => z } $ 0 $ match(x@0-1;case(class(a;constant(b.c)@17-20)@15-21 if y@25-26=>call(z@30-31)@30-31))@0-33 rest 0
"#;
