// Patterns with little room, and patterns that nest.

/// With the room that they need, and with one level less.
pub const TIGHT: &[u8] = br#"
x match { case _ => } $ 62 $ match(x@0-1;case(any()@15-16=>))@0-21 rest 0
x match { case _ => } $ 63 $ G6 at 2
x match { case _: a.b => } $ 61 $ match(x@0-1;case(any(a.b@18-21)@15-21=>))@0-26 rest 0
x match { case _: a.b => } $ 62 $ G6 at 16
x match { case _: a[b,c[d]] => } $ 59 $ match(x@0-1;case(any(a[b@20-21,c[d@24-25]@22-26]@18-27)@15-27=>))@0-32 rest 0
x match { case _: a[b,c[d]] => } $ 60 $ G6 at 23
x match { case l => } $ 62 $ match(x@0-1;case(l@15-16=>))@0-21 rest 0
x match { case l => } $ 63 $ G6 at 2
x match { case to => } $ 62 $ match(x@0-1;case(to@15-17=>))@0-22 rest 0
x match { case to => } $ 63 $ G6 at 2
x match { case Invariant => } $ 62 $ match(x@0-1;case(Invariant@15-24=>))@0-29 rest 0
x match { case Invariant => } $ 63 $ G6 at 2
x match { case a: b => } $ 61 $ match(x@0-1;case(bind(a:b@18-19)@15-19=>))@0-24 rest 0
x match { case a: b => } $ 62 $ G6 at 16
x match { case a: b[c] => } $ 60 $ match(x@0-1;case(bind(a:b[c@20-21]@18-22)@15-22=>))@0-27 rest 0
x match { case a: b[c] => } $ 61 $ G6 at 19
x match { case Contract: a => } $ 61 $ match(x@0-1;case(bind(Contract:a@25-26)@15-26=>))@0-31 rest 0
x match { case Contract: a => } $ 62 $ G6 at 23
x match { case F: T => } $ 61 $ match(x@0-1;case(bind(F:T@18-19)@15-19=>))@0-24 rest 0
x match { case F: T => } $ 62 $ G6 at 16
x match { case F => } $ 62 $ match(x@0-1;case(literal(Ident F)@15-16=>))@0-21 rest 0
x match { case F => } $ 63 $ G6 at 2
x match { case -1 => } $ 62 $ match(x@0-1;case(literal(-Number 1)@15-17=>))@0-22 rest 0
x match { case -1 => } $ 63 $ G6 at 2
x match { case 0 => } $ 62 $ match(x@0-1;case(literal(Number 0)@15-16=>))@0-21 rest 0
x match { case 0 => } $ 63 $ G6 at 2
x match { case "" => } $ 62 $ match(x@0-1;case(literal(Quoted "")@15-17=>))@0-22 rest 0
x match { case "" => } $ 63 $ G6 at 2
x match { case 'a' => } $ 62 $ match(x@0-1;case(literal(Letter 'a')@15-18=>))@0-23 rest 0
x match { case 'a' => } $ 63 $ G6 at 2
x match { case s"a" => } $ 62 $ match(x@0-1;case(literal(Prefixed s"a")@15-19=>))@0-24 rest 0
x match { case s"a" => } $ 63 $ G6 at 2
x match { case a.b => } $ 62 $ match(x@0-1;case(constant(a.b)@15-18=>))@0-23 rest 0
x match { case a.b => } $ 63 $ G6 at 2
x match { case T.F => } $ 62 $ match(x@0-1;case(constant(T.F)@15-18=>))@0-23 rest 0
x match { case T.F => } $ 63 $ G6 at 2
x match { case a.T => } $ 62 $ match(x@0-1;case(constant(a.T)@15-18=>))@0-23 rest 0
x match { case a.T => } $ 63 $ G6 at 2
x match { case a . b => } $ 62 $ match(x@0-1;case(constant(a.b)@15-20=>))@0-25 rest 0
x match { case a . b => } $ 63 $ G6 at 2
x match { case a(b) => } $ 61 $ match(x@0-1;case(class(a;b@17-18)@15-19=>))@0-24 rest 0
x match { case a(b) => } $ 62 $ G6 at 17
x match { case a(b, c, d) => } $ 61 $ match(x@0-1;case(class(a;b@17-18,c@20-21,d@23-24)@15-25=>))@0-30 rest 0
x match { case a(b, c, d) => } $ 62 $ G6 at 17
x match { case a.b(c) => } $ 61 $ match(x@0-1;case(class(a.b;c@19-20)@15-21=>))@0-26 rest 0
x match { case a.b(c) => } $ 62 $ G6 at 19
x match { case T() => } $ 62 $ match(x@0-1;case(class(T;)@15-18=>))@0-23 rest 0
x match { case T() => } $ 63 $ G6 at 2
x match { case until(to) => } $ 61 $ match(x@0-1;case(class(until;to@21-23)@15-24=>))@0-29 rest 0
x match { case until(to) => } $ 62 $ G6 at 21
x match { case a(_) => } $ 61 $ match(x@0-1;case(class(a;any()@17-18)@15-19=>))@0-24 rest 0
x match { case a(_) => } $ 62 $ G6 at 17
x match { case a(_: b, c: d) => } $ 60 $ match(x@0-1;case(class(a;any(b@20-21)@17-21,bind(c:d@26-27)@23-27)@15-28=>))@0-33 rest 0
x match { case a(_: b, c: d) => } $ 61 $ G6 at 18
x match { case a(1,-2) => } $ 61 $ match(x@0-1;case(class(a;literal(Number 1)@17-18,literal(-Number 2)@19-21)@15-22=>))@0-27 rest 0
x match { case a(1,-2) => } $ 62 $ G6 at 17
x match { case a('b') => } $ 61 $ match(x@0-1;case(class(a;literal(Letter 'b')@17-20)@15-21=>))@0-26 rest 0
x match { case a('b') => } $ 62 $ G6 at 17
x match { case a(b.c) => } $ 61 $ match(x@0-1;case(class(a;constant(b.c)@17-20)@15-21=>))@0-26 rest 0
x match { case a(b.c) => } $ 62 $ G6 at 17
x match { case a(b()) => } $ 61 $ match(x@0-1;case(class(a;class(b;)@17-20)@15-21=>))@0-26 rest 0
x match { case a(b()) => } $ 62 $ G6 at 17
x match { case a(b(c),d(e)) => } $ 60 $ match(x@0-1;case(class(a;class(b;c@19-20)@17-21,class(d;e@24-25)@22-26)@15-27=>))@0-32 rest 0
x match { case a(b(c),d(e)) => } $ 61 $ G6 at 19
x match { case a(b: c[d], e.f(_, T)) => } $ 59 $ match(x@0-1;case(class(a;bind(b:c[d@22-23]@20-24)@17-24,class(e.f;any()@30-31,literal(Ident T)@33-34)@26-35)@15-36=>))@0-41 rest 0
x match { case a(b: c[d], e.f(_, T)) => } $ 60 $ G6 at 21
"#;

/// Patterns one in another, and types in them.
pub const NESTED: &[u8] = br#"
=x match { case $a($b$)$ => }
61 $ 0 $ rest 0 checksum 974081
62 $ 0 $ rest 0 checksum 920855
63 $ 0 $ G6 at 141
64 $ 0 $ G6 at 141
61 $ 1 $ rest 0 checksum 974081
62 $ 1 $ G6 at 139
52 $ 10 $ rest 0 checksum 539973
53 $ 10 $ G6 at 121
0 $ 62 $ rest 0 checksum 363089
1 $ 62 $ G6 at 17
0 $ 63 $ G6 at 2
1 $ 63 $ G6 at 2
0 $ 64 $ G6 at 0
1 $ 64 $ G6 at 0
0 $ 70 $ G6 at 0
1 $ 70 $ G6 at 0
=x match { case $a.b(c, $_$, d)$ => }
61 $ 0 $ rest 0 checksum 952533
62 $ 0 $ rest 0 checksum 483221
63 $ 0 $ G6 at 453
64 $ 0 $ G6 at 453
61 $ 1 $ rest 0 checksum 952533
62 $ 1 $ G6 at 446
0 $ 62 $ rest 0 checksum 805478
1 $ 62 $ G6 at 19
0 $ 63 $ G6 at 2
1 $ 63 $ G6 at 2
0 $ 64 $ G6 at 0
1 $ 64 $ G6 at 0
0 $ 70 $ G6 at 0
1 $ 70 $ G6 at 0
=x match { case $a($$)$ => }
62 $ 0 $ rest 0 checksum 564704
63 $ 0 $ rest 0 checksum 369968
64 $ 0 $ G6 at 141
65 $ 0 $ G6 at 141
62 $ 1 $ rest 0 checksum 564704
63 $ 1 $ G6 at 139
1 $ 62 $ rest 0 checksum 691284
2 $ 62 $ G6 at 17
0 $ 63 $ G6 at 2
1 $ 63 $ G6 at 2
0 $ 64 $ G6 at 0
1 $ 64 $ G6 at 0
0 $ 70 $ G6 at 0
1 $ 70 $ G6 at 0
=x match { case $a($b: c$)$ => }
60 $ 0 $ rest 0 checksum 914599
61 $ 0 $ rest 0 checksum 368808
62 $ 0 $ G6 at 140
63 $ 0 $ G6 at 141
60 $ 1 $ rest 0 checksum 914599
61 $ 1 $ G6 at 138
0 $ 62 $ G6 at 16
1 $ 62 $ G6 at 17
0 $ 63 $ G6 at 2
1 $ 63 $ G6 at 2
0 $ 64 $ G6 at 0
1 $ 64 $ G6 at 0
0 $ 70 $ G6 at 0
1 $ 70 $ G6 at 0
=x match { case $a($_: c$)$ => }
60 $ 0 $ rest 0 checksum 826546
61 $ 0 $ rest 0 checksum 825297
62 $ 0 $ G6 at 140
63 $ 0 $ G6 at 141
60 $ 1 $ rest 0 checksum 826546
61 $ 1 $ G6 at 138
0 $ 62 $ G6 at 16
1 $ 62 $ G6 at 17
0 $ 63 $ G6 at 2
1 $ 63 $ G6 at 2
0 $ 64 $ G6 at 0
1 $ 64 $ G6 at 0
0 $ 70 $ G6 at 0
1 $ 70 $ G6 at 0
=x match { case $a($-1$)$ => }
61 $ 0 $ rest 0 checksum 46721
62 $ 0 $ rest 0 checksum 427567
63 $ 0 $ G6 at 141
64 $ 0 $ G6 at 141
61 $ 1 $ rest 0 checksum 46721
62 $ 1 $ G6 at 139
0 $ 62 $ rest 0 checksum 288172
1 $ 62 $ G6 at 17
0 $ 63 $ G6 at 2
1 $ 63 $ G6 at 2
0 $ 64 $ G6 at 0
1 $ 64 $ G6 at 0
0 $ 70 $ G6 at 0
1 $ 70 $ G6 at 0
=x match { case $a($a.b$)$ => }
61 $ 0 $ rest 0 checksum 444569
62 $ 0 $ rest 0 checksum 327575
63 $ 0 $ G6 at 141
64 $ 0 $ G6 at 141
61 $ 1 $ rest 0 checksum 444569
62 $ 1 $ G6 at 139
0 $ 62 $ rest 0 checksum 811963
1 $ 62 $ G6 at 17
0 $ 63 $ G6 at 2
1 $ 63 $ G6 at 2
0 $ 64 $ G6 at 0
1 $ 64 $ G6 at 0
0 $ 70 $ G6 at 0
1 $ 70 $ G6 at 0
=x match { case b: $a[$a$]$ => }
60 $ 0 $ rest 0 checksum 920470
61 $ 0 $ rest 0 checksum 446286
62 $ 0 $ G6 at 141
63 $ 0 $ G6 at 141
60 $ 1 $ rest 0 checksum 920470
61 $ 1 $ G6 at 139
0 $ 62 $ G6 at 16
1 $ 62 $ G6 at 16
0 $ 63 $ G6 at 2
1 $ 63 $ G6 at 2
0 $ 64 $ G6 at 0
1 $ 64 $ G6 at 0
0 $ 70 $ G6 at 0
1 $ 70 $ G6 at 0
=x match { case _: $a[$a$]$ => }
60 $ 0 $ rest 0 checksum 179131
61 $ 0 $ rest 0 checksum 63881
62 $ 0 $ G6 at 141
63 $ 0 $ G6 at 141
60 $ 1 $ rest 0 checksum 179131
61 $ 1 $ G6 at 139
0 $ 62 $ G6 at 16
1 $ 62 $ G6 at 16
0 $ 63 $ G6 at 2
1 $ 63 $ G6 at 2
0 $ 64 $ G6 at 0
1 $ 64 $ G6 at 0
0 $ 70 $ G6 at 0
1 $ 70 $ G6 at 0
=x match { case a(b: $a[$a$]$) => }
59 $ 0 $ rest 0 checksum 869892
60 $ 0 $ rest 0 checksum 848708
61 $ 0 $ G6 at 141
62 $ 0 $ G6 at 141
59 $ 1 $ rest 0 checksum 869892
60 $ 1 $ G6 at 139
0 $ 62 $ G6 at 17
1 $ 62 $ G6 at 17
0 $ 63 $ G6 at 2
1 $ 63 $ G6 at 2
0 $ 64 $ G6 at 0
1 $ 64 $ G6 at 0
0 $ 70 $ G6 at 0
1 $ 70 $ G6 at 0
=x match { case $a($b$$
61 $ 0 $ G1 at 138
62 $ 0 $ G1 at 140
63 $ 0 $ G6 at 141
64 $ 0 $ G6 at 141
65 $ 0 $ G6 at 141
1000 $ 0 $ G6 at 141
=x match { case $a($b:$$
61 $ 0 $ G1 at 139
62 $ 0 $ G6 at 140
63 $ 0 $ G6 at 141
64 $ 0 $ G6 at 141
=x match { case $a($_:$$
61 $ 0 $ G1 at 139
62 $ 0 $ G6 at 140
63 $ 0 $ G6 at 141
64 $ 0 $ G6 at 141
=x match { case $a($b.$$
61 $ 0 $ G1 at 139
62 $ 0 $ G1 at 141
63 $ 0 $ G6 at 141
64 $ 0 $ G6 at 141
=x match { case $a($-$$
61 $ 0 $ G1 at 138
62 $ 0 $ G1 at 140
63 $ 0 $ G6 at 141
64 $ 0 $ G6 at 141
=x match { case $a($)$$
61 $ 0 $ G1 at 138
62 $ 0 $ G1 at 140
63 $ 0 $ G1 at 142
64 $ 0 $ G6 at 141
=x match { case $a($b,$$
61 $ 0 $ G1 at 139
62 $ 0 $ G1 at 141
63 $ 0 $ G6 at 141
64 $ 0 $ G6 at 141
"#;

/// Long ones.
pub const LONG: &[u8] = br#"
=x match { case a(b$$$,b$) => }
9999 $ 61 $ rest 0 checksum 545340
9999 $ 62 $ G6 at 17
=x match { case a$$$.b$ => }
9999 $ 62 $ rest 0 checksum 47632
9999 $ 63 $ G6 at 2
=x match { case $a($$$
10000 $ 0 $ G6 at 141
100000 $ 0 $ G6 at 141
"#;
