// Infix operators of several levels, with prefixes, suffixes and other forms as operands.

/// Operators of several levels.
pub const MIXED: &[u8] = br#"
a | b & c == d < e :+ f + g * h $ 0 $ infix(a@0-1 | infix(b@4-5 & infix(c@8-9 == infix(d@13-14 < infix(e@17-18 :+ infix(f@22-23 + infix(g@26-27 * h@30-31)@26-31)@22-31)@17-31)@13-31)@8-31)@4-31)@0-31 rest 0
a * b + c :+ d < e == f & g | h $ 0 $ infix(infix(infix(infix(infix(infix(infix(a@0-1 * b@4-5)@0-5 + c@8-9)@0-9 :+ d@13-14)@0-14 < e@17-18)@0-18 == f@22-23)@0-23 & g@26-27)@0-27 | h@30-31)@0-31 rest 0
a - b - c - d $ 0 $ infix(infix(infix(a@0-1 - b@4-5)@0-5 - c@8-9)@0-9 - d@12-13)@0-13 rest 0
a - b + c - d $ 0 $ infix(infix(infix(a@0-1 - b@4-5)@0-5 + c@8-9)@0-9 - d@12-13)@0-13 rest 0
a * b / c % d $ 0 $ infix(infix(infix(a@0-1 * b@4-5)@0-5 / c@8-9)@0-9 % d@12-13)@0-13 rest 0
a || b && c || d $ 0 $ infix(infix(a@0-1 || infix(b@5-6 && c@10-11)@5-11)@0-11 || d@15-16)@0-16 rest 0
a && b || c && d $ 0 $ infix(infix(a@0-1 && b@5-6)@0-6 || infix(c@10-11 && d@15-16)@10-16)@0-16 rest 0
a + b * c - d / e $ 0 $ infix(infix(a@0-1 + infix(b@4-5 * c@8-9)@4-9)@0-9 - infix(d@12-13 / e@16-17)@12-17)@0-17 rest 0
a * b + c * d $ 0 $ infix(infix(a@0-1 * b@4-5)@0-5 + infix(c@8-9 * d@12-13)@8-13)@0-13 rest 0
a < b + c * d $ 0 $ infix(a@0-1 < infix(b@4-5 + infix(c@8-9 * d@12-13)@8-13)@4-13)@0-13 rest 0
a == b < c + d * e $ 0 $ infix(a@0-1 == infix(b@5-6 < infix(c@9-10 + infix(d@13-14 * e@17-18)@13-18)@9-18)@5-18)@0-18 rest 0
a :+ b :+ c $ 0 $ infix(infix(a@0-1 :+ b@5-6)@0-6 :+ c@10-11)@0-11 rest 0
a :+ b + c :+ d $ 0 $ infix(infix(a@0-1 :+ infix(b@5-6 + c@9-10)@5-10)@0-10 :+ d@14-15)@0-15 rest 0
a << b + c $ 0 $ infix(a@0-1 << infix(b@5-6 + c@9-10)@5-10)@0-10 rest 0
a + b << c $ 0 $ infix(infix(a@0-1 + b@4-5)@0-5 << c@9-10)@0-10 rest 0
a == b == c $ 0 $ infix(infix(a@0-1 == b@5-6)@0-6 == c@10-11)@0-11 rest 0
a != b == c != d $ 0 $ infix(infix(infix(a@0-1 != b@5-6)@0-6 == c@10-11)@0-11 != d@15-16)@0-16 rest 0
a < b < c $ 0 $ infix(infix(a@0-1 < b@4-5)@0-5 < c@8-9)@0-9 rest 0
a >>> b >> c << d $ 0 $ infix(infix(infix(a@0-1 >>> b@6-7)@0-7 >> c@11-12)@0-12 << d@16-17)@0-17 rest 0
(a | b) & c $ 0 $ infix(paren(infix(a@1-2 | b@5-6)@1-6)@0-7 & c@10-11)@0-11 rest 0
a * (b + c) $ 0 $ infix(a@0-1 * paren(infix(b@5-6 + c@9-10)@5-10)@4-11)@0-11 rest 0
(a + b) * (c - d) $ 0 $ infix(paren(infix(a@1-2 + b@5-6)@1-6)@0-7 * paren(infix(c@11-12 - d@15-16)@11-16)@10-17)@0-17 rest 0
a - (b - c) $ 0 $ infix(a@0-1 - paren(infix(b@5-6 - c@9-10)@5-10)@4-11)@0-11 rest 0
-a * b $ 0 $ infix(prefix(- a@1-2)@0-2 * b@5-6)@0-6 rest 0
a * -b $ 0 $ infix(a@0-1 * prefix(- b@5-6)@4-6)@0-6 rest 0
a - -b $ 0 $ infix(a@0-1 - prefix(- b@5-6)@4-6)@0-6 rest 0
a - -1 $ 0 $ infix(a@0-1 - literal(-Number 1)@4-6)@0-6 rest 0
a - 1 $ 0 $ infix(a@0-1 - literal(Number 1)@4-5)@0-5 rest 0
a -1 $ 0 $ infix(a@0-1 - literal(Number 1)@3-4)@0-4 rest 0
1 - 1 $ 0 $ infix(literal(Number 1)@0-1 - literal(Number 1)@4-5)@0-5 rest 0
-1 - -1 $ 0 $ infix(literal(-Number 1)@0-2 - literal(-Number 1)@5-7)@0-7 rest 0
-a + -b * -c $ 0 $ infix(prefix(- a@1-2)@0-2 + infix(prefix(- b@6-7)@5-7 * prefix(- c@11-12)@10-12)@5-12)@0-12 rest 0
!a & !b $ 0 $ infix(prefix(! a@1-2)@0-2 & prefix(! b@6-7)@5-7)@0-7 rest 0
!a == b $ 0 $ infix(prefix(! a@1-2)@0-2 == b@6-7)@0-7 rest 0
~a | ~b $ 0 $ infix(prefix(~ a@1-2)@0-2 | prefix(~ b@6-7)@5-7)@0-7 rest 0
-a.b * c.d $ 0 $ infix(prefix(- select(a@1-2 b)@1-4)@0-4 * select(c@7-8 d)@7-10)@0-10 rest 0
a.b + c(d) * e[f] $ 0 $ infix(select(a@0-1 b)@0-3 + infix(apply(c@6-7;d@8-9)@6-10 * given(e@13-14;f@15-16)@13-17)@6-17)@0-17 rest 0
a(b) == c $ 0 $ infix(apply(a@0-1;b@2-3)@0-4 == c@8-9)@0-9 rest 0
a(b + c * d) + e $ 0 $ infix(apply(a@0-1;infix(b@2-3 + infix(c@6-7 * d@10-11)@6-11)@2-11)@0-12 + e@15-16)@0-16 rest 0
a[b] * c $ 0 $ infix(given(a@0-1;b@2-3)@0-4 * c@7-8)@0-8 rest 0
1 + 2 * 3 $ 0 $ infix(literal(Number 1)@0-1 + infix(literal(Number 2)@4-5 * literal(Number 3)@8-9)@4-9)@0-9 rest 0
"a" + 'b' $ 0 $ infix(literal(Quoted "a")@0-3 + literal(Letter 'b')@6-9)@0-9 rest 0
T & F | T $ 0 $ infix(infix(T@0-1 & F@4-5)@0-5 | T@8-9)@0-9 rest 0
this + this $ 0 $ infix(this()@0-4 + this()@7-11)@0-11 rest 0
until + to $ 0 $ infix(until@0-5 + to@8-10)@0-10 rest 0
until until until $ 0 $ until@0-5 rest 2
a to b $ 0 $ a@0-1 rest 2
Contract + Invariant $ 0 $ infix(Contract@0-8 + Invariant@11-20)@0-20 rest 0
Contract(a) + Invariant(b) $ 0 $ infix(apply(Contract@0-8;a@9-10)@0-11 + apply(Invariant@14-23;b@24-25)@14-26)@0-26 rest 0
l"a" + l"b" $ 0 $ infix(literal(Prefixed l"a")@0-4 + literal(Prefixed l"b")@7-11)@0-11 rest 0
a +; b $ 0 $ infix(a@0-1 + b@5-6)@0-6 rest 0
a; + b $ 0 $ a@0-1 rest 3
a + // b;c $ 0 $ infix(a@0-1 + c@9-10)@0-10 rest 0
a +/* */b $ 0 $ infix(a@0-1 + b@8-9)@0-9 rest 0
a+b $ 0 $ infix(a@0-1 + b@2-3)@0-3 rest 0
a*b+c $ 0 $ infix(infix(a@0-1 * b@2-3)@0-3 + c@4-5)@0-5 rest 0
a-b $ 0 $ infix(a@0-1 - b@2-3)@0-3 rest 0
a- b $ 0 $ infix(a@0-1 - b@3-4)@0-4 rest 0
a<b $ 0 $ infix(a@0-1 < b@2-3)@0-3 rest 0
a>b $ 0 $ infix(a@0-1 > b@2-3)@0-3 rest 0
a==b $ 0 $ infix(a@0-1 == b@3-4)@0-4 rest 0
a:+b $ 0 $ infix(a@0-1 :+ b@3-4)@0-4 rest 0
a|b&c $ 0 $ infix(a@0-1 | infix(b@2-3 & c@4-5)@2-5)@0-5 rest 0
a &&b $ 0 $ infix(a@0-1 && b@4-5)@0-5 rest 0
a | -b $ 0 $ infix(a@0-1 | prefix(- b@5-6)@4-6)@0-6 rest 0
-a | b $ 0 $ infix(prefix(- a@1-2)@0-2 | b@5-6)@0-6 rest 0
!a | ~b $ 0 $ infix(prefix(! a@1-2)@0-2 | prefix(~ b@6-7)@5-7)@0-7 rest 0
a | -1 $ 0 $ infix(a@0-1 | literal(-Number 1)@4-6)@0-6 rest 0
-1 | a $ 0 $ infix(literal(-Number 1)@0-2 | a@5-6)@0-6 rest 0
a | b.c $ 0 $ infix(a@0-1 | select(b@4-5 c)@4-7)@0-7 rest 0
a.b | c $ 0 $ infix(select(a@0-1 b)@0-3 | c@6-7)@0-7 rest 0
a | b(c) $ 0 $ infix(a@0-1 | apply(b@4-5;c@6-7)@4-8)@0-8 rest 0
a(b) | c $ 0 $ infix(apply(a@0-1;b@2-3)@0-4 | c@7-8)@0-8 rest 0
a | (b) $ 0 $ infix(a@0-1 | paren(b@5-6)@4-7)@0-7 rest 0
a | b match { case c => } $ 0 $ match(infix(a@0-1 | b@4-5)@0-5;case(c@19-20=>))@0-25 rest 0
a | if (b) c else d $ 0 $ G1 at 4
if (a) b else c | d $ 0 $ if(a@4-5,b@7-8,infix(c@14-15 | d@18-19)@14-19)@0-19 rest 0
if (a) b | c else d $ 0 $ if(a@4-5,infix(b@7-8 | c@11-12)@7-12,d@18-19)@0-19 rest 0
a | $ 0 $ G1 at 3
a | ) $ 0 $ G1 at 4
| a $ 0 $ G1 at 0
a | | b $ 0 $ G1 at 4
a | b | $ 0 $ G1 at 7
a | = b $ 0 $ G1 at 4
a | b = c $ 0 $ infix(a@0-1 | b@4-5)@0-5 rest 2
a & -b $ 0 $ infix(a@0-1 & prefix(- b@5-6)@4-6)@0-6 rest 0
-a & b $ 0 $ infix(prefix(- a@1-2)@0-2 & b@5-6)@0-6 rest 0
!a & ~b $ 0 $ infix(prefix(! a@1-2)@0-2 & prefix(~ b@6-7)@5-7)@0-7 rest 0
a & -1 $ 0 $ infix(a@0-1 & literal(-Number 1)@4-6)@0-6 rest 0
-1 & a $ 0 $ infix(literal(-Number 1)@0-2 & a@5-6)@0-6 rest 0
a & b.c $ 0 $ infix(a@0-1 & select(b@4-5 c)@4-7)@0-7 rest 0
a.b & c $ 0 $ infix(select(a@0-1 b)@0-3 & c@6-7)@0-7 rest 0
a & b(c) $ 0 $ infix(a@0-1 & apply(b@4-5;c@6-7)@4-8)@0-8 rest 0
a(b) & c $ 0 $ infix(apply(a@0-1;b@2-3)@0-4 & c@7-8)@0-8 rest 0
a & (b) $ 0 $ infix(a@0-1 & paren(b@5-6)@4-7)@0-7 rest 0
a & b match { case c => } $ 0 $ match(infix(a@0-1 & b@4-5)@0-5;case(c@19-20=>))@0-25 rest 0
a & if (b) c else d $ 0 $ G1 at 4
if (a) b else c & d $ 0 $ if(a@4-5,b@7-8,infix(c@14-15 & d@18-19)@14-19)@0-19 rest 0
if (a) b & c else d $ 0 $ if(a@4-5,infix(b@7-8 & c@11-12)@7-12,d@18-19)@0-19 rest 0
a & $ 0 $ G1 at 3
a & ) $ 0 $ G1 at 4
& a $ 0 $ G1 at 0
a & & b $ 0 $ G1 at 4
a & b & $ 0 $ G1 at 7
a & = b $ 0 $ G1 at 4
a & b = c $ 0 $ infix(a@0-1 & b@4-5)@0-5 rest 2
a == -b $ 0 $ infix(a@0-1 == prefix(- b@6-7)@5-7)@0-7 rest 0
-a == b $ 0 $ infix(prefix(- a@1-2)@0-2 == b@6-7)@0-7 rest 0
!a == ~b $ 0 $ infix(prefix(! a@1-2)@0-2 == prefix(~ b@7-8)@6-8)@0-8 rest 0
a == -1 $ 0 $ infix(a@0-1 == literal(-Number 1)@5-7)@0-7 rest 0
-1 == a $ 0 $ infix(literal(-Number 1)@0-2 == a@6-7)@0-7 rest 0
a == b.c $ 0 $ infix(a@0-1 == select(b@5-6 c)@5-8)@0-8 rest 0
a.b == c $ 0 $ infix(select(a@0-1 b)@0-3 == c@7-8)@0-8 rest 0
a == b(c) $ 0 $ infix(a@0-1 == apply(b@5-6;c@7-8)@5-9)@0-9 rest 0
a == (b) $ 0 $ infix(a@0-1 == paren(b@6-7)@5-8)@0-8 rest 0
a == b match { case c => } $ 0 $ match(infix(a@0-1 == b@5-6)@0-6;case(c@20-21=>))@0-26 rest 0
a == if (b) c else d $ 0 $ G1 at 5
if (a) b else c == d $ 0 $ if(a@4-5,b@7-8,infix(c@14-15 == d@19-20)@14-20)@0-20 rest 0
if (a) b == c else d $ 0 $ if(a@4-5,infix(b@7-8 == c@12-13)@7-13,d@19-20)@0-20 rest 0
a == $ 0 $ G1 at 4
a == ) $ 0 $ G1 at 5
== a $ 0 $ G1 at 0
a == == b $ 0 $ G1 at 5
a == b == $ 0 $ G1 at 9
a == = b $ 0 $ G1 at 5
a == b = c $ 0 $ infix(a@0-1 == b@5-6)@0-6 rest 2
a < -b $ 0 $ infix(a@0-1 < prefix(- b@5-6)@4-6)@0-6 rest 0
-a < b $ 0 $ infix(prefix(- a@1-2)@0-2 < b@5-6)@0-6 rest 0
!a < ~b $ 0 $ infix(prefix(! a@1-2)@0-2 < prefix(~ b@6-7)@5-7)@0-7 rest 0
a < -1 $ 0 $ infix(a@0-1 < literal(-Number 1)@4-6)@0-6 rest 0
-1 < a $ 0 $ infix(literal(-Number 1)@0-2 < a@5-6)@0-6 rest 0
a < b.c $ 0 $ infix(a@0-1 < select(b@4-5 c)@4-7)@0-7 rest 0
a.b < c $ 0 $ infix(select(a@0-1 b)@0-3 < c@6-7)@0-7 rest 0
a < b(c) $ 0 $ infix(a@0-1 < apply(b@4-5;c@6-7)@4-8)@0-8 rest 0
a(b) < c $ 0 $ infix(apply(a@0-1;b@2-3)@0-4 < c@7-8)@0-8 rest 0
a < (b) $ 0 $ infix(a@0-1 < paren(b@5-6)@4-7)@0-7 rest 0
a < b match { case c => } $ 0 $ match(infix(a@0-1 < b@4-5)@0-5;case(c@19-20=>))@0-25 rest 0
a < if (b) c else d $ 0 $ G1 at 4
if (a) b else c < d $ 0 $ if(a@4-5,b@7-8,infix(c@14-15 < d@18-19)@14-19)@0-19 rest 0
if (a) b < c else d $ 0 $ if(a@4-5,infix(b@7-8 < c@11-12)@7-12,d@18-19)@0-19 rest 0
a < $ 0 $ G1 at 3
a < ) $ 0 $ G1 at 4
< a $ 0 $ G1 at 0
a < < b $ 0 $ G1 at 4
a < b < $ 0 $ G1 at 7
a < = b $ 0 $ G1 at 4
a < b = c $ 0 $ infix(a@0-1 < b@4-5)@0-5 rest 2
a :+ -b $ 0 $ infix(a@0-1 :+ prefix(- b@6-7)@5-7)@0-7 rest 0
-a :+ b $ 0 $ infix(prefix(- a@1-2)@0-2 :+ b@6-7)@0-7 rest 0
!a :+ ~b $ 0 $ infix(prefix(! a@1-2)@0-2 :+ prefix(~ b@7-8)@6-8)@0-8 rest 0
a :+ -1 $ 0 $ infix(a@0-1 :+ literal(-Number 1)@5-7)@0-7 rest 0
-1 :+ a $ 0 $ infix(literal(-Number 1)@0-2 :+ a@6-7)@0-7 rest 0
a :+ b.c $ 0 $ infix(a@0-1 :+ select(b@5-6 c)@5-8)@0-8 rest 0
a.b :+ c $ 0 $ infix(select(a@0-1 b)@0-3 :+ c@7-8)@0-8 rest 0
a :+ b(c) $ 0 $ infix(a@0-1 :+ apply(b@5-6;c@7-8)@5-9)@0-9 rest 0
a(b) :+ c $ 0 $ infix(apply(a@0-1;b@2-3)@0-4 :+ c@8-9)@0-9 rest 0
a :+ (b) $ 0 $ infix(a@0-1 :+ paren(b@6-7)@5-8)@0-8 rest 0
a :+ b match { case c => } $ 0 $ match(infix(a@0-1 :+ b@5-6)@0-6;case(c@20-21=>))@0-26 rest 0
a :+ if (b) c else d $ 0 $ G1 at 5
if (a) b else c :+ d $ 0 $ if(a@4-5,b@7-8,infix(c@14-15 :+ d@19-20)@14-20)@0-20 rest 0
if (a) b :+ c else d $ 0 $ if(a@4-5,infix(b@7-8 :+ c@12-13)@7-13,d@19-20)@0-20 rest 0
a :+ $ 0 $ G1 at 4
a :+ ) $ 0 $ G1 at 5
:+ a $ 0 $ G1 at 0
a :+ :+ b $ 0 $ G1 at 5
a :+ b :+ $ 0 $ G1 at 9
a :+ = b $ 0 $ G1 at 5
a :+ b = c $ 0 $ infix(a@0-1 :+ b@5-6)@0-6 rest 2
a + -b $ 0 $ infix(a@0-1 + prefix(- b@5-6)@4-6)@0-6 rest 0
-a + b $ 0 $ infix(prefix(- a@1-2)@0-2 + b@5-6)@0-6 rest 0
!a + ~b $ 0 $ infix(prefix(! a@1-2)@0-2 + prefix(~ b@6-7)@5-7)@0-7 rest 0
a + -1 $ 0 $ infix(a@0-1 + literal(-Number 1)@4-6)@0-6 rest 0
-1 + a $ 0 $ infix(literal(-Number 1)@0-2 + a@5-6)@0-6 rest 0
a + b.c $ 0 $ infix(a@0-1 + select(b@4-5 c)@4-7)@0-7 rest 0
a.b + c $ 0 $ infix(select(a@0-1 b)@0-3 + c@6-7)@0-7 rest 0
a + b(c) $ 0 $ infix(a@0-1 + apply(b@4-5;c@6-7)@4-8)@0-8 rest 0
a(b) + c $ 0 $ infix(apply(a@0-1;b@2-3)@0-4 + c@7-8)@0-8 rest 0
a + (b) $ 0 $ infix(a@0-1 + paren(b@5-6)@4-7)@0-7 rest 0
a + b match { case c => } $ 0 $ match(infix(a@0-1 + b@4-5)@0-5;case(c@19-20=>))@0-25 rest 0
a + if (b) c else d $ 0 $ G1 at 4
if (a) b else c + d $ 0 $ if(a@4-5,b@7-8,infix(c@14-15 + d@18-19)@14-19)@0-19 rest 0
if (a) b + c else d $ 0 $ if(a@4-5,infix(b@7-8 + c@11-12)@7-12,d@18-19)@0-19 rest 0
a + $ 0 $ G1 at 3
a + ) $ 0 $ G1 at 4
+ a $ 0 $ G1 at 0
a + + b $ 0 $ G1 at 4
a + b + $ 0 $ G1 at 7
a + = b $ 0 $ G1 at 4
a + b = c $ 0 $ infix(a@0-1 + b@4-5)@0-5 rest 2
!a * ~b $ 0 $ infix(prefix(! a@1-2)@0-2 * prefix(~ b@6-7)@5-7)@0-7 rest 0
a * -1 $ 0 $ infix(a@0-1 * literal(-Number 1)@4-6)@0-6 rest 0
-1 * a $ 0 $ infix(literal(-Number 1)@0-2 * a@5-6)@0-6 rest 0
a * b.c $ 0 $ infix(a@0-1 * select(b@4-5 c)@4-7)@0-7 rest 0
a.b * c $ 0 $ infix(select(a@0-1 b)@0-3 * c@6-7)@0-7 rest 0
a * b(c) $ 0 $ infix(a@0-1 * apply(b@4-5;c@6-7)@4-8)@0-8 rest 0
a(b) * c $ 0 $ infix(apply(a@0-1;b@2-3)@0-4 * c@7-8)@0-8 rest 0
a * (b) $ 0 $ infix(a@0-1 * paren(b@5-6)@4-7)@0-7 rest 0
a * b match { case c => } $ 0 $ match(infix(a@0-1 * b@4-5)@0-5;case(c@19-20=>))@0-25 rest 0
a * if (b) c else d $ 0 $ G1 at 4
if (a) b else c * d $ 0 $ if(a@4-5,b@7-8,infix(c@14-15 * d@18-19)@14-19)@0-19 rest 0
if (a) b * c else d $ 0 $ if(a@4-5,infix(b@7-8 * c@11-12)@7-12,d@18-19)@0-19 rest 0
a * $ 0 $ G1 at 3
a * ) $ 0 $ G1 at 4
* a $ 0 $ G1 at 0
a * * b $ 0 $ G1 at 4
a * b * $ 0 $ G1 at 7
a * = b $ 0 $ G1 at 4
a * b = c $ 0 $ infix(a@0-1 * b@4-5)@0-5 rest 2
"#;

/// What is no infix operator, or no prefix.
pub const NO_OPERATORS: &[u8] = br#"
a :: b $ 0 $ a@0-1 rest 2
a ++ b $ 0 $ a@0-1 rest 2
a ** b $ 0 $ a@0-1 rest 2
a ||| b $ 0 $ a@0-1 rest 2
a &&& b $ 0 $ a@0-1 rest 2
a === b $ 0 $ a@0-1 rest 2
a =< b $ 0 $ a@0-1 rest 2
a -> b $ 0 $ a@0-1 rest 2
a <=> b $ 0 $ a@0-1 rest 2
a +: b $ 0 $ a@0-1 rest 2
a # b $ 0 $ a@0-1 rest 2
a ? b $ 0 $ a@0-1 rest 2
a \ b $ 0 $ a@0-1 rest 2
a ^ b $ 0 $ a@0-1 rest 2
a ! b $ 0 $ a@0-1 rest 2
a ~ b $ 0 $ a@0-1 rest 2
a !! b $ 0 $ a@0-1 rest 2
a += b $ 0 $ a@0-1 rest 2
a := b $ 0 $ a@0-1 rest 2
a @ b $ 0 $ a@0-1 rest 2
a @@ b $ 0 $ a@0-1 rest 2
a -- b $ 0 $ a@0-1 rest 2
a /= b $ 0 $ a@0-1 rest 2
a %% b $ 0 $ a@0-1 rest 2
a : b $ 0 $ a@0-1 rest 2
a = b $ 0 $ a@0-1 rest 2
a => b $ 0 $ a@0-1 rest 2
a <- b $ 0 $ a@0-1 rest 2
a . b $ 0 $ select(a@0-1 b)@0-5 rest 0
:: a $ 0 $ G1 at 0
++ a $ 0 $ G1 at 0
** a $ 0 $ G1 at 0
||| a $ 0 $ G1 at 0
&&& a $ 0 $ G1 at 0
=== a $ 0 $ G1 at 0
=< a $ 0 $ G1 at 0
-> a $ 0 $ G1 at 0
<=> a $ 0 $ G1 at 0
+: a $ 0 $ G1 at 0
# a $ 0 $ G1 at 0
? a $ 0 $ G1 at 0
\ a $ 0 $ G1 at 0
^ a $ 0 $ G1 at 0
! a $ 0 $ prefix(! a@2-3)@0-3 rest 0
~ a $ 0 $ prefix(~ a@2-3)@0-3 rest 0
!! a $ 0 $ G1 at 0
+= a $ 0 $ G1 at 0
:= a $ 0 $ G1 at 0
@ a $ 0 $ G1 at 0
@@ a $ 0 $ G1 at 0
-- a $ 0 $ G1 at 0
/= a $ 0 $ G1 at 0
%% a $ 0 $ G1 at 0
: a $ 0 $ G1 at 0
= a $ 0 $ G1 at 0
=> a $ 0 $ G1 at 0
<- a $ 0 $ G1 at 0
. a $ 0 $ G1 at 0
a::b $ 0 $ a@0-1 rest 2
a++b $ 0 $ a@0-1 rest 2
a**b $ 0 $ a@0-1 rest 2
a|||b $ 0 $ a@0-1 rest 2
a&&&b $ 0 $ a@0-1 rest 2
a===b $ 0 $ a@0-1 rest 2
a=<b $ 0 $ a@0-1 rest 2
a->b $ 0 $ a@0-1 rest 2
a<=>b $ 0 $ a@0-1 rest 2
a+:b $ 0 $ a@0-1 rest 2
a#b $ 0 $ a@0-1 rest 2
a?b $ 0 $ a@0-1 rest 2
a\b $ 0 $ a@0-1 rest 2
a^b $ 0 $ a@0-1 rest 2
a!b $ 0 $ a@0-1 rest 2
a~b $ 0 $ a@0-1 rest 2
a!!b $ 0 $ a@0-1 rest 2
a+=b $ 0 $ a@0-1 rest 2
a:=b $ 0 $ a@0-1 rest 2
a@b $ 0 $ a@0-1 rest 2
a@@b $ 0 $ a@0-1 rest 2
a--b $ 0 $ a@0-1 rest 2
a/=b $ 0 $ a@0-1 rest 2
a%%b $ 0 $ a@0-1 rest 2
a:b $ 0 $ a@0-1 rest 2
a=b $ 0 $ a@0-1 rest 2
a=>b $ 0 $ a@0-1 rest 2
a<-b $ 0 $ a@0-1 rest 2
a.b $ 0 $ select(a@0-1 b)@0-3 rest 0
"#;
