// Each form of expressions, with its tree.

/// One token, or parentheses.
pub const ATOMS: &[u8] = br#"
1 $ 0 $ literal(Number 1)@0-1 rest 0
0 $ 0 $ literal(Number 0)@0-1 rest 0
123 $ 0 $ literal(Number 123)@0-3 rest 0
"a" $ 0 $ literal(Quoted "a")@0-3 rest 0
"" $ 0 $ literal(Quoted "")@0-2 rest 0
"""a"b""" $ 0 $ literal(Quoted """a"b""")@0-9 rest 0
'a' $ 0 $ literal(Letter 'a')@0-3 rest 0
'\n' $ 0 $ literal(Letter '\n')@0-4 rest 0
s"a" $ 0 $ literal(Prefixed s"a")@0-4 rest 0
l"a" $ 0 $ literal(Prefixed l"a")@0-4 rest 0
s"""a""" $ 0 $ literal(Prefixed s"""a""")@0-8 rest 0
if"a" $ 0 $ literal(Prefixed if"a")@0-5 rest 0
a $ 0 $ a@0-1 rest 0
abc $ 0 $ abc@0-3 rest 0
_a $ 0 $ _a@0-2 rest 0
__ $ 0 $ __@0-2 rest 0
Z $ 0 $ Z@0-1 rest 0
T $ 0 $ T@0-1 rest 0
F $ 0 $ F@0-1 rest 0
until $ 0 $ until@0-5 rest 0
to $ 0 $ to@0-2 rest 0
Contract $ 0 $ Contract@0-8 rest 0
Invariant $ 0 $ Invariant@0-9 rest 0
l $ 0 $ l@0-1 rest 0
s $ 0 $ s@0-1 rest 0
this $ 0 $ this()@0-4 rest 0
 a  $ 0 $ a@1-2 rest 0
/* b */a $ 0 $ a@7-8 rest 0
;a; $ 0 $ a@1-2 rest 0
(a) $ 0 $ paren(a@1-2)@0-3 rest 0
( a ) $ 0 $ paren(a@2-3)@0-5 rest 0
((a)) $ 0 $ paren(paren(a@2-3)@1-4)@0-5 rest 0
(1) $ 0 $ paren(literal(Number 1)@1-2)@0-3 rest 0
(-1) $ 0 $ paren(literal(-Number 1)@1-3)@0-4 rest 0
("a") $ 0 $ paren(literal(Quoted "a")@1-4)@0-5 rest 0
(this) $ 0 $ paren(this()@1-5)@0-6 rest 0
(T) $ 0 $ paren(T@1-2)@0-3 rest 0
(until) $ 0 $ paren(until@1-6)@0-7 rest 0
(a + b) $ 0 $ paren(infix(a@1-2 + b@5-6)@1-6)@0-7 rest 0
(;a;) $ 0 $ paren(a@2-3)@0-5 rest 0
(l"a") $ 0 $ paren(literal(Prefixed l"a")@1-5)@0-6 rest 0
(Contract) $ 0 $ paren(Contract@1-9)@0-10 rest 0
"#;

/// Selections, given types and arguments.
pub const SUFFIXES: &[u8] = br#"
a.b $ 0 $ select(a@0-1 b)@0-3 rest 0
a . b $ 0 $ select(a@0-1 b)@0-5 rest 0
a.b.c $ 0 $ select(select(a@0-1 b)@0-3 c)@0-5 rest 0
a.b.c.d $ 0 $ select(select(select(a@0-1 b)@0-3 c)@0-5 d)@0-7 rest 0
1.b $ 0 $ select(literal(Number 1)@0-1 b)@0-3 rest 0
"a".b $ 0 $ select(literal(Quoted "a")@0-3 b)@0-5 rest 0
'a'.b $ 0 $ select(literal(Letter 'a')@0-3 b)@0-5 rest 0
s"a".b $ 0 $ select(literal(Prefixed s"a")@0-4 b)@0-6 rest 0
l"a".b $ 0 $ select(literal(Prefixed l"a")@0-4 b)@0-6 rest 0
this.b $ 0 $ select(this()@0-4 b)@0-6 rest 0
T.F $ 0 $ select(T@0-1 F)@0-3 rest 0
until.to $ 0 $ select(until@0-5 to)@0-8 rest 0
a.until $ 0 $ select(a@0-1 until)@0-7 rest 0
a.T $ 0 $ select(a@0-1 T)@0-3 rest 0
a.Contract $ 0 $ select(a@0-1 Contract)@0-10 rest 0
a.l $ 0 $ select(a@0-1 l)@0-3 rest 0
(a).b $ 0 $ select(paren(a@1-2)@0-3 b)@0-5 rest 0
((a).b).c $ 0 $ select(paren(select(paren(a@2-3)@1-4 b)@1-6)@0-7 c)@0-9 rest 0
a;.b $ 0 $ select(a@0-1 b)@0-4 rest 0
a.;b $ 0 $ select(a@0-1 b)@0-4 rest 0
a[b] $ 0 $ given(a@0-1;b@2-3)@0-4 rest 0
a[b,c] $ 0 $ given(a@0-1;b@2-3,c@4-5)@0-6 rest 0
a[b, c, d] $ 0 $ given(a@0-1;b@2-3,c@5-6,d@8-9)@0-10 rest 0
a.b[c] $ 0 $ given(select(a@0-1 b)@0-3;c@4-5)@0-6 rest 0
a[b].c $ 0 $ select(given(a@0-1;b@2-3)@0-4 c)@0-6 rest 0
a[b][c] $ 0 $ given(given(a@0-1;b@2-3)@0-4;c@5-6)@0-7 rest 0
a[b[c]] $ 0 $ given(a@0-1;b[c@4-5]@2-6)@0-7 rest 0
a[b.c] $ 0 $ given(a@0-1;b.c@2-5)@0-6 rest 0
a[b.c[d.e]] $ 0 $ given(a@0-1;b.c[d.e@6-9]@2-10)@0-11 rest 0
1[a] $ 0 $ given(literal(Number 1)@0-1;a@2-3)@0-4 rest 0
this[a] $ 0 $ given(this()@0-4;a@5-6)@0-7 rest 0
(a)[b] $ 0 $ given(paren(a@1-2)@0-3;b@4-5)@0-6 rest 0
a[T] $ 0 $ given(a@0-1;T@2-3)@0-4 rest 0
a[until] $ 0 $ given(a@0-1;until@2-7)@0-8 rest 0
a;[b] $ 0 $ given(a@0-1;b@3-4)@0-5 rest 0
a() $ 0 $ apply(a@0-1)@0-3 rest 0
a(b) $ 0 $ apply(a@0-1;b@2-3)@0-4 rest 0
a(b,c) $ 0 $ apply(a@0-1;b@2-3,c@4-5)@0-6 rest 0
a(b, c, d) $ 0 $ apply(a@0-1;b@2-3,c@5-6,d@8-9)@0-10 rest 0
a()() $ 0 $ apply(apply(a@0-1)@0-3)@0-5 rest 0
a(b)(c) $ 0 $ apply(apply(a@0-1;b@2-3)@0-4;c@5-6)@0-7 rest 0
a.b(c) $ 0 $ apply(select(a@0-1 b)@0-3;c@4-5)@0-6 rest 0
a.b() $ 0 $ apply(select(a@0-1 b)@0-3)@0-5 rest 0
a(b).c $ 0 $ select(apply(a@0-1;b@2-3)@0-4 c)@0-6 rest 0
a(b)[c] $ 0 $ given(apply(a@0-1;b@2-3)@0-4;c@5-6)@0-7 rest 0
a[b](c) $ 0 $ apply(given(a@0-1;b@2-3)@0-4;c@5-6)@0-7 rest 0
a[b]() $ 0 $ apply(given(a@0-1;b@2-3)@0-4)@0-6 rest 0
(a)(b) $ 0 $ apply(paren(a@1-2)@0-3;b@4-5)@0-6 rest 0
1(a) $ 0 $ apply(literal(Number 1)@0-1;a@2-3)@0-4 rest 0
"a"(b) $ 0 $ apply(literal(Quoted "a")@0-3;b@4-5)@0-6 rest 0
this(a) $ 0 $ apply(this()@0-4;a@5-6)@0-7 rest 0
l"a"(b) $ 0 $ apply(literal(Prefixed l"a")@0-4;b@5-6)@0-7 rest 0
T(F) $ 0 $ apply(T@0-1;F@2-3)@0-4 rest 0
until(to) $ 0 $ apply(until@0-5;to@6-8)@0-9 rest 0
Contract(a) $ 0 $ apply(Contract@0-8;a@9-10)@0-11 rest 0
Invariant() $ 0 $ apply(Invariant@0-9)@0-11 rest 0
a(1) $ 0 $ apply(a@0-1;literal(Number 1)@2-3)@0-4 rest 0
a(-1) $ 0 $ apply(a@0-1;literal(-Number 1)@2-4)@0-5 rest 0
a(- 1) $ 0 $ apply(a@0-1;literal(-Number 1)@2-5)@0-6 rest 0
a(this) $ 0 $ apply(a@0-1;this()@2-6)@0-7 rest 0
a("b") $ 0 $ apply(a@0-1;literal(Quoted "b")@2-5)@0-6 rest 0
a(b.c) $ 0 $ apply(a@0-1;select(b@2-3 c)@2-5)@0-6 rest 0
a(b[c]) $ 0 $ apply(a@0-1;given(b@2-3;c@4-5)@2-6)@0-7 rest 0
a(b(c)) $ 0 $ apply(a@0-1;apply(b@2-3;c@4-5)@2-6)@0-7 rest 0
a(b(c),d(e)) $ 0 $ apply(a@0-1;apply(b@2-3;c@4-5)@2-6,apply(d@7-8;e@9-10)@7-11)@0-12 rest 0
a((b)) $ 0 $ apply(a@0-1;paren(b@3-4)@2-5)@0-6 rest 0
a(b + c, d) $ 0 $ apply(a@0-1;infix(b@2-3 + c@6-7)@2-7,d@9-10)@0-11 rest 0
a(!b) $ 0 $ apply(a@0-1;prefix(! b@3-4)@2-4)@0-5 rest 0
a(-b) $ 0 $ apply(a@0-1;prefix(- b@3-4)@2-4)@0-5 rest 0
a(if (b) c else d) $ 0 $ apply(a@0-1;if(b@6-7,c@9-10,d@16-17)@2-17)@0-18 rest 0
a(if (b) c else d, e) $ 0 $ apply(a@0-1;if(b@6-7,c@9-10,d@16-17)@2-17,e@19-20)@0-21 rest 0
a(b match { case c => d }) $ 0 $ apply(a@0-1;match(b@2-3;case(c@17-18=>call(d@22-23)@22-23))@2-25)@0-26 rest 0
a(b, c match { case d => e }) $ 0 $ apply(a@0-1;b@2-3,match(c@5-6;case(d@20-21=>call(e@25-26)@25-26))@5-28)@0-29 rest 0
a(;b;,;c;) $ 0 $ apply(a@0-1;b@3-4,c@7-8)@0-10 rest 0
a(b == c) $ 0 $ apply(a@0-1;infix(b@2-3 == c@7-8)@2-8)@0-9 rest 0
a.b.c(d)(e).f[g](h) $ 0 $ apply(given(select(apply(apply(select(select(a@0-1 b)@0-3 c)@0-5;d@6-7)@0-8;e@9-10)@0-11 f)@0-13;g@14-15)@0-16;h@17-18)@0-19 rest 0
a.b(c).d(e).f(g) $ 0 $ apply(select(apply(select(apply(select(a@0-1 b)@0-3;c@4-5)@0-6 d)@0-8;e@9-10)@0-11 f)@0-13;g@14-15)@0-16 rest 0
ISZ(1,2) $ 0 $ apply(ISZ@0-3;literal(Number 1)@4-5,literal(Number 2)@6-7)@0-8 rest 0
conversions.Z.toU8(a) $ 0 $ apply(select(select(conversions@0-11 Z)@0-13 toU8)@0-18;a@19-20)@0-21 rest 0
"#;

/// Updated copies.
pub const UPDATES: &[u8] = br#"
a(b=c) $ 0 $ update(a@0-1;b=c@4-5)@0-6 rest 0
a(b = c) $ 0 $ update(a@0-1;b=c@6-7)@0-8 rest 0
a(b = c, d = e) $ 0 $ update(a@0-1;b=c@6-7,d=e@13-14)@0-15 rest 0
a(b = c, d = e, f = g) $ 0 $ update(a@0-1;b=c@6-7,d=e@13-14,f=g@20-21)@0-22 rest 0
a.b(c = 1) $ 0 $ update(select(a@0-1 b)@0-3;c=literal(Number 1)@8-9)@0-10 rest 0
a(b = c)(d = e) $ 0 $ update(update(a@0-1;b=c@6-7)@0-8;d=e@13-14)@0-15 rest 0
a(b)(c = d) $ 0 $ update(apply(a@0-1;b@2-3)@0-4;c=d@9-10)@0-11 rest 0
a(b = c)(d) $ 0 $ apply(update(a@0-1;b=c@6-7)@0-8;d@9-10)@0-11 rest 0
a(b = c).d $ 0 $ select(update(a@0-1;b=c@6-7)@0-8 d)@0-10 rest 0
a(b = c)[d] $ 0 $ given(update(a@0-1;b=c@6-7)@0-8;d@9-10)@0-11 rest 0
a[b](c = d) $ 0 $ update(given(a@0-1;b@2-3)@0-4;c=d@9-10)@0-11 rest 0
(a)(b = c) $ 0 $ update(paren(a@1-2)@0-3;b=c@8-9)@0-10 rest 0
this(a = 1) $ 0 $ update(this()@0-4;a=literal(Number 1)@9-10)@0-11 rest 0
1(a = 1) $ 0 $ update(literal(Number 1)@0-1;a=literal(Number 1)@6-7)@0-8 rest 0
a(T = F) $ 0 $ update(a@0-1;T=F@6-7)@0-8 rest 0
a(until = to) $ 0 $ update(a@0-1;until=to@10-12)@0-13 rest 0
a(to = until) $ 0 $ update(a@0-1;to=until@7-12)@0-13 rest 0
a(Contract = 1) $ 0 $ update(a@0-1;Contract=literal(Number 1)@13-14)@0-15 rest 0
a(l = 1) $ 0 $ update(a@0-1;l=literal(Number 1)@6-7)@0-8 rest 0
Contract(a = 1) $ 0 $ update(Contract@0-8;a=literal(Number 1)@13-14)@0-15 rest 0
a(b = -1) $ 0 $ update(a@0-1;b=literal(-Number 1)@6-8)@0-9 rest 0
a(b = !c) $ 0 $ update(a@0-1;b=prefix(! c@7-8)@6-8)@0-9 rest 0
a(b = c + d) $ 0 $ update(a@0-1;b=infix(c@6-7 + d@10-11)@6-11)@0-12 rest 0
a(b = (c)) $ 0 $ update(a@0-1;b=paren(c@7-8)@6-9)@0-10 rest 0
a(b = c(d)) $ 0 $ update(a@0-1;b=apply(c@6-7;d@8-9)@6-10)@0-11 rest 0
a(b = c(d = e)) $ 0 $ update(a@0-1;b=update(c@6-7;d=e@12-13)@6-14)@0-15 rest 0
a(b = c(d = e), f = g) $ 0 $ update(a@0-1;b=update(c@6-7;d=e@12-13)@6-14,f=g@20-21)@0-22 rest 0
a(b = c(d), e = f(g)) $ 0 $ update(a@0-1;b=apply(c@6-7;d@8-9)@6-10,e=apply(f@16-17;g@18-19)@16-20)@0-21 rest 0
a(b = if (c) d else e) $ 0 $ update(a@0-1;b=if(c@10-11,d@13-14,e@20-21)@6-21)@0-22 rest 0
a(b = if (c) d else e, f = g) $ 0 $ update(a@0-1;b=if(c@10-11,d@13-14,e@20-21)@6-21,f=g@27-28)@0-29 rest 0
a(b = c match { case d => e }) $ 0 $ update(a@0-1;b=match(c@6-7;case(d@21-22=>call(e@26-27)@26-27))@6-29)@0-30 rest 0
a(b = c match { case d => e }, f = g) $ 0 $ update(a@0-1;b=match(c@6-7;case(d@21-22=>call(e@26-27)@26-27))@6-29,f=g@35-36)@0-37 rest 0
a(b = c == d) $ 0 $ update(a@0-1;b=infix(c@6-7 == d@11-12)@6-12)@0-13 rest 0
a(;b;=;c;) $ 0 $ update(a@0-1;b=c@7-8)@0-10 rest 0
a(b = a) $ 0 $ update(a@0-1;b=a@6-7)@0-8 rest 0
a(a = a, a = a) $ 0 $ update(a@0-1;a=a@6-7,a=a@13-14)@0-15 rest 0
"#;

/// Prefixes.
pub const PREFIXED: &[u8] = br#"
-1 $ 0 $ literal(-Number 1)@0-2 rest 0
- 1 $ 0 $ literal(-Number 1)@0-3 rest 0
-0 $ 0 $ literal(-Number 0)@0-2 rest 0
-a $ 0 $ prefix(- a@1-2)@0-2 rest 0
- a $ 0 $ prefix(- a@2-3)@0-3 rest 0
-this $ 0 $ prefix(- this()@1-5)@0-5 rest 0
-T $ 0 $ prefix(- T@1-2)@0-2 rest 0
-until $ 0 $ prefix(- until@1-6)@0-6 rest 0
-"a" $ 0 $ prefix(- literal(Quoted "a")@1-4)@0-4 rest 0
-'a' $ 0 $ prefix(- literal(Letter 'a')@1-4)@0-4 rest 0
-s"a" $ 0 $ prefix(- literal(Prefixed s"a")@1-5)@0-5 rest 0
-l"a" $ 0 $ prefix(- literal(Prefixed l"a")@1-5)@0-5 rest 0
-(1) $ 0 $ prefix(- paren(literal(Number 1)@2-3)@1-4)@0-4 rest 0
-(a) $ 0 $ prefix(- paren(a@2-3)@1-4)@0-4 rest 0
-(-1) $ 0 $ prefix(- paren(literal(-Number 1)@2-4)@1-5)@0-5 rest 0
-(-a) $ 0 $ prefix(- paren(prefix(- a@3-4)@2-4)@1-5)@0-5 rest 0
(-1).a $ 0 $ select(paren(literal(-Number 1)@1-3)@0-4 a)@0-6 rest 0
-1.a $ 0 $ prefix(- select(literal(Number 1)@1-2 a)@1-4)@0-4 rest 0
-1[a] $ 0 $ prefix(- given(literal(Number 1)@1-2;a@3-4)@1-5)@0-5 rest 0
-1(a) $ 0 $ prefix(- apply(literal(Number 1)@1-2;a@3-4)@1-5)@0-5 rest 0
-1() $ 0 $ prefix(- apply(literal(Number 1)@1-2)@1-4)@0-4 rest 0
-1(a = b) $ 0 $ prefix(- update(literal(Number 1)@1-2;a=b@7-8)@1-9)@0-9 rest 0
-1.a.b $ 0 $ prefix(- select(select(literal(Number 1)@1-2 a)@1-4 b)@1-6)@0-6 rest 0
-a.b $ 0 $ prefix(- select(a@1-2 b)@1-4)@0-4 rest 0
-a[b] $ 0 $ prefix(- given(a@1-2;b@3-4)@1-5)@0-5 rest 0
-a(b) $ 0 $ prefix(- apply(a@1-2;b@3-4)@1-5)@0-5 rest 0
-a(b = c) $ 0 $ prefix(- update(a@1-2;b=c@7-8)@1-9)@0-9 rest 0
-a.b(c).d $ 0 $ prefix(- select(apply(select(a@1-2 b)@1-4;c@5-6)@1-7 d)@1-9)@0-9 rest 0
-;1 $ 0 $ literal(-Number 1)@0-3 rest 0
-/* */1 $ 0 $ literal(-Number 1)@0-7 rest 0
!a $ 0 $ prefix(! a@1-2)@0-2 rest 0
! a $ 0 $ prefix(! a@2-3)@0-3 rest 0
!1 $ 0 $ prefix(! literal(Number 1)@1-2)@0-2 rest 0
!T $ 0 $ prefix(! T@1-2)@0-2 rest 0
!this $ 0 $ prefix(! this()@1-5)@0-5 rest 0
!(a) $ 0 $ prefix(! paren(a@2-3)@1-4)@0-4 rest 0
!(!a) $ 0 $ prefix(! paren(prefix(! a@3-4)@2-4)@1-5)@0-5 rest 0
!a.b $ 0 $ prefix(! select(a@1-2 b)@1-4)@0-4 rest 0
!a(b) $ 0 $ prefix(! apply(a@1-2;b@3-4)@1-5)@0-5 rest 0
!a[b] $ 0 $ prefix(! given(a@1-2;b@3-4)@1-5)@0-5 rest 0
!a(b).c(d) $ 0 $ prefix(! apply(select(apply(a@1-2;b@3-4)@1-5 c)@1-7;d@8-9)@1-10)@0-10 rest 0
!"a" $ 0 $ prefix(! literal(Quoted "a")@1-4)@0-4 rest 0
~a $ 0 $ prefix(~ a@1-2)@0-2 rest 0
~1 $ 0 $ prefix(~ literal(Number 1)@1-2)@0-2 rest 0
~ 1 $ 0 $ prefix(~ literal(Number 1)@2-3)@0-3 rest 0
~(~a) $ 0 $ prefix(~ paren(prefix(~ a@3-4)@2-4)@1-5)@0-5 rest 0
~a.b $ 0 $ prefix(~ select(a@1-2 b)@1-4)@0-4 rest 0
~this $ 0 $ prefix(~ this()@1-5)@0-5 rest 0
!(-a) $ 0 $ prefix(! paren(prefix(- a@3-4)@2-4)@1-5)@0-5 rest 0
-(!a) $ 0 $ prefix(- paren(prefix(! a@3-4)@2-4)@1-5)@0-5 rest 0
~(-1) $ 0 $ prefix(~ paren(literal(-Number 1)@2-4)@1-5)@0-5 rest 0
-Contract $ 0 $ prefix(- Contract@1-9)@0-9 rest 0
-Contract(a) $ 0 $ prefix(- apply(Contract@1-9;a@10-11)@1-12)@0-12 rest 0
(-1) $ 0 $ paren(literal(-Number 1)@1-3)@0-4 rest 0
(!a)(b) $ 0 $ apply(paren(prefix(! a@2-3)@1-3)@0-4;b@5-6)@0-7 rest 0
"#;

/// `if` expressions.
pub const IFS: &[u8] = br#"
if (a) b else c $ 0 $ if(a@4-5,b@7-8,c@14-15)@0-15 rest 0
if(a)b else c $ 0 $ if(a@3-4,b@5-6,c@12-13)@0-13 rest 0
if (a) if (b) c else d else e $ 0 $ if(a@4-5,if(b@11-12,c@14-15,d@21-22)@7-22,e@28-29)@0-29 rest 0
if (a) b else if (c) d else e $ 0 $ if(a@4-5,b@7-8,if(c@18-19,d@21-22,e@28-29)@14-29)@0-29 rest 0
if (a) b else if (c) d else if (e) f else g $ 0 $ if(a@4-5,b@7-8,if(c@18-19,d@21-22,if(e@32-33,f@35-36,g@42-43)@28-43)@14-43)@0-43 rest 0
if (if (a) b else c) d else e $ 0 $ if(if(a@8-9,b@11-12,c@18-19)@4-19,d@21-22,e@28-29)@0-29 rest 0
if (a) b + c else d + e $ 0 $ if(a@4-5,infix(b@7-8 + c@11-12)@7-12,infix(d@18-19 + e@22-23)@18-23)@0-23 rest 0
if (a) -1 else -b $ 0 $ if(a@4-5,literal(-Number 1)@7-9,prefix(- b@16-17)@15-17)@0-17 rest 0
if (a) (b) else (c) $ 0 $ if(a@4-5,paren(b@8-9)@7-10,paren(c@17-18)@16-19)@0-19 rest 0
if (a) b.c else d.e $ 0 $ if(a@4-5,select(b@7-8 c)@7-10,select(d@16-17 e)@16-19)@0-19 rest 0
if (a)(b)(c) else d $ 0 $ if(a@4-5,apply(paren(b@7-8)@6-9;c@10-11)@6-12,d@18-19)@0-19 rest 0
if (a) b else c(d) $ 0 $ if(a@4-5,b@7-8,apply(c@14-15;d@16-17)@14-18)@0-18 rest 0
if (a) b else c + d * e $ 0 $ if(a@4-5,b@7-8,infix(c@14-15 + infix(d@18-19 * e@22-23)@18-23)@14-23)@0-23 rest 0
if (a + b) c else d $ 0 $ if(infix(a@4-5 + b@8-9)@4-9,c@11-12,d@18-19)@0-19 rest 0
if (a match { case b => }) c else d $ 0 $ if(match(a@4-5;case(b@19-20=>))@4-25,c@27-28,d@34-35)@0-35 rest 0
if (a) b match { case c => } else d $ 0 $ if(a@4-5,match(b@7-8;case(c@22-23=>))@7-28,d@34-35)@0-35 rest 0
if (a) b else c match { case d => } $ 0 $ if(a@4-5,b@7-8,match(c@14-15;case(d@29-30=>))@14-35)@0-35 rest 0
if (a) b match { case c => } else d match { case e => } $ 0 $ if(a@4-5,match(b@7-8;case(c@22-23=>))@7-28,match(d@34-35;case(e@49-50=>))@34-55)@0-55 rest 0
if (a) this else T $ 0 $ if(a@4-5,this()@7-11,T@17-18)@0-18 rest 0
if ((a)) b else c $ 0 $ if(paren(a@5-6)@4-7,b@9-10,c@16-17)@0-17 rest 0
(if (a) b else c) $ 0 $ paren(if(a@5-6,b@8-9,c@15-16)@1-16)@0-17 rest 0
(if (a) b else c).d $ 0 $ select(paren(if(a@5-6,b@8-9,c@15-16)@1-16)@0-17 d)@0-19 rest 0
(if (a) b else c) + d $ 0 $ infix(paren(if(a@5-6,b@8-9,c@15-16)@1-16)@0-17 + d@20-21)@0-21 rest 0
a + (if (b) c else d) $ 0 $ infix(a@0-1 + paren(if(b@9-10,c@12-13,d@19-20)@5-20)@4-21)@0-21 rest 0
(if (a) b else c) match { case d => } $ 0 $ match(paren(if(a@5-6,b@8-9,c@15-16)@1-16)@0-17;case(d@31-32=>))@0-37 rest 0
if (a) b else (c) $ 0 $ if(a@4-5,b@7-8,paren(c@15-16)@14-17)@0-17 rest 0
if (until) to else Contract $ 0 $ if(until@4-9,to@11-13,Contract@19-27)@0-27 rest 0
if (a) "b" else l"c" $ 0 $ if(a@4-5,literal(Quoted "b")@7-10,literal(Prefixed l"c")@16-20)@0-20 rest 0
if (a);b;else;c $ 0 $ G1 at 6
if;(a) b else c $ 0 $ if(a@4-5,b@7-8,c@14-15)@0-15 rest 0
if (a) b; else c $ 0 $ if(a@4-5,b@7-8,c@15-16)@0-16 rest 0
if (;a;) b else c $ 0 $ if(a@5-6,b@9-10,c@16-17)@0-17 rest 0
"#;
