// Expressions with the room that they need, and with one level less.

/// Expressions with little room.
pub const TIGHT: &[u8] = br#"
1 $ 63 $ literal(Number 1)@0-1 rest 0
1 $ 64 $ G6 at 0
0 $ 63 $ literal(Number 0)@0-1 rest 0
0 $ 64 $ G6 at 0
123 $ 63 $ literal(Number 123)@0-3 rest 0
123 $ 64 $ G6 at 0
"a" $ 63 $ literal(Quoted "a")@0-3 rest 0
"a" $ 64 $ G6 at 0
"" $ 63 $ literal(Quoted "")@0-2 rest 0
"" $ 64 $ G6 at 0
"""a"b""" $ 63 $ literal(Quoted """a"b""")@0-9 rest 0
"""a"b""" $ 64 $ G6 at 0
'a' $ 63 $ literal(Letter 'a')@0-3 rest 0
'a' $ 64 $ G6 at 0
'\n' $ 63 $ literal(Letter '\n')@0-4 rest 0
'\n' $ 64 $ G6 at 0
 a  $ 63 $ a@1-2 rest 0
 a  $ 64 $ G6 at 1
/* b */a $ 63 $ a@7-8 rest 0
/* b */a $ 64 $ G6 at 7
;a; $ 63 $ a@1-2 rest 0
;a; $ 64 $ G6 at 1
(a) $ 62 $ paren(a@1-2)@0-3 rest 0
(a) $ 63 $ G6 at 0
( a ) $ 62 $ paren(a@2-3)@0-5 rest 0
( a ) $ 63 $ G6 at 0
((a)) $ 61 $ paren(paren(a@2-3)@1-4)@0-5 rest 0
((a)) $ 62 $ G6 at 1
(1) $ 62 $ paren(literal(Number 1)@1-2)@0-3 rest 0
(1) $ 63 $ G6 at 0
(-1) $ 62 $ paren(literal(-Number 1)@1-3)@0-4 rest 0
(-1) $ 63 $ G6 at 0
("a") $ 62 $ paren(literal(Quoted "a")@1-4)@0-5 rest 0
("a") $ 63 $ G6 at 0
(this) $ 62 $ paren(this()@1-5)@0-6 rest 0
(this) $ 63 $ G6 at 0
(T) $ 62 $ paren(T@1-2)@0-3 rest 0
(T) $ 63 $ G6 at 0
(until) $ 62 $ paren(until@1-6)@0-7 rest 0
(until) $ 63 $ G6 at 0
(a + b) $ 61 $ paren(infix(a@1-2 + b@5-6)@1-6)@0-7 rest 0
(a + b) $ 62 $ G6 at 3
(;a;) $ 62 $ paren(a@2-3)@0-5 rest 0
(;a;) $ 63 $ G6 at 0
a.b $ 62 $ select(a@0-1 b)@0-3 rest 0
a.b $ 63 $ G6 at 1
a.b.c $ 61 $ select(select(a@0-1 b)@0-3 c)@0-5 rest 0
a.b.c $ 62 $ G6 at 3
1.b $ 62 $ select(literal(Number 1)@0-1 b)@0-3 rest 0
1.b $ 63 $ G6 at 1
'a'.b $ 62 $ select(literal(Letter 'a')@0-3 b)@0-5 rest 0
'a'.b $ 63 $ G6 at 3
l"a".b $ 62 $ select(literal(Prefixed l"a")@0-4 b)@0-6 rest 0
l"a".b $ 63 $ G6 at 4
T.F $ 62 $ select(T@0-1 F)@0-3 rest 0
T.F $ 63 $ G6 at 1
a.until $ 62 $ select(a@0-1 until)@0-7 rest 0
a.until $ 63 $ G6 at 1
a.Contract $ 62 $ select(a@0-1 Contract)@0-10 rest 0
a.Contract $ 63 $ G6 at 1
(a).b $ 61 $ select(paren(a@1-2)@0-3 b)@0-5 rest 0
(a).b $ 62 $ G6 at 3
a;.b $ 62 $ select(a@0-1 b)@0-4 rest 0
a;.b $ 63 $ G6 at 2
a[b] $ 62 $ given(a@0-1;b@2-3)@0-4 rest 0
a[b] $ 63 $ G6 at 1
a[b, c, d] $ 62 $ given(a@0-1;b@2-3,c@5-6,d@8-9)@0-10 rest 0
a[b, c, d] $ 63 $ G6 at 1
a[b].c $ 61 $ select(given(a@0-1;b@2-3)@0-4 c)@0-6 rest 0
a[b].c $ 62 $ G6 at 4
a[b[c]] $ 61 $ given(a@0-1;b[c@4-5]@2-6)@0-7 rest 0
a[b[c]] $ 62 $ G6 at 3
a[b.c[d.e]] $ 61 $ given(a@0-1;b.c[d.e@6-9]@2-10)@0-11 rest 0
a[b.c[d.e]] $ 62 $ G6 at 5
this[a] $ 62 $ given(this()@0-4;a@5-6)@0-7 rest 0
this[a] $ 63 $ G6 at 4
a[T] $ 62 $ given(a@0-1;T@2-3)@0-4 rest 0
a[T] $ 63 $ G6 at 1
a;[b] $ 62 $ given(a@0-1;b@3-4)@0-5 rest 0
a;[b] $ 63 $ G6 at 2
a(b) $ 62 $ apply(a@0-1;b@2-3)@0-4 rest 0
a(b) $ 63 $ G6 at 1
a(b, c, d) $ 62 $ apply(a@0-1;b@2-3,c@5-6,d@8-9)@0-10 rest 0
a(b, c, d) $ 63 $ G6 at 1
a(b)(c) $ 61 $ apply(apply(a@0-1;b@2-3)@0-4;c@5-6)@0-7 rest 0
a(b)(c) $ 62 $ G6 at 4
a.b() $ 61 $ apply(select(a@0-1 b)@0-3)@0-5 rest 0
a.b() $ 62 $ G6 at 3
a(b)[c] $ 61 $ given(apply(a@0-1;b@2-3)@0-4;c@5-6)@0-7 rest 0
a(b)[c] $ 62 $ G6 at 4
a[b]() $ 61 $ apply(given(a@0-1;b@2-3)@0-4)@0-6 rest 0
a[b]() $ 62 $ G6 at 4
1(a) $ 62 $ apply(literal(Number 1)@0-1;a@2-3)@0-4 rest 0
1(a) $ 63 $ G6 at 1
this(a) $ 62 $ apply(this()@0-4;a@5-6)@0-7 rest 0
this(a) $ 63 $ G6 at 4
T(F) $ 62 $ apply(T@0-1;F@2-3)@0-4 rest 0
T(F) $ 63 $ G6 at 1
Contract(a) $ 62 $ apply(Contract@0-8;a@9-10)@0-11 rest 0
Contract(a) $ 63 $ G6 at 8
a(1) $ 62 $ apply(a@0-1;literal(Number 1)@2-3)@0-4 rest 0
a(1) $ 63 $ G6 at 1
a(- 1) $ 62 $ apply(a@0-1;literal(-Number 1)@2-5)@0-6 rest 0
a(- 1) $ 63 $ G6 at 1
a("b") $ 62 $ apply(a@0-1;literal(Quoted "b")@2-5)@0-6 rest 0
a("b") $ 63 $ G6 at 1
a(b[c]) $ 61 $ apply(a@0-1;given(b@2-3;c@4-5)@2-6)@0-7 rest 0
a(b[c]) $ 62 $ G6 at 3
a(b(c),d(e)) $ 61 $ apply(a@0-1;apply(b@2-3;c@4-5)@2-6,apply(d@7-8;e@9-10)@7-11)@0-12 rest 0
a(b(c),d(e)) $ 62 $ G6 at 3
a(b + c, d) $ 61 $ apply(a@0-1;infix(b@2-3 + c@6-7)@2-7,d@9-10)@0-11 rest 0
a(b + c, d) $ 62 $ G6 at 4
a(-b) $ 61 $ apply(a@0-1;prefix(- b@3-4)@2-4)@0-5 rest 0
a(-b) $ 62 $ G6 at 3
a(if (b) c else d, e) $ 61 $ apply(a@0-1;if(b@6-7,c@9-10,d@16-17)@2-17,e@19-20)@0-21 rest 0
a(if (b) c else d, e) $ 62 $ G6 at 2
a(b, c match { case d => e }) $ 60 $ apply(a@0-1;b@2-3,match(c@5-6;case(d@20-21=>call(e@25-26)@25-26))@5-28)@0-29 rest 0
a(b, c match { case d => e }) $ 61 $ G6 at 25
a(b == c) $ 61 $ apply(a@0-1;infix(b@2-3 == c@7-8)@2-8)@0-9 rest 0
a(b == c) $ 62 $ G6 at 4
a.b(c).d(e).f(g) $ 57 $ apply(select(apply(select(apply(select(a@0-1 b)@0-3;c@4-5)@0-6 d)@0-8;e@9-10)@0-11 f)@0-13;g@14-15)@0-16 rest 0
a.b(c).d(e).f(g) $ 58 $ G6 at 13
conversions.Z.toU8(a) $ 60 $ apply(select(select(conversions@0-11 Z)@0-13 toU8)@0-18;a@19-20)@0-21 rest 0
conversions.Z.toU8(a) $ 61 $ G6 at 18
a(b=c) $ 62 $ update(a@0-1;b=c@4-5)@0-6 rest 0
a(b=c) $ 63 $ G6 at 1
a(b = c, d = e, f = g) $ 62 $ update(a@0-1;b=c@6-7,d=e@13-14,f=g@20-21)@0-22 rest 0
a(b = c, d = e, f = g) $ 63 $ G6 at 1
a(b)(c = d) $ 61 $ update(apply(a@0-1;b@2-3)@0-4;c=d@9-10)@0-11 rest 0
a(b)(c = d) $ 62 $ G6 at 4
a(b = c)[d] $ 61 $ given(update(a@0-1;b=c@6-7)@0-8;d@9-10)@0-11 rest 0
a(b = c)[d] $ 62 $ G6 at 8
this(a = 1) $ 62 $ update(this()@0-4;a=literal(Number 1)@9-10)@0-11 rest 0
this(a = 1) $ 63 $ G6 at 4
a(until = to) $ 62 $ update(a@0-1;until=to@10-12)@0-13 rest 0
a(until = to) $ 63 $ G6 at 1
a(l = 1) $ 62 $ update(a@0-1;l=literal(Number 1)@6-7)@0-8 rest 0
a(l = 1) $ 63 $ G6 at 1
a(b = !c) $ 61 $ update(a@0-1;b=prefix(! c@7-8)@6-8)@0-9 rest 0
a(b = !c) $ 62 $ G6 at 6
a(b = c(d)) $ 61 $ update(a@0-1;b=apply(c@6-7;d@8-9)@6-10)@0-11 rest 0
a(b = c(d)) $ 62 $ G6 at 7
a(b = c(d), e = f(g)) $ 61 $ update(a@0-1;b=apply(c@6-7;d@8-9)@6-10,e=apply(f@16-17;g@18-19)@16-20)@0-21 rest 0
a(b = c(d), e = f(g)) $ 62 $ G6 at 7
a(b = c match { case d => e }) $ 60 $ update(a@0-1;b=match(c@6-7;case(d@21-22=>call(e@26-27)@26-27))@6-29)@0-30 rest 0
a(b = c match { case d => e }) $ 61 $ G6 at 26
a(;b;=;c;) $ 62 $ update(a@0-1;b=c@7-8)@0-10 rest 0
a(;b;=;c;) $ 63 $ G6 at 1
-1 $ 63 $ literal(-Number 1)@0-2 rest 0
-1 $ 64 $ G6 at 0
-0 $ 63 $ literal(-Number 0)@0-2 rest 0
-0 $ 64 $ G6 at 0
- a $ 62 $ prefix(- a@2-3)@0-3 rest 0
- a $ 63 $ G6 at 2
-T $ 62 $ prefix(- T@1-2)@0-2 rest 0
-T $ 63 $ G6 at 1
-"a" $ 62 $ prefix(- literal(Quoted "a")@1-4)@0-4 rest 0
-"a" $ 63 $ G6 at 1
-s"a" $ 62 $ prefix(- literal(Prefixed s"a")@1-5)@0-5 rest 0
-s"a" $ 63 $ G6 at 1
-(1) $ 61 $ prefix(- paren(literal(Number 1)@2-3)@1-4)@0-4 rest 0
-(1) $ 62 $ G6 at 1
-(-1) $ 61 $ prefix(- paren(literal(-Number 1)@2-4)@1-5)@0-5 rest 0
-(-1) $ 62 $ G6 at 1
(-1).a $ 61 $ select(paren(literal(-Number 1)@1-3)@0-4 a)@0-6 rest 0
(-1).a $ 62 $ G6 at 4
-1[a] $ 61 $ prefix(- given(literal(Number 1)@1-2;a@3-4)@1-5)@0-5 rest 0
-1[a] $ 62 $ G6 at 2
-1() $ 61 $ prefix(- apply(literal(Number 1)@1-2)@1-4)@0-4 rest 0
-1() $ 62 $ G6 at 2
-1.a.b $ 60 $ prefix(- select(select(literal(Number 1)@1-2 a)@1-4 b)@1-6)@0-6 rest 0
-1.a.b $ 61 $ G6 at 4
-a[b] $ 61 $ prefix(- given(a@1-2;b@3-4)@1-5)@0-5 rest 0
-a[b] $ 62 $ G6 at 2
-a(b = c) $ 61 $ prefix(- update(a@1-2;b=c@7-8)@1-9)@0-9 rest 0
-a(b = c) $ 62 $ G6 at 2
-;1 $ 63 $ literal(-Number 1)@0-3 rest 0
-;1 $ 64 $ G6 at 0
!a $ 62 $ prefix(! a@1-2)@0-2 rest 0
!a $ 63 $ G6 at 0
!1 $ 62 $ prefix(! literal(Number 1)@1-2)@0-2 rest 0
!1 $ 63 $ G6 at 0
!this $ 62 $ prefix(! this()@1-5)@0-5 rest 0
!this $ 63 $ G6 at 0
!(!a) $ 60 $ prefix(! paren(prefix(! a@3-4)@2-4)@1-5)@0-5 rest 0
!(!a) $ 61 $ G6 at 2
!a(b) $ 61 $ prefix(! apply(a@1-2;b@3-4)@1-5)@0-5 rest 0
!a(b) $ 62 $ G6 at 2
!a(b).c(d) $ 59 $ prefix(! apply(select(apply(a@1-2;b@3-4)@1-5 c)@1-7;d@8-9)@1-10)@0-10 rest 0
!a(b).c(d) $ 60 $ G6 at 7
~a $ 62 $ prefix(~ a@1-2)@0-2 rest 0
~a $ 63 $ G6 at 0
~ 1 $ 62 $ prefix(~ literal(Number 1)@2-3)@0-3 rest 0
~ 1 $ 63 $ G6 at 0
~a.b $ 61 $ prefix(~ select(a@1-2 b)@1-4)@0-4 rest 0
~a.b $ 62 $ G6 at 2
!(-a) $ 60 $ prefix(! paren(prefix(- a@3-4)@2-4)@1-5)@0-5 rest 0
!(-a) $ 61 $ G6 at 3
~(-1) $ 61 $ prefix(~ paren(literal(-Number 1)@2-4)@1-5)@0-5 rest 0
~(-1) $ 62 $ G6 at 1
-Contract(a) $ 61 $ prefix(- apply(Contract@1-9;a@10-11)@1-12)@0-12 rest 0
-Contract(a) $ 62 $ G6 at 9
(!a)(b) $ 60 $ apply(paren(prefix(! a@2-3)@1-3)@0-4;b@5-6)@0-7 rest 0
(!a)(b) $ 61 $ G6 at 4
if (a) b else c $ 62 $ if(a@4-5,b@7-8,c@14-15)@0-15 rest 0
if (a) b else c $ 63 $ G6 at 0
if (a) if (b) c else d else e $ 61 $ if(a@4-5,if(b@11-12,c@14-15,d@21-22)@7-22,e@28-29)@0-29 rest 0
if (a) if (b) c else d else e $ 62 $ G6 at 7
if (a) b else if (c) d else if (e) f else g $ 60 $ if(a@4-5,b@7-8,if(c@18-19,d@21-22,if(e@32-33,f@35-36,g@42-43)@28-43)@14-43)@0-43 rest 0
if (a) b else if (c) d else if (e) f else g $ 61 $ G6 at 28
if (a) b + c else d + e $ 61 $ if(a@4-5,infix(b@7-8 + c@11-12)@7-12,infix(d@18-19 + e@22-23)@18-23)@0-23 rest 0
if (a) b + c else d + e $ 62 $ G6 at 9
if (a) (b) else (c) $ 61 $ if(a@4-5,paren(b@8-9)@7-10,paren(c@17-18)@16-19)@0-19 rest 0
if (a) (b) else (c) $ 62 $ G6 at 7
if (a)(b)(c) else d $ 60 $ if(a@4-5,apply(paren(b@7-8)@6-9;c@10-11)@6-12,d@18-19)@0-19 rest 0
if (a)(b)(c) else d $ 61 $ G6 at 9
if (a) b else c + d * e $ 60 $ if(a@4-5,b@7-8,infix(c@14-15 + infix(d@18-19 * e@22-23)@18-23)@14-23)@0-23 rest 0
if (a) b else c + d * e $ 61 $ G6 at 20
if (a match { case b => }) c else d $ 61 $ if(match(a@4-5;case(b@19-20=>))@4-25,c@27-28,d@34-35)@0-35 rest 0
if (a match { case b => }) c else d $ 62 $ G6 at 6
if (a) b else c match { case d => } $ 61 $ if(a@4-5,b@7-8,match(c@14-15;case(d@29-30=>))@14-35)@0-35 rest 0
if (a) b else c match { case d => } $ 62 $ G6 at 16
if (a) this else T $ 62 $ if(a@4-5,this()@7-11,T@17-18)@0-18 rest 0
if (a) this else T $ 63 $ G6 at 0
(if (a) b else c) $ 61 $ paren(if(a@5-6,b@8-9,c@15-16)@1-16)@0-17 rest 0
(if (a) b else c) $ 62 $ G6 at 1
(if (a) b else c) + d $ 60 $ infix(paren(if(a@5-6,b@8-9,c@15-16)@1-16)@0-17 + d@20-21)@0-21 rest 0
(if (a) b else c) + d $ 61 $ G6 at 18
(if (a) b else c) match { case d => } $ 60 $ match(paren(if(a@5-6,b@8-9,c@15-16)@1-16)@0-17;case(d@31-32=>))@0-37 rest 0
(if (a) b else c) match { case d => } $ 61 $ G6 at 18
if (until) to else Contract $ 62 $ if(until@4-9,to@11-13,Contract@19-27)@0-27 rest 0
if (until) to else Contract $ 63 $ G6 at 0
if (a) b; else c $ 62 $ if(a@4-5,b@7-8,c@15-16)@0-16 rest 0
if (a) b; else c $ 63 $ G6 at 0
a match { case b => } $ 62 $ match(a@0-1;case(b@15-16=>))@0-21 rest 0
a match { case b => } $ 63 $ G6 at 2
a match { case b => c } $ 61 $ match(a@0-1;case(b@15-16=>call(c@20-21)@20-21))@0-23 rest 0
a match { case b => c } $ 62 $ G6 at 20
a match { case b => c case d => e } $ 61 $ match(a@0-1;case(b@15-16=>call(c@20-21)@20-21) case(d@27-28=>call(e@32-33)@32-33))@0-35 rest 0
a match { case b => c case d => e } $ 62 $ G6 at 20
a match {; case b => c;} $ 61 $ match(a@0-1;case(b@16-17=>call(c@21-22)@21-22))@0-24 rest 0
a match {; case b => c;} $ 62 $ G6 at 21
a match { case b => c; d } $ 61 $ match(a@0-1;case(b@15-16=>call(c@20-21)@20-21;call(d@23-24)@23-24))@0-26 rest 0
a match { case b => c; d } $ 62 $ G6 at 20
a + b match { case c => } $ 61 $ match(infix(a@0-1 + b@4-5)@0-5;case(c@19-20=>))@0-25 rest 0
a + b match { case c => } $ 62 $ G6 at 6
a | b match { case c => } $ 61 $ match(infix(a@0-1 | b@4-5)@0-5;case(c@19-20=>))@0-25 rest 0
a | b match { case c => } $ 62 $ G6 at 6
-1 match { case b => } $ 62 $ match(literal(-Number 1)@0-2;case(b@16-17=>))@0-22 rest 0
-1 match { case b => } $ 63 $ G6 at 3
a.b match { case c => } $ 61 $ match(select(a@0-1 b)@0-3;case(c@17-18=>))@0-23 rest 0
a.b match { case c => } $ 62 $ G6 at 4
a[b] match { case c => } $ 61 $ match(given(a@0-1;b@2-3)@0-4;case(c@18-19=>))@0-24 rest 0
a[b] match { case c => } $ 62 $ G6 at 5
(a) match { case b => } $ 61 $ match(paren(a@1-2)@0-3;case(b@17-18=>))@0-23 rest 0
(a) match { case b => } $ 62 $ G6 at 4
"a" match { case b => } $ 62 $ match(literal(Quoted "a")@0-3;case(b@17-18=>))@0-23 rest 0
"a" match { case b => } $ 63 $ G6 at 4
l"a" match { case b => } $ 62 $ match(literal(Prefixed l"a")@0-4;case(b@18-19=>))@0-24 rest 0
l"a" match { case b => } $ 63 $ G6 at 5
Contract(a) match { case b => } $ 61 $ match(apply(Contract@0-8;a@9-10)@0-11;case(b@25-26=>))@0-31 rest 0
Contract(a) match { case b => } $ 62 $ G6 at 12
(a match { case b => }) match { case c => } $ 60 $ match(paren(match(a@1-2;case(b@16-17=>))@1-22)@0-23;case(c@37-38=>))@0-43 rest 0
(a match { case b => }) match { case c => } $ 61 $ G6 at 24
(a match { case b => }) + c $ 60 $ infix(paren(match(a@1-2;case(b@16-17=>))@1-22)@0-23 + c@26-27)@0-27 rest 0
(a match { case b => }) + c $ 61 $ G6 at 24
a match { case b => c match { case d => e } } $ 60 $ match(a@0-1;case(b@15-16=>matches(c@20-21;case(d@35-36=>call(e@40-41)@40-41))@20-43))@0-45 rest 0
a match { case b => c match { case d => e } } $ 61 $ G6 at 40
a match { case b => c match { case d => e } case f => g } $ 60 $ match(a@0-1;case(b@15-16=>matches(c@20-21;case(d@35-36=>call(e@40-41)@40-41))@20-43) case(f@49-50=>call(g@54-55)@54-55))@0-57 rest 0
a match { case b => c match { case d => e } case f => g } $ 61 $ G6 at 40
a match { case b => if (c) { d } } $ 60 $ match(a@0-1;case(b@15-16=>ifs(c@24-25 {call(d@29-30)@29-30})@20-32))@0-34 rest 0
a match { case b => if (c) { d } } $ 61 $ G6 at 29
a match { case b => val c = d; c } $ 61 $ match(a@0-1;case(b@15-16=>val(c=d@28-29)@20-29;call(c@31-32)@31-32))@0-34 rest 0
a match { case b => val c = d; c } $ 62 $ G6 at 20
a match { case b => c = d } $ 61 $ match(a@0-1;case(b@15-16=>assign(c@20-21=d@24-25)@20-25))@0-27 rest 0
a match { case b => c = d } $ 62 $ G6 at 20
a match { case b => return } $ 62 $ match(a@0-1;case(b@15-16=>return()@20-26))@0-28 rest 0
a match { case b => return } $ 63 $ G6 at 2
a match { case b => return; case c => return } $ 62 $ match(a@0-1;case(b@15-16=>return()@20-26) case(c@33-34=>return()@38-44))@0-46 rest 0
a match { case b => return; case c => return } $ 63 $ G6 at 2
a match { case b => for (c <- d until e) { } } $ 61 $ match(a@0-1;case(b@15-16=>for(c d@30-31 until e@38-39 {})@20-44))@0-46 rest 0
a match { case b => for (c <- d until e) { } } $ 62 $ G6 at 20
a match { case b => Invariant(c); d } $ 61 $ match(a@0-1;case(b@15-16=>skip(Ident Invariant,Mark (,Ident c,Mark ))@20-32;call(d@34-35)@34-35))@0-37 rest 0
a match { case b => Invariant(c); d } $ 62 $ G6 at 34
a match { case b => l"c" case d => l"e" } $ 62 $ match(a@0-1;case(b@15-16=>skip(Prefixed l"c")@20-24) case(d@30-31=>skip(Prefixed l"e")@35-39))@0-41 rest 0
a match { case b => l"c" case d => l"e" } $ 63 $ G6 at 2
a match { case b => Contract(c) case d => } $ 62 $ match(a@0-1;case(b@15-16=>skip(Ident Contract,Mark (,Ident c,Mark ))@20-31) case(d@37-38=>))@0-43 rest 0
a match { case b => Contract(c) case d => } $ 63 $ G6 at 2
a match { case b => T } $ 61 $ match(a@0-1;case(b@15-16=>call(T@20-21)@20-21))@0-23 rest 0
a match { case b => T } $ 62 $ G6 at 20
a match; { case b => } $ 62 $ match(a@0-1;case(b@16-17=>))@0-22 rest 0
a match; { case b => } $ 63 $ G6 at 2
a match { case b if c => } $ 62 $ match(a@0-1;case(b@15-16 if c@20-21=>))@0-26 rest 0
a match { case b if c => } $ 63 $ G6 at 2
a match { case b if c + d => } $ 61 $ match(a@0-1;case(b@15-16 if infix(c@20-21 + d@24-25)@20-25=>))@0-30 rest 0
a match { case b if c + d => } $ 62 $ G6 at 22
a match { case b if -1 => } $ 62 $ match(a@0-1;case(b@15-16 if literal(-Number 1)@20-22=>))@0-27 rest 0
a match { case b if -1 => } $ 63 $ G6 at 2
a match { case b if (c match { case d => }) => } $ 60 $ match(a@0-1;case(b@15-16 if paren(match(c@21-22;case(d@36-37=>))@21-42)@20-43=>))@0-48 rest 0
a match { case b if (c match { case d => }) => } $ 61 $ G6 at 23
a match { case b if this => } $ 62 $ match(a@0-1;case(b@15-16 if this()@20-24=>))@0-29 rest 0
a match { case b if this => } $ 63 $ G6 at 2
a match { case b.c if d => } $ 62 $ match(a@0-1;case(constant(b.c)@15-18 if d@22-23=>))@0-28 rest 0
a match { case b.c if d => } $ 63 $ G6 at 2
a match { case T if F => } $ 62 $ match(a@0-1;case(literal(Ident T)@15-16 if F@20-21=>))@0-26 rest 0
a match { case T if F => } $ 63 $ G6 at 2
a match { case b if; c => } $ 62 $ match(a@0-1;case(b@15-16 if c@21-22=>))@0-27 rest 0
a match { case b if; c => } $ 63 $ G6 at 2
a match { case b if Contract(c) => } $ 61 $ match(a@0-1;case(b@15-16 if apply(Contract@20-28;c@29-30)@20-31=>))@0-36 rest 0
a match { case b if Contract(c) => } $ 62 $ G6 at 28
"#;
