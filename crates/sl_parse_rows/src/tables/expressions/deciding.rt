// Where one token doesn't decide.

/// An argument, or a name and a value.
pub const ARGUMENTS: &[u8] = br#"
a(b) $ 0 $ apply(a@0-1;b@2-3)@0-4 rest 0
a(b = c) $ 0 $ update(a@0-1;b=c@6-7)@0-8 rest 0
a(b == c) $ 0 $ apply(a@0-1;infix(b@2-3 == c@7-8)@2-8)@0-9 rest 0
a(b.c) $ 0 $ apply(a@0-1;select(b@2-3 c)@2-5)@0-6 rest 0
a(b, c) $ 0 $ apply(a@0-1;b@2-3,c@5-6)@0-7 rest 0
a(b, c = d) $ 0 $ G1 at 7
a(b = c, d) $ 0 $ G1 at 10
a(b = c, d == e) $ 0 $ G1 at 11
a(b = c, d.e) $ 0 $ G1 at 10
a(b = c, d = e) $ 0 $ update(a@0-1;b=c@6-7,d=e@13-14)@0-15 rest 0
a(b(c = d), e) $ 0 $ apply(a@0-1;update(b@2-3;c=d@8-9)@2-10,e@12-13)@0-14 rest 0
a(b = c(d, e), f = g) $ 0 $ update(a@0-1;b=apply(c@6-7;d@8-9,e@11-12)@6-13,f=g@19-20)@0-21 rest 0
a((b) = c) $ 0 $ G1 at 6
a(b)(c = d) $ 0 $ update(apply(a@0-1;b@2-3)@0-4;c=d@9-10)@0-11 rest 0
a(b = c)(d) $ 0 $ apply(update(a@0-1;b=c@6-7)@0-8;d@9-10)@0-11 rest 0
a(b $ 0 $ G1 at 3
a(b = $ 0 $ G1 at 5
a(b = c $ 0 $ G1 at 7
a(b = c, $ 0 $ G1 at 8
a(b = c, d $ 0 $ G1 at 10
a(T $ 0 $ G1 at 3
a(T = F) $ 0 $ update(a@0-1;T=F@6-7)@0-8 rest 0
a(this $ 0 $ G1 at 6
a(this = b) $ 0 $ G1 at 7
a(1 = b) $ 0 $ G1 at 4
a(b + c $ 0 $ G1 at 7
a(b + c = d) $ 0 $ G1 at 8
a(b;= c) $ 0 $ update(a@0-1;b=c@6-7)@0-8 rest 0
a(b =; c) $ 0 $ update(a@0-1;b=c@7-8)@0-9 rest 0
a(b = c = d) $ 0 $ G1 at 8
a(b = c; , d = e) $ 0 $ update(a@0-1;b=c@6-7,d=e@15-16)@0-17 rest 0
a(b => c) $ 0 $ G1 at 4
a(b :+ c) $ 0 $ apply(a@0-1;infix(b@2-3 :+ c@7-8)@2-8)@0-9 rest 0
a(b : c) $ 0 $ G1 at 4
a(b match = c) $ 0 $ G1 at 10
a(b match { case c => } = d) $ 0 $ G1 at 24
a(until = to, to = until) $ 0 $ update(a@0-1;until=to@10-12,to=until@19-24)@0-25 rest 0
a(if (b) c else d = e) $ 0 $ G1 at 18
a(-b = c) $ 0 $ G1 at 5
a(b = c, -d = e) $ 0 $ G1 at 9
a(b = c, d(e) = f) $ 0 $ G1 at 10
a(b = c, 1 = d) $ 0 $ G1 at 9
"#;

/// A minus before a number, with little room.
pub const MINUS: &[u8] = br#"
-1 $ 61 $ literal(-Number 1)@0-2 rest 0
-1 $ 62 $ literal(-Number 1)@0-2 rest 0
-1 $ 63 $ literal(-Number 1)@0-2 rest 0
-1 $ 64 $ G6 at 0
-a $ 61 $ prefix(- a@1-2)@0-2 rest 0
-a $ 62 $ prefix(- a@1-2)@0-2 rest 0
-a $ 63 $ G6 at 1
-a $ 64 $ G6 at 0
-1.a $ 61 $ prefix(- select(literal(Number 1)@1-2 a)@1-4)@0-4 rest 0
-1.a $ 62 $ G6 at 2
-1.a $ 63 $ G6 at 2
-1.a $ 64 $ G6 at 0
-1(a) $ 61 $ prefix(- apply(literal(Number 1)@1-2;a@3-4)@1-5)@0-5 rest 0
-1(a) $ 62 $ G6 at 2
-1(a) $ 63 $ G6 at 2
-1(a) $ 64 $ G6 at 0
-1[a] $ 61 $ prefix(- given(literal(Number 1)@1-2;a@3-4)@1-5)@0-5 rest 0
-1[a] $ 62 $ G6 at 2
-1[a] $ 63 $ G6 at 2
-1[a] $ 64 $ G6 at 0
-1 + a $ 61 $ infix(literal(-Number 1)@0-2 + a@5-6)@0-6 rest 0
-1 + a $ 62 $ infix(literal(-Number 1)@0-2 + a@5-6)@0-6 rest 0
-1 + a $ 63 $ G6 at 3
-1 + a $ 64 $ G6 at 0
-1 match { case a => } $ 61 $ match(literal(-Number 1)@0-2;case(a@16-17=>))@0-22 rest 0
-1 match { case a => } $ 62 $ match(literal(-Number 1)@0-2;case(a@16-17=>))@0-22 rest 0
-1 match { case a => } $ 63 $ G6 at 3
-1 match { case a => } $ 64 $ G6 at 0
-  $ 61 $ G1 at 2
-  $ 62 $ G1 at 2
-  $ 63 $ G1 at 2
-  $ 64 $ G6 at 0
-( $ 61 $ G1 at 2
-( $ 62 $ G6 at 1
-( $ 63 $ G6 at 1
-( $ 64 $ G6 at 0
-(1) $ 61 $ prefix(- paren(literal(Number 1)@2-3)@1-4)@0-4 rest 0
-(1) $ 62 $ G6 at 1
-(1) $ 63 $ G6 at 1
-(1) $ 64 $ G6 at 0
-"a" $ 61 $ prefix(- literal(Quoted "a")@1-4)@0-4 rest 0
-"a" $ 62 $ prefix(- literal(Quoted "a")@1-4)@0-4 rest 0
-"a" $ 63 $ G6 at 1
-"a" $ 64 $ G6 at 0
-this $ 61 $ prefix(- this()@1-5)@0-5 rest 0
-this $ 62 $ prefix(- this()@1-5)@0-5 rest 0
-this $ 63 $ G6 at 1
-this $ 64 $ G6 at 0
--1 $ 61 $ G1 at 0
--1 $ 62 $ G1 at 0
--1 $ 63 $ G1 at 0
--1 $ 64 $ G1 at 0
- -1 $ 61 $ G1 at 2
- -1 $ 62 $ G1 at 2
- -1 $ 63 $ G1 at 2
- -1 $ 64 $ G6 at 0
-1 2 $ 61 $ literal(-Number 1)@0-2 rest 1
-1 2 $ 62 $ literal(-Number 1)@0-2 rest 1
-1 2 $ 63 $ literal(-Number 1)@0-2 rest 1
-1 2 $ 64 $ G6 at 0
-1) $ 61 $ literal(-Number 1)@0-2 rest 1
-1) $ 62 $ literal(-Number 1)@0-2 rest 1
-1) $ 63 $ literal(-Number 1)@0-2 rest 1
-1) $ 64 $ G6 at 0
"#;

/// A match, and what stands behind it.
pub const BEHIND: &[u8] = br#"
a match $ 0 $ G1 at 7
a match b $ 0 $ G1 at 8
a match { $ 0 $ G1 at 9
a match; { $ 0 $ G1 at 10
a match { case b => } match $ 0 $ match(a@0-1;case(b@15-16=>))@0-21 rest 1
a match { case b => } match { case c => } $ 0 $ match(a@0-1;case(b@15-16=>))@0-21 rest 6
a match { case b => } + c $ 0 $ match(a@0-1;case(b@15-16=>))@0-21 rest 2
(a match { case b => }) match { case c => } $ 0 $ match(paren(match(a@1-2;case(b@16-17=>))@1-22)@0-23;case(c@37-38=>))@0-43 rest 0
(a match { case b => }) + c $ 0 $ infix(paren(match(a@1-2;case(b@16-17=>))@1-22)@0-23 + c@26-27)@0-27 rest 0
a + b match { case c => } + d $ 0 $ match(infix(a@0-1 + b@4-5)@0-5;case(c@19-20=>))@0-25 rest 2
-a match { case b => }.c $ 0 $ match(prefix(- a@1-2)@0-2;case(b@16-17=>))@0-22 rest 2
if (a) b match { case c => } else d $ 0 $ if(a@4-5,match(b@7-8;case(c@22-23=>))@7-28,d@34-35)@0-35 rest 0
if (a) b else c match { case d => } $ 0 $ if(a@4-5,b@7-8,match(c@14-15;case(d@29-30=>))@14-35)@0-35 rest 0
if (a) b match { case c => } $ 0 $ G1 at 28
if (a) b match { case c => } match $ 0 $ G1 at 29
if (a) b else c match { case d => } match { case e => } $ 0 $ if(a@4-5,b@7-8,match(c@14-15;case(d@29-30=>))@14-35)@0-35 rest 6
a; match { case b => } $ 0 $ match(a@0-1;case(b@16-17=>))@0-22 rest 0
a(b match { case c => }, d) $ 0 $ apply(a@0-1;match(b@2-3;case(c@17-18=>))@2-23,d@25-26)@0-27 rest 0
a(b = c match { case d => }, e = f) $ 0 $ update(a@0-1;b=match(c@6-7;case(d@21-22=>))@6-27,e=f@33-34)@0-35 rest 0
a.b match { case c => d match { case e => } } $ 0 $ match(select(a@0-1 b)@0-3;case(c@17-18=>matches(d@22-23;case(e@37-38=>))@22-43))@0-45 rest 0
a match { case b => c match { case d => } = e } $ 0 $ match(a@0-1;case(b@15-16=>assign(match(c@20-21;case(d@35-36=>))@20-41=e@44-45)@20-45))@0-47 rest 0
a match { case b => c match { case d => } e } $ 0 $ G1 at 42
a match { case b => (c match { case d => }) = e } $ 0 $ match(a@0-1;case(b@15-16=>assign(paren(match(c@21-22;case(d@36-37=>))@21-42)@20-43=e@46-47)@20-47))@0-49 rest 0
a match { case b => c match { case d => }; e } $ 0 $ match(a@0-1;case(b@15-16=>matches(c@20-21;case(d@35-36=>))@20-41;call(e@43-44)@43-44))@0-46 rest 0
a match { case b => c match { case d => } case e => } $ 0 $ match(a@0-1;case(b@15-16=>matches(c@20-21;case(d@35-36=>))@20-41) case(e@47-48=>))@0-53 rest 0
a match { case b if c match { case d => } => } $ 0 $ match(a@0-1;case(b@15-16 if match(c@20-21;case(d@35-36=>))@20-41=>))@0-46 rest 0
a match { case b if c => d if } $ 0 $ G1 at 27
"#;

/// Names and texts that begin statements, or are words elsewhere.
pub const LOOKING: &[u8] = br#"
if $ 0 $ G1 at 2
if (a) b $ 0 $ G1 at 8
if (a) b else $ 0 $ G1 at 13
if (a) b else if $ 0 $ G1 at 16
if (a) (b) else (c) $ 0 $ if(a@4-5,paren(b@8-9)@7-10,paren(c@17-18)@16-19)@0-19 rest 0
if (a)(b)(c) else d $ 0 $ if(a@4-5,apply(paren(b@7-8)@6-9;c@10-11)@6-12,d@18-19)@0-19 rest 0
if (a) -b else -1 $ 0 $ if(a@4-5,prefix(- b@8-9)@7-9,literal(-Number 1)@15-17)@0-17 rest 0
if (a) !b else ~c $ 0 $ if(a@4-5,prefix(! b@8-9)@7-9,prefix(~ c@16-17)@15-17)@0-17 rest 0
if (a) { b } else c $ 0 $ G1 at 7
if (a) b else { c } $ 0 $ G1 at 14
if (a) b = c else d $ 0 $ G1 at 9
if (a) b else c = d $ 0 $ if(a@4-5,b@7-8,c@14-15)@0-15 rest 2
Contract $ 0 $ Contract@0-8 rest 0
Contract(a) $ 0 $ apply(Contract@0-8;a@9-10)@0-11 rest 0
Contract ( $ 0 $ G1 at 10
Contract[a](b) $ 0 $ apply(given(Contract@0-8;a@9-10)@0-11;b@12-13)@0-14 rest 0
Contract.a $ 0 $ select(Contract@0-8 a)@0-10 rest 0
Contract match { case a => } $ 0 $ match(Contract@0-8;case(a@22-23=>))@0-28 rest 0
Contract + a $ 0 $ infix(Contract@0-8 + a@11-12)@0-12 rest 0
Contract(a = b) $ 0 $ update(Contract@0-8;a=b@13-14)@0-15 rest 0
Contract(a)(b) $ 0 $ apply(apply(Contract@0-8;a@9-10)@0-11;b@12-13)@0-14 rest 0
Contract(]) $ 0 $ G1 at 9
l"a" $ 0 $ literal(Prefixed l"a")@0-4 rest 0
l"a".b $ 0 $ select(literal(Prefixed l"a")@0-4 b)@0-6 rest 0
l"a"(b) $ 0 $ apply(literal(Prefixed l"a")@0-4;b@5-6)@0-7 rest 0
l"a" + b $ 0 $ infix(literal(Prefixed l"a")@0-4 + b@7-8)@0-8 rest 0
until $ 0 $ until@0-5 rest 0
until until $ 0 $ until@0-5 rest 1
until to $ 0 $ until@0-5 rest 1
to(to) $ 0 $ apply(to@0-2;to@3-5)@0-6 rest 0
T $ 0 $ T@0-1 rest 0
F $ 0 $ F@0-1 rest 0
T.a $ 0 $ select(T@0-1 a)@0-3 rest 0
T(a) $ 0 $ apply(T@0-1;a@2-3)@0-4 rest 0
F = a $ 0 $ F@0-1 rest 2
this $ 0 $ this()@0-4 rest 0
this.this $ 0 $ G1 at 5
this(this) $ 0 $ apply(this()@0-4;this()@5-9)@0-10 rest 0
"#;
