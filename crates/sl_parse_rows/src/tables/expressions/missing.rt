// Expressions cut off before each of their tokens, and with each of them left out.

/// Cut off.
pub const CUT: &[u8] = br#"
 $ 0 $ G1 at 0
( $ 0 $ G1 at 1
(a $ 0 $ G1 at 2
a $ 0 $ a@0-1 rest 0
a. $ 0 $ G1 at 2
a.b $ 0 $ select(a@0-1 b)@0-3 rest 0
a.b. $ 0 $ G1 at 4
a[ $ 0 $ G1 at 2
a[b $ 0 $ G1 at 3
a[b,  $ 0 $ G1 at 5
a[b, c $ 0 $ G1 at 6
a[b, c. $ 0 $ G1 at 7
a[b, c.d $ 0 $ G1 at 8
a[b, c.d[ $ 0 $ G1 at 9
a[b, c.d[e $ 0 $ G1 at 10
a[b, c.d[e] $ 0 $ G1 at 11
a( $ 0 $ G1 at 2
a(b $ 0 $ G1 at 3
a(b,  $ 0 $ G1 at 5
a(b, c $ 0 $ G1 at 6
a(b  $ 0 $ G1 at 4
a(b =  $ 0 $ G1 at 6
a(b = c $ 0 $ G1 at 7
a(b = c,  $ 0 $ G1 at 9
a(b = c, d  $ 0 $ G1 at 11
a(b = c, d =  $ 0 $ G1 at 13
a(b = c, d = e $ 0 $ G1 at 14
- $ 0 $ G1 at 1
-a $ 0 $ prefix(- a@1-2)@0-2 rest 0
-a. $ 0 $ G1 at 3
! $ 0 $ G1 at 1
!a $ 0 $ prefix(! a@1-2)@0-2 rest 0
!a( $ 0 $ G1 at 3
!a(b $ 0 $ G1 at 4
~ $ 0 $ G1 at 1
~( $ 0 $ G1 at 2
~(a $ 0 $ G1 at 3
a  $ 0 $ a@0-1 rest 0
a +  $ 0 $ G1 at 4
a + b  $ 0 $ infix(a@0-1 + b@4-5)@0-5 rest 0
a + b *  $ 0 $ G1 at 8
if  $ 0 $ G1 at 3
if ( $ 0 $ G1 at 4
if (a $ 0 $ G1 at 5
if (a)  $ 0 $ G1 at 7
if (a) b  $ 0 $ G1 at 9
if (a) b else  $ 0 $ G1 at 14
if (a) b $ 0 $ G1 at 8
if (a) b. $ 0 $ G1 at 9
if (a) b.c  $ 0 $ G1 at 11
if (a) b.c else  $ 0 $ G1 at 16
if (a) b.c else d $ 0 $ if(a@4-5,select(b@7-8 c)@7-10,d@16-17)@0-17 rest 0
if (a) b.c else d( $ 0 $ G1 at 18
if (a) b.c else d(e $ 0 $ G1 at 19
if (a) if  $ 0 $ G1 at 10
if (a) if ( $ 0 $ G1 at 11
if (a) if (b $ 0 $ G1 at 12
if (a) if (b)  $ 0 $ G1 at 14
if (a) if (b) c  $ 0 $ G1 at 16
if (a) if (b) c else  $ 0 $ G1 at 21
if (a) if (b) c else d  $ 0 $ G1 at 23
if (a) if (b) c else d else  $ 0 $ G1 at 28
a match  $ 0 $ G1 at 8
a match {  $ 0 $ G1 at 10
a match { case  $ 0 $ G1 at 15
a match { case b  $ 0 $ G1 at 17
a match { case b =>  $ 0 $ G1 at 20
a + b match  $ 0 $ G1 at 12
a + b match {  $ 0 $ G1 at 14
a + b match { case  $ 0 $ G1 at 19
a + b match { case _ $ 0 $ G1 at 20
a + b match { case _:  $ 0 $ G1 at 22
a + b match { case _: c  $ 0 $ G1 at 24
a + b match { case _: c =>  $ 0 $ G1 at 27
a + b match { case _: c => d  $ 0 $ G1 at 29
a match { case b if  $ 0 $ G1 at 20
a match { case b if c  $ 0 $ G1 at 22
a match { case b if c =>  $ 0 $ G1 at 25
a match { case b if c => d;  $ 0 $ G1 at 28
a match { case b if c => d; e  $ 0 $ G1 at 30
a match { case b if c => d; e case  $ 0 $ G1 at 35
a match { case b if c => d; e case f  $ 0 $ G1 at 37
a match { case b if c => d; e case f =>  $ 0 $ G1 at 40
(a  $ 0 $ G1 at 3
(a match  $ 0 $ G1 at 9
(a match {  $ 0 $ G1 at 11
(a match { case  $ 0 $ G1 at 16
(a match { case b  $ 0 $ G1 at 18
(a match { case b =>  $ 0 $ G1 at 21
(a match { case b => c  $ 0 $ G1 at 23
(a match { case b => c } $ 0 $ G1 at 24
a(b match  $ 0 $ G1 at 10
a(b match {  $ 0 $ G1 at 12
a(b match { case  $ 0 $ G1 at 17
a(b match { case c  $ 0 $ G1 at 19
a(b match { case c =>  $ 0 $ G1 at 22
a(b match { case c => } $ 0 $ G1 at 23
a match { case b => if  $ 0 $ G1 at 23
a match { case b => if ( $ 0 $ G1 at 24
a match { case b => if (c $ 0 $ G1 at 25
a match { case b => if (c)  $ 0 $ G1 at 27
a match { case b => if (c) {  $ 0 $ G1 at 29
a match { case b => if (c) { d  $ 0 $ G1 at 31
a match { case b => if (c) { d }  $ 0 $ G1 at 33
a match { case b => if (c) { d } else  $ 0 $ G1 at 38
a match { case b => if (c) { d } else {  $ 0 $ G1 at 40
a match { case b => if (c) { d } else { e  $ 0 $ G1 at 42
a match { case b => if (c) { d } else { e }  $ 0 $ G1 at 44
"#;

/// Left out.
pub const MISSING: &[u8] = br#"
a) $ 0 $ a@0-1 rest 1
() $ 0 $ G1 at 1
(a $ 0 $ G1 at 2
.b.c $ 0 $ G1 at 0
ab.c $ 0 $ select(ab@0-2 c)@0-4 rest 0
a..c $ 0 $ G1 at 2
a.bc $ 0 $ select(a@0-1 bc)@0-4 rest 0
a.b. $ 0 $ G1 at 4
[b, c.d[e]] $ 0 $ G1 at 0
ab, c.d[e]] $ 0 $ ab@0-2 rest 8
a[, c.d[e]] $ 0 $ G1 at 2
a[b c.d[e]] $ 0 $ G1 at 4
a[b, .d[e]] $ 0 $ G1 at 5
a[b, cd[e]] $ 0 $ given(a@0-1;b@2-3,cd[e@8-9]@5-10)@0-11 rest 0
a[b, c.[e]] $ 0 $ G1 at 7
a[b, c.de]] $ 0 $ given(a@0-1;b@2-3,c.de@5-9)@0-10 rest 1
a[b, c.d[]] $ 0 $ G1 at 9
a[b, c.d[e] $ 0 $ G1 at 11
(b, c) $ 0 $ G1 at 2
ab, c) $ 0 $ ab@0-2 rest 3
a(, c) $ 0 $ G1 at 2
a(b c) $ 0 $ G1 at 4
a(b, ) $ 0 $ G1 at 5
a(b, c $ 0 $ G1 at 6
a( $ 0 $ G1 at 2
(b = c, d = e) $ 0 $ G1 at 3
ab = c, d = e) $ 0 $ ab@0-2 rest 7
a( = c, d = e) $ 0 $ G1 at 3
a(b  c, d = e) $ 0 $ G1 at 5
a(b = , d = e) $ 0 $ G1 at 6
a(b = c d = e) $ 0 $ G1 at 8
a(b = c,  = e) $ 0 $ G1 at 10
a(b = c, d  e) $ 0 $ G1 at 12
a(b = c, d = ) $ 0 $ G1 at 13
a(b = c, d = e $ 0 $ G1 at 14
1 $ 0 $ literal(Number 1)@0-1 rest 0
- $ 0 $ G1 at 1
a.b $ 0 $ select(a@0-1 b)@0-3 rest 0
-.b $ 0 $ G1 at 1
-ab $ 0 $ prefix(- ab@1-3)@0-3 rest 0
-a. $ 0 $ G1 at 3
a(b) $ 0 $ apply(a@0-1;b@2-3)@0-4 rest 0
!(b) $ 0 $ prefix(! paren(b@2-3)@1-4)@0-4 rest 0
!ab) $ 0 $ prefix(! ab@1-3)@0-3 rest 1
!a() $ 0 $ prefix(! apply(a@1-2)@1-4)@0-4 rest 0
!a(b $ 0 $ G1 at 4
(a) $ 0 $ paren(a@1-2)@0-3 rest 0
~a) $ 0 $ prefix(~ a@1-2)@0-2 rest 1
~() $ 0 $ G1 at 2
~(a $ 0 $ G1 at 3
 + b * c $ 0 $ G1 at 1
a  b * c $ 0 $ a@0-1 rest 3
a +  * c $ 0 $ G1 at 5
a + b  c $ 0 $ infix(a@0-1 + b@4-5)@0-5 rest 1
a + b *  $ 0 $ G1 at 8
 (a) b else c $ 0 $ paren(a@2-3)@1-4 rest 3
if a) b else c $ 0 $ G1 at 3
if () b else c $ 0 $ G1 at 4
if (a b else c $ 0 $ G1 at 6
if (a)  else c $ 0 $ G1 at 8
if (a) b  c $ 0 $ G1 at 10
if (a) b else  $ 0 $ G1 at 14
 (a) b.c else d(e) $ 0 $ paren(a@2-3)@1-4 rest 8
if a) b.c else d(e) $ 0 $ G1 at 3
if () b.c else d(e) $ 0 $ G1 at 4
if (a b.c else d(e) $ 0 $ G1 at 6
if (a) .c else d(e) $ 0 $ G1 at 7
if (a) bc else d(e) $ 0 $ if(a@4-5,bc@7-9,apply(d@15-16;e@17-18)@15-19)@0-19 rest 0
if (a) b. else d(e) $ 0 $ G1 at 10
if (a) b.c  d(e) $ 0 $ G1 at 12
if (a) b.c else (e) $ 0 $ if(a@4-5,select(b@7-8 c)@7-10,paren(e@17-18)@16-19)@0-19 rest 0
if (a) b.c else de) $ 0 $ if(a@4-5,select(b@7-8 c)@7-10,de@16-18)@0-18 rest 1
if (a) b.c else d() $ 0 $ if(a@4-5,select(b@7-8 c)@7-10,apply(d@16-17)@16-19)@0-19 rest 0
if (a) b.c else d(e $ 0 $ G1 at 19
 (a) if (b) c else d else e $ 0 $ paren(a@2-3)@1-4 rest 9
if a) if (b) c else d else e $ 0 $ G1 at 3
if () if (b) c else d else e $ 0 $ G1 at 4
if (a if (b) c else d else e $ 0 $ G1 at 6
if (a)  (b) c else d else e $ 0 $ G1 at 12
if (a) if b) c else d else e $ 0 $ G1 at 10
if (a) if () c else d else e $ 0 $ G1 at 11
if (a) if (b c else d else e $ 0 $ G1 at 13
if (a) if (b)  else d else e $ 0 $ G1 at 15
if (a) if (b) c  d else e $ 0 $ G1 at 17
if (a) if (b) c else  else e $ 0 $ G1 at 22
if (a) if (b) c else d  e $ 0 $ G1 at 24
if (a) if (b) c else d else  $ 0 $ G1 at 28
 match { case b => } $ 0 $ G1 at 1
a  { case b => } $ 0 $ a@0-1 rest 5
a match  case b => } $ 0 $ G1 at 9
a match {  b => } $ 0 $ G1 at 11
a match { case  => } $ 0 $ G1 at 16
a match { case b  } $ 0 $ G1 at 18
a match { case b =>  $ 0 $ G1 at 20
 + b match { case _: c => d } $ 0 $ G1 at 1
a  b match { case _: c => d } $ 0 $ a@0-1 rest 10
a +  match { case _: c => d } $ 0 $ G1 at 5
a + b  { case _: c => d } $ 0 $ infix(a@0-1 + b@4-5)@0-5 rest 8
a + b match  case _: c => d } $ 0 $ G1 at 13
a + b match {  _: c => d } $ 0 $ G1 at 15
a + b match { case : c => d } $ 0 $ G1 at 19
a + b match { case _ c => d } $ 0 $ G1 at 21
a + b match { case _:  => d } $ 0 $ G1 at 23
a + b match { case _: c  d } $ 0 $ G1 at 25
a + b match { case _: c =>  } $ 0 $ match(infix(a@0-1 + b@4-5)@0-5;case(any(c@22-23)@19-23=>))@0-29 rest 0
a + b match { case _: c => d  $ 0 $ G1 at 29
 match { case b if c => d; e case f => } $ 0 $ G1 at 1
a  { case b if c => d; e case f => } $ 0 $ a@0-1 rest 13
a match  case b if c => d; e case f => } $ 0 $ G1 at 9
a match {  b if c => d; e case f => } $ 0 $ G1 at 11
a match { case  if c => d; e case f => } $ 0 $ G1 at 16
a match { case b  c => d; e case f => } $ 0 $ G1 at 18
a match { case b if  => d; e case f => } $ 0 $ G1 at 21
a match { case b if c  d; e case f => } $ 0 $ G1 at 23
a match { case b if c => ; e case f => } $ 0 $ match(a@0-1;case(b@15-16 if c@20-21=>call(e@27-28)@27-28) case(f@34-35=>))@0-40 rest 0
a match { case b if c => d;  case f => } $ 0 $ match(a@0-1;case(b@15-16 if c@20-21=>call(d@25-26)@25-26) case(f@34-35=>))@0-40 rest 0
a match { case b if c => d; e  f => } $ 0 $ G1 at 31
a match { case b if c => d; e case  => } $ 0 $ G1 at 36
a match { case b if c => d; e case f  } $ 0 $ G1 at 38
a match { case b if c => d; e case f =>  $ 0 $ G1 at 40
a match { case b => c }) $ 0 $ match(a@0-1;case(b@15-16=>call(c@20-21)@20-21))@0-23 rest 1
( match { case b => c }) $ 0 $ G1 at 2
(a  { case b => c }) $ 0 $ G1 at 4
(a match  case b => c }) $ 0 $ G1 at 10
(a match {  b => c }) $ 0 $ G1 at 12
(a match { case  => c }) $ 0 $ G1 at 17
(a match { case b  c }) $ 0 $ G1 at 19
(a match { case b =>  }) $ 0 $ paren(match(a@1-2;case(b@16-17=>))@1-23)@0-24 rest 0
(a match { case b => c ) $ 0 $ G1 at 23
(a match { case b => c } $ 0 $ G1 at 24
(b match { case c => }) $ 0 $ paren(match(b@1-2;case(c@16-17=>))@1-22)@0-23 rest 0
ab match { case c => }) $ 0 $ match(ab@0-2;case(c@16-17=>))@0-22 rest 1
a( match { case c => }) $ 0 $ G1 at 3
a(b  { case c => }) $ 0 $ G1 at 5
a(b match  case c => }) $ 0 $ G1 at 11
a(b match {  c => }) $ 0 $ G1 at 13
a(b match { case  => }) $ 0 $ G1 at 18
a(b match { case c  }) $ 0 $ G1 at 20
a(b match { case c => ) $ 0 $ G1 at 22
a(b match { case c => } $ 0 $ G1 at 23
 match { case b => if (c) { d } else { e } } $ 0 $ G1 at 1
a  { case b => if (c) { d } else { e } } $ 0 $ a@0-1 rest 16
a match  case b => if (c) { d } else { e } } $ 0 $ G1 at 9
a match {  b => if (c) { d } else { e } } $ 0 $ G1 at 11
a match { case  => if (c) { d } else { e } } $ 0 $ G1 at 16
a match { case b  if (c) { d } else { e } } $ 0 $ G1 at 25
a match { case b =>  (c) { d } else { e } } $ 0 $ G1 at 25
a match { case b => if c) { d } else { e } } $ 0 $ G1 at 23
a match { case b => if () { d } else { e } } $ 0 $ G1 at 24
a match { case b => if (c { d } else { e } } $ 0 $ G1 at 26
a match { case b => if (c)  d } else { e } } $ 0 $ G1 at 30
a match { case b => if (c) {  } else { e } } $ 0 $ match(a@0-1;case(b@15-16=>ifs(c@24-25 {} {call(e@39-40)@39-40})@20-42))@0-44 rest 0
a match { case b => if (c) { d  else { e } } $ 0 $ G1 at 32
a match { case b => if (c) { d }  { e } } $ 0 $ G1 at 34
a match { case b => if (c) { d } else  e } } $ 0 $ G1 at 39
a match { case b => if (c) { d } else {  } } $ 0 $ match(a@0-1;case(b@15-16=>ifs(c@24-25 {call(d@29-30)@29-30} {})@20-42))@0-44 rest 0
a match { case b => if (c) { d } else { e  } $ 0 $ G1 at 44
a match { case b => if (c) { d } else { e }  $ 0 $ G1 at 44
"#;
