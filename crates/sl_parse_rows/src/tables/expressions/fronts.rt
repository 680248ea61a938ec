// Expressions that break off or end, with little room.

/// Each text at the depths from 61 to 64.
pub const FRONTS: &[u8] = br#"
 $ 61 $ G1 at 0
 $ 62 $ G1 at 0
 $ 63 $ G1 at 0
 $ 64 $ G1 at 0
// a $ 61 $ G1 at 4
// a $ 62 $ G1 at 4
// a $ 63 $ G1 at 4
// a $ 64 $ G1 at 4
} $ 61 $ G1 at 0
} $ 62 $ G1 at 0
} $ 63 $ G1 at 0
} $ 64 $ G1 at 0
{ a } $ 61 $ G1 at 0
{ a } $ 62 $ G1 at 0
{ a } $ 63 $ G1 at 0
{ a } $ 64 $ G1 at 0
. $ 61 $ G1 at 0
. $ 62 $ G1 at 0
. $ 63 $ G1 at 0
. $ 64 $ G1 at 0
= $ 61 $ G1 at 0
= $ 62 $ G1 at 0
= $ 63 $ G1 at 0
= $ 64 $ G1 at 0
<- $ 61 $ G1 at 0
<- $ 62 $ G1 at 0
<- $ 63 $ G1 at 0
<- $ 64 $ G1 at 0
@a $ 61 $ G1 at 0
@a $ 62 $ G1 at 0
@a $ 63 $ G1 at 0
@a $ 64 $ G1 at 0
+a $ 61 $ G1 at 0
+a $ 62 $ G1 at 0
+a $ 63 $ G1 at 0
+a $ 64 $ G1 at 0
== $ 61 $ G1 at 0
== $ 62 $ G1 at 0
== $ 63 $ G1 at 0
== $ 64 $ G1 at 0
# $ 61 $ G1 at 0
# $ 62 $ G1 at 0
# $ 63 $ G1 at 0
# $ 64 $ G1 at 0
match $ 61 $ G1 at 0
match $ 62 $ G1 at 0
match $ 63 $ G1 at 0
match $ 64 $ G1 at 0
case a => $ 61 $ G1 at 0
case a => $ 62 $ G1 at 0
case a => $ 63 $ G1 at 0
case a => $ 64 $ G1 at 0
while (a) { } $ 61 $ G1 at 0
while (a) { } $ 62 $ G1 at 0
while (a) { } $ 63 $ G1 at 0
while (a) { } $ 64 $ G1 at 0
return a $ 61 $ G1 at 0
return a $ 62 $ G1 at 0
return a $ 63 $ G1 at 0
return a $ 64 $ G1 at 0
true $ 61 $ G1 at 0
true $ 62 $ G1 at 0
true $ 63 $ G1 at 0
true $ 64 $ G1 at 0
new a $ 61 $ G1 at 0
new a $ 62 $ G1 at 0
new a $ 63 $ G1 at 0
new a $ 64 $ G1 at 0
--1 $ 61 $ G1 at 0
--1 $ 62 $ G1 at 0
--1 $ 63 $ G1 at 0
--1 $ 64 $ G1 at 0
- -a $ 61 $ G1 at 2
- -a $ 62 $ G1 at 2
- -a $ 63 $ G1 at 2
- -a $ 64 $ G6 at 0
!-a $ 61 $ G1 at 0
!-a $ 62 $ G1 at 0
!-a $ 63 $ G1 at 0
!-a $ 64 $ G1 at 0
-~a $ 61 $ G1 at 0
-~a $ 62 $ G1 at 0
-~a $ 63 $ G1 at 0
-~a $ 64 $ G1 at 0
! $ 61 $ G1 at 1
! $ 62 $ G1 at 1
! $ 63 $ G6 at 0
! $ 64 $ G6 at 0
!) $ 61 $ G1 at 1
!) $ 62 $ G1 at 1
!) $ 63 $ G6 at 0
!) $ 64 $ G6 at 0
-{ $ 61 $ G1 at 1
-{ $ 62 $ G1 at 1
-{ $ 63 $ G1 at 1
-{ $ 64 $ G6 at 0
(,) $ 61 $ G1 at 1
(,) $ 62 $ G1 at 1
(,) $ 63 $ G6 at 0
(,) $ 64 $ G6 at 0
(a b) $ 61 $ G1 at 3
(a b) $ 62 $ G1 at 3
(a b) $ 63 $ G6 at 0
(a b) $ 64 $ G6 at 0
(a = b) $ 61 $ G1 at 3
(a = b) $ 62 $ G1 at 3
(a = b) $ 63 $ G6 at 0
(a = b) $ 64 $ G6 at 0
(val a = b) $ 61 $ G1 at 1
(val a = b) $ 62 $ G1 at 1
(val a = b) $ 63 $ G6 at 0
(val a = b) $ 64 $ G6 at 0
((a) $ 61 $ G1 at 4
((a) $ 62 $ G6 at 1
((a) $ 63 $ G6 at 0
((a) $ 64 $ G6 at 0
a. $ 61 $ G1 at 2
a. $ 62 $ G1 at 2
a. $ 63 $ G6 at 1
a. $ 64 $ G6 at 0
a.1 $ 61 $ G1 at 2
a.1 $ 62 $ G1 at 2
a.1 $ 63 $ G6 at 1
a.1 $ 64 $ G6 at 0
a.(b) $ 61 $ G1 at 2
a.(b) $ 62 $ G1 at 2
a.(b) $ 63 $ G6 at 1
a.(b) $ 64 $ G6 at 0
a.if $ 61 $ G1 at 2
a.if $ 62 $ G1 at 2
a.if $ 63 $ G6 at 1
a.if $ 64 $ G6 at 0
a. = b $ 61 $ G1 at 3
a. = b $ 62 $ G1 at 3
a. = b $ 63 $ G6 at 1
a. = b $ 64 $ G6 at 0
a[] $ 61 $ G1 at 2
a[] $ 62 $ G1 at 2
a[] $ 63 $ G6 at 1
a[] $ 64 $ G6 at 0
a[b, $ 61 $ G1 at 4
a[b, $ 62 $ G1 at 4
a[b, $ 63 $ G6 at 1
a[b, $ 64 $ G6 at 0
a[1] $ 61 $ G1 at 2
a[1] $ 62 $ G1 at 2
a[1] $ 63 $ G6 at 1
a[1] $ 64 $ G6 at 0
a[b) $ 61 $ G1 at 3
a[b) $ 62 $ G1 at 3
a[b) $ 63 $ G6 at 1
a[b) $ 64 $ G6 at 0
a[b[]] $ 61 $ G1 at 4
a[b[]] $ 62 $ G6 at 3
a[b[]] $ 63 $ G6 at 1
a[b[]] $ 64 $ G6 at 0
a[b: c] $ 61 $ G1 at 3
a[b: c] $ 62 $ G1 at 3
a[b: c] $ 63 $ G6 at 1
a[b: c] $ 64 $ G6 at 0
a(, $ 61 $ G1 at 2
a(, $ 62 $ G1 at 2
a(, $ 63 $ G6 at 1
a(, $ 64 $ G6 at 0
a(b, $ 61 $ G1 at 4
a(b, $ 62 $ G1 at 4
a(b, $ 63 $ G6 at 1
a(b, $ 64 $ G6 at 0
a(b,,c) $ 61 $ G1 at 4
a(b,,c) $ 62 $ G1 at 4
a(b,,c) $ 63 $ G6 at 1
a(b,,c) $ 64 $ G6 at 0
a(b] $ 61 $ G1 at 3
a(b] $ 62 $ G1 at 3
a(b] $ 63 $ G6 at 1
a(b] $ 64 $ G6 at 0
a(b = c $ 61 $ G1 at 7
a(b = c $ 62 $ G1 at 7
a(b = c $ 63 $ G6 at 1
a(b = c $ 64 $ G6 at 0
a(b = c, d) $ 61 $ G1 at 10
a(b = c, d) $ 62 $ G1 at 10
a(b = c, d) $ 63 $ G6 at 1
a(b = c, d) $ 64 $ G6 at 0
a(b = c, d.e = f) $ 61 $ G1 at 10
a(b = c, d.e = f) $ 62 $ G1 at 10
a(b = c, d.e = f) $ 63 $ G6 at 1
a(b = c, d.e = f) $ 64 $ G6 at 0
a(b(c) = d) $ 61 $ G1 at 7
a(b(c) = d) $ 62 $ G6 at 3
a(b(c) = d) $ 63 $ G6 at 1
a(b(c) = d) $ 64 $ G6 at 0
a((b) = c) $ 61 $ G1 at 6
a((b) = c) $ 62 $ G6 at 2
a((b) = c) $ 63 $ G6 at 1
a((b) = c) $ 64 $ G6 at 0
a(b = c = d) $ 61 $ G1 at 8
a(b = c = d) $ 62 $ G1 at 8
a(b = c = d) $ 63 $ G6 at 1
a(b = c = d) $ 64 $ G6 at 0
a(b = c, d = ) $ 61 $ G1 at 13
a(b = c, d = ) $ 62 $ G1 at 13
a(b = c, d = ) $ 63 $ G6 at 1
a(b = c, d = ) $ 64 $ G6 at 0
a(= b) $ 61 $ G1 at 2
a(= b) $ 62 $ G1 at 2
a(= b) $ 63 $ G6 at 1
a(= b) $ 64 $ G6 at 0
a(b <- c) $ 61 $ G1 at 4
a(b <- c) $ 62 $ G1 at 4
a(b <- c) $ 63 $ G6 at 1
a(b <- c) $ 64 $ G6 at 0
a(_) $ 61 $ G1 at 2
a(_) $ 62 $ G1 at 2
a(_) $ 63 $ G6 at 1
a(_) $ 64 $ G6 at 0
a(b match { case c => } = d) $ 61 $ G1 at 24
a(b match { case c => } = d) $ 62 $ G6 at 4
a(b match { case c => } = d) $ 63 $ G6 at 1
a(b match { case c => } = d) $ 64 $ G6 at 0
a(b)( $ 61 $ G1 at 5
a(b)( $ 62 $ G6 at 4
a(b)( $ 63 $ G6 at 1
a(b)( $ 64 $ G6 at 0
a(b)[ $ 61 $ G1 at 5
a(b)[ $ 62 $ G6 at 4
a(b)[ $ 63 $ G6 at 1
a(b)[ $ 64 $ G6 at 0
a + + b $ 61 $ G1 at 4
a + + b $ 62 $ G1 at 4
a + + b $ 63 $ G6 at 2
a + + b $ 64 $ G6 at 0
a + if (b) c else d $ 61 $ G1 at 4
a + if (b) c else d $ 62 $ G1 at 4
a + if (b) c else d $ 63 $ G6 at 2
a + if (b) c else d $ 64 $ G6 at 0
-if $ 61 $ G1 at 1
-if $ 62 $ G1 at 1
-if $ 63 $ G1 at 1
-if $ 64 $ G6 at 0
a + ! $ 61 $ G1 at 5
a + ! $ 62 $ G6 at 4
a + ! $ 63 $ G6 at 2
a + ! $ 64 $ G6 at 0
a + -;b $ 61 $ infix(a@0-1 + prefix(- b@6-7)@4-7)@0-7 rest 0
a + -;b $ 62 $ G6 at 6
a + -;b $ 63 $ G6 at 2
a + -;b $ 64 $ G6 at 0
a + match $ 61 $ G1 at 4
a + match $ 62 $ G1 at 4
a + match $ 63 $ G6 at 2
a + match $ 64 $ G6 at 0
a ! = b $ 61 $ a@0-1 rest 3
a ! = b $ 62 $ a@0-1 rest 3
a ! = b $ 63 $ a@0-1 rest 3
a ! = b $ 64 $ G6 at 0
a + _ $ 61 $ G1 at 4
a + _ $ 62 $ G1 at 4
a + _ $ 63 $ G6 at 2
a + _ $ 64 $ G6 at 0
if a $ 61 $ G1 at 3
if a $ 62 $ G1 at 3
if a $ 63 $ G6 at 0
if a $ 64 $ G6 at 0
if (a $ 61 $ G1 at 5
if (a $ 62 $ G1 at 5
if (a $ 63 $ G6 at 0
if (a $ 64 $ G6 at 0
if (a) b else $ 61 $ G1 at 13
if (a) b else $ 62 $ G1 at 13
if (a) b else $ 63 $ G6 at 0
if (a) b else $ 64 $ G6 at 0
if (a) b c $ 61 $ G1 at 9
if (a) b c $ 62 $ G1 at 9
if (a) b c $ 63 $ G6 at 0
if (a) b c $ 64 $ G6 at 0
if (a) b else { c } $ 61 $ G1 at 14
if (a) b else { c } $ 62 $ G1 at 14
if (a) b else { c } $ 63 $ G6 at 0
if (a) b else { c } $ 64 $ G6 at 0
if (a) b = c else d $ 61 $ G1 at 9
if (a) b = c else d $ 62 $ G1 at 9
if (a) b = c else d $ 63 $ G6 at 0
if (a) b = c else d $ 64 $ G6 at 0
if (a) b else if c $ 61 $ G1 at 17
if (a) b else if c $ 62 $ G6 at 14
if (a) b else if c $ 63 $ G6 at 0
if (a) b else if c $ 64 $ G6 at 0
if {a} b else c $ 61 $ G1 at 3
if {a} b else c $ 62 $ G1 at 3
if {a} b else c $ 63 $ G6 at 0
if {a} b else c $ 64 $ G6 at 0
if (a) return else b $ 61 $ G1 at 7
if (a) return else b $ 62 $ G1 at 7
if (a) return else b $ 63 $ G6 at 0
if (a) return else b $ 64 $ G6 at 0
if (a) b.else c $ 61 $ G1 at 9
if (a) b.else c $ 62 $ G6 at 8
if (a) b.else c $ 63 $ G6 at 0
if (a) b.else c $ 64 $ G6 at 0
a match $ 61 $ G1 at 7
a match $ 62 $ G1 at 7
a match $ 63 $ G6 at 2
a match $ 64 $ G6 at 0
a match { $ 61 $ G1 at 9
a match { $ 62 $ G1 at 9
a match { $ 63 $ G6 at 2
a match { $ 64 $ G6 at 0
a match { b } $ 61 $ G1 at 10
a match { b } $ 62 $ G1 at 10
a match { b } $ 63 $ G6 at 2
a match { b } $ 64 $ G6 at 0
a match { case => $ 61 $ G1 at 15
a match { case => $ 62 $ G1 at 15
a match { case => $ 63 $ G6 at 2
a match { case => $ 64 $ G6 at 0
a match { case b } $ 61 $ G1 at 17
a match { case b } $ 62 $ G1 at 17
a match { case b } $ 63 $ G6 at 2
a match { case b } $ 64 $ G6 at 0
a match { case b => $ 61 $ G1 at 19
a match { case b => $ 62 $ G1 at 19
a match { case b => $ 63 $ G6 at 2
a match { case b => $ 64 $ G6 at 0
a match { case b => case } $ 61 $ G1 at 25
a match { case b => case } $ 62 $ G1 at 25
a match { case b => case } $ 63 $ G6 at 2
a match { case b => case } $ 64 $ G6 at 0
a match { case b => , } $ 61 $ G1 at 20
a match { case b => , } $ 62 $ G1 at 20
a match { case b => , } $ 63 $ G6 at 2
a match { case b => , } $ 64 $ G6 at 0
a match { case b, c => } $ 61 $ G1 at 16
a match { case b, c => } $ 62 $ G1 at 16
a match { case b, c => } $ 63 $ G6 at 2
a match { case b, c => } $ 64 $ G6 at 0
a match { case b if } $ 61 $ G1 at 20
a match { case b if } $ 62 $ G1 at 20
a match { case b if } $ 63 $ G6 at 2
a match { case b if } $ 64 $ G6 at 0
a match { case b if c = d => } $ 61 $ G1 at 22
a match { case b if c = d => } $ 62 $ G1 at 22
a match { case b if c = d => } $ 63 $ G6 at 2
a match { case b if c = d => } $ 64 $ G6 at 0
a match { case b if { c } => } $ 61 $ G1 at 20
a match { case b if { c } => } $ 62 $ G1 at 20
a match { case b if { c } => } $ 63 $ G6 at 2
a match { case b if { c } => } $ 64 $ G6 at 0
a match { case b => c, d } $ 61 $ G1 at 21
a match { case b => c, d } $ 62 $ G6 at 20
a match { case b => c, d } $ 63 $ G6 at 2
a match { case b => c, d } $ 64 $ G6 at 0
a match { case b => c =; } $ 61 $ G1 at 25
a match { case b => c =; } $ 62 $ G6 at 20
a match { case b => c =; } $ 63 $ G6 at 2
a match { case b => c =; } $ 64 $ G6 at 0
a match { case b => c) $ 61 $ G1 at 21
a match { case b => c) $ 62 $ G6 at 20
a match { case b => c) $ 63 $ G6 at 2
a match { case b => c) $ 64 $ G6 at 0
a match { case b => { c } } $ 61 $ G1 at 20
a match { case b => { c } } $ 62 $ G1 at 20
a match { case b => { c } } $ 63 $ G6 at 2
a match { case b => { c } } $ 64 $ G6 at 0
a match [ case b => ] $ 61 $ G1 at 8
a match [ case b => ] $ 62 $ G1 at 8
a match [ case b => ] $ 63 $ G6 at 2
a match [ case b => ] $ 64 $ G6 at 0
a match { case b => ] $ 61 $ G1 at 20
a match { case b => ] $ 62 $ G1 at 20
a match { case b => ] $ 63 $ G6 at 2
a match { case b => ] $ 64 $ G6 at 0
a match { case (b) => } $ 61 $ G1 at 15
a match { case (b) => } $ 62 $ G1 at 15
a match { case (b) => } $ 63 $ G6 at 2
a match { case (b) => } $ 64 $ G6 at 0
a + b $ 61 $ infix(a@0-1 + b@4-5)@0-5 rest 0
a + b $ 62 $ infix(a@0-1 + b@4-5)@0-5 rest 0
a + b $ 63 $ G6 at 2
a + b $ 64 $ G6 at 0
a == b $ 61 $ infix(a@0-1 == b@5-6)@0-6 rest 0
a == b $ 62 $ infix(a@0-1 == b@5-6)@0-6 rest 0
a == b $ 63 $ G6 at 2
a == b $ 64 $ G6 at 0
a, b $ 61 $ a@0-1 rest 2
a, b $ 62 $ a@0-1 rest 2
a, b $ 63 $ a@0-1 rest 2
a, b $ 64 $ G6 at 0
a { b } $ 61 $ a@0-1 rest 3
a { b } $ 62 $ a@0-1 rest 3
a { b } $ 63 $ a@0-1 rest 3
a { b } $ 64 $ G6 at 0
a 1 $ 61 $ a@0-1 rest 1
a 1 $ 62 $ a@0-1 rest 1
a 1 $ 63 $ a@0-1 rest 1
a 1 $ 64 $ G6 at 0
a s"b" $ 61 $ a@0-1 rest 1
a s"b" $ 62 $ a@0-1 rest 1
a s"b" $ 63 $ a@0-1 rest 1
a s"b" $ 64 $ G6 at 0
a val b $ 61 $ a@0-1 rest 2
a val b $ 62 $ a@0-1 rest 2
a val b $ 63 $ a@0-1 rest 2
a val b $ 64 $ G6 at 0
a case b $ 61 $ a@0-1 rest 2
a case b $ 62 $ a@0-1 rest 2
a case b $ 63 $ a@0-1 rest 2
a case b $ 64 $ G6 at 0
a def b $ 61 $ a@0-1 rest 2
a def b $ 62 $ a@0-1 rest 2
a def b $ 63 $ a@0-1 rest 2
a def b $ 64 $ G6 at 0
a;- b $ 61 $ a@0-1 rest 3
a;- b $ 62 $ a@0-1 rest 3
a;- b $ 63 $ a@0-1 rest 3
a;- b $ 64 $ G6 at 0
a; match { case b => } $ 61 $ match(a@0-1;case(b@16-17=>))@0-22 rest 0
a; match { case b => } $ 62 $ match(a@0-1;case(b@16-17=>))@0-22 rest 0
a; match { case b => } $ 63 $ G6 at 3
a; match { case b => } $ 64 $ G6 at 0
a(b) c $ 61 $ apply(a@0-1;b@2-3)@0-4 rest 1
a(b) c $ 62 $ apply(a@0-1;b@2-3)@0-4 rest 1
a(b) c $ 63 $ G6 at 1
a(b) c $ 64 $ G6 at 0
-1 2 $ 61 $ literal(-Number 1)@0-2 rest 1
-1 2 $ 62 $ literal(-Number 1)@0-2 rest 1
-1 2 $ 63 $ literal(-Number 1)@0-2 rest 1
-1 2 $ 64 $ G6 at 0
a -1 $ 61 $ infix(a@0-1 - literal(Number 1)@3-4)@0-4 rest 0
a -1 $ 62 $ infix(a@0-1 - literal(Number 1)@3-4)@0-4 rest 0
a -1 $ 63 $ G6 at 2
a -1 $ 64 $ G6 at 0
a - -b $ 61 $ infix(a@0-1 - prefix(- b@5-6)@4-6)@0-6 rest 0
a - -b $ 62 $ G6 at 5
a - -b $ 63 $ G6 at 2
a - -b $ 64 $ G6 at 0
if (a) b else c d $ 61 $ if(a@4-5,b@7-8,c@14-15)@0-15 rest 1
if (a) b else c d $ 62 $ if(a@4-5,b@7-8,c@14-15)@0-15 rest 1
if (a) b else c d $ 63 $ G6 at 0
if (a) b else c d $ 64 $ G6 at 0
a match { case b => } c $ 61 $ match(a@0-1;case(b@15-16=>))@0-21 rest 1
a match { case b => } c $ 62 $ match(a@0-1;case(b@15-16=>))@0-21 rest 1
a match { case b => } c $ 63 $ G6 at 2
a match { case b => } c $ 64 $ G6 at 0
a match { case b => } = c $ 61 $ match(a@0-1;case(b@15-16=>))@0-21 rest 2
a match { case b => } = c $ 62 $ match(a@0-1;case(b@15-16=>))@0-21 rest 2
a match { case b => } = c $ 63 $ G6 at 2
a match { case b => } = c $ 64 $ G6 at 0
a // b $ 61 $ a@0-1 rest 0
a // b $ 62 $ a@0-1 rest 0
a // b $ 63 $ a@0-1 rest 0
a // b $ 64 $ G6 at 0
!a = b $ 61 $ prefix(! a@1-2)@0-2 rest 2
!a = b $ 62 $ prefix(! a@1-2)@0-2 rest 2
!a = b $ 63 $ G6 at 0
!a = b $ 64 $ G6 at 0
"#;
