// Texts that no expression begins, and expressions that break off.

/// Where no expression goes on.
pub const WRONG: &[u8] = br#"
 $ 0 $ G1 at 0
  $ 0 $ G1 at 1
; $ 0 $ G1 at 1
// a $ 0 $ G1 at 4
) $ 0 $ G1 at 0
] $ 0 $ G1 at 0
} $ 0 $ G1 at 0
{ $ 0 $ G1 at 0
{ } $ 0 $ G1 at 0
{ a } $ 0 $ G1 at 0
[a] $ 0 $ G1 at 0
, $ 0 $ G1 at 0
. $ 0 $ G1 at 0
.a $ 0 $ G1 at 0
: $ 0 $ G1 at 0
= $ 0 $ G1 at 0
= a $ 0 $ G1 at 0
=> $ 0 $ G1 at 0
<- $ 0 $ G1 at 0
_ $ 0 $ G1 at 0
_ + a $ 0 $ G1 at 0
@a $ 0 $ G1 at 0
'a $ 0 $ G1 at 0
+ $ 0 $ G1 at 0
+a $ 0 $ G1 at 0
+ a $ 0 $ G1 at 0
*a $ 0 $ G1 at 0
== $ 0 $ G1 at 0
:+ a $ 0 $ G1 at 0
| a $ 0 $ G1 at 0
# $ 0 $ G1 at 0
? $ 0 $ G1 at 0
else $ 0 $ G1 at 0
match $ 0 $ G1 at 0
match { case a => } $ 0 $ G1 at 0
case $ 0 $ G1 at 0
case a => $ 0 $ G1 at 0
val a = b $ 0 $ G1 at 0
var a = b $ 0 $ G1 at 0
while (a) { } $ 0 $ G1 at 0
for (a <- b to c) { } $ 0 $ G1 at 0
return $ 0 $ G1 at 0
return a $ 0 $ G1 at 0
def a $ 0 $ G1 at 0
class $ 0 $ G1 at 0
true $ 0 $ G1 at 0
false $ 0 $ G1 at 0
null $ 0 $ G1 at 0
new a $ 0 $ G1 at 0
super.a $ 0 $ G1 at 0
lazy $ 0 $ G1 at 0
--1 $ 0 $ G1 at 0
--a $ 0 $ G1 at 0
- -1 $ 0 $ G1 at 2
- -a $ 0 $ G1 at 2
!!a $ 0 $ G1 at 0
! !a $ 0 $ G1 at 2
!-a $ 0 $ G1 at 0
-!a $ 0 $ G1 at 0
~-1 $ 0 $ G1 at 0
-~a $ 0 $ G1 at 0
- ( $ 0 $ G1 at 3
- $ 0 $ G1 at 1
! $ 0 $ G1 at 1
~ $ 0 $ G1 at 1
- + a $ 0 $ G1 at 2
!) $ 0 $ G1 at 1
-if (a) b else c $ 0 $ G1 at 1
!if (a) b else c $ 0 $ G1 at 1
-{ $ 0 $ G1 at 1
() $ 0 $ G1 at 1
( ) $ 0 $ G1 at 2
(,) $ 0 $ G1 at 1
(a $ 0 $ G1 at 2
(a,b) $ 0 $ G1 at 2
(a b) $ 0 $ G1 at 3
(a] $ 0 $ G1 at 2
(a} $ 0 $ G1 at 2
(a = b) $ 0 $ G1 at 3
(a: b) $ 0 $ G1 at 2
(a;b) $ 0 $ G1 at 3
(val a = b) $ 0 $ G1 at 1
(return) $ 0 $ G1 at 1
(a => b) $ 0 $ G1 at 3
((a) $ 0 $ G1 at 4
(a)) $ 0 $ paren(a@1-2)@0-3 rest 1
(_) $ 0 $ G1 at 1
a. $ 0 $ G1 at 2
a. .b $ 0 $ G1 at 3
a..b $ 0 $ G1 at 2
a.1 $ 0 $ G1 at 2
a."b" $ 0 $ G1 at 2
a.this $ 0 $ G1 at 2
a.(b) $ 0 $ G1 at 2
a.[b] $ 0 $ G1 at 2
a._ $ 0 $ G1 at 2
a.if $ 0 $ G1 at 2
a.match { } $ 0 $ G1 at 2
a.+ $ 0 $ G1 at 2
a. = b $ 0 $ G1 at 3
a.-1 $ 0 $ G1 at 2
a[ $ 0 $ G1 at 2
a[] $ 0 $ G1 at 2
a[,] $ 0 $ G1 at 2
a[b $ 0 $ G1 at 3
a[b, $ 0 $ G1 at 4
a[b,] $ 0 $ G1 at 4
a[b c] $ 0 $ G1 at 4
a[1] $ 0 $ G1 at 2
a[-1] $ 0 $ G1 at 2
a[(b)] $ 0 $ G1 at 2
a[b) $ 0 $ G1 at 3
a[this] $ 0 $ G1 at 2
a[b + c] $ 0 $ G1 at 4
a[b[]] $ 0 $ G1 at 4
a[b[c] $ 0 $ G1 at 6
a[_] $ 0 $ G1 at 2
a[b: c] $ 0 $ G1 at 3
a[b = c] $ 0 $ G1 at 4
a( $ 0 $ G1 at 2
a(, $ 0 $ G1 at 2
a(,) $ 0 $ G1 at 2
a(b $ 0 $ G1 at 3
a(b, $ 0 $ G1 at 4
a(b,) $ 0 $ G1 at 4
a(,b) $ 0 $ G1 at 2
a(b,,c) $ 0 $ G1 at 4
a(b c) $ 0 $ G1 at 4
a(b;c) $ 0 $ G1 at 4
a(b] $ 0 $ G1 at 3
a(b} $ 0 $ G1 at 3
a(b = ) $ 0 $ G1 at 6
a(b = c $ 0 $ G1 at 7
a(b = c, $ 0 $ G1 at 8
a(b = c,) $ 0 $ G1 at 8
a(b = c, d) $ 0 $ G1 at 10
a(b = c, 1) $ 0 $ G1 at 9
a(b = c, d(e) = f) $ 0 $ G1 at 10
a(b = c, d.e = f) $ 0 $ G1 at 10
a(b, c = d) $ 0 $ G1 at 7
a(b.c = d) $ 0 $ G1 at 6
a(b(c) = d) $ 0 $ G1 at 7
a(1 = b) $ 0 $ G1 at 4
a(this = b) $ 0 $ G1 at 7
a((b) = c) $ 0 $ G1 at 6
a(-b = c) $ 0 $ G1 at 5
a("b" = c) $ 0 $ G1 at 6
a(b = c = d) $ 0 $ G1 at 8
a(b + c = d) $ 0 $ G1 at 8
a(b = c, d = e $ 0 $ G1 at 14
a(b = c, d = ) $ 0 $ G1 at 13
a(b = c, = d) $ 0 $ G1 at 9
a(b =, c = d) $ 0 $ G1 at 5
a(= b) $ 0 $ G1 at 2
a(b: c) $ 0 $ G1 at 3
a(b => c) $ 0 $ G1 at 4
a(b <- c) $ 0 $ G1 at 4
a(val b) $ 0 $ G1 at 2
a({ b }) $ 0 $ G1 at 2
a(_) $ 0 $ G1 at 2
a(_ = b) $ 0 $ G1 at 2
a(b == c $ 0 $ G1 at 8
a(b match { case c => } = d) $ 0 $ G1 at 24
a(if (b) c else d = e) $ 0 $ G1 at 18
a(b = c match { case d => } $ 0 $ G1 at 27
a(b)( $ 0 $ G1 at 5
a(b)(c $ 0 $ G1 at 6
a(b). $ 0 $ G1 at 5
a(b)[ $ 0 $ G1 at 5
a + $ 0 $ G1 at 3
a + + $ 0 $ G1 at 4
a + + b $ 0 $ G1 at 4
a + ) $ 0 $ G1 at 4
a + * b $ 0 $ G1 at 4
a + if (b) c else d $ 0 $ G1 at 4
a * if (b) c else d $ 0 $ G1 at 4
a == if (b) c else d $ 0 $ G1 at 5
-if $ 0 $ G1 at 1
a + = b $ 0 $ G1 at 4
a + ;b $ 0 $ infix(a@0-1 + b@5-6)@0-6 rest 0
a + ! $ 0 $ G1 at 5
a + ~ $ 0 $ G1 at 5
a + - $ 0 $ G1 at 5
a + -;b $ 0 $ infix(a@0-1 + prefix(- b@6-7)@4-7)@0-7 rest 0
a + -1 $ 0 $ infix(a@0-1 + literal(-Number 1)@4-6)@0-6 rest 0
a + { $ 0 $ G1 at 4
a + match $ 0 $ G1 at 4
a + b match $ 0 $ G1 at 11
a + b * $ 0 $ G1 at 7
a ! = b $ 0 $ a@0-1 rest 3
a + val b $ 0 $ G1 at 4
a + return $ 0 $ G1 at 4
a + _ $ 0 $ G1 at 4
a + 'b $ 0 $ G1 at 4
if $ 0 $ G1 at 2
if a $ 0 $ G1 at 3
if ( $ 0 $ G1 at 4
if () $ 0 $ G1 at 4
if (a $ 0 $ G1 at 5
if (a) $ 0 $ G1 at 6
if (a) b $ 0 $ G1 at 8
if (a) b else $ 0 $ G1 at 13
if (a) else b $ 0 $ G1 at 7
if (a) b; c $ 0 $ G1 at 8
if (a) b c $ 0 $ G1 at 9
if (a) { b } else { c } $ 0 $ G1 at 7
if (a) { } $ 0 $ G1 at 7
if (a) b else { c } $ 0 $ G1 at 14
if (a) b else else c $ 0 $ G1 at 14
if (a) b + else c $ 0 $ G1 at 11
if (a) b = c else d $ 0 $ G1 at 9
if (a) if (b) c else d $ 0 $ G1 at 22
if (a) b else if (c) d $ 0 $ G1 at 22
if (a) b else if c $ 0 $ G1 at 17
if (a b) c else d $ 0 $ G1 at 6
if (a = b) c else d $ 0 $ G1 at 6
if {a} b else c $ 0 $ G1 at 3
if [a] b else c $ 0 $ G1 at 3
if (a] $ 0 $ G1 at 5
if (a) return else b $ 0 $ G1 at 7
if (a) val b $ 0 $ G1 at 7
if (a) b match else c $ 0 $ G1 at 15
if (a) b.else c $ 0 $ G1 at 9
if (a)(b) else $ 0 $ G1 at 14
if (a)(b) $ 0 $ G1 at 9
a match $ 0 $ G1 at 7
a match b $ 0 $ G1 at 8
a match ( $ 0 $ G1 at 8
a match { $ 0 $ G1 at 9
a match { } $ 0 $ G1 at 10
a match {;} $ 0 $ G1 at 10
a match { b } $ 0 $ G1 at 10
a match { case $ 0 $ G1 at 14
a match { case } $ 0 $ G1 at 15
a match { case => $ 0 $ G1 at 15
a match { case => } $ 0 $ G1 at 15
a match { case b $ 0 $ G1 at 16
a match { case b } $ 0 $ G1 at 17
a match { case b = $ 0 $ G1 at 17
a match { case b = c } $ 0 $ G1 at 17
a match { case b => $ 0 $ G1 at 19
a match { case b => c $ 0 $ G1 at 21
a match { case b => case $ 0 $ G1 at 24
a match { case b => case } $ 0 $ G1 at 25
a match { case b => c case } $ 0 $ G1 at 27
a match { case b => ) } $ 0 $ G1 at 20
a match { case b => , } $ 0 $ G1 at 20
a match { case b => => } $ 0 $ G1 at 20
a match { case b c => } $ 0 $ G1 at 17
a match { case b, c => } $ 0 $ G1 at 16
a match { case b | c => } $ 0 $ G1 at 17
a match { case b if => } $ 0 $ G1 at 20
a match { case b if } $ 0 $ G1 at 20
a match { case b if c $ 0 $ G1 at 21
a match { case b if c } $ 0 $ G1 at 22
a match { case b if c = d => } $ 0 $ G1 at 22
a match { case b if c d => } $ 0 $ G1 at 22
a match { case b if (c => } $ 0 $ G1 at 23
a match { case b if { c } => } $ 0 $ G1 at 20
a match { case b if c if d => } $ 0 $ G1 at 22
a match { case b => c d } $ 0 $ G1 at 22
a match { case b => c, d } $ 0 $ G1 at 21
a match { case b => c; } $ 0 $ match(a@0-1;case(b@15-16=>call(c@20-21)@20-21))@0-24 rest 0
a match { case b => c; else } $ 0 $ G1 at 23
a match { case b => c =; } $ 0 $ G1 at 25
a match { case b => c = } $ 0 $ G1 at 24
a match { case b => (c } $ 0 $ G1 at 23
a match { case b => c) $ 0 $ G1 at 21
a match { case b => if (c) d } $ 0 $ G1 at 29
a match { case b => if (c) } $ 0 $ G1 at 27
a match { case b => { c } } $ 0 $ G1 at 20
a match { case b => val } $ 0 $ G1 at 24
a match { case b => case c } $ 0 $ G1 at 27
a match [ case b => ] $ 0 $ G1 at 8
a match ( case b => ) $ 0 $ G1 at 8
(a match { case b => ) $ 0 $ G1 at 21
a match { case b => ] $ 0 $ G1 at 20
a match { case b => c }} $ 0 $ match(a@0-1;case(b@15-16=>call(c@20-21)@20-21))@0-23 rest 1
a match { case b => } case $ 0 $ match(a@0-1;case(b@15-16=>))@0-21 rest 1
a match { case (b) => } $ 0 $ G1 at 15
a match { case b + c => } $ 0 $ G1 at 17
a match { case ! b => } $ 0 $ G1 at 15
"#;
