// Texts that no type begins, and types with a token missing or put for another.

/// Types that break off.
pub const BROKEN: &[u8] = br#"
a. $ 0 $ G1 at 2
.a $ 0 $ G1 at 0
a..b $ 0 $ G1 at 2
a.b. $ 0 $ G1 at 4
a.1 $ 0 $ G1 at 2
a._ $ 0 $ G1 at 2
a.this $ 0 $ G1 at 2
a.type $ 0 $ G1 at 2
a.val b $ 0 $ G1 at 2
a.[b] $ 0 $ G1 at 2
a.(b) $ 0 $ G1 at 2
a."b" $ 0 $ G1 at 2
a.s"b" $ 0 $ G1 at 2
a.'b $ 0 $ G1 at 2
a. = 1 $ 0 $ G1 at 3
a.;) $ 0 $ G1 at 3
a[ $ 0 $ G1 at 2
a[] $ 0 $ G1 at 2
a[b $ 0 $ G1 at 3
a[b, $ 0 $ G1 at 4
a[b,] $ 0 $ G1 at 4
a[,b] $ 0 $ G1 at 2
a[,] $ 0 $ G1 at 2
a[b,,c] $ 0 $ G1 at 4
a[b,c $ 0 $ G1 at 5
a[b,c,] $ 0 $ G1 at 6
a[b c] $ 0 $ G1 at 4
a[b;c] $ 0 $ G1 at 4
a[b) $ 0 $ G1 at 3
a[b} $ 0 $ G1 at 3
a[b.] $ 0 $ G1 at 4
a[b..c] $ 0 $ G1 at 4
a[.b] $ 0 $ G1 at 2
a[b[]] $ 0 $ G1 at 4
a[b[c] $ 0 $ G1 at 6
a[b[c,]] $ 0 $ G1 at 6
a[b[c],] $ 0 $ G1 at 7
a[b[c][d]] $ 0 $ G1 at 6
a[b[c].d] $ 0 $ G1 at 6
a[b[c]d] $ 0 $ G1 at 6
a[b: c] $ 0 $ G1 at 3
a[b = c] $ 0 $ G1 at 4
a[b => c] $ 0 $ G1 at 4
a[b(c)] $ 0 $ G1 at 3
a[b | c] $ 0 $ G1 at 4
a[b match] $ 0 $ G1 at 4
a[b _] $ 0 $ G1 at 4
a[_] $ 0 $ G1 at 2
a[1] $ 0 $ G1 at 2
a[-1] $ 0 $ G1 at 2
a["b"] $ 0 $ G1 at 2
a['b'] $ 0 $ G1 at 2
a['b] $ 0 $ G1 at 2
a[s"b"] $ 0 $ G1 at 2
a[this] $ 0 $ G1 at 2
a[val] $ 0 $ G1 at 2
a[(b)] $ 0 $ G1 at 2
a[{b}] $ 0 $ G1 at 2
a[[b]] $ 0 $ G1 at 2
a[b, 1] $ 0 $ G1 at 5
a[b, (c)] $ 0 $ G1 at 5
"#;

/// What begins no type, and the end of the file.
pub const FIRST: &[u8] = br#"
 $ 0 $ G1 at 0
  $ 0 $ G1 at 1
; $ 0 $ G1 at 1
// a $ 0 $ G1 at 4
/* a */ $ 0 $ G1 at 7
val $ 0 $ G1 at 0
this $ 0 $ G1 at 0
class $ 0 $ G1 at 0
true $ 0 $ G1 at 0
null $ 0 $ G1 at 0
type $ 0 $ G1 at 0
match $ 0 $ G1 at 0
this.a $ 0 $ G1 at 0
1 $ 0 $ G1 at 0
"a" $ 0 $ G1 at 0
"""a""" $ 0 $ G1 at 0
'a' $ 0 $ G1 at 0
'a $ 0 $ G1 at 0
s"a" $ 0 $ G1 at 0
l"a" $ 0 $ G1 at 0
+ $ 0 $ G1 at 0
- $ 0 $ G1 at 0
-a $ 0 $ G1 at 0
!a $ 0 $ G1 at 0
_ $ 0 $ G1 at 0
_.a $ 0 $ G1 at 0
(a) $ 0 $ G1 at 0
[a] $ 0 $ G1 at 0
{a} $ 0 $ G1 at 0
) $ 0 $ G1 at 0
] $ 0 $ G1 at 0
} $ 0 $ G1 at 0
, $ 0 $ G1 at 0
. $ 0 $ G1 at 0
: $ 0 $ G1 at 0
: a $ 0 $ G1 at 0
= $ 0 $ G1 at 0
=> $ 0 $ G1 at 0
<- $ 0 $ G1 at 0
@a $ 0 $ G1 at 0
;;) $ 0 $ G1 at 2
/* a */ 1 a $ 0 $ G1 at 8
"#;

/// The fronts of a type, with what goes on with none of them.
pub const FRONTS: &[u8] = br#"
 $ 0 $ G1 at 0
  $ 0 $ G1 at 1
; $ 0 $ G1 at 1
 // a $ 0 $ G1 at 5
 /* [ */  $ 0 $ G1 at 9
 1 $ 0 $ G1 at 1
 val $ 0 $ G1 at 1
 ) a $ 0 $ G1 at 1
;= $ 0 $ G1 at 1
a $ 0 $ a@0-1 rest 0
a  $ 0 $ a@0-1 rest 0
a; $ 0 $ a@0-1 rest 0
a // a $ 0 $ a@0-1 rest 0
a /* [ */  $ 0 $ a@0-1 rest 0
a 1 $ 0 $ a@0-1 rest 1
a val $ 0 $ a@0-1 rest 1
a ) a $ 0 $ a@0-1 rest 2
a;= $ 0 $ a@0-1 rest 1
a. $ 0 $ G1 at 2
a.  $ 0 $ G1 at 3
a.; $ 0 $ G1 at 3
a. // a $ 0 $ G1 at 7
a. /* [ */  $ 0 $ G1 at 11
a. 1 $ 0 $ G1 at 3
a. val $ 0 $ G1 at 3
a. ) a $ 0 $ G1 at 3
a.;= $ 0 $ G1 at 3
a.b $ 0 $ a.b@0-3 rest 0
a.b  $ 0 $ a.b@0-3 rest 0
a.b; $ 0 $ a.b@0-3 rest 0
a.b // a $ 0 $ a.b@0-3 rest 0
a.b /* [ */  $ 0 $ a.b@0-3 rest 0
a.b 1 $ 0 $ a.b@0-3 rest 1
a.b val $ 0 $ a.b@0-3 rest 1
a.b ) a $ 0 $ a.b@0-3 rest 2
a.b;= $ 0 $ a.b@0-3 rest 1
a.b[ $ 0 $ G1 at 4
a.b[  $ 0 $ G1 at 5
a.b[; $ 0 $ G1 at 5
a.b[ // a $ 0 $ G1 at 9
a.b[ /* [ */  $ 0 $ G1 at 13
a.b[ 1 $ 0 $ G1 at 5
a.b[ val $ 0 $ G1 at 5
a.b[ ) a $ 0 $ G1 at 5
a.b[;= $ 0 $ G1 at 5
a.b[c $ 0 $ G1 at 5
a.b[c  $ 0 $ G1 at 6
a.b[c; $ 0 $ G1 at 6
a.b[c // a $ 0 $ G1 at 10
a.b[c /* [ */  $ 0 $ G1 at 14
a.b[c 1 $ 0 $ G1 at 6
a.b[c val $ 0 $ G1 at 6
a.b[c ) a $ 0 $ G1 at 6
a.b[c;= $ 0 $ G1 at 6
a.b[c. $ 0 $ G1 at 6
a.b[c.  $ 0 $ G1 at 7
a.b[c.; $ 0 $ G1 at 7
a.b[c. // a $ 0 $ G1 at 11
a.b[c. /* [ */  $ 0 $ G1 at 15
a.b[c. 1 $ 0 $ G1 at 7
a.b[c. val $ 0 $ G1 at 7
a.b[c. ) a $ 0 $ G1 at 7
a.b[c.;= $ 0 $ G1 at 7
a.b[c.d $ 0 $ G1 at 7
a.b[c.d  $ 0 $ G1 at 8
a.b[c.d; $ 0 $ G1 at 8
a.b[c.d // a $ 0 $ G1 at 12
a.b[c.d /* [ */  $ 0 $ G1 at 16
a.b[c.d 1 $ 0 $ G1 at 8
a.b[c.d val $ 0 $ G1 at 8
a.b[c.d ) a $ 0 $ G1 at 8
a.b[c.d;= $ 0 $ G1 at 8
a.b[c.d, $ 0 $ G1 at 8
a.b[c.d,  $ 0 $ G1 at 9
a.b[c.d,; $ 0 $ G1 at 9
a.b[c.d, // a $ 0 $ G1 at 13
a.b[c.d, /* [ */  $ 0 $ G1 at 17
a.b[c.d, 1 $ 0 $ G1 at 9
a.b[c.d, val $ 0 $ G1 at 9
a.b[c.d, ) a $ 0 $ G1 at 9
a.b[c.d,;= $ 0 $ G1 at 9
a.b[c.d,e $ 0 $ G1 at 9
a.b[c.d,e  $ 0 $ G1 at 10
a.b[c.d,e; $ 0 $ G1 at 10
a.b[c.d,e // a $ 0 $ G1 at 14
a.b[c.d,e /* [ */  $ 0 $ G1 at 18
a.b[c.d,e 1 $ 0 $ G1 at 10
a.b[c.d,e val $ 0 $ G1 at 10
a.b[c.d,e ) a $ 0 $ G1 at 10
a.b[c.d,e;= $ 0 $ G1 at 10
a.b[c.d,e[ $ 0 $ G1 at 10
a.b[c.d,e[  $ 0 $ G1 at 11
a.b[c.d,e[; $ 0 $ G1 at 11
a.b[c.d,e[ // a $ 0 $ G1 at 15
a.b[c.d,e[ /* [ */  $ 0 $ G1 at 19
a.b[c.d,e[ 1 $ 0 $ G1 at 11
a.b[c.d,e[ val $ 0 $ G1 at 11
a.b[c.d,e[ ) a $ 0 $ G1 at 11
a.b[c.d,e[;= $ 0 $ G1 at 11
a.b[c.d,e[f $ 0 $ G1 at 11
a.b[c.d,e[f  $ 0 $ G1 at 12
a.b[c.d,e[f; $ 0 $ G1 at 12
a.b[c.d,e[f // a $ 0 $ G1 at 16
a.b[c.d,e[f /* [ */  $ 0 $ G1 at 20
a.b[c.d,e[f 1 $ 0 $ G1 at 12
a.b[c.d,e[f val $ 0 $ G1 at 12
a.b[c.d,e[f ) a $ 0 $ G1 at 12
a.b[c.d,e[f;= $ 0 $ G1 at 12
a.b[c.d,e[f] $ 0 $ G1 at 12
a.b[c.d,e[f]  $ 0 $ G1 at 13
a.b[c.d,e[f]; $ 0 $ G1 at 13
a.b[c.d,e[f] // a $ 0 $ G1 at 17
a.b[c.d,e[f] /* [ */  $ 0 $ G1 at 21
a.b[c.d,e[f] 1 $ 0 $ G1 at 13
a.b[c.d,e[f] val $ 0 $ G1 at 13
a.b[c.d,e[f] ) a $ 0 $ G1 at 13
a.b[c.d,e[f];= $ 0 $ G1 at 13
a.b[c.d,e[f]] $ 0 $ a.b[c.d@4-7,e[f@10-11]@8-12]@0-13 rest 0
a.b[c.d,e[f]]  $ 0 $ a.b[c.d@4-7,e[f@10-11]@8-12]@0-13 rest 0
a.b[c.d,e[f]]; $ 0 $ a.b[c.d@4-7,e[f@10-11]@8-12]@0-13 rest 0
a.b[c.d,e[f]] // a $ 0 $ a.b[c.d@4-7,e[f@10-11]@8-12]@0-13 rest 0
a.b[c.d,e[f]] /* [ */  $ 0 $ a.b[c.d@4-7,e[f@10-11]@8-12]@0-13 rest 0
a.b[c.d,e[f]] 1 $ 0 $ a.b[c.d@4-7,e[f@10-11]@8-12]@0-13 rest 1
a.b[c.d,e[f]] val $ 0 $ a.b[c.d@4-7,e[f@10-11]@8-12]@0-13 rest 1
a.b[c.d,e[f]] ) a $ 0 $ a.b[c.d@4-7,e[f@10-11]@8-12]@0-13 rest 2
a.b[c.d,e[f]];= $ 0 $ a.b[c.d@4-7,e[f@10-11]@8-12]@0-13 rest 1
"#;
