// Types with little room, and with none; types that nest.

/// Types with little room.
pub const TIGHT: &[u8] = br#"
a $ 63 $ a@0-1 rest 0
a.b.c $ 63 $ a.b.c@0-5 rest 0
a b $ 63 $ a@0-1 rest 1
a) $ 63 $ a@0-1 rest 1
a(b) $ 63 $ a@0-1 rest 3
a + b $ 63 $ a@0-1 rest 2
a match $ 63 $ a@0-1 rest 1
a;b $ 63 $ a@0-1 rest 2
a b[c] $ 63 $ a@0-1 rest 4
a[b] $ 63 $ G6 at 1
a[ $ 63 $ G6 at 1
a[] $ 63 $ G6 at 1
a[1] $ 63 $ G6 at 1
a[b, $ 63 $ G6 at 1
a [ $ 63 $ G6 at 2
a;[b] $ 63 $ G6 at 2
a.b[c] $ 63 $ G6 at 3
a. $ 63 $ G1 at 2
a.[ $ 63 $ G1 at 2
a.1[b] $ 63 $ G1 at 2
1 $ 63 $ G1 at 0
[b] $ 63 $ G1 at 0
 $ 63 $ G1 at 0
a[b] $ 62 $ a[b@2-3]@0-4 rest 0
a[b][c] $ 62 $ a[b@2-3]@0-4 rest 3
a[b].c $ 62 $ a[b@2-3]@0-4 rest 2
a[b]c[d[e]] $ 62 $ a[b@2-3]@0-4 rest 7
a[b.c.d,e] $ 62 $ a[b.c.d@2-7,e@8-9]@0-10 rest 0
a[b[c]] $ 62 $ G6 at 3
a[b[ $ 62 $ G6 at 3
a[b[]] $ 62 $ G6 at 3
a[b[c],] $ 62 $ G6 at 3
a[b,c[d]] $ 62 $ G6 at 5
a[b,c.d[e]] $ 62 $ G6 at 7
a[b,,c[d]] $ 62 $ G1 at 4
a[b 1[c]] $ 62 $ G1 at 4
a[1[c]] $ 62 $ G1 at 2
a[b $ 62 $ G1 at 3
a[b, $ 62 $ G1 at 4
a[b,] $ 62 $ G1 at 4
a[b[c],d[e]] $ 61 $ a[b[c@4-5]@2-6,d[e@9-10]@7-11]@0-12 rest 0
a[b[c],d[e[f]]] $ 61 $ G6 at 10
a[b[c[d]],1] $ 61 $ G6 at 5
a[b[c],1,d[e[f]]] $ 61 $ G1 at 7
"#;

/// Where there is no room.
pub const SHUT: &[u8] = br#"
a $ 64 $ G6 at 0
  a $ 64 $ G6 at 2
/* */;a b $ 64 $ G6 at 6
T $ 64 $ G6 at 0
until $ 64 $ G6 at 0
to $ 64 $ G6 at 0
Contract $ 64 $ G6 at 0
a.b $ 64 $ G6 at 0
a. $ 64 $ G6 at 0
a.1 $ 64 $ G6 at 0
a..b $ 64 $ G6 at 0
a[b] $ 64 $ G6 at 0
a[ $ 64 $ G6 at 0
a[] $ 64 $ G6 at 0
a 1 $ 64 $ G6 at 0
 $ 64 $ G1 at 0
   $ 64 $ G1 at 2
// a $ 64 $ G1 at 4
1 $ 64 $ G1 at 0
1 a $ 64 $ G1 at 0
val $ 64 $ G1 at 0
this $ 64 $ G1 at 0
_ $ 64 $ G1 at 0
"a" $ 64 $ G1 at 0
'a $ 64 $ G1 at 0
s"a" $ 64 $ G1 at 0
+ $ 64 $ G1 at 0
. $ 64 $ G1 at 0
.a $ 64 $ G1 at 0
, $ 64 $ G1 at 0
(a) $ 64 $ G1 at 0
[a] $ 64 $ G1 at 0
] $ 64 $ G1 at 0
{ $ 64 $ G1 at 0
 = a $ 64 $ G1 at 1
a $ 65 $ G6 at 0
  a $ 65 $ G6 at 2
/* */;a b $ 65 $ G6 at 6
T $ 65 $ G6 at 0
until $ 65 $ G6 at 0
to $ 65 $ G6 at 0
Contract $ 65 $ G6 at 0
a.b $ 65 $ G6 at 0
a. $ 65 $ G6 at 0
a.1 $ 65 $ G6 at 0
a..b $ 65 $ G6 at 0
a[b] $ 65 $ G6 at 0
a[ $ 65 $ G6 at 0
a[] $ 65 $ G6 at 0
a 1 $ 65 $ G6 at 0
 $ 65 $ G1 at 0
   $ 65 $ G1 at 2
// a $ 65 $ G1 at 4
1 $ 65 $ G1 at 0
1 a $ 65 $ G1 at 0
val $ 65 $ G1 at 0
this $ 65 $ G1 at 0
_ $ 65 $ G1 at 0
"a" $ 65 $ G1 at 0
'a $ 65 $ G1 at 0
s"a" $ 65 $ G1 at 0
+ $ 65 $ G1 at 0
. $ 65 $ G1 at 0
.a $ 65 $ G1 at 0
, $ 65 $ G1 at 0
(a) $ 65 $ G1 at 0
[a] $ 65 $ G1 at 0
] $ 65 $ G1 at 0
{ $ 65 $ G1 at 0
 = a $ 65 $ G1 at 1
a $ 1000 $ G6 at 0
  a $ 1000 $ G6 at 2
/* */;a b $ 1000 $ G6 at 6
T $ 1000 $ G6 at 0
until $ 1000 $ G6 at 0
to $ 1000 $ G6 at 0
Contract $ 1000 $ G6 at 0
a.b $ 1000 $ G6 at 0
a. $ 1000 $ G6 at 0
a.1 $ 1000 $ G6 at 0
a..b $ 1000 $ G6 at 0
a[b] $ 1000 $ G6 at 0
a[ $ 1000 $ G6 at 0
a[] $ 1000 $ G6 at 0
a 1 $ 1000 $ G6 at 0
 $ 1000 $ G1 at 0
   $ 1000 $ G1 at 2
// a $ 1000 $ G1 at 4
1 $ 1000 $ G1 at 0
1 a $ 1000 $ G1 at 0
val $ 1000 $ G1 at 0
this $ 1000 $ G1 at 0
_ $ 1000 $ G1 at 0
"a" $ 1000 $ G1 at 0
'a $ 1000 $ G1 at 0
s"a" $ 1000 $ G1 at 0
+ $ 1000 $ G1 at 0
. $ 1000 $ G1 at 0
.a $ 1000 $ G1 at 0
, $ 1000 $ G1 at 0
(a) $ 1000 $ G1 at 0
[a] $ 1000 $ G1 at 0
] $ 1000 $ G1 at 0
{ $ 1000 $ G1 at 0
 = a $ 1000 $ G1 at 1
a $ 4294967295 $ G6 at 0
  a $ 4294967295 $ G6 at 2
/* */;a b $ 4294967295 $ G6 at 6
T $ 4294967295 $ G6 at 0
until $ 4294967295 $ G6 at 0
to $ 4294967295 $ G6 at 0
Contract $ 4294967295 $ G6 at 0
a.b $ 4294967295 $ G6 at 0
a. $ 4294967295 $ G6 at 0
a.1 $ 4294967295 $ G6 at 0
a..b $ 4294967295 $ G6 at 0
a[b] $ 4294967295 $ G6 at 0
a[ $ 4294967295 $ G6 at 0
a[] $ 4294967295 $ G6 at 0
a 1 $ 4294967295 $ G6 at 0
 $ 4294967295 $ G1 at 0
   $ 4294967295 $ G1 at 2
// a $ 4294967295 $ G1 at 4
1 $ 4294967295 $ G1 at 0
1 a $ 4294967295 $ G1 at 0
val $ 4294967295 $ G1 at 0
this $ 4294967295 $ G1 at 0
_ $ 4294967295 $ G1 at 0
"a" $ 4294967295 $ G1 at 0
'a $ 4294967295 $ G1 at 0
s"a" $ 4294967295 $ G1 at 0
+ $ 4294967295 $ G1 at 0
. $ 4294967295 $ G1 at 0
.a $ 4294967295 $ G1 at 0
, $ 4294967295 $ G1 at 0
(a) $ 4294967295 $ G1 at 0
[a] $ 4294967295 $ G1 at 0
] $ 4294967295 $ G1 at 0
{ $ 4294967295 $ G1 at 0
 = a $ 4294967295 $ G1 at 1
"#;

/// Types one in another.
pub const NESTED: &[u8] = br#"
=$a[$a$]$
0 $ 0 $ rest 0 checksum 535733
1 $ 0 $ rest 0 checksum 455157
62 $ 0 $ rest 0 checksum 778466
63 $ 0 $ rest 0 checksum 27473
64 $ 0 $ G6 at 127
65 $ 0 $ G6 at 127
999 $ 0 $ G6 at 127
62 $ 1 $ rest 0 checksum 778466
63 $ 1 $ G6 at 125
52 $ 10 $ rest 0 checksum 775484
53 $ 10 $ rest 0 checksum 413868
54 $ 10 $ G6 at 107
62 $ 10 $ G6 at 107
63 $ 10 $ G6 at 107
64 $ 10 $ G6 at 107
0 $ 62 $ rest 0 checksum 535733
1 $ 62 $ rest 0 checksum 455157
2 $ 62 $ G6 at 3
0 $ 63 $ rest 0 checksum 535733
1 $ 63 $ G6 at 1
62 $ 63 $ G6 at 1
63 $ 63 $ G6 at 1
64 $ 63 $ G6 at 1
0 $ 64 $ G6 at 0
62 $ 64 $ G6 at 0
63 $ 64 $ G6 at 0
64 $ 64 $ G6 at 0
0 $ 65 $ G6 at 0
62 $ 65 $ G6 at 0
63 $ 65 $ G6 at 0
64 $ 65 $ G6 at 0
0 $ 4294967295 $ G6 at 0
62 $ 4294967295 $ G6 at 0
63 $ 4294967295 $ G6 at 0
64 $ 4294967295 $ G6 at 0
=$a[$a$]$]
63 $ 0 $ rest 1 checksum 27473
=$a[$a$]$[b]
63 $ 0 $ rest 3 checksum 27473
53 $ 10 $ rest 3 checksum 413868
=$a[$a$]$.b
63 $ 0 $ rest 2 checksum 27473
=$a[$a$]$;b
63 $ 0 $ rest 2 checksum 27473
=$a[b,$a$]$
62 $ 0 $ rest 0 checksum 650525
63 $ 0 $ rest 0 checksum 881525
64 $ 0 $ G6 at 253
65 $ 0 $ G6 at 253
62 $ 1 $ rest 0 checksum 650525
63 $ 1 $ G6 at 249
1 $ 62 $ rest 0 checksum 189989
2 $ 62 $ G6 at 5
0 $ 63 $ rest 0 checksum 535733
1 $ 63 $ G6 at 1
0 $ 64 $ G6 at 0
1 $ 64 $ G6 at 0
0 $ 70 $ G6 at 0
1 $ 70 $ G6 at 0
=$a.b[$a$,b]$
62 $ 0 $ rest 0 checksum 605387
63 $ 0 $ rest 0 checksum 788849
64 $ 0 $ G6 at 255
65 $ 0 $ G6 at 255
62 $ 1 $ rest 0 checksum 605387
63 $ 1 $ G6 at 251
1 $ 62 $ rest 0 checksum 820907
2 $ 62 $ G6 at 7
0 $ 63 $ rest 0 checksum 535733
1 $ 63 $ G6 at 3
0 $ 64 $ G6 at 0
1 $ 64 $ G6 at 0
0 $ 70 $ G6 at 0
1 $ 70 $ G6 at 0
"#;

/// Types that are open.
pub const OPENED: &[u8] = br#"
=$a[$$$
63 $ 0 $ G1 at 126
=$a[$1$$
63 $ 0 $ G1 at 126
=$a[$a$$
63 $ 0 $ G1 at 127
=$a[$a 1$$
63 $ 0 $ G1 at 128
=$a[$a.$$
63 $ 0 $ G1 at 128
=$a[$a.1[b]$$
63 $ 0 $ G1 at 128
=$a[$a,$$
63 $ 0 $ G1 at 128
=$a[$a,a[b]$$
63 $ 0 $ G6 at 129
=$a[$a.a[b]$$
63 $ 0 $ G6 at 129
=$a[$a],a[b]$$
63 $ 0 $ G1 at 133
=$a[$a],a[b[c]]$$
63 $ 0 $ G6 at 132
=$a[$$$
64 $ 0 $ G6 at 127
=$a[$]$$
64 $ 0 $ G6 at 127
=$a[$1$$
64 $ 0 $ G6 at 127
=$a[$1$$
65 $ 0 $ G6 at 127
=$a[$1$$
53 $ 10 $ G1 at 106
=$a[$1$$
54 $ 10 $ G6 at 107
"#;

/// Long types.
pub const LONG: &[u8] = br#"
=a[b$$$,b$
9999 $ 0 $ G1 at 20001
=a[b$$$,b$,
9999 $ 0 $ G1 at 20002
=a[b$$$,b$,]
9999 $ 0 $ G1 at 20002
=a[b$$$,b$ c]
9999 $ 0 $ G1 at 20002
=a[b$$$,b$[c]]
9999 $ 62 $ G6 at 20001
=a[b$$$,b$]
9999 $ 63 $ G6 at 1
=a[b$$$,b$]
9999 $ 64 $ G6 at 0
=a[b$$$,b$]
9999 $ 62 $ rest 0 checksum 939458
=a$$$.b$
9999 $ 0 $ rest 0 checksum 951233
9999 $ 63 $ rest 0 checksum 951233
9999 $ 64 $ G6 at 0
=$a[$$$
10000 $ 0 $ G6 at 127
100000 $ 0 $ G6 at 127
"#;
