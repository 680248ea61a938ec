// Phrases of declarations, up to the limit and beyond.

/// Bodies of methods.
pub const BODIES: &[u8] = br#"
=import org.sireum._;object A { def f: Z = { $while (a) { $b()$ }$ } }
60 $ 0 $ file checksum 758649
61 $ 0 $ file checksum 803797
62 $ 0 $ G6 at 789
=import org.sireum._;object A { def f: Z = { $while (a) { $$ }$ } }
62 $ 0 $ file checksum 165285
63 $ 0 $ file checksum 721629
64 $ 0 $ G6 at 800
=import org.sireum._;object A { def f: Z = { $if (a) { $return$ }$ } }
63 $ 0 $ file checksum 126498
64 $ 0 $ G6 at 611
=import org.sireum._;object A { def f: Z = { $if (a) { } else $if (a) { }$$ } }
62 $ 0 $ file checksum 753674
63 $ 0 $ G6 at 1052
=import org.sireum._;object A { def f: Z = { $for (a <- b until c) { $l"d"$ }$ } }
63 $ 0 $ file checksum 993556
64 $ 0 $ G6 at 1493
=import org.sireum._;object A { def f: Z = { $a match { case b => $Contract(c)$ }$ } }
63 $ 0 $ file checksum 127981
64 $ 0 $ G6 at 1304
=import org.sireum._;object A { def f: Z = { $a match { case b => $Contract.c()$ }$ } }
60 $ 0 $ file checksum 271142
61 $ 0 $ G6 at 1274
=import org.sireum._;object A { def f: Z = { val a: $B[$C$]$ = d } }
62 $ 0 $ file checksum 780708
63 $ 0 $ G6 at 176
=import org.sireum._;object A { def f: Z = { a = $($b$)$ } }
62 $ 0 $ file checksum 718142
63 $ 0 $ G6 at 110
=import org.sireum._;object A { def f: Z = { $while (a) { $val b: C = -1$ }$ } }
62 $ 0 $ file checksum 291997
63 $ 0 $ G6 at 800
=import org.sireum._;@datatype class A() { def f: Z = { $while (a) { $$ }$ } }
63 $ 0 $ file checksum 96532
64 $ 0 $ G6 at 811
=import org.sireum._;@msig trait A { def f: Z = { $while (a) { $$ }$ } }
63 $ 0 $ file checksum 247446
64 $ 0 $ G6 at 805
=import org.sireum._;object A { @strictpure def f: Z = $($a$)$ }
63 $ 0 $ file checksum 864817
64 $ 0 $ G6 at 117
=import org.sireum._;object A { @strictpure def f: Z = $($-1$)$ }
63 $ 0 $ file checksum 872261
64 $ 0 $ G6 at 117
=import org.sireum._;object A { @strictpure def f: Z = $($- a$)$ }
62 $ 0 $ file checksum 522274
63 $ 0 $ G6 at 119
=import org.sireum._;object A { @strictpure def f: Z = $a + $b$$ }
63 $ 0 $ file checksum 229251
64 $ 0 $ G6 at 308
=import org.sireum._;object A { @strictpure def f: Z = a$.b$$$ }
63 $ 0 $ file checksum 605013
64 $ 0 $ G6 at 181
=import org.sireum._;object A { @strictpure def f: Z = a$()$$$ }
63 $ 0 $ file checksum 277721
64 $ 0 $ G6 at 181
=import org.sireum._;object A { @strictpure def f: Z = $a(b = $c$)$ }
63 $ 0 $ file checksum 690700
64 $ 0 $ G6 at 433
=import org.sireum._;object A { @strictpure def f: Z = a[$B[$C$]$] }
62 $ 0 $ file checksum 176959
63 $ 0 $ G6 at 181
=import org.sireum._;object A { @strictpure def f: Z = $if (a) b else $c$$ }
63 $ 0 $ file checksum 954339
64 $ 0 $ G6 at 936
=import org.sireum._;object A { @strictpure def f: Z = $(a match { case b => $c$ })$ }
20 $ 0 $ file checksum 206879
21 $ 0 $ file checksum 138989
22 $ 0 $ G6 at 495
=import org.sireum._;object A { @strictpure def f: Z = a match { case $B($c$)$ => } }
62 $ 0 $ file checksum 169495
63 $ 0 $ G6 at 195
=import org.sireum._;@datatype class A() { @strictpure def f: Z = $($a$)$ }
63 $ 0 $ file checksum 883458
64 $ 0 $ G6 at 128
=import org.sireum._;@msig trait A { @strictpure override def f(): Z = $($a$)$ }
63 $ 0 $ file checksum 343180
64 $ 0 $ G6 at 133
"#;

/// Values of globals and of notes, and the types of globals.
pub const VALUES: &[u8] = br#"
=import org.sireum._;object A { val a = $($b$)$ }
62 $ 0 $ file checksum 706342
63 $ 0 $ file checksum 232905
64 $ 0 $ G6 at 102
=import org.sireum._;object A { override var a: B = $($b$)$ }
63 $ 0 $ file checksum 64923
64 $ 0 $ G6 at 114
=import org.sireum._;object A { val a = $b - $c$$ }
63 $ 0 $ file checksum 796861
64 $ 0 $ G6 at 293
=import org.sireum._;object A { val a = $if (b) c else $d$$ }
63 $ 0 $ file checksum 373340
64 $ 0 $ G6 at 921
=import org.sireum._;object A { val a = b match { case c => $while (d) { $$ }$ } }
62 $ 0 $ file checksum 792318
63 $ 0 $ G6 at 803
=import org.sireum._;object A { val a: $B[$C$]$ = d }
63 $ 0 $ file checksum 540268
64 $ 0 $ G6 at 165
=import org.sireum._;object A { val a: $B[$C$]$ }
63 $ 0 $ G1 at 229
64 $ 0 $ G6 at 165
=import org.sireum._;@a(b = $($c$)$) class D
62 $ 0 $ G3 at 20
63 $ 0 $ G3 at 20
64 $ 0 $ G6 at 90
=import org.sireum._;@a(b = c, d = $($e$)$) class F
63 $ 0 $ G3 at 20
64 $ 0 $ G6 at 97
=import org.sireum._;@a(b = $c(d = $e$)$) object F
63 $ 0 $ G3 at 20
64 $ 0 $ G6 at 406
=import org.sireum._;@a @b(c = $d + $e$$) trait F
63 $ 0 $ G3 at 20
64 $ 0 $ G6 at 284
=import org.sireum._;object A { @a(b = $($c$)$) def d: E }
63 $ 0 $ G3 at 31
64 $ 0 $ G6 at 101
=import org.sireum._;object A { @a(b = $($c$)$) val d = e }
63 $ 0 $ G3 at 31
64 $ 0 $ G6 at 101
=import org.sireum._;@datatype class A() { @a(b = $($-1$)$) def d: E }
63 $ 0 $ G3 at 42
64 $ 0 $ G6 at 112
"#;

/// Types of parameters, of methods and of parents.
pub const TYPES: &[u8] = br#"
=import org.sireum._;@datatype class A(a: $B[$C$]$)
62 $ 0 $ file checksum 107417
63 $ 0 $ file checksum 847409
64 $ 0 $ G6 at 168
=import org.sireum._;@datatype class A(val a: B, var c: $D[$E$]$)
63 $ 0 $ file checksum 822330
64 $ 0 $ G6 at 182
=import org.sireum._;@datatype class A(a: $B[C, $D$]$)
63 $ 0 $ file checksum 220011
64 $ 0 $ G6 at 357
=import org.sireum._;object A { def a(b: $C[$D$]$): E }
63 $ 0 $ file checksum 905554
64 $ 0 $ G6 at 167
=import org.sireum._;object A { def a(b: C, d: $E[$F.G$]$): H }
63 $ 0 $ file checksum 824228
64 $ 0 $ G6 at 173
=import org.sireum._;@datatype class A() extends $B[$C$]$
62 $ 0 $ file checksum 408139
63 $ 0 $ file checksum 825977
64 $ 0 $ G6 at 175
=import org.sireum._;@datatype class A() extends B with $C[$D$]$ { }
63 $ 0 $ file checksum 30149
64 $ 0 $ G6 at 182
=import org.sireum._;@msig trait A extends $B[$C$]$ with D
63 $ 0 $ file checksum 491613
64 $ 0 $ G6 at 169
=import org.sireum._;object A extends $B[$C$]$ { }
63 $ 0 $ file checksum 746118
64 $ 0 $ G6 at 164
=import org.sireum._;object A extends B with C with $D[$E$]$
63 $ 0 $ file checksum 995410
64 $ 0 $ G6 at 178
=import org.sireum._;object A { def a: $B[$C$]$ }
63 $ 0 $ file checksum 986908
64 $ 0 $ G6 at 165
=import org.sireum._;object A { @strictpure def a: $B[$C$]$ = d }
63 $ 0 $ file checksum 62602
64 $ 0 $ G6 at 177
=import org.sireum._;@msig trait A { def a(): $B[$C$]$ }
63 $ 0 $ file checksum 292034
64 $ 0 $ G6 at 172
"#;

/// Several phrases, each counted by itself.
pub const ALONE: &[u8] = br#"
=import org.sireum._;object A { @strictpure def f(a: B[B[B[B[B[B[B[B[B[B[B[B[B[B[B[B[B[B[B[B[B[B[B[B[B[B[B[B[B[B[B[B[B[B[B[B[B[B[B[B[B[B[B[B[B[B[B[B[B[B[B[B[B[B[B[B[B[B[B[B[B[B[B[C]]]]]]]]]]]]]]]]]]]]]]]]]]]]]]]]]]]]]]]]]]]]]]]]]]]]]]]]]]]]]]]): B[B[B[B[B[B[B[B[B[B[B[B[B[B[B[B[B[B[B[B[B[B[B[B[B[B[B[B[B[B[B[B[B[B[B[B[B[B[B[B[B[B[B[B[B[B[B[B[B[B[B[B[B[B[B[B[B[B[B[B[B[B[B[C]]]]]]]]]]]]]]]]]]]]]]]]]]]]]]]]]]]]]]]]]]]]]]]]]]]]]]]]]]]]]]] = $($b$)$; val c: B[B[B[B[B[B[B[B[B[B[B[B[B[B[B[B[B[B[B[B[B[B[B[B[B[B[B[B[B[B[B[B[B[B[B[B[B[B[B[B[B[B[B[B[B[B[B[B[B[B[B[B[B[B[B[B[B[B[B[B[B[B[B[C]]]]]]]]]]]]]]]]]]]]]]]]]]]]]]]]]]]]]]]]]]]]]]]]]]]]]]]]]]]]]]] = (((((((((((((((((((((((((((((((((((((((((((((((((((((((((((((((a))))))))))))))))))))))))))))))))))))))))))))))))))))))))))))))) }
63 $ 0 $ file checksum 796036
64 $ 0 $ G6 at 501
=import org.sireum._;object A { def f: Z = { while (a) { while (a) { while (a) { while (a) { while (a) { while (a) { while (a) { while (a) { while (a) { while (a) { while (a) { while (a) { while (a) { while (a) { while (a) { while (a) { while (a) { while (a) { while (a) { while (a) { while (a) { while (a) { while (a) { while (a) { while (a) { while (a) { while (a) { while (a) { while (a) { while (a) { while (a) { while (a) { while (a) { while (a) { while (a) { while (a) { while (a) { while (a) { while (a) { while (a) { while (a) { while (a) { while (a) { while (a) { while (a) { while (a) { while (a) { while (a) { while (a) { while (a) { while (a) { while (a) { while (a) { while (a) { while (a) { while (a) { while (a) { while (a) { while (a) { while (a) { while (a) { while (a) { while (a) { }}}}}}}}}}}}}}}}}}}}}}}}}}}}}}}}}}}}}}}}}}}}}}}}}}}}}}}}}}}}}}} }; def g: Z = { $while (a) { $$ }$ } }
63 $ 0 $ file checksum 387714
64 $ 0 $ G6 at 1636
=import org.sireum._;@a(b = (((((((((((((((((((((((((((((((((((((((((((((((((((((((((((((((a))))))))))))))))))))))))))))))))))))))))))))))))))))))))))))))), c = $($d$)$) class D(e: B[B[B[B[B[B[B[B[B[B[B[B[B[B[B[B[B[B[B[B[B[B[B[B[B[B[B[B[B[B[B[B[B[B[B[B[B[B[B[B[B[B[B[B[B[B[B[B[B[B[B[B[B[B[B[B[B[B[B[B[B[B[B[C]]]]]]]]]]]]]]]]]]]]]]]]]]]]]]]]]]]]]]]]]]]]]]]]]]]]]]]]]]]]]]], f: B[B[B[B[B[B[B[B[B[B[B[B[B[B[B[B[B[B[B[B[B[B[B[B[B[B[B[B[B[B[B[B[B[B[B[B[B[B[B[B[B[B[B[B[B[B[B[B[B[B[B[B[B[B[B[B[B[B[B[B[B[B[B[C]]]]]]]]]]]]]]]]]]]]]]]]]]]]]]]]]]]]]]]]]]]]]]]]]]]]]]]]]]]]]]]) extends B[B[B[B[B[B[B[B[B[B[B[B[B[B[B[B[B[B[B[B[B[B[B[B[B[B[B[B[B[B[B[B[B[B[B[B[B[B[B[B[B[B[B[B[B[B[B[B[B[B[B[B[B[B[B[B[B[B[B[B[B[B[B[C]]]]]]]]]]]]]]]]]]]]]]]]]]]]]]]]]]]]]]]]]]]]]]]]]]]]]]]]]]]]]]] with B[B[B[B[B[B[B[B[B[B[B[B[B[B[B[B[B[B[B[B[B[B[B[B[B[B[B[B[B[B[B[B[B[B[B[B[B[B[B[B[B[B[B[B[B[B[B[B[B[B[B[B[B[B[B[B[B[B[B[B[B[B[B[C]]]]]]]]]]]]]]]]]]]]]]]]]]]]]]]]]]]]]]]]]]]]]]]]]]]]]]]]]]]]]]]
63 $ 0 $ G3 at 20
64 $ 0 $ G6 at 223
=import org.sireum._;object A { val a: $B[$C$]$ = ((((((((((((((((((((((((((((((((((((((((((((((((((((((((((((((((a)))))))))))))))))))))))))))))))))))))))))))))))))))))))))))))))) }
63 $ 0 $ G6 at 294
64 $ 0 $ G6 at 165
=import org.sireum._;@datatype class A(a: $B[$C$]$, b: B[B[B[B[B[B[B[B[B[B[B[B[B[B[B[B[B[B[B[B[B[B[B[B[B[B[B[B[B[B[B[B[B[B[B[B[B[B[B[B[B[B[B[B[B[B[B[B[B[B[B[B[B[B[B[B[B[B[B[B[B[B[B[B[C]]]]]]]]]]]]]]]]]]]]]]]]]]]]]]]]]]]]]]]]]]]]]]]]]]]]]]]]]]]]]]]])
63 $ 0 $ G6 at 363
64 $ 0 $ G6 at 168
=import org.sireum._;@datatype class A(a: $B[$C$]$, b: )
63 $ 0 $ G1 at 236
64 $ 0 $ G6 at 168
=import org.sireum._;object A { @strictpure def f: Z = $($a$)$ b }
63 $ 0 $ G1 at 182
64 $ 0 $ G6 at 117
=import org.sireum._;object A { @strictpure def f: Z = $($a$)$ + }
62 $ 0 $ G1 at 182
63 $ 0 $ G6 at 182
64 $ 0 $ G6 at 117
=import org.sireum.$($a$)$
64 $ 0 $ G2 at 18
"#;

/// Files that end where they are deep.
pub const OPEN: &[u8] = br#"
=import org.sireum._;object A { @strictpure def f: Z = $($$$
62 $ 0 $ G1 at 116
63 $ 0 $ G1 at 117
64 $ 0 $ G6 at 117
=import org.sireum._;object A { @strictpure def f: Z = $($a$$
63 $ 0 $ G1 at 118
64 $ 0 $ G6 at 117
=import org.sireum._;object A { @strictpure def f: Z = $a + $$$
63 $ 0 $ G1 at 306
64 $ 0 $ G6 at 308
=import org.sireum._;object A { def f: Z = { $while (a) { $$$
63 $ 0 $ G1 at 800
64 $ 0 $ G6 at 800
=import org.sireum._;object A { def f: Z = { $while (a) { $b()$$
62 $ 0 $ G6 at 789
63 $ 0 $ G6 at 800
=import org.sireum._;object A { def f: Z = { $if (a) { } else $$$
63 $ 0 $ G1 at 1052
64 $ 0 $ G6 at 1052
=import org.sireum._;object A { val a: $B[$$$
63 $ 0 $ G1 at 164
64 $ 0 $ G6 at 165
=import org.sireum._;@a(b = $($$$
63 $ 0 $ G1 at 90
64 $ 0 $ G6 at 90
=import org.sireum._;@datatype class A(a: $B[$$$
63 $ 0 $ G1 at 167
64 $ 0 $ G6 at 168
=import org.sireum._;@datatype class A(a: $B[$C$]$
63 $ 0 $ G1 at 231
64 $ 0 $ G6 at 168
=import org.sireum._;object A extends $B[$$$
63 $ 0 $ G1 at 163
64 $ 0 $ G6 at 164
=import org.sireum._;object A extends $B[$C$$
63 $ 0 $ G1 at 164
64 $ 0 $ G6 at 164
"#;

/// Long files.
pub const LONG: &[u8] = br#"
=import org.sireum._$;import a.b$$$
0 $ 0 $ file checksum 888776
1 $ 0 $ file checksum 296904
500 $ 0 $ file checksum 401859
=import org.sireum._$;@bits(signed = T, width = 8) class A$$$
500 $ 0 $ file checksum 438930
=import org.sireum._$;class A;import b._$$$ c
250 $ 0 $ G1 at 4770
=import org.sireum._;$@a $class B$$
500 $ 0 $ G3 at 20
=import org.sireum._;$@a(b = c) $class D$$
300 $ 0 $ G3 at 20
=import org.sireum._;@a(b = c$, d = e$$$) class F
400 $ 0 $ G3 at 20
=import org.sireum._;@enum object A { "b"$;'c$$$ }
500 $ 0 $ file checksum 177995
=import org.sireum._;@datatype class A[B$, C$$$]()
500 $ 0 $ file checksum 201639
=import org.sireum._;@datatype class A(b: C$, val d: E$$$)
300 $ 0 $ file checksum 502288
=import org.sireum._;@msig trait A extends B$ with C[D]$$$
400 $ 0 $ file checksum 682073
=import org.sireum._;@msig trait A { def b: C$;override def d: E$$$ }
300 $ 0 $ file checksum 885226
=import org.sireum._;object A { @strictpure def a: B = c$;val d: E = f$$$ }
300 $ 0 $ file checksum 304449
=import org.sireum._;object A { @strictpure def f(a: B$, c: D$$$): E = g }
300 $ 0 $ file checksum 979365
=import org.sireum._;object A { def f: Z = { a()$;b()$$$ } }
500 $ 0 $ file checksum 618385
=import org.sireum._;import a$.b$$$._
500 $ 0 $ file checksum 450777
=package a$.b$$$;import org.sireum._
500 $ 0 $ file checksum 676293
=package a$.b$$$;import org.sireum.a
500 $ 0 $ G2 at 1028
"#;
