// Types that are whole, and what stands behind them.

/// Names.
pub const NAMES: &[u8] = br#"
a $ 0 $ a@0-1 rest 0
abc $ 0 $ abc@0-3 rest 0
Z $ 0 $ Z@0-1 rest 0
S8 $ 0 $ S8@0-2 rest 0
_a $ 0 $ _a@0-2 rest 0
__ $ 0 $ __@0-2 rest 0
T $ 0 $ T@0-1 rest 0
F $ 0 $ F@0-1 rest 0
until $ 0 $ until@0-5 rest 0
to $ 0 $ to@0-2 rest 0
Contract $ 0 $ Contract@0-8 rest 0
Invariant $ 0 $ Invariant@0-9 rest 0
l $ 0 $ l@0-1 rest 0
a.b $ 0 $ a.b@0-3 rest 0
a.a.a.a $ 0 $ a.a.a.a@0-7 rest 0
org.sireum.Z $ 0 $ org.sireum.Z@0-12 rest 0
T.F $ 0 $ T.F@0-3 rest 0
until.to.Contract $ 0 $ until.to.Contract@0-17 rest 0
"#;

/// Arguments.
pub const ARGUMENTS: &[u8] = br#"
a[b] $ 0 $ a[b@2-3]@0-4 rest 0
a[a] $ 0 $ a[a@2-3]@0-4 rest 0
a[b,c] $ 0 $ a[b@2-3,c@4-5]@0-6 rest 0
a[b, c, d] $ 0 $ a[b@2-3,c@5-6,d@8-9]@0-10 rest 0
a.b[c] $ 0 $ a.b[c@4-5]@0-6 rest 0
a[b.c] $ 0 $ a[b.c@2-5]@0-6 rest 0
a.b[c.d] $ 0 $ a.b[c.d@4-7]@0-8 rest 0
a[b.c,d.e.f] $ 0 $ a[b.c@2-5,d.e.f@6-11]@0-12 rest 0
a[b[c]] $ 0 $ a[b[c@4-5]@2-6]@0-7 rest 0
a[b[c],d] $ 0 $ a[b[c@4-5]@2-6,d@7-8]@0-9 rest 0
a[b,c[d]] $ 0 $ a[b@2-3,c[d@6-7]@4-8]@0-9 rest 0
a.b[c,d[e]] $ 0 $ a.b[c@4-5,d[e@8-9]@6-10]@0-11 rest 0
a[b[c],d[e,f]] $ 0 $ a[b[c@4-5]@2-6,d[e@9-10,f@11-12]@7-13]@0-14 rest 0
a[b[c[d[e]]]] $ 0 $ a[b[c[d[e@8-9]@6-10]@4-11]@2-12]@0-13 rest 0
IS[Z,MS[Z,B]] $ 0 $ IS[Z@3-4,MS[Z@8-9,B@10-11]@5-12]@0-13 rest 0
a.T[F,until[to],Contract.Invariant] $ 0 $ a.T[F@4-5,until[to@12-14]@6-15,Contract.Invariant@16-34]@0-35 rest 0
"#;

/// Blanks between tokens.
pub const BLANKS: &[u8] = br#"
  a $ 0 $ a@2-3 rest 0
;a $ 0 $ a@1-2 rest 0
a   $ 0 $ a@0-1 rest 0
a; $ 0 $ a@0-1 rest 0
a // [b] $ 0 $ a@0-1 rest 0
/* */a $ 0 $ a@5-6 rest 0
a . b $ 0 $ a.b@0-5 rest 0
a/* . */.b $ 0 $ a.b@0-10 rest 0
a;.;b $ 0 $ a.b@0-5 rest 0
a.;b $ 0 $ a.b@0-4 rest 0
a [b] $ 0 $ a[b@3-4]@0-5 rest 0
a;[b] $ 0 $ a[b@3-4]@0-5 rest 0
a // x;[b] $ 0 $ a[b@8-9]@0-10 rest 0
a [ b , c [ d ] ] $ 0 $ a[b@4-5,c[d@12-13]@8-15]@0-17 rest 0
a[;b;,;c;]; $ 0 $ a[b@3-4,c@7-8]@0-10 rest 0
a[/*]*/b/*,*/] $ 0 $ a[b@7-8]@0-14 rest 0
"#;

/// What stands behind a type and is no part of it.
pub const FOLLOWED: &[u8] = br#"
a b $ 0 $ a@0-1 rest 1
a b c $ 0 $ a@0-1 rest 2
a = 1 $ 0 $ a@0-1 rest 2
a) $ 0 $ a@0-1 rest 1
a] $ 0 $ a@0-1 rest 1
a} $ 0 $ a@0-1 rest 1
a, b $ 0 $ a@0-1 rest 2
a, $ 0 $ a@0-1 rest 1
a: b $ 0 $ a@0-1 rest 2
a => b $ 0 $ a@0-1 rest 2
a <- b $ 0 $ a@0-1 rest 2
a @b $ 0 $ a@0-1 rest 2
a { } $ 0 $ a@0-1 rest 2
a(b) $ 0 $ a@0-1 rest 3
a(b] $ 0 $ a@0-1 rest 3
a match { } $ 0 $ a@0-1 rest 3
a + b $ 0 $ a@0-1 rest 2
a -1 $ 0 $ a@0-1 rest 2
a ! b $ 0 $ a@0-1 rest 2
a 1 $ 0 $ a@0-1 rest 1
a _ $ 0 $ a@0-1 rest 1
a this $ 0 $ a@0-1 rest 1
a val b $ 0 $ a@0-1 rest 2
a "b" $ 0 $ a@0-1 rest 1
a 'b' $ 0 $ a@0-1 rest 1
a 'b $ 0 $ a@0-1 rest 1
a s"b" $ 0 $ a@0-1 rest 1
a until b $ 0 $ a@0-1 rest 2
a.b c.d $ 0 $ a.b@0-3 rest 3
a.b = 1 $ 0 $ a.b@0-3 rest 2
a.b(c) $ 0 $ a.b@0-3 rest 3
a b[c] $ 0 $ a@0-1 rest 4
a[b] [c] $ 0 $ a[b@2-3]@0-4 rest 3
a[b][c] $ 0 $ a[b@2-3]@0-4 rest 3
a[b][ $ 0 $ a[b@2-3]@0-4 rest 1
a[b].c $ 0 $ a[b@2-3]@0-4 rest 2
a[b]. $ 0 $ a[b@2-3]@0-4 rest 1
a[b].1 $ 0 $ a[b@2-3]@0-4 rest 2
a[b]c $ 0 $ a[b@2-3]@0-4 rest 1
a[b]] $ 0 $ a[b@2-3]@0-4 rest 1
a[b],c $ 0 $ a[b@2-3]@0-4 rest 2
a[b](c) $ 0 $ a[b@2-3]@0-4 rest 3
a[b] = c $ 0 $ a[b@2-3]@0-4 rest 2
a[b] match $ 0 $ a[b@2-3]@0-4 rest 1
a[b] + c $ 0 $ a[b@2-3]@0-4 rest 2
a[b[c]][d] $ 0 $ a[b[c@4-5]@2-6]@0-7 rest 3
a[b[c]]] $ 0 $ a[b[c@4-5]@2-6]@0-7 rest 1
a;b $ 0 $ a@0-1 rest 2
a;;  b $ 0 $ a@0-1 rest 2
a.b;val c $ 0 $ a.b@0-3 rest 3
a[b];c $ 0 $ a[b@2-3]@0-4 rest 2
a[b];[c] $ 0 $ a[b@2-3]@0-4 rest 3
a;) $ 0 $ a@0-1 rest 1
a;+ b $ 0 $ a@0-1 rest 3
a;_ $ 0 $ a@0-1 rest 2
a;(b) $ 0 $ a@0-1 rest 4
"#;
