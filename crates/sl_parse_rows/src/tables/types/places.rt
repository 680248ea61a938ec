// Where types begin, and where answers stand.

/// Types that begin behind the first token.
pub const FROM: &[u8] = br#"
val x: a.b = 1 $ 3 $ 0 $ a.b@7-10 rest 2
val x: a.b = 1 $ 2 $ 0 $ G1 at 5
val x: a.b = 1 $ 4 $ 0 $ G1 at 8
val x: a.b = 1 $ 8 $ 0 $ G1 at 14
a, b $ 2 $ 0 $ b@3-4 rest 0
a b   $ 2 $ 0 $ G1 at 5
a;b $ 1 $ 0 $ G1 at 1
a;b $ 2 $ 0 $ b@2-3 rest 0
a;b $ 2 $ 64 $ G6 at 2
a[b[c]] $ 1 $ 0 $ G1 at 1
a[b[c]] $ 2 $ 0 $ b[c@4-5]@2-6 rest 1
a[b[c]] $ 4 $ 0 $ c@4-5 rest 2
a[b[c]] $ 6 $ 0 $ G1 at 6
a[b[c]] $ 7 $ 0 $ G1 at 7
a[b[c]] $ 2 $ 63 $ G6 at 3
a[b[c]] $ 4 $ 63 $ c@4-5 rest 2
a[b[c]] $ 4 $ 64 $ G6 at 4
a[b[c]] $ 6 $ 64 $ G1 at 6
a[b[c]] $ 7 $ 64 $ G1 at 7
"#;
