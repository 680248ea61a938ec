// Expressions that are open near the limit, and long expressions.

/// Behind so many open parentheses.
pub const OPEN: &[u8] = br#"
=$($$$
62 $ 0 $ G1 at 62
63 $ 0 $ G1 at 63
64 $ 0 $ G6 at 63
=$($a$$
62 $ 0 $ G1 at 63
63 $ 0 $ G1 at 64
64 $ 0 $ G6 at 63
=$($1$$
62 $ 0 $ G1 at 63
63 $ 0 $ G1 at 64
64 $ 0 $ G6 at 63
=$($-$$
62 $ 0 $ G1 at 63
63 $ 0 $ G1 at 64
64 $ 0 $ G6 at 63
=$($- 1$$
62 $ 0 $ G1 at 65
63 $ 0 $ G1 at 66
64 $ 0 $ G6 at 63
=$($-1$$
62 $ 0 $ G1 at 64
63 $ 0 $ G1 at 65
64 $ 0 $ G6 at 63
=$($-a$$
62 $ 0 $ G1 at 64
63 $ 0 $ G6 at 64
64 $ 0 $ G6 at 63
=$($!$$
62 $ 0 $ G1 at 63
63 $ 0 $ G6 at 63
64 $ 0 $ G6 at 63
=$($!a$$
62 $ 0 $ G1 at 64
63 $ 0 $ G6 at 63
64 $ 0 $ G6 at 63
=$($a.$$
62 $ 0 $ G1 at 64
63 $ 0 $ G6 at 64
64 $ 0 $ G6 at 63
=$($a.b$$
62 $ 0 $ G1 at 65
63 $ 0 $ G6 at 64
64 $ 0 $ G6 at 63
=$($a[$$
62 $ 0 $ G1 at 64
63 $ 0 $ G6 at 64
64 $ 0 $ G6 at 63
=$($a[b]$$
62 $ 0 $ G1 at 66
63 $ 0 $ G6 at 64
64 $ 0 $ G6 at 63
=$($a($$
62 $ 0 $ G1 at 64
63 $ 0 $ G6 at 64
64 $ 0 $ G6 at 63
=$($a()$$
62 $ 0 $ G1 at 65
63 $ 0 $ G6 at 64
64 $ 0 $ G6 at 63
=$($a(b$$
62 $ 0 $ G1 at 65
63 $ 0 $ G6 at 64
64 $ 0 $ G6 at 63
=$($a +$$
62 $ 0 $ G1 at 65
63 $ 0 $ G6 at 65
64 $ 0 $ G6 at 63
=$($a + b$$
62 $ 0 $ G1 at 67
63 $ 0 $ G6 at 65
64 $ 0 $ G6 at 63
=$($if$$
62 $ 0 $ G1 at 64
63 $ 0 $ G6 at 63
64 $ 0 $ G6 at 63
=$($if ($$
62 $ 0 $ G1 at 66
63 $ 0 $ G6 at 63
64 $ 0 $ G6 at 63
=$($a match$$
62 $ 0 $ G1 at 69
63 $ 0 $ G6 at 65
64 $ 0 $ G6 at 63
=$($a match {$$
62 $ 0 $ G1 at 71
63 $ 0 $ G6 at 65
64 $ 0 $ G6 at 63
=$($this.a$$
62 $ 0 $ G1 at 68
63 $ 0 $ G6 at 67
64 $ 0 $ G6 at 63
=$($($$
62 $ 0 $ G1 at 63
63 $ 0 $ G6 at 63
64 $ 0 $ G6 at 63
=$($)$$
62 $ 0 $ G1 at 62
63 $ 0 $ G1 at 63
64 $ 0 $ G6 at 63
=$($=$$
62 $ 0 $ G1 at 62
63 $ 0 $ G1 at 63
64 $ 0 $ G6 at 63
=$($val$$
62 $ 0 $ G1 at 62
63 $ 0 $ G1 at 63
64 $ 0 $ G6 at 63
=$($a b$$
62 $ 0 $ G1 at 64
63 $ 0 $ G1 at 65
64 $ 0 $ G6 at 63
=$($-1.a$$
62 $ 0 $ G6 at 64
63 $ 0 $ G6 at 65
64 $ 0 $ G6 at 63
"#;

/// Behind so many open calls.
pub const OPEN_CALLS: &[u8] = br#"
=$a($a$$
60 $ 0 $ G1 at 121
61 $ 0 $ G1 at 123
62 $ 0 $ G1 at 125
63 $ 0 $ G1 at 127
64 $ 0 $ G6 at 127
=$a($a(b$$
60 $ 0 $ G1 at 123
61 $ 0 $ G1 at 125
62 $ 0 $ G1 at 127
63 $ 0 $ G6 at 127
64 $ 0 $ G6 at 127
=$a($a(b,$$
60 $ 0 $ G1 at 124
61 $ 0 $ G1 at 126
62 $ 0 $ G1 at 128
63 $ 0 $ G6 at 127
64 $ 0 $ G6 at 127
=$a($a(b = c$$
60 $ 0 $ G1 at 127
61 $ 0 $ G1 at 129
62 $ 0 $ G1 at 131
63 $ 0 $ G6 at 127
64 $ 0 $ G6 at 127
=$a($a(b =$$
60 $ 0 $ G1 at 125
61 $ 0 $ G1 at 127
62 $ 0 $ G1 at 129
63 $ 0 $ G6 at 127
64 $ 0 $ G6 at 127
=$a($if (a) b else$$
60 $ 0 $ G1 at 133
61 $ 0 $ G1 at 135
62 $ 0 $ G1 at 137
63 $ 0 $ G6 at 126
64 $ 0 $ G6 at 127
=$a($if (a) b$$
60 $ 0 $ G1 at 128
61 $ 0 $ G1 at 130
62 $ 0 $ G1 at 132
63 $ 0 $ G6 at 126
64 $ 0 $ G6 at 127
=$a($-1$$
60 $ 0 $ G1 at 122
61 $ 0 $ G1 at 124
62 $ 0 $ G1 at 126
63 $ 0 $ G1 at 128
64 $ 0 $ G6 at 127
=$a($a match { case b$$
60 $ 0 $ G1 at 136
61 $ 0 $ G1 at 138
62 $ 0 $ G1 at 140
63 $ 0 $ G6 at 128
64 $ 0 $ G6 at 127
=$a($a match { case b =>$$
60 $ 0 $ G1 at 139
61 $ 0 $ G1 at 141
62 $ 0 $ G1 at 143
63 $ 0 $ G6 at 128
64 $ 0 $ G6 at 127
=$a($a match { case b($$
60 $ 0 $ G1 at 137
61 $ 0 $ G1 at 139
62 $ 0 $ G1 at 141
63 $ 0 $ G6 at 128
64 $ 0 $ G6 at 127
=$a($a match { case b:$$
60 $ 0 $ G1 at 137
61 $ 0 $ G1 at 139
62 $ 0 $ G6 at 140
63 $ 0 $ G6 at 128
64 $ 0 $ G6 at 127
=$a($a match { case b if$$
60 $ 0 $ G1 at 139
61 $ 0 $ G1 at 141
62 $ 0 $ G1 at 143
63 $ 0 $ G6 at 128
64 $ 0 $ G6 at 127
=$a($a match { case b => return$$
60 $ 0 $ G1 at 146
61 $ 0 $ G1 at 148
62 $ 0 $ G1 at 150
63 $ 0 $ G6 at 128
64 $ 0 $ G6 at 127
=$a($a match { case b => val$$
60 $ 0 $ G1 at 143
61 $ 0 $ G1 at 145
62 $ 0 $ G6 at 144
63 $ 0 $ G6 at 128
64 $ 0 $ G6 at 127
=$a($a match { case b => if$$
60 $ 0 $ G1 at 142
61 $ 0 $ G1 at 144
62 $ 0 $ G6 at 144
63 $ 0 $ G6 at 128
64 $ 0 $ G6 at 127
=$a($a match { case b => if ($$
60 $ 0 $ G1 at 144
61 $ 0 $ G1 at 146
62 $ 0 $ G6 at 144
63 $ 0 $ G6 at 128
64 $ 0 $ G6 at 127
=$a($a match { case b => l"c"$$
60 $ 0 $ G1 at 144
61 $ 0 $ G1 at 146
62 $ 0 $ G1 at 148
63 $ 0 $ G6 at 128
64 $ 0 $ G6 at 127
=$a($a match { case b => Contract$$
60 $ 0 $ G1 at 148
61 $ 0 $ G1 at 150
62 $ 0 $ G1 at 152
63 $ 0 $ G6 at 128
64 $ 0 $ G6 at 127
=$a($a match { case b => Contract($$
60 $ 0 $ G1 at 149
61 $ 0 $ G1 at 151
62 $ 0 $ G1 at 153
63 $ 0 $ G6 at 128
64 $ 0 $ G6 at 127
=$a($a match { case b => -1$$
60 $ 0 $ G1 at 142
61 $ 0 $ G1 at 144
62 $ 0 $ G6 at 144
63 $ 0 $ G6 at 128
64 $ 0 $ G6 at 127
=$a($a match { case b => -$$
60 $ 0 $ G1 at 141
61 $ 0 $ G1 at 143
62 $ 0 $ G6 at 144
63 $ 0 $ G6 at 128
64 $ 0 $ G6 at 127
=$a($a match { case b => while$$
60 $ 0 $ G1 at 145
61 $ 0 $ G1 at 147
62 $ 0 $ G6 at 144
63 $ 0 $ G6 at 128
64 $ 0 $ G6 at 127
=$a($a match { case b => for$$
60 $ 0 $ G1 at 143
61 $ 0 $ G1 at 145
62 $ 0 $ G6 at 144
63 $ 0 $ G6 at 128
64 $ 0 $ G6 at 127
=$a($a match { case b => !$$
60 $ 0 $ G1 at 141
61 $ 0 $ G6 at 142
62 $ 0 $ G6 at 144
63 $ 0 $ G6 at 128
64 $ 0 $ G6 at 127
=$a($a match { case b => ($$
60 $ 0 $ G1 at 141
61 $ 0 $ G6 at 142
62 $ 0 $ G6 at 144
63 $ 0 $ G6 at 128
64 $ 0 $ G6 at 127
=$a($a match { case b => c =$$
60 $ 0 $ G1 at 143
61 $ 0 $ G1 at 145
62 $ 0 $ G6 at 144
63 $ 0 $ G6 at 128
64 $ 0 $ G6 at 127
"#;

/// Long ones.
pub const LONG: &[u8] = br#"
=a$$$ + a$
9999 $ 0 $ G6 at 254
=a$$$.b$
9999 $ 0 $ G6 at 127
=a$$$(b)$
9999 $ 0 $ G6 at 190
=$a($b$)$
9999 $ 0 $ G6 at 127
=$if (a) b else $c$$
9999 $ 0 $ G6 at 882
=$($a$)$
10000 $ 0 $ G6 at 63
10000 $ 64 $ G6 at 0
=$($$$
10000 $ 0 $ G6 at 63
100000 $ 0 $ G6 at 63
100000 $ 64 $ G6 at 0
=a(b$$$, b$)
9999 $ 0 $ rest 0 checksum 386991
9999 $ 63 $ G6 at 1
=a(b$$$, b$
9999 $ 62 $ G1 at 30000
=a(b = 1$$$, b = 1$)
9999 $ 62 $ rest 0 checksum 200666
=a(b = 1$$$, b = 1$, b)
2999 $ 0 $ G1 at 21003
=a[b$$$, b$]
9999 $ 62 $ rest 0 checksum 29440
=a match { case b => c$$$ case b => c$}
2999 $ 61 $ rest 0 checksum 831820
=a match { case b => c$$$;c$}
9999 $ 61 $ rest 0 checksum 240956
9999 $ 62 $ G6 at 20
=a match { case b => c$$$;c$ d }
2999 $ 0 $ G1 at 6020
"#;
