// Expressions that begin behind the first token.

/// Texts of which an expression is read from a token on.
pub const FROM: &[u8] = br#"
val x = a + b; c $ 0 $ 0 $ G1 at 0
val x = a + b; c $ 0 $ 63 $ G1 at 0
val x = a + b; c $ 2 $ 0 $ G1 at 6
val x = a + b; c $ 2 $ 63 $ G1 at 6
val x = a + b; c $ 3 $ 0 $ infix(a@8-9 + b@12-13)@8-13 rest 2
val x = a + b; c $ 3 $ 64 $ G6 at 8
val x = a + b; c $ 4 $ 0 $ G1 at 10
val x = a + b; c $ 4 $ 63 $ G1 at 10
val x = a + b; c $ 5 $ 0 $ b@12-13 rest 2
val x = a + b; c $ 5 $ 64 $ G6 at 12
val x = a + b; c $ 6 $ 0 $ G1 at 13
val x = a + b; c $ 6 $ 63 $ G1 at 13
val x = a + b; c $ 7 $ 0 $ c@15-16 rest 0
val x = a + b; c $ 7 $ 64 $ G6 at 15
val x = a + b; c $ 8 $ 0 $ G1 at 16
val x = a + b; c $ 8 $ 63 $ G1 at 16
{ a; b } $ 0 $ 0 $ G1 at 0
{ a; b } $ 0 $ 63 $ G1 at 0
{ a; b } $ 1 $ 0 $ a@2-3 rest 3
{ a; b } $ 1 $ 64 $ G6 at 2
{ a; b } $ 2 $ 0 $ G1 at 3
{ a; b } $ 2 $ 63 $ G1 at 3
{ a; b } $ 3 $ 0 $ b@5-6 rest 1
{ a; b } $ 3 $ 64 $ G6 at 5
{ a; b } $ 4 $ 0 $ G1 at 7
{ a; b } $ 4 $ 63 $ G1 at 7
{ a; b } $ 5 $ 0 $ G1 at 8
{ a; b } $ 5 $ 64 $ G1 at 8
if (a) b else c $ 0 $ 0 $ if(a@4-5,b@7-8,c@14-15)@0-15 rest 0
if (a) b else c $ 0 $ 63 $ G6 at 0
if (a) b else c $ 1 $ 0 $ paren(a@4-5)@3-6 rest 3
if (a) b else c $ 1 $ 64 $ G6 at 3
if (a) b else c $ 2 $ 0 $ a@4-5 rest 4
if (a) b else c $ 2 $ 63 $ a@4-5 rest 4
if (a) b else c $ 3 $ 0 $ G1 at 5
if (a) b else c $ 3 $ 64 $ G1 at 5
if (a) b else c $ 4 $ 0 $ b@7-8 rest 2
if (a) b else c $ 4 $ 63 $ b@7-8 rest 2
if (a) b else c $ 5 $ 0 $ G1 at 9
if (a) b else c $ 5 $ 64 $ G1 at 9
if (a) b else c $ 6 $ 0 $ c@14-15 rest 0
if (a) b else c $ 6 $ 63 $ c@14-15 rest 0
if (a) b else c $ 7 $ 0 $ G1 at 15
if (a) b else c $ 7 $ 64 $ G1 at 15
a(b = c, d = e) $ 1 $ 0 $ G1 at 4
a(b = c, d = e) $ 1 $ 64 $ G6 at 1
a(b = c, d = e) $ 2 $ 0 $ b@2-3 rest 7
a(b = c, d = e) $ 2 $ 63 $ b@2-3 rest 7
a(b = c, d = e) $ 3 $ 0 $ G1 at 4
a(b = c, d = e) $ 3 $ 64 $ G1 at 4
a(b = c, d = e) $ 4 $ 0 $ c@6-7 rest 5
a(b = c, d = e) $ 4 $ 63 $ c@6-7 rest 5
a(b = c, d = e) $ 5 $ 0 $ G1 at 7
a(b = c, d = e) $ 5 $ 64 $ G1 at 7
a(b = c, d = e) $ 6 $ 0 $ d@9-10 rest 3
a(b = c, d = e) $ 6 $ 63 $ d@9-10 rest 3
a(b = c, d = e) $ 9 $ 0 $ G1 at 14
a(b = c, d = e) $ 9 $ 64 $ G1 at 14
a(b = c, d = e) $ 10 $ 0 $ G1 at 15
a(b = c, d = e) $ 10 $ 63 $ G1 at 15
a match { case b => c } $ 1 $ 0 $ G1 at 2
a match { case b => c } $ 1 $ 64 $ G1 at 2
a match { case b => c } $ 2 $ 0 $ G1 at 8
a match { case b => c } $ 2 $ 63 $ G1 at 8
a match { case b => c } $ 3 $ 0 $ G1 at 10
a match { case b => c } $ 3 $ 64 $ G1 at 10
a match { case b => c } $ 4 $ 0 $ b@15-16 rest 3
a match { case b => c } $ 4 $ 63 $ b@15-16 rest 3
a match { case b => c } $ 5 $ 0 $ G1 at 17
a match { case b => c } $ 5 $ 64 $ G1 at 17
a match { case b => c } $ 6 $ 0 $ c@20-21 rest 1
a match { case b => c } $ 6 $ 63 $ c@20-21 rest 1
a match { case b => c } $ 7 $ 0 $ G1 at 22
a match { case b => c } $ 7 $ 64 $ G1 at 22
- 1 . a $ 1 $ 0 $ select(literal(Number 1)@2-3 a)@2-7 rest 0
- 1 . a $ 1 $ 64 $ G6 at 2
- 1 . a $ 2 $ 0 $ G1 at 4
- 1 . a $ 2 $ 63 $ G1 at 4
- 1 . a $ 3 $ 0 $ a@6-7 rest 0
- 1 . a $ 3 $ 64 $ G6 at 6
- 1 . a $ 4 $ 0 $ G1 at 7
- 1 . a $ 4 $ 63 $ G1 at 7
(a)(b) c $ 0 $ 0 $ apply(paren(a@1-2)@0-3;b@4-5)@0-6 rest 1
(a)(b) c $ 0 $ 63 $ G6 at 0
(a)(b) c $ 1 $ 0 $ a@1-2 rest 5
(a)(b) c $ 1 $ 64 $ G6 at 1
(a)(b) c $ 2 $ 0 $ G1 at 2
(a)(b) c $ 2 $ 63 $ G1 at 2
(a)(b) c $ 3 $ 0 $ paren(b@4-5)@3-6 rest 1
(a)(b) c $ 3 $ 64 $ G6 at 3
(a)(b) c $ 4 $ 0 $ b@4-5 rest 2
(a)(b) c $ 4 $ 63 $ b@4-5 rest 2
(a)(b) c $ 5 $ 0 $ G1 at 5
(a)(b) c $ 5 $ 64 $ G1 at 5
(a)(b) c $ 6 $ 0 $ c@7-8 rest 0
(a)(b) c $ 6 $ 63 $ c@7-8 rest 0
(a)(b) c $ 7 $ 0 $ G1 at 8
(a)(b) c $ 7 $ 64 $ G1 at 8
"#;
