// Blocks that begin behind the first token.

/// Texts of which a block is read from a token on.
pub const FROM: &[u8] = br#"
while (a) { b; c } $ 0 $ 0 $ G1 at 0
while (a) { b; c } $ 0 $ 62 $ G1 at 0
while (a) { b; c } $ 1 $ 0 $ G1 at 6
while (a) { b; c } $ 1 $ 63 $ G1 at 6
while (a) { b; c } $ 2 $ 0 $ G1 at 7
while (a) { b; c } $ 2 $ 64 $ G1 at 7
while (a) { b; c } $ 3 $ 0 $ G1 at 8
while (a) { b; c } $ 3 $ 62 $ G1 at 8
while (a) { b; c } $ 4 $ 0 $ {call(b@12-13)@12-13;call(c@15-16)@15-16} rest 0
while (a) { b; c } $ 4 $ 63 $ G6 at 12
while (a) { b; c } $ 5 $ 0 $ G1 at 12
while (a) { b; c } $ 5 $ 64 $ G1 at 12
while (a) { b; c } $ 6 $ 0 $ G1 at 13
while (a) { b; c } $ 6 $ 62 $ G1 at 13
while (a) { b; c } $ 7 $ 0 $ G1 at 15
while (a) { b; c } $ 7 $ 63 $ G1 at 15
while (a) { b; c } $ 8 $ 0 $ G1 at 17
while (a) { b; c } $ 8 $ 64 $ G1 at 17
while (a) { b; c } $ 9 $ 0 $ G1 at 18
while (a) { b; c } $ 9 $ 62 $ G1 at 18
{ if (a) { } else { b } } $ 0 $ 0 $ {ifs(a@6-7 {} {call(b@20-21)@20-21})@2-23} rest 0
{ if (a) { } else { b } } $ 0 $ 62 $ G6 at 20
{ if (a) { } else { b } } $ 1 $ 0 $ G1 at 2
{ if (a) { } else { b } } $ 1 $ 63 $ G1 at 2
{ if (a) { } else { b } } $ 2 $ 0 $ G1 at 5
{ if (a) { } else { b } } $ 2 $ 64 $ G1 at 5
{ if (a) { } else { b } } $ 3 $ 0 $ G1 at 6
{ if (a) { } else { b } } $ 3 $ 62 $ G1 at 6
{ if (a) { } else { b } } $ 4 $ 0 $ G1 at 7
{ if (a) { } else { b } } $ 4 $ 63 $ G1 at 7
{ if (a) { } else { b } } $ 5 $ 0 $ {} rest 5
{ if (a) { } else { b } } $ 5 $ 64 $ {} rest 5
{ if (a) { } else { b } } $ 6 $ 0 $ G1 at 11
{ if (a) { } else { b } } $ 6 $ 62 $ G1 at 11
{ if (a) { } else { b } } $ 7 $ 0 $ G1 at 13
{ if (a) { } else { b } } $ 7 $ 63 $ G1 at 13
{ if (a) { } else { b } } $ 8 $ 0 $ {call(b@20-21)@20-21} rest 1
{ if (a) { } else { b } } $ 8 $ 64 $ G6 at 20
{ if (a) { } else { b } } $ 9 $ 0 $ G1 at 20
{ if (a) { } else { b } } $ 9 $ 62 $ G1 at 20
{ if (a) { } else { b } } $ 10 $ 0 $ G1 at 22
{ if (a) { } else { b } } $ 10 $ 63 $ G1 at 22
{ if (a) { } else { b } } $ 11 $ 0 $ G1 at 24
{ if (a) { } else { b } } $ 11 $ 64 $ G1 at 24
{ if (a) { } else { b } } $ 12 $ 0 $ G1 at 25
{ if (a) { } else { b } } $ 12 $ 62 $ G1 at 25
a { } { return } b $ 0 $ 0 $ G1 at 0
a { } { return } b $ 0 $ 62 $ G1 at 0
a { } { return } b $ 1 $ 0 $ {} rest 4
a { } { return } b $ 1 $ 63 $ {} rest 4
a { } { return } b $ 2 $ 0 $ G1 at 4
a { } { return } b $ 2 $ 64 $ G1 at 4
a { } { return } b $ 3 $ 0 $ {return()@8-14} rest 1
a { } { return } b $ 3 $ 62 $ {return()@8-14} rest 1
a { } { return } b $ 4 $ 0 $ G1 at 8
a { } { return } b $ 4 $ 63 $ G1 at 8
a { } { return } b $ 5 $ 0 $ G1 at 15
a { } { return } b $ 5 $ 64 $ G1 at 15
a { } { return } b $ 6 $ 0 $ G1 at 17
a { } { return } b $ 6 $ 62 $ G1 at 17
a { } { return } b $ 7 $ 0 $ G1 at 18
a { } { return } b $ 7 $ 63 $ G1 at 18
{ a match { case b => } } $ 0 $ 0 $ {matches(a@2-3;case(b@17-18=>))@2-23} rest 0
{ a match { case b => } } $ 0 $ 62 $ {matches(a@2-3;case(b@17-18=>))@2-23} rest 0
{ a match { case b => } } $ 1 $ 0 $ G1 at 2
{ a match { case b => } } $ 1 $ 63 $ G1 at 2
{ a match { case b => } } $ 2 $ 0 $ G1 at 4
{ a match { case b => } } $ 2 $ 64 $ G1 at 4
{ a match { case b => } } $ 3 $ 0 $ G1 at 12
{ a match { case b => } } $ 3 $ 62 $ G1 at 12
{ a match { case b => } } $ 4 $ 0 $ G1 at 12
{ a match { case b => } } $ 4 $ 63 $ G1 at 12
{ a match { case b => } } $ 5 $ 0 $ G1 at 17
{ a match { case b => } } $ 5 $ 64 $ G1 at 17
{ a match { case b => } } $ 6 $ 0 $ G1 at 19
{ a match { case b => } } $ 6 $ 62 $ G1 at 19
{ a match { case b => } } $ 7 $ 0 $ G1 at 22
{ a match { case b => } } $ 7 $ 63 $ G1 at 22
{ a match { case b => } } $ 8 $ 0 $ G1 at 24
{ a match { case b => } } $ 8 $ 64 $ G1 at 24
{ a match { case b => } } $ 9 $ 0 $ G1 at 25
{ a match { case b => } } $ 9 $ 62 $ G1 at 25
"#;
