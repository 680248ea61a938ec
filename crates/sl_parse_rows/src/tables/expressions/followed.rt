// What stands behind an expression and is no part of it.

/// Expressions, with tokens behind them.
pub const FOLLOWED: &[u8] = br#"
a + b $ 0 $ infix(a@0-1 + b@4-5)@0-5 rest 0
a;b $ 0 $ a@0-1 rest 2
a b $ 0 $ a@0-1 rest 1
a = b $ 0 $ a@0-1 rest 2
a == b $ 0 $ infix(a@0-1 == b@5-6)@0-6 rest 0
a) $ 0 $ a@0-1 rest 1
a] $ 0 $ a@0-1 rest 1
a} $ 0 $ a@0-1 rest 1
a, b $ 0 $ a@0-1 rest 2
a : b $ 0 $ a@0-1 rest 2
a => b $ 0 $ a@0-1 rest 2
a <- b $ 0 $ a@0-1 rest 2
a { b } $ 0 $ a@0-1 rest 3
a @ b $ 0 $ a@0-1 rest 2
a ! b $ 0 $ a@0-1 rest 2
a ~ b $ 0 $ a@0-1 rest 2
a 1 $ 0 $ a@0-1 rest 1
a "b" $ 0 $ a@0-1 rest 1
a 'b' $ 0 $ a@0-1 rest 1
a 'b $ 0 $ a@0-1 rest 1
a s"b" $ 0 $ a@0-1 rest 1
a this $ 0 $ a@0-1 rest 1
a if (b) c else d $ 0 $ a@0-1 rest 7
a else b $ 0 $ a@0-1 rest 2
a val b $ 0 $ a@0-1 rest 2
a until b $ 0 $ a@0-1 rest 2
a to b $ 0 $ a@0-1 rest 2
a Contract(b) $ 0 $ a@0-1 rest 4
a case b $ 0 $ a@0-1 rest 2
a _ $ 0 $ a@0-1 rest 1
a :: b $ 0 $ a@0-1 rest 2
a # b $ 0 $ a@0-1 rest 2
a def b $ 0 $ a@0-1 rest 2
a + b c $ 0 $ infix(a@0-1 + b@4-5)@0-5 rest 1
a + b; + c $ 0 $ infix(a@0-1 + b@4-5)@0-5 rest 3
a;+ b $ 0 $ a@0-1 rest 3
a;- b $ 0 $ a@0-1 rest 3
a;(b) $ 0 $ a@0-1 rest 4
a;[b] $ 0 $ given(a@0-1;b@3-4)@0-5 rest 0
a;.b $ 0 $ select(a@0-1 b)@0-4 rest 0
a; match { case b => } $ 0 $ match(a@0-1;case(b@16-17=>))@0-22 rest 0
a;{ b } $ 0 $ a@0-1 rest 3
a.b c $ 0 $ select(a@0-1 b)@0-3 rest 1
a.b = c $ 0 $ select(a@0-1 b)@0-3 rest 2
a(b) c $ 0 $ apply(a@0-1;b@2-3)@0-4 rest 1
a(b) { c } $ 0 $ apply(a@0-1;b@2-3)@0-4 rest 3
a[b] c $ 0 $ given(a@0-1;b@2-3)@0-4 rest 1
1 2 $ 0 $ literal(Number 1)@0-1 rest 1
-1 2 $ 0 $ literal(-Number 1)@0-2 rest 1
-1 - 2 $ 0 $ infix(literal(-Number 1)@0-2 - literal(Number 2)@5-6)@0-6 rest 0
-1 -2 $ 0 $ infix(literal(-Number 1)@0-2 - literal(Number 2)@4-5)@0-5 rest 0
1 -2 $ 0 $ infix(literal(Number 1)@0-1 - literal(Number 2)@3-4)@0-4 rest 0
a -1 $ 0 $ infix(a@0-1 - literal(Number 1)@3-4)@0-4 rest 0
a-1 $ 0 $ infix(a@0-1 - literal(Number 1)@2-3)@0-3 rest 0
a --1 $ 0 $ a@0-1 rest 2
a + -1 $ 0 $ infix(a@0-1 + literal(-Number 1)@4-6)@0-6 rest 0
a - -b $ 0 $ infix(a@0-1 - prefix(- b@5-6)@4-6)@0-6 rest 0
-a + b $ 0 $ infix(prefix(- a@1-2)@0-2 + b@5-6)@0-6 rest 0
(a) b $ 0 $ paren(a@1-2)@0-3 rest 1
(a) (b) $ 0 $ apply(paren(a@1-2)@0-3;b@5-6)@0-7 rest 0
if (a) b else c d $ 0 $ if(a@4-5,b@7-8,c@14-15)@0-15 rest 1
if (a) b else c else d $ 0 $ if(a@4-5,b@7-8,c@14-15)@0-15 rest 2
if (a) b else c = d $ 0 $ if(a@4-5,b@7-8,c@14-15)@0-15 rest 2
if (a) b else c; + d $ 0 $ if(a@4-5,b@7-8,c@14-15)@0-15 rest 3
a match { case b => } c $ 0 $ match(a@0-1;case(b@15-16=>))@0-21 rest 1
a match { case b => } match { case c => } $ 0 $ match(a@0-1;case(b@15-16=>))@0-21 rest 6
a match { case b => } + c $ 0 $ match(a@0-1;case(b@15-16=>))@0-21 rest 2
a match { case b => }.c $ 0 $ match(a@0-1;case(b@15-16=>))@0-21 rest 2
a match { case b => } = c $ 0 $ match(a@0-1;case(b@15-16=>))@0-21 rest 2
a match { case b => };c $ 0 $ match(a@0-1;case(b@15-16=>))@0-21 rest 2
a match { case b => }(c) $ 0 $ match(a@0-1;case(b@15-16=>))@0-21 rest 3
a match { case b => }[c] $ 0 $ match(a@0-1;case(b@15-16=>))@0-21 rest 3
a // b $ 0 $ a@0-1 rest 0
a /* b */ $ 0 $ a@0-1 rest 0
a * b match { case c => } d $ 0 $ match(infix(a@0-1 * b@4-5)@0-5;case(c@19-20=>))@0-25 rest 1
!a b $ 0 $ prefix(! a@1-2)@0-2 rest 1
!a = b $ 0 $ prefix(! a@1-2)@0-2 rest 2
"#;
