// Blocks that break off.

/// Where no block goes on.
pub const WRONG: &[u8] = br#"
 $ 0 $ G1 at 0
  $ 0 $ G1 at 1
; $ 0 $ G1 at 1
a $ 0 $ G1 at 0
( $ 0 $ G1 at 0
(a) $ 0 $ G1 at 0
[ $ 0 $ G1 at 0
} $ 0 $ G1 at 0
{ $ 0 $ G1 at 1
{ ; $ 0 $ G1 at 3
{ a $ 0 $ G1 at 3
{ a; $ 0 $ G1 at 4
{ a b } $ 0 $ G1 at 4
{ a, b } $ 0 $ G1 at 3
{ a ) $ 0 $ G1 at 4
{ a ] $ 0 $ G1 at 4
{ a ) } $ 0 $ G1 at 4
{ ) } $ 0 $ G1 at 2
{ ] } $ 0 $ G1 at 2
{ , } $ 0 $ G1 at 2
{ . } $ 0 $ G1 at 2
{ : } $ 0 $ G1 at 2
{ = } $ 0 $ G1 at 2
{ => } $ 0 $ G1 at 2
{ <- } $ 0 $ G1 at 2
{ _ } $ 0 $ G1 at 2
{ @a } $ 0 $ G1 at 2
{ 'a } $ 0 $ G1 at 2
{ + } $ 0 $ G1 at 2
{ +a } $ 0 $ G1 at 2
{ + a } $ 0 $ G1 at 2
{ else } $ 0 $ G1 at 2
{ else { } } $ 0 $ G1 at 2
{ match { case a => } } $ 0 $ G1 at 2
{ case a => } $ 0 $ G1 at 2
{ case } $ 0 $ G1 at 2
{ { } } $ 0 $ G1 at 2
{ { a } } $ 0 $ G1 at 2
{ [a] } $ 0 $ G1 at 2
{ a; else } $ 0 $ G1 at 5
{ a; ) } $ 0 $ G1 at 5
{ a; + b } $ 0 $ G1 at 5
{ a; = } $ 0 $ G1 at 7
{ def a } $ 0 $ G1 at 2
{ class } $ 0 $ G1 at 2
{ import a } $ 0 $ G1 at 2
{ true } $ 0 $ G1 at 2
{ lazy val a = b } $ 0 $ G1 at 2
{ a { b } } $ 0 $ G1 at 4
{ a: b } $ 0 $ G1 at 3
{ a: b = c } $ 0 $ G1 at 3
{ a => b } $ 0 $ G1 at 4
{ a <- b } $ 0 $ G1 at 4
{ a ! } $ 0 $ G1 at 4
{ a !b } $ 0 $ G1 at 4
{ a @b } $ 0 $ G1 at 4
{ a = } $ 0 $ G1 at 6
{ a = b = c } $ 0 $ G1 at 8
{ a = b c } $ 0 $ G1 at 8
{ a = $ 0 $ G1 at 5
{ a = b $ 0 $ G1 at 7
{ a = ; } $ 0 $ G1 at 8
{ a = ) $ 0 $ G1 at 6
{ a = val b } $ 0 $ G1 at 6
{ a = return } $ 0 $ G1 at 6
{ a = { b } } $ 0 $ G1 at 6
{ a = _ } $ 0 $ G1 at 6
{ = b } $ 0 $ G1 at 2
{ a == } $ 0 $ G1 at 7
{ a += b } $ 0 $ G1 at 4
{ a = b match { case c => } = d } $ 0 $ G1 at 28
{ a = if (b) c else d = e } $ 0 $ G1 at 22
{ a match { case b => } c } $ 0 $ G1 at 24
{ a match { case b => } + c } $ 0 $ G1 at 24
{ a match { case b => }.c } $ 0 $ G1 at 23
{ a match { case b => } match { case c => } } $ 0 $ G1 at 24
{ a match { case b => } = } $ 0 $ G1 at 26
{ a match { case b => } = c = d } $ 0 $ G1 at 28
{ a match } $ 0 $ G1 at 10
{ a match $ 0 $ G1 at 9
{ a match { $ 0 $ G1 at 11
{ a match { } $ 0 $ G1 at 12
{ a match { } } $ 0 $ G1 at 12
{ a match { case b => } $ 0 $ G1 at 23
{ a match { case b => } { } } $ 0 $ G1 at 24
{ a match; b } $ 0 $ G1 at 11
{ a.match { case b => } } $ 0 $ G1 at 4
{ a + } $ 0 $ G1 at 6
{ a + match { case b => } } $ 0 $ G1 at 6
{ a + if (b) c else d } $ 0 $ G1 at 6
{ a + if (b) { } } $ 0 $ G1 at 6
{ (a } $ 0 $ G1 at 5
{ (a; b) } $ 0 $ G1 at 6
{ (a = b) } $ 0 $ G1 at 5
{ (val a = b) } $ 0 $ G1 at 3
{ (return) } $ 0 $ G1 at 3
{ a( } $ 0 $ G1 at 5
{ a(b } $ 0 $ G1 at 6
{ a[b } $ 0 $ G1 at 6
{ val } $ 0 $ G1 at 6
{ val $ 0 $ G1 at 5
{ val a } $ 0 $ G1 at 8
{ val a $ 0 $ G1 at 7
{ val a: } $ 0 $ G1 at 9
{ val a: $ 0 $ G1 at 8
{ val a: b } $ 0 $ G1 at 11
{ val a: b $ 0 $ G1 at 10
{ val a: b = $ 0 $ G1 at 12
{ val a: b = } $ 0 $ G1 at 13
{ val a = $ 0 $ G1 at 9
{ val a = } $ 0 $ G1 at 10
{ val a = b $ 0 $ G1 at 11
{ val a = b c } $ 0 $ G1 at 12
{ val a = b = c } $ 0 $ G1 at 12
{ val a b } $ 0 $ G1 at 8
{ val 1 = a } $ 0 $ G1 at 6
{ val _ = a } $ 0 $ G1 at 6
{ val this = a } $ 0 $ G1 at 6
{ val a.b = c } $ 0 $ G1 at 7
{ val a, b = c } $ 0 $ G1 at 7
{ val (a) = b } $ 0 $ G1 at 6
{ val a(b) = c } $ 0 $ G1 at 7
{ val a: 1 = b } $ 0 $ G1 at 9
{ val a: (b) = c } $ 0 $ G1 at 9
{ val a: b[] = c } $ 0 $ G1 at 11
{ val a: b[c = d } $ 0 $ G1 at 13
{ val a: b. = c } $ 0 $ G1 at 12
{ val a: b = return } $ 0 $ G1 at 13
{ val a = val b = c } $ 0 $ G1 at 10
{ val a = { b } } $ 0 $ G1 at 10
{ val a == b } $ 0 $ G1 at 8
{ val a => b } $ 0 $ G1 at 8
{ val val a = b } $ 0 $ G1 at 6
{ var } $ 0 $ G1 at 6
{ var a; b } $ 0 $ G1 at 7
{ val a; b } $ 0 $ G1 at 7
{ val a = if (b) { } } $ 0 $ G1 at 17
{ val a = if (b) c } $ 0 $ G1 at 19
{ val a = while (b) { } } $ 0 $ G1 at 10
{ val if = a } $ 0 $ G1 at 6
{ val "a" = b } $ 0 $ G1 at 6
{ if } $ 0 $ G1 at 5
{ if $ 0 $ G1 at 4
{ if ( $ 0 $ G1 at 6
{ if ( } $ 0 $ G1 at 7
{ if () { } } $ 0 $ G1 at 6
{ if (a $ 0 $ G1 at 7
{ if (a } $ 0 $ G1 at 8
{ if (a) $ 0 $ G1 at 8
{ if (a) } $ 0 $ G1 at 9
{ if (a) { $ 0 $ G1 at 10
{ if (a) { } $ 0 $ G1 at 12
{ if (a) { b $ 0 $ G1 at 12
{ if (a) { } else $ 0 $ G1 at 17
{ if (a) { } else } $ 0 $ G1 at 18
{ if (a) { } else b } $ 0 $ G1 at 18
{ if (a) { } else (b) } $ 0 $ G1 at 18
{ if (a) { } else if $ 0 $ G1 at 20
{ if (a) { } else if } $ 0 $ G1 at 21
{ if (a) { } else if ( $ 0 $ G1 at 22
{ if (a) { } else if (b $ 0 $ G1 at 23
{ if (a) { } else if (b) $ 0 $ G1 at 24
{ if (a) { } else if (b) } $ 0 $ G1 at 25
{ if (a) { } else if (b) c } $ 0 $ G1 at 25
{ if (a) { } else if (b) c else d } $ 0 $ G1 at 25
{ if (a) { } else if (b) { } else $ 0 $ G1 at 33
{ if (a) { } else if (b) { } else c } $ 0 $ G1 at 34
{ if (a) { } else { } else { } } $ 0 $ G1 at 22
{ if (a) { } else { } $ 0 $ G1 at 21
{ if (a) { } else { b $ 0 $ G1 at 21
{ if (a) { } b } $ 0 $ G1 at 13
{ if (a) { } = b } $ 0 $ G1 at 13
{ if (a) { } + b } $ 0 $ G1 at 13
{ if (a) { }.b } $ 0 $ G1 at 12
{ if (a) { } match { case b => } } $ 0 $ G1 at 13
{ if (a) b } $ 0 $ G1 at 11
{ if (a) b; c } $ 0 $ G1 at 10
{ if (a) b; else { } } $ 0 $ G1 at 17
{ if (a) b else } $ 0 $ G1 at 16
{ if (a) b else $ 0 $ G1 at 15
{ if (a) b else { } } $ 0 $ G1 at 16
{ if (a) b else { c } } $ 0 $ G1 at 16
{ if (a) b else c else d } $ 0 $ G1 at 18
{ if (a) b else c d } $ 0 $ G1 at 18
{ if (a) b else c = } $ 0 $ G1 at 20
{ if (a) b else c = d = e } $ 0 $ G1 at 22
{ if (a) b = c } $ 0 $ G1 at 11
{ if (a) b = c else d } $ 0 $ G1 at 11
{ if (a) return } $ 0 $ G1 at 9
{ if (a) return else return } $ 0 $ G1 at 9
{ if (a) val b = c } $ 0 $ G1 at 9
{ if (a) while (b) { } } $ 0 $ G1 at 9
{ if a { } } $ 0 $ G1 at 5
{ if { a } } $ 0 $ G1 at 5
{ if [a] { } } $ 0 $ G1 at 5
{ if (a = b) { } } $ 0 $ G1 at 8
{ if (a b) { } } $ 0 $ G1 at 8
{ if (a; b) { } } $ 0 $ G1 at 9
{ if (a] { } } $ 0 $ G1 at 7
{ if (a)) { } } $ 0 $ G1 at 8
{ if (a) [ ] } $ 0 $ G1 at 9
{ if (a) { ) } $ 0 $ G1 at 11
{ if (a) b else if (c) { } } $ 0 $ G1 at 23
{ if (a) b else if (c) d } $ 0 $ G1 at 25
{ if (a) if (b) { } } $ 0 $ G1 at 16
{ if (a) if (b) c else d } $ 0 $ G1 at 25
{ if (a) else { } } $ 0 $ G1 at 9
{ if (a) { } else { } = b } $ 0 $ G1 at 22
{ while } $ 0 $ G1 at 8
{ while $ 0 $ G1 at 7
{ while ( $ 0 $ G1 at 9
{ while () { } } $ 0 $ G1 at 9
{ while (a $ 0 $ G1 at 10
{ while (a } $ 0 $ G1 at 11
{ while (a) $ 0 $ G1 at 11
{ while (a) } $ 0 $ G1 at 12
{ while (a) b } $ 0 $ G1 at 12
{ while (a) { $ 0 $ G1 at 13
{ while (a) { } $ 0 $ G1 at 15
{ while (a) { b $ 0 $ G1 at 15
{ while (a) { } b } $ 0 $ G1 at 16
{ while (a) { } = b } $ 0 $ G1 at 16
{ while (a) { } else { } } $ 0 $ G1 at 16
{ while a { } } $ 0 $ G1 at 8
{ while { } } $ 0 $ G1 at 8
{ while (a b) { } } $ 0 $ G1 at 11
{ while (a = b) { } } $ 0 $ G1 at 11
{ while (a) (b) } $ 0 $ G1 at 12
{ for } $ 0 $ G1 at 6
{ for $ 0 $ G1 at 5
{ for ( $ 0 $ G1 at 7
{ for () { } } $ 0 $ G1 at 7
{ for (a $ 0 $ G1 at 8
{ for (a) { } } $ 0 $ G1 at 8
{ for (a <- $ 0 $ G1 at 11
{ for (a <- b $ 0 $ G1 at 13
{ for (a <- b) { } } $ 0 $ G1 at 13
{ for (a <- b until $ 0 $ G1 at 19
{ for (a <- b until) { } } $ 0 $ G1 at 19
{ for (a <- b until c $ 0 $ G1 at 21
{ for (a <- b until c) $ 0 $ G1 at 22
{ for (a <- b until c) } $ 0 $ G1 at 23
{ for (a <- b until c) d } $ 0 $ G1 at 23
{ for (a <- b until c) { $ 0 $ G1 at 24
{ for (a <- b until c) { } $ 0 $ G1 at 26
{ for (a <- b to) { } } $ 0 $ G1 at 16
{ for (a <- b to c to d) { } } $ 0 $ G1 at 19
{ for (a <- b until c until d) { } } $ 0 $ G1 at 22
{ for (a <- b until c by d) { } } $ 0 $ G1 at 22
{ for (a = b until c) { } } $ 0 $ G1 at 9
{ for (a => b until c) { } } $ 0 $ G1 at 9
{ for (a: b <- c until d) { } } $ 0 $ G1 at 8
{ for (val a <- b until c) { } } $ 0 $ G1 at 7
{ for (1 <- a until b) { } } $ 0 $ G1 at 7
{ for (_ <- a until b) { } } $ 0 $ G1 at 7
{ for (this <- a until b) { } } $ 0 $ G1 at 7
{ for (a.b <- c until d) { } } $ 0 $ G1 at 8
{ for (a <- b, c) { } } $ 0 $ G1 at 13
{ for (a <- b + until c) { } } $ 0 $ G1 at 22
{ for (a <- until until) { } } $ 0 $ G1 at 23
{ for (a <- until) { } } $ 0 $ G1 at 17
{ for (a <- to to) { } } $ 0 $ G1 at 17
{ for a <- b until c { } } $ 0 $ G1 at 6
{ for { a <- b until c } } $ 0 $ G1 at 6
{ for (a <- b until c; d <- e until f) { } } $ 0 $ G1 at 23
{ for (a <- b until c) { } d } $ 0 $ G1 at 27
{ for (a <- b c until d) { } } $ 0 $ G1 at 14
{ for (a <- b until c d) { } } $ 0 $ G1 at 22
{ for (a b) { } } $ 0 $ G1 at 9
{ return $ 0 $ G1 at 8
{ return a $ 0 $ G1 at 10
{ return a b } $ 0 $ G1 at 11
{ return a = b } $ 0 $ G1 at 11
{ return = a } $ 0 $ G1 at 9
{ return return } $ 0 $ G1 at 9
{ return val a = b } $ 0 $ G1 at 9
{ return { } } $ 0 $ G1 at 9
{ return { a } } $ 0 $ G1 at 9
{ return , } $ 0 $ G1 at 9
{ return ) } $ 0 $ G1 at 9
{ return + a } $ 0 $ G1 at 9
{ return a + } $ 0 $ G1 at 13
{ return a match } $ 0 $ G1 at 17
{ return if (a) { } } $ 0 $ G1 at 16
{ return if (a) b } $ 0 $ G1 at 18
{ return while (a) { } } $ 0 $ G1 at 9
{ return (a } $ 0 $ G1 at 12
{ return _ } $ 0 $ G1 at 9
{ return(a = b) } $ 0 $ G1 at 11
{ return else } $ 0 $ G1 at 9
{ return.a } $ 0 $ G1 at 8
{ return: a } $ 0 $ G1 at 8
{ return match { case a => } } $ 0 $ G1 at 9
{ return - $ 0 $ G1 at 10
{ return -; } $ 0 $ G1 at 12
"#;

/// What stands behind a block and is no part of it.
pub const FOLLOWED: &[u8] = br#"
{ } a $ 0 $ {} rest 1
{ };a $ 0 $ {} rest 2
{ } } $ 0 $ {} rest 1
{ } { } $ 0 $ {} rest 2
{ } = a $ 0 $ {} rest 2
{ } else { } $ 0 $ {} rest 3
{ a } b $ 0 $ {call(a@2-3)@2-3} rest 1
{ a }.b $ 0 $ {call(a@2-3)@2-3} rest 2
{ a }(b) $ 0 $ {call(a@2-3)@2-3} rest 3
{ a } match { case b => } $ 0 $ {call(a@2-3)@2-3} rest 6
{ a } + b $ 0 $ {call(a@2-3)@2-3} rest 2
{ a };{ b } $ 0 $ {call(a@2-3)@2-3} rest 3
{ a };; $ 0 $ {call(a@2-3)@2-3} rest 0
{ return } a $ 0 $ {return()@2-8} rest 1
{ l"a" } ) $ 0 $ {skip(Prefixed l"a")@2-6} rest 1
{ if (a) { } } else { } $ 0 $ {ifs(a@6-7 {})@2-12} rest 3
{ a match { case b => } } = c $ 0 $ {matches(a@2-3;case(b@17-18=>))@2-23} rest 2
"#;
