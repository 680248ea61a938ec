// Blocks that break off or end, with little room.

/// Each text at the depths from 60 to 64, and at 70.
pub const FRONTS: &[u8] = br#"
{ } $ 60 $ {} rest 0
{ } $ 61 $ {} rest 0
{ } $ 62 $ {} rest 0
{ } $ 63 $ {} rest 0
{ } $ 64 $ {} rest 0
{ } $ 70 $ {} rest 0
{ a } $ 60 $ {call(a@2-3)@2-3} rest 0
{ a } $ 61 $ {call(a@2-3)@2-3} rest 0
{ a } $ 62 $ {call(a@2-3)@2-3} rest 0
{ a } $ 63 $ G6 at 2
{ a } $ 64 $ G6 at 2
{ a } $ 70 $ G6 at 2
{ return } $ 60 $ {return()@2-8} rest 0
{ return } $ 61 $ {return()@2-8} rest 0
{ return } $ 62 $ {return()@2-8} rest 0
{ return } $ 63 $ {return()@2-8} rest 0
{ return } $ 64 $ G6 at 2
{ return } $ 70 $ G6 at 2
{ return a } $ 60 $ {return(a@9-10)@2-10} rest 0
{ return a } $ 61 $ {return(a@9-10)@2-10} rest 0
{ return a } $ 62 $ {return(a@9-10)@2-10} rest 0
{ return a } $ 63 $ G6 at 9
{ return a } $ 64 $ G6 at 2
{ return a } $ 70 $ G6 at 2
{ l"a" } $ 60 $ {skip(Prefixed l"a")@2-6} rest 0
{ l"a" } $ 61 $ {skip(Prefixed l"a")@2-6} rest 0
{ l"a" } $ 62 $ {skip(Prefixed l"a")@2-6} rest 0
{ l"a" } $ 63 $ {skip(Prefixed l"a")@2-6} rest 0
{ l"a" } $ 64 $ G6 at 2
{ l"a" } $ 70 $ G6 at 2
{ Contract(a) } $ 60 $ {skip(Ident Contract,Mark (,Ident a,Mark ))@2-13} rest 0
{ Contract(a) } $ 61 $ {skip(Ident Contract,Mark (,Ident a,Mark ))@2-13} rest 0
{ Contract(a) } $ 62 $ {skip(Ident Contract,Mark (,Ident a,Mark ))@2-13} rest 0
{ Contract(a) } $ 63 $ {skip(Ident Contract,Mark (,Ident a,Mark ))@2-13} rest 0
{ Contract(a) } $ 64 $ G6 at 2
{ Contract(a) } $ 70 $ G6 at 2
{ Contract } $ 60 $ {call(Contract@2-10)@2-10} rest 0
{ Contract } $ 61 $ {call(Contract@2-10)@2-10} rest 0
{ Contract } $ 62 $ {call(Contract@2-10)@2-10} rest 0
{ Contract } $ 63 $ G6 at 11
{ Contract } $ 64 $ G6 at 2
{ Contract } $ 70 $ G6 at 2
{ Contract.a } $ 60 $ {call(select(Contract@2-10 a)@2-12)@2-12} rest 0
{ Contract.a } $ 61 $ {call(select(Contract@2-10 a)@2-12)@2-12} rest 0
{ Contract.a } $ 62 $ G6 at 10
{ Contract.a } $ 63 $ G6 at 10
{ Contract.a } $ 64 $ G6 at 2
{ Contract.a } $ 70 $ G6 at 2
{ Contract = a } $ 60 $ {assign(Contract@2-10=a@13-14)@2-14} rest 0
{ Contract = a } $ 61 $ {assign(Contract@2-10=a@13-14)@2-14} rest 0
{ Contract = a } $ 62 $ {assign(Contract@2-10=a@13-14)@2-14} rest 0
{ Contract = a } $ 63 $ G6 at 11
{ Contract = a } $ 64 $ G6 at 2
{ Contract = a } $ 70 $ G6 at 2
{ -1 } $ 60 $ {call(literal(-Number 1)@2-4)@2-4} rest 0
{ -1 } $ 61 $ {call(literal(-Number 1)@2-4)@2-4} rest 0
{ -1 } $ 62 $ {call(literal(-Number 1)@2-4)@2-4} rest 0
{ -1 } $ 63 $ G6 at 2
{ -1 } $ 64 $ G6 at 2
{ -1 } $ 70 $ G6 at 2
{ - a } $ 60 $ {call(prefix(- a@4-5)@2-5)@2-5} rest 0
{ - a } $ 61 $ {call(prefix(- a@4-5)@2-5)@2-5} rest 0
{ - a } $ 62 $ G6 at 4
{ - a } $ 63 $ G6 at 2
{ - a } $ 64 $ G6 at 2
{ - a } $ 70 $ G6 at 2
{ a = b } $ 60 $ {assign(a@2-3=b@6-7)@2-7} rest 0
{ a = b } $ 61 $ {assign(a@2-3=b@6-7)@2-7} rest 0
{ a = b } $ 62 $ {assign(a@2-3=b@6-7)@2-7} rest 0
{ a = b } $ 63 $ G6 at 2
{ a = b } $ 64 $ G6 at 2
{ a = b } $ 70 $ G6 at 2
{ val a = b } $ 60 $ {val(a=b@10-11)@2-11} rest 0
{ val a = b } $ 61 $ {val(a=b@10-11)@2-11} rest 0
{ val a = b } $ 62 $ {val(a=b@10-11)@2-11} rest 0
{ val a = b } $ 63 $ G6 at 2
{ val a = b } $ 64 $ G6 at 2
{ val a = b } $ 70 $ G6 at 2
{ val a: b = c } $ 60 $ {val(a:b@9-10=c@13-14)@2-14} rest 0
{ val a: b = c } $ 61 $ {val(a:b@9-10=c@13-14)@2-14} rest 0
{ val a: b = c } $ 62 $ {val(a:b@9-10=c@13-14)@2-14} rest 0
{ val a: b = c } $ 63 $ G6 at 2
{ val a: b = c } $ 64 $ G6 at 2
{ val a: b = c } $ 70 $ G6 at 2
{ if (a) { } } $ 60 $ {ifs(a@6-7 {})@2-12} rest 0
{ if (a) { } } $ 61 $ {ifs(a@6-7 {})@2-12} rest 0
{ if (a) { } } $ 62 $ {ifs(a@6-7 {})@2-12} rest 0
{ if (a) { } } $ 63 $ G6 at 2
{ if (a) { } } $ 64 $ G6 at 2
{ if (a) { } } $ 70 $ G6 at 2
{ if (a) b else c } $ 60 $ {call(if(a@6-7,b@9-10,c@16-17)@2-17)@2-17} rest 0
{ if (a) b else c } $ 61 $ {call(if(a@6-7,b@9-10,c@16-17)@2-17)@2-17} rest 0
{ if (a) b else c } $ 62 $ G6 at 9
{ if (a) b else c } $ 63 $ G6 at 2
{ if (a) b else c } $ 64 $ G6 at 2
{ if (a) b else c } $ 70 $ G6 at 2
{ if (a) b else c = d } $ 60 $ {assign(if(a@6-7,b@9-10,c@16-17)@2-17=d@20-21)@2-21} rest 0
{ if (a) b else c = d } $ 61 $ {assign(if(a@6-7,b@9-10,c@16-17)@2-17=d@20-21)@2-21} rest 0
{ if (a) b else c = d } $ 62 $ G6 at 9
{ if (a) b else c = d } $ 63 $ G6 at 2
{ if (a) b else c = d } $ 64 $ G6 at 2
{ if (a) b else c = d } $ 70 $ G6 at 2
{ if (a) { } else { } } $ 60 $ {ifs(a@6-7 {} {})@2-21} rest 0
{ if (a) { } else { } } $ 61 $ {ifs(a@6-7 {} {})@2-21} rest 0
{ if (a) { } else { } } $ 62 $ {ifs(a@6-7 {} {})@2-21} rest 0
{ if (a) { } else { } } $ 63 $ G6 at 2
{ if (a) { } else { } } $ 64 $ G6 at 2
{ if (a) { } else { } } $ 70 $ G6 at 2
{ if (a) { } else if (b) { } } $ 60 $ {ifs(a@6-7 {} ifs(b@22-23 {})@18-28)@2-28} rest 0
{ if (a) { } else if (b) { } } $ 61 $ {ifs(a@6-7 {} ifs(b@22-23 {})@18-28)@2-28} rest 0
{ if (a) { } else if (b) { } } $ 62 $ G6 at 18
{ if (a) { } else if (b) { } } $ 63 $ G6 at 2
{ if (a) { } else if (b) { } } $ 64 $ G6 at 2
{ if (a) { } else if (b) { } } $ 70 $ G6 at 2
{ while (a) { } } $ 60 $ {while(a@9-10 {})@2-15} rest 0
{ while (a) { } } $ 61 $ {while(a@9-10 {})@2-15} rest 0
{ while (a) { } } $ 62 $ {while(a@9-10 {})@2-15} rest 0
{ while (a) { } } $ 63 $ G6 at 2
{ while (a) { } } $ 64 $ G6 at 2
{ while (a) { } } $ 70 $ G6 at 2
{ for (a <- b until c) { } } $ 60 $ {for(a b@12-13 until c@20-21 {})@2-26} rest 0
{ for (a <- b until c) { } } $ 61 $ {for(a b@12-13 until c@20-21 {})@2-26} rest 0
{ for (a <- b until c) { } } $ 62 $ {for(a b@12-13 until c@20-21 {})@2-26} rest 0
{ for (a <- b until c) { } } $ 63 $ G6 at 2
{ for (a <- b until c) { } } $ 64 $ G6 at 2
{ for (a <- b until c) { } } $ 70 $ G6 at 2
{ a match { case b => } } $ 60 $ {matches(a@2-3;case(b@17-18=>))@2-23} rest 0
{ a match { case b => } } $ 61 $ {matches(a@2-3;case(b@17-18=>))@2-23} rest 0
{ a match { case b => } } $ 62 $ {matches(a@2-3;case(b@17-18=>))@2-23} rest 0
{ a match { case b => } } $ 63 $ G6 at 2
{ a match { case b => } } $ 64 $ G6 at 2
{ a match { case b => } } $ 70 $ G6 at 2
{ a match { case b => } = c } $ 60 $ {assign(match(a@2-3;case(b@17-18=>))@2-23=c@26-27)@2-27} rest 0
{ a match { case b => } = c } $ 61 $ {assign(match(a@2-3;case(b@17-18=>))@2-23=c@26-27)@2-27} rest 0
{ a match { case b => } = c } $ 62 $ G6 at 24
{ a match { case b => } = c } $ 63 $ G6 at 2
{ a match { case b => } = c } $ 64 $ G6 at 2
{ a match { case b => } = c } $ 70 $ G6 at 2
{ a match { case b => return } } $ 60 $ {matches(a@2-3;case(b@17-18=>return()@22-28))@2-30} rest 0
{ a match { case b => return } } $ 61 $ {matches(a@2-3;case(b@17-18=>return()@22-28))@2-30} rest 0
{ a match { case b => return } } $ 62 $ {matches(a@2-3;case(b@17-18=>return()@22-28))@2-30} rest 0
{ a match { case b => return } } $ 63 $ G6 at 2
{ a match { case b => return } } $ 64 $ G6 at 2
{ a match { case b => return } } $ 70 $ G6 at 2
{ return; a } $ 60 $ {return()@2-8;call(a@10-11)@10-11} rest 0
{ return; a } $ 61 $ {return()@2-8;call(a@10-11)@10-11} rest 0
{ return; a } $ 62 $ {return()@2-8;call(a@10-11)@10-11} rest 0
{ return; a } $ 63 $ G6 at 10
{ return; a } $ 64 $ G6 at 2
{ return; a } $ 70 $ G6 at 2
{ return a; return } $ 60 $ {return(a@9-10)@2-10;return()@12-18} rest 0
{ return a; return } $ 61 $ {return(a@9-10)@2-10;return()@12-18} rest 0
{ return a; return } $ 62 $ {return(a@9-10)@2-10;return()@12-18} rest 0
{ return a; return } $ 63 $ G6 at 9
{ return a; return } $ 64 $ G6 at 2
{ return a; return } $ 70 $ G6 at 2
{ Contract([a) } $ 60 $ G1 at 13
{ Contract([a) } $ 61 $ G1 at 13
{ Contract([a) } $ 62 $ G1 at 13
{ Contract([a) } $ 63 $ G1 at 13
{ Contract([a) } $ 64 $ G6 at 2
{ Contract([a) } $ 70 $ G6 at 2
{ Contract(a) b } $ 60 $ G1 at 14
{ Contract(a) b } $ 61 $ G1 at 14
{ Contract(a) b } $ 62 $ G1 at 14
{ Contract(a) b } $ 63 $ G1 at 14
{ Contract(a) b } $ 64 $ G6 at 2
{ Contract(a) b } $ 70 $ G6 at 2
{ l"a" b } $ 60 $ G1 at 7
{ l"a" b } $ 61 $ G1 at 7
{ l"a" b } $ 62 $ G1 at 7
{ l"a" b } $ 63 $ G1 at 7
{ l"a" b } $ 64 $ G6 at 2
{ l"a" b } $ 70 $ G6 at 2
{ ! } $ 60 $ G1 at 4
{ ! } $ 61 $ G1 at 4
{ ! } $ 62 $ G6 at 2
{ ! } $ 63 $ G6 at 2
{ ! } $ 64 $ G6 at 2
{ ! } $ 70 $ G6 at 2
{ ( } $ 60 $ G1 at 4
{ ( } $ 61 $ G1 at 4
{ ( } $ 62 $ G6 at 2
{ ( } $ 63 $ G6 at 2
{ ( } $ 64 $ G6 at 2
{ ( } $ 70 $ G6 at 2
{ 1 b } $ 60 $ G1 at 4
{ 1 b } $ 61 $ G1 at 4
{ 1 b } $ 62 $ G1 at 4
{ 1 b } $ 63 $ G6 at 2
{ 1 b } $ 64 $ G6 at 2
{ 1 b } $ 70 $ G6 at 2
{ val } $ 60 $ G1 at 6
{ val } $ 61 $ G1 at 6
{ val } $ 62 $ G1 at 6
{ val } $ 63 $ G6 at 2
{ val } $ 64 $ G6 at 2
{ val } $ 70 $ G6 at 2
{ if } $ 60 $ G1 at 5
{ if } $ 61 $ G1 at 5
{ if } $ 62 $ G1 at 5
{ if } $ 63 $ G6 at 2
{ if } $ 64 $ G6 at 2
{ if } $ 70 $ G6 at 2
{ if ( } $ 60 $ G1 at 7
{ if ( } $ 61 $ G1 at 7
{ if ( } $ 62 $ G1 at 7
{ if ( } $ 63 $ G6 at 2
{ if ( } $ 64 $ G6 at 2
{ if ( } $ 70 $ G6 at 2
{ while } $ 60 $ G1 at 8
{ while } $ 61 $ G1 at 8
{ while } $ 62 $ G1 at 8
{ while } $ 63 $ G6 at 2
{ while } $ 64 $ G6 at 2
{ while } $ 70 $ G6 at 2
{ for } $ 60 $ G1 at 6
{ for } $ 61 $ G1 at 6
{ for } $ 62 $ G1 at 6
{ for } $ 63 $ G6 at 2
{ for } $ 64 $ G6 at 2
{ for } $ 70 $ G6 at 2
{ = } $ 60 $ G1 at 2
{ = } $ 61 $ G1 at 2
{ = } $ 62 $ G1 at 2
{ = } $ 63 $ G1 at 2
{ = } $ 64 $ G1 at 2
{ = } $ 70 $ G1 at 2
{ $ 60 $ G1 at 1
{ $ 61 $ G1 at 1
{ $ 62 $ G1 at 1
{ $ 63 $ G1 at 1
{ $ 64 $ G1 at 1
{ $ 70 $ G1 at 1
{ ) $ 60 $ G1 at 2
{ ) $ 61 $ G1 at 2
{ ) $ 62 $ G1 at 2
{ ) $ 63 $ G1 at 2
{ ) $ 64 $ G1 at 2
{ ) $ 70 $ G1 at 2
 $ 60 $ G1 at 0
 $ 61 $ G1 at 0
 $ 62 $ G1 at 0
 $ 63 $ G1 at 0
 $ 64 $ G1 at 0
 $ 70 $ G1 at 0
a $ 60 $ G1 at 0
a $ 61 $ G1 at 0
a $ 62 $ G1 at 0
a $ 63 $ G1 at 0
a $ 64 $ G1 at 0
a $ 70 $ G1 at 0
{ } a $ 60 $ {} rest 1
{ } a $ 61 $ {} rest 1
{ } a $ 62 $ {} rest 1
{ } a $ 63 $ {} rest 1
{ } a $ 64 $ {} rest 1
{ } a $ 70 $ {} rest 1
{ a $ 60 $ G1 at 3
{ a $ 61 $ G1 at 3
{ a $ 62 $ G1 at 3
{ a $ 63 $ G6 at 2
{ a $ 64 $ G6 at 2
{ a $ 70 $ G6 at 2
{ return $ 60 $ G1 at 8
{ return $ 61 $ G1 at 8
{ return $ 62 $ G1 at 8
{ return $ 63 $ G1 at 8
{ return $ 64 $ G6 at 2
{ return $ 70 $ G6 at 2
{ return = } $ 60 $ G1 at 9
{ return = } $ 61 $ G1 at 9
{ return = } $ 62 $ G1 at 9
{ return = } $ 63 $ G1 at 9
{ return = } $ 64 $ G6 at 2
{ return = } $ 70 $ G6 at 2
{ return a b } $ 60 $ G1 at 11
{ return a b } $ 61 $ G1 at 11
{ return a b } $ 62 $ G1 at 11
{ return a b } $ 63 $ G6 at 9
{ return a b } $ 64 $ G6 at 2
{ return a b } $ 70 $ G6 at 2
{ a(b) } $ 60 $ {call(apply(a@2-3;b@4-5)@2-6)@2-6} rest 0
{ a(b) } $ 61 $ {call(apply(a@2-3;b@4-5)@2-6)@2-6} rest 0
{ a(b) } $ 62 $ G6 at 3
{ a(b) } $ 63 $ G6 at 2
{ a(b) } $ 64 $ G6 at 2
{ a(b) } $ 70 $ G6 at 2
{ a + b } $ 60 $ {call(infix(a@2-3 + b@6-7)@2-7)@2-7} rest 0
{ a + b } $ 61 $ {call(infix(a@2-3 + b@6-7)@2-7)@2-7} rest 0
{ a + b } $ 62 $ G6 at 4
{ a + b } $ 63 $ G6 at 2
{ a + b } $ 64 $ G6 at 2
{ a + b } $ 70 $ G6 at 2
{ a.b } $ 60 $ {call(select(a@2-3 b)@2-5)@2-5} rest 0
{ a.b } $ 61 $ {call(select(a@2-3 b)@2-5)@2-5} rest 0
{ a.b } $ 62 $ G6 at 3
{ a.b } $ 63 $ G6 at 2
{ a.b } $ 64 $ G6 at 2
{ a.b } $ 70 $ G6 at 2
{ a[b] } $ 60 $ {call(given(a@2-3;b@4-5)@2-6)@2-6} rest 0
{ a[b] } $ 61 $ {call(given(a@2-3;b@4-5)@2-6)@2-6} rest 0
{ a[b] } $ 62 $ G6 at 3
{ a[b] } $ 63 $ G6 at 2
{ a[b] } $ 64 $ G6 at 2
{ a[b] } $ 70 $ G6 at 2
{ (a) } $ 60 $ {call(paren(a@3-4)@2-5)@2-5} rest 0
{ (a) } $ 61 $ {call(paren(a@3-4)@2-5)@2-5} rest 0
{ (a) } $ 62 $ G6 at 2
{ (a) } $ 63 $ G6 at 2
{ (a) } $ 64 $ G6 at 2
{ (a) } $ 70 $ G6 at 2
{ !a } $ 60 $ {call(prefix(! a@3-4)@2-4)@2-4} rest 0
{ !a } $ 61 $ {call(prefix(! a@3-4)@2-4)@2-4} rest 0
{ !a } $ 62 $ G6 at 2
{ !a } $ 63 $ G6 at 2
{ !a } $ 64 $ G6 at 2
{ !a } $ 70 $ G6 at 2
{ s"a" } $ 60 $ {call(literal(Prefixed s"a")@2-6)@2-6} rest 0
{ s"a" } $ 61 $ {call(literal(Prefixed s"a")@2-6)@2-6} rest 0
{ s"a" } $ 62 $ {call(literal(Prefixed s"a")@2-6)@2-6} rest 0
{ s"a" } $ 63 $ G6 at 2
{ s"a" } $ 64 $ G6 at 2
{ s"a" } $ 70 $ G6 at 2
{ this } $ 60 $ {call(this()@2-6)@2-6} rest 0
{ this } $ 61 $ {call(this()@2-6)@2-6} rest 0
{ this } $ 62 $ {call(this()@2-6)@2-6} rest 0
{ this } $ 63 $ G6 at 2
{ this } $ 64 $ G6 at 2
{ this } $ 70 $ G6 at 2
"#;
