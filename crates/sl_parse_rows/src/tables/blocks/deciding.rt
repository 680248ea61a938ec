// Where one token doesn't decide.

/// What begins with `if`.
pub const IFS: &[u8] = br#"
{ if (a) { } } $ 0 $ {ifs(a@6-7 {})@2-12} rest 0
{ if (a) b else c } $ 0 $ {call(if(a@6-7,b@9-10,c@16-17)@2-17)@2-17} rest 0
{ if (a) b else c = d } $ 0 $ {assign(if(a@6-7,b@9-10,c@16-17)@2-17=d@20-21)@2-21} rest 0
{ if (a) b else c; = d } $ 0 $ {assign(if(a@6-7,b@9-10,c@16-17)@2-17=d@21-22)@2-22} rest 0
{ if (a) b } $ 0 $ G1 at 11
{ if (a) b; else c } $ 0 $ {call(if(a@6-7,b@9-10,c@17-18)@2-18)@2-18} rest 0
{ if (a) { } else { } } $ 0 $ {ifs(a@6-7 {} {})@2-21} rest 0
{ if (a) { } else if (b) { } } $ 0 $ {ifs(a@6-7 {} ifs(b@22-23 {})@18-28)@2-28} rest 0
{ if (a) { } else b } $ 0 $ G1 at 18
{ if (a) { } else if (b) c else d } $ 0 $ G1 at 25
{ if (a) b else { } } $ 0 $ G1 at 16
{ if (a) b else if (c) { } } $ 0 $ G1 at 23
{ if (a) b else if (c) d else e = f } $ 0 $ {assign(if(a@6-7,b@9-10,if(c@20-21,d@23-24,e@30-31)@16-31)@2-31=f@34-35)@2-35} rest 0
{ if (a) (b) else c } $ 0 $ {call(if(a@6-7,paren(b@10-11)@9-12,c@18-19)@2-19)@2-19} rest 0
{ if (a); { } } $ 0 $ {ifs(a@6-7 {})@2-13} rest 0
{ if (a) { } = b } $ 0 $ G1 at 13
{ if (a) { }.b = c } $ 0 $ G1 at 12
{ if (a) { } match { case b => } } $ 0 $ G1 at 13
{ if (a) b else c match { case d => } } $ 0 $ {call(if(a@6-7,b@9-10,match(c@16-17;case(d@31-32=>))@16-37)@2-37)@2-37} rest 0
{ if (a) b else c match { case d => } = e } $ 0 $ {assign(if(a@6-7,b@9-10,match(c@16-17;case(d@31-32=>))@16-37)@2-37=e@40-41)@2-41} rest 0
{ if (a) b match { case c => } else d = e } $ 0 $ {assign(if(a@6-7,match(b@9-10;case(c@24-25=>))@9-30,d@36-37)@2-37=e@40-41)@2-41} rest 0
{ if (a) b match { case c => } = d } $ 0 $ G1 at 31
{ (if (a) b else c) = d } $ 0 $ {assign(paren(if(a@7-8,b@10-11,c@17-18)@3-18)@2-19=d@22-23)@2-23} rest 0
{ (if (a) { }) } $ 0 $ G1 at 10
{ a = if (b) c else d } $ 0 $ {assign(a@2-3=if(b@10-11,c@13-14,d@20-21)@6-21)@2-21} rest 0
{ a = if (b) { } else { } } $ 0 $ G1 at 13
{ a = if (b) c else d = e } $ 0 $ G1 at 22
{ val a = if (b) { c } else { d } } $ 0 $ G1 at 17
{ return if (a) { } } $ 0 $ G1 at 16
{ if (a) b else c + d = e } $ 0 $ {assign(if(a@6-7,b@9-10,infix(c@16-17 + d@20-21)@16-21)@2-21=e@24-25)@2-25} rest 0
{ if (if (a) b else c) { } } $ 0 $ {ifs(if(a@10-11,b@13-14,c@20-21)@6-21 {})@2-26} rest 0
{ if (if (a) { } ) } $ 0 $ G1 at 13
{ if (a) if (b) { } else { } } $ 0 $ G1 at 16
{ if (a) if (b) c else d else e = f } $ 0 $ {assign(if(a@6-7,if(b@13-14,c@16-17,d@23-24)@9-24,e@30-31)@2-31=f@34-35)@2-35} rest 0
{ if (a) l"b" else c } $ 0 $ {call(if(a@6-7,literal(Prefixed l"b")@9-13,c@19-20)@2-20)@2-20} rest 0
{ if (a) l"b" } $ 0 $ G1 at 14
{ if (a) Contract(b) else c = d } $ 0 $ {assign(if(a@6-7,apply(Contract@9-17;b@18-19)@9-20,c@26-27)@2-27=d@30-31)@2-31} rest 0
{ if (a) return else b } $ 0 $ G1 at 9
{ if (a) { b } else c } $ 0 $ G1 at 20
"#;

/// What is skipped, and what begins as it does.
pub const SKIPS: &[u8] = br#"
{ Contract } $ 0 $ {call(Contract@2-10)@2-10} rest 0
{ Contract; (a) } $ 0 $ {call(Contract@2-10)@2-10;call(paren(a@13-14)@12-15)@12-15} rest 0
{ Contract (a) } $ 0 $ {skip(Ident Contract,Mark (,Ident a,Mark ))@2-14} rest 0
{ Contract(a) } $ 0 $ {skip(Ident Contract,Mark (,Ident a,Mark ))@2-13} rest 0
{ Contract(a)(b) } $ 0 $ G1 at 13
{ Contract(a) = b } $ 0 $ G1 at 14
{ Contract(a).b = c } $ 0 $ G1 at 13
{ Contract(a) match { case b => } } $ 0 $ G1 at 14
{ Contract = a } $ 0 $ {assign(Contract@2-10=a@13-14)@2-14} rest 0
{ Contract.a = b } $ 0 $ {assign(select(Contract@2-10 a)@2-12=b@15-16)@2-16} rest 0
{ Contract[a](b) = c } $ 0 $ {assign(apply(given(Contract@2-10;a@11-12)@2-13;b@14-15)@2-16=c@19-20)@2-20} rest 0
{ Contract match { case a => } } $ 0 $ {matches(Contract@2-10;case(a@24-25=>))@2-30} rest 0
{ Contract + (a) } $ 0 $ {call(infix(Contract@2-10 + paren(a@14-15)@13-16)@2-16)@2-16} rest 0
{ Contract + Contract(a) = b } $ 0 $ {assign(infix(Contract@2-10 + apply(Contract@13-21;a@22-23)@13-24)@2-24=b@27-28)@2-28} rest 0
{ (Contract(a)) = b } $ 0 $ {assign(paren(apply(Contract@3-11;a@12-13)@3-14)@2-15=b@18-19)@2-19} rest 0
{ -Contract(a) } $ 0 $ {call(prefix(- apply(Contract@3-11;a@12-13)@3-14)@2-14)@2-14} rest 0
{ a + Contract(b) = c } $ 0 $ {assign(infix(a@2-3 + apply(Contract@6-14;b@15-16)@6-17)@2-17=c@20-21)@2-21} rest 0
{ a = Contract(b)(c) } $ 0 $ {assign(a@2-3=apply(apply(Contract@6-14;b@15-16)@6-17;c@18-19)@6-20)@2-20} rest 0
{ a = Contract([b) } $ 0 $ G1 at 15
{ Contract([b) } $ 0 $ G1 at 13
{ return Contract(a)(b) } $ 0 $ {return(apply(apply(Contract@9-17;a@18-19)@9-20;b@21-22)@9-23)@2-23} rest 0
{ return Contract([a) } $ 0 $ G1 at 18
{ val Contract = Contract(a) + b } $ 0 $ {val(Contract=infix(apply(Contract@17-25;a@26-27)@17-28 + b@31-32)@17-32)@2-32} rest 0
{ while (Contract(a)) { Invariant(b) } } $ 0 $ {while(apply(Contract@9-17;a@18-19)@9-20 {skip(Ident Invariant,Mark (,Ident b,Mark ))@24-36})@2-38} rest 0
{ if (Contract(a)) { Contract(a); b } } $ 0 $ {ifs(apply(Contract@6-14;a@15-16)@6-17 {skip(Ident Contract,Mark (,Ident a,Mark ))@21-32;call(b@34-35)@34-35})@2-37} rest 0
{ if (Contract([a)) { } } $ 0 $ G1 at 15
{ a match { case Contract(b) => Contract(c) $ 0 $ G1 at 43
{ a match { case Contract(b) => Contract(c) case Invariant => Invariant } } $ 0 $ {matches(a@2-3;case(class(Contract;b@26-27)@17-28=>skip(Ident Contract,Mark (,Ident c,Mark ))@32-43) case(Invariant@49-58=>call(Invariant@62-71)@62-71))@2-73} rest 0
{ a match { case b => Contract(c) + d } } $ 0 $ G1 at 34
{ a match { case b if Contract(c) + d => } } $ 0 $ {matches(a@2-3;case(b@17-18 if infix(apply(Contract@22-30;c@31-32)@22-33 + d@36-37)@22-37=>))@2-42} rest 0
{ l"a" } $ 0 $ {skip(Prefixed l"a")@2-6} rest 0
{ l"a".b } $ 0 $ G1 at 6
{ l"a" = b } $ 0 $ G1 at 7
{ (l"a").b = c } $ 0 $ {assign(select(paren(literal(Prefixed l"a")@3-7)@2-8 b)@2-10=c@13-14)@2-14} rest 0
{ a = l"b".c } $ 0 $ {assign(a@2-3=select(literal(Prefixed l"b")@6-10 c)@6-12)@2-12} rest 0
{ return l"a" + b } $ 0 $ {return(infix(literal(Prefixed l"a")@9-13 + b@16-17)@9-17)@2-17} rest 0
{ a(l"b").c = l"d" } $ 0 $ {assign(select(apply(a@2-3;literal(Prefixed l"b")@4-8)@2-9 c)@2-11=literal(Prefixed l"d")@14-18)@2-18} rest 0
{ ll"a".b } $ 0 $ {call(select(literal(Prefixed ll"a")@2-7 b)@2-9)@2-9} rest 0
{ l.a = b } $ 0 $ {assign(select(l@2-3 a)@2-5=b@8-9)@2-9} rest 0
{ l = a } $ 0 $ {assign(l@2-3=a@6-7)@2-7} rest 0
{ Contracts(a) = b } $ 0 $ {assign(apply(Contracts@2-11;a@12-13)@2-14=b@17-18)@2-18} rest 0
{ contract(a)(b) } $ 0 $ {call(apply(apply(contract@2-10;a@11-12)@2-13;b@14-15)@2-16)@2-16} rest 0
{ "Contract"(a) } $ 0 $ {call(apply(literal(Quoted "Contract")@2-12;a@13-14)@2-15)@2-15} rest 0
"#;

/// Matches that are statements, or expressions, or the left side of an assignment.
pub const MATCHES: &[u8] = br#"
{ a match { case b => } } $ 0 $ {matches(a@2-3;case(b@17-18=>))@2-23} rest 0
{ a match { case b => } = c } $ 0 $ {assign(match(a@2-3;case(b@17-18=>))@2-23=c@26-27)@2-27} rest 0
{ a match { case b => }; = c } $ 0 $ {assign(match(a@2-3;case(b@17-18=>))@2-23=c@27-28)@2-28} rest 0
{ a match { case b => } = c = d } $ 0 $ G1 at 28
{ a match { case b => } c } $ 0 $ G1 at 24
{ a match { case b => }; c } $ 0 $ {matches(a@2-3;case(b@17-18=>))@2-23;call(c@25-26)@25-26} rest 0
{ (a match { case b => }) } $ 0 $ {call(paren(match(a@3-4;case(b@18-19=>))@3-24)@2-25)@2-25} rest 0
{ (a match { case b => }) = c } $ 0 $ {assign(paren(match(a@3-4;case(b@18-19=>))@3-24)@2-25=c@28-29)@2-29} rest 0
{ (a match { case b => }).c = d } $ 0 $ {assign(select(paren(match(a@3-4;case(b@18-19=>))@3-24)@2-25 c)@2-27=d@30-31)@2-31} rest 0
{ (a match { case b => }) match { case c => } } $ 0 $ {matches(paren(match(a@3-4;case(b@18-19=>))@3-24)@2-25;case(c@39-40=>))@2-45} rest 0
{ a = b match { case c => } } $ 0 $ {assign(a@2-3=match(b@6-7;case(c@21-22=>))@6-27)@2-27} rest 0
{ a = b match { case c => } = d } $ 0 $ G1 at 28
{ a = b match { case c => d = e } } $ 0 $ {assign(a@2-3=match(b@6-7;case(c@21-22=>assign(d@26-27=e@30-31)@26-31))@6-33)@2-33} rest 0
{ a match { case b => c = d match { case e => } } } $ 0 $ {matches(a@2-3;case(b@17-18=>assign(c@22-23=match(d@26-27;case(e@41-42=>))@26-47)@22-47))@2-49} rest 0
{ a match { case b => c match { case d => } = e } = f } $ 0 $ {assign(match(a@2-3;case(b@17-18=>assign(match(c@22-23;case(d@37-38=>))@22-43=e@46-47)@22-47))@2-49=f@52-53)@2-53} rest 0
{ a match { case b => } match { case c => } } $ 0 $ G1 at 24
{ a match { case b => } == c } $ 0 $ G1 at 24
{ a match { case b => } }; c $ 0 $ {matches(a@2-3;case(b@17-18=>))@2-23} rest 2
{ a(b match { case c => }) match { case d => } } $ 0 $ {matches(apply(a@2-3;match(b@4-5;case(c@19-20=>))@4-25)@2-26;case(d@40-41=>))@2-46} rest 0
{ a match { case b => return } } $ 0 $ {matches(a@2-3;case(b@17-18=>return()@22-28))@2-30} rest 0
{ a match { case b => return case c => return d } } $ 0 $ {matches(a@2-3;case(b@17-18=>return()@22-28) case(c@34-35=>return(d@46-47)@39-47))@2-49} rest 0
{ a match { case b => return; case c => } } $ 0 $ {matches(a@2-3;case(b@17-18=>return()@22-28) case(c@35-36=>))@2-41} rest 0
{ val a = b match { case c => }; d match { case e => } } $ 0 $ {val(a=match(b@10-11;case(c@25-26=>))@10-31)@2-31;matches(d@33-34;case(e@48-49=>))@33-54} rest 0
{ return a match { case b => } = c } $ 0 $ G1 at 31
{ while (a match { case b => }) { c match { case d => } } } $ 0 $ {while(match(a@9-10;case(b@24-25=>))@9-30 {matches(c@34-35;case(d@49-50=>))@34-55})@2-57} rest 0
{ a match } $ 0 $ G1 at 10
{ a match; { case b => } } $ 0 $ {matches(a@2-3;case(b@18-19=>))@2-24} rest 0
{ a; match { case b => } } $ 0 $ {matches(a@2-3;case(b@18-19=>))@2-24} rest 0
{ a match { case b => c;case d => e; } } $ 0 $ {matches(a@2-3;case(b@17-18=>call(c@22-23)@22-23) case(d@29-30=>call(e@34-35)@34-35))@2-38} rest 0
{ -1 match { case -1 => -1 } } $ 0 $ {matches(literal(-Number 1)@2-4;case(literal(-Number 1)@18-20=>call(literal(-Number 1)@24-26)@24-26))@2-28} rest 0
{ a match { case b => c } else d } $ 0 $ G1 at 26
"#;

/// Words that are names, and lines that end statements.
pub const WORDS: &[u8] = br#"
{ until = to } $ 0 $ {assign(until@2-7=to@10-12)@2-12} rest 0
{ to(until) = until.to } $ 0 $ {assign(apply(to@2-4;until@5-10)@2-11=select(until@14-19 to)@14-22)@2-22} rest 0
{ for (until <- until until until) { until } } $ 0 $ {for(until until@16-21 until until@28-33 {call(until@37-42)@37-42})@2-44} rest 0
{ for (to <- to to to) { to } } $ 0 $ {for(to to@13-15 to to@19-21 {call(to@25-27)@25-27})@2-29} rest 0
{ for (a <- until) { } } $ 0 $ G1 at 17
{ for (a <- until until) { } } $ 0 $ G1 at 23
{ for (a <- until until until until until) { } } $ 0 $ G1 at 30
{ for (a <- b until + c) { } } $ 0 $ G1 at 20
{ for (a <- b + until until c) { } } $ 0 $ {for(a infix(b@12-13 + until@16-21)@12-21 until c@28-29 {})@2-34} rest 0
{ for (a <- (b until c)) { } } $ 0 $ G1 at 15
{ for (a <- b.until until c) { } } $ 0 $ {for(a select(b@12-13 until)@12-19 until c@26-27 {})@2-32} rest 0
{ for (a <- b to.c to d) { } } $ 0 $ G1 at 16
{ for (a <- b to to) { } } $ 0 $ {for(a b@12-13 to to@17-19 {})@2-24} rest 0
{ for (a <- b to until) { } } $ 0 $ {for(a b@12-13 to until@17-22 {})@2-27} rest 0
{ for (a <- b; until c) { } } $ 0 $ {for(a b@12-13 until c@21-22 {})@2-27} rest 0
{ T = F; F(T) = T.F } $ 0 $ {assign(T@2-3=F@6-7)@2-7;assign(apply(F@9-10;T@11-12)@9-13=select(T@16-17 F)@16-19)@9-19} rest 0
{ val until: to = Contract } $ 0 $ {val(until:to@13-15=Contract@18-26)@2-26} rest 0
{ return;a } $ 0 $ {return()@2-8;call(a@9-10)@9-10} rest 0
{ return a;(b) } $ 0 $ {return(a@9-10)@2-10;call(paren(b@12-13)@11-14)@11-14} rest 0
{ return; - 1 } $ 0 $ {return()@2-8;call(literal(-Number 1)@10-13)@10-13} rest 0
{ return - 1 } $ 0 $ {return(literal(-Number 1)@9-12)@2-12} rest 0
{ return (a) } $ 0 $ {return(paren(a@10-11)@9-12)@2-12} rest 0
{ return;= a } $ 0 $ G1 at 9
{ a;- b } $ 0 $ {call(a@2-3)@2-3;call(prefix(- b@6-7)@4-7)@4-7} rest 0
{ a - b } $ 0 $ {call(infix(a@2-3 - b@6-7)@2-7)@2-7} rest 0
{ a -; b } $ 0 $ {call(infix(a@2-3 - b@7-8)@2-8)@2-8} rest 0
{ a;(b) } $ 0 $ {call(a@2-3)@2-3;call(paren(b@5-6)@4-7)@4-7} rest 0
{ a(b);(c) } $ 0 $ {call(apply(a@2-3;b@4-5)@2-6)@2-6;call(paren(c@8-9)@7-10)@7-10} rest 0
{ a;.b } $ 0 $ {call(select(a@2-3 b)@2-6)@2-6} rest 0
{ a;[b] } $ 0 $ {call(given(a@2-3;b@5-6)@2-7)@2-7} rest 0
{ a;{ b } } $ 0 $ G1 at 4
{ a;! b } $ 0 $ {call(a@2-3)@2-3;call(prefix(! b@6-7)@4-7)@4-7} rest 0
{ a;~b; -c } $ 0 $ {call(a@2-3)@2-3;call(prefix(~ b@5-6)@4-6)@4-6;call(prefix(- c@9-10)@8-10)@8-10} rest 0
{ a; + b } $ 0 $ G1 at 5
{ this;this = this } $ 0 $ {call(this()@2-6)@2-6;assign(this()@7-11=this()@14-18)@7-18} rest 0
"#;
