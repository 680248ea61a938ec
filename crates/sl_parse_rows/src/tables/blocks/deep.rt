// Blocks with the room that they need, and with one level less.

/// Blocks with little room.
pub const TIGHT: &[u8] = br#"
{} $ 64 $ {} rest 0
{;;} $ 64 $ {} rest 0
{a} $ 62 $ {call(a@1-2)@1-2} rest 0
{a} $ 63 $ G6 at 1
{ a;b;c } $ 62 $ {call(a@2-3)@2-3;call(b@4-5)@4-5;call(c@6-7)@6-7} rest 0
{ a;b;c } $ 63 $ G6 at 2
{ a(b) } $ 61 $ {call(apply(a@2-3;b@4-5)@2-6)@2-6} rest 0
{ a(b) } $ 62 $ G6 at 3
{ a(b)(c) } $ 60 $ {call(apply(apply(a@2-3;b@4-5)@2-6;c@7-8)@2-9)@2-9} rest 0
{ a(b)(c) } $ 61 $ G6 at 6
{ "a" } $ 62 $ {call(literal(Quoted "a")@2-5)@2-5} rest 0
{ "a" } $ 63 $ G6 at 2
{ this } $ 62 $ {call(this()@2-6)@2-6} rest 0
{ this } $ 63 $ G6 at 2
{ -a } $ 61 $ {call(prefix(- a@3-4)@2-4)@2-4} rest 0
{ -a } $ 62 $ G6 at 3
{ (a) } $ 61 $ {call(paren(a@3-4)@2-5)@2-5} rest 0
{ (a) } $ 62 $ G6 at 2
{ a == b } $ 61 $ {call(infix(a@2-3 == b@7-8)@2-8)@2-8} rest 0
{ a == b } $ 62 $ G6 at 4
{ to } $ 62 $ {call(to@2-4)@2-4} rest 0
{ to } $ 63 $ G6 at 2
{ to.until } $ 61 $ {call(select(to@2-4 until)@2-10)@2-10} rest 0
{ to.until } $ 62 $ G6 at 4
{ val a = b } $ 62 $ {val(a=b@10-11)@2-11} rest 0
{ val a = b } $ 63 $ G6 at 2
{ val a: b = c } $ 62 $ {val(a:b@9-10=c@13-14)@2-14} rest 0
{ val a: b = c } $ 63 $ G6 at 2
{ val a: b.c = d } $ 62 $ {val(a:b.c@9-12=d@15-16)@2-16} rest 0
{ val a: b.c = d } $ 63 $ G6 at 2
{ var a: b[c, d[e]] = f } $ 60 $ {var(a:b[c@11-12,d[e@16-17]@14-18]@9-19=f@22-23)@2-23} rest 0
{ var a: b[c, d[e]] = f } $ 61 $ G6 at 15
{ val until = to } $ 62 $ {val(until=to@14-16)@2-16} rest 0
{ val until = to } $ 63 $ G6 at 2
{ val Invariant: T = 1 } $ 62 $ {val(Invariant:T@17-18=literal(Number 1)@21-22)@2-22} rest 0
{ val Invariant: T = 1 } $ 63 $ G6 at 2
{ val a = -1 } $ 62 $ {val(a=literal(-Number 1)@10-12)@2-12} rest 0
{ val a = -1 } $ 63 $ G6 at 2
{ val a = b + c * d } $ 60 $ {val(a=infix(b@10-11 + infix(c@14-15 * d@18-19)@14-19)@10-19)@2-19} rest 0
{ val a = b + c * d } $ 61 $ G6 at 16
{ val a = b(c = d) } $ 61 $ {val(a=update(b@10-11;c=d@16-17)@10-18)@2-18} rest 0
{ val a = b(c = d) } $ 62 $ G6 at 11
{ val a: Z = if (b) c else d; e } $ 61 $ {val(a:Z@9-10=if(b@17-18,c@20-21,d@27-28)@13-28)@2-28;call(e@30-31)@30-31} rest 0
{ val a: Z = if (b) c else d; e } $ 62 $ G6 at 13
{ val a = b match { case c => d }; e } $ 60 $ {val(a=match(b@10-11;case(c@25-26=>call(d@30-31)@30-31))@10-33)@2-33;call(e@35-36)@35-36} rest 0
{ val a = b match { case c => d }; e } $ 61 $ G6 at 30
{ val a = this } $ 62 $ {val(a=this()@10-14)@2-14} rest 0
{ val a = this } $ 63 $ G6 at 2
{ val a = Contract(b); c } $ 61 $ {val(a=apply(Contract@10-18;b@19-20)@10-21)@2-21;call(c@23-24)@23-24} rest 0
{ val a = Contract(b); c } $ 62 $ G6 at 18
{ val a =; b } $ 62 $ {val(a=b@11-12)@2-12} rest 0
{ val a =; b } $ 63 $ G6 at 2
{ val a:; b = c } $ 62 $ {val(a:b@10-11=c@14-15)@2-15} rest 0
{ val a:; b = c } $ 63 $ G6 at 2
{ val a: b; = c } $ 62 $ {val(a:b@9-10=c@14-15)@2-15} rest 0
{ val a: b; = c } $ 63 $ G6 at 2
{ val a = "b" } $ 62 $ {val(a=literal(Quoted "b")@10-13)@2-13} rest 0
{ val a = "b" } $ 63 $ G6 at 2
{ a = b } $ 62 $ {assign(a@2-3=b@6-7)@2-7} rest 0
{ a = b } $ 63 $ G6 at 2
{ a.b = c } $ 61 $ {assign(select(a@2-3 b)@2-5=c@8-9)@2-9} rest 0
{ a.b = c } $ 62 $ G6 at 3
{ a.b(c).d = e } $ 59 $ {assign(select(apply(select(a@2-3 b)@2-5;c@6-7)@2-8 d)@2-10=e@13-14)@2-14} rest 0
{ a.b(c).d = e } $ 60 $ G6 at 8
{ a(b = c) = d } $ 61 $ {assign(update(a@2-3;b=c@8-9)@2-10=d@13-14)@2-14} rest 0
{ a(b = c) = d } $ 62 $ G6 at 3
{ this.a = b } $ 61 $ {assign(select(this()@2-6 a)@2-8=b@11-12)@2-12} rest 0
{ this.a = b } $ 62 $ G6 at 6
{ "a" = b } $ 62 $ {assign(literal(Quoted "a")@2-5=b@8-9)@2-9} rest 0
{ "a" = b } $ 63 $ G6 at 2
{ -a = b } $ 61 $ {assign(prefix(- a@3-4)@2-4=b@7-8)@2-8} rest 0
{ -a = b } $ 62 $ G6 at 3
{ (a) = b } $ 61 $ {assign(paren(a@3-4)@2-5=b@8-9)@2-9} rest 0
{ (a) = b } $ 62 $ G6 at 2
{ a + b = c } $ 61 $ {assign(infix(a@2-3 + b@6-7)@2-7=c@10-11)@2-11} rest 0
{ a + b = c } $ 62 $ G6 at 4
{ a == b = c } $ 61 $ {assign(infix(a@2-3 == b@7-8)@2-8=c@11-12)@2-12} rest 0
{ a == b = c } $ 62 $ G6 at 4
{ until = to } $ 62 $ {assign(until@2-7=to@10-12)@2-12} rest 0
{ until = to } $ 63 $ G6 at 2
{ Contract = a } $ 62 $ {assign(Contract@2-10=a@13-14)@2-14} rest 0
{ Contract = a } $ 63 $ G6 at 11
{ Contract.a = b } $ 61 $ {assign(select(Contract@2-10 a)@2-12=b@15-16)@2-16} rest 0
{ Contract.a = b } $ 62 $ G6 at 10
{ Contract + a = b } $ 61 $ {assign(infix(Contract@2-10 + a@13-14)@2-14=b@17-18)@2-18} rest 0
{ Contract + a = b } $ 62 $ G6 at 11
{ a = -1 } $ 62 $ {assign(a@2-3=literal(-Number 1)@6-8)@2-8} rest 0
{ a = -1 } $ 63 $ G6 at 2
{ a = b match { case c => } } $ 61 $ {assign(a@2-3=match(b@6-7;case(c@21-22=>))@6-27)@2-27} rest 0
{ a = b match { case c => } } $ 62 $ G6 at 8
{ a = (b) } $ 61 $ {assign(a@2-3=paren(b@7-8)@6-9)@2-9} rest 0
{ a = (b) } $ 62 $ G6 at 6
{ a = Contract(b) } $ 61 $ {assign(a@2-3=apply(Contract@6-14;b@15-16)@6-17)@2-17} rest 0
{ a = Contract(b) } $ 62 $ G6 at 14
{ if (a) b else c = d } $ 61 $ {assign(if(a@6-7,b@9-10,c@16-17)@2-17=d@20-21)@2-21} rest 0
{ if (a) b else c = d } $ 62 $ G6 at 9
{ if (a) b else if (c) d else e = f } $ 60 $ {assign(if(a@6-7,b@9-10,if(c@20-21,d@23-24,e@30-31)@16-31)@2-31=f@34-35)@2-35} rest 0
{ if (a) b else if (c) d else e = f } $ 61 $ G6 at 16
{ if (a) b else c match { case d => } = e } $ 60 $ {assign(if(a@6-7,b@9-10,match(c@16-17;case(d@31-32=>))@16-37)@2-37=e@40-41)@2-41} rest 0
{ if (a) b else c match { case d => } = e } $ 61 $ G6 at 18
{ a match { case b => c = d } = e } $ 60 $ {assign(match(a@2-3;case(b@17-18=>assign(c@22-23=d@26-27)@22-27))@2-29=e@32-33)@2-33} rest 0
{ a match { case b => c = d } = e } $ 61 $ G6 at 30
{ (a match { case b => }) = c } $ 60 $ {assign(paren(match(a@3-4;case(b@18-19=>))@3-24)@2-25=c@28-29)@2-29} rest 0
{ (a match { case b => }) = c } $ 61 $ G6 at 5
{ (if (a) b else c).d = e } $ 59 $ {assign(select(paren(if(a@7-8,b@10-11,c@17-18)@3-18)@2-19 d)@2-21=e@24-25)@2-25} rest 0
{ (if (a) b else c).d = e } $ 60 $ G6 at 19
{ a match { case b => } = c match { case d => } } $ 61 $ {assign(match(a@2-3;case(b@17-18=>))@2-23=match(c@26-27;case(d@41-42=>))@26-47)@2-47} rest 0
{ a match { case b => } = c match { case d => } } $ 62 $ G6 at 24
{ a =; b } $ 62 $ {assign(a@2-3=b@7-8)@2-8} rest 0
{ a =; b } $ 63 $ G6 at 2
{ a match { case b => }; = c } $ 61 $ {assign(match(a@2-3;case(b@17-18=>))@2-23=c@27-28)@2-28} rest 0
{ a match { case b => }; = c } $ 62 $ G6 at 25
{ if (a) { } } $ 62 $ {ifs(a@6-7 {})@2-12} rest 0
{ if (a) { } } $ 63 $ G6 at 2
{ if (a) { b } } $ 61 $ {ifs(a@6-7 {call(b@11-12)@11-12})@2-14} rest 0
{ if (a) { b } } $ 62 $ G6 at 11
{ if (a) { } else { } } $ 62 $ {ifs(a@6-7 {} {})@2-21} rest 0
{ if (a) { } else { } } $ 63 $ G6 at 2
{ if (a) { } else if (b) { } } $ 61 $ {ifs(a@6-7 {} ifs(b@22-23 {})@18-28)@2-28} rest 0
{ if (a) { } else if (b) { } } $ 62 $ G6 at 18
{ if (a) { } else if (b) { } else if (c) { } } $ 60 $ {ifs(a@6-7 {} ifs(b@22-23 {} ifs(c@38-39 {})@34-44)@18-44)@2-44} rest 0
{ if (a) { } else if (b) { } else if (c) { } } $ 61 $ G6 at 34
{ if (a) { }; b } $ 62 $ {ifs(a@6-7 {})@2-12;call(b@14-15)@14-15} rest 0
{ if (a) { }; b } $ 63 $ G6 at 2
{ if (a) { } else if (b) { }; c } $ 61 $ {ifs(a@6-7 {} ifs(b@22-23 {})@18-28)@2-28;call(c@30-31)@30-31} rest 0
{ if (a) { } else if (b) { }; c } $ 62 $ G6 at 18
{ if (a) { if (b) { } else { } } else { } } $ 61 $ {ifs(a@6-7 {ifs(b@15-16 {} {})@11-30} {})@2-41} rest 0
{ if (a) { if (b) { } else { } } else { } } $ 62 $ G6 at 11
{ if (if (a) b else c) { } } $ 61 $ {ifs(if(a@10-11,b@13-14,c@20-21)@6-21 {})@2-26} rest 0
{ if (if (a) b else c) { } } $ 62 $ G6 at 6
{ if ((a)) { } } $ 61 $ {ifs(paren(a@7-8)@6-9 {})@2-14} rest 0
{ if ((a)) { } } $ 62 $ G6 at 6
{ if (a) { }; else { } } $ 62 $ {ifs(a@6-7 {} {})@2-22} rest 0
{ if (a) { }; else { } } $ 63 $ G6 at 2
{ if (a); { } } $ 62 $ {ifs(a@6-7 {})@2-13} rest 0
{ if (a); { } } $ 63 $ G6 at 2
{ if (a) b else c } $ 61 $ {call(if(a@6-7,b@9-10,c@16-17)@2-17)@2-17} rest 0
{ if (a) b else c } $ 62 $ G6 at 9
{ if (a) (b) else (c) } $ 60 $ {call(if(a@6-7,paren(b@10-11)@9-12,paren(c@19-20)@18-21)@2-21)@2-21} rest 0
{ if (a) (b) else (c) } $ 61 $ G6 at 9
{ if (a) if (b) c else d else e } $ 60 $ {call(if(a@6-7,if(b@13-14,c@16-17,d@23-24)@9-24,e@30-31)@2-31)@2-31} rest 0
{ if (a) if (b) c else d else e } $ 61 $ G6 at 9
{ if (a) b else c match { case d => } } $ 60 $ {call(if(a@6-7,b@9-10,match(c@16-17;case(d@31-32=>))@16-37)@2-37)@2-37} rest 0
{ if (a) b else c match { case d => } } $ 61 $ G6 at 18
{ if (a) l"b" else l"c" } $ 61 $ {call(if(a@6-7,literal(Prefixed l"b")@9-13,literal(Prefixed l"c")@19-23)@2-23)@2-23} rest 0
{ if (a) l"b" else l"c" } $ 62 $ G6 at 9
{ if (a) b else Contract(c) } $ 60 $ {call(if(a@6-7,b@9-10,apply(Contract@16-24;c@25-26)@16-27)@2-27)@2-27} rest 0
{ if (a) b else Contract(c) } $ 61 $ G6 at 24
{ if (a) { } ; if (b) { } } $ 62 $ {ifs(a@6-7 {})@2-12;ifs(b@19-20 {})@15-25} rest 0
{ if (a) { } ; if (b) { } } $ 63 $ G6 at 2
{ while (a) { } } $ 62 $ {while(a@9-10 {})@2-15} rest 0
{ while (a) { } } $ 63 $ G6 at 2
{ while (a) { b } } $ 61 $ {while(a@9-10 {call(b@14-15)@14-15})@2-17} rest 0
{ while (a) { b } } $ 62 $ G6 at 14
{ while (a) { while (b) { } } } $ 61 $ {while(a@9-10 {while(b@21-22 {})@14-27})@2-29} rest 0
{ while (a) { while (b) { } } } $ 62 $ G6 at 14
{ while (if (a) b else c) { } } $ 61 $ {while(if(a@13-14,b@16-17,c@23-24)@9-24 {})@2-29} rest 0
{ while (if (a) b else c) { } } $ 62 $ G6 at 9
{ while (a) { }; b } $ 62 $ {while(a@9-10 {})@2-15;call(b@17-18)@17-18} rest 0
{ while (a) { }; b } $ 63 $ G6 at 2
{ while; (a) { } } $ 62 $ {while(a@10-11 {})@2-16} rest 0
{ while; (a) { } } $ 63 $ G6 at 2
{ while (l"a") { } } $ 62 $ {while(literal(Prefixed l"a")@9-13 {})@2-18} rest 0
{ while (l"a") { } } $ 63 $ G6 at 2
{ for (a <- b until c) { } } $ 62 $ {for(a b@12-13 until c@20-21 {})@2-26} rest 0
{ for (a <- b until c) { } } $ 63 $ G6 at 2
{ for(a<-b until c){} } $ 62 $ {for(a b@9-10 until c@17-18 {})@2-21} rest 0
{ for(a<-b until c){} } $ 63 $ G6 at 2
{ for (a <- b until c) { d; e } } $ 61 $ {for(a b@12-13 until c@20-21 {call(d@25-26)@25-26;call(e@28-29)@28-29})@2-31} rest 0
{ for (a <- b until c) { d; e } } $ 62 $ G6 at 25
{ for (a <- -1 to -b) { } } $ 61 $ {for(a literal(-Number 1)@12-14 to prefix(- b@19-20)@18-20 {})@2-25} rest 0
{ for (a <- -1 to -b) { } } $ 62 $ G6 at 19
{ for (a <- to to to) { } } $ 62 $ {for(a to@12-14 to to@18-20 {})@2-25} rest 0
{ for (a <- to to to) { } } $ 63 $ G6 at 2
{ for (to <- to until until) { } } $ 62 $ {for(to to@13-15 until until@22-27 {})@2-32} rest 0
{ for (to <- to until until) { } } $ 63 $ G6 at 2
{ for (T <- a until b) { } } $ 62 $ {for(T a@12-13 until b@20-21 {})@2-26} rest 0
{ for (T <- a until b) { } } $ 63 $ G6 at 2
{ for (a <- if (b) c else d until e) { } } $ 61 $ {for(a if(b@16-17,c@19-20,d@26-27)@12-27 until e@34-35 {})@2-40} rest 0
{ for (a <- if (b) c else d until e) { } } $ 62 $ G6 at 12
{ for (a <- b match { case c => } until d) { } } $ 61 $ {for(a match(b@12-13;case(c@27-28=>))@12-33 until d@40-41 {})@2-46} rest 0
{ for (a <- b match { case c => } until d) { } } $ 62 $ G6 at 14
{ for (a <- (b) until (c)) { } } $ 61 $ {for(a paren(b@13-14)@12-15 until paren(c@23-24)@22-25 {})@2-30} rest 0
{ for (a <- (b) until (c)) { } } $ 62 $ G6 at 12
{ for (a <- b until c) { }; d } $ 62 $ {for(a b@12-13 until c@20-21 {})@2-26;call(d@28-29)@28-29} rest 0
{ for (a <- b until c) { }; d } $ 63 $ G6 at 2
{ for (a <- b until c); { } } $ 62 $ {for(a b@12-13 until c@20-21 {})@2-27} rest 0
{ for (a <- b until c); { } } $ 63 $ G6 at 2
{ return } $ 63 $ {return()@2-8} rest 0
{ return } $ 64 $ G6 at 2
{ return; a } $ 62 $ {return()@2-8;call(a@10-11)@10-11} rest 0
{ return; a } $ 63 $ G6 at 10
{ return a } $ 62 $ {return(a@9-10)@2-10} rest 0
{ return a } $ 63 $ G6 at 9
{ return -1 } $ 62 $ {return(literal(-Number 1)@9-11)@2-11} rest 0
{ return -1 } $ 63 $ G6 at 9
{ return (a) } $ 61 $ {return(paren(a@10-11)@9-12)@2-12} rest 0
{ return (a) } $ 62 $ G6 at 9
{ return if (a) b else c } $ 61 $ {return(if(a@13-14,b@16-17,c@23-24)@9-24)@2-24} rest 0
{ return if (a) b else c } $ 62 $ G6 at 9
{ return a match { case b => c }; d } $ 60 $ {return(match(a@9-10;case(b@24-25=>call(c@29-30)@29-30))@9-32)@2-32;call(d@34-35)@34-35} rest 0
{ return a match { case b => c }; d } $ 61 $ G6 at 29
{ return T } $ 62 $ {return(T@9-10)@2-10} rest 0
{ return T } $ 63 $ G6 at 9
{ return Contract } $ 62 $ {return(Contract@9-17)@2-17} rest 0
{ return Contract } $ 63 $ G6 at 9
{ return l"a" } $ 62 $ {return(literal(Prefixed l"a")@9-13)@2-13} rest 0
{ return l"a" } $ 63 $ G6 at 9
{ return a(b = c) } $ 61 $ {return(update(a@9-10;b=c@15-16)@9-17)@2-17} rest 0
{ return a(b = c) } $ 62 $ G6 at 10
{ if (a) { return } } $ 62 $ {ifs(a@6-7 {return()@11-17})@2-19} rest 0
{ if (a) { return } } $ 63 $ G6 at 2
{ return;(a) } $ 61 $ {return()@2-8;call(paren(a@10-11)@9-12)@9-12} rest 0
{ return;(a) } $ 62 $ G6 at 9
{ a match { case b => } } $ 62 $ {matches(a@2-3;case(b@17-18=>))@2-23} rest 0
{ a match { case b => } } $ 63 $ G6 at 2
{ a match { case b => c; d } } $ 61 $ {matches(a@2-3;case(b@17-18=>call(c@22-23)@22-23;call(d@25-26)@25-26))@2-28} rest 0
{ a match { case b => c; d } } $ 62 $ G6 at 22
{ a match { case b => }; c } $ 62 $ {matches(a@2-3;case(b@17-18=>))@2-23;call(c@25-26)@25-26} rest 0
{ a match { case b => }; c } $ 63 $ G6 at 2
{ a.b(c) match { case d => } } $ 60 $ {matches(apply(select(a@2-3 b)@2-5;c@6-7)@2-8;case(d@22-23=>))@2-28} rest 0
{ a.b(c) match { case d => } } $ 61 $ G6 at 5
{ (a) match { case b => } } $ 61 $ {matches(paren(a@3-4)@2-5;case(b@19-20=>))@2-25} rest 0
{ (a) match { case b => } } $ 62 $ G6 at 2
{ (a match { case b => }).c } $ 59 $ {call(select(paren(match(a@3-4;case(b@18-19=>))@3-24)@2-25 c)@2-27)@2-27} rest 0
{ (a match { case b => }).c } $ 60 $ G6 at 25
{ (a match { case b => c match { case d => } }) } $ 59 $ {call(paren(match(a@3-4;case(b@18-19=>matches(c@23-24;case(d@38-39=>))@23-44))@3-46)@2-47)@2-47} rest 0
{ (a match { case b => c match { case d => } }) } $ 60 $ G6 at 23
{ a match { case b if c => d } } $ 61 $ {matches(a@2-3;case(b@17-18 if c@22-23=>call(d@27-28)@27-28))@2-30} rest 0
{ a match { case b if c => d } } $ 62 $ G6 at 27
{ this match { case a => } } $ 62 $ {matches(this()@2-6;case(a@20-21=>))@2-26} rest 0
{ this match { case a => } } $ 63 $ G6 at 2
{ until match { case to => } } $ 62 $ {matches(until@2-7;case(to@21-23=>))@2-28} rest 0
{ until match { case to => } } $ 63 $ G6 at 2
{ Contract.a match { case b => } } $ 61 $ {matches(select(Contract@2-10 a)@2-12;case(b@26-27=>))@2-32} rest 0
{ Contract.a match { case b => } } $ 62 $ G6 at 10
{ a match { case b => if (c) { } else { } case d => while (e) { } case f => for (g <- h to i) { } } } $ 61 $ {matches(a@2-3;case(b@17-18=>ifs(c@26-27 {} {})@22-41) case(d@47-48=>while(e@59-60 {})@52-65) case(f@71-72=>for(g h@86-87 to i@91-92 {})@76-97))@2-99} rest 0
{ a match { case b => if (c) { } else { } case d => while (e) { } case f => for (g <- h to i) { } } } $ 62 $ G6 at 22
{ a match { case b => Contract(c) case d => l"e" case f => Invariant } } $ 61 $ {matches(a@2-3;case(b@17-18=>skip(Ident Contract,Mark (,Ident c,Mark ))@22-33) case(d@39-40=>skip(Prefixed l"e")@44-48) case(f@54-55=>call(Invariant@59-68)@59-68))@2-70} rest 0
{ a match { case b => Contract(c) case d => l"e" case f => Invariant } } $ 62 $ G6 at 69
{ T match { case T => F } } $ 61 $ {matches(T@2-3;case(literal(Ident T)@17-18=>call(F@22-23)@22-23))@2-25} rest 0
{ T match { case T => F } } $ 62 $ G6 at 22
{ Contract() } $ 63 $ {skip(Ident Contract,Mark (,Mark ))@2-12} rest 0
{ Contract() } $ 64 $ G6 at 2
{ Contract(a, b) } $ 63 $ {skip(Ident Contract,Mark (,Ident a,Mark ,,Ident b,Mark ))@2-16} rest 0
{ Contract(a, b) } $ 64 $ G6 at 2
{ Contract(a b c) } $ 63 $ {skip(Ident Contract,Mark (,Ident a,Ident b,Ident c,Mark ))@2-17} rest 0
{ Contract(a b c) } $ 64 $ G6 at 2
{ Contract({ a; b }) } $ 63 $ {skip(Ident Contract,Mark (,Mark {,Ident a,Separator ,Ident b,Mark },Mark ))@2-20} rest 0
{ Contract({ a; b }) } $ 64 $ G6 at 2
{ Contract(,) } $ 63 $ {skip(Ident Contract,Mark (,Mark ,,Mark ))@2-13} rest 0
{ Contract(,) } $ 64 $ G6 at 2
{ Contract(case a => b) } $ 63 $ {skip(Ident Contract,Mark (,Word case,Ident a,Mark =>,Ident b,Mark ))@2-23} rest 0
{ Contract(case a => b) } $ 64 $ G6 at 2
{ Contract(+ - * / ! ~ # ? ::) } $ 63 $ {skip(Ident Contract,Mark (,Operator +,Operator -,Operator *,Operator /,Operator !,Operator ~,Operator #,Operator ?,Operator ::,Mark ))@2-30} rest 0
{ Contract(+ - * / ! ~ # ? ::) } $ 64 $ G6 at 2
{ Invariant(a); Contract(b) } $ 63 $ {skip(Ident Invariant,Mark (,Ident a,Mark ))@2-14;skip(Ident Contract,Mark (,Ident b,Mark ))@16-27} rest 0
{ Invariant(a); Contract(b) } $ 64 $ G6 at 2
{ Contract; a } $ 62 $ {call(Contract@2-10)@2-10;call(a@12-13)@12-13} rest 0
{ Contract; a } $ 63 $ G6 at 10
{ Contract[a] } $ 61 $ {call(given(Contract@2-10;a@11-12)@2-13)@2-13} rest 0
{ Contract[a] } $ 62 $ G6 at 10
{ a + Contract(b) } $ 60 $ {call(infix(a@2-3 + apply(Contract@6-14;b@15-16)@6-17)@2-17)@2-17} rest 0
{ a + Contract(b) } $ 61 $ G6 at 14
{ a(Contract(b)) } $ 60 $ {call(apply(a@2-3;apply(Contract@4-12;b@13-14)@4-15)@2-16)@2-16} rest 0
{ a(Contract(b)) } $ 61 $ G6 at 12
{ l"a"; l"b" } $ 63 $ {skip(Prefixed l"a")@2-6;skip(Prefixed l"b")@8-12} rest 0
{ l"a"; l"b" } $ 64 $ G6 at 2
{ a + l"b" } $ 61 $ {call(infix(a@2-3 + literal(Prefixed l"b")@6-10)@2-10)@2-10} rest 0
{ a + l"b" } $ 62 $ G6 at 4
{ l = a } $ 62 $ {assign(l@2-3=a@6-7)@2-7} rest 0
{ l = a } $ 63 $ G6 at 2
{ s"a" = b } $ 62 $ {assign(literal(Prefixed s"a")@2-6=b@9-10)@2-10} rest 0
{ s"a" = b } $ 63 $ G6 at 2
"#;
