// Each form of statements, in a block, with its tree.

/// Blocks, and expressions that are statements.
pub const CALLS: &[u8] = br#"
{} $ 0 $ {} rest 0
{ } $ 0 $ {} rest 0
{;} $ 0 $ {} rest 0
{;;} $ 0 $ {} rest 0
{ // a;} $ 0 $ {} rest 0
{ a } $ 0 $ {call(a@2-3)@2-3} rest 0
{a} $ 0 $ {call(a@1-2)@1-2} rest 0
{;a;} $ 0 $ {call(a@2-3)@2-3} rest 0
{ a; b } $ 0 $ {call(a@2-3)@2-3;call(b@5-6)@5-6} rest 0
{ a;b;c } $ 0 $ {call(a@2-3)@2-3;call(b@4-5)@4-5;call(c@6-7)@6-7} rest 0
{ a;;b } $ 0 $ {call(a@2-3)@2-3;call(b@5-6)@5-6} rest 0
{ a() } $ 0 $ {call(apply(a@2-3)@2-5)@2-5} rest 0
{ a(b) } $ 0 $ {call(apply(a@2-3;b@4-5)@2-6)@2-6} rest 0
{ a.b(c) } $ 0 $ {call(apply(select(a@2-3 b)@2-5;c@6-7)@2-8)@2-8} rest 0
{ a[b](c) } $ 0 $ {call(apply(given(a@2-3;b@4-5)@2-6;c@7-8)@2-9)@2-9} rest 0
{ a(b)(c) } $ 0 $ {call(apply(apply(a@2-3;b@4-5)@2-6;c@7-8)@2-9)@2-9} rest 0
{ a(b = c) } $ 0 $ {call(update(a@2-3;b=c@8-9)@2-10)@2-10} rest 0
{ 1 } $ 0 $ {call(literal(Number 1)@2-3)@2-3} rest 0
{ "a" } $ 0 $ {call(literal(Quoted "a")@2-5)@2-5} rest 0
{ 'a' } $ 0 $ {call(literal(Letter 'a')@2-5)@2-5} rest 0
{ s"a" } $ 0 $ {call(literal(Prefixed s"a")@2-6)@2-6} rest 0
{ this } $ 0 $ {call(this()@2-6)@2-6} rest 0
{ T } $ 0 $ {call(T@2-3)@2-3} rest 0
{ -1 } $ 0 $ {call(literal(-Number 1)@2-4)@2-4} rest 0
{ -a } $ 0 $ {call(prefix(- a@3-4)@2-4)@2-4} rest 0
{ !a } $ 0 $ {call(prefix(! a@3-4)@2-4)@2-4} rest 0
{ ~a } $ 0 $ {call(prefix(~ a@3-4)@2-4)@2-4} rest 0
{ (a) } $ 0 $ {call(paren(a@3-4)@2-5)@2-5} rest 0
{ (a)(b) } $ 0 $ {call(apply(paren(a@3-4)@2-5;b@6-7)@2-8)@2-8} rest 0
{ a + b } $ 0 $ {call(infix(a@2-3 + b@6-7)@2-7)@2-7} rest 0
{ a == b } $ 0 $ {call(infix(a@2-3 == b@7-8)@2-8)@2-8} rest 0
{ a.b } $ 0 $ {call(select(a@2-3 b)@2-5)@2-5} rest 0
{ until } $ 0 $ {call(until@2-7)@2-7} rest 0
{ to } $ 0 $ {call(to@2-4)@2-4} rest 0
{ until to } $ 0 $ G1 at 8
{ until(to) } $ 0 $ {call(apply(until@2-7;to@8-10)@2-11)@2-11} rest 0
{ to.until } $ 0 $ {call(select(to@2-4 until)@2-10)@2-10} rest 0
"#;

/// `val` and `var`.
pub const DECLARED: &[u8] = br#"
{ val a = b } $ 0 $ {val(a=b@10-11)@2-11} rest 0
{ var a = b } $ 0 $ {var(a=b@10-11)@2-11} rest 0
{ val a: b = c } $ 0 $ {val(a:b@9-10=c@13-14)@2-14} rest 0
{ var a: b = c } $ 0 $ {var(a:b@9-10=c@13-14)@2-14} rest 0
{ val a: b.c = d } $ 0 $ {val(a:b.c@9-12=d@15-16)@2-16} rest 0
{ val a: b[c] = d } $ 0 $ {val(a:b[c@11-12]@9-13=d@16-17)@2-17} rest 0
{ var a: b[c, d[e]] = f } $ 0 $ {var(a:b[c@11-12,d[e@16-17]@14-18]@9-19=f@22-23)@2-23} rest 0
{ val T = F } $ 0 $ {val(T=F@10-11)@2-11} rest 0
{ val until = to } $ 0 $ {val(until=to@14-16)@2-16} rest 0
{ var Contract = 1 } $ 0 $ {var(Contract=literal(Number 1)@17-18)@2-18} rest 0
{ val Invariant: T = 1 } $ 0 $ {val(Invariant:T@17-18=literal(Number 1)@21-22)@2-22} rest 0
{ val l = l"a" } $ 0 $ {val(l=literal(Prefixed l"a")@10-14)@2-14} rest 0
{ val a = -1 } $ 0 $ {val(a=literal(-Number 1)@10-12)@2-12} rest 0
{ val a = - b } $ 0 $ {val(a=prefix(- b@12-13)@10-13)@2-13} rest 0
{ val a = b + c * d } $ 0 $ {val(a=infix(b@10-11 + infix(c@14-15 * d@18-19)@14-19)@10-19)@2-19} rest 0
{ val a = b(c) } $ 0 $ {val(a=apply(b@10-11;c@12-13)@10-14)@2-14} rest 0
{ val a = b(c = d) } $ 0 $ {val(a=update(b@10-11;c=d@16-17)@10-18)@2-18} rest 0
{ val a = if (b) c else d } $ 0 $ {val(a=if(b@14-15,c@17-18,d@24-25)@10-25)@2-25} rest 0
{ val a: Z = if (b) c else d; e } $ 0 $ {val(a:Z@9-10=if(b@17-18,c@20-21,d@27-28)@13-28)@2-28;call(e@30-31)@30-31} rest 0
{ val a = b match { case c => } } $ 0 $ {val(a=match(b@10-11;case(c@25-26=>))@10-31)@2-31} rest 0
{ val a = b match { case c => d }; e } $ 0 $ {val(a=match(b@10-11;case(c@25-26=>call(d@30-31)@30-31))@10-33)@2-33;call(e@35-36)@35-36} rest 0
{ val a = (b) } $ 0 $ {val(a=paren(b@11-12)@10-13)@2-13} rest 0
{ val a = this } $ 0 $ {val(a=this()@10-14)@2-14} rest 0
{ val a = Contract(b) } $ 0 $ {val(a=apply(Contract@10-18;b@19-20)@10-21)@2-21} rest 0
{ val a = Contract(b); c } $ 0 $ {val(a=apply(Contract@10-18;b@19-20)@10-21)@2-21;call(c@23-24)@23-24} rest 0
{ val a = b; var c = d } $ 0 $ {val(a=b@10-11)@2-11;var(c=d@21-22)@13-22} rest 0
{ val a =; b } $ 0 $ {val(a=b@11-12)@2-12} rest 0
{ val; a = b } $ 0 $ {val(a=b@11-12)@2-12} rest 0
{ val a:; b = c } $ 0 $ {val(a:b@10-11=c@14-15)@2-15} rest 0
{ val a; : b; = c } $ 0 $ {val(a:b@11-12=c@16-17)@2-17} rest 0
{ val a: b; = c } $ 0 $ {val(a:b@9-10=c@14-15)@2-15} rest 0
{ val a = b == c } $ 0 $ {val(a=infix(b@10-11 == c@15-16)@10-16)@2-16} rest 0
{ val a = "b" } $ 0 $ {val(a=literal(Quoted "b")@10-13)@2-13} rest 0
{ var a = l"b"; c } $ 0 $ {var(a=literal(Prefixed l"b")@10-14)@2-14;call(c@16-17)@16-17} rest 0
"#;

/// Assignments.
pub const ASSIGNED: &[u8] = br#"
{ a = b } $ 0 $ {assign(a@2-3=b@6-7)@2-7} rest 0
{ a = b; c = d } $ 0 $ {assign(a@2-3=b@6-7)@2-7;assign(c@9-10=d@13-14)@9-14} rest 0
{ a.b = c } $ 0 $ {assign(select(a@2-3 b)@2-5=c@8-9)@2-9} rest 0
{ a(b) = c } $ 0 $ {assign(apply(a@2-3;b@4-5)@2-6=c@9-10)@2-10} rest 0
{ a.b(c).d = e } $ 0 $ {assign(select(apply(select(a@2-3 b)@2-5;c@6-7)@2-8 d)@2-10=e@13-14)@2-14} rest 0
{ a[b] = c } $ 0 $ {assign(given(a@2-3;b@4-5)@2-6=c@9-10)@2-10} rest 0
{ a(b = c) = d } $ 0 $ {assign(update(a@2-3;b=c@8-9)@2-10=d@13-14)@2-14} rest 0
{ this = a } $ 0 $ {assign(this()@2-6=a@9-10)@2-10} rest 0
{ this.a = b } $ 0 $ {assign(select(this()@2-6 a)@2-8=b@11-12)@2-12} rest 0
{ 1 = a } $ 0 $ {assign(literal(Number 1)@2-3=a@6-7)@2-7} rest 0
{ "a" = b } $ 0 $ {assign(literal(Quoted "a")@2-5=b@8-9)@2-9} rest 0
{ -1 = a } $ 0 $ {assign(literal(-Number 1)@2-4=a@7-8)@2-8} rest 0
{ -a = b } $ 0 $ {assign(prefix(- a@3-4)@2-4=b@7-8)@2-8} rest 0
{ !a = b } $ 0 $ {assign(prefix(! a@3-4)@2-4=b@7-8)@2-8} rest 0
{ (a) = b } $ 0 $ {assign(paren(a@3-4)@2-5=b@8-9)@2-9} rest 0
{ (a).b = c } $ 0 $ {assign(select(paren(a@3-4)@2-5 b)@2-7=c@10-11)@2-11} rest 0
{ a + b = c } $ 0 $ {assign(infix(a@2-3 + b@6-7)@2-7=c@10-11)@2-11} rest 0
{ a + b * c = d * e + f } $ 0 $ {assign(infix(a@2-3 + infix(b@6-7 * c@10-11)@6-11)@2-11=infix(infix(d@14-15 * e@18-19)@14-19 + f@22-23)@14-23)@2-23} rest 0
{ a == b = c } $ 0 $ {assign(infix(a@2-3 == b@7-8)@2-8=c@11-12)@2-12} rest 0
{ T = F } $ 0 $ {assign(T@2-3=F@6-7)@2-7} rest 0
{ until = to } $ 0 $ {assign(until@2-7=to@10-12)@2-12} rest 0
{ to = until } $ 0 $ {assign(to@2-4=until@7-12)@2-12} rest 0
{ Contract = a } $ 0 $ {assign(Contract@2-10=a@13-14)@2-14} rest 0
{ Invariant = Contract } $ 0 $ {assign(Invariant@2-11=Contract@14-22)@2-22} rest 0
{ Contract.a = b } $ 0 $ {assign(select(Contract@2-10 a)@2-12=b@15-16)@2-16} rest 0
{ Contract[a] = b } $ 0 $ {assign(given(Contract@2-10;a@11-12)@2-13=b@16-17)@2-17} rest 0
{ Contract + a = b } $ 0 $ {assign(infix(Contract@2-10 + a@13-14)@2-14=b@17-18)@2-18} rest 0
{ l = a } $ 0 $ {assign(l@2-3=a@6-7)@2-7} rest 0
{ a = -1 } $ 0 $ {assign(a@2-3=literal(-Number 1)@6-8)@2-8} rest 0
{ a = if (b) c else d } $ 0 $ {assign(a@2-3=if(b@10-11,c@13-14,d@20-21)@6-21)@2-21} rest 0
{ a = b match { case c => } } $ 0 $ {assign(a@2-3=match(b@6-7;case(c@21-22=>))@6-27)@2-27} rest 0
{ a = b match { case c => }; d } $ 0 $ {assign(a@2-3=match(b@6-7;case(c@21-22=>))@6-27)@2-27;call(d@29-30)@29-30} rest 0
{ a = (b) } $ 0 $ {assign(a@2-3=paren(b@7-8)@6-9)@2-9} rest 0
{ a = l"b" } $ 0 $ {assign(a@2-3=literal(Prefixed l"b")@6-10)@2-10} rest 0
{ a = Contract(b) } $ 0 $ {assign(a@2-3=apply(Contract@6-14;b@15-16)@6-17)@2-17} rest 0
{ a = this } $ 0 $ {assign(a@2-3=this()@6-10)@2-10} rest 0
{ if (a) b else c = d } $ 0 $ {assign(if(a@6-7,b@9-10,c@16-17)@2-17=d@20-21)@2-21} rest 0
{ if (a) b else c = d; e } $ 0 $ {assign(if(a@6-7,b@9-10,c@16-17)@2-17=d@20-21)@2-21;call(e@23-24)@23-24} rest 0
{ if (a) b else if (c) d else e = f } $ 0 $ {assign(if(a@6-7,b@9-10,if(c@20-21,d@23-24,e@30-31)@16-31)@2-31=f@34-35)@2-35} rest 0
{ if (a) b + c else d.e = f } $ 0 $ {assign(if(a@6-7,infix(b@9-10 + c@13-14)@9-14,select(d@20-21 e)@20-23)@2-23=f@26-27)@2-27} rest 0
{ if (a) b else c match { case d => } = e } $ 0 $ {assign(if(a@6-7,b@9-10,match(c@16-17;case(d@31-32=>))@16-37)@2-37=e@40-41)@2-41} rest 0
{ a match { case b => } = c } $ 0 $ {assign(match(a@2-3;case(b@17-18=>))@2-23=c@26-27)@2-27} rest 0
{ a match { case b => c = d } = e } $ 0 $ {assign(match(a@2-3;case(b@17-18=>assign(c@22-23=d@26-27)@22-27))@2-29=e@32-33)@2-33} rest 0
{ a + b match { case c => } = d } $ 0 $ {assign(match(infix(a@2-3 + b@6-7)@2-7;case(c@21-22=>))@2-27=d@30-31)@2-31} rest 0
{ (a match { case b => }) = c } $ 0 $ {assign(paren(match(a@3-4;case(b@18-19=>))@3-24)@2-25=c@28-29)@2-29} rest 0
{ (if (a) b else c) = d } $ 0 $ {assign(paren(if(a@7-8,b@10-11,c@17-18)@3-18)@2-19=d@22-23)@2-23} rest 0
{ (if (a) b else c).d = e } $ 0 $ {assign(select(paren(if(a@7-8,b@10-11,c@17-18)@3-18)@2-19 d)@2-21=e@24-25)@2-25} rest 0
{ a = if (b) c else d match { case e => } } $ 0 $ {assign(a@2-3=if(b@10-11,c@13-14,match(d@20-21;case(e@35-36=>))@20-41)@6-41)@2-41} rest 0
{ a match { case b => } = c match { case d => } } $ 0 $ {assign(match(a@2-3;case(b@17-18=>))@2-23=match(c@26-27;case(d@41-42=>))@26-47)@2-47} rest 0
{ a; = b } $ 0 $ {assign(a@2-3=b@7-8)@2-8} rest 0
{ a =; b } $ 0 $ {assign(a@2-3=b@7-8)@2-8} rest 0
{ if (a) b else c; = d } $ 0 $ {assign(if(a@6-7,b@9-10,c@16-17)@2-17=d@21-22)@2-22} rest 0
{ a match { case b => }; = c } $ 0 $ {assign(match(a@2-3;case(b@17-18=>))@2-23=c@27-28)@2-28} rest 0
"#;

/// What begins with `if`.
pub const IFS: &[u8] = br#"
{ if (a) { } } $ 0 $ {ifs(a@6-7 {})@2-12} rest 0
{ if(a){} } $ 0 $ {ifs(a@5-6 {})@2-9} rest 0
{ if (a) { b } } $ 0 $ {ifs(a@6-7 {call(b@11-12)@11-12})@2-14} rest 0
{ if (a) { b; c } } $ 0 $ {ifs(a@6-7 {call(b@11-12)@11-12;call(c@14-15)@14-15})@2-17} rest 0
{ if (a) { } else { } } $ 0 $ {ifs(a@6-7 {} {})@2-21} rest 0
{ if (a) { b } else { c } } $ 0 $ {ifs(a@6-7 {call(b@11-12)@11-12} {call(c@22-23)@22-23})@2-25} rest 0
{ if (a) { } else if (b) { } } $ 0 $ {ifs(a@6-7 {} ifs(b@22-23 {})@18-28)@2-28} rest 0
{ if (a) { b } else if (c) { d } else { e } } $ 0 $ {ifs(a@6-7 {call(b@11-12)@11-12} ifs(c@24-25 {call(d@29-30)@29-30} {call(e@40-41)@40-41})@20-43)@2-43} rest 0
{ if (a) { } else if (b) { } else if (c) { } } $ 0 $ {ifs(a@6-7 {} ifs(b@22-23 {} ifs(c@38-39 {})@34-44)@18-44)@2-44} rest 0
{ if (a) { } else if (b) { } else if (c) { } else { } } $ 0 $ {ifs(a@6-7 {} ifs(b@22-23 {} ifs(c@38-39 {} {})@34-53)@18-53)@2-53} rest 0
{ if (a) { }; b } $ 0 $ {ifs(a@6-7 {})@2-12;call(b@14-15)@14-15} rest 0
{ if (a) { } else { }; b } $ 0 $ {ifs(a@6-7 {} {})@2-21;call(b@23-24)@23-24} rest 0
{ if (a) { } else if (b) { }; c } $ 0 $ {ifs(a@6-7 {} ifs(b@22-23 {})@18-28)@2-28;call(c@30-31)@30-31} rest 0
{ if (a) { if (b) { } } } $ 0 $ {ifs(a@6-7 {ifs(b@15-16 {})@11-21})@2-23} rest 0
{ if (a) { if (b) { } else { } } else { } } $ 0 $ {ifs(a@6-7 {ifs(b@15-16 {} {})@11-30} {})@2-41} rest 0
{ if (a + b) { } } $ 0 $ {ifs(infix(a@6-7 + b@10-11)@6-11 {})@2-16} rest 0
{ if (if (a) b else c) { } } $ 0 $ {ifs(if(a@10-11,b@13-14,c@20-21)@6-21 {})@2-26} rest 0
{ if (a match { case b => }) { } } $ 0 $ {ifs(match(a@6-7;case(b@21-22=>))@6-27 {})@2-32} rest 0
{ if ((a)) { } } $ 0 $ {ifs(paren(a@7-8)@6-9 {})@2-14} rest 0
{ if (!a) { } } $ 0 $ {ifs(prefix(! a@7-8)@6-8 {})@2-13} rest 0
{ if (a) { }; else { } } $ 0 $ {ifs(a@6-7 {} {})@2-22} rest 0
{ if (a) { } else; { } } $ 0 $ {ifs(a@6-7 {} {})@2-22} rest 0
{ if (a); { } } $ 0 $ {ifs(a@6-7 {})@2-13} rest 0
{ if (a) { } else; if (b) { } } $ 0 $ {ifs(a@6-7 {} ifs(b@23-24 {})@19-29)@2-29} rest 0
{ if (a) b else c } $ 0 $ {call(if(a@6-7,b@9-10,c@16-17)@2-17)@2-17} rest 0
{ if (a) b else c; d } $ 0 $ {call(if(a@6-7,b@9-10,c@16-17)@2-17)@2-17;call(d@19-20)@19-20} rest 0
{ if (a) (b) else (c) } $ 0 $ {call(if(a@6-7,paren(b@10-11)@9-12,paren(c@19-20)@18-21)@2-21)@2-21} rest 0
{ if (a) b else if (c) d else e } $ 0 $ {call(if(a@6-7,b@9-10,if(c@20-21,d@23-24,e@30-31)@16-31)@2-31)@2-31} rest 0
{ if (a) if (b) c else d else e } $ 0 $ {call(if(a@6-7,if(b@13-14,c@16-17,d@23-24)@9-24,e@30-31)@2-31)@2-31} rest 0
{ if (a) b match { case c => } else d } $ 0 $ {call(if(a@6-7,match(b@9-10;case(c@24-25=>))@9-30,d@36-37)@2-37)@2-37} rest 0
{ if (a) b else c match { case d => } } $ 0 $ {call(if(a@6-7,b@9-10,match(c@16-17;case(d@31-32=>))@16-37)@2-37)@2-37} rest 0
{ if (a) b else c + d } $ 0 $ {call(if(a@6-7,b@9-10,infix(c@16-17 + d@20-21)@16-21)@2-21)@2-21} rest 0
{ if (a) l"b" else l"c" } $ 0 $ {call(if(a@6-7,literal(Prefixed l"b")@9-13,literal(Prefixed l"c")@19-23)@2-23)@2-23} rest 0
{ if (a) Contract(b) else c } $ 0 $ {call(if(a@6-7,apply(Contract@9-17;b@18-19)@9-20,c@26-27)@2-27)@2-27} rest 0
{ if (a) b else Contract(c) } $ 0 $ {call(if(a@6-7,b@9-10,apply(Contract@16-24;c@25-26)@16-27)@2-27)@2-27} rest 0
{ if (a) { return } else { return b } } $ 0 $ {ifs(a@6-7 {return()@11-17} {return(b@34-35)@27-35})@2-37} rest 0
{ if (a) { } ; if (b) { } } $ 0 $ {ifs(a@6-7 {})@2-12;ifs(b@19-20 {})@15-25} rest 0
{ if (a) -1 else -b } $ 0 $ {call(if(a@6-7,literal(-Number 1)@9-11,prefix(- b@18-19)@17-19)@2-19)@2-19} rest 0
"#;

/// Loops.
pub const LOOPS: &[u8] = br#"
{ while (a) { } } $ 0 $ {while(a@9-10 {})@2-15} rest 0
{ while(a){} } $ 0 $ {while(a@8-9 {})@2-12} rest 0
{ while (a) { b } } $ 0 $ {while(a@9-10 {call(b@14-15)@14-15})@2-17} rest 0
{ while (a) { b; c } } $ 0 $ {while(a@9-10 {call(b@14-15)@14-15;call(c@17-18)@17-18})@2-20} rest 0
{ while (a) { while (b) { } } } $ 0 $ {while(a@9-10 {while(b@21-22 {})@14-27})@2-29} rest 0
{ while (a + b) { } } $ 0 $ {while(infix(a@9-10 + b@13-14)@9-14 {})@2-19} rest 0
{ while (if (a) b else c) { } } $ 0 $ {while(if(a@13-14,b@16-17,c@23-24)@9-24 {})@2-29} rest 0
{ while (a match { case b => }) { } } $ 0 $ {while(match(a@9-10;case(b@24-25=>))@9-30 {})@2-35} rest 0
{ while (a) { }; b } $ 0 $ {while(a@9-10 {})@2-15;call(b@17-18)@17-18} rest 0
{ while (a) { Invariant(b); c } } $ 0 $ {while(a@9-10 {skip(Ident Invariant,Mark (,Ident b,Mark ))@14-26;call(c@28-29)@28-29})@2-31} rest 0
{ while; (a) { } } $ 0 $ {while(a@10-11 {})@2-16} rest 0
{ while (a); { } } $ 0 $ {while(a@9-10 {})@2-16} rest 0
{ while (l"a") { } } $ 0 $ {while(literal(Prefixed l"a")@9-13 {})@2-18} rest 0
{ while (T) { return } } $ 0 $ {while(T@9-10 {return()@14-20})@2-22} rest 0
{ for (a <- b until c) { } } $ 0 $ {for(a b@12-13 until c@20-21 {})@2-26} rest 0
{ for (a <- b to c) { } } $ 0 $ {for(a b@12-13 to c@17-18 {})@2-23} rest 0
{ for(a<-b until c){} } $ 0 $ {for(a b@9-10 until c@17-18 {})@2-21} rest 0
{ for (a <- 0 until b.size) { c(a) } } $ 0 $ {for(a literal(Number 0)@12-13 until select(b@20-21 size)@20-26 {call(apply(c@30-31;a@32-33)@30-34)@30-34})@2-36} rest 0
{ for (a <- b until c) { d; e } } $ 0 $ {for(a b@12-13 until c@20-21 {call(d@25-26)@25-26;call(e@28-29)@28-29})@2-31} rest 0
{ for (a <- b + c to d * e) { } } $ 0 $ {for(a infix(b@12-13 + c@16-17)@12-17 to infix(d@21-22 * e@25-26)@21-26 {})@2-31} rest 0
{ for (a <- -1 to -b) { } } $ 0 $ {for(a literal(-Number 1)@12-14 to prefix(- b@19-20)@18-20 {})@2-25} rest 0
{ for (a <- until until until) { } } $ 0 $ {for(a until@12-17 until until@24-29 {})@2-34} rest 0
{ for (a <- to to to) { } } $ 0 $ {for(a to@12-14 to to@18-20 {})@2-25} rest 0
{ for (a <- until to to) { } } $ 0 $ {for(a until@12-17 to to@21-23 {})@2-28} rest 0
{ for (to <- to until until) { } } $ 0 $ {for(to to@13-15 until until@22-27 {})@2-32} rest 0
{ for (until <- to(until) until to.until) { } } $ 0 $ {for(until apply(to@16-18;until@19-24)@16-25 until select(to@32-34 until)@32-40 {})@2-45} rest 0
{ for (T <- a until b) { } } $ 0 $ {for(T a@12-13 until b@20-21 {})@2-26} rest 0
{ for (Contract <- Contract until Contract(a)) { } } $ 0 $ {for(Contract Contract@19-27 until apply(Contract@34-42;a@43-44)@34-45 {})@2-50} rest 0
{ for (a <- if (b) c else d until e) { } } $ 0 $ {for(a if(b@16-17,c@19-20,d@26-27)@12-27 until e@34-35 {})@2-40} rest 0
{ for (a <- b until if (c) d else e) { } } $ 0 $ {for(a b@12-13 until if(c@24-25,d@27-28,e@34-35)@20-35 {})@2-40} rest 0
{ for (a <- b match { case c => } until d) { } } $ 0 $ {for(a match(b@12-13;case(c@27-28=>))@12-33 until d@40-41 {})@2-46} rest 0
{ for (a <- b until c match { case d => }) { } } $ 0 $ {for(a b@12-13 until match(c@20-21;case(d@35-36=>))@20-41 {})@2-46} rest 0
{ for (a <- (b) until (c)) { } } $ 0 $ {for(a paren(b@13-14)@12-15 until paren(c@23-24)@22-25 {})@2-30} rest 0
{ for (a <- b until c) { for (d <- e to f) { } } } $ 0 $ {for(a b@12-13 until c@20-21 {for(d e@35-36 to f@40-41 {})@25-46})@2-48} rest 0
{ for (a <- b until c) { }; d } $ 0 $ {for(a b@12-13 until c@20-21 {})@2-26;call(d@28-29)@28-29} rest 0
{ for (;a;<-;b;until;c;) { } } $ 0 $ {for(a b@13-14 until c@21-22 {})@2-28} rest 0
{ for (a <- b until c); { } } $ 0 $ {for(a b@12-13 until c@20-21 {})@2-27} rest 0
{ for (a <- b(until) to c(to)) { } } $ 0 $ {for(a apply(b@12-13;until@14-19)@12-20 to apply(c@24-25;to@26-28)@24-29 {})@2-34} rest 0
"#;

/// `return`.
pub const RETURNS: &[u8] = br#"
{ return } $ 0 $ {return()@2-8} rest 0
{ return; } $ 0 $ {return()@2-8} rest 0
{ return; a } $ 0 $ {return()@2-8;call(a@10-11)@10-11} rest 0
{ return; return } $ 0 $ {return()@2-8;return()@10-16} rest 0
{ return a } $ 0 $ {return(a@9-10)@2-10} rest 0
{ return a; b } $ 0 $ {return(a@9-10)@2-10;call(b@12-13)@12-13} rest 0
{ return -1 } $ 0 $ {return(literal(-Number 1)@9-11)@2-11} rest 0
{ return - a } $ 0 $ {return(prefix(- a@11-12)@9-12)@2-12} rest 0
{ return (a) } $ 0 $ {return(paren(a@10-11)@9-12)@2-12} rest 0
{ return a + b } $ 0 $ {return(infix(a@9-10 + b@13-14)@9-14)@2-14} rest 0
{ return if (a) b else c } $ 0 $ {return(if(a@13-14,b@16-17,c@23-24)@9-24)@2-24} rest 0
{ return a match { case b => } } $ 0 $ {return(match(a@9-10;case(b@24-25=>))@9-30)@2-30} rest 0
{ return a match { case b => c }; d } $ 0 $ {return(match(a@9-10;case(b@24-25=>call(c@29-30)@29-30))@9-32)@2-32;call(d@34-35)@34-35} rest 0
{ return this } $ 0 $ {return(this()@9-13)@2-13} rest 0
{ return T } $ 0 $ {return(T@9-10)@2-10} rest 0
{ return until } $ 0 $ {return(until@9-14)@2-14} rest 0
{ return Contract } $ 0 $ {return(Contract@9-17)@2-17} rest 0
{ return Contract(a) } $ 0 $ {return(apply(Contract@9-17;a@18-19)@9-20)@2-20} rest 0
{ return l"a" } $ 0 $ {return(literal(Prefixed l"a")@9-13)@2-13} rest 0
{ return "a" } $ 0 $ {return(literal(Quoted "a")@9-12)@2-12} rest 0
{ return a(b = c) } $ 0 $ {return(update(a@9-10;b=c@15-16)@9-17)@2-17} rest 0
{ return !a } $ 0 $ {return(prefix(! a@10-11)@9-11)@2-11} rest 0
{ if (a) { return } } $ 0 $ {ifs(a@6-7 {return()@11-17})@2-19} rest 0
{ return;-1 } $ 0 $ {return()@2-8;call(literal(-Number 1)@9-11)@9-11} rest 0
{ return;(a) } $ 0 $ {return()@2-8;call(paren(a@10-11)@9-12)@9-12} rest 0
"#;

/// Matches that are statements, and others.
pub const MATCHES: &[u8] = br#"
{ a match { case b => } } $ 0 $ {matches(a@2-3;case(b@17-18=>))@2-23} rest 0
{ a match { case b => c } } $ 0 $ {matches(a@2-3;case(b@17-18=>call(c@22-23)@22-23))@2-25} rest 0
{ a match { case b => c; d } } $ 0 $ {matches(a@2-3;case(b@17-18=>call(c@22-23)@22-23;call(d@25-26)@25-26))@2-28} rest 0
{ a match { case b => c case d => e } } $ 0 $ {matches(a@2-3;case(b@17-18=>call(c@22-23)@22-23) case(d@29-30=>call(e@34-35)@34-35))@2-37} rest 0
{ a match { case b => }; c } $ 0 $ {matches(a@2-3;case(b@17-18=>))@2-23;call(c@25-26)@25-26} rest 0
{ a + b match { case c => } } $ 0 $ {matches(infix(a@2-3 + b@6-7)@2-7;case(c@21-22=>))@2-27} rest 0
{ a.b(c) match { case d => } } $ 0 $ {matches(apply(select(a@2-3 b)@2-5;c@6-7)@2-8;case(d@22-23=>))@2-28} rest 0
{ -a match { case b => } } $ 0 $ {matches(prefix(- a@3-4)@2-4;case(b@18-19=>))@2-24} rest 0
{ (a) match { case b => } } $ 0 $ {matches(paren(a@3-4)@2-5;case(b@19-20=>))@2-25} rest 0
{ (a match { case b => }) } $ 0 $ {call(paren(match(a@3-4;case(b@18-19=>))@3-24)@2-25)@2-25} rest 0
{ (a match { case b => }).c } $ 0 $ {call(select(paren(match(a@3-4;case(b@18-19=>))@3-24)@2-25 c)@2-27)@2-27} rest 0
{ (a match { case b => }) match { case c => } } $ 0 $ {matches(paren(match(a@3-4;case(b@18-19=>))@3-24)@2-25;case(c@39-40=>))@2-45} rest 0
{ (a match { case b => c match { case d => } }) } $ 0 $ {call(paren(match(a@3-4;case(b@18-19=>matches(c@23-24;case(d@38-39=>))@23-44))@3-46)@2-47)@2-47} rest 0
{ a match { case b => c match { case d => } } } $ 0 $ {matches(a@2-3;case(b@17-18=>matches(c@22-23;case(d@37-38=>))@22-43))@2-45} rest 0
{ a match { case b if c => d } } $ 0 $ {matches(a@2-3;case(b@17-18 if c@22-23=>call(d@27-28)@27-28))@2-30} rest 0
{ a match { case b(c, _: d) if e => f = g case _ => return } } $ 0 $ {matches(a@2-3;case(class(b;c@19-20,any(d@25-26)@22-26)@17-27 if e@31-32=>assign(f@36-37=g@40-41)@36-41) case(any()@47-48=>return()@52-58))@2-60} rest 0
{ this match { case a => } } $ 0 $ {matches(this()@2-6;case(a@20-21=>))@2-26} rest 0
{ 1 match { case 1 => } } $ 0 $ {matches(literal(Number 1)@2-3;case(literal(Number 1)@17-18=>))@2-23} rest 0
{ until match { case to => } } $ 0 $ {matches(until@2-7;case(to@21-23=>))@2-28} rest 0
{ Contract match { case a => } } $ 0 $ {matches(Contract@2-10;case(a@24-25=>))@2-30} rest 0
{ Contract.a match { case b => } } $ 0 $ {matches(select(Contract@2-10 a)@2-12;case(b@26-27=>))@2-32} rest 0
{ a match { case b => if (c) { } case d => } } $ 0 $ {matches(a@2-3;case(b@17-18=>ifs(c@26-27 {})@22-32) case(d@38-39=>))@2-44} rest 0
{ a match { case b => if (c) { } else { } case d => while (e) { } case f => for (g <- h to i) { } } } $ 0 $ {matches(a@2-3;case(b@17-18=>ifs(c@26-27 {} {})@22-41) case(d@47-48=>while(e@59-60 {})@52-65) case(f@71-72=>for(g h@86-87 to i@91-92 {})@76-97))@2-99} rest 0
{ a match { case b => val c = d case e => return f case g => return } } $ 0 $ {matches(a@2-3;case(b@17-18=>val(c=d@30-31)@22-31) case(e@37-38=>return(f@49-50)@42-50) case(g@56-57=>return()@61-67))@2-69} rest 0
{ a match { case b => Contract(c) case d => l"e" case f => Invariant } } $ 0 $ {matches(a@2-3;case(b@17-18=>skip(Ident Contract,Mark (,Ident c,Mark ))@22-33) case(d@39-40=>skip(Prefixed l"e")@44-48) case(f@54-55=>call(Invariant@59-68)@59-68))@2-70} rest 0
{ s"a" match { case b => } } $ 0 $ {matches(literal(Prefixed s"a")@2-6;case(b@20-21=>))@2-26} rest 0
{ T match { case T => F } } $ 0 $ {matches(T@2-3;case(literal(Ident T)@17-18=>call(F@22-23)@22-23))@2-25} rest 0
"#;
