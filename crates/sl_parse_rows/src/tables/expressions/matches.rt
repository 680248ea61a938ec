// Matches, with their cases.

/// What is matched, and what stands in cases.
pub const MATCHES: &[u8] = br#"
a match { case b => } $ 0 $ match(a@0-1;case(b@15-16=>))@0-21 rest 0
a match{case b=>} $ 0 $ match(a@0-1;case(b@13-14=>))@0-17 rest 0
a match { case b => c } $ 0 $ match(a@0-1;case(b@15-16=>call(c@20-21)@20-21))@0-23 rest 0
a match { case b => case c => } $ 0 $ match(a@0-1;case(b@15-16=>) case(c@25-26=>))@0-31 rest 0
a match { case b => c case d => e } $ 0 $ match(a@0-1;case(b@15-16=>call(c@20-21)@20-21) case(d@27-28=>call(e@32-33)@32-33))@0-35 rest 0
a match { case b => c; case d => e; } $ 0 $ match(a@0-1;case(b@15-16=>call(c@20-21)@20-21) case(d@28-29=>call(e@33-34)@33-34))@0-37 rest 0
a match {; case b => c;} $ 0 $ match(a@0-1;case(b@16-17=>call(c@21-22)@21-22))@0-24 rest 0
a match { case b =>; c; } $ 0 $ match(a@0-1;case(b@15-16=>call(c@21-22)@21-22))@0-25 rest 0
a match { case b => c; d } $ 0 $ match(a@0-1;case(b@15-16=>call(c@20-21)@20-21;call(d@23-24)@23-24))@0-26 rest 0
a match { case b => c; d; e; case f => g; h } $ 0 $ match(a@0-1;case(b@15-16=>call(c@20-21)@20-21;call(d@23-24)@23-24;call(e@26-27)@26-27) case(f@34-35=>call(g@39-40)@39-40;call(h@42-43)@42-43))@0-45 rest 0
a + b match { case c => } $ 0 $ match(infix(a@0-1 + b@4-5)@0-5;case(c@19-20=>))@0-25 rest 0
a * b + c match { case d => } $ 0 $ match(infix(infix(a@0-1 * b@4-5)@0-5 + c@8-9)@0-9;case(d@23-24=>))@0-29 rest 0
a | b match { case c => } $ 0 $ match(infix(a@0-1 | b@4-5)@0-5;case(c@19-20=>))@0-25 rest 0
-a match { case b => } $ 0 $ match(prefix(- a@1-2)@0-2;case(b@16-17=>))@0-22 rest 0
-1 match { case b => } $ 0 $ match(literal(-Number 1)@0-2;case(b@16-17=>))@0-22 rest 0
!a match { case b => } $ 0 $ match(prefix(! a@1-2)@0-2;case(b@16-17=>))@0-22 rest 0
a.b match { case c => } $ 0 $ match(select(a@0-1 b)@0-3;case(c@17-18=>))@0-23 rest 0
a(b) match { case c => } $ 0 $ match(apply(a@0-1;b@2-3)@0-4;case(c@18-19=>))@0-24 rest 0
a[b] match { case c => } $ 0 $ match(given(a@0-1;b@2-3)@0-4;case(c@18-19=>))@0-24 rest 0
a(b = c) match { case d => } $ 0 $ match(update(a@0-1;b=c@6-7)@0-8;case(d@22-23=>))@0-28 rest 0
(a) match { case b => } $ 0 $ match(paren(a@1-2)@0-3;case(b@17-18=>))@0-23 rest 0
1 match { case b => } $ 0 $ match(literal(Number 1)@0-1;case(b@15-16=>))@0-21 rest 0
"a" match { case b => } $ 0 $ match(literal(Quoted "a")@0-3;case(b@17-18=>))@0-23 rest 0
this match { case b => } $ 0 $ match(this()@0-4;case(b@18-19=>))@0-24 rest 0
l"a" match { case b => } $ 0 $ match(literal(Prefixed l"a")@0-4;case(b@18-19=>))@0-24 rest 0
Contract match { case b => } $ 0 $ match(Contract@0-8;case(b@22-23=>))@0-28 rest 0
Contract(a) match { case b => } $ 0 $ match(apply(Contract@0-8;a@9-10)@0-11;case(b@25-26=>))@0-31 rest 0
T match { case F => } $ 0 $ match(T@0-1;case(literal(Ident F)@15-16=>))@0-21 rest 0
(a match { case b => }) match { case c => } $ 0 $ match(paren(match(a@1-2;case(b@16-17=>))@1-22)@0-23;case(c@37-38=>))@0-43 rest 0
(a match { case b => }).c $ 0 $ select(paren(match(a@1-2;case(b@16-17=>))@1-22)@0-23 c)@0-25 rest 0
(a match { case b => }) + c $ 0 $ infix(paren(match(a@1-2;case(b@16-17=>))@1-22)@0-23 + c@26-27)@0-27 rest 0
a + (b match { case c => }) $ 0 $ infix(a@0-1 + paren(match(b@5-6;case(c@20-21=>))@5-26)@4-27)@0-27 rest 0
a match { case b => c match { case d => e } } $ 0 $ match(a@0-1;case(b@15-16=>matches(c@20-21;case(d@35-36=>call(e@40-41)@40-41))@20-43))@0-45 rest 0
a match { case b => (c match { case d => e }) } $ 0 $ match(a@0-1;case(b@15-16=>call(paren(match(c@21-22;case(d@36-37=>call(e@41-42)@41-42))@21-44)@20-45)@20-45))@0-47 rest 0
a match { case b => c match { case d => e } case f => g } $ 0 $ match(a@0-1;case(b@15-16=>matches(c@20-21;case(d@35-36=>call(e@40-41)@40-41))@20-43) case(f@49-50=>call(g@54-55)@54-55))@0-57 rest 0
a match { case b => if (c) d else e } $ 0 $ match(a@0-1;case(b@15-16=>call(if(c@24-25,d@27-28,e@34-35)@20-35)@20-35))@0-37 rest 0
a match { case b => if (c) { d } } $ 0 $ match(a@0-1;case(b@15-16=>ifs(c@24-25 {call(d@29-30)@29-30})@20-32))@0-34 rest 0
a match { case b => if (c) { d } else { e } case f => } $ 0 $ match(a@0-1;case(b@15-16=>ifs(c@24-25 {call(d@29-30)@29-30} {call(e@40-41)@40-41})@20-43) case(f@49-50=>))@0-55 rest 0
a match { case b => val c = d; c } $ 0 $ match(a@0-1;case(b@15-16=>val(c=d@28-29)@20-29;call(c@31-32)@31-32))@0-34 rest 0
a match { case b => var c: Z = d; } $ 0 $ match(a@0-1;case(b@15-16=>var(c:Z@27-28=d@31-32)@20-32))@0-35 rest 0
a match { case b => c = d } $ 0 $ match(a@0-1;case(b@15-16=>assign(c@20-21=d@24-25)@20-25))@0-27 rest 0
a match { case b => c = d match { case e => } } $ 0 $ match(a@0-1;case(b@15-16=>assign(c@20-21=match(d@24-25;case(e@39-40=>))@24-45)@20-45))@0-47 rest 0
a match { case b => return } $ 0 $ match(a@0-1;case(b@15-16=>return()@20-26))@0-28 rest 0
a match { case b => return c } $ 0 $ match(a@0-1;case(b@15-16=>return(c@27-28)@20-28))@0-30 rest 0
a match { case b => return; case c => return } $ 0 $ match(a@0-1;case(b@15-16=>return()@20-26) case(c@33-34=>return()@38-44))@0-46 rest 0
a match { case b => while (c) { } } $ 0 $ match(a@0-1;case(b@15-16=>while(c@27-28 {})@20-33))@0-35 rest 0
a match { case b => for (c <- d until e) { } } $ 0 $ match(a@0-1;case(b@15-16=>for(c d@30-31 until e@38-39 {})@20-44))@0-46 rest 0
a match { case b => Contract(c) } $ 0 $ match(a@0-1;case(b@15-16=>skip(Ident Contract,Mark (,Ident c,Mark ))@20-31))@0-33 rest 0
a match { case b => Invariant(c); d } $ 0 $ match(a@0-1;case(b@15-16=>skip(Ident Invariant,Mark (,Ident c,Mark ))@20-32;call(d@34-35)@34-35))@0-37 rest 0
a match { case b => l"c" } $ 0 $ match(a@0-1;case(b@15-16=>skip(Prefixed l"c")@20-24))@0-26 rest 0
a match { case b => l"c" case d => l"e" } $ 0 $ match(a@0-1;case(b@15-16=>skip(Prefixed l"c")@20-24) case(d@30-31=>skip(Prefixed l"e")@35-39))@0-41 rest 0
a match { case b => Contract } $ 0 $ match(a@0-1;case(b@15-16=>call(Contract@20-28)@20-28))@0-30 rest 0
a match { case b => Contract(c) case d => } $ 0 $ match(a@0-1;case(b@15-16=>skip(Ident Contract,Mark (,Ident c,Mark ))@20-31) case(d@37-38=>))@0-43 rest 0
a match { case b => -1 } $ 0 $ match(a@0-1;case(b@15-16=>call(literal(-Number 1)@20-22)@20-22))@0-24 rest 0
a match { case b => T } $ 0 $ match(a@0-1;case(b@15-16=>call(T@20-21)@20-21))@0-23 rest 0
a; match { case b => } $ 0 $ match(a@0-1;case(b@16-17=>))@0-22 rest 0
a match; { case b => } $ 0 $ match(a@0-1;case(b@16-17=>))@0-22 rest 0
"#;

/// Guards.
pub const GUARDS: &[u8] = br#"
a match { case b if c => } $ 0 $ match(a@0-1;case(b@15-16 if c@20-21=>))@0-26 rest 0
a match { case b if (c) => } $ 0 $ match(a@0-1;case(b@15-16 if paren(c@21-22)@20-23=>))@0-28 rest 0
a match { case b if c => d } $ 0 $ match(a@0-1;case(b@15-16 if c@20-21=>call(d@25-26)@25-26))@0-28 rest 0
a match { case b if c + d => } $ 0 $ match(a@0-1;case(b@15-16 if infix(c@20-21 + d@24-25)@20-25=>))@0-30 rest 0
a match { case b if c == d => e case f if g => h } $ 0 $ match(a@0-1;case(b@15-16 if infix(c@20-21 == d@25-26)@20-26=>call(e@30-31)@30-31) case(f@37-38 if g@42-43=>call(h@47-48)@47-48))@0-50 rest 0
a match { case b if !c => } $ 0 $ match(a@0-1;case(b@15-16 if prefix(! c@21-22)@20-22=>))@0-27 rest 0
a match { case b if -1 => } $ 0 $ match(a@0-1;case(b@15-16 if literal(-Number 1)@20-22=>))@0-27 rest 0
a match { case b if if (c) d else e => } $ 0 $ match(a@0-1;case(b@15-16 if if(c@24-25,d@27-28,e@34-35)@20-35=>))@0-40 rest 0
a match { case b if c match { case d => } => } $ 0 $ match(a@0-1;case(b@15-16 if match(c@20-21;case(d@35-36=>))@20-41=>))@0-46 rest 0
a match { case b if (c match { case d => }) => } $ 0 $ match(a@0-1;case(b@15-16 if paren(match(c@21-22;case(d@36-37=>))@21-42)@20-43=>))@0-48 rest 0
a match { case b if c(d) => } $ 0 $ match(a@0-1;case(b@15-16 if apply(c@20-21;d@22-23)@20-24=>))@0-29 rest 0
a match { case b if c(d = e) => } $ 0 $ match(a@0-1;case(b@15-16 if update(c@20-21;d=e@26-27)@20-28=>))@0-33 rest 0
a match { case b if this => } $ 0 $ match(a@0-1;case(b@15-16 if this()@20-24=>))@0-29 rest 0
a match { case b: Z if c => } $ 0 $ match(a@0-1;case(bind(b:Z@18-19)@15-19 if c@23-24=>))@0-29 rest 0
a match { case _ if c => } $ 0 $ match(a@0-1;case(any()@15-16 if c@20-21=>))@0-26 rest 0
a match { case b.c if d => } $ 0 $ match(a@0-1;case(constant(b.c)@15-18 if d@22-23=>))@0-28 rest 0
a match { case b(c) if d => } $ 0 $ match(a@0-1;case(class(b;c@17-18)@15-19 if d@23-24=>))@0-29 rest 0
a match { case 1 if c => } $ 0 $ match(a@0-1;case(literal(Number 1)@15-16 if c@20-21=>))@0-26 rest 0
a match { case T if F => } $ 0 $ match(a@0-1;case(literal(Ident T)@15-16 if F@20-21=>))@0-26 rest 0
a match { case if"b" if c => } $ 0 $ match(a@0-1;case(literal(Prefixed if"b")@15-20 if c@24-25=>))@0-30 rest 0
a match { case b; if c => } $ 0 $ match(a@0-1;case(b@15-16 if c@21-22=>))@0-27 rest 0
a match { case b if; c => } $ 0 $ match(a@0-1;case(b@15-16 if c@21-22=>))@0-27 rest 0
a match { case b if c; => } $ 0 $ match(a@0-1;case(b@15-16 if c@20-21=>))@0-27 rest 0
a match { case b if l"c" => } $ 0 $ match(a@0-1;case(b@15-16 if literal(Prefixed l"c")@20-24=>))@0-29 rest 0
a match { case b if Contract(c) => } $ 0 $ match(a@0-1;case(b@15-16 if apply(Contract@20-28;c@29-30)@20-31=>))@0-36 rest 0
"#;
