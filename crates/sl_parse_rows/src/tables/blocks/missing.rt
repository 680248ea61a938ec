// Blocks cut off before each of their tokens, and with each of them left out.

/// Cut off.
pub const CUT: &[u8] = br#"
 $ 0 $ G1 at 0
{  $ 0 $ G1 at 2
{ a;  $ 0 $ G1 at 5
{ a; b  $ 0 $ G1 at 7
{ val  $ 0 $ G1 at 6
{ val a $ 0 $ G1 at 7
{ val a:  $ 0 $ G1 at 9
{ val a: b $ 0 $ G1 at 10
{ val a: b[ $ 0 $ G1 at 11
{ val a: b[c $ 0 $ G1 at 12
{ val a: b[c]  $ 0 $ G1 at 14
{ val a: b[c] =  $ 0 $ G1 at 16
{ val a: b[c] = d  $ 0 $ G1 at 18
{ var  $ 0 $ G1 at 6
{ var a  $ 0 $ G1 at 8
{ var a =  $ 0 $ G1 at 10
{ var a = b;  $ 0 $ G1 at 13
{ var a = b; c  $ 0 $ G1 at 15
{ a $ 0 $ G1 at 3
{ a. $ 0 $ G1 at 4
{ a.b  $ 0 $ G1 at 6
{ a.b =  $ 0 $ G1 at 8
{ a.b = c $ 0 $ G1 at 9
{ a.b = c( $ 0 $ G1 at 10
{ a.b = c(d $ 0 $ G1 at 11
{ a.b = c(d)  $ 0 $ G1 at 13
{ if  $ 0 $ G1 at 5
{ if ( $ 0 $ G1 at 6
{ if (a $ 0 $ G1 at 7
{ if (a)  $ 0 $ G1 at 9
{ if (a) {  $ 0 $ G1 at 11
{ if (a) { b  $ 0 $ G1 at 13
{ if (a) { b }  $ 0 $ G1 at 15
{ if (a) { }  $ 0 $ G1 at 13
{ if (a) { } else  $ 0 $ G1 at 18
{ if (a) { } else {  $ 0 $ G1 at 20
{ if (a) { } else { b  $ 0 $ G1 at 22
{ if (a) { } else { b }  $ 0 $ G1 at 24
{ if (a) { } else if  $ 0 $ G1 at 21
{ if (a) { } else if ( $ 0 $ G1 at 22
{ if (a) { } else if (b $ 0 $ G1 at 23
{ if (a) { } else if (b)  $ 0 $ G1 at 25
{ if (a) { } else if (b) {  $ 0 $ G1 at 27
{ if (a) { } else if (b) { c  $ 0 $ G1 at 29
{ if (a) { } else if (b) { c }  $ 0 $ G1 at 31
{ if (a) { } else if (b) { c } else  $ 0 $ G1 at 36
{ if (a) { } else if (b) { c } else {  $ 0 $ G1 at 38
{ if (a) { } else if (b) { c } else { d  $ 0 $ G1 at 40
{ if (a) { } else if (b) { c } else { d }  $ 0 $ G1 at 42
{ if (a) b  $ 0 $ G1 at 11
{ if (a) b else  $ 0 $ G1 at 16
{ if (a) b else c  $ 0 $ G1 at 18
{ if (a) b else c =  $ 0 $ G1 at 20
{ if (a) b else c = d  $ 0 $ G1 at 22
{ while  $ 0 $ G1 at 8
{ while ( $ 0 $ G1 at 9
{ while (a $ 0 $ G1 at 10
{ while (a)  $ 0 $ G1 at 12
{ while (a) {  $ 0 $ G1 at 14
{ while (a) { b;  $ 0 $ G1 at 17
{ while (a) { b; c  $ 0 $ G1 at 19
{ while (a) { b; c }  $ 0 $ G1 at 21
{ for  $ 0 $ G1 at 6
{ for ( $ 0 $ G1 at 7
{ for (a  $ 0 $ G1 at 9
{ for (a <-  $ 0 $ G1 at 12
{ for (a <- b  $ 0 $ G1 at 14
{ for (a <- b until  $ 0 $ G1 at 20
{ for (a <- b until c $ 0 $ G1 at 21
{ for (a <- b until c)  $ 0 $ G1 at 23
{ for (a <- b until c) {  $ 0 $ G1 at 25
{ for (a <- b until c) { d  $ 0 $ G1 at 27
{ for (a <- b until c) { d }  $ 0 $ G1 at 29
{ for (a <- 0  $ 0 $ G1 at 14
{ for (a <- 0 to  $ 0 $ G1 at 17
{ for (a <- 0 to - $ 0 $ G1 at 18
{ for (a <- 0 to -1 $ 0 $ G1 at 19
{ for (a <- 0 to -1)  $ 0 $ G1 at 21
{ for (a <- 0 to -1) {  $ 0 $ G1 at 23
{ for (a <- 0 to -1) { }  $ 0 $ G1 at 25
{ return;  $ 0 $ G1 at 10
{ return; return  $ 0 $ G1 at 17
{ return; return a  $ 0 $ G1 at 19
{ a  $ 0 $ G1 at 4
{ a match  $ 0 $ G1 at 10
{ a match {  $ 0 $ G1 at 12
{ a match { case  $ 0 $ G1 at 17
{ a match { case b  $ 0 $ G1 at 19
{ a match { case b =>  $ 0 $ G1 at 22
{ a match { case b => c  $ 0 $ G1 at 24
{ a match { case b => c }  $ 0 $ G1 at 26
{ a match { case b => c } =  $ 0 $ G1 at 28
{ a match { case b => c } = d  $ 0 $ G1 at 30
{ a match { case b if  $ 0 $ G1 at 22
{ a match { case b if c  $ 0 $ G1 at 24
{ a match { case b if c =>  $ 0 $ G1 at 27
{ a match { case b if c => return;  $ 0 $ G1 at 35
{ a match { case b if c => return; d  $ 0 $ G1 at 37
{ a match { case b if c => return; d case  $ 0 $ G1 at 42
{ a match { case b if c => return; d case _  $ 0 $ G1 at 44
{ a match { case b if c => return; d case _ =>  $ 0 $ G1 at 47
{ a match { case b if c => return; d case _ => }  $ 0 $ G1 at 49
{ Contract $ 0 $ G1 at 10
{ Contract( $ 0 $ G1 at 11
{ Contract(a $ 0 $ G1 at 12
{ Contract(a,  $ 0 $ G1 at 14
{ Contract(a, [ $ 0 $ G1 at 15
{ Contract(a, [b $ 0 $ G1 at 16
{ Contract(a, [b] $ 0 $ G1 at 17
{ Contract(a, [b],  $ 0 $ G1 at 19
{ Contract(a, [b], { $ 0 $ G1 at 20
{ Contract(a, [b], {c $ 0 $ G1 at 21
{ Contract(a, [b], {c} $ 0 $ G1 at 22
{ Contract(a, [b], {c})  $ 0 $ G1 at 24
{ Contract. $ 0 $ G1 at 11
{ Contract.a $ 0 $ G1 at 12
{ Contract.a( $ 0 $ G1 at 13
{ Contract.a(b $ 0 $ G1 at 14
{ Contract.a(b)  $ 0 $ G1 at 16
{ Invariant  $ 0 $ G1 at 12
{ l"a";  $ 0 $ G1 at 8
{ l"a"; b  $ 0 $ G1 at 10
"#;

/// Left out.
pub const MISSING: &[u8] = br#"
 } $ 0 $ G1 at 1
{  $ 0 $ G1 at 2
 a; b } $ 0 $ G1 at 1
{ ; b } $ 0 $ {call(b@4-5)@4-5} rest 0
{ a;  } $ 0 $ {call(a@2-3)@2-3} rest 0
{ a; b  $ 0 $ G1 at 7
 val a: b[c] = d } $ 0 $ G1 at 1
{  a: b[c] = d } $ 0 $ G1 at 4
{ val : b[c] = d } $ 0 $ G1 at 6
{ val a b[c] = d } $ 0 $ G1 at 8
{ val a: [c] = d } $ 0 $ G1 at 9
{ val a: bc] = d } $ 0 $ G1 at 11
{ val a: b[] = d } $ 0 $ G1 at 11
{ val a: b[c = d } $ 0 $ G1 at 13
{ val a: b[c]  d } $ 0 $ G1 at 15
{ val a: b[c] =  } $ 0 $ G1 at 17
{ val a: b[c] = d  $ 0 $ G1 at 18
 var a = b; c } $ 0 $ G1 at 1
{  a = b; c } $ 0 $ {assign(a@3-4=b@7-8)@3-8;call(c@10-11)@10-11} rest 0
{ var  = b; c } $ 0 $ G1 at 7
{ var a  b; c } $ 0 $ G1 at 9
{ var a = ; c } $ 0 $ {var(a=c@12-13)@2-13} rest 0
{ var a = b;  } $ 0 $ {var(a=b@10-11)@2-11} rest 0
{ var a = b; c  $ 0 $ G1 at 15
 a.b = c(d) } $ 0 $ G1 at 1
{ .b = c(d) } $ 0 $ G1 at 2
{ ab = c(d) } $ 0 $ {assign(ab@2-4=apply(c@7-8;d@9-10)@7-11)@2-11} rest 0
{ a. = c(d) } $ 0 $ G1 at 5
{ a.b  c(d) } $ 0 $ G1 at 7
{ a.b = (d) } $ 0 $ {assign(select(a@2-3 b)@2-5=paren(d@9-10)@8-11)@2-11} rest 0
{ a.b = cd) } $ 0 $ G1 at 10
{ a.b = c() } $ 0 $ {assign(select(a@2-3 b)@2-5=apply(c@8-9)@8-11)@2-11} rest 0
{ a.b = c(d } $ 0 $ G1 at 12
{ a.b = c(d)  $ 0 $ G1 at 13
 if (a) { b } } $ 0 $ G1 at 1
{  (a) { b } } $ 0 $ G1 at 7
{ if a) { b } } $ 0 $ G1 at 5
{ if () { b } } $ 0 $ G1 at 6
{ if (a { b } } $ 0 $ G1 at 8
{ if (a)  b } } $ 0 $ G1 at 12
{ if (a) {  } } $ 0 $ {ifs(a@6-7 {})@2-13} rest 0
{ if (a) { b  } $ 0 $ G1 at 15
{ if (a) { b }  $ 0 $ G1 at 15
 if (a) { } else { b } } $ 0 $ G1 at 1
{  (a) { } else { b } } $ 0 $ G1 at 7
{ if a) { } else { b } } $ 0 $ G1 at 5
{ if () { } else { b } } $ 0 $ G1 at 6
{ if (a { } else { b } } $ 0 $ G1 at 8
{ if (a)  } else { b } } $ 0 $ G1 at 10
{ if (a) {  else { b } } $ 0 $ G1 at 12
{ if (a) { }  { b } } $ 0 $ G1 at 14
{ if (a) { } else  b } } $ 0 $ G1 at 19
{ if (a) { } else {  } } $ 0 $ {ifs(a@6-7 {} {})@2-22} rest 0
{ if (a) { } else { b  } $ 0 $ G1 at 24
{ if (a) { } else { b }  $ 0 $ G1 at 24
 if (a) { } else if (b) { c } else { d } } $ 0 $ G1 at 1
{  (a) { } else if (b) { c } else { d } } $ 0 $ G1 at 7
{ if a) { } else if (b) { c } else { d } } $ 0 $ G1 at 5
{ if () { } else if (b) { c } else { d } } $ 0 $ G1 at 6
{ if (a { } else if (b) { c } else { d } } $ 0 $ G1 at 8
{ if (a)  } else if (b) { c } else { d } } $ 0 $ G1 at 10
{ if (a) {  else if (b) { c } else { d } } $ 0 $ G1 at 12
{ if (a) { }  if (b) { c } else { d } } $ 0 $ G1 at 14
{ if (a) { } else  (b) { c } else { d } } $ 0 $ G1 at 19
{ if (a) { } else if b) { c } else { d } } $ 0 $ G1 at 21
{ if (a) { } else if () { c } else { d } } $ 0 $ G1 at 22
{ if (a) { } else if (b { c } else { d } } $ 0 $ G1 at 24
{ if (a) { } else if (b)  c } else { d } } $ 0 $ G1 at 26
{ if (a) { } else if (b) {  } else { d } } $ 0 $ {ifs(a@6-7 {} ifs(b@22-23 {} {call(d@37-38)@37-38})@18-40)@2-40} rest 0
{ if (a) { } else if (b) { c  else { d } } $ 0 $ G1 at 30
{ if (a) { } else if (b) { c }  { d } } $ 0 $ G1 at 32
{ if (a) { } else if (b) { c } else  d } } $ 0 $ G1 at 37
{ if (a) { } else if (b) { c } else {  } } $ 0 $ {ifs(a@6-7 {} ifs(b@22-23 {call(c@27-28)@27-28} {})@18-40)@2-40} rest 0
{ if (a) { } else if (b) { c } else { d  } $ 0 $ G1 at 42
{ if (a) { } else if (b) { c } else { d }  $ 0 $ G1 at 42
 if (a) b else c = d } $ 0 $ G1 at 1
{  (a) b else c = d } $ 0 $ G1 at 7
{ if a) b else c = d } $ 0 $ G1 at 5
{ if () b else c = d } $ 0 $ G1 at 6
{ if (a b else c = d } $ 0 $ G1 at 8
{ if (a)  else c = d } $ 0 $ G1 at 10
{ if (a) b  c = d } $ 0 $ G1 at 12
{ if (a) b else  = d } $ 0 $ G1 at 17
{ if (a) b else c  d } $ 0 $ G1 at 19
{ if (a) b else c =  } $ 0 $ G1 at 21
{ if (a) b else c = d  $ 0 $ G1 at 22
 while (a) { b; c } } $ 0 $ G1 at 1
{  (a) { b; c } } $ 0 $ G1 at 7
{ while a) { b; c } } $ 0 $ G1 at 8
{ while () { b; c } } $ 0 $ G1 at 9
{ while (a { b; c } } $ 0 $ G1 at 11
{ while (a)  b; c } } $ 0 $ G1 at 13
{ while (a) { ; c } } $ 0 $ {while(a@9-10 {call(c@16-17)@16-17})@2-19} rest 0
{ while (a) { b;  } } $ 0 $ {while(a@9-10 {call(b@14-15)@14-15})@2-19} rest 0
{ while (a) { b; c  } $ 0 $ G1 at 21
{ while (a) { b; c }  $ 0 $ G1 at 21
 for (a <- b until c) { d } } $ 0 $ G1 at 1
{  (a <- b until c) { d } } $ 0 $ G1 at 6
{ for a <- b until c) { d } } $ 0 $ G1 at 6
{ for ( <- b until c) { d } } $ 0 $ G1 at 8
{ for (a  b until c) { d } } $ 0 $ G1 at 10
{ for (a <-  until c) { d } } $ 0 $ G1 at 19
{ for (a <- b  c) { d } } $ 0 $ G1 at 15
{ for (a <- b until ) { d } } $ 0 $ G1 at 20
{ for (a <- b until c { d } } $ 0 $ G1 at 22
{ for (a <- b until c)  d } } $ 0 $ G1 at 24
{ for (a <- b until c) {  } } $ 0 $ {for(a b@12-13 until c@20-21 {})@2-27} rest 0
{ for (a <- b until c) { d  } $ 0 $ G1 at 29
{ for (a <- b until c) { d }  $ 0 $ G1 at 29
 for (a <- 0 to -1) { } } $ 0 $ G1 at 1
{  (a <- 0 to -1) { } } $ 0 $ G1 at 6
{ for a <- 0 to -1) { } } $ 0 $ G1 at 6
{ for ( <- 0 to -1) { } } $ 0 $ G1 at 8
{ for (a  0 to -1) { } } $ 0 $ G1 at 10
{ for (a <-  to -1) { } } $ 0 $ G1 at 18
{ for (a <- 0  -1) { } } $ 0 $ G1 at 17
{ for (a <- 0 to 1) { } } $ 0 $ {for(a literal(Number 0)@12-13 to literal(Number 1)@17-18 {})@2-23} rest 0
{ for (a <- 0 to -) { } } $ 0 $ G1 at 18
{ for (a <- 0 to -1 { } } $ 0 $ G1 at 20
{ for (a <- 0 to -1)  } } $ 0 $ G1 at 22
{ for (a <- 0 to -1) {  } $ 0 $ G1 at 25
{ for (a <- 0 to -1) { }  $ 0 $ G1 at 25
 return; return a } $ 0 $ G1 at 1
{ ; return a } $ 0 $ {return(a@11-12)@4-12} rest 0
{ return;  a } $ 0 $ {return()@2-8;call(a@11-12)@11-12} rest 0
{ return; return  } $ 0 $ {return()@2-8;return()@10-16} rest 0
{ return; return a  $ 0 $ G1 at 19
 a match { case b => c } = d } $ 0 $ G1 at 1
{  match { case b => c } = d } $ 0 $ G1 at 3
{ a  { case b => c } = d } $ 0 $ G1 at 5
{ a match  case b => c } = d } $ 0 $ G1 at 11
{ a match {  b => c } = d } $ 0 $ G1 at 13
{ a match { case  => c } = d } $ 0 $ G1 at 18
{ a match { case b  c } = d } $ 0 $ G1 at 20
{ a match { case b =>  } = d } $ 0 $ {assign(match(a@2-3;case(b@17-18=>))@2-24=d@27-28)@2-28} rest 0
{ a match { case b => c  = d } $ 0 $ G1 at 30
{ a match { case b => c }  d } $ 0 $ G1 at 27
{ a match { case b => c } =  } $ 0 $ G1 at 29
{ a match { case b => c } = d  $ 0 $ G1 at 30
 a match { case b if c => return; d case _ => } } $ 0 $ G1 at 1
{  match { case b if c => return; d case _ => } } $ 0 $ G1 at 3
{ a  { case b if c => return; d case _ => } } $ 0 $ G1 at 5
{ a match  case b if c => return; d case _ => } } $ 0 $ G1 at 11
{ a match {  b if c => return; d case _ => } } $ 0 $ G1 at 13
{ a match { case  if c => return; d case _ => } } $ 0 $ G1 at 18
{ a match { case b  c => return; d case _ => } } $ 0 $ G1 at 20
{ a match { case b if  => return; d case _ => } } $ 0 $ G1 at 23
{ a match { case b if c  return; d case _ => } } $ 0 $ G1 at 25
{ a match { case b if c => ; d case _ => } } $ 0 $ {matches(a@2-3;case(b@17-18 if c@22-23=>call(d@29-30)@29-30) case(any()@36-37=>))@2-42} rest 0
{ a match { case b if c => return;  case _ => } } $ 0 $ {matches(a@2-3;case(b@17-18 if c@22-23=>return()@27-33) case(any()@41-42=>))@2-47} rest 0
{ a match { case b if c => return; d  _ => } } $ 0 $ G1 at 38
{ a match { case b if c => return; d case  => } } $ 0 $ G1 at 43
{ a match { case b if c => return; d case _  } } $ 0 $ G1 at 45
{ a match { case b if c => return; d case _ =>  } $ 0 $ G1 at 49
{ a match { case b if c => return; d case _ => }  $ 0 $ G1 at 49
 Contract(a, [b], {c}) } $ 0 $ G1 at 1
{ (a, [b], {c}) } $ 0 $ G1 at 4
{ Contracta, [b], {c}) } $ 0 $ G1 at 11
{ Contract(, [b], {c}) } $ 0 $ {skip(Ident Contract,Mark (,Mark ,,Mark [,Ident b,Mark ],Mark ,,Mark {,Ident c,Mark },Mark ))@2-22} rest 0
{ Contract(a [b], {c}) } $ 0 $ {skip(Ident Contract,Mark (,Ident a,Mark [,Ident b,Mark ],Mark ,,Mark {,Ident c,Mark },Mark ))@2-22} rest 0
{ Contract(a, b], {c}) } $ 0 $ G1 at 15
{ Contract(a, [], {c}) } $ 0 $ {skip(Ident Contract,Mark (,Ident a,Mark ,,Mark [,Mark ],Mark ,,Mark {,Ident c,Mark },Mark ))@2-22} rest 0
{ Contract(a, [b, {c}) } $ 0 $ G1 at 21
{ Contract(a, [b] {c}) } $ 0 $ {skip(Ident Contract,Mark (,Ident a,Mark ,,Mark [,Ident b,Mark ],Mark {,Ident c,Mark },Mark ))@2-22} rest 0
{ Contract(a, [b], c}) } $ 0 $ G1 at 20
{ Contract(a, [b], {}) } $ 0 $ {skip(Ident Contract,Mark (,Ident a,Mark ,,Mark [,Ident b,Mark ],Mark ,,Mark {,Mark },Mark ))@2-22} rest 0
{ Contract(a, [b], {c) } $ 0 $ G1 at 21
{ Contract(a, [b], {c} } $ 0 $ G1 at 23
{ Contract(a, [b], {c})  $ 0 $ G1 at 24
 Contract.a(b) } $ 0 $ G1 at 1
{ .a(b) } $ 0 $ G1 at 2
{ Contracta(b) } $ 0 $ {call(apply(Contracta@2-11;b@12-13)@2-14)@2-14} rest 0
{ Contract.(b) } $ 0 $ G1 at 11
{ Contract.ab) } $ 0 $ G1 at 13
{ Contract.a() } $ 0 $ {call(apply(select(Contract@2-10 a)@2-12)@2-14)@2-14} rest 0
{ Contract.a(b } $ 0 $ G1 at 15
{ Contract.a(b)  $ 0 $ G1 at 16
 Invariant } $ 0 $ G1 at 1
{  } $ 0 $ {} rest 0
{ Invariant  $ 0 $ G1 at 12
 l"a"; b } $ 0 $ G1 at 1
{ l"a";  } $ 0 $ {skip(Prefixed l"a")@2-6} rest 0
{ l"a"; b  $ 0 $ G1 at 10
"#;
