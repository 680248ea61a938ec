// Each form of members, with its tree.

/// Methods.
pub const METHODS: &[u8] = br#"
import org.sireum._;object A { def a: B } $ file(object(A {def(a:B@38-39)@31-39})@20-41)@0-41
import org.sireum._;object A { def;a: B } $ file(object(A {def(a:B@38-39)@31-39})@20-41)@0-41
import org.sireum._;object A { def a: B.C } $ file(object(A {def(a:B.C@38-41)@31-41})@20-43)@0-43
import org.sireum._;object A { def a: B[C] } $ file(object(A {def(a:B[C@40-41]@38-42)@31-42})@20-44)@0-44
import org.sireum._;object A { def a: B.C[D, E[F]] } $ file(object(A {def(a:B.C[D@42-43,E[F@47-48]@45-49]@38-50)@31-50})@20-52)@0-52
import org.sireum._;object A { def a(): B } $ file(object(A {def(a():B@40-41)@31-41})@20-43)@0-43
import org.sireum._;object A { def a ( ) : B } $ file(object(A {def(a():B@43-44)@31-44})@20-46)@0-46
import org.sireum._;object A { def a(b: C): D } $ file(object(A {def(a(b:C@40-41):D@44-45)@31-45})@20-47)@0-47
import org.sireum._;object A { def a(b: C, d: E): F } $ file(object(A {def(a(b:C@40-41,d:E@46-47):F@50-51)@31-51})@20-53)@0-53
import org.sireum._;object A { def a(val b: C, var d: E, f: G): H } $ file(object(A {def(a(val b:C@44-45,var d:E@54-55,f:G@60-61):H@64-65)@31-65})@20-67)@0-67
import org.sireum._;object A { def a(;b;:;C;,;d: E;): F } $ file(object(A {def(a(b:C@42-43,d:E@49-50):F@54-55)@31-55})@20-57)@0-57
import org.sireum._;object A { def a[B]: C } $ file(object(A {def(a[B]:C@41-42)@31-42})@20-44)@0-44
import org.sireum._;object A { def a[B, C]: D } $ file(object(A {def(a[B,C]:D@44-45)@31-45})@20-47)@0-47
import org.sireum._;object A { def a[B](): C } $ file(object(A {def(a[B]():C@43-44)@31-44})@20-46)@0-46
import org.sireum._;object A { def a[B, C](d: B, e: C): F } $ file(object(A {def(a[B,C](d:B@46-47,e:C@52-53):F@56-57)@31-57})@20-59)@0-59
import org.sireum._;object A { def a;: B } $ file(object(A {def(a:B@39-40)@31-40})@20-42)@0-42
import org.sireum._;object A { def a();: B } $ file(object(A {def(a():B@41-42)@31-42})@20-44)@0-44
import org.sireum._;object A { def a:;B } $ file(object(A {def(a:B@38-39)@31-39})@20-41)@0-41
import org.sireum._;object A { def T: F } $ file(object(A {def(T:F@38-39)@31-39})@20-41)@0-41
import org.sireum._;object A { def until(to: Contract): Invariant } $ file(object(A {def(until(to:Contract@45-53):Invariant@56-65)@31-65})@20-67)@0-67
import org.sireum._;object A { override def a: B } $ file(object(A {def(override a:B@47-48)@31-48})@20-50)@0-50
import org.sireum._;object A { override;def a: B } $ file(object(A {def(override a:B@47-48)@31-48})@20-50)@0-50
import org.sireum._;object A { @strictpure override def a[B](c: D): E = f } $ file(object(A {def(note(strictpure)@31-42 override a[B](c:D@64-65):E@68-69=f@72-73)@31-73})@20-75)@0-75
import org.sireum._;object A { @pure def b: C } $ file(object(A {def(note(pure)@31-36 b:C@44-45)@31-45})@20-47)@0-47
import org.sireum._;object A { @pure override def b: C } $ file(object(A {def(note(pure)@31-36 override b:C@53-54)@31-54})@20-56)@0-56
import org.sireum._;object A { @a(b = c) @d override def e: F } $ G3 at 31
import org.sireum._;object A { @strictpure def a: B = c } $ file(object(A {def(note(strictpure)@31-42 a:B@50-51=c@54-55)@31-55})@20-57)@0-57
import org.sireum._;object A { @strictpure def a: B =;c } $ file(object(A {def(note(strictpure)@31-42 a:B@50-51=c@54-55)@31-55})@20-57)@0-57
import org.sireum._;object A { @strictpure def a: B;= c } $ file(object(A {def(note(strictpure)@31-42 a:B@50-51=c@54-55)@31-55})@20-57)@0-57
import org.sireum._;object A { @strictpure def a(): B = 1 } $ file(object(A {def(note(strictpure)@31-42 a():B@52-53=literal(Number 1)@56-57)@31-57})@20-59)@0-59
import org.sireum._;object A { @strictpure def a: B = -1 } $ file(object(A {def(note(strictpure)@31-42 a:B@50-51=literal(-Number 1)@54-56)@31-56})@20-58)@0-58
import org.sireum._;object A { @strictpure def a: B = "c" } $ file(object(A {def(note(strictpure)@31-42 a:B@50-51=literal(Quoted "c")@54-57)@31-57})@20-59)@0-59
import org.sireum._;object A { @strictpure def a: B = 'c' } $ file(object(A {def(note(strictpure)@31-42 a:B@50-51=literal(Letter 'c')@54-57)@31-57})@20-59)@0-59
import org.sireum._;object A { @strictpure def a: B = s"c" } $ file(object(A {def(note(strictpure)@31-42 a:B@50-51=literal(Prefixed s"c")@54-58)@31-58})@20-60)@0-60
import org.sireum._;object A { @strictpure def a: B = l"c" } $ file(object(A {def(note(strictpure)@31-42 a:B@50-51=literal(Prefixed l"c")@54-58)@31-58})@20-60)@0-60
import org.sireum._;object A { @strictpure def a: B = this } $ file(object(A {def(note(strictpure)@31-42 a:B@50-51=this()@54-58)@31-58})@20-60)@0-60
import org.sireum._;object A { @strictpure def a: B = (c) } $ file(object(A {def(note(strictpure)@31-42 a:B@50-51=paren(c@55-56)@54-57)@31-57})@20-59)@0-59
import org.sireum._;object A { @strictpure def a: B = c + d } $ file(object(A {def(note(strictpure)@31-42 a:B@50-51=infix(c@54-55 + d@58-59)@54-59)@31-59})@20-61)@0-61
import org.sireum._;object A { @strictpure def a: B = c +;d } $ file(object(A {def(note(strictpure)@31-42 a:B@50-51=infix(c@54-55 + d@58-59)@54-59)@31-59})@20-61)@0-61
import org.sireum._;object A { @strictpure def a: B = c - d - e } $ file(object(A {def(note(strictpure)@31-42 a:B@50-51=infix(infix(c@54-55 - d@58-59)@54-59 - e@62-63)@54-63)@31-63})@20-65)@0-65
import org.sireum._;object A { @strictpure def a: B = !c } $ file(object(A {def(note(strictpure)@31-42 a:B@50-51=prefix(! c@55-56)@54-56)@31-56})@20-58)@0-58
import org.sireum._;object A { @strictpure def a: B = c.d } $ file(object(A {def(note(strictpure)@31-42 a:B@50-51=select(c@54-55 d)@54-57)@31-57})@20-59)@0-59
import org.sireum._;object A { @strictpure def a: B = c;.d } $ file(object(A {def(note(strictpure)@31-42 a:B@50-51=select(c@54-55 d)@54-58)@31-58})@20-60)@0-60
import org.sireum._;object A { @strictpure def a: B = c(d) } $ file(object(A {def(note(strictpure)@31-42 a:B@50-51=apply(c@54-55;d@56-57)@54-58)@31-58})@20-60)@0-60
import org.sireum._;object A { @strictpure def a: B = c(d = e) } $ file(object(A {def(note(strictpure)@31-42 a:B@50-51=update(c@54-55;d=e@60-61)@54-62)@31-62})@20-64)@0-64
import org.sireum._;object A { @strictpure def a: B = c[D](e) } $ file(object(A {def(note(strictpure)@31-42 a:B@50-51=apply(given(c@54-55;D@56-57)@54-58;e@59-60)@54-61)@31-61})@20-63)@0-63
import org.sireum._;object A { @strictpure def a: B = if (c) d else e } $ file(object(A {def(note(strictpure)@31-42 a:B@50-51=if(c@58-59,d@61-62,e@68-69)@54-69)@31-69})@20-71)@0-71
import org.sireum._;object A { @strictpure def a: B = if (c) d;else e } $ file(object(A {def(note(strictpure)@31-42 a:B@50-51=if(c@58-59,d@61-62,e@68-69)@54-69)@31-69})@20-71)@0-71
import org.sireum._;object A { @strictpure def a: B = c match { case d => e } } $ file(object(A {def(note(strictpure)@31-42 a:B@50-51=match(c@54-55;case(d@69-70=>call(e@74-75)@74-75))@54-77)@31-77})@20-79)@0-79
import org.sireum._;object A { @strictpure def a: B = c;match {;case d =>;e;case _ =>;} } $ file(object(A {def(note(strictpure)@31-42 a:B@50-51=match(c@54-55;case(d@69-70=>call(e@74-75)@74-75) case(any()@81-82=>))@54-87)@31-87})@20-89)@0-89
import org.sireum._;object A { @strictpure def a: B = Contract(c) } $ file(object(A {def(note(strictpure)@31-42 a:B@50-51=apply(Contract@54-62;c@63-64)@54-65)@31-65})@20-67)@0-67
import org.sireum._;object A { @strictpure def a: B = Contract } $ file(object(A {def(note(strictpure)@31-42 a:B@50-51=Contract@54-62)@31-62})@20-64)@0-64
import org.sireum._;object A { def a: B = { } } $ file(object(A {def(a:B@38-39 {})@31-45})@20-47)@0-47
import org.sireum._;object A { def a: B = {;} } $ file(object(A {def(a:B@38-39 {})@31-45})@20-47)@0-47
import org.sireum._;object A { def a: B =;{ } } $ file(object(A {def(a:B@38-39 {})@31-45})@20-47)@0-47
import org.sireum._;object A { def a: B;= { } } $ file(object(A {def(a:B@38-39 {})@31-45})@20-47)@0-47
import org.sireum._;object A { def a: B = { c() } } $ file(object(A {def(a:B@38-39 {call(apply(c@44-45)@44-47)@44-47})@31-49})@20-51)@0-51
import org.sireum._;object A { def a: B = { return c } } $ file(object(A {def(a:B@38-39 {return(c@51-52)@44-52})@31-54})@20-56)@0-56
import org.sireum._;object A { def a: B = { return } } $ file(object(A {def(a:B@38-39 {return()@44-50})@31-52})@20-54)@0-54
import org.sireum._;object A { def a: B = { val c = d; return c } } $ file(object(A {def(a:B@38-39 {val(c=d@52-53)@44-53;return(c@62-63)@55-63})@31-65})@20-67)@0-67
import org.sireum._;object A { def a: B = {;val c: D = e;var f = g;f = c;h(f);return f;} } $ file(object(A {def(a:B@38-39 {val(c:D@51-52=e@55-56)@44-56;var(f=g@65-66)@57-66;assign(f@67-68=c@71-72)@67-72;call(apply(h@73-74;f@75-76)@73-77)@73-77;return(f@85-86)@78-86})@31-88})@20-90)@0-90
import org.sireum._;object A { def a: B = { if (c) { d() } } } $ file(object(A {def(a:B@38-39 {ifs(c@48-49 {call(apply(d@53-54)@53-56)@53-56})@44-58})@31-60})@20-62)@0-62
import org.sireum._;object A { def a: B = { if (c) { d() } else if (e) { f() } else { g() } } } $ file(object(A {def(a:B@38-39 {ifs(c@48-49 {call(apply(d@53-54)@53-56)@53-56} ifs(e@68-69 {call(apply(f@73-74)@73-76)@73-76} {call(apply(g@86-87)@86-89)@86-89})@64-91)@44-91})@31-93})@20-95)@0-95
import org.sireum._;object A { def a: B = { while (c) { d() } } } $ file(object(A {def(a:B@38-39 {while(c@51-52 {call(apply(d@56-57)@56-59)@56-59})@44-61})@31-63})@20-65)@0-65
import org.sireum._;object A { def a: B = { for (c <- d until e) { f() }; for (g <- h to i) { } } } $ file(object(A {def(a:B@38-39 {for(c d@54-55 until e@62-63 {call(apply(f@67-68)@67-70)@67-70})@44-72;for(g h@84-85 to i@89-90 {})@74-95})@31-97})@20-99)@0-99
import org.sireum._;object A { def a: B = { c match { case d => e(); case F(g, _) if h => i() } } } $ file(object(A {def(a:B@38-39 {matches(c@44-45;case(d@59-60=>call(apply(e@64-65)@64-67)@64-67) case(class(F;g@76-77,any()@79-80)@74-81 if h@85-86=>call(apply(i@90-91)@90-93)@90-93))@44-95})@31-97})@20-99)@0-99
import org.sireum._;object A { def a: B = { Contract(c, { d }); l"e"; f() } } $ file(object(A {def(a:B@38-39 {skip(Ident Contract,Mark (,Ident c,Mark ,,Mark {,Ident d,Mark },Mark ))@44-62;skip(Prefixed l"e")@64-68;call(apply(f@70-71)@70-73)@70-73})@31-75})@20-77)@0-77
import org.sireum._;object A { def a: B = { Contract.c() } } $ file(object(A {def(a:B@38-39 {call(apply(select(Contract@44-52 c)@44-54)@44-56)@44-56})@31-58})@20-60)@0-60
import org.sireum._;object A { def a: B = { c(d = e) } } $ G5 at 44
import org.sireum._;object A { def a: B = { c.d(e) = f } } $ file(object(A {def(a:B@38-39 {assign(apply(select(c@44-45 d)@44-47;e@48-49)@44-50=f@53-54)@44-54})@31-56})@20-58)@0-58
import org.sireum._;object A { def a: B; def c: D } $ file(object(A {def(a:B@38-39)@31-39;def(c:D@48-49)@41-49})@20-51)@0-51
import org.sireum._;object A { @strictpure def a: B = c; @strictpure def d: E = f } $ file(object(A {def(note(strictpure)@31-42 a:B@50-51=c@54-55)@31-55;def(note(strictpure)@57-68 d:E@76-77=f@80-81)@57-81})@20-83)@0-83
import org.sireum._;object A { def a: B = { c() }; def d: E = { f() } } $ file(object(A {def(a:B@38-39 {call(apply(c@44-45)@44-47)@44-47})@31-49;def(d:E@58-59 {call(apply(f@64-65)@64-67)@64-67})@51-69})@20-71)@0-71
import org.sireum._;object A { @strictpure def a: B = c;;;def d: E } $ file(object(A {def(note(strictpure)@31-42 a:B@50-51=c@54-55)@31-55;def(d:E@65-66)@58-66})@20-68)@0-68
import org.sireum._;object A { def a: B; override def c: D; @pure def f: G; @pure override def i: J } $ file(object(A {def(a:B@38-39)@31-39;def(override c:D@57-58)@41-58;def(note(pure)@60-65 f:G@73-74)@60-74;def(note(pure)@76-81 override i:J@98-99)@76-99})@20-101)@0-101
import org.sireum._;object A { def a: B; val c = d } $ file(object(A {def(a:B@38-39)@31-39;val(c=d@49-50)@41-50})@20-52)@0-52
"#;

/// Globals.
pub const GLOBALS: &[u8] = br#"
import org.sireum._;object A { val a = b } $ file(object(A {val(a=b@39-40)@31-40})@20-42)@0-42
import org.sireum._;object A { var a = b } $ file(object(A {var(a=b@39-40)@31-40})@20-42)@0-42
import org.sireum._;object A { val a: B = c } $ file(object(A {val(a:B@38-39=c@42-43)@31-43})@20-45)@0-45
import org.sireum._;object A { var a: B = c } $ file(object(A {var(a:B@38-39=c@42-43)@31-43})@20-45)@0-45
import org.sireum._;object A { val a: B.C = d } $ file(object(A {val(a:B.C@38-41=d@44-45)@31-45})@20-47)@0-47
import org.sireum._;object A { val a: B[C, D] = e } $ file(object(A {val(a:B[C@40-41,D@43-44]@38-45=e@48-49)@31-49})@20-51)@0-51
import org.sireum._;object A { val;a;: B;= c } $ file(object(A {val(a:B@39-40=c@43-44)@31-44})@20-46)@0-46
import org.sireum._;object A { val a =;b } $ file(object(A {val(a=b@39-40)@31-40})@20-42)@0-42
import org.sireum._;object A { override val a = b } $ file(object(A {val(override a=b@48-49)@31-49})@20-51)@0-51
import org.sireum._;object A { override var a: B = c } $ file(object(A {var(override a:B@47-48=c@51-52)@31-52})@20-54)@0-54
import org.sireum._;object A { override;val a = b } $ file(object(A {val(override a=b@48-49)@31-49})@20-51)@0-51
import org.sireum._;object A { @a val b = c } $ G3 at 31
import org.sireum._;object A { @a @b(c = d) override var e: F = g } $ G3 at 31
import org.sireum._;object A { val T = F } $ file(object(A {val(T=F@39-40)@31-40})@20-42)@0-42
import org.sireum._;object A { val until: to = Contract } $ file(object(A {val(until:to@42-44=Contract@47-55)@31-55})@20-57)@0-57
import org.sireum._;object A { val a = 1 } $ file(object(A {val(a=literal(Number 1)@39-40)@31-40})@20-42)@0-42
import org.sireum._;object A { val a = -1 } $ file(object(A {val(a=literal(-Number 1)@39-41)@31-41})@20-43)@0-43
import org.sireum._;object A { val a: Temp = temp"18" } $ file(object(A {val(a:Temp@38-42=literal(Prefixed temp"18")@45-53)@31-53})@20-55)@0-55
import org.sireum._;object A { val a = b + c * d } $ file(object(A {val(a=infix(b@39-40 + infix(c@43-44 * d@47-48)@43-48)@39-48)@31-48})@20-50)@0-50
import org.sireum._;object A { val a = b.c(d)[E] } $ file(object(A {val(a=given(apply(select(b@39-40 c)@39-42;d@43-44)@39-45;E@46-47)@39-48)@31-48})@20-50)@0-50
import org.sireum._;object A { val a = if (b) c else d } $ file(object(A {val(a=if(b@43-44,c@46-47,d@53-54)@39-54)@31-54})@20-56)@0-56
import org.sireum._;object A { val a = b match { case c => d } } $ file(object(A {val(a=match(b@39-40;case(c@54-55=>call(d@59-60)@59-60))@39-62)@31-62})@20-64)@0-64
import org.sireum._;object A { val a = b match { case c =>;d();e();} } $ file(object(A {val(a=match(b@39-40;case(c@54-55=>call(apply(d@59-60)@59-62)@59-62;call(apply(e@63-64)@63-66)@63-66))@39-68)@31-68})@20-70)@0-70
import org.sireum._;object A { val a = Contract(b) } $ file(object(A {val(a=apply(Contract@39-47;b@48-49)@39-50)@31-50})@20-52)@0-52
import org.sireum._;object A { val a = l"b" } $ file(object(A {val(a=literal(Prefixed l"b")@39-43)@31-43})@20-45)@0-45
import org.sireum._;object A { val a = b; val c = d } $ file(object(A {val(a=b@39-40)@31-40;val(c=d@50-51)@42-51})@20-53)@0-53
import org.sireum._;object A { val a = b; var c = d; def e: F; val g = h } $ file(object(A {val(a=b@39-40)@31-40;var(c=d@50-51)@42-51;def(e:F@60-61)@53-61;val(g=h@71-72)@63-72})@20-74)@0-74
import org.sireum._;object A { val a = (;b;) } $ file(object(A {val(a=paren(b@41-42)@39-44)@31-44})@20-46)@0-46
import org.sireum._;object A { val a = -b } $ file(object(A {val(a=prefix(- b@40-41)@39-41)@31-41})@20-43)@0-43
"#;
