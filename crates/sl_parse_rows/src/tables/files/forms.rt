// Each form of imports and declarations, with its tree.

/// Packages, and the library's import.
pub const PACKAGES: &[u8] = br#"
import org.sireum._ $ file()@0-19
import org.sireum._; $ file()@0-19
  import org.sireum._   $ file()@2-21
;;import org.sireum._;; $ file()@2-21
import org . sireum . _ $ file()@0-23
import;org.sireum._ $ file()@0-19
import;org;.sireum;._ $ file()@0-21
import org.;sireum.;_ $ file()@0-21
import org./* a */sireum._ // b $ file()@0-26
package a;import org.sireum._ $ file(package a)@0-29
package a.b;import org.sireum._ $ file(package a.b)@0-31
package a.b.c.d;import org.sireum._ $ file(package a.b.c.d)@0-35
package a;;;import org.sireum._ $ file(package a)@0-31
package;a;import org.sireum._ $ file(package a)@0-29
package a;.b;import org.sireum._ $ file(package a.b)@0-32
package a.;b;import org.sireum._ $ file(package a.b)@0-32
package a // b;import org.sireum._ $ file(package a)@0-34
package a /* ; */ import org.sireum._ $ file(package a)@0-37
  package a;  import org.sireum._   $ file(package a)@2-33
package org.sireum;import org.sireum._ $ file(package org.sireum)@0-38
package T.F.until.to.Contract.Invariant;import org.sireum._ $ file(package T.F.until.to.Contract.Invariant)@0-59
package a;import org.sireum._;@range(min = 0, max = 9) class A $ file(package a;ints(note(range;min=literal(Number 0)@43-44,max=literal(Number 9)@52-53)@30-54 A)@30-62)@0-62
package a.b;import org.sireum._;import c;@bits(signed = T, width = 8) class D;import e._ $ file(package a.b;import(c)@32-40;import(e._)@78-88;ints(note(bits;signed=T@56-57,width=literal(Number 8)@67-68)@41-69 D)@41-77)@0-88
"#;

/// Imports of one name and of all, between declarations too.
pub const IMPORTS: &[u8] = br#"
import org.sireum._;import a $ file(import(a)@20-28)@0-28
import org.sireum._;import a._ $ file(import(a._)@20-30)@0-30
import org.sireum._;import a.b $ file(import(a.b)@20-30)@0-30
import org.sireum._;import a.b._ $ file(import(a.b._)@20-32)@0-32
import org.sireum._;import a.b.c.d $ file(import(a.b.c.d)@20-34)@0-34
import org.sireum._;import a.b.c.d._ $ file(import(a.b.c.d._)@20-36)@0-36
import org.sireum._;import org.sireum._ $ file(import(org.sireum._)@20-39)@0-39
import org.sireum._;import org.sireum $ file(import(org.sireum)@20-37)@0-37
import org.sireum._;import org $ file(import(org)@20-30)@0-30
import org.sireum._;import sireum._ $ file(import(sireum._)@20-35)@0-35
import org.sireum._;import T $ file(import(T)@20-28)@0-28
import org.sireum._;import F._ $ file(import(F._)@20-30)@0-30
import org.sireum._;import until.to.Contract $ file(import(until.to.Contract)@20-44)@0-44
import org.sireum._;import;a;.b $ file(import(a.b)@20-31)@0-31
import org.sireum._;import a.;b.;_ $ file(import(a.b._)@20-34)@0-34
import org.sireum._;import a;import b $ file(import(a)@20-28;import(b)@29-37)@0-37
import org.sireum._;import a._;import b._;import c $ file(import(a._)@20-30;import(b._)@31-41;import(c)@42-50)@0-50
import org.sireum._;import a;;import b $ file(import(a)@20-28;import(b)@30-38)@0-38
import org.sireum._;import a;@range(min = 0, max = 9) class B $ file(import(a)@20-28;ints(note(range;min=literal(Number 0)@42-43,max=literal(Number 9)@51-52)@29-53 B)@29-61)@0-61
import org.sireum._;@bits(signed = T, width = 8) class A;import b $ file(import(b)@57-65;ints(note(bits;signed=T@35-36,width=literal(Number 8)@46-47)@20-48 A)@20-56)@0-65
import org.sireum._;@range(min = 0, max = 9) class A;import b;@bits(signed = T, width = 8) class C $ file(import(b)@53-61;ints(note(range;min=literal(Number 0)@33-34,max=literal(Number 9)@42-43)@20-44 A)@20-52;ints(note(bits;signed=T@77-78,width=literal(Number 8)@88-89)@62-90 C)@62-98)@0-98
import org.sireum._;import a;@range(min = 0, max = 9) class B;import c._;@bits(signed = T, width = 8) class D;import e $ file(import(a)@20-28;import(c._)@62-72;import(e)@110-118;ints(note(range;min=literal(Number 0)@42-43,max=literal(Number 9)@51-52)@29-53 B)@29-61;ints(note(bits;signed=T@88-89,width=literal(Number 8)@99-100)@73-101 D)@73-109)@0-118
import org.sireum._;object A;import b;@sig trait C;import d $ file(import(b)@29-37;import(d)@51-59;object(A)@20-28;trait(note(sig)@38-42 C)@38-50)@0-59
import org.sireum._;object A { };import b $ file(import(b)@33-41;object(A {})@20-32)@0-41
import org.sireum._;@datatype class A();import b $ file(import(b)@40-48;class(note(datatype)@20-29 A())@20-39)@0-48
import org.sireum._;@range(min = 0, max = 9) class B;import c $ file(import(c)@53-61;ints(note(range;min=literal(Number 0)@33-34,max=literal(Number 9)@42-43)@20-44 B)@20-52)@0-61
import org.sireum._;@bits(signed = T, width = 8) class D;import e._ $ file(import(e._)@57-67;ints(note(bits;signed=T@35-36,width=literal(Number 8)@46-47)@20-48 D)@20-56)@0-67
"#;

/// Notes, with fields and without.
pub const NOTES: &[u8] = br#"
import org.sireum._;@a class B $ G3 at 20
import org.sireum._;@ a class B $ G3 at 20
import org.sireum._;@a @b class C $ G3 at 20
import org.sireum._;@a@b class C $ G3 at 20
import org.sireum._;@a @b @c @d class E $ G3 at 20
import org.sireum._;@a(b = c) class D $ G3 at 20
import org.sireum._;@a (b = c) class D $ G3 at 20
import org.sireum._;@a(b = c, d = e) class F $ G3 at 20
import org.sireum._;@a(b = c, d = e, f = g) class H $ G3 at 20
import org.sireum._;@a(b = 1) class C $ G3 at 20
import org.sireum._;@a(b = -1) class C $ G3 at 20
import org.sireum._;@a(b = - 1, c = -128) class D $ G3 at 20
import org.sireum._;@range(min = -40, max = 125) class Temp $ file(ints(note(range;min=literal(-Number 40)@33-36,max=literal(Number 125)@44-47)@20-48 Temp)@20-59)@0-59
import org.sireum._;@bits(signed = T, width = 8) class S8 $ file(ints(note(bits;signed=T@35-36,width=literal(Number 8)@46-47)@20-48 S8)@20-57)@0-57
import org.sireum._;@a(b = "c") class D $ G3 at 20
import org.sireum._;@a(b = 'c', d = s"e") class F $ G3 at 20
import org.sireum._;@a(b = l"c") class D $ G3 at 20
import org.sireum._;@a(b = this) class C $ G3 at 20
import org.sireum._;@a(b = (c)) class D $ G3 at 20
import org.sireum._;@a(b = -c) class D $ G3 at 20
import org.sireum._;@a(b = !c) class D $ G3 at 20
import org.sireum._;@a(b = c + d * e) class F $ G3 at 20
import org.sireum._;@a(b = c.d) class E $ G3 at 20
import org.sireum._;@a(b = c(d, e)) class F $ G3 at 20
import org.sireum._;@a(b = c(d = e)) class F $ G3 at 20
import org.sireum._;@a(b = c[D]) class E $ G3 at 20
import org.sireum._;@a(b = if (c) d else e) class F $ G3 at 20
import org.sireum._;@a(b = c match { case d => e }) class F $ G3 at 20
import org.sireum._;@a(b = Contract(c)) class D $ G3 at 20
import org.sireum._;@a(;b = c;,;d;=;e;) class F $ G3 at 20
import org.sireum._;@T(F = T) class T $ G3 at 20
import org.sireum._;@until(to = Contract) class Invariant $ G3 at 20
import org.sireum._;@a @b(c = d) @e class F $ G3 at 20
import org.sireum._;@a(b = c) @d(e = f) class G $ G3 at 20
import org.sireum._;@a(b = c)@d class E $ G3 at 20
import org.sireum._;@enum object A { "b" } $ file(enum(note(enum)@20-25 A;Quoted "b")@20-42)@0-42
import org.sireum._;@record class A() $ file(class(note(record)@20-27 A())@20-37)@0-37
import org.sireum._;@datatype class A(b: C) $ file(class(note(datatype)@20-29 A(b:C@41-42))@20-43)@0-43
import org.sireum._;@sig trait A $ file(trait(note(sig)@20-24 A)@20-32)@0-32
import org.sireum._;@a object B $ G3 at 20
import org.sireum._;@a object B { @c def d: E } $ G3 at 20
import org.sireum._;@a object B { @c @d(e = f) val g = h } $ G3 at 20
import org.sireum._;@a object B { @c override def d: E; @f(g = h) override var i: J = k } $ G3 at 20
import org.sireum._;@a class B() { @c def d: E; @f @g override def h(): I } $ G3 at 20
import org.sireum._;@a trait B { @c(d = -1) def e: F } $ G3 at 20
import org.sireum._;@;a class B $ G3 at 20
import org.sireum._;class A;@b class C;@d(e = f) class G $ G3 at 20
"#;

/// Enums.
pub const ENUMS: &[u8] = br#"
import org.sireum._;@enum object A { "b" } $ file(enum(note(enum)@20-25 A;Quoted "b")@20-42)@0-42
import org.sireum._;@enum object A { 'b } $ file(enum(note(enum)@20-25 A;Symbol 'b)@20-41)@0-41
import org.sireum._;@enum object A {"b"} $ file(enum(note(enum)@20-25 A;Quoted "b")@20-40)@0-40
import org.sireum._;@enum object A {;"b";} $ file(enum(note(enum)@20-25 A;Quoted "b")@20-42)@0-42
import org.sireum._;@enum object A { "b"; "c" } $ file(enum(note(enum)@20-25 A;Quoted "b",Quoted "c")@20-47)@0-47
import org.sireum._;@enum object A { 'b; 'c; 'd } $ file(enum(note(enum)@20-25 A;Symbol 'b,Symbol 'c,Symbol 'd)@20-49)@0-49
import org.sireum._;@enum object A { "b"; 'c; "d" } $ file(enum(note(enum)@20-25 A;Quoted "b",Symbol 'c,Quoted "d")@20-51)@0-51
import org.sireum._;@enum object A {;"b";;;'c;} $ file(enum(note(enum)@20-25 A;Quoted "b",Symbol 'c)@20-47)@0-47
import org.sireum._;@enum object A { "" } $ file(enum(note(enum)@20-25 A;Quoted "")@20-41)@0-41
import org.sireum._;@enum object A { """b""" } $ file(enum(note(enum)@20-25 A;Quoted """b""")@20-46)@0-46
import org.sireum._;@enum object A { "b c\n" } $ file(enum(note(enum)@20-25 A;Quoted "b c\n")@20-46)@0-46
import org.sireum._;@enum object A { 'type; 'T } $ file(enum(note(enum)@20-25 A;Symbol 'type,Symbol 'T)@20-48)@0-48
import org.sireum._;@enum object T { "T" } $ file(enum(note(enum)@20-25 T;Quoted "T")@20-42)@0-42
import org.sireum._;@enum object A;{ "b" } $ file(enum(note(enum)@20-25 A;Quoted "b")@20-42)@0-42
import org.sireum._;@enum object;A { "b" } $ file(enum(note(enum)@20-25 A;Quoted "b")@20-42)@0-42
import org.sireum._;@enum object A { "b"; "b" } $ file(enum(note(enum)@20-25 A;Quoted "b",Quoted "b")@20-47)@0-47
import org.sireum._;@enum object A { "b"; } $ file(enum(note(enum)@20-25 A;Quoted "b")@20-43)@0-43
import org.sireum._;@enum object A { ; "b" } $ file(enum(note(enum)@20-25 A;Quoted "b")@20-44)@0-44
import org.sireum._;@enum object A { "b" };@enum object C { 'd } $ file(enum(note(enum)@20-25 A;Quoted "b")@20-42;enum(note(enum)@43-48 C;Symbol 'd)@43-64)@0-64
import org.sireum._;@enum object Mode {;  "Off";  "Heat";  "Cool";} $ file(enum(note(enum)@20-25 Mode;Quoted "Off",Quoted "Heat",Quoted "Cool")@20-67)@0-67
"#;

/// Integers and classes.
pub const CLASSES: &[u8] = br#"
import org.sireum._;@range(min = 0, max = 9) class A $ file(ints(note(range;min=literal(Number 0)@33-34,max=literal(Number 9)@42-43)@20-44 A)@20-52)@0-52
import org.sireum._;@bits(signed = T, width = 8) class;A $ file(ints(note(bits;signed=T@35-36,width=literal(Number 8)@46-47)@20-48 A)@20-56)@0-56
import org.sireum._;@range(min = 0, max = 9) class A // b $ file(ints(note(range;min=literal(Number 0)@33-34,max=literal(Number 9)@42-43)@20-44 A)@20-52)@0-52
import org.sireum._;@bits(signed = T, width = 8) class T $ file(ints(note(bits;signed=T@35-36,width=literal(Number 8)@46-47)@20-48 T)@20-56)@0-56
import org.sireum._;@range(min = 0, max = 9) class until;@bits(signed = T, width = 8) class to;@range(min = 0, max = 9) class Contract $ file(ints(note(range;min=literal(Number 0)@33-34,max=literal(Number 9)@42-43)@20-44 until)@20-56;ints(note(bits;signed=T@72-73,width=literal(Number 8)@83-84)@57-85 to)@57-94;ints(note(range;min=literal(Number 0)@108-109,max=literal(Number 9)@117-118)@95-119 Contract)@95-134)@0-134
import org.sireum._;@bits(signed = T, width = 8) class A;@range(min = 0, max = 9) class B;@bits(signed = T, width = 8) class C $ file(ints(note(bits;signed=T@35-36,width=literal(Number 8)@46-47)@20-48 A)@20-56;ints(note(range;min=literal(Number 0)@70-71,max=literal(Number 9)@79-80)@57-81 B)@57-89;ints(note(bits;signed=T@105-106,width=literal(Number 8)@116-117)@90-118 C)@90-126)@0-126
import org.sireum._;@record class A() $ file(class(note(record)@20-27 A())@20-37)@0-37
import org.sireum._;@datatype class A ( ) $ file(class(note(datatype)@20-29 A())@20-41)@0-41
import org.sireum._;@record class A(;) $ file(class(note(record)@20-27 A())@20-38)@0-38
import org.sireum._;@datatype class A(b: C) $ file(class(note(datatype)@20-29 A(b:C@41-42))@20-43)@0-43
import org.sireum._;@record class A(val b: C) $ file(class(note(record)@20-27 A(val b:C@43-44))@20-45)@0-45
import org.sireum._;@datatype class A(var b: C) $ file(class(note(datatype)@20-29 A(var b:C@45-46))@20-47)@0-47
import org.sireum._;@record class A(b: C, d: E) $ file(class(note(record)@20-27 A(b:C@39-40,d:E@45-46))@20-47)@0-47
import org.sireum._;@datatype class A(val b: C, var d: E, f: G) $ file(class(note(datatype)@20-29 A(val b:C@45-46,var d:E@55-56,f:G@61-62))@20-63)@0-63
import org.sireum._;@record class A(b: C.D) $ file(class(note(record)@20-27 A(b:C.D@39-42))@20-43)@0-43
import org.sireum._;@datatype class A(b: C[D]) $ file(class(note(datatype)@20-29 A(b:C[D@43-44]@41-45))@20-46)@0-46
import org.sireum._;@record class A(b: C.D[E, F[G.H]]) $ file(class(note(record)@20-27 A(b:C.D[E@43-44,F[G.H@48-51]@46-52]@39-53))@20-54)@0-54
import org.sireum._;@datatype class A(T: F, until: to) $ file(class(note(datatype)@20-29 A(T:F@41-42,until:to@51-53))@20-54)@0-54
import org.sireum._;@record class A(;val b;:;C;,;var d: E;) $ file(class(note(record)@20-27 A(val b:C@45-46,var d:E@56-57))@20-59)@0-59
import org.sireum._;@datatype class A[B]() $ file(class(note(datatype)@20-29 A[B]())@20-42)@0-42
import org.sireum._;@record class A[B, C](d: B) $ file(class(note(record)@20-27 A[B,C](d:B@45-46))@20-47)@0-47
import org.sireum._;@datatype class A[;B;,;C;](;) $ file(class(note(datatype)@20-29 A[B,C]())@20-49)@0-49
import org.sireum._;@record class A[T, F, to]() $ file(class(note(record)@20-27 A[T,F,to]())@20-47)@0-47
import org.sireum._;@datatype class A() extends B $ file(class(note(datatype)@20-29 A() extends B@48-49)@20-49)@0-49
import org.sireum._;@record class A();extends B $ file(class(note(record)@20-27 A() extends B@46-47)@20-47)@0-47
import org.sireum._;@datatype class A() extends;B $ file(class(note(datatype)@20-29 A() extends B@48-49)@20-49)@0-49
import org.sireum._;@record class A() extends B.C $ file(class(note(record)@20-27 A() extends B.C@46-49)@20-49)@0-49
import org.sireum._;@datatype class A() extends B[C] $ file(class(note(datatype)@20-29 A() extends B[C@50-51]@48-52)@20-52)@0-52
import org.sireum._;@record class A() extends B.C[D, E[F]] $ file(class(note(record)@20-27 A() extends B.C[D@50-51,E[F@55-56]@53-57]@46-58)@20-58)@0-58
import org.sireum._;@datatype class A() extends B with C $ file(class(note(datatype)@20-29 A() extends B@48-49 with C@55-56)@20-56)@0-56
import org.sireum._;@record class A() extends B;with C $ file(class(note(record)@20-27 A() extends B@46-47 with C@53-54)@20-54)@0-54
import org.sireum._;@datatype class A() extends B[C] with D with E.F $ file(class(note(datatype)@20-29 A() extends B[C@50-51]@48-52 with D@58-59 with E.F@65-68)@20-68)@0-68
import org.sireum._;@record class A() { } $ file(class(note(record)@20-27 A() {})@20-41)@0-41
import org.sireum._;@datatype class A() {} $ file(class(note(datatype)@20-29 A() {})@20-42)@0-42
import org.sireum._;@record class A();{;} $ file(class(note(record)@20-27 A() {})@20-41)@0-41
import org.sireum._;@datatype class A() { def b: C } $ file(class(note(datatype)@20-29 A() {def(b:C@49-50)@42-50})@20-52)@0-52
import org.sireum._;@record class A() { override def b: C } $ file(class(note(record)@20-27 A() {def(override b:C@56-57)@40-57})@20-59)@0-59
import org.sireum._;@datatype class A() { def b: C; def d: E } $ file(class(note(datatype)@20-29 A() {def(b:C@49-50)@42-50;def(d:E@59-60)@52-60})@20-62)@0-62
import org.sireum._;@record class A() {;;def b: C;;;def d: E;;} $ file(class(note(record)@20-27 A() {def(b:C@48-49)@41-49;def(d:E@59-60)@52-60})@20-63)@0-63
import org.sireum._;@datatype class A() { @strictpure def c: D = e } $ file(class(note(datatype)@20-29 A() {def(note(strictpure)@42-53 c:D@61-62=e@65-66)@42-66})@20-68)@0-68
import org.sireum._;@record class A() extends B { } $ file(class(note(record)@20-27 A() extends B@46-47 {})@20-51)@0-51
import org.sireum._;@datatype class A() extends B with C { @strictpure def d: E = f } $ file(class(note(datatype)@20-29 A() extends B@48-49 with C@55-56 {def(note(strictpure)@59-70 d:E@78-79=f@82-83)@59-83})@20-85)@0-85
import org.sireum._;@record class A[B](c: B) extends D[B] { @strictpure override def e(f: B): B = f } $ file(class(note(record)@20-27 A[B](c:B@42-43) extends D[B@55-56]@53-57 {def(note(strictpure)@60-71 override e(f:B@90-91):B@94-95=f@98-99)@60-99})@20-101)@0-101
import org.sireum._;@datatype class A(b: C);@record class D(e: F) $ file(class(note(datatype)@20-29 A(b:C@41-42))@20-43;class(note(record)@44-51 D(e:F@63-64))@44-65)@0-65
import org.sireum._;@record class State(var mode: Mode.Type, var last: Temp, val hist: MSZ[Z], var at: Z, var switches: Z) $ file(class(note(record)@20-27 State(var mode:Mode.Type@50-59,var last:Temp@71-75,val hist:MSZ[Z@91-92]@87-93,var at:Z@103-104,var switches:Z@120-121))@20-122)@0-122
"#;

/// Traits.
pub const TRAITS: &[u8] = br#"
import org.sireum._;@msig trait A $ file(trait(note(msig)@20-25 A)@20-33)@0-33
import org.sireum._;@datatype trait;A $ file(trait(note(datatype)@20-29 A)@20-37)@0-37
import org.sireum._;@record trait T $ file(trait(note(record)@20-27 T)@20-35)@0-35
import org.sireum._;@sig trait A;@msig trait B $ file(trait(note(sig)@20-24 A)@20-32;trait(note(msig)@33-38 B)@33-46)@0-46
import org.sireum._;@datatype trait A[B] $ file(trait(note(datatype)@20-29 A[B])@20-40)@0-40
import org.sireum._;@record trait A[B, C] $ file(trait(note(record)@20-27 A[B,C])@20-41)@0-41
import org.sireum._;@sig trait A extends B $ file(trait(note(sig)@20-24 A extends B@41-42)@20-42)@0-42
import org.sireum._;@msig trait A;extends B $ file(trait(note(msig)@20-25 A extends B@42-43)@20-43)@0-43
import org.sireum._;@datatype trait A extends B with C $ file(trait(note(datatype)@20-29 A extends B@46-47 with C@53-54)@20-54)@0-54
import org.sireum._;@record trait A[B] extends C[B] with D.E $ file(trait(note(record)@20-27 A[B] extends C[B@49-50]@47-51 with D.E@57-60)@20-60)@0-60
import org.sireum._;@sig trait A { } $ file(trait(note(sig)@20-24 A {})@20-36)@0-36
import org.sireum._;@msig trait A;{ } $ file(trait(note(msig)@20-25 A {})@20-37)@0-37
import org.sireum._;@datatype trait A[B] { } $ file(trait(note(datatype)@20-29 A[B] {})@20-44)@0-44
import org.sireum._;@record trait A[B];{ } $ file(trait(note(record)@20-27 A[B] {})@20-42)@0-42
import org.sireum._;@sig trait A { def b: C } $ file(trait(note(sig)@20-24 A {def(b:C@42-43)@35-43})@20-45)@0-45
import org.sireum._;@msig trait A { def b: C; def d(): E; def f(g: H): I } $ file(trait(note(msig)@20-25 A {def(b:C@43-44)@36-44;def(d():E@55-56)@46-56;def(f(g:H@67-68):I@71-72)@58-72})@20-74)@0-74
import org.sireum._;@datatype trait A { @pure override def c: D } $ file(trait(note(datatype)@20-29 A {def(note(pure)@40-45 override c:D@62-63)@40-63})@20-65)@0-65
import org.sireum._;@record trait A extends B { } $ file(trait(note(record)@20-27 A extends B@44-45 {})@20-49)@0-49
import org.sireum._;@sig trait A[B] extends C { def d: B } $ file(trait(note(sig)@20-24 A[B] extends C@44-45 {def(d:B@55-56)@48-56})@20-58)@0-58
import org.sireum._;@sig trait A { @pure def b(c: D): E } $ file(trait(note(sig)@20-24 A {def(note(pure)@35-40 b(c:D@50-51):E@54-55)@35-55})@20-57)@0-57
"#;

/// Objects.
pub const OBJECTS: &[u8] = br#"
import org.sireum._;object A $ file(object(A)@20-28)@0-28
import org.sireum._;object;A $ file(object(A)@20-28)@0-28
import org.sireum._;object T $ file(object(T)@20-28)@0-28
import org.sireum._;object A;object B $ file(object(A)@20-28;object(B)@29-37)@0-37
import org.sireum._;object A { } $ file(object(A {})@20-32)@0-32
import org.sireum._;object A;{ } $ file(object(A {})@20-32)@0-32
import org.sireum._;object A {;;} $ file(object(A {})@20-33)@0-33
import org.sireum._;object A extends B $ file(object(A extends B@37-38)@20-38)@0-38
import org.sireum._;object A;extends B $ file(object(A extends B@37-38)@20-38)@0-38
import org.sireum._;object A extends B with C $ file(object(A extends B@37-38 with C@44-45)@20-45)@0-45
import org.sireum._;object A extends B.C[D] with E[F] $ file(object(A extends B.C[D@41-42]@37-43 with E[F@51-52]@49-53)@20-53)@0-53
import org.sireum._;object A extends B { } $ file(object(A extends B@37-38 {})@20-42)@0-42
import org.sireum._;object A extends B;{ } $ file(object(A extends B@37-38 {})@20-42)@0-42
import org.sireum._;object A extends B with C { } $ file(object(A extends B@37-38 with C@44-45 {})@20-49)@0-49
import org.sireum._;object A { def b: C } $ file(object(A {def(b:C@38-39)@31-39})@20-41)@0-41
import org.sireum._;object A { val b = c } $ file(object(A {val(b=c@39-40)@31-40})@20-42)@0-42
import org.sireum._;object A { var b = c } $ file(object(A {var(b=c@39-40)@31-40})@20-42)@0-42
import org.sireum._;object A { val b = c; def d: E; var f: G = h; override def i(): J } $ file(object(A {val(b=c@39-40)@31-40;def(d:E@49-50)@42-50;var(f:G@59-60=h@63-64)@52-64;def(override i():J@84-85)@66-85})@20-87)@0-87
import org.sireum._;object A extends B { val c: D = e } $ file(object(A extends B@37-38 {val(c:D@48-49=e@52-53)@41-53})@20-55)@0-55
import org.sireum._;object A { def b: C };object D { val e = f } $ file(object(A {def(b:C@38-39)@31-39})@20-41;object(D {val(e=f@61-62)@53-62})@42-64)@0-64
import org.sireum._;object A extends App {;;  def main(args: ISZ[String]): Z = {;    return 0;  };} $ file(object(A extends App@37-40 {def(main(args:ISZ[String@65-71]@61-72):Z@75-76 {return(literal(Number 0)@92-93)@85-93})@46-97})@20-99)@0-99
"#;

/// Several forms in one file, and blanks of each sort.
pub const MIXED: &[u8] = br#"
package a;import org.sireum._;import b._;@enum object D { "e" };@range(min = 0, max = 9) class F;@datatype class G();@msig trait H;object I $ file(package a;import(b._)@30-40;enum(note(enum)@41-46 D;Quoted "e")@41-63;ints(note(range;min=literal(Number 0)@77-78,max=literal(Number 9)@86-87)@64-88 F)@64-96;class(note(datatype)@97-106 G())@97-116;trait(note(msig)@117-122 H)@117-130;object(I)@131-139)@0-139
import org.sireum._;@bits(signed = T, width = 8) class A;@range(min = 0, max = 9) class A;object A;@datatype trait A $ file(ints(note(bits;signed=T@35-36,width=literal(Number 8)@46-47)@20-48 A)@20-56;ints(note(range;min=literal(Number 0)@70-71,max=literal(Number 9)@79-80)@57-81 A)@57-89;object(A)@90-98;trait(note(datatype)@99-108 A)@99-116)@0-116
import org.sireum._ // a;@bits(signed = T, width = 8) class A // b $ file(ints(note(bits;signed=T@40-41,width=literal(Number 8)@51-52)@25-53 A)@25-61)@0-61
import org.sireum._ /* a */ /* ; */ @range(min = 0, max = 9) class A $ file(ints(note(range;min=literal(Number 0)@49-50,max=literal(Number 9)@58-59)@36-60 A)@36-68)@0-68
import org.sireum._;/* a /* b */ c */ @record class A /* d */ ( /* e */ ) // f $ file(class(note(record)@38-45 A())@38-73)@0-73
import org.sireum._;object A { // b;val c = d // e;def f: G // h;} // i; $ file(object(A {val(c=d@44-45)@36-45;def(f:G@58-59)@51-59})@20-66)@0-66
import org.sireum._;object A;// b;;/* c */;{ val d = e } $ file(object(A {val(d=e@53-54)@45-54})@20-56)@0-56
import org.sireum._;@datatype class A() extends B { };@bits(signed = T, width = 8) class C;object D;@record trait E { };@enum object F { 'g } $ file(class(note(datatype)@20-29 A() extends B@48-49 {})@20-53;ints(note(bits;signed=T@69-70,width=literal(Number 8)@80-81)@54-82 C)@54-90;object(D)@91-99;trait(note(record)@100-107 E {})@100-119;enum(note(enum)@120-125 F;Symbol 'g)@120-141)@0-141
import org.sireum._;object A { val b = c };@enum object D { "e" };object F;{;};object G;@range(min = 0, max = 9) class H;import i $ file(import(i)@121-129;object(A {val(b=c@39-40)@31-40})@20-42;enum(note(enum)@43-48 D;Quoted "e")@43-65;object(F {})@66-78;object(G)@79-87;ints(note(range;min=literal(Number 0)@101-102,max=literal(Number 9)@110-111)@88-112 H)@88-120)@0-129
"#;
