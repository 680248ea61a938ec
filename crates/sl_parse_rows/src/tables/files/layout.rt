// Line feeds in declarations, and between them.

/// With a Separator, or without.
pub const LAYOUT: &[u8] = br#"
import org.sireum._;class A;() $ G1 at 28
import org.sireum._;@record class A;[B]() $ file(class(note(record)@20-27 A[B]())@20-41)@0-41
import org.sireum._;class A[B];() $ G1 at 30
import org.sireum._;@datatype class A(b: C;) $ file(class(note(datatype)@20-29 A(b:C@41-42))@20-44)@0-44
import org.sireum._;@record class A(;b: C) $ file(class(note(record)@20-27 A(b:C@40-41))@20-42)@0-42
import org.sireum._;@datatype class A(b;: C) $ file(class(note(datatype)@20-29 A(b:C@42-43))@20-44)@0-44
import org.sireum._;@sig trait A;[B] $ file(trait(note(sig)@20-24 A[B])@20-36)@0-36
import org.sireum._;object A;extends;B;with;C;{;} $ file(object(A extends B@37-38 with C@44-45 {})@20-49)@0-49
import org.sireum._;@msig trait A;extends B.;C;[D] $ file(trait(note(msig)@20-25 A extends B.C[D@48-49]@42-50)@20-50)@0-50
import org.sireum._;@record class A() extends B;[C] $ file(class(note(record)@20-27 A() extends B[C@49-50]@46-51)@20-51)@0-51
import org.sireum._;@datatype class A() extends B;.C $ file(class(note(datatype)@20-29 A() extends B.C@48-52)@20-52)@0-52
import org.sireum._;class A() extends B;(c) $ G1 at 40
import org.sireum._;@a;class B $ G1 at 22
import org.sireum._;@a; class B $ G1 at 22
import org.sireum._;@a /* ; */ class B $ G1 at 22
import org.sireum._;@a // b;class C $ G1 at 22
import org.sireum._;@a(b = c);class D $ G1 at 29
import org.sireum._;@a(b = c) // d;class E $ G1 at 29
import org.sireum._;@a;@b class C $ G1 at 22
import org.sireum._;@a @b;class C $ G1 at 25
import org.sireum._;@a;(b = c) class D $ G1 at 22
import org.sireum._;@a(;b = c;);class D $ G1 at 31
import org.sireum._;@a;object B { "c" } $ G1 at 22
import org.sireum._;@a;trait B $ G1 at 22
import org.sireum._;@a;object B $ G1 at 22
import org.sireum._;@a; $ G1 at 23
import org.sireum._;@a $ G1 at 22
import org.sireum._;@a;; $ G1 at 24
import org.sireum._;import a;@b;class C $ G1 at 31
import org.sireum._;object A { @a;def b: C } $ G1 at 33
import org.sireum._;object A { @a(b = c);def d: E } $ G1 at 40
import org.sireum._;object A { @pure override;def b: C } $ file(object(A {def(note(pure)@31-36 override b:C@53-54)@31-54})@20-56)@0-56
import org.sireum._;object A { @a;override def b: C } $ G1 at 33
import org.sireum._;object A { @a;val b = c } $ G1 at 33
import org.sireum._;object A { @a;} } $ G1 at 34
import org.sireum._;object A { def a;[B]: C } $ file(object(A {def(a[B]:C@42-43)@31-43})@20-45)@0-45
import org.sireum._;object A { def a;(b: C): D } $ G1 at 36
import org.sireum._;object A { def a[B];(c: D): E } $ G1 at 39
import org.sireum._;object A { def a(b: C);: D } $ file(object(A {def(a(b:C@40-41):D@45-46)@31-46})@20-48)@0-48
import org.sireum._;object A { def a: B;{ } } $ G1 at 40
import org.sireum._;object A { def a: B;(c) } $ G1 at 40
import org.sireum._;object A { def a: B;[C] } $ file(object(A {def(a:B[C@41-42]@38-43)@31-43})@20-45)@0-45
import org.sireum._;object A { def a: B;.C } $ file(object(A {def(a:B.C@38-42)@31-42})@20-44)@0-44
import org.sireum._;object A { @strictpure def a: B = c;[D] } $ file(object(A {def(note(strictpure)@31-42 a:B@50-51=given(c@54-55;D@57-58)@54-59)@31-59})@20-61)@0-61
import org.sireum._;object A { def a: B = c;(d) } $ G1 at 44
import org.sireum._;object A { def a: B = c;+ d } $ G1 at 44
import org.sireum._;object A { def a: B = c;= d } $ G1 at 44
import org.sireum._;object A { @strictpure def a: B = c;match { case d => } } $ file(object(A {def(note(strictpure)@31-42 a:B@50-51=match(c@54-55;case(d@69-70=>))@54-75)@31-75})@20-77)@0-77
import org.sireum._;object A { def a: B = { c }.d } $ G1 at 47
import org.sireum._;object A { def a: B = { c };.d } $ G1 at 48
import org.sireum._;object A { def a: B = { c };match { case d => } } $ G1 at 48
import org.sireum._;object A { def a: B = if (c);d else e } $ G1 at 48
import org.sireum._;object A { @strictpure def a: B = if (c) d; else e } $ file(object(A {def(note(strictpure)@31-42 a:B@50-51=if(c@58-59,d@61-62,e@69-70)@54-70)@31-70})@20-72)@0-72
import org.sireum._;object A { @strictpure def a: B = if;(c) d else e } $ file(object(A {def(note(strictpure)@31-42 a:B@50-51=if(c@58-59,d@61-62,e@68-69)@54-69)@31-69})@20-71)@0-71
import org.sireum._;object A { val a;= b } $ file(object(A {val(a=b@39-40)@31-40})@20-42)@0-42
import org.sireum._;object A { val a = b;: C } $ G1 at 41
import org.sireum._;object A { val a: B;[C] = d } $ file(object(A {val(a:B[C@41-42]@38-43=d@46-47)@31-47})@20-49)@0-49
import org.sireum._;object A { val a = b;- c } $ G1 at 41
import org.sireum._;object A { val a = b c = d } $ G1 at 41
import org.sireum._;object A { val a = b val c = d } $ G1 at 41
import org.sireum._;object A { def a: B def c: D } $ G1 at 40
import org.sireum._;object A { def a: B = c def d: E } $ G1 at 44
import org.sireum._;object A { def a: B = { c } def d: E } $ G1 at 48
import org.sireum._;object A { "a" "b" } $ G1 at 35
import org.sireum._;object A { 'a 'b } $ G1 at 34
import org.sireum._;@enum object A { "a" // b;'c } $ file(enum(note(enum)@20-25 A;Quoted "a",Symbol 'c)@20-50)@0-50
import org.sireum._;@enum object A { "a" /* ; */ 'b } $ file(enum(note(enum)@20-25 A;Quoted "a",Symbol 'b)@20-53)@0-53
import org.sireum._;object A { "a" /* b */ 'c } $ G1 at 43
"#;
