// Notes: which stand before which declarations, and the pairs that they take.

/// Each note before each form of a declaration, and none. Of methods the body decides.
pub const EACH: &[u8] = br#"
=import org.sireum._;$ object A { "b" }
 $ G3 at 1
@enum $ file
@range(min = 0, max = 9) $ G3 at 0
@bits(signed = T, width = 8) $ G3 at 0
@datatype $ G3 at 0
@record $ G3 at 0
@sig $ G3 at 0
@msig $ G3 at 0
@pure $ G3 at 0
@strictpure $ G3 at 0
=import org.sireum._;$ class A
 $ G3 at 1
@enum $ G3 at 0
@range(min = 0, max = 9) $ file
@bits(signed = T, width = 8) $ file
@datatype $ G3 at 0
@record $ G3 at 0
@sig $ G3 at 0
@msig $ G3 at 0
@pure $ G3 at 0
@strictpure $ G3 at 0
=import org.sireum._;$ class A()
 $ G3 at 1
@enum $ G3 at 0
@range(min = 0, max = 9) $ G3 at 0
@bits(signed = T, width = 8) $ G3 at 0
@datatype $ file
@record $ file
@sig $ G3 at 0
@msig $ G3 at 0
@pure $ G3 at 0
@strictpure $ G3 at 0
=import org.sireum._;$ trait A
 $ G3 at 1
@enum $ G3 at 0
@range(min = 0, max = 9) $ G3 at 0
@bits(signed = T, width = 8) $ G3 at 0
@datatype $ file
@record $ file
@sig $ file
@msig $ file
@pure $ G3 at 0
@strictpure $ G3 at 0
=import org.sireum._;$ object A
 $ file
@enum $ G3 at 0
@range(min = 0, max = 9) $ G3 at 0
@bits(signed = T, width = 8) $ G3 at 0
@datatype $ G3 at 0
@record $ G3 at 0
@sig $ G3 at 0
@msig $ G3 at 0
@pure $ G3 at 0
@strictpure $ G3 at 0
=import org.sireum._;object A { $ def b: C }
 $ file
@enum $ G3 at 0
@range(min = 0, max = 9) $ G3 at 0
@bits(signed = T, width = 8) $ G3 at 0
@datatype $ G3 at 0
@record $ G3 at 0
@sig $ G3 at 0
@msig $ G3 at 0
@pure $ file
@strictpure $ file
=import org.sireum._;object A { $ def b(): C = { } }
 $ file
@enum $ G3 at 0
@range(min = 0, max = 9) $ G3 at 0
@bits(signed = T, width = 8) $ G3 at 0
@datatype $ G3 at 0
@record $ G3 at 0
@sig $ G3 at 0
@msig $ G3 at 0
@pure $ file
@strictpure $ G3 at 0
=import org.sireum._;object A { $ def b: C = d }
 $ G3 at 1
@enum $ G3 at 0
@range(min = 0, max = 9) $ G3 at 0
@bits(signed = T, width = 8) $ G3 at 0
@datatype $ G3 at 0
@record $ G3 at 0
@sig $ G3 at 0
@msig $ G3 at 0
@pure $ G3 at 0
@strictpure $ file
=import org.sireum._;object A { $ val b = c }
 $ file
@enum $ G3 at 0
@range(min = 0, max = 9) $ G3 at 0
@bits(signed = T, width = 8) $ G3 at 0
@datatype $ G3 at 0
@record $ G3 at 0
@sig $ G3 at 0
@msig $ G3 at 0
@pure $ G3 at 0
@strictpure $ G3 at 0
=import org.sireum._;object A { $ override var b: C = d }
 $ file
@pure $ G3 at 0
=import org.sireum._;@datatype class A() { $ override def b: C = d }
 $ G3 at 1
@pure $ G3 at 0
@strictpure $ file
@datatype $ G3 at 0
=import org.sireum._;@msig trait A { $ def b(c: D): E }
 $ file
@pure $ file
@strictpure $ file
@msig $ G3 at 0
=import org.sireum._;@sig trait A { $ def b: C = { return d } }
 $ file
@pure $ file
@strictpure $ G3 at 0
"#;

/// Names of no note.
pub const NAMED: &[u8] = br#"
=import org.sireum._;$ object A { 'b }
@Enum $ G3 at 0
@enums $ G3 at 0
@enu $ G3 at 0
@e $ G3 at 0
@T $ G3 at 0
@until $ G3 at 0
@enum() $ G1 at 6
@ enum $ file
@/* a */enum/* b */ $ file
=import org.sireum._;$ class A
@Range(min = 0, max = 9) $ G3 at 0
@rang(min = 0, max = 9) $ G3 at 0
@ranges(min = 0, max = 9) $ G3 at 0
@bit(signed = T, width = 8) $ G3 at 0
@Bits(signed = T, width = 8) $ G3 at 0
@ext $ G3 at 0
=import org.sireum._;$ trait A
@Sig $ G3 at 0
@sigs $ G3 at 0
@si $ G3 at 0
@mSig $ G3 at 0
@msi $ G3 at 0
@data $ G3 at 0
@records $ G3 at 0
=import org.sireum._;object A { $ def b: C }
@Pure $ G3 at 0
@pures $ G3 at 0
@strictPure $ G3 at 0
@strict $ G3 at 0
@ strictpure $ file
=import org.sireum._;$
@org object A $ G3 at 0
@sireum object A { } $ G3 at 0
"#;

/// Pairs of `@range`.
pub const RANGE: &[u8] = br#"
=import org.sireum._;$ class A
@range $ G3 at 0
@range(min = 0) $ G3 at 0
@range(max = 9) $ G3 at 0
@range(index = T) $ G3 at 0
@range(min = 0, index = T) $ G3 at 0
@range(index = F, max = 9) $ G3 at 0
@range(max = 9, min = 0) $ file
@range(min = 0, max = 9, index = T) $ file
@range(min = 0, max = 9, index = F) $ file
@range(min = 0, index = T, max = 9) $ file
@range(index = T, min = 0, max = 9) $ file
@range(max = 9, index = T, min = 0) $ file
@range(min = -40, max = 125) $ file
@range(min = - 40, max = -/* a */125) $ file
@range(min = -0, max = 0) $ file
@range(min = 9, max = 0) $ file
@range(min = -99999999999999999999999999999999999999, max = 99999999999999999999999999999999999999) $ file
@range(;min = 0,;max = 9;) $ file
@ range ( min = 0 , max = 9 ) $ file
@range(min = 0, min = 0, max = 9) $ G3 at 0
@range(min = 0, max = 9, max = 9) $ G3 at 0
@range(min = 0, max = 9, min = 1) $ G3 at 0
@range(min = 0, max = 9, index = T, index = T) $ G3 at 0
@range(index = T, min = 0, max = 9, index = F) $ G3 at 0
@range(min = 0, min = 9) $ G3 at 0
@range(max = 0, max = 9) $ G3 at 0
@range(min = 0, max = 9, a = 1) $ G3 at 0
@range(a = 1, min = 0, max = 9) $ G3 at 0
@range(min = 0, max = 9, width = 8) $ G3 at 0
@range(min = 0, max = 9, signed = T) $ G3 at 0
@range(signed = T, width = 8) $ G3 at 0
@range(Min = 0, max = 9) $ G3 at 0
@range(min = 0, maximum = 9) $ G3 at 0
@range(min = 0, max = 9, indexes = T) $ G3 at 0
@range(min = a, max = 9) $ G3 at 0
@range(min = 0, max = a) $ G3 at 0
@range(min = T, max = 9) $ G3 at 0
@range(min = 0, max = F) $ G3 at 0
@range(min = "0", max = 9) $ G3 at 0
@range(min = '0', max = 9) $ G3 at 0
@range(min = z"0", max = 9) $ G3 at 0
@range(min = 0, max = l"9") $ G3 at 0
@range(min = (0), max = 9) $ G3 at 0
@range(min = -(0), max = 9) $ G3 at 0
@range(min = !0, max = 9) $ G3 at 0
@range(min = ~0, max = 9) $ G3 at 0
@range(min = -a, max = 9) $ G3 at 0
@range(min = -0.a, max = 9) $ G3 at 0
@range(min = 0.a, max = 9) $ G3 at 0
@range(min = 0(1), max = 9) $ G3 at 0
@range(min = 0[A], max = 9) $ G3 at 0
@range(min = 0(a = 1), max = 9) $ G3 at 0
@range(min = 0 - 1, max = 9) $ G3 at 0
@range(min = 0, max = 3 * 3) $ G3 at 0
@range(min = this, max = 9) $ G3 at 0
@range(min = 0, max = if (a) 1 else 2) $ G3 at 0
@range(min = 0, max = a match { case b => 1 }) $ G3 at 0
@range(min = 0, max = 9, index = 1) $ G3 at 0
@range(min = 0, max = 9, index = a) $ G3 at 0
@range(min = 0, max = 9, index = t) $ G3 at 0
@range(min = 0, max = 9, index = TT) $ G3 at 0
@range(min = 0, max = 9, index = (T)) $ G3 at 0
@range(min = 0, max = 9, index = !T) $ G3 at 0
@range(min = 0, max = 9, index = T.a) $ G3 at 0
@range(min = 0, max = 9, index = T()) $ G3 at 0
@range(min = 0, max = 9, index = T & T) $ G3 at 0
@range(min = 0, max = 9, index = "T") $ G3 at 0
@range(min = 0, max = 9, index = 'T') $ G3 at 0
@range(min = 0, max = 9, index = T"") $ G3 at 0
@range(min = 0, max = 9, index = true) $ G1 at 33
@range(min = - -1, max = 9) $ G1 at 15
@range(min = +1, max = 9) $ G1 at 13
@range() $ G1 at 7
"#;

/// Pairs of `@bits`.
pub const BITS: &[u8] = br#"
=import org.sireum._;$ class A
@bits $ G3 at 0
@bits(signed = T) $ G3 at 0
@bits(width = 8) $ G3 at 0
@bits(signed = F, width = 8) $ file
@bits(width = 8, signed = T) $ file
@bits(signed = T, width = 7) $ file
@bits(signed = T, width = 0) $ file
@bits(signed = T, width = -8) $ file
@bits(signed = T, width = - 8) $ file
@bits(signed = T, signed = F, width = 8) $ G3 at 0
@bits(signed = T, width = 8, width = 8) $ G3 at 0
@bits(signed = T, signed = F) $ G3 at 0
@bits(width = 8, width = 16) $ G3 at 0
@bits(signed = T, width = 8, index = T) $ G3 at 0
@bits(signed = T, width = 8, min = 0) $ G3 at 0
@bits(min = 0, max = 9) $ G3 at 0
@bits(sign = T, width = 8) $ G3 at 0
@bits(signed = T, Width = 8) $ G3 at 0
@bits(signed = 1, width = 8) $ G3 at 0
@bits(signed = a, width = 8) $ G3 at 0
@bits(signed = (T), width = 8) $ G3 at 0
@bits(signed = !F, width = 8) $ G3 at 0
@bits(signed = "T", width = 8) $ G3 at 0
@bits(signed = T, width = T) $ G3 at 0
@bits(signed = T, width = a) $ G3 at 0
@bits(signed = T, width = (8)) $ G3 at 0
@bits(signed = T, width = 4 + 4) $ G3 at 0
@bits(signed = T, width = "8") $ G3 at 0
@bits(signed = 8, width = T) $ G3 at 0
"#;

/// Notes that take no pairs.
pub const NOTHING: &[u8] = br#"
=import org.sireum._;$
@enum(a = b) object A { "b" } $ G3 at 0
@enum(min = 0, max = 9) object A { "b" } $ G3 at 0
@datatype(a = b) class A() $ G3 at 0
@record(signed = T, width = 8) class A() $ G3 at 0
@datatype(a = 1) trait A $ G3 at 0
@record(a = T) trait A $ G3 at 0
@sig(a = "b") trait A $ G3 at 0
@msig(a = b) trait A $ G3 at 0
object A { @pure(a = T) def b: C } $ G3 at 11
object A { @pure(a = T) def b: C = { } } $ G3 at 11
object A { @strictpure(a = 1) def b: C = d } $ G3 at 11
object A { @strictpure(min = 0, max = 9) def b: C } $ G3 at 11
"#;

/// More than one note.
pub const AGAIN: &[u8] = br#"
=import org.sireum._;$
@enum @enum object A { "b" } $ G3 at 6
@enum@enum object A { "b" } $ G3 at 5
@range(min = 0, max = 9) @range(min = 0, max = 9) class A $ G3 at 25
@range(min = 0, max = 9) @bits(signed = T, width = 8) class A $ G3 at 25
@bits(signed = T, width = 8)@a class A $ G3 at 28
@datatype @record class A() $ G3 at 10
@record @datatype class A() $ G3 at 8
@sig @datatype trait A $ G3 at 5
@msig @sig @record trait A $ G3 at 6
@sig @a @b @c trait A $ G3 at 5
@a @sig trait A $ G3 at 0
@enum @datatype class A() $ G3 at 0
@a @b object A $ G3 at 0
@pure @strictpure object A { } $ G3 at 0
object A { @pure @pure def b: C } $ G3 at 17
object A { @pure @strictpure def b: C } $ G3 at 17
object A { @strictpure @pure def b: C = d } $ G3 at 23
object A { @strictpure @pure def b: C = { } } $ G3 at 11
object A { @pure @a override def b: C } $ G3 at 17
object A { @a @b val c = d } $ G3 at 11
@datatype class A() { @pure @pure def b: C } $ G3 at 28
@sig trait A { def b: C; @pure @pure def d: E } $ G3 at 31
@enum @a(b = c) object A { "b" } $ G3 at 6
"#;

/// Where a note is missing, or is the first of several that are wrong.
pub const PLACED: &[u8] = br#"
=import org.sireum._;$
  class A $ G3 at 2
;;/* a */ trait A $ G3 at 10
import a;class B;import c $ G3 at 9
object A;class B;trait C $ G3 at 9
@enum object A { "b" };object C { "d" } $ G3 at 23
@record class A();@datatype trait B;class C() $ G3 at 36
@range(min = 0, max = 9) class A;@bits(signed = T, width = 8) class B;@range(min = 0) class C $ G3 at 70
object A { def b: C; def d: E = f } $ G3 at 21
object A { override def b: C = d; def e: F = g } $ G3 at 11
object A { val b = c; @a var d = e; def f: G = h } $ G3 at 22
object A { def b(c: D): E = { }; @pure def f: G; def h: I = j } $ G3 at 49
class A() { def b: C = d } $ G3 at 0
@a class A() { @b def b: C = d } $ G3 at 0
@datatype class A() { def b: C = d } $ G3 at 22
@datatype class A(b: C) extends D { def e: F; @a def g: H } $ G3 at 46
@sig trait A { def b: C = d };class E $ G3 at 15
@sig trait A { @strictpure def b: C = d };class E $ G3 at 42
trait A { def b: C } $ G3 at 0
@msig trait A { @pure override def b: C; @pure override def d: E = { return f } } $ file
object A { @pure def b: C; def d: E; @strictpure def f: G; @strictpure def h: I = j; @pure def k: L = { } } $ file
=$
package a.b;import org.sireum._;@enum object C { 'd };@range(max = 1, min = 0) class E;@record class F[G](h: G) { def i: J };@sig trait K { @pure def l: M } $ file
"#;
