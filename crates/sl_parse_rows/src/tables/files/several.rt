// Files that break several rules.

/// Several rules of the tree are broken: the least place is told.
pub const PLACED: &[u8] = br#"
=import org.sireum._;$
class A;object B { def c: D = { e; 1 = f } } $ G3 at 0
object A { def b: C = { 1 = d; e } };class F $ G4 at 24
object A { def b: C = { d; 1 = e } };class F $ G5 at 24
object A { def b: C = { d }; def e: F = g } $ G5 at 24
object A { def b: C = d; def e: F = { g } } $ G3 at 11
object A { def b: C = { 1 = d }; @a val e = f } $ G4 at 24
object A { @a val b = c match { case d => 1 = e } } $ G3 at 11
object A { @a(b = c match { case d => e; 1 = f }) val g = h } $ G3 at 11
object A { @strictpure def b: C = { d } } $ G3 at 11
object A { def b: C = d match { case e => 1 = f } } $ G3 at 11
@range(min = a match { case b => 1 = c }, max = 9) class D $ G3 at 0
@a(b = c match { case d => e; f }) @g class H $ G3 at 0
@range(min = 0, max = 9) @a(b = c match { case d => e; f }) class H $ G3 at 25
object A { def b: C = { if (d) { e } else { 1 = f } } } $ G5 at 33
object A { def b: C = { if (d match { case e => 1 = f }) { g } } } $ G4 at 48
object A { def b: C = { a(b = c) = d match { case e => f; g } } } $ G4 at 24
object A { def b: C = { d = e match { case f => g; h = i; 1 = j } } } $ G5 at 48
object A { def b: C = { d = e match { case f => h = i; 1 = j; k } } } $ G4 at 55
object A { def b: C = { d(e = f match { case g => 1 = h }) } } $ G5 at 24
object A { def b: C = { (d match { case e => 1 = f; g }) } } $ G5 at 24
object A { def b: C = { d match { case e => f; g } = 1 } } $ G4 at 24
object A { def b: C = { while (d) { }; 1 = e; f(g match { case h => i; j }) } } $ G4 at 39
"#;

/// Rules G1, G2 and G6 come before the rules of the tree, wherever they stand.
pub const BEFORE: &[u8] = br#"
=$
import org.sireum._;class A;object B { def } $ G1 at 43
import org.sireum._;class A class B $ G1 at 28
import org.sireum._;object A { def b: C = { d; 1 = e; val } } $ G1 at 58
import org.sireum._;@a @b object C {  $ G1 at 37
import org.sireum._;object A { def b: C = { 1 = d $ G1 at 49
import org.sireum._;object A { def b: C = { d }; $ G1 at 48
class A;import org.sireum._ $ G2 at 0
import org.sireum.A._;class B $ G2 at 18
package a;@b class C;import org.sireum._ $ G2 at 10
package a;import org.scala._;class B $ G2 at 21
import org.sireum._;class A;object B { val c = ((((((((((((((((((((((((((((((((((((((((((((((((((((((((((((((((d)))))))))))))))))))))))))))))))))))))))))))))))))))))))))))))))) } $ G6 at 110
import org.sireum._;class A;object B { val c = (((((((((((((((((((((((((((((((((((((((((((((((((((((((((((((((d))))))))))))))))))))))))))))))))))))))))))))))))))))))))))))))) } $ G3 at 20
import org.sireum._;object A { def b: C = { d; 1 = e; f = ((((((((((((((((((((((((((((((((((((((((((((((((((((((((((((((g)))))))))))))))))))))))))))))))))))))))))))))))))))))))))))))) } } $ G5 at 44
import org.sireum._;object A { def b: C = { d; 1 = e; f = (((((((((((((((((((((((((((((((((((((((((((((((((((((((((((((((g))))))))))))))))))))))))))))))))))))))))))))))))))))))))))))))) } } $ G6 at 120
"#;
