// Expressions that are statements.

/// Expressions that are statements.
pub const CALLED: &[u8] = br#"
=import org.sireum._;object A { def f: Z = { $ } }
a() $ file
a(b) $ file
a(b, c) $ file
a.b() $ file
a()() $ file
a(b)(c) $ file
a[B]() $ file
a[B](c) $ file
a(b = c)() $ file
(a)() $ file
(a())() $ file
(a + b)(c) $ file
this() $ file
this.a(b) $ file
1(2) $ file
"a"(b) $ file
u8"1"() $ file
T() $ file
until(to) $ file
(Contract)(a) $ file
a(b)(c = d)(e) $ file
println(a == b) $ file
a() ; b() $ file
Contract(a) $ file
Invariant() $ file
l"a" $ file
l"a";Contract(b + ) $ file
"#;

/// Expressions that are none.
pub const OTHERS: &[u8] = br#"
=import org.sireum._;object A { def f: Z = { $ } }
a $ G5 at 0
T $ G5 at 0
until $ G5 at 0
Contract $ G5 at 0
this $ G5 at 0
1 $ G5 at 0
-1 $ G5 at 0
"a" $ G5 at 0
'a' $ G5 at 0
u8"1" $ G5 at 0
-a $ G5 at 0
-a() $ G5 at 0
!a() $ G5 at 0
~a(b) $ G5 at 0
a + b $ G5 at 0
a() + b() $ G5 at 0
a == b $ G5 at 0
a.b $ G5 at 0
a().b $ G5 at 0
a(b).c $ G5 at 0
this.a $ G5 at 0
Contract.a $ G5 at 0
a[B] $ G5 at 0
a()[B] $ G5 at 0
a(b = c) $ G5 at 0
a(b = c, d = e) $ G5 at 0
a.b(c = d) $ G5 at 0
a()(b = c) $ G5 at 0
a[B](c = d) $ G5 at 0
(a) $ G5 at 0
(a()) $ G5 at 0
((a())) $ G5 at 0
(a + b) $ G5 at 0
(a(b = c)) $ G5 at 0
if (a) b else c $ G5 at 0
if (a) b() else c() $ G5 at 0
(if (a) b() else c()) $ G5 at 0
(a match { case b => c }) $ G5 at 0
(a match { case b => c() }) $ G5 at 0
a match { case b => c }.d $ G1 at 23
  a $ G5 at 2
a();b $ G5 at 4
a;b() $ G5 at 0
a() ; /* b */ c $ G5 at 14
Contract(a);b $ G5 at 12
val a = b;a;return a $ G5 at 10
"#;

/// Statements of cases. A match that begins a statement is a statement, also where it is the only one of a case.
pub const MATCHED: &[u8] = br#"
=import org.sireum._;object A { def f: Z = { $ } }
a match { case b => } $ file
a match { case b => c() } $ file
a match { case b => c();d(e) } $ file
a + b match { case c => d() } $ file
(a) match { case b => c() } $ file
a match { case b => c } $ G5 at 20
a match { case b => 1 } $ G5 at 20
a match { case b => c();d } $ G5 at 24
a match { case b => c() case d => e } $ G5 at 34
a match { case b => c case d => e } $ G5 at 20
a match { case b => (c()) } $ G5 at 20
a match { case b if c => d } $ G5 at 25
a match { case b => c match { case d => e } } $ G5 at 40
a match { case b => if (c) { d } } $ G5 at 29
(a match { case b => c }) match { case d => e() } $ file
val a = b match { case c => d } $ file
val a = b match { case c => 1 } $ file
val a = b match { case c => d + e } $ file
val a = b match { case c => (d) } $ file
val a = b match { case c => d(e = f) } $ file
val a = b match { case c => d[E] } $ file
val a = b match { case c => if (d) e else f } $ file
val a = b match { case c => (d match { case e => f }) } $ file
val a = b match { case c => d case e => f case g => h } $ file
val a = b match { case c => } $ file
val a = b match { case c => val d = e } $ file
val a = b match { case c => d = e } $ file
val a = b match { case c => return } $ file
val a = b match { case c => l"d" } $ file
val a = b match { case c => d();e() } $ file
val a = b match { case c => d;e } $ G5 at 28
val a = b match { case c => d;e() } $ G5 at 28
val a = b match { case c => d();e } $ G5 at 32
val a = b match { case c => val d = e;d } $ G5 at 38
val a = b match { case c => l"d";e } $ G5 at 33
val a = b match { case c => d;Contract(e) } $ G5 at 28
val a = b match { case c => d case e => f;g } $ G5 at 40
val a = b match { case c => d case e => f(); g case h => i } $ G5 at 45
val a = b match { case c => d match { case e => f } } $ G5 at 48
val a = b match { case c => d match { case e => f() } } $ file
val a = b match { case c => (d match { case e => f;g }) } $ G5 at 49
val a = b match { case c => if (d) { e } } $ G5 at 37
val a = b match { case c => if (d) { } else { e } } $ G5 at 46
val a = b match { case c => while (d) { e } } $ G5 at 40
val a = b match { case c => for (d <- e until f) { g } } $ G5 at 51
val a = b match { case c => d(e match { case f => g }) } $ file
val a = b match { case c => d(e match { case f => g;h }) } $ G5 at 50
a = b match { case c => d } $ file
return a match { case b => c } $ file
return (a match { case b => c }) $ file
a(b match { case c => d }) $ file
if (a match { case b => c }) { } $ file
while (a match { case b => c }) { d() } $ file
for (a <- b match { case c => d } until e match { case f => g }) { } $ file
a match { case b if (c match { case d => e }) => f() } $ file
val a = b(c = d match { case e => f }) $ file
val a = if (b) c match { case d => e } else f match { case g => h } $ file
a match { case b => c } = d $ G4 at 0
"#;

/// Statements wherever they stand.
pub const INSIDE: &[u8] = br#"
=import org.sireum._;object A { def f: Z = { $ } }
if (a) { b } $ G5 at 9
if (a) { b() } else { c } $ G5 at 22
if (a) { } else if (b) { c } $ G5 at 25
if (a) { } else if (b) { } else { c } $ G5 at 34
while (a) { b } $ G5 at 12
for (a <- b until c) { d } $ G5 at 23
for (a <- b to c) { while (d) { if (e) { f } } } $ G5 at 41
while (a) { b() };c $ G5 at 18
=import org.sireum._;object A { $ }
def a: B = { c } $ G5 at 13
@pure def a: B = { c } $ G5 at 19
@strictpure def a: B = c $ file
@strictpure def a: B = c match { case d => e } $ file
@strictpure def a: B = c match { case d => e case f => g;h } $ G5 at 55
val a = b match { case c => d } $ file
var a = b match { case c => d;e } $ G5 at 28
def a: B = { c() }; def d: E = { f } $ G5 at 33
=import org.sireum._;$
@record class A() { def b: C = { d } } $ G5 at 33
@msig trait A { @pure def b: C = { d } } $ G5 at 35
object A;object B { def c: D = { }; def e: F = { if (g) { h } } } $ G5 at 58
"#;
