// Left sides of assignments.

/// Left sides that are paths.
pub const PATHS: &[u8] = br#"
=import org.sireum._;object A { def f: Z = { $ } }
a = 1 $ file
this = 1 $ file
T = 1 $ file
until = 1 $ file
Contract = 1 $ file
(a) = 1 $ file
((a)) = 1 $ file
(this) = 1 $ file
a.b = 1 $ file
a.b.c.d = 1 $ file
this.a = 1 $ file
this.a.b = 1 $ file
(a).b = 1 $ file
(a.b) = 1 $ file
((a).b).c = 1 $ file
Contract.a = 1 $ file
a(0) = 1 $ file
a(0)(1) = 2 $ file
a(b)(c)(d) = e $ file
this(0) = 1 $ file
a.b(0).c(1).d = 2 $ file
(a)(0) = 1 $ file
(a(0)) = 1 $ file
((a(0)).b)(1) = 2 $ file
a = b;c.d = e;f(g) = h $ file
"#;

/// What stands in the argument of an application on the left is free.
pub const ARGUMENTS: &[u8] = br#"
=import org.sireum._;object A { def f: Z = { $ } }
a(-1) = b $ file
a(-b) = c $ file
a(!b) = c $ file
a("b") = c $ file
a('b') = c $ file
a(u8"1") = b $ file
a(1 + 2) = b $ file
a((b + c)) = d $ file
a(b()) = c $ file
a(b(c, d)) = e $ file
a(b(c = d)) = e $ file
a(b[C]) = d $ file
a(b[C](d)) = e $ file
a(if (b) c else d) = e $ file
a(b match { case c => d }) = e $ file
a(b + c)(d()) = e $ file
a(b()).c(d(e, f)) = g $ file
(a(b())) = c $ file
a(b match { case c => d() = e }) = f $ G4 at 22
a(b match { case c => d; e }) = f $ G5 at 22
a(b()(c match { case d => 1 = e })) = f $ G4 at 26
"#;

/// What stands on the right is free.
pub const VALUES: &[u8] = br#"
=import org.sireum._;object A { def f: Z = { $ } }
a = b() $ file
a = b(c, d) $ file
a = b(c = d) $ file
a = b[C] $ file
a = b + c $ file
a = -b $ file
a = "b" $ file
a = if (b) c else d $ file
a = b match { case c => d } $ file
a = b match { case c => d() = e } $ G4 at 24
a = if (b match { case c => d() = e }) f else g $ G4 at 28
"#;

/// Left sides that are none, by themselves and in others.
pub const OTHERS: &[u8] = br#"
=import org.sireum._;object A { def f: Z = { $ } }
1 = a $ G4 at 0
-1 = a $ G4 at 0
"a" = b $ G4 at 0
'a' = b $ G4 at 0
u8"1" = a $ G4 at 0
-a = b $ G4 at 0
!a = b $ G4 at 0
~a = b $ G4 at 0
a + b = c $ G4 at 0
a == b = c $ G4 at 0
a.b * c.d = e $ G4 at 0
a() = b $ G4 at 0
a(b, c) = d $ G4 at 0
a(b, c, d) = e $ G4 at 0
a.b() = c $ G4 at 0
a.b(c, d) = e $ G4 at 0
a(b = c) = d $ G4 at 0
a(b = c, d = e) = f $ G4 at 0
a.b(c = d) = e $ G4 at 0
a[B] = c $ G4 at 0
a[B, C] = d $ G4 at 0
a[B](c) = d $ G4 at 0
a[B].c = d $ G4 at 0
a.b[C] = d $ G4 at 0
(1) = a $ G4 at 0
(-a) = b $ G4 at 0
(a + b) = c $ G4 at 0
(a()) = b $ G4 at 0
((a(b, c))) = d $ G4 at 0
(a[B]) = c $ G4 at 0
(a(b = c)) = d $ G4 at 0
(a + b).c = d $ G4 at 0
(a + b)(c) = d $ G4 at 0
(-a).b = c $ G4 at 0
a().b = c $ G4 at 0
a()(b) = c $ G4 at 0
a(b)() = c $ G4 at 0
a(b).c() = d $ G4 at 0
a.b().c = d $ G4 at 0
a(b, c).d = e $ G4 at 0
a(b, c)(d) = e $ G4 at 0
a(b)(c, d) = e $ G4 at 0
a(b = c).d = e $ G4 at 0
a(b = c)(d) = e $ G4 at 0
a(b)(c = d) = e $ G4 at 0
this() = a $ G4 at 0
this(a = b) = c $ G4 at 0
1.a = b $ G4 at 0
1(2) = a $ G4 at 0
"a".b = c $ G4 at 0
"a"(0) = b $ G4 at 0
if (a) b else c = d $ G4 at 0
(if (a) b else c) = d $ G4 at 0
(if (a) b else c).d = e $ G4 at 0
(if (a) b else c)(d) = e $ G4 at 0
a match { case b => c } = d $ G4 at 0
a match { case b => c() } = d $ G4 at 0
(a match { case b => c }) = d $ G4 at 0
(a match { case b => c }).d = e $ G4 at 0
(a match { case b => c })(d) = e $ G4 at 0
(((1))) = a $ G4 at 0
  a() = b $ G4 at 2
a = b;c() = d;e() = f $ G4 at 6
"#;

/// Assignments wherever statements stand.
pub const INSIDE: &[u8] = br#"
=import org.sireum._;object A { def f: Z = { $ } }
if (a) { 1 = b } $ G4 at 9
if (a) { } else { 1 = b } $ G4 at 18
if (a) { } else if (b) { 1 = c } $ G4 at 25
if (a) { } else if (b) { } else { 1 = c } $ G4 at 34
while (a) { 1 = b } $ G4 at 12
for (a <- b until c) { 1 = d } $ G4 at 23
for (a <- b to c) { while (d) { if (e) { 1 = f } } } $ G4 at 41
a match { case b => 1 = c } $ G4 at 20
a match { case b => c = d case e => 1 = f } $ G4 at 36
a match { case b if c match { case d => 1 = e } => } $ G4 at 40
a match { case b => c match { case d => 1 = e } } $ G4 at 40
val a = b match { case c => 1 = d } $ G4 at 28
var a: B = c match { case d => 1 = e } $ G4 at 31
return a match { case b => 1 = c } $ G4 at 27
a(b match { case c => 1 = d }) $ G4 at 22
a(b, c match { case d => 1 = e }) $ G4 at 25
if (a match { case b => 1 = c }) { } $ G4 at 24
while (a match { case b => 1 = c }) { } $ G4 at 27
for (a <- b match { case c => 1 = d } until e) { } $ G4 at 30
for (a <- b until c match { case d => 1 = e }) { } $ G4 at 38
val a = -(b match { case c => 1 = d }) $ G4 at 30
val a = b + (c match { case d => 1 = e }) $ G4 at 33
val a = (b match { case c => 1 = d }).e $ G4 at 29
val a = (b match { case c => 1 = d })[E] $ G4 at 29
val a = b(c = d match { case e => 1 = f }) $ G4 at 34
val a = b(c = d, e = f match { case g => 1 = h }) $ G4 at 41
val a = (b match { case c => 1 = d })(e = f) $ G4 at 29
val a = if (b) c match { case d => 1 = e } else f $ G4 at 35
val a = if (b) c else d match { case e => 1 = f } $ G4 at 42
val a = (b match { case c => 1 = d }) match { case e => f } $ G4 at 29
=import org.sireum._;object A { $ }
def a: B = { 1 = c } $ G4 at 13
@pure def a: B = { 1 = c } $ G4 at 19
@strictpure def a: B = c match { case d => 1 = e } $ G4 at 43
val a = b match { case c => 1 = d } $ G4 at 28
override var a: B = c match { case d => 1 = e } $ G4 at 40
def a: B; def c: D = { e = f; 1 = g } $ G4 at 30
=import org.sireum._;$
@record class A() { def b: C = { 1 = d } } $ G4 at 33
@msig trait A { def b: C = { 1 = d } } $ G4 at 29
"#;
