// What is built and what isn't, at the edges.

/// Bodies at the edges of what is built.
pub const TAKEN: &[u8] = br#"
println("");return 0 $ accepted
println("0123456789012345678901234567890123456789012345678901234567890123456789012345678901234567890123456789");return 0 $ accepted
println("01234567890123456789012345678901234567890123456789012345678901234567890123456789012345678901234567890");return 0 $ not built
halt("0123456789012345678901234567890123456789012345678901234567890123456789012345678901234567890123456789");return 0 $ accepted
halt("01234567890123456789012345678901234567890123456789012345678901234567890123456789012345678901234567890");return 0 $ not built
println(" ~");return 0 $ accepted
println("\\");return 0 $ not built
println("\n");return 0 $ not built
println("\"");return 0 $ not built
println("\'");return 0 $ not built
println("\u0041");return 0 $ not built
println("""a""");return 0 $ not built
println("""""");return 0 $ not built
println('a');return 0 $ not built
println(z"1");return 0 $ not built
println(9223372036854775807);println(-9223372036854775808);return 0 $ accepted
println(9223372036854775808);return 0 $ not built
println(-9223372036854775809);return 0 $ not built
println(- 9223372036854775808);return 0 $ accepted
println(-0);return 0 $ not built
println(- 0);return 0 $ not built
println(0);return 0 $ accepted
println(99999999999999999999999999999999999999);return 0 $ not built
val x: Z = -0 + 1;return 0 $ not built
return -0 $ not built
val x: B = -0 < 1;return 0 $ not built
val x: Z = 1 + 9223372036854775808;return 0 $ not built
while (0 < -0) { };return 0 $ not built
for (i <- -0 until 1) { };return 0 $ not built
"#;

/// What is returned, and where.
pub const RETURNS: &[u8] = br#"
return 0 $ accepted
return 9223372036854775807 $ accepted
val x: Z = 0;return x $ accepted
val x: B = T;return x $ not built
return T $ not built
return $ not built
return 1 + 1 $ not built
return (1) $ not built
return "a" $ not built
return Port.get() $ not built
return 0;return 0 $ not built
return 0;println("a") $ not built
return 0;if (T) { } $ not built
println("a") $ not built
l"a" $ not built
if (T) { return 0 } else { return 1 } $ not built
if (T) { return 0 };return 0 $ not built
while (T) { return 0 };return 0 $ not built
halt("a") $ not built
"#;

/// Statements and expressions that aren't built.
pub const FORMS: &[u8] = br#"
if (T) { } else if (F) { };return 0 $ not built
if (T) { } else if (F) { } else { };return 0 $ not built
if (T) { } else { if (F) { } };return 0 $ accepted
1 match { case 1 => };return 0 $ not built
val x: Z = 1 match { case _ => 2 };return 0 $ not built
val x: Z = if (T) 1 else 2;return 0 $ not built
val x: Z = (1);return 0 $ not built
val x: Z = (1) + 2;return 0 $ not built
val x: Z = 1 + 2 + 3;return 0 $ not built
val x: Z = 1 + 2 * 3;return 0 $ not built
val x: B = 1 < 2 == T;return 0 $ not built
val x: B = T & F;return 0 $ not built
val x: B = T || F;return 0 $ not built
val x: B = 1 << 2 > 3;return 0 $ not built
val x: Z = 1 << 2;return 0 $ not built
val x: Z = 1 :+ 2;return 0 $ not built
val x: B = !T;return 0 $ not built
val x: Z = ~1;return 0 $ not built
val y: Z = 1;val x: Z = -y;return 0 $ not built
val x: Z = -(1);return 0 $ not built
val x: Z = x"1";return 0 $ not built
val x: Z = 'x';return 0 $ not built
val x: Z = this;return 0 $ not built
val x: Z = X.y;return 0 $ not built
val x: Z = f(1);return 0 $ not built
val x: Z = T;return 0 $ not built
val x: B = T == T;return 0 $ not built
val x: B = T != F;return 0 $ not built
val x: B = 1 == T;return 0 $ not built
val x: B = "a" == "a";return 0 $ not built
val x: String = "a";return 0 $ not built
val x: Z[Z] = 1;return 0 $ not built
val x: a.Z = 1;return 0 $ not built
val x: z = 1;return 0 $ not built
val x: ISZ[Z] = 1;return 0 $ not built
var x = 1;return 0 $ not built
val x: Z = Port.get;return 0 $ not built
val x: Z = Port.get(1);return 0 $ not built
val x: Z = Port.gets();return 0 $ not built
val x: Z = port.get();return 0 $ not built
val x: Z = (Port).get();return 0 $ not built
val x: Z = Port.get[Z]();return 0 $ not built
val x: Z = Port.get().a;return 0 $ not built
val x: Z = get();return 0 $ not built
Port.get();return 0 $ not built
assert(Port.get());return 0 $ not built
assert(T, "a");return 0 $ not built
assert(T == T);return 0 $ not built
assert((T));return 0 $ not built
assert(1 + 1);return 0 $ not built
assert("a");return 0 $ not built
assume(T);return 0 $ not built
halt(1);return 0 $ not built
halt("a", "b");return 0 $ not built
println("a", "b");return 0 $ not built
println("a" + "b");return 0 $ not built
println(1 < 2);return 0 $ not built
println(Port.get());return 0 $ not built
println(("a"));return 0 $ not built
println[Z](1);return 0 $ not built
X.println("a");return 0 $ not built
(println)("a");return 0 $ not built
println("a")();return 0 $ not built
prints("a");return 0 $ not built
main(args);return 0 $ not built
println(args);return 0 $ not built
for (i <- 0 to 2) { };return 0 $ not built
for (i <- 0 until 1 + 1) { };return 0 $ not built
for (i <- (0) until 1) { };return 0 $ not built
for (i <- 0 until Port.get()) { };return 0 $ not built
for (I <- 0 until 1) { };return 0 $ not built
while (!T) { };return 0 $ not built
while ((T)) { };return 0 $ not built
if (T && F) { };return 0 $ not built
val x: Z = 1;x = 2;return 0 $ not built
var x: Z = 1;(x) = 2;return 0 $ not built
var x: Z = 1;this.x = 2;return 0 $ not built
var x: Z = 1;x(0) = 2;return 0 $ not built
T = 1;return 0 $ not built
args = 1;return 0 $ not built
for (i <- 0 until 1) { i = 1 };return 0 $ not built
var x: Z = 1;x = T;return 0 $ not built
var x: Z = 1;{ x = 2 };return 0 $ 6:1: G1
"#;

/// Which names are known where.
pub const NAMES: &[u8] = br#"
val x: Z = 1;if (T) { val y: Z = x;println(y) };return x $ accepted
if (T) { val y: Z = 1 };println(y);return 0 $ not built
if (T) { val y: Z = 1 } else { println(y) };return 0 $ not built
if (T) { val y: Z = 1 } else { val y: Z = 1 };return 0 $ not built
if (T) { val y: Z = 1 } else { val z: Z = 1 };return 0 $ accepted
while (F) { val y: Z = 1 };val y: Z = 1;return 0 $ not built
val y: Z = 1;while (F) { val y: Z = 1 };return 0 $ not built
println(x);val x: Z = 1;return 0 $ not built
val x: Z = x;return 0 $ not built
val x: Z = 1;val x: Z = 2;return 0 $ not built
val x: Z = 1;var x: B = T;return 0 $ not built
for (i <- 0 until 1) { };for (i <- 0 until 1) { };return 0 $ not built
for (i <- 0 until 1) { for (j <- i until i) { println(j) } };return 0 $ accepted
for (i <- 0 until i) { };return 0 $ not built
for (i <- 0 until 1) { };println(i);return 0 $ not built
for (i <- 0 until 1) { val i: Z = 1 };return 0 $ not built
val args: Z = 1;return args $ accepted
val main: Z = 1;val get: Z = main;return get $ accepted
val until: Z = 1;for (to <- until until until) { println(to) };return 0 $ accepted
val x1: Z = 1;val x: Z = 1;return 0 $ accepted
val x: Z = 1;println(X);return 0 $ not built
val l: Z = 1;return l $ accepted
val x: Z = 1;l"val x: Z = 2";return x $ accepted
l"val x: Z = 2";return x $ not built
"#;

/// An empty `while` isn't counted, whatever is skipped in it; an empty `if` or `for` is.
pub const DEEP: &[u8] = br#"
=// #Sireum;import org.sireum._;object X extends App {;def main(args: ISZ[String]): Z = {;if (T) { if (T) { if (T) { if (T) { if (T) { if (T) { if (T) { if (T) { if (T) { if (T) { if (T) { if (T) { if (T) { if (T) { if (T) { if (T) { $ } } } } } } } } } } } } } } } };return 0;};}
 $ accepted
println("a") $ accepted
while (F) { } $ accepted
while (F) { l"a";Invariant(b) } $ accepted
while (F) { println("a") } $ not built
while (F) { while (F) { } } $ not built
if (T) { } $ not built
if (T) { l"a" } $ not built
for (i <- 0 until 1) { } $ not built
l"a";while (F) { };println("b") $ accepted
=// #Sireum;import org.sireum._;object X extends App {;def main(args: ISZ[String]): Z = {;for (a <- 0 until 1) { while (F) { if (T) { } else { if (T) { if (T) { if (T) { if (T) { if (T) { if (T) { if (T) { if (T) { if (T) { if (T) { if (T) { if (T) { $ } } } } } } } } } } } } };println("b") } };return 0;};}
if (T) { } else { println("a") } $ accepted
if (T) { if (T) { } } $ not built
if (T) { } else { for (b <- 0 until 1) { } } $ not built
"#;

/// Files whose App, `main` or surroundings are others.
pub const FILES: &[u8] = br#"
=// #Sireum;$
import org.sireum._ $ not built
import org.sireum._;object X extends App $ not built
import org.sireum._;object X extends App { } $ not built
package a;import org.sireum._;object X extends App { def main(args: ISZ[String]): Z = { return 0 } } $ not built
import org.sireum._;import a.b;object X extends App { def main(args: ISZ[String]): Z = { return 0 } } $ not built
import org.sireum._;object X extends App { def main(args: ISZ[String]): Z = { return 0 } };import org.sireum.U8._ $ not built
import org.sireum._;import org.sireum._;object X extends App { def main(args: ISZ[String]): Z = { return 0 } } $ not built
import org.sireum._;object X extends App { def main(args: ISZ[String]): Z = { return 0 } };object Y $ not built
import org.sireum._;@enum object E { "a" };object X extends App { def main(args: ISZ[String]): Z = { return 0 } } $ not built
import org.sireum._;@range(min = 0, max = 9) class R;object X extends App { def main(args: ISZ[String]): Z = { return 0 } } $ not built
import org.sireum._;object X extends App { def main(args: ISZ[String]): Z = { return 0 } };@record class R() $ not built
=// #Sireum;import org.sireum._;object X extends App {;$;}
def main(args: ISZ[String]): Z = { return 0 } $ accepted
val x: Z = 1;def main(args: ISZ[String]): Z = { return 0 } $ not built
def main(args: ISZ[String]): Z = { return 0 };def f: Z $ not built
@pure def main(args: ISZ[String]): Z = { return 0 } $ not built
override def main(args: ISZ[String]): Z = { return 0 } $ not built
@strictpure def main(args: ISZ[String]): Z = 0 $ not built
def main(args: ISZ[String]): Z $ not built
def main(args: ISZ[String]): Z = { } $ not built
def main: Z = { return 0 } $ not built
def main(): Z = { return 0 } $ not built
def main[T](args: ISZ[String]): Z = { return 0 } $ not built
def main(arg: ISZ[String]): Z = { return 0 } $ not built
def main(args: ISZ[String], b: Z): Z = { return 0 } $ not built
def main(val args: ISZ[String]): Z = { return 0 } $ not built
def main(var args: ISZ[String]): Z = { return 0 } $ not built
def main(args: MSZ[String]): Z = { return 0 } $ not built
def main(args: ISZ[Z]): Z = { return 0 } $ not built
def main(args: ISZ): Z = { return 0 } $ not built
def main(args: String): Z = { return 0 } $ not built
def main(args: ISZ[String, String]): Z = { return 0 } $ not built
def main(args: ISZ[String[Z]]): Z = { return 0 } $ not built
def main(args: a.ISZ[String]): Z = { return 0 } $ not built
def main(args: ISZ[a.String]): Z = { return 0 } $ not built
def main(args: ISZ[String]): B = { return 0 } $ not built
def main(args: ISZ[String]): Z[Z] = { return 0 } $ not built
def main(args: ISZ[String]): a.Z = { return 0 } $ not built
def Main(args: ISZ[String]): Z = { return 0 } $ not built
=// #Sireum;import org.sireum._;object $ { def main(args: ISZ[String]): Z = { return 0 } }
X extends App $ accepted
X $ not built
X extends Y $ not built
X extends App[Z] $ not built
X extends a.App $ not built
X extends App with App $ not built
X extends App with Y $ not built
x extends App $ not built
=// #Sireum;import org.sireum._;$ { def main(args: ISZ[String]): Z = { return 0 } }
@sig trait X $ not built
@datatype class X() $ not built
@datatype class X() extends App $ not built
@a object X extends App $ 3:1: G3
@enum object X extends App $ 3:1: G3
"#;
