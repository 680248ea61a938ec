// Plain programs in free layout, and what they print.

/// Blanks and comments between tokens, more or fewer than in other rows.
pub const BLANKS: &[u8] = br#"
    println("hello");    return 0 $ hello; $ 0
val x:Z=1+2;println(x);return x $ 3; $ 3
val   x  :  Z  =  1  +  2  ;  println  (  x  )  ;  return  0   $ 3; $ 0
val x: Z = 7/2;val y: Z = 7%2;val z: Z = 7*2;println(x);println(y);println(z);return 0 $ 3;1;14; $ 0
val x: Z = 1 -1;val y: Z = 1- 1;val z: Z = 1 - -1;println(x);println(y);println(z);return 0 $ 0;0;2; $ 0
println(- 1);println(-/* a */1);val x: Z = - 2 - - 3;println(x);return 0 $ -1;-1;1; $ 0
val a: B = 1<2;val b: B = 1>=2;val c: B = 1==1;val d: B = 1!= 1;println(a);println(b);println(c);println(d);return 0 $ T;F;T;F; $ 0
if(T){println("a")}else{println("b")};while(F){};for(i<-0 until 2){println(i)};assert(T);return 0 $ a;0;1; $ 0
if (F) { println("a") };else { println("b") };return 0 $ b; $ 0
if (F) { };else;{ println("b") };return 0 $ b; $ 0
if (T) { if (T) { if (F) { } else { println("a") } } };return 0 $ a; $ 0
var n: Z = 2;while (n > 0) { if (n == 1) { println("a") } else { println("b") };n = n - 1 };return 0 $ b;a; $ 0
for (i <- 0 until 2) { for (j <- 0 until 2) { println(j) } };return 0 $ 0;1;0;1; $ 0
/* a */println/* b */(/* c */"d"/* e */)/* f */;/* g *//* h */return/* i */0/* j */ $ d; $ 0
println("a") // b;// c;// println("d");return 0 // e $ a; $ 0
println("a") /*;*/ return 0 $ a; $ 0
/* /* ; */ ; */ println("a");/**/return 0/***/ $ a; $ 0
println("/* a */ // b") /* " */;return 0 // " $ /* a */ // b; $ 0
;;;println("a");;;;return 0;;; $ a; $ 0
val b: Z = Port . get ( );println(b);return 0 $ -1; $ 0
var b: Z = 0;b = Port/* a */./* b */get(/* c */);println(b);return 0 $ -1; $ 0
"#;

/// Statements over several lines.
pub const LINES: &[u8] = br#"
val a: Z = 1 +;2;println(a);return 0 $ 3; $ 0
val;x;: Z;=;1 +;2;println(;x;);return 3 $ 3; $ 3
var x: Z =;1;x;=;2;x =;3;println(x);return 0 $ 3; $ 0
if;(;T;);{;println(;"a";);};else;{;};return 0 $ a; $ 0
while;(;F;);{;};return 0 $  $ 0
for;(;i;<-;0;until;2;);{;println(i);};return 0 $ 0;1; $ 0
val b: Z = Port;.get();println(b);return 0 $ -1; $ 0
val b: Z = Port.;get(;);println(b);return 0 $ -1; $ 0
println(-;1);val x: Z = -;2;println(x);return 0 $ -1;-2; $ 0
return -;1 $  $ 69 exit value -1
assert(;1;<;2;);return 0 $  $ 0
println(/*;;*/"a"//;);return 0 $ a; $ 0
"#;

/// The line of a halt: of an operation that on which its first operand begins, of an assertion and a halt that on which it begins.
pub const HALTS: &[u8] = br#"
var x: Z = 9223372036854775807;x = x + 1;return 0 $  $ 66 halt Range a.scala:6
var x: Z = 9223372036854775807;x =;x +;1;return 0 $  $ 66 halt Range a.scala:7
val x: Z =;;;9223372036854775807 +;1;return 0 $  $ 66 halt Range a.scala:8
val;x;:;Z;=;1 /;0;return 0 $  $ 66 halt Zero a.scala:10
val x: Z = /*;;*/ 1 % 0;return 0 $  $ 66 halt Zero a.scala:7
val x: Z = -;9223372036854775808 -;1;return 0 $  $ 66 halt Range a.scala:5
val x: Z =;-;9223372036854775808 *;-;1;return 0 $  $ 66 halt Range a.scala:6
;;assert(;F;);return 0 $  $ 66 halt Assert a.scala:7
println("a");;// b;halt(;"c";);return 0 $ a; $ 66 halt Halt a.scala:8
/*;;*/ halt("a");return 0 $  $ 66 halt Halt a.scala:7
if (T) { halt("a") };return 0 $  $ 66 halt Halt a.scala:5
if (T);{;;assert(F) };return 0 $  $ 66 halt Assert a.scala:8
if (F) { };else { halt("a") };return 0 $  $ 66 halt Halt a.scala:6
var x: Z = 0;while (x < 2) { x = x + 1;assert(x;<;2) };return 0 $  $ 66 halt Assert a.scala:7
for (i <- 0 until 3) {;;;assert(i < 1) };return 0 $  $ 66 halt Assert a.scala:8
l"""a;;b""";halt("c");return 0 $  $ 66 halt Halt a.scala:8
Contract(;a,;b;);val x: Z = 1 / 0;return 0 $  $ 66 halt Zero a.scala:9
"#;

/// Statements that are skipped, wherever statements stand.
pub const SKIPPED: &[u8] = br#"
Contract();return 0 $  $ 0
Invariant();return 0 $  $ 0
l"";return 0 $  $ 0
l"""a;  println("b");c""";return 0 $  $ 0
Contract(;  Requires(x > 0),;  Ensures(Res == In(y) + 1););println("a");return 0 $ a; $ 0
println("a");Invariant(x, { y; z }, [1, (2)], case => , + "b");println("c");return 0 $ a;c; $ 0
return 3;Contract(a) $  $ 3
return 3;l"a";Invariant(b);l"c" $  $ 3
l"a";l"b";return 0;l"c" $  $ 0
if (T) { Contract(a) } else { l"b" };println("c");return 0 $ c; $ 0
if (F) { l"a";println("b");l"c" } else { Invariant(d);println("e") };return 0 $ e; $ 0
while (F) { Invariant(a) };return 0 $  $ 0
var n: Z = 1;while (n < 3) { Invariant(n <= 3, { a });println(n);n = n + 1;l"b" };return 0 $ 1;2; $ 0
for (i <- 0 until 2) { Invariant(;Modifies(i););println(i) };return 0 $ 0;1; $ 0
for (i <- 0 until 2) { l"a" };return 0 $  $ 0
val x: Z = 1;l"val x: Z = 2";Contract(val y = 3);val y: Z = 2;return y $  $ 2
Contract(Contract(), l"a");Contract/* b */(/* c */)/* d */;return 0 $  $ 0
"#;

/// Files around a body.
pub const FILES: &[u8] = br#"
=// #Sireum;$
import org.sireum._;object X extends App { def main(args: ISZ[String]): Z = { return 3 } } $  $ 3
import org.sireum._;object X extends App { def main(args: ISZ[String]): Z = { println("a");return 0 } } $ a; $ 0
import org.sireum._;object X extends App { def main(args: ISZ[String]): Z = { halt("a");return 0 } }; $  $ 66 halt Halt a.scala:3
;;  import  org  .  sireum  .  _  ;;;object X extends App{def main(args:ISZ[String]):Z={;return 3;}};;; $  $ 3
import;org;.;sireum;.;_;object;X;extends;App;{;def;main(;args;:;ISZ;[;String;];);:;Z;=;{;return 3;};} $  $ 3
/* a */ import org.sireum._ // b;// c;object X extends App { // d;def main(args: ISZ[String]): Z = { // e;return 3 // f;} // g;} // h $  $ 3
import org./* a */sireum/* b */._/* c */;object/* d */X extends App/* e */{/* f */def main(/* g */args: ISZ[/* h */String]): Z =/* i */{/*;*/return 3/* j */} /*;*/ }/* k */ $  $ 3
=// #Sireum$import org.sireum._;object X extends App { def main(args: ISZ[String]): Z = { return 3 } }
; $  $ 3
 and more; $  $ 3
-Logika;;; $  $ 3
 // /* "; $  $ 3
"#;
