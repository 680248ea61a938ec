// Files that break a rule.

/// Rules L.
pub const LEXICAL: &[u8] = br#"
=$
 $ 1:1: L1
// #Sireu $ 1:1: L1
;// #Sireum; $ 1:1: L1
 // #Sireum; $ 1:1: L1
/* #Sireum */; $ 1:1: L1
# $ 1:1: L1
=// #Sireum;import org.sireum._;object X extends App {;  def main(args: ISZ[String]): Z = {;$;  };};
    val a$: Z = 1;    return 0 $ 5:10: L3
    println("abc;    return 0 $ 5:13: L4
    println("a\;    return 0 $ 5:13: L4
    println("a\q");    return 0 $ 5:15: L5
    println("\u00g0");    return 0 $ 5:14: L5
    println("\ud800");    return 0 $ 5:14: L5
    println('\q');    return 0 $ 5:14: L5
    println(u8"a);    return 0 $ 5:13: L4
    println("""a);    return 0 $ 5:13: L6
    println(u8"""a);    return 0 $ 5:15: L6
    /* /* */;    return 0 $ 5:5: L6
    return 0 /* a $ 5:14: L6
    val x: Z = 007;    return 0 $ 5:16: L8
    val x: Z = 1a;    return 0 $ 5:16: L8
    val x: Z = 1_;    return 0 $ 5:16: L8
    return 00 $ 5:12: L8
    println(100000000000000000000000000000000000000);    return 0 $ 5:13: L8
    val x: Z = `y`;    return 0 $ 5:16: L3
    println('ab');    return 0 $ 5:16: L3
    println('1);    return 0 $ 5:13: L3
    println(') );    return 0 $ 5:13: L3
    println("a;    println('1);    return 007 $ 5:13: L4
    val x: Z = 007;    println("a $ 5:16: L8
=// #Sireum;import org.sireum._;object X extends App {;  def main(args: ISZ[String]): Z = {;$
    println("abc $ 5:13: L4
    println("abc\ $ 5:13: L4
    println("""abc $ 5:13: L6
    println("""abc"" $ 5:13: L6
    println(u8"1 $ 5:13: L4
    println(u8"""1 $ 5:15: L6
    println('a $ 5:13: G1
    println(' $ 5:13: L3
    println('\ $ 5:14: L5
    println('\n $ 5:13: L3
    /* a $ 5:5: L6
    /* /* a */ $ 5:5: L6
    // a $ 5:9: G1
    println("a") $ 5:17: G1
    println( $ 5:13: G1
    return $ 5:11: G1
    return 0 $ 5:13: G1
    return - $ 5:13: G1
    val x: Z = 0 $ 5:17: G1
    Contract( $ 5:14: G1
    l"a" $ 5:9: G1
    a() = $ 5:10: G1
    1 + 1 $ 5:10: G1
"#;

/// Rules G.
pub const SYNTACTIC: &[u8] = br#"
=// #Sireum;import org.sireum._;object X extends App {;  def main(args: ISZ[String]): Z = {;$;  };};
    val a: Z = 1;    + 2;    return 0 $ 6:5: G1
    println("a") println("b");    return 0 $ 5:18: G1
    println("a") return 0 $ 5:18: G1
    println("a") /* b */ return 0 $ 5:26: G1
    val x: Z =-1;    return 0 $ 5:14: G1
    val x: Z = 1--1;    return 0 $ 5:17: G1
    val x: B = 1<-2;    return 0 $ 5:17: G1
    val x: Z = +1;    return 0 $ 5:16: G1
    val x: Z = Port.get;    ();    return 0 $ 6:6: G1
    if (T) println("a");    return 0 $ 5:24: G1
    if (T);    println("a");    return 0 $ 5:11: G1
    while (T) println("a");    return 0 $ 5:15: G1
    for (i <- 0 until 1 by 2) { };    return 0 $ 5:25: G1
    for (i <- 0) { };    return 0 $ 5:16: G1
    do { } while (T);    return 0 $ 5:5: G1
    val T, F: Z = 1;    return 0 $ 5:10: G1
    def f: Z = 1;    return 0 $ 5:5: G1
    };    return 0 $ 6:5: G1
    {;    return 0 $ 5:5: G1
    if (T) {;    return 0 $ 9:1: G1
    println("a"));    return 0 $ 5:17: G1
    println("a";    return 0 $ 6:5: G1
    a() = 1;    return 0 $ 5:5: G4
    1 = 2;    return 0 $ 5:5: G4
    var x: Z = 1;    x + 1 = 2;    return 0 $ 6:5: G4
    return;    0 $ 6:5: G5
    println;    ("a");    return 0 $ 5:5: G5
    1 + 1;    return 0 $ 5:5: G5
    var x: Z = 1;    x;    return 0 $ 6:5: G5
    x match { case 1 => 2 };    return 0 $ 5:25: G5
    1 + 1;    2 = 3;    return 0 $ 5:5: G5
    1 = 2;    3 + 4;    return 0 $ 5:5: G4
    1 + 1;    2 = 3;    return $ 5:5: G5
    1 + 1;    2 = 3;    val $ 8:3: G1
    val a: Z = ((((((((((((((((((((((((((((((((((((((((((((((((((((((((((((((1))))))))))))))))))))))))))))))))))))))))))))))))))))))))))))));    return 0 $ not built
    val a: Z = (((((((((((((((((((((((((((((((((((((((((((((((((((((((((((((((1)))))))))))))))))))))))))))))))))))))))))))))))))))))))))))))));    return 0 $ 5:78: G6
    1 + 1;    val a: Z = (((((((((((((((((((((((((((((((((((((((((((((((((((((((((((((((1)))))))))))))))))))))))))))))))))))))))))))))))))))))))))))))));    return 0 $ 6:78: G6
=$
// #Sireum $ 1:11: G1
// #Sireum; $ 2:1: G1
// #Sireum;; ; $ 4:1: G1
// #Sireum;object X extends App { } $ 2:1: G2
// #Sireum;import org.sireum.*;object X extends App { } $ 2:19: G2
// #Sireum;import org.sireum;object X extends App { } $ 2:18: G2
// #Sireum;import org.sireum.U8._;object X extends App { } $ 2:19: G2
// #Sireum;import scala.util._;import org.sireum._ $ 2:8: G2
// #Sireum;package a;object X extends App { } $ 3:1: G2
// #Sireum;package;import org.sireum._ $ 3:1: G1
// #Sireum;package a import org.sireum._ $ 2:11: G1
// #Sireum;import org.sireum._;package a $ 3:1: G1
// #Sireum;import org.sireum._ object X extends App { } $ 2:21: G1
// #Sireum;import org.sireum._;object X extends App {;def main(args: ISZ[String]): Z = {;return 0;} $ 6:2: G1
// #Sireum;import org.sireum._;object X extends App {;def main(args: ISZ[String]): Z = {;return 0;}; $ 7:1: G1
// #Sireum;import org.sireum._;object X extends App { };} $ 4:1: G1
// #Sireum;import org.sireum._;class A $ 3:1: G3
// #Sireum;import org.sireum._;@pure;def f: Z $ 3:6: G1
// #Sireum;import org.sireum._;@enum @enum object E { "a" } $ 3:7: G3
// #Sireum;import org.sireum._;@bits(width = 8) class A $ 3:1: G3
// #Sireum;import org.sireum._;object X extends App { @pure val x: Z = 1 } $ 3:24: G3
// #Sireum;import org.sireum._;object X extends App { @strictpure def f: Z = { return 1 } } $ 3:24: G3
// #Sireum;import org.sireum._;object X extends App { def f: Z = 1 } $ 3:24: G3
// #Sireum;import org.sireum._;object X { def f: Z = { 1 + 1 } };class A $ 3:25: G5
// #Sireum;import org.sireum._;object X { def f: Z = { 1 = 1 } };class A $ 3:25: G4
// #Sireum;object X { def f: Z = { println("a } } $ 2:33: L4
"#;
