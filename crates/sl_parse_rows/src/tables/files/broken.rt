// Declarations and members that no file goes on with.

/// Imports and declarations.
pub const WRONG: &[u8] = br#"
import org.sireum._;a $ G1 at 20
import org.sireum._;def a: B $ G1 at 20
import org.sireum._;val a = b $ G1 at 20
import org.sireum._;@a def b: C $ G1 at 23
import org.sireum._;@a val b = c $ G1 at 23
import org.sireum._;@a import b $ G1 at 23
import org.sireum._;@a @b $ G1 at 25
import org.sireum._;@a @b import c $ G1 at 26
import org.sireum._;case class A() $ G1 at 20
import org.sireum._;abstract class A() $ G1 at 20
import org.sireum._;lazy val a = b $ G1 at 20
import org.sireum._;type A = B $ G1 at 20
import org.sireum._;new A() $ G1 at 20
import org.sireum._;{ } $ G1 at 20
import org.sireum._;@ $ G1 at 21
import org.sireum._;@ @a class B $ G1 at 22
import org.sireum._;@@a class B $ G1 at 20
import org.sireum._;@1 class A $ G1 at 21
import org.sireum._;@class A $ G1 at 21
import org.sireum._;@a() class B $ G1 at 23
import org.sireum._;@a(b) class C $ G1 at 24
import org.sireum._;@a(b = c, d) class E $ G1 at 31
import org.sireum._;@a(b = c,) class D $ G1 at 29
import org.sireum._;@a(b = ) class C $ G1 at 27
import org.sireum._;@a(b == c) class D $ G1 at 25
import org.sireum._;@a(b = c = d) class E $ G1 at 29
import org.sireum._;@a(b = { c }) class D $ G1 at 27
import org.sireum._;@a(b = c)(d = e) class F $ G1 at 29
import org.sireum._;@a[B](c = d) class E $ G1 at 22
import org.sireum._;@a.b class C $ G1 at 22
import org.sireum._;class $ G1 at 25
import org.sireum._;class _ $ G1 at 26
import org.sireum._;class A B $ G1 at 28
import org.sireum._;class A { } $ G1 at 28
import org.sireum._;class A extends B $ G1 at 28
import org.sireum._;class A[B] $ G1 at 30
import org.sireum._;class A[B] extends C $ G1 at 31
import org.sireum._;class A[]() $ G1 at 28
import org.sireum._;class A[B.C]() $ G1 at 29
import org.sireum._;class A[+B]() $ G1 at 28
import org.sireum._;class A[B <: C]() $ G1 at 30
import org.sireum._;class A[B][C]() $ G1 at 30
import org.sireum._;class A()() $ G1 at 29
import org.sireum._;class A(b:) $ G1 at 30
import org.sireum._;class A(b: C,) $ G1 at 33
import org.sireum._;class A(val: B) $ G1 at 31
import org.sireum._;class A(val val b: C) $ G1 at 32
import org.sireum._;class A(override val b: C) $ G1 at 28
import org.sireum._;class A(@b c: D) $ G1 at 28
import org.sireum._;class A(b: C = d) $ G1 at 33
import org.sireum._;class A(b: => C) $ G1 at 31
import org.sireum._;class A(b: (C)) $ G1 at 31
import org.sireum._;class A(b: C[D],) $ G1 at 36
import org.sireum._;class A(b: _) $ G1 at 31
import org.sireum._;class A() extends { } $ G1 at 38
import org.sireum._;class A() extends B with with C $ G1 at 45
import org.sireum._;class A() extends B, C $ G1 at 39
import org.sireum._;class A() extends B(c) $ G1 at 39
import org.sireum._;class A() extends B extends C $ G1 at 40
import org.sireum._;class A() with B $ G1 at 30
import org.sireum._;class A() { } extends B $ G1 at 34
import org.sireum._;class A() { } { } $ G1 at 34
import org.sireum._;class A() { val b = c } $ G1 at 32
import org.sireum._;class A() { @b val c = d } $ G1 at 35
import org.sireum._;class A() { "b" } $ G1 at 32
import org.sireum._;class A() { class B } $ G1 at 32
import org.sireum._;class A() { def b: C; val d = e } $ G1 at 42
import org.sireum._;class A() { def b: C def d: E } $ G1 at 41
import org.sireum._;trait $ G1 at 25
import org.sireum._;trait A() $ G1 at 27
import org.sireum._;trait A[B][C] $ G1 at 30
import org.sireum._;trait A { val b = c } $ G1 at 30
import org.sireum._;trait A { 'b } $ G1 at 30
import org.sireum._;trait A extends { } $ G1 at 36
import org.sireum._;trait A { } extends B $ G1 at 32
import org.sireum._;object $ G1 at 26
import org.sireum._;object A() $ G1 at 28
import org.sireum._;object A[B] $ G1 at 28
import org.sireum._;object A extends { } $ G1 at 37
import org.sireum._;object A { b } $ G1 at 31
import org.sireum._;object A { s"b" } $ G1 at 31
import org.sireum._;object A { class B } $ G1 at 31
import org.sireum._;object A { object B } $ G1 at 31
import org.sireum._;object A { import b } $ G1 at 31
import org.sireum._;object A { { } } $ G1 at 31
import org.sireum._;object A { "b", "c" } $ G1 at 34
import org.sireum._;object A { "b" "c" } $ G1 at 35
import org.sireum._;object A { "b"; def c: D } $ G1 at 36
import org.sireum._;object A { def b: C; "d" } $ G1 at 41
import org.sireum._;object A { @b "c" } $ G1 at 34
import org.sireum._;object A { "b".c } $ G1 at 34
import org.sireum._;object A extends B { "c" } $ G1 at 41
import org.sireum._;object A extends B { 'c } $ G1 at 41
import org.sireum._;object A { } extends B $ G1 at 33
import org.sireum._;object A { } { } $ G1 at 33
import org.sireum._;class A import b $ G1 at 28
import org.sireum._;class A @b class C $ G1 at 28
import org.sireum._;object A object B $ G1 at 29
import org.sireum._;import $ G1 at 26
import org.sireum._;import _ $ G1 at 27
import org.sireum._;import a. $ G1 at 29
import org.sireum._;import a._.b $ G1 at 30
import org.sireum._;import a.* $ G1 at 29
import org.sireum._;import a.{b} $ G1 at 29
import org.sireum._;import a, b $ G1 at 28
import org.sireum._;import a b $ G1 at 29
import org.sireum._;import a import b $ G1 at 29
import org.sireum._;import a;package b $ G1 at 29
import org.sireum._;} $ G1 at 20
import org.sireum._;object A { }} $ G1 at 32
import org.sireum._;class A) $ G1 at 27
"#;

/// Members.
pub const MEMBERS: &[u8] = br#"
import org.sireum._;object A { def } $ G1 at 35
import org.sireum._;object A { def a } $ G1 at 37
import org.sireum._;object A { def 'a: B } $ G1 at 35
import org.sireum._;object A { def +: A } $ G1 at 35
import org.sireum._;object A { def this(): A } $ G1 at 35
import org.sireum._;object A { def a() } $ G1 at 39
import org.sireum._;object A { def a = b } $ G1 at 37
import org.sireum._;object A { def a { } } $ G1 at 37
import org.sireum._;object A { def a: { } } $ G1 at 38
import org.sireum._;object A { def a: B { } } $ G1 at 40
import org.sireum._;object A { def a: B = } $ G1 at 42
import org.sireum._;object A { def a: 1 } $ G1 at 38
import org.sireum._;object A { def a: B[C } $ G1 at 42
import org.sireum._;object A { def a: (B) } $ G1 at 38
import org.sireum._;object A { def a: B, c: D } $ G1 at 39
import org.sireum._;object A { def a()(): B } $ G1 at 38
import org.sireum._;object A { def a[]: B } $ G1 at 37
import org.sireum._;object A { def a[B][C]: D } $ G1 at 39
import org.sireum._;object A { def a[B <: C]: D } $ G1 at 39
import org.sireum._;object A { def a(b: C,): D } $ G1 at 42
import org.sireum._;object A { def a(b: C = d): E } $ G1 at 42
import org.sireum._;object A { def a(@b c: D): E } $ G1 at 37
import org.sireum._;object A { def a: B = c = d } $ G1 at 44
import org.sireum._;object A { def a: B = c, d } $ G1 at 43
import org.sireum._;object A { def a: B = val c = d } $ G1 at 42
import org.sireum._;object A { def a: B = return c } $ G1 at 42
import org.sireum._;object A { def a: B = while (c) { } } $ G1 at 42
import org.sireum._;object A { def a: B = if (c) { d } else { e } } $ G1 at 49
import org.sireum._;object A { def a: B = c match { d } } $ G1 at 52
import org.sireum._;object A { def a: B = { c } + d } $ G1 at 48
import org.sireum._;object A { def a: B = { c } { d } } $ G1 at 48
import org.sireum._;object A { def a: B = { def c: D } } $ G1 at 44
import org.sireum._;object A { def a: B = { @c d } } $ G1 at 44
import org.sireum._;object A { def a: B = = c } $ G1 at 42
import org.sireum._;object A { override } $ G1 at 40
import org.sireum._;object A { override override def a: B } $ G1 at 40
import org.sireum._;object A { override @a def b: C } $ G1 at 40
import org.sireum._;object A { @a override @b def c: D } $ G1 at 43
import org.sireum._;object A { @a } $ G1 at 34
import org.sireum._;object A { @a() def b: C } $ G1 at 34
import org.sireum._;object A { @a class B } $ G1 at 34
import org.sireum._;object A { private def a: B } $ G1 at 31
import org.sireum._;object A { val } $ G1 at 35
import org.sireum._;object A { val a } $ G1 at 37
import org.sireum._;object A { val a: B } $ G1 at 40
import org.sireum._;object A { val a: B = } $ G1 at 42
import org.sireum._;object A { val T, F = a } $ G1 at 36
import org.sireum._;object A { val (a, b) = c } $ G1 at 35
import org.sireum._;object A { val a[B] = c } $ G1 at 36
import org.sireum._;object A { val a: = b } $ G1 at 38
import org.sireum._;object A { val a = { b } } $ G1 at 39
import org.sireum._;object A { val a = b = c } $ G1 at 41
import org.sireum._;object A { val a = return b } $ G1 at 39
import org.sireum._;object A { val val a = b } $ G1 at 35
import org.sireum._;object A { var a = _ } $ G1 at 39
import org.sireum._;object A { val a = if (b) c } $ G1 at 48
import org.sireum._;object A { val a = b; c = d } $ G1 at 42
import org.sireum._;object A { val a = b; "c" } $ G1 at 42
import org.sireum._;object A { a } $ G1 at 31
import org.sireum._;object A { a = b } $ G1 at 31
import org.sireum._;object A { if (a) { } } $ G1 at 31
import org.sireum._;object A { ; a } $ G1 at 33
import org.sireum._;object A { def a: B; } } $ G1 at 43
import org.sireum._;object A { def a: B; class C } $ G1 at 41
"#;
