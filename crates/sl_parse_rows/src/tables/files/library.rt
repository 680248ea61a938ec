// The package and the library's import, where something else stands or the file ends.

/// Without a package.
pub const BARE: &[u8] = br#"
 $ G1 at 0
; $ G1 at 1
// import org.sireum._ $ G1 at 22
a $ G2 at 0
"import" $ G2 at 0
@a import org.sireum._ $ G2 at 0
class A $ G2 at 0
object A { } $ G2 at 0
. $ G2 at 0
} $ G2 at 0
import $ G1 at 6
import import $ G2 at 7
import a $ G2 at 7
import a.sireum._ $ G2 at 7
import Org.sireum._ $ G2 at 7
import org2.sireum._ $ G2 at 7
import sireum.org._ $ G2 at 7
import sireum._ $ G2 at 7
import _ $ G2 at 7
import 'org.sireum._ $ G2 at 7
import org"".sireum._ $ G2 at 7
import "org".sireum._ $ G2 at 7
import (org).sireum._ $ G2 at 7
import org $ G1 at 10
import org;class A $ G2 at 10
import org class A $ G2 at 11
import org import $ G2 at 11
import org, $ G2 at 10
import org..sireum._ $ G2 at 11
import org sireum._ $ G2 at 11
import org[A] $ G2 at 10
import org. $ G1 at 11
import org.a $ G2 at 11
import org.org $ G2 at 11
import org.Sireum._ $ G2 at 11
import org.sireum""._ $ G2 at 11
import org.class $ G2 at 11
import org.sireum $ G1 at 17
import org.sireum;import a $ G2 at 17
import org.sireum, a $ G2 at 17
import org.sireum class A $ G2 at 18
import org.sireum _ $ G2 at 18
import org.sireum. $ G1 at 18
import org.sireum.a $ G2 at 18
import org.sireum.A._ $ G2 at 18
import org.sireum.* $ G2 at 18
import org.sireum.{A} $ G2 at 18
import org.sireum._a $ G2 at 18
import org.sireum._.a $ G1 at 19
import org.sireum._ class A $ G1 at 20
import org.sireum._ import a $ G1 at 20
import org.sireum._, a $ G1 at 19
import a;import org.sireum._ $ G2 at 7
class A;import org.sireum._ $ G2 at 0
import org.sireum._;package a $ G1 at 20
import org.sireum._;;package a;import b $ G1 at 21
"#;

/// Behind a package.
pub const PACKAGED: &[u8] = br#"
package a.b;; $ G1 at 13
package a.b;a $ G2 at 12
package a.b;1 $ G2 at 12
package a.b;"import" $ G2 at 12
package a.b;@a import org.sireum._ $ G2 at 12
package a.b;class A $ G2 at 12
package a.b;.c $ G1 at 14
package a.b;} $ G1 at 12
package a.b;import $ G1 at 18
package a.b;import import $ G2 at 19
package a.b;import a $ G2 at 19
package a.b;import a.b $ G2 at 19
package a.b;import sireum._ $ G2 at 19
package a.b;import _ $ G2 at 19
package a.b;import org"".sireum._ $ G2 at 19
package a.b;import org $ G1 at 22
package a.b;import org;class A $ G2 at 22
package a.b;import org class A $ G2 at 23
package a.b;import org, $ G2 at 22
package a.b;import org sireum._ $ G2 at 23
package a.b;import org. $ G1 at 23
package a.b;import org._ $ G2 at 23
package a.b;import org.org $ G2 at 23
package a.b;import org.class $ G2 at 23
package a.b;import org.sireum $ G1 at 29
package a.b;import org.sireum;import a $ G2 at 29
package a.b;import org.sireum, a $ G2 at 29
package a.b;import org.sireum class A $ G2 at 30
package a.b;import org.sireum. $ G1 at 30
package a.b;import org.sireum.a $ G2 at 30
package a.b;import org.sireum.* $ G2 at 30
package a.b;import org.sireum._.a $ G1 at 31
package a.b;import org.sireum._ class A $ G1 at 32
package a.b;import org.sireum._ import a $ G1 at 32
package a.b;import org.sireum._;package c $ G1 at 32
package a.b;import c;import org.sireum._ $ G2 at 19
"#;

/// No whole package.
pub const PACKAGE: &[u8] = br#"
package $ G1 at 7
package a $ G1 at 9
package a; $ G1 at 10
package a. $ G1 at 10
package a.b $ G1 at 11
package a.b. $ G1 at 12
package _ $ G1 at 8
package a'b $ G1 at 9
package "a" $ G1 at 8
package package a $ G1 at 8
package import $ G1 at 8
package import org.sireum._ $ G1 at 8
package;import org.sireum._ $ G1 at 8
package a import org.sireum._ $ G1 at 10
package a /* b */ import org.sireum._ $ G1 at 18
package a.import org.sireum._ $ G1 at 10
package a.;import org.sireum._ $ G1 at 11
package a._;import org.sireum._ $ G1 at 10
package a, b $ G1 at 9
package a;{ } $ G1 at 10
package a b $ G1 at 10
package a;package b;import org.sireum._ $ G2 at 10
package a;b;import org.sireum._ $ G2 at 10
package a;class B $ G2 at 10
package a;.import org.sireum._ $ G1 at 11
package org.sireum._;import org.sireum._ $ G1 at 19
a package b;import org.sireum._ $ G2 at 0
@a package b;import org.sireum._ $ G2 at 0
;package a;; $ G1 at 12
"#;
