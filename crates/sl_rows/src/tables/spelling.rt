// How names and files are spelled.

/// Names of variables.
pub const VARIABLES: &[u8] = br#"
=// #Sireum;import org.sireum._;object X extends App {;  def main(args: ISZ[String]): Z = {;    val $: Z = 3;    return 3;  };};
a $ accepted
z9 $ accepted
aB9 $ accepted
args $ accepted
main $ accepted
vals $ accepted
iff $ accepted
t $ accepted
f $ accepted
b $ accepted
z $ accepted
printlnA $ accepted
unit $ accepted
halts $ accepted
abstract $ 5:9: G1
case $ 5:9: G1
catch $ 5:9: G1
class $ 5:9: G1
def $ 5:9: G1
do $ 5:9: G1
else $ 5:9: G1
extends $ 5:9: G1
final $ 5:9: G1
finally $ 5:9: G1
for $ 5:9: G1
forSome $ 5:9: G1
if $ 5:9: G1
implicit $ 5:9: G1
import $ 5:9: G1
lazy $ 5:9: G1
match $ 5:9: G1
new $ 5:9: G1
null $ 5:9: G1
object $ 5:9: G1
override $ 5:9: G1
package $ 5:9: G1
private $ 5:9: G1
protected $ 5:9: G1
return $ 5:9: G1
sealed $ 5:9: G1
super $ 5:9: G1
this $ 5:9: G1
throw $ 5:9: G1
trait $ 5:9: G1
try $ 5:9: G1
true $ 5:9: G1
false $ 5:9: G1
type $ 5:9: G1
val $ 5:9: G1
var $ 5:9: G1
while $ 5:9: G1
with $ 5:9: G1
yield $ 5:9: G1
conversions $ not built
print $ not built
println $ not built
assert $ not built
assume $ not built
halt $ not built
A $ not built
T $ not built
Z $ not built
a_b $ not built
_a $ not built
9a $ 5:9: L8
a$ $ 5:10: L3
a.b $ 5:10: G1
 $ 5:9: G1
org $ accepted
sireum $ accepted
app $ accepted
string $ accepted
port $ accepted
contract $ accepted
invariant $ accepted
until $ accepted
to $ accepted
l $ accepted
x1 $ accepted
z0Z9 $ accepted
printlns $ accepted
a1b2C3 $ accepted
thiss $ accepted
s8 $ accepted
isz $ accepted
main0 $ accepted
S $ not built
X $ not built
B $ not built
F $ not built
Port $ not built
Contract $ not built
_ $ 5:9: G1
x_ $ not built
x_1 $ not built
1x $ 5:9: L8
'x $ 5:9: G1
"x" $ 5:9: G1
x.y $ 5:10: G1
(x) $ 5:9: G1
x, y $ 5:10: G1
x: Z $ 5:13: G1
a`b $ 5:10: L3
"#;

/// Names of Apps.
pub const APPS: &[u8] = br#"
=// #Sireum;import org.sireum._;object $ extends App {;  def main(args: ISZ[String]): Z = {;    return 3;  };};
X $ accepted
A $ accepted
Zz $ accepted
TT $ accepted
S $ accepted
U $ accepted
App1 $ accepted
Main9 $ accepted
ISz $ accepted
B $ not built
Z $ not built
C $ not built
String $ not built
S8 $ not built
S16 $ not built
S32 $ not built
S64 $ not built
U8 $ not built
U16 $ not built
U32 $ not built
U64 $ not built
ISZ $ not built
MSZ $ not built
Unit $ not built
App $ not built
T $ not built
F $ not built
Port $ not built
Contract $ not built
Invariant $ not built
x $ not built
9X $ 3:8: L8
X_ $ not built
_X $ not built
X$ $ 3:9: L3
X Y $ 3:10: G1
 $ 3:9: G1
Option $ accepted
None $ accepted
Some $ accepted
Main $ accepted
Xyz09 $ accepted
Print $ accepted
S9 $ accepted
B1 $ accepted
object $ 3:8: G1
this $ 3:8: G1
T.a $ 3:9: G1
_ $ 3:8: G1
'X $ 3:8: G1
"X" $ 3:8: G1
X1a $ accepted
"#;

/// Whole files.
pub const WHOLE: &[u8] = br#"
=$
// #Sireum;import org.sireum._;object X extends App {;  def main(args: ISZ[String]): Z = {;    return 3;  };}; $ accepted
// #Sireum;import org.sireum._;object X extends App {;  def main(args: ISZ[String]): Z = {;    return 3;  };} $ accepted
// #Sireum;import org.sireum._;object X extends App {;  def main(args: ISZ[String]): Z = {;    return 3;  };};; $ accepted
// #Sireum;import org.sireum._;object X extends App {;  def main(args: ISZ[String]): Z = {;    return 3;  };};  $ accepted
// #Sireum;import org.sireum._;object X extends App {;  def main(args: ISZ[String]): Z = {;    return 3;  }; }; $ accepted
// #Sireum;import org.sireum._;object X extends App {;  def main(args: ISZ[String]): Z = {;    return 3;};}; $ accepted
// #Sireum;import org.sireum._;object X extends App {;  def main(args: ISZ[String]): Z = {;    return 3;  }; $ 7:1: G1
// #Sireum;import org.sireum._;object X extends App {;  def main(args: ISZ[String]): Z = {;    return 3;  };  };}; $ 8:1: G1
// #Sireum;import org.sireum._;object X extends App {;  def main(args: ISZ[String]): Z = {;    return 3; $ 6:1: G1
// #Sireum ;import org.sireum._;object X extends App {;  def main(args: ISZ[String]): Z = {;    return 3;  };}; $ accepted
// #Sireum-Logika;import org.sireum._;object X extends App {;  def main(args: ISZ[String]): Z = {;    return 3;  };}; $ accepted
// #Sireum;;import org.sireum._;object X extends App {;  def main(args: ISZ[String]): Z = {;    return 3;  };}; $ accepted
// #Sireum;import org.sireum.*;object X extends App {;  def main(args: ISZ[String]): Z = {;    return 3;  };}; $ 2:19: G2
// #Sireum;import org.sireum._ ;object X extends App {;  def main(args: ISZ[String]): Z = {;    return 3;  };}; $ accepted
// #Sireum;;object X extends App {;  def main(args: ISZ[String]): Z = {;    return 3;  };}; $ 3:1: G2
// #Sireum;import org.sireum._;object X extends App{;  def main(args: ISZ[String]): Z = {;    return 3;  };}; $ accepted
// #Sireum;import org.sireum._;object X extends App;  def main(args: ISZ[String]): Z = {;    return 3;  };}; $ 4:3: G1
// #Sireum;import org.sireum._;object X {;  def main(args: ISZ[String]): Z = {;    return 3;  };}; $ not built
// #Sireum;import org.sireum._;object  X extends App {;  def main(args: ISZ[String]): Z = {;    return 3;  };}; $ accepted
// #Sireum;import org.sireum._; object X extends App {;  def main(args: ISZ[String]): Z = {;    return 3;  };}; $ accepted
// #Sireum;import org.sireum._;object X extends App {; def main(args: ISZ[String]): Z = {;    return 3;  };}; $ accepted
// #Sireum;import org.sireum._;object X extends App {;  def main(args: ISZ[Z]): Z = {;    return 3;  };}; $ not built
// #Sireum;import org.sireum._;object X extends App {;  def main(a: ISZ[String]): Z = {;    return 3;  };}; $ not built
// #Sireum;import org.sireum._;object X extends App {;  def main(args: ISZ[String]): B = {;    return 3;  };}; $ not built
// #Sireum;import org.sireum._;object X extends App {;  def main(args: ISZ[String]): Z = { ;    return 3;  };}; $ accepted
// #Sireum;import org.sireum._;  def main(args: ISZ[String]): Z = {;object X extends App {;    return 3;  };}; $ 3:3: G1
// #Sireum;object X extends App {;import org.sireum._;  def main(args: ISZ[String]): Z = {;    return 3;  };}; $ 2:1: G2
// #Sireum;import org.sireum._;object X extends App {;;    return 3;  };}; $ 5:5: G1
// #Sireum;import org.sireum._;object X extends App {;;  def main(args: ISZ[String]): Z = {;    return 3;  };}; $ accepted
"#;

/// Whole files that no table can hold.
pub const ODD: [(&str, &str); 6] = [
    (
        "// #Sireum\nimport org.sireum._\nobject X extends App {\n  def main(args: ISZ[String]): Z = {\n    return 3\n  }\n}\r\n",
        "accepted",
    ),
    (
        "// #Sireum\nimport org.sireum._\nobject X extends App {\r\n  def main(args: ISZ[String]): Z = {\n    return 3\n  }\n}\n",
        "accepted",
    ),
    (
        "// #Sireum\nimport org.sireum._\nobject \u{c9} extends App {\n  def main(args: ISZ[String]): Z = {\n    return 3\n  }\n}\n",
        "not built",
    ),
    (
        "// #Sireum\r\nimport org.sireum._\r\nobject X extends App {\r\n  def main(args: ISZ[String]): Z = {\r\n    return 3\r\n  }\r\n}\r\n",
        "accepted",
    ),
    ("// #Sireum\rimport org.sireum._", "1:31: G1"),
    ("\u{feff}// #Sireum\nimport org.sireum._", "1:1: L1"),
];
