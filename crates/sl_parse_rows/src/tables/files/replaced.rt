// Files with each token cut off, left out and replaced.

/// Packages and imports.
pub const OUTER: &[u8] = br#"
$ 0 $ import org . sireum . _
import $ `G2 at 1` NONE `G2 at 2` ; `G2 at 0` ( ) [ ] { } , . _ : = => <- if else match case val var while for return this a T until to Contract 1 "" 'c' s"" l"" ! ~ - | & == < :+ + * 'a def @ # `G1 at 23` package `file` import `G2 at 0` class object trait extends with override org sireum $ 448491
org $ `G2 at 8` NONE `G2 at 9` ; `G2 at 7` ( ) [ ] { } , . _ : = => <- if else match case val var while for return this a T until to Contract 1 "" 'c' s"" l"" ! ~ - | & == < :+ + * 'a def @ # package import class object trait extends with override `file` org `G2 at 7` sireum $ 238172
. $ `G2 at 12` NONE `G2 at 10` ; `G2 at 11` ( ) [ ] { } , `file` . `G2 at 11` _ : = => <- if else match case val var while for return this a T until to Contract 1 "" 'c' s"" l"" ! ~ - | & == < :+ + * 'a def @ # package import class object trait extends with override org sireum $ 696426
sireum $ `G2 at 14` NONE `G2 at 15` ; `G2 at 13` ( ) [ ] { } , . _ : = => <- if else match case val var while for return this a T until to Contract 1 "" 'c' s"" l"" ! ~ - | & == < :+ + * 'a def @ # package import class object trait extends with override org `file` sireum $ 668193
. $ `G2 at 21` NONE `G2 at 19` ; `G2 at 20` ( ) [ ] { } , `file` . `G2 at 20` _ : = => <- if else match case val var while for return this a T until to Contract 1 "" 'c' s"" l"" ! ~ - | & == < :+ + * 'a def @ # package import class object trait extends with override org sireum $ 405041
_ $ `G1 at 23` ; `G2 at 22` ( ) [ ] { } , . `file` _ `G2 at 22` : = => <- if else match case val var while for return this a T until to Contract 1 "" 'c' s"" l"" ! ~ - | & == < :+ + * 'a def @ # package import class object trait extends with override org sireum $ 836347
END $ `file` CUT NONE ; $ 810226
$ 0 $ package a . b ; import org . sireum . _ ; import c
package $ `G2 at 1` NONE `G2 at 2` ; `G2 at 0` ( ) [ ] { } , . _ : = => <- if else match case val var while for return this a T until to Contract 1 "" 'c' s"" l"" ! ~ - | & == < :+ + * 'a def @ # `file` package `G2 at 7` import `G2 at 0` class object trait extends with override org sireum $ 761131
a $ `G1 at 9` NONE `G1 at 10` ; `file` a T until to Contract org sireum $ 843112
. $ `G1 at 11` NONE `G2 at 12` ; `file` . $ 464620
b $ `G1 at 15` NONE `G1 at 16` ; `file` a T until to Contract org sireum $ 658647
; $ `G1 at 15` NONE `file` ; `G1 at 16` . $ 589271
import $ `G2 at 17` NONE `G2 at 18` ; `G2 at 16` ( `G1 at 33` . `G2 at 16` _ if val var while for return this a T until to Contract 1 "" 'c' s"" l"" ! ~ - | & == < :+ + * 'a def @ # package `file` import `G2 at 16` class object trait override org sireum $ 782642
org $ `G2 at 24` NONE `G2 at 25` ; `G2 at 23` ( ) [ ] { } , . _ : = => <- if else match case val var while for return this a T until to Contract 1 "" 'c' s"" l"" ! ~ - | & == < :+ + * 'a def @ # package import class object trait extends with override `file` org `G2 at 23` sireum $ 492347
. $ `G2 at 28` NONE `G2 at 26` ; `G2 at 27` ( ) [ ] { } , `file` . `G2 at 27` _ : = => <- if else match case val var while for return this a T until to Contract 1 "" 'c' s"" l"" ! ~ - | & == < :+ + * 'a def @ # package import class object trait extends with override org sireum $ 818852
sireum $ `G2 at 30` NONE `G2 at 31` ; `G2 at 29` ( ) [ ] { } , . _ : = => <- if else match case val var while for return this a T until to Contract 1 "" 'c' s"" l"" ! ~ - | & == < :+ + * 'a def @ # package import class object trait extends with override org `file` sireum $ 243527
. $ `G2 at 37` NONE `G2 at 35` ; `G2 at 36` ( ) [ ] { } , `file` . `G2 at 36` _ : = => <- if else match case val var while for return this a T until to Contract 1 "" 'c' s"" l"" ! ~ - | & == < :+ + * 'a def @ # package import class object trait extends with override org sireum $ 360654
_ $ `G2 at 41` NONE `G2 at 42` ; `G2 at 38` ( ) [ ] { } , . `file` _ `G2 at 38` : = => <- if else match case val var while for return this a T until to Contract 1 "" 'c' s"" l"" ! ~ - | & == < :+ + * 'a def @ # package import class object trait extends with override org sireum $ 246389
; $ `file` CUT `G1 at 41` NONE `file` ; $ 56654
import $ `file` CUT `G1 at 43` NONE `G1 at 44` ; `G1 at 45` @ `file` import `G3 at 42` class `file` object `G3 at 42` trait $ 767954
c $ `G1 at 50` ; `file` a T until to Contract org sireum $ 784452
END $ `file` CUT NONE ; `G1 at 52` . $ 161214
$ 0 $ import org . sireum . _ ; $ import a . b . _ ; object A ; import c
import $ `file` CUT `G1 at 27` NONE `G1 at 28` ; `G1 at 30` @ `file` import `G1 at 34` class `G1 at 35` object `G1 at 34` trait $ 339102
a $ `G1 at 34` NONE `G1 at 35` ; `file` a T until to Contract org sireum $ 195549
. $ `file` CUT `G1 at 36` NONE `G1 at 37` ; `file` . $ 203094
b $ `G1 at 38` NONE `G1 at 39` ; _ `file` a T until to Contract org sireum $ 453002
. $ `file` CUT `G1 at 40` NONE `G1 at 41` ; `file` . $ 206588
_ $ `G1 at 44` NONE `G1 at 45` ; `file` _ a T until to Contract org sireum $ 873941
; $ `file` CUT `G1 at 44` NONE `file` ; $ 514843
object $ `file` CUT `G1 at 46` NONE `G1 at 47` ; `G1 at 48` @ `file` import `G3 at 45` class `file` object `G3 at 45` trait $ 661541
A $ `G1 at 55` NONE `G1 at 56` ; `file` a T until to Contract org sireum $ 580194
; $ `file` CUT `G1 at 55` NONE `file` ; `G1 at 56` { `G1 at 62` extends $ 712954
import $ `file` CUT `G1 at 57` NONE `G1 at 58` ; { `G1 at 59` @ `file` import `G3 at 56` class `file` object `G3 at 56` trait `file` extends $ 437766
c $ `G1 at 64` ; `file` a T until to Contract org sireum $ 430004
END $ `file` CUT NONE ; `G1 at 66` . $ 772424
"#;

/// Notes.
pub const NOTES: &[u8] = br#"
$ 0 $ import org . sireum . _ ; $ @ range ( min = - 1 , max = 8 , index = T ) class A
@ $ `file` CUT `G1 at 27` NONE `G1 at 28` ; `file` @ `G1 at 39` import `G1 at 44` class `G1 at 39` object `G1 at 38` trait $ 392566
range $ `G1 at 29` NONE `G1 at 30` ; `G3 at 26` a T until to Contract org sireum $ 152356
( $ `G1 at 35` NONE `G1 at 33` ; `file` ( `G1 at 40` @ `G1 at 44` class `G1 at 45` object `G1 at 44` trait $ 727958
min $ `G1 at 37` NONE `G1 at 38` ; `G3 at 26` a T until to Contract org sireum $ 474256
= $ `G1 at 41` NONE `G1 at 42` ; `file` = $ 715061
- $ `file` NONE ; `G1 at 46` ( `G1 at 45` if `G1 at 47` this `G1 at 44` a T `G1 at 48` until `G1 at 45` to `G1 at 51` Contract `G1 at 44` 1 `G1 at 45` "" `G1 at 46` 'c' s"" l"" `G3 at 26` ! ~ `file` - `G1 at 46` org `G1 at 49` sireum $ 395710
1 $ `G1 at 45` NONE `G1 at 46` ; ( `G3 at 26` this a T until to Contract `file` 1 `G3 at 26` "" 'c' s"" l"" org sireum $ 175419
, $ `G1 at 47` NONE `G1 at 48` ; `G1 at 70` ( `G1 at 48` ) `G1 at 52` [ `file` , `G1 at 52` . match - | & `G1 at 53` == `G1 at 52` < `G1 at 53` :+ `G1 at 52` + * $ 169887
max $ `G1 at 49` NONE `G1 at 50` ; `G3 at 26` a T until to Contract org sireum $ 246778
= $ `G1 at 53` NONE `G1 at 54` ; `file` = $ 66710
8 $ `G1 at 55` NONE `G1 at 56` ; ( `G1 at 57` if `G3 at 26` this a T until to Contract `file` 1 `G3 at 26` "" 'c' s"" l"" `G1 at 56` ! ~ - `G3 at 26` org sireum $ 322568
, $ `G1 at 57` NONE `G1 at 58` ; `G1 at 70` ( `G1 at 58` ) `G1 at 64` [ `file` , `G1 at 64` . `G1 at 62` match `G1 at 64` - | & `G1 at 65` == `G1 at 64` < `G1 at 65` :+ `G1 at 64` + * $ 485957
index $ `G1 at 59` NONE `G1 at 60` ; `G3 at 26` a T until to Contract org sireum $ 810341
= $ `G1 at 65` NONE `G1 at 66` ; `file` = $ 418359
T $ `G1 at 67` NONE `G1 at 68` ; ( `G1 at 69` if `G3 at 26` this a `file` T `G3 at 26` until to Contract 1 "" 'c' s"" l"" `G1 at 68` ! ~ - `G3 at 26` org sireum $ 832326
) $ `G1 at 69` NONE `G1 at 70` ; ( `file` ) `G1 at 70` [ , . `G1 at 74` match `G1 at 70` - | & `G1 at 71` == `G1 at 70` < `G1 at 71` :+ `G1 at 70` + * $ 131339
class $ `G1 at 71` NONE `G1 at 69` ; `G1 at 73` @ `file` class `G3 at 26` object trait $ 586049
A $ `G1 at 77` ; `file` a T until to Contract org sireum $ 316388
END $ `file` CUT NONE ; `G1 at 79` ( [ $ 146015
$ 0 $ import org . sireum . _ ; $ @ bits ( signed = T , width = 8 ) class A
@ $ `file` CUT `G1 at 27` NONE `G1 at 28` ; `file` @ `G1 at 38` import `G1 at 46` class `G1 at 38` object `G1 at 37` trait $ 108453
bits $ `G1 at 29` NONE `G1 at 30` ; `G3 at 26` a T until to Contract org sireum $ 152356
( $ `G1 at 34` NONE `G1 at 32` ; `file` ( `G1 at 42` @ `G1 at 46` class `G1 at 47` object `G1 at 46` trait $ 587989
signed $ `G1 at 36` NONE `G1 at 37` ; `G3 at 26` a T until to Contract org sireum $ 128667
= $ `G1 at 43` NONE `G1 at 44` ; `file` = $ 881277
T $ `G1 at 45` NONE `G1 at 46` ; ( `G1 at 47` if `G3 at 26` this a `file` T `G3 at 26` until to Contract 1 "" 'c' s"" l"" `G1 at 46` ! ~ - `G3 at 26` org sireum $ 787590
, $ `G1 at 47` NONE `G1 at 48` ; `G1 at 60` ( `G1 at 48` ) `G1 at 54` [ `file` , `G1 at 54` . `G1 at 52` match `G1 at 54` - | & `G1 at 55` == `G1 at 54` < `G1 at 55` :+ `G1 at 54` + * $ 959266
width $ `G1 at 49` NONE `G1 at 50` ; `G3 at 26` a T until to Contract org sireum $ 246778
= $ `G1 at 55` NONE `G1 at 56` ; `file` = $ 391576
8 $ `G1 at 57` NONE `G1 at 58` ; ( `G1 at 59` if `G3 at 26` this a T until to Contract `file` 1 `G3 at 26` "" 'c' s"" l"" `G1 at 58` ! ~ - `G3 at 26` org sireum $ 475772
) $ `G1 at 59` NONE `G1 at 60` ; ( `file` ) `G1 at 60` [ , . `G1 at 64` match `G1 at 60` - | & `G1 at 61` == `G1 at 60` < `G1 at 61` :+ `G1 at 60` + * $ 668042
class $ `G1 at 61` NONE `G1 at 59` ; `G1 at 63` @ `file` class `G3 at 26` object trait $ 69204
A $ `G1 at 67` ; `file` a T until to Contract org sireum $ 365389
END $ `file` CUT NONE ; `G1 at 69` ( [ $ 890556
$ 0 $ import org . sireum . _ ; $ @ a ( b = - 1 , c = d ( e ) ) @ f class A
@ $ `file` CUT `G1 at 27` NONE `G1 at 28` ; `G3 at 26` @ `G1 at 35` import `G1 at 38` class `G1 at 35` object `G1 at 34` trait $ 524921
a $ `G1 at 29` NONE `G1 at 30` ; `G3 at 26` a T until to Contract org sireum $ 152356
( $ `G1 at 31` NONE `G1 at 29` ; `G3 at 26` ( `G1 at 34` @ `G1 at 38` class `G1 at 39` object `G1 at 38` trait $ 106913
b $ `G1 at 33` NONE `G1 at 34` ; `G3 at 26` a T until to Contract org sireum $ 993788
= $ `G1 at 35` NONE `G1 at 36` ; `G3 at 26` = $ 801544
- $ `G3 at 26` NONE ; `G1 at 40` ( `G1 at 39` if `G1 at 41` this `G1 at 38` a T `G1 at 42` until `G1 at 39` to `G1 at 45` Contract `G1 at 38` 1 `G1 at 39` "" `G1 at 40` 'c' s"" l"" `G3 at 26` ! ~ - `G1 at 40` org `G1 at 43` sireum $ 729538
1 $ `G1 at 39` NONE `G1 at 40` ; ( `G3 at 26` this a T until to Contract 1 "" 'c' s"" l"" org sireum $ 672236
, $ `G1 at 41` NONE `G1 at 42` ; `G1 at 56` ( `G1 at 42` ) `G1 at 44` [ `G3 at 26` , `G1 at 44` . `G1 at 46` match `G1 at 44` - | & `G1 at 45` == `G1 at 44` < `G1 at 45` :+ `G1 at 44` + * $ 566680
c $ `G1 at 43` NONE `G1 at 44` ; `G3 at 26` a T until to Contract org sireum $ 557351
= $ `G1 at 45` NONE `G1 at 46` ; `G3 at 26` = $ 64109
d $ `G3 at 26` NONE ; `G1 at 56` ( `G1 at 55` if `G3 at 26` this a T until to Contract 1 "" 'c' s"" l"" ! ~ - org sireum $ 873377
( $ `G1 at 49` NONE `G1 at 50` ; `G3 at 26` ( `G1 at 50` ) `G1 at 52` [ , `G1 at 54` . match - | & `G1 at 55` == `G1 at 54` < `G1 at 55` :+ `G1 at 54` + * $ 745287
e $ `G3 at 26` NONE ; `G1 at 52` ( `G1 at 54` ) `G1 at 53` if `G3 at 26` this a T until to Contract 1 "" 'c' s"" l"" `G1 at 52` ! ~ - `G3 at 26` org sireum $ 953356
) $ `G1 at 55` NONE `G1 at 56` ; ( `G3 at 26` ) `G1 at 54` [ , . = `G1 at 58` match `G1 at 54` - | & `G1 at 55` == `G1 at 54` < `G1 at 55` :+ `G1 at 54` + * $ 310916
) $ `G1 at 55` NONE `G1 at 56` ; ( `G3 at 26` ) `G1 at 56` [ , . `G1 at 60` match `G1 at 56` - | & `G1 at 57` == `G1 at 56` < `G1 at 57` :+ `G1 at 56` + * $ 856007
@ $ `G1 at 57` NONE `G1 at 55` ; `G3 at 26` @ `G1 at 64` class `G1 at 65` object `G1 at 64` trait $ 65949
f $ `G1 at 59` NONE `G1 at 60` ; `G3 at 26` a T until to Contract org sireum $ 810341
class $ `G1 at 61` NONE `G1 at 59` ; `G1 at 63` ( @ `G3 at 26` class object trait $ 581649
A $ `G1 at 67` ; `G3 at 26` a T until to Contract org sireum $ 815055
END $ `G3 at 26` CUT NONE ; `G1 at 69` ( [ $ 10602
$ 0 $ import org . sireum . _ ; $ @ a ( b = ( c ) ) trait A
@ $ `file` CUT `G1 at 27` NONE `G1 at 28` ; `G3 at 26` @ `G1 at 35` import `G1 at 38` class `G1 at 35` object `G1 at 34` trait $ 524921
a $ `G1 at 29` NONE `G1 at 30` ; `G3 at 26` a T until to Contract org sireum $ 152356
( $ `G1 at 31` NONE `G1 at 29` ; `G3 at 26` ( `G1 at 34` @ `G1 at 38` class `G1 at 39` object `G1 at 38` trait $ 106913
b $ `G1 at 33` NONE `G1 at 34` ; `G3 at 26` a T until to Contract org sireum $ 993788
= $ `G1 at 35` NONE `G1 at 36` ; `G3 at 26` = $ 801544
( $ `G1 at 41` NONE `G1 at 42` ; `G3 at 26` ( `G1 at 39` if `G1 at 41` this `G1 at 38` a T `G1 at 42` until `G1 at 39` to `G1 at 45` Contract `G1 at 38` 1 `G1 at 39` "" `G1 at 40` 'c' s"" l"" `G1 at 42` ! ~ - `G1 at 40` org `G1 at 43` sireum $ 432483
c $ `G1 at 39` NONE `G1 at 40` ; ( `G1 at 41` if `G3 at 26` this a T until to Contract 1 "" 'c' s"" l"" `G1 at 40` ! ~ - `G3 at 26` org sireum $ 131977
) $ `G1 at 43` NONE `G1 at 44` ; ( `G3 at 26` ) `G1 at 42` [ . `G1 at 46` match `G1 at 42` - | & `G1 at 43` == `G1 at 42` < `G1 at 43` :+ `G1 at 42` + * $ 534309
) $ `G1 at 43` NONE `G1 at 44` ; ( `G3 at 26` ) `G1 at 44` [ , . `G1 at 48` match `G1 at 44` - | & `G1 at 45` == `G1 at 44` < `G1 at 45` :+ `G1 at 44` + * $ 250199
trait $ `G1 at 45` NONE `G1 at 43` ; `G1 at 47` @ `G3 at 26` class object trait $ 71097
A $ `G1 at 51` ; `G3 at 26` a T until to Contract org sireum $ 47142
END $ `G3 at 26` CUT NONE ; `G1 at 53` [ { `G1 at 59` extends $ 717236
"#;

/// Enums, classes and traits.
pub const TYPES: &[u8] = br#"
$ 0 $ import org . sireum . _ ; $ @ enum object A { "a" ; 'b ; "c" }
@ $ `file` CUT `G1 at 27` NONE `G1 at 28` ; `file` @ `G1 at 38` import `G1 at 37` class `G1 at 38` object `G1 at 37` trait $ 456286
enum $ `G1 at 29` NONE `G1 at 30` ; `G3 at 26` a T until to Contract org sireum $ 152356
object $ `G1 at 34` NONE `G1 at 32` ; `G1 at 37` ( @ `G1 at 41` class `file` object `G1 at 43` trait $ 637037
A $ `G1 at 41` NONE `G1 at 42` ; `file` a T until to Contract org sireum $ 766850
{ $ `G3 at 26` CUT `G1 at 43` NONE `G1 at 44` ; `file` { `G1 at 50` extends $ 614927
"a" $ `file` NONE ; `G1 at 48` } `G1 at 50` val var `file` "" 'a `G1 at 50` def `G1 at 48` @ `G1 at 55` override $ 941593
; $ `G1 at 49` NONE `file` ; `G1 at 50` } $ 25615
'b $ `file` NONE ; `G1 at 54` } `file` "" 'a $ 520268
; $ `G1 at 54` NONE `file` ; `G1 at 55` } $ 519056
"c" $ `file` NONE ; `G1 at 57` } `file` "" 'a $ 434334
} $ `G1 at 60` ; `file` } $ 145311
END $ `file` CUT NONE ; $ 575438
$ 0 $ import org . sireum . _ ; $ @ enum object A { 'b } ; object C ; object D { }
@ $ `file` CUT `G1 at 27` NONE `G1 at 28` ; `file` @ `G1 at 38` import `G1 at 37` class `G1 at 38` object `G1 at 37` trait $ 685887
enum $ `G1 at 29` NONE `G1 at 30` ; `G3 at 26` a T until to Contract org sireum $ 152356
object $ `G1 at 34` NONE `G1 at 32` ; `G1 at 37` ( @ `G1 at 41` class `file` object `G1 at 43` trait $ 190476
A $ `G1 at 41` NONE `G1 at 42` ; `file` a T until to Contract org sireum $ 932574
{ $ `G3 at 26` CUT `G1 at 43` NONE `G1 at 44` ; `file` { `G1 at 50` extends $ 453594
'b $ `G3 at 26` NONE ; `G1 at 46` } `G1 at 48` val var `file` "" 'a `G1 at 48` def `G1 at 46` @ `G1 at 53` override $ 292986
} $ `G1 at 50` NONE `G1 at 51` ; `file` } $ 682890
; $ `file` CUT `G1 at 50` NONE `file` ; $ 332921
object $ `file` CUT `G1 at 52` NONE `G1 at 53` ; `G1 at 54` @ `file` import `G3 at 51` class `file` object `G3 at 51` trait $ 938327
C $ `G1 at 61` NONE `G1 at 62` ; `file` a T until to Contract org sireum $ 536047
; $ `file` CUT `G1 at 61` NONE `file` ; `G1 at 62` { `G1 at 68` extends $ 827321
object $ `file` CUT `G1 at 63` NONE `G1 at 64` ; { `G1 at 66` @ `G1 at 71` import `G1 at 70` class `file` object `G3 at 62` trait `file` extends $ 347205
D $ `G1 at 70` NONE `G1 at 71` ; `file` a T until to Contract org sireum $ 672517
{ $ `file` CUT `G1 at 72` NONE `G1 at 73` ; `file` { `G1 at 79` extends $ 691211
} $ `G1 at 74` ; `file` } `G1 at 76` val var `G1 at 75` "" 'a `G1 at 76` def `G1 at 74` @ `G1 at 81` override $ 139080
END $ `file` CUT NONE ; $ 789278
$ 0 $ import org . sireum . _ ; $ @ record class A [ B , C ] ( val a : B , var c : D . E , f : G [ H ] )
@ $ `file` CUT `G1 at 27` NONE `G1 at 28` ; `file` @ `G1 at 40` import `G1 at 39` class `G1 at 40` object `G1 at 39` trait $ 883027
record $ `G1 at 29` NONE `G1 at 30` ; `G3 at 26` a T until to Contract org sireum $ 152356
class $ `G1 at 36` NONE `G1 at 34` ; `G1 at 39` ( @ `file` class `G1 at 44` object `G1 at 53` trait $ 44316
A $ `G1 at 42` NONE `G1 at 43` ; `file` a T until to Contract org sireum $ 745273
[ $ `G3 at 26` CUT `G1 at 44` NONE `G1 at 45` ; `G1 at 47` ( `file` [ $ 128311
B $ `G1 at 46` NONE `G1 at 47` ; `file` a T until to Contract org sireum $ 964572
, $ `G1 at 48` NONE `G1 at 49` ; ] `file` , $ 640852
C $ `G1 at 50` NONE `G1 at 51` ; `file` a T until to Contract org sireum $ 325877
] $ `G1 at 52` NONE `G1 at 53` ; `file` ] `G1 at 53` , $ 785739
( $ `G1 at 54` NONE `G1 at 52` ; `file` ( $ 615400
val $ `file` NONE ; `G1 at 57` ) `file` val var `G1 at 57` a T `G1 at 61` until `G1 at 58` to `G1 at 64` Contract `G1 at 59` org `G1 at 62` sireum $ 884529
a $ `G1 at 60` NONE `G1 at 61` ; `file` a T until to Contract org sireum $ 200822
: $ `G1 at 62` NONE `G1 at 63` ; `file` : $ 890146
B $ `G1 at 64` NONE `G1 at 65` ; `file` a T until to Contract org sireum $ 843994
, $ `G1 at 66` NONE `G1 at 67` ; ) [ `file` , `G1 at 67` . $ 161200
var $ `file` NONE ; val var `G1 at 69` a T `G1 at 73` until `G1 at 70` to `G1 at 76` Contract `G1 at 71` org `G1 at 74` sireum $ 435761
c $ `G1 at 72` NONE `G1 at 73` ; `file` a T until to Contract org sireum $ 472040
: $ `G1 at 74` NONE `G1 at 75` ; `file` : $ 457637
D $ `G1 at 76` NONE `G1 at 77` ; `file` a T until to Contract org sireum $ 716498
. $ `G1 at 78` NONE `G1 at 79` ; ) `G1 at 85` [ `G1 at 81` , `file` . $ 417941
E $ `G1 at 80` NONE `G1 at 81` ; `file` a T until to Contract org sireum $ 619357
, $ `G1 at 82` NONE `G1 at 83` ; ) `G1 at 85` [ `file` , `G1 at 85` . $ 234490
f $ `G1 at 84` NONE `G1 at 85` ; `G1 at 87` val var `file` a T until to Contract org sireum $ 989770
: $ `G1 at 86` NONE `G1 at 87` ; `file` : $ 25128
G $ `G1 at 88` NONE `G1 at 89` ; `file` a T until to Contract org sireum $ 685309
[ $ `G1 at 90` NONE `G1 at 91` ; ) `file` [ `G1 at 93` , . $ 923029
H $ `G1 at 92` NONE `G1 at 93` ; `file` a T until to Contract org sireum $ 438378
] $ `G1 at 94` NONE `G1 at 95` ; [ `file` ] `G1 at 95` , . $ 349933
) $ `G1 at 96` ; `file` ) `G1 at 96` , $ 319768
END $ `file` CUT NONE ; `G1 at 98` { `G1 at 104` extends $ 330398
$ 0 $ import org . sireum . _ ; $ @ datatype class A ( ) extends B [ C ] with D { @ pure override def f : G ; @ strictpure def h ( ) : I = j }
@ $ `file` CUT `G1 at 27` NONE `G1 at 28` ; `file` @ `G1 at 42` import `G1 at 41` class `G1 at 42` object `G1 at 41` trait $ 93758
datatype $ `G1 at 29` NONE `G1 at 30` ; `G3 at 26` a T until to Contract org sireum $ 152356
class $ `G1 at 38` NONE `G1 at 36` ; `G1 at 41` ( `G1 at 43` @ `file` class `G1 at 46` object `G1 at 45` trait $ 182640
A $ `G1 at 44` NONE `G1 at 45` ; `file` a T until to Contract org sireum $ 441061
( $ `G3 at 26` CUT `G1 at 46` NONE `G1 at 47` ; `file` ( `G1 at 47` [ $ 667194
) $ `G1 at 48` NONE `G1 at 49` ; `file` ) `G1 at 51` val var `G1 at 49` a T `G1 at 53` until `G1 at 50` to `G1 at 56` Contract `G1 at 51` org `G1 at 54` sireum $ 193551
extends $ `file` CUT `G1 at 50` NONE `G1 at 51` ; { `file` extends $ 526455
B $ `G1 at 58` NONE `G1 at 59` ; `file` a T until to Contract org sireum $ 204255
[ $ `file` CUT `G1 at 60` NONE `G1 at 61` ; `file` [ `G1 at 61` { `G1 at 63` . `G1 at 66` with $ 334147
C $ `G1 at 62` NONE `G1 at 63` ; `file` a T until to Contract org sireum $ 494808
] $ `G1 at 64` NONE `G1 at 65` ; [ `file` ] `G1 at 65` , . $ 549011
with $ `file` CUT `G1 at 66` NONE `G1 at 67` ; { `file` with $ 899813
D $ `G1 at 71` NONE `G1 at 72` ; `file` a T until to Contract org sireum $ 783853
{ $ `file` CUT `G1 at 73` NONE `G1 at 81` ; `G1 at 74` [ `file` { `G1 at 74` . `G1 at 77` with $ 462188
@ $ `G1 at 75` NONE `G1 at 76` ; } `G1 at 83` def `file` @ `G1 at 83` override $ 811935
pure $ `G1 at 77` NONE `G1 at 78` ; `G3 at 74` a T until to Contract org sireum $ 656235
override $ `file` NONE `G1 at 80` ; `G1 at 83` ( `G1 at 85` def `G1 at 83` @ `file` override $ 326952
def $ `G1 at 91` NONE `G1 at 92` ; `file` def $ 144987
f $ `G1 at 95` NONE `G1 at 96` ; `file` a T until to Contract org sireum $ 273285
: $ `G1 at 97` NONE `G1 at 95` ; `G1 at 102` ( [ `file` : $ 168244
G $ `G1 at 101` NONE `G1 at 102` ; `file` a T until to Contract org sireum $ 203827
; $ `G1 at 101` NONE `file` ; `G1 at 102` [ } . = $ 745331
@ $ `G1 at 103` NONE `G1 at 104` ; `G1 at 115` [ `G1 at 104` } `G1 at 115` . = `G1 at 117` def `file` @ `G1 at 111` override $ 343317
strictpure $ `G1 at 105` NONE `G1 at 106` ; `G3 at 102` a T until to Contract org sireum $ 468611
def $ `G1 at 116` NONE `G1 at 114` ; `G1 at 119` ( `file` def `G1 at 121` @ `G1 at 124` override $ 25715
h $ `G1 at 120` NONE `G1 at 121` ; `file` a T until to Contract org sireum $ 301260
( $ `G1 at 122` NONE `G1 at 123` ; `file` ( `G1 at 123` [ : $ 466254
) $ `G1 at 124` NONE `G1 at 125` ; `file` ) `G1 at 127` val var `G1 at 129` a T `G1 at 133` until `G1 at 130` to `G1 at 136` Contract `G1 at 131` org `G1 at 134` sireum $ 642800
: $ `G1 at 126` NONE `G1 at 124` ; `file` : $ 15351
I $ `G1 at 128` NONE `G1 at 129` ; `file` a T until to Contract org sireum $ 277088
= $ `G1 at 130` NONE `G1 at 131` ; `G1 at 133` [ `G1 at 131` } `file` . = $ 767319
j $ `G1 at 132` NONE `G1 at 133` ; ( `G1 at 134` { if `file` this a T until to Contract 1 "" 'c' s"" l"" `G1 at 133` ! ~ - `file` org sireum $ 539965
} $ `G1 at 134` ; ( [ `file` } `G1 at 134` . `G1 at 138` match `G1 at 134` - | & `G1 at 135` == `G1 at 134` < `G1 at 135` :+ `G1 at 134` + * $ 249903
END $ `file` CUT NONE ; $ 696660
$ 0 $ import org . sireum . _ ; @ sig $ trait A [ B ] extends C with D . E { def f : G }
trait $ `G1 at 33` NONE `G1 at 31` ; `G1 at 36` ( @ `G1 at 46` class `G1 at 41` object `file` trait $ 282312
A $ `G1 at 39` NONE `G1 at 40` ; `file` a T until to Contract org sireum $ 751413
[ $ `file` CUT `G1 at 41` NONE `G1 at 42` ; `file` [ `G1 at 42` { `G1 at 50` extends $ 707425
B $ `G1 at 43` NONE `G1 at 44` ; `file` a T until to Contract org sireum $ 525108
] $ `G1 at 45` NONE `G1 at 46` ; `file` ] `G1 at 46` , $ 288351
extends $ `file` CUT `G1 at 47` NONE `G1 at 48` ; { `file` extends $ 626942
C $ `G1 at 55` NONE `G1 at 56` ; `file` a T until to Contract org sireum $ 290158
with $ `file` CUT `G1 at 57` NONE `G1 at 58` ; `G1 at 64` [ `G1 at 58` { `file` . with $ 800561
D $ `G1 at 62` NONE `G1 at 63` ; `file` a T until to Contract org sireum $ 690309
. $ `file` CUT `G1 at 64` NONE `G1 at 65` ; `G1 at 67` [ `G1 at 65` { `file` . with $ 380857
E $ `G1 at 66` NONE `G1 at 67` ; `file` a T until to Contract org sireum $ 226920
{ $ `file` CUT `G1 at 68` NONE `G1 at 69` ; [ `file` { `G1 at 69` . `G1 at 72` with $ 871809
def $ `G1 at 70` NONE `G1 at 71` ; } `file` def `G1 at 73` @ `G1 at 78` override $ 481862
f $ `G1 at 74` NONE `G1 at 75` ; `file` a T until to Contract org sireum $ 141622
: $ `G1 at 76` NONE `G1 at 74` ; `G1 at 79` ( [ `file` : $ 350604
G $ `G1 at 78` NONE `G1 at 79` ; `file` a T until to Contract org sireum $ 426643
} $ `G1 at 80` ; [ `file` } `G1 at 80` . = $ 241416
END $ `file` CUT NONE ; $ 943415
$ 0 $ import org . sireum . _ ; @ msig $ trait A { } ; @ record trait B extends C ; object D
trait $ `G1 at 34` NONE `G1 at 32` ; `G1 at 37` ( @ `G1 at 41` class `G3 at 26` object `file` trait $ 68011
A $ `G1 at 40` NONE `G1 at 41` ; `file` a T until to Contract org sireum $ 833127
{ $ `file` CUT `G1 at 42` NONE `G1 at 43` ; [ `file` { `G1 at 49` extends $ 733400
} $ `G1 at 55` NONE `G1 at 56` ; `file` } `G1 at 49` def `G1 at 47` @ `G1 at 54` override $ 379030
; $ `file` CUT `G1 at 46` NONE `file` ; $ 728634
@ $ `file` CUT `G1 at 48` NONE `G1 at 49` ; `file` @ `G1 at 61` import `G1 at 60` class `G1 at 61` object `G1 at 60` trait $ 125358
record $ `G1 at 50` NONE `G1 at 51` ; `G3 at 47` a T until to Contract org sireum $ 721341
trait $ `G1 at 57` NONE `G1 at 55` ; `G1 at 60` ( @ `G1 at 64` class `G3 at 47` object `file` trait $ 927762
B $ `G1 at 63` NONE `G1 at 64` ; `file` a T until to Contract org sireum $ 262143
extends $ `file` CUT `G1 at 65` NONE `G1 at 66` ; `G1 at 70` [ `G1 at 66` { `file` extends $ 23735
C $ `G1 at 75` NONE `G1 at 76` ; `file` a T until to Contract org sireum $ 838098
; $ `file` CUT `G1 at 75` NONE `file` ; `G1 at 76` [ { . `G1 at 79` with $ 158439
object $ `file` CUT `G1 at 77` NONE `G1 at 78` ; `G1 at 79` [ `G1 at 78` { `file` . `G1 at 79` @ `file` import `G3 at 76` class `file` object `G3 at 76` trait `file` with $ 344227
D $ `G1 at 84` ; `file` a T until to Contract org sireum $ 125129
END $ `file` CUT NONE ; `G1 at 86` { `G1 at 92` extends $ 780494
"#;

/// Objects, globals and methods.
pub const OBJECTS: &[u8] = br#"
$ 0 $ import org . sireum . _ ; $ object A extends B { override val b : C = d ; var e = f }
object $ `file` CUT `G1 at 27` NONE `G1 at 28` ; `G1 at 30` @ `G1 at 35` import `G1 at 34` class `file` object `G1 at 55` trait $ 450608
A $ `G1 at 34` NONE `G1 at 35` ; `file` a T until to Contract org sireum $ 300070
extends $ `file` CUT `G1 at 36` NONE `G1 at 37` ; { `file` extends $ 152987
B $ `G1 at 44` NONE `G1 at 45` ; `file` a T until to Contract org sireum $ 872162
{ $ `file` CUT `G1 at 46` NONE `G1 at 47` ; [ `file` { `G1 at 47` . `G1 at 50` with $ 331412
override $ `file` NONE ; `G1 at 49` } `G1 at 51` val var def `G1 at 49` @ `file` override $ 252157
val $ `G1 at 57` NONE `G1 at 58` ; `file` val var `G3 at 47` def $ 44305
b $ `G1 at 61` NONE `G1 at 62` ; `file` a T until to Contract org sireum $ 88439
: $ `G1 at 63` NONE `G1 at 61` ; `file` : `G1 at 66` = $ 277859
C $ `G1 at 65` NONE `G1 at 66` ; `file` a T until to Contract org sireum $ 327146
= $ `G1 at 67` NONE `G1 at 65` ; `G1 at 72` [ `G1 at 69` . `file` = $ 901759
d $ `G1 at 71` NONE `G1 at 72` ; ( `G1 at 73` if `file` this a T until to Contract 1 "" 'c' s"" l"" `G1 at 72` ! ~ - `file` org sireum $ 72494
; $ `G1 at 71` NONE `file` ; `G1 at 72` ( [ } . `G1 at 76` match `G1 at 72` - | & `G1 at 73` == `G1 at 72` < `G1 at 73` :+ `G1 at 72` + * $ 842709
var $ `G1 at 73` NONE `G1 at 74` ; `G1 at 76` [ `G1 at 74` } `G1 at 76` . `G1 at 78` match `file` val var `G1 at 78` def `G1 at 76` @ `G1 at 81` override $ 481545
e $ `G1 at 77` NONE `G1 at 78` ; `file` a T until to Contract org sireum $ 354458
= $ `G1 at 79` NONE `G1 at 77` ; `G1 at 82` : `file` = $ 602629
f $ `G1 at 81` NONE `G1 at 82` ; ( `G1 at 83` if `file` this a T until to Contract 1 "" 'c' s"" l"" `G1 at 82` ! ~ - `file` org sireum $ 536247
} $ `G1 at 83` ; ( [ `file` } `G1 at 83` . `G1 at 87` match `G1 at 83` - | & `G1 at 84` == `G1 at 83` < `G1 at 84` :+ `G1 at 83` + * $ 837326
END $ `file` CUT NONE ; $ 574913
$ 0 $ import org . sireum . _ ; $ object A { def g [ T ] ( h : I , j : K ) : J = { return k } ; def l : M }
object $ `file` CUT `G1 at 27` NONE `G1 at 28` ; `G1 at 30` @ `G1 at 35` import `G1 at 34` class `file` object `G3 at 26` trait $ 564096
A $ `G1 at 34` NONE `G1 at 35` ; `file` a T until to Contract org sireum $ 196067
{ $ `file` CUT `G1 at 36` NONE `G1 at 37` ; `file` { `G1 at 43` extends $ 608374
def $ `G1 at 38` NONE `G1 at 39` ; } `G1 at 43` val var `G1 at 40` "" 'a `file` def `G1 at 41` @ `G1 at 46` override $ 474115
g $ `G1 at 42` NONE `G1 at 43` ; `file` a T until to Contract org sireum $ 370278
[ $ `G1 at 44` NONE `G1 at 42` ; `G1 at 47` ( `file` [ `G1 at 47` : $ 548002
T $ `G1 at 46` NONE `G1 at 47` ; `file` a T until to Contract org sireum $ 165899
] $ `G1 at 48` NONE `G1 at 49` ; `file` ] `G1 at 49` , $ 87627
( $ `G1 at 50` NONE `G1 at 48` ; `file` ( `G1 at 53` : $ 193258
h $ `G1 at 52` NONE `G1 at 53` ; `G1 at 57` ) `G1 at 55` val var `file` a T until to Contract org sireum $ 698852
: $ `G1 at 54` NONE `G1 at 55` ; `file` : $ 211586
I $ `G1 at 56` NONE `G1 at 57` ; `file` a T until to Contract org sireum $ 147904
, $ `G1 at 58` NONE `G1 at 59` ; ) `G1 at 61` [ `file` , `G1 at 61` . $ 105058
j $ `G1 at 60` NONE `G1 at 61` ; `G1 at 63` val var `file` a T until to Contract org sireum $ 943651
: $ `G1 at 62` NONE `G1 at 63` ; `file` : $ 524273
K $ `G1 at 64` NONE `G1 at 65` ; `file` a T until to Contract org sireum $ 714641
) $ `G1 at 66` NONE `G1 at 67` ; `file` ) `G1 at 67` [ , . $ 952099
: $ `G1 at 68` NONE `G1 at 66` ; `file` : $ 488144
J $ `G1 at 70` NONE `G1 at 71` ; `file` a T until to Contract org sireum $ 460154
= $ `G1 at 72` NONE `G1 at 73` ; [ } . `file` = $ 39516
{ $ `G1 at 74` NONE `G1 at 75` ; ( `file` { `G1 at 76` if `G1 at 78` this `G1 at 75` a T `G1 at 79` until `G1 at 76` to `G1 at 82` Contract `G1 at 75` 1 `G1 at 76` "" `G1 at 77` 'c' s"" l"" `G1 at 75` ! ~ - `G1 at 77` org `G1 at 80` sireum $ 328440
return $ `G5 at 76` NONE `G5 at 77` ; `G1 at 79` ( `G1 at 77` } `G1 at 78` if `G1 at 81` val var while `G1 at 79` for `file` return `G1 at 80` this `G1 at 77` a T `G1 at 81` until `G1 at 78` to `G1 at 84` Contract `G1 at 77` 1 `G1 at 78` "" `G1 at 79` 'c' s"" l"" `G5 at 75` ! ~ - `G1 at 79` org `G1 at 82` sireum $ 676799
k $ `file` NONE ; `G1 at 84` ( `G1 at 88` } `G1 at 85` if `file` this a T until to Contract 1 "" 'c' s"" l"" `G1 at 84` ! ~ - `file` org sireum $ 356011
} $ `G1 at 87` NONE `G1 at 88` ; ( [ `file` } `G1 at 88` . `G1 at 92` match `G1 at 88` - | & `G1 at 89` == `G1 at 88` < `G1 at 89` :+ `G1 at 88` + * $ 333883
; $ `G1 at 87` NONE `file` ; `G1 at 88` } $ 435170
def $ `G1 at 89` NONE `G1 at 90` ; } `G1 at 98` val var `file` def `G1 at 92` @ `G1 at 97` override $ 438713
l $ `G1 at 93` NONE `G1 at 94` ; `file` a T until to Contract org sireum $ 68289
: $ `G1 at 95` NONE `G1 at 93` ; `G1 at 98` ( [ `file` : $ 983382
M $ `G1 at 97` NONE `G1 at 98` ; `file` a T until to Contract org sireum $ 200583
} $ `G1 at 99` ; [ `file` } `G1 at 99` . = $ 7678
END $ `file` CUT NONE ; $ 68194
$ 0 $ import org . sireum . _ ; $ object A { @ strictpure def a : B = c + 1 ; override def d ( ) : E }
object $ `file` CUT `G1 at 27` NONE `G1 at 28` ; `G1 at 30` @ `G1 at 35` import `G1 at 34` class `file` object `G3 at 26` trait $ 481657
A $ `G1 at 34` NONE `G1 at 35` ; `file` a T until to Contract org sireum $ 515524
{ $ `file` CUT `G1 at 36` NONE `G1 at 50` ; `file` { `G1 at 43` extends $ 269158
@ $ `G1 at 38` NONE `G1 at 39` ; } `G1 at 52` val var `G1 at 40` "" 'a `G1 at 52` def `file` @ `G1 at 46` override $ 496224
strictpure $ `G1 at 40` NONE `G1 at 41` ; `G3 at 37` a T until to Contract org sireum $ 460217
def $ `G1 at 51` NONE `G1 at 49` ; `G1 at 54` ( `G3 at 37` val var `file` def `G1 at 54` @ `G1 at 59` override $ 508923
a $ `G1 at 55` NONE `G1 at 56` ; `file` a T until to Contract org sireum $ 778857
: $ `G1 at 57` NONE `G1 at 55` ; `G1 at 60` ( [ `file` : $ 264799
B $ `G1 at 59` NONE `G1 at 60` ; `file` a T until to Contract org sireum $ 782692
= $ `G1 at 61` NONE `G1 at 62` ; `G1 at 64` [ `G1 at 62` } `G1 at 64` . `file` = $ 682445
c $ `G1 at 63` NONE `G1 at 64` ; ( { `G1 at 65` if `file` this a T until to Contract 1 "" 'c' s"" l"" `G1 at 64` ! ~ - `file` org sireum $ 940356
+ $ `G1 at 65` NONE `G1 at 66` ; `G1 at 70` ( `G1 at 66` [ } . `G1 at 70` match `file` - | & == < :+ + * $ 169784
1 $ `G1 at 69` NONE `G1 at 70` ; ( `file` this a T until to Contract 1 "" 'c' s"" l"" `G1 at 70` ! ~ - `file` org sireum $ 363947
; $ `G1 at 69` NONE `file` ; `G1 at 70` ( [ } . `G1 at 74` match `G1 at 70` - | & `G1 at 71` == `G1 at 70` < `G1 at 71` :+ `G1 at 70` + * $ 112216
override $ `file` NONE ; `G1 at 72` [ } . `G1 at 76` match `G1 at 74` val var def `G1 at 72` @ `file` override $ 116187
def $ `G1 at 80` NONE `G1 at 81` ; `G1 at 85` val var `file` def $ 864955
d $ `G1 at 84` NONE `G1 at 85` ; `file` a T until to Contract org sireum $ 570424
( $ `G1 at 86` NONE `G1 at 87` ; `file` ( `G1 at 87` [ : $ 36782
) $ `G1 at 88` NONE `G1 at 89` ; `file` ) `G1 at 91` val var `G1 at 93` a T `G1 at 97` until `G1 at 94` to `G1 at 100` Contract `G1 at 95` org `G1 at 98` sireum $ 953310
: $ `G1 at 90` NONE `G1 at 88` ; `file` : $ 447548
E $ `G1 at 92` NONE `G1 at 93` ; `file` a T until to Contract org sireum $ 938761
} $ `G1 at 94` ; [ `file` } `G1 at 94` . = $ 57764
END $ `file` CUT NONE ; $ 890596
"#;

/// Bodies of methods.
pub const BODIES: &[u8] = br#"
$ 0 $ import org . sireum . _ ; $ object A { def a : B = { c ( d ) ; e = f } ; val g = h match { case i => j } }
object $ `file` CUT `G1 at 27` NONE `G1 at 28` ; `G1 at 30` @ `G1 at 35` import `G1 at 34` class `file` object `G1 at 70` trait $ 126997
A $ `G1 at 34` NONE `G1 at 35` ; `file` a T until to Contract org sireum $ 256623
{ $ `file` CUT `G1 at 36` NONE `G1 at 37` ; `file` { `G1 at 43` extends $ 982022
def $ `G1 at 38` NONE `G1 at 39` ; } `G1 at 49` val var `G1 at 40` "" 'a `file` def `G1 at 41` @ `G1 at 46` override $ 255457
a $ `G1 at 42` NONE `G1 at 43` ; `file` a T until to Contract org sireum $ 112912
: $ `G1 at 44` NONE `G1 at 42` ; `G1 at 47` ( [ `file` : $ 220076
B $ `G1 at 46` NONE `G1 at 47` ; `file` a T until to Contract org sireum $ 110494
= $ `G1 at 48` NONE `G1 at 49` ; [ } . `file` = $ 967459
{ $ `G1 at 60` NONE `G1 at 61` ; ( `file` { `G1 at 52` if `G1 at 54` this `G1 at 51` a T `G1 at 55` until `G1 at 52` to `G1 at 58` Contract `G1 at 51` 1 `G1 at 52` "" `G1 at 53` 'c' s"" l"" `G1 at 61` ! ~ - `G1 at 53` org `G1 at 56` sireum $ 215711
c $ `G5 at 52` NONE `G5 at 53` ; `G1 at 61` ( `G1 at 53` } `G1 at 59` if `G1 at 55` val var `G1 at 62` while `G1 at 59` for `file` return this a T until to Contract 1 "" 'c' s"" `G1 at 55` l"" `G5 at 51` ! ~ - `file` org sireum $ 376739
( $ `G1 at 54` NONE `G1 at 57` ; `file` ( `G1 at 57` [ `G1 at 55` } `G1 at 57` . = `G1 at 59` match `G1 at 57` - | & `G1 at 58` == `G1 at 57` < `G1 at 58` :+ `G1 at 57` + * $ 121116
d $ `file` NONE ; `G1 at 57` ( ) `G1 at 58` if `file` this a T until to Contract 1 "" 'c' s"" l"" `G1 at 57` ! ~ - `file` org sireum $ 7659
) $ `G1 at 60` NONE `G1 at 61` ; `G1 at 67` ( `file` ) `G1 at 63` [ , . = `G1 at 65` match `G1 at 63` - | & `G1 at 64` == `G1 at 63` < `G1 at 64` :+ `G1 at 63` + * $ 443616
; $ `G1 at 60` NONE `file` ; `G1 at 67` ( `G1 at 63` [ `G1 at 61` } `file` . `G1 at 63` = `G1 at 65` match `G4 at 51` - | & == < :+ + * $ 790680
e $ `file` NONE ; `G1 at 63` ( [ } . = `G1 at 64` if `G1 at 67` match `G1 at 65` val var `G1 at 67` while `G1 at 65` for `G1 at 68` return `file` this a T until to Contract `G4 at 61` 1 "" 'c' s"" `G1 at 65` l"" `G1 at 63` ! ~ - `file` org sireum $ 455464
= $ `G1 at 64` NONE `G5 at 61` ; `G1 at 67` ( [ `G1 at 65` } `G5 at 61` . `file` = `G1 at 69` match `G5 at 61` - | & == < :+ + * $ 842541
f $ `G1 at 66` NONE `G1 at 67` ; ( `G1 at 68` if `file` this a T until to Contract 1 "" 'c' s"" l"" `G1 at 67` ! ~ - `file` org sireum $ 221529
} $ `G1 at 103` NONE `G1 at 104` ; `G1 at 71` ( [ `file` } `G1 at 71` . `G1 at 75` match `G1 at 71` - | & `G1 at 72` == `G1 at 71` < `G1 at 72` :+ `G1 at 71` + * $ 551863
; $ `G1 at 70` NONE `file` ; `G1 at 71` } $ 427145
val $ `G1 at 72` NONE `G1 at 73` ; } `file` val var `G1 at 77` def `G1 at 75` @ `G1 at 80` override $ 39553
g $ `G1 at 76` NONE `G1 at 77` ; `file` a T until to Contract org sireum $ 500171
= $ `G1 at 78` NONE `G1 at 76` ; `G1 at 81` : `file` = $ 841264
h $ `G1 at 80` NONE `G1 at 81` ; ( `G1 at 82` if `file` this a T until to Contract 1 "" 'c' s"" l"" `G1 at 81` ! ~ - `file` org sireum $ 118735
match $ `G1 at 82` NONE `G1 at 83` ; ( [ } . `file` match `G1 at 83` - | & `G1 at 84` == `G1 at 83` < `G1 at 84` :+ `G1 at 83` + * $ 301449
{ $ `G1 at 88` NONE `G1 at 89` ; `file` { $ 594797
case $ `G1 at 90` NONE `G1 at 91` ; `file` case $ 163421
i $ `G1 at 95` NONE `G1 at 96` ; `file` _ a T until to Contract 1 "" 'c' s"" l"" `G1 at 96` - `file` org sireum $ 344832
=> $ `G1 at 97` NONE `G1 at 98` ; `G1 at 100` ( . : `file` => `G1 at 101` if $ 13572
j $ `file` NONE ; `G1 at 101` ( `G1 at 103` } `G1 at 102` if `G1 at 104` case `G1 at 103` val var `G1 at 105` while `G1 at 103` for `file` return this a T until to Contract 1 "" 'c' s"" l"" `G1 at 101` ! ~ - `file` org sireum $ 565374
} $ `G1 at 103` NONE `G1 at 104` ; `G1 at 103` ( [ `file` } `G1 at 103` . = `G1 at 107` match `G1 at 106` case `G1 at 103` - | & `G1 at 104` == `G1 at 103` < `G1 at 104` :+ `G1 at 103` + * $ 446797
} $ `G1 at 104` ; `file` } $ 862922
END $ `file` CUT NONE ; $ 801485
$ 0 $ import org . sireum . _ ; object A { @ strictpure $ def a : B = if ( c ) d else e ; val f = g }
def $ `G1 at 51` NONE `G1 at 49` ; `G1 at 54` ( `G3 at 37` val var `file` def `G1 at 54` @ `G1 at 59` override $ 669592
a $ `G1 at 55` NONE `G1 at 56` ; `file` a T until to Contract org sireum $ 350025
: $ `G1 at 57` NONE `G1 at 55` ; `G1 at 60` ( [ `file` : $ 144956
B $ `G1 at 59` NONE `G1 at 60` ; `file` a T until to Contract org sireum $ 992196
= $ `G1 at 61` NONE `G1 at 62` ; [ } . `file` = $ 992238
if $ `G1 at 69` NONE `G1 at 70` ; ( { `file` if `G1 at 73` this `G1 at 70` a T `G1 at 74` until `G1 at 71` to `G1 at 77` Contract `G1 at 70` 1 `G1 at 71` "" `G1 at 72` 'c' s"" l"" `G1 at 70` ! ~ - `G1 at 72` org `G1 at 75` sireum $ 878230
( $ `G1 at 66` NONE `G1 at 67` ; `file` ( $ 889137
c $ `G1 at 68` NONE `G1 at 69` ; ( `G1 at 70` if `file` this a T until to Contract 1 "" 'c' s"" l"" `G1 at 69` ! ~ - `file` org sireum $ 802171
) $ `G1 at 70` NONE `G1 at 71` ; `G1 at 73` ( `file` ) `G1 at 73` [ . `G1 at 75` match `G1 at 73` - | & `G1 at 74` == `G1 at 73` < `G1 at 74` :+ `G1 at 73` + * $ 412229
d $ `G1 at 72` NONE `G1 at 73` ; ( `G1 at 74` if `file` this a T until to Contract 1 "" 'c' s"" l"" `G1 at 73` ! ~ - `file` org sireum $ 31644
else $ `G1 at 74` NONE `G1 at 72` ; `G1 at 79` ( [ `G1 at 76` . `file` else `G1 at 79` match `G1 at 76` - | & `G1 at 77` == `G1 at 76` < `G1 at 77` :+ `G1 at 76` + * $ 392210
e $ `G1 at 81` NONE `G1 at 82` ; ( `G1 at 83` if `file` this a T until to Contract 1 "" 'c' s"" l"" `G1 at 82` ! ~ - `file` org sireum $ 194357
; $ `G1 at 81` NONE `file` ; `G1 at 82` ( [ } . `G1 at 86` match `G1 at 82` - | & `G1 at 83` == `G1 at 82` < `G1 at 83` :+ `G1 at 82` + * $ 826686
val $ `G1 at 83` NONE `G1 at 84` ; `G1 at 86` [ `G1 at 84` } `G1 at 86` . `G1 at 88` match `file` val var `G1 at 88` def `G1 at 86` @ `G1 at 91` override $ 921807
f $ `G1 at 87` NONE `G1 at 88` ; `file` a T until to Contract org sireum $ 605238
= $ `G1 at 89` NONE `G1 at 87` ; `G1 at 92` : `file` = $ 169252
g $ `G1 at 91` NONE `G1 at 92` ; ( `G1 at 93` if `file` this a T until to Contract 1 "" 'c' s"" l"" `G1 at 92` ! ~ - `file` org sireum $ 291843
} $ `G1 at 93` ; ( [ `file` } `G1 at 93` . `G1 at 97` match `G1 at 93` - | & `G1 at 94` == `G1 at 93` < `G1 at 94` :+ `G1 at 93` + * $ 394307
END $ `file` CUT NONE ; $ 85864
"#;
