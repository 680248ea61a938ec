// Expressions with each token replaced.

/// Operators, prefixes, suffixes, parentheses and `if`s.
pub const REPLACED: &[u8] = br#"
$ 0 $ - 1 . a
- $ `rest 0` NONE ; `G1 at 7` ( `G1 at 3` if `rest 3` this a T until to Contract 1 "" 'c' s"" l"" `rest 0` ! ~ - $ 241539
1 $ `G1 at 3` NONE `G1 at 4` ; ( `rest 0` this a T until to Contract 1 "" 'c' s"" l"" $ 345930
. $ `rest 0` CUT `rest 1` NONE `rest 2` ; `G1 at 7` ( `rest 2` ) `G1 at 7` [ `rest 2` ] { } , `rest 0` . `rest 2` _ : = => <- if else `G1 at 10` match `rest 2` case val var while for return this a T until to Contract 1 "" 'c' s"" l"" ! ~ `rest 0` - | & == < :+ + * `rest 2` 'a def @ # $ 433376
a $ `G1 at 7` ; `rest 0` a T until to Contract $ 795311
END $ `rest 0` CUT NONE ; `G1 at 9` ( `rest 1` ) `G1 at 9` [ `rest 1` ] { } , `G1 at 9` . `rest 1` _ : = => <- if else `G1 at 13` match `rest 1` case val var while for return this a T until to Contract 1 "" 'c' s"" l"" ! ~ `G1 at 9` - | & `G1 at 10` == `G1 at 9` < `G1 at 10` :+ `G1 at 9` + * `rest 1` 'a def @ # $ 34950
$ 0 $ ! a ( b , - c )
! $ `rest 0` NONE ; `G1 at 15` ( `G1 at 3` if `rest 7` this a T until to Contract 1 "" 'c' s"" l"" `rest 0` ! ~ - $ 84917
a $ `G1 at 7` NONE `G1 at 8` ; ( `rest 0` this a T until to Contract 1 "" 'c' s"" l"" $ 767056
( $ `rest 0` CUT `rest 5` NONE `rest 6` ; `rest 0` ( `rest 6` ) `G1 at 10` [ `rest 6` ] { } , `rest 4` . `rest 6` _ : = => <- if else `G1 at 10` match `rest 6` case val var while for return this a T until to Contract 1 "" 'c' s"" l"" ! ~ `rest 4` - | & == < :+ + * `rest 6` 'a def @ # $ 1390
b $ `G1 at 7` NONE `G1 at 8` ; ( `rest 4` ) `G1 at 9` if `rest 0` this a T until to Contract 1 "" 'c' s"" l"" `G1 at 8` ! ~ - $ 632870
, $ `rest 0` NONE ; `G1 at 15` ( `rest 1` ) `G1 at 10` [ `rest 0` , `G1 at 10` . `rest 0` = `G1 at 14` match `rest 0` - | & == < :+ + * $ 135562
- $ `rest 0` NONE ; `G1 at 15` ( `G1 at 13` if `G1 at 15` this `G1 at 12` a T `G1 at 16` until `G1 at 13` to `G1 at 19` Contract `G1 at 12` 1 `G1 at 13` "" `G1 at 14` 'c' s"" l"" `rest 0` ! ~ - $ 161175
c $ `G1 at 13` NONE `G1 at 14` ; ( `rest 0` this a T until to Contract 1 "" 'c' s"" l"" $ 481512
) $ `G1 at 15` ; ( `rest 0` ) `G1 at 15` [ , . `G1 at 19` match `G1 at 15` - | & `G1 at 16` == `G1 at 15` < `G1 at 16` :+ `G1 at 15` + * $ 68186
END $ `rest 0` CUT NONE ; `G1 at 17` ( `rest 1` ) `G1 at 17` [ `rest 1` ] { } , `G1 at 17` . `rest 1` _ : = => <- if else `G1 at 21` match `rest 1` case val var while for return this a T until to Contract 1 "" 'c' s"" l"" ! ~ `G1 at 17` - | & `G1 at 18` == `G1 at 17` < `G1 at 18` :+ `G1 at 17` + * `rest 1` 'a def @ # $ 439634
$ 0 $ a . b [ c ] ( d = e , f = 1 )
a $ `G1 at 1` NONE `G1 at 2` ; ( `G1 at 3` if `rest 0` this a T until to Contract 1 "" 'c' s"" l"" `G1 at 2` ! ~ - $ 689608
. $ `rest 0` CUT `rest 13` NONE `rest 14` ; `G1 at 29` ( `rest 14` ) `G1 at 12` [ `rest 14` ] { } , `rest 0` . `rest 14` _ : = => <- if else `G1 at 8` match `rest 14` case val var while for return this a T until to Contract 1 "" 'c' s"" l"" ! ~ `rest 0` - | & == < :+ + * `rest 14` 'a def @ # $ 750281
b $ `G1 at 5` NONE `G1 at 6` ; `rest 0` a T until to Contract $ 14673
[ $ `rest 0` CUT `rest 11` NONE `rest 12` ; `G1 at 10` ( `rest 12` ) `rest 0` [ `rest 12` ] { } , `rest 10` . `rest 12` _ : = => <- if else `G1 at 12` match `rest 12` case val var while for return this a T until to Contract 1 "" 'c' s"" l"" ! ~ `rest 10` - | & == < :+ + * `rest 12` 'a def @ # $ 52511
c $ `G1 at 9` NONE `G1 at 10` ; `rest 0` a T until to Contract $ 4768
] $ `G1 at 11` NONE `G1 at 12` ; [ `rest 0` ] `G1 at 12` , . $ 406858
( $ `rest 0` CUT `rest 8` NONE `rest 9` ; `rest 0` ( `rest 9` ) `G1 at 16` [ `rest 9` ] { } , `rest 7` . `rest 9` _ : = => <- if else `G1 at 18` match `rest 9` case val var while for return this a T until to Contract 1 "" 'c' s"" l"" ! ~ `rest 7` - | & == < :+ + * `rest 9` 'a def @ # $ 975266
d $ `G1 at 15` NONE `G1 at 16` ; ( `rest 7` ) `G1 at 17` if `G1 at 19` this `rest 0` a T until to Contract `G1 at 16` 1 `G1 at 17` "" `G1 at 18` 'c' s"" l"" `G1 at 16` ! ~ - $ 723835
= $ `G1 at 17` NONE `G1 at 18` ; `G1 at 24` ( `rest 6` ) `G1 at 24` [ , . `rest 0` = `G1 at 22` match `G1 at 24` - | & `G1 at 25` == `G1 at 24` < `G1 at 25` :+ `G1 at 24` + * $ 696227
e $ `G1 at 19` NONE `G1 at 20` ; ( `G1 at 21` if `rest 0` this a T until to Contract 1 "" 'c' s"" l"" `G1 at 20` ! ~ - $ 677988
, $ `G1 at 21` NONE `G1 at 22` ; `G1 at 29` ( `rest 4` ) `G1 at 24` [ `rest 0` , `G1 at 24` . `G1 at 26` match `G1 at 24` - | & `G1 at 25` == `G1 at 24` < `G1 at 25` :+ `G1 at 24` + * $ 3151
f $ `G1 at 23` NONE `G1 at 24` ; `rest 0` a T until to Contract $ 924318
= $ `G1 at 25` NONE `G1 at 26` ; `rest 0` = $ 757401
1 $ `G1 at 27` NONE `G1 at 28` ; ( `G1 at 29` if `rest 0` this a T until to Contract 1 "" 'c' s"" l"" `G1 at 28` ! ~ - $ 836054
) $ `G1 at 29` ; ( `rest 0` ) `G1 at 29` [ , . `G1 at 33` match `G1 at 29` - | & `G1 at 30` == `G1 at 29` < `G1 at 30` :+ `G1 at 29` + * $ 938449
END $ `rest 0` CUT NONE ; `G1 at 31` ( `rest 1` ) `G1 at 31` [ `rest 1` ] { } , `G1 at 31` . `rest 1` _ : = => <- if else `G1 at 35` match `rest 1` case val var while for return this a T until to Contract 1 "" 'c' s"" l"" ! ~ `G1 at 31` - | & `G1 at 32` == `G1 at 31` < `G1 at 32` :+ `G1 at 31` + * `rest 1` 'a def @ # $ 647591
$ 0 $ a + b * c - d
a $ `G1 at 1` NONE `G1 at 2` ; ( `G1 at 3` if `rest 0` this a T until to Contract 1 "" 'c' s"" l"" `G1 at 2` ! ~ - $ 439782
+ $ `rest 0` CUT `rest 5` NONE `rest 6` ; `G1 at 13` ( `rest 6` ) `G1 at 6` [ `rest 6` ] { } , `rest 0` . `rest 6` _ : = => <- if else `G1 at 8` match `rest 6` case val var while for return this a T until to Contract 1 "" 'c' s"" l"" ! ~ `rest 0` - | & == < :+ + * `rest 6` 'a def @ # $ 524103
b $ `G1 at 5` NONE `G1 at 6` ; ( `rest 0` this a T until to Contract 1 "" 'c' s"" l"" `G1 at 6` ! ~ - $ 315410
* $ `rest 0` CUT `rest 3` NONE `rest 4` ; `G1 at 13` ( `rest 4` ) `G1 at 10` [ `rest 4` ] { } , `rest 0` . `rest 4` _ : = => <- if else `G1 at 12` match `rest 4` case val var while for return this a T until to Contract 1 "" 'c' s"" l"" ! ~ `rest 0` - | & == < :+ + * `rest 4` 'a def @ # $ 680054
c $ `rest 0` NONE ; `G1 at 13` ( `rest 0` this a T until to Contract 1 "" 'c' s"" l"" `G1 at 10` ! ~ - $ 174777
- $ `rest 0` CUT `rest 1` NONE `rest 2` ; `G1 at 13` ( `rest 2` ) `G1 at 13` [ `rest 2` ] { } , `rest 0` . `rest 2` _ : = => <- if else `G1 at 16` match `rest 2` case val var while for return this a T until to Contract 1 "" 'c' s"" l"" ! ~ `rest 0` - | & == < :+ + * `rest 2` 'a def @ # $ 492852
d $ `G1 at 13` ; ( `rest 0` this a T until to Contract 1 "" 'c' s"" l"" `G1 at 13` ! ~ - $ 107018
END $ `rest 0` CUT NONE ; `G1 at 15` ( `rest 1` ) `G1 at 15` [ `rest 1` ] { } , `G1 at 15` . `rest 1` _ : = => <- if else `G1 at 19` match `rest 1` case val var while for return this a T until to Contract 1 "" 'c' s"" l"" ! ~ `G1 at 15` - | & `G1 at 16` == `G1 at 15` < `G1 at 16` :+ `G1 at 15` + * `rest 1` 'a def @ # $ 767157
$ 0 $ a | b & c == d < e :+ f
a $ `G1 at 1` NONE `G1 at 2` ; ( `G1 at 3` if `rest 0` this a T until to Contract 1 "" 'c' s"" l"" `G1 at 2` ! ~ - $ 170850
| $ `rest 0` CUT `rest 9` NONE `rest 10` ; `G1 at 23` ( `rest 10` ) `G1 at 6` [ `rest 10` ] { } , `rest 0` . `rest 10` _ : = => <- if else `G1 at 8` match `rest 10` case val var while for return this a T until to Contract 1 "" 'c' s"" l"" ! ~ `rest 0` - | & == < :+ + * `rest 10` 'a def @ # $ 83851
b $ `G1 at 5` NONE `G1 at 6` ; ( `rest 0` this a T until to Contract 1 "" 'c' s"" l"" `G1 at 6` ! ~ - $ 577316
& $ `rest 0` CUT `rest 7` NONE `rest 8` ; `G1 at 23` ( `rest 8` ) `G1 at 10` [ `rest 8` ] { } , `rest 0` . `rest 8` _ : = => <- if else `G1 at 12` match `rest 8` case val var while for return this a T until to Contract 1 "" 'c' s"" l"" ! ~ `rest 0` - | & == < :+ + * `rest 8` 'a def @ # $ 228047
c $ `G1 at 9` NONE `G1 at 10` ; ( `rest 0` this a T until to Contract 1 "" 'c' s"" l"" `G1 at 10` ! ~ - $ 144667
== $ `rest 0` CUT `rest 5` NONE `rest 6` ; `G1 at 22` ( `rest 6` ) `G1 at 14` [ `rest 6` ] { } , `rest 0` . `rest 6` _ : = => <- if else `G1 at 16` match `rest 6` case val var while for return this a T until to Contract 1 "" 'c' s"" l"" ! ~ `rest 0` - | & == < :+ + * `rest 6` 'a def @ # $ 323775
d $ `G1 at 14` NONE `G1 at 15` ; ( `rest 0` this a T until to Contract 1 "" 'c' s"" l"" `G1 at 15` ! ~ - $ 230289
< $ `rest 0` CUT `rest 3` NONE `rest 4` ; `G1 at 23` ( `rest 4` ) `G1 at 19` [ `rest 4` ] { } , `rest 0` . `rest 4` _ : = => <- if else `G1 at 21` match `rest 4` case val var while for return this a T until to Contract 1 "" 'c' s"" l"" ! ~ `rest 0` - | & == < :+ + * `rest 4` 'a def @ # $ 641148
e $ `G1 at 18` NONE `G1 at 19` ; ( `rest 0` this a T until to Contract 1 "" 'c' s"" l"" `G1 at 19` ! ~ - $ 241439
:+ $ `rest 0` CUT `rest 1` NONE `rest 2` ; `G1 at 22` ( `rest 2` ) `G1 at 22` [ `rest 2` ] { } , `rest 0` . `rest 2` _ : = => <- if else `G1 at 25` match `rest 2` case val var while for return this a T until to Contract 1 "" 'c' s"" l"" ! ~ `rest 0` - | & == < :+ + * `rest 2` 'a def @ # $ 806063
f $ `G1 at 23` ; ( `rest 0` this a T until to Contract 1 "" 'c' s"" l"" `G1 at 23` ! ~ - $ 548030
END $ `rest 0` CUT NONE ; `G1 at 25` ( `rest 1` ) `G1 at 25` [ `rest 1` ] { } , `G1 at 25` . `rest 1` _ : = => <- if else `G1 at 29` match `rest 1` case val var while for return this a T until to Contract 1 "" 'c' s"" l"" ! ~ `G1 at 25` - | & `G1 at 26` == `G1 at 25` < `G1 at 26` :+ `G1 at 25` + * `rest 1` 'a def @ # $ 295007
$ 0 $ ( a ) . b ( c ) ( )
( $ `rest 8` NONE ; `rest 0` ( `G1 at 3` if `rest 9` this a T until to Contract 1 "" 'c' s"" l"" `rest 8` ! ~ - $ 500273
a $ `G1 at 3` NONE `G1 at 4` ; ( `G1 at 5` if `rest 0` this a T until to Contract 1 "" 'c' s"" l"" `G1 at 4` ! ~ - $ 613474
) $ `G1 at 18` NONE `G1 at 19` ; `G1 at 6` ( `rest 0` ) `G1 at 6` [ . `G1 at 10` match `G1 at 6` - | & `G1 at 7` == `G1 at 6` < `G1 at 7` :+ `G1 at 6` + * $ 365916
. $ `rest 0` CUT `rest 6` NONE `rest 7` ; `G1 at 19` ( `rest 7` ) `G1 at 10` [ `rest 7` ] { } , `rest 0` . `rest 7` _ : = => <- if else `G1 at 12` match `rest 7` case val var while for return this a T until to Contract 1 "" 'c' s"" l"" ! ~ `rest 0` - | & == < :+ + * `rest 7` 'a def @ # $ 120745
b $ `G1 at 9` NONE `G1 at 10` ; `rest 0` a T until to Contract $ 827660
( $ `rest 0` CUT `rest 4` NONE `rest 5` ; `rest 0` ( `rest 5` ) `G1 at 14` [ `rest 5` ] { } , `rest 3` . `rest 5` _ : = => <- if else `G1 at 16` match `rest 5` case val var while for return this a T until to Contract 1 "" 'c' s"" l"" ! ~ `rest 3` - | & == < :+ + * `rest 5` 'a def @ # $ 857937
c $ `rest 0` NONE ; `G1 at 14` ( `rest 3` ) `G1 at 15` if `rest 0` this a T until to Contract 1 "" 'c' s"" l"" `G1 at 14` ! ~ - $ 833540
) $ `G1 at 18` NONE `G1 at 19` ; `G1 at 18` ( `rest 0` ) `G1 at 16` [ `G1 at 18` , `G1 at 16` . `G1 at 18` = `G1 at 20` match `G1 at 18` - | & `G1 at 19` == `G1 at 18` < `G1 at 19` :+ `G1 at 18` + * $ 393307
( $ `rest 0` CUT `rest 1` NONE ; `rest 0` ( `rest 2` ) `G1 at 18` [ `rest 2` ] { } , `G1 at 18` . `rest 2` _ : = => <- if else `G1 at 22` match `rest 2` case val var while for return this a T until to Contract 1 "" 'c' s"" l"" ! ~ `G1 at 18` - | & `G1 at 19` == `G1 at 18` < `G1 at 19` :+ `G1 at 18` + * `rest 2` 'a def @ # $ 566810
) $ `G1 at 19` ; ( `rest 0` ) `G1 at 20` if `G1 at 22` this `G1 at 19` a T `G1 at 23` until `G1 at 20` to `G1 at 26` Contract `G1 at 19` 1 `G1 at 20` "" `G1 at 21` 'c' s"" l"" `G1 at 19` ! ~ - $ 39364
END $ `rest 0` CUT NONE ; `G1 at 21` ( `rest 1` ) `G1 at 21` [ `rest 1` ] { } , `G1 at 21` . `rest 1` _ : = => <- if else `G1 at 25` match `rest 1` case val var while for return this a T until to Contract 1 "" 'c' s"" l"" ! ~ `G1 at 21` - | & `G1 at 22` == `G1 at 21` < `G1 at 22` :+ `G1 at 21` + * `rest 1` 'a def @ # $ 451055
$ 0 $ if ( a ) b else c + d
if $ `rest 5` NONE ; `G1 at 8` ( `rest 0` if `rest 5` this a T until to Contract 1 "" 'c' s"" l"" ! ~ - $ 965993
( $ `G1 at 4` NONE `G1 at 5` ; `rest 0` ( $ 714551
a $ `G1 at 6` NONE `G1 at 7` ; ( `G1 at 8` if `rest 0` this a T until to Contract 1 "" 'c' s"" l"" `G1 at 7` ! ~ - $ 445319
) $ `G1 at 8` NONE `G1 at 9` ; `G1 at 11` ( `rest 0` ) `G1 at 11` [ . `G1 at 13` match `G1 at 11` - | & `G1 at 12` == `G1 at 11` < `G1 at 12` :+ `G1 at 11` + * $ 701163
b $ `G1 at 10` NONE `G1 at 11` ; ( `G1 at 12` if `rest 0` this a T until to Contract 1 "" 'c' s"" l"" `G1 at 11` ! ~ - $ 518575
else $ `G1 at 12` NONE `G1 at 10` ; `G1 at 18` ( `G1 at 15` [ `G1 at 18` . `rest 0` else `G1 at 17` match `G1 at 18` - | & `G1 at 19` == `G1 at 18` < `G1 at 19` :+ `G1 at 18` + * $ 6971
c $ `G1 at 17` NONE `G1 at 18` ; ( `G1 at 19` if `rest 0` this a T until to Contract 1 "" 'c' s"" l"" `G1 at 18` ! ~ - $ 213637
+ $ `rest 0` CUT `rest 1` NONE `rest 2` ; `G1 at 21` ( `rest 2` ) `G1 at 21` [ `rest 2` ] { } , `rest 0` . `rest 2` _ : = => <- if else `G1 at 24` match `rest 2` case val var while for return this a T until to Contract 1 "" 'c' s"" l"" ! ~ `rest 0` - | & == < :+ + * `rest 2` 'a def @ # $ 788472
d $ `G1 at 21` ; ( `rest 0` this a T until to Contract 1 "" 'c' s"" l"" `G1 at 21` ! ~ - $ 602495
END $ `rest 0` CUT NONE ; `G1 at 23` ( `rest 1` ) `G1 at 23` [ `rest 1` ] { } , `G1 at 23` . `rest 1` _ : = => <- if else `G1 at 27` match `rest 1` case val var while for return this a T until to Contract 1 "" 'c' s"" l"" ! ~ `G1 at 23` - | & `G1 at 24` == `G1 at 23` < `G1 at 24` :+ `G1 at 23` + * `rest 1` 'a def @ # $ 226975
$ 0 $ if ( a ) if ( b ) c else d else this
if $ `rest 9` NONE ; `G1 at 8` ( `rest 0` if `rest 9` this a T until to Contract 1 "" 'c' s"" l"" ! ~ - $ 584621
( $ `G1 at 4` NONE `G1 at 5` ; `rest 0` ( $ 32523
a $ `G1 at 6` NONE `G1 at 7` ; ( `G1 at 8` if `rest 0` this a T until to Contract 1 "" 'c' s"" l"" `G1 at 7` ! ~ - $ 174933
) $ `G1 at 8` NONE `G1 at 9` ; `G1 at 27` ( `rest 0` ) `G1 at 9` [ . `G1 at 13` match `G1 at 9` - | & `G1 at 10` == `G1 at 9` < `G1 at 10` :+ `G1 at 9` + * $ 284434
if $ `G1 at 16` NONE `G1 at 8` ; `G1 at 17` ( `rest 0` if `G1 at 20` this `G1 at 17` a T `G1 at 21` until `G1 at 18` to `G1 at 24` Contract `G1 at 17` 1 `G1 at 18` "" `G1 at 19` 'c' s"" l"" `G1 at 17` ! ~ - $ 217391
( $ `G1 at 13` NONE `G1 at 14` ; `rest 0` ( $ 840141
b $ `G1 at 15` NONE `G1 at 16` ; ( `G1 at 17` if `rest 0` this a T until to Contract 1 "" 'c' s"" l"" `G1 at 16` ! ~ - $ 526319
) $ `G1 at 17` NONE `G1 at 18` ; `G1 at 20` ( `rest 0` ) `G1 at 20` [ . `G1 at 22` match `G1 at 20` - | & `G1 at 21` == `G1 at 20` < `G1 at 21` :+ `G1 at 20` + * $ 79583
c $ `G1 at 19` NONE `G1 at 20` ; ( `G1 at 21` if `rest 0` this a T until to Contract 1 "" 'c' s"" l"" `G1 at 20` ! ~ - $ 858071
else $ `G1 at 21` NONE `G1 at 19` ; `G1 at 24` ( [ `G1 at 33` . `rest 0` else `G1 at 26` match `G1 at 33` - | & `G1 at 34` == `G1 at 33` < `G1 at 34` :+ `G1 at 33` + * $ 560070
d $ `G1 at 26` NONE `G1 at 27` ; ( `G1 at 28` if `rest 0` this a T until to Contract 1 "" 'c' s"" l"" `G1 at 27` ! ~ - $ 546957
else $ `G1 at 28` NONE `G1 at 26` ; `G1 at 33` ( `G1 at 29` [ . `rest 0` else `G1 at 33` match - | & `G1 at 34` == `G1 at 33` < `G1 at 34` :+ `G1 at 33` + * $ 66914
this $ `G1 at 33` ; ( `G1 at 34` if `rest 0` this a T until to Contract 1 "" 'c' s"" l"" `G1 at 33` ! ~ - $ 593943
END $ `rest 0` CUT NONE ; `G1 at 38` ( `rest 1` ) `G1 at 38` [ `rest 1` ] { } , `G1 at 38` . `rest 1` _ : = => <- if else `G1 at 42` match `rest 1` case val var while for return this a T until to Contract 1 "" 'c' s"" l"" ! ~ `G1 at 38` - | & `G1 at 39` == `G1 at 38` < `G1 at 39` :+ `G1 at 38` + * `rest 1` 'a def @ # $ 508810
"#;
