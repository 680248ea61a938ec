// Expressions with each token replaced, with the room that they need, and with one level less.

/// Forms of expressions, each with both rooms.
pub const REPLACED: &[u8] = br#"
$ 61 $ - 1 . a
- $ `rest 0` NONE ; `G1 at 7` ( `G1 at 3` if `rest 3` this a T until to Contract 1 "" 'c' s"" l"" `rest 0` ! ~ - $ 241539
1 $ `G1 at 3` NONE `G1 at 4` ; ( `rest 0` this a T until to Contract 1 "" 'c' s"" l"" $ 345930
. $ `rest 0` CUT `rest 1` NONE `rest 2` ; `G1 at 7` ( `rest 2` ) `G1 at 7` [ `rest 2` ] { } , `rest 0` . `rest 2` _ : = => <- if else `G1 at 10` match `rest 2` case val var while for return this a T until to Contract 1 "" 'c' s"" l"" ! ~ `rest 0` - | & == < :+ + * `rest 2` 'a def @ # $ 433376
a $ `G1 at 7` ; `rest 0` a T until to Contract $ 795311
END $ `rest 0` CUT NONE ; `G6 at 8` ( `rest 1` ) `G6 at 8` [ `rest 1` ] { } , `G6 at 8` . `rest 1` _ : = => <- if else `G6 at 8` match `rest 1` case val var while for return this a T until to Contract 1 "" 'c' s"" l"" ! ~ `G6 at 8` - | & == < :+ + * `rest 1` 'a def @ # $ 668239
$ 62 $ - 1 . a
- $ `rest 0` NONE ; `G6 at 4` ( `G1 at 3` if `rest 3` this a T until to Contract 1 "" 'c' s"" l"" `G6 at 4` ! ~ - $ 425484
1 $ `G1 at 3` NONE `G1 at 4` ; `G6 at 2` ( `G6 at 7` this `G6 at 4` a T `G6 at 8` until `G6 at 5` to `G6 at 11` Contract `G6 at 4` 1 `G6 at 5` "" `G6 at 6` 'c' s"" l"" $ 151654
. $ `rest 0` CUT `rest 1` NONE `rest 2` ; `G6 at 4` ( `rest 2` ) `G6 at 4` [ `rest 2` ] { } , `G6 at 4` . `rest 2` _ : = => <- if else `G1 at 10` match `rest 2` case val var while for return this a T until to Contract 1 "" 'c' s"" l"" ! ~ `rest 0` - | & == < :+ + * `rest 2` 'a def @ # $ 630336
a $ `G6 at 4` CUT NONE ; ( ) [ ] { } , . _ : = => <- if else match case val var while for return this a T until to Contract 1 "" 'c' s"" l"" ! ~ - | & == < :+ + * 'a def @ # $ 702400
END $ `G6 at 4` CUT NONE ; ( ) [ ] { } , . _ : = => <- if else match case val var while for return this a T until to Contract 1 "" 'c' s"" l"" ! ~ - | & == < :+ + * 'a def @ # $ 702400
$ 62 $ - a
- $ `rest 0` NONE ; `G1 at 3` ( if `rest 1` this a T until to Contract 1 "" 'c' s"" l"" `rest 0` ! ~ - $ 251096
a $ `G1 at 3` ; `G6 at 2` ( `rest 0` this a T until to Contract 1 "" 'c' s"" l"" $ 903963
END $ `rest 0` CUT NONE ; `G6 at 4` ( `rest 1` ) `G6 at 4` [ `rest 1` ] { } , `G6 at 4` . `rest 1` _ : = => <- if else `G6 at 4` match `rest 1` case val var while for return this a T until to Contract 1 "" 'c' s"" l"" ! ~ `G6 at 4` - | & == < :+ + * `rest 1` 'a def @ # $ 18401
$ 63 $ - a
- $ `rest 0` NONE ; `G6 at 0` ( if `rest 1` this a T until to Contract 1 "" 'c' s"" l"" `G6 at 0` ! ~ `G6 at 2` - $ 525376
a $ `G1 at 3` ; `G6 at 2` ( this a T until to Contract `rest 0` 1 `G6 at 2` "" 'c' s"" l"" $ 257522
END $ `G6 at 2` CUT NONE ; ( ) [ ] { } , . _ : = => <- if else match case val var while for return this a T until to Contract 1 "" 'c' s"" l"" ! ~ - | & == < :+ + * 'a def @ # $ 540864
$ 61 $ ! a ( b , c )
! $ `rest 0` NONE ; `G1 at 13` ( `G1 at 3` if `rest 6` this a T until to Contract 1 "" 'c' s"" l"" `rest 0` ! ~ - $ 807276
a $ `G1 at 7` NONE `G1 at 8` ; `G6 at 4` ( `rest 0` this a T until to Contract 1 "" 'c' s"" l"" $ 257443
( $ `rest 0` CUT `rest 4` NONE `rest 5` ; `rest 0` ( `rest 5` ) `G1 at 12` [ `rest 5` ] { } , `rest 3` . `rest 5` _ : = => <- if else `G1 at 10` match `rest 5` case val var while for return this a T until to Contract 1 "" 'c' s"" l"" ! ~ `rest 3` - | & == < :+ + * `rest 5` 'a def @ # $ 63986
b $ `G1 at 7` NONE `G1 at 8` ; `G6 at 6` ( `rest 3` ) `G6 at 6` if `rest 0` this a T until to Contract 1 "" 'c' s"" l"" `G6 at 6` ! ~ `G1 at 8` - $ 499096
, $ `G1 at 9` NONE `G1 at 10` ; `G6 at 8` ( `rest 2` ) `G6 at 8` [ `rest 0` , `G6 at 8` . `rest 0` = `G6 at 8` match - | & == < :+ + * $ 430788
c $ `G1 at 11` NONE `G1 at 12` ; `G6 at 10` ( if `rest 0` this a T until to Contract 1 "" 'c' s"" l"" `G6 at 10` ! ~ `G1 at 12` - $ 669933
) $ `G1 at 13` ; `G6 at 12` ( `rest 0` ) `G6 at 12` [ `G1 at 13` , `G6 at 12` . match - | & == < :+ + * $ 466638
END $ `rest 0` CUT NONE ; `G6 at 14` ( `rest 1` ) `G6 at 14` [ `rest 1` ] { } , `G6 at 14` . `rest 1` _ : = => <- if else `G6 at 14` match `rest 1` case val var while for return this a T until to Contract 1 "" 'c' s"" l"" ! ~ `G6 at 14` - | & == < :+ + * `rest 1` 'a def @ # $ 99545
$ 62 $ ! a ( b , c )
! $ `rest 0` NONE ; `G6 at 4` ( `G1 at 3` if `rest 6` this a T until to Contract 1 "" 'c' s"" l"" `G6 at 4` ! ~ - $ 213166
a $ `G6 at 3` NONE `G6 at 4` ; `G6 at 2` ( `G6 at 7` this `G6 at 4` a T `G6 at 8` until `G6 at 5` to `G6 at 11` Contract `G6 at 4` 1 `G6 at 5` "" `G6 at 6` 'c' s"" l"" $ 469446
( $ `rest 0` CUT `rest 4` NONE `rest 5` ; `G6 at 4` ( `rest 5` ) `G6 at 4` [ `rest 5` ] { } , `G6 at 4` . `rest 5` _ : = => <- if else `G6 at 4` match `rest 5` case val var while for return this a T until to Contract 1 "" 'c' s"" l"" ! ~ `G6 at 4` - | & == < :+ + * `rest 5` 'a def @ # $ 775150
b $ `G6 at 4` CUT NONE ; ( ) [ ] { } , . _ : = => <- if else match case val var while for return this a T until to Contract 1 "" 'c' s"" l"" ! ~ - | & == < :+ + * 'a def @ # $ 702400
, $ `G6 at 4` CUT NONE ; ( ) [ ] { } , . _ : = => <- if else match case val var while for return this a T until to Contract 1 "" 'c' s"" l"" ! ~ - | & == < :+ + * 'a def @ # $ 702400
c $ `G6 at 4` CUT NONE ; ( ) [ ] { } , . _ : = => <- if else match case val var while for return this a T until to Contract 1 "" 'c' s"" l"" ! ~ - | & == < :+ + * 'a def @ # $ 702400
) $ `G6 at 4` CUT NONE ; ( ) [ ] { } , . _ : = => <- if else match case val var while for return this a T until to Contract 1 "" 'c' s"" l"" ! ~ - | & == < :+ + * 'a def @ # $ 702400
END $ `G6 at 4` CUT NONE ; ( ) [ ] { } , . _ : = => <- if else match case val var while for return this a T until to Contract 1 "" 'c' s"" l"" ! ~ - | & == < :+ + * 'a def @ # $ 702400
$ 60 $ a . b [ c ] ( d = e )
a $ `G1 at 1` NONE `G1 at 2` ; ( `G1 at 3` if `rest 0` this a T until to Contract 1 "" 'c' s"" l"" `G1 at 2` ! ~ - $ 868806
. $ `rest 0` CUT `rest 9` NONE `rest 10` ; `G1 at 21` ( `rest 10` ) `G1 at 12` [ `rest 10` ] { } , `rest 0` . `rest 10` _ : = => <- if else `G1 at 8` match `rest 10` case val var while for return this a T until to Contract 1 "" 'c' s"" l"" ! ~ `rest 0` - | & == < :+ + * `rest 10` 'a def @ # $ 175559
b $ `G1 at 5` NONE `G1 at 6` ; `rest 0` a T until to Contract $ 288531
[ $ `rest 0` CUT `rest 7` NONE `rest 8` ; `G1 at 10` ( `rest 8` ) `rest 0` [ `rest 8` ] { } , `rest 6` . `rest 8` _ : = => <- if else `G1 at 12` match `rest 8` case val var while for return this a T until to Contract 1 "" 'c' s"" l"" ! ~ `rest 6` - | & == < :+ + * `rest 8` 'a def @ # $ 105804
c $ `G1 at 9` NONE `G1 at 10` ; `rest 0` a T until to Contract $ 739618
] $ `G1 at 11` NONE `G1 at 12` ; [ `rest 0` ] `G1 at 12` , . $ 726643
( $ `rest 0` CUT `rest 4` NONE `rest 5` ; `rest 0` ( `rest 5` ) `G1 at 16` [ `rest 5` ] { } , `rest 3` . `rest 5` _ : = => <- if else `G1 at 18` match `rest 5` case val var while for return this a T until to Contract 1 "" 'c' s"" l"" ! ~ `rest 3` - | & == < :+ + * `rest 5` 'a def @ # $ 676249
d $ `G1 at 15` NONE `G1 at 16` ; ( `rest 3` ) `G1 at 17` if `G1 at 19` this `rest 0` a T until to Contract `G1 at 16` 1 `G1 at 17` "" `G1 at 18` 'c' s"" l"" `G1 at 16` ! ~ - $ 680953
= $ `G1 at 17` NONE `G1 at 18` ; `G1 at 21` ( `rest 2` ) `G1 at 20` [ `rest 0` , . = `G1 at 22` match `rest 0` - | & == < :+ + * $ 294311
e $ `G1 at 19` NONE `G1 at 20` ; ( `G1 at 21` if `rest 0` this a T until to Contract 1 "" 'c' s"" l"" `G1 at 20` ! ~ - $ 631202
) $ `G1 at 21` ; ( `rest 0` ) `G1 at 21` [ , . `G1 at 25` match `G1 at 21` - | & `G1 at 22` == `G1 at 21` < `G1 at 22` :+ `G1 at 21` + * $ 434547
END $ `rest 0` CUT NONE ; `G6 at 22` ( `rest 1` ) `G6 at 22` [ `rest 1` ] { } , `G6 at 22` . `rest 1` _ : = => <- if else `G6 at 22` match `rest 1` case val var while for return this a T until to Contract 1 "" 'c' s"" l"" ! ~ `G6 at 22` - | & == < :+ + * `rest 1` 'a def @ # $ 83649
$ 61 $ a . b [ c ] ( d = e )
a $ `G1 at 1` NONE `G1 at 2` ; ( `G1 at 3` if `G6 at 15` this `G6 at 12` a T `G6 at 16` until `G6 at 13` to `G6 at 19` Contract `G6 at 12` 1 `G6 at 13` "" `G6 at 14` 'c' s"" l"" `G1 at 2` ! ~ - $ 230894
. $ `rest 0` CUT `rest 9` NONE `rest 10` ; `G6 at 12` ( `rest 10` ) `G1 at 12` [ `rest 10` ] { } , `G6 at 12` . `rest 10` _ : = => <- if else `G1 at 8` match `rest 10` case val var while for return this a T until to Contract 1 "" 'c' s"" l"" ! ~ `G6 at 12` - | & `G6 at 13` == `G6 at 12` < `G6 at 13` :+ `G6 at 12` + * `rest 10` 'a def @ # $ 510442
b $ `G1 at 5` NONE `G1 at 6` ; `G6 at 12` a T `G6 at 16` until `G6 at 13` to `G6 at 19` Contract $ 972289
[ $ `rest 0` CUT `rest 7` NONE `rest 8` ; `G1 at 10` ( `rest 8` ) `G6 at 12` [ `rest 8` ] { } , `rest 6` . `rest 8` _ : = => <- if else `G1 at 12` match `rest 8` case val var while for return this a T until to Contract 1 "" 'c' s"" l"" ! ~ `rest 6` - | & == < :+ + * `rest 8` 'a def @ # $ 717933
c $ `G1 at 9` NONE `G1 at 10` ; `G6 at 12` a T `G6 at 16` until `G6 at 13` to `G6 at 19` Contract $ 38170
] $ `G1 at 11` NONE `G1 at 12` ; [ `G6 at 12` ] `G1 at 12` , . $ 269916
( $ `rest 0` CUT `rest 4` NONE `rest 5` ; `G6 at 12` ( `rest 5` ) `G6 at 12` [ `rest 5` ] { } , `G6 at 12` . `rest 5` _ : = => <- if else `G6 at 12` match `rest 5` case val var while for return this a T until to Contract 1 "" 'c' s"" l"" ! ~ `G6 at 12` - | & == < :+ + * `rest 5` 'a def @ # $ 221514
d $ `G6 at 12` CUT NONE ; ( ) [ ] { } , . _ : = => <- if else match case val var while for return this a T until to Contract 1 "" 'c' s"" l"" ! ~ - | & == < :+ + * 'a def @ # $ 482282
= $ `G6 at 12` CUT NONE ; ( ) [ ] { } , . _ : = => <- if else match case val var while for return this a T until to Contract 1 "" 'c' s"" l"" ! ~ - | & == < :+ + * 'a def @ # $ 482282
e $ `G6 at 12` CUT NONE ; ( ) [ ] { } , . _ : = => <- if else match case val var while for return this a T until to Contract 1 "" 'c' s"" l"" ! ~ - | & == < :+ + * 'a def @ # $ 482282
) $ `G6 at 12` CUT NONE ; ( ) [ ] { } , . _ : = => <- if else match case val var while for return this a T until to Contract 1 "" 'c' s"" l"" ! ~ - | & == < :+ + * 'a def @ # $ 482282
END $ `G6 at 12` CUT NONE ; ( ) [ ] { } , . _ : = => <- if else match case val var while for return this a T until to Contract 1 "" 'c' s"" l"" ! ~ - | & == < :+ + * 'a def @ # $ 482282
$ 60 $ a + b * c - d
a $ `G1 at 1` NONE `G1 at 2` ; ( `G1 at 3` if `rest 0` this a T until to Contract 1 "" 'c' s"" l"" `G1 at 2` ! ~ - $ 439782
+ $ `rest 0` CUT `rest 5` NONE `rest 6` ; `G1 at 13` ( `rest 6` ) `G1 at 6` [ `rest 6` ] { } , `rest 0` . `rest 6` _ : = => <- if else `G1 at 8` match `rest 6` case val var while for return this a T until to Contract 1 "" 'c' s"" l"" ! ~ `rest 0` - | & == < :+ + * `rest 6` 'a def @ # $ 524103
b $ `G1 at 5` NONE `G1 at 6` ; ( `rest 0` this a T until to Contract 1 "" 'c' s"" l"" `G1 at 6` ! ~ - $ 315410
* $ `rest 0` CUT `rest 3` NONE `rest 4` ; `G1 at 13` ( `rest 4` ) `G1 at 10` [ `rest 4` ] { } , `rest 0` . `rest 4` _ : = => <- if else `G1 at 12` match `rest 4` case val var while for return this a T until to Contract 1 "" 'c' s"" l"" ! ~ `rest 0` - | & == < :+ + * `rest 4` 'a def @ # $ 680054
c $ `rest 0` NONE ; `G6 at 12` ( `rest 0` this a T until to Contract 1 "" 'c' s"" l"" `G1 at 10` ! ~ - $ 292413
- $ `rest 0` CUT `rest 1` NONE `rest 2` ; `G1 at 13` ( `rest 2` ) `G1 at 13` [ `rest 2` ] { } , `rest 0` . `rest 2` _ : = => <- if else `G1 at 16` match `rest 2` case val var while for return this a T until to Contract 1 "" 'c' s"" l"" ! ~ `rest 0` - | & == < :+ + * `rest 2` 'a def @ # $ 492852
d $ `G1 at 13` ; ( `rest 0` this a T until to Contract 1 "" 'c' s"" l"" `G1 at 13` ! ~ - $ 107018
END $ `rest 0` CUT NONE ; `G1 at 15` ( `rest 1` ) `G1 at 15` [ `rest 1` ] { } , `G1 at 15` . `rest 1` _ : = => <- if else `G6 at 14` match `rest 1` case val var while for return this a T until to Contract 1 "" 'c' s"" l"" ! ~ `G6 at 14` - | & == < :+ + `G1 at 15` * `rest 1` 'a def @ # $ 377743
$ 61 $ a + b * c - d
a $ `G1 at 1` NONE `G1 at 2` ; ( `G1 at 3` if `G6 at 13` this `G6 at 10` a T `G6 at 14` until `G6 at 11` to `G6 at 17` Contract `G6 at 10` 1 `G6 at 11` "" `G6 at 12` 'c' s"" l"" `G1 at 2` ! ~ - $ 270680
+ $ `rest 0` CUT `rest 5` NONE `rest 6` ; `G6 at 10` ( `rest 6` ) `G1 at 6` [ `rest 6` ] { } , `G6 at 10` . `rest 6` _ : = => <- if else `G1 at 8` match `rest 6` case val var while for return this a T until to Contract 1 "" 'c' s"" l"" ! ~ `G6 at 10` - | & `G6 at 11` == `G6 at 10` < `G6 at 11` :+ `G6 at 10` + * `rest 6` 'a def @ # $ 358597
b $ `G1 at 5` NONE `G1 at 6` ; ( `G6 at 13` this `G6 at 10` a T `G6 at 14` until `G6 at 11` to `G6 at 17` Contract `G6 at 10` 1 `G6 at 11` "" `G6 at 12` 'c' s"" l"" `G1 at 6` ! ~ - $ 396377
* $ `rest 0` CUT `rest 3` NONE `rest 4` ; `G6 at 10` ( `rest 4` ) `G1 at 10` [ `rest 4` ] { } , `G6 at 10` . `rest 4` _ : = => <- if else `G1 at 12` match `rest 4` case val var while for return this a T until to Contract 1 "" 'c' s"" l"" ! ~ `G6 at 10` - `rest 0` | & == < :+ `G6 at 10` + * `rest 4` 'a def @ # $ 920700
c $ `G6 at 11` NONE `G6 at 12` ; `G6 at 8` ( `G6 at 13` this `G6 at 10` a T `G6 at 14` until `G6 at 11` to `G6 at 17` Contract `G6 at 10` 1 `G6 at 11` "" `G6 at 12` 'c' s"" l"" `G6 at 8` ! ~ `G1 at 10` - $ 147181
- $ `rest 0` CUT `rest 1` NONE `rest 2` ; `G6 at 10` ( `rest 2` ) `G6 at 10` [ `rest 2` ] { } , `G6 at 10` . `rest 2` _ : = => <- if else `G6 at 10` match `rest 2` case val var while for return this a T until to Contract 1 "" 'c' s"" l"" ! ~ `G6 at 10` - | & == < :+ + * `rest 2` 'a def @ # $ 821795
d $ `G6 at 10` CUT NONE ; ( ) [ ] { } , . _ : = => <- if else match case val var while for return this a T until to Contract 1 "" 'c' s"" l"" ! ~ - | & == < :+ + * 'a def @ # $ 653574
END $ `G6 at 10` CUT NONE ; ( ) [ ] { } , . _ : = => <- if else match case val var while for return this a T until to Contract 1 "" 'c' s"" l"" ! ~ - | & == < :+ + * 'a def @ # $ 653574
$ 61 $ ( a ) . b
( $ `rest 3` NONE ; `rest 0` ( `G1 at 3` if `rest 4` this a T until to Contract 1 "" 'c' s"" l"" `rest 3` ! ~ - $ 72451
a $ `G1 at 3` NONE `G1 at 4` ; ( `G1 at 5` if `rest 0` this a T until to Contract 1 "" 'c' s"" l"" `G1 at 4` ! ~ - $ 941416
) $ `G1 at 8` NONE `G1 at 9` ; `G1 at 6` ( `rest 0` ) `G1 at 6` [ . `G1 at 10` match `G1 at 6` - | & `G1 at 7` == `G1 at 6` < `G1 at 7` :+ `G1 at 6` + * $ 268734
. $ `rest 0` CUT `rest 1` NONE `rest 2` ; `G1 at 9` ( `rest 2` ) `G1 at 9` [ `rest 2` ] { } , `rest 0` . `rest 2` _ : = => <- if else `G1 at 12` match `rest 2` case val var while for return this a T until to Contract 1 "" 'c' s"" l"" ! ~ `rest 0` - | & == < :+ + * `rest 2` 'a def @ # $ 641659
b $ `G1 at 9` ; `rest 0` a T until to Contract $ 728782
END $ `rest 0` CUT NONE ; `G6 at 10` ( `rest 1` ) `G6 at 10` [ `rest 1` ] { } , `G6 at 10` . `rest 1` _ : = => <- if else `G6 at 10` match `rest 1` case val var while for return this a T until to Contract 1 "" 'c' s"" l"" ! ~ `G6 at 10` - | & == < :+ + * `rest 1` 'a def @ # $ 536345
$ 62 $ ( a ) . b
( $ `rest 3` NONE ; `G6 at 6` ( `G1 at 3` if `rest 4` this a T until to Contract 1 "" 'c' s"" l"" `rest 3` ! ~ - $ 222634
a $ `G1 at 3` NONE `G1 at 4` ; `G6 at 2` ( if `G6 at 9` this `G6 at 6` a T `G6 at 10` until `G6 at 7` to `G6 at 13` Contract `G6 at 6` 1 `G6 at 7` "" `G6 at 8` 'c' s"" l"" `G6 at 2` ! ~ `G1 at 4` - $ 451676
) $ `G6 at 5` NONE `G6 at 6` ; `G6 at 4` ( `G6 at 6` ) `G6 at 4` [ . match - | & == < :+ + * $ 652546
. $ `rest 0` CUT `rest 1` NONE `rest 2` ; `G6 at 6` ( `rest 2` ) `G6 at 6` [ `rest 2` ] { } , `G6 at 6` . `rest 2` _ : = => <- if else `G6 at 6` match `rest 2` case val var while for return this a T until to Contract 1 "" 'c' s"" l"" ! ~ `G6 at 6` - | & == < :+ + * `rest 2` 'a def @ # $ 966209
b $ `G6 at 6` CUT NONE ; ( ) [ ] { } , . _ : = => <- if else match case val var while for return this a T until to Contract 1 "" 'c' s"" l"" ! ~ - | & == < :+ + * 'a def @ # $ 863936
END $ `G6 at 6` CUT NONE ; ( ) [ ] { } , . _ : = => <- if else match case val var while for return this a T until to Contract 1 "" 'c' s"" l"" ! ~ - | & == < :+ + * 'a def @ # $ 863936
$ 61 $ if ( a ) b else c + d
if $ `rest 5` NONE ; `G1 at 8` ( `rest 0` if `rest 5` this a T until to Contract 1 "" 'c' s"" l"" ! ~ - $ 965993
( $ `G1 at 4` NONE `G1 at 5` ; `rest 0` ( $ 714551
a $ `G1 at 6` NONE `G1 at 7` ; ( `G1 at 8` if `rest 0` this a T until to Contract 1 "" 'c' s"" l"" `G1 at 7` ! ~ - $ 445319
) $ `G1 at 8` NONE `G1 at 9` ; `G1 at 11` ( `rest 0` ) `G1 at 11` [ . `G1 at 13` match `G1 at 11` - | & `G1 at 12` == `G1 at 11` < `G1 at 12` :+ `G1 at 11` + * $ 701163
b $ `G1 at 10` NONE `G1 at 11` ; ( `G1 at 12` if `rest 0` this a T until to Contract 1 "" 'c' s"" l"" `G1 at 11` ! ~ - $ 518575
else $ `G1 at 12` NONE `G1 at 10` ; `G6 at 15` ( `G1 at 15` [ `G6 at 15` . `rest 0` else `G1 at 17` match `G6 at 15` - | & `G6 at 16` == `G6 at 15` < `G6 at 16` :+ `G6 at 15` + * $ 792199
c $ `G1 at 17` NONE `G1 at 18` ; ( `G1 at 19` if `rest 0` this a T until to Contract 1 "" 'c' s"" l"" `G1 at 18` ! ~ - $ 213637
+ $ `rest 0` CUT `rest 1` NONE `rest 2` ; `G1 at 21` ( `rest 2` ) `G1 at 21` [ `rest 2` ] { } , `rest 0` . `rest 2` _ : = => <- if else `G1 at 24` match `rest 2` case val var while for return this a T until to Contract 1 "" 'c' s"" l"" ! ~ `rest 0` - | & == < :+ + * `rest 2` 'a def @ # $ 788472
d $ `G1 at 21` ; `G6 at 20` ( `rest 0` this a T until to Contract 1 "" 'c' s"" l"" `G6 at 20` ! ~ `G1 at 21` - $ 62211
END $ `rest 0` CUT NONE ; `G6 at 22` ( `rest 1` ) `G6 at 22` [ `rest 1` ] { } , `G6 at 22` . `rest 1` _ : = => <- if else `G6 at 22` match `rest 1` case val var while for return this a T until to Contract 1 "" 'c' s"" l"" ! ~ `G6 at 22` - | & == < :+ + * `rest 1` 'a def @ # $ 118913
$ 62 $ if ( a ) b else c + d
if $ `rest 5` NONE ; `G6 at 2` ( `G6 at 18` if `rest 5` this a T until to Contract 1 "" 'c' s"" l"" `G6 at 2` ! ~ - $ 351353
( $ `G1 at 4` NONE `G1 at 5` ; `G6 at 18` ( $ 916896
a $ `G1 at 6` NONE `G1 at 7` ; `G6 at 5` ( if `G6 at 21` this `G6 at 18` a T `G6 at 22` until `G6 at 19` to `G6 at 25` Contract `G6 at 18` 1 `G6 at 19` "" `G6 at 20` 'c' s"" l"" `G6 at 5` ! ~ `G1 at 7` - $ 830930
) $ `G1 at 8` NONE `G1 at 9` ; `G6 at 7` ( `G6 at 18` ) `G6 at 7` [ . match - | & == < :+ + * $ 763304
b $ `G1 at 10` NONE `G1 at 11` ; `G6 at 9` ( if `G6 at 21` this `G6 at 18` a T `G6 at 22` until `G6 at 19` to `G6 at 25` Contract `G6 at 18` 1 `G6 at 19` "" `G6 at 20` 'c' s"" l"" `G6 at 9` ! ~ `G1 at 11` - $ 351943
else $ `G1 at 12` NONE `G1 at 10` ; `G6 at 11` ( [ . `G6 at 18` else `G6 at 11` match - | & == < :+ + * $ 150406
c $ `G1 at 17` NONE `G1 at 18` ; `G6 at 16` ( if `G6 at 21` this `G6 at 18` a T `G6 at 22` until `G6 at 19` to `G6 at 25` Contract `G6 at 18` 1 `G6 at 19` "" `G6 at 20` 'c' s"" l"" `G6 at 16` ! ~ `G1 at 18` - $ 267570
+ $ `rest 0` CUT `rest 1` NONE `rest 2` ; `G6 at 18` ( `rest 2` ) `G6 at 18` [ `rest 2` ] { } , `G6 at 18` . `rest 2` _ : = => <- if else `G6 at 18` match `rest 2` case val var while for return this a T until to Contract 1 "" 'c' s"" l"" ! ~ `G6 at 18` - | & == < :+ + * `rest 2` 'a def @ # $ 510997
d $ `G6 at 18` CUT NONE ; ( ) [ ] { } , . _ : = => <- if else match case val var while for return this a T until to Contract 1 "" 'c' s"" l"" ! ~ - | & == < :+ + * 'a def @ # $ 968406
END $ `G6 at 18` CUT NONE ; ( ) [ ] { } , . _ : = => <- if else match case val var while for return this a T until to Contract 1 "" 'c' s"" l"" ! ~ - | & == < :+ + * 'a def @ # $ 968406
$ 60 $ a match { case b ( c : d ) if e => f }
a $ `G1 at 1` NONE `G1 at 2` ; ( `G1 at 3` if `rest 0` this a T until to Contract 1 "" 'c' s"" l"" `G1 at 2` ! ~ - $ 309965
match $ `rest 0` CUT `rest 13` NONE ; `G1 at 4` ( `rest 14` ) `G1 at 4` [ `rest 14` ] { } , `G1 at 4` . `rest 14` _ : = => <- if else `rest 0` match `rest 14` case val var while for return this a T until to Contract 1 "" 'c' s"" l"" ! ~ `G1 at 4` - | & `G1 at 5` == `G1 at 4` < `G1 at 5` :+ `G1 at 4` + * `rest 14` 'a def @ # $ 41832
{ $ `G1 at 9` NONE `G1 at 10` ; `rest 0` { $ 473013
case $ `G1 at 11` NONE `G1 at 12` ; `rest 0` case $ 763067
b $ `G1 at 16` NONE `G1 at 17` ; _ `rest 0` a T until to Contract `G1 at 17` 1 `G1 at 18` "" `G1 at 19` 'c' s"" l"" `G1 at 17` - $ 177681
( $ `G1 at 18` NONE `G1 at 19` ; `rest 0` ( `G1 at 21` . : `G1 at 22` => if $ 945646
c $ `G1 at 20` NONE `G1 at 21` ; ) `rest 0` _ a T until to Contract `G1 at 21` 1 `G1 at 22` "" `G1 at 23` 'c' s"" l"" `G1 at 21` - $ 305231
: $ `G1 at 22` NONE `G1 at 23` ; `G1 at 27` ( `G1 at 23` ) `rest 0` , . : $ 931138
d $ `G1 at 24` NONE `G1 at 25` ; `rest 0` a T until to Contract $ 247405
) $ `G1 at 26` NONE `G1 at 27` ; `rest 0` ) `G6 at 25` [ `G1 at 27` , . $ 815836
if $ `G1 at 28` NONE `G1 at 29` ; `G1 at 32` => `rest 0` if $ 574059
e $ `G1 at 31` NONE `G1 at 32` ; ( `G1 at 33` if `rest 0` this a T until to Contract 1 "" 'c' s"" l"" `G1 at 32` ! ~ - $ 378678
=> $ `G1 at 33` NONE `G1 at 34` ; `G1 at 36` ( [ . `rest 0` => `G1 at 38` match `G1 at 36` - | & `G1 at 37` == `G1 at 36` < `G1 at 37` :+ `G1 at 36` + * $ 353523
f $ `rest 0` NONE ; `G1 at 37` ( `rest 1` } `G1 at 38` if `G1 at 40` case `G1 at 39` val var `G1 at 41` while `G1 at 39` for `rest 0` return this a T until to Contract 1 "" 'c' s"" l"" `G1 at 37` ! ~ - $ 595384
} $ `G1 at 38` ; ( [ `rest 0` } `G1 at 38` . = `G1 at 42` match `G1 at 41` case `G1 at 38` - | & `G1 at 39` == `G1 at 38` < `G1 at 39` :+ `G1 at 38` + * $ 697795
END $ `rest 0` CUT NONE ; `rest 1` ( ) [ ] { } , . _ : = => <- if else match case val var while for return this a T until to Contract 1 "" 'c' s"" l"" ! ~ - | & == < :+ + * 'a def @ # $ 85281
$ 61 $ a match { case b ( c : d ) if e => f }
a $ `G1 at 1` NONE `G1 at 2` ; ( `G1 at 3` if `G6 at 24` this `G6 at 21` a T `G6 at 25` until `G6 at 22` to `G6 at 28` Contract `G6 at 21` 1 `G6 at 22` "" `G6 at 23` 'c' s"" l"" `G1 at 2` ! ~ - $ 601400
match $ `rest 0` CUT `rest 13` NONE ; `G1 at 4` ( `rest 14` ) `G1 at 4` [ `rest 14` ] { } , `G1 at 4` . `rest 14` _ : = => <- if else `G6 at 21` match `rest 14` case val var while for return this a T until to Contract 1 "" 'c' s"" l"" ! ~ `G1 at 4` - | & `G1 at 5` == `G1 at 4` < `G1 at 5` :+ `G1 at 4` + * `rest 14` 'a def @ # $ 156381
{ $ `G1 at 9` NONE `G1 at 10` ; `G6 at 21` { $ 861010
case $ `G1 at 11` NONE `G1 at 12` ; `G6 at 21` case $ 333556
b $ `G1 at 16` NONE `G1 at 17` ; _ `G6 at 21` a T `G6 at 25` until `G6 at 22` to `G6 at 28` Contract `G1 at 17` 1 `G1 at 18` "" `G1 at 19` 'c' s"" l"" `G1 at 17` - $ 122698
( $ `G1 at 18` NONE `G1 at 19` ; `G6 at 21` ( `G1 at 21` . : `G1 at 22` => if $ 856433
c $ `G1 at 20` NONE `G1 at 21` ; ) `G6 at 21` _ a T `G6 at 25` until `G6 at 22` to `G6 at 28` Contract `G1 at 21` 1 `G1 at 22` "" `G1 at 23` 'c' s"" l"" `G1 at 21` - $ 569623
: $ `G1 at 22` NONE `G1 at 23` ; `G6 at 23` ( `G1 at 23` ) `rest 0` , . `G6 at 21` : $ 164738
d $ `G6 at 21` CUT NONE ; ( ) [ ] { } , . _ : = => <- if else match case val var while for return this a T until to Contract 1 "" 'c' s"" l"" ! ~ - | & == < :+ + * 'a def @ # $ 912902
) $ `G6 at 21` CUT NONE ; ( ) [ ] { } , . _ : = => <- if else match case val var while for return this a T until to Contract 1 "" 'c' s"" l"" ! ~ - | & == < :+ + * 'a def @ # $ 912902
if $ `G6 at 21` CUT NONE ; ( ) [ ] { } , . _ : = => <- if else match case val var while for return this a T until to Contract 1 "" 'c' s"" l"" ! ~ - | & == < :+ + * 'a def @ # $ 912902
e $ `G6 at 21` CUT NONE ; ( ) [ ] { } , . _ : = => <- if else match case val var while for return this a T until to Contract 1 "" 'c' s"" l"" ! ~ - | & == < :+ + * 'a def @ # $ 912902
=> $ `G6 at 21` CUT NONE ; ( ) [ ] { } , . _ : = => <- if else match case val var while for return this a T until to Contract 1 "" 'c' s"" l"" ! ~ - | & == < :+ + * 'a def @ # $ 912902
f $ `G6 at 21` CUT NONE ; ( ) [ ] { } , . _ : = => <- if else match case val var while for return this a T until to Contract 1 "" 'c' s"" l"" ! ~ - | & == < :+ + * 'a def @ # $ 912902
} $ `G6 at 21` CUT NONE ; ( ) [ ] { } , . _ : = => <- if else match case val var while for return this a T until to Contract 1 "" 'c' s"" l"" ! ~ - | & == < :+ + * 'a def @ # $ 912902
END $ `G6 at 21` CUT NONE ; ( ) [ ] { } , . _ : = => <- if else match case val var while for return this a T until to Contract 1 "" 'c' s"" l"" ! ~ - | & == < :+ + * 'a def @ # $ 912902
$ 60 $ x match { case _ : Z [ a ] => }
x $ `G1 at 1` NONE `G1 at 2` ; ( `G1 at 3` if `rest 0` this a T until to Contract 1 "" 'c' s"" l"" `G1 at 2` ! ~ - $ 71165
match $ `rest 0` CUT `rest 10` NONE ; `G1 at 4` ( `rest 11` ) `G1 at 4` [ `rest 11` ] { } , `G1 at 4` . `rest 11` _ : = => <- if else `rest 0` match `rest 11` case val var while for return this a T until to Contract 1 "" 'c' s"" l"" ! ~ `G1 at 4` - | & `G1 at 5` == `G1 at 4` < `G1 at 5` :+ `G1 at 4` + * `rest 11` 'a def @ # $ 681583
{ $ `G1 at 9` NONE `G1 at 10` ; `rest 0` { $ 323133
case $ `G1 at 11` NONE `G1 at 12` ; `rest 0` case $ 678047
_ $ `G1 at 16` NONE `G1 at 17` ; `rest 0` _ a T until to Contract `G1 at 17` 1 `G1 at 18` "" `G1 at 19` 'c' s"" l"" `G1 at 17` - $ 294030
: $ `G1 at 18` NONE `G1 at 19` ; `rest 0` : `G1 at 28` => `rest 0` if $ 482470
Z $ `G1 at 20` NONE `G1 at 21` ; `rest 0` a T until to Contract $ 805540
[ $ `G1 at 22` NONE `G1 at 23` ; `rest 0` [ `G1 at 25` . `G1 at 26` => if $ 881037
a $ `G1 at 24` NONE `G1 at 25` ; `rest 0` a T until to Contract $ 10185
] $ `G1 at 26` NONE `G1 at 27` ; `G6 at 25` [ `rest 0` ] `G1 at 27` , . $ 440140
=> $ `G1 at 28` NONE `G1 at 29` ; `rest 0` => `G1 at 30` if $ 749245
} $ `G1 at 31` ; ( `rest 0` } `G1 at 32` if `G1 at 34` case `G1 at 33` val var `G1 at 35` while `G1 at 33` for `G1 at 36` return `G1 at 34` this `G1 at 31` a T `G1 at 35` until `G1 at 32` to `G1 at 38` Contract `G1 at 31` 1 `G1 at 32` "" `G1 at 33` 'c' s"" l"" `G1 at 31` ! ~ - $ 543290
END $ `rest 0` CUT NONE ; `rest 1` ( ) [ ] { } , . _ : = => <- if else match case val var while for return this a T until to Contract 1 "" 'c' s"" l"" ! ~ - | & == < :+ + * 'a def @ # $ 616731
$ 61 $ x match { case _ : Z [ a ] => }
x $ `G1 at 1` NONE `G1 at 2` ; ( `G1 at 3` if `G6 at 24` this `G6 at 21` a T `G6 at 25` until `G6 at 22` to `G6 at 28` Contract `G6 at 21` 1 `G6 at 22` "" `G6 at 23` 'c' s"" l"" `G1 at 2` ! ~ - $ 601400
match $ `rest 0` CUT `rest 10` NONE ; `G1 at 4` ( `rest 11` ) `G1 at 4` [ `rest 11` ] { } , `G1 at 4` . `rest 11` _ : = => <- if else `G6 at 21` match `rest 11` case val var while for return this a T until to Contract 1 "" 'c' s"" l"" ! ~ `G1 at 4` - | & `G1 at 5` == `G1 at 4` < `G1 at 5` :+ `G1 at 4` + * `rest 11` 'a def @ # $ 399930
{ $ `G1 at 9` NONE `G1 at 10` ; `G6 at 21` { $ 861010
case $ `G1 at 11` NONE `G1 at 12` ; `G6 at 21` case $ 333556
_ $ `G1 at 16` NONE `G1 at 17` ; `G6 at 21` _ a T `G6 at 25` until `G6 at 22` to `G6 at 28` Contract `G1 at 17` 1 `G1 at 18` "" `G1 at 19` 'c' s"" l"" `G1 at 17` - $ 174568
: $ `G1 at 18` NONE `G1 at 19` ; `G6 at 21` : `G6 at 22` => `rest 0` if $ 320186
Z $ `G1 at 20` NONE `G1 at 21` ; `G6 at 21` a T `G6 at 25` until `G6 at 22` to `G6 at 28` Contract $ 14675
[ $ `G1 at 22` NONE `G1 at 23` ; `G6 at 21` [ `G1 at 25` . `G1 at 26` => if $ 26274
a $ `G6 at 21` CUT NONE ; ( ) [ ] { } , . _ : = => <- if else match case val var while for return this a T until to Contract 1 "" 'c' s"" l"" ! ~ - | & == < :+ + * 'a def @ # $ 912902
] $ `G6 at 21` CUT NONE ; ( ) [ ] { } , . _ : = => <- if else match case val var while for return this a T until to Contract 1 "" 'c' s"" l"" ! ~ - | & == < :+ + * 'a def @ # $ 912902
=> $ `G6 at 21` CUT NONE ; ( ) [ ] { } , . _ : = => <- if else match case val var while for return this a T until to Contract 1 "" 'c' s"" l"" ! ~ - | & == < :+ + * 'a def @ # $ 912902
} $ `G6 at 21` CUT NONE ; ( ) [ ] { } , . _ : = => <- if else match case val var while for return this a T until to Contract 1 "" 'c' s"" l"" ! ~ - | & == < :+ + * 'a def @ # $ 912902
END $ `G6 at 21` CUT NONE ; ( ) [ ] { } , . _ : = => <- if else match case val var while for return this a T until to Contract 1 "" 'c' s"" l"" ! ~ - | & == < :+ + * 'a def @ # $ 912902
"#;
