// Blocks with each token replaced, with the room that they need, and with one level less.

/// Forms of statements, each with both rooms.
pub const REPLACED: &[u8] = br#"
$ 61 $ { val a : b [ c ] = d }
{ $ `G1 at 1` NONE `G1 at 2` ; `rest 0` { $ 629383
val $ `G1 at 5` NONE `G1 at 6` ; ( `rest 9` } `G1 at 5` if `rest 0` val var `G1 at 8` while `G1 at 6` for `G1 at 11` return `G1 at 7` this `G1 at 4` a T `G1 at 8` until `G1 at 5` to `G1 at 11` Contract `G1 at 4` 1 `G1 at 5` "" `G1 at 6` 'c' s"" l"" ! ~ - $ 32581
a $ `G1 at 7` NONE `G1 at 8` ; `rest 0` a T until to Contract $ 918882
: $ `G1 at 9` NONE `G1 at 7` ; `rest 0` : `G1 at 18` = $ 541885
b $ `G1 at 11` NONE `G1 at 12` ; `rest 0` a T until to Contract $ 379242
[ $ `G1 at 13` NONE `G1 at 11` ; `rest 0` [ `G1 at 16` . = $ 472945
c $ `G1 at 15` NONE `G1 at 16` ; `rest 0` a T until to Contract $ 410252
] $ `G1 at 17` NONE `G1 at 18` ; `G6 at 16` [ `rest 0` ] `G1 at 18` , . $ 835977
= $ `G1 at 19` NONE `G1 at 17` ; `rest 0` = $ 661107
d $ `G1 at 21` NONE `G1 at 22` ; ( `G1 at 23` if `rest 0` this a T until to Contract 1 "" 'c' s"" l"" `G1 at 22` ! ~ - $ 746343
} $ `G1 at 23` ; ( [ `rest 0` } `G1 at 23` . `G1 at 27` match `G1 at 23` - | & `G1 at 24` == `G1 at 23` < `G1 at 24` :+ `G1 at 23` + * $ 755397
END $ `rest 0` CUT NONE ; `rest 1` ( ) [ ] { } , . _ : = => <- if else match case val var while for return this a T until to Contract 1 "" 'c' s"" l"" ! ~ - | & == < :+ + * 'a def @ # $ 361601
$ 62 $ { val a : b [ c ] = d }
{ $ `G1 at 1` NONE `G1 at 2` ; `G6 at 12` { $ 755159
val $ `G1 at 5` NONE `G1 at 6` ; `G6 at 2` ( `rest 9` } `G1 at 5` if `G6 at 12` val var `G1 at 8` while `G1 at 6` for `G1 at 11` return `G1 at 7` this `G1 at 4` a T `G1 at 8` until `G1 at 5` to `G1 at 11` Contract `G1 at 4` 1 `G1 at 5` "" `G1 at 6` 'c' s"" l"" `G6 at 2` ! ~ `G6 at 4` - $ 207587
a $ `G1 at 7` NONE `G1 at 8` ; `G6 at 12` a T `G6 at 16` until `G6 at 13` to `G6 at 19` Contract $ 137667
: $ `G1 at 9` NONE `G1 at 7` ; `G6 at 12` : = $ 882972
b $ `G1 at 11` NONE `G1 at 12` ; `G6 at 12` a T `G6 at 16` until `G6 at 13` to `G6 at 19` Contract $ 612478
[ $ `G1 at 13` NONE `G1 at 11` ; `G6 at 12` [ `G1 at 16` . = $ 564221
c $ `G6 at 12` CUT NONE ; ( ) [ ] { } , . _ : = => <- if else match case val var while for return this a T until to Contract 1 "" 'c' s"" l"" ! ~ - | & == < :+ + * 'a def @ # $ 482282
] $ `G6 at 12` CUT NONE ; ( ) [ ] { } , . _ : = => <- if else match case val var while for return this a T until to Contract 1 "" 'c' s"" l"" ! ~ - | & == < :+ + * 'a def @ # $ 482282
= $ `G6 at 12` CUT NONE ; ( ) [ ] { } , . _ : = => <- if else match case val var while for return this a T until to Contract 1 "" 'c' s"" l"" ! ~ - | & == < :+ + * 'a def @ # $ 482282
d $ `G6 at 12` CUT NONE ; ( ) [ ] { } , . _ : = => <- if else match case val var while for return this a T until to Contract 1 "" 'c' s"" l"" ! ~ - | & == < :+ + * 'a def @ # $ 482282
} $ `G6 at 12` CUT NONE ; ( ) [ ] { } , . _ : = => <- if else match case val var while for return this a T until to Contract 1 "" 'c' s"" l"" ! ~ - | & == < :+ + * 'a def @ # $ 482282
END $ `G6 at 12` CUT NONE ; ( ) [ ] { } , . _ : = => <- if else match case val var while for return this a T until to Contract 1 "" 'c' s"" l"" ! ~ - | & == < :+ + * 'a def @ # $ 482282
$ 61 $ { a . b = c }
{ $ `G1 at 1` NONE `G1 at 2` ; `rest 0` { $ 973291
a $ `G1 at 3` NONE `G1 at 4` ; ( `rest 5` } `G1 at 5` if `G1 at 6` val var `G1 at 8` while `G1 at 6` for `G1 at 9` return `rest 0` this a T until to Contract 1 "" 'c' s"" `G1 at 6` l"" `G1 at 4` ! ~ - $ 739941
. $ `G1 at 5` NONE `rest 0` ; `G1 at 12` ( `G1 at 8` [ `rest 4` } `rest 0` . `G1 at 8` = `G1 at 10` match `rest 0` - | & == < :+ + * $ 264124
b $ `G1 at 7` NONE `G1 at 8` ; `rest 0` a T until to Contract $ 562699
= $ `G1 at 9` NONE `rest 0` ; `G6 at 8` ( [ `rest 2` } `G6 at 8` . `rest 0` = `G1 at 14` match `G6 at 8` - | & == < :+ + * $ 937600
c $ `G1 at 11` NONE `G1 at 12` ; ( `G1 at 13` if `rest 0` this a T until to Contract 1 "" 'c' s"" l"" `G1 at 12` ! ~ - $ 777697
} $ `G1 at 13` ; ( [ `rest 0` } `G1 at 13` . `G1 at 17` match `G1 at 13` - | & `G1 at 14` == `G1 at 13` < `G1 at 14` :+ `G1 at 13` + * $ 428650
END $ `rest 0` CUT NONE ; `rest 1` ( ) [ ] { } , . _ : = => <- if else match case val var while for return this a T until to Contract 1 "" 'c' s"" l"" ! ~ - | & == < :+ + * 'a def @ # $ 778497
$ 62 $ { a . b = c }
{ $ `G1 at 1` NONE `G1 at 2` ; `G6 at 4` { $ 360446
a $ `G1 at 3` NONE `G1 at 4` ; `G6 at 2` ( `rest 5` } `G1 at 5` if `G1 at 6` val var `G1 at 8` while `G1 at 6` for `G1 at 9` return `G6 at 7` this `G6 at 4` a T `G6 at 8` until `G6 at 5` to `G6 at 11` Contract `G6 at 4` 1 `G6 at 5` "" `G6 at 6` 'c' s"" `G1 at 6` l"" `G6 at 2` ! ~ `G1 at 4` - $ 504001
. $ `G1 at 5` NONE `rest 0` ; `G6 at 4` ( [ `rest 4` } `G6 at 4` . `G1 at 8` = `G1 at 10` match `G6 at 4` - | & == < :+ + * $ 203873
b $ `G6 at 4` CUT NONE ; ( ) [ ] { } , . _ : = => <- if else match case val var while for return this a T until to Contract 1 "" 'c' s"" l"" ! ~ - | & == < :+ + * 'a def @ # $ 702400
= $ `G6 at 4` CUT NONE ; ( ) [ ] { } , . _ : = => <- if else match case val var while for return this a T until to Contract 1 "" 'c' s"" l"" ! ~ - | & == < :+ + * 'a def @ # $ 702400
c $ `G6 at 4` CUT NONE ; ( ) [ ] { } , . _ : = => <- if else match case val var while for return this a T until to Contract 1 "" 'c' s"" l"" ! ~ - | & == < :+ + * 'a def @ # $ 702400
} $ `G6 at 4` CUT NONE ; ( ) [ ] { } , . _ : = => <- if else match case val var while for return this a T until to Contract 1 "" 'c' s"" l"" ! ~ - | & == < :+ + * 'a def @ # $ 702400
END $ `G6 at 4` CUT NONE ; ( ) [ ] { } , . _ : = => <- if else match case val var while for return this a T until to Contract 1 "" 'c' s"" l"" ! ~ - | & == < :+ + * 'a def @ # $ 702400
$ 60 $ { if ( a ) { b } else if ( c ) { d } }
{ $ `G1 at 1` NONE `G1 at 2` ; `rest 0` { $ 123446
if $ `G1 at 9` NONE `G1 at 10` ; ( `rest 15` } `rest 0` if `G1 at 6` val var `G1 at 20` while `G1 at 10` for `G1 at 15` return `G1 at 13` this `G1 at 10` a T `G1 at 14` until `G1 at 11` to `G1 at 17` Contract `G1 at 10` 1 `G1 at 11` "" `G1 at 12` 'c' s"" `G1 at 6` l"" `G1 at 10` ! ~ - $ 837137
( $ `G1 at 6` NONE `G1 at 7` ; `rest 0` ( $ 741969
a $ `G1 at 8` NONE `G1 at 9` ; ( `G1 at 10` if `rest 0` this a T until to Contract 1 "" 'c' s"" l"" `G1 at 9` ! ~ - $ 942746
) $ `G1 at 10` NONE `G1 at 11` ; ( `rest 0` ) `G1 at 11` [ . `G1 at 17` match `G1 at 11` - | & `G1 at 12` == `G1 at 11` < `G1 at 12` :+ `G1 at 11` + * $ 339701
{ $ `G1 at 14` NONE `G1 at 10` ; `G1 at 15` ( `rest 0` { `G1 at 14` if `G1 at 16` this `G1 at 13` a T `G1 at 17` until `G1 at 14` to `G1 at 20` Contract `G1 at 13` 1 `G1 at 14` "" `G1 at 15` 'c' s"" l"" ! ~ - $ 71807
b $ `rest 0` NONE ; `G1 at 15` ( `rest 9` } `G1 at 16` if `G1 at 17` val var `G1 at 19` while `G1 at 17` for `rest 0` return this a T until to Contract 1 "" 'c' s"" l"" `G1 at 15` ! ~ - $ 183053
} $ `G1 at 16` NONE `G1 at 17` ; ( [ `rest 0` } `G1 at 17` . = `G1 at 21` match `G1 at 17` - | & `G1 at 18` == `G1 at 17` < `G1 at 18` :+ `G1 at 17` + * $ 322357
else $ `G1 at 18` NONE `rest 0` ; `rest 8` } `rest 0` else $ 845307
if $ `G1 at 23` NONE `G1 at 24` ; `G1 at 30` { `rest 0` if $ 465079
( $ `G1 at 26` NONE `G1 at 27` ; `rest 0` ( $ 194251
c $ `G1 at 28` NONE `G1 at 29` ; ( `G1 at 30` if `rest 0` this a T until to Contract 1 "" 'c' s"" l"" `G1 at 29` ! ~ - $ 272541
) $ `G1 at 30` NONE `G1 at 31` ; ( `rest 0` ) `G1 at 31` [ . `G1 at 37` match `G1 at 31` - | & `G1 at 32` == `G1 at 31` < `G1 at 32` :+ `G1 at 31` + * $ 434271
{ $ `G1 at 32` NONE `G1 at 30` ; `rest 0` { $ 639791
d $ `rest 0` NONE ; `G6 at 33` ( `rest 1` } `G1 at 36` if `G1 at 37` val var `G1 at 39` while `G1 at 37` for `rest 0` return this a T until to Contract 1 "" 'c' s"" l"" `G6 at 33` ! ~ `G1 at 35` - $ 562952
} $ `G1 at 37` NONE `G1 at 38` ; `G6 at 35` ( [ `rest 0` } `G6 at 35` . `G1 at 37` = `G1 at 41` match `G6 at 35` - | & == < :+ + * $ 978628
} $ `G1 at 38` ; `rest 0` } `G1 at 41` else $ 550883
END $ `rest 0` CUT NONE ; `rest 1` ( ) [ ] { } , . _ : = => <- if else match case val var while for return this a T until to Contract 1 "" 'c' s"" l"" ! ~ - | & == < :+ + * 'a def @ # $ 519521
$ 61 $ { if ( a ) { b } else if ( c ) { d } }
{ $ `G1 at 1` NONE `G1 at 2` ; `G6 at 33` { $ 208982
if $ `G1 at 9` NONE `G1 at 10` ; `G6 at 4` ( `rest 15` } `G6 at 33` if `G1 at 6` val var `G1 at 20` while `G1 at 10` for `G1 at 15` return `G1 at 13` this `G1 at 10` a T `G1 at 14` until `G1 at 11` to `G1 at 17` Contract `G1 at 10` 1 `G1 at 11` "" `G1 at 12` 'c' s"" `G1 at 6` l"" `G6 at 4` ! ~ - $ 37755
( $ `G1 at 6` NONE `G1 at 7` ; `G6 at 33` ( $ 550171
a $ `G1 at 8` NONE `G1 at 9` ; ( `G1 at 10` if `G6 at 36` this `G6 at 33` a T `G6 at 37` until `G6 at 34` to `G6 at 40` Contract `G6 at 33` 1 `G6 at 34` "" `G6 at 35` 'c' s"" l"" `G1 at 9` ! ~ - $ 777268
) $ `G1 at 10` NONE `G1 at 11` ; ( `G6 at 33` ) `G1 at 11` [ . `G1 at 17` match `G1 at 11` - | & `G1 at 12` == `G1 at 11` < `G1 at 12` :+ `G1 at 11` + * $ 824237
{ $ `G1 at 14` NONE `G1 at 10` ; `G6 at 11` ( `G6 at 33` { `G6 at 11` if `G1 at 16` this `G1 at 13` a T `G1 at 17` until `G1 at 14` to `G1 at 20` Contract `G1 at 13` 1 `G1 at 14` "" `G1 at 15` 'c' s"" l"" `G6 at 11` ! ~ `G6 at 13` - $ 602209
b $ `G6 at 32` NONE `G6 at 33` ; `G6 at 13` ( `rest 9` } `G1 at 16` if `G1 at 17` val var `G1 at 19` while `G1 at 17` for `G6 at 38` return `G6 at 36` this `G6 at 33` a T `G6 at 37` until `G6 at 34` to `G6 at 40` Contract `G6 at 33` 1 `G6 at 34` "" `G6 at 35` 'c' s"" l"" `G6 at 13` ! ~ `G1 at 15` - $ 914549
} $ `G1 at 16` NONE `G1 at 17` ; `G6 at 15` ( [ `G6 at 33` } `G6 at 15` . `G1 at 17` = `G1 at 21` match `G6 at 15` - | & == < :+ + * $ 782878
else $ `G1 at 18` NONE `rest 0` ; `rest 8` } `G6 at 33` else $ 313457
if $ `G1 at 23` NONE `G1 at 24` ; `G6 at 24` { `G6 at 33` if $ 855725
( $ `G1 at 26` NONE `G1 at 27` ; `G6 at 33` ( $ 635961
c $ `G1 at 28` NONE `G1 at 29` ; `G6 at 27` ( if `G6 at 36` this `G6 at 33` a T `G6 at 37` until `G6 at 34` to `G6 at 40` Contract `G6 at 33` 1 `G6 at 34` "" `G6 at 35` 'c' s"" l"" `G6 at 27` ! ~ `G1 at 29` - $ 257564
) $ `G1 at 30` NONE `G1 at 31` ; `G6 at 29` ( `G6 at 33` ) `G6 at 29` [ . match - | & == < :+ + * $ 484195
{ $ `G1 at 32` NONE `G1 at 30` ; `G6 at 33` { $ 959777
d $ `rest 0` NONE ; `G6 at 33` ( `rest 1` } `G6 at 33` if val var while for `rest 0` return `G6 at 33` this a T until to `G6 at 42` Contract `G6 at 33` 1 "" 'c' s"" `rest 0` l"" `G6 at 33` ! ~ - $ 853949
} $ `G6 at 33` CUT NONE ; ( ) [ ] { } , . _ : = => <- if else match case val var while for return this a T until to Contract 1 "" 'c' s"" l"" ! ~ - | & == < :+ + * 'a def @ # $ 86584
} $ `G6 at 33` CUT NONE ; ( ) [ ] { } , . _ : = => <- if else match case val var while for return this a T until to Contract 1 "" 'c' s"" l"" ! ~ - | & == < :+ + * 'a def @ # $ 86584
END $ `G6 at 33` CUT NONE ; ( ) [ ] { } , . _ : = => <- if else match case val var while for return this a T until to Contract 1 "" 'c' s"" l"" ! ~ - | & == < :+ + * 'a def @ # $ 86584
$ 61 $ { if ( a ) b else c = d }
{ $ `G1 at 1` NONE `G1 at 2` ; `rest 0` { $ 879938
if $ `G1 at 9` NONE `G1 at 10` ; `G6 at 4` ( `rest 9` } `rest 0` if `G1 at 6` val var `G1 at 14` while `G1 at 10` for `G1 at 15` return `G1 at 13` this `G1 at 10` a T `G1 at 14` until `G1 at 11` to `G1 at 17` Contract `G1 at 10` 1 `G1 at 11` "" `G1 at 12` 'c' s"" `G1 at 6` l"" `G6 at 4` ! ~ - $ 852255
( $ `G1 at 6` NONE `G1 at 7` ; `rest 0` ( $ 137799
a $ `G1 at 8` NONE `G1 at 9` ; ( `G1 at 10` if `rest 0` this a T until to Contract 1 "" 'c' s"" l"" `G1 at 9` ! ~ - $ 518537
) $ `G1 at 10` NONE `G1 at 11` ; `G1 at 13` ( `rest 0` ) `G1 at 13` [ . `G1 at 15` match `G1 at 13` - | & `G1 at 14` == `G1 at 13` < `G1 at 14` :+ `G1 at 13` + * $ 793009
b $ `G1 at 12` NONE `G1 at 13` ; `G6 at 11` ( `G1 at 13` { `G6 at 11` if `rest 0` this a T until to Contract 1 "" 'c' s"" l"" `G6 at 11` ! ~ `G1 at 13` - $ 814743
else $ `G1 at 14` NONE `G1 at 12` ; `G6 at 13` ( [ . `rest 0` else `G6 at 13` match - | & == < :+ + * $ 408525
c $ `G1 at 19` NONE `G1 at 20` ; `G6 at 18` ( if `rest 0` this a T until to Contract 1 "" 'c' s"" l"" `G6 at 18` ! ~ `G1 at 20` - $ 412593
= $ `G1 at 21` NONE `rest 0` ; `G6 at 20` ( [ `rest 2` } `G6 at 20` . `rest 0` = `G6 at 20` match - | & == < :+ + * $ 647692
d $ `G1 at 23` NONE `G1 at 24` ; ( `G1 at 25` if `rest 0` this a T until to Contract 1 "" 'c' s"" l"" `G1 at 24` ! ~ - $ 791678
} $ `G1 at 25` ; ( [ `rest 0` } `G1 at 25` . `G1 at 29` match `G1 at 25` - | & `G1 at 26` == `G1 at 25` < `G1 at 26` :+ `G1 at 25` + * $ 539140
END $ `rest 0` CUT NONE ; `rest 1` ( ) [ ] { } , . _ : = => <- if else match case val var while for return this a T until to Contract 1 "" 'c' s"" l"" ! ~ - | & == < :+ + * 'a def @ # $ 417023
$ 62 $ { if ( a ) b else c = d }
{ $ `G1 at 1` NONE `G1 at 2` ; `G6 at 11` { $ 374870
if $ `G6 at 3` NONE `G6 at 4` ; `G6 at 2` ( `rest 9` } `G6 at 11` if `G1 at 6` val var `G1 at 14` while `G1 at 10` for `G6 at 9` return `G6 at 7` this `G6 at 4` a T `G6 at 8` until `G6 at 5` to `G1 at 17` Contract `G6 at 4` 1 `G6 at 5` "" `G6 at 6` 'c' s"" `G1 at 6` l"" `G6 at 2` ! ~ `G6 at 4` - $ 289188
( $ `G1 at 6` NONE `G1 at 7` ; `G6 at 11` ( $ 509467
a $ `G1 at 8` NONE `G1 at 9` ; `G6 at 7` ( if `G6 at 14` this `G6 at 11` a T `G6 at 15` until `G6 at 12` to `G6 at 18` Contract `G6 at 11` 1 `G6 at 12` "" `G6 at 13` 'c' s"" l"" `G6 at 7` ! ~ `G1 at 9` - $ 516809
) $ `G1 at 10` NONE `G1 at 11` ; `G6 at 9` ( `G6 at 11` ) `G6 at 9` [ . match - | & == < :+ + * $ 669917
b $ `G1 at 12` NONE `G1 at 13` ; `G6 at 11` ( `G1 at 13` { `G6 at 11` if this a T until to Contract 1 "" 'c' s"" l"" ! ~ - $ 72211
else $ `G6 at 11` CUT NONE ; ( ) [ ] { } , . _ : = => <- if else match case val var while for return this a T until to Contract 1 "" 'c' s"" l"" ! ~ - | & == < :+ + * 'a def @ # $ 567928
c $ `G6 at 11` CUT NONE ; ( ) [ ] { } , . _ : = => <- if else match case val var while for return this a T until to Contract 1 "" 'c' s"" l"" ! ~ - | & == < :+ + * 'a def @ # $ 567928
= $ `G6 at 11` CUT NONE ; ( ) [ ] { } , . _ : = => <- if else match case val var while for return this a T until to Contract 1 "" 'c' s"" l"" ! ~ - | & == < :+ + * 'a def @ # $ 567928
d $ `G6 at 11` CUT NONE ; ( ) [ ] { } , . _ : = => <- if else match case val var while for return this a T until to Contract 1 "" 'c' s"" l"" ! ~ - | & == < :+ + * 'a def @ # $ 567928
} $ `G6 at 11` CUT NONE ; ( ) [ ] { } , . _ : = => <- if else match case val var while for return this a T until to Contract 1 "" 'c' s"" l"" ! ~ - | & == < :+ + * 'a def @ # $ 567928
END $ `G6 at 11` CUT NONE ; ( ) [ ] { } , . _ : = => <- if else match case val var while for return this a T until to Contract 1 "" 'c' s"" l"" ! ~ - | & == < :+ + * 'a def @ # $ 567928
$ 61 $ { while ( a ) { b } }
{ $ `G1 at 1` NONE `G1 at 2` ; `rest 0` { $ 977087
while $ `G1 at 9` NONE `G1 at 10` ; `G6 at 4` ( `rest 7` } `rest 0` if `G1 at 6` val var `rest 0` while `G1 at 10` for `G1 at 15` return `G1 at 13` this `G1 at 10` a T `G1 at 14` until `G1 at 11` to `G1 at 17` Contract `G1 at 10` 1 `G1 at 11` "" `G1 at 12` 'c' s"" `G1 at 6` l"" `G6 at 4` ! ~ - $ 792041
( $ `G1 at 9` NONE `G1 at 10` ; `rest 0` ( $ 792092
a $ `G1 at 11` NONE `G1 at 12` ; ( `G1 at 13` if `rest 0` this a T until to Contract 1 "" 'c' s"" l"" `G1 at 12` ! ~ - $ 332619
) $ `G1 at 13` NONE `G1 at 14` ; ( `rest 0` ) `G1 at 14` [ . `G1 at 20` match `G1 at 14` - | & `G1 at 15` == `G1 at 14` < `G1 at 15` :+ `G1 at 14` + * $ 451157
{ $ `G1 at 15` NONE `G1 at 13` ; `rest 0` { $ 757759
b $ `rest 0` NONE ; `G6 at 16` ( `rest 1` } `G1 at 19` if `G1 at 20` val var `G1 at 22` while `G1 at 20` for `rest 0` return this a T until to Contract 1 "" 'c' s"" l"" `G6 at 16` ! ~ `G1 at 18` - $ 229278
} $ `G1 at 20` NONE `G1 at 21` ; `G6 at 18` ( [ `rest 0` } `G6 at 18` . `G1 at 20` = `G1 at 24` match `G6 at 18` - | & == < :+ + * $ 547099
} $ `G1 at 21` ; `rest 0` } $ 818731
END $ `rest 0` CUT NONE ; `rest 1` ( ) [ ] { } , . _ : = => <- if else match case val var while for return this a T until to Contract 1 "" 'c' s"" l"" ! ~ - | & == < :+ + * 'a def @ # $ 741033
$ 62 $ { while ( a ) { b } }
{ $ `G1 at 1` NONE `G1 at 2` ; `G6 at 16` { $ 178203
while $ `G6 at 3` NONE `G6 at 4` ; `G6 at 2` ( `rest 7` } `G6 at 13` if `G1 at 6` val var `G6 at 16` while `G1 at 10` for `G6 at 9` return `G6 at 7` this `G6 at 4` a T `G6 at 8` until `G6 at 5` to `G1 at 17` Contract `G6 at 4` 1 `G6 at 5` "" `G6 at 6` 'c' s"" `G1 at 6` l"" `G6 at 2` ! ~ `G6 at 4` - $ 511809
( $ `G1 at 9` NONE `G1 at 10` ; `G6 at 16` ( $ 806904
a $ `G1 at 11` NONE `G1 at 12` ; `G6 at 10` ( if `G6 at 19` this `G6 at 16` a T `G6 at 20` until `G6 at 17` to `G6 at 23` Contract `G6 at 16` 1 `G6 at 17` "" `G6 at 18` 'c' s"" l"" `G6 at 10` ! ~ `G1 at 12` - $ 180382
) $ `G1 at 13` NONE `G1 at 14` ; `G6 at 12` ( `G6 at 16` ) `G6 at 12` [ . match - | & == < :+ + * $ 846712
{ $ `G1 at 15` NONE `G1 at 13` ; `G6 at 16` { $ 45595
b $ `rest 0` NONE ; `G6 at 16` ( `rest 1` } `G6 at 16` if val var while for `rest 0` return `G6 at 16` this a T until to `G6 at 25` Contract `G6 at 16` 1 "" 'c' s"" `rest 0` l"" `G6 at 16` ! ~ - $ 681030
} $ `G6 at 16` CUT NONE ; ( ) [ ] { } , . _ : = => <- if else match case val var while for return this a T until to Contract 1 "" 'c' s"" l"" ! ~ - | & == < :+ + * 'a def @ # $ 139698
} $ `G6 at 16` CUT NONE ; ( ) [ ] { } , . _ : = => <- if else match case val var while for return this a T until to Contract 1 "" 'c' s"" l"" ! ~ - | & == < :+ + * 'a def @ # $ 139698
END $ `G6 at 16` CUT NONE ; ( ) [ ] { } , . _ : = => <- if else match case val var while for return this a T until to Contract 1 "" 'c' s"" l"" ! ~ - | & == < :+ + * 'a def @ # $ 139698
$ 61 $ { for ( a <- b until - 1 ) { d } }
{ $ `G1 at 1` NONE `G1 at 2` ; `rest 0` { $ 616445
for $ `G1 at 7` NONE `G1 at 8` ; `G6 at 4` ( `rest 12` } `G1 at 9` if `G1 at 6` val var `G1 at 12` while `rest 0` for `G1 at 13` return `G1 at 11` this `G1 at 8` a T `G1 at 12` until `G1 at 9` to `G1 at 32` Contract `G1 at 8` 1 `G1 at 9` "" `G1 at 10` 'c' s"" `G1 at 6` l"" `G6 at 4` ! ~ - $ 104155
( $ `G1 at 7` NONE `G1 at 8` ; `rest 0` ( $ 32183
a $ `G1 at 9` NONE `G1 at 10` ; `rest 0` a T until to Contract $ 698626
<- $ `G1 at 11` NONE `G1 at 12` ; `rest 0` <- $ 434934
b $ `G1 at 24` NONE `G1 at 25` ; `G6 at 21` ( `G1 at 16` if `rest 0` this a T until to Contract 1 "" 'c' s"" l"" `G6 at 21` ! ~ - $ 314823
until $ `G1 at 20` NONE `G1 at 21` ; `G1 at 23` ( `G1 at 17` [ . `G1 at 21` match `rest 0` until to `G1 at 21` - | & `G1 at 22` == `G1 at 21` < `G1 at 22` :+ `G1 at 21` + * $ 654669
- $ `rest 0` NONE ; `G1 at 27` ( `G1 at 24` if `G1 at 26` this `G1 at 23` a T `G1 at 27` until `G1 at 24` to `G1 at 30` Contract `G1 at 23` 1 `G1 at 24` "" `G1 at 25` 'c' s"" l"" `rest 0` ! ~ - $ 793373
1 $ `G1 at 24` NONE `G1 at 25` ; `G6 at 23` ( `rest 0` this a T until to Contract 1 "" 'c' s"" l"" $ 156724
) $ `G1 at 26` NONE `G1 at 27` ; `G6 at 25` ( `rest 0` ) `G6 at 25` [ . `G1 at 33` match `G1 at 27` - | & `G1 at 28` == `G1 at 27` < `G1 at 28` :+ `G1 at 27` + * $ 839410
{ $ `G1 at 28` NONE `G1 at 26` ; `rest 0` { $ 434283
d $ `rest 0` NONE ; `G6 at 29` ( `rest 1` } `G1 at 32` if `G1 at 33` val var `G1 at 35` while `G1 at 33` for `rest 0` return this a T until to Contract 1 "" 'c' s"" l"" `G6 at 29` ! ~ `G1 at 31` - $ 942050
} $ `G1 at 33` NONE `G1 at 34` ; `G6 at 31` ( [ `rest 0` } `G6 at 31` . `G1 at 33` = `G1 at 37` match `G6 at 31` - | & == < :+ + * $ 362354
} $ `G1 at 34` ; `rest 0` } $ 372941
END $ `rest 0` CUT NONE ; `rest 1` ( ) [ ] { } , . _ : = => <- if else match case val var while for return this a T until to Contract 1 "" 'c' s"" l"" ! ~ - | & == < :+ + * 'a def @ # $ 991425
$ 62 $ { for ( a <- b until - 1 ) { d } }
{ $ `G1 at 1` NONE `G1 at 2` ; `G6 at 29` { $ 290429
for $ `G6 at 3` NONE `G6 at 4` ; `G6 at 2` ( `rest 12` } `G1 at 9` if `G1 at 6` val var `G1 at 12` while `G6 at 29` for `G6 at 9` return `G6 at 7` this `G6 at 4` a T `G6 at 8` until `G6 at 5` to `G1 at 32` Contract `G6 at 4` 1 `G6 at 5` "" `G6 at 6` 'c' s"" `G1 at 6` l"" `G6 at 2` ! ~ `G6 at 4` - $ 685930
( $ `G1 at 7` NONE `G1 at 8` ; `G6 at 29` ( $ 205699
a $ `G1 at 9` NONE `G1 at 10` ; `G6 at 29` a T `G6 at 33` until `G6 at 30` to `G6 at 36` Contract $ 452349
<- $ `G1 at 11` NONE `G1 at 12` ; `G6 at 29` <- $ 730172
b $ `G6 at 20` NONE `G6 at 21` ; `G6 at 13` ( if `G6 at 32` this `G6 at 29` a T `G6 at 33` until `G6 at 30` to `G6 at 36` Contract `G6 at 29` 1 `G6 at 30` "" `G6 at 31` 'c' s"" l"" `G6 at 13` ! ~ `G6 at 15` - $ 894220
until $ `G6 at 16` NONE `G6 at 17` ; `G6 at 15` ( [ . match `G6 at 29` until `G6 at 26` to `G6 at 15` - | & == < :+ + * $ 72540
- $ `G6 at 28` NONE `G6 at 29` ; `G6 at 21` ( if `G1 at 26` this `G1 at 23` a T `G1 at 27` until `G1 at 24` to `G1 at 30` Contract `G1 at 23` 1 `G1 at 24` "" `G1 at 25` 'c' s"" l"" `G6 at 21` ! ~ `G6 at 29` - $ 51079
1 $ `G1 at 24` NONE `G1 at 25` ; `G6 at 23` ( this a T until to Contract `G6 at 29` 1 `G6 at 23` "" 'c' s"" l"" $ 757685
) $ `G1 at 26` NONE `G1 at 27` ; `G6 at 25` ( `G6 at 29` ) `G6 at 25` [ . match - | & == < :+ + * $ 934748
{ $ `G1 at 28` NONE `G1 at 26` ; `G6 at 29` { $ 100927
d $ `rest 0` NONE ; `G6 at 29` ( `rest 1` } `G6 at 29` if val var while for `rest 0` return `G6 at 29` this a T until to `G6 at 38` Contract `G6 at 29` 1 "" 'c' s"" `rest 0` l"" `G6 at 29` ! ~ - $ 672475
} $ `G6 at 29` CUT NONE ; ( ) [ ] { } , . _ : = => <- if else match case val var while for return this a T until to Contract 1 "" 'c' s"" l"" ! ~ - | & == < :+ + * 'a def @ # $ 227734
} $ `G6 at 29` CUT NONE ; ( ) [ ] { } , . _ : = => <- if else match case val var while for return this a T until to Contract 1 "" 'c' s"" l"" ! ~ - | & == < :+ + * 'a def @ # $ 227734
END $ `G6 at 29` CUT NONE ; ( ) [ ] { } , . _ : = => <- if else match case val var while for return this a T until to Contract 1 "" 'c' s"" l"" ! ~ - | & == < :+ + * 'a def @ # $ 227734
$ 62 $ { return a }
{ $ `G1 at 1` NONE `G1 at 2` ; `rest 0` { $ 624001
return $ `rest 0` NONE ; `G6 at 2` ( `rest 2` } `G1 at 5` if `G1 at 8` val var while `G1 at 6` for `rest 0` return `G1 at 7` this `G1 at 4` a T `G1 at 8` until `G1 at 5` to `G1 at 11` Contract `G1 at 4` 1 `G1 at 5` "" `G1 at 6` 'c' s"" l"" `G6 at 2` ! ~ `G6 at 4` - $ 19973
a $ `rest 0` NONE ; `G6 at 9` ( `rest 1` } `G6 at 9` if `rest 0` this a T until to Contract 1 "" 'c' s"" l"" `G6 at 9` ! ~ `G1 at 11` - $ 598103
} $ `G1 at 12` ; `G6 at 11` ( [ `rest 0` } `G6 at 11` . match - | & == < :+ + * $ 418539
END $ `rest 0` CUT NONE ; `rest 1` ( ) [ ] { } , . _ : = => <- if else match case val var while for return this a T until to Contract 1 "" 'c' s"" l"" ! ~ - | & == < :+ + * 'a def @ # $ 377421
$ 63 $ { return a }
{ $ `G1 at 1` NONE `G1 at 2` ; `G6 at 9` { $ 131075
return $ `G6 at 3` NONE `G6 at 4` ; `G6 at 2` ( `rest 2` } `G6 at 2` if val var while for `G6 at 9` return `G6 at 2` this a T until to `G1 at 11` Contract `G6 at 2` 1 "" 'c' s"" `G1 at 6` l"" `G6 at 2` ! ~ - $ 890718
a $ `rest 0` NONE ; `G6 at 9` ( `rest 1` } `G6 at 9` if this a T until to Contract 1 "" 'c' s"" l"" ! ~ - $ 752081
} $ `G6 at 9` CUT NONE ; ( ) [ ] { } , . _ : = => <- if else match case val var while for return this a T until to Contract 1 "" 'c' s"" l"" ! ~ - | & == < :+ + * 'a def @ # $ 122592
END $ `G6 at 9` CUT NONE ; ( ) [ ] { } , . _ : = => <- if else match case val var while for return this a T until to Contract 1 "" 'c' s"" l"" ! ~ - | & == < :+ + * 'a def @ # $ 122592
$ 63 $ { Contract ( a ) }
{ $ `G1 at 1` NONE `G1 at 2` ; `rest 0` { $ 534404
Contract $ `G6 at 3` NONE `G6 at 4` ; `G6 at 2` ( `rest 4` } `G6 at 2` if val var while for `G6 at 9` return `G6 at 2` this a T until to `rest 0` Contract `G6 at 2` 1 "" 'c' s"" `G1 at 6` l"" `G6 at 2` ! ~ - $ 64973
( $ `G1 at 12` NONE `G6 at 10` ; `rest 0` ( `G6 at 11` [ } . = match - | & == < :+ + * $ 490359
a $ `rest 0` NONE ; `G1 at 17` ( `G1 at 15` ) [ { `rest 0` , . _ : = => <- if else match case val var while for return this a T until to Contract 1 "" 'c' s"" l"" ! ~ - | & == < :+ + * 'a def @ # $ 665900
) $ `G1 at 16` NONE `G1 at 17` ; ( `rest 0` ) `G1 at 17` [ `G1 at 18` { `G1 at 17` , . _ : = `G1 at 18` => <- if `G1 at 20` else `G1 at 21` match `G1 at 20` case `G1 at 19` val var `G1 at 21` while `G1 at 19` for `G1 at 22` return `G1 at 20` this `G1 at 17` a T `G1 at 21` until `G1 at 18` to `G1 at 24` Contract `G1 at 17` 1 `G1 at 18` "" `G1 at 19` 'c' s"" l"" `G1 at 17` ! ~ - | & `G1 at 18` == `G1 at 17` < `G1 at 18` :+ `G1 at 17` + * `G1 at 18` 'a `G1 at 19` def `G1 at 17` @ # $ 170992
} $ `G1 at 18` ; `rest 0` } $ 755352
END $ `rest 0` CUT NONE ; `rest 1` ( ) [ ] { } , . _ : = => <- if else match case val var while for return this a T until to Contract 1 "" 'c' s"" l"" ! ~ - | & == < :+ + * 'a def @ # $ 612323
$ 64 $ { Contract ( a ) }
{ $ `G1 at 1` NONE `G1 at 2` ; `G6 at 2` { $ 632572
Contract $ `G6 at 3` NONE `G6 at 4` ; `G6 at 2` ( `rest 4` } `G6 at 2` if val var while for return this a T until to Contract 1 "" 'c' s"" l"" ! ~ - $ 584025
( $ `G6 at 2` CUT NONE ; ( ) [ ] { } , . _ : = => <- if else match case val var while for return this a T until to Contract 1 "" 'c' s"" l"" ! ~ - | & == < :+ + * 'a def @ # $ 540864
a $ `G6 at 2` CUT NONE ; ( ) [ ] { } , . _ : = => <- if else match case val var while for return this a T until to Contract 1 "" 'c' s"" l"" ! ~ - | & == < :+ + * 'a def @ # $ 540864
) $ `G6 at 2` CUT NONE ; ( ) [ ] { } , . _ : = => <- if else match case val var while for return this a T until to Contract 1 "" 'c' s"" l"" ! ~ - | & == < :+ + * 'a def @ # $ 540864
} $ `G6 at 2` CUT NONE ; ( ) [ ] { } , . _ : = => <- if else match case val var while for return this a T until to Contract 1 "" 'c' s"" l"" ! ~ - | & == < :+ + * 'a def @ # $ 540864
END $ `G6 at 2` CUT NONE ; ( ) [ ] { } , . _ : = => <- if else match case val var while for return this a T until to Contract 1 "" 'c' s"" l"" ! ~ - | & == < :+ + * 'a def @ # $ 540864
$ 62 $ { Contract }
{ $ `G1 at 1` NONE `G1 at 2` ; `rest 0` { $ 753687
Contract $ `rest 0` NONE ; `G6 at 2` ( `rest 1` } `G1 at 5` if `G1 at 6` val var `G1 at 8` while `G1 at 6` for `rest 0` return this a T until to Contract 1 "" 'c' s"" l"" `G6 at 2` ! ~ `G1 at 4` - $ 259697
} $ `G1 at 12` ; ( `G6 at 11` [ `rest 0` } `G6 at 11` . `G1 at 12` = `G1 at 16` match `G6 at 11` - | & == < :+ + * $ 367508
END $ `rest 0` CUT NONE ; `rest 1` ( ) [ ] { } , . _ : = => <- if else match case val var while for return this a T until to Contract 1 "" 'c' s"" l"" ! ~ - | & == < :+ + * 'a def @ # $ 19329
$ 63 $ { Contract }
{ $ `G1 at 1` NONE `G1 at 2` ; `G6 at 11` { $ 374870
Contract $ `rest 0` NONE ; `G6 at 2` ( `rest 1` } `G6 at 2` if val var while for `rest 0` return `G6 at 2` this a T until to `G6 at 11` Contract `G6 at 2` 1 "" 'c' s"" `rest 0` l"" `G6 at 2` ! ~ - $ 813034
} $ `G1 at 12` ; ( `G6 at 11` [ } . = match - | & == < :+ + * $ 994113
END $ `G6 at 11` CUT NONE ; ( ) [ ] { } , . _ : = => <- if else match case val var while for return this a T until to Contract 1 "" 'c' s"" l"" ! ~ - | & == < :+ + * 'a def @ # $ 567928
$ 61 $ { a match { case b => return } = c }
{ $ `G1 at 1` NONE `G1 at 2` ; `rest 0` { $ 132396
a $ `G1 at 3` NONE `G1 at 4` ; ( `rest 10` } `G1 at 5` if `G1 at 6` val var `G1 at 8` while `G1 at 6` for `G1 at 9` return `rest 0` this a T until to Contract 1 "" 'c' s"" `G1 at 6` l"" `G1 at 4` ! ~ - $ 517900
match $ `G1 at 5` NONE `G1 at 6` ; ( [ `rest 9` } `G1 at 6` . = `rest 0` match `G1 at 6` - | & `G1 at 7` == `G1 at 6` < `G1 at 7` :+ `G1 at 6` + * $ 797932
{ $ `G1 at 11` NONE `G1 at 12` ; `rest 0` { $ 407237
case $ `G1 at 13` NONE `G1 at 14` ; `rest 0` case $ 78347
b $ `G1 at 18` NONE `G1 at 19` ; `rest 0` _ a T until to Contract 1 "" 'c' s"" l"" `G1 at 19` - $ 627833
=> $ `G1 at 20` NONE `G1 at 21` ; ( . : `rest 0` => `G1 at 22` if $ 920023
return $ `rest 0` NONE ; `G6 at 22` ( `rest 3` } `G1 at 25` if `G1 at 27` case `G1 at 26` val var `G1 at 28` while `G1 at 26` for `rest 0` return `G6 at 29` this `G6 at 26` a T `G6 at 30` until `G6 at 27` to `G6 at 33` Contract `G6 at 26` 1 `G6 at 27` "" `G6 at 28` 'c' s"" `rest 0` l"" `G6 at 22` ! ~ `G1 at 24` - $ 549477
} $ `G1 at 30` NONE `G1 at 31` ; `G6 at 29` ( `rest 0` } `G6 at 29` if `G1 at 34` case this `G1 at 31` a T `G1 at 35` until `G1 at 32` to `G1 at 38` Contract `G1 at 31` 1 `G1 at 32` "" `G1 at 33` 'c' s"" l"" `G6 at 29` ! ~ `G1 at 31` - $ 56901
= $ `G1 at 32` NONE `rest 0` ; `rest 2` } `rest 0` = $ 751003
c $ `G1 at 34` NONE `G1 at 35` ; ( `G1 at 36` if `rest 0` this a T until to Contract 1 "" 'c' s"" l"" `G1 at 35` ! ~ - $ 111041
} $ `G1 at 36` ; ( [ `rest 0` } `G1 at 36` . `G1 at 40` match `G1 at 36` - | & `G1 at 37` == `G1 at 36` < `G1 at 37` :+ `G1 at 36` + * $ 47649
END $ `rest 0` CUT NONE ; `rest 1` ( ) [ ] { } , . _ : = => <- if else match case val var while for return this a T until to Contract 1 "" 'c' s"" l"" ! ~ - | & == < :+ + * 'a def @ # $ 632481
$ 62 $ { a match { case b => return } = c }
{ $ `G1 at 1` NONE `G1 at 2` ; `G6 at 31` { $ 481108
a $ `G1 at 3` NONE `G1 at 4` ; `G6 at 2` ( `rest 10` } `G1 at 5` if `G1 at 6` val var `G1 at 8` while `G1 at 6` for `G1 at 9` return `G6 at 34` this `G6 at 31` a T `G6 at 35` until `G6 at 32` to `G6 at 38` Contract `G6 at 31` 1 `G6 at 32` "" `G6 at 33` 'c' s"" `G1 at 6` l"" `G6 at 2` ! ~ `G1 at 4` - $ 822930
match $ `G1 at 5` NONE `G1 at 6` ; `G6 at 4` ( [ `rest 9` } `G6 at 4` . `G1 at 6` = `G6 at 31` match `G6 at 4` - | & == < :+ + * $ 818811
{ $ `G1 at 11` NONE `G1 at 12` ; `G6 at 31` { $ 958611
case $ `G1 at 13` NONE `G1 at 14` ; `G6 at 31` case $ 769973
b $ `G1 at 18` NONE `G1 at 19` ; `G6 at 31` _ a T `G6 at 35` until `G6 at 32` to `G6 at 38` Contract `G6 at 31` 1 `G6 at 32` "" `G6 at 33` 'c' s"" l"" `G1 at 19` - $ 623009
=> $ `G1 at 20` NONE `G1 at 21` ; ( . `G6 at 19` : `G6 at 31` => `G1 at 22` if $ 661505
return $ `G6 at 25` NONE `G6 at 26` ; `G6 at 22` ( `rest 3` } `G6 at 22` if `G1 at 27` case `G6 at 22` val var while for `G6 at 31` return `G6 at 22` this a T until to `G6 at 31` Contract `G6 at 22` 1 "" 'c' s"" `G6 at 28` l"" `G6 at 22` ! ~ - $ 472195
} $ `G1 at 30` NONE `G1 at 31` ; `G6 at 29` ( `G6 at 31` } `G6 at 29` if `G1 at 34` case `G6 at 29` this a T until to Contract 1 "" 'c' s"" l"" ! ~ - $ 931535
= $ `G1 at 32` NONE `rest 0` ; `rest 2` } `G6 at 31` = $ 117421
c $ `G6 at 31` CUT NONE ; ( ) [ ] { } , . _ : = => <- if else match case val var while for return this a T until to Contract 1 "" 'c' s"" l"" ! ~ - | & == < :+ + * 'a def @ # $ 257876
} $ `G6 at 31` CUT NONE ; ( ) [ ] { } , . _ : = => <- if else match case val var while for return this a T until to Contract 1 "" 'c' s"" l"" ! ~ - | & == < :+ + * 'a def @ # $ 257876
END $ `G6 at 31` CUT NONE ; ( ) [ ] { } , . _ : = => <- if else match case val var while for return this a T until to Contract 1 "" 'c' s"" l"" ! ~ - | & == < :+ + * 'a def @ # $ 257876
$ 61 $ { a match { case b => c } }
{ $ `G1 at 1` NONE `G1 at 2` ; `rest 0` { $ 250246
a $ `G1 at 3` NONE `G1 at 4` ; ( `rest 8` } `G1 at 5` if `G1 at 6` val var `G1 at 8` while `G1 at 6` for `G1 at 9` return `rest 0` this a T until to Contract 1 "" 'c' s"" `G1 at 6` l"" `G1 at 4` ! ~ - $ 948944
match $ `G1 at 5` NONE `G1 at 6` ; ( [ `rest 7` } `G1 at 6` . = `rest 0` match `G1 at 6` - | & `G1 at 7` == `G1 at 6` < `G1 at 7` :+ `G1 at 6` + * $ 171668
{ $ `G1 at 11` NONE `G1 at 12` ; `rest 0` { $ 343135
case $ `G1 at 13` NONE `G1 at 14` ; `rest 0` case $ 169829
b $ `G1 at 18` NONE `G1 at 19` ; `rest 0` _ a T until to Contract 1 "" 'c' s"" l"" `G1 at 19` - $ 75223
=> $ `G1 at 20` NONE `G1 at 21` ; `G1 at 23` ( . : `rest 0` => `G1 at 24` if $ 65453
c $ `rest 0` NONE ; `G6 at 22` ( `rest 1` } `G1 at 25` if `G1 at 27` case `G1 at 26` val var `G1 at 28` while `G1 at 26` for `rest 0` return this a T until to Contract 1 "" 'c' s"" l"" `G6 at 22` ! ~ `G1 at 24` - $ 82412
} $ `G1 at 26` NONE `G1 at 27` ; `G6 at 24` ( [ `rest 0` } `G6 at 24` . `G1 at 26` = `G1 at 30` match `G1 at 29` case `G6 at 24` - | & == < :+ + * $ 323321
} $ `G1 at 27` ; `rest 0` } `G6 at 26` = $ 294207
END $ `rest 0` CUT NONE ; `rest 1` ( ) [ ] { } , . _ : = => <- if else match case val var while for return this a T until to Contract 1 "" 'c' s"" l"" ! ~ - | & == < :+ + * 'a def @ # $ 748193
$ 62 $ { a match { case b => c } }
{ $ `G1 at 1` NONE `G1 at 2` ; `G6 at 22` { $ 791926
a $ `G1 at 3` NONE `G1 at 4` ; `G6 at 2` ( `rest 8` } `G1 at 5` if `G1 at 6` val var `G1 at 8` while `G1 at 6` for `G1 at 9` return `G6 at 25` this `G6 at 22` a T `G6 at 26` until `G6 at 23` to `G6 at 29` Contract `G6 at 22` 1 `G6 at 23` "" `G6 at 24` 'c' s"" `G1 at 6` l"" `G6 at 2` ! ~ `G1 at 4` - $ 626645
match $ `G1 at 5` NONE `G1 at 6` ; `G6 at 4` ( [ `rest 7` } `G6 at 4` . `G1 at 6` = `G6 at 22` match `G6 at 4` - | & == < :+ + * $ 573975
{ $ `G1 at 11` NONE `G1 at 12` ; `G6 at 22` { $ 905589
case $ `G1 at 13` NONE `G1 at 14` ; `G6 at 22` case $ 431831
b $ `G1 at 18` NONE `G1 at 19` ; `G6 at 22` _ a T `G6 at 26` until `G6 at 23` to `G6 at 29` Contract `G6 at 22` 1 `G6 at 23` "" `G6 at 24` 'c' s"" l"" `G1 at 19` - $ 50391
=> $ `G1 at 20` NONE `G1 at 21` ; `G6 at 21` ( `G1 at 23` . `G6 at 19` : `G6 at 22` => `G1 at 24` if $ 609388
c $ `rest 0` NONE ; `G6 at 22` ( `rest 1` } `G6 at 22` if `G1 at 27` case `G6 at 22` val var while for `rest 0` return `G6 at 22` this a T until to `G6 at 31` Contract `G6 at 22` 1 "" 'c' s"" `rest 0` l"" `G6 at 22` ! ~ - $ 960498
} $ `G6 at 22` CUT NONE ; ( ) [ ] { } , . _ : = => <- if else match case val var while for return this a T until to Contract 1 "" 'c' s"" l"" ! ~ - | & == < :+ + * 'a def @ # $ 827256
} $ `G6 at 22` CUT NONE ; ( ) [ ] { } , . _ : = => <- if else match case val var while for return this a T until to Contract 1 "" 'c' s"" l"" ! ~ - | & == < :+ + * 'a def @ # $ 827256
END $ `G6 at 22` CUT NONE ; ( ) [ ] { } , . _ : = => <- if else match case val var while for return this a T until to Contract 1 "" 'c' s"" l"" ! ~ - | & == < :+ + * 'a def @ # $ 827256
$ 61 $ { a ( b ) }
{ $ `G1 at 1` NONE `G1 at 2` ; `rest 0` { $ 1956
a $ `rest 0` NONE ; `G6 at 4` ( `rest 4` } `G1 at 11` if `G1 at 6` val var `G1 at 14` while `G1 at 10` for `rest 0` return this a T until to Contract 1 "" 'c' s"" `G1 at 6` l"" `G6 at 4` ! ~ - $ 445955
( $ `G1 at 5` NONE `G1 at 8` ; `rest 0` ( `G1 at 8` [ `rest 3` } `G1 at 8` . = `G1 at 10` match `G1 at 8` - | & `G1 at 9` == `G1 at 8` < `G1 at 9` :+ `G1 at 8` + * $ 498735
b $ `rest 0` NONE ; `G6 at 6` ( `G1 at 8` ) `G6 at 6` if `rest 0` this a T until to Contract 1 "" 'c' s"" l"" `G6 at 6` ! ~ `G1 at 8` - $ 886425
) $ `G1 at 9` NONE `G1 at 10` ; `G6 at 8` ( `rest 0` ) `G6 at 8` [ `G1 at 10` , `G6 at 8` . `G1 at 10` = `G6 at 8` match - | & == < :+ + * $ 342595
} $ `G1 at 11` ; `G6 at 10` ( [ `rest 0` } `G6 at 10` . `G1 at 11` = `G1 at 15` match `G6 at 10` - | & == < :+ + * $ 112572
END $ `rest 0` CUT NONE ; `rest 1` ( ) [ ] { } , . _ : = => <- if else match case val var while for return this a T until to Contract 1 "" 'c' s"" l"" ! ~ - | & == < :+ + * 'a def @ # $ 437665
$ 62 $ { a ( b ) }
{ $ `G1 at 1` NONE `G1 at 2` ; `G6 at 4` { $ 360446
a $ `G6 at 3` NONE `G6 at 4` ; `G6 at 2` ( `rest 4` } `G1 at 11` if `G1 at 6` val var `G1 at 14` while `G1 at 10` for `G6 at 9` return `G6 at 7` this `G6 at 4` a T `G6 at 8` until `G6 at 5` to `rest 0` Contract `G6 at 4` 1 `G6 at 5` "" `G6 at 6` 'c' s"" `G1 at 6` l"" `G6 at 2` ! ~ `G6 at 4` - $ 614072
( $ `G1 at 5` NONE `G1 at 8` ; `G6 at 4` ( [ `rest 3` } `G6 at 4` . `G1 at 8` = `G1 at 10` match `G6 at 4` - | & == < :+ + * $ 280885
b $ `G6 at 4` CUT NONE ; ( ) [ ] { } , . _ : = => <- if else match case val var while for return this a T until to Contract 1 "" 'c' s"" l"" ! ~ - | & == < :+ + * 'a def @ # $ 702400
) $ `G6 at 4` CUT NONE ; ( ) [ ] { } , . _ : = => <- if else match case val var while for return this a T until to Contract 1 "" 'c' s"" l"" ! ~ - | & == < :+ + * 'a def @ # $ 702400
} $ `G6 at 4` CUT NONE ; ( ) [ ] { } , . _ : = => <- if else match case val var while for return this a T until to Contract 1 "" 'c' s"" l"" ! ~ - | & == < :+ + * 'a def @ # $ 702400
END $ `G6 at 4` CUT NONE ; ( ) [ ] { } , . _ : = => <- if else match case val var while for return this a T until to Contract 1 "" 'c' s"" l"" ! ~ - | & == < :+ + * 'a def @ # $ 702400
"#;
