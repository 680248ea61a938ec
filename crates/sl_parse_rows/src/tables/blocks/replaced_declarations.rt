// Blocks with each token replaced.

/// An empty block, declarations, assignments, `if`s and loops.
pub const REPLACED: &[u8] = br#"
$ 0 $ { }
{ $ `G1 at 1` NONE `G1 at 2` ; `rest 0` { $ 440616
} $ `G1 at 3` ; ( `rest 0` } `G1 at 4` if `G1 at 5` val var `G1 at 7` while `G1 at 5` for `G1 at 8` return `G1 at 6` this `G1 at 3` a T `G1 at 7` until `G1 at 4` to `G1 at 10` Contract `G1 at 3` 1 `G1 at 4` "" `G1 at 5` 'c' s"" l"" `G1 at 3` ! ~ - $ 902902
END $ `rest 0` CUT NONE ; `rest 1` ( ) [ ] { } , . _ : = => <- if else match case val var while for return this a T until to Contract 1 "" 'c' s"" l"" ! ~ - | & == < :+ + * 'a def @ # $ 552353
$ 0 $ { val a : b [ c ] = d ; e ( f ) }
{ $ `G1 at 1` NONE `G1 at 2` ; `rest 0` { $ 92298
val $ `G1 at 5` NONE `G1 at 6` ; ( `rest 14` } `G1 at 5` if `rest 0` val var `G1 at 8` while `G1 at 6` for `G1 at 11` return `G1 at 7` this `G1 at 4` a T `G1 at 8` until `G1 at 5` to `G1 at 11` Contract `G1 at 4` 1 `G1 at 5` "" `G1 at 6` 'c' s"" l"" ! ~ - $ 801637
a $ `G1 at 7` NONE `G1 at 8` ; `rest 0` a T until to Contract $ 413650
: $ `G1 at 9` NONE `G1 at 7` ; `rest 0` : `G1 at 18` = $ 338640
b $ `G1 at 11` NONE `G1 at 12` ; `rest 0` a T until to Contract $ 941890
[ $ `G1 at 13` NONE `G1 at 11` ; `rest 0` [ `G1 at 16` . = $ 881328
c $ `G1 at 15` NONE `G1 at 16` ; `rest 0` a T until to Contract $ 626098
] $ `G1 at 17` NONE `G1 at 18` ; [ `rest 0` ] `G1 at 18` , . $ 37301
= $ `G1 at 19` NONE `G1 at 17` ; `rest 0` = $ 266510
d $ `rest 0` NONE ; `G1 at 32` ( `G1 at 25` if `rest 0` this a T until to Contract 1 "" 'c' s"" l"" ! ~ - $ 702708
; $ `G1 at 23` NONE `rest 0` ; `G1 at 32` ( `G1 at 26` [ `rest 5` } `rest 0` . `G1 at 28` match `rest 0` - | & == < :+ + * $ 463539
e $ `rest 0` NONE ; `G1 at 32` ( `G1 at 26` [ `rest 4` } `G1 at 26` . `G1 at 33` if `G1 at 30` match `G1 at 28` val var `G1 at 36` while `G1 at 32` for `rest 0` return this a T until to Contract 1 "" 'c' s"" `G1 at 28` l"" `rest 0` ! ~ - $ 537099
( $ `G1 at 27` NONE `G1 at 30` ; `rest 0` ( `G1 at 30` [ `rest 3` } `G1 at 30` . = `G1 at 32` match `G1 at 30` - | & `G1 at 31` == `G1 at 30` < `G1 at 31` :+ `G1 at 30` + * $ 759041
f $ `rest 0` NONE ; `G1 at 30` ( ) `G1 at 31` if `rest 0` this a T until to Contract 1 "" 'c' s"" l"" `G1 at 30` ! ~ - $ 626797
) $ `G1 at 31` NONE `G1 at 32` ; ( `rest 0` ) `G1 at 32` [ , . = `G1 at 36` match `G1 at 32` - | & `G1 at 33` == `G1 at 32` < `G1 at 33` :+ `G1 at 32` + * $ 949897
} $ `G1 at 33` ; ( [ `rest 0` } `G1 at 33` . = `G1 at 37` match `G1 at 33` - | & `G1 at 34` == `G1 at 33` < `G1 at 34` :+ `G1 at 33` + * $ 111770
END $ `rest 0` CUT NONE ; `rest 1` ( ) [ ] { } , . _ : = => <- if else match case val var while for return this a T until to Contract 1 "" 'c' s"" l"" ! ~ - | & == < :+ + * 'a def @ # $ 838351
$ 0 $ { a . b = c ; d }
{ $ `G1 at 1` NONE `G1 at 2` ; `rest 0` { $ 712671
a $ `G1 at 3` NONE `G1 at 4` ; ( `rest 7` } `G1 at 5` if `G1 at 6` val var `G1 at 8` while `G1 at 6` for `G1 at 9` return `rest 0` this a T until to Contract 1 "" 'c' s"" `G1 at 6` l"" `G1 at 4` ! ~ - $ 814923
. $ `G1 at 5` NONE `rest 0` ; `G1 at 14` ( `G1 at 8` [ `rest 6` } `rest 0` . `G1 at 8` = `G1 at 10` match `rest 0` - | & == < :+ + * $ 491896
b $ `G1 at 7` NONE `G1 at 8` ; `rest 0` a T until to Contract $ 723071
= $ `G1 at 9` NONE `rest 0` ; `G1 at 14` ( [ `rest 4` } `rest 0` . = `G1 at 14` match `rest 0` - | & == < :+ + * $ 378660
c $ `rest 0` NONE ; `G1 at 16` ( `G1 at 15` if `rest 0` this a T until to Contract 1 "" 'c' s"" l"" ! ~ - $ 447958
; $ `G1 at 13` NONE `rest 0` ; `G1 at 16` ( [ `rest 2` } `rest 0` . `G1 at 18` match `rest 0` - | & == < :+ + * $ 81104
d $ `rest 0` NONE ; `G1 at 16` ( [ `rest 1` } `G1 at 16` . `G1 at 17` if `G1 at 20` match `G1 at 18` val var `G1 at 20` while `G1 at 18` for `rest 0` return this a T until to Contract 1 "" 'c' s"" l"" `G1 at 16` ! ~ - $ 631717
} $ `G1 at 17` ; ( [ `rest 0` } `G1 at 17` . = `G1 at 21` match `G1 at 17` - | & `G1 at 18` == `G1 at 17` < `G1 at 18` :+ `G1 at 17` + * $ 966392
END $ `rest 0` CUT NONE ; `rest 1` ( ) [ ] { } , . _ : = => <- if else match case val var while for return this a T until to Contract 1 "" 'c' s"" l"" ! ~ - | & == < :+ + * 'a def @ # $ 692289
$ 0 $ { if ( a ) { b } else if ( c ) { } else { d } }
{ $ `G1 at 1` NONE `G1 at 2` ; `rest 0` { $ 984284
if $ `G1 at 9` NONE `G1 at 10` ; ( `rest 18` } `rest 0` if `G1 at 6` val var `G1 at 20` while `G1 at 10` for `G1 at 15` return `G1 at 13` this `G1 at 10` a T `G1 at 14` until `G1 at 11` to `G1 at 17` Contract `G1 at 10` 1 `G1 at 11` "" `G1 at 12` 'c' s"" `G1 at 6` l"" `G1 at 10` ! ~ - $ 381174
( $ `G1 at 6` NONE `G1 at 7` ; `rest 0` ( $ 812129
a $ `G1 at 8` NONE `G1 at 9` ; ( `G1 at 10` if `rest 0` this a T until to Contract 1 "" 'c' s"" l"" `G1 at 9` ! ~ - $ 339630
) $ `G1 at 10` NONE `G1 at 11` ; ( `rest 0` ) `G1 at 11` [ . `G1 at 17` match `G1 at 11` - | & `G1 at 12` == `G1 at 11` < `G1 at 12` :+ `G1 at 11` + * $ 378355
{ $ `G1 at 14` NONE `G1 at 10` ; `G1 at 15` ( `rest 0` { `G1 at 14` if `G1 at 16` this `G1 at 13` a T `G1 at 17` until `G1 at 14` to `G1 at 20` Contract `G1 at 13` 1 `G1 at 14` "" `G1 at 15` 'c' s"" l"" ! ~ - $ 458719
b $ `rest 0` NONE ; `G1 at 15` ( `rest 12` } `G1 at 16` if `G1 at 17` val var `G1 at 19` while `G1 at 17` for `rest 0` return this a T until to Contract 1 "" 'c' s"" l"" `G1 at 15` ! ~ - $ 303517
} $ `G1 at 16` NONE `G1 at 17` ; ( [ `rest 0` } `G1 at 17` . = `G1 at 21` match `G1 at 17` - | & `G1 at 18` == `G1 at 17` < `G1 at 18` :+ `G1 at 17` + * $ 401221
else $ `G1 at 18` NONE `rest 0` ; `rest 11` } `rest 0` else $ 985235
if $ `G1 at 23` NONE `G1 at 24` ; `G1 at 30` { `rest 0` if $ 850377
( $ `G1 at 26` NONE `G1 at 27` ; `rest 0` ( $ 321279
c $ `G1 at 28` NONE `G1 at 29` ; ( `G1 at 30` if `rest 0` this a T until to Contract 1 "" 'c' s"" l"" `G1 at 29` ! ~ - $ 573941
) $ `G1 at 30` NONE `G1 at 31` ; ( `rest 0` ) `G1 at 31` [ . `G1 at 37` match `G1 at 31` - | & `G1 at 32` == `G1 at 31` < `G1 at 32` :+ `G1 at 31` + * $ 324873
{ $ `G1 at 32` NONE `G1 at 33` ; `rest 0` { $ 124330
} $ `G1 at 34` NONE `G1 at 35` ; ( `rest 0` } `G1 at 36` if `G1 at 37` val var `G1 at 39` while `G1 at 37` for `G1 at 40` return `G1 at 38` this `G1 at 35` a T `G1 at 39` until `G1 at 36` to `G1 at 42` Contract `G1 at 35` 1 `G1 at 36` "" `G1 at 37` 'c' s"" l"" `G1 at 35` ! ~ - $ 662918
else $ `G1 at 36` NONE `G1 at 37` ; `rest 4` } `rest 0` else $ 785796
{ $ `G1 at 41` NONE `G1 at 42` ; `rest 0` { `G1 at 43` if $ 321067
d $ `rest 0` NONE ; `G1 at 44` ( `rest 1` } `G1 at 45` if `G1 at 46` val var `G1 at 48` while `G1 at 46` for `rest 0` return this a T until to Contract 1 "" 'c' s"" l"" `G1 at 44` ! ~ - $ 677191
} $ `G1 at 46` NONE `G1 at 47` ; `G1 at 46` ( [ `rest 0` } `G1 at 46` . = `G1 at 50` match `G1 at 46` - | & `G1 at 47` == `G1 at 46` < `G1 at 47` :+ `G1 at 46` + * $ 232931
} $ `G1 at 47` ; `rest 0` } $ 432972
END $ `rest 0` CUT NONE ; `rest 1` ( ) [ ] { } , . _ : = => <- if else match case val var while for return this a T until to Contract 1 "" 'c' s"" l"" ! ~ - | & == < :+ + * 'a def @ # $ 268883
$ 0 $ { if ( a ) b else c = d }
{ $ `G1 at 1` NONE `G1 at 2` ; `rest 0` { $ 879938
if $ `G1 at 9` NONE `G1 at 10` ; ( `rest 9` } `rest 0` if `G1 at 6` val var `G1 at 14` while `G1 at 10` for `G1 at 15` return `G1 at 13` this `G1 at 10` a T `G1 at 14` until `G1 at 11` to `G1 at 17` Contract `G1 at 10` 1 `G1 at 11` "" `G1 at 12` 'c' s"" `G1 at 6` l"" `G1 at 10` ! ~ - $ 189093
( $ `G1 at 6` NONE `G1 at 7` ; `rest 0` ( $ 137799
a $ `G1 at 8` NONE `G1 at 9` ; ( `G1 at 10` if `rest 0` this a T until to Contract 1 "" 'c' s"" l"" `G1 at 9` ! ~ - $ 518537
) $ `G1 at 10` NONE `G1 at 11` ; `G1 at 13` ( `rest 0` ) `G1 at 13` [ . `G1 at 15` match `G1 at 13` - | & `G1 at 14` == `G1 at 13` < `G1 at 14` :+ `G1 at 13` + * $ 793009
b $ `G1 at 12` NONE `G1 at 13` ; ( { `G1 at 14` if `rest 0` this a T until to Contract 1 "" 'c' s"" l"" `G1 at 13` ! ~ - $ 590988
else $ `G1 at 14` NONE `G1 at 12` ; `G1 at 21` ( `G1 at 17` [ . `rest 0` else `G1 at 19` match `G1 at 17` - | & `G1 at 18` == `G1 at 17` < `G1 at 18` :+ `G1 at 17` + * $ 249054
c $ `G1 at 19` NONE `G1 at 20` ; ( `G1 at 21` if `rest 0` this a T until to Contract 1 "" 'c' s"" l"" `G1 at 20` ! ~ - $ 604538
= $ `G1 at 21` NONE `rest 0` ; `G1 at 24` ( [ `rest 2` } `rest 0` . = `G1 at 26` match `rest 0` - | & == < :+ + * $ 308831
d $ `G1 at 23` NONE `G1 at 24` ; ( `G1 at 25` if `rest 0` this a T until to Contract 1 "" 'c' s"" l"" `G1 at 24` ! ~ - $ 791678
} $ `G1 at 25` ; ( [ `rest 0` } `G1 at 25` . `G1 at 29` match `G1 at 25` - | & `G1 at 26` == `G1 at 25` < `G1 at 26` :+ `G1 at 25` + * $ 539140
END $ `rest 0` CUT NONE ; `rest 1` ( ) [ ] { } , . _ : = => <- if else match case val var while for return this a T until to Contract 1 "" 'c' s"" l"" ! ~ - | & == < :+ + * 'a def @ # $ 417023
$ 0 $ { while ( a ) { b } ; c }
{ $ `G1 at 1` NONE `G1 at 2` ; `rest 0` { $ 355348
while $ `G1 at 9` NONE `G1 at 10` ; ( `rest 9` } `rest 0` if `G1 at 6` val var `rest 0` while `G1 at 10` for `G1 at 15` return `G1 at 13` this `G1 at 10` a T `G1 at 14` until `G1 at 11` to `G1 at 17` Contract `G1 at 10` 1 `G1 at 11` "" `G1 at 12` 'c' s"" `G1 at 6` l"" `G1 at 10` ! ~ - $ 529949
( $ `G1 at 9` NONE `G1 at 10` ; `rest 0` ( $ 911665
a $ `G1 at 11` NONE `G1 at 12` ; ( `G1 at 13` if `rest 0` this a T until to Contract 1 "" 'c' s"" l"" `G1 at 12` ! ~ - $ 604886
) $ `G1 at 13` NONE `G1 at 14` ; ( `rest 0` ) `G1 at 14` [ . `G1 at 20` match `G1 at 14` - | & `G1 at 15` == `G1 at 14` < `G1 at 15` :+ `G1 at 14` + * $ 158250
{ $ `G1 at 15` NONE `G1 at 13` ; `rest 0` { $ 758100
b $ `rest 0` NONE ; `G1 at 18` ( `rest 3` } `G1 at 19` if `G1 at 20` val var `G1 at 22` while `G1 at 20` for `rest 0` return this a T until to Contract 1 "" 'c' s"" l"" `G1 at 18` ! ~ - $ 563783
} $ `G1 at 24` NONE `G1 at 25` ; `G1 at 24` ( [ `rest 0` } `G1 at 25` . = `G1 at 26` match `G1 at 25` - | & `G1 at 26` == `G1 at 25` < `G1 at 26` :+ `G1 at 25` + * $ 22332
; $ `G1 at 21` NONE `rest 0` ; `rest 2` } $ 892754
c $ `rest 0` NONE ; `G1 at 24` ( `rest 1` } `G1 at 25` if `G1 at 26` val var `G1 at 28` while `G1 at 26` for `rest 0` return this a T until to Contract 1 "" 'c' s"" l"" `G1 at 24` ! ~ - $ 807121
} $ `G1 at 25` ; ( [ `rest 0` } `G1 at 25` . = `G1 at 29` match `G1 at 25` - | & `G1 at 26` == `G1 at 25` < `G1 at 26` :+ `G1 at 25` + * $ 638103
END $ `rest 0` CUT NONE ; `rest 1` ( ) [ ] { } , . _ : = => <- if else match case val var while for return this a T until to Contract 1 "" 'c' s"" l"" ! ~ - | & == < :+ + * 'a def @ # $ 108803
$ 0 $ { for ( a <- b until c ) { d } }
{ $ `G1 at 1` NONE `G1 at 2` ; `rest 0` { $ 150143
for $ `G1 at 7` NONE `G1 at 8` ; ( `rest 11` } `G1 at 9` if `G1 at 6` val var `G1 at 12` while `rest 0` for `G1 at 13` return `G1 at 11` this `G1 at 8` a T `G1 at 12` until `G1 at 9` to `G1 at 30` Contract `G1 at 8` 1 `G1 at 9` "" `G1 at 10` 'c' s"" `G1 at 6` l"" `G1 at 8` ! ~ - $ 872124
( $ `G1 at 7` NONE `G1 at 8` ; `rest 0` ( $ 400965
a $ `G1 at 9` NONE `G1 at 10` ; `rest 0` a T until to Contract $ 482743
<- $ `G1 at 11` NONE `G1 at 12` ; `rest 0` <- $ 430718
b $ `G1 at 20` NONE `G1 at 21` ; ( `G1 at 16` if `rest 0` this a T until to Contract 1 "" 'c' s"" l"" `G1 at 21` ! ~ - $ 470564
until $ `G1 at 16` NONE `G1 at 17` ; `G1 at 21` ( `G1 at 19` [ . `G1 at 21` match `rest 0` until to `G1 at 19` - | & `G1 at 20` == `G1 at 19` < `G1 at 20` :+ `G1 at 19` + * $ 815658
c $ `G1 at 22` NONE `G1 at 23` ; ( `G1 at 24` if `rest 0` this a T until to Contract 1 "" 'c' s"" l"" `G1 at 23` ! ~ - $ 615459
) $ `G1 at 24` NONE `G1 at 25` ; ( `rest 0` ) `G1 at 25` [ . `G1 at 31` match `G1 at 25` - | & `G1 at 26` == `G1 at 25` < `G1 at 26` :+ `G1 at 25` + * $ 662453
{ $ `G1 at 26` NONE `G1 at 24` ; `rest 0` { $ 439775
d $ `rest 0` NONE ; `G1 at 29` ( `rest 1` } `G1 at 30` if `G1 at 31` val var `G1 at 33` while `G1 at 31` for `rest 0` return this a T until to Contract 1 "" 'c' s"" l"" `G1 at 29` ! ~ - $ 25166
} $ `G1 at 31` NONE `G1 at 32` ; `G1 at 31` ( [ `rest 0` } `G1 at 31` . = `G1 at 35` match `G1 at 31` - | & `G1 at 32` == `G1 at 31` < `G1 at 32` :+ `G1 at 31` + * $ 864451
} $ `G1 at 32` ; `rest 0` } $ 369675
END $ `rest 0` CUT NONE ; `rest 1` ( ) [ ] { } , . _ : = => <- if else match case val var while for return this a T until to Contract 1 "" 'c' s"" l"" ! ~ - | & == < :+ + * 'a def @ # $ 387561
"#;
