// Blocks with each token replaced.

/// `return`s, statements that are skipped and what begins as they do, and matches.
pub const REPLACED: &[u8] = br#"
$ 0 $ { return ; return a + 1 }
{ $ `G1 at 1` NONE `G1 at 2` ; `rest 0` { $ 778312
return $ `rest 0` NONE ; `G1 at 6` ( `rest 6` } `G1 at 7` if `G1 at 8` val var `G1 at 10` while `G1 at 8` for `rest 0` return this a T until to Contract 1 "" 'c' s"" l"" `G1 at 6` ! ~ - $ 145367
; $ `G1 at 10` NONE `rest 0` ; `G1 at 11` ( `rest 5` } `G1 at 12` if `G1 at 14` this `G1 at 11` a T `G1 at 15` until `G1 at 12` to `G1 at 18` Contract `G1 at 11` 1 `G1 at 12` "" `G1 at 13` 'c' s"" l"" `G1 at 11` ! ~ - $ 558856
return $ `rest 0` NONE ; `G1 at 19` ( `rest 4` } `G1 at 14` if `G1 at 17` val var while `G1 at 15` for `rest 0` return `G1 at 16` this `G1 at 13` a T `G1 at 17` until `G1 at 14` to `G1 at 20` Contract `G1 at 13` 1 `G1 at 14` "" `G1 at 15` 'c' s"" l"" `rest 0` ! ~ - $ 41497
a $ `G1 at 19` NONE `G1 at 20` ; ( `rest 3` } `G1 at 21` if `rest 0` this a T until to Contract 1 "" 'c' s"" l"" `G1 at 20` ! ~ - $ 64395
+ $ `G1 at 21` NONE `rest 0` ; `G1 at 24` ( `G1 at 22` [ `rest 2` } `G1 at 22` . `G1 at 26` match `rest 0` - | & == < :+ + * $ 977342
1 $ `G1 at 23` NONE `G1 at 24` ; ( `rest 0` this a T until to Contract 1 "" 'c' s"" l"" `G1 at 24` ! ~ - $ 23202
} $ `G1 at 25` ; ( [ `rest 0` } `G1 at 25` . `G1 at 29` match `G1 at 25` - | & `G1 at 26` == `G1 at 25` < `G1 at 26` :+ `G1 at 25` + * $ 860938
END $ `rest 0` CUT NONE ; `rest 1` ( ) [ ] { } , . _ : = => <- if else match case val var while for return this a T until to Contract 1 "" 'c' s"" l"" ! ~ - | & == < :+ + * 'a def @ # $ 626219
$ 0 $ { Contract ( a , [ b ] { c } ) ; d }
{ $ `G1 at 1` NONE `G1 at 2` ; `rest 0` { $ 307180
Contract $ `G1 at 7` NONE `G1 at 8` ; ( `rest 13` } `G1 at 9` if `G1 at 6` val var `G1 at 12` while `G1 at 10` for `G1 at 13` return this `G1 at 10` a T `G1 at 14` until `G1 at 11` to `rest 0` Contract `G1 at 10` 1 `G1 at 11` "" `G1 at 12` 'c' s"" `G1 at 6` l"" `G1 at 8` ! ~ - $ 616626
( $ `G1 at 12` NONE `G1 at 15` ; `rest 0` ( `G1 at 17` [ `rest 12` } `G1 at 15` . = `G1 at 17` match `G1 at 15` - | & `G1 at 16` == `G1 at 15` < `G1 at 16` :+ `G1 at 15` + * $ 42173
a $ `rest 0` NONE ; `G1 at 35` ( `G1 at 15` ) `G1 at 29` [ { `rest 0` , . _ : = => <- if else match case val var while for return this a T until to Contract 1 "" 'c' s"" l"" ! ~ - | & == < :+ + * 'a def @ # $ 81988
, $ `rest 0` NONE ; `G1 at 35` ( `G1 at 17` ) `G1 at 29` [ { `rest 0` , . _ : = => <- if else match case val var while for return this a T until to Contract 1 "" 'c' s"" l"" ! ~ - | & == < :+ + * 'a def @ # $ 820080
[ $ `G1 at 20` NONE `G1 at 21` ; ( `G1 at 19` ) `rest 0` [ `G1 at 21` { , . _ : = `G1 at 22` => <- if `G1 at 24` else `G1 at 25` match `G1 at 24` case `G1 at 23` val var `G1 at 25` while `G1 at 23` for `G1 at 26` return `G1 at 24` this `G1 at 21` a T `G1 at 25` until `G1 at 22` to `G1 at 28` Contract `G1 at 21` 1 `G1 at 22` "" `G1 at 23` 'c' s"" l"" `G1 at 21` ! ~ - | & `G1 at 22` == `G1 at 21` < `G1 at 22` :+ `G1 at 21` + * `G1 at 22` 'a `G1 at 23` def `G1 at 21` @ # $ 938934
b $ `rest 0` NONE ; `G1 at 21` ( `G1 at 29` [ `G1 at 21` ] { `rest 0` , . _ : = => <- if else match case val var while for return this a T until to Contract 1 "" 'c' s"" l"" ! ~ - | & == < :+ + * 'a def @ # $ 458927
] $ `G1 at 28` NONE `G1 at 29` ; `G1 at 35` ( `G1 at 29` [ `rest 0` ] `G1 at 29` { , . _ : = `G1 at 30` => <- if `G1 at 32` else `G1 at 33` match `G1 at 32` case `G1 at 31` val var `G1 at 33` while `G1 at 31` for `G1 at 34` return `G1 at 32` this `G1 at 29` a T `G1 at 33` until `G1 at 30` to `G1 at 36` Contract `G1 at 29` 1 `G1 at 30` "" `G1 at 31` 'c' s"" l"" `G1 at 29` ! ~ - | & `G1 at 30` == `G1 at 29` < `G1 at 30` :+ `G1 at 29` + * `G1 at 30` 'a `G1 at 31` def `G1 at 29` @ # $ 308644
{ $ `G1 at 26` NONE `G1 at 27` ; ( `G1 at 25` ) `G1 at 27` [ `rest 0` { `G1 at 27` , . _ : = `G1 at 28` => <- if `G1 at 30` else `G1 at 31` match `G1 at 30` case `G1 at 29` val var `G1 at 31` while `G1 at 29` for `G1 at 32` return `G1 at 30` this `G1 at 27` a T `G1 at 31` until `G1 at 28` to `G1 at 34` Contract `G1 at 27` 1 `G1 at 28` "" `G1 at 29` 'c' s"" l"" `G1 at 27` ! ~ - | & `G1 at 28` == `G1 at 27` < `G1 at 28` :+ `G1 at 27` + * `G1 at 28` 'a `G1 at 29` def `G1 at 27` @ # $ 286496
c $ `rest 0` NONE ; `G1 at 27` ( [ `G1 at 29` { `G1 at 27` } `rest 0` , . _ : = => <- if else match case val var while for return this a T until to Contract 1 "" 'c' s"" l"" ! ~ - | & == < :+ + * 'a def @ # $ 588443
} $ `G1 at 28` NONE `G1 at 29` ; `G1 at 36` ( `G1 at 29` [ { `rest 0` } `G1 at 29` , . _ : = `G1 at 30` => <- if `G1 at 32` else `G1 at 33` match `G1 at 32` case `G1 at 31` val var `G1 at 33` while `G1 at 31` for `G1 at 34` return `G1 at 32` this `G1 at 29` a T `G1 at 33` until `G1 at 30` to `G1 at 36` Contract `G1 at 29` 1 `G1 at 30` "" `G1 at 31` 'c' s"" l"" `G1 at 29` ! ~ - | & `G1 at 30` == `G1 at 29` < `G1 at 30` :+ `G1 at 29` + * `G1 at 30` 'a `G1 at 31` def `G1 at 29` @ # $ 245961
) $ `G1 at 34` NONE `G1 at 35` ; ( `rest 0` ) `G1 at 35` [ `G1 at 36` { `G1 at 35` , . _ : = `G1 at 36` => <- if `G1 at 38` else `G1 at 39` match `G1 at 38` case `G1 at 37` val var `G1 at 39` while `G1 at 37` for `G1 at 40` return `G1 at 38` this `G1 at 35` a T `G1 at 39` until `G1 at 36` to `G1 at 42` Contract `G1 at 35` 1 `G1 at 36` "" `G1 at 37` 'c' s"" l"" `G1 at 35` ! ~ - | & `G1 at 36` == `G1 at 35` < `G1 at 36` :+ `G1 at 35` + * `G1 at 36` 'a `G1 at 37` def `G1 at 35` @ # $ 842095
; $ `G1 at 32` NONE `rest 0` ; `rest 2` } $ 690765
d $ `rest 0` NONE ; `G1 at 35` ( `rest 1` } `G1 at 36` if `G1 at 37` val var `G1 at 39` while `G1 at 37` for `rest 0` return this a T until to Contract 1 "" 'c' s"" l"" `G1 at 35` ! ~ - $ 666382
} $ `G1 at 36` ; ( [ `rest 0` } `G1 at 36` . = `G1 at 40` match `G1 at 36` - | & `G1 at 37` == `G1 at 36` < `G1 at 37` :+ `G1 at 36` + * $ 314530
END $ `rest 0` CUT NONE ; `rest 1` ( ) [ ] { } , . _ : = => <- if else match case val var while for return this a T until to Contract 1 "" 'c' s"" l"" ! ~ - | & == < :+ + * 'a def @ # $ 371105
$ 0 $ { Contract . a ( b ) }
{ $ `G1 at 1` NONE `G1 at 2` ; `rest 0` { $ 775601
Contract $ `G1 at 3` NONE `G1 at 4` ; ( `rest 6` } `G1 at 5` if `G1 at 6` val var `G1 at 8` while `G1 at 6` for `G1 at 9` return `rest 0` this a T until to Contract 1 "" 'c' s"" `G1 at 6` l"" `G1 at 4` ! ~ - $ 649532
. $ `G1 at 12` NONE `rest 0` ; `G1 at 21` ( `G1 at 15` [ `rest 5` } `rest 0` . = `G1 at 17` match `rest 0` - | & == < :+ + * $ 919408
a $ `G1 at 14` NONE `G1 at 15` ; `rest 0` a T until to Contract $ 871271
( $ `G1 at 16` NONE `G1 at 19` ; `rest 0` ( `G1 at 19` [ `rest 3` } `G1 at 19` . = `G1 at 21` match `G1 at 19` - | & `G1 at 20` == `G1 at 19` < `G1 at 20` :+ `G1 at 19` + * $ 2239
b $ `rest 0` NONE ; `G1 at 19` ( ) `G1 at 20` if `rest 0` this a T until to Contract 1 "" 'c' s"" l"" `G1 at 19` ! ~ - $ 77581
) $ `G1 at 20` NONE `G1 at 21` ; ( `rest 0` ) `G1 at 21` [ , . = `G1 at 25` match `G1 at 21` - | & `G1 at 22` == `G1 at 21` < `G1 at 22` :+ `G1 at 21` + * $ 743195
} $ `G1 at 22` ; ( [ `rest 0` } `G1 at 22` . = `G1 at 26` match `G1 at 22` - | & `G1 at 23` == `G1 at 22` < `G1 at 23` :+ `G1 at 22` + * $ 865185
END $ `rest 0` CUT NONE ; `rest 1` ( ) [ ] { } , . _ : = => <- if else match case val var while for return this a T until to Contract 1 "" 'c' s"" l"" ! ~ - | & == < :+ + * 'a def @ # $ 999597
$ 0 $ { l"a" ; s"b" + c }
{ $ `G1 at 1` NONE `G1 at 2` ; `rest 0` { $ 703626
l"a" $ `rest 0` NONE ; `G1 at 15` ( `rest 5` } `G1 at 7` if `G1 at 8` val var `G1 at 10` while `G1 at 8` for `rest 0` return this a T until to Contract 1 "" 'c' s"" l"" ! ~ - $ 636197
; $ `G1 at 8` NONE `rest 0` ; `rest 4` } $ 579500
s"b" $ `G1 at 10` NONE `G1 at 11` ; ( `rest 3` } `G1 at 12` if `G1 at 13` val var `G1 at 15` while `G1 at 13` for `G1 at 16` return `rest 0` this a T until to Contract 1 "" 'c' s"" `G1 at 13` l"" `G1 at 11` ! ~ - $ 942976
+ $ `G1 at 15` NONE `rest 0` ; `G1 at 18` ( [ `rest 2` } `rest 0` . = `G1 at 20` match `rest 0` - | & == < :+ + * $ 731817
c $ `G1 at 17` NONE `G1 at 18` ; ( `rest 0` this a T until to Contract 1 "" 'c' s"" l"" `G1 at 18` ! ~ - $ 341098
} $ `G1 at 19` ; ( [ `rest 0` } `G1 at 19` . = `G1 at 23` match `G1 at 19` - | & `G1 at 20` == `G1 at 19` < `G1 at 20` :+ `G1 at 19` + * $ 306191
END $ `rest 0` CUT NONE ; `rest 1` ( ) [ ] { } , . _ : = => <- if else match case val var while for return this a T until to Contract 1 "" 'c' s"" l"" ! ~ - | & == < :+ + * 'a def @ # $ 644129
$ 0 $ { a match { case b => c } = d }
{ $ `G1 at 1` NONE `G1 at 2` ; `rest 0` { $ 140633
a $ `G1 at 3` NONE `G1 at 4` ; ( `rest 10` } `G1 at 5` if `G1 at 6` val var `G1 at 8` while `G1 at 6` for `G1 at 9` return `rest 0` this a T until to Contract 1 "" 'c' s"" `G1 at 6` l"" `G1 at 4` ! ~ - $ 858414
match $ `G1 at 5` NONE `G1 at 6` ; ( [ `rest 9` } `G1 at 6` . = `rest 0` match `G1 at 6` - | & `G1 at 7` == `G1 at 6` < `G1 at 7` :+ `G1 at 6` + * $ 745613
{ $ `G1 at 11` NONE `G1 at 12` ; `rest 0` { $ 532504
case $ `G1 at 13` NONE `G1 at 14` ; `rest 0` case $ 28538
b $ `G1 at 18` NONE `G1 at 19` ; `rest 0` _ a T until to Contract 1 "" 'c' s"" l"" `G1 at 19` - $ 212852
=> $ `G1 at 20` NONE `G1 at 21` ; `G1 at 23` ( . : `rest 0` => `G1 at 24` if $ 877152
c $ `rest 0` NONE ; `G1 at 24` ( `rest 3` } `G1 at 25` if `G1 at 27` case `G1 at 26` val var `G1 at 28` while `G1 at 26` for `rest 0` return this a T until to Contract 1 "" 'c' s"" l"" `G1 at 24` ! ~ - $ 58882
} $ `G1 at 30` NONE `G1 at 31` ; `G1 at 26` ( [ `rest 0` } `G1 at 26` . = `G1 at 30` match `G1 at 29` case `G1 at 26` - | & `G1 at 27` == `G1 at 26` < `G1 at 27` :+ `G1 at 26` + * $ 613817
= $ `G1 at 27` NONE `rest 0` ; `rest 2` } `rest 0` = $ 615381
d $ `G1 at 29` NONE `G1 at 30` ; ( `G1 at 31` if `rest 0` this a T until to Contract 1 "" 'c' s"" l"" `G1 at 30` ! ~ - $ 304141
} $ `G1 at 31` ; ( [ `rest 0` } `G1 at 31` . `G1 at 35` match `G1 at 31` - | & `G1 at 32` == `G1 at 31` < `G1 at 32` :+ `G1 at 31` + * $ 887814
END $ `rest 0` CUT NONE ; `rest 1` ( ) [ ] { } , . _ : = => <- if else match case val var while for return this a T until to Contract 1 "" 'c' s"" l"" ! ~ - | & == < :+ + * 'a def @ # $ 332093
$ 0 $ { a + b match { case c => return case d => } ; e }
{ $ `G1 at 1` NONE `G1 at 2` ; `rest 0` { $ 961570
a $ `G1 at 3` NONE `G1 at 4` ; ( `rest 15` } `G1 at 5` if `G1 at 6` val var `G1 at 8` while `G1 at 6` for `G1 at 9` return `rest 0` this a T until to Contract 1 "" 'c' s"" `G1 at 6` l"" `G1 at 4` ! ~ - $ 157870
+ $ `G1 at 5` NONE `rest 0` ; `G1 at 47` ( `G1 at 8` [ `rest 14` } `rest 0` . = `G1 at 10` match `rest 0` - | & == < :+ + * $ 905166
b $ `G1 at 7` NONE `G1 at 8` ; ( `rest 0` this a T until to Contract 1 "" 'c' s"" l"" `G1 at 8` ! ~ - $ 809556
match $ `G1 at 9` NONE `G1 at 10` ; ( [ `rest 12` } `G1 at 10` . = `rest 0` match `G1 at 10` - | & `G1 at 11` == `G1 at 10` < `G1 at 11` :+ `G1 at 10` + * $ 727983
{ $ `G1 at 15` NONE `G1 at 16` ; `rest 0` { $ 133767
case $ `G1 at 17` NONE `G1 at 18` ; `rest 0` case $ 964141
c $ `G1 at 22` NONE `G1 at 23` ; `rest 0` _ a T until to Contract 1 "" 'c' s"" l"" `G1 at 23` - $ 426676
=> $ `G1 at 24` NONE `G1 at 25` ; ( . : `rest 0` => `G1 at 26` if $ 745998
return $ `rest 0` NONE ; `G1 at 28` ( } `G1 at 29` if `G1 at 31` case `G1 at 30` val var `G1 at 32` while `G1 at 30` for `rest 0` return this a T until to Contract 1 "" 'c' s"" l"" `G1 at 28` ! ~ - $ 309186
case $ `G1 at 36` NONE `G1 at 37` ; ( `G1 at 35` } `G1 at 36` if `rest 0` case `G1 at 38` this `G1 at 35` a T `G1 at 39` until `G1 at 36` to `G1 at 42` Contract `G1 at 35` 1 `G1 at 36` "" `G1 at 37` 'c' s"" l"" ! ~ - $ 912566
d $ `G1 at 39` NONE `G1 at 40` ; `rest 0` _ a T until to Contract 1 "" 'c' s"" l"" `G1 at 40` - $ 748626
=> $ `G1 at 41` NONE `G1 at 42` ; ( . : `rest 0` => `G1 at 43` if $ 702501
} $ `G1 at 49` NONE `G1 at 50` ; `G1 at 49` ( `rest 0` } `G1 at 48` if `G1 at 52` case `G1 at 51` val var while `G1 at 49` for `G1 at 55` return `G1 at 53` this `G1 at 50` a T `G1 at 54` until `G1 at 51` to `G1 at 57` Contract `G1 at 50` 1 `G1 at 51` "" `G1 at 52` 'c' s"" l"" `G1 at 50` ! ~ - $ 50025
; $ `G1 at 46` NONE `rest 0` ; `rest 2` } `rest 0` = $ 91022
e $ `rest 0` NONE ; `G1 at 49` ( `rest 1` } `G1 at 49` = `G1 at 50` if `G1 at 51` val var `G1 at 53` while `G1 at 51` for `rest 0` return this a T until to Contract 1 "" 'c' s"" l"" `G1 at 49` ! ~ - $ 436273
} $ `G1 at 50` ; ( [ `rest 0` } `G1 at 50` . = `G1 at 54` match `G1 at 50` - | & `G1 at 51` == `G1 at 50` < `G1 at 51` :+ `G1 at 50` + * $ 123214
END $ `rest 0` CUT NONE ; `rest 1` ( ) [ ] { } , . _ : = => <- if else match case val var while for return this a T until to Contract 1 "" 'c' s"" l"" ! ~ - | & == < :+ + * 'a def @ # $ 671777
$ 0 $ { Invariant + a = - 1 }
{ $ `G1 at 1` NONE `G1 at 2` ; `rest 0` { $ 297306
Invariant $ `G1 at 3` NONE `G1 at 4` ; ( `rest 6` } `G1 at 5` if `G1 at 6` val var `G1 at 8` while `G1 at 6` for `G1 at 9` return `rest 0` this a T until to Contract 1 "" 'c' s"" `G1 at 6` l"" `G1 at 4` ! ~ - $ 954669
+ $ `G1 at 13` NONE `rest 0` ; `G1 at 22` ( `G1 at 16` [ `rest 5` } `rest 0` . `G1 at 16` = `G1 at 18` match `rest 0` - | & == < :+ + * $ 777037
a $ `G1 at 15` NONE `G1 at 16` ; ( `rest 0` this a T until to Contract 1 "" 'c' s"" l"" `G1 at 16` ! ~ - $ 710907
= $ `rest 0` NONE ; `G1 at 22` ( `G1 at 18` [ `rest 3` } `G1 at 18` . `rest 0` = `G1 at 22` match `rest 0` - | & == < :+ + * $ 119372
- $ `rest 0` NONE ; `G1 at 22` ( `G1 at 21` if `G1 at 23` this `G1 at 20` a T `G1 at 24` until `G1 at 21` to `G1 at 27` Contract `G1 at 20` 1 `G1 at 21` "" `G1 at 22` 'c' s"" l"" `rest 0` ! ~ - $ 172017
1 $ `G1 at 21` NONE `G1 at 22` ; ( `rest 0` this a T until to Contract 1 "" 'c' s"" l"" $ 163831
} $ `G1 at 23` ; ( [ `rest 0` } `G1 at 23` . `G1 at 27` match `G1 at 23` - | & `G1 at 24` == `G1 at 23` < `G1 at 24` :+ `G1 at 23` + * $ 428376
END $ `rest 0` CUT NONE ; `rest 1` ( ) [ ] { } , . _ : = => <- if else match case val var while for return this a T until to Contract 1 "" 'c' s"" l"" ! ~ - | & == < :+ + * 'a def @ # $ 567649
"#;
