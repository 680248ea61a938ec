// Expressions with each token replaced.

/// Matches with patterns and guards, and arguments that are matches or `if`s.
pub const REPLACED: &[u8] = br#"
$ 0 $ a match { case b => c case d => }
a $ `G1 at 1` NONE `G1 at 2` ; ( `G1 at 3` if `rest 0` this a T until to Contract 1 "" 'c' s"" l"" `G1 at 2` ! ~ - $ 683603
match $ `rest 0` CUT `rest 9` NONE ; `G1 at 4` ( `rest 10` ) `G1 at 4` [ `rest 10` ] { } , `G1 at 4` . `rest 10` _ : = => <- if else `rest 0` match `rest 10` case val var while for return this a T until to Contract 1 "" 'c' s"" l"" ! ~ `G1 at 4` - | & `G1 at 5` == `G1 at 4` < `G1 at 5` :+ `G1 at 4` + * `rest 10` 'a def @ # $ 271161
{ $ `G1 at 9` NONE `G1 at 10` ; `rest 0` { $ 652720
case $ `G1 at 11` NONE `G1 at 12` ; `rest 0` case $ 878326
b $ `G1 at 16` NONE `G1 at 17` ; `rest 0` _ a T until to Contract 1 "" 'c' s"" l"" `G1 at 17` - $ 448656
=> $ `G1 at 18` NONE `G1 at 19` ; `G1 at 21` ( . : `rest 0` => `G1 at 22` if $ 615380
c $ `rest 0` NONE ; `G1 at 22` ( `rest 4` } `G1 at 23` if `G1 at 25` case `G1 at 24` val var `G1 at 26` while `G1 at 24` for `rest 0` return this a T until to Contract 1 "" 'c' s"" l"" `G1 at 22` ! ~ - $ 363914
case $ `G1 at 23` NONE `G1 at 26` ; ( [ `rest 3` } `G1 at 26` . = `G1 at 28` match `rest 0` case `G1 at 26` - | & `G1 at 27` == `G1 at 26` < `G1 at 27` :+ `G1 at 26` + * $ 43701
d $ `G1 at 28` NONE `G1 at 29` ; `rest 0` _ a T until to Contract 1 "" 'c' s"" l"" `G1 at 29` - $ 943399
=> $ `G1 at 30` NONE `G1 at 31` ; ( . : `rest 0` => `G1 at 32` if $ 508963
} $ `G1 at 33` ; ( `rest 0` } `G1 at 34` if `G1 at 36` case `G1 at 35` val var `G1 at 37` while `G1 at 35` for `G1 at 38` return `G1 at 36` this `G1 at 33` a T `G1 at 37` until `G1 at 34` to `G1 at 40` Contract `G1 at 33` 1 `G1 at 34` "" `G1 at 35` 'c' s"" l"" `G1 at 33` ! ~ - $ 107534
END $ `rest 0` CUT NONE ; `rest 1` ( ) [ ] { } , . _ : = => <- if else match case val var while for return this a T until to Contract 1 "" 'c' s"" l"" ! ~ - | & == < :+ + * 'a def @ # $ 640321
$ 0 $ a match { case b if c => d ; e = f }
a $ `G1 at 1` NONE `G1 at 2` ; ( `G1 at 3` if `rest 0` this a T until to Contract 1 "" 'c' s"" l"" `G1 at 2` ! ~ - $ 562791
match $ `rest 0` CUT `rest 12` NONE ; `G1 at 4` ( `rest 13` ) `G1 at 4` [ `rest 13` ] { } , `G1 at 4` . `rest 13` _ : = => <- if else `rest 0` match `rest 13` case val var while for return this a T until to Contract 1 "" 'c' s"" l"" ! ~ `G1 at 4` - | & `G1 at 5` == `G1 at 4` < `G1 at 5` :+ `G1 at 4` + * `rest 13` 'a def @ # $ 111459
{ $ `G1 at 9` NONE `G1 at 10` ; `rest 0` { $ 300971
case $ `G1 at 11` NONE `G1 at 12` ; `rest 0` case $ 890957
b $ `G1 at 16` NONE `G1 at 17` ; `rest 0` _ a T until to Contract 1 "" 'c' s"" l"" `G1 at 17` - $ 214096
if $ `G1 at 18` NONE `G1 at 19` ; `G1 at 21` ( `rest 0` . : `G1 at 22` => `rest 0` if $ 406387
c $ `G1 at 21` NONE `G1 at 22` ; ( `G1 at 23` if `rest 0` this a T until to Contract 1 "" 'c' s"" l"" `G1 at 22` ! ~ - $ 675842
=> $ `G1 at 23` NONE `G1 at 24` ; `G1 at 28` ( [ . `rest 0` => `G1 at 28` match - | & `G1 at 29` == `G1 at 28` < `G1 at 29` :+ `G1 at 28` + * $ 363048
d $ `rest 0` NONE ; `G1 at 31` ( `rest 5` } `G1 at 30` if `G1 at 34` case `rest 0` val var `G1 at 33` while `G1 at 31` for `rest 0` return this a T until to Contract 1 "" 'c' s"" l"" ! ~ - $ 227444
; $ `G1 at 28` NONE `rest 0` ; `G1 at 35` ( `G1 at 31` [ `rest 4` } `rest 0` . `G1 at 31` = `G1 at 33` match `G1 at 34` case `rest 0` - | & == < :+ + * $ 518145
e $ `rest 0` NONE ; `G1 at 31` ( [ `rest 3` } `G1 at 31` . = `G1 at 32` if `G1 at 35` match `G1 at 34` case `G1 at 33` val var `G1 at 35` while `G1 at 33` for `G1 at 36` return `rest 0` this a T until to Contract 1 "" 'c' s"" `G1 at 33` l"" `G1 at 31` ! ~ - $ 848790
= $ `G1 at 32` NONE `rest 0` ; `G1 at 35` ( [ `rest 2` } `rest 0` . = `G1 at 37` match `G1 at 38` case `rest 0` - | & == < :+ + * $ 176443
f $ `G1 at 34` NONE `G1 at 35` ; ( `G1 at 36` if `rest 0` this a T until to Contract 1 "" 'c' s"" l"" `G1 at 35` ! ~ - $ 688412
} $ `G1 at 36` ; ( [ `rest 0` } `G1 at 36` . `G1 at 40` match `G1 at 39` case `G1 at 36` - | & `G1 at 37` == `G1 at 36` < `G1 at 37` :+ `G1 at 36` + * $ 385353
END $ `rest 0` CUT NONE ; `rest 1` ( ) [ ] { } , . _ : = => <- if else match case val var while for return this a T until to Contract 1 "" 'c' s"" l"" ! ~ - | & == < :+ + * 'a def @ # $ 626007
$ 0 $ x match { case _ : Z => case T => }
x $ `G1 at 1` NONE `G1 at 2` ; ( `G1 at 3` if `rest 0` this a T until to Contract 1 "" 'c' s"" l"" `G1 at 2` ! ~ - $ 76126
match $ `rest 0` CUT `rest 10` NONE ; `G1 at 4` ( `rest 11` ) `G1 at 4` [ `rest 11` ] { } , `G1 at 4` . `rest 11` _ : = => <- if else `rest 0` match `rest 11` case val var while for return this a T until to Contract 1 "" 'c' s"" l"" ! ~ `G1 at 4` - | & `G1 at 5` == `G1 at 4` < `G1 at 5` :+ `G1 at 4` + * `rest 11` 'a def @ # $ 86915
{ $ `G1 at 9` NONE `G1 at 10` ; `rest 0` { $ 792809
case $ `G1 at 11` NONE `G1 at 12` ; `rest 0` case $ 600267
_ $ `G1 at 16` NONE `G1 at 17` ; `rest 0` _ a T until to Contract `G1 at 17` 1 `G1 at 18` "" `G1 at 19` 'c' s"" l"" `G1 at 17` - $ 76668
: $ `G1 at 18` NONE `G1 at 19` ; `rest 0` : `G1 at 22` => `rest 0` if $ 534240
Z $ `G1 at 20` NONE `G1 at 21` ; `rest 0` a T until to Contract $ 401918
=> $ `G1 at 22` NONE `G1 at 23` ; [ . `rest 0` => `G1 at 24` if $ 275890
case $ `G1 at 27` NONE `G1 at 28` ; ( `rest 3` } `G1 at 27` if `rest 0` case `G1 at 30` val var while `G1 at 28` for `G1 at 33` return `G1 at 29` this `G1 at 26` a T `G1 at 30` until `G1 at 27` to `G1 at 33` Contract `G1 at 26` 1 `G1 at 27` "" `G1 at 28` 'c' s"" l"" ! ~ - $ 102940
T $ `G1 at 30` NONE `G1 at 31` ; `rest 0` _ a T until to Contract 1 "" 'c' s"" l"" `G1 at 31` - $ 381456
=> $ `G1 at 32` NONE `G1 at 33` ; ( . : `rest 0` => `G1 at 34` if $ 752291
} $ `G1 at 35` ; ( `rest 0` } `G1 at 36` if `G1 at 38` case `G1 at 37` val var `G1 at 39` while `G1 at 37` for `G1 at 40` return `G1 at 38` this `G1 at 35` a T `G1 at 39` until `G1 at 36` to `G1 at 42` Contract `G1 at 35` 1 `G1 at 36` "" `G1 at 37` 'c' s"" l"" `G1 at 35` ! ~ - $ 248852
END $ `rest 0` CUT NONE ; `rest 1` ( ) [ ] { } , . _ : = => <- if else match case val var while for return this a T until to Contract 1 "" 'c' s"" l"" ! ~ - | & == < :+ + * 'a def @ # $ 672307
$ 0 $ x match { case a . b ( c : d , - 1 , _ ) => }
x $ `G1 at 1` NONE `G1 at 2` ; ( `G1 at 3` if `rest 0` this a T until to Contract 1 "" 'c' s"" l"" `G1 at 2` ! ~ - $ 528284
match $ `rest 0` CUT `rest 17` NONE ; `G1 at 4` ( `rest 18` ) `G1 at 4` [ `rest 18` ] { } , `G1 at 4` . `rest 18` _ : = => <- if else `rest 0` match `rest 18` case val var while for return this a T until to Contract 1 "" 'c' s"" l"" ! ~ `G1 at 4` - | & `G1 at 5` == `G1 at 4` < `G1 at 5` :+ `G1 at 4` + * `rest 18` 'a def @ # $ 353630
{ $ `G1 at 9` NONE `G1 at 10` ; `rest 0` { $ 523029
case $ `G1 at 11` NONE `G1 at 12` ; `rest 0` case $ 403895
a $ `G1 at 16` NONE `G1 at 17` ; _ `rest 0` a T until to Contract `G1 at 17` 1 `G1 at 18` "" `G1 at 19` 'c' s"" l"" `G1 at 17` - $ 149571
. $ `G1 at 18` NONE `G1 at 19` ; `G1 at 41` ( `rest 0` . `G1 at 21` : `G1 at 26` => if $ 597882
b $ `G1 at 20` NONE `G1 at 21` ; `rest 0` a T until to Contract $ 14633
( $ `G1 at 22` NONE `G1 at 23` ; `rest 0` ( `G1 at 25` . `G1 at 26` => if $ 917861
c $ `G1 at 24` NONE `G1 at 25` ; ) `rest 0` _ a T until to Contract `G1 at 25` 1 `G1 at 26` "" `G1 at 27` 'c' s"" l"" `G1 at 25` - $ 94033
: $ `G1 at 26` NONE `G1 at 27` ; `G1 at 41` ( `G1 at 27` ) `rest 0` , . : $ 946822
d $ `G1 at 28` NONE `G1 at 29` ; `rest 0` a T until to Contract $ 86945
, $ `G1 at 30` NONE `G1 at 31` ; ) [ `rest 0` , `G1 at 31` . $ 185166
- $ `rest 0` NONE ; `G1 at 33` _ a T `G1 at 37` until `G1 at 34` to `G1 at 40` Contract `G1 at 33` 1 `G1 at 34` "" `G1 at 35` 'c' s"" l"" `rest 0` - $ 976716
1 $ `G1 at 34` NONE `G1 at 35` ; `rest 0` 1 $ 573160
, $ `G1 at 36` NONE `G1 at 37` ; ) `rest 0` , $ 910540
_ $ `G1 at 38` NONE `G1 at 39` ; `rest 0` _ a T until to Contract 1 "" 'c' s"" l"" `G1 at 39` - $ 986777
) $ `G1 at 40` NONE `G1 at 41` ; `rest 0` ) `G1 at 41` , : $ 38118
=> $ `G1 at 42` NONE `G1 at 43` ; `rest 0` => `G1 at 44` if $ 556344
} $ `G1 at 45` ; ( `rest 0` } `G1 at 46` if `G1 at 48` case `G1 at 47` val var `G1 at 49` while `G1 at 47` for `G1 at 50` return `G1 at 48` this `G1 at 45` a T `G1 at 49` until `G1 at 46` to `G1 at 52` Contract `G1 at 45` 1 `G1 at 46` "" `G1 at 47` 'c' s"" l"" `G1 at 45` ! ~ - $ 626991
END $ `rest 0` CUT NONE ; `rest 1` ( ) [ ] { } , . _ : = => <- if else match case val var while for return this a T until to Contract 1 "" 'c' s"" l"" ! ~ - | & == < :+ + * 'a def @ # $ 998283
$ 0 $ - a match { case s"b" => return }
- $ `rest 0` NONE ; `G1 at 33` ( `G1 at 3` if `rest 8` this a T until to Contract 1 "" 'c' s"" l"" `rest 0` ! ~ - $ 623767
a $ `G1 at 3` NONE `G1 at 4` ; ( `rest 0` this a T until to Contract 1 "" 'c' s"" l"" $ 777482
match $ `rest 0` CUT `rest 6` NONE ; `G1 at 6` ( `rest 7` ) `G1 at 6` [ `rest 7` ] { } , `G1 at 6` . `rest 7` _ : = => <- if else `rest 0` match `rest 7` case val var while for return this a T until to Contract 1 "" 'c' s"" l"" ! ~ `G1 at 6` - | & `G1 at 7` == `G1 at 6` < `G1 at 7` :+ `G1 at 6` + * `rest 7` 'a def @ # $ 697846
{ $ `G1 at 11` NONE `G1 at 12` ; `rest 0` { $ 284307
case $ `G1 at 13` NONE `G1 at 14` ; `rest 0` case $ 562137
s"b" $ `G1 at 18` NONE `G1 at 19` ; `rest 0` _ a T until to Contract 1 "" 'c' s"" l"" `G1 at 19` - $ 139363
=> $ `G1 at 23` NONE `G1 at 24` ; `rest 0` => `G1 at 25` if $ 238935
return $ `rest 0` NONE ; `G1 at 27` ( `rest 1` } `G1 at 28` if `G1 at 30` case `G1 at 29` val var `G1 at 31` while `G1 at 29` for `rest 0` return this a T until to Contract 1 "" 'c' s"" l"" `G1 at 27` ! ~ - $ 940557
} $ `G1 at 33` ; ( `rest 0` } `G1 at 34` if `G1 at 36` case this `G1 at 33` a T `G1 at 37` until `G1 at 34` to `G1 at 40` Contract `G1 at 33` 1 `G1 at 34` "" `G1 at 35` 'c' s"" l"" `G1 at 33` ! ~ - $ 127303
END $ `rest 0` CUT NONE ; `rest 1` ( ) [ ] { } , . _ : = => <- if else match case val var while for return this a T until to Contract 1 "" 'c' s"" l"" ! ~ - | & == < :+ + * 'a def @ # $ 294177
$ 0 $ a ( b match { case c => d } , T )
a $ `G1 at 27` NONE `G1 at 28` ; ( `G1 at 29` if `rest 0` this a T until to Contract 1 "" 'c' s"" l"" `G1 at 28` ! ~ - $ 224346
( $ `rest 0` CUT `rest 11` NONE `rest 12` ; `rest 0` ( `rest 12` ) `G1 at 6` [ `rest 12` ] { } , `rest 3` . `rest 12` _ : = => <- if else `G1 at 8` match `rest 12` case val var while for return this a T until to Contract 1 "" 'c' s"" l"" ! ~ `rest 3` - | & == < :+ + * `rest 12` 'a def @ # $ 921858
b $ `G1 at 5` NONE `G1 at 6` ; ( `rest 3` ) `G1 at 7` if `rest 0` this a T until to Contract 1 "" 'c' s"" l"" `G1 at 6` ! ~ - $ 475689
match $ `G1 at 7` NONE `G1 at 8` ; ( `rest 9` ) `G1 at 8` [ , . = `rest 0` match `G1 at 8` - | & `G1 at 9` == `G1 at 8` < `G1 at 9` :+ `G1 at 8` + * $ 446017
{ $ `G1 at 13` NONE `G1 at 14` ; `rest 0` { $ 192769
case $ `G1 at 15` NONE `G1 at 16` ; `rest 0` case $ 835543
c $ `G1 at 20` NONE `G1 at 21` ; `rest 0` _ a T until to Contract 1 "" 'c' s"" l"" `G1 at 21` - $ 871571
=> $ `G1 at 22` NONE `G1 at 23` ; `G1 at 25` ( . : `rest 0` => `G1 at 26` if $ 117600
d $ `rest 0` NONE ; `G1 at 26` ( } `G1 at 27` if `G1 at 29` case `G1 at 28` val var `G1 at 30` while `G1 at 28` for `rest 0` return this a T until to Contract 1 "" 'c' s"" l"" `G1 at 26` ! ~ - $ 936965
} $ `G1 at 27` NONE `G1 at 28` ; ( [ `rest 0` } `G1 at 28` . = `G1 at 32` match `G1 at 31` case `G1 at 28` - | & `G1 at 29` == `G1 at 28` < `G1 at 29` :+ `G1 at 28` + * $ 507739
, $ `G1 at 29` NONE `G1 at 30` ; `rest 2` ) `rest 0` , $ 795407
T $ `G1 at 31` NONE `G1 at 32` ; ( `G1 at 33` if `rest 0` this a T until to Contract 1 "" 'c' s"" l"" `G1 at 32` ! ~ - $ 678954
) $ `G1 at 33` ; ( `rest 0` ) `G1 at 33` [ , . `G1 at 37` match `G1 at 33` - | & `G1 at 34` == `G1 at 33` < `G1 at 34` :+ `G1 at 33` + * $ 820914
END $ `rest 0` CUT NONE ; `G1 at 35` ( `rest 1` ) `G1 at 35` [ `rest 1` ] { } , `G1 at 35` . `rest 1` _ : = => <- if else `G1 at 39` match `rest 1` case val var while for return this a T until to Contract 1 "" 'c' s"" l"" ! ~ `G1 at 35` - | & `G1 at 36` == `G1 at 35` < `G1 at 36` :+ `G1 at 35` + * `rest 1` 'a def @ # $ 445415
$ 0 $ a ( b = if ( c ) d else e )
a $ `G1 at 5` NONE `G1 at 6` ; ( `G1 at 7` if `rest 0` this a T until to Contract 1 "" 'c' s"" l"" `G1 at 6` ! ~ - $ 30165
( $ `rest 0` CUT `rest 10` NONE `rest 11` ; `rest 0` ( `rest 11` ) `G1 at 6` [ `rest 11` ] { } , `rest 9` . `rest 11` _ : = => <- if else `G1 at 8` match `rest 11` case val var while for return this a T until to Contract 1 "" 'c' s"" l"" ! ~ `rest 9` - | & == < :+ + * `rest 11` 'a def @ # $ 547592
b $ `G1 at 5` NONE `G1 at 6` ; ( `rest 9` ) `G1 at 7` if `G1 at 9` this `rest 0` a T until to Contract `G1 at 6` 1 `G1 at 7` "" `G1 at 8` 'c' s"" l"" `G1 at 6` ! ~ - $ 862765
= $ `G1 at 7` NONE `G1 at 8` ; `G1 at 27` ( `rest 8` ) `G1 at 8` [ `rest 0` , `G1 at 8` . `rest 0` = `G1 at 12` match `G1 at 8` - | & `G1 at 9` == `G1 at 8` < `G1 at 9` :+ `G1 at 8` + * $ 842065
if $ `G1 at 15` NONE `G1 at 16` ; ( `rest 0` if `G1 at 19` this `G1 at 16` a T `G1 at 20` until `G1 at 17` to `G1 at 23` Contract `G1 at 16` 1 `G1 at 17` "" `G1 at 18` 'c' s"" l"" `G1 at 16` ! ~ - $ 559548
( $ `G1 at 12` NONE `G1 at 13` ; `rest 0` ( $ 765203
c $ `G1 at 14` NONE `G1 at 15` ; ( `G1 at 16` if `rest 0` this a T until to Contract 1 "" 'c' s"" l"" `G1 at 15` ! ~ - $ 773060
) $ `G1 at 16` NONE `G1 at 17` ; `G1 at 19` ( `rest 0` ) `G1 at 19` [ . `G1 at 21` match `G1 at 19` - | & `G1 at 20` == `G1 at 19` < `G1 at 20` :+ `G1 at 19` + * $ 557706
d $ `G1 at 18` NONE `G1 at 19` ; ( `G1 at 20` if `rest 0` this a T until to Contract 1 "" 'c' s"" l"" `G1 at 19` ! ~ - $ 322718
else $ `G1 at 20` NONE `G1 at 21` ; `G1 at 24` ( `G1 at 23` [ . `rest 0` else `G1 at 25` match `G1 at 23` - | & `G1 at 24` == `G1 at 23` < `G1 at 24` :+ `G1 at 23` + * $ 636918
e $ `G1 at 25` NONE `G1 at 26` ; ( `G1 at 27` if `rest 0` this a T until to Contract 1 "" 'c' s"" l"" `G1 at 26` ! ~ - $ 608641
) $ `G1 at 27` ; ( `rest 0` ) `G1 at 27` [ , . `G1 at 31` match `G1 at 27` - | & `G1 at 28` == `G1 at 27` < `G1 at 28` :+ `G1 at 27` + * $ 244125
END $ `rest 0` CUT NONE ; `G1 at 29` ( `rest 1` ) `G1 at 29` [ `rest 1` ] { } , `G1 at 29` . `rest 1` _ : = => <- if else `G1 at 33` match `rest 1` case val var while for return this a T until to Contract 1 "" 'c' s"" l"" ! ~ `G1 at 29` - | & `G1 at 30` == `G1 at 29` < `G1 at 30` :+ `G1 at 29` + * `rest 1` 'a def @ # $ 706982
"#;
