// Types with each token replaced.

/// Names and types with arguments.
pub const REPLACED: &[u8] = br#"
$ 0 $ a
a $ `G1 at 1` ; `rest 0` a T until to Contract $ 465566
END $ `rest 0` CUT NONE ; `rest 1` ( ) `G1 at 3` [ `rest 1` ] { } , `G1 at 3` . `rest 1` _ : = => <- if else match case val var while for return this a T until to Contract 1 "" 'c' s"" l"" ! ~ - | & == < :+ + * 'a def @ # $ 897917
$ 0 $ a . b [ c . d , e [ f ] ]
a $ `G1 at 1` NONE `G1 at 2` ; `rest 0` a T until to Contract $ 152569
. $ `rest 0` CUT `rest 11` NONE `rest 12` ; ( ) `G1 at 25` [ `rest 12` ] { } , `rest 0` . `rest 12` _ : = => <- if else match case val var while for return this a T until to Contract 1 "" 'c' s"" l"" ! ~ - | & == < :+ + * 'a def @ # $ 611623
b $ `G1 at 5` NONE `G1 at 6` ; `rest 0` a T until to Contract $ 627226
[ $ `rest 0` CUT `rest 9` NONE `rest 10` ; ( ) `rest 0` [ `rest 10` ] { } , `rest 6` . `rest 10` _ : = => <- if else match case val var while for return this a T until to Contract 1 "" 'c' s"" l"" ! ~ - | & == < :+ + * 'a def @ # $ 374879
c $ `G1 at 9` NONE `G1 at 10` ; `rest 0` a T until to Contract $ 625008
. $ `G1 at 11` NONE `G1 at 12` ; `G1 at 25` [ `rest 7` ] `rest 0` , . $ 946110
d $ `G1 at 13` NONE `G1 at 14` ; `rest 0` a T until to Contract $ 487365
, $ `G1 at 15` NONE `G1 at 16` ; `G1 at 25` [ `rest 5` ] `rest 0` , . $ 843778
e $ `G1 at 17` NONE `G1 at 18` ; `rest 0` a T until to Contract $ 811839
[ $ `G1 at 19` NONE `G1 at 20` ; `rest 0` [ `rest 3` ] `rest 1` , . $ 15770
f $ `G1 at 21` NONE `G1 at 22` ; `rest 0` a T until to Contract $ 39083
] $ `G1 at 24` NONE `G1 at 25` ; `G1 at 24` [ `rest 0` ] `G1 at 24` , . $ 526787
] $ `G1 at 25` ; `rest 0` ] `G1 at 25` , $ 833692
END $ `rest 0` CUT NONE ; `rest 1` ( ) [ ] { } , . _ : = => <- if else match case val var while for return this a T until to Contract 1 "" 'c' s"" l"" ! ~ - | & == < :+ + * 'a def @ # $ 587201
$ 63 $ a
a $ `G1 at 1` ; `rest 0` a T until to Contract $ 465566
END $ `rest 0` CUT NONE ; `rest 1` ( ) `G6 at 2` [ `rest 1` ] { } , `G1 at 3` . `rest 1` _ : = => <- if else match case val var while for return this a T until to Contract 1 "" 'c' s"" l"" ! ~ - | & == < :+ + * 'a def @ # $ 796067
$ 64 $ a
a $ `G1 at 1` ; `G6 at 0` a T until to Contract $ 935492
END $ `G6 at 0` CUT NONE ; ( ) [ ] { } , . _ : = => <- if else match case val var while for return this a T until to Contract 1 "" 'c' s"" l"" ! ~ - | & == < :+ + * 'a def @ # $ 346624
$ 61 $ a . b [ c . d , e [ f ] ]
a $ `G1 at 1` NONE `G1 at 2` ; `rest 0` a T until to Contract $ 152569
. $ `rest 0` CUT `rest 11` NONE `rest 12` ; ( ) `G6 at 18` [ `rest 12` ] { } , `rest 0` . `rest 12` _ : = => <- if else match case val var while for return this a T until to Contract 1 "" 'c' s"" l"" ! ~ - | & == < :+ + * 'a def @ # $ 649438
b $ `G1 at 5` NONE `G1 at 6` ; `rest 0` a T until to Contract $ 627226
[ $ `rest 0` CUT `rest 9` NONE `rest 10` ; ( ) `rest 0` [ `rest 10` ] { } , `rest 6` . `rest 10` _ : = => <- if else match case val var while for return this a T until to Contract 1 "" 'c' s"" l"" ! ~ - | & == < :+ + * 'a def @ # $ 374879
c $ `G1 at 9` NONE `G1 at 10` ; `rest 0` a T until to Contract $ 625008
. $ `G1 at 11` NONE `G1 at 12` ; `G6 at 18` [ `rest 7` ] `rest 0` , . $ 768629
d $ `G1 at 13` NONE `G1 at 14` ; `rest 0` a T until to Contract $ 487365
, $ `G1 at 15` NONE `G1 at 16` ; `G6 at 18` [ `rest 5` ] `rest 0` , . $ 985785
e $ `G1 at 17` NONE `G1 at 18` ; `rest 0` a T until to Contract $ 811839
[ $ `G1 at 19` NONE `G1 at 20` ; `rest 0` [ `rest 3` ] `rest 1` , . $ 15770
f $ `G1 at 21` NONE `G1 at 22` ; `rest 0` a T until to Contract $ 39083
] $ `G1 at 24` NONE `G1 at 25` ; `G6 at 22` [ `rest 0` ] `G1 at 24` , . $ 565062
] $ `G1 at 25` ; `rest 0` ] `G1 at 25` , $ 833692
END $ `rest 0` CUT NONE ; `rest 1` ( ) [ ] { } , . _ : = => <- if else match case val var while for return this a T until to Contract 1 "" 'c' s"" l"" ! ~ - | & == < :+ + * 'a def @ # $ 587201
$ 62 $ a . b [ c . d , e [ f ] ]
a $ `G1 at 1` NONE `G1 at 2` ; `G6 at 18` a T `G6 at 22` until `G6 at 19` to `G6 at 25` Contract $ 469493
. $ `rest 0` CUT `rest 11` NONE `rest 12` ; ( ) `G6 at 6` [ `rest 12` ] { } , `G6 at 18` . `rest 12` _ : = => <- if else match case val var while for return this a T until to Contract 1 "" 'c' s"" l"" ! ~ - | & == < :+ + * 'a def @ # $ 584277
b $ `G1 at 5` NONE `G1 at 6` ; `G6 at 18` a T `G6 at 22` until `G6 at 19` to `G6 at 25` Contract $ 832953
[ $ `rest 0` CUT `rest 9` NONE `rest 10` ; ( ) `G6 at 18` [ `rest 10` ] { } , `rest 6` . `rest 10` _ : = => <- if else match case val var while for return this a T until to Contract 1 "" 'c' s"" l"" ! ~ - | & == < :+ + * 'a def @ # $ 736209
c $ `G1 at 9` NONE `G1 at 10` ; `G6 at 18` a T `G6 at 22` until `G6 at 19` to `G6 at 25` Contract $ 866130
. $ `G1 at 11` NONE `G1 at 12` ; `G6 at 10` [ `rest 7` ] `G6 at 18` , . $ 126658
d $ `G1 at 13` NONE `G1 at 14` ; `G6 at 18` a T `G6 at 22` until `G6 at 19` to `G6 at 25` Contract $ 755616
, $ `G1 at 15` NONE `G1 at 16` ; `G6 at 14` [ `rest 5` ] `G6 at 18` , . $ 463661
e $ `G1 at 17` NONE `G1 at 18` ; `G6 at 18` a T `G6 at 22` until `G6 at 19` to `G6 at 25` Contract $ 637268
[ $ `G1 at 19` NONE `G1 at 20` ; `G6 at 18` [ `rest 3` ] `rest 1` , . $ 383272
f $ `G6 at 18` CUT NONE ; ( ) [ ] { } , . _ : = => <- if else match case val var while for return this a T until to Contract 1 "" 'c' s"" l"" ! ~ - | & == < :+ + * 'a def @ # $ 968406
] $ `G6 at 18` CUT NONE ; ( ) [ ] { } , . _ : = => <- if else match case val var while for return this a T until to Contract 1 "" 'c' s"" l"" ! ~ - | & == < :+ + * 'a def @ # $ 968406
] $ `G6 at 18` CUT NONE ; ( ) [ ] { } , . _ : = => <- if else match case val var while for return this a T until to Contract 1 "" 'c' s"" l"" ! ~ - | & == < :+ + * 'a def @ # $ 968406
END $ `G6 at 18` CUT NONE ; ( ) [ ] { } , . _ : = => <- if else match case val var while for return this a T until to Contract 1 "" 'c' s"" l"" ! ~ - | & == < :+ + * 'a def @ # $ 968406
"#;
