// Statements one in another, up to the limit and beyond.

/// Each form, with so many nodes one in another.
pub const NESTED: &[u8] = br#"
={ $while (a) { $b$ }$ }
61 $ 0 $ rest 0 checksum 204423
62 $ 0 $ rest 0 checksum 920692
63 $ 0 $ G6 at 758
64 $ 0 $ G6 at 758
61 $ 1 $ rest 0 checksum 204423
62 $ 1 $ G6 at 746
0 $ 62 $ rest 0 checksum 150599
1 $ 62 $ G6 at 14
0 $ 63 $ G6 at 2
1 $ 63 $ G6 at 2
0 $ 64 $ G6 at 2
1 $ 64 $ G6 at 2
0 $ 70 $ G6 at 2
1 $ 70 $ G6 at 2
={ $while (a) { $$ }$ }
62 $ 0 $ rest 0 checksum 973963
63 $ 0 $ rest 0 checksum 761703
64 $ 0 $ G6 at 758
65 $ 0 $ G6 at 758
62 $ 1 $ rest 0 checksum 973963
63 $ 1 $ G6 at 746
1 $ 62 $ rest 0 checksum 500232
2 $ 62 $ G6 at 14
0 $ 63 $ rest 0 checksum 3938
1 $ 63 $ G6 at 2
0 $ 64 $ rest 0 checksum 3938
1 $ 64 $ G6 at 2
0 $ 70 $ rest 0 checksum 3938
1 $ 70 $ G6 at 2
={ $if (a) { $b$ }$ }
61 $ 0 $ rest 0 checksum 172603
62 $ 0 $ rest 0 checksum 515032
63 $ 0 $ G6 at 569
64 $ 0 $ G6 at 569
61 $ 1 $ rest 0 checksum 172603
62 $ 1 $ G6 at 560
0 $ 62 $ rest 0 checksum 150599
1 $ 62 $ G6 at 11
0 $ 63 $ G6 at 2
1 $ 63 $ G6 at 2
0 $ 64 $ G6 at 2
1 $ 64 $ G6 at 2
0 $ 70 $ G6 at 2
1 $ 70 $ G6 at 2
={ $if (a) { } else { $b$ }$ }
61 $ 0 $ rest 0 checksum 636099
62 $ 0 $ rest 0 checksum 136617
63 $ 0 $ G6 at 1136
64 $ 0 $ G6 at 1136
61 $ 1 $ rest 0 checksum 636099
62 $ 1 $ G6 at 1118
0 $ 62 $ rest 0 checksum 150599
1 $ 62 $ G6 at 20
0 $ 63 $ G6 at 2
1 $ 63 $ G6 at 2
0 $ 64 $ G6 at 2
1 $ 64 $ G6 at 2
0 $ 70 $ G6 at 2
1 $ 70 $ G6 at 2
={ $for (a <- b until c) { $return$ }$ }
62 $ 0 $ rest 0 checksum 40922
63 $ 0 $ rest 0 checksum 197260
64 $ 0 $ G6 at 1451
65 $ 0 $ G6 at 1451
62 $ 1 $ rest 0 checksum 40922
63 $ 1 $ G6 at 1428
1 $ 62 $ rest 0 checksum 606440
2 $ 62 $ G6 at 25
0 $ 63 $ rest 0 checksum 949844
1 $ 63 $ G6 at 2
0 $ 64 $ G6 at 2
1 $ 64 $ G6 at 2
0 $ 70 $ G6 at 2
1 $ 70 $ G6 at 2
={ $if (a) { while (b) { for (c <- d to e) { $$ } } }$ }
20 $ 0 $ rest 0 checksum 748531
21 $ 0 $ rest 0 checksum 594990
22 $ 0 $ G6 at 863
23 $ 0 $ G6 at 863
20 $ 1 $ rest 0 checksum 748531
21 $ 1 $ G6 at 843
0 $ 62 $ rest 0 checksum 3938
1 $ 62 $ G6 at 11
0 $ 63 $ rest 0 checksum 3938
1 $ 63 $ G6 at 2
0 $ 64 $ rest 0 checksum 3938
1 $ 64 $ G6 at 2
0 $ 70 $ rest 0 checksum 3938
1 $ 70 $ G6 at 2
={ if (a) { }$$$ else if (a) { }$ }
61 $ 0 $ rest 0 checksum 122462
62 $ 0 $ rest 0 checksum 132544
63 $ 0 $ G6 at 1010
64 $ 0 $ G6 at 1010
61 $ 1 $ rest 0 checksum 122462
62 $ 1 $ G6 at 994
0 $ 62 $ rest 0 checksum 237436
1 $ 62 $ G6 at 18
0 $ 63 $ G6 at 2
1 $ 63 $ G6 at 2
0 $ 64 $ G6 at 2
1 $ 64 $ G6 at 2
0 $ 70 $ G6 at 2
1 $ 70 $ G6 at 2
={ if (a) { }$$$ else if (a) { }$ else { b } }
60 $ 0 $ rest 0 checksum 385366
61 $ 0 $ rest 0 checksum 67031
62 $ 0 $ G6 at 1012
63 $ 0 $ G6 at 1010
60 $ 1 $ rest 0 checksum 385366
61 $ 1 $ G6 at 996
0 $ 62 $ G6 at 20
1 $ 62 $ G6 at 18
0 $ 63 $ G6 at 2
1 $ 63 $ G6 at 2
0 $ 64 $ G6 at 2
1 $ 64 $ G6 at 2
0 $ 70 $ G6 at 2
1 $ 70 $ G6 at 2
={ if (a) { }$$$ else if (a) { b }$ }
60 $ 0 $ rest 0 checksum 360004
61 $ 0 $ rest 0 checksum 672724
62 $ 0 $ G6 at 1125
63 $ 0 $ G6 at 1125
60 $ 1 $ rest 0 checksum 360004
61 $ 1 $ G6 at 1107
0 $ 62 $ rest 0 checksum 237436
1 $ 62 $ G6 at 18
0 $ 63 $ G6 at 2
1 $ 63 $ G6 at 2
0 $ 64 $ G6 at 2
1 $ 64 $ G6 at 2
0 $ 70 $ G6 at 2
1 $ 70 $ G6 at 2
={ $a match { case b => $c$ }$ }
61 $ 0 $ rest 0 checksum 660181
62 $ 0 $ rest 0 checksum 521698
63 $ 0 $ G6 at 1262
64 $ 0 $ G6 at 1262
61 $ 1 $ rest 0 checksum 660181
62 $ 1 $ G6 at 1242
0 $ 62 $ rest 0 checksum 166536
1 $ 62 $ G6 at 22
0 $ 63 $ G6 at 2
1 $ 63 $ G6 at 2
0 $ 64 $ G6 at 2
1 $ 64 $ G6 at 2
0 $ 70 $ G6 at 2
1 $ 70 $ G6 at 2
={ $a match { case b => $$ }$ }
62 $ 0 $ rest 0 checksum 858896
63 $ 0 $ rest 0 checksum 689054
64 $ 0 $ G6 at 1262
65 $ 0 $ G6 at 1262
62 $ 1 $ rest 0 checksum 858896
63 $ 1 $ G6 at 1242
1 $ 62 $ rest 0 checksum 624043
2 $ 62 $ G6 at 22
0 $ 63 $ rest 0 checksum 3938
1 $ 63 $ G6 at 2
0 $ 64 $ rest 0 checksum 3938
1 $ 64 $ G6 at 2
0 $ 70 $ rest 0 checksum 3938
1 $ 70 $ G6 at 2
={ $a match { case b => c; $return$ case d => e }$ }
61 $ 0 $ rest 0 checksum 214603
62 $ 0 $ rest 0 checksum 860476
63 $ 0 $ G6 at 1448
64 $ 0 $ G6 at 1448
61 $ 1 $ rest 0 checksum 214603
62 $ 1 $ G6 at 1425
0 $ 62 $ rest 0 checksum 949844
1 $ 62 $ G6 at 22
0 $ 63 $ rest 0 checksum 949844
1 $ 63 $ G6 at 2
0 $ 64 $ G6 at 2
1 $ 64 $ G6 at 2
0 $ 70 $ G6 at 2
1 $ 70 $ G6 at 2
={ $a match { case b if (c match { case d => $e$ }) => } $ }
19 $ 0 $ rest 0 checksum 550070
20 $ 0 $ rest 0 checksum 854780
21 $ 0 $ G6 at 863
22 $ 0 $ G6 at 863
20 $ 1 $ rest 0 checksum 854780
21 $ 1 $ G6 at 845
0 $ 62 $ rest 0 checksum 263818
1 $ 62 $ G6 at 22
0 $ 63 $ G6 at 2
1 $ 63 $ G6 at 2
={ $($a$)$ }
61 $ 0 $ rest 0 checksum 765426
62 $ 0 $ rest 0 checksum 545855
63 $ 0 $ G6 at 64
64 $ 0 $ G6 at 64
61 $ 1 $ rest 0 checksum 765426
62 $ 1 $ G6 at 63
0 $ 62 $ rest 0 checksum 101958
1 $ 62 $ G6 at 2
0 $ 63 $ G6 at 2
1 $ 63 $ G6 at 2
={ $($a$)$ = b }
61 $ 0 $ rest 0 checksum 784228
62 $ 0 $ rest 0 checksum 913196
63 $ 0 $ G6 at 64
64 $ 0 $ G6 at 64
61 $ 1 $ rest 0 checksum 784228
62 $ 1 $ G6 at 63
0 $ 62 $ rest 0 checksum 993720
1 $ 62 $ G6 at 2
0 $ 63 $ G6 at 2
1 $ 63 $ G6 at 2
={ a = $($b$)$ }
61 $ 0 $ rest 0 checksum 416880
62 $ 0 $ rest 0 checksum 579320
63 $ 0 $ G6 at 68
64 $ 0 $ G6 at 68
61 $ 1 $ rest 0 checksum 416880
62 $ 1 $ G6 at 67
0 $ 62 $ rest 0 checksum 993720
1 $ 62 $ G6 at 6
0 $ 63 $ G6 at 2
1 $ 63 $ G6 at 2
={ val a = $($b$)$ }
61 $ 0 $ rest 0 checksum 154143
62 $ 0 $ rest 0 checksum 588120
63 $ 0 $ G6 at 72
64 $ 0 $ G6 at 72
61 $ 1 $ rest 0 checksum 154143
62 $ 1 $ G6 at 71
0 $ 62 $ rest 0 checksum 382041
1 $ 62 $ G6 at 10
0 $ 63 $ G6 at 2
1 $ 63 $ G6 at 2
={ val a: $b[$c$]$ = d }
61 $ 0 $ rest 0 checksum 203831
62 $ 0 $ rest 0 checksum 468224
63 $ 0 $ G6 at 134
64 $ 0 $ G6 at 134
61 $ 1 $ rest 0 checksum 203831
62 $ 1 $ G6 at 132
0 $ 62 $ rest 0 checksum 212168
1 $ 62 $ G6 at 10
0 $ 63 $ G6 at 2
1 $ 63 $ G6 at 2
={ return $($a$)$ }
61 $ 0 $ rest 0 checksum 445716
62 $ 0 $ rest 0 checksum 13445
63 $ 0 $ G6 at 71
64 $ 0 $ G6 at 71
61 $ 1 $ rest 0 checksum 445716
62 $ 1 $ G6 at 70
0 $ 62 $ rest 0 checksum 228893
1 $ 62 $ G6 at 9
0 $ 63 $ G6 at 9
1 $ 63 $ G6 at 9
={ a$$$.b$ }
61 $ 0 $ rest 0 checksum 433135
62 $ 0 $ rest 0 checksum 80537
63 $ 0 $ G6 at 127
64 $ 0 $ G6 at 127
61 $ 1 $ rest 0 checksum 433135
62 $ 1 $ G6 at 125
0 $ 62 $ rest 0 checksum 101958
1 $ 62 $ G6 at 3
0 $ 63 $ G6 at 2
1 $ 63 $ G6 at 2
={ a$$$.b$ = c }
61 $ 0 $ rest 0 checksum 524066
62 $ 0 $ rest 0 checksum 596357
63 $ 0 $ G6 at 127
64 $ 0 $ G6 at 127
61 $ 1 $ rest 0 checksum 524066
62 $ 1 $ G6 at 125
0 $ 62 $ rest 0 checksum 9657
1 $ 62 $ G6 at 3
0 $ 63 $ G6 at 2
1 $ 63 $ G6 at 2
={ a$$$(b)$ }
61 $ 0 $ rest 0 checksum 723996
62 $ 0 $ rest 0 checksum 240716
63 $ 0 $ G6 at 189
64 $ 0 $ G6 at 189
61 $ 1 $ rest 0 checksum 723996
62 $ 1 $ G6 at 186
0 $ 62 $ rest 0 checksum 101958
1 $ 62 $ G6 at 3
0 $ 63 $ G6 at 2
1 $ 63 $ G6 at 2
={ a$$$ + b$ }
61 $ 0 $ rest 0 checksum 726345
62 $ 0 $ rest 0 checksum 681931
63 $ 0 $ G6 at 252
64 $ 0 $ G6 at 252
61 $ 1 $ rest 0 checksum 726345
62 $ 1 $ G6 at 248
0 $ 62 $ rest 0 checksum 101958
1 $ 62 $ G6 at 4
0 $ 63 $ G6 at 2
1 $ 63 $ G6 at 2
={ a$$$ + b$ = c }
61 $ 0 $ rest 0 checksum 283701
62 $ 0 $ rest 0 checksum 872242
63 $ 0 $ G6 at 252
64 $ 0 $ G6 at 252
61 $ 1 $ rest 0 checksum 283701
62 $ 1 $ G6 at 248
0 $ 62 $ rest 0 checksum 9657
1 $ 62 $ G6 at 4
0 $ 63 $ G6 at 2
1 $ 63 $ G6 at 2
={ a = b$$$ + c$ }
61 $ 0 $ rest 0 checksum 768880
62 $ 0 $ rest 0 checksum 564486
63 $ 0 $ G6 at 256
64 $ 0 $ G6 at 256
61 $ 1 $ rest 0 checksum 768880
62 $ 1 $ G6 at 252
0 $ 62 $ rest 0 checksum 993720
1 $ 62 $ G6 at 8
0 $ 63 $ G6 at 2
1 $ 63 $ G6 at 2
={ a$$$ + b$ match { case c => } }
61 $ 0 $ rest 0 checksum 211518
62 $ 0 $ rest 0 checksum 615514
63 $ 0 $ G6 at 252
64 $ 0 $ G6 at 252
61 $ 1 $ rest 0 checksum 211518
62 $ 1 $ G6 at 248
0 $ 62 $ rest 0 checksum 933709
1 $ 62 $ G6 at 4
0 $ 63 $ G6 at 2
1 $ 63 $ G6 at 2
={ a$$$ + b$ match { case c => } = d }
60 $ 0 $ rest 0 checksum 351565
61 $ 0 $ rest 0 checksum 145988
62 $ 0 $ G6 at 272
63 $ 0 $ G6 at 252
60 $ 1 $ rest 0 checksum 351565
61 $ 1 $ G6 at 268
0 $ 62 $ G6 at 24
1 $ 62 $ G6 at 4
0 $ 63 $ G6 at 2
1 $ 63 $ G6 at 2
={ if (a) b else $if (a) b else $c$$ }
60 $ 0 $ rest 0 checksum 754214
61 $ 0 $ rest 0 checksum 817191
62 $ 0 $ G6 at 870
63 $ 0 $ G6 at 870
60 $ 1 $ rest 0 checksum 754214
61 $ 1 $ G6 at 856
0 $ 62 $ G6 at 9
1 $ 62 $ G6 at 9
0 $ 63 $ G6 at 2
1 $ 63 $ G6 at 2
={ if (a) b else $if (a) b else $c$$ = d }
60 $ 0 $ rest 0 checksum 922267
61 $ 0 $ rest 0 checksum 69975
62 $ 0 $ G6 at 870
63 $ 0 $ G6 at 870
60 $ 1 $ rest 0 checksum 922267
61 $ 1 $ G6 at 856
0 $ 62 $ G6 at 9
1 $ 62 $ G6 at 9
0 $ 63 $ G6 at 2
1 $ 63 $ G6 at 2
={ if ($($a$)$) { } }
61 $ 0 $ rest 0 checksum 311898
62 $ 0 $ rest 0 checksum 556305
63 $ 0 $ G6 at 68
64 $ 0 $ G6 at 68
61 $ 1 $ rest 0 checksum 311898
62 $ 1 $ G6 at 67
0 $ 62 $ rest 0 checksum 237436
1 $ 62 $ G6 at 6
0 $ 63 $ G6 at 2
1 $ 63 $ G6 at 2
={ while ($($a$)$) { } }
61 $ 0 $ rest 0 checksum 497682
62 $ 0 $ rest 0 checksum 578375
63 $ 0 $ G6 at 71
64 $ 0 $ G6 at 71
61 $ 1 $ rest 0 checksum 497682
62 $ 1 $ G6 at 70
0 $ 62 $ rest 0 checksum 500201
1 $ 62 $ G6 at 9
0 $ 63 $ G6 at 2
1 $ 63 $ G6 at 2
={ for (a <- $($b$)$ until c) { } }
61 $ 0 $ rest 0 checksum 369167
62 $ 0 $ rest 0 checksum 649027
63 $ 0 $ G6 at 74
64 $ 0 $ G6 at 74
61 $ 1 $ rest 0 checksum 369167
62 $ 1 $ G6 at 73
0 $ 62 $ rest 0 checksum 610539
1 $ 62 $ G6 at 12
0 $ 63 $ G6 at 2
1 $ 63 $ G6 at 2
={ for (a <- b to $($c$)$) { } }
61 $ 0 $ rest 0 checksum 575199
62 $ 0 $ rest 0 checksum 805070
63 $ 0 $ G6 at 79
64 $ 0 $ G6 at 79
61 $ 1 $ rest 0 checksum 575199
62 $ 1 $ G6 at 78
0 $ 62 $ rest 0 checksum 458013
1 $ 62 $ G6 at 17
0 $ 63 $ G6 at 2
1 $ 63 $ G6 at 2
={ $if (a) $b$ else c$ }
61 $ 0 $ rest 0 checksum 450325
62 $ 0 $ rest 0 checksum 994602
63 $ 0 $ G6 at 436
64 $ 0 $ G6 at 436
61 $ 1 $ rest 0 checksum 450325
62 $ 1 $ G6 at 429
0 $ 62 $ rest 0 checksum 150599
1 $ 62 $ G6 at 9
0 $ 63 $ G6 at 2
1 $ 63 $ G6 at 2
={ $if (a) $b$ else c$ = d }
61 $ 0 $ rest 0 checksum 531404
62 $ 0 $ rest 0 checksum 171676
63 $ 0 $ G6 at 436
64 $ 0 $ G6 at 436
61 $ 1 $ rest 0 checksum 531404
62 $ 1 $ G6 at 429
0 $ 62 $ rest 0 checksum 367995
1 $ 62 $ G6 at 9
0 $ 63 $ G6 at 2
1 $ 63 $ G6 at 2
={ val a = $b match { case c => $d$ }$ }
60 $ 0 $ rest 0 checksum 361646
61 $ 0 $ rest 0 checksum 10679
62 $ 0 $ G6 at 1250
63 $ 0 $ G6 at 1250
60 $ 1 $ rest 0 checksum 361646
61 $ 1 $ G6 at 1230
0 $ 62 $ rest 0 checksum 264791
1 $ 62 $ G6 at 12
0 $ 63 $ G6 at 2
1 $ 63 $ G6 at 2
={ return $a match { case b => return $c$ }$ }
30 $ 0 $ rest 0 checksum 702857
31 $ 0 $ rest 0 checksum 332497
32 $ 0 $ G6 at 848
33 $ 0 $ G6 at 848
30 $ 1 $ rest 0 checksum 702857
31 $ 1 $ G6 at 846
0 $ 62 $ rest 0 checksum 422879
1 $ 62 $ G6 at 11
0 $ 63 $ G6 at 9
1 $ 63 $ G6 at 9
={ $a match { case b => c = $d$ }$ }
30 $ 0 $ rest 0 checksum 476868
31 $ 0 $ rest 0 checksum 847421
32 $ 0 $ G6 at 766
33 $ 0 $ G6 at 766
31 $ 1 $ rest 0 checksum 847421
32 $ 1 $ G6 at 748
0 $ 62 $ rest 0 checksum 215177
1 $ 62 $ G6 at 22
0 $ 63 $ G6 at 2
1 $ 63 $ G6 at 2
={ $a match { case b => $c$ } = d$ }
30 $ 0 $ rest 0 checksum 244864
31 $ 0 $ rest 0 checksum 273695
32 $ 0 $ G6 at 826
33 $ 0 $ G6 at 840
30 $ 1 $ rest 0 checksum 244864
31 $ 1 $ G6 at 806
0 $ 62 $ rest 0 checksum 166536
1 $ 62 $ G6 at 22
0 $ 63 $ G6 at 2
1 $ 63 $ G6 at 2
"#;
