// Expressions one in another, up to the limit and beyond.

/// Each form, with so many nodes one in another.
pub const NESTED: &[u8] = br#"
=$($a$)$
62 $ 0 $ rest 0 checksum 171259
63 $ 0 $ rest 0 checksum 235204
64 $ 0 $ G6 at 63
65 $ 0 $ G6 at 63
62 $ 1 $ rest 0 checksum 171259
63 $ 1 $ G6 at 62
1 $ 62 $ rest 0 checksum 617414
2 $ 62 $ G6 at 1
0 $ 63 $ rest 0 checksum 535733
1 $ 63 $ G6 at 0
0 $ 64 $ G6 at 0
1 $ 64 $ G6 at 0
0 $ 70 $ G6 at 0
1 $ 70 $ G6 at 0
=$($-1$)$
62 $ 0 $ rest 0 checksum 417127
63 $ 0 $ rest 0 checksum 623669
64 $ 0 $ G6 at 63
65 $ 0 $ G6 at 63
62 $ 1 $ rest 0 checksum 417127
63 $ 1 $ G6 at 62
1 $ 62 $ rest 0 checksum 800720
2 $ 62 $ G6 at 1
0 $ 63 $ rest 0 checksum 105424
1 $ 63 $ G6 at 0
0 $ 64 $ G6 at 0
1 $ 64 $ G6 at 0
0 $ 70 $ G6 at 0
1 $ 70 $ G6 at 0
=$($a + b$)$
61 $ 0 $ rest 0 checksum 198756
62 $ 0 $ rest 0 checksum 44533
63 $ 0 $ G6 at 65
64 $ 0 $ G6 at 63
61 $ 1 $ rest 0 checksum 198756
62 $ 1 $ G6 at 64
0 $ 62 $ rest 0 checksum 597371
1 $ 62 $ G6 at 3
0 $ 63 $ G6 at 2
1 $ 63 $ G6 at 0
0 $ 64 $ G6 at 0
1 $ 64 $ G6 at 0
0 $ 70 $ G6 at 0
1 $ 70 $ G6 at 0
=$$a$ + a$
62 $ 0 $ rest 0 checksum 791062
63 $ 0 $ rest 0 checksum 557376
64 $ 0 $ G6 at 254
65 $ 0 $ G6 at 254
62 $ 1 $ rest 0 checksum 791062
63 $ 1 $ G6 at 250
1 $ 62 $ rest 0 checksum 110876
2 $ 62 $ G6 at 6
0 $ 63 $ rest 0 checksum 535733
1 $ 63 $ G6 at 2
0 $ 64 $ G6 at 0
1 $ 64 $ G6 at 0
0 $ 70 $ G6 at 0
1 $ 70 $ G6 at 0
=$$a$ - 1$
62 $ 0 $ rest 0 checksum 434576
63 $ 0 $ rest 0 checksum 378255
64 $ 0 $ G6 at 254
65 $ 0 $ G6 at 254
62 $ 1 $ rest 0 checksum 434576
63 $ 1 $ G6 at 250
1 $ 62 $ rest 0 checksum 86501
2 $ 62 $ G6 at 6
0 $ 63 $ rest 0 checksum 535733
1 $ 63 $ G6 at 2
0 $ 64 $ G6 at 0
1 $ 64 $ G6 at 0
0 $ 70 $ G6 at 0
1 $ 70 $ G6 at 0
=$$a * b$ + c * d$
61 $ 0 $ rest 0 checksum 112374
62 $ 0 $ rest 0 checksum 969365
63 $ 0 $ G6 at 502
64 $ 0 $ G6 at 502
61 $ 1 $ rest 0 checksum 112374
62 $ 1 $ G6 at 494
0 $ 62 $ rest 0 checksum 514652
1 $ 62 $ G6 at 6
0 $ 63 $ G6 at 2
1 $ 63 $ G6 at 2
0 $ 64 $ G6 at 0
1 $ 64 $ G6 at 0
0 $ 70 $ G6 at 0
1 $ 70 $ G6 at 0
=$$a$ | b + c$
61 $ 0 $ rest 0 checksum 729421
62 $ 0 $ rest 0 checksum 2464
63 $ 0 $ G6 at 498
64 $ 0 $ G6 at 498
61 $ 1 $ rest 0 checksum 729421
62 $ 1 $ G6 at 490
0 $ 62 $ rest 0 checksum 535733
1 $ 62 $ G6 at 6
0 $ 63 $ rest 0 checksum 535733
1 $ 63 $ G6 at 2
0 $ 64 $ G6 at 0
1 $ 64 $ G6 at 0
0 $ 70 $ G6 at 0
1 $ 70 $ G6 at 0
=$a + ($b$)$
30 $ 0 $ rest 0 checksum 217478
31 $ 0 $ rest 0 checksum 946590
32 $ 0 $ G6 at 159
33 $ 0 $ G6 at 159
31 $ 1 $ rest 0 checksum 946590
32 $ 1 $ G6 at 157
0 $ 62 $ rest 0 checksum 459254
1 $ 62 $ G6 at 4
0 $ 63 $ rest 0 checksum 459254
1 $ 63 $ G6 at 2
0 $ 64 $ G6 at 0
1 $ 64 $ G6 at 0
0 $ 70 $ G6 at 0
1 $ 70 $ G6 at 0
=$a * ($b$) - c$
20 $ 0 $ rest 0 checksum 286135
21 $ 0 $ rest 0 checksum 929110
22 $ 0 $ G6 at 208
23 $ 0 $ G6 at 203
20 $ 1 $ rest 0 checksum 286135
21 $ 1 $ G6 at 208
0 $ 62 $ rest 0 checksum 459254
1 $ 62 $ G6 at 4
0 $ 63 $ rest 0 checksum 459254
1 $ 63 $ G6 at 2
0 $ 64 $ G6 at 0
1 $ 64 $ G6 at 0
0 $ 70 $ G6 at 0
1 $ 70 $ G6 at 0
=$$a$.b$
62 $ 0 $ rest 0 checksum 368070
63 $ 0 $ rest 0 checksum 273806
64 $ 0 $ G6 at 127
65 $ 0 $ G6 at 127
62 $ 1 $ rest 0 checksum 368070
63 $ 1 $ G6 at 125
1 $ 62 $ rest 0 checksum 183252
2 $ 62 $ G6 at 3
0 $ 63 $ rest 0 checksum 535733
1 $ 63 $ G6 at 1
0 $ 64 $ G6 at 0
1 $ 64 $ G6 at 0
0 $ 70 $ G6 at 0
1 $ 70 $ G6 at 0
=$$a$()$
62 $ 0 $ rest 0 checksum 31918
63 $ 0 $ rest 0 checksum 960410
64 $ 0 $ G6 at 127
65 $ 0 $ G6 at 127
62 $ 1 $ rest 0 checksum 31918
63 $ 1 $ G6 at 125
1 $ 62 $ rest 0 checksum 870052
2 $ 62 $ G6 at 3
0 $ 63 $ rest 0 checksum 535733
1 $ 63 $ G6 at 1
0 $ 64 $ G6 at 0
1 $ 64 $ G6 at 0
0 $ 70 $ G6 at 0
1 $ 70 $ G6 at 0
=$$a$(b)$
62 $ 0 $ rest 0 checksum 812888
63 $ 0 $ rest 0 checksum 389369
64 $ 0 $ G6 at 190
65 $ 0 $ G6 at 190
62 $ 1 $ rest 0 checksum 812888
63 $ 1 $ G6 at 187
1 $ 62 $ rest 0 checksum 722854
2 $ 62 $ G6 at 4
0 $ 63 $ rest 0 checksum 535733
1 $ 63 $ G6 at 1
0 $ 64 $ G6 at 0
1 $ 64 $ G6 at 0
0 $ 70 $ G6 at 0
1 $ 70 $ G6 at 0
=$$a$[b]$
62 $ 0 $ rest 0 checksum 337978
63 $ 0 $ rest 0 checksum 595240
64 $ 0 $ G6 at 190
65 $ 0 $ G6 at 190
62 $ 1 $ rest 0 checksum 337978
63 $ 1 $ G6 at 187
1 $ 62 $ rest 0 checksum 82359
2 $ 62 $ G6 at 4
0 $ 63 $ rest 0 checksum 535733
1 $ 63 $ G6 at 1
0 $ 64 $ G6 at 0
1 $ 64 $ G6 at 0
=$$a$(b = c)$
62 $ 0 $ rest 0 checksum 174321
63 $ 0 $ rest 0 checksum 586637
64 $ 0 $ G6 at 442
65 $ 0 $ G6 at 442
62 $ 1 $ rest 0 checksum 174321
63 $ 1 $ G6 at 435
1 $ 62 $ rest 0 checksum 499873
2 $ 62 $ G6 at 8
0 $ 63 $ rest 0 checksum 535733
1 $ 63 $ G6 at 1
0 $ 64 $ G6 at 0
1 $ 64 $ G6 at 0
=$$a$.b(c)[d]$
20 $ 0 $ rest 0 checksum 393074
21 $ 0 $ rest 0 checksum 325193
22 $ 0 $ G6 at 169
23 $ 0 $ G6 at 169
20 $ 1 $ rest 0 checksum 393074
21 $ 1 $ G6 at 166
0 $ 62 $ rest 0 checksum 535733
1 $ 62 $ G6 at 3
0 $ 63 $ rest 0 checksum 535733
1 $ 63 $ G6 at 1
0 $ 64 $ G6 at 0
1 $ 64 $ G6 at 0
=-$$a$.b$
61 $ 0 $ rest 0 checksum 333939
62 $ 0 $ rest 0 checksum 885767
63 $ 0 $ G6 at 126
64 $ 0 $ G6 at 126
61 $ 1 $ rest 0 checksum 333939
62 $ 1 $ G6 at 124
0 $ 62 $ rest 0 checksum 759440
1 $ 62 $ G6 at 2
0 $ 63 $ G6 at 1
1 $ 63 $ G6 at 1
0 $ 64 $ G6 at 0
1 $ 64 $ G6 at 0
=-$$1$.b$
61 $ 0 $ rest 0 checksum 790270
62 $ 0 $ rest 0 checksum 221852
63 $ 0 $ G6 at 126
64 $ 0 $ G6 at 126
61 $ 1 $ rest 0 checksum 790270
62 $ 1 $ G6 at 124
0 $ 62 $ rest 0 checksum 105424
1 $ 62 $ G6 at 2
0 $ 63 $ rest 0 checksum 105424
1 $ 63 $ G6 at 2
0 $ 64 $ G6 at 0
1 $ 64 $ G6 at 0
=!$$a$.b$
61 $ 0 $ rest 0 checksum 414247
62 $ 0 $ rest 0 checksum 875195
63 $ 0 $ G6 at 126
64 $ 0 $ G6 at 126
61 $ 1 $ rest 0 checksum 414247
62 $ 1 $ G6 at 124
0 $ 62 $ rest 0 checksum 734108
1 $ 62 $ G6 at 2
0 $ 63 $ G6 at 0
1 $ 63 $ G6 at 0
0 $ 64 $ G6 at 0
1 $ 64 $ G6 at 0
=a + b * $$c$.d$
60 $ 0 $ rest 0 checksum 789938
61 $ 0 $ rest 0 checksum 209641
62 $ 0 $ G6 at 131
63 $ 0 $ G6 at 131
60 $ 1 $ rest 0 checksum 789938
61 $ 1 $ G6 at 129
0 $ 62 $ G6 at 6
1 $ 62 $ G6 at 6
0 $ 63 $ G6 at 2
1 $ 63 $ G6 at 2
0 $ 64 $ G6 at 0
1 $ 64 $ G6 at 0
=$$a.b$ + c$.d
61 $ 0 $ rest 0 checksum 656357
62 $ 0 $ rest 0 checksum 223045
63 $ 0 $ G6 at 252
64 $ 0 $ G6 at 252
61 $ 1 $ rest 0 checksum 656357
62 $ 1 $ G6 at 248
0 $ 62 $ G6 at 3
1 $ 62 $ G6 at 4
0 $ 63 $ G6 at 1
1 $ 63 $ G6 at 1
0 $ 64 $ G6 at 0
1 $ 64 $ G6 at 0
=a[$b[$c$]$]
61 $ 0 $ rest 0 checksum 618214
62 $ 0 $ rest 0 checksum 645222
63 $ 0 $ G6 at 127
64 $ 0 $ G6 at 127
61 $ 1 $ rest 0 checksum 618214
62 $ 1 $ G6 at 125
0 $ 62 $ rest 0 checksum 568854
1 $ 62 $ G6 at 3
0 $ 63 $ G6 at 1
1 $ 63 $ G6 at 1
0 $ 64 $ G6 at 0
1 $ 64 $ G6 at 0
=$a($b$)$
62 $ 0 $ rest 0 checksum 173289
63 $ 0 $ rest 0 checksum 703726
64 $ 0 $ G6 at 127
65 $ 0 $ G6 at 127
62 $ 1 $ rest 0 checksum 173289
63 $ 1 $ G6 at 125
1 $ 62 $ rest 0 checksum 722854
2 $ 62 $ G6 at 3
0 $ 63 $ rest 0 checksum 459254
1 $ 63 $ G6 at 1
0 $ 64 $ G6 at 0
1 $ 64 $ G6 at 0
=$a(b, $c$, d)$
62 $ 0 $ rest 0 checksum 226669
63 $ 0 $ rest 0 checksum 325670
64 $ 0 $ G6 at 316
65 $ 0 $ G6 at 316
62 $ 1 $ rest 0 checksum 226669
63 $ 1 $ G6 at 311
1 $ 62 $ rest 0 checksum 677342
2 $ 62 $ G6 at 6
0 $ 63 $ rest 0 checksum 382775
1 $ 63 $ G6 at 1
0 $ 64 $ G6 at 0
1 $ 64 $ G6 at 0
=$a($$)$
62 $ 0 $ rest 0 checksum 368618
63 $ 0 $ rest 0 checksum 892895
64 $ 0 $ G6 at 127
65 $ 0 $ G6 at 127
62 $ 1 $ rest 0 checksum 368618
63 $ 1 $ G6 at 125
1 $ 62 $ rest 0 checksum 870052
2 $ 62 $ G6 at 3
0 $ 63 $ G1 at 0
1 $ 63 $ G6 at 1
0 $ 64 $ G1 at 0
1 $ 64 $ G6 at 0
=$a(b = $c$)$
62 $ 0 $ rest 0 checksum 913629
63 $ 0 $ rest 0 checksum 974233
64 $ 0 $ G6 at 379
65 $ 0 $ G6 at 379
62 $ 1 $ rest 0 checksum 913629
63 $ 1 $ G6 at 373
1 $ 62 $ rest 0 checksum 499873
2 $ 62 $ G6 at 7
0 $ 63 $ rest 0 checksum 382775
1 $ 63 $ G6 at 1
0 $ 64 $ G6 at 0
1 $ 64 $ G6 at 0
=$a(b = c, d = $e$, f = g)$
62 $ 0 $ rest 0 checksum 32195
63 $ 0 $ rest 0 checksum 529022
64 $ 0 $ G6 at 820
65 $ 0 $ G6 at 820
62 $ 1 $ rest 0 checksum 32195
63 $ 1 $ G6 at 807
1 $ 62 $ rest 0 checksum 512919
2 $ 62 $ G6 at 14
0 $ 63 $ rest 0 checksum 229817
1 $ 63 $ G6 at 1
0 $ 64 $ G6 at 0
1 $ 64 $ G6 at 0
=$-($a$)$
30 $ 0 $ rest 0 checksum 314497
31 $ 0 $ rest 0 checksum 167767
32 $ 0 $ G6 at 63
33 $ 0 $ G6 at 63
31 $ 1 $ rest 0 checksum 167767
32 $ 1 $ G6 at 63
0 $ 62 $ rest 0 checksum 535733
1 $ 62 $ G6 at 1
0 $ 63 $ rest 0 checksum 535733
1 $ 63 $ G6 at 1
0 $ 64 $ G6 at 0
1 $ 64 $ G6 at 0
=$!($a$)$
30 $ 0 $ rest 0 checksum 65281
31 $ 0 $ rest 0 checksum 634827
32 $ 0 $ G6 at 63
33 $ 0 $ G6 at 63
31 $ 1 $ rest 0 checksum 634827
32 $ 1 $ G6 at 62
0 $ 62 $ rest 0 checksum 535733
1 $ 62 $ G6 at 1
0 $ 63 $ rest 0 checksum 535733
1 $ 63 $ G6 at 0
0 $ 64 $ G6 at 0
1 $ 64 $ G6 at 0
=$~($1$)$
30 $ 0 $ rest 0 checksum 23862
31 $ 0 $ rest 0 checksum 753757
32 $ 0 $ G6 at 63
33 $ 0 $ G6 at 63
31 $ 1 $ rest 0 checksum 753757
32 $ 1 $ G6 at 62
0 $ 62 $ rest 0 checksum 370442
1 $ 62 $ G6 at 1
0 $ 63 $ rest 0 checksum 370442
1 $ 63 $ G6 at 0
0 $ 64 $ G6 at 0
1 $ 64 $ G6 at 0
=$if ($a$) b else c$
62 $ 0 $ rest 0 checksum 513981
63 $ 0 $ rest 0 checksum 675284
64 $ 0 $ G6 at 252
65 $ 0 $ G6 at 252
62 $ 1 $ rest 0 checksum 513981
63 $ 1 $ G6 at 248
1 $ 62 $ rest 0 checksum 685159
2 $ 62 $ G6 at 4
0 $ 63 $ rest 0 checksum 535733
1 $ 63 $ G6 at 0
0 $ 64 $ G6 at 0
1 $ 64 $ G6 at 0
=$if (a) $b$ else c$
62 $ 0 $ rest 0 checksum 437022
63 $ 0 $ rest 0 checksum 491558
64 $ 0 $ G6 at 441
65 $ 0 $ G6 at 441
62 $ 1 $ rest 0 checksum 437022
63 $ 1 $ G6 at 434
1 $ 62 $ rest 0 checksum 685159
2 $ 62 $ G6 at 7
0 $ 63 $ rest 0 checksum 459254
1 $ 63 $ G6 at 0
0 $ 64 $ G6 at 0
1 $ 64 $ G6 at 0
=$if (a) b else $c$$
62 $ 0 $ rest 0 checksum 625036
63 $ 0 $ rest 0 checksum 988435
64 $ 0 $ G6 at 882
65 $ 0 $ G6 at 882
62 $ 1 $ rest 0 checksum 625036
63 $ 1 $ G6 at 868
1 $ 62 $ rest 0 checksum 685159
2 $ 62 $ G6 at 14
0 $ 63 $ rest 0 checksum 382775
1 $ 63 $ G6 at 0
0 $ 64 $ G6 at 0
1 $ 64 $ G6 at 0
=$a match { case b => $c$ }$
61 $ 0 $ rest 0 checksum 425926
62 $ 0 $ rest 0 checksum 400965
63 $ 0 $ G6 at 1260
64 $ 0 $ G6 at 1260
61 $ 1 $ rest 0 checksum 425926
62 $ 1 $ G6 at 1240
0 $ 62 $ rest 0 checksum 382775
1 $ 62 $ G6 at 20
0 $ 63 $ rest 0 checksum 382775
1 $ 63 $ G6 at 2
0 $ 64 $ G6 at 0
1 $ 64 $ G6 at 0
=$a match { case b => ($c$) }$
20 $ 0 $ rest 0 checksum 462075
21 $ 0 $ rest 0 checksum 802003
22 $ 0 $ G6 at 443
23 $ 0 $ G6 at 443
20 $ 1 $ rest 0 checksum 462075
21 $ 1 $ G6 at 440
0 $ 62 $ rest 0 checksum 382775
1 $ 62 $ G6 at 20
0 $ 63 $ rest 0 checksum 382775
1 $ 63 $ G6 at 2
0 $ 64 $ G6 at 0
1 $ 64 $ G6 at 0
=$($a$ match { case b => })$
30 $ 0 $ rest 0 checksum 550758
31 $ 0 $ rest 0 checksum 885719
32 $ 0 $ G6 at 685
33 $ 0 $ G6 at 665
31 $ 1 $ rest 0 checksum 885719
32 $ 1 $ G6 at 664
0 $ 62 $ rest 0 checksum 535733
1 $ 62 $ G6 at 3
0 $ 63 $ rest 0 checksum 535733
1 $ 63 $ G6 at 0
0 $ 64 $ G6 at 0
1 $ 64 $ G6 at 0
=$a match { case b if $c$ => }$
62 $ 0 $ rest 0 checksum 570644
63 $ 0 $ rest 0 checksum 32102
64 $ 0 $ G6 at 1262
65 $ 0 $ G6 at 1262
62 $ 1 $ rest 0 checksum 570644
63 $ 1 $ G6 at 1242
1 $ 62 $ rest 0 checksum 988915
2 $ 62 $ G6 at 22
0 $ 63 $ rest 0 checksum 382775
1 $ 63 $ G6 at 2
0 $ 64 $ G6 at 0
1 $ 64 $ G6 at 0
=$a + (b match { case c => $d$ })$
14 $ 0 $ rest 0 checksum 197471
15 $ 0 $ rest 0 checksum 674432
16 $ 0 $ G6 at 400
17 $ 0 $ G6 at 400
15 $ 1 $ rest 0 checksum 674432
16 $ 1 $ G6 at 382
0 $ 62 $ rest 0 checksum 306296
1 $ 62 $ G6 at 4
0 $ 63 $ rest 0 checksum 306296
1 $ 63 $ G6 at 2
0 $ 64 $ G6 at 0
1 $ 64 $ G6 at 0
=$a(b match { case c => d case e => $f$ })$
20 $ 0 $ rest 0 checksum 333065
21 $ 0 $ rest 0 checksum 524742
22 $ 0 $ G6 at 715
23 $ 0 $ G6 at 715
20 $ 1 $ rest 0 checksum 333065
21 $ 1 $ G6 at 702
0 $ 62 $ rest 0 checksum 153338
1 $ 62 $ G6 at 4
0 $ 63 $ rest 0 checksum 153338
1 $ 63 $ G6 at 1
0 $ 64 $ G6 at 0
1 $ 64 $ G6 at 0
=$($a$).b$
30 $ 0 $ rest 0 checksum 44648
31 $ 0 $ rest 0 checksum 951808
32 $ 0 $ G6 at 127
33 $ 0 $ G6 at 125
31 $ 1 $ rest 0 checksum 951808
32 $ 1 $ G6 at 124
0 $ 62 $ rest 0 checksum 535733
1 $ 62 $ G6 at 3
0 $ 63 $ rest 0 checksum 535733
1 $ 63 $ G6 at 0
0 $ 64 $ G6 at 0
1 $ 64 $ G6 at 0
=$($a$)(b)$
30 $ 0 $ rest 0 checksum 148987
31 $ 0 $ rest 0 checksum 884998
32 $ 0 $ G6 at 158
33 $ 0 $ G6 at 155
31 $ 1 $ rest 0 checksum 884998
32 $ 1 $ G6 at 154
0 $ 62 $ rest 0 checksum 535733
1 $ 62 $ G6 at 3
0 $ 63 $ rest 0 checksum 535733
1 $ 63 $ G6 at 0
0 $ 64 $ G6 at 0
1 $ 64 $ G6 at 0
"#;
