// Blocks that are open near the limit, and long blocks.

/// Behind so many open loops.
pub const OPEN: &[u8] = br#"
={ $while (a) { $$$
61 $ 0 $ G1 at 734
62 $ 0 $ G1 at 746
63 $ 0 $ G1 at 758
64 $ 0 $ G6 at 758
={ $while (a) { $a$$
61 $ 0 $ G1 at 735
62 $ 0 $ G1 at 747
63 $ 0 $ G6 at 758
64 $ 0 $ G6 at 758
={ $while (a) { $return$$
61 $ 0 $ G1 at 740
62 $ 0 $ G1 at 752
63 $ 0 $ G1 at 764
64 $ 0 $ G6 at 758
={ $while (a) { $return a$$
61 $ 0 $ G1 at 742
62 $ 0 $ G1 at 754
63 $ 0 $ G6 at 765
64 $ 0 $ G6 at 758
={ $while (a) { $return =$$
61 $ 0 $ G1 at 741
62 $ 0 $ G1 at 753
63 $ 0 $ G1 at 765
64 $ 0 $ G6 at 758
={ $while (a) { $val$$
61 $ 0 $ G1 at 737
62 $ 0 $ G1 at 749
63 $ 0 $ G6 at 758
64 $ 0 $ G6 at 758
={ $while (a) { $var a$$
61 $ 0 $ G1 at 739
62 $ 0 $ G1 at 751
63 $ 0 $ G6 at 758
64 $ 0 $ G6 at 758
={ $while (a) { $if$$
61 $ 0 $ G1 at 736
62 $ 0 $ G1 at 748
63 $ 0 $ G6 at 758
64 $ 0 $ G6 at 758
={ $while (a) { $if ($$
61 $ 0 $ G1 at 738
62 $ 0 $ G1 at 750
63 $ 0 $ G6 at 758
64 $ 0 $ G6 at 758
={ $while (a) { $if (a$$
61 $ 0 $ G1 at 739
62 $ 0 $ G1 at 751
63 $ 0 $ G6 at 758
64 $ 0 $ G6 at 758
={ $while (a) { $while$$
61 $ 0 $ G1 at 739
62 $ 0 $ G1 at 751
63 $ 0 $ G6 at 758
64 $ 0 $ G6 at 758
={ $while (a) { $for$$
61 $ 0 $ G1 at 737
62 $ 0 $ G1 at 749
63 $ 0 $ G6 at 758
64 $ 0 $ G6 at 758
={ $while (a) { $l"a"$$
61 $ 0 $ G1 at 738
62 $ 0 $ G1 at 750
63 $ 0 $ G1 at 762
64 $ 0 $ G6 at 758
={ $while (a) { $l"a" b$$
61 $ 0 $ G1 at 739
62 $ 0 $ G1 at 751
63 $ 0 $ G1 at 763
64 $ 0 $ G6 at 758
={ $while (a) { $Contract$$
61 $ 0 $ G1 at 742
62 $ 0 $ G1 at 754
63 $ 0 $ G1 at 766
64 $ 0 $ G6 at 758
={ $while (a) { $Contract($$
61 $ 0 $ G1 at 743
62 $ 0 $ G1 at 755
63 $ 0 $ G1 at 767
64 $ 0 $ G6 at 758
={ $while (a) { $Contract(a)$$
61 $ 0 $ G1 at 745
62 $ 0 $ G1 at 757
63 $ 0 $ G1 at 769
64 $ 0 $ G6 at 758
={ $while (a) { $Contract.$$
61 $ 0 $ G1 at 743
62 $ 0 $ G6 at 754
63 $ 0 $ G6 at 766
64 $ 0 $ G6 at 758
={ $while (a) { $Contract =$$
61 $ 0 $ G1 at 744
62 $ 0 $ G1 at 756
63 $ 0 $ G6 at 767
64 $ 0 $ G6 at 758
={ $while (a) { $a =$$
61 $ 0 $ G1 at 737
62 $ 0 $ G1 at 749
63 $ 0 $ G6 at 758
64 $ 0 $ G6 at 758
={ $while (a) { $a = b$$
61 $ 0 $ G1 at 739
62 $ 0 $ G1 at 751
63 $ 0 $ G6 at 758
64 $ 0 $ G6 at 758
={ $while (a) { $-$$
61 $ 0 $ G1 at 735
62 $ 0 $ G1 at 747
63 $ 0 $ G6 at 758
64 $ 0 $ G6 at 758
={ $while (a) { $-1$$
61 $ 0 $ G1 at 736
62 $ 0 $ G1 at 748
63 $ 0 $ G6 at 758
64 $ 0 $ G6 at 758
={ $while (a) { $- a$$
61 $ 0 $ G1 at 737
62 $ 0 $ G6 at 748
63 $ 0 $ G6 at 758
64 $ 0 $ G6 at 758
={ $while (a) { $!$$
61 $ 0 $ G1 at 735
62 $ 0 $ G6 at 746
63 $ 0 $ G6 at 758
64 $ 0 $ G6 at 758
={ $while (a) { $($$
61 $ 0 $ G1 at 735
62 $ 0 $ G6 at 746
63 $ 0 $ G6 at 758
64 $ 0 $ G6 at 758
={ $while (a) { $a($$
61 $ 0 $ G1 at 736
62 $ 0 $ G6 at 747
63 $ 0 $ G6 at 758
64 $ 0 $ G6 at 758
={ $while (a) { $a.b$$
61 $ 0 $ G1 at 737
62 $ 0 $ G6 at 747
63 $ 0 $ G6 at 758
64 $ 0 $ G6 at 758
={ $while (a) { $a match$$
61 $ 0 $ G1 at 741
62 $ 0 $ G1 at 753
63 $ 0 $ G6 at 758
64 $ 0 $ G6 at 758
={ $while (a) { $this$$
61 $ 0 $ G1 at 738
62 $ 0 $ G1 at 750
63 $ 0 $ G6 at 758
64 $ 0 $ G6 at 758
={ $while (a) { $s"a"$$
61 $ 0 $ G1 at 738
62 $ 0 $ G1 at 750
63 $ 0 $ G6 at 758
64 $ 0 $ G6 at 758
={ $while (a) { $1$$
61 $ 0 $ G1 at 735
62 $ 0 $ G1 at 747
63 $ 0 $ G6 at 758
64 $ 0 $ G6 at 758
={ $while (a) { $else$$
61 $ 0 $ G1 at 734
62 $ 0 $ G1 at 746
63 $ 0 $ G1 at 758
64 $ 0 $ G6 at 758
={ $while (a) { $case$$
61 $ 0 $ G1 at 734
62 $ 0 $ G1 at 746
63 $ 0 $ G1 at 758
64 $ 0 $ G6 at 758
={ $while (a) { $=$$
61 $ 0 $ G1 at 734
62 $ 0 $ G1 at 746
63 $ 0 $ G1 at 758
64 $ 0 $ G6 at 758
={ $while (a) { $}$$
61 $ 0 $ G1 at 735
62 $ 0 $ G1 at 747
63 $ 0 $ G1 at 759
64 $ 0 $ G6 at 758
={ $while (a) { $} else$$
61 $ 0 $ G1 at 736
62 $ 0 $ G1 at 748
63 $ 0 $ G1 at 760
64 $ 0 $ G6 at 758
={ $while (a) { $} else if$$
61 $ 0 $ G1 at 736
62 $ 0 $ G1 at 748
63 $ 0 $ G1 at 760
64 $ 0 $ G6 at 758
={ $while (a) { $} else {$$
61 $ 0 $ G1 at 736
62 $ 0 $ G1 at 748
63 $ 0 $ G1 at 760
64 $ 0 $ G6 at 758
={ $while (a) { $} ; a$$
61 $ 0 $ G1 at 739
62 $ 0 $ G1 at 751
63 $ 0 $ G1 at 763
64 $ 0 $ G6 at 758
"#;

/// Behind so many `else if`.
pub const ELSE: &[u8] = br#"
={ $if (a) { } else $if (b) { }$$ }
61 $ 0 $ rest 0 checksum 828639
62 $ 0 $ rest 0 checksum 708673
63 $ 0 $ G6 at 1010
64 $ 0 $ G6 at 1010
={ $if (a) { } else $if (b)$$
61 $ 0 $ G1 at 984
62 $ 0 $ G1 at 1000
63 $ 0 $ G6 at 1010
={ $if (a) { } else ${ return }$$ }
62 $ 0 $ rest 0 checksum 782039
63 $ 0 $ rest 0 checksum 98524
64 $ 0 $ G6 at 1010
={ $if (a) { } else ${ b }$$ }
61 $ 0 $ rest 0 checksum 385366
62 $ 0 $ rest 0 checksum 67031
63 $ 0 $ G6 at 1012
64 $ 0 $ G6 at 1010
={ $if (a) { } else ${$$
62 $ 0 $ G1 at 995
63 $ 0 $ G1 at 1011
64 $ 0 $ G6 at 1010
={ $if (a) { } else ${ }$$ }
62 $ 0 $ rest 0 checksum 590314
63 $ 0 $ rest 0 checksum 810868
64 $ 0 $ G6 at 1010
"#;

/// Long ones.
pub const LONG: &[u8] = br#"
={ $if (a) { } else $if (b) { }$$ }
9999 $ 0 $ G6 at 1010
={ a$$$;a$ }
9999 $ 62 $ rest 0 checksum 788749
9999 $ 63 $ G6 at 2
={ a$$$;a$
9999 $ 0 $ G1 at 20001
={ a$$$;a$ b }
9999 $ 0 $ G1 at 20002
={ return$$$;return$ }
9999 $ 63 $ rest 0 checksum 810215
9999 $ 64 $ G6 at 2
={ val a = b$$$;val a = b$ }
2999 $ 0 $ rest 0 checksum 638474
={ $while (a) { $$$
10000 $ 0 $ G6 at 758
={ $($$$
10000 $ 0 $ G6 at 64
10000 $ 63 $ G6 at 2
10000 $ 64 $ G6 at 2
={ a$$$ + b$ }
9999 $ 0 $ G6 at 252
={ if (a) { }$$$ else if (a) { }$ }
9999 $ 0 $ G6 at 1010
={ a match { case b =>$$$ case b =>$ } }
2999 $ 62 $ rest 0 checksum 704748
2999 $ 63 $ G6 at 2
={ Contract(a$$$, a$) }
9999 $ 63 $ rest 0 checksum 227403
={ Contract($($a$)$) }
10 $ 0 $ rest 0 checksum 744127
64 $ 0 $ rest 0 checksum 626893
10000 $ 0 $ rest 0 checksum 972263
64 $ 63 $ rest 0 checksum 626893
64 $ 64 $ G6 at 2
={ Contract($($$$
64 $ 0 $ G1 at 75
10000 $ 0 $ G1 at 10011
100000 $ 0 $ G1 at 100011
={ Contract($[{($a$)}]$) }
64 $ 0 $ rest 0 checksum 699210
3000 $ 0 $ rest 0 checksum 220112
64 $ 63 $ rest 0 checksum 699210
={ Contract($[{($a$)]}$) }
64 $ 0 $ G1 at 205
={${$$$
64 $ 0 $ G1 at 1
100000 $ 0 $ G1 at 1
"#;
