// A program, and its fronts.

/// The program.
pub const PROGRAM: &[u8] = br#"package ctl

import org.sireum._

@enum object Mode {
  "Off"
  "Heat"
  "Cool"
}

@range(min = -40, max = 125) class Temp

@record class State(var mode: Mode.Type, var last: Temp, val hist: MSZ[Z], var at: Z, var switches: Z)

object Thermo extends App {

  val low: Temp = temp"18"
  val high: Temp = temp"24"

  @pure def next(m: Mode.Type, t: Temp): Mode.Type = {
    if (t < low) {
      return Mode.Heat
    }
    if (t > high) {
      return Mode.Cool
    }
    if (m == Mode.Heat & t < temp"20") {
      return m
    }
    return Mode.Off
  }

  def step(s: State, b: Z): Unit = {
    Contract(
      Requires(0 <= b, b <= 255),
      Modifies(s)
    )
    val t: Temp = conversions.Z.toTemp(b % 64 - 10)
    val m: Mode.Type = next(s.mode, t)
    if (m != s.mode) {
      s.switches = s.switches + 1
    }
    s.mode = m
    s.last = t
    s.hist(s.at) = conversions.Temp.toZ(t)
    s.at = (s.at + 1) % 8
  }

  def main(args: ISZ[String]): Z = {
    val s: State = State(Mode.Off, temp"0", MSZ(0, 0, 0, 0, 0, 0, 0, 0), 0, 0)
    var b: Z = Port.get()
    while (b >= 0) {
      step(s, b)
      b = Port.get()
    }
    println(s)
    return 0
  }
}
"#;

/// Where it is cut off, and how many of its tokens are shown.
pub const FRONTS: &[u8] = br#"
0 7 11 19 23 24 30 31
32 $ file checksum 119592
35 39 46
51 $ G3 at 34
53 61 70 79
81 $ file checksum 476418
84 89 90 93 95 97 99 100 104 106 110 111 117
122 $ file checksum 156235
125 131 137
143 $ G3 at 124
144 147 152 153 158 159 163 164 168 173 174 179 180 184 189 190 194 195 196 197 198 202 205 206 208 209 213 222 223 225
226 $ file checksum 387558
234
241 $ file checksum 256901
249
253 $ file checksum 97551
255 262 266 267 272 274 283 289 294 295 300 302 311 316 320 324 329 330 331 332 337 338 342 343 345 346 351 352 353 358 359 363 365 367 374
376 377 379 383 384 386 399 404 405 409 415 422 424 425 427 432 433 435 448 453 454 458 464 471 473 474 477 482 483 487 489 491 493 502 503
505 518 520 526 537 542 543 546 550 557 562 563 564 565 571 572 574 575 577 578 579 584 586 588 601 602 617 618 619 622 624 625 627 630 634
635 636 651 652 653 654 660 668 670 671 676 678 690 691 692 693 699 700 701 703 706 708 711 712 720 722 723 728 729 733 735 740 741 742 743
747 748 750 751 758 760 761 764 766 767 771 772 774 782 783 791 793 795 796 804 806 808 814 820 821 825 827 829 835 836 840 842 844 850 851
855 856 857 858 860 861 863 875 876 880 881 884 885 886 887 893 894 896 898 900 901 902 904 906 908 909 911 913 917 924 929 930 934 935 939
940 946 947 948 949 951 953 955 963 965 966 972 974 980 981 985 986 989 990 998 999 1003 1004 1005 1006 1008 1009 1011 1012 1014 1015 1017
1018 1020 1021 1023 1024 1026 1027 1028 1030 1031 1033 1034 1042 1044 1045 1047 1049 1054 1055 1058 1059 1060 1070 1072 1073 1076 1078 1079
1081 1092 1093 1094 1095 1097 1098 1106 1108 1113 1114 1117 1118 1119 1125 1137 1138 1139 1140 1151 1153 1157
1159 $ file checksum 676445
9 # file checksum 119592
14 # G3 at 34
21 # file checksum 476418
36 # file checksum 156235
41 # G3 at 124
72 # file checksum 387558
75 # file checksum 256901
77 # file checksum 97551
389 # file checksum 676445
"#;
