// Bodies near those of plain files, and in other layout.

/// Statements without loops.
pub const STATEMENTS: &[u8] = br#"
    val x: Z = 1;    x = 2;    return 0 $ not built
    val x: B = 1;    return 0 $ not built
    val x: Z = 1;    val x: Z = 2;    return 0 $ not built
    println(x);    return 0 $ not built
    if (T) {;      val x: Z = 1;    };    println(x);    return 0 $ not built
    if (T) {;    return 0 $ 9:1: G1
    return T $ not built
    val x: Z = 9223372036854775808;    return 0 $ not built
    val x: Z = 1 + T;    return 0 $ not built
    val x: Z = 1  + 1;    return 0 $ accepted
    val x: Z = -9223372036854775809;    return 0 $ not built
    val x: Z = -0;    return 0 $ not built
    val x: Z = 01;    return 0 $ 5:16: L8
    val x: Z = -01;    return 0 $ 5:17: L8
    val x: Z = +1;    return 0 $ 5:16: G1
    val x: Z = T;    return 0 $ not built
    val x: Z = 1 < 2;    return 0 $ not built
    val x: B = 1 + 2;    return 0 $ not built
    val x: Z = T + 1;    return 0 $ not built
    val x: B = T == T;    return 0 $ not built
    val x: B = 1 === 1;    return 0 $ 5:18: G1
    val x: B = 1 <2;    return 0 $ accepted
    val x: B = !T;    return 0 $ not built
    val x: B = true;    return 0 $ 5:16: G1
    val x: Z = x;    return 0 $ not built
    val x = 1;    return 0 $ not built
    val x:Z = 1;    return 0 $ accepted
    val x: Int = 1;    return 0 $ not built
    val x: Z = 1 ;    return 0 $ accepted
    val x: Z = 1 // a;    return 0 $ accepted
    var x: Z = 1;    x = T;    return 0 $ not built
    var x: B = T;    x = 1;    return 0 $ not built
    var x: Z = 1;    x += 1;    return 0 $ 6:7: G1
    x = 1;    return 0 $ not built
    if (T == T) {;    };    return 0 $ not built
    if (1) {;    };    return 0 $ not built
    if (1 + 1) {;    };    return 0 $ not built
    if (Port.get()) {;    };    return 0 $ not built
    if(T) {;    };    return 0 $ accepted
    if (T){;    };    return 0 $ accepted
    if (T) {};    return 0 $ accepted
    if (T) {;    } else {;    } else {;    };    return 0 $ 7:7: G1
    if (T) {;      val x: Z = 1;    };    val x: Z = 2;    return 0 $ not built
    if (T) {;      val x: Z = 1;    } else {;      val x: Z = 2;    };    return 0 $ not built
    if (T) {;    } else {;      val x: Z = 1;    };    val x: Z = 2;    return 0 $ not built
    if (F) {;    } else {;      val x: Z = 1;    };    println(x);    return 0 $ not built
    if (T) {;      val x: Z = 1;    } else {;      println(x);    };    return 0 $ not built
    if (T) {;      return 0;    };    return 0 $ not built
    } else {;    return 0 $ 5:7: G1
    };    return 0 $ 6:5: G1
    assert(1);    return 0 $ not built
    halt(T);    return 0 $ not built
    halt();    return 0 $ not built
    println();    return 0 $ not built
    println (1);    return 0 $ accepted
    println(1 + 1);    return 0 $ not built
    println(1, 2);    return 0 $ not built
    print("a");    return 0 $ not built
    println("a"");    return 0 $ 5:16: L4
    println("01234567890123456789012345678901234567890123456789012345678901234567890123456789012345678901234567890");    return 0 $ not built
;    return 0 $ accepted
    return 0  $ accepted
    return 1 + 1 $ not built
    return $ not built
"#;

/// Loops and input.
pub const LOOPS: &[u8] = br#"
    while (1) {};    return 0 $ not built
    while (F) {;      val x: Z = 1;    };    println(x);    return 0 $ not built
    while (F) {;      val x: Z = 1;    };    val x: Z = 2;    return 0 $ not built
    while (x < 1) {;      val x: Z = 1;    };    return 0 $ not built
    for (i <- T until 1) {;    };    return 0 $ not built
    for (i <- 0 until i) {;    };    return 0 $ not built
    for (i <- 0 until 1) {;    };    for (i <- 0 until 1) {;    };    return 0 $ not built
    for (i <- 0 until 1) {;      val x: Z = 1;    };    println(x);    return 0 $ not built
    for (i <- 0 until 1) {;      val x: Z = 1;    };    val x: Z = 2;    return 0 $ not built
    for (i <- 0 until 1) {;    } else {;    };    return 0 $ 6:7: G1
    for (i <- 0 until 1 by 2) {;    };    return 0 $ 5:25: G1
    for (i <- 0 until 1 + 1) {;    };    return 0 $ not built
    for (i: Z <- 0 until 1) {;    };    return 0 $ 5:11: G1
    for (val <- 0 until 1) {;    };    return 0 $ 5:10: G1
    while (1) {;    };    return 0 $ not built
    while (F) { };    return 0 $ accepted
    while (F) {;    return 0 $ 9:1: G1
    while (F) {;    } else {;    };    return 0 $ 6:7: G1
    for (i <- 0 until T) {;    };    return 0 $ not built
    for (i <- 0 to 1) {;    };    return 0 $ not built
    for (i <- i until 1) {;    };    return 0 $ not built
    for (i <- 0 until 1) {;    };    println(i);    return 0 $ not built
    for (i <- 0 until 1) {;      i = 2;    };    return 0 $ not built
    for (i <- 0 until 1) {;      val i: Z = 2;    };    return 0 $ not built
    for (i <- 0 until 1) {};    return 0 $ accepted
    val i: Z = 0;    for (i <- 0 until 1) {;    };    return 0 $ not built
    println(Port.get());    return 0 $ not built
    val b: B = Port.get();    return 0 $ not built
    val b: Z = Port.get() + 1;    return 0 $ not built
    val b: Z = Port.get( );    return 0 $ accepted
"#;

/// Bodies that no table can hold.
pub const ODD: [(&str, &str); 22] = [
    ("    val x: Z = 1;\n    return 0\n", "5:17: L3"),
    ("    println(\"\t\")\n    return 0\n", "not built"),
    ("    println(\"\u{7f}\")\n    return 0\n", "not built"),
    ("    println(\"\u{e9}\")\n    return 0\n", "not built"),
    ("\treturn 0\n", "accepted"),
    ("    return 0;\n", "5:13: L3"),
    ("    println(\"a\")\r\n    return 0\r\n", "accepted"),
    ("\tprintln(\"a\")\t\n\treturn\t0\t\n", "accepted"),
    ("    println(\"a\")\r    return 0\n", "5:22: G1"),
    (
        "    /* \u{e9}\u{4e2d} */ println(\"a\") // \u{1d4d0}\n    return 0\n",
        "accepted",
    ),
    (
        "    val x: Z = 1;\n    val y: Z = 2;\n    return 0\n",
        "5:17: L3",
    ),
    ("    val \u{e9}: Z = 1\n    return 0\n", "not built"),
    ("    println(\"a;b\")\n    return 0\n", "accepted"),
    ("    // ; \n    return 0\n", "accepted"),
    ("    l\"\u{e9};\"\n    return 0\n", "accepted"),
    ("    \u{a0}return 0\n", "5:5: L3"),
    ("    return 0\u{2028}\n", "5:13: L3"),
    ("    \u{0}return 0\n", "5:5: L3"),
    ("    \u{c}return 0\n", "5:5: L3"),
    ("    val x: Z = 1\u{301}\n    return 0\n", "5:16: L8"),
    ("    println('\u{e9}')\n    return 0\n", "not built"),
    (
        "    println(\"\u{e9}\") + \u{20ac}\n    return 0\n",
        "5:21: L3",
    ),
];
