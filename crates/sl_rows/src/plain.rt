// What plain programs answer to `run`: values, choices and halts.
use crate::called::{CALM, NONE, answers, app, runs};
use std::alloc::Global;
use std::test::Fail;

const OUTPUT: &[u8] = b"output fault\n";

/// The body of `main`; and the status, what is on `out` and what is on `note` where the file `a.scala` is run.
type Row = (&'static str, u8, &'static [u8], &'static [u8]);

/// Integers: results, and the halts where there is none.
const INTEGERS: [Row; 14] = [
    (
        "    var x: Z = 9223372036854775807\n    x = x + 1\n    return 0\n",
        66,
        b"",
        b"halt Range a.scala:6\n",
    ),
    (
        "    val x: Z = 9223372036854775806 + 1\n    println(x)\n    return 0\n",
        0,
        b"9223372036854775807\n",
        b"",
    ),
    (
        "    val x: Z = -9223372036854775808\n    println(x)\n    val y: Z = x - 1\n    println(y)\n    return 0\n",
        66,
        b"-9223372036854775808\n",
        b"halt Range a.scala:7\n",
    ),
    (
        "    val x: Z = -9223372036854775807 - 1\n    println(x)\n    return 0\n",
        0,
        b"-9223372036854775808\n",
        b"",
    ),
    (
        "    val x: Z = 3037000500 * 3037000500\n    return 0\n",
        66,
        b"",
        b"halt Range a.scala:5\n",
    ),
    (
        "    val x: Z = -4294967296 * 2147483648\n    println(x)\n    return 0\n",
        0,
        b"-9223372036854775808\n",
        b"",
    ),
    (
        "    val x: Z = 1 / 0\n    return 0\n",
        66,
        b"",
        b"halt Zero a.scala:5\n",
    ),
    (
        "    val x: Z = 1 % 0\n    return 0\n",
        66,
        b"",
        b"halt Zero a.scala:5\n",
    ),
    (
        "    val x: Z = -9223372036854775808 / -1\n    return 0\n",
        66,
        b"",
        b"halt Range a.scala:5\n",
    ),
    (
        "    val x: Z = -9223372036854775808 % -1\n    println(x)\n    return 0\n",
        0,
        b"0\n",
        b"",
    ),
    (
        "    val x: Z = -7 / 2\n    println(x)\n    val y: Z = -7 % 2\n    println(y)\n    return 0\n",
        0,
        b"-3\n-1\n",
        b"",
    ),
    (
        "    val x: Z = 7 / -2\n    println(x)\n    val y: Z = 7 % -2\n    println(y)\n    return 0\n",
        0,
        b"-3\n1\n",
        b"",
    ),
    ("    return -1\n", 69, b"", b"exit value -1\n"),
    (
        "    return 9223372036854775807\n",
        69,
        b"",
        b"exit value 9223372036854775807\n",
    ),
];

/// An operation; and the status, what is on `out` and what is on `note` where its result is printed.
const RESULTS: [Row; 50] = [
    ("7 / 2", 0, b"3\n", b""),
    ("7 % 2", 0, b"1\n", b""),
    ("-7 / -2", 0, b"3\n", b""),
    ("-7 % -2", 0, b"-1\n", b""),
    ("6 / -3", 0, b"-2\n", b""),
    ("-6 % 3", 0, b"0\n", b""),
    ("0 / -5", 0, b"0\n", b""),
    ("7 / -1", 0, b"-7\n", b""),
    ("7 % -1", 0, b"0\n", b""),
    (
        "-9223372036854775807 / -1",
        0,
        b"9223372036854775807\n",
        b"",
    ),
    (
        "-9223372036854775808 / 1",
        0,
        b"-9223372036854775808\n",
        b"",
    ),
    ("9223372036854775807 / -9223372036854775808", 0, b"0\n", b""),
    (
        "9223372036854775807 % -9223372036854775808",
        0,
        b"9223372036854775807\n",
        b"",
    ),
    (
        "-9223372036854775808 / 9223372036854775807",
        0,
        b"-1\n",
        b"",
    ),
    (
        "-9223372036854775808 % 9223372036854775807",
        0,
        b"-1\n",
        b"",
    ),
    ("0 / 0", 66, b"", b"halt Zero a.scala:5\n"),
    (
        "-9223372036854775808 / 0",
        66,
        b"",
        b"halt Zero a.scala:5\n",
    ),
    (
        "-9223372036854775808 % 0",
        66,
        b"",
        b"halt Zero a.scala:5\n",
    ),
    ("2 + 3", 0, b"5\n", b""),
    ("-2 + -3", 0, b"-5\n", b""),
    ("9223372036854775807 + 0", 0, b"9223372036854775807\n", b""),
    (
        "9223372036854775807 + -9223372036854775808",
        0,
        b"-1\n",
        b"",
    ),
    (
        "-9223372036854775807 + -1",
        0,
        b"-9223372036854775808\n",
        b"",
    ),
    (
        "-9223372036854775808 + -1",
        66,
        b"",
        b"halt Range a.scala:5\n",
    ),
    ("5 - 7", 0, b"-2\n", b""),
    ("9223372036854775806 - -1", 0, b"9223372036854775807\n", b""),
    (
        "-1 - -9223372036854775808",
        0,
        b"9223372036854775807\n",
        b"",
    ),
    (
        "9223372036854775807 - -1",
        66,
        b"",
        b"halt Range a.scala:5\n",
    ),
    (
        "0 - -9223372036854775808",
        66,
        b"",
        b"halt Range a.scala:5\n",
    ),
    ("-3 * 7", 0, b"-21\n", b""),
    ("0 * -9223372036854775808", 0, b"0\n", b""),
    ("-9223372036854775808 * 0", 0, b"0\n", b""),
    ("9223372036854775807 * 1", 0, b"9223372036854775807\n", b""),
    (
        "9223372036854775807 * -1",
        0,
        b"-9223372036854775807\n",
        b"",
    ),
    (
        "-9223372036854775807 * -1",
        0,
        b"9223372036854775807\n",
        b"",
    ),
    (
        "-9223372036854775808 * 1",
        0,
        b"-9223372036854775808\n",
        b"",
    ),
    (
        "4294967296 * -2147483648",
        0,
        b"-9223372036854775808\n",
        b"",
    ),
    (
        "4294967296 * 2147483648",
        66,
        b"",
        b"halt Range a.scala:5\n",
    ),
    (
        "-4294967296 * -2147483648",
        66,
        b"",
        b"halt Range a.scala:5\n",
    ),
    (
        "-3 * 3074457345618258603",
        66,
        b"",
        b"halt Range a.scala:5\n",
    ),
    ("9223372036854775807 / 1", 0, b"9223372036854775807\n", b""),
    (
        "3037000500 * -3037000500",
        66,
        b"",
        b"halt Range a.scala:5\n",
    ),
    (
        "-3037000500 * 3037000500",
        66,
        b"",
        b"halt Range a.scala:5\n",
    ),
    (
        "-9223372036854775808 * -1",
        66,
        b"",
        b"halt Range a.scala:5\n",
    ),
    ("5 + 5", 0, b"10\n", b""),
    ("-99 - 1", 0, b"-100\n", b""),
    ("100 + 1", 0, b"101\n", b""),
    ("1000000000 * 1000000000", 0, b"1000000000000000000\n", b""),
    (
        "1000000000 * -1000000000",
        0,
        b"-1000000000000000000\n",
        b"",
    ),
    ("1020304050607080900 + 9", 0, b"1020304050607080909\n", b""),
];

/// Choices, truth values, `assert` and `halt`.
const CHOICES: [Row; 16] = [
    (
        "    if (F) {\n      halt(\"a\")\n    }\n    assert(F)\n    return 0\n",
        66,
        b"",
        b"halt Assert a.scala:8\n",
    ),
    (
        "    for (i <- 1 until 4) {\n      val a: B = i < 2\n      println(a)\n      val b: B = i <= 2\n      println(b)\n      val c: B = i > 2\n      println(c)\n      val d: B = i >= 2\n      println(d)\n      val e: B = i == 2\n      println(e)\n      val f: B = i != 2\n      println(f)\n    }\n    return 0\n",
        0,
        b"T\nT\nF\nF\nF\nT\nF\nT\nF\nT\nT\nF\nF\nF\nT\nT\nF\nT\n",
        b"",
    ),
    (
        "    for (i <- 1 until 4) {\n      if (i < 2) {\n        println(\"a\")\n      }\n      if (i <= 2) {\n        println(\"b\")\n      }\n      if (i > 2) {\n        println(\"c\")\n      }\n      if (i >= 2) {\n        println(\"d\")\n      }\n      if (i == 2) {\n        println(\"e\")\n      }\n      if (i != 2) {\n        println(\"f\")\n      }\n    }\n    return 0\n",
        0,
        b"a\nb\nf\nb\nd\ne\nc\nd\nf\n",
        b"",
    ),
    (
        "    var x: Z = 1\n    x = 2\n    println(x)\n    println(\"a\")\n    assert(T)\n    if (T) {\n      x = 3\n    }\n    if (F) {\n      x = 4\n    } else {\n      x = 5\n    }\n    while (F) {\n      x = 6\n    }\n    while (F) {}\n    for (i <- 0 until 1) {\n      x = 7\n    }\n    halt(\"b\")\n    return 0\n",
        66,
        b"2\na\n",
        b"halt Halt a.scala:25\n",
    ),
    (
        "    if (T) {\n      println(\"a\")\n      halt(\"\")\n    } else {\n      println(\"b\")\n    }\n    return 0\n",
        66,
        b"a\n",
        b"halt Halt a.scala:7\n",
    ),
    (
        "    if (F) {\n      println(\"a\")\n    } else {\n      println(\"b\")\n      assert(F)\n    }\n    return 0\n",
        66,
        b"b\n",
        b"halt Assert a.scala:9\n",
    ),
    (
        "    val b: B = T\n    println(b)\n    println(T)\n    val c: B = b\n    println(c)\n    return 0\n",
        0,
        b"T\nT\nT\n",
        b"",
    ),
    (
        "    println(\" !#$%&'()*+,-./0123456789:;<=>?@ABCDEFGHIJKLMNOPQRSTUVWXYZ[]^_`abcdefghijklmnopqrstuvwxyz{|}~\")\nreturn 3\n",
        3,
        b" !#$%&'()*+,-./0123456789:;<=>?@ABCDEFGHIJKLMNOPQRSTUVWXYZ[]^_`abcdefghijklmnopqrstuvwxyz{|}~\n",
        b"",
    ),
    (
        "    val b: B = 1 < 2\n    println(b)\n    println(F)\n    return 0\n",
        0,
        b"T\nF\n",
        b"",
    ),
    (
        "    var x: Z = 5\n    if (x == 5) {\n      x = 6\n    } else {\n      x = 7\n    }\n    println(x)\n    return 0\n",
        0,
        b"6\n",
        b"",
    ),
    (
        "    var x: Z = 4\n    if (x == 5) {\n      x = 6\n    } else {\n      x = 7\n    }\n    println(x)\n    return 0\n",
        0,
        b"7\n",
        b"",
    ),
    (
        "    val b: B = F\n    if (b) {\n      println(\"a\")\n    }\n    println(\"b\")\n    return 2\n",
        2,
        b"b\n",
        b"",
    ),
    (
        "    println(\"a\")\n    assert(1 >= 2)\n    println(\"b\")\n    return 0\n",
        66,
        b"a\n",
        b"halt Assert a.scala:6\n",
    ),
    ("    assert(T)\n    return 3\n", 3, b"", b""),
    (
        "    if (1 != 1) {\n    } else {\n      halt(\"no\")\n    }\n    return 0\n",
        66,
        b"",
        b"halt Halt a.scala:7\n",
    ),
    ("    val x: Z = 63\n    return x\n", 63, b"", b""),
];

#[test]
fn integers_run(rt: HostRuntime) -> Result<(), Fail> {
    for (body, code, out, note) in &INTEGERS {
        assert!(rt; runs(rt.alloc(), body, (*code, out, note))?);
    }
    Ok(())
}

/// Whether this operation is computed so.
fn computes(alloc: Global, row: &Row) -> Result<bool, Fail> {
    let (operation, code, out, note) = row;
    let body = format!(in alloc; "    val x: Z = {operation}\n    println(x)\n    return 0\n")?;
    runs(alloc, body.as_str(), (*code, out, note))
}

#[test]
fn operations_are_computed(rt: HostRuntime) -> Result<(), Fail> {
    for row in &RESULTS {
        assert!(rt; computes(rt.alloc(), row)?);
    }
    Ok(())
}

#[test]
fn choices_run(rt: HostRuntime) -> Result<(), Fail> {
    for (body, code, out, note) in &CHOICES {
        assert!(rt; runs(rt.alloc(), body, (*code, out, note))?);
    }
    Ok(())
}

/// Bodies whose run is told by a line, and that line.
const TOLD: [Row; 2] = [
    (
        "    println(\"a\")\n    halt(\"b\")\n    return 0\n",
        66,
        b"a\n",
        b"halt Halt a.scala:6\n",
    ),
    (
        "    println(\"a\")\n    return 64\n",
        69,
        b"a\n",
        b"exit value 64\n",
    ),
];

/// Whether the run of this row is told so, and what it answers where the line, or the second byte, is refused.
fn line_of_a_run_refused(alloc: Global, row: &Row) -> Result<bool, Fail> {
    let (body, code, out, note) = row;
    let source = app(alloc, body)?;
    let words = ["run", "a.scala"];
    let files: [(&str, &[u8]); 1] = [("a.scala", source.as_bytes())];
    Ok(
        answers(alloc, &words, &files, CALM, (*code, out, note))?
            && answers(alloc, &words, &files, [NONE, NONE, &[1]], (75, out, OUTPUT))?
            && answers(
                alloc,
                &words,
                &files,
                [NONE, &[2], NONE],
                (75, b"a", OUTPUT),
            )?,
    )
}

#[test]
fn each_line_of_a_run_refused(rt: HostRuntime) -> Result<(), Fail> {
    for row in &TOLD {
        assert!(rt; line_of_a_run_refused(rt.alloc(), row)?);
    }
    Ok(())
}
