// What plain programs with loops and with input answer to `run`.
use crate::called::{Answer, CALM, answers, app, reads, runs};
use std::alloc::Global;
use std::test::Fail;

const SPENT: &[u8] = b"turns spent\n";

const INPUT: &[u8] = b"input fault\n";

/// The body of `main`; and the status, what is on `out` and what is on `note` where the file `a.scala` is run.
type Row = (&'static str, u8, &'static [u8], &'static [u8]);

/// Loops with all the turns that a run has.
const LOOPS: [Row; 14] = [
    (
        "    for (i <- 0 until 2) {\n      println(i)\n      assert(i < 1)\n      println(\"a\")\n    }\n    return 0\n",
        66,
        b"0\na\n1\n",
        b"halt Assert a.scala:7\n",
    ),
    (
        "    while (T) {\n      halt(\"a\")\n    }\n    return 0\n",
        66,
        b"",
        b"halt Halt a.scala:6\n",
    ),
    ("    while (F) {}\n    return 0\n", 0, b"", b""),
    (
        "    var x: Z = 3\n    while (x > 0) {\n      println(x)\n      x = x - 1\n    }\n    return x\n",
        0,
        b"3\n2\n1\n",
        b"",
    ),
    (
        "    for (i <- 0 until 3) {\n      println(i)\n    }\n    return 0\n",
        0,
        b"0\n1\n2\n",
        b"",
    ),
    (
        "    for (i <- 3 until 3) {\n      println(i)\n    }\n    for (j <- 3 until -3) {\n      println(j)\n    }\n    return 0\n",
        0,
        b"",
        b"",
    ),
    (
        "    for (i <- -2 until 1) {\n      println(i)\n    }\n    return 0\n",
        0,
        b"-2\n-1\n0\n",
        b"",
    ),
    (
        "    var n: Z = 2\n    for (i <- 0 until n) {\n      n = 5\n      println(i)\n    }\n    println(n)\n    return 0\n",
        0,
        b"0\n1\n5\n",
        b"",
    ),
    (
        "    for (i <- 9223372036854775806 until 9223372036854775807) {\n      println(i)\n    }\n    return 0\n",
        0,
        b"9223372036854775806\n",
        b"",
    ),
    (
        "    for (i <- 0 until 2) {\n      for (j <- 0 until 2) {\n        val k: Z = i * 10\n        val l: Z = k + j\n        println(l)\n      }\n    }\n    return 0\n",
        0,
        b"0\n1\n10\n11\n",
        b"",
    ),
    (
        "    var x: Z = 9223372036854775806\n    while (T) {\n      x = x + 1\n    }\n    return 0\n",
        66,
        b"",
        b"halt Range a.scala:7\n",
    ),
    (
        "    for (i <- 0 until 3) {\n      println(i)\n      assert(i < 1)\n    }\n    return 0\n",
        66,
        b"0\n1\n",
        b"halt Assert a.scala:7\n",
    ),
    (
        "    var b: B = T\n    while (b) {\n      b = F\n    }\n    println(b)\n    return 0\n",
        0,
        b"F\n",
        b"",
    ),
    (
        "    if (T) {\n      while (F) {\n        halt(\"a\")\n      }\n    } else {\n      for (i <- 0 until 1) {\n        halt(\"b\")\n      }\n    }\n    return 4\n",
        4,
        b"",
        b"",
    ),
];

/// The option for the turns, the body of `main`, and what is answered.
type Turned = (&'static str, &'static str, u8, &'static [u8], &'static [u8]);

/// A turn is the call of `main` and each asking of a loop.
const TURNS: [Turned; 18] = [
    (
        "--turns=12",
        "    for (i <- 0 until 2) {\n      for (j <- 0 until 3) {\n        if (i < j) {\n        }\n      }\n    }\n    return 2\n",
        2,
        b"",
        b"",
    ),
    (
        "--turns=11",
        "    for (i <- 0 until 2) {\n      for (j <- 0 until 3) {\n        if (i < j) {\n        }\n      }\n    }\n    return 2\n",
        67,
        b"",
        SPENT,
    ),
    (
        "--turns=4",
        "    var x: Z = 0\n    while (x < 2) {\n      println(x)\n      x = x + 1\n    }\n    return 0\n",
        0,
        b"0\n1\n",
        b"",
    ),
    (
        "--turns=3",
        "    var x: Z = 0\n    while (x < 2) {\n      println(x)\n      x = x + 1\n    }\n    return 0\n",
        67,
        b"0\n1\n",
        SPENT,
    ),
    ("--turns=0", "    return 0\n", 67, b"", SPENT),
    ("--turns=1", "    return 0\n", 0, b"", b""),
    (
        "--turns=1",
        "    while (F) {}\n    return 0\n",
        67,
        b"",
        SPENT,
    ),
    ("--turns=2", "    while (F) {}\n    return 0\n", 0, b"", b""),
    (
        "--turns=1000",
        "    while (T) {}\n    return 0\n",
        67,
        b"",
        SPENT,
    ),
    (
        "--turns=3",
        "    while (T) {\n      println(\"a\")\n    }\n    return 0\n",
        67,
        b"a\na\n",
        SPENT,
    ),
    (
        "--turns=4",
        "    for (i <- 0 until 3) {\n      println(i)\n    }\n    return 0\n",
        67,
        b"0\n1\n2\n",
        SPENT,
    ),
    (
        "--turns=5",
        "    for (i <- 0 until 3) {\n      println(i)\n    }\n    return 0\n",
        0,
        b"0\n1\n2\n",
        b"",
    ),
    (
        "--turns=1",
        "    for (i <- 3 until 0) {\n    }\n    return 0\n",
        67,
        b"",
        SPENT,
    ),
    (
        "--turns=2",
        "    for (i <- 3 until 0) {\n    }\n    return 0\n",
        0,
        b"",
        b"",
    ),
    (
        "--turns=1",
        "    println(\"a\")\n    halt(\"b\")\n    return 0\n",
        66,
        b"a\n",
        b"halt Halt a.scala:6\n",
    ),
    ("--turns=1", "    return 64\n", 69, b"", b"exit value 64\n"),
    ("--turns=9223372036854775807", "    return 3\n", 3, b"", b""),
    (
        "--turns=9223372036854775808",
        "    return 3\n",
        64,
        b"",
        b"usage: check, emit, run, step, stack or sample\n",
    ),
];

/// The body of `main`, the input, the askings of it that fail, and what is answered.
type Read = (
    &'static str,
    &'static [u8],
    &'static [u64],
    u8,
    &'static [u8],
    &'static [u8],
);

const ONE: &str = "    val b: Z = Port.get()\n    println(b)\n    return 0\n";

const TWO: &str =
    "    var b: Z = Port.get()\n    println(b)\n    b = Port.get()\n    println(b)\n    return 0\n";

const ECHO: &str =
    "    var b: Z = Port.get()\n    while (b >= 0) {\n      println(b)\n      b = Port.get()\n    }\n    return 0\n";

const READ: [Read; 14] = [
    (ONE, b"", &[], 0, b"-1\n", b""),
    (ONE, b"A", &[], 0, b"65\n", b""),
    (ONE, b"\0B", &[], 0, b"0\n", b""),
    (ONE, b"\xff", &[], 0, b"255\n", b""),
    (ONE, b"", &[1], 74, b"", INPUT),
    (ONE, b"A", &[1], 74, b"", INPUT),
    (ONE, b"A", &[2], 0, b"65\n", b""),
    (TWO, b"", &[], 0, b"-1\n-1\n", b""),
    (TWO, b"A", &[], 0, b"65\n-1\n", b""),
    (TWO, b"", &[2], 74, b"-1\n", INPUT),
    (ECHO, b"ab", &[], 0, b"97\n98\n", b""),
    (ECHO, b"ab", &[2], 74, b"97\n", INPUT),
    (ECHO, b"ab", &[3], 74, b"97\n98\n", INPUT),
    (ECHO, b"ab", &[4], 0, b"97\n98\n", b""),
];

#[test]
fn loops_run(rt: HostRuntime) -> Result<(), Fail> {
    for (body, code, out, note) in &LOOPS {
        assert!(rt; runs(rt.alloc(), body, (*code, out, note))?);
    }
    Ok(())
}

/// Whether the file `a.scala` with this body answers so to `run` with this option.
fn turns(alloc: Global, option: &str, body: &str, answer: Answer<'_>) -> Result<bool, Fail> {
    let source = app(alloc, body)?;
    answers(
        alloc,
        &["run", option, "a.scala"],
        &[("a.scala", source.as_bytes())],
        CALM,
        answer,
    )
}

#[test]
fn turns_bound_a_run(rt: HostRuntime) -> Result<(), Fail> {
    for (option, body, code, out, note) in &TURNS {
        assert!(rt; turns(rt.alloc(), option, body, (*code, out, note))?);
    }
    Ok(())
}

#[test]
fn input_is_read(rt: HostRuntime) -> Result<(), Fail> {
    for (body, input, failing, code, out, note) in &READ {
        assert!(rt; reads(rt.alloc(), body, input, failing, (*code, out, note))?);
    }
    Ok(())
}
