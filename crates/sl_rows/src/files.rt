// Files in free layout, files at the edges of what is built, and files that break a rule.
use crate::called::{HEAD, app, written};
use crate::tables::{broken, conditions, free, near};
use crate::told::{checks_hold, is_told, runs_hold};
use sl_text::Row;
use std::alloc::Global;
use std::test::Fail;

#[test]
fn free_layout_runs(rt: HostRuntime) -> Result<(), Fail> {
    let tables: [&[u8]; 5] = [
        free::BLANKS,
        free::LINES,
        free::HALTS,
        free::SKIPPED,
        free::FILES,
    ];
    runs_hold(rt.alloc(), &tables)
}

#[test]
fn what_is_built_is_told(rt: HostRuntime) -> Result<(), Fail> {
    let tables: [&[u8]; 6] = [
        conditions::TAKEN,
        conditions::RETURNS,
        conditions::FORMS,
        conditions::NAMES,
        conditions::DEEP,
        conditions::FILES,
    ];
    checks_hold(rt.alloc(), &tables)
}

#[test]
fn what_is_near_is_told(rt: HostRuntime) -> Result<(), Fail> {
    checks_hold(rt.alloc(), &[near::STATEMENTS, near::LOOPS])
}

/// Whether this body is answered so.
fn body_is_told(alloc: Global, body: &str, answer: &str) -> Result<bool, Fail> {
    let source = app(alloc, body)?;
    is_told(alloc, source.as_bytes(), answer)
}

#[test]
fn odd_bodies_are_told(rt: HostRuntime) -> Result<(), Fail> {
    for (body, answer) in &near::ODD {
        assert!(rt; body_is_told(rt.alloc(), body, answer)?);
    }
    Ok(())
}

#[test]
fn broken_rules_are_told(rt: HostRuntime) -> Result<(), Fail> {
    checks_hold(rt.alloc(), &[broken::LEXICAL, broken::SYNTACTIC])
}

/// Bytes that aren't well-formed, behind the beginning of a file, and the answer.
const ILL_FORMED: [(&[u8], &str); 8] = [
    (b"    return \xff", "5:12: L2"),
    (b"    // \xc3(", "5:8: L2"),
    (b"    println(\"\xed\xa0\x80\")", "5:14: L2"),
    (b"    /* \xf4\x90\x80\x80 */", "5:8: L2"),
    (b"    \"a\n\xff", "5:5: L4"),
    (b"    /* \xff", "5:5: L6"),
    (b"    '\xff'", "5:5: L3"),
    (b"    007 \xe2\x82", "5:5: L8"),
];

/// Whether these bytes behind the beginning of a file are answered so.
fn bytes_are_told(alloc: Global, bytes: &[u8], answer: &str) -> Result<bool, Fail> {
    let mut source = Vec::from_slice(alloc, HEAD.as_bytes())?;
    source.extend_from_slice(bytes)?;
    is_told(alloc, source.as_slice(), answer)
}

#[test]
fn ill_formed_bytes_are_told(rt: HostRuntime) -> Result<(), Fail> {
    for (bytes, answer) in &ILL_FORMED {
        assert!(rt; bytes_are_told(rt.alloc(), bytes, answer)?);
    }
    Ok(())
}

/// Two layouts of a body in which nothing halts.
const LAYOUTS: [(&str, &str); 3] = [
    (
        "    println(\"hi\")\n    return 7\n",
        "println /* a */ (\n\"hi\"\n) // b\n\n l\"c\"\n return\t7\n Contract (\n)\n",
    ),
    (
        "    var n: Z = 2\n    while (n > 0) {\n      println(n)\n      n = n - 1\n    }\n    return n\n",
        "var n:Z=2 // a\nwhile (n>0)\n{ println(n)\nn =n -\n1 }\nreturn n\n",
    ),
    (
        "    if (T) {\n      println(\"a\")\n    } else {\n    }\n    while (F) {}\n    return 0\n",
        "if (T) { Contract()\nprintln(\"a\") }\nwhile (F) { l\"b\" }\nreturn 0\nl\"c\"\n",
    ),
];

/// The C of the file with this body.
fn c_of(alloc: Global, body: &str) -> Result<Row<u8>, Fail> {
    let source = app(alloc, body)?;
    let files: [(&str, &[u8]); 1] = [("a.scala", source.as_bytes())];
    written(alloc, &["emit", "-oq", "a.scala"], &files, "q.c")
}

#[test]
fn layout_is_no_part_of_the_c(rt: HostRuntime) -> Result<(), Fail> {
    let alloc = rt.alloc();
    for (laid, free) in &LAYOUTS {
        let c = c_of(alloc, laid)?;
        assert!(rt; c.as_slice() == c_of(alloc, free)?.as_slice());
    }
    Ok(())
}
