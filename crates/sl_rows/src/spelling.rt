// How names and files are spelled, and how deep blocks stand in one another.
use crate::called::app;
use crate::tables::spelling::{APPS, ODD, VARIABLES, WHOLE};
use crate::told::{checks_hold, is_told};
use std::alloc::Global;
use std::test::Fail;

#[test]
fn names_and_files_are_spelled(rt: HostRuntime) -> Result<(), Fail> {
    checks_hold(rt.alloc(), &[VARIABLES, APPS, WHOLE])
}

#[test]
fn odd_files_are_spelled(rt: HostRuntime) -> Result<(), Fail> {
    for (source, answer) in &ODD {
        assert!(rt; is_told(rt.alloc(), source.as_bytes(), answer)?);
    }
    Ok(())
}

/// What begins a block, before and behind a number; how many of them stand in one another; and whether that is plain.
const DEEP: [(&str, &str, u8, bool); 6] = [
    ("if (0 <= ", ") {", 16, true),
    ("if (0 <= ", ") {", 17, false),
    ("while (", " < 0) {", 16, true),
    ("while (", " < 0) {", 17, false),
    ("for (i", " <- 0 until 1) {", 16, true),
    ("for (i", " <- 0 until 1) {", 17, false),
];

/// A body in which so many blocks stand in one another, with a `while` on one line in the last of them.
fn deep_body(alloc: Global, before: &str, behind: &str, depth: u8) -> Result<String, Fail> {
    let mut body = String::new(alloc);
    for number in 0..depth {
        let line = format!(in alloc; "{before}{number}{behind}\n")?;
        body.push_str(line.as_str())?;
    }
    body.push_str("while (F) {}\n")?;
    for _ in 0..depth {
        body.push_str("}\n")?;
    }
    body.push_str("return 3\n")?;
    app(alloc, body.as_str())
}

/// Whether it is plain, or isn't.
fn deep_is_plain(alloc: Global, row: &(&str, &str, u8, bool)) -> Result<bool, Fail> {
    let (before, behind, depth, plain) = row;
    let source = deep_body(alloc, before, behind, *depth)?;
    let answer = if *plain { "accepted" } else { "not built" };
    is_told(alloc, source.as_bytes(), answer)
}

#[test]
fn blocks_stand_16_deep(rt: HostRuntime) -> Result<(), Fail> {
    for row in &DEEP {
        assert!(rt; deep_is_plain(rt.alloc(), row)?);
    }
    Ok(())
}
