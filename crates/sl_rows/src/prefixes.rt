// Each front of a program has its answer.
use crate::called::{CALM, answers};
use crate::tables::thermostat::{FRONTS, PROGRAM};
use crate::told::{number, split, text_of};
use std::alloc::Global;
use std::test::Fail;

/// The line and the column of a place, counted from 1.
fn position(text: &str, at: usize) -> Result<(usize, usize), Fail> {
    let Some(before) = text.get(..at) else {
        return Err("no such place".into());
    };
    let lines = before.matches('\n').count();
    let column = match before.rsplit_once('\n') {
        Some((_, rest)) => rest.len(),
        None => before.len(),
    };
    Ok((lines.saturating_add(1), column.saturating_add(1)))
}

/// The status and the line of `check` on a front, where this is its answer.
fn line_of(alloc: Global, front: &str, answer: &str) -> Result<(u8, String), Fail> {
    match answer.split_once(' ') {
        Some((rule, place)) if rule != "not" => {
            let at = match place {
                "end" => front.len(),
                other => number(other)?,
            };
            let (line, column) = position(front, at)?;
            Ok((65, format!(in alloc; "a.scala:{line}:{column}: {rule}\n")?))
        }
        _ => Ok((77, format!(in alloc; "not built\n")?)),
    }
}

/// Whether `check` answers so to the front of this length.
fn front_is_told(alloc: Global, program: &str, length: usize, answer: &str) -> Result<bool, Fail> {
    let Some(front) = program.get(..length) else {
        return Err("no such front".into());
    };
    let (code, line) = line_of(alloc, front, answer)?;
    let files: [(&str, &[u8]); 1] = [("a.scala", front.as_bytes())];
    let told = (code, b"".as_slice(), line.as_bytes());
    answers(alloc, &["check", "a.scala"], &files, CALM, told)
}

#[test]
fn each_front_is_told(rt: HostRuntime) -> Result<(), Fail> {
    let alloc = rt.alloc();
    let program = text_of(PROGRAM)?;
    let mut length = 0;
    for row in text_of(FRONTS)?.lines() {
        if !row.is_empty() {
            let (column, answer) = split(row)?;
            let last = number(column)?;
            for front in length..=last {
                assert!(rt; front_is_told(alloc, program, front, answer)?);
            }
            length = last.saturating_add(1);
        }
    }
    assert_eq!(rt; length, program.len().saturating_add(1));
    Ok(())
}
