// How words are read.
use crate::called::{Answer, CALM, answers, app, leaves, written};
use std::alloc::Global;
use std::test::Fail;

const USAGE: &[u8] = b"usage: check, emit, run, step, stack or sample\n";

const NOT_BUILT: &[u8] = b"not built\n";

/// Words that have no reading.
const UNREAD: [&[&str]; 68] = [
    &["check"],
    &["check", ""],
    &["check", "a", ""],
    &["check", "--"],
    &["check", "-a"],
    &["check", "-o", "q", "a"],
    &["check", "-oq", "a"],
    &["check", "a", "-o=q"],
    &["check", "--turns", "5", "a"],
    &["check", "--turns=5", "a"],
    &["check", "a", "--turns=5"],
    &["check", "--report", "a"],
    &["check", "--string-size=1", "a"],
    &["Check", "a"],
    &["checks", "a"],
    &["--", "check", "a"],
    &["run", "--turns=", "a"],
    &["run", "--turns=-0", "a"],
    &["run", "--turns=+5", "a"],
    &["run", "--turns=05", "a"],
    &["run", "--turns=5 ", "a"],
    &["run", "--turns", "-5", "a"],
    &["run", "--turn=5", "a"],
    &["run", "--turns=5", "--turns=5", "a"],
    &["run", "a", "--turns"],
    &["run", "--turns=5"],
    &["emit", "--turns=5", "a"],
    &["emit", "-oq", "--turns=5", "a"],
    &["run", "--turns"],
    &["run", "--turns", "a"],
    &["run", "--turns", "01", "a"],
    &["run", "--turns=-1", "a"],
    &["run", "--turns5", "a"],
    &["run", "--turns=5", "a", "--turns", "5"],
    &["emit", "--turns", "5", "-oq", "a"],
    &[],
    &[""],
    &["walk", "a"],
    &["Run", "a"],
    &["--help"],
    &["--version"],
    &["--", "run", "a"],
    &["run"],
    &["run", ""],
    &["run", "a", ""],
    &["run", "", "a"],
    &["run", "-a"],
    &["run", "a", "-a", "a"],
    &["run", "--"],
    &["run", "--", ""],
    &["run", "--report", "a"],
    &["run", "-o", "q", "a"],
    &["run", "a", "a", "-oq"],
    &["run", "-h"],
    &["emit", "a"],
    &["emit", "-o", "q"],
    &["emit", "-o", "q", "--"],
    &["emit", "a", "-o"],
    &["emit", "-o", "a", "-o", "q", "a"],
    &["emit", "-oq", "a", "a", "-oq"],
    &["emit", "-o", "-q", "a"],
    &["emit", "-o", "--", "a"],
    &["emit", "-o", "", "a"],
    &["emit", "-o=", "a"],
    &["emit", "--", "a", "-o", "q"],
    &["emit", "--", "-oq", "a"],
    &["emit", "-oq", "a", "", "a"],
    &["emit", "-O", "q", "a"],
];

#[test]
fn words_without_a_reading_are_refused(rt: HostRuntime) -> Result<(), Fail> {
    let alloc = rt.alloc();
    let source = app(alloc, "    return 5\n")?;
    for words in &UNREAD {
        let files: [(&str, &[u8]); 1] = [("a", source.as_bytes())];
        assert!(rt; answers(alloc, words, &files, CALM, (64, b"", USAGE))?);
    }
    Ok(())
}

/// Words, and the files that they name.
const FILES: [(&[&str], &[&str]); 37] = [
    (&["check", "a"], &["a"]),
    (&["check", "-"], &["-"]),
    (&["check", "--", "a"], &["a"]),
    (&["check", "a", "--"], &["a"]),
    (&["check", "--", "-oq"], &["-oq"]),
    (&["check", "--", "--turns=5"], &["--turns=5"]),
    (&["check", "b", "a"], &["b", "a"]),
    (&["check", "a", "a"], &["a", "a"]),
    (&["check", "a", "--", "-x", "--"], &["a", "-x", "--"]),
    (&["check", "a b", "-", "é"], &["a b", "-", "é"]),
    (&["run", "a", "--turns", "5"], &["a"]),
    (&["run", "a", "--turns=1", "b", "--"], &["a", "b"]),
    (&["run", "--turns", "1", "--", "--turns"], &["--turns"]),
    (&["run", "--", "--turns=5"], &["--turns=5"]),
    (&["run", "a"], &["a"]),
    (&["run", "-"], &["-"]),
    (&["run", "--", "a"], &["a"]),
    (&["run", "a", "--"], &["a"]),
    (&["run", "--", "-"], &["-"]),
    (&["run", "--", "--"], &["--"]),
    (&["run", "--", "-oq"], &["-oq"]),
    (&["run", "a", "b"], &["a", "b"]),
    (&["run", "b", "a"], &["b", "a"]),
    (&["run", "a", "a"], &["a", "a"]),
    (&["run", "-", "a", "-"], &["-", "a", "-"]),
    (&["run", "--", "a", "b"], &["a", "b"]),
    (&["run", "a", "--", "b"], &["a", "b"]),
    (&["run", "a", "b", "--"], &["a", "b"]),
    (&["run", "a", "--", "--"], &["a", "--"]),
    (&["run", "--", "--", "a", "--"], &["--", "a", "--"]),
    (&["run", "a b", "--", "-x=", "é"], &["a b", "-x=", "é"]),
    (&["emit", "-o", "q", "a", "b"], &["a", "b"]),
    (&["emit", "b", "-oq", "a"], &["b", "a"]),
    (&["emit", "b", "a", "-o=q", "--"], &["b", "a"]),
    (&["emit", "a", "-o", "q", "b", "--", "c"], &["a", "b", "c"]),
    (&["emit", "-o", "q", "--", "a", "-o"], &["a", "-o"]),
    (&["emit", "-oq", "--", "-oq", "--"], &["-oq", "--"]),
];

/// Whether the words answer, over these files, that the file of this name is missing.
fn miss(alloc: Global, words: &[&str], files: &[(&str, &[u8])], name: &str) -> Result<bool, Fail> {
    let line = format!(in alloc; "no file {name}\n")?;
    answers(alloc, words, files, CALM, (72, b"", line.as_bytes()))
}

/// Whether the words name the files of these names, in this order: over those before it, each is missing.
fn name_files(alloc: Global, source: &[u8], words: &[&str], names: &[&str]) -> Result<bool, Fail> {
    let mut files: Vec<(&str, &[u8])> = Vec::new(alloc);
    let mut all = true;
    for (at, name) in names.iter().enumerate() {
        if !names[..at].contains(name) {
            all &= miss(alloc, words, files.as_slice(), name)?;
        }
        files.push((*name, source))?;
    }
    let answer: Answer<'_> = match names.len() {
        1 if words.first() == Some(&"check") => (0, b"accepted\n", b""),
        1 => (5, b"", b""),
        _ => (77, b"", NOT_BUILT),
    };
    Ok(all && answers(alloc, words, files.as_slice(), CALM, answer)?)
}

#[test]
fn words_name_files_in_order(rt: HostRuntime) -> Result<(), Fail> {
    let alloc = rt.alloc();
    let source = app(alloc, "    return 5\n")?;
    for (words, names) in &FILES {
        assert!(rt; name_files(alloc, source.as_bytes(), words, names)?);
    }
    Ok(())
}

/// Words, so many times the word `a`, and other words; and the status and the line over a folder that has only `a`.
type Many = (
    &'static [&'static str],
    usize,
    &'static [&'static str],
    u8,
    &'static [u8],
);

const MANY: [Many; 13] = [
    (&["check"], 255, &[], 77, NOT_BUILT),
    (&["check"], 256, &[], 64, USAGE),
    (&["check"], 254, &["b"], 72, b"no file b\n"),
    (&["run"], 255, &[], 77, NOT_BUILT),
    (&["run"], 256, &[], 64, USAGE),
    (&["run"], 254, &["b"], 72, b"no file b\n"),
    (&["run"], 255, &["b"], 64, USAGE),
    (&["run", "--"], 255, &[], 77, NOT_BUILT),
    (&["run"], 254, &["--", "--"], 72, b"no file --\n"),
    (&["run"], 255, &["--", "--"], 64, USAGE),
    (&["emit", "-o", "q"], 255, &["--"], 77, NOT_BUILT),
    (&["emit"], 255, &["-oq"], 77, NOT_BUILT),
    (&["emit", "-oq"], 256, &[], 64, USAGE),
];

/// The words of this row.
fn many(alloc: Global, row: &Many) -> Result<Vec<&'static str>, Fail> {
    let (front, count, back, _, _) = row;
    let mut words = Vec::from_slice(alloc, front)?;
    for _ in 0..*count {
        words.push("a")?;
    }
    words.extend_from_slice(back)?;
    Ok(words)
}

/// Whether they answer as it says.
fn many_answer(alloc: Global, source: &[u8], row: &Many) -> Result<bool, Fail> {
    let words = many(alloc, row)?;
    let (_, _, _, code, note) = row;
    answers(
        alloc,
        words.as_slice(),
        &[("a", source)],
        CALM,
        (*code, b"", note),
    )
}

#[test]
fn a_command_names_255_files_at_most(rt: HostRuntime) -> Result<(), Fail> {
    let alloc = rt.alloc();
    let source = app(alloc, "    return 5\n")?;
    for row in &MANY {
        assert!(rt; many_answer(alloc, source.as_bytes(), row)?);
    }
    Ok(())
}

/// Words of `emit`, and the name that they give.
const NAMES: [(&[&str], &str); 17] = [
    (&["emit", "-o", "q", "a"], "q"),
    (&["emit", "a", "-o", "q"], "q"),
    (&["emit", "-oq", "a"], "q"),
    (&["emit", "a", "-oq"], "q"),
    (&["emit", "-o=q", "a"], "q"),
    (&["emit", "a", "-o=q"], "q"),
    (&["emit", "-o==", "a"], "="),
    (&["emit", "-o=-q", "a"], "-q"),
    (&["emit", "-o=--", "a"], "--"),
    (&["emit", "-o-", "a"], "-"),
    (&["emit", "-o", "-", "a"], "-"),
    (&["emit", "-o", "=q", "a"], "=q"),
    (&["emit", "-o", "a", "a"], "a"),
    (&["emit", "-o", "x/y z", "a"], "x/y z"),
    (&["emit", "-o", "q", "--", "a"], "q"),
    (&["emit", "a", "-o", "q", "--"], "q"),
    (&["emit", "-oé", "-"], "é"),
];

/// Whether the words write this C under the name, and tell it.
fn write_under(
    alloc: Global,
    files: &[(&str, &[u8])],
    c: &[u8],
    words: &[&str],
    name: &str,
) -> Result<bool, Fail> {
    let length = c.len();
    let target = format!(in alloc; "{name}.c")?;
    let line = format!(in alloc; "{target} {length} bytes\n")?;
    leaves(
        alloc,
        words,
        files,
        CALM,
        (0, line.as_bytes(), b""),
        &[(target.as_str(), Some(c))],
    )
}

#[test]
fn emit_writes_under_the_name(rt: HostRuntime) -> Result<(), Fail> {
    let alloc = rt.alloc();
    let source = app(alloc, "    return 5\n")?;
    let bytes = source.as_bytes();
    let files: [(&str, &[u8]); 2] = [("a", bytes), ("-", bytes)];
    let c = written(alloc, &["emit", "-o", "plain", "a"], &files, "plain.c")?;
    for (words, name) in &NAMES {
        assert!(rt; write_under(alloc, &files, c.as_slice(), words, name)?);
    }
    Ok(())
}
