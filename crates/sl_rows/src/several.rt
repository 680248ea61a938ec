// What several files answer together, and the longest files.
use crate::called::{CALM, answers, app, call, joined, leaves};
use std::alloc::Global;
use std::test::Fail;

const NOT_BUILT: &[u8] = b"not built\n";

/// The greatest length of a file.
const MOST: usize = 4_194_304;

/// Files by their names. Those of `a` and `b` are plain, and `tree` and `thermo` have trees that aren't.
const FILES: [(&str, &[u8]); 13] = [
    (
        "a",
        b"// #Sireum\nimport org.sireum._\nobject X extends App { def main(args: ISZ[String]): Z = { return 5 } }",
    ),
    (
        "b",
        b"// #Sireum\nimport org.sireum._\nobject Y extends App { def main(args: ISZ[String]): Z = { return 5 } }",
    ),
    ("tree", b"// #Sireum\nimport org.sireum._"),
    (
        "thermo",
        b"// #Sireum\npackage ctl\nimport org.sireum._\n@enum object Mode {\n\"Off\"\n}",
    ),
    ("empty", b""),
    ("short", b"// #Sireu"),
    ("letter", b"// #Sireum\nimport org.sireum._\n;"),
    ("both", b"// #Sireum\nclass A\n;"),
    ("end", b"// #Sireum"),
    ("library", b"// #Sireum\nclass A"),
    ("note", b"// #Sireum\nimport org.sireum._\nclass A"),
    (
        "left",
        b"// #Sireum\nimport org.sireum._\nobject A { def f: Z = { 1 = 2 } }",
    ),
    (
        "idle",
        b"// #Sireum\nimport org.sireum._\nobject A { def f: Z = { 1 } }",
    ),
];

/// Files that are named; and the status and the line of `check`, `run` and `emit` on them.
type Several = (&'static [&'static str], u8, &'static [u8]);

/// Those of one file, or of several of which one breaks a rule first.
const SEVERAL: [Several; 44] = [
    (&["a", "b"], 77, NOT_BUILT),
    (&["a", "a"], 77, NOT_BUILT),
    (&["tree"], 77, NOT_BUILT),
    (&["thermo"], 77, NOT_BUILT),
    (&["a", "tree"], 77, NOT_BUILT),
    (&["tree", "a"], 77, NOT_BUILT),
    (&["tree", "thermo", "tree"], 77, NOT_BUILT),
    (&["a", "missing"], 72, b"no file missing\n"),
    (&["missing", "a"], 72, b"no file missing\n"),
    (&["missing", "gone"], 72, b"no file missing\n"),
    (&["gone", "missing"], 72, b"no file gone\n"),
    (&["empty", "missing"], 72, b"no file missing\n"),
    (&["missing", "note"], 72, b"no file missing\n"),
    (&["idle", "missing"], 72, b"no file missing\n"),
    (&["a", "letter", "gone", "missing"], 72, b"no file gone\n"),
    (&["empty"], 65, b"empty:1:1: L1\n"),
    (&["short"], 65, b"short:1:1: L1\n"),
    (&["letter"], 65, b"letter:3:1: L3\n"),
    (&["both"], 65, b"both:3:1: L3\n"),
    (&["end"], 65, b"end:1:11: G1\n"),
    (&["library"], 65, b"library:2:1: G2\n"),
    (&["note"], 65, b"note:3:1: G3\n"),
    (&["left"], 65, b"left:3:25: G4\n"),
    (&["idle"], 65, b"idle:3:25: G5\n"),
    (&["a", "short"], 65, b"short:1:1: L1\n"),
    (&["short", "a"], 65, b"short:1:1: L1\n"),
    (&["short", "short"], 65, b"short:1:1: L1\n"),
    (&["a", "b", "idle"], 65, b"idle:3:25: G5\n"),
    (&["tree", "idle", "a"], 65, b"idle:3:25: G5\n"),
    (&["note", "empty"], 65, b"note:3:1: G3\n"),
    (&["empty", "note"], 65, b"empty:1:1: L1\n"),
    (&["idle", "letter"], 65, b"idle:3:25: G5\n"),
    (&["letter", "idle"], 65, b"letter:3:1: L3\n"),
    (&["end", "both"], 65, b"end:1:11: G1\n"),
    (&["both", "end"], 65, b"both:3:1: L3\n"),
    (&["left", "note"], 65, b"left:3:25: G4\n"),
    (&["note", "left"], 65, b"note:3:1: G3\n"),
    (&["idle", "library"], 65, b"idle:3:25: G5\n"),
    (&["library", "idle"], 65, b"library:2:1: G2\n"),
    (
        &["idle", "left", "note", "end", "empty"],
        65,
        b"idle:3:25: G5\n",
    ),
    (&["a", "end", "empty", "short"], 65, b"end:1:11: G1\n"),
    (&["idle", "idle"], 65, b"idle:3:25: G5\n"),
    (&["thermo", "tree", "b", "letter"], 65, b"letter:3:1: L3\n"),
    (
        &["thermo", "thermo", "note", "thermo"],
        65,
        b"note:3:1: G3\n",
    ),
];

/// Of these files, those that are named.
fn named<'a>(
    alloc: Global,
    all: &[(&'a str, &'a [u8])],
    names: &[&'a str],
) -> Result<Vec<(&'a str, &'a [u8])>, Fail> {
    let mut files: Vec<(&str, &[u8])> = Vec::new(alloc);
    for entry in all {
        if names.contains(&entry.0) {
            files.push(*entry)?;
        }
    }
    Ok(files)
}

/// Whether all commands answer as this row says, where those of these files stand that it names, and nothing is written.
fn answer_together(alloc: Global, all: &[(&str, &[u8])], row: &Several) -> Result<bool, Fail> {
    let (names, code, note) = row;
    let files = named(alloc, all, names)?;
    let emit = joined(alloc, &["emit", "-oq"], names)?;
    let (files, answer) = (files.as_slice(), (*code, b"".as_slice(), *note));
    for command in ["check", "run"] {
        let words = joined(alloc, &[command], names)?;
        if !answers(alloc, words.as_slice(), files, CALM, answer)? {
            return Ok(false);
        }
    }
    leaves(
        alloc,
        emit.as_slice(),
        files,
        CALM,
        answer,
        &[("q.c", None)],
    )
}

#[test]
fn files_answer_together(rt: HostRuntime) -> Result<(), Fail> {
    for row in &SEVERAL {
        assert!(rt; answer_together(rt.alloc(), &FILES, row)?);
    }
    Ok(())
}

/// These bytes, and blanks up to so many.
fn padded(alloc: Global, front: &[u8], length: usize) -> Result<Vec<u8>, Fail> {
    let mut bytes = Vec::from_slice(alloc, front)?;
    bytes.resize(length, b' ')?;
    Ok(bytes)
}

/// Files of 4194304 bytes, of which the second ends too early, and the status and the line of `check` on them.
const LONGEST: [Several; 2] = [
    (&["most"], 77, NOT_BUILT),
    (&["marked"], 65, b"marked:2:4194294: G1\n"),
];

/// Files with one byte more, of which the second has no mark.
const LONGER: [Several; 3] = [
    (&["long"], 65, b"long:1:1: L7\n"),
    (&["bare"], 65, b"bare:1:1: L1\n"),
    (&["long", "bare"], 65, b"long:1:1: L7\n"),
];

/// Whether `check` answers as this row says, where those of these files stand that it names.
fn long_is_told(alloc: Global, all: &[(&str, &[u8])], row: &Several) -> Result<bool, Fail> {
    let (names, code, note) = row;
    let files = named(alloc, all, names)?;
    let words = joined(alloc, &["check"], names)?;
    answers(
        alloc,
        words.as_slice(),
        files.as_slice(),
        CALM,
        (*code, b"", note),
    )
}

#[test]
fn the_longest_files_answer(rt: HostRuntime) -> Result<(), Fail> {
    let alloc = rt.alloc();
    let most = padded(alloc, b"// #Sireum\nimport org.sireum._", MOST)?;
    let marked = padded(alloc, b"// #Sireum\n", MOST)?;
    let all: [(&str, &[u8]); 2] = [("most", most.as_slice()), ("marked", marked.as_slice())];
    for row in &LONGEST {
        assert!(rt; long_is_told(alloc, &all, row)?);
    }
    Ok(())
}

#[test]
fn longer_files_answer(rt: HostRuntime) -> Result<(), Fail> {
    let alloc = rt.alloc();
    let long = padded(alloc, b"// #Sireum\nimport org.sireum._", MOST + 1)?;
    let bare = padded(alloc, b"", MOST + 1)?;
    let all: [(&str, &[u8]); 2] = [("long", long.as_slice()), ("bare", bare.as_slice())];
    for row in &LONGER {
        assert!(rt; long_is_told(alloc, &all, row)?);
    }
    Ok(())
}

#[test]
fn a_plain_file_is_long(rt: HostRuntime) -> Result<(), Fail> {
    let alloc = rt.alloc();
    let source = app(alloc, "    return 5\n")?;
    let most = padded(alloc, source.as_bytes(), MOST)?;
    let files: [(&str, &[u8]); 1] = [("a", most.as_slice())];
    let (code, _) = call(alloc, &["run", "a"], &files, CALM)?.size();
    assert_eq!(rt; code, 5);
    Ok(())
}

/// Whether `run` and `emit` answer so to one file of this name, and nothing is written.
fn is_refused(alloc: Global, name: &str, bytes: &[u8], note: &[u8]) -> Result<bool, Fail> {
    let files: [(&str, &[u8]); 1] = [(name, bytes)];
    let answer = (65, b"".as_slice(), note);
    let emit = ["emit", "-oq", name];
    Ok(
        answers(alloc, &["run", name], &files, CALM, answer)?
            && leaves(alloc, &emit, &files, CALM, answer, &[("q.c", None)])?,
    )
}

#[test]
fn a_longer_file_is_refused(rt: HostRuntime) -> Result<(), Fail> {
    let alloc = rt.alloc();
    let source = app(alloc, "    return 5\n")?;
    let long = padded(alloc, source.as_bytes(), MOST + 1)?;
    assert!(rt; is_refused(alloc, "long", long.as_slice(), b"long:1:1: L7\n")?);
    Ok(())
}
