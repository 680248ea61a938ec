// Each call of the folder and of the outputs refused in turn, and what then stands.
use crate::called::{CALM, Failing, NONE, answers, app, joined, leaves, stops, written};
use std::alloc::Global;
use std::test::Fail;

const USAGE: &[u8] = b"usage: check, emit, run, step, stack or sample\n";

const FOLDER: &[u8] = b"folder fault\n";

const OUTPUT: &[u8] = b"output fault\n";

const NOT_BUILT: &[u8] = b"not built\n";

const BODY: &str = "    println(\"hi\")\n    return 7\n";

/// The front of what `emit` writes of this body: the first six lines, and the prototypes.
const FRONT: &str = "#include <stdint.h>
#include <stdio.h>
#include <stdlib.h>
static inline void sl_put(int64_t b) { putchar((int)b); }
static inline int64_t sl_get(void) { int c = getchar(); return c == EOF ? -1 : c; }
static inline void sl_halt(int64_t k, int64_t f, int64_t n) { fflush(stdout); fprintf(stderr, \"halt %d %d:%d\\n\", (int)k, (int)f, (int)n); exit(66); }
static int64_t m_X_dmain(void);
static int64_t sl_main(void);
static inline int64_t sl_sum_fits(int64_t a, int64_t b) {
";

/// The end of it, behind the inline functions: the functions of the program, and the last line.
const BACK: &str = "
static int64_t m_X_dmain(void) {
    sl_put(INT64_C(104));
    sl_put(INT64_C(105));
    sl_put(INT64_C(10));
    return INT64_C(7);
}

static int64_t sl_main(void) {
    int64_t v0;
    v0 = m_X_dmain();
    return v0;
}
int main(void) { return (int)sl_main(); }
";

/// What fails; and then the status, what is on `out` and what is on `note`.
type Fault = (Failing, u8, &'static [u8], &'static [u8]);

const RUN: [Fault; 11] = [
    (CALM, 7, b"hi\n", b""),
    ([&[1], NONE, NONE], 73, b"", FOLDER),
    ([&[1], NONE, &[1]], 73, b"", b""),
    ([&[2], NONE, NONE], 7, b"hi\n", b""),
    ([NONE, &[1], NONE], 75, b"", OUTPUT),
    ([NONE, &[2], NONE], 75, b"h", OUTPUT),
    ([NONE, &[3], NONE], 75, b"hi", OUTPUT),
    ([NONE, &[4], NONE], 7, b"hi\n", b""),
    ([NONE, &[2], &[1]], 75, b"h", b""),
    ([NONE, &[2], &[2]], 75, b"h", OUTPUT),
    ([NONE, NONE, &[1]], 7, b"hi\n", b""),
];

/// Whether `run` answers as this row says, and the file stays.
fn run_refused(alloc: Global, source: &[u8], row: &Fault) -> Result<bool, Fail> {
    let (what, code, out, note) = row;
    leaves(
        alloc,
        &["run", "a.scala"],
        &[("a.scala", source)],
        *what,
        (*code, out, note),
        &[("a.scala", Some(source))],
    )
}

#[test]
fn each_call_of_run_refused(rt: HostRuntime) -> Result<(), Fail> {
    let alloc = rt.alloc();
    let source = app(alloc, BODY)?;
    for row in &RUN {
        assert!(rt; run_refused(alloc, source.as_bytes(), row)?);
    }
    Ok(())
}

const ACCEPTED: &[u8] = b"accepted\n";

const CHECK: [Fault; 10] = [
    (CALM, 0, ACCEPTED, b""),
    ([&[1], NONE, NONE], 73, b"", FOLDER),
    ([&[1], NONE, &[1]], 73, b"", b""),
    ([&[2], NONE, NONE], 0, ACCEPTED, b""),
    ([NONE, &[1], NONE], 75, b"", OUTPUT),
    ([NONE, &[1], &[1]], 75, b"", b""),
    ([NONE, &[1], &[2]], 75, b"", OUTPUT),
    ([NONE, &[2], NONE], 0, ACCEPTED, b""),
    ([NONE, NONE, &[1]], 0, ACCEPTED, b""),
    ([&[1], &[1], &[2]], 73, b"", FOLDER),
];

/// Whether `check` answers as this row says, and the file stays.
fn check_refused(alloc: Global, source: &[u8], row: &Fault) -> Result<bool, Fail> {
    let (what, code, out, note) = row;
    leaves(
        alloc,
        &["check", "a.scala"],
        &[("a.scala", source)],
        *what,
        (*code, out, note),
        &[("a.scala", Some(source))],
    )
}

#[test]
fn each_call_of_check_refused(rt: HostRuntime) -> Result<(), Fail> {
    let alloc = rt.alloc();
    let source = app(alloc, BODY)?;
    for row in &CHECK {
        assert!(rt; check_refused(alloc, source.as_bytes(), row)?);
    }
    Ok(())
}

#[test]
fn check_reads_once(rt: HostRuntime) -> Result<(), Fail> {
    let alloc = rt.alloc();
    let source = app(alloc, BODY)?;
    let files: [(&str, &[u8]); 1] = [("a.scala", source.as_bytes())];
    let accepted = (0, ACCEPTED, b"".as_slice());
    let failing: Failing = [&[2], NONE, NONE];
    assert!(rt; stops(alloc, &["check", "a.scala"], &files, failing, accepted, &[])?);
    Ok(())
}

/// The line of `emit` on `out` where it wrote this.
fn line(alloc: Global, written: &[u8]) -> Result<String, Fail> {
    let length = written.len();
    Ok(format!(in alloc; "q.c {length} bytes\n")?)
}

/// Whether this is the C of the body.
fn is_c(written: &[u8]) -> bool {
    written.starts_with(FRONT.as_bytes()) && written.ends_with(BACK.as_bytes())
}

/// What fails in `emit`; and then the status, whether `out` got the line, what is on `note`, and whether `q.c` was written.
type Emitted = (Failing, u8, bool, &'static [u8], bool);

const EMIT: [Emitted; 10] = [
    (CALM, 0, true, b"", true),
    ([&[1], NONE, NONE], 73, false, FOLDER, false),
    ([&[2], NONE, NONE], 73, false, FOLDER, false),
    ([&[2], NONE, &[1]], 73, false, b"", false),
    ([&[3], NONE, NONE], 0, true, b"", true),
    ([NONE, &[1], NONE], 75, false, OUTPUT, true),
    ([NONE, &[1], &[1]], 75, false, b"", true),
    ([NONE, &[2], NONE], 0, true, b"", true),
    ([NONE, NONE, &[1]], 0, true, b"", true),
    ([&[1, 2], &[1], &[1]], 73, false, b"", false),
];

/// The words of `emit` in these rows, and its files.
const EMIT_WORDS: &[&str] = &["emit", "-o", "q", "a.scala"];

fn emit_files(source: &[u8]) -> [(&str, &[u8]); 2] {
    [("a.scala", source), ("b", b"kept")]
}

/// Whether `emit` answers as this row says, where this is the C of the source and this its line, and the files stay.
fn emit_refused<'a>(
    alloc: Global,
    source: &'a [u8],
    c: &'a [u8],
    line: &'a [u8],
    row: &'a Emitted,
) -> Result<bool, Fail> {
    let (what, code, told, note, written) = row;
    let out = if *told { line } else { b"" };
    leaves(
        alloc,
        EMIT_WORDS,
        &emit_files(source),
        *what,
        (*code, out, note),
        &[
            ("q.c", written.then_some(c)),
            ("a.scala", Some(source)),
            ("b", Some(b"kept")),
        ],
    )
}

#[test]
fn each_call_of_emit_refused(rt: HostRuntime) -> Result<(), Fail> {
    let alloc = rt.alloc();
    let source = app(alloc, BODY)?;
    let bytes = source.as_bytes();
    let c = written(alloc, EMIT_WORDS, &emit_files(bytes), "q.c")?;
    let line = line(alloc, c.as_slice())?;
    assert!(rt; is_c(c.as_slice()));
    for row in &EMIT {
        assert!(rt; emit_refused(alloc, bytes, c.as_slice(), line.as_bytes(), row)?);
    }
    Ok(())
}

/// Files that are named, and the calls of the folder that fail; and the status and the line of `check`, `run` and `emit` on them,
/// where nothing is written. `a`, `b` and `c` are plain, `empty` breaks L1, `idle` breaks G5, and `other` is neither. The last of the calls is one more
/// than is to be made.
type Read = (&'static [&'static str], &'static [u64], u8, &'static [u8]);

const READS: [Read; 18] = [
    (&["other"], &[2], 77, NOT_BUILT),
    (&["a", "b", "c"], &[4], 77, NOT_BUILT),
    (&["a", "b", "c"], &[1, 2], 73, FOLDER),
    (&["a", "b", "c"], &[2, 3], 73, FOLDER),
    (&["a", "b", "c"], &[3, 4], 73, FOLDER),
    (&["a", "a", "a"], &[2, 3], 73, FOLDER),
    (&["missing", "b", "c"], &[1, 2], 73, FOLDER),
    (&["missing", "b", "c"], &[2], 72, b"no file missing\n"),
    (&["a", "missing", "c"], &[2, 3], 73, FOLDER),
    (&["a", "missing", "c"], &[3], 72, b"no file missing\n"),
    (&["empty", "b", "c"], &[2, 3], 73, FOLDER),
    (&["empty", "b", "c"], &[4], 65, b"empty:1:1: L1\n"),
    (&["a", "b", "empty"], &[4], 65, b"empty:1:1: L1\n"),
    (&["empty", "b", "missing"], &[3, 4], 73, FOLDER),
    (&["idle"], &[2], 65, b"idle:3:25: G5\n"),
    (&["idle", "empty"], &[3], 65, b"idle:3:25: G5\n"),
    (&["idle", "empty"], &[2, 3], 73, FOLDER),
    (
        &["other", "idle", "missing"],
        &[4],
        72,
        b"no file missing\n",
    ),
];

/// The files of these rows.
fn read_files(source: &[u8]) -> [(&str, &[u8]); 6] {
    [
        ("a", source),
        ("b", source),
        ("c", source),
        ("empty", b""),
        (
            "idle",
            b"// #Sireum\nimport org.sireum._\nobject A { def f: Z = { 1 } }",
        ),
        ("other", b"// #Sireum\nimport org.sireum._"),
    ]
}

/// Whether the words answer as this row says, with no call of `out`, whose first would fail, and show; and the files stay.
fn is_told(alloc: Global, source: &[u8], words: &[&str], row: &Read) -> Result<bool, Fail> {
    let (_, failing, code, line) = row;
    stops(
        alloc,
        words,
        &read_files(source),
        [*failing, &[1], NONE],
        (*code, b"", line),
        &[
            ("a", Some(source)),
            ("b", Some(source)),
            ("c", Some(source)),
            ("empty", Some(b"")),
            ("other", Some(b"// #Sireum\nimport org.sireum._")),
            ("q.c", None),
        ],
    )
}

/// Whether they answer so where the line is refused too.
fn is_told_no_line(alloc: Global, source: &[u8], words: &[&str], row: &Read) -> Result<bool, Fail> {
    let (_, failing, code, _) = row;
    stops(
        alloc,
        words,
        &read_files(source),
        [*failing, &[1], &[1]],
        if matches!(*code, 65 | 72) {
            (75, b"", OUTPUT)
        } else {
            (*code, b"", b"")
        },
        &[("q.c", None)],
    )
}

/// Whether both are so of the command with these words before its files.
fn read_refused(alloc: Global, source: &[u8], front: &[&str], row: &Read) -> Result<bool, Fail> {
    let words = joined(alloc, front, row.0)?;
    Ok(
        is_told(alloc, source, words.as_slice(), row)?
            && is_told_no_line(alloc, source, words.as_slice(), row)?,
    )
}

#[test]
fn each_read_refused(rt: HostRuntime) -> Result<(), Fail> {
    let alloc = rt.alloc();
    let source = app(alloc, BODY)?;
    for row in &READS {
        assert!(rt; read_refused(alloc, source.as_bytes(), &["check"], row)?);
        assert!(rt; read_refused(alloc, source.as_bytes(), &["run"], row)?);
        assert!(rt; read_refused(alloc, source.as_bytes(), &["emit", "-oq"], row)?);
    }
    Ok(())
}

/// Words that are refused with a line, and that line.
type Refused = (&'static [&'static str], u8, &'static [u8]);

const REFUSED: [Refused; 11] = [
    (&["check"], 64, USAGE),
    (&["check", "missing"], 72, b"no file missing\n"),
    (&["check", "empty"], 65, b"empty:1:1: L1\n"),
    (&["check", "empty", "missing"], 72, b"no file missing\n"),
    (&["run"], 64, USAGE),
    (&["run", "missing"], 72, b"no file missing\n"),
    (&["run", "empty"], 65, b"empty:1:1: L1\n"),
    (&["emit", "-oq", "missing"], 72, b"no file missing\n"),
    (&["emit", "-oq", "empty"], 65, b"empty:1:1: L1\n"),
    (&["run", "empty", "missing"], 72, b"no file missing\n"),
    (&["emit", "empty", "-oq", "empty"], 65, b"empty:1:1: L1\n"),
];

/// Whether the words answer with that line, and what they answer where it is refused, and where the second line is too.
fn line_refused(alloc: Global, row: &Refused) -> Result<bool, Fail> {
    let (words, code, line) = row;
    let files: [(&str, &[u8]); 1] = [("empty", b"")];
    Ok(
        answers(alloc, words, &files, CALM, (*code, b"", line))?
            && answers(alloc, words, &files, [NONE, NONE, &[1]], (75, b"", OUTPUT))?
            && answers(alloc, words, &files, [NONE, NONE, &[1, 2]], (75, b"", b""))?,
    )
}

#[test]
fn each_line_refused(rt: HostRuntime) -> Result<(), Fail> {
    for row in &REFUSED {
        assert!(rt; line_refused(rt.alloc(), row)?);
    }
    Ok(())
}
