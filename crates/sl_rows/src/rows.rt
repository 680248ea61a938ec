// What small and long sources answer, and how files may be named.
use crate::called::{CALM, answers, app, call, runs};
use std::alloc::Global;
use std::test::Fail;

const NOT_BUILT: &[u8] = b"not built\n";

/// The body of `main`; and the status, what is on `out` and what is on `note` where the file `a.scala` is run.
type Row = (&'static str, u8, &'static [u8], &'static [u8]);

const ROWS: [Row; 12] = [
    ("    println(\"hello\")\n    return 0\n", 0, b"hello\n", b""),
    ("    return 0\n", 0, b"", b""),
    ("    return 9\n", 9, b"", b""),
    ("    return 10\n", 10, b"", b""),
    ("    return 63\n", 63, b"", b""),
    ("    return 64\n", 69, b"", b"exit value 64\n"),
    ("    return 07\n", 65, b"", b"a.scala:5:12: L8\n"),
    (
        "    println(\"a\")\n    println(\"\")\n    println(\" ~\")\n    return 1\n",
        1,
        b"a\n\n ~\n",
        b"",
    ),
    ("    println(\"a\\n\")\n    return 1\n", 77, b"", NOT_BUILT),
    ("    return 1\n    println(\"a\")\n", 77, b"", NOT_BUILT),
    ("", 77, b"", NOT_BUILT),
    (
        "    println(\"*/ // %d ?? /*\")\n    return 0\n",
        0,
        b"*/ // %d ?? /*\n",
        b"",
    ),
];

#[test]
fn sources_run(rt: HostRuntime) -> Result<(), Fail> {
    for (body, code, out, note) in &ROWS {
        assert!(rt; runs(rt.alloc(), body, (*code, out, note))?);
    }
    Ok(())
}

/// Whether a run that returns this value has it as its status.
fn comes_through(alloc: Global, value: u8) -> Result<bool, Fail> {
    let body = format!(in alloc; "    return {value}\n")?;
    runs(alloc, body.as_str(), (value, b"", b""))
}

#[test]
fn each_exit_value_comes_through(rt: HostRuntime) -> Result<(), Fail> {
    for value in 0..64u8 {
        assert!(rt; comes_through(rt.alloc(), value)?);
    }
    Ok(())
}

/// Puts a line that prints a hundred bytes behind a body.
fn push_line(body: &mut String) -> Result<(), Fail> {
    body.push_str("    println(\"")?;
    for _ in 0..10 {
        body.push_str("0123456789")?;
    }
    Ok(body.push_str("\")\n")?)
}

/// A source of so many lines that print a hundred bytes.
fn long_app(alloc: Global, lines: usize) -> Result<String, Fail> {
    let mut body = String::new(alloc);
    for _ in 0..lines {
        push_line(&mut body)?;
    }
    body.push_str("    return 3\n")?;
    app(alloc, body.as_str())
}

/// The status of a call over this source, and how many bytes it puts on `out`.
fn size(alloc: Global, words: &[&str], source: &[u8]) -> Result<(u8, usize), Fail> {
    let called = call(alloc, words, &[("a.scala", source)], CALM)?;
    Ok(called.size())
}

#[test]
fn long_sources_run_and_are_written(rt: HostRuntime) -> Result<(), Fail> {
    let alloc = rt.alloc();
    let source = long_app(alloc, 120)?;
    let (code, length) = size(alloc, &["run", "a.scala"], source.as_bytes())?;
    assert_eq!(rt; code, 3);
    assert_eq!(rt; length, 12120);
    let (code, _) = size(alloc, &["emit", "-o", "q", "a.scala"], source.as_bytes())?;
    assert_eq!(rt; code, 0);
    Ok(())
}

/// Whether a file of this name is run, and is told where it is missing and where it is broken.
fn may_be_a_name(alloc: Global, bytes: &[u8], name: &str) -> Result<bool, Fail> {
    let missing = format!(in alloc; "no file {name}\n")?;
    let broken = format!(in alloc; "{name}:1:1: L1\n")?;
    let (missing, broken) = (missing.as_bytes(), broken.as_bytes());
    let (one, two) = (["run", name], ["run", "x", name]);
    Ok(
        answers(alloc, &one, &[(name, bytes)], CALM, (5, b"", b""))?
            && answers(alloc, &two, &[("x", bytes)], CALM, (72, b"", missing))?
            && answers(
                alloc,
                &two,
                &[("x", bytes), (name, b"")],
                CALM,
                (65, b"", broken),
            )?,
    )
}

#[test]
fn names_may_have_any_letters(rt: HostRuntime) -> Result<(), Fail> {
    let alloc = rt.alloc();
    let source = app(alloc, "    return 5\n")?;
    for name in ["a b", "a=b", "=", "größe", "名", ".", "a\nb"] {
        assert!(rt; may_be_a_name(alloc, source.as_bytes(), name)?);
    }
    Ok(())
}
