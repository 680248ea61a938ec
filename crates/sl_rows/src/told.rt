// Tables of files, with what is answered to them.
//
// A line of a table is a row, whose columns have ` $ ` between them, or `=HEAD$TAIL`: what stands before and behind the TEXTs of the rows
// below it. Above the first such line that is what stands around the body of `main` in a plain file. `;` stands for a line feed.
//
// In a table of checks a row is TEXT $ ANSWER. The answer is `accepted`, `not built`, or the place and the rule that is broken. A file
// that is accepted is written by `emit`, and of another one `run` and `emit` answer as `check` does. In a table of runs a row is
// TEXT $ OUT $ END, where the end is the status of `run` and what is on `note`. All these files are accepted.
use crate::called::{Answer, CALM, FOOT, HEAD, answers, call, leaves};
use std::alloc::Global;
use std::test::Fail;

/// What the rows of a table tell.
#[derive(Clone, Copy)]
enum Told {
    Checks,
    Runs,
}

/// The lines of a table.
pub fn text_of(table: &[u8]) -> Result<&str, Fail> {
    match std::str::from_utf8(table) {
        Ok(text) => Ok(text),
        Err(_) => Err("no text".into()),
    }
}

/// What stands before and behind the first ` $ `.
pub fn split(line: &str) -> Result<(&str, &str), Fail> {
    match line.split_once(" $ ") {
        Some(parts) => Ok(parts),
        None => Err("a column is missing".into()),
    }
}

/// A number of a column.
pub fn number(column: &str) -> Result<usize, Fail> {
    match column.parse() {
        Ok(number) => Ok(number),
        Err(_) => Err("no number".into()),
    }
}

/// A text with a line feed for each `;`.
fn fed(alloc: Global, column: &str) -> Result<String, Fail> {
    Ok(column.replace(alloc, ";", "\n")?)
}

/// What is on `out` and on `note`, and the status, where `check` answers so.
fn checked(alloc: Global, answer: &str) -> Result<(u8, &'static str, String), Fail> {
    Ok(match answer {
        "accepted" => (0, "accepted\n", String::new(alloc)),
        "not built" => (77, "", format!(in alloc; "not built\n")?),
        place => (65, "", format!(in alloc; "a.scala:{place}\n")?),
    })
}

/// Whether `run` and `emit` answer so too, and nothing is written.
fn all_answer(alloc: Global, files: &[(&str, &[u8])], answer: Answer<'_>) -> Result<bool, Fail> {
    let emit = ["emit", "-oq", "a.scala"];
    Ok(
        answers(alloc, &["run", "a.scala"], files, CALM, answer)?
            && leaves(alloc, &emit, files, CALM, answer, &[("q.c", None)])?,
    )
}

/// Whether a file is answered so.
pub fn is_told(alloc: Global, source: &[u8], answer: &str) -> Result<bool, Fail> {
    let (code, out, note) = checked(alloc, answer)?;
    let files: [(&str, &[u8]); 1] = [("a.scala", source)];
    let told = (code, out.as_bytes(), note.as_bytes());
    let check = ["check", "a.scala"];
    if !answers(alloc, &check, &files, CALM, told)? {
        return Ok(false);
    }
    if code == 0 {
        let (status, _) = call(alloc, &["emit", "-oq", "a.scala"], &files, CALM)?.size();
        return Ok(status == 0);
    }
    all_answer(alloc, &files, told)
}

/// Whether the run of a file prints so and ends so.
fn is_run(alloc: Global, source: &[u8], out: &str, end: &str) -> Result<bool, Fail> {
    let (column, line) = match end.split_once(' ') {
        Some((column, line)) => (column, format!(in alloc; "{line}\n")?),
        None => (end, String::new(alloc)),
    };
    let Ok(code) = u8::try_from(number(column)?) else {
        return Err("no status".into());
    };
    let out = fed(alloc, out)?;
    let answer = (code, out.as_bytes(), line.as_bytes());
    let files: [(&str, &[u8]); 1] = [("a.scala", source)];
    let taken = (0, b"accepted\n".as_slice(), b"".as_slice());
    Ok(
        answers(alloc, &["run", "a.scala"], &files, CALM, answer)?
            && answers(alloc, &["check", "a.scala"], &files, CALM, taken)?,
    )
}

/// Whether a row holds.
fn row_holds(alloc: Global, told: Told, around: (&str, &str), line: &str) -> Result<bool, Fail> {
    let (column, rest) = split(line)?;
    let (head, tail) = around;
    let whole = format!(in alloc; "{head}{column}{tail}")?;
    let source = fed(alloc, whole.as_str())?;
    match told {
        Told::Checks => is_told(alloc, source.as_bytes(), rest),
        Told::Runs => {
            let (out, end) = split(rest)?;
            is_run(alloc, source.as_bytes(), out, end)
        }
    }
}

/// The rows of a table hold.
fn table_holds(alloc: Global, told: Told, table: &[u8]) -> Result<(), Fail> {
    let mut around = (HEAD, FOOT);
    for line in text_of(table)?.lines() {
        match line.strip_prefix("=") {
            Some(line) => match line.split_once("$") {
                Some(parts) => around = parts,
                None => return Err("a part is missing".into()),
            },
            None => {
                if !line.is_empty() && !row_holds(alloc, told, around, line)? {
                    let message = format!(in alloc; "another answer: {line}")?;
                    return Err(Fail::new(message));
                }
            }
        }
    }
    Ok(())
}

/// The rows of each of these tables of checks hold.
pub fn checks_hold(alloc: Global, tables: &[&[u8]]) -> Result<(), Fail> {
    for table in tables {
        table_holds(alloc, Told::Checks, table)?;
    }
    Ok(())
}

/// The rows of each of these tables of runs hold.
pub fn runs_hold(alloc: Global, tables: &[&[u8]]) -> Result<(), Fail> {
    for table in tables {
        table_holds(alloc, Told::Runs, table)?;
    }
    Ok(())
}
