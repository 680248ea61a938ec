// Phrases that nest, and long ones, made of parts.
//
// In a table a line `=HEAD$OPEN$CORE$CLOSE$TAIL` is followed by lines TIMES $ DEPTH $ ANSWER: of HEAD, so many times OPEN, CORE, so
// many times CLOSE, and TAIL. An answer has the checksum of a printed tree for the tree.
use crate::asking::{Phrase, told};
use crate::rows::{agrees, fed, number, split, summed, text_of};
use std::alloc::Global;
use std::test::Fail;

/// The parts of a phrase.
#[derive(Clone, Copy)]
struct Parts<'a> {
    head: &'a str,
    open: &'a str,
    core: &'a str,
    close: &'a str,
    tail: &'a str,
}

/// Parts without a text.
const NOTHING: Parts<'static> = Parts {
    head: "",
    open: "",
    core: "",
    close: "",
    tail: "",
};

/// What stands before and behind the first `$` of a line.
fn cut(line: &str) -> Result<(&str, &str), Fail> {
    match line.split_once("$") {
        Some(parts) => Ok(parts),
        None => Err("a part is missing".into()),
    }
}

/// The parts of a line HEAD$OPEN$CORE$CLOSE$TAIL.
fn read_parts(line: &str) -> Result<Parts<'_>, Fail> {
    let (head, rest) = cut(line)?;
    let (open, rest) = cut(rest)?;
    let (core, rest) = cut(rest)?;
    let (close, tail) = cut(rest)?;
    Ok(Parts {
        head,
        open,
        core,
        close,
        tail,
    })
}

/// This text so many times.
fn push_times(text: &mut String, part: &str, times: u32) -> Result<(), Fail> {
    for _ in 0..times {
        text.push_str(part)?;
    }
    Ok(())
}

/// The phrase of these parts, with so many times OPEN and CLOSE.
fn built(alloc: Global, parts: Parts<'_>, times: u32) -> Result<String, Fail> {
    let mut text = String::new(alloc);
    text.push_str(parts.head)?;
    push_times(&mut text, parts.open, times)?;
    text.push_str(parts.core)?;
    push_times(&mut text, parts.close, times)?;
    text.push_str(parts.tail)?;
    fed(alloc, text.as_str())
}

/// What is answered of a row of these parts is what it says.
fn times_hold(alloc: Global, phrase: Phrase, parts: Parts<'_>, line: &str) -> Result<(), Fail> {
    let (times, rest) = split(line)?;
    let (depth, comes) = split(rest)?;
    let text = built(alloc, parts, number(times)?)?;
    let told = told(alloc, phrase, text.as_str(), number(depth)?)?;
    let short = summed(alloc, told.as_str())?;
    let Parts { head, open, .. } = parts;
    let what = format!(in alloc; "{head}{open}: {line}")?;
    agrees(alloc, what.as_str(), short.as_str(), comes)
}

/// The rows of a table hold.
pub fn nested_hold(alloc: Global, phrase: Phrase, table: &[u8]) -> Result<(), Fail> {
    let mut of = NOTHING;
    for line in text_of(table)?.lines() {
        match line.strip_prefix("=") {
            Some(line) => of = read_parts(line)?,
            None => {
                if !line.is_empty() {
                    times_hold(alloc, phrase, of, line)?;
                }
            }
        }
    }
    Ok(())
}
