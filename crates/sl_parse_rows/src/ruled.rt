// Files that keep the rules of trees, or break one.
//
// In a table a line `=HEAD$TAIL` is followed by lines TEXT $ ANSWER: of HEAD, TEXT and TAIL. The answer is `file`, without the tree, or
// the rule that is broken and the place, which is counted from the beginning of TEXT.
use crate::asking::{Phrase, told};
use crate::replaced::short;
use crate::rows::{agrees, fed, number, split, text_of};
use std::alloc::Global;
use std::test::Fail;

/// The answer of a row, with the place counted from the end of the header line.
fn moved(alloc: Global, comes: &str, head: usize) -> Result<String, Fail> {
    Ok(match comes.split_once(" at ") {
        Some((rule, column)) => {
            let place = head.saturating_add(number(column)? as usize);
            format!(in alloc; "{rule} at {place}")?
        }
        None => format!(in alloc; "{comes}")?,
    })
}

/// What is answered of a row is what it says.
fn ruled_holds(alloc: Global, head: &str, line: &str, tail: &str) -> Result<(), Fail> {
    let (column, answer) = split(line)?;
    let whole = format!(in alloc; "{head}{column}{tail}")?;
    let text = fed(alloc, whole.as_str())?;
    let told = told(alloc, Phrase::File, text.as_str(), 0)?;
    let comes = moved(alloc, answer, head.len())?;
    agrees(alloc, whole.as_str(), short(told.as_str()), comes.as_str())
}

/// The rows of a table hold.
fn table_ruled(alloc: Global, table: &[u8]) -> Result<(), Fail> {
    let mut around = ("", "");
    for line in text_of(table)?.lines() {
        match line.strip_prefix("=") {
            Some(line) => match line.split_once("$") {
                Some(parts) => around = parts,
                None => return Err("a part is missing".into()),
            },
            None => {
                if !line.is_empty() {
                    ruled_holds(alloc, around.0, line, around.1)?;
                }
            }
        }
    }
    Ok(())
}

/// The rows of each of these tables hold.
pub fn ruled_hold(alloc: Global, tables: &[&[u8]]) -> Result<(), Fail> {
    for table in tables {
        table_ruled(alloc, table)?;
    }
    Ok(())
}
