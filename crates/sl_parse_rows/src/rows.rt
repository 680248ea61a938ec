// How a table is written: as a text with one row a line, whose columns have ` $ ` between them. In the column of a text `;` stands for a
// line feed, since neither `;` nor `$` begins a token.
//
// A row is TEXT $ DEPTH $ ANSWER: what stands behind the header line, how many nodes the phrase stands in, and what is answered: the tree
// and how many tokens are left, or the rule that is broken and the place. Of a file it is TEXT $ ANSWER. Places are counted from the end
// of the header line.
use crate::asking::{FILE, Phrase, Place, Source, first};
use crate::tables::odd::Odd;
use std::alloc::Global;
use std::test::Fail;

/// The lines of a table.
pub fn text_of(table: &[u8]) -> Result<&str, Fail> {
    match std::str::from_utf8(table) {
        Ok(text) => Ok(text),
        Err(_) => Err("no text".into()),
    }
}

/// What stands before and behind the first ` $ ` of a line.
pub fn split(line: &str) -> Result<(&str, &str), Fail> {
    match line.split_once(" $ ") {
        Some(parts) => Ok(parts),
        None => Err("a column is missing".into()),
    }
}

/// A number of a column.
pub fn number(column: &str) -> Result<u32, Fail> {
    match column.parse() {
        Ok(number) => Ok(number),
        Err(_) => Err("no number".into()),
    }
}

/// A text with a line feed for each `;`.
pub fn fed(alloc: Global, column: &str) -> Result<String, Fail> {
    Ok(column.replace(alloc, ";", "\n")?)
}

/// What is answered is what the table says.
pub fn agrees(alloc: Global, what: &str, told: &str, comes: &str) -> Result<(), Fail> {
    if told == comes {
        return Ok(());
    }
    let message = format!(in alloc; "{what}\n  answered: {told}\n  expected: {comes}")?;
    Err(Fail::new(message))
}

/// What is answered of a row is what it says. Gives the number of its tokens.
pub fn row_holds(alloc: Global, phrase: Phrase, file: u32, line: &str) -> Result<usize, Fail> {
    let (column, rest) = split(line)?;
    let (depth, comes) = match phrase {
        Phrase::File => ("0", rest),
        _ => split(rest)?,
    };
    let text = fed(alloc, column)?;
    let source = Source::new(alloc, file, text.as_str())?;
    let place = Place {
        file,
        at: 0,
        depth: number(depth)?,
    };
    let told = source.told(alloc, phrase, place)?;
    agrees(alloc, line, told.as_str(), comes)?;
    Ok(source.count())
}

/// All rows of a table hold, in a file of this number. Gives the number of all their tokens.
pub fn table_holds(alloc: Global, phrase: Phrase, file: u32, table: &[u8]) -> Result<usize, Fail> {
    let mut count: usize = 0;
    for line in text_of(table)?.lines() {
        if !line.is_empty() {
            let more = row_holds(alloc, phrase, file, line)?;
            count = count.saturating_add(more);
        }
    }
    Ok(count)
}

/// The rows of each of these tables hold, whatever the number of the file, and have so many tokens together.
pub fn tables_hold(alloc: Global, phrase: Phrase, tables: &[(&[u8], usize)]) -> Result<(), Fail> {
    for (table, comes) in tables {
        for file in [FILE, 0, u32::MAX] {
            let count = table_holds(alloc, phrase, file, table)?;
            if count != *comes {
                let message = format!(in alloc; "{count} tokens, expected {comes}")?;
                return Err(Fail::new(message));
            }
        }
    }
    Ok(())
}

/// What is answered of a text that no table can hold.
pub fn odd_holds(alloc: Global, file: u32, row: &Odd) -> Result<(), Fail> {
    let (phrase, text, depth, comes) = *row;
    let place = Place { file, at: 0, depth };
    let told = Source::new(alloc, file, text)?.told(alloc, phrase, place)?;
    agrees(alloc, text, told.as_str(), comes)
}

/// What is answered of rows TEXT $ INDEX $ DEPTH $ ANSWER, where the phrase begins with the token of that index.
pub fn places_hold(alloc: Global, phrase: Phrase, table: &[u8]) -> Result<(), Fail> {
    for line in text_of(table)?.lines() {
        if !line.is_empty() {
            place_holds(alloc, phrase, line)?;
        }
    }
    Ok(())
}

/// What is answered of such a row is what it says.
fn place_holds(alloc: Global, phrase: Phrase, line: &str) -> Result<(), Fail> {
    let (column, rest) = split(line)?;
    let (at, rest) = split(rest)?;
    let (depth, comes) = split(rest)?;
    let text = fed(alloc, column)?;
    let source = Source::new(alloc, FILE, text.as_str())?;
    let place = Place {
        at: number(at)? as usize,
        ..first(number(depth)?)
    };
    let told = source.told(alloc, phrase, place)?;
    agrees(alloc, line, told.as_str(), comes)
}

/// The tree of an answer, and what else it says: how many tokens are left, or `file`. None where a rule is broken.
pub fn parted(told: &str) -> Option<(&str, &str)> {
    if told.starts_with("file(") {
        return Some((told, "file"));
    }
    let at = told.rfind(" rest ")?;
    Some((told.get(..at)?, told.get(at..)?.trim_start()))
}

/// An answer with the checksum of a tree for the tree.
pub fn summed(alloc: Global, told: &str) -> Result<String, Fail> {
    Ok(match parted(told) {
        Some((tree, other)) => {
            let checksum = checksum_of(0, tree) % 1_000_000;
            format!(in alloc; "{other} checksum {checksum}")?
        }
        None => format!(in alloc; "{told}")?,
    })
}

/// A checksum of the bytes of a text, in which their order counts, that goes on from this one.
pub fn checksum_of(checksum: u32, text: &str) -> u32 {
    let mut all = checksum;
    for byte in text.as_bytes() {
        all = all.wrapping_mul(31).wrapping_add(u32::from(*byte));
    }
    all
}
