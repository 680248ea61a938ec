// Fronts of a program: its text cut off behind each of its tokens, and its first tokens, however many.
//
// In a table a row PLACES has places behind which the text is cut off, and the answer is G1 at the end; a row PLACE $ ANSWER has another
// answer. A row COUNT # ANSWER has the answer to so many of the first tokens, where it isn't G1 at the end of the file. An answer has the
// checksum of a printed tree for the tree.
use crate::asking::{FILE, Phrase, Source, first, told};
use crate::rows::{agrees, number, summed, text_of};
use std::alloc::Global;
use std::test::Fail;

/// The answer to a text that is cut off at this place is this one.
fn cut_holds(alloc: Global, program: &str, place: u32, comes: &str) -> Result<(), Fail> {
    let Some(text) = program.get(..place as usize) else {
        return Err("no such place".into());
    };
    let told = told(alloc, Phrase::File, text, 0)?;
    let short = summed(alloc, told.as_str())?;
    agrees(alloc, text, short.as_str(), comes)
}

/// The answers to a text that is cut off at each of these places are G1 at its end.
fn cuts_hold(alloc: Global, program: &str, places: &str) -> Result<(), Fail> {
    for column in places.split(' ') {
        let place = number(column)?;
        let comes = format!(in alloc; "G1 at {place}")?;
        cut_holds(alloc, program, place, comes.as_str())?;
    }
    Ok(())
}

/// The row COUNT # ANSWER of so many tokens, if there is one.
fn answer_of<'a>(table: &'a str, count: usize) -> Result<Option<&'a str>, Fail> {
    for line in table.lines() {
        if let Some((column, comes)) = line.split_once(" # ") {
            if number(column)? as usize == count {
                return Ok(Some(comes));
            }
        }
    }
    Ok(None)
}

/// The answers to each number of the first tokens are those of a table.
fn counts_hold(alloc: Global, program: &str, table: &str) -> Result<(), Fail> {
    let mut source = Source::new(alloc, FILE, program)?;
    let end = program.len();
    let broken = format!(in alloc; "G1 at {end}")?;
    for count in 0..=source.count() {
        source.show(count);
        let told = source.told(alloc, Phrase::File, first(0))?;
        let short = summed(alloc, told.as_str())?;
        let comes = answer_of(table, count)?.unwrap_or(broken.as_str());
        let what = format!(in alloc; "{count} tokens")?;
        agrees(alloc, what.as_str(), short.as_str(), comes)?;
    }
    Ok(())
}

/// The rows of a table hold.
pub fn prefixes_hold(alloc: Global, program: &[u8], table: &[u8]) -> Result<(), Fail> {
    let program = text_of(program)?;
    let table = text_of(table)?;
    for line in table.lines() {
        match line.split_once(" $ ") {
            Some((place, comes)) => cut_holds(alloc, program, number(place)?, comes)?,
            None => {
                if !line.is_empty() && !line.contains("#") {
                    cuts_hold(alloc, program, line)?;
                }
            }
        }
    }
    counts_hold(alloc, program, table)
}
