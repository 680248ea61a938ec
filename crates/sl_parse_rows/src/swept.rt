// Files of which each token is cut off, left out, and put twice, but for those of a HEAD with which a file begins.
//
// Beside a table of files stands a text with one checksum for each of its rows: that of all these answers, trees and places included.
use crate::asking::{FILE, Phrase, Source, told};
use crate::rows::{checksum_of, fed, number, split, text_of};
use std::alloc::Global;
use std::test::Fail;

/// The library's import.
const HEAD: &str = "import org.sireum._;";

/// The checksum, gone on with the answers where what stands between these places is cut off, left out, and put twice.
fn token_swept(
    alloc: Global,
    text: &str,
    (from, to): (u32, u32),
    checksum: u32,
) -> Result<u32, Fail> {
    let Some((front, behind)) = text.split_at_checked(to as usize) else {
        return Err("no such place".into());
    };
    let Some((before, token)) = front.split_at_checked(from as usize) else {
        return Err("no such place".into());
    };
    let less = format!(in alloc; "{before} {behind}")?;
    let more = format!(in alloc; "{before}{token} {token}{behind}")?;
    let mut all = checksum;
    for changed in [before, less.as_str(), more.as_str()] {
        let told = told(alloc, Phrase::File, changed, 0)?;
        all = checksum_of(all, told.as_str());
    }
    Ok(all)
}

/// The checksum of a row.
fn row_swept(alloc: Global, line: &str) -> Result<u32, Fail> {
    let (column, _) = split(line)?;
    let head = if column.starts_with(HEAD) {
        HEAD.len()
    } else {
        0
    };
    let text = fed(alloc, column)?;
    let source = Source::new(alloc, FILE, text.as_str())?;
    let mut checksum = 0;
    for at in 0..source.count() {
        if let Some((from, to)) = source.place_of(at) {
            if from < to && from as usize >= head {
                checksum = token_swept(alloc, text.as_str(), (from, to), checksum)?;
            }
        }
    }
    Ok(checksum % 1_000_000)
}

/// The checksums are those of the rows of a table, in order.
fn table_swept(alloc: Global, table: &[u8], sums: &[u8]) -> Result<(), Fail> {
    let mut columns = text_of(sums)?.split_ascii_whitespace();
    for line in text_of(table)?.lines() {
        if !line.is_empty() {
            let Some(column) = columns.next() else {
                return Err("a checksum is missing".into());
            };
            let checksum = row_swept(alloc, line)?;
            if checksum != number(column)? {
                let message = format!(in alloc;
                    "{line}\n  checksum {checksum}, expected {column}"
                )?;
                return Err(Fail::new(message));
            }
        }
    }
    match columns.next() {
        Some(_) => Err("a row is missing".into()),
        None => Ok(()),
    }
}

/// The checksums of each of these tables are those of its rows.
pub fn swept_hold(alloc: Global, tables: &[(&[u8], &[u8])]) -> Result<(), Fail> {
    for (table, sums) in tables {
        table_swept(alloc, table, sums)?;
    }
    Ok(())
}
