// Phrases in which each token is cut off, left out, and replaced by each of some tokens, and phrases with each of them behind the end.
//
// In a table a line `$ DEPTH $ TEXT` gives a phrase; the tokens of its text have one blank between them. It is followed by a line
// TOKEN $ LISTING $ CHECKSUM for each of its tokens, and by one for `END`. The listing has all of TOKENS, and for files of DECLARING, but
// those for which the answer is G1 just at the token that is replaced. Before the first of several with one answer stands that answer,
// without the tree. The checksum is that of all answers, trees and places included.
//
// In a line `$ DEPTH $ HEAD $ TEXT` the phrase begins with HEAD, and has no rows of its tokens.
use crate::asking::{Phrase, told};
use crate::rows::{agrees, checksum_of, fed, number, parted, split, text_of};
use std::alloc::Global;
use std::test::Fail;

/// What is put for a token: nothing, and nothing at the end of the file; a line feed; and tokens of each sort that the grammar tells
/// apart, and of none.
const TOKENS: &str =
    r#"CUT NONE ; ( ) [ ] { } , . _ : = => <- if else match case val var while for return this a T until to Contract 1 "" 'c' s"" l"" ! ~ - | & == < :+ + * 'a def @ #"#;

/// What is put besides where files are asked for.
const DECLARING: &str = "package import class object trait extends with override org sireum";

/// All that is put.
fn tokens_of(phrase: Phrase) -> &'static [&'static str] {
    match phrase {
        Phrase::File => &[TOKENS, DECLARING],
        _ => &[TOKENS],
    }
}

/// What a row says of the answers.
#[derive(Drop)]
struct Listing {
    text: String,
    last: String,
    checksum: u32,
}

/// An answer without the tree.
pub fn short<'a>(told: &'a str) -> &'a str {
    match parted(told) {
        Some((_, other)) => other,
        None => told,
    }
}

impl Listing {
    /// The listing of no answers.
    fn new(alloc: Global) -> Listing {
        Listing {
            text: String::new(alloc),
            last: String::new(alloc),
            checksum: 0,
        }
    }

    /// Lists a token, with what is answered where it is put for another one. Nothing is listed where that is what mostly comes.
    fn push(&mut self, token: &str, told: &str, mostly: &str) -> Result<(), Fail> {
        self.checksum = checksum_of(self.checksum, told);
        if told == mostly {
            return Ok(());
        }
        let answer = short(told);
        if self.last.as_str() != answer {
            self.last.clear();
            self.last.push_str(answer)?;
            if !self.text.is_empty() {
                self.text.push_str(" ")?;
            }
            self.text.push_str("`")?;
            self.text.push_str(answer)?;
            self.text.push_str("`")?;
        }
        self.text.push_str(" ")?;
        self.text.push_str(token)?;
        Ok(())
    }
}

/// What stands before a token and behind it, with this token put for it.
fn replaced(alloc: Global, before: &str, token: &str, behind: &str) -> Result<String, Fail> {
    let mut text = String::new(alloc);
    text.push_str(before)?;
    if token != "CUT" {
        if token != "NONE" {
            text.push_str(token)?;
        }
        text.push_str(behind)?;
    }
    fed(alloc, text.as_str())
}

/// A token of a phrase: its text, what stands before it and behind it, and in how many nodes the phrase stands.
#[derive(Drop)]
struct Spot<'a> {
    token: &'a str,
    before: &'a str,
    behind: &'a str,
    depth: u32,
}

/// The row of a token holds.
fn spot_holds(alloc: Global, phrase: Phrase, spot: &Spot<'_>, line: &str) -> Result<(), Fail> {
    let from = spot.before.len();
    let mostly = format!(in alloc; "G1 at {from}")?;
    let mut listing = Listing::new(alloc);
    for tokens in tokens_of(phrase) {
        for token in tokens.split(' ') {
            let text = replaced(alloc, spot.before, token, spot.behind)?;
            let told = told(alloc, phrase, text.as_str(), spot.depth)?;
            listing.push(token, told.as_str(), mostly.as_str())?;
        }
    }
    let checksum = listing.checksum % 1_000_000;
    let listed = listing.text.as_str();
    let token = spot.token;
    let row = format!(in alloc; "{token} $ {listed} $ {checksum}")?;
    agrees(alloc, spot.before, row.as_str(), line)
}

/// A phrase of which the rows are read: what of it stands before the token of the next row, and the rest, with a blank before it.
#[derive(Drop)]
struct Sample {
    depth: u32,
    before: String,
    rest: String,
}

/// The phrase of a line DEPTH $ TEXT, or DEPTH $ HEAD $ TEXT, before its first row is read.
fn read_sample(alloc: Global, line: &str) -> Result<Sample, Fail> {
    let (depth, phrase) = split(line)?;
    let mut before = String::new(alloc);
    let mut rest = String::new(alloc);
    match phrase.split_once(" $ ") {
        Some((head, text)) => {
            before.push_str(head)?;
            before.push_str(" ")?;
            rest.push_str(text)?;
        }
        None => rest.push_str(phrase)?,
    }
    rest.push_str(" END")?;
    Ok(Sample {
        depth: number(depth)?,
        before,
        rest,
    })
}

/// The row of the next token of a phrase holds.
fn next_holds(alloc: Global, phrase: Phrase, sample: &mut Sample, line: &str) -> Result<(), Fail> {
    let mut behind = String::new(alloc);
    let mut token = String::new(alloc);
    let Sample {
        depth,
        before,
        rest,
    } = sample;
    match rest.split_once(" ") {
        Some((one, others)) => {
            token.push_str(one)?;
            behind.push_str(others)?;
        }
        None => token.push_str(rest.as_str())?,
    }
    let mut tail = String::new(alloc);
    let others = behind.as_str().strip_suffix(" END").unwrap_or("");
    if !others.is_empty() {
        tail.push_str(" ")?;
        tail.push_str(others)?;
    }
    let spot = Spot {
        token: token.as_str(),
        before: before.as_str(),
        behind: tail.as_str(),
        depth: *depth,
    };
    spot_holds(alloc, phrase, &spot, line)?;
    before.push_str(token.as_str())?;
    before.push_str(" ")?;
    *rest = behind;
    Ok(())
}

/// The rows of a table hold.
pub fn replaced_hold(alloc: Global, phrase: Phrase, table: &[u8]) -> Result<(), Fail> {
    let mut of = read_sample(alloc, "0 $ a")?;
    for line in text_of(table)?.lines() {
        match line.strip_prefix("$ ") {
            Some(line) => of = read_sample(alloc, line)?,
            None => {
                if !line.is_empty() {
                    next_holds(alloc, phrase, &mut of, line)?;
                }
            }
        }
    }
    Ok(())
}
