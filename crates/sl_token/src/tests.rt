// Tables of files, and what comes of them.
use super::*;
use sl_text::{Broken, Fault, Kind, Token};
use std::alloc::Global;
use std::test::Fail;

mod bytes;
mod faults;
mod lengths;
mod lines;
mod pieces;
mod texts;
mod words;

use words::{SPELLED, Spelled};

/// The header line. A row shows what stands behind it.
const HEADER: &[u8] = b"// #Sireum\n";

/// What stands behind the header line; and the kind and the bytes of each of its tokens, or the rule that it breaks and the
/// place, counted from the end of the header line.
type Row = (&'static str, &'static str);

/// The same of files that may be no UTF-8.
type Bytes = (&'static [u8], &'static str);

/// The number of the files.
const FILE: u32 = 7;

/// The bytes of a token. None where its span isn't behind this place, or it is empty and no Separator.
fn spelling<'a>(bytes: &'a [u8], end: u32, token: &Token) -> Option<&'a str> {
    let Token { kind, span } = *token;
    let stands = if kind == Kind::Separator {
        end == span.from && span.from == span.to
    } else {
        end <= span.from && span.from < span.to
    };
    if !stands || span.file != FILE {
        return None;
    }
    let from = usize::try_from(span.from).ok()?;
    let to = usize::try_from(span.to).ok()?;
    std::str::from_utf8(bytes.get(from..to)?).ok()
}

/// The kind and the bytes of each token, or `?` where its span is wrong.
fn listed(alloc: Global, bytes: &[u8], all: &[Token]) -> Result<String, Fail> {
    let mut text = String::new(alloc);
    let mut end = 0;
    for token in all {
        let spelled = spelling(bytes, end, token).unwrap_or("?");
        let kind = token.kind;
        let name = format!(in alloc; "{kind:?}")?;
        if !text.is_empty() {
            text.push_str(", ")?;
        }
        text.push_str(name.as_str())?;
        if !spelled.is_empty() {
            text.push_str(" ")?;
            text.push_str(spelled)?;
        }
        end = token.span.to;
    }
    Ok(text)
}

/// The rule that is broken and the place, counted from the end of so many bytes.
fn broken(alloc: Global, file: u32, base: usize, fault: Fault) -> Result<String, Fail> {
    let Fault::Broken(Broken { rule, span }) = fault else {
        return Err("no memory".into());
    };
    let from = usize::try_from(span.from).unwrap_or(0);
    Ok(match from.checked_sub(base) {
        Some(place) if span.file == file => format!(in alloc; "{rule} at {place}")?,
        _ => format!(in alloc; "{rule} elsewhere")?,
    })
}

/// What comes of a file that begins with these bytes and goes on with those.
fn told(alloc: Global, header: &[u8], rest: &[u8]) -> Result<String, Fail> {
    let mut bytes = Vec::from_slice(alloc, header)?;
    bytes.extend_from_slice(rest)?;
    match tokens(alloc, FILE, bytes.as_slice()) {
        Ok(all) => listed(alloc, bytes.as_slice(), all.as_slice()),
        Err(fault) => broken(alloc, FILE, header.len(), fault),
    }
}

#[test]
fn files_are_cut(rt: HostRuntime) -> Result<(), Fail> {
    let tables = [
        pieces::BLANKS,
        pieces::NAMES,
        pieces::CHARACTERS,
        pieces::NUMBERS,
        pieces::OPERATORS,
        texts::QUOTED,
        texts::ESCAPES,
        texts::UNENDED,
        texts::TRIPLES,
        texts::LETTERS,
        texts::PREFIXED,
        lines::LINES,
        lines::BRACKETS,
        lines::CASES,
        faults::PAIRS,
    ];
    for table in tables {
        for (source, comes) in table {
            let told = told(rt.alloc(), HEADER, source.as_bytes())?;
            assert_eq!(rt; told.as_str(), *comes, "{source:?}");
        }
    }
    Ok(())
}

#[test]
fn bytes_are_cut(rt: HostRuntime) -> Result<(), Fail> {
    for table in [bytes::ILL_FORMED, bytes::INSIDE, bytes::PAIRS] {
        for (source, comes) in table {
            let told = told(rt.alloc(), HEADER, source)?;
            assert_eq!(rt; told.as_str(), *comes, "{source:?}");
        }
    }
    for (source, comes) in bytes::FILES {
        let told = told(rt.alloc(), b"", source)?;
        assert_eq!(rt; told.as_str(), *comes, "{source:?}");
    }
    Ok(())
}

/// What stands before two tokens and how it is listed; whether newlines are enabled there, and whether it is a bracket.
type Around = (&'static str, &'static str, bool, bool);

const TOP: Around = ("", "", true, false);

const AROUND: [Around; 5] = [
    TOP,
    ("{", "Mark {, ", true, true),
    ("(", "Mark (, ", false, true),
    ("[", "Mark [, ", false, true),
    ("case ", "Word case, ", false, false),
];

/// A name, which can end a statement and begin one.
const NAME: Spelled = ("Ident", "x", true, true);

/// These parts behind one another.
fn joined(alloc: Global, parts: &[&str]) -> Result<String, Fail> {
    let mut text = String::new(alloc);
    for part in parts {
        text.push_str(part)?;
    }
    Ok(text)
}

/// Two tokens behind this, on a line of their own each or on one line; and what comes of them.
fn pair(
    alloc: Global,
    around: &Around,
    first: &Spelled,
    second: &Spelled,
    apart: bool,
) -> Result<(String, String), Fail> {
    let (before, listed, enabled, bracket) = *around;
    let (kind, one, ends, _) = *first;
    let (other, two, _, begins) = *second;
    let closed = bracket && [")", "]", "}"].contains(&one);
    let separated = apart && ends && begins && (enabled || closed);
    let gap = if apart { "\n" } else { " " };
    let between = if separated { "Separator, " } else { "" };
    Ok((
        joined(alloc, &[before, one, gap, two])?,
        joined(
            alloc,
            &[listed, kind, " ", one, ", ", between, other, " ", two],
        )?,
    ))
}

#[test]
fn neighbours_are_separated(rt: HostRuntime) -> Result<(), Fail> {
    let alloc = rt.alloc();
    for first in SPELLED {
        for second in SPELLED {
            let (source, comes) = pair(alloc, &TOP, first, second, true)?;
            let told = told(alloc, HEADER, source.as_bytes())?;
            assert_eq!(rt; told.as_str(), comes.as_str(), "{source:?}");
        }
    }
    for around in &AROUND {
        for token in SPELLED {
            for (first, second) in [(token, &NAME), (&NAME, token)] {
                for apart in [true, false] {
                    let (source, comes) = pair(alloc, around, first, second, apart)?;
                    let told = told(alloc, HEADER, source.as_bytes())?;
                    assert_eq!(rt; told.as_str(), comes.as_str(), "{source:?}");
                }
            }
        }
    }
    Ok(())
}

/// The kind and the place of each token of a file; or the rule that it breaks, and the place.
fn placed(alloc: Global, file: u32, bytes: &[u8]) -> Result<String, Fail> {
    let all = match tokens(alloc, file, bytes) {
        Ok(all) => all,
        Err(fault) => return broken(alloc, file, 0, fault),
    };
    let mut text = String::new(alloc);
    for token in all.as_slice() {
        let Token { kind, span } = *token;
        if !text.is_empty() {
            text.push_str(", ")?;
        }
        if span.file != file {
            text.push_str("elsewhere ")?;
        }
        let next = format!(in alloc; "{kind:?} {}..{}", span.from, span.to)?;
        text.push_str(next.as_str())?;
    }
    Ok(text)
}

#[test]
fn tokens_have_places(rt: HostRuntime) -> Result<(), Fail> {
    for (source, comes) in lengths::SPANS {
        for file in [0, 1, u32::MAX] {
            let placed = placed(rt.alloc(), file, source)?;
            assert_eq!(rt; placed.as_str(), *comes, "{source:?}");
        }
    }
    Ok(())
}

/// A file of this length, that begins and ends with these bytes and has that one between them.
fn filled(
    alloc: Global,
    length: usize,
    (front, back, fill): (&[u8], &[u8], u8),
) -> Result<Vec<u8>, Fail> {
    let mut bytes = Vec::from_slice(alloc, front)?;
    bytes.resize(length.saturating_sub(back.len()), fill)?;
    bytes.extend_from_slice(back)?;
    Ok(bytes)
}

#[test]
fn files_may_be_long(rt: HostRuntime) -> Result<(), Fail> {
    for (front, back, fill, length, comes) in lengths::LONG {
        let bytes = filled(rt.alloc(), *length, (front, back, *fill))?;
        let placed = placed(rt.alloc(), FILE, bytes.as_slice())?;
        assert_eq!(rt; placed.as_str(), *comes, "{front:?} to {length}");
    }
    Ok(())
}
