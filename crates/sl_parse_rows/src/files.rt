// Files are asked for. In a table a row of files is TEXT $ ANSWER.
use crate::asking::MOST;
use crate::printing::declarations::push_file;
use crate::printing::page::Page;
use sl_parse::parse;
use sl_text::{Fault, Token};
use std::alloc::Global;
use std::test::Fail;

/// The bytes of a file of this number, of at most 4194304, and its tokens.
#[derive(Clone, Copy)]
pub struct Asked<'a> {
    pub file: u32,
    pub bytes: &'a [u8],
    pub tokens: &'a [Token],
}

/// Whether these are the places of the line feeds.
fn are_feeds(bytes: &[u8], feeds: &[u32]) -> bool {
    let mut left = feeds;
    for (place, byte) in bytes.iter().enumerate() {
        if *byte == b'\n' {
            match left.split_first() {
                Some((first, others)) if *first as usize == place => left = others,
                _ => return false,
            }
        }
    }
    left.is_empty()
}

/// Prints the tree of a file. Its line feeds must be those of the bytes.
pub fn push_asked(
    alloc: Global,
    of: Asked<'_>,
    page: &mut Page,
) -> Result<Result<(), Fault>, Fail> {
    let bytes = of.bytes;
    if bytes.len() > MOST {
        return Err("too long".into());
    }
    match parse(alloc, of.file, bytes, of.tokens) {
        Ok(tree) => {
            if !are_feeds(bytes, tree.feeds.as_slice()) {
                return Err("other line feeds".into());
            }
            push_file(page, &tree)?;
            Ok(Ok(()))
        }
        Err(fault) => Ok(Err(fault)),
    }
}
