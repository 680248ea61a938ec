// Files: a package, the library's import, and then imports and declarations.
ghost use Rattle.std.specs.Prelude.{◌≡◌, ◌<◌, ◌≤◌, length, IfOk};
ghost use Rattle.sl_grammar.specs.Law.{found_as};
ghost use Rattle.sl_text.specs.Places.{feeds_from};
ghost use Rattle.sl_parse_expr.specs.Told.{behind};
ghost use Rattle.sl_parse.specs.Told.{ToldTwo, reads, items_form, items_view};
ghost use Rattle.sl_parse.specs.Answers.{Parsed};

use crate::declarations::decl;
use crate::imports::import;
use crate::library::library;
use crate::names::package;
use crate::tokens::{broken, peek, span_between};
use crate::tree_rules::in_file;
use sl_text::{Fault, Mem, Row, Token};
use sl_tree::sorts::{IMPORT, SEPARATOR};
use sl_tree::{Decl, File, Import};
use std::alloc::Global;

/// Imports and declarations, each behind a Separator, and the index behind them.
fn items(
    alloc: Global,
    file: u32,
    bytes: &[u8],
    tokens: &[Token],
    start: usize,
) -> Result<(Row<Import>, Row<Decl>, usize), Fault>
    requires in_bounds { start ≤ length tokens.now }
    requires small { length bytes.now ≤ 4194304 }
    ensures told { ToldTwo file bytes.now tokens.now (λ b. found_as items_view (reads b items_form (behind bytes.now tokens.now start))) result }
    ensures lies { IfOk result (λ v. (start ≤ v.2) × (v.2 ≤ length tokens.now)) }
{
    let mut imports = Row::new(alloc);
    let mut decls = Row::new(alloc);
    let mut at = start;
    'items: while peek(bytes, tokens, at) == SEPARATOR {
        if peek(bytes, tokens, at + 1) == IMPORT {
            let (one, next) = import(alloc, file, bytes, tokens, at + 1)?;
            imports.push(one)?;
            at = next;
        } else {
            let (one, next) = decl(alloc, file, bytes, tokens, at + 1)?;
            decls.push(one)?;
            at = next;
        }
    }
    Ok((imports, decls, at))
}

/// The places of the line feeds.
fn feeds(alloc: Global, bytes: &[u8]) -> Result<Row<u32>, Mem>
    requires { length bytes.now ≤ 4194304 }
    ensures { IfOk result (λ feeds. feeds ≡ feeds_from 0 bytes.now) }
{
    let mut feeds = Row::new(alloc);
    for (place, byte) in bytes.iter().enumerate() {
        if *byte == b'\n' {
            feeds.push(place as u32)?;
        }
    }
    Ok(feeds)
}

/// The tree of a file, from its number, its bytes, which are at most 4194304, and the tokens that `tokens` of sl_token gives for them.
/// Spans are in bytes and have the file's number as its tokens have it. The tree's `feeds` are the places of the bytes 10, in order.
///
/// Errors, of which the one at the first token is told: rule G6 at a token with which files go on, but none whose types, expressions and
/// blocks nest at most 64 deep, where the end of the bytes counts as a last token; rule G2 at a token that differs from
/// `import org.sireum._` behind the package or at the file's beginning; rule G1 at any other token from which no file goes on, or with an
/// empty span at the end of the bytes, where the file ends too early. Where none of these is broken, the tree is tested, and of all that it
/// breaks the one with the least place is told, and there the least number: rule G3 of notes, at a note or at a declaration without the
/// note that it asks for; rule G4 at the left side of an assignment that isn't made of names, `this`, parentheses, selections and
/// applications to one argument; rule G5 at a statement that is an expression but no application, where it isn't the only one of a case of
/// a match expression. Last, want of memory.
pub fn parse(alloc: Global, file: u32, bytes: &[u8], tokens: &[Token]) -> Result<File, Fault>
    requires small { length bytes.now ≤ 4194304 }
    ensures { Parsed file bytes.now tokens.now result }
{
    let (package, at) = package(alloc, file, bytes, tokens, 0)?;
    let at = library(file, bytes, tokens, at)?;
    let (imports, decls, next) = items(alloc, file, bytes, tokens, at)?;
    if next < tokens.len() {
        return Err(broken(1, file, bytes, tokens, next));
    }
    let span = span_between(tokens, 0, next);
    let feeds = feeds(alloc, bytes)?;
    let tree = File {
        package,
        imports,
        decls,
        span,
        feeds,
    };
    match in_file(&tree) {
        None => Ok(tree),
        Some(broken) => Err(Fault::Broken(broken)),
    }
}
