// The parser is asked.
use crate::files::{Asked, push_asked};
use crate::printing::page::{BASE, Page, behind_header};
use crate::printing::trees::{push_expr, push_stmts};
use crate::printing::types::push_type;
use sl_parse_expr::{block, expr, type_term};
use sl_text::{Broken, Fault, Row, Rule, Span, Token};
use sl_token::tokens;
use std::alloc::Global;
use std::test::Fail;

/// The header line. A row shows what stands behind it.
const HEADER: &[u8] = b"// #Sireum\n";

/// The number of a file.
pub const FILE: u32 = 7;

/// The greatest length of a file.
pub const MOST: usize = 4_194_304;

/// Which call is asked. A file begins with its first token and stands in no node.
#[derive(Clone, Copy)]
pub enum Phrase {
    Type,
    Expr,
    Block,
    File,
}

/// Where the phrase begins: the number of its file, the index of its first token, and how many nodes it stands in.
#[derive(Clone, Copy)]
pub struct Place {
    pub file: u32,
    pub at: usize,
    pub depth: u32,
}

/// The first token of the file, in so many nodes.
pub fn first(depth: u32) -> Place {
    Place {
        file: FILE,
        at: 0,
        depth,
    }
}

/// The bytes of a file, and its tokens, of which the first are shown.
#[derive(Drop)]
pub struct Source {
    bytes: Vec<u8>,
    tokens: Row<Token>,
    shown: usize,
}

impl Source {
    /// The file of this number that has this text behind the header line.
    pub fn new(alloc: Global, file: u32, text: &str) -> Result<Source, Fail> {
        let mut bytes = Vec::from_slice(alloc, HEADER)?;
        bytes.extend_from_slice(text.as_bytes())?;
        match tokens(alloc, file, bytes.as_slice()) {
            Ok(tokens) => {
                let shown = tokens.len();
                Ok(Source {
                    bytes,
                    tokens,
                    shown,
                })
            }
            Err(_) => Err("no tokens".into()),
        }
    }

    /// How many tokens there are.
    pub fn count(&self) -> usize {
        self.tokens.len()
    }

    /// Where a token stands, counted from the end of the header line.
    pub fn place_of(&self, at: usize) -> Option<(u32, u32)> {
        let token = self.tokens.as_slice().get(at)?;
        behind_header(token.span.file, token.span)
    }

    /// Shows so many tokens.
    pub fn show(&mut self, count: usize) {
        self.shown = count;
    }

    /// Whether a span is that of a token, or the end of the file.
    fn has(&self, file: u32, span: Span) -> bool {
        for token in self.tokens.as_slice() {
            if token.span == span {
                return true;
            }
        }
        span.file == file && span.from as usize == self.bytes.len() && span.to == span.from
    }

    /// Whether a span begins where a token does, and ends where one does.
    fn covers(&self, span: Span) -> bool {
        let tokens = self.tokens.as_slice();
        tokens.iter().any(|token| token.span.file == span.file && token.span.from == span.from)
            && tokens.iter().any(|token| token.span.to == span.to)
            && span.from < span.to
    }

    /// What is answered: the tree and how many tokens are left, of a file the tree alone, or the rule that is broken and the place.
    pub fn told(&self, alloc: Global, phrase: Phrase, place: Place) -> Result<String, Fail> {
        let mut page = Page::new(alloc, place.file);
        match self.asked(alloc, phrase, place, &mut page)? {
            Ok(Some(next)) => {
                let left = match self.shown.checked_sub(next) {
                    Some(left) => format!(in alloc; " rest {left}")?,
                    None => format!(in alloc; " beyond")?,
                };
                page.push(left.as_str())?;
                Ok(page.into_text())
            }
            Ok(None) => Ok(page.into_text()),
            Err(Fault::Broken(Broken { rule, span })) => {
                let known = match rule.number {
                    3..=5 => self.covers(span),
                    _ => self.has(place.file, span),
                };
                if !known {
                    return Err("no span of tokens".into());
                }
                refusal(alloc, place.file, rule, span)
            }
            Err(Fault::Mem) => Err("no memory".into()),
        }
    }

    /// Prints the tree, and gives the index behind it, if it isn't that of a file.
    fn asked(
        &self,
        alloc: Global,
        phrase: Phrase,
        place: Place,
        page: &mut Page,
    ) -> Result<Result<Option<usize>, Fault>, Fail> {
        let Place { file, at, depth } = place;
        let bytes = self.bytes.as_slice();
        let Some(all) = self.tokens.as_slice().get(..self.shown) else {
            return Err("no such tokens".into());
        };
        if bytes.len() > MOST || at > all.len() {
            return Err("no such place".into());
        }
        match phrase {
            Phrase::Type => match type_term(alloc, file, bytes, all, at, depth) {
                Ok((of, next)) => {
                    push_type(page, &of)?;
                    Ok(Ok(Some(next)))
                }
                Err(fault) => Ok(Err(fault)),
            },
            Phrase::Expr => match expr(alloc, file, bytes, all, at, depth) {
                Ok((of, next)) => {
                    push_expr(page, &of)?;
                    Ok(Ok(Some(next)))
                }
                Err(fault) => Ok(Err(fault)),
            },
            Phrase::Block => match block(alloc, file, bytes, all, at, depth) {
                Ok((of, next)) => {
                    page.push("{")?;
                    push_stmts(page, of.as_slice())?;
                    page.push("}")?;
                    Ok(Ok(Some(next)))
                }
                Err(fault) => Ok(Err(fault)),
            },
            Phrase::File => {
                let of = Asked {
                    file,
                    bytes,
                    tokens: all,
                };
                match push_asked(alloc, of, page)? {
                    Ok(()) => Ok(Ok(None)),
                    Err(fault) => Ok(Err(fault)),
                }
            }
        }
    }
}

/// The rule that is broken and the place, counted from the end of the header line.
fn refusal(alloc: Global, file: u32, rule: Rule, span: Span) -> Result<String, Fail> {
    Ok(match behind_header(file, span) {
        Some((from, _)) => format!(in alloc; "{rule} at {from}")?,
        None => format!(in alloc; "{rule} elsewhere")?,
    })
}

/// What is answered of a text.
pub fn told(alloc: Global, phrase: Phrase, text: &str, depth: u32) -> Result<String, Fail> {
    Source::new(alloc, FILE, text)?.told(alloc, phrase, first(depth))
}
