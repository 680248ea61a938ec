// What is printed.
use sl_text::{Span, Text};
use sl_tree::Lexeme;
use std::alloc::Global;
use std::test::Fail;

/// The length of the header line.
pub const BASE: u32 = 11;

/// A span from the end of the header line on. None where it is of another file or begins before.
pub fn behind_header(file: u32, span: Span) -> Option<(u32, u32)> {
    if span.file != file {
        return None;
    }
    Some((span.from.checked_sub(BASE)?, span.to.checked_sub(BASE)?))
}

/// A text that is printed, of a tree of the file of this number.
#[derive(Drop)]
pub struct Page {
    alloc: Global,
    file: u32,
    text: String,
}

impl Page {
    /// An empty one.
    pub fn new(alloc: Global, file: u32) -> Page {
        Page {
            alloc,
            file,
            text: String::new(alloc),
        }
    }

    /// Prints a text.
    pub fn push(&mut self, part: &str) -> Result<(), Fail> {
        self.text.push_str(part)?;
        Ok(())
    }

    /// Prints a span, counted from the end of the header line.
    pub fn push_span(&mut self, span: Span) -> Result<(), Fail> {
        let spelled = match behind_header(self.file, span) {
            Some((from, to)) => format!(in self.alloc; "@{from}-{to}")?,
            None => format!(in self.alloc; "@elsewhere")?,
        };
        self.push(spelled.as_str())
    }

    /// Prints the kind and the bytes of a token.
    pub fn push_lexeme(&mut self, of: &Lexeme) -> Result<(), Fail> {
        let kind = of.kind;
        let name = format!(in self.alloc; "{kind:?}")?;
        self.push(name.as_str())?;
        self.push(" ")?;
        self.push(of.text.as_str())
    }

    /// Prints what stands in a literal, with a minus before it or without.
    pub fn push_literal(&mut self, negative: bool, of: &Lexeme) -> Result<(), Fail> {
        self.push(if negative { "literal(-" } else { "literal(" })?;
        self.push_lexeme(of)
    }

    /// Prints a name, or an operator, between these.
    pub fn push_between(&mut self, before: &str, name: &Text, behind: &str) -> Result<(), Fail> {
        self.push(before)?;
        self.push(name.as_str())?;
        self.push(behind)
    }

    /// Prints a name that is a node by itself.
    pub fn push_name(&mut self, name: &Text, span: Span) -> Result<(), Fail> {
        self.push(name.as_str())?;
        self.push_span(span)
    }

    /// Prints the end of a node.
    pub fn close(&mut self, span: Span) -> Result<(), Fail> {
        self.push(")")?;
        self.push_span(span)
    }

    /// Prints names with dots between them.
    pub fn push_path(&mut self, path: &[Text]) -> Result<(), Fail> {
        let mut more = false;
        for name in path {
            if more {
                self.push(".")?;
            }
            self.push(name.as_str())?;
            more = true;
        }
        Ok(())
    }

    /// What was printed.
    pub fn into_text(self) -> String {
        let Page { text, .. } = self;
        text
    }
}
