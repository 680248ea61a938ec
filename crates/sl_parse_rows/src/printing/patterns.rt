// Patterns are printed.
use super::page::Page;
use super::types::{push_type, push_type_behind};
use sl_text::{Span, Text};
use sl_tree::{Pattern, PatternKind, TypeTerm};
use std::test::Fail;

/// Prints a pattern.
#[cycle(patterns)]
pub fn push_pattern(page: &mut Page, of: &Pattern) -> Result<(), Fail> {
    match &of.kind {
        PatternKind::Any(kind) => {
            page.push("any(")?;
            push_type_behind(page, "", kind)?;
        }
        PatternKind::Bind(name, kind) => return push_bind(page, name, kind, of.span),
        PatternKind::Literal(negative, token) => page.push_literal(*negative, token)?,
        PatternKind::Constant(path) => {
            page.push("constant(")?;
            page.push_path(path.as_slice())?;
        }
        PatternKind::Class(path, parts) => {
            page.push("class(")?;
            page.push_path(path.as_slice())?;
            page.push(";")?;
            push_patterns(page, parts.as_slice())?;
        }
    }
    page.close(of.span)
}

/// Prints patterns with commas between them.
#[cycle(patterns)]
fn push_patterns(page: &mut Page, all: &[Pattern]) -> Result<(), Fail> {
    let mut more = false;
    for one in all {
        if more {
            page.push(",")?;
        }
        push_pattern(page, one)?;
        more = true;
    }
    Ok(())
}

/// Prints a name, or a name and a type.
fn push_bind(
    page: &mut Page,
    name: &Text,
    kind: &Option<TypeTerm>,
    span: Span,
) -> Result<(), Fail> {
    match kind {
        Some(kind) => {
            page.push_between("bind(", name, ":")?;
            push_type(page, kind)?;
            page.close(span)
        }
        None => page.push_name(name, span),
    }
}
