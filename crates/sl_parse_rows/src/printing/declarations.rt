// Files, and the declarations in them, are printed.
use super::page::Page;
use super::trees::{push_expr, push_fields, push_stmts};
use super::types::{push_type, push_type_behind};
use sl_text::{Row, Text};
use sl_tree::{Body, Decl, DeclKind, File, Import, Keyword, Lexeme, Note, Param, TypeTerm};
use std::test::Fail;

/// Prints a file: its package, its imports and its declarations, with semicolons between them.
pub fn push_file(page: &mut Page, of: &File) -> Result<(), Fail> {
    page.push("file(")?;
    let mut more = false;
    if !of.package.is_empty() {
        page.push("package ")?;
        page.push_path(of.package.as_slice())?;
        more = true;
    }
    for one in of.imports.as_slice() {
        page.push(if more { ";" } else { "" })?;
        push_import(page, one)?;
        more = true;
    }
    for one in of.decls.as_slice() {
        page.push(if more { ";" } else { "" })?;
        push_decl(page, one)?;
        more = true;
    }
    page.close(of.span)
}

/// Prints an import.
fn push_import(page: &mut Page, of: &Import) -> Result<(), Fail> {
    page.push("import(")?;
    page.push_path(of.path.as_slice())?;
    page.push(if of.all { "._" } else { "" })?;
    page.close(of.span)
}

/// Prints a declaration, or a member of one.
#[cycle(declarations)]
fn push_decl(page: &mut Page, of: &Decl) -> Result<(), Fail> {
    let notes = of.notes.as_slice();
    match &of.kind {
        DeclKind::Enum(name, names) => {
            push_head(page, "enum(", notes, name)?;
            push_names(page, names.as_slice())?;
        }
        DeclKind::Ints(name) => push_head(page, "ints(", notes, name)?,
        DeclKind::Class(name, types, params, parents, methods) => {
            push_head(page, "class(", notes, name)?;
            push_type_params(page, types.as_slice())?;
            push_params(page, params.as_slice())?;
            push_parents(page, parents.as_slice())?;
            push_members(page, methods)?;
        }
        DeclKind::Trait(name, types, parents, methods) => {
            push_head(page, "trait(", notes, name)?;
            push_type_params(page, types.as_slice())?;
            push_parents(page, parents.as_slice())?;
            push_members(page, methods)?;
        }
        DeclKind::Object(name, parents, members) => {
            push_head(page, "object(", notes, name)?;
            push_parents(page, parents.as_slice())?;
            push_members(page, members)?;
        }
        DeclKind::Method(overrides, name, types, params, result, body) => {
            push_start(page, "def(", notes)?;
            push_overriding(page, *overrides, name)?;
            push_type_params(page, types.as_slice())?;
            push_method_params(page, params)?;
            page.push(":")?;
            push_type(page, result)?;
            push_body(page, body)?;
        }
        DeclKind::Global(overrides, changes, name, kind, value) => {
            push_start(page, if *changes { "var(" } else { "val(" }, notes)?;
            push_overriding(page, *overrides, name)?;
            push_type_behind(page, ":", kind)?;
            page.push("=")?;
            push_expr(page, value)?;
        }
    }
    page.close(of.span)
}

/// Prints what a declaration is, and its notes.
fn push_start(page: &mut Page, before: &str, notes: &[Note]) -> Result<(), Fail> {
    page.push(before)?;
    for one in notes {
        page.push_between("note(", &one.name, "")?;
        push_fields(page, one.pairs.as_slice())?;
        page.close(one.span)?;
        page.push(" ")?;
    }
    Ok(())
}

/// Prints what a declaration is, its notes and its name.
fn push_head(page: &mut Page, before: &str, notes: &[Note], name: &Text) -> Result<(), Fail> {
    push_start(page, before, notes)?;
    page.push_between("", name, "")
}

/// Prints the name of a member, with `override` before it where it overrides.
fn push_overriding(page: &mut Page, overrides: bool, name: &Text) -> Result<(), Fail> {
    page.push_between(if overrides { "override " } else { "" }, name, "")
}

/// Prints the names of an enum behind a semicolon, with commas between them.
fn push_names(page: &mut Page, names: &[Lexeme]) -> Result<(), Fail> {
    let mut more = false;
    for one in names {
        page.push(if more { "," } else { ";" })?;
        page.push_lexeme(one)?;
        more = true;
    }
    Ok(())
}

/// Prints type parameters in brackets, if there are some.
fn push_type_params(page: &mut Page, types: &[Text]) -> Result<(), Fail> {
    let mut more = false;
    for one in types {
        page.push_between(if more { "," } else { "[" }, one, "")?;
        more = true;
    }
    page.push(if more { "]" } else { "" })
}

/// Prints parameters in parentheses, with commas between them.
fn push_params(page: &mut Page, params: &[Param]) -> Result<(), Fail> {
    page.push("(")?;
    let mut more = false;
    for one in params {
        page.push(if more { "," } else { "" })?;
        let word = match one.keyword {
            Keyword::Nothing => "",
            Keyword::Val => "val ",
            Keyword::Var => "var ",
        };
        page.push_between(word, &one.name, ":")?;
        push_type(page, &one.kind)?;
        more = true;
    }
    page.push(")")
}

/// Prints the parameters of a method, where parentheses are written.
fn push_method_params(page: &mut Page, params: &Option<Row<Param>>) -> Result<(), Fail> {
    match params {
        Some(params) => push_params(page, params.as_slice()),
        None => Ok(()),
    }
}

/// Prints parents behind `extends`, with `with` between them, if there are some.
fn push_parents(page: &mut Page, parents: &[TypeTerm]) -> Result<(), Fail> {
    let mut more = false;
    for one in parents {
        page.push(if more { " with " } else { " extends " })?;
        push_type(page, one)?;
        more = true;
    }
    Ok(())
}

/// Prints members in braces with semicolons between them, where braces are written.
#[cycle(declarations)]
fn push_members(page: &mut Page, members: &Option<Row<Decl>>) -> Result<(), Fail> {
    match members {
        Some(members) => {
            page.push(" {")?;
            let mut more = false;
            for one in members.as_slice() {
                page.push(if more { ";" } else { "" })?;
                push_decl(page, one)?;
                more = true;
            }
            page.push("}")
        }
        None => Ok(()),
    }
}

/// Prints the body of a method, if it has one.
fn push_body(page: &mut Page, body: &Option<Body>) -> Result<(), Fail> {
    match body {
        Some(Body::Block(stmts)) => {
            page.push(" {")?;
            push_stmts(page, stmts.as_slice())?;
            page.push("}")
        }
        Some(Body::Value(value)) => {
            page.push("=")?;
            push_expr(page, value)
        }
        None => Ok(()),
    }
}
