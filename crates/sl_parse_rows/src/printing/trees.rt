// Expressions, cases and statements are printed.
use super::page::Page;
use super::patterns::push_pattern;
use super::types::{push_type_behind, push_types};
use sl_text::Text;
use sl_tree::{Case, Else, Expr, ExprKind, Field, Lexeme, Stmt, StmtKind, TypeTerm};
use std::test::Fail;

/// Prints an expression.
#[cycle(trees)]
pub fn push_expr(page: &mut Page, of: &Expr) -> Result<(), Fail> {
    match &of.kind {
        ExprKind::Literal(negative, token) => page.push_literal(*negative, token)?,
        ExprKind::Name(name) => return page.push_name(name, of.span),
        ExprKind::This => page.push("this(")?,
        ExprKind::Paren(inner) => {
            page.push("paren(")?;
            push_expr(page, inner.get())?;
        }
        ExprKind::Prefix(operator, inner) => {
            page.push_between("prefix(", operator, " ")?;
            push_expr(page, inner.get())?;
        }
        ExprKind::Infix(left, operator, right) => {
            page.push("infix(")?;
            push_expr(page, left.get())?;
            page.push_between(" ", operator, " ")?;
            push_expr(page, right.get())?;
        }
        ExprKind::Select(inner, name) => {
            page.push("select(")?;
            push_expr(page, inner.get())?;
            page.push_between(" ", name, "")?;
        }
        ExprKind::Apply(inner, args) => {
            page.push("apply(")?;
            push_expr(page, inner.get())?;
            push_args(page, args.as_slice())?;
        }
        ExprKind::Update(inner, fields) => {
            page.push("update(")?;
            push_expr(page, inner.get())?;
            push_fields(page, fields.as_slice())?;
        }
        ExprKind::Given(inner, types) => {
            page.push("given(")?;
            push_expr(page, inner.get())?;
            push_given(page, types.as_slice())?;
        }
        ExprKind::If(condition, yes, no) => {
            page.push("if(")?;
            push_expr(page, condition.get())?;
            page.push(",")?;
            push_expr(page, yes.get())?;
            page.push(",")?;
            push_expr(page, no.get())?;
        }
        ExprKind::Match(inner, cases) => {
            page.push("match(")?;
            push_expr(page, inner.get())?;
            push_cases(page, cases.as_slice())?;
        }
    }
    page.close(of.span)
}

/// Prints types behind a semicolon, with commas between them.
fn push_given(page: &mut Page, types: &[TypeTerm]) -> Result<(), Fail> {
    page.push(";")?;
    push_types(page, types)
}

/// Prints arguments behind a semicolon, with commas between them.
#[cycle(trees)]
fn push_args(page: &mut Page, args: &[Expr]) -> Result<(), Fail> {
    let mut more = false;
    for one in args {
        page.push(if more { "," } else { ";" })?;
        push_expr(page, one)?;
        more = true;
    }
    Ok(())
}

/// Prints names with values behind a semicolon, with commas between them.
#[cycle(trees)]
pub fn push_fields(page: &mut Page, fields: &[Field]) -> Result<(), Fail> {
    let mut more = false;
    for one in fields {
        page.push_between(if more { "," } else { ";" }, &one.name, "=")?;
        push_expr(page, &one.value)?;
        more = true;
    }
    Ok(())
}

/// Prints cases behind a semicolon, with blanks between them.
#[cycle(trees)]
fn push_cases(page: &mut Page, cases: &[Case]) -> Result<(), Fail> {
    let mut more = false;
    for one in cases {
        page.push(if more { " case(" } else { ";case(" })?;
        push_pattern(page, &one.pattern)?;
        match &one.guard {
            Some(guard) => {
                page.push(" if ")?;
                push_expr(page, guard)?;
            }
            None => (),
        }
        page.push("=>")?;
        push_stmts(page, one.body.as_slice())?;
        page.push(")")?;
        more = true;
    }
    Ok(())
}

/// Prints statements with semicolons between them.
#[cycle(trees)]
pub fn push_stmts(page: &mut Page, all: &[Stmt]) -> Result<(), Fail> {
    let mut more = false;
    for one in all {
        page.push(if more { ";" } else { "" })?;
        push_stmt(page, one)?;
        more = true;
    }
    Ok(())
}

/// Prints a statement.
#[cycle(trees)]
fn push_stmt(page: &mut Page, of: &Stmt) -> Result<(), Fail> {
    match &of.kind {
        StmtKind::Let(changes, name, kind, value) => {
            push_declared(page, *changes, name, kind)?;
            push_expr(page, value)?;
        }
        StmtKind::Assign(place, value) => {
            page.push("assign(")?;
            push_expr(page, place)?;
            page.push("=")?;
            push_expr(page, value)?;
        }
        StmtKind::Call(value) => {
            page.push("call(")?;
            push_expr(page, value)?;
        }
        StmtKind::If(condition, body, other) => {
            page.push("ifs(")?;
            push_expr(page, condition)?;
            page.push(" {")?;
            push_stmts(page, body.as_slice())?;
            push_else(page, other)?;
        }
        StmtKind::While(condition, body) => {
            page.push("while(")?;
            push_expr(page, condition)?;
            page.push(" {")?;
            push_stmts(page, body.as_slice())?;
            page.push("}")?;
        }
        StmtKind::For(name, first, closed, last, body) => {
            page.push_between("for(", name, " ")?;
            push_expr(page, first)?;
            page.push(if *closed { " to " } else { " until " })?;
            push_expr(page, last)?;
            page.push(" {")?;
            push_stmts(page, body.as_slice())?;
            page.push("}")?;
        }
        StmtKind::Match(inner, cases) => {
            page.push("matches(")?;
            push_expr(page, inner)?;
            push_cases(page, cases.as_slice())?;
        }
        StmtKind::Return(None) => page.push("return(")?,
        StmtKind::Return(Some(value)) => {
            page.push("return(")?;
            push_expr(page, value)?;
        }
        StmtKind::Skip(tokens) => push_skip(page, tokens.as_slice())?,
    }
    page.close(of.span)
}

/// Prints the end of a block, and what stands behind its `else`.
#[cycle(trees)]
fn push_else(page: &mut Page, of: &Else) -> Result<(), Fail> {
    match of {
        Else::Nothing => page.push("}"),
        Else::Block(body) => {
            page.push("} {")?;
            push_stmts(page, body.as_slice())?;
            page.push("}")
        }
        Else::If(next) => {
            page.push("} ")?;
            push_stmt(page, next.get())
        }
    }
}

/// Prints a declaration up to its value.
fn push_declared(
    page: &mut Page,
    changes: bool,
    name: &Text,
    kind: &Option<TypeTerm>,
) -> Result<(), Fail> {
    page.push_between(if changes { "var(" } else { "val(" }, name, "")?;
    push_type_behind(page, ":", kind)?;
    page.push("=")
}

/// Prints the tokens of a statement that is skipped, with commas between them.
fn push_skip(page: &mut Page, tokens: &[Lexeme]) -> Result<(), Fail> {
    let mut more = false;
    for one in tokens {
        page.push(if more { "," } else { "skip(" })?;
        page.push_lexeme(one)?;
        more = true;
    }
    Ok(())
}
