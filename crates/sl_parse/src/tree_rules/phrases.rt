// The rules of expressions and statements: G4 of assignments, and G5 of expressions that are statements.
ghost use Rattle.std.specs.Prelude.{◌≡◌};
ghost use Rattle.std.specs.List.{flat_map};
ghost use Rattle.sl_parse.specs.TreeRules.{first_of, seen_expr, seen_stmt, broken_expr, broken_option, broken_field, broken_case, broken_stmt, broken_stmts, broken_value, broken_else};

use super::{at, sooner};
use sl_text::Broken;
use sl_tree::{Case, Else, Expr, ExprKind, Field, Stmt, StmtKind};

/// What an expression breaks first.
#[cycle(phrases)]
#[tactic(auto, using(crate::proofs::PhraseFaults::all_exprs))]
pub fn in_expr(e: &Expr) -> Option<Broken>
    ensures { result ≡ first_of (broken_expr e.now) }
{
    match &e.kind {
        ExprKind::Literal(_, _) => None,
        ExprKind::Name(_) => None,
        ExprKind::This => None,
        ExprKind::Paren(inner) => in_expr(inner.get()),
        ExprKind::Prefix(_, operand) => in_expr(operand.get()),
        ExprKind::Infix(left, _, right) => sooner(in_expr(left.get()), in_expr(right.get())),
        ExprKind::Select(operand, _) => in_expr(operand.get()),
        ExprKind::Apply(operand, arguments) => {
            sooner(in_expr(operand.get()), in_exprs(arguments.as_slice()))
        }
        ExprKind::Update(operand, fields) => {
            sooner(in_expr(operand.get()), in_fields(fields.as_slice()))
        }
        ExprKind::Given(operand, _) => in_expr(operand.get()),
        ExprKind::If(test, chosen, other) => {
            let either = sooner(in_expr(chosen.get()), in_expr(other.get()));
            sooner(in_expr(test.get()), either)
        }
        ExprKind::Match(operand, cases) => {
            sooner(in_expr(operand.get()), in_cases(cases.as_slice(), true))
        }
    }
}

/// What some expressions break first.
#[cycle(phrases)]
fn in_exprs(exprs: &[Expr]) -> Option<Broken>
    ensures { result ≡ first_of (flat_map broken_expr exprs.now) }
{
    let mut first = None;
    for e in exprs {
        first = sooner(first, in_expr(e));
    }
    first
}

/// What the values of some fields break first.
#[cycle(phrases)]
pub fn in_fields(fields: &[Field]) -> Option<Broken>
    ensures { result ≡ first_of (flat_map broken_field fields.now) }
{
    let mut first = None;
    for field in fields {
        first = sooner(first, in_expr(&field.value));
    }
    first
}

/// What some cases break first: those of a match expression, where `valued` is true, or of a match statement.
#[cycle(phrases)]
fn in_cases(cases: &[Case], valued: bool) -> Option<Broken>
    ensures { result ≡ first_of (flat_map (broken_case valued) cases.now) }
{
    let mut first = None;
    for one in cases {
        first = sooner(first, in_case(one, valued));
    }
    first
}

/// What a case breaks first.
#[cycle(phrases)]
#[tactic(auto, using(crate::proofs::PhraseFaults::all_cases))]
fn in_case(one: &Case, valued: bool) -> Option<Broken>
    ensures { result ≡ first_of (broken_case valued one.now) }
{
    let guarded = in_option(&one.guard);
    if valued {
        sooner(guarded, in_value(one.body.as_slice()))
    } else {
        sooner(guarded, in_stmts(one.body.as_slice()))
    }
}

/// What the statements of a case of a match expression break first, of which an only one may be any expression.
#[cycle(phrases)]
fn in_value(stmts: &[Stmt]) -> Option<Broken>
    ensures { result ≡ first_of (broken_value stmts.now) }
{
    if stmts.len() == 1 {
        in_parts(&stmts[0])
    } else {
        in_stmts(stmts)
    }
}

/// What an expression breaks first, which may be left out.
#[cycle(phrases)]
fn in_option(e: &Option<Expr>) -> Option<Broken>
    ensures { result ≡ first_of (broken_option e.now) }
{
    match e {
        None => None,
        Some(e) => in_expr(e),
    }
}

/// What some statements break first.
#[cycle(phrases)]
pub fn in_stmts(stmts: &[Stmt]) -> Option<Broken>
    ensures { result ≡ first_of (broken_stmts stmts.now) }
{
    let mut first = None;
    for stmt in stmts {
        first = sooner(first, in_stmt(stmt));
    }
    first
}

/// What a statement breaks first.
#[cycle(phrases)]
#[tactic(auto, using(crate::proofs::FirstFault::first_append))]
fn in_stmt(stmt: &Stmt) -> Option<Broken>
    ensures { result ≡ first_of (broken_stmt stmt.now) }
{
    sooner(in_parts(stmt), idle(stmt))
}

/// What is broken first in a statement, without rule G5 of the statement itself.
#[cycle(phrases)]
#[tactic(auto, using(crate::proofs::PhraseFaults::all_stmts))]
fn in_parts(stmt: &Stmt) -> Option<Broken>
    ensures { result ≡ first_of (seen_stmt stmt.now).broken }
{
    match &stmt.kind {
        StmtKind::Let(_, _, _, value) => in_expr(value),
        StmtKind::Assign(left, right) => {
            let both = sooner(in_expr(left), in_expr(right));
            if is_place(left) {
                both
            } else {
                sooner(Some(at(4, left.span)), both)
            }
        }
        StmtKind::Call(value) => in_expr(value),
        StmtKind::If(test, chosen, other) => {
            let either = sooner(in_stmts(chosen.as_slice()), in_else(other));
            sooner(in_expr(test), either)
        }
        StmtKind::While(test, body) => sooner(in_expr(test), in_stmts(body.as_slice())),
        StmtKind::For(_, from, _, to, body) => {
            let behind = sooner(in_expr(to), in_stmts(body.as_slice()));
            sooner(in_expr(from), behind)
        }
        StmtKind::Match(operand, cases) => {
            sooner(in_expr(operand), in_cases(cases.as_slice(), false))
        }
        StmtKind::Return(value) => in_option(value),
        StmtKind::Skip(_) => None,
    }
}

/// What is broken first behind an `else`.
#[cycle(phrases)]
#[tactic(auto, using(crate::proofs::PhraseFaults::all_elses))]
fn in_else(other: &Else) -> Option<Broken>
    ensures { result ≡ first_of (broken_else other.now) }
{
    match other {
        Else::Nothing => None,
        Else::Block(stmts) => in_stmts(stmts.as_slice()),
        Else::If(next) => in_stmt(next.get()),
    }
}

/// Rule G5: a statement is an expression that is no application.
#[tactic(auto, using(crate::proofs::PhraseFaults::all_idle))]
fn idle(stmt: &Stmt) -> Option<Broken>
    ensures { result ≡ first_of (seen_stmt stmt.now).idle }
{
    match &stmt.kind {
        StmtKind::Call(value) => {
            if is_call(value) {
                None
            } else {
                Some(at(5, stmt.span))
            }
        }
        StmtKind::Let(_, _, _, _) => None,
        StmtKind::Assign(_, _) => None,
        StmtKind::If(_, _, _) => None,
        StmtKind::While(_, _) => None,
        StmtKind::For(_, _, _, _, _) => None,
        StmtKind::Match(_, _) => None,
        StmtKind::Return(_) => None,
        StmtKind::Skip(_) => None,
    }
}

/// Whether an expression is an application.
#[tactic(auto, using(crate::proofs::PhraseFaults::all_calls))]
fn is_call(e: &Expr) -> bool
    ensures { result ≡ (seen_expr e.now).call }
{
    match &e.kind {
        ExprKind::Apply(_, _) => true,
        ExprKind::Literal(_, _) => false,
        ExprKind::Name(_) => false,
        ExprKind::This => false,
        ExprKind::Paren(_) => false,
        ExprKind::Prefix(_, _) => false,
        ExprKind::Infix(_, _, _) => false,
        ExprKind::Select(_, _) => false,
        ExprKind::Update(_, _) => false,
        ExprKind::Given(_, _) => false,
        ExprKind::If(_, _, _) => false,
        ExprKind::Match(_, _) => false,
    }
}

/// Whether an expression can stand on the left of an assignment.
#[tactic(auto, using(crate::proofs::PhraseFaults::all_places))]
fn is_place(e: &Expr) -> bool
    ensures { result ≡ (seen_expr e.now).place }
{
    match &e.kind {
        ExprKind::Name(_) => true,
        ExprKind::This => true,
        ExprKind::Paren(inner) => is_place(inner.get()),
        ExprKind::Select(operand, _) => is_place(operand.get()),
        ExprKind::Apply(operand, arguments) => arguments.len() == 1 && is_place(operand.get()),
        ExprKind::Literal(_, _) => false,
        ExprKind::Prefix(_, _) => false,
        ExprKind::Infix(_, _, _) => false,
        ExprKind::Update(_, _) => false,
        ExprKind::Given(_, _) => false,
        ExprKind::If(_, _, _) => false,
        ExprKind::Match(_, _) => false,
    }
}
