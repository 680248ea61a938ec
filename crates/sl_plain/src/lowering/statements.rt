// The statements of a core.
ghost use Rattle.std.specs.Prelude.{◌≡◌, ◌+◌, [], ◌∷◌, ◌++◌, Some, IfOk};
ghost use Rattle.std.specs.List.{flat_map};
ghost use Rattle.sl_core.specs.declared.tree.CoreStmt.TheVariants as core;
ghost use Rattle.sl_plain.specs.declared.program.Kind.TheVariants as kind;
ghost use Rattle.sl_plain.specs.Program.{kind_of_atom};
ghost use Rattle.sl_plain.specs.Lowered.{atom_expr, store_right, put_text, print_of, lowered};
ghost use Rattle.sl_plain.specs.Reach.{AreLines, right_lines, lines_in};
ghost use Rattle.sl_plain.specs.Numbering.{IsBy, lowered_all};

use super::expressions::{
    apply, compare, lower_atom, lower_condition, lower_place, number_of, unnamed,
};
use super::loops::{Counter, for_of, while_of};
use super::numbers::Variables;
use crate::program::{Atom, Kind, Right, Stmt};
use sl_core::{CoreExpr, CorePath, CoreStmt};
use sl_text::{Mem, Row};
use std::alloc::Global;

/// The statements in order, in `for`s with so many variables without names. Their lines are numbers of 32 bits, as those of a tree are.
#[cycle(lower)]
pub fn lower_block(
    alloc: Global,
    variables: &Variables,
    stmts: &[Stmt],
    taken: u32,
) -> Result<Row<CoreStmt>, Mem>
    ensures value { IfOk result (λ low. IsBy variables.now (λ names. lowered_all names stmts.now taken) low) }
    ensures lines { IfOk result (λ low. AreLines (flat_map lines_in stmts.now)) }
{
    let mut low = Row::new(alloc);
    for stmt in stmts {
        low.append(lower_stmt(alloc, variables, stmt, taken)?)?;
    }
    Ok(low)
}

#[cycle(lower)]
fn lower_stmt(
    alloc: Global,
    variables: &Variables,
    stmt: &Stmt,
    taken: u32,
) -> Result<Row<CoreStmt>, Mem>
    ensures value { IfOk result (λ low. IsBy variables.now (λ names. lowered names stmt.now taken) low) }
    ensures lines { IfOk result (λ low. AreLines (lines_in stmt.now)) }
{
    match stmt {
        Stmt::Declare(_, name, _, first) => {
            let place = lower_place(variables, name.as_slice());
            one(alloc, store_right(alloc, variables, place, first)?)
        }
        Stmt::Assign(name, value) => {
            let place = lower_place(variables, name.as_slice());
            one(alloc, store_right(alloc, variables, place, value)?)
        }
        Stmt::Print(atom) => lower_print(alloc, variables, atom),
        Stmt::PrintText(text) => one(alloc, put_text_line(alloc, text.as_slice())?),
        Stmt::If(test, chosen, other) => {
            let test = lower_condition(alloc, variables, test)?;
            let chosen = lower_block(alloc, variables, chosen.as_slice(), taken)?;
            let other = lower_block(alloc, variables, other.as_slice(), taken)?;
            one(alloc, CoreStmt::If(test, chosen, other))
        }
        Stmt::While(test, body) => {
            let test = lower_condition(alloc, variables, test)?;
            let body = lower_block(alloc, variables, body.as_slice(), taken)?;
            one(alloc, while_of(alloc, test, body)?)
        }
        Stmt::For(name, first, end, body, line) => {
            let bound = next(taken)?;
            let counter = Counter {
                name: number_of(variables, name.as_slice()),
                next: unnamed(variables, taken)?,
                bound: unnamed(variables, bound)?,
            };
            let body = lower_block(alloc, variables, body.as_slice(), next(bound)?)?;
            let first = lower_atom(variables, first);
            let end = lower_atom(variables, end);
            for_of(alloc, *line, counter, first, end, body)
        }
        Stmt::Assert(test, line) => {
            let test = lower_condition(alloc, variables, test)?;
            let other = one(alloc, CoreStmt::Halt(1, 0, *line))?;
            one(alloc, CoreStmt::If(test, Row::new(alloc), other))
        }
        Stmt::Halt(_, line) => one(alloc, CoreStmt::Halt(2, 0, *line)),
    }
}

/// The value of a right side is stored.
fn store_right(
    alloc: Global,
    variables: &Variables,
    path: CorePath,
    right: &Right,
) -> Result<CoreStmt, Mem>
    ensures value { IfOk result (λ stmt. IsBy variables.now (λ names. store_right names path right.now) stmt) }
    ensures lines { IfOk result (λ stmt. AreLines (right_lines right.now)) }
{
    match right {
        Right::Just(atom) => Ok(CoreStmt::Store(path, lower_atom(variables, atom))),
        Right::Compare(by, a, b) => {
            let value = compare(
                alloc,
                *by,
                lower_atom(variables, a),
                lower_atom(variables, b),
            )?;
            Ok(CoreStmt::Store(path, value))
        }
        Right::Apply(op, a, b, line) => {
            let value = apply(
                alloc,
                *op,
                lower_atom(variables, a),
                lower_atom(variables, b),
                *line,
            )?;
            Ok(CoreStmt::Store(path, value))
        }
        Right::Get => Ok(CoreStmt::Get(path)),
    }
}

/// The next number of a variable. There are too many if there is none.
pub fn next(number: u32) -> Result<u32, Mem>
    ensures { IfOk result (λ behind. behind ≡ number + 1) }
{
    match number.checked_add(1) {
        Some(behind) => Ok(behind),
        None => Err(Mem),
    }
}

pub fn one(alloc: Global, stmt: CoreStmt) -> Result<Row<CoreStmt>, Mem>
    ensures { IfOk result (λ stmts. stmts ≡ stmt ∷ []) }
{
    let mut stmts = Row::new(alloc);
    stmts.push(stmt)?;
    Ok(stmts)
}

/// An atom is printed, and a line feed behind it.
fn lower_print(alloc: Global, variables: &Variables, atom: &Atom) -> Result<Row<CoreStmt>, Mem>
    ensures { IfOk result (λ stmts. IsBy variables.now (λ names. print_of (kind_of_atom names atom.now) (atom_expr names atom.now)) stmts) }
{
    let value = lower_atom(variables, atom);
    match kind_of_atom(variables, atom) {
        Some(Kind::Truth) => print_truth(alloc, value),
        Some(Kind::Number) | None => print_number(alloc, value),
    }
}

fn print_truth(alloc: Global, value: CoreExpr) -> Result<Row<CoreStmt>, Mem>
    ensures { IfOk result (λ stmts. stmts ≡ print_of (Some kind.Truth) value) }
{
    let chosen = one(alloc, put_bytes(alloc, b"T\n")?)?;
    let other = one(alloc, put_bytes(alloc, b"F\n")?)?;
    one(alloc, CoreStmt::If(value, chosen, other))
}

fn print_number(alloc: Global, value: CoreExpr) -> Result<Row<CoreStmt>, Mem>
    ensures { IfOk result (λ stmts. stmts ≡ print_of (Some kind.Number) value) }
{
    let mut stmts = one(alloc, CoreStmt::Put(value))?;
    stmts.push(put_bytes(alloc, b"\n")?)?;
    Ok(stmts)
}

/// The type of an atom, where its name is declared.
fn kind_of_atom(variables: &Variables, atom: &Atom) -> Option<Kind>
    ensures { IsBy variables.now (λ names. kind_of_atom names atom.now) result }
{
    match atom {
        Atom::Name(name) => match variables.get(name.as_slice()) {
            Some(variable) => Some(variable.kind),
            None => None,
        },
        Atom::Number(_) => Some(Kind::Number),
        Atom::Truth(_) => Some(Kind::Truth),
    }
}

fn put_bytes(alloc: Global, text: &[u8]) -> Result<CoreStmt, Mem>
    ensures { IfOk result (λ stmt. stmt ≡ put_text text.now) }
{
    Ok(CoreStmt::Put(CoreExpr::TextOf(Row::from_slice(alloc, text)?)))
}

/// A text is printed, and a line feed behind it.
fn put_text_line(alloc: Global, text: &[u8]) -> Result<CoreStmt, Mem>
    ensures { IfOk result (λ stmt. stmt ≡ put_text (text.now ++ 10 ∷ [])) }
{
    let mut bytes = Row::from_slice(alloc, text)?;
    bytes.push(b'\n')?;
    Ok(CoreStmt::Put(CoreExpr::TextOf(bytes)))
}
