//! Plain programs.
use sl_num::{Comparison, Op};
use sl_text::Row;

/// A type of values: `Z` or `B`.
#[derive(Clone, Copy, Debug, PartialEq, Eq)]
pub enum Kind {
    Number,
    Truth,
}

/// A name, or a value that is written out.
#[derive(Debug, Drop)]
pub enum Atom {
    Name(Row<u8>),
    Number(i64),
    Truth(bool),
}

/// What stands on the right of a `=`. Lines are numbered from 1.
#[derive(Debug, Drop)]
pub enum Right {
    Just(Atom),
    Compare(Comparison, Atom, Atom),
    /// The operation, its operands, and the line on which it begins.
    Apply(Op, Atom, Atom, u32),
    /// `Port.get()`: the next byte of the input, or -1 at its end.
    Get,
}

/// What is tested.
#[derive(Debug, Drop)]
pub enum Condition {
    Just(Atom),
    Compare(Comparison, Atom, Atom),
}

/// A statement, with the line on which it begins where it can halt there. Lines are numbered from 1.
#[derive(Debug, Drop)]
pub enum Stmt {
    /// Whether it is a `var`, the name, its type and its first value.
    Declare(bool, Row<u8>, Kind, Right),
    Assign(Row<u8>, Right),
    Print(Atom),
    PrintText(Row<u8>),
    /// The first statements where the condition holds, and else the second ones.
    If(Condition, Row<Stmt>, Row<Stmt>),
    /// The statements, as long as the condition holds.
    While(Condition, Row<Stmt>),
    /// The statements for each number from the first bound up to the second, without it: the name of the number, the bounds, the
    /// statements, and the line.
    For(Row<u8>, Atom, Atom, Row<Stmt>, u32),
    /// The condition and the line.
    Assert(Condition, u32),
    /// The text and the line.
    Halt(Row<u8>, u32),
}

/// A plain program: the name of its App, its statements, and what it returns.
#[derive(Debug, Drop)]
pub struct Plain {
    pub name: Row<u8>,
    pub body: Row<Stmt>,
    pub value: Atom,
}
