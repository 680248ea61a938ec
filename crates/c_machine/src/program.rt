use c_tree::CBinary;
use sl_num::Comparison;
use sl_text::{Boxed, Row, Shared};

/// A number of 64 bits, with a sign or without one.
#[derive(Clone, Copy, Debug, PartialEq, Eq)]
pub struct Word {
    pub signed: bool,
    pub number: i128,
}

/// Where a variable stands: in the last frame, its function's parameters first, or among the globals, by its number. A name that
/// isn't declared stands nowhere.
#[derive(Clone, Copy, Debug, PartialEq, Eq)]
pub enum Slot {
    Local(u32),
    Global(u32),
    Undeclared,
}

/// An expression.
#[derive(Drop)]
pub enum Expr {
    /// A number, and whether it is one with a sign.
    Const(bool, u64),
    /// What a variable holds, and whether its numbers have a sign.
    Read(Slot, bool),
    Binary(CBinary, Boxed<Expr>, Boxed<Expr>),
    /// 1 where the numbers compare so, and else 0.
    Compare(Comparison, Boxed<Expr>, Boxed<Expr>),
    Negate(Boxed<Expr>),
}

/// A statement.
#[derive(Drop)]
pub enum Stmt {
    /// The value of the expression is stored in the variable.
    Assign(Slot, Expr),
    /// The function with this number, which isn't inline, is called with arguments; its result is stored in the variable, if there
    /// is one.
    Call(Option<Slot>, Row<Expr>, u32),
    /// An inline function is called: how many variables it has behind its parameters, whether it has a result, and its statements.
    Inline(Option<Slot>, Row<Expr>, u32, bool, Shared<Row<Stmt>>),
    /// A call that leads to no function: an undefined case, whatever its arguments are.
    Undefined,
    /// The first statements where the number isn't 0, and else the second ones.
    If(Expr, Shared<Row<Stmt>>, Shared<Row<Stmt>>),
    /// The statements are done again and again, up to a break or a return. Each round takes a turn.
    Loop(Shared<Row<Stmt>>),
    /// The statements are done so often, up to a break or a return, with the numbers from 0 on in the variable. No round takes a turn.
    Count(Slot, u32, Shared<Row<Stmt>>),
    /// The innermost loop ends.
    Break,
    /// The function ends, with a result or without one.
    Return(Option<Expr>),
    /// The number is put as a byte.
    Put(Expr),
    /// The next byte of the input is stored in the variable, or -1 at its end.
    Get(Slot),
    /// The run ends in a halt of this kind, at this line of this file.
    Halt(u8, u32, u32),
}

/// A function: how many variables it has behind its parameters, whether it has a result, and its statements.
#[derive(Drop)]
pub struct Function {
    pub vars: u32,
    pub gives: bool,
    pub body: Shared<Row<Stmt>>,
}

/// A resolved C file: how many globals it has, its functions by their numbers, those that are inline too, and the number of the one
/// in which a run begins.
#[derive(Drop)]
pub struct Program {
    pub globals: u32,
    pub functions: Row<Function>,
    pub start: Option<u32>,
}

/// The frame of a function that has begun: the number of the function that isn't inline whose frame it is, or below whose frame it
/// is, and what its parameters and variables hold, where they were written.
#[derive(Drop)]
pub struct Frame {
    pub owner: u32,
    pub cells: Row<Option<i128>>,
}
