use sl_num::{Comparison, IntType, Op};
use sl_text::{Boxed, Row, Text};

/// A program: its types, its functions, and the number of the function in which a run begins. Types and functions are numbered
/// from 0.
#[derive(Drop)]
pub struct Core {
    pub types: Row<CoreType>,
    pub functions: Row<CoreFun>,
    pub entry: u32,
}

/// A type of variables, numbers and results.
#[derive(Drop)]
pub enum CoreType {
    Int(IntType),
}

/// A function: its name, the type of its result, the types of its variables, which are numbered from 0, and its statements.
#[derive(Drop)]
pub struct CoreFun {
    pub name: Text,
    pub result: u32,
    pub vars: Row<u32>,
    pub body: Row<CoreStmt>,
}

/// A place: where it begins.
#[derive(Drop)]
pub struct CorePath {
    pub root: CoreRoot,
}

/// Where a place begins.
#[derive(Drop)]
pub enum CoreRoot {
    /// A variable of the function, by its number.
    Var(u32),
}

/// A statement. Files are numbered from 0 in the order of the command line, and lines from 1.
#[derive(Drop)]
pub enum CoreStmt {
    /// The value of the expression is stored at the place.
    Store(CorePath, CoreExpr),
    /// The first statements where the number isn't 0, and else the second ones.
    If(CoreExpr, Row<CoreStmt>, Row<CoreStmt>),
    /// The statements, again and again, until a `Break` or a `Return` in them. Each round takes a turn.
    Loop(Row<CoreStmt>),
    /// The innermost loop that stands around is left.
    Break,
    /// The function with this number is called, and its result is stored at the place, if there is one.
    Call(Option<CorePath>, u32),
    /// The value is printed: a number in decimal, and a text as its bytes.
    Put(CoreExpr),
    /// The next byte of the input is asked for, and stored at the place: -1 where the input is at its end.
    Get(CorePath),
    /// The run ends in a halt of this kind, at this line of this file.
    Halt(u8, u32, u32),
    /// The function ends with this result.
    Return(CoreExpr),
}

/// An expression.
#[derive(Drop)]
pub enum CoreExpr {
    /// A number of the type with this number.
    Number(i128, u32),
    /// A text.
    TextOf(Row<u8>),
    /// What the place holds, whose type has this number.
    Path(CorePath, u32),
    /// The operation on two numbers of the type with this number. Where it gives no number of the type, the run halts at this line
    /// of this file.
    Apply(Op, Boxed<CoreExpr>, Boxed<CoreExpr>, u32, u32, u32),
    /// 1 where the two numbers compare so, and else 0, in the type with this number.
    Compare(Comparison, Boxed<CoreExpr>, Boxed<CoreExpr>, u32),
}
