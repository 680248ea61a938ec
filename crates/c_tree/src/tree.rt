use sl_num::Comparison;
use sl_text::{Boxed, Row, Text};

/// A C file: its structs, global variables, prototypes and functions, in order. A prototype is a function without variables
/// and statements.
#[derive(Drop)]
pub struct CFile {
    pub structs: Row<CStruct>,
    pub globals: Row<CVar>,
    pub protos: Row<CFun>,
    pub functions: Row<CFun>,
}

/// `struct NAME { .. };`
#[derive(Drop)]
pub struct CStruct {
    pub name: Text,
    pub members: Row<CMember>,
}

/// A member of a struct. With a count it is an array of so many elements of its kind. Where `choice` isn't empty it is a union
/// of these, its kind is Void and it has no count.
#[derive(Drop)]
pub struct CMember {
    pub name: Text,
    pub kind: CType,
    pub count: Option<u32>,
    pub choice: Row<CVar>,
}

/// A variable, a parameter, or a member of a union: its name and its kind.
#[derive(Drop)]
pub struct CVar {
    pub name: Text,
    pub kind: CType,
}

/// A type. `Int` is an integer type of `stdint.h`: whether it is signed, and its width in bits, which is 8, 16, 32 or 64.
#[derive(Drop)]
pub enum CType {
    Int(bool, u8),
    Void,
}

/// A function, and the line of its first token, counted from 1.
#[derive(Drop)]
pub struct CFun {
    pub name: Text,
    pub inline: bool,
    pub result: CType,
    pub params: Row<CVar>,
    pub vars: Row<CVar>,
    pub body: Row<CStmt>,
    pub line: u64,
}

/// A statement.
#[derive(Drop)]
pub enum CStmt {
    /// `PLACE = EXPR;`
    Assign(CPlace, CExpr),
    /// `NAME(ARGS);`, or `PLACE = NAME(ARGS);`
    Call(Option<CPlace>, Text, Row<CArg>),
    /// `if (EXPR) { .. }`, or `if (EXPR) { .. } else { .. }`
    If(CExpr, Row<CStmt>, Option<Row<CStmt>>),
    /// `while (1) { .. }`
    Loop(Row<CStmt>),
    /// `for (NAME = INT64_C(0); NAME < COUNT; NAME++) { .. }`: the name that is set, the name that is tested, the count, the name that
    /// is raised, and the body.
    Count(Text, Text, u32, Text, Row<CStmt>),
    /// `break;`
    Break,
    /// `return EXPR;`, or `return;`
    Return(Option<CExpr>),
    /// `sl_put(EXPR);`
    Put(CExpr),
    /// `PLACE = sl_get();`
    Get(CPlace),
    /// `sl_halt(KIND, FILE, LINE);`
    Halt(u8, u32, u32),
}

/// An argument of a call.
#[derive(Drop)]
pub enum CArg {
    /// `EXPR`
    Value(CExpr),
}

/// A place.
#[derive(Drop)]
pub enum CPlace {
    /// `NAME`
    Name(Text),
}

/// An expression.
#[derive(Drop)]
pub enum CExpr {
    /// `INT64_C(NUMBER)` where it is signed, and else `UINT64_C(NUMBER)`
    Const(bool, u64),
    /// `PLACE`
    Read(CPlace),
    /// `(EXPR OPERATOR EXPR)`
    Binary(CBinary, Boxed<CExpr>, Boxed<CExpr>),
    /// `(int64_t)(EXPR COMPARISON EXPR)`
    Compare(Comparison, Boxed<CExpr>, Boxed<CExpr>),
    /// `(-EXPR)`
    Negate(Boxed<CExpr>),
}

/// An operator between two operands: `+`, `-`, `*`, `/` or `%`.
#[derive(Clone, Copy, Debug, PartialEq, Eq)]
pub enum CBinary {
    Add,
    Sub,
    Mul,
    Div,
    Rem,
}
