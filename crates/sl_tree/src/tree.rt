use sl_text::{Boxed, Kind, Row, Span, Text};

/// A file: the path of its package, which is empty where it has none; its imports and its declarations, in order; the span from its
/// first token to its last; and the places of its line feeds, in bytes, in order.
#[derive(Drop)]
pub struct File {
    pub package: Row<Text>,
    pub imports: Row<Import>,
    pub decls: Row<Decl>,
    pub span: Span,
    pub feeds: Row<u32>,
}

/// `import PATH`, or `import PATH._` where it is of all.
#[derive(Drop)]
pub struct Import {
    pub path: Row<Text>,
    pub all: bool,
    pub span: Span,
}

/// `@NAME`, or `@NAME(name = EXPR, ..)`.
#[derive(Drop)]
pub struct Note {
    pub name: Text,
    pub pairs: Row<Field>,
    pub span: Span,
}

/// `NAME = EXPR`, in a note and in an updated copy.
#[derive(Drop)]
#[cycle(tree)]
pub struct Field {
    pub name: Text,
    pub value: Expr,
}

/// A declaration, or a member of one.
#[derive(Drop)]
#[cycle(declarations)]
pub struct Decl {
    pub notes: Row<Note>,
    pub kind: DeclKind,
    pub span: Span,
}

/// What a declaration declares. Type parameters are names, parents are the types after `extends` and `with`; both are empty where
/// nothing is written. Members are None where no braces are written.
#[derive(Drop)]
#[cycle(declarations)]
pub enum DeclKind {
    /// `object NAME { NAMES }`, where each name is a Quoted or a Symbol, as it is written.
    Enum(Text, Row<Lexeme>),
    /// `class NAME`
    Ints(Text),
    /// `class NAME[TYPE PARAMETERS](PARAMETERS) extends PARENTS { METHODS }`
    Class(Text, Row<Text>, Row<Param>, Row<TypeTerm>, Option<Row<Decl>>),
    /// `trait NAME[TYPE PARAMETERS] extends PARENTS { METHODS }`
    Trait(Text, Row<Text>, Row<TypeTerm>, Option<Row<Decl>>),
    /// `object NAME extends PARENTS { MEMBERS }`
    Object(Text, Row<TypeTerm>, Option<Row<Decl>>),
    /// `[override] def NAME[TYPE PARAMETERS](PARAMETERS): TYPE = BODY`; parameters are None where no parentheses are written.
    Method(bool, Text, Row<Text>, Option<Row<Param>>, TypeTerm, Option<Body>),
    /// `[override] val NAME: TYPE = EXPR`, or `var` where it is true.
    Global(bool, bool, Text, Option<TypeTerm>, Expr),
}

/// What stands behind a method's `=`.
#[derive(Drop)]
pub enum Body {
    Block(Row<Stmt>),
    Value(Expr),
}

/// A parameter: `NAME: TYPE`, `val NAME: TYPE` or `var NAME: TYPE`.
#[derive(Drop)]
pub struct Param {
    pub keyword: Keyword,
    pub name: Text,
    pub kind: TypeTerm,
}

/// The word before a parameter.
#[derive(Clone, Copy, Debug, PartialEq, Eq)]
pub enum Keyword {
    Nothing,
    Val,
    Var,
}

/// A token as a tree has it: its kind and its bytes.
#[derive(Drop)]
pub struct Lexeme {
    pub kind: Kind,
    pub text: Text,
}

/// A type: `PATH`, or `PATH[ARGUMENTS]`.
#[derive(Drop)]
pub struct TypeTerm {
    pub path: Row<Text>,
    pub args: Row<TypeTerm>,
    pub span: Span,
}

/// A pattern.
#[derive(Drop)]
#[cycle(patterns)]
pub struct Pattern {
    pub kind: PatternKind,
    pub span: Span,
}

/// The kinds of patterns.
#[derive(Drop)]
#[cycle(patterns)]
pub enum PatternKind {
    /// `_`, or `_: TYPE`
    Any(Option<TypeTerm>),
    /// `NAME`, or `NAME: TYPE`
    Bind(Text, Option<TypeTerm>),
    /// A Number, with or without `-` before it, a Quoted, a Letter, a Prefixed, `T` or `F`.
    Literal(bool, Lexeme),
    /// `NAME.NAME`, with any number of names more
    Constant(Row<Text>),
    /// `PATH(PATTERNS)`
    Class(Row<Text>, Row<Pattern>),
}

/// An expression.
#[derive(Drop)]
#[cycle(tree)]
pub struct Expr {
    pub kind: ExprKind,
    pub span: Span,
}

/// The kinds of expressions.
#[derive(Drop)]
#[cycle(tree)]
pub enum ExprKind {
    /// A Number, with or without `-` before it, a Quoted, a Letter or a Prefixed.
    Literal(bool, Lexeme),
    /// `NAME`
    Name(Text),
    /// `this`
    This,
    /// `(EXPR)`
    Paren(Boxed<Expr>),
    /// `-EXPR`, `!EXPR` or `~EXPR`
    Prefix(Text, Boxed<Expr>),
    /// `EXPR OPERATOR EXPR`
    Infix(Boxed<Expr>, Text, Boxed<Expr>),
    /// `EXPR.NAME`
    Select(Boxed<Expr>, Text),
    /// `EXPR(EXPR, ..)`
    Apply(Boxed<Expr>, Row<Expr>),
    /// `EXPR(NAME = EXPR, ..)`
    Update(Boxed<Expr>, Row<Field>),
    /// `EXPR[TYPE, ..]`
    Given(Boxed<Expr>, Row<TypeTerm>),
    /// `if (EXPR) EXPR else EXPR`
    If(Boxed<Expr>, Boxed<Expr>, Boxed<Expr>),
    /// `EXPR match { CASES }`
    Match(Boxed<Expr>, Row<Case>),
}

/// `case PATTERN => STATEMENTS`, or with a guard `case PATTERN if EXPR => STATEMENTS`.
#[derive(Drop)]
#[cycle(tree)]
pub struct Case {
    pub pattern: Pattern,
    pub guard: Option<Expr>,
    pub body: Row<Stmt>,
}

/// A statement.
#[derive(Drop)]
#[cycle(tree)]
pub struct Stmt {
    pub kind: StmtKind,
    pub span: Span,
}

/// The kinds of statements.
#[derive(Drop)]
#[cycle(tree)]
pub enum StmtKind {
    /// `val NAME: TYPE = EXPR`, or `var` where it is true.
    Let(bool, Text, Option<TypeTerm>, Expr),
    /// `EXPR = EXPR`
    Assign(Expr, Expr),
    /// `EXPR`
    Call(Expr),
    /// `if (EXPR) { STATEMENTS }`, and what stands behind its `else`.
    If(Expr, Row<Stmt>, Else),
    /// `while (EXPR) { STATEMENTS }`
    While(Expr, Row<Stmt>),
    /// `for (NAME <- EXPR until EXPR) { STATEMENTS }`, or `to` where it is true.
    For(Text, Expr, bool, Expr, Row<Stmt>),
    /// `EXPR match { CASES }`
    Match(Expr, Row<Case>),
    /// `return`, or `return EXPR`
    Return(Option<Expr>),
    /// `Contract(..)`, `Invariant(..)` or `l"..."`: all its tokens.
    Skip(Row<Lexeme>),
}

/// What stands behind a statement's `else`: nothing, a block, or one more `if`.
#[derive(Drop)]
#[cycle(tree)]
pub enum Else {
    Nothing,
    Block(Row<Stmt>),
    If(Boxed<Stmt>),
}
