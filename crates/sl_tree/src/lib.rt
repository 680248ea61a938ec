//! Slang's trees: files, declarations, statements, expressions, patterns and types, each form under its own name, with the span of
//! its tokens. `specs/` says what the tokens of a tree are (`flat_expr` and its kin) and which trees are well shaped (`IsExpr` and its
//! kin); docs/language.md has the grammar in prose. `sorts` has the sorts of tokens that the grammar tells apart.
#![tactic(auto)]

pub mod sorts;
mod tree;

pub use tree::{
    Body, Case, Decl, DeclKind, Else, Expr, ExprKind, Field, File, Import, Keyword, Lexeme, Note,
    Param, Pattern, PatternKind, Stmt, StmtKind, TypeTerm,
};
