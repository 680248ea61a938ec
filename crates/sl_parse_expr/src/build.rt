// Trees, from their parts.
ghost use Rattle.std.specs.Prelude.{◌≡◌, ◌==◌, ◌<◌, ◌^◌, IfOk, true};
ghost use Rattle.sl_tree.specs.Sorts.{spelled, within, sort, var_word, to_name};
ghost use Rattle.sl_tree.specs.WellShaped.{expr, stmt, field, join, is_name, is_number};
ghost use Rattle.sl_tree.specs.declared.tree.ExprKind.TheVariants as expr_kind;
ghost use Rattle.sl_tree.specs.declared.tree.StmtKind.TheVariants as stmt_kind;
ghost use Rattle.sl_parse_expr.specs.Values.{span_of, token_expr, name_text, minus_to};
ghost use Rattle.sl_parse_expr.specs.Told.{spanned};
ghost use Rattle.sl_parse_expr.specs.Applied.{applied};

use sl_text::{Boxed, Kind, Mem, Row, Span, Text, Token};
use sl_tree::sorts::{THIS, TO_NAME, VAR, is_name, join, lexeme, sort, text};
use sl_tree::{Case, Expr, ExprKind, Field, Lexeme, Stmt, StmtKind, TypeTerm};
use std::alloc::Global;

/// Arguments: values, or fields.
#[derive(Drop)]
pub enum Arguments {
    Values(Row<Expr>),
    Fields(Row<Field>),
}

/// A token that is an expression by itself.
#[tactic(auto, unfolding(crate::specs::Values::token_expr, sl_tree::specs::Sorts::spelled, sl_tree::specs::WellShaped::expr))]
pub fn token_expr(alloc: Global, bytes: &[u8], token: Token) -> Result<Expr, Mem>
    ensures { IfOk result (λ e. e ≡ token_expr (spelled bytes.now token)) }
{
    let sort = sort(bytes, token);
    let kind = if is_name(sort) {
        ExprKind::Name(text(alloc, bytes, token)?)
    } else if sort == THIS {
        ExprKind::This
    } else {
        ExprKind::Literal(false, lexeme(alloc, bytes, token)?)
    };
    let span = token.span;
    Ok(Expr { kind, span })
}

/// `(EXPR)`
#[tactic(auto, unfolding(sl_tree::specs::WellShaped::expr))]
pub fn paren_of(alloc: Global, opening: Span, of: Expr, close: Span) -> Result<Expr, Mem>
    ensures { IfOk result (λ e. e ≡ expr (expr_kind.Paren of) (join opening close)) }
{
    let span = join(opening, close);
    let kind = ExprKind::Paren(Boxed::new(alloc, of)?);
    Ok(Expr { kind, span })
}

/// `OPERATOR EXPR`
#[tactic(auto, unfolding(sl_tree::specs::WellShaped::expr))]
pub fn prefix_of(alloc: Global, bytes: &[u8], operator: Token, of: Expr) -> Result<Expr, Mem>
    ensures { IfOk result (λ e. e ≡ expr (expr_kind.Prefix (within bytes.now operator.span) of) (join operator.span (span_of of))) }
{
    let span = join(operator.span, of.span);
    let kind = ExprKind::Prefix(text(alloc, bytes, operator)?, Boxed::new(alloc, of)?);
    Ok(Expr { kind, span })
}

/// `-EXPR` with its levels: one literal, where it is a number.
pub fn minus_of(
    alloc: Global,
    bytes: &[u8],
    operator: Token,
    of: Expr,
    levels: usize,
) -> Result<(Expr, usize), Mem>
    requires low { levels < 2 ^ 63 }
    ensures { IfOk result (λ v. v ≡ minus_to (spelled bytes.now operator) (of, levels)) }
{
    if is_number_expr(&of) {
        Ok((negative_of(operator.span, of), levels))
    } else {
        Ok((prefix_of(alloc, bytes, operator, of)?, levels + 1))
    }
}

/// A number with a minus before it.
fn negative_of(minus: Span, of: Expr) -> Expr
    requires { is_number of ≡ true }
    ensures { (result, 0) ≡ minus_to (spanned minus) (of, 0) }
{
    let span = join(minus, of.span);
    match of.kind {
        ExprKind::Literal(_, token) => Expr {
            kind: ExprKind::Literal(true, token),
            span,
        },
        _ => unreachable!(),
    }
}

/// Whether an expression is a number.
fn is_number_expr(of: &Expr) -> bool
    ensures { result ≡ is_number of.now }
{
    match &of.kind {
        ExprKind::Literal(negative, token) => !*negative && token.kind == Kind::Number,
        _ => false,
    }
}

/// Whether an expression is a name.
pub fn is_name_expr(of: &Expr) -> bool
    ensures { result ≡ is_name of.now }
{
    match &of.kind {
        ExprKind::Name(_) => true,
        _ => false,
    }
}

/// `EXPR OPERATOR EXPR`
#[tactic(auto, unfolding(sl_tree::specs::WellShaped::expr))]
pub fn infix_of(
    alloc: Global,
    bytes: &[u8],
    left: Expr,
    operator: Token,
    right: Expr,
) -> Result<Expr, Mem>
    ensures { IfOk result (λ e. e ≡ expr (expr_kind.Infix left (within bytes.now operator.span) right) (join (span_of left) (span_of right))) }
{
    let span = join(left.span, right.span);
    let operator = text(alloc, bytes, operator)?;
    let kind = ExprKind::Infix(
        Boxed::new(alloc, left)?,
        operator,
        Boxed::new(alloc, right)?,
    );
    Ok(Expr { kind, span })
}

/// `EXPR.NAME`
#[tactic(auto, unfolding(sl_tree::specs::WellShaped::expr))]
pub fn select_of(alloc: Global, bytes: &[u8], left: Expr, name: Token) -> Result<Expr, Mem>
    ensures { IfOk result (λ e. e ≡ expr (expr_kind.Select left (within bytes.now name.span)) (join (span_of left) name.span)) }
{
    let span = join(left.span, name.span);
    let name = text(alloc, bytes, name)?;
    let kind = ExprKind::Select(Boxed::new(alloc, left)?, name);
    Ok(Expr { kind, span })
}

/// `EXPR[TYPE, ..]`
#[tactic(auto, unfolding(sl_tree::specs::WellShaped::expr))]
pub fn given_of(alloc: Global, left: Expr, types: Row<TypeTerm>, close: Span) -> Result<Expr, Mem>
    ensures { IfOk result (λ e. e ≡ expr (expr_kind.Given left types) (join (span_of left) close)) }
{
    let span = join(left.span, close);
    let kind = ExprKind::Given(Boxed::new(alloc, left)?, types);
    Ok(Expr { kind, span })
}

/// `EXPR(ARGUMENTS)`
#[tactic(auto, unfolding(sl_tree::specs::WellShaped::expr))]
pub fn applied_of(alloc: Global, left: Expr, arguments: Arguments, close: Span) -> Result<Expr, Mem>
    ensures { IfOk result (λ e. e ≡ applied left arguments close) }
{
    let span = join(left.span, close);
    let left = Boxed::new(alloc, left)?;
    let kind = match arguments {
        Arguments::Values(values) => ExprKind::Apply(left, values),
        Arguments::Fields(fields) => ExprKind::Update(left, fields),
    };
    Ok(Expr { kind, span })
}

/// `if (EXPR) EXPR else EXPR`
#[tactic(auto, unfolding(sl_tree::specs::WellShaped::expr))]
pub fn if_of(alloc: Global, first: Span, condition: Expr, yes: Expr, no: Expr) -> Result<Expr, Mem>
    ensures { IfOk result (λ e. e ≡ expr (expr_kind.If condition yes no) (join first (span_of no))) }
{
    let span = join(first, no.span);
    let kind = ExprKind::If(
        Boxed::new(alloc, condition)?,
        Boxed::new(alloc, yes)?,
        Boxed::new(alloc, no)?,
    );
    Ok(Expr { kind, span })
}

/// `EXPR match { CASES }`
#[tactic(auto, unfolding(sl_tree::specs::WellShaped::expr))]
pub fn match_of(alloc: Global, of: Expr, cases: Row<Case>, close: Span) -> Result<Expr, Mem>
    ensures { IfOk result (λ e. e ≡ expr (expr_kind.Match of cases) (join (span_of of) close)) }
{
    let span = join(of.span, close);
    let kind = ExprKind::Match(Boxed::new(alloc, of)?, cases);
    Ok(Expr { kind, span })
}

/// A name's bytes, which were read as an expression, and its value.
pub fn first_field(name: Expr, value: Expr) -> Result<Field, Mem>
    requires { is_name name ≡ true }
    ensures { IfOk result (λ f. f ≡ field (name_text name) value) }
{
    match name.kind {
        ExprKind::Name(name) => Ok(Field { name, value }),
        _ => unreachable!(),
    }
}

/// `NAME = EXPR`
#[tactic(auto, unfolding(sl_tree::specs::WellShaped::field))]
pub fn field_of(alloc: Global, bytes: &[u8], name: Token, value: Expr) -> Result<Field, Mem>
    ensures { IfOk result (λ f. f ≡ field (within bytes.now name.span) value) }
{
    let name = text(alloc, bytes, name)?;
    Ok(Field { name, value })
}

/// `val NAME: TYPE = EXPR`, or `var`.
#[tactic(auto, unfolding(sl_tree::specs::WellShaped::stmt))]
pub fn let_of(
    alloc: Global,
    bytes: &[u8],
    word: Token,
    name: Token,
    kind: Option<TypeTerm>,
    value: Expr,
) -> Result<Stmt, Mem>
    ensures { IfOk result (λ s. s ≡ stmt (stmt_kind.Let (sort (spelled bytes.now word) == var_word) (within bytes.now name.span) kind value) (join word.span (span_of value))) }
{
    let span = join(word.span, value.span);
    let name = text(alloc, bytes, name)?;
    let kind = StmtKind::Let(sort(bytes, word) == VAR, name, kind, value);
    Ok(Stmt { kind, span })
}

/// `for (NAME <- EXPR until EXPR) { STATEMENTS }`, or `to`.
#[tactic(auto, unfolding(sl_tree::specs::WellShaped::stmt))]
pub fn for_of(
    alloc: Global,
    bytes: &[u8],
    name: Token,
    from: Expr,
    word: Token,
    to: Expr,
    body: Row<Stmt>,
    span: Span,
) -> Result<Stmt, Mem>
    ensures { IfOk result (λ s. s ≡ stmt (stmt_kind.For (within bytes.now name.span) from (sort (spelled bytes.now word) == to_name) to body) span) }
{
    let name = text(alloc, bytes, name)?;
    let kind = StmtKind::For(name, from, sort(bytes, word) == TO_NAME, to, body);
    Ok(Stmt { kind, span })
}
