// The parts that the functions are made of.
ghost use Rattle.std.specs.Prelude.{◌≡◌, IfOk, codes};
ghost use Rattle.c_tree.specs.declared.tree.CExpr.TheVariants.{Binary, Compare, Negate};
ghost use Rattle.sl_num.specs.declared.comparing.Comparison.TheVariants.{LessEqual, Equal};
ghost use Rattle.c_helpers.specs.Functions.{constant, named, greatest, least, minus_one, give, if_else, parameter, helper};

use c_tree::{CBinary, CExpr, CFun, CPlace, CStmt, CType, CVar};
use sl_num::Comparison;
use sl_text::{Boxed, Mem, Row, Text};
use std::alloc::Global;

/// `INT64_C(NUMBER)`
pub fn constant(number: u64) -> CExpr
    ensures { result ≡ constant number }
{
    CExpr::Const(true, number)
}

/// The greatest number.
pub fn greatest() -> CExpr
    ensures { result ≡ greatest }
{
    constant(0x7fff_ffff_ffff_ffff)
}

/// The least number.
pub fn least(alloc: Global) -> Result<CExpr, Mem>
    ensures { IfOk result (λ e. e ≡ least) }
{
    let negated = negate(alloc, greatest())?;
    operate(alloc, CBinary::Sub, negated, constant(1))
}

/// -1
pub fn minus_one(alloc: Global) -> Result<CExpr, Mem>
    ensures { IfOk result (λ e. e ≡ minus_one) }
{
    negate(alloc, constant(1))
}

/// `(-NUMBER)`
pub fn negate(alloc: Global, number: CExpr) -> Result<CExpr, Mem>
    ensures { IfOk result (λ e. e ≡ Negate number) }
{
    Ok(CExpr::Negate(Boxed::new(alloc, number)?))
}

/// The first parameter.
pub fn a(alloc: Global) -> Result<CExpr, Mem>
    ensures { IfOk result (λ e. e ≡ named (codes "a")) }
{
    Ok(CExpr::Read(CPlace::Name(Text::from_str(alloc, "a")?)))
}

/// The second parameter.
pub fn b(alloc: Global) -> Result<CExpr, Mem>
    ensures { IfOk result (λ e. e ≡ named (codes "b")) }
{
    Ok(CExpr::Read(CPlace::Name(Text::from_str(alloc, "b")?)))
}

/// `(LEFT OPERATOR RIGHT)`
pub fn operate(alloc: Global, operator: CBinary, left: CExpr, right: CExpr) -> Result<CExpr, Mem>
    ensures { IfOk result (λ e. e ≡ Binary operator left right) }
{
    Ok(CExpr::Binary(
        operator,
        Boxed::new(alloc, left)?,
        Boxed::new(alloc, right)?,
    ))
}

/// `(LIMIT OPERATOR b)`
pub fn with_b(alloc: Global, operator: CBinary, limit: CExpr) -> Result<CExpr, Mem>
    ensures { IfOk result (λ e. e ≡ Binary operator limit (named (codes "b"))) }
{
    operate(alloc, operator, limit, b(alloc)?)
}

/// `(LEFT COMPARISON RIGHT)`
pub fn compare(
    alloc: Global,
    comparison: Comparison,
    left: CExpr,
    right: CExpr,
) -> Result<CExpr, Mem>
    ensures { IfOk result (λ e. e ≡ Compare comparison left right) }
{
    Ok(CExpr::Compare(
        comparison,
        Boxed::new(alloc, left)?,
        Boxed::new(alloc, right)?,
    ))
}

/// Whether b is -1.
pub fn by_minus_one(alloc: Global) -> Result<CExpr, Mem>
    ensures { IfOk result (λ e. e ≡ Compare Equal (named (codes "b")) minus_one) }
{
    compare(alloc, Comparison::Equal, b(alloc)?, minus_one(alloc)?)
}

/// `return LIMIT <= a;`
pub fn give_at_least(alloc: Global, limit: CExpr) -> Result<Row<CStmt>, Mem>
    ensures { IfOk result (λ body. body ≡ give (Compare LessEqual limit (named (codes "a")))) }
{
    give(
        alloc,
        compare(alloc, Comparison::LessEqual, limit, a(alloc)?)?,
    )
}

/// `return a <= LIMIT;`
pub fn give_at_most(alloc: Global, limit: CExpr) -> Result<Row<CStmt>, Mem>
    ensures { IfOk result (λ body. body ≡ give (Compare LessEqual (named (codes "a")) limit)) }
{
    give(
        alloc,
        compare(alloc, Comparison::LessEqual, a(alloc)?, limit)?,
    )
}

/// `return EXPR;`
pub fn give(alloc: Global, value: CExpr) -> Result<Row<CStmt>, Mem>
    ensures { IfOk result (λ body. body ≡ give value) }
{
    let mut body = Row::new(alloc);
    body.push(CStmt::Return(Some(value)))?;
    Ok(body)
}

/// `if (TEST) { .. } else { .. }`
pub fn if_else(
    alloc: Global,
    test: CExpr,
    chosen: Row<CStmt>,
    other: Row<CStmt>,
) -> Result<Row<CStmt>, Mem>
    ensures { IfOk result (λ body. body ≡ if_else test chosen other) }
{
    let mut body = Row::new(alloc);
    body.push(CStmt::If(test, chosen, Some(other)))?;
    Ok(body)
}

/// `int64_t NAME`
pub fn parameter(alloc: Global, name: &str) -> Result<CVar, Mem>
    ensures { IfOk result (λ var. var ≡ parameter name.now) }
{
    Ok(CVar {
        name: Text::from_str(alloc, name)?,
        kind: CType::Int(true, 64),
    })
}

/// `static inline int64_t NAME(int64_t a, int64_t b)`
pub fn helper(alloc: Global, name: &str, body: Row<CStmt>) -> Result<CFun, Mem>
    ensures { IfOk result (λ function. function ≡ helper name.now body) }
{
    let mut params = Row::new(alloc);
    params.push(parameter(alloc, "a")?)?;
    params.push(parameter(alloc, "b")?)?;
    Ok(CFun {
        name: Text::from_str(alloc, name)?,
        inline: true,
        result: CType::Int(true, 64),
        params,
        vars: Row::new(alloc),
        body,
        line: 0,
    })
}
