// The functions.
ghost use Rattle.std.specs.Prelude.{◌≡◌, IfOk, codes};
ghost use Rattle.c_tree.specs.declared.tree.CBinary.TheVariants.{Div};
ghost use Rattle.c_tree.specs.declared.tree.CExpr.TheVariants.{Binary, Compare};
ghost use Rattle.sl_num.specs.declared.comparing.Comparison.TheVariants.{Less, LessEqual};
ghost use Rattle.c_helpers.specs.Functions.{constant, named, least, give, sum_fits, difference_fits, product_by_positive, product_by_negative, product_fits, quotient_fits, remainder};

use crate::parts::{
    a, b, by_minus_one, compare, constant, give, give_at_least, give_at_most, greatest, helper,
    if_else, least, operate, with_b,
};
use c_tree::{CBinary, CExpr, CFun, CStmt};
use sl_num::Comparison;
use sl_text::{Mem, Row};
use std::alloc::Global;

pub fn build_sum_fits(alloc: Global) -> Result<CFun, Mem>
    ensures { IfOk result (λ function. function ≡ sum_fits) }
{
    let lowest = with_b(alloc, CBinary::Sub, least(alloc)?)?;
    let not_below = give_at_least(alloc, lowest)?;
    let highest = with_b(alloc, CBinary::Sub, greatest())?;
    let not_above = give_at_most(alloc, highest)?;
    let body = if_else(alloc, b_is_negative(alloc)?, not_below, not_above)?;
    helper(alloc, "sl_sum_fits", body)
}

pub fn build_difference_fits(alloc: Global) -> Result<CFun, Mem>
    ensures { IfOk result (λ function. function ≡ difference_fits) }
{
    let highest = with_b(alloc, CBinary::Add, greatest())?;
    let not_above = give_at_most(alloc, highest)?;
    let lowest = with_b(alloc, CBinary::Add, least(alloc)?)?;
    let not_below = give_at_least(alloc, lowest)?;
    let body = if_else(alloc, b_is_negative(alloc)?, not_above, not_below)?;
    helper(alloc, "sl_difference_fits", body)
}

pub fn build_product_fits(alloc: Global) -> Result<CFun, Mem>
    ensures { IfOk result (λ function. function ≡ product_fits) }
{
    let by_zero = give(alloc, constant(1))?;
    let by_negative = product_by_negative(alloc)?;
    let not_positive = if_else(alloc, b_is_negative(alloc)?, by_negative, by_zero)?;
    let by_positive = product_by_positive(alloc)?;
    let body = if_else(
        alloc,
        is_positive(alloc, b(alloc)?)?,
        by_positive,
        not_positive,
    )?;
    helper(alloc, "sl_product_fits", body)
}

/// The statements where b is positive.
fn product_by_positive(alloc: Global) -> Result<Row<CStmt>, Mem>
    ensures { IfOk result (λ body. body ≡ product_by_positive) }
{
    let highest = with_b(alloc, CBinary::Div, greatest())?;
    let not_above = give_at_most(alloc, highest)?;
    let lowest = with_b(alloc, CBinary::Div, least(alloc)?)?;
    let not_below = give_at_least(alloc, lowest)?;
    if_else(alloc, is_positive(alloc, a(alloc)?)?, not_above, not_below)
}

/// The statements where b is negative.
fn product_by_negative(alloc: Global) -> Result<Row<CStmt>, Mem>
    ensures { IfOk result (λ body. body ≡ product_by_negative) }
{
    let b_not_below = give_least_by_a(alloc)?;
    let lowest = with_b(alloc, CBinary::Div, greatest())?;
    let a_not_below = give_at_least(alloc, lowest)?;
    if_else(
        alloc,
        is_positive(alloc, a(alloc)?)?,
        b_not_below,
        a_not_below,
    )
}

/// `return LEAST / a <= b;`
fn give_least_by_a(alloc: Global) -> Result<Row<CStmt>, Mem>
    ensures { IfOk result (λ body. body ≡ give (Compare LessEqual (Binary Div least (named (codes "a"))) (named (codes "b")))) }
{
    let lowest = operate(alloc, CBinary::Div, least(alloc)?, a(alloc)?)?;
    give(
        alloc,
        compare(alloc, Comparison::LessEqual, lowest, b(alloc)?)?,
    )
}

pub fn build_quotient_fits(alloc: Global) -> Result<CFun, Mem>
    ensures { IfOk result (λ function. function ≡ quotient_fits) }
{
    let not_least = compare(alloc, Comparison::Less, least(alloc)?, a(alloc)?)?;
    let chosen = give(alloc, not_least)?;
    let other = give(alloc, constant(1))?;
    let body = if_else(alloc, by_minus_one(alloc)?, chosen, other)?;
    helper(alloc, "sl_quotient_fits", body)
}

pub fn build_remainder(alloc: Global) -> Result<CFun, Mem>
    ensures { IfOk result (λ function. function ≡ remainder) }
{
    let rest = with_b(alloc, CBinary::Rem, a(alloc)?)?;
    let other = give(alloc, rest)?;
    let chosen = give(alloc, constant(0))?;
    let body = if_else(alloc, by_minus_one(alloc)?, chosen, other)?;
    helper(alloc, "sl_remainder", body)
}

/// Whether b is negative.
fn b_is_negative(alloc: Global) -> Result<CExpr, Mem>
    ensures { IfOk result (λ e. e ≡ Compare Less (named (codes "b")) (constant 0)) }
{
    compare(alloc, Comparison::Less, b(alloc)?, constant(0))
}

/// Whether a number is positive.
fn is_positive(alloc: Global, number: CExpr) -> Result<CExpr, Mem>
    ensures { IfOk result (λ e. e ≡ Compare Less (constant 0) number) }
{
    compare(alloc, Comparison::Less, constant(0), number)
}
