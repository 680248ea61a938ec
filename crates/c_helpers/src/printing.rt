// The functions that print a number.
ghost use Rattle.std.specs.Prelude.{◌≡◌, ◌++◌, map, IfOk, OnOk};
ghost use Rattle.c_helpers.specs.Functions.{put_digit, digit, call_digit, put_sign, print};

use crate::parts::{a, b, compare, constant, helper, if_else, negate, operate, parameter, with_b};
use c_tree::{CArg, CBinary, CExpr, CFun, CPlace, CStmt, CType};
use sl_num::Comparison;
use sl_text::{Mem, Row, Text};
use std::alloc::Global;

/// The powers of ten that are numbers of 64 bits, down to 10.
const POWERS: [u64; 18] = [
    1_000_000_000_000_000_000,
    100_000_000_000_000_000,
    10_000_000_000_000_000,
    1_000_000_000_000_000,
    100_000_000_000_000,
    10_000_000_000_000,
    1_000_000_000_000,
    100_000_000_000,
    10_000_000_000,
    1_000_000_000,
    100_000_000,
    10_000_000,
    1_000_000,
    100_000,
    10_000,
    1_000,
    100,
    10,
];

pub fn build_digit(alloc: Global) -> Result<CFun, Mem>
    ensures { IfOk result (λ function. function ≡ digit) }
{
    let quotient = with_b(alloc, CBinary::Div, a(alloc)?)?;
    let mut chosen = Row::new(alloc);
    chosen.push(put_digit(alloc, quotient)?)?;
    let test = compare(
        alloc,
        Comparison::LessEqual,
        a(alloc)?,
        negate(alloc, b(alloc)?)?,
    )?;
    let mut body = Row::new(alloc);
    body.push(CStmt::If(test, chosen, None))?;
    let mut function = helper(alloc, "sl_digit", body)?;
    function.result = CType::Void;
    Ok(function)
}

pub fn build_print(alloc: Global) -> Result<CFun, Mem>
    ensures { IfOk result (λ function. function ≡ print) }
{
    let mut params = Row::new(alloc);
    params.push(parameter(alloc, "a")?)?;
    let mut body = put_sign(alloc)?;
    call_digits(alloc, &mut body, &POWERS)?;
    body.push(put_digit(alloc, a(alloc)?)?)?;
    Ok(CFun {
        name: Text::from_str(alloc, "sl_print")?,
        inline: true,
        result: CType::Void,
        params,
        vars: Row::new(alloc),
        body,
        line: 0,
    })
}

/// Statements that put `-` where a is negative, and else negate it.
fn put_sign(alloc: Global) -> Result<Row<CStmt>, Mem>
    ensures { IfOk result (λ body. body ≡ put_sign) }
{
    let mut chosen = Row::new(alloc);
    chosen.push(CStmt::Put(constant(u64::from(b'-'))))?;
    let place = CPlace::Name(Text::from_str(alloc, "a")?);
    let mut other = Row::new(alloc);
    other.push(CStmt::Assign(place, negate(alloc, a(alloc)?)?))?;
    let negative = compare(alloc, Comparison::Less, a(alloc)?, constant(0))?;
    if_else(alloc, negative, chosen, other)
}

/// Adds the calls of `sl_digit` at these powers.
fn call_digits(alloc: Global, body: &mut Row<CStmt>, powers: &[u64]) -> Result<(), Mem>
    ensures { OnOk result (body.new ≡ body.old ++ map call_digit powers.now) }
{
    for power in powers {
        body.push(call_digit(alloc, *power)?)?;
    }
    Ok(())
}

/// `sl_digit(a, POWER);`
fn call_digit(alloc: Global, power: u64) -> Result<CStmt, Mem>
    ensures { IfOk result (λ statement. statement ≡ call_digit power) }
{
    let mut args = Row::new(alloc);
    args.push(CArg::Value(a(alloc)?))?;
    args.push(CArg::Value(constant(power)))?;
    Ok(CStmt::Call(None, Text::from_str(alloc, "sl_digit")?, args))
}

/// `sl_put(48 - NUMBER % 10);`
fn put_digit(alloc: Global, number: CExpr) -> Result<CStmt, Mem>
    ensures { IfOk result (λ statement. statement ≡ put_digit number) }
{
    let last = operate(alloc, CBinary::Rem, number, constant(10))?;
    Ok(CStmt::Put(operate(alloc, CBinary::Sub, constant(u64::from(b'0')), last)?))
}
