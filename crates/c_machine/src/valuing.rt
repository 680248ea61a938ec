ghost use Rattle.std.specs.Prelude.{◌≡◌, Some, IfOk, option_map, map, IsTrue, false};
ghost use Rattle.c_tree.specs.Meaning.{exact, divides, is_zero};
ghost use Rattle.c_machine.specs.Resume.{state_of};
ghost use Rattle.c_machine.specs.Values.{value as value_of, numbers, int64 as int64_in, uint64 as uint64_of, int64_of, binary as binary_of, compared as compared_of, negated as negated_of};

use crate::memory::Memory;
use crate::program::{Expr, Word};
use c_tree::CBinary;
use sl_num::{Comparison, compare};
use sl_text::Row;
use std::alloc::{AllocError, Global};

/// The value of an expression, where it has one.
#[tactic(auto, using(crate::proofs::Layers::expressions_are))]
pub fn value(e: &Expr, memory: &Memory) -> Option<Word>
    ensures { result ≡ value_of e.now (state_of memory.now) }
{
    match e {
        Expr::Const(signed, number) => Some(Word {
            signed: *signed,
            number: i128::from(*number),
        }),
        Expr::Read(slot, signed) => match memory.held(*slot) {
            Some(number) => Some(Word {
                signed: *signed,
                number,
            }),
            None => None,
        },
        Expr::Binary(operator, left, right) => {
            let left = value(left.get(), memory)?;
            let right = value(right.get(), memory)?;
            binary(*operator, left, right)
        }
        Expr::Compare(comparison, left, right) => {
            let left = value(left.get(), memory)?;
            let right = value(right.get(), memory)?;
            compared(*comparison, left, right)
        }
        Expr::Negate(operand) => negated(value(operand.get(), memory)?),
    }
}

/// An operator on two numbers, which are both with a sign or both without one.
fn binary(operator: CBinary, left: Word, right: Word) -> Option<Word>
    ensures { result ≡ binary_of operator left right }
{
    if left.signed != right.signed || (has_divisor(operator) && right.number == 0) {
        return None;
    }
    if left.signed {
        int64_result(operator, left.number, right.number)
    } else {
        Some(uint64_result(operator, left.number, right.number))
    }
}

fn has_divisor(operator: CBinary) -> bool
    ensures { result ≡ divides operator }
{
    matches!(operator, CBinary::Div | CBinary::Rem)
}

/// An operator on numbers with a sign. A remainder is undefined where the quotient overflows.
fn int64_result(operator: CBinary, a: i128, b: i128) -> Option<Word>
    requires { IsTrue (divides operator) → is_zero b ≡ false }
    ensures { result ≡ int64_of operator a b }
{
    match operator {
        CBinary::Add => int64(a.checked_add(b)?),
        CBinary::Sub => int64(a.checked_sub(b)?),
        CBinary::Mul => int64(a.checked_mul(b)?),
        CBinary::Div => int64(a.checked_div(b)?),
        CBinary::Rem => {
            int64(a.checked_div(b)?)?;
            int64(a.wrapping_rem(b))
        }
    }
}

/// An operator on numbers without a sign.
fn uint64_result(operator: CBinary, a: i128, b: i128) -> Word
    requires { IsTrue (divides operator) → is_zero b ≡ false }
    ensures { result ≡ uint64_of (exact operator a b) }
{
    match operator {
        CBinary::Add => uint64(a.wrapping_add(b)),
        CBinary::Sub => uint64(a.wrapping_sub(b)),
        CBinary::Mul => uint64(a.wrapping_mul(b)),
        CBinary::Div => uint64(a.wrapping_div(b)),
        CBinary::Rem => uint64(a.wrapping_rem(b)),
    }
}

fn compared(comparison: Comparison, left: Word, right: Word) -> Option<Word>
    ensures { result ≡ compared_of comparison left right }
{
    if left.signed != right.signed {
        return None;
    }
    Some(Word {
        signed: true,
        number: i128::from(compare(comparison, left.number, right.number)),
    })
}

fn negated(operand: Word) -> Option<Word>
    ensures { result ≡ negated_of operand }
{
    if operand.signed {
        int64(operand.number.checked_neg()?)
    } else {
        None
    }
}

/// A number of 64 bits with a sign, where it is one.
fn int64(number: i128) -> Option<Word>
    ensures { result ≡ int64_in number }
{
    if i128::from(i64::MIN) <= number && number <= i128::from(i64::MAX) {
        Some(Word {
            signed: true,
            number,
        })
    } else {
        None
    }
}

/// A number of 64 bits without a sign.
fn uint64(number: i128) -> Word
    ensures { result ≡ uint64_of number }
{
    Word {
        signed: false,
        number: number.rem_euclid(1 << 64),
    }
}

/// The values of arguments, as a frame holds them, where all have one.
pub fn arguments(
    alloc: Global,
    es: &[Expr],
    memory: &Memory,
) -> Result<Option<Row<Option<i128>>>, AllocError>
    ensures { IfOk result (λ cells. cells ≡ option_map (map Some) (numbers es.now (state_of memory.now))) }
{
    let mut cells = Row::new(alloc);
    for e in es {
        match value(e, memory) {
            Some(word) => cells.push(Some(word.number))?,
            None => return Ok(None),
        }
    }
    Ok(Some(cells))
}
