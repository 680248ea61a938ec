use super::*;
use std::process::Abort;

/// The numbers of 64 bits with a sign, and those without.
const SIGNED: IntType = IntType {
    lo: -0x8000_0000_0000_0000,
    hi: 0x7fff_ffff_ffff_ffff,
    wraps: false,
};

const UNSIGNED: IntType = IntType {
    lo: 0,
    hi: 0xffff_ffff_ffff_ffff,
    wraps: false,
};

const SMALL: IntType = IntType {
    lo: 5,
    hi: 10,
    wraps: false,
};

/// `apply`, after a look that it may be called.
fn applied(rt: &impl Abort, kind: IntType, op: Op, a: i128, b: i128) -> Result<i128, Halt> {
    assert!(rt; !kind.wraps);
    assert!(rt; SIGNED.lo <= kind.lo);
    assert!(rt; kind.hi <= UNSIGNED.hi);
    assert!(rt; kind.lo <= a);
    assert!(rt; a <= kind.hi);
    assert!(rt; kind.lo <= b);
    assert!(rt; b <= kind.hi);
    apply(kind, op, a, b)
}

#[test]
fn arithmetic_at_the_ends_of_a_signed_type(rt: HostRuntime) {
    let IntType { lo, hi, wraps: _ } = SIGNED;
    for (op, a, b, gives) in [
        (Op::Add, hi - 1, 1, Ok(hi)),
        (Op::Add, hi, 1, Err(Halt::Range)),
        (Op::Add, lo, hi, Ok(-1)),
        (Op::Add, lo, -1, Err(Halt::Range)),
        (Op::Sub, lo + 1, 1, Ok(lo)),
        (Op::Sub, lo, 1, Err(Halt::Range)),
        (Op::Sub, -1, lo, Ok(hi)),
        (Op::Sub, 0, lo, Err(Halt::Range)),
        (Op::Mul, hi, -1, Ok(lo + 1)),
        (Op::Mul, lo, -1, Err(Halt::Range)),
        (Op::Mul, lo, lo, Err(Halt::Range)),
        (
            Op::Mul,
            3_037_000_499,
            3_037_000_499,
            Ok(9_223_372_030_926_249_001),
        ),
        (Op::Mul, 3_037_000_500, 3_037_000_500, Err(Halt::Range)),
        (Op::Div, lo, -1, Err(Halt::Range)),
        (Op::Div, lo, 1, Ok(lo)),
        (Op::Rem, lo, -1, Ok(0)),
        (Op::Rem, lo, hi, Ok(-1)),
        (Op::Div, lo, 0, Err(Halt::Zero)),
        (Op::Rem, 0, 0, Err(Halt::Zero)),
        (Op::Neg, hi, 7, Ok(lo + 1)),
        (Op::Neg, lo, 0, Err(Halt::Range)),
    ] {
        assert_eq!(rt;
            applied(&rt, SIGNED, op, a, b),
            gives,
            "{op:?} of {a} and {b}"
        );
    }
}

#[test]
fn arithmetic_at_the_ends_of_an_unsigned_type(rt: HostRuntime) {
    let hi = UNSIGNED.hi;
    for (op, a, b, gives) in [
        (Op::Add, hi - 1, 1, Ok(hi)),
        (Op::Add, hi, hi, Err(Halt::Range)),
        (Op::Sub, hi, hi, Ok(0)),
        (Op::Sub, 0, 1, Err(Halt::Range)),
        (Op::Mul, hi, 1, Ok(hi)),
        (
            Op::Mul,
            0x1_0000_0000,
            0xffff_ffff,
            Ok(0xffff_ffff_0000_0000),
        ),
        (Op::Mul, 0x1_0000_0000, 0x1_0000_0000, Err(Halt::Range)),
        // past 2^127 too
        (Op::Mul, hi, hi, Err(Halt::Range)),
        (Op::Div, hi, hi, Ok(1)),
        (Op::Div, hi, 0, Err(Halt::Zero)),
        (Op::Rem, hi, 10, Ok(5)),
        (Op::Neg, 0, hi, Ok(0)),
        (Op::Neg, 1, 0, Err(Halt::Range)),
    ] {
        assert_eq!(rt;
            applied(&rt, UNSIGNED, op, a, b),
            gives,
            "{op:?} of {a} and {b}"
        );
    }
}

#[test]
fn arithmetic_from_5_to_10(rt: HostRuntime) {
    for (op, a, b, gives) in [
        (Op::Add, 5, 5, Ok(10)),
        (Op::Add, 5, 6, Err(Halt::Range)),
        (Op::Sub, 10, 5, Ok(5)),
        (Op::Sub, 10, 6, Err(Halt::Range)),
        (Op::Div, 10, 5, Err(Halt::Range)),
        (Op::Rem, 5, 10, Ok(5)),
        (Op::Rem, 9, 5, Err(Halt::Range)),
        (Op::Neg, 5, 5, Err(Halt::Range)),
    ] {
        assert_eq!(rt;
            applied(&rt, SMALL, op, a, b),
            gives,
            "{op:?} of {a} and {b}"
        );
    }
}

#[test]
fn quotients_are_truncated(rt: HostRuntime) {
    for (a, b, quotient, rest) in [
        (7, 2, 3, 1),
        (-7, 2, -3, -1),
        (7, -2, -3, 1),
        (-7, -2, 3, -1),
        (6, -3, -2, 0),
        (1, 2, 0, 1),
        (-1, 2, 0, -1),
    ] {
        assert_eq!(rt;
            applied(&rt, SIGNED, Op::Div, a, b),
            Ok(quotient),
            "{a} / {b}"
        );
        assert_eq!(rt; applied(&rt, SIGNED, Op::Rem, a, b), Ok(rest), "{a} % {b}");
    }
}

#[test]
fn numbers_are_compared(rt: HostRuntime) {
    for (by, below, same, above) in [
        (Comparison::Less, true, false, false),
        (Comparison::LessEqual, true, true, false),
        (Comparison::Greater, false, false, true),
        (Comparison::GreaterEqual, false, true, true),
        (Comparison::Equal, false, true, false),
        (Comparison::NotEqual, true, false, true),
    ] {
        assert_eq!(rt; compare(by, -2, 1), below, "{by:?}");
        assert_eq!(rt; compare(by, -2, -2), same, "{by:?}");
        assert_eq!(rt; compare(by, i128::MAX, i128::MIN), above, "{by:?}");
    }
}

#[test]
fn decimals_are_read(rt: HostRuntime) {
    for (text, gives) in [
        ("0", Some(0)),
        ("7", Some(7)),
        ("-1", Some(-1)),
        ("-10", Some(-10)),
        ("18446744073709551615", Some(UNSIGNED.hi)),
        ("-9223372036854775808", Some(SIGNED.lo)),
        (
            "99999999999999999999999999999999999999",
            Some(99_999_999_999_999_999_999_999_999_999_999_999_999),
        ),
        (
            "-99999999999999999999999999999999999999",
            Some(-99_999_999_999_999_999_999_999_999_999_999_999_999),
        ),
        ("100000000000000000000000000000000000000", None),
        ("-100000000000000000000000000000000000000", None),
        ("170141183460469231731687303715884105727", None),
        ("999999999999999999999999999999999999999", None),
        ("", None),
        ("-", None),
        ("-0", None),
        ("00", None),
        ("01", None),
        ("-01", None),
        ("+1", None),
        ("--1", None),
        (" 1", None),
        ("1 ", None),
        ("1_0", None),
        ("0x1", None),
        ("a", None),
        ("1.0", None),
        ("١", None),
    ] {
        assert_eq!(rt; read_decimal(text.as_bytes()), gives, "{text}");
    }
    assert_eq!(rt; read_decimal(b"\xff"), None);
    assert_eq!(rt; read_decimal(b"1\0"), None);
    assert_eq!(rt; read_decimal(&[b'0'; 1000]), None);
}

#[test]
fn decimals_are_printed(rt: HostRuntime) {
    for (n, text) in [
        (0, "0"),
        (-1, "-1"),
        (10, "10"),
        (UNSIGNED.hi, "18446744073709551615"),
        (SIGNED.lo, "-9223372036854775808"),
        (i128::MAX, "170141183460469231731687303715884105727"),
        (i128::MIN, "-170141183460469231731687303715884105728"),
    ] {
        assert_eq!(rt; print_decimal(n).bytes(), text.as_bytes(), "{text}");
    }
}
