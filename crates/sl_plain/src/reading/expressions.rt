// What expressions are.
ghost use Rattle.std.specs.Prelude.{◌≡◌, [], ◌∷◌, map, IfOk};
ghost use Rattle.sl_text.specs.declared.token.Kind.TheVariants as token;
ghost use Rattle.std.specs.List.Sorted.{IsNonDecreasing};
ghost use Rattle.sl_plain.specs.declared.reading.expressions.Form.TheVariants.{Name};
ghost use Rattle.sl_plain.specs.Reading.{line_at, literal_of, atom_named, atom_of, right_of, condition_in, condition_of, sign_of, short_sign, long_sign, joined, name_in, member_of, called_with, called_bare, called_on, called, form_of};

use crate::program::{Atom, Condition, Right};
use crate::reading::names::{is_name, number_of, quoted_in};
use sl_num::{Comparison, Op};
use sl_text::{Kind, Mem, Row, Text};
use sl_tree::{Expr, ExprKind, Lexeme};
use std::alloc::Global;

/// What stands between two atoms.
#[derive(Clone, Copy, Debug, PartialEq, Eq)]
pub enum Sign {
    Compares(Comparison),
    Applies(Op),
}

/// What an expression is, as far as a plain tree has it.
#[derive(Debug, Drop)]
pub enum Form {
    Name(Row<u8>),
    Number(i64),
    Text(Row<u8>),
    /// A comparison, an operation, or `Port.get()`.
    Computed(Right),
    /// `NAME.NAME`
    Member(Row<u8>, Row<u8>),
    /// `NAME(RIGHT)`
    Called(Row<u8>, Right),
    /// `NAME("TEXT")`
    CalledText(Row<u8>, Row<u8>),
    NotPlain,
}

/// The line of a place: 1, and one more for each line feed before the place. There are too many lines if it has no number.
pub fn line_at(feeds: &[u32], place: u32) -> Result<u32, Mem>
    requires { IsNonDecreasing feeds.now }
    ensures { IfOk result (λ line. line ≡ line_at feeds.now place) }
{
    let before = feeds.partition_point(|feed| *feed < place);
    let Ok(before) = u32::try_from(before) else {
        return Err(Mem);
    };
    match before.checked_add(1) {
        Some(line) => Ok(line),
        None => Err(Mem),
    }
}

/// What an expression is, in a file with these line feeds.
#[cycle(form)]
#[tactic(auto, using(crate::proofs::ExpressionForms::form_rules))]
pub fn form_of(alloc: Global, feeds: &[u32], expr: &Expr) -> Result<Form, Mem>
    requires { IsNonDecreasing feeds.now }
    ensures { IfOk result (λ form. form ≡ form_of feeds.now expr.now) }
{
    match &expr.kind {
        ExprKind::Literal(negative, literal) => literal_of(alloc, *negative, literal),
        ExprKind::Name(name) => {
            let form = name_form(alloc, name)?;
            Ok(form)
        }
        ExprKind::Infix(left, sign, right) => {
            let line = line_at(feeds, expr.span.from)?;
            let left = atom_of(form_of(alloc, feeds, left.get())?);
            let right = atom_of(form_of(alloc, feeds, right.get())?);
            Ok(joined(sign_of(sign), left, right, line))
        }
        ExprKind::Select(operand, member) => {
            let operand = form_of(alloc, feeds, operand.get())?;
            member_of(alloc, operand, member)
        }
        ExprKind::Apply(operand, arguments) => {
            let operand = form_of(alloc, feeds, operand.get())?;
            applied(alloc, feeds, operand, arguments.as_slice())
        }
        ExprKind::This => Ok(Form::NotPlain),
        ExprKind::Paren(_) => Ok(Form::NotPlain),
        ExprKind::Prefix(..) => Ok(Form::NotPlain),
        ExprKind::Update(..) => Ok(Form::NotPlain),
        ExprKind::Given(..) => Ok(Form::NotPlain),
        ExprKind::If(..) => Ok(Form::NotPlain),
        ExprKind::Match(..) => Ok(Form::NotPlain),
    }
}

/// A call of what was read with these arguments.
#[cycle(form)]
fn applied(alloc: Global, feeds: &[u32], operand: Form, arguments: &[Expr]) -> Result<Form, Mem>
    requires { IsNonDecreasing feeds.now }
    ensures { IfOk result (λ form. form ≡ called operand (map (form_of feeds.now) arguments.now)) }
{
    match arguments {
        [] => Ok(called_bare(operand)),
        [argument] => {
            let name = name_in(operand);
            let argument = form_of(alloc, feeds, argument)?;
            Ok(called_on(name, argument))
        }
        _ => Ok(Form::NotPlain),
    }
}

fn name_form(alloc: Global, name: &Text) -> Result<Form, Mem>
    ensures { IfOk result (λ found. found ≡ Name name.now) }
{
    Ok(Form::Name(bytes_of(alloc, name)?))
}

/// The bytes of a text.
pub fn bytes_of(alloc: Global, text: &Text) -> Result<Row<u8>, Mem>
    ensures { IfOk result (λ bytes. bytes ≡ text.now) }
{
    Ok(Row::from_slice(alloc, text.as_str().as_bytes())?)
}

/// A literal, with a `-` before it or not.
fn literal_of(alloc: Global, negative: bool, literal: &Lexeme) -> Result<Form, Mem>
    ensures { IfOk result (λ form. form ≡ literal_of literal.now.kind negative literal.now.text) }
{
    match literal.kind {
        Kind::Number => number_form(alloc, negative, literal.text.as_str().as_bytes()),
        Kind::Quoted => {
            if negative {
                return Ok(Form::NotPlain);
            }
            match quoted_in(literal.text.as_str().as_bytes()) {
                Some(text) => Ok(Form::Text(Row::from_slice(alloc, text)?)),
                None => Ok(Form::NotPlain),
            }
        }
        _ => Ok(Form::NotPlain),
    }
}

fn number_form(alloc: Global, negative: bool, text: &[u8]) -> Result<Form, Mem>
    ensures { IfOk result (λ form. form ≡ literal_of token.Number negative text.now) }
{
    let number = if negative {
        let mut bytes = Row::from_slice(alloc, b"-")?;
        bytes.append(Row::from_slice(alloc, text)?)?;
        number_of(bytes.as_slice())
    } else {
        number_of(text)
    };
    match number {
        Some(number) => Ok(Form::Number(number)),
        None => Ok(Form::NotPlain),
    }
}

/// The atom that a name is.
fn atom_named(name: Row<u8>) -> Option<Atom>
    ensures { result ≡ atom_named name }
{
    if name.as_slice() == b"T".as_slice() {
        return Some(Atom::Truth(true));
    }
    if name.as_slice() == b"F".as_slice() {
        return Some(Atom::Truth(false));
    }
    if is_name(name.as_slice()) {
        return Some(Atom::Name(name));
    }
    None
}

pub fn atom_of(form: Form) -> Option<Atom>
    ensures { result ≡ atom_of form }
{
    match form {
        Form::Name(name) => atom_named(name),
        Form::Number(number) => Some(Atom::Number(number)),
        _ => None,
    }
}

/// The name that an expression is.
pub fn name_in(form: Form) -> Option<Row<u8>>
    ensures { result ≡ name_in form }
{
    match form {
        Form::Name(name) => Some(name),
        _ => None,
    }
}

pub fn right_of(form: Form) -> Option<Right>
    ensures { result ≡ right_of form }
{
    match form {
        Form::Computed(right) => Some(right),
        Form::Name(name) => atom_named(name).map(Right::Just),
        Form::Number(number) => Some(Right::Just(Atom::Number(number))),
        _ => None,
    }
}

/// A right side that is a condition.
pub fn condition_in(right: Right) -> Option<Condition>
    ensures { result ≡ condition_in right }
{
    match right {
        Right::Just(atom) => Some(Condition::Just(atom)),
        Right::Compare(by, left, right) => Some(Condition::Compare(by, left, right)),
        Right::Apply(..) | Right::Get => None,
    }
}

pub fn condition_of(form: Form) -> Option<Condition>
    ensures { result ≡ condition_of form }
{
    condition_in(right_of(form)?)
}

/// What stands between two atoms.
fn sign_of(text: &Text) -> Option<Sign>
    ensures { result ≡ sign_of text.now }
{
    match text.as_str().as_bytes() {
        [byte] => short_sign(*byte),
        [byte, b'='] => long_sign(*byte),
        _ => None,
    }
}

/// The sign of this byte alone.
fn short_sign(byte: u8) -> Option<Sign>
    ensures { result ≡ short_sign byte }
{
    match byte {
        b'<' => Some(Sign::Compares(Comparison::Less)),
        b'>' => Some(Sign::Compares(Comparison::Greater)),
        b'+' => Some(Sign::Applies(Op::Add)),
        b'-' => Some(Sign::Applies(Op::Sub)),
        b'*' => Some(Sign::Applies(Op::Mul)),
        b'/' => Some(Sign::Applies(Op::Div)),
        b'%' => Some(Sign::Applies(Op::Rem)),
        _ => None,
    }
}

/// The sign of this byte with a `=` behind it.
fn long_sign(byte: u8) -> Option<Sign>
    ensures { result ≡ long_sign byte }
{
    match byte {
        b'=' => Some(Sign::Compares(Comparison::Equal)),
        b'!' => Some(Sign::Compares(Comparison::NotEqual)),
        b'<' => Some(Sign::Compares(Comparison::LessEqual)),
        b'>' => Some(Sign::Compares(Comparison::GreaterEqual)),
        _ => None,
    }
}

/// Two atoms with this sign between them, on this line.
fn joined(sign: Option<Sign>, left: Option<Atom>, right: Option<Atom>, line: u32) -> Form
    ensures { result ≡ joined sign left right line }
{
    match (sign, left, right) {
        (Some(Sign::Compares(by)), Some(left), Some(right)) => {
            Form::Computed(Right::Compare(by, left, right))
        }
        (Some(Sign::Applies(op)), Some(left), Some(right)) => {
            Form::Computed(Right::Apply(op, left, right, line))
        }
        _ => Form::NotPlain,
    }
}

/// A member of what a name is.
fn member_of(alloc: Global, operand: Form, member: &Text) -> Result<Form, Mem>
    ensures { IfOk result (λ form. form ≡ member_of operand member.now) }
{
    match operand {
        Form::Name(name) => Ok(Form::Member(name, bytes_of(alloc, member)?)),
        _ => Ok(Form::NotPlain),
    }
}

/// A call without arguments, of which there is only `Port.get()`.
fn called_bare(operand: Form) -> Form
    ensures { result ≡ called_bare operand }
{
    match operand {
        Form::Member(name, member) => {
            if name.as_slice() == b"Port".as_slice() && member.as_slice() == b"get".as_slice() {
                return Form::Computed(Right::Get);
            }
            Form::NotPlain
        }
        _ => Form::NotPlain,
    }
}

/// A name is called with one argument.
fn called_on(name: Option<Row<u8>>, argument: Form) -> Form
    ensures { result ≡ called_on name argument }
{
    match name {
        Some(name) => called_with(name, argument),
        None => Form::NotPlain,
    }
}

fn called_with(name: Row<u8>, argument: Form) -> Form
    ensures { result ≡ called_with name argument }
{
    if let Form::Text(text) = argument {
        return Form::CalledText(name, text);
    }
    match right_of(argument) {
        Some(right) => Form::Called(name, right),
        None => Form::NotPlain,
    }
}
