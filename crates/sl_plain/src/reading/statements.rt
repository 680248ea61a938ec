// What statements are.
ghost use Rattle.std.specs.Prelude.{◌≡◌, ◌∷◌, List, IfOk, map};
ghost use Rattle.std.specs.List.Sorted.{IsNonDecreasing};
ghost use Rattle.sl_plain.specs.declared.reading.statements.Read.{Read};
ghost use Rattle.sl_plain.specs.Reading.{line_at, atom_of, name_in, condition_of, form_of, is_type, kind_of, block_of, does, declared, assigned, printed, called_stmt, chosen, repeated, until, named, counting, returned, returned_in, read_of, else_of, body_of, body_behind, body_if};

use crate::program::{Atom, Condition, Kind, Right, Stmt};
use crate::reading::expressions::{
    Form, atom_of, bytes_of, condition_in, condition_of, form_of, line_at, name_in, right_of,
};
use crate::reading::names::is_name;
use sl_text::{Mem, Row, Text};
use sl_tree::{Else, Expr, Stmt as Tree, StmtKind, TypeTerm};
use std::alloc::Global;

/// What a statement is, as far as a plain tree has it.
#[derive(Debug, Drop)]
pub enum Read {
    /// One that is passed over.
    Passes,
    Does(Stmt),
    Returns(Atom),
    NotPlain,
}

/// What a statement is, in a file with these line feeds.
#[cycle(read)]
#[tactic(auto, using(crate::proofs::StatementForms::read_rules))]
fn read_of(alloc: Global, feeds: &[u32], tree: &Tree) -> Result<Read, Mem>
    requires { IsNonDecreasing feeds.now }
    ensures { IfOk result (λ read. read ≡ read_of feeds.now tree.now) }
{
    match &tree.kind {
        StmtKind::Let(var, name, ascribed, value) => {
            let read = read_let(alloc, feeds, *var, name, ascribed, value)?;
            Ok(read)
        }
        StmtKind::Assign(place, value) => {
            let read = read_assign(alloc, feeds, place, value)?;
            Ok(read)
        }
        StmtKind::Call(value) => {
            let read = read_call(alloc, feeds, value, tree.span.from)?;
            Ok(read)
        }
        StmtKind::If(test, stmts, other) => {
            let stmts = block_of(alloc, feeds, stmts.as_slice())?;
            let others = else_of(alloc, feeds, other)?;
            let read = read_if(alloc, feeds, test, stmts, others)?;
            Ok(read)
        }
        StmtKind::While(test, stmts) => {
            let stmts = block_of(alloc, feeds, stmts.as_slice())?;
            let read = read_while(alloc, feeds, test, stmts)?;
            Ok(read)
        }
        StmtKind::For(name, first, to, end, stmts) => {
            let stmts = block_of(alloc, feeds, stmts.as_slice())?;
            let read = read_for(alloc, feeds, tree.span.from, *to, name, first, end, stmts)?;
            Ok(read)
        }
        StmtKind::Return(value) => {
            let read = read_return(alloc, feeds, value)?;
            Ok(read)
        }
        StmtKind::Match(..) => Ok(Read::NotPlain),
        StmtKind::Skip(_) => Ok(Read::Passes),
    }
}

/// `val NAME: TYPE = EXPR`, or `var`
fn read_let(
    alloc: Global,
    feeds: &[u32],
    var: bool,
    name: &Text,
    ascribed: &Option<TypeTerm>,
    value: &Expr,
) -> Result<Read, Mem>
    requires { IsNonDecreasing feeds.now }
    ensures { IfOk result (λ read. read ≡ does (declared var name.now ascribed.now (form_of feeds.now value.now))) }
{
    let name = bytes_of(alloc, name)?;
    let value = form_of(alloc, feeds, value)?;
    Ok(does(declared(var, name, ascribed, value)))
}

/// `EXPR = EXPR`
fn read_assign(alloc: Global, feeds: &[u32], place: &Expr, value: &Expr) -> Result<Read, Mem>
    requires { IsNonDecreasing feeds.now }
    ensures { IfOk result (λ read. read ≡ does (assigned (name_in (form_of feeds.now place.now)) (form_of feeds.now value.now))) }
{
    let name = name_in(form_of(alloc, feeds, place)?);
    let value = form_of(alloc, feeds, value)?;
    Ok(does(assigned(name, value)))
}

/// A call that stands at this place.
fn read_call(alloc: Global, feeds: &[u32], value: &Expr, place: u32) -> Result<Read, Mem>
    requires { IsNonDecreasing feeds.now }
    ensures { IfOk result (λ read. read ≡ does (called_stmt (form_of feeds.now value.now) (line_at feeds.now place))) }
{
    let line = line_at(feeds, place)?;
    let value = form_of(alloc, feeds, value)?;
    Ok(does(called_stmt(value, line)))
}

/// An `if` with these statements.
fn read_if(
    alloc: Global,
    feeds: &[u32],
    test: &Expr,
    stmts: Option<Row<Stmt>>,
    others: Option<Row<Stmt>>,
) -> Result<Read, Mem>
    requires { IsNonDecreasing feeds.now }
    ensures { IfOk result (λ read. read ≡ does (chosen (condition_of (form_of feeds.now test.now)) stmts others)) }
{
    let test = form_of(alloc, feeds, test)?;
    Ok(does(chosen(condition_of(test), stmts, others)))
}

/// A `while` with these statements.
fn read_while(
    alloc: Global,
    feeds: &[u32],
    test: &Expr,
    stmts: Option<Row<Stmt>>,
) -> Result<Read, Mem>
    requires { IsNonDecreasing feeds.now }
    ensures { IfOk result (λ read. read ≡ does (repeated (condition_of (form_of feeds.now test.now)) stmts)) }
{
    let test = form_of(alloc, feeds, test)?;
    Ok(does(repeated(condition_of(test), stmts)))
}

/// `return`, or `return EXPR`
fn read_return(alloc: Global, feeds: &[u32], value: &Option<Expr>) -> Result<Read, Mem>
    requires { IsNonDecreasing feeds.now }
    ensures { IfOk result (λ read. read ≡ returned_in feeds.now value.now) }
{
    match value {
        Some(value) => {
            let value = form_of(alloc, feeds, value)?;
            Ok(returned(atom_of(value)))
        }
        None => Ok(Read::NotPlain),
    }
}

/// The statements of a block, where each is one.
#[cycle(read)]
#[tactic(auto, using(crate::proofs::StatementForms::read_rules))]
fn block_of(alloc: Global, feeds: &[u32], trees: &[Tree]) -> Result<Option<Row<Stmt>>, Mem>
    requires { IsNonDecreasing feeds.now }
    ensures { IfOk result (λ block. block ≡ block_of (map (read_of feeds.now) trees.now)) }
{
    let mut stmts = Row::new(alloc);
    for tree in trees {
        match read_of(alloc, feeds, tree)? {
            Read::Passes => {}
            Read::Does(stmt) => stmts.push(stmt)?,
            Read::Returns(_) | Read::NotPlain => return Ok(None),
        }
    }
    Ok(Some(stmts))
}

/// The statements behind `else`.
#[cycle(read)]
#[tactic(auto, using(crate::proofs::StatementForms::read_rules))]
fn else_of(alloc: Global, feeds: &[u32], other: &Else) -> Result<Option<Row<Stmt>>, Mem>
    requires { IsNonDecreasing feeds.now }
    ensures { IfOk result (λ block. block ≡ else_of feeds.now other.now) }
{
    match other {
        Else::Nothing => Ok(Some(Row::new(alloc))),
        Else::Block(trees) => block_of(alloc, feeds, trees.as_slice()),
        Else::If(_) => Ok(None),
    }
}

/// The statements of a body and what it returns, behind which nothing is done.
pub fn body_of(
    alloc: Global,
    feeds: &[u32],
    trees: &[Tree],
) -> Result<Option<(Row<Stmt>, Atom)>, Mem>
    requires { IsNonDecreasing feeds.now }
    ensures { IfOk result (λ body. body ≡ body_of (map (read_of feeds.now) trees.now)) }
{
    let mut stmts = Row::new(alloc);
    let mut returned: Option<Atom> = None;
    for tree in trees {
        let read = read_of(alloc, feeds, tree)?;
        if !goes_on(&mut stmts, &mut returned, read)? {
            return Ok(None);
        }
    }
    match returned {
        Some(atom) => Ok(Some((stmts, atom))),
        None => Ok(None),
    }
}

/// Whether a body goes on with what is read. Then it is added to the statements, or to the return.
#[tactic(auto, using(crate::proofs::BodiesRead::body_rules))]
fn goes_on(stmts: &mut Row<Stmt>, returned: &mut Option<Atom>, read: Read) -> Result<bool, Mem>
    ensures { IfOk result (λ goes. (reads : List Read) → body_behind stmts.old returned.old (read ∷ reads) ≡ body_if goes stmts.new returned.new reads) }
{
    match read {
        Read::Passes => Ok(true),
        Read::Does(stmt) => {
            if returned.is_some() {
                return Ok(false);
            }
            stmts.push(stmt)?;
            Ok(true)
        }
        Read::Returns(atom) => {
            if returned.is_some() {
                return Ok(false);
            }
            *returned = Some(atom);
            Ok(true)
        }
        Read::NotPlain => Ok(false),
    }
}

/// What is read, where it is a statement.
fn does(stmt: Option<Stmt>) -> Read
    ensures { result ≡ does stmt }
{
    match stmt {
        Some(stmt) => Read::Does(stmt),
        None => Read::NotPlain,
    }
}

/// An `if` of these parts, where each is one.
fn chosen(
    test: Option<Condition>,
    stmts: Option<Row<Stmt>>,
    others: Option<Row<Stmt>>,
) -> Option<Stmt>
    ensures { result ≡ chosen test stmts others }
{
    match (test, stmts, others) {
        (Some(test), Some(stmts), Some(others)) => Some(Stmt::If(test, stmts, others)),
        _ => None,
    }
}

/// A `while` of these parts.
fn repeated(test: Option<Condition>, stmts: Option<Row<Stmt>>) -> Option<Stmt>
    ensures { result ≡ repeated test stmts }
{
    match (test, stmts) {
        (Some(test), Some(stmts)) => Some(Stmt::While(test, stmts)),
        _ => None,
    }
}

/// A `for` at this place with these statements.
fn read_for(
    alloc: Global,
    feeds: &[u32],
    place: u32,
    to: bool,
    name: &Text,
    first: &Expr,
    end: &Expr,
    stmts: Option<Row<Stmt>>,
) -> Result<Read, Mem>
    requires { IsNonDecreasing feeds.now }
    ensures { IfOk result (λ read. read ≡ does (until to (named name.now (counting name.now (atom_of (form_of feeds.now first.now)) (atom_of (form_of feeds.now end.now)) stmts (line_at feeds.now place))))) }
{
    let line = line_at(feeds, place)?;
    let name = bytes_of(alloc, name)?;
    let first = atom_of(form_of(alloc, feeds, first)?);
    let end = atom_of(form_of(alloc, feeds, end)?);
    Ok(does(counting(to, name, first, end, stmts, line)))
}

/// A `for` of these parts, which has no `to`.
fn counting(
    to: bool,
    name: Row<u8>,
    first: Option<Atom>,
    end: Option<Atom>,
    stmts: Option<Row<Stmt>>,
    line: u32,
) -> Option<Stmt>
    ensures { result ≡ until to (named name (counting name first end stmts line)) }
{
    if to || !is_name(name.as_slice()) {
        return None;
    }
    match (first, end, stmts) {
        (Some(first), Some(end), Some(stmts)) => Some(Stmt::For(name, first, end, stmts, line)),
        _ => None,
    }
}

/// A `return` of an atom.
fn returned(atom: Option<Atom>) -> Read
    ensures { result ≡ returned atom }
{
    match atom {
        Some(atom) => Read::Returns(atom),
        None => Read::NotPlain,
    }
}

/// Whether a type is this name alone.
pub fn is_type(name: &str, term: &TypeTerm) -> bool
    ensures { result ≡ is_type name.now term.now }
{
    match (term.path.as_slice(), term.args.as_slice()) {
        ([other], []) => other.as_str() == name,
        _ => false,
    }
}

/// `Z` or `B`
fn kind_of(term: &TypeTerm) -> Option<Kind>
    ensures { result ≡ kind_of term.now }
{
    if is_type("Z", term) {
        Some(Kind::Number)
    } else if is_type("B", term) {
        Some(Kind::Truth)
    } else {
        None
    }
}

/// A declaration.
fn declared(var: bool, name: Row<u8>, ascribed: &Option<TypeTerm>, value: Form) -> Option<Stmt>
    ensures { result ≡ declared var name ascribed.now value }
{
    if !is_name(name.as_slice()) {
        return None;
    }
    match ascribed {
        Some(term) => {
            let kind = kind_of(term)?;
            Some(Stmt::Declare(var, name, kind, right_of(value)?))
        }
        None => None,
    }
}

/// An assignment to what has this name.
fn assigned(name: Option<Row<u8>>, value: Form) -> Option<Stmt>
    ensures { result ≡ assigned name value }
{
    match name {
        Some(name) => {
            if !is_name(name.as_slice()) {
                return None;
            }
            Some(Stmt::Assign(name, right_of(value)?))
        }
        None => None,
    }
}

/// A call that is a statement.
fn called_stmt(value: Form, line: u32) -> Option<Stmt>
    ensures { result ≡ called_stmt value line }
{
    match value {
        Form::CalledText(name, text) => {
            if name.as_slice() == b"println".as_slice() {
                return Some(Stmt::PrintText(text));
            }
            if name.as_slice() == b"halt".as_slice() {
                return Some(Stmt::Halt(text, line));
            }
            None
        }
        Form::Called(name, right) => {
            if name.as_slice() == b"println".as_slice() {
                return printed(right);
            }
            if name.as_slice() == b"assert".as_slice() {
                return Some(Stmt::Assert(condition_in(right)?, line));
            }
            None
        }
        _ => None,
    }
}

fn printed(right: Right) -> Option<Stmt>
    ensures { result ≡ printed right }
{
    match right {
        Right::Just(atom) => Some(Stmt::Print(atom)),
        _ => None,
    }
}
