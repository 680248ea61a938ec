// Resolved programs, run by the machine.
use c_machine::{End, Expr, Function, Machine, Program, Slot, State, StepFault, Stmt};
use sl_num::Comparison;
use sl_outside::{MemorySink, SureSource};
use sl_text::{Boxed, Row, Shared};
use std::alloc::{AllocError, Global};
use std::test::Fail;

/// A program whose first function has one variable and these statements. Its second one puts its argument, and gives 7.
fn program(alloc: Global, body: Row<Stmt>) -> Result<Program, AllocError> {
    let mut second = Row::new(alloc);
    second.push(Stmt::Put(Expr::Read(Slot::Local(0), true)))?;
    second.push(Stmt::Return(Some(Expr::Const(true, 7))))?;
    let mut functions = Row::new(alloc);
    functions.push(Function {
        vars: 1,
        gives: true,
        body: Shared::new(alloc, body)?,
    })?;
    functions.push(Function {
        vars: 0,
        gives: true,
        body: Shared::new(alloc, second)?,
    })?;
    Ok(Program {
        globals: 0,
        functions,
        start: Some(0),
    })
}

/// Calls the second function with 65, and returns what it gives.
fn calling(alloc: Global) -> Result<Program, AllocError> {
    let mut arguments = Row::new(alloc);
    arguments.push(Expr::Const(true, 65))?;
    let mut body = Row::new(alloc);
    body.push(Stmt::Call(Some(Slot::Local(0)), arguments, 1))?;
    body.push(Stmt::Return(Some(Expr::Read(Slot::Local(0), true))))?;
    program(alloc, body)
}

/// What the variable holds.
fn held() -> Expr {
    Expr::Read(Slot::Local(0), true)
}

/// Puts the bytes of the input up to its end, and returns what it got there.
fn copying(alloc: Global) -> Result<Program, AllocError> {
    let zero = Boxed::new(alloc, Expr::Const(true, 0))?;
    let at_end = Expr::Compare(Comparison::Less, Boxed::new(alloc, held())?, zero);
    let mut leave = Row::new(alloc);
    leave.push(Stmt::Break)?;
    let mut put = Row::new(alloc);
    put.push(Stmt::Put(held()))?;
    let mut turn = Row::new(alloc);
    turn.push(Stmt::Get(Slot::Local(0)))?;
    turn.push(Stmt::If(at_end, Shared::new(alloc, leave)?, Shared::new(alloc, put)?))?;
    let mut body = Row::new(alloc);
    body.push(Stmt::Loop(Shared::new(alloc, turn)?))?;
    body.push(Stmt::Return(Some(held())))?;
    program(alloc, body)
}

/// Puts the numbers below 2, and returns what the variable holds then.
fn counting(alloc: Global) -> Result<Program, AllocError> {
    let mut round = Row::new(alloc);
    round.push(Stmt::Put(held()))?;
    let mut body = Row::new(alloc);
    body.push(Stmt::Count(Slot::Local(0), 2, Shared::new(alloc, round)?))?;
    body.push(Stmt::Return(Some(held())))?;
    program(alloc, body)
}

fn with(alloc: Global, stmt: Stmt) -> Result<Program, AllocError> {
    let mut body = Row::new(alloc);
    body.push(stmt)?;
    program(alloc, body)
}

/// Whether a run of a program in so many turns, on this input and an output with this much room, answers so, puts these bytes, takes
/// so many turns, and answers the same again to one more step on another output, on which it puts nothing.
fn comes_to(
    alloc: Global,
    program: Program,
    turns: u64,
    input: &[u8],
    room: u32,
    wanted: (Result<End, StepFault>, &[u8], u64),
) -> Result<bool, Fail> {
    let mut machine = Machine::begin(alloc, program, turns)?;
    let mut input = SureSource::new(Row::from_slice(alloc, input)?);
    let mut out = MemorySink::new(alloc, room, Row::new(alloc))?;
    let came = machine.run(alloc, &mut input, &mut out) == wanted.0;
    let taken = machine.report().turns;
    Ok(
        came && out.bytes() == wanted.1
            && taken == wanted.2
            && stays(alloc, &mut machine, &mut input, wanted.0)?,
    )
}

/// Whether a machine answers this to one more step, which puts nothing.
fn stays(
    alloc: Global,
    machine: &mut Machine,
    input: &mut SureSource,
    wanted: Result<End, StepFault>,
) -> Result<bool, Fail> {
    let mut out = MemorySink::new(alloc, 8, Row::new(alloc))?;
    let answer = machine.step(alloc, input, &mut out);
    Ok(answer == wanted.map(State::Ended) && out.bytes().is_empty())
}

#[test]
fn a_call_puts_and_gives(rt: HostRuntime) -> Result<(), Fail> {
    let alloc = rt.alloc();
    let wanted = (Ok(End::Done(7)), b"A".as_slice(), 1);
    assert!(rt; comes_to(alloc, calling(alloc)?, 3, b"", 8, wanted)?);
    Ok(())
}

#[test]
fn a_call_needs_a_turn(rt: HostRuntime) -> Result<(), Fail> {
    let alloc = rt.alloc();
    let wanted = (Ok(End::TurnsSpent), b"".as_slice(), 0);
    assert!(rt; comes_to(alloc, calling(alloc)?, 0, b"", 8, wanted)?);
    Ok(())
}

#[test]
fn a_loop_gets_bytes_up_to_the_end(rt: HostRuntime) -> Result<(), Fail> {
    let alloc = rt.alloc();
    let wanted = (Ok(End::Done(-1)), b"ab".as_slice(), 3);
    assert!(rt; comes_to(alloc, copying(alloc)?, 3, b"ab", 8, wanted)?);
    Ok(())
}

#[test]
fn a_counted_loop_takes_no_turn(rt: HostRuntime) -> Result<(), Fail> {
    let alloc = rt.alloc();
    let wanted = (Ok(End::Done(2)), [0, 1].as_slice(), 0);
    assert!(rt; comes_to(alloc, counting(alloc)?, 0, b"", 8, wanted)?);
    Ok(())
}

#[test]
fn a_halt_ends_a_run(rt: HostRuntime) -> Result<(), Fail> {
    let alloc = rt.alloc();
    let wanted = (Ok(End::Halt(1, 2, 3)), b"".as_slice(), 0);
    assert!(rt; comes_to(alloc, with(alloc, Stmt::Halt(1, 2, 3))?, 9, b"", 8, wanted)?);
    Ok(())
}

#[test]
fn an_undefined_case_ends_a_run(rt: HostRuntime) -> Result<(), Fail> {
    let alloc = rt.alloc();
    let unwritten = Stmt::Return(Some(Expr::Read(Slot::Local(0), true)));
    let wanted = (Ok(End::Stuck(0)), b"".as_slice(), 0);
    assert!(rt; comes_to(alloc, with(alloc, unwritten)?, 9, b"", 8, wanted)?);
    Ok(())
}

#[test]
fn a_refused_put_is_told_again(rt: HostRuntime) -> Result<(), Fail> {
    let alloc = rt.alloc();
    let wanted = (Err(StepFault::Sink), b"".as_slice(), 1);
    assert!(rt; comes_to(alloc, calling(alloc)?, 3, b"", 0, wanted)?);
    Ok(())
}
