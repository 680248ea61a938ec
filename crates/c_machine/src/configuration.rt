ghost use Rattle.std.specs.Prelude.{◌≡◌, [], ◌∷◌, ◌+◌, ◌-◌, ◌<◌, ◌++◌, ℕ, ℤ, List, Ok, Some, None, IfOk, OnOk, MatchOption, map, not, replicate, option_map, if◌then◌else◌};
ghost use Rattle.sl_run.specs.Run.{pure};
ghost use Rattle.sl_outside.specs.Sink.{SinkState, sink_state};
ghost use Rattle.sl_outside.specs.Source.{SourceState, source_state};
ghost use Rattle.sl_run.specs.Statements.{after_round, gotten};
ghost use Rattle.c_tree.specs.Meaning.{is_zero};
ghost use Rattle.c_machine.specs.declared.configuration.Entry.TheVariants.{Rest, Again, Rounds, Back};
ghost use Rattle.c_machine.specs.declared.configuration.Flow.TheVariants.{Next};
ghost use Rattle.c_machine.specs.declared.ending.End.TheVariants.{Stuck};
ghost use Rattle.c_machine.specs.declared.ending.State.TheVariants.{Ended};
ghost use Rattle.c_machine.specs.declared.program.Stmt.TheVariants as stmt;
ghost use Rattle.c_machine.specs.State.{owner_of};
ghost use Rattle.c_machine.specs.Meaning.{given as given_by, stuck as stuck_case};
ghost use Rattle.c_machine.specs.Resume.{state_of};
ghost use Rattle.c_machine.specs.Outside.{outside, taken};
ghost use Rattle.c_machine.specs.Stepped.{ahead, ahead_of, entering, flow_of, ready, weight, with_control, with_turns, work, Silent, Stepped};

use crate::ending::{End, State, StepFault};
use crate::memory::Memory;
use crate::program::{Expr, Frame, Program, Slot, Stmt};
use crate::stack::Stack;
use crate::valuing::{arguments, value};
use sl_outside::{Sink, Source};
use sl_text::{Row, Shared};
use std::alloc::{AllocError, Global};

/// What is still to be done, from the top of the stack.
#[derive(Drop)]
pub enum Entry {
    /// The rest of a block, from a place on.
    Rest(Shared<Row<Stmt>>, usize),
    /// A loop to go round again.
    Again(Shared<Row<Stmt>>),
    /// A counted loop: its variable, the next count and the end, and its statements.
    Rounds(Slot, u32, u32, Shared<Row<Stmt>>),
    /// The end of a call: where its result goes, and whether it has one.
    Back(Option<Slot>, bool),
}

/// How the last statement was left: by the next one, by a break, or by a return.
#[derive(Clone, Copy, Debug, PartialEq, Eq)]
pub enum Flow {
    Next,
    Broke,
    Returned(Option<i128>),
}

/// Where a run has come to: its program, its memory, what is still to be done, how the last statement was left, whether the first
/// function has a result, whether the input came to its end, and how many turns are left.
#[derive(Drop)]
pub struct Configuration {
    pub program: Program,
    pub memory: Memory,
    pub control: Stack<Entry>,
    pub flow: Flow,
    pub gives: bool,
    pub at_end: bool,
    pub left: u64,
}

impl Configuration {
    /// Does one statement, or begins one turn, round or call, or ends a block, a loop or a call.
    pub fn advance<S: Source, K: Sink>(
        &mut self,
        alloc: Global,
        input: &mut S,
        out: &mut K,
    ) -> Result<State, StepFault>
        ensures { Stepped result (ahead self.old) (work self.old.control) self.old.left self.old.at_end self.new
            (outside (source_state (S.left input.old) (S.faults input.old) (S.calls input.old)) (sink_state (K.held out.old) (K.faults out.old) (K.calls out.old)))
            (outside (source_state (S.left input.new) (S.faults input.new) (S.calls input.new)) (sink_state (K.held out.new) (K.faults out.new) (K.calls out.new))) }
    {
        match self.control.pop() {
            None => Ok(self.finish()),
            Some(Entry::Rest(block, at)) => self.rest(alloc, block, at, input, out),
            Some(Entry::Again(stmts)) => self.again(stmts),
            Some(Entry::Rounds(slot, next, end, stmts)) => self.rounds(slot, next, end, stmts),
            Some(Entry::Back(target, gives)) => Ok(self.back(target, gives)),
        }
    }

    /// The first function comes to its end.
    fn finish(&mut self) -> State
        requires { self.old.control ≡ [] }
        ensures { (bound : ℕ) → Silent (Ok result) (ahead self.old) bound self.old.left self.old.at_end self.new }
    {
        let Some(given) = given(self.gives, self.flow) else {
            return self.stuck();
        };
        match given {
            Some(value) => {
                self.memory.leave();
                State::Ended(End::Done(value))
            }
            None => self.stuck(),
        }
    }

    /// A function comes to its end that was called.
    fn back(&mut self, target: Option<Slot>, gives: bool) -> State
        ensures { Silent (Ok result) (ahead (with_control self.old (Back target gives ∷ self.old.control))) (work (Back target gives ∷ self.old.control)) self.old.left self.old.at_end self.new }
    {
        let Some(given) = given(gives, self.flow) else {
            return self.stuck();
        };
        self.memory.leave();
        self.flow = Flow::Next;
        match (target, given) {
            (None, _) => State::Going,
            (Some(slot), Some(number)) => {
                self.memory.store(slot, number);
                State::Going
            }
            (Some(_), None) => self.stuck(),
        }
    }

    /// A loop is come to: its next turn begins, unless its last round left it.
    fn again(&mut self, stmts: Shared<Row<Stmt>>) -> Result<State, StepFault>
        ensures { Silent result (ahead (with_control self.old (Again stmts ∷ self.old.control))) (work (Again stmts ∷ self.old.control)) self.old.left self.old.at_end self.new }
    {
        if let Some(flow) = after_round(self.flow) {
            self.flow = flow;
            return Ok(State::Going);
        }
        if self.left == 0 {
            return Ok(State::Ended(End::TurnsSpent));
        }
        let round = stmts.share()?;
        self.go_round(Entry::Again(stmts), round)?;
        self.left -= 1;
        Ok(State::Going)
    }

    /// A counted loop is come to: its next round begins, unless its last round left it or was the last of all.
    fn rounds(
        &mut self,
        slot: Slot,
        next: u32,
        end: u32,
        stmts: Shared<Row<Stmt>>,
    ) -> Result<State, StepFault>
        ensures { Silent result (ahead (with_control self.old (Rounds slot next end stmts ∷ self.old.control))) (work (Rounds slot next end stmts ∷ self.old.control)) self.old.left self.old.at_end self.new }
    {
        if let Some(flow) = after_round(self.flow) {
            self.flow = flow;
            return Ok(State::Going);
        }
        self.memory.store(slot, i128::from(next));
        if next >= end {
            return Ok(State::Going);
        }
        let round = stmts.share()?;
        self.go_round(Entry::Rounds(slot, next + 1, end, stmts), round)?;
        Ok(State::Going)
    }

    /// Statements are to be done, and after them a loop is come to again.
    fn go_round(&mut self, again: Entry, stmts: Shared<Row<Stmt>>) -> Result<(), AllocError>
        ensures stacked { OnOk result (self.new ≡ with_control self.old (Rest stmts 0 ∷ again ∷ self.old.control)) }
        ensures turns { self.new.left ≡ self.old.left }
    {
        self.control.push(again)?;
        self.control.push(Entry::Rest(stmts, 0))?;
        Ok(())
    }

    /// The rest of a block is come to.
    fn rest<S: Source, K: Sink>(
        &mut self,
        alloc: Global,
        block: Shared<Row<Stmt>>,
        at: usize,
        input: &mut S,
        out: &mut K,
    ) -> Result<State, StepFault>
        ensures { Stepped result (ahead (with_control self.old (Rest block at ∷ self.old.control))) (work (Rest block at ∷ self.old.control)) self.old.left self.old.at_end self.new
            (outside (source_state (S.left input.old) (S.faults input.old) (S.calls input.old)) (sink_state (K.held out.old) (K.faults out.old) (K.calls out.old)))
            (outside (source_state (S.left input.new) (S.faults input.new) (S.calls input.new)) (sink_state (K.held out.new) (K.faults out.new) (K.calls out.new))) }
    {
        let Flow::Next = self.flow else {
            return Ok(State::Going);
        };
        let stmts = block.get().as_slice();
        if at >= stmts.len() {
            return Ok(State::Going);
        }
        self.control.push(Entry::Rest(block.share()?, at + 1))?;
        self.execute(alloc, &stmts[at], input, out)
    }

    /// A statement is done.
    fn execute<S: Source, K: Sink>(
        &mut self,
        alloc: Global,
        stmt: &Stmt,
        input: &mut S,
        out: &mut K,
    ) -> Result<State, StepFault>
        requires { self.old.flow ≡ Next }
        ensures { Stepped result (ahead_of stmt.now self.old) (weight stmt.now + work self.old.control) self.old.left self.old.at_end self.new
            (outside (source_state (S.left input.old) (S.faults input.old) (S.calls input.old)) (sink_state (K.held out.old) (K.faults out.old) (K.calls out.old)))
            (outside (source_state (S.left input.new) (S.faults input.new) (S.calls input.new)) (sink_state (K.held out.new) (K.faults out.new) (K.calls out.new))) }
    {
        match stmt {
            Stmt::Assign(slot, e) => Ok(self.assign(*slot, e)),
            Stmt::Call(target, arguments, function) => {
                self.call(alloc, *target, arguments.as_slice(), *function)
            }
            Stmt::Inline(target, arguments, vars, gives, stmts) => {
                let body = stmts.share()?;
                self.call_inline(alloc, *target, arguments.as_slice(), *vars, *gives, body)
            }
            Stmt::Undefined => Ok(self.stuck()),
            Stmt::If(test, chosen, other) => self.choose(test, chosen, other),
            Stmt::Loop(stmts) => self.begin_loop(stmts),
            Stmt::Count(slot, count, stmts) => self.begin_rounds(*slot, *count, stmts),
            Stmt::Break => {
                self.flow = Flow::Broke;
                Ok(State::Going)
            }
            Stmt::Return(value) => Ok(self.return_with(value)),
            Stmt::Put(e) => self.put(e, out),
            Stmt::Get(slot) => self.get(*slot, input),
            Stmt::Halt(kind, file, line) => Ok(State::Ended(End::Halt(*kind, *file, *line))),
        }
    }

    /// An undefined case.
    pub fn stuck(&self) -> State
        ensures { result ≡ Ended (Stuck (owner_of self.now.memory.frames)) }
    {
        State::Ended(End::Stuck(self.memory.owner()))
    }

    /// The value of an expression is stored.
    fn assign(&mut self, slot: Slot, e: &Expr) -> State
        requires { self.old.flow ≡ Next }
        ensures { Silent (Ok result) (ahead_of (stmt.Assign slot e.now) self.old) (weight (stmt.Assign slot e.now) + work self.old.control) self.old.left self.old.at_end self.new }
    {
        if let Slot::Undeclared = slot {
            return self.stuck();
        }
        match value(e, &self.memory) {
            Some(word) => {
                self.memory.store(slot, word.number);
                State::Going
            }
            None => self.stuck(),
        }
    }

    /// One of two blocks is to be done.
    fn choose(
        &mut self,
        test: &Expr,
        chosen: &Shared<Row<Stmt>>,
        other: &Shared<Row<Stmt>>,
    ) -> Result<State, StepFault>
        requires { self.old.flow ≡ Next }
        ensures { Silent result (ahead_of (stmt.If test.now chosen.now other.now) self.old) (weight (stmt.If test.now chosen.now other.now) + work self.old.control) self.old.left self.old.at_end self.new }
    {
        let Some(word) = value(test, &self.memory) else {
            return Ok(self.stuck());
        };
        let block = one_of(word.number, chosen, other).share()?;
        self.control.push(Entry::Rest(block, 0))?;
        Ok(State::Going)
    }

    /// A loop is to be come to.
    fn begin_loop(&mut self, stmts: &Shared<Row<Stmt>>) -> Result<State, StepFault>
        requires { self.old.flow ≡ Next }
        ensures { Silent result (ahead_of (stmt.Loop stmts.now) self.old) (weight (stmt.Loop stmts.now) + work self.old.control) self.old.left self.old.at_end self.new }
    {
        let stmts = stmts.share()?;
        self.control.push(Entry::Again(stmts))?;
        Ok(State::Going)
    }

    /// A counted loop is to be come to, with its first count.
    fn begin_rounds(
        &mut self,
        slot: Slot,
        count: u32,
        stmts: &Shared<Row<Stmt>>,
    ) -> Result<State, StepFault>
        requires { self.old.flow ≡ Next }
        ensures { Silent result (ahead_of (stmt.Count slot count stmts.now) self.old) (weight (stmt.Count slot count stmts.now) + work self.old.control) self.old.left self.old.at_end self.new }
    {
        if let Slot::Undeclared = slot {
            return Ok(self.stuck());
        }
        let stmts = stmts.share()?;
        self.control.push(Entry::Rounds(slot, 0, count, stmts))?;
        Ok(State::Going)
    }

    /// A function is left, with a result or without one.
    fn return_with(&mut self, result_of: &Option<Expr>) -> State
        requires { self.old.flow ≡ Next }
        ensures { Silent (Ok result) (ahead_of (stmt.Return result_of.now) self.old) (weight (stmt.Return result_of.now) + work self.old.control) self.old.left self.old.at_end self.new }
    {
        let Some(e) = result_of else {
            self.flow = Flow::Returned(None);
            return State::Going;
        };
        match value(e, &self.memory) {
            Some(word) => {
                self.flow = Flow::Returned(Some(word.number));
                State::Going
            }
            None => self.stuck(),
        }
    }

    /// A number from 0 to 255 is put as a byte, and every other is undefined.
    fn put<K: Sink>(&mut self, e: &Expr, out: &mut K) -> Result<State, StepFault>
        requires { self.old.flow ≡ Next }
        ensures { (source : SourceState) → Stepped result (ahead_of (stmt.Put e.now) self.old) (weight (stmt.Put e.now) + work self.old.control) self.old.left self.old.at_end self.new
            (outside source (sink_state (K.held out.old) (K.faults out.old) (K.calls out.old)))
            (outside source (sink_state (K.held out.new) (K.faults out.new) (K.calls out.new))) }
    {
        let Some(word) = value(e, &self.memory) else {
            return Ok(self.stuck());
        };
        let Ok(byte) = u8::try_from(word.number) else {
            return Ok(self.stuck());
        };
        match out.put(&[byte]) {
            Ok(()) => Ok(State::Going),
            Err(_) => Err(StepFault::Sink),
        }
    }

    /// The next byte of the input is asked for and stored, or -1 at its end. An input that came to its end stays there, whatever the
    /// source answers then.
    fn get<S: Source>(&mut self, slot: Slot, input: &mut S) -> Result<State, StepFault>
        requires { self.old.flow ≡ Next }
        ensures { (sink : SinkState) → Stepped result (ahead_of (stmt.Get slot) self.old) (weight (stmt.Get slot) + work self.old.control) self.old.left self.old.at_end self.new
            (outside (source_state (S.left input.old) (S.faults input.old) (S.calls input.old)) sink)
            (outside (source_state (S.left input.new) (S.faults input.new) (S.calls input.new)) sink) }
    {
        if let Slot::Undeclared = slot {
            return Ok(self.stuck());
        }
        match input.next() {
            Ok(answer) => {
                let answer = taken(self.at_end, answer);
                self.at_end = answer.is_none();
                self.memory.store(slot, gotten(answer));
                Ok(State::Going)
            }
            Err(_) => Err(StepFault::Input),
        }
    }

    /// A function is called that isn't inline, which takes a turn.
    fn call(
        &mut self,
        alloc: Global,
        target: Option<Slot>,
        arguments: &[Expr],
        function: u32,
    ) -> Result<State, StepFault>
        requires { self.old.flow ≡ Next }
        ensures { Silent result (ahead_of (stmt.Call target arguments.now function) self.old) (weight (stmt.Call target arguments.now function) + work self.old.control) self.old.left self.old.at_end self.new }
    {
        let Some(cells) = self.cells_for(alloc, target, arguments)? else {
            return Ok(self.stuck());
        };
        if self.left == 0 {
            return Ok(State::Ended(End::TurnsSpent));
        }
        self.enter(target, function, cells)
    }

    /// A function begins, which takes a turn. No turn is taken where memory runs out.
    fn enter(
        &mut self,
        target: Option<Slot>,
        number: u32,
        cells: Row<Option<i128>>,
    ) -> Result<State, StepFault>
        requires next { self.old.flow ≡ Next }
        requires turn { 0 < self.old.left }
        ensures { (numbers : List ℤ) → cells ≡ map Some numbers → (bound : ℕ) → Silent result (entering target number numbers (with_turns (self.old.left - 1) self.old)) bound self.old.left self.old.at_end self.new }
    {
        let Some(function) = self.program.functions.get(number as usize) else {
            self.left -= 1;
            return Ok(self.stuck());
        };
        let gives = function.gives;
        let body = function.body.share()?;
        let frame = frame(number, cells, function.vars)?;
        self.begin(frame, target, gives, body)?;
        self.left -= 1;
        Ok(State::Going)
    }

    /// An inline function is called.
    fn call_inline(
        &mut self,
        alloc: Global,
        target: Option<Slot>,
        arguments: &[Expr],
        vars: u32,
        gives: bool,
        body: Shared<Row<Stmt>>,
    ) -> Result<State, StepFault>
        requires { self.old.flow ≡ Next }
        ensures { Silent result (ahead_of (stmt.Inline target arguments.now vars gives body) self.old) (weight (stmt.Inline target arguments.now vars gives body) + work self.old.control) self.old.left self.old.at_end self.new }
    {
        let Some(cells) = self.cells_for(alloc, target, arguments)? else {
            return Ok(self.stuck());
        };
        let frame = frame(self.memory.owner(), cells, vars)?;
        self.begin(frame, target, gives, body)?;
        Ok(State::Going)
    }

    /// The arguments of a call, as its frame holds them, where its target is declared and all have a value.
    fn cells_for(
        &self,
        alloc: Global,
        target: Option<Slot>,
        es: &[Expr],
    ) -> Result<Option<Row<Option<i128>>>, AllocError>
        ensures { IfOk result (λ cells. cells ≡ option_map (map Some) (ready target es.now (state_of self.now.memory))) }
    {
        if let Some(Slot::Undeclared) = target {
            return Ok(None);
        }
        arguments(alloc, es, &self.memory)
    }

    /// A frame begins, with the statements of its function to be done, and the end of the call after them.
    fn begin(
        &mut self,
        frame: Frame,
        target: Option<Slot>,
        gives: bool,
        body: Shared<Row<Stmt>>,
    ) -> Result<(), AllocError>
        ensures stacked { OnOk result (self.new ≡ record self.old { memory = record { globals = self.old.memory.globals; frames = frame ∷ self.old.memory.frames }; control = Rest body 0 ∷ Back target gives ∷ self.old.control }) }
        ensures turns { self.new.left ≡ self.old.left }
    {
        self.memory.frames.push(frame)?;
        self.control.push(Entry::Back(target, gives))?;
        self.control.push(Entry::Rest(body, 0))?;
        Ok(())
    }
}

/// What a function gives whose statements were left so, if it isn't stuck.
fn given(gives: bool, flow: Flow) -> Option<Option<i128>>
    ensures { MatchOption result (given_by gives (flow_of flow) ≡ stuck_case) (λ value. given_by gives (flow_of flow) ≡ pure value) }
{
    match flow {
        Flow::Returned(value) => Some(value),
        Flow::Broke => None,
        Flow::Next if gives => None,
        Flow::Next => Some(None),
    }
}

/// How a loop is left after a round that was left so, or nothing where it goes round again.
fn after_round(flow: Flow) -> Option<Flow>
    ensures { MatchOption result (flow ≡ Next) (λ next. after_round (flow_of flow) ≡ Some (flow_of next)) }
{
    match flow {
        Flow::Next => None,
        Flow::Broke => Some(Flow::Next),
        Flow::Returned(value) => Some(Flow::Returned(value)),
    }
}

/// What an answer of the source counts as, where the input came to its end before or didn't.
fn taken(at_end: bool, answer: Option<u8>) -> Option<u8>
    ensures { result ≡ taken at_end answer }
{
    if at_end { None } else { answer }
}

/// The number of a byte, or -1 at the end of the input.
fn gotten(answer: Option<u8>) -> i128
    ensures { result ≡ gotten answer }
{
    match answer {
        Some(byte) => i128::from(byte),
        None => -1,
    }
}

/// The first block where the number isn't 0, and else the second one.
fn one_of<'a>(
    number: i128,
    chosen: &'a Shared<Row<Stmt>>,
    other: &'a Shared<Row<Stmt>>,
) -> &'a Shared<Row<Stmt>>
    ensures { result.now ≡ if not (is_zero number) then chosen.now else other.now }
{
    if number != 0 { chosen } else { other }
}

/// The frame of a function with these arguments, and so many variables behind them that are unwritten.
pub fn frame(owner: u32, cells: Row<Option<i128>>, vars: u32) -> Result<Frame, AllocError>
    ensures { IfOk result (λ frame. frame ≡ record { owner = owner; cells = cells ++ replicate vars None }) }
{
    let mut cells = cells;
    for _ in 0..vars {
        cells.push(None)?;
    }
    Ok(Frame { owner, cells })
}
