ghost use Rattle.std.specs.Prelude.{◌≡◌, ◌-◌, IfOk, Ok, None};
ghost use Rattle.sl_outside.specs.Sink.{sink_state};
ghost use Rattle.sl_outside.specs.Source.{source_state};
ghost use Rattle.c_tree.specs.Meaning.{c_run};
ghost use Rattle.c_machine.specs.Meaning.{program_run};
ghost use Rattle.c_machine.specs.Outside.{outside};
ghost use Rattle.c_machine.specs.Ran.{Opened, Runs, Steps, stands_after};

use crate::configuration::Configuration;
use crate::ending::{End, State, StepFault};
use crate::program::Program;
use crate::resolving::resolve;
use c_rules::Checked;
use sl_outside::{Sink, Source};
use sl_text::Mem;
use std::alloc::Global;

/// Where a machine stands: before a step, at an end, or at a fault.
#[derive(Clone, Copy, Debug, PartialEq, Eq)]
enum Standing {
    Going,
    Ended(End),
    Failed(StepFault),
}

/// What a run has taken so far: its turns, each the beginning of a round of a loop or of a call.
#[derive(Clone, Copy, Debug, PartialEq, Eq)]
pub struct Report {
    pub turns: u64,
}

/// A run of a resolved program, step by step. At an end or a fault it stays: each further step answers it again, and changes nothing.
#[derive(Drop)]
pub struct Machine {
    at: Configuration,
    turns: u64,
    standing: Standing,
}

impl Machine {
    /// A machine that is to run a checked file, in at most so many turns. The error comes also where the file has 2^32 globals or
    /// functions, or more, or one of its functions so many parameters or variables.
    pub fn open(alloc: Global, file: Checked, turns: u64) -> Result<Machine, Mem>
        ensures { IfOk result (λ machine. Opened (λ input. c_run file.file None input turns) turns machine) }
    {
        let program = resolve(alloc, file.file())?;
        Machine::begin(alloc, program, turns)
    }

    /// A machine that is to run a resolved program, in at most so many turns.
    pub fn begin(alloc: Global, program: Program, turns: u64) -> Result<Machine, Mem>
        ensures { IfOk result (λ machine. Opened (λ input. program_run program input turns) turns machine) }
    {
        let mut at = Configuration::new(alloc, program, turns)?;
        let standing = standing_after(&Ok(at.start(alloc)?));
        Ok(Machine {
            at,
            turns,
            standing,
        })
    }

    /// Does one statement, or begins one turn, round or call, or ends a block, a loop or a call.
    pub fn step<S: Source, K: Sink>(
        &mut self,
        alloc: Global,
        input: &mut S,
        out: &mut K,
    ) -> Result<State, StepFault>
        ensures { Steps self.old.standing self.old
            (outside (source_state (S.left input.old) (S.faults input.old) (S.calls input.old)) (sink_state (K.held out.old) (K.faults out.old) (K.calls out.old)))
            self.new
            (outside (source_state (S.left input.new) (S.faults input.new) (S.calls input.new)) (sink_state (K.held out.new) (K.faults out.new) (K.calls out.new)))
            result }
    {
        match self.standing {
            Standing::Ended(end) => Ok(State::Ended(end)),
            Standing::Failed(fault) => Err(fault),
            Standing::Going => {
                let answer = self.at.advance(alloc, input, out);
                self.standing = standing_after(&answer);
                answer
            }
        }
    }

    /// Steps to the end.
    pub fn run<S: Source, K: Sink>(
        &mut self,
        alloc: Global,
        input: &mut S,
        out: &mut K,
    ) -> Result<End, StepFault>
        ensures { Runs self.old.standing self.old
            (outside (source_state (S.left input.old) (S.faults input.old) (S.calls input.old)) (sink_state (K.held out.old) (K.faults out.old) (K.calls out.old)))
            self.new
            (outside (source_state (S.left input.new) (S.faults input.new) (S.calls input.new)) (sink_state (K.held out.new) (K.faults out.new) (K.calls out.new)))
            result }
    {
        match self.standing {
            Standing::Ended(end) => Ok(end),
            Standing::Failed(fault) => Err(fault),
            Standing::Going => match self.at.run(alloc, input, out) {
                Ok(end) => {
                    self.standing = Standing::Ended(end);
                    Ok(end)
                }
                Err(fault) => {
                    self.standing = Standing::Failed(fault);
                    Err(fault)
                }
            },
        }
    }

    /// The turns taken so far. A turn that was to be taken where memory ran out isn't among them.
    pub fn report(&self) -> Report
        ensures { result.turns ≡ self.now.turns - self.now.at.left }
    {
        Report {
            turns: self.turns.saturating_sub(self.at.left),
        }
    }
}

/// Where a machine stands after a step that answered so.
fn standing_after(answer: &Result<State, StepFault>) -> Standing
    ensures { result ≡ stands_after answer.now }
{
    match answer {
        Ok(State::Going) => Standing::Going,
        Ok(State::Ended(end)) => Standing::Ended(*end),
        Err(fault) => Standing::Failed(*fault),
    }
}
