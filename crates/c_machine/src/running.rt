ghost use Rattle.sl_outside.specs.Sink.{sink_state};
ghost use Rattle.sl_outside.specs.Source.{source_state};
ghost use Rattle.c_machine.specs.Outside.{outside};
ghost use Rattle.c_machine.specs.Ran.{RanFrom, Turned};
ghost use Rattle.c_machine.specs.Stepped.{ahead};

use crate::configuration::Configuration;
use crate::ending::{End, State, StepFault};
use sl_outside::{Sink, Source};
use std::alloc::Global;

impl Configuration {
    /// Steps to the end.
    pub fn run<S: Source, K: Sink>(
        &mut self,
        alloc: Global,
        input: &mut S,
        out: &mut K,
    ) -> Result<End, StepFault>
        ensures { RanFrom result (ahead self.old) self.old.at_end self.new
            (outside (source_state (S.left input.old) (S.faults input.old) (S.calls input.old)) (sink_state (K.held out.old) (K.faults out.old) (K.calls out.old)))
            (outside (source_state (S.left input.new) (S.faults input.new) (S.calls input.new)) (sink_state (K.held out.new) (K.faults out.new) (K.calls out.new))) }
    {
        loop {
            if let State::Ended(end) = self.to_turn(alloc, input, out)? {
                return Ok(end);
            }
        }
    }

    /// Steps until a turn is taken, or to the end.
    fn to_turn<S: Source, K: Sink>(
        &mut self,
        alloc: Global,
        input: &mut S,
        out: &mut K,
    ) -> Result<State, StepFault>
        ensures { Turned result (ahead self.old) self.old.left self.old.at_end self.new
            (outside (source_state (S.left input.old) (S.faults input.old) (S.calls input.old)) (sink_state (K.held out.old) (K.faults out.old) (K.calls out.old)))
            (outside (source_state (S.left input.new) (S.faults input.new) (S.calls input.new)) (sink_state (K.held out.new) (K.faults out.new) (K.calls out.new))) }
    {
        let left = self.left;
        loop {
            match self.advance(alloc, input, out)? {
                State::Ended(end) => return Ok(State::Ended(end)),
                State::Going => {
                    if self.left != left {
                        return Ok(State::Going);
                    }
                }
            }
        }
    }
}
