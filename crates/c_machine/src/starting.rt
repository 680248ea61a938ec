ghost use Rattle.std.specs.Prelude.{◌≡◌, IfOk, None, replicate};
ghost use Rattle.c_machine.specs.Ran.{Started, fresh};

use crate::configuration::{Configuration, Entry, Flow, frame};
use crate::ending::State;
use crate::memory::Memory;
use crate::program::Program;
use crate::stack::Stack;
use sl_text::Row;
use std::alloc::{AllocError, Global};

impl Configuration {
    /// A configuration before the first function begins.
    pub fn new(alloc: Global, program: Program, turns: u64) -> Result<Configuration, AllocError>
        ensures { IfOk result (λ m. m ≡ fresh program turns) }
    {
        let globals = unwritten(alloc, program.globals)?;
        let frames = Stack::new(alloc);
        Ok(Configuration {
            program,
            memory: Memory { globals, frames },
            control: Stack::new(alloc),
            flow: Flow::Next,
            gives: false,
            at_end: false,
            left: turns,
        })
    }

    /// The first function begins, which takes no turn.
    pub fn start(&mut self, alloc: Global) -> Result<State, AllocError>
        requires { self.old ≡ fresh self.old.program self.old.left }
        ensures { IfOk result (λ state. Started state self.old.program self.old.left self.new) }
    {
        let Some(number) = self.program.start else {
            return Ok(self.stuck());
        };
        let Some(function) = self.program.functions.get(number as usize) else {
            return Ok(self.stuck());
        };
        self.gives = function.gives;
        let body = function.body.share()?;
        let frame = frame(number, Row::new(alloc), function.vars)?;
        self.memory.frames.push(frame)?;
        self.control.push(Entry::Rest(body, 0))?;
        Ok(State::Going)
    }
}

/// So many variables that are unwritten.
fn unwritten(alloc: Global, count: u32) -> Result<Row<Option<i128>>, AllocError>
    ensures { IfOk result (λ cells. cells ≡ replicate count None) }
{
    let mut cells = Row::new(alloc);
    for _ in 0..count {
        cells.push(None)?;
    }
    Ok(cells)
}
