ghost use Rattle.std.specs.Prelude.{◌≡◌, Some, slice_set};
ghost use Rattle.c_machine.specs.State.{owner_of, cells_of, with_cells, number_at, held, with_held, without_frame};
ghost use Rattle.c_machine.specs.Resume.{state_of};

use crate::program::{Frame, Slot};
use crate::stack::Stack;
use sl_text::Row;
use std::alloc::{AllocError, Global};

/// What the globals hold, and the frames of the functions that have begun and not yet ended.
#[derive(Drop)]
pub struct Memory {
    pub globals: Row<Option<i128>>,
    pub frames: Stack<Frame>,
}

impl Memory {
    /// What a variable holds, where it was written.
    pub fn held(&self, slot: Slot) -> Option<i128>
        ensures { result ≡ held slot (state_of self.now) }
    {
        match slot {
            Slot::Local(number) => match self.frames.top() {
                Some(frame) => number_at(frame.cells.as_slice(), number),
                None => None,
            },
            Slot::Global(number) => number_at(self.globals.as_slice(), number),
            Slot::Undeclared => None,
        }
    }

    /// Stores a number in a variable. Where there is no such variable nothing changes.
    pub fn store(&mut self, slot: Slot, number: i128)
        ensures { state_of self.new ≡ with_held slot number (state_of self.old) }
    {
        match slot {
            Slot::Local(at) => write_local(&mut self.frames, at, number),
            Slot::Global(at) => write(&mut self.globals, at, number),
            Slot::Undeclared => {}
        }
    }

    /// The last frame ends.
    pub fn leave(&mut self)
        ensures { state_of self.new ≡ without_frame (state_of self.old) }
    {
        let _ = self.frames.pop();
    }

    /// The number of the function that is told where a case is undefined.
    pub fn owner(&self) -> u32
        ensures { result ≡ owner_of self.now.frames }
    {
        match self.frames.top() {
            Some(frame) => frame.owner,
            None => 0,
        }
    }
}

/// The number that is held in these, where it was written.
fn number_at(cells: &[Option<i128>], at: u32) -> Option<i128>
    ensures { result ≡ number_at cells.now at }
{
    match cells.get(at as usize) {
        Some(held) => *held,
        None => None,
    }
}

/// Writes a number in one of these.
fn write(cells: &mut Row<Option<i128>>, at: u32, number: i128)
    ensures { cells.new ≡ slice_set cells.old at (Some number) }
{
    let at = at as usize;
    if at < cells.len() {
        cells.set(at, Some(number));
    }
}

/// Writes a number in the last frame.
fn write_local(frames: &mut Stack<Frame>, at: u32, number: i128)
    ensures { frames.new ≡ with_cells (slice_set (cells_of frames.old) at (Some number)) frames.old }
{
    let Some(frame) = frames.items.last_mut() else {
        return;
    };
    write(&mut frame.cells, at, number);
}
