ghost use Rattle.std.specs.Prelude.{◌≡◌, [], IfOk, Some, is_err};
ghost use Rattle.sl_outside.specs.Counts.{HasCause, one_more};
ghost use Rattle.sl_outside.specs.Sink.{PutGives};
ghost use Rattle.sl_outside.specs.Numbered.{PutAnswers};

use super::calls::Calls;
use crate::{Failed, Sink};
use sl_text::{Mem, Row};
use std::alloc::Global;
use std::marker::Model;

/// A sink over memory with room for so many bytes. Its calls are numbered from 1, and it fails exactly at the numbers that it
/// was given and where a piece doesn't fit; then it takes nothing of the piece.
#[derive(Drop)]
pub struct MemorySink {
    bytes: Vec<u8>,
    room: u32,
    calls: Calls,
}

impl Model for MemorySink {
    ghost use Rattle.std.specs.Prelude.{◌≤◌, length, vec_capacity};
    ghost use Rattle.sl_outside.specs.Numbered.{MemorySinkState};

    ghost Value = { MemorySinkState };

    ghost view = { λ s. record { held = s.bytes.items; room = s.room; failing = s.calls.failing; calls = s.calls.count; faults = s.calls.faults } };

    ghost invariant = { λ s. (s.room ≤ vec_capacity s.bytes) × (length s.bytes.items ≤ s.room) };
}

impl MemorySink {
    /// A sink that holds nothing, and takes `room` bytes at the most. The room is taken here, so `put` takes no memory.
    pub fn new(alloc: Global, room: u32, failing: Row<u64>) -> Result<MemorySink, Mem>
        ensures { IfOk result (λ s. s ≡ record { held = []; room = room; failing = failing; calls = 0; faults = 0 }) }
    {
        let bytes = Vec::with_capacity(alloc, room as usize)?;
        Ok(MemorySink {
            bytes,
            room,
            calls: Calls::new(failing),
        })
    }

    /// What it took so far.
    pub fn bytes(&self) -> &[u8]
        ensures { result.now ≡ self.now.held }
    {
        self.bytes.as_slice()
    }
}

impl Sink for MemorySink {
    ghost use Rattle.std.specs.Prelude.{Some};

    ghost held = { λ s. Some s.held };

    ghost faults = { λ s. s.faults };

    ghost calls = { λ s. s.calls };

    fn put(&mut self, bytes: &[u8]) -> Result<(), Failed>
        ensures taken { PutGives (Some self.old.held) (Some self.new.held) bytes.now result }
        ensures cause { HasCause (is_err result) self.old.faults self.new.faults }
        ensures counted { self.new.calls ≡ one_more self.old.calls }
        ensures answers { PutAnswers self.old self.new bytes.now result }
    {
        if self.calls.next_fails() {
            return Err(Failed);
        }
        let room = self.room as usize - self.bytes.len();
        if room < bytes.len() {
            self.calls.fault();
            return Err(Failed);
        }
        match self.bytes.extend_from_slice(bytes) {
            Ok(()) => Ok(()),
            // never: `new` took the room
            Err(_) => Err(Failed),
        }
    }
}
