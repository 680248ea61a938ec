ghost use Rattle.std.specs.Prelude.{◌≡◌, Some, is_err};
ghost use Rattle.sl_outside.specs.Counts.{HasCause, one_more};
ghost use Rattle.sl_outside.specs.Source.{NextGives};
ghost use Rattle.sl_outside.specs.Numbered.{NextAnswers};

use super::calls::Calls;
use crate::{Failed, Source};
use sl_text::Row;
use std::marker::Model;

/// Bytes in memory as a source that never fails.
#[derive(Drop)]
pub struct SureSource {
    bytes: Row<u8>,
    at: usize,
    calls: u64,
}

impl Model for SureSource {
    ghost use Rattle.std.specs.Prelude.{drop, length, ◌≤◌};
    ghost use Rattle.sl_outside.specs.Entries.{SureSourceState};

    ghost Value = { SureSourceState };

    ghost view = { λ s. record { left = drop s.at s.bytes; calls = s.calls } };

    ghost invariant = { λ s. s.at ≤ length s.bytes };
}

impl SureSource {
    /// A source with these bytes to come.
    pub fn new(bytes: Row<u8>) -> SureSource
        ensures { result ≡ record { left = bytes; calls = 0 } }
    {
        SureSource {
            bytes,
            at: 0,
            calls: 0,
        }
    }
}

impl Source for SureSource {
    ghost use Rattle.std.specs.Prelude.{Some};

    ghost left = { λ s. Some s.left };

    ghost faults = { λ _. 0 };

    ghost calls = { λ s. s.calls };

    fn next(&mut self) -> Result<Option<u8>, Failed> {
        self.calls = self.calls.saturating_add(1);
        if self.at == self.bytes.len() {
            return Ok(None);
        }
        let next = self.bytes.as_slice()[self.at];
        self.at += 1;
        Ok(Some(next))
    }
}

/// Bytes in memory as a source. Its calls are numbered from 1, and it fails exactly at the numbers that it was given; then it
/// takes no byte.
#[derive(Drop)]
pub struct MemorySource {
    source: SureSource,
    calls: Calls,
}

impl Model for MemorySource {
    ghost use Rattle.sl_outside.specs.Numbered.{MemorySourceState};

    ghost Value = { MemorySourceState };

    ghost view = { λ s. record { left = s.source.left; failing = s.calls.failing; calls = s.calls.count; faults = s.calls.faults } };
}

impl MemorySource {
    /// A source with these bytes to come, that fails at the calls with these numbers.
    pub fn new(bytes: Row<u8>, failing: Row<u64>) -> MemorySource
        ensures { result ≡ record { left = bytes; failing = failing; calls = 0; faults = 0 } }
    {
        MemorySource {
            source: SureSource::new(bytes),
            calls: Calls::new(failing),
        }
    }
}

impl Source for MemorySource {
    ghost use Rattle.std.specs.Prelude.{Some};

    ghost left = { λ s. Some s.left };

    ghost faults = { λ s. s.faults };

    ghost calls = { λ s. s.calls };

    fn next(&mut self) -> Result<Option<u8>, Failed>
        ensures next { NextGives (Some self.old.left) (Some self.new.left) result }
        ensures cause { HasCause (is_err result) self.old.faults self.new.faults }
        ensures counted { self.new.calls ≡ one_more self.old.calls }
        ensures answers { NextAnswers self.old self.new result }
    {
        if self.calls.next_fails() {
            return Err(Failed);
        }
        self.source.next()
    }
}
