ghost use Rattle.std.specs.Prelude.{◌≡◌, MatchBool, true};
ghost use Rattle.sl_outside.specs.Counts.{HasCause, one_more};
ghost use Rattle.sl_outside.specs.Numbered.{next_fails};

use sl_text::Row;

/// The numbers of the calls that are to fail, and how many calls and faults there were. Calls are numbered from 1, and the number
/// 2^64 - 1 is that of every later call too.
#[derive(Drop)]
pub(super) struct Calls {
    failing: Row<u64>,
    count: u64,
    faults: u64,
}

impl Calls {
    /// No calls yet; those with these numbers are to fail.
    pub(super) fn new(failing: Row<u64>) -> Calls
        ensures { result ≡ record { failing = failing; count = 0; faults = 0 } }
    {
        Calls {
            failing,
            count: 0,
            faults: 0,
        }
    }

    /// Counts the next call, and says whether its number is a failing one. Where it is, the fault is counted too.
    pub(super) fn next_fails(&mut self) -> bool
        ensures fails { result ≡ next_fails self.old.failing self.old.count }
        ensures counted { MatchBool result
            (self.new ≡ record self.old { count = one_more self.old.count; faults = one_more self.old.faults })
            (self.new ≡ record self.old { count = one_more self.old.count }) }
        ensures cause { HasCause result self.old.faults self.new.faults }
    {
        self.count = self.count.saturating_add(1);
        let fails = self.failing.as_slice().contains(&self.count);
        if fails {
            self.fault();
        }
        fails
    }

    /// Counts a fault.
    pub(super) fn fault(&mut self)
        ensures counted { self.new ≡ record self.old { faults = one_more self.old.faults } }
        ensures cause { HasCause true self.old.faults self.new.faults }
    {
        self.faults = self.faults.saturating_add(1);
    }
}
