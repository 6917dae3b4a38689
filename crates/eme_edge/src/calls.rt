// Calls of one kind, some of which are to fail.
ghost use Rattle.std.specs.Prelude.{◌≡◌, ◌++◌, [], ◌∷◌, OnOk, OnErr};
ghost use Rattle.eme_edge.specs.Calls.{one_more, no_calls, next_fails, after_call, with_failing, no_counts};

use eme_types::Items;
use std::alloc::{AllocError, Global};

/// How many calls were made, up to the last value of a `u64`, and the numbers of those that fail.
#[derive(Drop)]
pub struct Calls {
    pub made: u64,
    pub failing: Items<u64>,
}

/// The calls of each kind, and the faults so far, up to the last value of a `u64`.
#[derive(Drop)]
pub struct Counts {
    pub reads: Calls,
    pub starts: Calls,
    pub appends: Calls,
    pub says: Calls,
    pub read_faults: u64,
    pub write_faults: u64,
}

pub fn one_more(count: u64) -> u64
    ensures { result ≡ one_more count }
{
    count.saturating_add(1)
}

impl Calls {
    fn new(alloc: Global) -> Calls
        ensures { result ≡ no_calls }
    {
        Calls {
            made: 0,
            failing: Items::new(alloc),
        }
    }

    /// Whether the next call is one that fails.
    pub fn next_fails(&self) -> bool
        ensures { result ≡ next_fails self.now }
    {
        self.failing.as_slice().contains(&one_more(self.made))
    }

    pub fn count(&mut self)
        ensures { self.new ≡ after_call self.old }
    {
        self.made = one_more(self.made);
    }

    pub fn name(&mut self, number: u64) -> Result<(), AllocError>
        ensures ok { OnOk result (self.new ≡ with_failing self.old number) }
        ensures err { OnErr result (self.new ≡ self.old) }
    {
        self.failing.push(number)?;
        Ok(())
    }
}

impl Counts {
    pub fn new(alloc: Global) -> Counts
        ensures { result ≡ no_counts }
    {
        Counts {
            reads: Calls::new(alloc),
            starts: Calls::new(alloc),
            appends: Calls::new(alloc),
            says: Calls::new(alloc),
            read_faults: 0,
            write_faults: 0,
        }
    }
}
