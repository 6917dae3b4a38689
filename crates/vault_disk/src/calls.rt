// The calls of a disk in memory, some of which are to fail.
ghost use Rattle.std.specs.Prelude.{◌≡◌, ◌++◌, [], ◌∷◌, OnOk, OnErr};
ghost use Rattle.vault_disk.specs.Calls.{one_more, no_calls, next_fails, after_call, with_failing};

use eme_types::Items;
use std::alloc::{AllocError, Global};

/// How many calls were made, up to the last value of a `u64`, and the numbers of those that fail.
#[derive(Drop)]
pub struct Calls {
    pub made: u64,
    pub failing: Items<u64>,
}

pub fn one_more(count: u64) -> u64
    ensures { result ≡ one_more count }
{
    count.saturating_add(1)
}

impl Calls {
    pub fn new(alloc: Global) -> Calls
        ensures { result ≡ no_calls }
    {
        Calls {
            made: 0,
            failing: Items::new(alloc),
        }
    }

    /// Counts a call, and tells whether it is one that fails.
    pub fn fails(&mut self) -> bool
        ensures fails { result ≡ next_fails self.old }
        ensures counted { self.new ≡ after_call self.old }
    {
        self.made = one_more(self.made);
        self.failing.as_slice().contains(&self.made)
    }

    pub fn name(&mut self, number: u64) -> Result<(), AllocError>
        ensures ok { OnOk result (self.new ≡ with_failing self.old number) }
        ensures err { OnErr result (self.new ≡ self.old) }
    {
        self.failing.push(number)?;
        Ok(())
    }
}
