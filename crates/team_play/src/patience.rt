// How long lane 0 leaves the samples to the workers beside it.
ghost use Rattle.std.specs.Prelude.{◌≡◌, ◌==◌, ◌-◌};

use std::sync::Wait;
use std::sync::atomic::AtomicU64;
use std::time::Duration;

/// So many rests with nothing to do, and lane 0 asks for a sample itself.
const RESTS: u32 = 16;

/// How long one rest is, in microseconds.
const REST: u64 = 200;

/// The rests that are left before lane 0 asks for a sample. With no worker there is none.
#[derive(Drop)]
pub struct Patience {
    full: u32,
    left: u32,
}

impl Patience {
    /// That of lane 0 beside so many workers.
    pub fn beside(workers: u8) -> Patience
        ensures { (result.left ≡ result.full) × (workers ≡ 0 → result.full ≡ 0) }
    {
        let full = if workers == 0 { 0 } else { RESTS };
        Patience { full, left: full }
    }

    /// Whether it is time to ask for a sample.
    pub fn is_over(&self) -> bool
        ensures { result ≡ (self.now.left == 0) }
    {
        self.left == 0
    }

    /// There was something to do.
    pub fn renew(&mut self)
        ensures { (self.new.full ≡ self.old.full) × (self.new.left ≡ self.old.full) }
    {
        self.left = self.full;
    }

    /// There was nothing to do: lets the others have their turn.
    pub fn rest<R: Wait>(&mut self, rt: &R)
        ensures { (self.new.full ≡ self.old.full) × (self.new.left ≡ self.old.left - 1) }
    {
        AtomicU64::new(0).park_timeout(rt, 0, Duration::from_micros(REST));
        self.left = self.left.saturating_sub(1);
    }
}
