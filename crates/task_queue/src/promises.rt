// Promises, numbered from 1.
ghost use Rattle.std.specs.Prelude.{◌≡◌, ◌+◌, [], ◌∷◌, ◌++◌, length, OnOk, OnErr, IfOk, None};
ghost use Rattle.task_queue.specs.Pending.{IsPending, settle_in};

use eme_types::Settled;
use std::alloc::{AllocError, Global};
use std::marker::Model;

/// Promises, each pending or settled.
#[derive(Drop)]
pub struct Promises {
    results: Vec<Option<Settled>>,
}

impl Model for Promises {
    ghost use Rattle.std.specs.Prelude.{List, Option};
    ghost use Rattle.eme_types.specs.declared.call.Settled.{Settled};

    ghost Value = { List (Option Settled) };

    ghost view = { λ p. p.results.items };
}

impl Promises {
    /// No promise. It takes no memory.
    pub fn new(alloc: Global) -> Promises
        ensures { result ≡ [] }
    {
        Promises {
            results: Vec::new(alloc),
        }
    }

    /// The promises, in order of their numbers.
    pub fn as_slice(&self) -> &[Option<Settled>]
        ensures { result.now ≡ self.now }
    {
        self.results.as_slice()
    }

    /// The number of the promise that is made next.
    pub fn next(&self) -> u64
        ensures { result ≡ length self.now + 1 }
    {
        self.results.len() as u64 + 1
    }

    /// Makes the next promise and gives its number.
    pub fn make(&mut self) -> Result<u64, AllocError>
        ensures ok { OnOk result (self.new ≡ self.old ++ None ∷ []) }
        ensures number { IfOk result (λ n. n ≡ length self.old + 1) }
        ensures err { OnErr result (self.new ≡ self.old) }
    {
        self.results.push(None)?;
        Ok(self.results.len() as u64)
    }

    /// Settles a pending promise.
    pub fn settle_once(&mut self, promise: u64, how: Settled)
        requires { IsPending self.old promise }
        ensures { self.new ≡ settle_in self.old promise how }
    {
        self.results[(promise - 1) as usize] = Some(how);
    }
}
