// The samples that were fed on a track.
ghost use Rattle.std.specs.Prelude.{◌≡◌, ◌<◌, ◌^◌, [], ◌∷◌, ◌++◌, slice_get, MatchOption, None, Some, OnOk, IsTrue};
ghost use Rattle.eme_types.specs.WellFormed.{is_well_formed};

use eme_types::EncSample;
use std::alloc::{AllocError, Global};
use std::marker::Model;

/// The samples of a track that were fed, in order, by reference, and seen as them.
#[derive(Drop)]
pub struct Fed<'m> {
    samples: Vec<&'m EncSample>,
}

impl<'m> Model for Fed<'m> {
    ghost use Rattle.std.specs.Prelude.{List, IsTrue};
    ghost use Rattle.std.specs.List.{list_all};
    ghost use Rattle.eme_types.specs.WellFormed.{is_well_formed};
    ghost use Rattle.eme_types.specs.declared.sample.EncSample.{EncSample};
    ghost use Rattle.serial_play.specs.Behind.{all_behind};

    ghost Value = { List EncSample };

    ghost view = { λ fed. all_behind fed.samples.items };

    ghost invariant = { λ fed. IsTrue (list_all is_well_formed (all_behind fed.samples.items)) };
}

impl<'m> Fed<'m> {
    /// No sample. It takes no memory.
    pub fn new(alloc: Global) -> Fed<'m>
        ensures { result ≡ [] }
    {
        Fed {
            samples: Vec::new(alloc),
        }
    }

    /// The sample is fed.
    pub fn push(&mut self, sample: &'m EncSample) -> Result<(), AllocError>
        requires { IsTrue (is_well_formed sample.now) }
        ensures { OnOk result (self.new ≡ self.old ++ sample.now ∷ []) }
    {
        self.samples.push(sample)?;
        Ok(())
    }

    /// The sample at a place, from 0; none past the last.
    pub fn get(&self, place: usize) -> Option<&'m EncSample>
        ensures found { MatchOption result (slice_get self.now place ≡ None) (λ sample. slice_get self.now place ≡ Some sample.now) }
        ensures formed { MatchOption result (Unit {0}) (λ sample. IsTrue (is_well_formed sample.now)) }
        ensures small { MatchOption result (Unit {0}) (λ sample. place < 2 ^ 63) }
    {
        if place < self.samples.len() {
            Some(self.samples[place])
        } else {
            None
        }
    }
}
