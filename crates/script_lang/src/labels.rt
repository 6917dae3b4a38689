// The labels that lines create.
ghost use Rattle.std.specs.Prelude.{◌≡◌, [], ◌∷◌, ◌++◌, not, IfOk, if◌then◌else◌};
ghost use Rattle.script_lang.specs.Labels.{is_among};

use indexmap::IndexSet;
use std::alloc::{AllocError, Global};
use std::marker::Model;

/// Distinct labels, seen as their list in the order of creation.
#[derive(Drop)]
pub struct Labels {
    labels: IndexSet<Vec<u8>>,
}

impl Model for Labels {
    ghost use Rattle.std.specs.Prelude.{ℕ, List, map};

    ghost Value = { List (List ℕ) };

    ghost view = { λ l. map (λ v. v.items) l.labels.keys };
}

impl Labels {
    /// No label.
    pub fn new(alloc: Global) -> Labels
        ensures { result ≡ [] }
    {
        Labels {
            labels: IndexSet::new(alloc),
        }
    }

    /// Adds a label at the end and answers true, unless it is there.
    pub fn insert(&mut self, alloc: Global, label: &[u8]) -> Result<bool, AllocError>
        ensures added { IfOk result (λ added. added ≡ not (is_among self.old label.now)) }
        ensures labels { IfOk result (λ added. self.new ≡ (if added then self.old ++ label.now ∷ [] else self.old)) }
    {
        let label = Vec::from_slice(alloc, label)?;
        Ok(self.labels.insert(label)?)
    }
}
