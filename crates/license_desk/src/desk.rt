// The table of keys.
ghost use Rattle.std.specs.Prelude.{◌≡◌, [], ◌∷◌, ◌++◌, not, length, IfOk, IfSome, IsTrue, if◌then◌else◌};
ghost use Rattle.license_desk.specs.Rows.{AreRows, terms_of, has_kid, has_moments};

use crate::terms::Terms;
use eme_types::KeyId;
use indexmap::IndexMap;
use std::alloc::{AllocError, Global};
use std::marker::Model;

/// A table of keys, seen as the list of its rows in their order: a key id, and what the table says of it. No key id stands
/// twice.
#[derive(Drop)]
pub struct KeyDesk {
    rows: IndexMap<KeyId, Terms>,
}

impl Model for KeyDesk {
    ghost use Rattle.std.specs.Prelude.{List};
    ghost use Rattle.license_desk.specs.Rows.{Row, AreRows};

    ghost Value = { List Row };

    ghost view = { λ d. d.rows.entries };

    ghost invariant = { λ d. AreRows d.rows.entries };
}

impl KeyDesk {
    /// No row.
    pub(crate) fn new(alloc: Global) -> KeyDesk
        ensures { result ≡ [] }
    {
        KeyDesk {
            rows: IndexMap::new(alloc),
        }
    }

    /// The number of rows.
    pub fn len(&self) -> usize
        ensures value { result ≡ length self.now }
        ensures rows { AreRows self.now }
    {
        self.rows.len()
    }

    /// What the table says of a key id.
    pub fn get(&self, kid: &KeyId) -> Option<Terms>
        ensures value { result ≡ terms_of self.now kid.now }
        ensures moments { IfSome result (λ terms. IsTrue (has_moments terms)) }
    {
        self.rows.get(kid).copied()
    }

    /// Adds a row at the end and answers true, unless its key id is there.
    pub(crate) fn insert(&mut self, kid: KeyId, terms: Terms) -> Result<bool, AllocError>
        requires { IsTrue (has_moments terms) }
        ensures added { IfOk result (λ added. added ≡ not (has_kid self.old kid)) }
        ensures rows { IfOk result (λ added. self.new ≡ (if added then self.old ++ (kid, terms) ∷ [] else self.old)) }
    {
        if self.rows.contains_key(&kid) {
            return Ok(false);
        }
        self.rows.insert(kid, terms)?;
        Ok(true)
    }
}
