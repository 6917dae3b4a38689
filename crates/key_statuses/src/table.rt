// A session's key table.
ghost use Rattle.std.specs.Prelude.{◌≡◌, ◌≤◌, ◌<◌, ◌+◌, ℕ, List, [], map, length, OnOk, OnErr, IsOk, IfOk, ◌↔◌};
ghost use Rattle.cdm_world.specs.In.{In};
ghost use Rattle.key_statuses.specs.Table.{KnowsEachOnce, key_in, grant_in, released};
ghost use Rattle.key_statuses.specs.Statuses.{AreSorted, reported_as, held_status as status_held, statuses as statuses_in};
ghost use Rattle.key_statuses.specs.Loops.{FirstOf};

use crate::report::{held_status, statuses_of};
use eme_types::{Copies, KeyBytes, KeyId, Status, StatusList};
use std::alloc::{AllocError, Global};
use std::marker::Model;

/// A key id that a session knows, with its key unless it was released.
#[derive(Drop)]
pub struct KnownKey {
    pub kid: KeyId,
    pub key: Option<KeyBytes>,
}

impl Copies for KnownKey {
    fn copy(&self) -> Result<KnownKey, AllocError> {
        let kid = self.kid.copy()?;
        Ok(KnownKey { kid, key: self.key })
    }
}

/// The key ids that one session knows, each once, in order of first grant.
#[derive(Drop)]
pub struct KeyTable {
    known: Vec<KnownKey>,
}

impl Model for KeyTable {
    ghost use Rattle.std.specs.Prelude.{◌-◌, vec_len, vec_capacity};
    ghost use Rattle.key_statuses.specs.Table.{KnowsEachOnce};
    ghost use Rattle.key_statuses.specs.TableState.{TableState};

    ghost Value = { TableState };

    ghost view = { λ t. record { keys = t.known.items; spare = vec_capacity t.known - vec_len t.known } };

    ghost invariant = { λ t. KnowsEachOnce t.known.items };
}

impl KeyTable {
    /// No known id. It takes no memory.
    pub fn new(alloc: Global) -> KeyTable
        ensures { result.keys ≡ [] }
    {
        KeyTable {
            known: Vec::new(alloc),
        }
    }

    /// The number of known ids.
    pub fn len(&self) -> usize
        ensures { result ≡ length self.now.keys }
    {
        self.known.len()
    }

    /// The known ids, in order of first grant.
    pub fn as_slice(&self) -> &[KnownKey]
        ensures value { result.now ≡ self.now.keys }
        ensures once { KnowsEachOnce self.now.keys }
    {
        self.known.as_slice()
    }

    /// The key of an id; none where the id is unknown or was released.
    pub fn holds(&self, kid: &KeyId) -> Option<KeyBytes>
        ensures { result ≡ key_in self.now.keys kid.now }
    {
        key_of(self.known.as_slice(), kid.bytes())
    }

    /// The status of each known id at a moment, sorted by id octet by octet (Encrypted Media Extensions,
    /// MediaKeyStatusMap).
    pub fn statuses(
        &self,
        from: Option<u64>,
        expiration: Option<u64>,
        moment: u64,
    ) -> Result<StatusList, AllocError>
        ensures exact { IfOk result (λ list. list ≡ statuses_in self.now.keys (status_held from expiration moment)) }
        ensures sorted { IfOk result AreSorted }
        ensures members { IfOk result (λ list. (s : List ℕ × Status) → In list s ↔ In (map (reported_as (status_held from expiration moment)) self.now.keys) s) }
    {
        let held = held_status(from, expiration, moment);
        statuses_of(*self.known.allocator(), self.known.as_slice(), held)
    }

    /// Room for the grants of n more ids. Nothing else changes.
    pub fn reserve(&mut self, n: usize) -> Result<(), AllocError>
        ensures keys { self.new.keys ≡ self.old.keys }
        ensures more { self.old.spare ≤ self.new.spare }
        ensures ok { OnOk result (n ≤ self.new.spare) }
        ensures err { OnErr result (self.new ≡ self.old) }
    {
        self.known.reserve(n)
    }

    /// Sets the key of an id. It is never refused where there is room.
    pub fn grant(&mut self, kid: KeyId, key: KeyBytes) -> Result<(), AllocError>
        ensures ok { OnOk result (self.new.keys ≡ grant_in self.old.keys kid key) }
        ensures err { OnErr result (self.new.keys ≡ self.old.keys) }
        ensures with_room { 0 < self.old.spare → IsOk result }
        ensures spare { self.old.spare ≤ self.new.spare + 1 }
    {
        match place_of(self.known.as_slice(), kid.bytes()) {
            Some(at) => {
                let found = &mut self.known[at];
                found.key = Some(key);
                Ok(())
            }
            None => {
                self.known.push(KnownKey {
                    kid,
                    key: Some(key),
                })?;
                Ok(())
            }
        }
    }

    /// An equal table.
    pub fn copy(&self) -> Result<KeyTable, AllocError>
        ensures { IfOk result (λ t. t.keys ≡ self.now.keys) }
    {
        let known = KnownKey::copy_all(*self.known.allocator(), self.known.as_slice())?;
        Ok(KeyTable { known })
    }

    /// Every id stays known, without its key.
    pub fn release_all(&mut self)
        ensures keys { self.new.keys ≡ map released self.old.keys }
        ensures spare { self.new.spare ≡ self.old.spare }
    {
        for known in self.known.iter_mut() {
            known.key = None;
        }
    }

    /// No id stays known.
    pub fn clear(&mut self)
        ensures keys { self.new.keys ≡ [] }
        ensures spare { self.old.spare ≤ self.new.spare }
    {
        self.known.clear();
    }
}

fn key_of(table: &[KnownKey], kid: &[u8]) -> Option<KeyBytes>
    ensures { result ≡ key_in table.now kid.now }
{
    for known in table {
        if known.kid.bytes() == kid {
            return known.key;
        }
    }
    None
}

fn place_of(table: &[KnownKey], kid: &[u8]) -> Option<usize>
    ensures { FirstOf table.now kid.now result }
{
    for (i, known) in table.iter().enumerate() {
        if known.kid.bytes() == kid {
            return Some(i);
        }
    }
    None
}
