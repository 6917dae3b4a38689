// Which sessions hold a key under an id.
ghost use Rattle.std.specs.Prelude.{◌≡◌, ◌≢◌, ◌↔◌, List, [], ℕ, OnOk, OnErr, IsTrue};
ghost use Rattle.cdm_world.specs.In.{In};
ghost use Rattle.key_statuses.specs.Index.{holders_of, with_number, without_number, AreAscending, IsSet};
ghost use Rattle.key_statuses.specs.Loops.{PlacesAt};

use eme_types::{Copies, KeyId};
use indexmap::IndexMap;
use std::alloc::{AllocError, Global};
use std::marker::Model;

/// For each key id the ascending numbers of the sessions that hold a key under it. An id without such a session is not
/// in it.
#[derive(Drop)]
pub struct KeyIndex {
    sessions: IndexMap<KeyId, Vec<u32>>,
}

impl Model for KeyIndex {
    ghost use Rattle.std.specs.Prelude.{ℕ, List, map};
    ghost use Rattle.key_statuses.specs.Index.{IsIndex};

    ghost Value = { List (List ℕ × List ℕ) };

    ghost view = { λ i. map (λ e. (e.0, e.1.items)) i.sessions.entries };

    ghost invariant = { λ i. IsIndex (map (λ e. (e.0, e.1.items)) i.sessions.entries) };
}

impl KeyIndex {
    /// No key id. It takes no memory.
    pub fn new(alloc: Global) -> KeyIndex
        ensures { result ≡ [] }
    {
        KeyIndex {
            sessions: IndexMap::new(alloc),
        }
    }

    /// Adds the session in its place under the id, once.
    pub fn add(&mut self, kid: &KeyId, session: u32) -> Result<(), AllocError>
        ensures ok { OnOk result (IsSet self.old self.new kid.now (with_number session (holders_of self.old kid.now))) }
        ensures err { OnErr result (self.new ≡ self.old) }
    {
        match self.sessions.get_mut(kid) {
            Some(numbers) => {
                add_number(numbers, session)?;
                Ok(())
            }
            None => {
                let mut numbers = Vec::new(*self.sessions.allocator());
                numbers.push(session)?;
                self.sessions.insert(kid.copy()?, numbers)?;
                Ok(())
            }
        }
    }

    /// Removes the session under the id. It takes no memory.
    pub fn take_out(&mut self, kid: &KeyId, session: u32)
        ensures { IsSet self.old self.new kid.now (without_number session (holders_of self.old kid.now)) }
    {
        let Some(numbers) = self.sessions.get_mut(kid) else {
            return;
        };
        if remove_number(numbers, session) {
            self.sessions.swap_remove(kid);
        }
    }

    /// The sessions under the id, ascending.
    pub fn holders(&self, kid: &KeyId) -> &[u32]
        ensures value { result.now ≡ holders_of self.now kid.now }
        ensures ascending { AreAscending result.now }
    {
        match self.sessions.get(kid) {
            None => &[],
            Some(numbers) => numbers.as_slice(),
        }
    }

    /// The key ids that have a holder.
    pub fn ids(&self) -> &[KeyId]
        ensures { (kid : List ℕ) → In result.now kid ↔ (holders_of self.now kid ≢ []) }
    {
        self.sessions.keys().as_slice()
    }
}

/// Where a number goes in an ascending list, if it is not there.
fn place_for(numbers: &[u32], number: u32) -> Option<usize>
    ensures { PlacesAt numbers.now number result }
{
    for (i, other) in numbers.iter().enumerate() {
        if *other == number {
            return None;
        }
        if *other > number {
            return Some(i);
        }
    }
    Some(numbers.len())
}

fn add_number(numbers: &mut Vec<u32>, number: u32) -> Result<(), AllocError>
    ensures ok { OnOk result (numbers.new.items ≡ with_number number numbers.old.items) }
    ensures err { OnErr result (numbers.new.items ≡ numbers.old.items) }
{
    if let Some(at) = place_for(numbers, number) {
        numbers.insert(at, number)?;
    }
    Ok(())
}

/// Whether none is left.
fn remove_number(numbers: &mut Vec<u32>, number: u32) -> bool
    ensures items { numbers.new.items ≡ without_number number numbers.old.items }
    ensures empty { IsTrue result ↔ (numbers.new.items ≡ []) }
{
    numbers.retain(|other| *other != number);
    numbers.is_empty()
}
