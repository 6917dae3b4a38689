// A history with what each of its entries did, in one room.
ghost use Rattle.std.specs.Prelude.{◌≡◌, ◌≤◌, ◌<◌, ◌+◌, [], ◌∷◌, ◌++◌, OnOk, OnErr, length};
ghost use Rattle.std.specs.List.{sum_by};
ghost use Rattle.cdm_state.specs.Feeds.{fragments_fed};

use crate::feed::fragments_fed;
use eme_types::{Effects, Entry};
use std::alloc::{AllocError, Global};
use std::marker::Model;
use task_queue::Log;

/// The entries of a history, the effects of each, how many entries can be appended without taking memory, and how many fragments were
/// fed.
#[derive(Drop)]
pub struct Chronicle {
    alloc: Global,
    entries: Log<Entry>,
    effects: Log<Effects>,
    room: usize,
    fragments: u64,
}

impl Model for Chronicle {
    ghost use Rattle.cdm_state.specs.Chronicle.{ChronicleState};
    ghost use Rattle.cdm_state.specs.ChronicleKept.{chronicle_of, HasItsRoom};

    ghost Value = { ChronicleState };

    ghost view = { chronicle_of };

    ghost invariant = { HasItsRoom };
}

impl Chronicle {
    /// No entry. It takes no memory.
    pub fn new(alloc: Global) -> Chronicle
        ensures { result ≡ record { entries = []; effects = []; room = 0 } }
    {
        Chronicle {
            alloc,
            entries: Log::new(alloc),
            effects: Log::new(alloc),
            room: 0,
            fragments: 0,
        }
    }

    /// The entries, in order.
    pub fn entries(&self) -> &[Entry]
        ensures { result.now ≡ self.now.entries }
    {
        self.entries.as_slice()
    }

    /// What each entry did, in order.
    pub fn effects(&self) -> &[Effects]
        ensures { result.now ≡ self.now.effects }
    {
        self.effects.as_slice()
    }

    /// How many fragments the entries feed.
    pub fn fragments(&self) -> u64
        ensures { result ≡ sum_by fragments_fed self.now.entries }
    {
        self.fragments
    }

    /// The place, from 1, of the entry that is appended next.
    pub fn next_place(&self) -> u64
        ensures { result ≡ length self.now.entries + 1 }
    {
        self.entries.next_place()
    }

    /// Room for n entries. Nothing else changes.
    pub fn reserve(&mut self, n: usize) -> Result<(), AllocError>
        ensures ok { OnOk result (n ≤ self.new.room) }
        ensures more { self.old.room ≤ self.new.room }
        ensures rest { self.new ≡ record self.old { room = self.new.room } }
        ensures err { OnErr result (self.new ≡ self.old) }
    {
        if n <= self.room {
            return Ok(());
        }
        self.entries.reserve(n)?;
        self.effects.reserve(n)?;
        self.room = n;
        Ok(())
    }

    /// Appends an entry with its effects.
    pub fn append(&mut self, entry: Entry, did: Effects)
        requires { 0 < self.old.room }
        ensures entries { self.new.entries ≡ self.old.entries ++ entry ∷ [] }
        ensures effects { self.new.effects ≡ self.old.effects ++ did ∷ [] }
        ensures room { self.old.room ≤ self.new.room + 1 }
    {
        let fed = fragments_fed(&entry);
        let _place = self.entries.next_place();
        self.entries.put(entry);
        self.effects.put(did);
        self.fragments += fed;
        self.room -= 1;
    }

    /// Appends an entry of which the application sees nothing.
    pub fn append_unseen(&mut self, entry: Entry)
        requires { 0 < self.old.room }
        ensures entries { self.new.entries ≡ self.old.entries ++ entry ∷ [] }
        ensures effects { self.new.effects ≡ self.old.effects ++ [] ∷ [] }
        ensures room { self.old.room ≤ self.new.room + 1 }
    {
        let did = Effects::new(self.alloc);
        self.append(entry, did);
    }
}
