// The claims that are not ended.
ghost use Rattle.std.specs.Prelude.{◌≡◌, [], ◌∷◌, ◌++◌, OnOk, OnErr};
ghost use Rattle.std.specs.List.{filter};
ghost use Rattle.key_claims.specs.Holds.{claim_of};
ghost use Rattle.key_claims.specs.Claims.{revoked, is_other, claimed_in, ready_claim, clear_at, DeliversTo};

use crate::slots::{
    Generation, Held, Slot, bump, drop_ended, drop_place, end_slots, is_claimed, live_slot,
    place_of, put_key, ready_place, slot_with,
};
use eme_types::{Bytes, Copies, KeyId};
use std::alloc::{AllocError, Global};
use std::marker::Model;

/// The claims that are not ended. A key is lost by a new generation of it, whatever the number of its claims.
#[derive(Drop)]
pub struct Claims {
    generations: Vec<Generation>,
    slots: Vec<Slot>,
}

impl Model for Claims {
    ghost use Rattle.std.specs.Prelude.{List};
    ghost use Rattle.key_claims.specs.TracksState.{ClaimState};

    ghost Value = { List ClaimState };

    ghost use Rattle.key_claims.specs.SlotsKept.{claims_of, AreKept};

    ghost view = { claims_of };

    ghost invariant = { AreKept };
}

impl Claims {
    pub fn new(alloc: Global) -> Claims
        ensures { result ≡ [] }
    {
        Claims {
            generations: Vec::new(alloc),
            slots: Vec::new(alloc),
        }
    }

    /// A new claim under a session's key. Slots of ended claims are dropped, and a new key is put in the stead of one that has no slot, so no more of both are kept than claims fit in the windows of the tracks.
    pub fn hold(&mut self, claim: Held, session: u32, kid: &KeyId) -> Result<(), AllocError>
        ensures ok { OnOk result (self.new ≡ self.old ++ claim_of claim session kid.now ∷ []) }
        ensures err { OnErr result (self.new ≡ self.old) }
    {
        drop_ended(&self.generations, &mut self.slots);
        self.slots.reserve(1)?;
        match place_of(&self.generations, session, kid.bytes()) {
            Some(at) => {
                let generation = self.generations[at].number;
                self.slots.push_reserved(slot_with(claim, at, generation));
            }
            None => {
                let key = Generation {
                    session,
                    kid: kid.copy()?,
                    number: 0,
                };
                let at = put_key(&mut self.generations, &self.slots, key)?;
                self.slots.push_reserved(slot_with(claim, at, 0));
            }
        }
        Ok(())
    }

    /// The claim at the place gets its clear bytes, or they are handed back where it is ended.
    pub fn deliver(&mut self, place: u64, clear: Bytes) -> Option<Bytes>
        ensures { DeliversTo self.old place clear result self.new }
    {
        match live_slot(&self.generations, &self.slots, place) {
            None => Some(clear),
            Some(at) => {
                let slot = &mut self.slots[at];
                slot.clear = Some(clear);
                None
            }
        }
    }

    /// Ends the claims under a session's key.
    pub fn revoke(&mut self, session: u32, kid: &KeyId)
        ensures { self.new ≡ revoked session kid.now self.old }
    {
        match place_of(&self.generations, session, kid.bytes()) {
            None => {}
            Some(at) => {
                if !bump(&mut self.generations, at) {
                    end_slots(&mut self.slots, at);
                }
            }
        }
    }

    /// Ends the claim at the place.
    pub fn end(&mut self, place: u64)
        ensures { self.new ≡ filter (is_other place) self.old }
    {
        drop_place(&mut self.slots, place);
    }

    /// Ends the claim at the place, and gives its clear bytes.
    pub fn take(&mut self, place: u64) -> Option<Bytes>
        ensures clear { result ≡ clear_at place self.old }
        ensures rest { self.new ≡ filter (is_other place) self.old }
    {
        match live_slot(&self.generations, &self.slots, place) {
            None => {
                drop_place(&mut self.slots, place);
                None
            }
            Some(at) => {
                let slot = self.slots.remove(at);
                drop_place(&mut self.slots, place);
                slot.clear
            }
        }
    }

    /// Whether a claim is on the sample.
    pub fn is_on(&self, track: u32, index: usize) -> bool
        ensures { result ≡ claimed_in self.now track index }
    {
        is_claimed(&self.generations, &self.slots, track, index)
    }

    /// The place of the claim on the sample that has its clear bytes.
    pub fn ready(&self, track: u32, index: usize) -> Option<u64>
        ensures { result ≡ ready_claim self.now track index }
    {
        ready_place(&self.generations, &self.slots, track, index)
    }
}
