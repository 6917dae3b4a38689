// Slots of claims, and the generations of keys that tell which of them are ended.
ghost use Rattle.std.specs.Prelude.{◌≡◌, ◌<◌, ◌==◌, ◌&&◌, map, length, IfOk, OnErr};
ghost use Rattle.std.specs.List.{filter};
ghost use Rattle.key_claims.specs.Claims.{claimed_in, ready_claim};
ghost use Rattle.key_claims.specs.Slots.{KeyPlace, is_of, generation_ended, ended, Bumps, is_current, is_at, is_current_on, is_given_on, is_other_slot, claims_in, SlotFound};
ghost use Rattle.key_claims.specs.Holds.{slot_of, is_held as slot_stands_at, FreePlace, IsPut};

use eme_types::{Bytes, KeyBytes, KeyId};
use std::alloc::AllocError;

/// How often a session's key under an id was lost since it was put into the list.
#[derive(Drop)]
pub struct Generation {
    pub session: u32,
    pub kid: KeyId,
    pub number: u64,
}

/// A claim as it was given. It is not ended while its key is of the same generation.
#[derive(Drop)]
pub struct Slot {
    pub place: u64,
    pub worker: u8,
    pub track: u32,
    pub index: u32,
    /// The place of its key in the list of generations.
    pub key_at: usize,
    pub generation: u64,
    pub key: KeyBytes,
    /// The clear bytes, once they were delivered.
    pub clear: Option<Bytes>,
}

/// What a claim is, beside its session and key id.
#[derive(Clone, Copy, Debug, PartialEq, Eq)]
pub struct Held {
    pub place: u64,
    pub worker: u8,
    pub track: u32,
    pub index: u32,
    pub key: KeyBytes,
}

pub fn slot_with(held: Held, key_at: usize, generation: u64) -> Slot
    ensures { result ≡ slot_of held key_at generation }
{
    Slot {
        place: held.place,
        worker: held.worker,
        track: held.track,
        index: held.index,
        key_at,
        generation,
        key: held.key,
        clear: None,
    }
}

fn is_key(known: &Generation, session: u32, kid: &[u8]) -> bool
    ensures { result ≡ is_of session kid.now known.now }
{
    known.session == session && known.kid.bytes() == kid
}

/// The place of a session's key.
pub fn place_of(generations: &[Generation], session: u32, kid: &[u8]) -> Option<usize>
    ensures { KeyPlace generations.now session kid.now result }
{
    for (i, known) in generations.iter().enumerate() {
        if is_key(known, session, kid) {
            return Some(i);
        }
    }
    None
}

/// Whether a slot has its key at the place.
fn is_held(slots: &[Slot], place: usize) -> bool
    ensures { result ≡ slot_stands_at slots.now place }
{
    for slot in slots {
        if slot.key_at == place {
            return true;
        }
    }
    false
}

/// The first place below the count at which no slot has its key.
fn free_place(slots: &[Slot], count: usize) -> Option<usize>
    ensures { FreePlace slots.now count result }
{
    for place in 0..count {
        if !is_held(slots, place) {
            return Some(place);
        }
    }
    None
}

/// A new key is put at a place where no slot has its key, or at the end. So the list never has more keys than the most slots that there were at once.
pub fn put_key(
    generations: &mut Vec<Generation>,
    slots: &[Slot],
    key: Generation,
) -> Result<usize, AllocError>
    ensures ok { IfOk result (λ place. IsPut generations.old.items slots.now key place generations.new.items) }
    ensures err { OnErr result (generations.new.items ≡ generations.old.items) }
{
    let count = generations.len();
    match free_place(slots, count) {
        None => {
            generations.push(key)?;
            Ok(count)
        }
        Some(place) => {
            generations[place] = key;
            Ok(place)
        }
    }
}

/// Whether the slot's key is still of its generation.
fn current(generations: &[Generation], slot: &Slot) -> bool
    ensures { result ≡ is_current generations.now slot.now }
{
    match generations.get(slot.key_at) {
        None => false,
        Some(known) => known.number == slot.generation,
    }
}

fn is_given(generations: &[Generation], slot: &Slot, place: u64) -> bool
    ensures { result ≡ is_at generations.now place slot.now }
{
    slot.place == place && current(generations, slot)
}

/// The slot of the claim that was given at the place and is not ended.
pub fn live_slot(generations: &[Generation], slots: &[Slot], place: u64) -> Option<usize>
    ensures { SlotFound generations.now slots.now place result }
{
    for (i, slot) in slots.iter().enumerate() {
        if is_given(generations, slot, place) {
            return Some(i);
        }
    }
    None
}

fn is_on(slot: &Slot, track: u32, index: usize) -> bool
    ensures { result ≡ (slot.now.track == track && slot.now.index == index) }
{
    slot.track == track && slot.index as usize == index
}

fn is_live_on(generations: &[Generation], slot: &Slot, track: u32, index: usize) -> bool
    ensures { result ≡ is_current_on generations.now track index slot.now }
{
    is_on(slot, track, index) && current(generations, slot)
}

/// Whether a claim that is not ended is on the sample.
pub fn is_claimed(generations: &[Generation], slots: &[Slot], track: u32, index: usize) -> bool
    ensures { result ≡ claimed_in (claims_in generations.now slots.now) track index }
{
    for slot in slots {
        if is_live_on(generations, slot, track, index) {
            return true;
        }
    }
    false
}

fn is_ready(generations: &[Generation], slot: &Slot, track: u32, index: usize) -> bool
    ensures { result ≡ is_given_on generations.now track index slot.now }
{
    is_live_on(generations, slot, track, index) && slot.clear.is_some()
}

/// The place of the claim on the sample that is not ended and has its clear bytes.
pub fn ready_place(
    generations: &[Generation],
    slots: &[Slot],
    track: u32,
    index: usize,
) -> Option<u64>
    ensures { result ≡ ready_claim (claims_in generations.now slots.now) track index }
{
    for slot in slots {
        if is_ready(generations, slot, track, index) {
            return Some(slot.place);
        }
    }
    None
}

/// The slots of ended claims are dropped.
pub fn drop_ended(generations: &[Generation], slots: &mut Vec<Slot>)
    ensures { slots.new.items ≡ filter (is_current generations.now) slots.old.items }
{
    slots.retain(|slot| current(generations, slot));
}

/// The slots of a place are dropped.
pub fn drop_place(slots: &mut Vec<Slot>, place: u64)
    ensures { slots.new.items ≡ filter (is_other_slot place) slots.old.items }
{
    slots.retain(|slot| slot.place != place);
}

/// The next generation of a key, where its number has one.
pub fn bump(generations: &mut Vec<Generation>, at: usize) -> bool
    requires { at < length generations.old.items }
    ensures { Bumps generations.old.items at result generations.new.items }
{
    if generations[at].number == u64::MAX {
        return false;
    }
    let known = &mut generations[at];
    known.number += 1;
    true
}

/// The generation that a slot gets where the key at the place ends.
fn ended_generation(slot: &Slot, at: usize) -> u64
    ensures { result ≡ generation_ended at slot.now }
{
    if slot.key_at == at {
        0
    } else {
        slot.generation
    }
}

/// The slots of a key are put behind its last generation.
pub fn end_slots(slots: &mut Vec<Slot>, at: usize)
    ensures { slots.new.items ≡ map (ended at) slots.old.items }
{
    for slot in slots.iter_mut() {
        slot.generation = ended_generation(slot, at);
    }
}
