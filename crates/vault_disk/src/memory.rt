// A disk in memory, with calls that fail by their number.
ghost use Rattle.std.specs.Prelude.{◌≡◌, ◌≤◌, ◌+◌, ◌-◌, ◌++◌, [], ◌∷◌, max, length, List, ℕ, IfOk, OnOk, OnErr};
ghost use Rattle.vault_disk.specs.Calls.{FailsExactly, next_fails, with_failing};
ghost use Rattle.vault_disk.specs.Disk.{DiskState, HasCause, ReadsAt, Holds, Torn, Follows, Only, Unmoved, Elapses};

use crate::bytes::{copy_at, filled, write_bytes};
use crate::calls::{Calls, one_more};
use crate::disk::{DiskFailed, VaultDisk};
use crate::step::Step;
use eme_types::Bytes;
use std::alloc::{AllocError, Global};
use std::marker::Model;

/// Bytes in memory. It tells them, and keeps a record of its writes and syncs.
#[derive(Drop)]
pub struct MemoryDisk {
    alloc: Global,
    first: Bytes,
    steps: Vec<Step>,
    content: Vec<u8>,
    spare: u64,
    calls: Calls,
    faults: u64,
}

impl Model for MemoryDisk {
    ghost use Rattle.vault_disk.specs.Memory.{Memory};
    ghost use Rattle.vault_disk.specs.View.{memory_of, IsKept};

    ghost Value = { Memory };

    ghost view = { memory_of };

    ghost invariant = { IsKept };
}

impl MemoryDisk {
    ghost use Rattle.vault_disk.specs.Memory.{begun_with, left_now, image_of, counted};

    /// No byte, and no call that fails.
    pub fn new(alloc: Global) -> MemoryDisk
        ensures { result ≡ begun_with [] }
    {
        MemoryDisk {
            alloc,
            first: Bytes::new(alloc),
            steps: Vec::new(alloc),
            content: Vec::new(alloc),
            spare: 0,
            calls: Calls::new(alloc),
            faults: 0,
        }
    }

    /// These bytes, as synced.
    pub fn from_image(alloc: Global, bytes: &[u8]) -> Result<MemoryDisk, AllocError>
        ensures { IfOk result (λ disk. disk ≡ begun_with bytes.now) }
    {
        Ok(MemoryDisk {
            alloc,
            first: Bytes::from_slice(alloc, bytes)?,
            steps: Vec::new(alloc),
            content: Vec::from_slice(alloc, bytes)?,
            spare: 0,
            calls: Calls::new(alloc),
            faults: 0,
        })
    }

    /// The k-th call other than `ready` fails, counted from 1.
    pub fn fail_call(&mut self, k: u64) -> Result<(), AllocError>
        ensures ok { OnOk result (self.new ≡ record self.old { calls = with_failing self.old.calls k }) }
        ensures err { OnErr result (self.new ≡ self.old) }
    {
        self.calls.name(k)
    }

    /// One content that a crash now may leave: what a read gives, or, with a fill byte, that byte at each place written
    /// since the last sync that succeeded.
    pub fn image(&self, fill: Option<u8>) -> Result<Bytes, AllocError>
        ensures image { IfOk result (λ image. image ≡ image_of self.now fill) }
        ensures left { IfOk result (λ image. left_now self.now image) }
    {
        match fill {
            None => Bytes::from_slice(self.alloc, &self.content),
            Some(byte) => {
                let image = filled(self.alloc, self.first.as_slice(), &self.steps, byte)?;
                Ok(Bytes::from_vec(image))
            }
        }
    }

    /// Counts a call, and the fault where it is one that fails.
    fn count(&mut self) -> bool
        ensures fails { result ≡ next_fails self.old.calls }
        ensures counted { self.new ≡ counted self.old }
        ensures no_fewer { self.old.faults ≤ self.new.faults }
    {
        let fails = self.calls.fails();
        if fails {
            self.faults = one_more(self.faults);
        }
        fails
    }
}

impl VaultDisk for MemoryDisk {
    ghost use Rattle.vault_disk.specs.Memory.{memory_state, left_now, left_from, counted, after_write, after_sync};
    ghost use Rattle.vault_disk.specs.Laws.{counts_now, only_now, reads_left};

    ghost state = { memory_state };

    ghost may_leave = { left_now };

    ghost left_since = { left_from };

    ghost counts_now = { counts_now };

    ghost only_now = { only_now };

    ghost reads_left = { λ m told. reads_left m };

    fn ready(&mut self, n: u64) -> Result<(), AllocError>
        ensures ok { OnOk result (self.new ≡ record self.old { spare = max self.old.spare n }) }
        ensures unchanged { OnErr result (self.new ≡ self.old) }
        ensures room { OnOk result (n ≤ self.new.spare) }
        ensures no_less { self.old.spare ≤ self.new.spare }
        ensures err { OnErr result (self.new.spare ≡ self.old.spare) }
        ensures others { memory_state self.new ≡ record (memory_state self.old) { spare = self.new.spare } }
        ensures crash { Unmoved (left_now self.old) (left_now self.new) (left_from self.old) (left_from self.new) }
    {
        self.steps.reserve(n as usize)?;
        self.content.reserve(n as usize)?;
        self.spare = self.spare.max(n);
        Ok(())
    }

    fn size(&mut self) -> Result<u64, DiskFailed>
        ensures length { IfOk result (λ n. n ≡ length (memory_state self.old).seen) }
        ensures fails { FailsExactly (next_fails self.old.calls) result }
        ensures counted { self.new ≡ counted self.old }
        ensures others { memory_state self.new ≡ record (memory_state self.old) { faults = self.new.faults } }
        ensures crash { Unmoved (left_now self.old) (left_now self.new) (left_from self.old) (left_from self.new) }
        ensures cause { HasCause (memory_state self.old) (memory_state self.new) result }
    {
        if self.count() {
            return Err(DiskFailed);
        }
        Ok(self.content.len() as u64)
    }

    fn read(&mut self, place: u64, buf: &mut [u8]) -> Result<usize, DiskFailed>
        ensures within { IfOk result (λ n. n ≤ length buf.new) }
        ensures bytes { IfOk result (λ n. ReadsAt (memory_state self.old).seen place n buf.new) }
        ensures fails { FailsExactly (next_fails self.old.calls) result }
        ensures counted { self.new ≡ counted self.old }
        ensures others { memory_state self.new ≡ record (memory_state self.old) { faults = self.new.faults } }
        ensures crash { Unmoved (left_now self.old) (left_now self.new) (left_from self.old) (left_from self.new) }
        ensures cause { HasCause (memory_state self.old) (memory_state self.new) result }
    {
        if self.count() {
            return Err(DiskFailed);
        }
        Ok(copy_at(&self.content, place, buf))
    }

    fn write_at(&mut self, place: u64, bytes: &[u8]) -> Result<(), DiskFailed>
        requires room { length bytes.now ≤ self.old.spare }
        requires inside { place ≤ length (memory_state self.old).seen }
        ensures fails { FailsExactly (next_fails self.old.calls) result }
        ensures after { self.new ≡ after_write self.old place bytes.now (self.old.spare - length bytes.now) }
        ensures holds { Holds (memory_state self.old).seen place bytes.now (memory_state self.new).seen }
        ensures torn { Torn place (length bytes.now) (memory_state self.old).seen (memory_state self.new).seen }
        ensures crash { Follows (Torn place (length bytes.now)) (left_now self.old) (left_now self.new) }
        ensures time { Elapses (length self.old.steps) (length self.new.steps) (left_from self.old) (left_from self.new) (left_now self.new) }
        ensures cause { HasCause (memory_state self.old) (memory_state self.new) result }
    {
        let fails = self.count();
        write_bytes(&mut self.content, &mut self.steps, place as usize, bytes);
        self.spare -= bytes.len() as u64;
        if fails {
            return Err(DiskFailed);
        }
        Ok(())
    }

    fn sync(&mut self) -> Result<(), DiskFailed>
        requires { 1 ≤ self.old.spare }
        ensures fails { FailsExactly (next_fails self.old.calls) result }
        ensures after { self.new ≡ after_sync self.old self.new.spare }
        ensures spare { self.old.spare ≤ self.new.spare + 1 }
        ensures seen { (memory_state self.new).seen ≡ (memory_state self.old).seen }
        ensures durable { OnOk result (Only (memory_state self.old).seen (left_now self.new)) }
        ensures crash { (c : List ℕ) → left_now self.new c → left_now self.old c }
        ensures time { Elapses (length self.old.steps) (length self.new.steps) (left_from self.old) (left_from self.new) (left_now self.new) }
        ensures cause { HasCause (memory_state self.old) (memory_state self.new) result }
    {
        if self.count() {
            return Err(DiskFailed);
        }
        self.steps.push_reserved(Step::Synced);
        self.spare -= 1;
        Ok(())
    }
}
