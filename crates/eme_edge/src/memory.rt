// A shelf in memory, with calls that fail by their number.
ghost use Rattle.std.specs.Prelude.{◌≡◌, ◌≢◌, ◌≤◌, ◌<◌, ◌-◌, ◌/◌, ◌+◌, ◌++◌, ◌^◌, [], true, false, length, take, drop, min, IfOk, OnOk, OnErr, IsErrOf, IsTrue, IsSome, Some, None, MatchOption};
ghost use Rattle.eme_edge.specs.Shelf.{ReadsFile, ReadCause, WriteCause, TellsAlike, FilesKept, OthersKept, HoldsPart, HoldsMore, SaidPart};
ghost use Rattle.eme_edge.specs.Files.{file_in};
ghost use Rattle.eme_edge.specs.Calls.{FailsExactly, next_fails, with_failing};

use crate::calls::{Counts, one_more};
use crate::files::{Saved, add_to, bytes_of, put};
use crate::shelf::{Shelf, ShelfFault};
use eme_types::Bytes;
use std::alloc::{AllocError, Global};
use std::marker::Model;

/// Files in memory. It tells all of its bytes.
#[derive(Drop)]
pub struct MemoryShelf {
    alloc: Global,
    files: Vec<Saved>,
    said: Bytes,
    counts: Counts,
}

impl Model for MemoryShelf {
    ghost use Rattle.eme_edge.specs.Memory.{Memory};

    ghost Value = { Memory };

    ghost use Rattle.eme_edge.specs.View.{memory_of};

    ghost view = { memory_of };
}

impl MemoryShelf {
    ghost use Rattle.eme_edge.specs.Memory.{Memory, empty_memory};

    /// No file, and no call that fails.
    pub fn new(alloc: Global) -> MemoryShelf
        ensures { result ≡ empty_memory }
    {
        MemoryShelf {
            alloc,
            files: Vec::new(alloc),
            said: Bytes::new(alloc),
            counts: Counts::new(alloc),
        }
    }

    /// Sets a file.
    pub fn put_file(&mut self, name: &str, bytes: &[u8]) -> Result<(), AllocError>
        ensures ok { OnOk result (file_in self.new.files name.now ≡ Some bytes.now) }
        ensures others { OthersKept (file_in self.old.files) (file_in self.new.files) name.now }
        ensures err { OnErr result (FilesKept (file_in self.old.files) (file_in self.new.files)) }
        ensures said { self.new.said ≡ self.old.said }
        ensures counts { self.new.counts ≡ self.old.counts }
    {
        let bytes = Bytes::from_slice(self.alloc, bytes)?;
        put(self.alloc, &mut self.files, name.as_bytes(), bytes)
    }

    /// The k-th read fails, counted from 1.
    pub fn fail_read(&mut self, k: u64) -> Result<(), AllocError>
        ensures ok { OnOk result (self.new ≡ record self.old { counts = record self.old.counts { reads = with_failing self.old.counts.reads k } }) }
        ensures err { OnErr result (self.new ≡ self.old) }
    {
        self.counts.reads.name(k)
    }

    /// The k-th start fails, counted from 1.
    pub fn fail_start(&mut self, k: u64) -> Result<(), AllocError>
        ensures ok { OnOk result (self.new ≡ record self.old { counts = record self.old.counts { starts = with_failing self.old.counts.starts k } }) }
        ensures err { OnErr result (self.new ≡ self.old) }
    {
        self.counts.starts.name(k)
    }

    /// The k-th append fails, counted from 1.
    pub fn fail_append(&mut self, k: u64) -> Result<(), AllocError>
        ensures ok { OnOk result (self.new ≡ record self.old { counts = record self.old.counts { appends = with_failing self.old.counts.appends k } }) }
        ensures err { OnErr result (self.new ≡ self.old) }
    {
        self.counts.appends.name(k)
    }

    /// The k-th call of `say` fails, counted from 1.
    pub fn fail_say(&mut self, k: u64) -> Result<(), AllocError>
        ensures ok { OnOk result (self.new ≡ record self.old { counts = record self.old.counts { says = with_failing self.old.counts.says k } }) }
        ensures err { OnErr result (self.new ≡ self.old) }
    {
        self.counts.says.name(k)
    }

    /// The bytes of a file.
    pub fn file(&self, name: &str) -> Option<&[u8]>
        ensures { MatchOption result (file_in self.now.files name.now ≡ None) (λ b. file_in self.now.files name.now ≡ Some b.now) }
    {
        bytes_of(&self.files, name.as_bytes())
    }

    /// All that was said.
    pub fn said(&self) -> &[u8]
        ensures { result.now ≡ self.now.said }
    {
        self.said.as_slice()
    }

    /// The read faults and the write faults together.
    pub fn faults(&self) -> u128
        ensures { result ≡ self.now.counts.read_faults + self.now.counts.write_faults }
    {
        self.counts.read_faults as u128 + self.counts.write_faults as u128
    }
}

impl Shelf for MemoryShelf {
    ghost use Rattle.eme_edge.specs.Memory.{Memory, memory_state, read_fails, after_read, after_start, after_append, after_say};

    ghost state = { memory_state };

    fn read(&mut self, name: &str, place: u64, buf: &mut [u8]) -> Result<usize, ShelfFault>
        ensures within { IfOk result (λ n. n ≤ length buf.new) }
        ensures bytes { ReadsFile (file_in self.old.files name.now) place buf.new result }
        ensures files { FilesKept (file_in self.old.files) (file_in self.new.files) }
        ensures said { self.new.said ≡ self.old.said }
        ensures failed { FailsExactly (read_fails self.old name.now) result }
        ensures memory { IsErrOf result ShelfFault.OutOfMemory → ⊥ }
        ensures counts { self.new.counts ≡ after_read self.old name.now }
        ensures tells { TellsAlike (memory_state self.old) (memory_state self.new) }
        ensures cause { ReadCause (memory_state self.old) (memory_state self.new) name.now result }
    {
        let fails = self.counts.reads.next_fails();
        self.counts.reads.count();
        match bytes_of(&self.files, name.as_bytes()) {
            None => Err(ShelfFault::Failed),
            Some(bytes) => {
                if fails {
                    self.counts.read_faults = one_more(self.counts.read_faults);
                    return Err(ShelfFault::Failed);
                }
                Ok(copy_at(bytes, place, buf))
            }
        }
    }

    fn start(&mut self, name: &str) -> Result<(), ShelfFault>
        ensures file { OnOk result (file_in self.new.files name.now ≡ Some []) }
        ensures others { OthersKept (file_in self.old.files) (file_in self.new.files) name.now }
        ensures err { OnErr result (FilesKept (file_in self.old.files) (file_in self.new.files)) }
        ensures said { self.new.said ≡ self.old.said }
        ensures failed { FailsExactly (next_fails self.old.counts.starts) result }
        ensures counts { self.new.counts ≡ after_start self.old.counts result }
        ensures tells { TellsAlike (memory_state self.old) (memory_state self.new) }
        ensures cause { WriteCause (memory_state self.old) (memory_state self.new) result }
    {
        if self.counts.starts.next_fails() {
            self.counts.starts.count();
            self.counts.write_faults = one_more(self.counts.write_faults);
            return Err(ShelfFault::Failed);
        }
        let empty = Bytes::new(self.alloc);
        match put(self.alloc, &mut self.files, name.as_bytes(), empty) {
            Ok(()) => {
                self.counts.starts.count();
                Ok(())
            }
            Err(_) => Err(ShelfFault::OutOfMemory),
        }
    }

    fn append(&mut self, name: &str, bytes: &[u8]) -> Result<(), ShelfFault>
        requires { IsSome (file_in self.old.files name.now) }
        ensures file { OnOk result (HoldsMore (file_in self.old.files name.now) bytes.now (file_in self.new.files name.now)) }
        ensures half { IsErrOf result ShelfFault.Failed → HoldsMore (file_in self.old.files name.now) (take (length bytes.now / 2) bytes.now) (file_in self.new.files name.now) }
        ensures memory { IsErrOf result ShelfFault.OutOfMemory → FilesKept (file_in self.old.files) (file_in self.new.files) }
        ensures part { OnErr result (HoldsPart (file_in self.old.files name.now) bytes.now (file_in self.new.files name.now)) }
        ensures others { OthersKept (file_in self.old.files) (file_in self.new.files) name.now }
        ensures said { self.new.said ≡ self.old.said }
        ensures failed { FailsExactly (next_fails self.old.counts.appends) result }
        ensures counts { self.new.counts ≡ after_append self.old.counts result }
        ensures tells { TellsAlike (memory_state self.old) (memory_state self.new) }
        ensures cause { WriteCause (memory_state self.old) (memory_state self.new) result }
    {
        let fails = self.counts.appends.next_fails();
        let piece = kept_of(bytes, fails);
        if add_to(&mut self.files, name.as_bytes(), piece).is_err() {
            return Err(ShelfFault::OutOfMemory);
        }
        self.counts.appends.count();
        if fails {
            self.counts.write_faults = one_more(self.counts.write_faults);
            return Err(ShelfFault::Failed);
        }
        Ok(())
    }

    fn say(&mut self, bytes: &[u8]) -> Result<(), ShelfFault>
        ensures said { OnOk result (self.new.said ≡ self.old.said ++ bytes.now) }
        ensures half { IsErrOf result ShelfFault.Failed → self.new.said ≡ self.old.said ++ take (length bytes.now / 2) bytes.now }
        ensures memory { IsErrOf result ShelfFault.OutOfMemory → self.new.said ≡ self.old.said }
        ensures part { OnErr result (SaidPart self.old.said bytes.now self.new.said) }
        ensures files { FilesKept (file_in self.old.files) (file_in self.new.files) }
        ensures failed { FailsExactly (next_fails self.old.counts.says) result }
        ensures counts { self.new.counts ≡ after_say self.old.counts result }
        ensures tells { TellsAlike (memory_state self.old) (memory_state self.new) }
        ensures cause { WriteCause (memory_state self.old) (memory_state self.new) result }
    {
        let fails = self.counts.says.next_fails();
        let piece = kept_of(bytes, fails);
        if self.said.extend_from_slice(piece).is_err() {
            return Err(ShelfFault::OutOfMemory);
        }
        self.counts.says.count();
        if fails {
            self.counts.write_faults = one_more(self.counts.write_faults);
            return Err(ShelfFault::Failed);
        }
        Ok(())
    }
}

/// What a call keeps of its piece: the first half, rounded down, where it fails.
fn kept_of(bytes: &[u8], fails: bool) -> &[u8]
    ensures whole { fails ≡ false → result.now ≡ bytes.now }
    ensures half { fails ≡ true → result.now ≡ take (length bytes.now / 2) bytes.now }
{
    if fails {
        return &bytes[..bytes.len() / 2];
    }
    bytes
}

fn copy_at(bytes: &[u8], place: u64, buf: &mut [u8]) -> usize
    ensures count { result ≡ min (length buf.old) (length bytes.now - place) }
    ensures bytes { take result buf.new ≡ take result (drop place bytes.now) }
{
    let len = bytes.len();
    let at = place as usize;
    if at >= len {
        return 0;
    }
    let n = buf.len().min(len - at);
    buf[..n].copy_from_slice(&bytes[at..at + n]);
    n
}
