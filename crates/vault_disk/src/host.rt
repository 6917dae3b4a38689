// A disk that is a real file.
ghost use Rattle.std.specs.Prelude.{◌≡◌, IfOk, Ok};
ghost use Rattle.vault_disk.specs.Host.{Counts};

use crate::disk::{DiskFailed, VaultDisk};
use crate::locked::LockedFile;
use std::alloc::AllocError;
use std::fs::{File, Files};
use std::io;

/// A real file. It tells nothing of its bytes. A missing file counts as empty, and only a write makes it. The disk has its file alone:
/// from the first call that finds or makes it until the disk is gone, each call of another disk on that file fails.
#[derive(Drop)]
pub struct HostDisk<'a, R> {
    file: LockedFile<'a, R>,
    faults: u64,
}

impl<'a, R: Files<File = File>> HostDisk<'a, R> {
    /// The file of that name, which is not looked for before the first call. No fault is counted yet.
    pub fn new(rt: &'a R, name: &'a str) -> HostDisk<'a, R>
        ensures { result.faults ≡ 0 }
    {
        HostDisk {
            file: LockedFile::new(rt, name),
            faults: 0,
        }
    }

    /// The answer of a call, and its fault counted.
    fn counted<T>(&mut self, answer: io::Result<T>) -> Result<T, DiskFailed>
        ensures cause { Counts self.old.faults self.new.faults result }
        ensures value { IfOk result (λ x. answer ≡ Ok x) }
    {
        match answer {
            Ok(value) => Ok(value),
            Err(_) => {
                self.faults = self.faults.saturating_add(1);
                Err(DiskFailed)
            }
        }
    }
}

impl<'a, R: Files<File = File>> VaultDisk for HostDisk<'a, R> {
    ghost use Rattle.vault_disk.specs.Host.{host_state};

    ghost state = { λ h. host_state h.faults };

    ghost may_leave = { λ h c. Unit {0} };

    ghost left_since = { λ h t c. Unit {0} };

    ghost counts_now = { λ h t c le left. tt };

    ghost only_now = { λ h c left. tt };

    ghost reads_left = { λ h told. tt };

    fn ready(&mut self, _: u64) -> Result<(), AllocError> {
        Ok(())
    }

    fn size(&mut self) -> Result<u64, DiskFailed> {
        let answer = self.file.size();
        self.counted(answer)
    }

    fn read(&mut self, place: u64, buf: &mut [u8]) -> Result<usize, DiskFailed> {
        let answer = self.file.read_at(place, buf);
        self.counted(answer)
    }

    fn write_at(&mut self, place: u64, bytes: &[u8]) -> Result<(), DiskFailed> {
        let answer = self.file.write_at(place, bytes);
        self.counted(answer)
    }

    fn sync(&mut self) -> Result<(), DiskFailed> {
        let answer = self.file.sync();
        self.counted(answer)
    }
}
