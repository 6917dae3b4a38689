// A shelf over real files and standard output.
ghost use Rattle.std.specs.Prelude.{◌≡◌, ◌≤◌, length, IfOk};

use crate::shelf::{Shelf, ShelfFault};
use std::fs::{Files, OpenOptions};
use std::io::{ErrorKind, Read, Seek, SeekFrom, Write, writer};
use std::{fs, io};

/// Real files and standard output. It tells nothing of their bytes.
#[derive(Drop)]
pub struct HostShelf<'a, R> {
    rt: &'a R,
    read_faults: u64,
    write_faults: u64,
}

impl<'a, R: Files + Print> HostShelf<'a, R> {
    /// The shelf of this runtime. No fault is counted yet.
    pub fn new(rt: &'a R) -> HostShelf<'a, R>
        ensures reads { result.read_faults ≡ 0 }
        ensures writes { result.write_faults ≡ 0 }
    {
        HostShelf {
            rt,
            read_faults: 0,
            write_faults: 0,
        }
    }
}

impl<'a, R: Files + Print> Shelf for HostShelf<'a, R> {
    ghost use Rattle.eme_edge.specs.Host.{host_state};

    ghost state = { λ h. host_state h.read_faults h.write_faults };

    fn read(&mut self, name: &str, place: u64, buf: &mut [u8]) -> Result<usize, ShelfFault> {
        match read_at(self.rt, name, place, buf) {
            Ok(count) => Ok(count),
            Err(_) => {
                self.read_faults = self.read_faults.saturating_add(1);
                Err(ShelfFault::Failed)
            }
        }
    }

    fn start(&mut self, name: &str) -> Result<(), ShelfFault> {
        if start_file(self.rt, name).is_err() {
            self.write_faults = self.write_faults.saturating_add(1);
            return Err(ShelfFault::Failed);
        }
        Ok(())
    }

    fn append(&mut self, name: &str, bytes: &[u8]) -> Result<(), ShelfFault> {
        if append_to(self.rt, name, bytes).is_err() {
            self.write_faults = self.write_faults.saturating_add(1);
            return Err(ShelfFault::Failed);
        }
        Ok(())
    }

    fn say(&mut self, bytes: &[u8]) -> Result<(), ShelfFault> {
        if write_whole(&mut writer(self.rt), bytes).is_err() {
            self.write_faults = self.write_faults.saturating_add(1);
            return Err(ShelfFault::Failed);
        }
        Ok(())
    }
}

fn read_at<R: Files>(rt: &R, name: &str, place: u64, buf: &mut [u8]) -> io::Result<usize>
    ensures { IfOk result (λ n. n ≤ length buf.new) }
{
    let mut file = fs::open(rt, name)?;
    file.seek(SeekFrom::Start(place))?;
    fill(&mut file, buf)
}

/// Reads until the buffer is full or the input has ended.
fn fill<T: Read>(input: &mut T, buf: &mut [u8]) -> io::Result<usize>
    ensures { IfOk result (λ n. n ≤ length buf.new) }
{
    let mut filled = 0;
    'reads: for _ in 0..u64::MAX {
        if filled == buf.len() {
            return Ok(filled);
        }
        match input.read(&mut buf[filled..]) {
            Ok(0) => return Ok(filled),
            Ok(count) => filled += count,
            Err(e) => {
                if e.kind() != ErrorKind::Interrupted {
                    return Err(e);
                }
            }
        }
    }
    Err(io::Error::from(ErrorKind::Interrupted))
}

fn start_file<R: Files>(rt: &R, name: &str) -> io::Result<()> {
    let _file = fs::create(rt, name)?;
    Ok(())
}

fn append_to<R: Files>(rt: &R, name: &str, bytes: &[u8]) -> io::Result<()> {
    let mut file = OpenOptions::new().append(true).open(rt, name)?;
    write_whole(&mut file, bytes)
}

/// Writes until nothing is left. A write that takes nothing is a failure.
fn write_whole<T: Write>(output: &mut T, bytes: &[u8]) -> io::Result<()> {
    let mut rest = bytes;
    'writes: for _ in 0..u64::MAX {
        if rest.is_empty() {
            return Ok(());
        }
        match output.write(rest) {
            Ok(0) => return Err(io::Error::from(ErrorKind::WriteZero)),
            Ok(count) => {
                let (_, left) = rest.split_at(count);
                rest = left;
            }
            Err(e) => {
                if e.kind() != ErrorKind::Interrupted {
                    return Err(e);
                }
            }
        }
    }
    Err(io::Error::from(ErrorKind::Interrupted))
}
