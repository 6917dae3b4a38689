// A real file that one opener alone has.
ghost use Rattle.std.specs.Prelude.{◌≤◌, length, IfOk};

use std::fs::{File, Files, OpenOptions};
use std::io::{ErrorKind, Read, Seek, SeekFrom, Write};
use std::path::Path;
use std::{fs, io};

/// What was found under the name.
#[derive(Drop)]
enum Found {
    NotLooked,
    /// There was none. It counts as empty, and one that another makes meanwhile is not taken for it.
    Missing,
    /// The open file. The lock on it ends with it.
    Locked(File),
}

/// The file of a name. The first call that finds it locks it against each other opener, and a call that gets no lock reads and writes
/// nothing. The lock ends with this value, and with the process.
#[derive(Drop)]
pub struct LockedFile<'a, R> {
    rt: &'a R,
    name: &'a str,
    found: Found,
}

impl<'a, R: Files<File = File>> LockedFile<'a, R> {
    pub fn new(rt: &'a R, name: &'a str) -> LockedFile<'a, R> {
        LockedFile {
            rt,
            name,
            found: Found::NotLooked,
        }
    }

    /// Looks for the file once, and locks it.
    fn look(&mut self) -> io::Result<()> {
        if let Found::NotLooked = self.found {
            self.found = find(self.rt, self.name)?;
        }
        Ok(())
    }

    pub fn size(&mut self) -> io::Result<u64> {
        self.look()?;
        match &self.found {
            Found::Locked(file) => Ok(file.metadata()?.len()),
            _ => Ok(0),
        }
    }

    pub fn read_at(&mut self, place: u64, buf: &mut [u8]) -> io::Result<usize>
        ensures { IfOk result (λ n. n ≤ length buf.new) }
    {
        self.look()?;
        match &mut self.found {
            Found::Locked(file) => {
                file.seek(SeekFrom::Start(place))?;
                fill(file, buf)
            }
            _ => Ok(0),
        }
    }

    /// Writes all of the bytes at the place. A file that this makes stands locked in its folder before they are written.
    pub fn write_at(&mut self, place: u64, bytes: &[u8]) -> io::Result<()> {
        self.look()?;
        if let Found::Locked(file) = &mut self.found {
            return write_bytes(file, place, bytes);
        }
        let mut file = make(self.rt, self.name)?;
        let answer = write_bytes(&mut file, place, bytes);
        self.found = Found::Locked(file);
        answer
    }

    pub fn sync(&mut self) -> io::Result<()> {
        self.look()?;
        match &self.found {
            Found::Locked(file) => file.sync_data(),
            _ => Ok(()),
        }
    }
}

fn find<R: Files<File = File>>(rt: &R, name: &str) -> io::Result<Found> {
    match OpenOptions::new().read(true).write(true).open(rt, name) {
        Ok(file) => {
            file.try_lock()?;
            Ok(Found::Locked(file))
        }
        Err(e) if e.kind() == ErrorKind::NotFound => Ok(Found::Missing),
        Err(e) => Err(e),
    }
}

/// Makes the file, locks it, and writes its folder to the disk. A file that is there by now is another's.
fn make<R: Files<File = File>>(rt: &R, name: &str) -> io::Result<File> {
    let file = File::create_new(rt, name)?;
    file.try_lock()?;
    sync_folder(rt, name)?;
    Ok(file)
}

fn sync_folder<R: Files<File = File>>(rt: &R, name: &str) -> io::Result<()> {
    let folder = match Path::new(name).parent() {
        Some(folder) if !folder.as_str().is_empty() => folder.as_str(),
        _ => ".",
    };
    let opened = fs::open(rt, folder)?;
    opened.sync_all()
}

/// Reads until the buffer is full or the input has ended.
fn fill<T: Read>(input: &mut T, buf: &mut [u8]) -> io::Result<usize>
    ensures { IfOk result (λ n. n ≤ length buf.new) }
{
    let mut filled = 0;
    'reads: for _ in 0..u64::MAX {
        if filled == buf.len() {
            return Ok(filled);
        }
        match input.read(&mut buf[filled..]) {
            Ok(0) => return Ok(filled),
            Ok(count) => filled += count,
            Err(e) => {
                if e.kind() != ErrorKind::Interrupted {
                    return Err(e);
                }
            }
        }
    }
    Err(io::Error::from(ErrorKind::Interrupted))
}

fn write_bytes(file: &mut File, place: u64, bytes: &[u8]) -> io::Result<()> {
    file.seek(SeekFrom::Start(place))?;
    file.write_all(bytes)
}
