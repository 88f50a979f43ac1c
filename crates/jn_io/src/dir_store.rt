//! A store over real files.
ghost use Rattle.std.specs.Prelude.{◌≡◌, ◌<◌, None, length};
ghost use Rattle.std.specs.Io.{ReadsAtMost};
ghost use Rattle.std.specs.Io.KnownBytes.{ReadConsumes};

use crate::calls::count_after;
use crate::store::Store;
use crate::{Failed, SaveFault};
use arrayvec::ArrayString;
use std::fs::{self, File, OpenFile};
use std::io::{self, Read, Write};
use std::marker::Model;
use std::rt::Files;

// The longest name of the file that stands in until it is whole.
const NAME_MAX: usize = 4096;

/// Reads and saves the files that the runtime gives. It tells no content.
///
/// Each of its two counts is a u64 that starts at 0, and is raised where a call answers `Failed`. A file that isn't there
/// is such a failure, and so is a folder, when it is read. It takes no memory, so `save` never answers `Memory`.
///
/// `save` writes a new file beside the one to be saved, of its name and `.jandc-part`, and puts it in its place once it is
/// whole, so that a failure leaves the old one. What is no ordinary file, as a device or a link, is written in place.
#[derive(Drop)]
pub struct DirStore<'a, R: Files> {
    rt: &'a R,
    open: Option<R::File>,
    read_faults: u64,
    save_faults: u64,
}

impl<'a, R: Files> Model for DirStore<'a, R> {
    ghost use Rattle.jn_io.specs.FaultCounts.{FaultCounts};

    ghost Value = { FaultCounts };

    ghost view = { λ s. record { read_faults = s.read_faults; save_faults = s.save_faults } };
}

impl<'a, R: Files> DirStore<'a, R> {
    /// A store with nothing to read, whose counts are 0.
    pub fn new(rt: &'a R) -> DirStore<'a, R>
        ensures { result ≡ record { read_faults = 0; save_faults = 0 } }
    {
        DirStore {
            rt,
            open: None,
            read_faults: 0,
            save_faults: 0,
        }
    }
}

impl<'a, R: Files> Store for DirStore<'a, R> {
    ghost files = { λ _. None };

    ghost rest = { λ _. None };

    ghost read_faults = { λ s. s.read_faults };

    ghost save_faults = { λ s. s.save_faults };

    fn begin(&mut self, name: &str) -> Result<(), Failed> {
        self.open = File::open(self.rt, name).ok();
        let failed = self.open.is_none();
        self.read_faults = count_after(failed, self.read_faults);
        if failed { Err(Failed) } else { Ok(()) }
    }

    fn read(&mut self, buf: &mut [u8]) -> Result<usize, Failed> {
        let Some(file) = &mut self.open else {
            return Ok(0);
        };
        match read_some(file, buf) {
            Ok(n) => Ok(n),
            Err(_) => {
                self.read_faults = count_after(true, self.read_faults);
                Err(Failed)
            }
        }
    }

    fn save(&mut self, name: &str, bytes: &[u8]) -> Result<(), SaveFault> {
        match save_whole(self.rt, name, bytes) {
            Ok(()) => Ok(()),
            Err(_) => {
                self.save_faults = count_after(true, self.save_faults);
                Err(SaveFault::Failed)
            }
        }
    }
}

// One read, made again where a signal cut it off.
fn read_some<F: Read>(file: &mut F, buf: &mut [u8]) -> io::Result<usize>
    ensures bound { ReadsAtMost result buf.new }
{
    for _ in 0..u64::MAX {
        match file.read(buf) {
            Err(e) if e.kind() == io::ErrorKind::Interrupted => {}
            done => return done,
        }
    }
    Err(io::ErrorKind::Interrupted.into())
}

// Makes the file hold the bytes, in one step where it is an ordinary file or not there.
fn save_whole<R: Files>(rt: &R, name: &str, bytes: &[u8]) -> io::Result<()> {
    if let Ok(found) = fs::symlink_metadata(rt, name)
        && !found.is_file()
    {
        return fs::write(rt, name, bytes);
    }
    let mut beside = ArrayString::<NAME_MAX>::new();
    if beside.try_push_str(name).is_err() || beside.try_push_str(".jandc-part").is_err() {
        return Err(io::ErrorKind::InvalidFilename.into());
    }
    // One that a run cut off has left.
    let _ = fs::remove_file(rt, beside.as_str());
    let saved = replace(rt, beside.as_str(), name, bytes);
    if saved.is_err() {
        let _ = fs::remove_file(rt, beside.as_str());
    }
    saved
}

// Writes a new file, and gives it the other's name.
fn replace<R: Files>(rt: &R, new: &str, name: &str, bytes: &[u8]) -> io::Result<()> {
    let mut file = File::create_new(rt, new)?;
    file.write_all(bytes)?;
    file.sync_all()?;
    fs::rename(rt, new, name)
}
