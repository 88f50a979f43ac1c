//! A store in memory, which fails where it is told to.
ghost use Rattle.std.specs.Prelude.{◌≡◌, ◌<◌, [], if◌then◌else◌, ◌&&◌, not, length, Some, is_ok, IsTrue, IsErrOf, IfOk, OnOk, OnErr, ◌↔◌};
ghost use Rattle.std.specs.Option.{option_map};
ghost use Rattle.std.specs.FinMap as map;
ghost use Rattle.std.specs.Io.{ReadsAtMost};
ghost use Rattle.jn_io.specs.Told.{Reads};
ghost use Rattle.jn_io.specs.MemStoreState.{is_listed, begun_rest, after_reading, after_saving};

use crate::calls::{Calls, count_after};
use crate::mem_files::{self, MemFile, Reading};
use crate::store::Store;
use crate::{Failed, SaveFault};
use std::alloc::{AllocError, Global};
use std::marker::Model;

/// Keeps files by name. It tells all.
///
/// Its calls of `begin`, `read` and `save` are numbered together from 1, and the number stays at
/// 18,446,744,073,709,551,615. It fails exactly at the calls whose numbers are listed, which raise the count, and where
/// `begin` names no file, which doesn't. What is begun stays to be read as it is, also where its file is saved again.
#[derive(Drop)]
pub struct MemStore {
    alloc: Global,
    saves: Vec<MemFile>,
    open: Option<Reading>,
    calls: Calls,
    read_faults: u64,
    save_faults: u64,
}

impl Model for MemStore {
    ghost use Rattle.std.specs.Option.{ForSome};
    ghost use Rattle.jn_io.specs.MemStoreState.{MemStoreState, state_code};

    ghost Value = { MemStoreState };

    ghost coded = { state_code };

    ghost use Rattle.jn_io.specs.MemFiles.{files_of, rest_of, IsWithin};

    ghost view = { λ s. record {
      files = files_of s.saves.items;
      rest = rest_of s.saves.items s.«open»;
      fails = s.calls.fails.items;
      calls = s.calls.last;
      read_faults = s.read_faults;
      save_faults = s.save_faults;
    } };

    ghost invariant = { λ s. ForSome s.«open» (IsWithin s.saves.items) };
}

impl MemStore {
    /// A store with no file and nothing to read, whose counts are 0.
    pub fn new(alloc: Global, fails: &[u64]) -> Result<MemStore, AllocError>
        ensures { IfOk result (λ store. store ≡ record {
          files = map.empty;
          rest = [];
          fails = fails.now;
          calls = 0;
          read_faults = 0;
          save_faults = 0;
        }) }
    {
        let calls = Calls::new(alloc, fails)?;
        Ok(MemStore {
            alloc,
            saves: Vec::new(alloc),
            open: None,
            calls,
            read_faults: 0,
            save_faults: 0,
        })
    }

    /// Makes a file hold these bytes. It is no call that is numbered.
    pub fn add(&mut self, name: &str, bytes: &[u8]) -> Result<(), AllocError>
        ensures ok { OnOk result (self.new ≡ record self.old { files = map.insert self.old.files name.now bytes.now }) }
        ensures err { OnErr result (self.new ≡ self.old) }
    {
        mem_files::add(self.alloc, &mut self.saves, name, bytes)
    }

    /// What a file holds, or `None` where there is none of this name.
    pub fn file(&self, name: &str) -> Option<&[u8]>
        ensures { option_map (λ bytes. bytes.now) result ≡ map.get self.now.files name.now }
    {
        let k = mem_files::find(&self.saves, name)?;
        Some(self.saves[k].bytes.as_slice())
    }
}

impl Store for MemStore {
    ghost files = { λ s. Some s.files };

    ghost rest = { λ s. Some s.rest };

    ghost read_faults = { λ s. s.read_faults };

    ghost save_faults = { λ s. s.save_faults };

    fn begin(&mut self, name: &str) -> Result<(), Failed>
        ensures state { self.new ≡ after_reading self.old (begun_rest self.old name.now) }
        ensures answer { is_ok result ≡ (not (is_listed self.old) && map.contains_key self.old.files name.now) }
    {
        let listed = self.calls.next();
        self.read_faults = count_after(listed, self.read_faults);
        self.open = None;
        if listed {
            return Err(Failed);
        }
        match mem_files::find(&self.saves, name) {
            Some(save) => {
                self.open = Some(Reading { save, taken: 0 });
                Ok(())
            }
            None => Err(Failed),
        }
    }

    fn read(&mut self, buf: &mut [u8]) -> Result<usize, Failed>
        requires { 0 < length buf.old }
        ensures bound { ReadsAtMost result buf.new }
        ensures rest { Reads (Some self.old.rest) (Some self.new.rest) result buf.new }
        ensures state { self.new ≡ after_reading self.old self.new.rest }
        ensures answer { is_ok result ≡ not (is_listed self.old) }
    {
        let listed = self.calls.next();
        self.read_faults = count_after(listed, self.read_faults);
        if listed {
            return Err(Failed);
        }
        let Some(reading) = self.open else {
            return Ok(0);
        };
        let n = mem_files::read(&self.saves, reading, buf);
        self.open = Some(Reading {
            taken: reading.taken + n,
            ..reading
        });
        Ok(n)
    }

    fn save(&mut self, name: &str, bytes: &[u8]) -> Result<(), SaveFault>
        ensures state { self.new ≡ after_saving self.old
            (if is_ok result then map.insert self.old.files name.now bytes.now else self.old.files) }
        ensures answer { IsErrOf result SaveFault.Failed ↔ IsTrue (is_listed self.old) }
    {
        let listed = self.calls.next();
        self.save_faults = count_after(listed, self.save_faults);
        if listed {
            return Err(SaveFault::Failed);
        }
        match mem_files::add(self.alloc, &mut self.saves, name, bytes) {
            Ok(()) => Ok(()),
            Err(AllocError) => Err(SaveFault::Memory),
        }
    }
}
