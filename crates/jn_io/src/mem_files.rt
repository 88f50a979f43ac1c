//! The saves of a store in memory. None is taken away, so what is open for reading stays as it was begun.
ghost use Rattle.std.specs.Prelude.{◌≡◌, ◌<◌, ◌≤◌, ◌∷◌, [], ◌++◌, min, length, take, string_bytes, MatchOption, None, Some, OnOk, OnErr};
ghost use Rattle.std.specs.FinMap.{get};
ghost use Rattle.jn_io.specs.MemFiles.{files_of, bytes_at, rest_of, taken_further, IsWithin, AddsFile};

use std::alloc::{AllocError, Global};

/// What was saved under a name.
#[derive(Drop)]
pub(crate) struct MemFile {
    pub(crate) name: String,
    pub(crate) bytes: Vec<u8>,
}

/// The save that is open for reading, and how many of its bytes were taken.
#[derive(Clone, Copy)]
pub(crate) struct Reading {
    pub(crate) save: usize,
    pub(crate) taken: usize,
}

/// The last save under this name.
pub(crate) fn find(saves: &[MemFile], name: &str) -> Option<usize>
    ensures { MatchOption result (get (files_of saves.now) name.now ≡ None)
        (λ k. (k < length saves.now) × (get (files_of saves.now) name.now ≡ bytes_at saves.now k)) }
{
    let mut found = None;
    for (k, file) in saves.iter().enumerate() {
        if file.name.as_str() == name {
            found = Some(k);
        }
    }
    found
}

/// Adds a save.
pub(crate) fn add(
    alloc: Global,
    saves: &mut Vec<MemFile>,
    name: &str,
    bytes: &[u8],
) -> Result<(), AllocError>
    ensures ok { OnOk result (AddsFile saves.old.items saves.new.items name.now bytes.now) }
    ensures err { OnErr result (saves.new.items ≡ saves.old.items) }
{
    let name = String::from_str(alloc, name)?;
    let bytes = Vec::from_slice(alloc, bytes)?;
    saves.push(MemFile { name, bytes })?;
    Ok(())
}

/// Takes some of what is open into the front of `buf`, and says how many bytes.
pub(crate) fn read(saves: &[MemFile], reading: Reading, buf: &mut [u8]) -> usize
    requires within { IsWithin saves.now reading }
    requires room { 0 < length buf.old }
    ensures bytes { rest_of saves.now (Some reading)
        ≡ take result buf.new ++ rest_of saves.now (Some (taken_further reading result)) }
    ensures end { result ≡ 0 → rest_of saves.now (Some reading) ≡ [] }
    ensures within { IsWithin saves.now (taken_further reading result) }
    ensures bound { result ≤ length buf.new }
{
    let bytes = saves[reading.save].bytes.as_slice();
    copy_front(buf, &bytes[reading.taken..])
}

/// Copies as many of the bytes as there is room for, and says how many.
fn copy_front(buf: &mut [u8], bytes: &[u8]) -> usize
    ensures count { result ≡ min (length buf.old) (length bytes.now) }
    ensures front { take result buf.new ≡ take result bytes.now }
    ensures room { length buf.new ≡ length buf.old }
{
    let n = buf.len().min(bytes.len());
    buf[..n].copy_from_slice(&bytes[..n]);
    n
}
