ghost use Rattle.std.specs.Prelude.{◌≡◌, ◌<◌, ◌≤◌, ◌+◌, [], ◌∷◌, ◌++◌, pos, IfOk, length, replicate, slice_get, slice_set, Some};

use std::alloc::{AllocError, Global};
use std::marker::Model;

/// The cells that are used, in memory that was taken before.
#[derive(Drop)]
pub struct Heap {
    words: Vec<i64>,
    limit: usize,
}

impl Model for Heap {
    ghost use Rattle.std.specs.Prelude.{◌≤◌, vec_len, vec_capacity};
    ghost use Rattle.jn_machine.specs.Held.{Held};

    ghost Value = { Held };

    ghost view = { λ s. record { limit = s.limit; words = s.words.items } };

    ghost invariant = { λ s. (vec_len s.words ≤ s.limit) × (s.limit ≤ vec_capacity s.words) };
}

impl Heap {
    /// Room for that many cells, and none used yet.
    pub fn make(alloc: Global, limit: usize) -> Result<Heap, AllocError>
        ensures { IfOk result (λ s. s ≡ record { limit = limit; words = [] }) }
    {
        let words = Vec::with_capacity(alloc, limit)?;
        Ok(Heap { words, limit })
    }

    pub fn used(&self) -> usize
        ensures used { result ≡ length self.now.words }
        ensures most { result ≤ self.now.limit }
    {
        self.words.len()
    }

    pub fn limit(&self) -> usize
        ensures { result ≡ self.now.limit }
    {
        self.limit
    }

    /// A new object behind the used cells: the word of its group, and a 0 for each slot. It takes no memory.
    pub fn add(&mut self, group: i64, slots: usize)
        requires { length self.old.words + slots < self.old.limit }
        ensures words { self.new.words ≡ self.old.words ++ group ∷ replicate slots (pos 0) }
        ensures limit { self.new.limit ≡ self.old.limit }
    {
        let used = self.words.len();
        match self.words.push(group) {
            Ok(()) => {}
            Err(_) => unreachable!(),
        }
        match self.words.resize(used + 1 + slots, 0) {
            Ok(()) => {}
            Err(_) => unreachable!(),
        }
    }

    pub fn get(&self, at: usize) -> i64
        requires { at < length self.now.words }
        ensures { slice_get self.now.words at ≡ Some result }
    {
        self.words[at]
    }

    pub fn set(&mut self, at: usize, z: i64)
        requires { at < length self.old.words }
        ensures words { self.new.words ≡ slice_set self.old.words at z }
        ensures limit { self.new.limit ≡ self.old.limit }
    {
        self.words[at] = z;
    }
}
