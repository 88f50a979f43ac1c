ghost use Rattle.std.specs.Prelude.{◌≡◌, ◌<◌, ◌≤◌, [], pos, IfOk, length, replicate, slice_get, slice_set, Some};

use std::alloc::{AllocError, Global};
use std::marker::Model;

/// The variables of a frame, in memory that was taken before.
#[derive(Drop)]
pub struct Locals {
    words: Vec<i64>,
    limit: usize,
}

impl Model for Locals {
    ghost use Rattle.std.specs.Prelude.{◌≤◌, vec_len, vec_capacity};
    ghost use Rattle.jn_machine.specs.Held.{Held};

    ghost Value = { Held };

    ghost view = { λ s. record { limit = s.limit; words = s.words.items } };

    ghost invariant = { λ s. (vec_len s.words ≤ s.limit) × (s.limit ≤ vec_capacity s.words) };
}

impl Locals {
    /// Room for that many, and none yet.
    pub fn make(alloc: Global, limit: usize) -> Result<Locals, AllocError>
        ensures { IfOk result (λ s. s ≡ record { limit = limit; words = [] }) }
    {
        let words = Vec::with_capacity(alloc, limit)?;
        Ok(Locals { words, limit })
    }

    /// That many zeros, and nothing else. It takes no memory.
    pub fn fill(&mut self, count: usize)
        requires { count ≤ self.old.limit }
        ensures words { self.new.words ≡ replicate count (pos 0) }
        ensures limit { self.new.limit ≡ self.old.limit }
    {
        self.words.clear();
        match self.words.resize(count, 0) {
            Ok(()) => {}
            Err(_) => unreachable!(),
        }
    }

    pub fn get(&self, at: usize) -> i64
        requires { at < length self.now.words }
        ensures { slice_get self.now.words at ≡ Some result }
    {
        self.words[at]
    }

    pub fn set(&mut self, at: usize, z: i64)
        requires { at < length self.old.words }
        ensures words { self.new.words ≡ slice_set self.old.words at z }
        ensures limit { self.new.limit ≡ self.old.limit }
    {
        self.words[at] = z;
    }
}
