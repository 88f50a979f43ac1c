ghost use Rattle.std.specs.Prelude.{◌≡◌, ◌<◌, ◌≤◌, [], ◌∷◌, IfOk, Some, drop, length, slice_get};

use std::alloc::{AllocError, Global};
use std::marker::Model;

/// The operands of a frame, the latest first, in memory that was taken before.
#[derive(Drop)]
pub struct Operands {
    words: Vec<i64>,
    top: usize,
}

impl Model for Operands {
    ghost use Rattle.std.specs.Prelude.{◌≤◌, reverse, take, vec_len};
    ghost use Rattle.jn_machine.specs.Held.{Held};

    ghost Value = { Held };

    ghost view = { λ s. record { limit = vec_len s.words; words = reverse (take s.top s.words.items) } };

    ghost invariant = { λ s. s.top ≤ vec_len s.words };
}

impl Operands {
    /// Room for that many, and none yet.
    pub fn make(alloc: Global, limit: usize) -> Result<Operands, AllocError>
        ensures { IfOk result (λ s. s ≡ record { limit = limit; words = [] }) }
    {
        let words = vec![in alloc; 0; limit]?;
        Ok(Operands { words, top: 0 })
    }

    pub fn put(&mut self, z: i64)
        requires { length self.old.words < self.old.limit }
        ensures words { self.new.words ≡ z ∷ self.old.words }
        ensures limit { self.new.limit ≡ self.old.limit }
    {
        self.words[self.top] = z;
        self.top += 1;
    }

    pub fn take(&mut self) -> i64
        requires { 0 < length self.old.words }
        ensures words { self.old.words ≡ result ∷ self.new.words }
        ensures limit { self.new.limit ≡ self.old.limit }
    {
        self.top -= 1;
        self.words[self.top]
    }

    /// That many back; the latest is number 0.
    pub fn peek(&self, back: usize) -> i64
        requires { back < length self.now.words }
        ensures { slice_get self.now.words back ≡ Some result }
    {
        self.words[self.top - 1 - back]
    }

    /// Drops the latest, that many.
    pub fn forget(&mut self, count: usize)
        requires { count ≤ length self.old.words }
        ensures words { self.new.words ≡ drop count self.old.words }
        ensures limit { self.new.limit ≡ self.old.limit }
    {
        let mut left = count;
        while left > 0 {
            left -= 1;
            self.take();
        }
    }

    pub fn clear(&mut self)
        ensures words { self.new.words ≡ [] }
        ensures limit { self.new.limit ≡ self.old.limit }
    {
        self.top = 0;
    }
}
