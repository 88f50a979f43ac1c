//! Calls that are numbered, of which some are to fail.
ghost use Rattle.std.specs.Prelude.{◌≡◌, IfOk};
ghost use Rattle.jn_io.specs.Calls.{one_more, is_next_listed, count_after};

use std::alloc::{AllocError, Global};

/// The numbers of the calls that are to fail, and that of the last call, 0 before the first.
#[derive(Drop)]
pub(crate) struct Calls {
    pub(crate) fails: Vec<u64>,
    pub(crate) last: u64,
}

impl Calls {
    pub(crate) fn new(alloc: Global, fails: &[u64]) -> Result<Calls, AllocError>
        ensures fails { IfOk result (λ calls. calls.fails.items ≡ fails.now) }
        ensures last { IfOk result (λ calls. calls.last ≡ 0) }
    {
        let fails = Vec::from_slice(alloc, fails)?;
        Ok(Calls { fails, last: 0 })
    }

    /// Numbers the next call, and says whether it is to fail.
    pub(crate) fn next(&mut self) -> bool
        ensures listed { result ≡ is_next_listed self.old.fails.items self.old.last }
        ensures last { self.new.last ≡ one_more self.old.last }
        ensures fails { self.new.fails ≡ self.old.fails }
    {
        self.last = self.last.saturating_add(1);
        self.fails.contains(&self.last)
    }
}

/// A count of faults after a call that failed or not.
pub(crate) fn count_after(failed: bool, count: u64) -> u64
    ensures { result ≡ count_after failed count }
{
    if failed {
        count.saturating_add(1)
    } else {
        count
    }
}
