ghost use Rattle.std.specs.Prelude.{◌≡◌, ◌↔◌, Contains, IfOk};
ghost use Rattle.std.proofs.Common.{rules};
ghost use Rattle.std.specs.Cmp.{partial_equiv_from_equiv, eq_by_cmp_equiv, partial_order_from_total};
ghost use Rattle.std.specs.Cmp.Rules.{comparing};
ghost use Rattle.std.specs.Ordering.{as_partial_cmp, eq_by_cmp};
ghost use Rattle.std.specs.List.Sorted.{IsStrictlySortedBy};
ghost use Rattle.jn_layout.specs.Pairs.{pair_cmp, pair_total};
ghost use Rattle.jn_layout.specs.declared.pairs.Pair.{Pair as APair};

use std::alloc::AllocError;
use std::cmp::Ordering;

/// A number in a row, with the number that stands for it.
#[derive(Clone, Copy, Debug)]
pub struct Pair {
    pub key: u32,
    pub value: u32,
}

impl Pair {
    fn compare(&self, other: &Pair) -> Ordering
        ensures { result ≡ pair_cmp self.now other.now }
    {
        self.key.cmp(&other.key).then(self.value.cmp(&other.value))
    }
}

impl PartialEq for Pair {
    ghost eq = { eq_by_cmp pair_cmp };

    ghost laws = { partial_equiv_from_equiv (eq_by_cmp_equiv pair_total) };

    fn eq(&self, other: &Pair) -> bool {
        self.cmp(other) == Ordering::Equal
    }
}

impl Eq for Pair {
    ghost laws = { eq_by_cmp_equiv pair_total };
}

impl PartialOrd for Pair {
    ghost partial_cmp = { as_partial_cmp pair_cmp };

    ghost laws = { partial_order_from_total pair_total };

    fn partial_cmp(&self, other: &Pair) -> Option<Ordering> {
        Some(self.cmp(other))
    }
}

impl Ord for Pair {
    ghost cmp = { pair_cmp };

    ghost total = { pair_total };

    ghost matches_partial_cmp = { Prim.search (comparing, rules) };

    ghost matches_eq = { Prim.search (comparing, rules) };

    fn cmp(&self, other: &Pair) -> Ordering {
        self.compare(other)
    }
}

/// The pairs by their numbers, each once.
pub fn in_order(pairs: Vec<Pair>) -> Result<Vec<Pair>, AllocError>
    ensures same { IfOk result (λ all. (x : APair) → Contains all.items x ↔ Contains pairs.items x) }
    ensures ordered { IfOk result (λ all. IsStrictlySortedBy pair_cmp all.items) }
{
    let mut all = pairs;
    all.sort()?;
    all.dedup();
    Ok(all)
}
