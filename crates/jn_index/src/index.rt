ghost use Rattle.std.specs.Prelude.{◌≡◌, ◌↔◌, ℕ, List, slice_get, Some, IsTrue, IfOk, IfSome, IfNone};
ghost use Rattle.std.proofs.Common.{rules};
ghost use Rattle.std.specs.Cmp.{partial_equiv_from_equiv, eq_by_cmp_equiv, partial_order_from_total};
ghost use Rattle.std.specs.Cmp.Rules.{comparing};
ghost use Rattle.std.specs.Ordering.{as_partial_cmp, eq_by_cmp};
ghost use Rattle.jn_index.specs.Index.{placed_cmp, placed_total, comes_before, AreNumbered, IsIndex, IsFirst, FirstTold, key_of, keys_in};

use std::alloc::{AllocError, Global};
use std::cmp::Ordering;

/// A key with its place in its list, ordered by the numbers of the key from the first on, and then by the place.
#[derive(Drop)]
pub struct Placed {
    pub key: Vec<u32>,
    pub place: usize,
}

impl Placed {
    fn compare(&self, other: &Placed) -> Ordering
        ensures { result ≡ placed_cmp self.now other.now }
    {
        self.key
            .as_slice()
            .cmp(other.key.as_slice())
            .then(self.place.cmp(&other.place))
    }

    fn comes_before(&self, key: &[u32]) -> bool
        ensures { result ≡ comes_before key.now self.now }
    {
        match self.key.as_slice().cmp(key) {
            Ordering::Less => true,
            Ordering::Equal => false,
            Ordering::Greater => false,
        }
    }

    fn has_key(&self, key: &[u32]) -> bool
        ensures { IsTrue result ↔ (key_of self.now ≡ key.now) }
    {
        self.key.as_slice() == key
    }
}

impl PartialEq for Placed {
    ghost eq = { eq_by_cmp placed_cmp };

    ghost laws = { partial_equiv_from_equiv (eq_by_cmp_equiv placed_total) };

    fn eq(&self, other: &Placed) -> bool {
        self.cmp(other) == Ordering::Equal
    }
}

impl Eq for Placed {
    ghost laws = { eq_by_cmp_equiv placed_total };
}

impl PartialOrd for Placed {
    ghost partial_cmp = { as_partial_cmp placed_cmp };

    ghost laws = { partial_order_from_total placed_total };

    fn partial_cmp(&self, other: &Placed) -> Option<Ordering> {
        Some(self.cmp(other))
    }
}

impl Ord for Placed {
    ghost cmp = { placed_cmp };

    ghost total = { placed_total };

    ghost matches_partial_cmp = { Prim.search (comparing, rules) };

    ghost matches_eq = { Prim.search (comparing, rules) };

    fn cmp(&self, other: &Placed) -> Ordering {
        self.compare(other)
    }
}

/// The keys with their places, in the order of these.
fn numbered(alloc: Global, keys: Vec<Vec<u32>>) -> Result<Vec<Placed>, AllocError>
    ensures { IfOk result (λ all. AreNumbered (keys_in keys.items) all.items) }
{
    let mut all = Vec::new(alloc);
    for key in keys {
        let place = all.len();
        all.push(Placed { key, place })?;
    }
    Ok(all)
}

/// The keys with their places, in the order of the keys.
pub fn indexed(alloc: Global, keys: Vec<Vec<u32>>) -> Result<Vec<Placed>, AllocError>
    ensures { IfOk result (λ index. IsIndex (keys_in keys.items) index.items) }
{
    let mut all = numbered(alloc, keys)?;
    all.sort()?;
    Ok(all)
}

/// The first place of the key, found by halves.
pub fn place_of(index: &[Placed], key: &[u32]) -> Option<usize>
    ensures some { IfSome result (λ k. (keys : List (List ℕ)) → IsIndex keys index.now → IsFirst keys key.now k) }
    ensures none { IfNone result ((keys : List (List ℕ)) → IsIndex keys index.now
        → (k : ℕ) → slice_get keys k ≡ Some key.now → ⊥) }
{
    let at = index.partition_point(|x| x.comes_before(key));
    match index.get(at) {
        None => None,
        Some(x) => {
            if x.has_key(key) {
                return Some(x.place);
            }
            None
        }
    }
}

/// Whether the key, which stands at the place, stands nowhere before.
pub fn is_first(index: &[Placed], key: &[u32], place: usize) -> bool
    ensures { (keys : List (List ℕ)) → IsIndex keys index.now → slice_get keys place ≡ Some key.now
        → FirstTold keys key.now place result }
{
    match place_of(index, key) {
        None => false,
        Some(first) => first == place,
    }
}
