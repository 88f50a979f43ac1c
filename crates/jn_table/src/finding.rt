//! The known paths in an order in which one is found by halves.

ghost use Rattle.std.specs.Prelude.{◌≡◌, ◌≤◌, ℕ, List, length, slice_get, Some, IfOk, IfSome, IfNone};
ghost use Rattle.std.proofs.Common.{rules};
ghost use Rattle.std.specs.Cmp.{partial_equiv_from_equiv, eq_by_cmp_equiv, partial_order_from_total};
ghost use Rattle.std.specs.Cmp.Lexicographic.{slice_cmp};
ghost use Rattle.std.specs.Cmp.Rules.{comparing};
ghost use Rattle.std.specs.Ordering.{as_partial_cmp, eq_by_cmp, nat_cmp};
ghost use Rattle.jn_base.specs.declared.path.Path.{Path as APath};
ghost use Rattle.jn_table.specs.Places.{located_cmp, located_total, name_numbers, AreLocated, ArePlaces};

use crate::class::ClassId;
use jn_base::path::Path;
use jn_base::tree::Name;
use sqlite_items::Items;
use std::alloc::{AllocError, Global};
use std::cmp::Ordering;

/// A path with its number, ordered by the numbers of its names from the outermost on.
#[derive(Drop)]
pub struct Located {
    pub names: Items<Name>,
    pub id: ClassId,
}

/// By the numbers of the names from the first on; a list comes before those that go on from it.
fn compared(a: &[Name], b: &[Name]) -> Ordering
    ensures { result ≡ slice_cmp nat_cmp (name_numbers a.now) (name_numbers b.now) }
{
    for i in 0..a.len() {
        if i == b.len() {
            return Ordering::Greater;
        }
        match a[i].0.cmp(&b[i].0) {
            Ordering::Less => return Ordering::Less,
            Ordering::Greater => return Ordering::Greater,
            Ordering::Equal => {}
        }
    }
    if a.len() < b.len() {
        return Ordering::Less;
    }
    Ordering::Equal
}

/// By the numbers of the names of the one and of the path.
fn against(other: &Located, path: &Path) -> Ordering
    ensures { result ≡ slice_cmp nat_cmp (name_numbers other.now.names) (name_numbers path.now.names) }
{
    compared(other.names.as_slice(), path.names.as_slice())
}

impl PartialEq for Located {
    ghost eq = { eq_by_cmp located_cmp };

    ghost laws = { partial_equiv_from_equiv (eq_by_cmp_equiv located_total) };

    fn eq(&self, other: &Located) -> bool {
        self.cmp(other) == Ordering::Equal
    }
}

impl Eq for Located {
    ghost laws = { eq_by_cmp_equiv located_total };
}

impl PartialOrd for Located {
    ghost partial_cmp = { as_partial_cmp located_cmp };

    ghost laws = { partial_order_from_total located_total };

    fn partial_cmp(&self, other: &Located) -> Option<Ordering> {
        Some(self.cmp(other))
    }
}

impl Ord for Located {
    ghost cmp = { located_cmp };

    ghost total = { located_total };

    ghost matches_partial_cmp = { Prim.search (comparing, rules) };

    ghost matches_eq = { Prim.search (comparing, rules) };

    fn cmp(&self, other: &Located) -> Ordering {
        compared(self.names.as_slice(), other.names.as_slice())
    }
}

/// The paths with their numbers, in the order of these.
fn numbered(alloc: Global, known: &[Path]) -> Result<Vec<Located>, AllocError>
    requires { length known.now ≤ 4096 }
    ensures { IfOk result (λ all. AreLocated known.now (length known.now) all.items) }
{
    let mut all = Vec::new(alloc);
    for (place, path) in known.iter().enumerate() {
        let names = Items::from_slice(alloc, path.names.as_slice())?;
        all.push(Located {
            names,
            id: ClassId(place as u16),
        })?;
    }
    Ok(all)
}

/// The paths with their numbers, in the order of the paths.
pub fn places_of(alloc: Global, known: &[Path]) -> Result<Vec<Located>, AllocError>
    requires { length known.now ≤ 4096 }
    ensures { IfOk result (λ places. ArePlaces known.now places.items) }
{
    let mut places = numbered(alloc, known)?;
    places.sort()?;
    Ok(places)
}

/// A number of the path, found by halves.
pub fn place_of(places: &[Located], path: &Path) -> Option<ClassId>
    ensures some { IfSome result (λ id. (known : List APath) → ArePlaces known places.now
        → slice_get known id.0 ≡ Some path.now) }
    ensures none { IfNone result ((known : List APath) → ArePlaces known places.now
        → (k : ℕ) → slice_get known k ≡ Some path.now → ⊥) }
{
    match places.binary_search_by(|other| against(other, path)) {
        Ok(at) => Some(places[at].id),
        Err(_) => None,
    }
}
