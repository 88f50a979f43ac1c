ghost use Rattle.std.specs.Prelude.{◌≡◌, ◌<◌, ◌≤◌, ◌⊎◌, ◌↔◌, false, ℕ, Contains, slice_get, Some, length, IsTrue, IfOk};
ghost use Rattle.std.specs.List.Sorted.{IsStrictlyIncreasing};
ghost use Rattle.jn_reach.specs.Pairs.{AreMembers};
ghost use Rattle.jn_base.specs.declared.tree.Program.{Program};
ghost use Rattle.jn_base.specs.Paths.{Path as APath};
ghost use Rattle.jn_sem.specs.Sharing.{IsClass as IsClassOf};
ghost use Rattle.jn_share.specs.Pairing.{IsAt};
ghost use Rattle.jn_share.specs.Parting.{SamePart, Alike, NotAlike};
ghost use Rattle.jn_share.specs.Refining.{AreLow, Grows, SaysClass, SaysOfAll, IsFirstLike, RefinesTo, AreSettled};

use crate::alike::alike;
use crate::groups::Groups;
use crate::pairs::{filled, is_class};
use crate::prepared::Prepared;
use jn_reach::class_members;
use jn_table::{FieldTypes, Table};
use sqlite_items::at;
use std::alloc::{AllocError, Global};

/// Whether the path of the first number is a class, and nothing tells it apart from the class of the second.
fn is_like(
    t: &Table,
    g: &Groups,
    types: &FieldTypes,
    all: &Prepared,
    parts: &[usize],
    r: usize,
    v: usize,
) -> bool
    ensures within { IsTrue result → r < length t.now.known.items }
    ensures yes { IsTrue result → SaysClass t.now g.now types.now all.now v (λ p V. (R : APath)
        → IsAt t.now.known.items r R → IsClassOf p R × Alike p (SamePart t.now.known.items parts.now) R V) }
    ensures no { result ≡ false → SaysClass t.now g.now types.now all.now v (λ p V. (R : APath)
        → IsAt t.now.known.items r R → IsClassOf p R → NotAlike p (SamePart t.now.known.items parts.now) R V) }
{
    match filled(t, r) {
        None => false,
        Some(a) => match filled(t, v) {
            None => false,
            Some(b) => is_class(t, r) && alike(t, g, types, all, parts, a, b),
        },
    }
}

/// The first of the numbers that is like the class, in their order; the class itself where there is none before it.
fn first_like(
    t: &Table,
    g: &Groups,
    types: &FieldTypes,
    all: &Prepared,
    parts: &[usize],
    among: &[usize],
    v: usize,
) -> usize
    requires { IsStrictlyIncreasing among.now }
    ensures low { result ≤ v }
    ensures among { (result ≡ v) ⊎ Contains among.now result }
    ensures is { SaysClass t.now g.now types.now all.now v
        (λ p V. IsFirstLike p t.now.known.items (SamePart t.now.known.items parts.now) (Contains among.now) result V) }
{
    for r in among {
        if *r >= v {
            return v;
        }
        if is_like(t, g, types, all, parts, *r, v) {
            return *r;
        }
    }
    v
}

/// The next part of the number.
fn next_part(
    t: &Table,
    g: &Groups,
    types: &FieldTypes,
    all: &Prepared,
    parts: &[usize],
    rows: &[Vec<usize>],
    v: usize,
) -> usize
    requires rows { AreMembers parts.now rows.now }
    requires low { AreLow parts.now }
    requires within { v < length parts.now }
    ensures low { result ≤ v }
    ensures grows { (n : ℕ) → slice_get parts.now v ≡ Some n → n ≤ result }
    ensures is { SaysClass t.now g.now types.now all.now v (λ p V. (n : ℕ) → slice_get parts.now v ≡ Some n
        → (slice_get parts.now result ≡ Some n) × IsFirstLike p t.now.known.items (SamePart t.now.known.items
        parts.now) (λ j. slice_get parts.now j ≡ Some n) result V) }
{
    match at(rows, parts[v]) {
        None => v,
        Some(among) => first_like(t, g, types, all, parts, among, v),
    }
}

/// The next parts: two classes of one part stay together where nothing tells them apart by the present parts.
fn refine(
    alloc: Global,
    t: &Table,
    g: &Groups,
    types: &FieldTypes,
    all: &Prepared,
    parts: &[usize],
) -> Result<Vec<usize>, AllocError>
    requires low { AreLow parts.now }
    ensures long { IfOk result (λ next. length next.items ≡ length parts.now) }
    ensures low { IfOk result (λ next. AreLow next.items) }
    ensures grows { IfOk result (λ next. Grows parts.now next.items) }
    ensures refines { IfOk result (λ next. SaysOfAll t.now g.now types.now all.now
        (λ p. RefinesTo p t.now parts.now next.items (length parts.now))) }
{
    let rows = class_members(alloc, parts)?;
    let mut next = Vec::new(alloc);
    for v in 0..parts.len() {
        next.push(next_part(t, g, types, all, parts, &rows, v))?;
    }
    Ok(next)
}

/// Whether both lists have the same numbers.
fn same_numbers(xs: &[usize], ys: &[usize]) -> bool
    ensures { IsTrue result ↔ (xs.now ≡ ys.now) }
{
    xs == ys
}

/// The parts of the classes where nothing more tells any apart. Each step begins with the parts of the step before it.
pub fn settle(
    alloc: Global,
    t: &Table,
    g: &Groups,
    types: &FieldTypes,
    all: &Prepared,
) -> Result<Vec<usize>, AllocError>
    ensures { IfOk result (λ parts. SaysOfAll t.now g.now types.now all.now
        (λ p. AreSettled p t.now.known.items parts.items)) }
{
    let mut parts = g.starts(alloc)?;
    let mut next = refine(alloc, t, g, types, all, &parts)?;
    'steps: while !same_numbers(&parts, &next) {
        parts = next;
        next = refine(alloc, t, g, types, all, &parts)?;
    }
    Ok(parts)
}
