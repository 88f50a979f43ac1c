ghost use Rattle.std.specs.Prelude.{◌≡◌, ◌<◌, ◌≤◌, ◌^◌, ◌++◌, IfOk, length, reverse};
ghost use Rattle.jn_base.specs.Atoms.{atom, atom_of, lifted, levels};
ghost use Rattle.std.proofs.Common.{rules};
ghost use Rattle.std.specs.Cmp.{partial_equiv_from_equiv, eq_by_cmp_equiv, partial_order_from_total};
ghost use Rattle.std.specs.Cmp.Rules.{comparing};
ghost use Rattle.std.specs.Ordering.{as_partial_cmp, eq_by_cmp};
ghost use Rattle.jn_sem.specs.Widening.{reduced, replaced};
ghost use Rattle.jn_sem.specs.Normal.{atom_cmp, atom_total};

use crate::compare::{anchor_order, names_order};
use jn_base::tree::Name;
use jn_base::types::{Anchor, Atom};
use sqlite_items::Items;
use std::alloc::{AllocError, Global};
use std::cmp::Ordering;
use std::marker::Model;

/// An atom of a type, which contracts see as the definitions have it, the innermost name first.
#[derive(Drop)]
pub struct Conjunct {
    atom: Atom,
}

impl Model for Conjunct {
    ghost use Rattle.jn_base.specs.Atoms.{Atom as AnAtom, atom_of};

    ghost Value = { AnAtom };

    ghost view = { λ x. atom_of x.atom };
}

/// The first list and then the second.
fn joined(alloc: Global, front: &[Name], back: &[Name]) -> Result<Items<Name>, AllocError>
    ensures { IfOk result (λ all. all ≡ front.now ++ back.now) }
{
    let mut all = Items::from_slice(alloc, front)?;
    for name in back {
        all.push(*name)?;
    }
    Ok(all)
}

/// The anchor without `n` more names.
pub fn further(n: usize, a: Anchor) -> Anchor
    requires { levels (lifted n a) < 2 ^ 8 }
    ensures { result ≡ lifted n a }
{
    match a {
        Anchor::Root => Anchor::Root,
        Anchor::Up(q, k) => Anchor::Up(q, k + n as u8),
    }
}

impl Conjunct {
    /// The atom with another anchor.
    pub fn at(alloc: Global, anchor: Anchor, x: &Atom) -> Result<Conjunct, AllocError>
        ensures { IfOk result (λ y. y ≡ atom anchor (reverse x.now.exact) (reverse x.now.names)) }
    {
        Conjunct::of(alloc, anchor, x.exact.as_slice(), x.names.as_slice())
    }

    /// The atom of these parts, the outermost name first in both lists.
    pub fn of(
        alloc: Global,
        anchor: Anchor,
        exact: &[Name],
        names: &[Name],
    ) -> Result<Conjunct, AllocError>
        ensures { IfOk result (λ y. y ≡ atom anchor (reverse exact.now) (reverse names.now)) }
    {
        let exact = Items::from_slice(alloc, exact)?;
        let names = Items::from_slice(alloc, names)?;
        Ok(Conjunct {
            atom: Atom {
                anchor,
                exact,
                names,
            },
        })
    }

    pub fn anchor(&self) -> Anchor
        ensures { result ≡ self.now.anchor }
    {
        self.atom.anchor
    }

    /// The exact names, the outermost first.
    pub fn exact(&self) -> &[Name]
        ensures { reverse result.now ≡ self.now.exact }
    {
        self.atom.exact.as_slice()
    }

    /// The inexact names, the outermost first.
    pub fn names(&self) -> &[Name]
        ensures { reverse result.now ≡ self.now.names }
    {
        self.atom.names.as_slice()
    }

    /// The atom as the tree has it, the outermost name first.
    pub fn shown(self) -> Atom
        ensures { atom_of result ≡ self }
    {
        let Conjunct { atom } = self;
        atom
    }

    /// What an atom `z` of the path's type, with at most `k` inexact names, makes of this one: `k` less the number of
    /// these names are taken off the end of z's exact names, and the rest off its anchor; this one's exact names
    /// follow what is left.
    pub fn reduced(&self, alloc: Global, z: &Atom, k: usize) -> Result<Conjunct, AllocError>
        requires within { length z.now.names ≤ k }
        requires small { levels (reduced (atom_of z.now) k self.now).anchor < 2 ^ 8 }
        ensures { IfOk result (λ y. y ≡ reduced (atom_of z.now) k self.now) }
    {
        let taken = k - z.names.len();
        let had = z.exact.len();
        let kept = had.saturating_sub(taken);
        let rest = taken.saturating_sub(had);
        let exact = joined(
            alloc,
            &z.exact.as_slice()[..kept],
            self.atom.exact.as_slice(),
        )?;
        let names = Items::from_slice(alloc, self.atom.names.as_slice())?;
        let anchor = further(rest, z.anchor);
        Ok(Conjunct {
            atom: Atom {
                anchor,
                exact,
                names,
            },
        })
    }

    /// What any atom `z` of the path's type makes of this one. Where z has more than `k` inexact names, that is z's
    /// anchor and exact names, with z's inexact names but for the last `k`, and then this one's exact and inexact
    /// names, as inexact ones.
    pub fn replaced(&self, alloc: Global, z: &Atom, k: usize) -> Result<Conjunct, AllocError>
        requires small { levels (replaced (atom_of z.now) k self.now).anchor < 2 ^ 8 }
        ensures { IfOk result (λ y. y ≡ replaced (atom_of z.now) k self.now) }
    {
        if z.names.len() <= k {
            return self.reduced(alloc, z, k);
        }
        let kept = z.names.len() - k;
        let front = &z.names.as_slice()[..kept];
        let outer = joined(alloc, front, self.atom.exact.as_slice())?;
        let names = joined(alloc, outer.as_slice(), self.atom.names.as_slice())?;
        let exact = Items::from_slice(alloc, z.exact.as_slice())?;
        Ok(Conjunct {
            atom: Atom {
                anchor: z.anchor,
                exact,
                names,
            },
        })
    }
}

impl Conjunct {
    /// Root first, then by path number, levels, exact names and inexact names.
    fn compare(&self, other: &Conjunct) -> Ordering
        ensures { result ≡ atom_cmp self.now other.now }
    {
        let exact = names_order(self.atom.exact.as_slice(), other.atom.exact.as_slice());
        let names = names_order(self.atom.names.as_slice(), other.atom.names.as_slice());
        anchor_order(self.atom.anchor, other.atom.anchor).then(exact.then(names))
    }
}

impl PartialEq for Conjunct {
    ghost eq = { eq_by_cmp atom_cmp };

    ghost laws = { partial_equiv_from_equiv (eq_by_cmp_equiv atom_total) };

    fn eq(&self, other: &Conjunct) -> bool {
        self.cmp(other) == Ordering::Equal
    }
}

impl Eq for Conjunct {
    ghost laws = { eq_by_cmp_equiv atom_total };
}

impl PartialOrd for Conjunct {
    ghost partial_cmp = { as_partial_cmp atom_cmp };

    ghost laws = { partial_order_from_total atom_total };

    fn partial_cmp(&self, other: &Conjunct) -> Option<Ordering> {
        Some(self.cmp(other))
    }
}

impl Ord for Conjunct {
    ghost cmp = { atom_cmp };

    ghost total = { atom_total };

    ghost matches_partial_cmp = { Prim.search (comparing, rules) };

    ghost matches_eq = { Prim.search (comparing, rules) };

    fn cmp(&self, other: &Conjunct) -> Ordering {
        self.compare(other)
    }
}
