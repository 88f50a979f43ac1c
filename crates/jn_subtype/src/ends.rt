ghost use Rattle.std.specs.Prelude.{◌≡◌, ◌↔◌, ℕ, length, take, IfNone, IfOk, IfSome, IsTrue};
ghost use Rattle.jn_base.specs.declared.tree.Program.{Program};
ghost use Rattle.jn_base.specs.Fits.{BindsFit};
ghost use Rattle.jn_table.specs.Tables.{IsFilled};
ghost use Rattle.jn_intern.specs.Pools.{ScopeInPool, scope_in};
ghost use Rattle.jn_sem.specs.Search.{EndsPlainly};
ghost use Rattle.jn_subtype.specs.Ends.{IsLevel, IsRaised, IsHigher, HasMore};

use crate::bounds::bound_in;
use jn_base::compare::{is_anchor, is_name};
use jn_base::tree::Name;
use jn_base::types::Anchor;
use jn_intern::{Pool, Scope};
use jn_normal::Conjunct;
use jn_table::Table;
use std::alloc::{AllocError, Global};

/// Whether the list begins with these names.
fn is_front(front: &[Name], all: &[Name]) -> bool
    ensures { IsTrue result ↔ (take (length front.now) all.now ≡ front.now) }
{
    if all.len() < front.len() {
        return false;
    }
    for i in 0..front.len() {
        if !is_name(front[i], all[i]) {
            return false;
        }
    }
    true
}

/// Whether `y` is at the same anchor as `x` and has as many names, and its exact names are the outer ones of those of
/// `x`.
fn is_level(x: &Conjunct, y: &Conjunct) -> bool
    ensures { IsTrue result ↔ IsLevel x.now y.now }
{
    let had = x.exact();
    let left = y.exact();
    if !is_anchor(x.anchor(), y.anchor()) {
        return false;
    }
    if !is_front(left, had) {
        return false;
    }
    y.names().len() + left.len() == x.names().len() + had.len()
}

/// How many levels the anchor `b` is above `a`, where it is a higher one of the same path.
fn raised(a: Anchor, b: Anchor) -> Option<u8>
    ensures some { IfSome result (λ n. IsRaised a b n) }
    ensures none { IfNone result ((n : ℕ) → IsRaised a b n → ⊥) }
{
    match a {
        Anchor::Root => None,
        Anchor::Up(p, k) => match b {
            Anchor::Root => None,
            Anchor::Up(q, m) => {
                if p == q && k < m {
                    return Some(m - k);
                }
                None
            }
        },
    }
}

/// Whether `y` has no exact names, and as inexact ones as many as `x` has names, and `n` more.
fn has_more(x: &Conjunct, y: &Conjunct, n: u8) -> bool
    ensures { IsTrue result ↔ HasMore x.now y.now n }
{
    y.exact().is_empty() && y.names().len() == x.names().len() + x.exact().len() + n as usize
}

/// Whether `y` is at a higher anchor of the same path as `x`, with its names all inexact, and so many more of them.
fn is_higher(x: &Conjunct, y: &Conjunct) -> bool
    ensures { IsTrue result ↔ IsHigher x.now y.now }
{
    match raised(x.anchor(), y.anchor()) {
        None => false,
        Some(n) => has_more(x, y, n),
    }
}

/// Whether `y` is reached from `x` without an atom of a path's type: at the same anchor some exact names have become
/// inexact, or at a higher one all have, and the bound of `y` is a super of that of `x`.
pub fn ends(
    alloc: Global,
    pool: &Pool,
    scope: &Scope,
    table: &Table,
    x: &Conjunct,
    y: &Conjunct,
) -> Result<bool, AllocError>
    requires known { ScopeInPool pool.now scope.now }
    requires fits { BindsFit (scope_in pool.now scope.now) }
    ensures { IfOk result (λ r. (p : Program) → IsFilled p table.now → IsTrue r
        ↔ EndsPlainly p (scope_in pool.now scope.now) x.now y.now) }
{
    let from = bound_in(alloc, pool, scope, x)?;
    let to = bound_in(alloc, pool, scope, y)?;
    if !from.is_below(table, &to) {
        return Ok(false);
    }
    if is_level(x, y) {
        return Ok(true);
    }
    if !is_higher(x, y) {
        return Ok(false);
    }
    if to.depth() <= y.names().len() {
        return Ok(false);
    }
    Ok(from.is_known(table))
}
