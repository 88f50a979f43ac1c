//! Masks that an assignment to a field takes from the receiver's path.

ghost use Rattle.std.specs.Prelude.{◌≡◌, ◌<◌, [], ℕ, true, List, map, get_or, OnOk};
ghost use Rattle.jn_base.specs.declared.tree.Program.{Program};
ghost use Rattle.jn_base.specs.declared.names.Var.{Var};
ghost use Rattle.jn_base.specs.Atoms.{MasksOf};
ghost use Rattle.jn_base.specs.ResolveTypes.{mask_names};
ghost use Rattle.jn_intern.specs.Pools.{Keeps, ScopeInPool, scope_in};
ghost use Rattle.jn_rules.specs.Questions.{KeptMask, Notes};
ghost use Rattle.jn_rules.specs.Stmts.{dropped, is_variable, without_mask};
ghost use Rattle.jn_expr.specs.Envs.{IsScope};
ghost use Rattle.jn_check.specs.Masks.{IsWithoutAt, bare};
ghost use Rattle.jn_check.specs.States.{before_in};

use crate::masks::with_masks;
use jn_base::tree::Name;
use jn_base::types::Masks;
use jn_expr::masks_at;
use jn_intern::{Pool, Scope};
use jn_masks::drop;
use std::alloc::{AllocError, Global};

/// The masks without `i`, where its name is that of the field.
fn without_at(m: Masks, i: usize, name: Name, field: Name) -> Masks
    ensures { IsWithoutAt m i name field result }
{
    if i < 256 && name.0 == field.0 {
        return drop(m, i as u8);
    }
    m
}

/// The word `i` of the masks.
fn word(m: Masks, i: usize) -> u64
    requires { i < 4 }
    ensures { result ≡ get_or m.0 i 0 }
{
    m.0[i]
}

/// The masks without the field, where these are the names of the masks.
fn without(m: Masks, names: &[Name], field: Name) -> Masks
    ensures { MasksOf (KeptMask names.now m field) result }
{
    let mut kept = m;
    for (i, name) in names.iter().enumerate() {
        kept = without_at(kept, i, *name, field);
    }
    Masks([word(kept, 0), word(kept, 1), word(kept, 2), word(kept, 3)])
}

/// Whether the path is a `final` variable: neither `this` nor a fresh one.
fn is_variable(path: u32) -> bool
    ensures { result ≡ is_variable path }
{
    path != 0 && path < 256
}

/// The field is no mask of a `final` variable any more.
fn drop_mask(
    alloc: Global,
    pool: &mut Pool,
    scope: &mut Scope,
    names: &[Name],
    path: u32,
    field: Name,
) -> Result<(), AllocError>
    requires scope { IsScope pool.old scope.old }
    requires variable { is_variable path ≡ true }
    ensures is { OnOk result ((p : Program) (vars : List Var) (n : ℕ) → names.now ≡ mask_names p → Notes p
        (without_mask (before_in vars (scope_in pool.old scope.old) n) field path) []
        (before_in vars (scope_in pool.new scope.new) n)) }
    ensures known { OnOk result (ScopeInPool pool.new scope.new) }
    ensures agree { OnOk result (map bare (scope_in pool.new scope.new) ≡ map bare (scope_in pool.old scope.old)) }
    ensures keeps { Keeps pool.old pool.new }
{
    let masks = masks_at(pool, scope.binds.as_slice(), path);
    let kept = without(masks, names, field);
    let binds = with_masks(alloc, pool, scope.binds.as_slice(), path, kept)?;
    scope.binds = binds;
    Ok(())
}

/// Where a receiver has a path other than `this`, the field is no mask of it any more. `names` has the names of the
/// masks.
pub fn drop_field(
    alloc: Global,
    pool: &mut Pool,
    scope: &mut Scope,
    names: &[Name],
    path: Option<u32>,
    field: Name,
) -> Result<(), AllocError>
    requires { IsScope pool.old scope.old }
    ensures is { OnOk result ((p : Program) (vars : List Var) (n : ℕ) → names.now ≡ mask_names p → Notes p
        (dropped (before_in vars (scope_in pool.old scope.old) n) field path) []
        (before_in vars (scope_in pool.new scope.new) n)) }
    ensures known { OnOk result (ScopeInPool pool.new scope.new) }
    ensures agree { OnOk result (map bare (scope_in pool.new scope.new) ≡ map bare (scope_in pool.old scope.old)) }
    ensures keeps { Keeps pool.old pool.new }
{
    match path {
        None => Ok(()),
        Some(q) => {
            if !is_variable(q) {
                return Ok(());
            }
            drop_mask(alloc, pool, scope, names, q, field)
        }
    }
}
