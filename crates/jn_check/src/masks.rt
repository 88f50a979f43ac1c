//! The masks of paths.

ghost use Rattle.std.specs.Prelude.{◌≡◌, ◌↔◌, ◌<◌, [], true, All, length, get_or, bit_or, IfOk, IsTrue};
ghost use Rattle.jn_intern.specs.Pools.{InPool, shown, bind_in, Keeps};
ghost use Rattle.jn_base.specs.Atoms.{MasksOf};
ghost use Rattle.jn_base.specs.Resolve.{is_class};
ghost use Rattle.jn_base.specs.declared.tree.Program.{Program};
ghost use Rattle.jn_rules.specs.Questions.{InEither, Notes};
ghost use Rattle.jn_base.specs.Fits.{BindsFit};
ghost use Rattle.jn_rules.specs.Stmts.{remasked, with_masks, joined};
ghost use Rattle.jn_subtype.specs.Binds.{binds_in};
ghost use Rattle.jn_expr.specs.Passing.{Shows};
ghost use Rattle.jn_check.specs.Masks.{remasked_bind, TypeJoins};

use jn_base::types::{Masks, Ty};
use jn_expr::{is_class, masks_of};
use jn_intern::{Bind, Pool, TyId, copied_type};
use std::alloc::{AllocError, Global};

/// The type with these masks in place of its own, where it is a class type.
fn with_these(alloc: Global, ty: &Ty, masks: Masks) -> Result<Ty, AllocError>
    ensures { IfOk result (λ t. t ≡ remasked masks ty.now) }
{
    match copied_type(alloc, ty)? {
        Ty::Class(atoms, _) => Ok(Ty::Class(atoms, masks)),
        Ty::Int => Ok(Ty::Int),
        Ty::Bool => Ok(Ty::Bool),
        Ty::Null => Ok(Ty::Null),
        Ty::Void => Ok(Ty::Void),
    }
}

/// The number of the type with these masks in place of its own.
fn remasked(alloc: Global, pool: &mut Pool, ty: TyId, masks: Masks) -> Result<TyId, AllocError>
    requires { InPool pool.old ty }
    ensures is { IfOk result (λ id. Shows pool.new id (remasked masks (shown pool.old ty))) }
    ensures keeps { Keeps pool.old pool.new }
{
    let with = with_these(alloc, pool.show(ty), masks)?;
    pool.intern(&with)
}

/// The bind with these masks where it is that of the path.
fn remasked_bind(
    alloc: Global,
    pool: &mut Pool,
    bind: &Bind,
    path: u32,
    masks: Masks,
) -> Result<Bind, AllocError>
    requires { InPool pool.old bind.now.ty }
    ensures is { IfOk result (λ b. bind_in pool.new b ≡ remasked_bind path masks (bind_in pool.old bind.now)) }
    ensures known { IfOk result (λ b. InPool pool.new b.ty) }
    ensures keeps { Keeps pool.old pool.new }
{
    if path != bind.path {
        return Ok(*bind);
    }
    let ty = remasked(alloc, pool, bind.ty, masks)?;
    Ok(Bind {
        path: bind.path,
        ty,
    })
}

/// The binds, in which a path has these masks now. Each path is bound once.
pub fn with_masks(
    alloc: Global,
    pool: &mut Pool,
    binds: &[Bind],
    path: u32,
    masks: Masks,
) -> Result<Vec<Bind>, AllocError>
    requires known { All (λ b. InPool pool.old b.ty) binds.now }
    requires fits { BindsFit (binds_in pool.old binds.now) }
    ensures is { IfOk result (λ all. binds_in pool.new all.items
        ≡ with_masks (binds_in pool.old binds.now) path masks) }
    ensures known { IfOk result (λ all. All (λ b. InPool pool.new b.ty) all.items) }
    ensures keeps { Keeps pool.old pool.new }
{
    let mut all = Vec::new(alloc);
    for bind in binds {
        let one = remasked_bind(alloc, pool, bind, path, masks)?;
        all.push(one)?;
    }
    Ok(all)
}

/// The word `i` of the masks of both.
fn joined_word(m: Masks, n: Masks, i: usize) -> u64
    requires { i < 4 }
    ensures { result ≡ bit_or (get_or m.0 i 0) (get_or n.0 i 0) }
{
    m.0[i] | n.0[i]
}

/// The masks of both.
fn joined_masks(m: Masks, n: Masks) -> Masks
    ensures { MasksOf (InEither m n) result }
{
    Masks([
        joined_word(m, n, 0),
        joined_word(m, n, 1),
        joined_word(m, n, 2),
        joined_word(m, n, 3),
    ])
}

/// Whether the masks are the same.
fn are_same(m: Masks, n: Masks) -> bool
    ensures { IsTrue result ↔ (m ≡ n) }
{
    m.0 == n.0
}

/// The class type of a path by those at two ends: it has the masks of both.
fn joined_class(alloc: Global, pool: &mut Pool, t: TyId, u: TyId) -> Result<TyId, AllocError>
    requires t { InPool pool.old t }
    requires u { InPool pool.old u }
    requires class { is_class (shown pool.old t) ≡ true }
    requires other { is_class (shown pool.old u) ≡ true }
    ensures is { IfOk result (λ v. (p : Program)
        → TypeJoins p (shown pool.old t) (shown pool.old u) (shown pool.new v)) }
    ensures known { IfOk result (λ v. InPool pool.new v) }
    ensures keeps { Keeps pool.old pool.new }
{
    let m = masks_of(pool.show(t));
    let n = masks_of(pool.show(u));
    let k = joined_masks(m, n);
    if are_same(m, k) {
        return Ok(t);
    }
    remasked(alloc, pool, t, k)
}

/// The type of a path by those at two ends: it has the masks of both.
fn joined_type(alloc: Global, pool: &mut Pool, t: TyId, u: TyId) -> Result<TyId, AllocError>
    requires t { InPool pool.old t }
    requires u { InPool pool.old u }
    ensures is { IfOk result (λ v. (p : Program)
        → TypeJoins p (shown pool.old t) (shown pool.old u) (shown pool.new v)) }
    ensures known { IfOk result (λ v. InPool pool.new v) }
    ensures keeps { Keeps pool.old pool.new }
{
    if is_class(pool.show(t)) && is_class(pool.show(u)) {
        return joined_class(alloc, pool, t, u);
    }
    Ok(t)
}

/// The binds at two ends of the same paths in the same order: each path has the masks of both.
pub fn joined(
    alloc: Global,
    pool: &mut Pool,
    one: &[Bind],
    other: &[Bind],
) -> Result<Vec<Bind>, AllocError>
    requires one { All (λ b. InPool pool.old b.ty) one.now }
    requires other { All (λ b. InPool pool.old b.ty) other.now }
    requires long { length one.now ≡ length other.now }
    ensures is { IfOk result (λ all. (p : Program)
        → Notes p (joined (binds_in pool.old one.now) (binds_in pool.old other.now)) [] (binds_in pool.new all.items)) }
    ensures known { IfOk result (λ all. All (λ b. InPool pool.new b.ty) all.items) }
    ensures keeps { Keeps pool.old pool.new }
{
    let mut all = Vec::new(alloc);
    for i in 0..one.len() {
        let ty = joined_type(alloc, pool, one[i].ty, other[i].ty)?;
        all.push(Bind {
            path: one[i].path,
            ty,
        })?;
    }
    Ok(all)
}
