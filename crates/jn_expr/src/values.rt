//! Literals, paths and variables.

ghost use Rattle.std.specs.Prelude.{◌≡◌, true, All, IfOk, option_copied, reverse};
ghost use Rattle.jn_base.specs.declared.tree.Program.{Program};
ghost use Rattle.jn_base.specs.declared.tree.Method.{Method as AMethod};
ghost use Rattle.jn_base.specs.declared.names.Var.{Var as AVar};
ghost use Rattle.jn_base.specs.Atoms.{Among};
ghost use Rattle.jn_base.specs.Fits.{BindsFit, TypeFits};
ghost use Rattle.jn_base.specs.Resolve.{newest, is_class, var_named};
ghost use Rattle.jn_intern.specs.Pools.{InPool, ScopeInPool, scope_in};
ghost use Rattle.jn_subtype.specs.Binds.{binds_in};
ghost use Rattle.jn_rules.specs.Exprs.{masks_at, path_type, of_path, plain, gives, var_gives};
ghost use Rattle.jn_expr.specs.Envs.{IsScope, Stays, here_at};
ghost use Rattle.jn_expr.specs.Told.{PlanTold};
ghost use Rattle.jn_expr.specs.Values.{IsProduced, IsValue, typed_in};
ghost use Rattle.jn_expr.specs.Variables.{PathThere, VarFits, KnownIs, known_typed};

use crate::env::{Env, Value};
use crate::fault::refused;
use crate::marks::{kind_of, note_kind, note_var};
use crate::masks::masks_of;
use jn_base::names::{Var, Vars};
use jn_base::refusal::Rule;
use jn_base::tree::{Name, Place};
use jn_base::types::{Anchor, Atom, Masks, Ty};
use jn_heads::CheckFault;
use jn_intern::{Bind, Pool, Scope, TyId, bind_of, copied_type};
use jn_names::Bound;
use sqlite_items::Items;
use std::alloc::{AllocError, Global};

/// Whether it is a class type.
pub fn is_class(ty: &Ty) -> bool
    ensures { result ≡ is_class ty.now }
{
    match ty {
        Ty::Class(_, _) => true,
        Ty::Int => false,
        Ty::Bool => false,
        Ty::Null => false,
        Ty::Void => false,
    }
}

/// The number of a type, whose kind is noted.
pub fn produce(env: &mut Env, ty: &Ty) -> Result<TyId, AllocError>
    ensures is { IfOk result (λ id. IsProduced ty.now env.old env.new id) }
    ensures stays { Stays env.old env.new }
{
    let id = env.pool.intern(ty)?;
    note_kind(&mut env.marks, kind_of(ty))?;
    Ok(id)
}

/// A value of the type, which is no path.
pub fn plain(env: &mut Env, scope: &Scope, ty: &Ty) -> Result<Value, CheckFault>
    requires scope { IsScope env.old.pool scope.now }
    requires fits { TypeFits (scope_in env.old.pool scope.now) ty.now }
    ensures told { (p : Program) → PlanTold p (gives (plain ty.now (scope_in env.old.pool scope.now)))
        (typed_in env.new.pool scope.now) env.old.marks env.new.marks result }
    ensures value { IfOk result (λ v. IsValue env.new.pool scope.now scope.now v) }
    ensures stays { Stays env.old env.new }
{
    let id = produce(env, ty)?;
    Ok(Value { ty: id, path: None })
}

/// The present masks of a path: those of its newest bind's type.
pub fn masks_at(pool: &Pool, binds: &[Bind], path: u32) -> Masks
    requires { All (λ b. InPool pool.now b.ty) binds.now }
    ensures { result ≡ masks_at (binds_in pool.now binds.now) path }
{
    let mut masks = Masks([0, 0, 0, 0]);
    for bind in binds {
        if bind.path == path {
            masks = masks_of(pool.show(bind.ty));
        }
    }
    masks
}

/// The same in a scope that fits, where a path has one bind.
fn present_masks(pool: &Pool, scope: &Scope, path: u32) -> Masks
    requires known { ScopeInPool pool.now scope.now }
    requires fits { BindsFit (scope_in pool.now scope.now) }
    ensures { result ≡ masks_at (scope_in pool.now scope.now) path }
{
    match bind_of(scope.binds.as_slice(), path) {
        None => Masks([0, 0, 0, 0]),
        Some(bind) => masks_of(pool.show(bind.ty)),
    }
}

/// The type of a path expression: the path itself, with its present masks.
pub fn path_type(alloc: Global, pool: &Pool, scope: &Scope, path: u32) -> Result<Ty, AllocError>
    requires known { ScopeInPool pool.now scope.now }
    requires fits { BindsFit (scope_in pool.now scope.now) }
    ensures { IfOk result (λ t. t ≡ path_type (scope_in pool.now scope.now) path) }
{
    let masks = present_masks(pool, scope, path);
    let mut atoms = Items::new(alloc);
    atoms.push(Atom {
        anchor: Anchor::Up(path, 0),
        exact: Items::new(alloc),
        names: Items::new(alloc),
    })?;
    Ok(Ty::Class(atoms, masks))
}

/// A path expression.
pub fn path_value(
    alloc: Global,
    env: &mut Env,
    scope: &Scope,
    path: u32,
) -> Result<Value, CheckFault>
    requires scope { IsScope env.old.pool scope.now }
    requires there { PathThere (scope_in env.old.pool scope.now) path }
    ensures told { (p : Program) → PlanTold p (gives (of_path path (scope_in env.old.pool scope.now)))
        (typed_in env.new.pool scope.now) env.old.marks env.new.marks result }
    ensures value { IfOk result (λ v. IsValue env.new.pool scope.now scope.now v) }
    ensures stays { Stays env.old env.new }
{
    let ty = path_type(alloc, &env.pool, scope, path)?;
    let id = produce(env, &ty)?;
    Ok(Value {
        ty: id,
        path: Some(path),
    })
}

/// The newest variable of the name.
pub fn newest(vars: &[Var], x: Name) -> Option<&Var>
    ensures { option_copied result ≡ newest (reverse vars.now) x }
{
    let mut found = None;
    for v in vars {
        if v.name.0 == x.0 {
            found = Some(v);
        }
    }
    found
}

/// What a variable is known by: its number, whether it is a path, and its declared type.
#[derive(Drop)]
pub struct Known {
    pub path: u32,
    pub is_path: bool,
    pub ty: Ty,
}

/// What the newest variable of the name is known by.
fn find(alloc: Global, vars: &Vars, x: Name) -> Result<Option<Known>, AllocError>
    ensures { IfOk result (λ o. KnownIs (var_named vars.now x) o) }
{
    match newest(vars.list.as_slice(), x) {
        None => Ok(None),
        Some(v) => Ok(Some(Known {
            path: v.path,
            is_path: v.fixed && is_class(&v.ty),
            ty: copied_type(alloc, &v.ty)?,
        })),
    }
}

/// The value of a variable.
fn known_value(
    alloc: Global,
    env: &mut Env,
    scope: &Scope,
    known: &Known,
) -> Result<Value, CheckFault>
    requires scope { IsScope env.old.pool scope.now }
    requires fits { TypeFits (scope_in env.old.pool scope.now) known.now.ty }
    requires there { known.now.is_path ≡ true → PathThere (scope_in env.old.pool scope.now) known.now.path }
    ensures told { (p : Program) → PlanTold p (gives (known_typed known.now (scope_in env.old.pool scope.now)))
        (typed_in env.new.pool scope.now) env.old.marks env.new.marks result }
    ensures value { IfOk result (λ v. IsValue env.new.pool scope.now scope.now v) }
    ensures stays { Stays env.old env.new }
{
    if known.is_path {
        return path_value(alloc, env, scope, known.path);
    }
    plain(env, scope, &known.ty)
}

/// A variable: a `final` one of class type is a path, another one has its declared type. E06 where the name is not in
/// scope.
pub fn variable(
    alloc: Global,
    class: &Bound,
    env: &mut Env,
    scope: &Scope,
    at: Place,
    x: Name,
) -> Result<Value, CheckFault>
    requires scope { IsScope env.old.pool scope.now }
    requires vars { (v : AVar) → Among env.old.vars.list v → VarFits (scope_in env.old.pool scope.now) v }
    ensures told { (p : Program) (m : AMethod) → PlanTold p
        (var_gives (here_at class.now m env.old.vars.list) at x (scope_in env.old.pool scope.now)
        (var_named env.old.vars x))
        (typed_in env.new.pool scope.now) env.old.marks env.new.marks result }
    ensures value { IfOk result (λ v. IsValue env.new.pool scope.now scope.now v) }
    ensures stays { Stays env.old env.new }
{
    match find(alloc, &env.vars, x)? {
        None => Err(refused(alloc, Rule::E06, at, class, x)),
        Some(found) => {
            note_var(&mut env.marks, found.path)?;
            known_value(alloc, env, scope, &found)
        }
    }
}
