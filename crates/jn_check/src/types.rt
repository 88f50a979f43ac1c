//! The written types of locals.

ghost use Rattle.std.specs.Prelude.{◌≡◌, [], ℕ, IfOk, OnOk, map};
ghost use Rattle.jn_base.specs.declared.types.Ty.{Ty as AType};
ghost use Rattle.jn_base.specs.Scopes.{Scope as AScope};
ghost use Rattle.jn_base.specs.Fits.{ScopeFits, TypeFits};
ghost use Rattle.jn_intern.specs.Pools.{InPool, shown, scope_in, ScopeInPool, Keeps};
ghost use Rattle.jn_laws.specs.LawsOfWritten.{site_with, scope_of, SiteFits, TypeThere};
ghost use Rattle.jn_sem.specs.NormalFunction.{normal_type};
ghost use Rattle.jn_heads.specs.Told.{Told, itself};
ghost use Rattle.jn_rules.specs.Plans.{Plan, AtomMark, OfType, ask, taken, note_all};
ghost use Rattle.jn_rules.specs.Questions.{Means};
ghost use Rattle.jn_rules.specs.Headers.{declared_type};
ghost use Rattle.jn_rules.specs.Stmts.{Before, atom_marks};
ghost use Rattle.jn_expr.specs.Envs.{ArePartsOf, Stays, parts};
ghost use Rattle.jn_expr.specs.Passing.{Shows};
ghost use Rattle.jn_expr.specs.Steps.{LeadsTold};
ghost use Rattle.jn_expr.specs.Told.{Adds};

use jn_base::names::{Resolved, Role};
use jn_base::tree::{Method, Program, TypeTerm};
use jn_base::types::{Atom, Ty};
use jn_expr::{Env, note_atom};
use jn_heads::{CheckFault, is_formed, of_names, spot};
use jn_intern::{Pool, Scope, TyId};
use jn_names::{Bound, resolve_type};
use jn_normal::normal;
use std::alloc::{AllocError, Global};

/// What a written type stands for.
fn written_type(
    alloc: Global,
    p: &Program,
    class: &Bound,
    m: &Method,
    env: &mut Env,
    ty: &TypeTerm,
) -> Result<Ty, CheckFault>
    requires { ArePartsOf p.now (parts env.old) }
    ensures told { Told (Means p.now (OfType (site_with class.now m.now.name.name env.old.vars.list) ty.now)) itself result }
    ensures marks { env.new.marks ≡ env.old.marks }
    ensures stays { Stays env.old env.new }
{
    let spot = spot(alloc, class, m.name.name, Role::Value)?;
    match resolve_type(alloc, p, &mut env.table, &spot, &env.vars, &env.masks, ty) {
        Ok(given) => Ok(given),
        Err(fault) => Err(of_names(fault)),
    }
}

/// Adds the atoms.
fn note_atoms(alloc: Global, marks: &mut Resolved, xs: &[Atom]) -> Result<(), AllocError>
    ensures { OnOk result (Adds (map AtomMark xs.now) marks.old marks.new) }
{
    for x in xs {
        note_atom(alloc, marks, x)?;
    }
    Ok(())
}

/// Adds the atoms of a type.
fn note_type(alloc: Global, marks: &mut Resolved, ty: &Ty) -> Result<(), AllocError>
    ensures { OnOk result (Adds (atom_marks ty.now) marks.old marks.new) }
{
    match ty {
        Ty::Class(xs, _) => note_atoms(alloc, marks, xs.as_slice()),
        Ty::Int => Ok(()),
        Ty::Bool => Ok(()),
        Ty::Null => Ok(()),
        Ty::Void => Ok(()),
    }
}

/// The number of the type in normal form.
fn normal_number(alloc: Global, pool: &mut Pool, scope: &Scope, ty: &Ty) -> Result<TyId, AllocError>
    requires known { ScopeInPool pool.old scope.now }
    requires fits { ScopeFits (scope_in pool.old scope.now) }
    requires type_fits { TypeFits (scope_in pool.old scope.now) ty.now }
    ensures is { IfOk result (λ id. Shows pool.new id (normal_type (scope_in pool.old scope.now) ty.now)) }
    ensures keeps { Keeps pool.old pool.new }
{
    let id = pool.intern(ty)?;
    normal(alloc, pool, scope, id)
}

/// The number of a local's type in normal form; its atoms are noted.
///
/// No source spells a class type without a term; of such a one nothing is told.
pub fn local_type(
    alloc: Global,
    p: &Program,
    class: &Bound,
    m: &Method,
    env: &mut Env,
    declared: &Scope,
    ty: &TypeTerm,
) -> Result<TyId, CheckFault>
    requires parts { ArePartsOf p.now (parts env.old) }
    requires fits { SiteFits p.now (site_with class.now m.now.name.name env.old.vars.list) }
    requires known { ScopeInPool env.old.pool declared.now }
    requires scope { scope_in env.old.pool declared.now ≡ scope_of (site_with class.now m.now.name.name env.old.vars.list) }
    ensures told { (go : AType → Plan Before) → LeadsTold p.now
        (ask (OfType (site_with class.now m.now.name.name env.old.vars.list) ty.now) (taken (λ t. note_all (atom_marks t)
        (go (declared_type (site_with class.now m.now.name.name env.old.vars.list) t)))))
        (λ id. go (shown env.new.pool id)) env.old.marks env.new.marks result }
    ensures number { IfOk result (λ id. InPool env.new.pool id) }
    ensures there { IfOk result (λ id. TypeThere (site_with class.now m.now.name.name env.old.vars.list)
        (shown env.new.pool id)) }
    ensures stays { Stays env.old env.new }
{
    if !is_formed(ty) {
        return Err(CheckFault::Memory);
    }
    match written_type(alloc, p, class, m, env, ty) {
        Err(fault) => Err(fault),
        Ok(given) => {
            note_type(alloc, &mut env.marks, &given)?;
            let id = normal_number(alloc, &mut env.pool, declared, &given)?;
            Ok(id)
        }
    }
}
