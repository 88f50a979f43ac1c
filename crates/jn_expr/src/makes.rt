//! The terms of `new` and `super`, and the type that a `new` makes.

ghost use Rattle.std.specs.Prelude.{◌≡◌, IfOk};
ghost use Rattle.jn_base.specs.declared.types.Atom.{Atom as AnAtom};
ghost use Rattle.jn_base.specs.Atoms.{atom_of};
ghost use Rattle.jn_base.specs.Scopes.{bound};
ghost use Rattle.jn_heads.specs.Told.{Told, itself};
ghost use Rattle.jn_base.specs.Fits.{TypeFits};
ghost use Rattle.jn_intern.specs.Pools.{shown, scope_in, Keeps};
ghost use Rattle.jn_rules.specs.Plans.{Plan, AtomMark, OfTerm, note, ask, taken};
ghost use Rattle.jn_rules.specs.Questions.{Means};
ghost use Rattle.jn_rules.specs.Exprs.{Typed, site_here, made_exact, of_atom};
ghost use Rattle.jn_sem.specs.NormalFunction.{normal_type};
ghost use Rattle.jn_expr.specs.Envs.{ArePartsOf, IsScope, Stays, parts, here_at};
ghost use Rattle.jn_expr.specs.Passing.{Shows};
ghost use Rattle.jn_expr.specs.Calling.{DeepAs};
ghost use Rattle.jn_expr.specs.Steps.{LeadsTold};

use crate::env::Env;
use crate::marks::note_atom;
use crate::types::normal_of;
use jn_base::names::Role;
use jn_base::tree::{Method, Program, Term};
use jn_base::types::{Atom, Masks, Ty};
use jn_heads::{CheckFault, of_names, spot};
use jn_intern::{Pool, Scope, TyId};
use jn_names::{Bound, resolve};
use sqlite_items::Items;
use std::alloc::{AllocError, Global};

/// What a term stands for.
fn term_of(
    alloc: Global,
    p: &Program,
    class: &Bound,
    m: &Method,
    env: &mut Env,
    role: Role,
    t: &Term,
) -> Result<Atom, CheckFault>
    requires { ArePartsOf p.now (parts env.old) }
    ensures told { Told (Means p.now (OfTerm role (site_here
        (here_at class.now m.now env.old.vars.list)) t.now)) itself result }
    ensures stays { Stays env.old env.new }
    ensures marks { env.new.marks ≡ env.old.marks }
{
    let spot = spot(alloc, class, m.name.name, role)?;
    match resolve(alloc, p, &mut env.table, &spot, &env.vars, t) {
        Ok(atom) => Ok(atom),
        Err(fault) => Err(of_names(fault)),
    }
}

/// What the term of a `new` or `super` stands for; its atom is noted.
pub fn begin_term(
    alloc: Global,
    p: &Program,
    class: &Bound,
    m: &Method,
    env: &mut Env,
    role: Role,
    t: &Term,
) -> Result<Atom, CheckFault>
    requires { ArePartsOf p.now (parts env.old) }
    ensures told { (go : AnAtom → Plan Typed) → LeadsTold p.now
        (ask (OfTerm role (site_here (here_at class.now m.now env.old.vars.list)) t.now)
        (taken (λ a. note (AtomMark a) (go a))))
        go env.old.marks env.new.marks result }
    ensures stays { Stays env.old env.new }
{
    match term_of(alloc, p, class, m, env, role, t) {
        Err(fault) => Err(fault),
        Ok(atom) => {
            note_atom(alloc, &mut env.marks, &atom)?;
            Ok(atom)
        }
    }
}

/// The type of the atom with all its names exact.
fn exact_type(alloc: Global, x: &Atom) -> Result<Ty, AllocError>
    ensures { IfOk result (λ t. t ≡ made_exact (atom_of x.now)) }
{
    let mut exact = Items::from_slice(alloc, x.exact.as_slice())?;
    let more = Items::from_slice(alloc, x.names.as_slice())?;
    exact.append(more)?;
    let mut xs = Items::new(alloc);
    xs.push(Atom {
        anchor: x.anchor,
        exact,
        names: Items::new(alloc),
    })?;
    Ok(Ty::Class(xs, Masks([0, 0, 0, 0])))
}

/// The type of the atom alone.
fn atom_type(alloc: Global, x: &Atom) -> Result<Ty, AllocError>
    ensures { IfOk result (λ t. t ≡ of_atom x.now) }
{
    let exact = Items::from_slice(alloc, x.exact.as_slice())?;
    let names = Items::from_slice(alloc, x.names.as_slice())?;
    let mut xs = Items::new(alloc);
    xs.push(Atom {
        anchor: x.anchor,
        exact,
        names,
    })?;
    Ok(Ty::Class(xs, Masks([0, 0, 0, 0])))
}

/// The type that a `new` of the atom makes, in normal form.
pub fn made_type(
    alloc: Global,
    pool: &mut Pool,
    scope: &Scope,
    x: &Atom,
) -> Result<TyId, AllocError>
    requires { IsScope pool.old scope.now }
    ensures is { IfOk result (λ u. Shows pool.new u
        (normal_type (scope_in pool.old scope.now) (made_exact (atom_of x.now)))) }
    ensures fits { IfOk result (λ u. TypeFits (scope_in pool.new scope.now) (shown pool.new u)) }
    ensures deep { IfOk result (λ u. DeepAs (scope_in pool.new scope.now) (shown pool.new u)
        (bound (scope_in pool.old scope.now) (atom_of x.now))) }
    ensures keeps { Keeps pool.old pool.new }
{
    let ty = exact_type(alloc, x)?;
    let id = pool.intern(&ty)?;
    normal_of(alloc, pool, scope, id)
}

/// The type of the atom alone, in normal form.
pub fn normal_atom(
    alloc: Global,
    pool: &mut Pool,
    scope: &Scope,
    x: &Atom,
) -> Result<TyId, AllocError>
    requires { IsScope pool.old scope.now }
    ensures is { IfOk result (λ u. Shows pool.new u (normal_type (scope_in pool.old scope.now) (of_atom x.now))) }
    ensures fits { IfOk result (λ u. TypeFits (scope_in pool.new scope.now) (shown pool.new u)) }
    ensures deep { IfOk result (λ u. DeepAs (scope_in pool.new scope.now) (shown pool.new u)
        (bound (scope_in pool.old scope.now) (atom_of x.now))) }
    ensures keeps { Keeps pool.old pool.new }
{
    let ty = atom_type(alloc, x)?;
    let id = pool.intern(&ty)?;
    normal_of(alloc, pool, scope, id)
}
