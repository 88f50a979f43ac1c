ghost use Rattle.std.specs.Prelude.{◌≡◌, suc, IfOk, IfSome};
ghost use Rattle.jn_base.specs.declared.tree.Program.{Program as AProgram};
ghost use Rattle.jn_base.specs.Fits.{TypeFits};
ghost use Rattle.jn_base.specs.Scopes.{this_type};
ghost use Rattle.jn_base.specs.Universe.{InUniverse};
ghost use Rattle.jn_intern.specs.Pools.{InPool, shown, Keeps};
ghost use Rattle.jn_laws.specs.LawsOfWritten.{Shallow, scope_of};
ghost use Rattle.jn_sem.specs.Does.{Body};
ghost use Rattle.jn_rules.specs.Questions.{Gives};
ghost use Rattle.jn_rules.specs.Headers.{result_typed, header_typed};
ghost use Rattle.jn_heads.specs.Told.{Told};
ghost use Rattle.jn_heads.specs.Places.{IsReady, Stands, IsIn, StartsAt, site_of};
ghost use Rattle.jn_heads.specs.Params.{ParamTold, ParamsTold, header_in};

use crate::fault::CheckFault;
use crate::place::Place;
use crate::written::type_at;
use jn_base::names::{Var, Vars};
use jn_base::tree::{Method, Name, Param, Program, TypeTerm};
use jn_base::types::{Anchor, Atom, Masks, Ty};
use jn_intern::{Bind, Pool, Scope, TyId, copied_type};
use jn_names::Bound;
use jn_table::Table;
use sqlite_items::Items;
use std::alloc::{AllocError, Global};

/// The type of `this` in a class.
fn this_type(alloc: Global, class: &Bound) -> Result<Ty, AllocError>
    ensures { IfOk result (λ t. t ≡ this_type class.now) }
{
    let names = Items::from_slice(alloc, class.names())?;
    let exact = Items::new(alloc);
    let anchor = Anchor::Root;
    let mut atoms = Items::new(alloc);
    atoms.push(Atom {
        anchor,
        exact,
        names,
    })?;
    Ok(Ty::Class(atoms, Masks([0, 0, 0, 0])))
}

/// The place in the header of a class's method where no parameter is in scope.
pub fn start(
    alloc: Global,
    pool: &mut Pool,
    class: &Bound,
    method: Name,
) -> Result<Place, AllocError>
    ensures is { IfOk result (λ at. StartsAt class.now method at) }
    ensures stands { IfOk result (λ at. (p : AProgram) → Shallow p → InUniverse p class.now → Stands p pool.new at) }
    ensures keeps { Keeps pool.old pool.new }
{
    let ty = this_type(alloc, class)?;
    let id = pool.intern(&ty)?;
    let mut binds = Vec::new(alloc);
    binds.push(Bind { path: 0, ty: id })?;
    let class = class.without(alloc, 0)?;
    let list = Items::new(alloc);
    Ok(Place {
        class,
        method,
        vars: Vars { list },
        scope: Scope { binds },
    })
}

/// The path behind those of so many variables; no method that a source spells has more than 15.
fn next_path(count: usize) -> Option<u32>
    ensures { IfSome result (λ q. q ≡ suc count) }
{
    if count > 255 {
        return None;
    }
    Some(count as u32 + 1)
}

/// Adds a parameter to those in scope.
fn add_param(
    alloc: Global,
    p: &Program,
    t: &mut Table,
    masks: &[Name],
    pool: &mut Pool,
    at: &mut Place,
    param: &Param,
) -> Result<(), CheckFault>
    requires ready { IsReady p.now t.old masks.now }
    requires stands { Stands p.now pool.old at.old }
    ensures told { ParamTold p.now pool.new at.old param.now at.new result }
    ensures keeps { Keeps pool.old pool.new }
    ensures kept { t.new ≡ t.old }
{
    match type_at(alloc, p, t, masks, pool, at, &param.ty) {
        Err(fault) => Err(fault),
        Ok(id) => match next_path(at.vars.list.len()) {
            None => Err(CheckFault::Memory),
            Some(path) => {
                let ty = copied_type(alloc, pool.show(id))?;
                at.vars.list.push(Var {
                    name: param.name.name,
                    path,
                    fixed: param.fixed,
                    ty,
                })?;
                at.scope.binds.push(Bind { path, ty: id })?;
                Ok(())
            }
        },
    }
}

/// Adds parameters to those in scope, each with those to its left.
fn add_params(
    alloc: Global,
    p: &Program,
    t: &mut Table,
    masks: &[Name],
    pool: &mut Pool,
    at: &mut Place,
    params: &[Param],
) -> Result<(), CheckFault>
    requires ready { IsReady p.now t.old masks.now }
    requires stands { Stands p.now pool.old at.old }
    ensures told { (b : Body) → IsIn b at.old → ParamsTold p.now pool.new b at.old params.now at.new result }
    ensures keeps { Keeps pool.old pool.new }
    ensures kept { t.new ≡ t.old }
{
    for param in params {
        match add_param(alloc, p, t, masks, pool, at, param) {
            Ok(()) => {}
            Err(fault) => return Err(fault),
        }
    }
    Ok(())
}

/// The type of a result: void, or a type in which all parameters are in scope.
fn result_at(
    alloc: Global,
    p: &Program,
    t: &mut Table,
    masks: &[Name],
    pool: &mut Pool,
    at: &Place,
    ty: &Option<TypeTerm>,
) -> Result<TyId, CheckFault>
    requires ready { IsReady p.now t.old masks.now }
    requires stands { Stands p.now pool.old at.now }
    ensures told { (b : Body) → IsIn b at.now → Told (Gives p.now (result_typed b at.now.vars.list ty.now)) (shown pool.new) result }
    ensures number { IfOk result (λ id. InPool pool.new id) }
    ensures fits { IfOk result (λ id. TypeFits (scope_of (site_of at.now)) (shown pool.new id)) }
    ensures keeps { Keeps pool.old pool.new }
    ensures kept { t.new ≡ t.old }
{
    match ty {
        None => Ok(pool.intern(&Ty::Void)?),
        Some(ty) => type_at(alloc, p, t, masks, pool, at, ty),
    }
}

/// The header of a method: its parameters in scope, and the number of its result's type.
#[derive(Drop)]
pub struct Header {
    pub at: Place,
    pub result: TyId,
}

/// The header of a method in the declaration of a class: the parameters come before the result.
pub fn header_of(
    alloc: Global,
    p: &Program,
    t: &mut Table,
    masks: &[Name],
    pool: &mut Pool,
    class: &Bound,
    m: &Method,
) -> Result<Header, CheckFault>
    requires { IsReady p.now t.old masks.now }
    ensures told { Told (Gives p.now (header_typed (record { class = class.now; method = m.now }))) (header_in pool.new) result }
    ensures stands { IfOk result (λ h. Stands p.now pool.new h.at) }
    ensures within { IfOk result (λ h. IsIn (record { class = class.now; method = m.now }) h.at) }
    ensures number { IfOk result (λ h. InPool pool.new h.result) }
    ensures fits { IfOk result (λ h. TypeFits (scope_of (site_of h.at)) (shown pool.new h.result)) }
    ensures keeps { Keeps pool.old pool.new }
    ensures kept { t.new ≡ t.old }
{
    if !class.is_known(t) {
        return Err(CheckFault::Memory);
    }
    let mut at = start(alloc, pool, class, m.name.name)?;
    match add_params(alloc, p, t, masks, pool, &mut at, m.params.as_slice()) {
        Err(fault) => Err(fault),
        Ok(()) => match result_at(alloc, p, t, masks, pool, &at, &m.result) {
            Err(fault) => Err(fault),
            Ok(result) => Ok(Header { at, result }),
        },
    }
}
