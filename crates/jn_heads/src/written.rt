ghost use Rattle.std.specs.Prelude.{◌≡◌, All, IfOk, IsTrue};
ghost use Rattle.jn_sem.specs.LawsOfSlots.{HeadNamed};
ghost use Rattle.jn_intern.specs.Pools.{InPool, shown, Keeps};
ghost use Rattle.jn_laws.specs.LawsOfWritten.{TypeWellFormed};
ghost use Rattle.jn_rules.specs.Plans.{OfType};
ghost use Rattle.jn_rules.specs.Questions.{Means};
ghost use Rattle.jn_heads.specs.Told.{Told, itself, of_names};
ghost use Rattle.jn_heads.specs.Places.{IsReady, Stands, site_of};
ghost use Rattle.jn_heads.specs.Written.{TypeTold};

use crate::fault::CheckFault;
use crate::place::{Place, spot};
use jn_base::names::Role;
use jn_base::tree::{Head, Name, Program, Term, TypeTerm};
use jn_base::types::Ty;
use jn_intern::{Pool, TyId};
use jn_names::{NameFault, resolve_type};
use jn_normal::normal;
use jn_table::Table;
use std::alloc::Global;

/// The fault of a name, as one of a check.
pub fn of_names(fault: NameFault) -> CheckFault
    ensures { result ≡ of_names fault }
{
    match fault {
        NameFault::Refused(refusal) => CheckFault::Refused(refusal),
        NameFault::Memory => CheckFault::Memory,
    }
}

/// Whether names stand before the bracket, where there is one.
fn is_named(head: &Head) -> bool
    ensures { IsTrue result → HeadNamed head.now }
{
    match head {
        Head::Plain => true,
        Head::Own(_) => true,
        Head::Prefix(names, _) => !names.as_slice().is_empty(),
    }
}

/// Whether names stand before each bracket of the terms.
fn are_named(terms: &[Term]) -> bool
    ensures { IsTrue result → All (λ t. HeadNamed t.head) terms.now }
{
    for term in terms {
        if !is_named(&term.head) {
            return false;
        }
    }
    true
}

/// Whether a class type has a term, and names stand before each bracket, as in each type that a source spells.
pub fn is_formed(ty: &TypeTerm) -> bool
    ensures { IsTrue result → TypeWellFormed ty.now }
{
    match ty {
        TypeTerm::Int => true,
        TypeTerm::Bool => true,
        TypeTerm::Class(terms, _) => { !terms.as_slice().is_empty() && are_named(terms.as_slice()) }
    }
}

/// What a written type stands for at the place.
fn resolved(
    alloc: Global,
    p: &Program,
    t: &mut Table,
    masks: &[Name],
    at: &Place,
    ty: &TypeTerm,
) -> Result<Ty, CheckFault>
    requires { IsReady p.now t.old masks.now }
    ensures told { Told (Means p.now (OfType (site_of at.now) ty.now)) itself result }
    ensures kept { t.new ≡ t.old }
{
    let spot = spot(alloc, &at.class, at.method, Role::Value)?;
    match resolve_type(alloc, p, t, &spot, &at.vars, masks, ty) {
        Ok(given) => Ok(given),
        Err(fault) => Err(of_names(fault)),
    }
}

/// The type of a parameter or result, in normal form.
///
/// No source spells a class type without a term; of such a one nothing is told.
pub fn type_at(
    alloc: Global,
    p: &Program,
    t: &mut Table,
    masks: &[Name],
    pool: &mut Pool,
    at: &Place,
    ty: &TypeTerm,
) -> Result<TyId, CheckFault>
    requires ready { IsReady p.now t.old masks.now }
    requires stands { Stands p.now pool.old at.now }
    ensures told { TypeTold p.now (site_of at.now) ty.now pool.new result }
    ensures number { IfOk result (λ id. InPool pool.new id) }
    ensures keeps { Keeps pool.old pool.new }
    ensures kept { t.new ≡ t.old }
{
    if !is_formed(ty) {
        return Err(CheckFault::Memory);
    }
    match resolved(alloc, p, t, masks, at, ty) {
        Err(fault) => Err(fault),
        Ok(given) => {
            let id = pool.intern(&given)?;
            let form = normal(alloc, pool, &at.scope, id)?;
            Ok(form)
        }
    }
}
