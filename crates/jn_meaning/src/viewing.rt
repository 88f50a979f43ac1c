//! Views.

ghost use Rattle.std.specs.Prelude.{◌≡◌, ◌∷◌, [], IfOk, IfSome, option_copied, slice_get};
ghost use Rattle.jn_base.specs.declared.types.Masks.{Masks as AMasks};
ghost use Rattle.jn_sem.specs.Acts as acts;
ghost use Rattle.jn_meaning.specs.declared.heap.Heap.{Heap as AHeap};
ghost use Rattle.jn_meaning.specs.World.{Stands};
ghost use Rattle.jn_meaning.specs.Values.{path_at};
ghost use Rattle.jn_meaning.specs.Sites.{site_with};
ghost use Rattle.jn_meaning.specs.Doing.{Done};
ghost use Rattle.jn_meaning.specs.Viewing.{TargetTold, NamedAs, NamedBy, FamilyOf};
ghost use Rattle.jn_meaning.specs.Seen.{views_of};

use crate::did::{Did, Ending};
use crate::doing::go_on;
use crate::fault::MeanFault;
use crate::frame::Frame;
use crate::getting::viewed;
use crate::locals::view_in;
use crate::seen::{Seen, joined, rooted};
use crate::terms::spot_at;
use crate::world::World;
use jn_base::names::{Role, Vars};
use jn_base::tree::{Name, ViewTerm};
use jn_base::types::{Atom, Ty};
use jn_names::{NameFault, resolve_view};
use jn_sem::outcome::Why;
use jn_table::{ClassId, Table};
use sqlite_items::{Items, at};
use std::alloc::{AllocError, Global};

/// The atom of a list that has one alone.
fn alone(xs: &[Atom]) -> Option<&Atom>
    ensures { IfSome (option_copied result) (λ x. xs.now ≡ x ∷ []) }
{
    if xs.len() != 1 {
        return None;
    }
    at(xs, 0)
}

/// The atom of a class type that has one alone.
fn only_atom(ty: &Ty) -> Option<&Atom>
    ensures { IfSome (option_copied result) (λ x. (m : AMasks) × (ty.now ≡ Ty.Class (x ∷ []) m)) }
{
    match ty {
        Ty::Class(xs, _) => alone(xs.as_slice()),
        Ty::Int => None,
        Ty::Bool => None,
        Ty::Null => None,
        Ty::Void => None,
    }
}

/// The type of the target of a view; none where it stands for none.
fn target_at(
    alloc: Global,
    w: &World,
    t: &mut Table,
    class: ClassId,
    owner: Name,
    vars: &Vars,
    view: &ViewTerm,
) -> Result<Option<Ty>, MeanFault>
    requires { Stands w.now t.old }
    ensures told { IfOk result (λ o. TargetTold w.now.program.now (site_with (path_at t.old.known.items class) owner vars.now) view.now o) }
    ensures kept { t.new ≡ t.old }
{
    let spot = spot_at(alloc, t, class, owner, Role::View)?;
    match resolve_view(alloc, w.program, t, &spot, vars, w.masks, view) {
        Err(NameFault::Refused(_)) => Ok(None),
        Err(NameFault::Memory) => Err(MeanFault::Memory),
        Ok(given) => Ok(Some(given)),
    }
}

/// The names of the class that an atom names by these views; none where the anchor's path has no view.
fn named_in(
    alloc: Global,
    t: &Table,
    seen: &Seen,
    x: &Atom,
) -> Result<Option<Items<Name>>, AllocError>
    ensures { IfOk result (λ o. NamedAs (views_of t.now.known.items seen.now) x.now o) }
{
    match rooted(alloc, t, seen, x)? {
        None => Ok(None),
        Some(y) => {
            let names = joined(alloc, y.exact.as_slice(), y.names.as_slice())?;
            Ok(Some(names))
        }
    }
}

/// By the views of the frame.
pub fn named_by(
    alloc: Global,
    t: &Table,
    f: &Frame,
    x: &Atom,
) -> Result<Option<Items<Name>>, AllocError>
    ensures { IfOk result (λ o. NamedBy t.now.known.items f.now x.now o) }
{
    let seen = Seen {
        this: view_in(f.this),
        locals: &f.locals,
    };
    named_in(alloc, t, &seen, x)
}

/// The first name.
fn first_of(names: &[Name]) -> Option<Name>
    ensures { result ≡ slice_get names.now 0 }
{
    at(names, 0).copied()
}

/// The family of the target of a view; none where there is none.
fn target_family(
    alloc: Global,
    w: &World,
    t: &mut Table,
    f: &Frame,
    view: &ViewTerm,
) -> Result<Option<Name>, MeanFault>
    requires { Stands w.now t.old }
    ensures told { IfOk result (λ o. FamilyOf w.now.program.now t.old.known.items f.now view.now o) }
    ensures kept { t.new ≡ t.old }
{
    match f.class {
        None => Err(MeanFault::Memory),
        Some(class) => {
            let found = target_at(alloc, w, t, class, f.method.name.name, &f.locals.vars, view)?;
            match found {
                None => Ok(None),
                Some(given) => match only_atom(&given) {
                    None => Err(MeanFault::Memory),
                    Some(x) => match named_by(alloc, t, f, x)? {
                        None => Ok(None),
                        Some(names) => Ok(first_of(names.as_slice())),
                    },
                },
            }
        }
    }
}

/// A view.
pub fn view<'a>(
    alloc: Global,
    w: &World,
    t: &mut Table,
    f: &mut Frame<'a>,
    term: &ViewTerm,
) -> Result<Did<'a>, MeanFault>
    requires { Stands w.now t.old }
    ensures did { IfOk result (λ d. (h : AHeap) → Done w.now t.old h (acts.View term.now) f.old d f.new) }
    ensures kept { t.new ≡ t.old }
{
    match f.vals.pop() {
        None => Ok(Did::Ended(Ending::Stuck(Why::Missing))),
        Some(v) => {
            let found = target_family(alloc, w, t, f, term)?;
            match found {
                None => Ok(Did::Ended(Ending::Stuck(Why::Missing))),
                Some(family) => {
                    let made = viewed(alloc, w, t, family, v)?;
                    let did = go_on(f, made)?;
                    Ok(did)
                }
            }
        }
    }
}
