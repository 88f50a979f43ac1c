ghost use Rattle.std.specs.Prelude.{◌≡◌, List, ◌∷◌, ℕ, length, IfOk, OnOk};
ghost use Rattle.jn_agree.specs.Naming.{Naming};
ghost use Rattle.std.specs.Prelude.{slice_get, Some};
ghost use Rattle.jn_lower.specs.Classes.{AreClassesOf};
ghost use Rattle.jn_lower.specs.Making.{bound_in, AboveFound, TuckedFor, AboveCalled, BareCalled};
ghost use Rattle.jn_lower.specs.Walks.{NoneTwice};

use crate::bounds::class_bound;
use crate::calls::{bare_call_at, call_at, tuck_first};
use crate::members::{Callee, callee_at};
use crate::walk::{Parts, Walk};
use crate::walk_members::settle;
use jn_base::tree::Name;
use jn_base::types::Atom;
use jn_names::Bound;
use jn_table::Table;
use std::alloc::AllocError;

/// What `super` calls: the numbers of the class and of the selector, the kind of the result, and that of the first
/// parameter, 0 where there is none.
#[derive(Clone, Copy)]
pub struct Above {
    pub class: u16,
    pub selector: u32,
    pub kind: u8,
    pub first: u8,
}

/// The number of the class. One that isn't in the table, which no checked body has, is refused for want of memory.
fn number_of(t: &Table, b: &Bound) -> Result<u16, AllocError>
    ensures { IfOk result (λ k. (n : Naming) → AreClassesOf t.now n → slice_get n.classes k ≡ Some b.now) }
{
    match b.number(t) {
        None => Err(AllocError),
        Some(id) => Ok(id.0),
    }
}

/// The number of the atom's class.
fn class_number(g: &Parts, x: &Atom) -> Result<u16, AllocError>
    ensures { IfOk result (λ k. (n : Naming) → AreClassesOf g.now.t.now n
        → slice_get n.classes k ≡ Some (bound_in g.now x.now)) }
{
    let b = class_bound(g, x)?;
    number_of(g.t, &b)
}

/// The kind of the first parameter, 0 where there is none.
fn first_kind(kinds: &[u8]) -> u8
    ensures { (k : ℕ) (ks : List ℕ) → kinds.now ≡ k ∷ ks → result ≡ k }
{
    match kinds {
        [] => 0,
        [first, ..] => *first,
    }
}

/// The method of that name that the class of the next mark declares, called at the class of the next term. One with
/// another count of parameters, which no checked body calls, is refused for want of memory.
pub fn found_above(g: &Parts, w: &mut Walk, f: Name, count: usize) -> Result<Above, AllocError>
    requires { NoneTwice g.now }
    ensures { IfOk result (λ x. AboveFound g.now f count x w.old w.new) }
{
    match w.marks.next_term() {
        None => Err(AllocError),
        Some(x) => match w.marks.next_member() {
            None => Err(AllocError),
            Some(path) => {
                let class = class_number(g, x)?;
                let found = callee_at(g.alloc, g.p, g.t, g.names.methods.as_slice(), path, f)?;
                if found.params.as_slice().len() != count {
                    return Err(AllocError);
                }
                Ok(Above {
                    class,
                    selector: found.selector,
                    kind: found.kind,
                    first: first_kind(found.params.as_slice()),
                })
            }
        },
    }
}

/// Brings `this` below the first argument.
pub fn tucked(w: &mut Walk, x: Above) -> Result<(), AllocError>
    ensures { OnOk result (TuckedFor x w.old w.new) }
{
    tuck_first(&mut w.out, x.first)
}

/// Behind the arguments: calls the method at its class, and drops what it gives where it isn't kept.
pub fn called_above(w: &mut Walk, x: Above, keeps: bool) -> Result<(), AllocError>
    ensures { OnOk result (AboveCalled x keeps w.old w.new) }
{
    call_at(&mut w.out, x.class, x.selector, keeps, x.kind)?;
    settle(w, x.kind)
}

/// The same on `this`, without arguments.
pub fn bare_above(w: &mut Walk, x: Above, keeps: bool) -> Result<(), AllocError>
    ensures { OnOk result (BareCalled x keeps w.old w.new) }
{
    bare_call_at(&mut w.out, x.class, x.selector, keeps, x.kind)?;
    settle(w, x.kind)
}
