ghost use Rattle.std.specs.Prelude.{◌≡◌};
ghost use Rattle.jn_heads.specs.Places.{IsReady};
ghost use Rattle.jn_heads.specs.Sides.{SideTold, PledgeTold};

use crate::fault::CheckFault;
use crate::place::spot;
use crate::written::of_names;
use jn_base::names::{Role, Vars};
use jn_base::tree::{Constraint, Name, Program, ViewTerm};
use jn_base::types::Ty;
use jn_names::{Bound, resolve_view};
use jn_table::Table;
use sqlite_items::Items;
use std::alloc::Global;

/// A sharing constraint of a header: what its sides stand for, each one atom with masks.
#[derive(Drop)]
pub struct Pledge {
    pub from: Ty,
    pub to: Ty,
}

/// What a side of a constraint in the header of a class's method stands for.
pub fn side_of(
    alloc: Global,
    p: &Program,
    t: &mut Table,
    masks: &[Name],
    class: &Bound,
    method: Name,
    role: Role,
    view: &ViewTerm,
) -> Result<Ty, CheckFault>
    requires { IsReady p.now t.old masks.now }
    ensures told { SideTold p.now class.now method role view.now result }
    ensures kept { t.new ≡ t.old }
{
    let spot = spot(alloc, class, method, role)?;
    let vars = Vars {
        list: Items::new(alloc),
    };
    match resolve_view(alloc, p, t, &spot, &vars, masks, view) {
        Ok(side) => Ok(side),
        Err(fault) => Err(of_names(fault)),
    }
}

/// What a constraint in the header of a class's method stands for: the left side, and then the right one.
pub fn pledge_of(
    alloc: Global,
    p: &Program,
    t: &mut Table,
    masks: &[Name],
    class: &Bound,
    method: Name,
    constraint: &Constraint,
) -> Result<Pledge, CheckFault>
    requires { IsReady p.now t.old masks.now }
    ensures told { PledgeTold p.now class.now method constraint.now result }
    ensures kept { t.new ≡ t.old }
{
    match side_of(
        alloc,
        p,
        t,
        masks,
        class,
        method,
        Role::From,
        &constraint.from,
    ) {
        Err(fault) => Err(fault),
        Ok(from) => match side_of(alloc, p, t, masks, class, method, Role::To, &constraint.to) {
            Err(fault) => Err(fault),
            Ok(to) => Ok(Pledge { from, to }),
        },
    }
}
