//! Whether all classes of a type are shared with the target of a view change.

ghost use Rattle.std.specs.Prelude.{◌≡◌, IfOk};
ghost use Rattle.jn_base.specs.declared.tree.Program.{Program as AProgram};
ghost use Rattle.jn_base.specs.Fits.{TypeFits};
ghost use Rattle.jn_intern.specs.Pools.{InPool, shown, scope_in};
ghost use Rattle.jn_rules.specs.Plans.{Target};
ghost use Rattle.jn_expr.specs.Envs.{ArePartsOf, IsScope, parts};
ghost use Rattle.jn_expr.specs.Steps.{SharingTold};

use crate::closure::closed;
use crate::env::Env;
use crate::masks::masks_of;
use jn_base::types::{Atom, Masks, Ty};
use jn_intern::{Scope, TyId};
use jn_views::{Held, holds};
use std::alloc::{AllocError, Global};

/// Whether all classes of the type are shared with the target, an atom with masks, or what refutes it.
pub fn sharing_of(
    alloc: Global,
    env: &Env,
    scope: &Scope,
    from: TyId,
    to: &Atom,
    masks: Masks,
) -> Result<Held, AllocError>
    requires scope { IsScope env.now.pool scope.now }
    requires number { InPool env.now.pool from }
    requires fits { TypeFits (scope_in env.now.pool scope.now) (shown env.now.pool from) }
    ensures { IfOk result (λ held. (p : AProgram) → ArePartsOf p (parts env.now)
        → SharingTold p env.now.table.known.items (scope_in env.now.pool scope.now) (shown env.now.pool from)
        (record { atom = to.now; masks = masks }) held) }
{
    let ty = env.pool.show(from);
    let atoms = closed(alloc, &env.pool, scope, &env.table, ty)?;
    let side = Ty::Class(atoms, masks_of(ty));
    Ok(holds(
        &env.table,
        &env.groups,
        &env.slots,
        &side,
        to,
        masks,
        &env.masks,
    ))
}
