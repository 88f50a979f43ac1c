ghost use Rattle.std.specs.Prelude.{◌≡◌, IfOk};
ghost use Rattle.jn_lower.specs.Making.{bound_in};

use crate::walk::Parts;
use jn_base::types::Atom;
use jn_names::{Bound, atom_bound};
use std::alloc::AllocError;

/// The bound of an atom where the variables of the parts are in scope.
pub fn class_bound(g: &Parts, x: &Atom) -> Result<Bound, AllocError>
    ensures { IfOk result (λ b. b ≡ bound_in g.now x.now) }
{
    let own = Bound::of(g.alloc, g.class.names.as_slice())?;
    atom_bound(g.alloc, &own, g.vars, x)
}
