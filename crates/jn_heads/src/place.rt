ghost use Rattle.std.specs.Prelude.{◌≡◌, IfOk};
ghost use Rattle.jn_sem.specs.Terms.{spot};

use jn_base::names::{Role, Spot, Vars};
use jn_base::tree::Name;
use jn_intern::Scope;
use jn_names::Bound;
use std::alloc::{AllocError, Global};

/// Where a type of a header stands: in the declaration of a class, in its method, with the parameters before it in
/// scope.
#[derive(Drop)]
pub struct Place {
    pub class: Bound,
    pub method: Name,
    pub vars: Vars,
    pub scope: Scope,
}

/// The spot of a type in the header of a class's method or field.
pub fn spot(alloc: Global, class: &Bound, owner: Name, role: Role) -> Result<Spot, AllocError>
    ensures { IfOk result (λ s. s ≡ spot class.now owner role) }
{
    Ok(Spot {
        class: class.shown(alloc)?,
        owner,
        role,
    })
}
