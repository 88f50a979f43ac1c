//! Refusals of expressions.

ghost use Rattle.std.specs.Prelude.{◌≡◌};
ghost use Rattle.jn_base.specs.declared.tree.Place.{Place as APlace};
ghost use Rattle.jn_rules.specs.Exprs.{no_view, not_shared};
ghost use Rattle.jn_expr.specs.Told.{FaultIs, refusal_at};

use jn_base::refusal::{Refusal, Rule};
use jn_base::tree::{Name, Place};
use jn_heads::CheckFault;
use jn_names::Bound;
use std::alloc::Global;

/// The refusal by a rule at a place, with a class and a name.
pub fn refused(alloc: Global, rule: Rule, at: Place, class: &Bound, name: Name) -> CheckFault
    ensures { FaultIs result (refusal_at rule at class.now name) }
{
    match class.shown(alloc) {
        Err(_) => CheckFault::Memory,
        Ok(path) => CheckFault::Refused(Refusal {
            rule,
            at,
            class: Some(path),
            member: Some(name),
            limit: None,
        }),
    }
}

/// A view change that nothing grants, where no sharing was asked.
pub fn no_view(at: Place) -> CheckFault
    ensures { FaultIs result (no_view at) }
{
    CheckFault::Refused(Refusal {
        rule: Rule::E20,
        at,
        class: None,
        member: None,
        limit: None,
    })
}

/// A view change to whose target the class isn't shared, or the field of it.
pub fn not_shared(alloc: Global, at: Place, class: &Bound, field: Option<Name>) -> CheckFault
    ensures { FaultIs result (not_shared at class.now field) }
{
    match class.shown(alloc) {
        Err(_) => CheckFault::Memory,
        Ok(path) => CheckFault::Refused(Refusal {
            rule: Rule::E20,
            at,
            class: Some(path),
            member: field,
            limit: None,
        }),
    }
}
