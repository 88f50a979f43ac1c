ghost use Rattle.std.specs.Prelude.{map};
ghost use Rattle.jn_base.specs.declared.tree.Program.{Program};
ghost use Rattle.jn_table.specs.Tables.{IsFilled};
ghost use Rattle.jn_sem.specs.NotFamily.{in_list, own_listed};
ghost use Rattle.jn_share.specs.Listing.{listing_of};
ghost use Rattle.jn_rules.specs.Plans.{in_turn};
ghost use Rattle.jn_rules.specs.Questions.{Gives};
ghost use Rattle.jn_rules.specs.Headers.{listed_asked};
ghost use Rattle.jn_heads.specs.Told.{Told, itself};
ghost use Rattle.jn_header.specs.Listed.{HasName, IsListedFault, of_list};

use jn_base::refusal::{Refusal, Rule};
use jn_base::tree::{Decl, Name, Named};
use jn_heads::CheckFault;
use jn_names::Bound;
use jn_share::{InList, is_family, lacks};
use jn_table::Table;
use std::alloc::Global;

/// The refusal at a listed name, by E06 with the name or by E12 without it; or want of memory.
fn at_name(
    alloc: Global,
    class: &Bound,
    name: Named,
    rule: Rule,
    member: Option<Name>,
) -> CheckFault
    ensures { IsListedFault class.now name rule member result }
{
    match class.shown(alloc) {
        Err(_) => CheckFault::Memory,
        Ok(path) => CheckFault::Refused(Refusal {
            rule,
            at: name.at,
            class: Some(path),
            member,
            limit: None,
        }),
    }
}

/// A name in a list of the declaration at a path: E06 where it is no top-level name, then E12 where it lacks what a
/// family in the list must have.
fn judge_name(
    alloc: Global,
    t: &Table,
    class: &Bound,
    list: InList,
    name: &Named,
) -> Result<(), CheckFault>
    ensures { (p : Program) → IsFilled p t.now → HasName class.now → Told (Gives p (listed_asked (in_list class.now (listing_of list) name.now))) itself result }
{
    if !is_family(alloc, t, name.name)? {
        return Err(at_name(alloc, class, *name, Rule::E06, Some(name.name)));
    }
    if lacks(alloc, t, class.names(), list, *name)? {
        return Err(at_name(alloc, class, *name, Rule::E12, None));
    }
    Ok(())
}

/// The names in a list of the declaration at a path, in their order.
fn judge_names(
    alloc: Global,
    t: &Table,
    class: &Bound,
    list: InList,
    names: &[Named],
) -> Result<(), CheckFault>
    ensures { (p : Program) → IsFilled p t.now → HasName class.now → Told (Gives p (in_turn (map (of_list class.now (listing_of list)) names.now))) itself result }
{
    for name in names {
        match judge_name(alloc, t, class, list, name) {
            Ok(()) => {}
            Err(fault) => return Err(fault),
        }
    }
    Ok(())
}

/// The names that a declaration lists itself: those that it adapts at the top level, else those that it shares.
pub fn judge_listed(alloc: Global, t: &Table, namespace: &Bound, d: &Decl) -> Result<(), CheckFault>
    ensures { (p : Program) → IsFilled p t.now → Told (Gives p (in_turn (map listed_asked (own_listed d.now.name.name d.now.shares d.now.adapts namespace.now)))) itself result }
{
    let mut class = namespace.without(alloc, 0)?;
    class.push(d.name.name)?;
    if namespace.depth() == 0 {
        return judge_names(alloc, t, &class, InList::Adapts, d.adapts.as_slice());
    }
    judge_names(alloc, t, &class, InList::Shares, d.shares.as_slice())
}
