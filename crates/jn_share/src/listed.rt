ghost use Rattle.std.specs.Prelude.{◌≡◌, ◌∷◌, map, IfOk, OnOk};
ghost use Rattle.jn_sem.specs.NotFamily.{in_list, own_listed, listed_by, listed_in_member, listed_in_decl, listed_names};
ghost use Rattle.jn_share.specs.Listing.{listing_of, listed_of, AddsListed};

use crate::trail::Trail;
use jn_base::path::Path;
use jn_base::tree::{Decl, Member, Name, Named, Program};
use std::alloc::{AllocError, Global};

/// The two lists of names of families.
#[derive(Clone, Copy, Debug, PartialEq, Eq)]
pub enum InList {
    Adapts,
    Shares,
}

/// A listed name, with the path of the declaration that has the list.
#[derive(Drop)]
pub struct ListedName {
    pub at: Path,
    pub list: InList,
    pub name: Named,
}

/// The path of a declaration in a namespace.
fn inner(alloc: Global, namespace: &Trail, name: Name) -> Result<Trail, AllocError>
    ensures { IfOk result (λ path. path ≡ name ∷ namespace.now) }
{
    let mut path = namespace.without(alloc, 0)?;
    path.push(name)?;
    Ok(path)
}

/// Adds the names of a list of the declaration at a path.
fn add_names(
    alloc: Global,
    class: &Trail,
    list: InList,
    names: &[Named],
    out: &mut Vec<ListedName>,
) -> Result<(), AllocError>
    ensures { OnOk result (AddsListed out.old.items out.new.items (map (in_list class.now (listing_of list))
        names.now)) }
{
    for name in names {
        let at = class.shown(alloc)?;
        out.push(ListedName {
            at,
            list,
            name: *name,
        })?;
    }
    Ok(())
}

/// Adds the names that a declaration lists itself: those that it adapts at the top level, else those that it shares.
fn add_own(
    alloc: Global,
    namespace: &Trail,
    d: &Decl,
    out: &mut Vec<ListedName>,
) -> Result<(), AllocError>
    ensures { OnOk result (AddsListed out.old.items out.new.items (own_listed d.now.name.name d.now.shares
        d.now.adapts namespace.now)) }
{
    let class = inner(alloc, namespace, d.name.name)?;
    if namespace.depth() == 0 {
        return add_names(alloc, &class, InList::Adapts, d.adapts.as_slice(), out);
    }
    add_names(alloc, &class, InList::Shares, d.shares.as_slice(), out)
}

/// Adds the listed names in a member of the declaration at a path.
#[cycle(listed)]
fn add_member(
    alloc: Global,
    class: &Trail,
    m: &Member,
    out: &mut Vec<ListedName>,
) -> Result<(), AllocError>
    ensures { OnOk result (AddsListed out.old.items out.new.items (listed_in_member m.now class.now)) }
{
    match m {
        Member::Inner(d) => add_decl(alloc, class, d, out),
        Member::Slot(_) => Ok(()),
        Member::Body(_) => Ok(()),
    }
}

/// Adds the listed names in the members of the declaration at a path.
#[cycle(listed)]
fn add_members(
    alloc: Global,
    class: &Trail,
    members: &[Member],
    out: &mut Vec<ListedName>,
) -> Result<(), AllocError>
    ensures { OnOk result (AddsListed out.old.items out.new.items (listed_by class.now (map listed_in_member
        members.now))) }
{
    for m in members {
        add_member(alloc, class, m, out)?;
    }
    Ok(())
}

/// Adds the listed names of a declaration in a namespace.
#[cycle(listed)]
fn add_decl(
    alloc: Global,
    namespace: &Trail,
    d: &Decl,
    out: &mut Vec<ListedName>,
) -> Result<(), AllocError>
    ensures { OnOk result (AddsListed out.old.items out.new.items (listed_in_decl d.now namespace.now)) }
{
    add_own(alloc, namespace, d, out)?;
    let class = inner(alloc, namespace, d.name.name)?;
    add_members(alloc, &class, d.members.as_slice(), out)
}

/// Adds the listed names of declarations in a namespace.
fn add_decls(
    alloc: Global,
    namespace: &Trail,
    decls: &[Decl],
    out: &mut Vec<ListedName>,
) -> Result<(), AllocError>
    ensures { OnOk result (AddsListed out.old.items out.new.items (listed_by namespace.now (map listed_in_decl
        decls.now))) }
{
    for d in decls {
        add_decl(alloc, namespace, d, out)?;
    }
    Ok(())
}

/// The listed names of a program, in source order.
pub fn listed_names(alloc: Global, p: &Program) -> Result<Vec<ListedName>, AllocError>
    ensures { IfOk result (λ all. map listed_of all.items ≡ listed_names p.now) }
{
    let root = Trail::root(alloc);
    let mut all = Vec::new(alloc);
    add_decls(alloc, &root, p.decls.as_slice(), &mut all)?;
    Ok(all)
}
