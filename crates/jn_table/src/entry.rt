ghost use Rattle.std.specs.Prelude.{◌≡◌, ◌∷◌, [], map, OnOk, IfOk};
ghost use Rattle.jn_base.specs.Paths.{methods, fields};
ghost use Rattle.jn_table.specs.Flat.{named_name, method_name, field_name, NamesAre, EntryIs, AddsFlat, IsFlattened};

use crate::route::Route;
use jn_base::tree::{Decl, Kind, Member, Name, Named, Program};
use sqlite_items::Items;
use std::alloc::{AllocError, Global};

/// A declaration without its body: the namespace that it stands in, its path, and the names that it has.
#[derive(Drop)]
pub struct Entry {
    pub namespace: Route,
    pub name: Name,
    pub path: Route,
    pub kind: Kind,
    pub extends: Items<Name>,
    pub methods: Items<Name>,
    pub fields: Items<Name>,
}

/// The names without their places.
fn extended(alloc: Global, names: &[Named]) -> Result<Items<Name>, AllocError>
    ensures { IfOk result (λ all. all ≡ map named_name names.now) }
{
    let mut all = Items::new(alloc);
    for named in names {
        all.push(named.name)?;
    }
    Ok(all)
}

/// The names of the methods of a body.
fn method_names(alloc: Global, members: &[Member]) -> Result<Items<Name>, AllocError>
    ensures { IfOk result (λ all. all ≡ map method_name (methods members.now)) }
{
    let mut all = Items::new(alloc);
    for member in members {
        if let Member::Body(method) = member {
            all.push(method.name.name)?;
        }
    }
    Ok(all)
}

/// The names of the fields of a body.
fn field_names(alloc: Global, members: &[Member]) -> Result<Items<Name>, AllocError>
    ensures { IfOk result (λ all. all ≡ map field_name (fields members.now)) }
{
    let mut all = Items::new(alloc);
    for member in members {
        if let Member::Slot(field) = member {
            all.push(field.name.name)?;
        }
    }
    Ok(all)
}

/// The names that a declaration has: those that it extends, and those of its methods and fields.
#[derive(Drop)]
pub struct Names {
    extends: Items<Name>,
    methods: Items<Name>,
    fields: Items<Name>,
}

/// The names of a declaration.
fn names_of(alloc: Global, decl: &Decl) -> Result<Names, AllocError>
    ensures { IfOk result (λ names. NamesAre names decl.now) }
{
    let extends = extended(alloc, decl.extends.as_slice())?;
    let methods = method_names(alloc, decl.members.as_slice())?;
    let fields = field_names(alloc, decl.members.as_slice())?;
    Ok(Names {
        extends,
        methods,
        fields,
    })
}

/// The entry of a declaration that stands in the namespace.
fn entry_of(alloc: Global, namespace: &Route, decl: &Decl) -> Result<Entry, AllocError>
    ensures { IfOk result (λ entry. EntryIs entry namespace.now decl.now) }
{
    let path = namespace.down(alloc, decl.name.name)?;
    let namespace = namespace.copy(alloc)?;
    let names = names_of(alloc, decl)?;
    Ok(Entry {
        namespace,
        name: decl.name.name,
        path,
        kind: decl.kind,
        extends: names.extends,
        methods: names.methods,
        fields: names.fields,
    })
}

/// Adds an entry for a declaration, and for those nested in it.
fn flatten(
    alloc: Global,
    namespace: &Route,
    decl: &Decl,
    entries: &mut Vec<Entry>,
) -> Result<(), AllocError>
    ensures adds { OnOk result (AddsFlat (decl.now ∷ []) namespace.now entries.old.items entries.new.items) }
{
    let entry = entry_of(alloc, namespace, decl)?;
    entries.push(entry)?;
    let inner = namespace.down(alloc, decl.name.name)?;
    for member in decl.members.as_slice() {
        match member {
            Member::Inner(nested) => flatten(alloc, &inner, nested, entries)?,
            Member::Slot(_) => {}
            Member::Body(_) => {}
        }
    }
    Ok(())
}

/// The declarations of a program.
pub fn entries(alloc: Global, program: &Program) -> Result<Vec<Entry>, AllocError>
    ensures { IfOk result (λ all. IsFlattened program.now all.items) }
{
    let mut all = Vec::new(alloc);
    let root = Route::root(alloc);
    for decl in program.decls.as_slice() {
        flatten(alloc, &root, decl, &mut all)?;
    }
    Ok(all)
}
