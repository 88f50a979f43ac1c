ghost use Rattle.std.specs.Prelude.{◌≡◌, ◌∷◌, [], map, IfOk, List, Result};
ghost use Rattle.jn_base.specs.declared.refusal.Refusal.{Refusal as ARefusal};
ghost use Rattle.jn_table.specs.declared.field_types.FieldTy.{FieldTy as AFieldTy};
ghost use Rattle.jn_table.specs.Tables.{IsFilled};
ghost use Rattle.jn_names.specs.FieldTypes.{all_by, fields_of_member, fields_of_decl, spot_of, AllFieldsGive, FieldsTold};
ghost use Rattle.jn_names.specs.FieldSteps.{SaysAdds};

use crate::bound::Bound;
use crate::fault::NameFault;
use crate::numbering::mask_names;
use crate::types::type_of;
use jn_base::names::{Role, Spot, Vars};
use jn_base::tree::{Decl, Field, Member, Name, Program};
use jn_table::{FieldTy, FieldTypes, Table};
use sqlite_items::Items;
use std::alloc::{AllocError, Global};

/// The spot of a field's type in the declaration at a path.
fn spot_of(alloc: Global, class: &Bound, f: &Field) -> Result<Spot, AllocError>
    ensures { IfOk result (λ spot. spot ≡ spot_of (record { class = class.now; field = f.now })) }
{
    Ok(Spot {
        class: class.shown(alloc)?,
        owner: f.name.name,
        role: Role::Field,
    })
}

/// Adds the type of a field of the declaration at a path.
fn add_field(
    alloc: Global,
    t: &Table,
    names: &[Name],
    class: &Bound,
    f: &Field,
    out: &mut Vec<FieldTy>,
) -> Result<(), NameFault>
    ensures { SaysAdds t.now names.now
        (record { class = class.now; field = f.now } ∷ []) out.old.items out.new.items result }
{
    let spot = spot_of(alloc, class, f)?;
    let list = Items::new(alloc);
    let vars = Vars { list };
    match class.number(t) {
        None => Err(NameFault::Memory),
        Some(class) => match type_of(alloc, t, names, &spot, &vars, &f.ty) {
            Err(fault) => Err(fault),
            Ok(ty) => {
                let field = f.name.name;
                out.push(FieldTy { class, field, ty })?;
                Ok(())
            }
        },
    }
}

/// Adds the types of the fields of a member of the declaration at a path.
#[cycle(field_types)]
#[tactic(auto, using(crate::proofs::FieldProof::member_fields))]
fn add_member(
    alloc: Global,
    t: &Table,
    names: &[Name],
    class: &Bound,
    m: &Member,
    out: &mut Vec<FieldTy>,
) -> Result<(), NameFault>
    ensures { SaysAdds t.now names.now (fields_of_member m.now class.now) out.old.items out.new.items result }
{
    match m {
        Member::Inner(d) => add_decl(alloc, t, names, class, d, out),
        Member::Slot(f) => add_field(alloc, t, names, class, f, out),
        Member::Body(_) => Ok(()),
    }
}

/// Adds the types of the fields of the members of the declaration at a path.
#[cycle(field_types)]
fn add_members(
    alloc: Global,
    t: &Table,
    names: &[Name],
    class: &Bound,
    members: &[Member],
    out: &mut Vec<FieldTy>,
) -> Result<(), NameFault>
    ensures { SaysAdds t.now names.now
        (all_by class.now (map fields_of_member members.now)) out.old.items out.new.items result }
{
    for m in members {
        match add_member(alloc, t, names, class, m, out) {
            Ok(()) => {}
            Err(fault) => return Err(fault),
        }
    }
    Ok(())
}

/// Adds the types of the fields of a declaration in a namespace.
#[cycle(field_types)]
fn add_decl(
    alloc: Global,
    t: &Table,
    names: &[Name],
    namespace: &Bound,
    d: &Decl,
    out: &mut Vec<FieldTy>,
) -> Result<(), NameFault>
    ensures { SaysAdds t.now names.now (fields_of_decl d.now namespace.now) out.old.items out.new.items result }
{
    let mut class = namespace.without(alloc, 0)?;
    class.push(d.name.name)?;
    add_members(alloc, t, names, &class, d.members.as_slice(), out)
}

/// Adds the types of the fields of declarations in a namespace.
fn add_decls(
    alloc: Global,
    t: &Table,
    names: &[Name],
    namespace: &Bound,
    decls: &[Decl],
    out: &mut Vec<FieldTy>,
) -> Result<(), NameFault>
    ensures { SaysAdds t.now names.now
        (all_by namespace.now (map fields_of_decl decls.now)) out.old.items out.new.items result }
{
    for d in decls {
        match add_decl(alloc, t, names, namespace, d, out) {
            Ok(()) => {}
            Err(fault) => return Err(fault),
        }
    }
    Ok(())
}

/// The type of each declared field, in source order, or the first refusal of a field's type. The universe is filled in
/// the table.
pub fn field_types(alloc: Global, p: &Program, t: &mut Table) -> Result<FieldTypes, NameFault>
    ensures told { IsFilled p.now t.old → FieldsTold (AllFieldsGive p.now t.old) result }
    ensures only { IsFilled p.now t.old → (o : Result (List AFieldTy) ARefusal) → AllFieldsGive p.now t.old o
        → FieldsTold (λ a. a ≡ o) result }
    ensures kept { t.new ≡ t.old }
{
    let names = mask_names(alloc, p)?;
    let root = Bound::root(alloc);
    let mut list = Vec::new(alloc);
    match add_decls(alloc, t, &names, &root, p.decls.as_slice(), &mut list) {
        Err(fault) => Err(fault),
        Ok(()) => Ok(FieldTypes { list }),
    }
}
