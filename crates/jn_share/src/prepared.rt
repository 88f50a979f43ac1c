ghost use Rattle.std.specs.Prelude.{◌≡◌, ◌<◌, ◌≤◌, ◌∷◌, [], Some, length, IfOk, OnOk};
ghost use Rattle.jn_base.specs.declared.tree.Name.{Name as AName};
ghost use Rattle.jn_base.specs.declared.tree.Program.{Program};
ghost use Rattle.jn_base.specs.Paths.{Path as APath};
ghost use Rattle.jn_table.specs.Tables.{IsFilled, IsFilledAt};
ghost use Rattle.jn_sem.specs.Sharing.{family_of};
ghost use Rattle.jn_share.specs.Declaring.{AreOwn, Wide};
ghost use Rattle.jn_share.specs.Pairing.{IsAt};
ghost use Rattle.jn_share.specs.Prepared.{FamiliesTo, DeclsRight, DeclsTo, IsPrepared};
ghost use Rattle.jn_share.specs.Refining.{AreLow};
ghost use Rattle.jn_share.specs.Slots.{AreFieldTypes};

use crate::declaring::{entries_of, note_all, own_entries, picked, width};
use jn_reach::class_members;
use jn_table::{ClassId, FieldTy, FieldTypes, Table};
use sqlite_items::at;
use std::alloc::{AllocError, Global};

/// What is read off the table and its field types before slots are looked for.
#[derive(Drop)]
pub struct Prepared {
    /// For each number that of its family.
    pub families: Vec<usize>,
    /// For each family its numbers.
    pub classes: Vec<Vec<usize>>,
    /// For each number, and each field of its row, the number of the field's declaration among the types.
    pub decls: Vec<Vec<usize>>,
}

/// The number of the family of the number, where those of all lower numbers are known.
fn family_number(t: &Table, families: &[usize], id: ClassId) -> usize
    requires filled { IsFilledAt t.now id }
    requires long { length families.now ≡ id.0 }
    requires low { AreLow families.now }
    ensures low { result ≤ id.0 }
    ensures is { (p : Program) (V : APath) (X : AName) → IsFilled p t.now
        → FamiliesTo t.now.known.items id.0 families.now → IsAt t.now.known.items id.0 V → family_of V ≡ Some X
        → IsAt t.now.known.items result (X ∷ []) }
{
    match t.row(id).up {
        None => id.0 as usize,
        Some(up) => match at(families, up.0 as usize) {
            None => id.0 as usize,
            Some(family) => *family,
        },
    }
}

/// For each number that of its family.
pub fn families_of(alloc: Global, t: &Table) -> Result<Vec<usize>, AllocError>
    ensures long { IfOk result (λ all. length all.items ≡ length t.now.known.items) }
    ensures low { IfOk result (λ all. AreLow all.items) }
    ensures is { IfOk result (λ all. (p : Program) → IsFilled p t.now
        → FamiliesTo t.now.known.items (length t.now.known.items) all.items) }
{
    let mut all = Vec::new(alloc);
    for k in 0..t.known().len() {
        let family = family_number(t, &all, ClassId(k as u16));
        all.push(family)?;
    }
    Ok(all)
}

/// The numbers of the declarations of the fields of the number's row. `last` keeps what was found by name.
fn decls_row(
    alloc: Global,
    t: &Table,
    types: &[FieldTy],
    count: usize,
    own: &[Vec<usize>],
    last: &mut Vec<usize>,
    id: ClassId,
) -> Result<Vec<usize>, AllocError>
    requires filled { IsFilledAt t.now id }
    requires count { length t.now.known.items ≤ count }
    requires own { AreOwn types.now count own.now }
    requires wide { Wide types.now (length last.old.items) }
    ensures long { OnOk result (length last.new.items ≡ length last.old.items) }
    ensures decls { IfOk result (λ decls. DeclsRight t.now types.now id.0 decls.items) }
{
    let row = t.row(id);
    let mine = entries_of(alloc, own, &row.sups)?;
    note_all(last, types, &mine);
    let decls = picked(alloc, last, &row.fields)?;
    Ok(decls)
}

/// For each number those of the declarations of the fields of its row.
fn decls_of(alloc: Global, t: &Table, types: &[FieldTy]) -> Result<Vec<Vec<usize>>, AllocError>
    ensures { IfOk result (λ rows. DeclsTo t.now types.now (length t.now.known.items) rows.items) }
{
    let count = types.len().max(t.known().len());
    let own = own_entries(alloc, count, types)?;
    let mut last = vec![in alloc; 0usize; width(types)]?;
    let mut rows = Vec::new(alloc);
    for k in 0..t.known().len() {
        let row = decls_row(alloc, t, types, count, &own, &mut last, ClassId(k as u16))?;
        rows.push(row)?;
    }
    Ok(rows)
}

/// What is read off the table and the field types.
pub fn prepare(alloc: Global, t: &Table, types: &FieldTypes) -> Result<Prepared, AllocError>
    ensures { IfOk result (λ all. (p : Program) → IsFilled p t.now
        → AreFieldTypes p t.now.known.items types.now.list.items → IsPrepared p t.now types.now.list.items all) }
{
    let families = families_of(alloc, t)?;
    let classes = class_members(alloc, &families)?;
    let decls = decls_of(alloc, t, &types.list)?;
    Ok(Prepared {
        families,
        classes,
        decls,
    })
}
