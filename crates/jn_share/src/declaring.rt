ghost use Rattle.std.specs.Prelude.{◌≡◌, ◌<◌, ◌≤◌, ◌↔◌, ◌++◌, ◌∷◌, [], ℕ, List, Contains, slice_get, Some, length, IfOk};
ghost use Rattle.jn_reach.specs.Each.{Each};
ghost use Rattle.jn_reach.specs.Pairs.{IsPair, AreBelow};
ghost use Rattle.jn_base.specs.declared.tree.Program.{Program};
ghost use Rattle.jn_base.specs.Paths.{Path as APath};
ghost use Rattle.jn_table.specs.declared.class.Row.{Row as ARow};
ghost use Rattle.jn_table.specs.declared.field_types.FieldTy.{FieldTy as AFieldTy};
ghost use Rattle.jn_table.specs.Rows.{IsRow};
ghost use Rattle.jn_table.specs.Tables.{IsFilled};
ghost use Rattle.jn_share.specs.Declaring.{StandsAtClass, AreOwn, OwnAmong, Wide, Noted, UnderName};
ghost use Rattle.jn_share.specs.Pairing.{IsAt};
ghost use Rattle.jn_share.specs.Prepared.{AreDecls};
ghost use Rattle.jn_share.specs.Slots.{AreFieldTypes};

use jn_base::tree::Name;
use jn_reach::edges_of;
use jn_table::{ClassId, FieldTy, Table};
use sqlite_items::at;
use std::alloc::{AllocError, Global};

/// The number of each entry behind the number of its class.
fn class_pairs(
    alloc: Global,
    count: usize,
    types: &[FieldTy],
) -> Result<Vec<(usize, usize)>, AllocError>
    requires { length types.now ≤ count }
    ensures below { IfOk result (λ pairs. AreBelow count pairs.items) }
    ensures sound { IfOk result (λ pairs. (a i : ℕ) → IsPair pairs.items a i → StandsAtClass types.now a i) }
    ensures complete { IfOk result (λ pairs. (a i : ℕ) → a < count → StandsAtClass types.now a i
        → IsPair pairs.items a i) }
{
    let mut pairs = Vec::new(alloc);
    for (i, x) in types.iter().enumerate() {
        let class = x.class.0 as usize;
        if class < count {
            pairs.push((class, i))?;
        }
    }
    Ok(pairs)
}

/// For each class the numbers of the entries that are declared at it.
pub fn own_entries(
    alloc: Global,
    count: usize,
    types: &[FieldTy],
) -> Result<Vec<Vec<usize>>, AllocError>
    requires { length types.now ≤ count }
    ensures { IfOk result (λ own. AreOwn types.now count own.items) }
{
    let pairs = class_pairs(alloc, count, types)?;
    let own = edges_of(alloc, count, &pairs)?;
    Ok(own)
}

/// The entries that are declared at one of the classes.
pub fn entries_of(
    alloc: Global,
    own: &[Vec<usize>],
    sups: &[ClassId],
) -> Result<Vec<usize>, AllocError>
    ensures { IfOk result (λ all. (i : ℕ) → Contains all.items i ↔ OwnAmong own.now sups.now i) }
{
    let mut all = Vec::new(alloc);
    for s in sups {
        if let Some(row) = at(own, s.0 as usize) {
            all.extend_from_slice(row)?;
        }
    }
    Ok(all)
}

/// Each field name of the entries is below this number.
pub fn width(types: &[FieldTy]) -> usize
    ensures { Wide types.now result }
{
    let mut most = 0;
    for x in types {
        most = most.max(x.field.0 as usize + 1);
    }
    most
}

/// Puts the number of the entry under the name of its field.
fn note(last: &mut Vec<usize>, types: &[FieldTy], i: usize)
    requires wide { Wide types.now (length last.old.items) }
    ensures long { length last.new.items ≡ length last.old.items }
    ensures notes { (was : List ℕ) → Noted types.now was last.old.items
        → Noted types.now (was ++ i ∷ []) last.new.items }
{
    if let Some(x) = at(types, i) {
        last[x.field.0 as usize] = i;
    }
}

/// Puts the numbers of the entries under the names of their fields.
pub fn note_all(last: &mut Vec<usize>, types: &[FieldTy], is: &[usize])
    requires wide { Wide types.now (length last.old.items) }
    ensures long { length last.new.items ≡ length last.old.items }
    ensures notes { Noted types.now is.now last.new.items }
{
    for i in is {
        note(last, types, *i);
    }
}

/// What stands under the name of the field.
fn under_name(last: &[usize], field: Name) -> usize
    ensures { UnderName last.now field result }
{
    match at(last, field.0 as usize) {
        None => 0,
        Some(d) => *d,
    }
}

/// What stands under the names of the fields.
pub fn picked(alloc: Global, last: &[usize], fields: &[Name]) -> Result<Vec<usize>, AllocError>
    ensures { IfOk result (λ decls. Each (UnderName last.now) fields.now decls.items) }
{
    let mut decls = Vec::new(alloc);
    for field in fields {
        decls.push(under_name(last, *field))?;
    }
    Ok(decls)
}
