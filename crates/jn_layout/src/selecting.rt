ghost use Rattle.std.specs.Prelude.{◌≡◌, ℕ, List, Some, slice_get, IfOk};
ghost use Rattle.jn_reach.specs.Each.{Each};
ghost use Rattle.jn_index.specs.Index.{IsIndex, FirstTold};
ghost use Rattle.jn_agree.specs.Rows.{SelectorsAre};
ghost use Rattle.jn_layout.specs.Lookups.{SelectsBody};
ghost use Rattle.jn_layout.specs.Keys.{shape_key};
ghost use Rattle.jn_layout.specs.Selecting.{Selects, IsSame, SelectsOwn, OwnKind, AreMethodSels, AreFieldSels, SelectorsAsked, SelectorsOnly};

use crate::declared::{BodyAt, FieldAt, declared_of};
use crate::finder::slots_by_kind;
use crate::keys::{shape_key, shape_keys};
use crate::lookups::kind_at;
use jn_agree::selectors::{FieldSel, MethodSel, Selectors};
use jn_base::tree::Program;
use jn_code::Shape;
use jn_index::{Placed, indexed, is_first};
use jn_share::Slots;
use jn_table::Table;
use sqlite_items::Items;
use std::alloc::{AllocError, Global};

/// The name and the shape of a body.
fn method_sel(alloc: Global, x: &BodyAt) -> Result<MethodSel, AllocError>
    ensures { IfOk result (λ sel. SelectsBody x.now sel) }
{
    let params = Items::from_slice(alloc, &x.params)?;
    let result = x.result;
    Ok(MethodSel {
        name: x.name,
        shape: Shape { params, result },
    })
}

/// Whether no body before the place has the name and the kinds of the one that stands there.
fn is_new(alloc: Global, index: &[Placed], x: &BodyAt, place: usize) -> Result<bool, AllocError>
    ensures { IfOk result (λ told. (keys : List (List ℕ)) → IsIndex keys index.now
        → slice_get keys place ≡ Some (shape_key x.now) → FirstTold keys (shape_key x.now) place told) }
{
    let key = shape_key(alloc, x)?;
    Ok(is_first(index, &key, place))
}

/// The selectors of the methods: the name and the shape of each body, each once.
fn method_sels(alloc: Global, bodies: &[BodyAt]) -> Result<Items<MethodSel>, AllocError>
    ensures { IfOk result (λ all. AreMethodSels bodies.now all) }
{
    let keys = shape_keys(alloc, bodies)?;
    let index = indexed(alloc, keys)?;
    let mut all = Items::new(alloc);
    for (k, x) in bodies.iter().enumerate() {
        if is_new(alloc, &index, x, k)? {
            let sel = method_sel(alloc, x)?;
            all.push(sel)?;
        }
    }
    Ok(all)
}

/// The kind of the field in its class.
fn own_kind(s: &Slots, x: &FieldAt) -> u8
    ensures { OwnKind s.now x.now result }
{
    match x.class {
        None => x.kind,
        Some(id) => kind_at(s.hangs(id, x.name), x.kind),
    }
}

/// For each field its name and its kind.
fn own_sels(alloc: Global, s: &Slots, fields: &[FieldAt]) -> Result<Vec<FieldSel>, AllocError>
    ensures { IfOk result (λ all. Each (SelectsOwn s.now) fields.now all.items) }
{
    let mut all = Vec::new(alloc);
    for x in fields {
        let kind = own_kind(s, x);
        all.push(FieldSel { name: x.name, kind })?;
    }
    Ok(all)
}

/// The selectors, each once.
fn distinct(alloc: Global, own: &[FieldSel]) -> Result<Items<FieldSel>, AllocError>
    ensures { IfOk result (λ all. Selects IsSame own.now all) }
{
    let index = slots_by_kind(alloc, own)?;
    let mut all = Items::new(alloc);
    for (k, sel) in own.iter().enumerate() {
        if is_first(&index, &[sel.name.0, sel.kind as u32], k) {
            all.push(*sel)?;
        }
    }
    Ok(all)
}

/// The selectors of the fields: the name and the kind of each declared field, each once.
fn field_sels(alloc: Global, s: &Slots, fields: &[FieldAt]) -> Result<Items<FieldSel>, AllocError>
    ensures { IfOk result (λ all. AreFieldSels s.now fields.now all) }
{
    let own = own_sels(alloc, s, fields)?;
    let all = distinct(alloc, &own)?;
    Ok(all)
}

/// The selectors of a program: the name and the shape of each method, and the name and the kind of each field, each
/// pair once.
///
/// The universe is filled in the table, and the slots are those of the program.
pub fn selectors(alloc: Global, p: &Program, t: &Table, s: &Slots) -> Result<Selectors, AllocError>
    ensures are { IfOk result (λ all. SelectorsAsked p.now t.now s.now → SelectorsAre p.now all.methods all.fields) }
    ensures only { IfOk result (λ all. SelectorsAsked p.now t.now s.now → SelectorsOnly p.now all.methods all.fields) }
{
    let declared = declared_of(alloc, p, t)?;
    let methods = method_sels(alloc, &declared.bodies)?;
    let fields = field_sels(alloc, s, &declared.fields)?;
    Ok(Selectors { methods, fields })
}
