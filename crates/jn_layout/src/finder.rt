ghost use Rattle.std.specs.Prelude.{◌≡◌, ◌∷◌, map, length, IfOk, List};
ghost use Rattle.jn_index.specs.Index.{keys_in, IsIndex};
ghost use Rattle.jn_agree.specs.declared.selectors.MethodSel.{MethodSel as AMethodSel};
ghost use Rattle.jn_layout.specs.Keys.{body_key, field_key, sel_key, slot_key};
ghost use Rattle.jn_layout.specs.Finding.{MethodsPlaced, FieldsPlaced, ShapesTold};

use crate::declared::{BodyAt, Declared, FieldAt};
use crate::keys::{body_keys, field_keys, shape_key, slot_keys};
use jn_agree::selectors::{FieldSel, MethodSel, Selectors};
use jn_index::{Placed, indexed, place_of};
use std::alloc::{AllocError, Global};

/// By what bodies, fields and selectors are found.
#[derive(Drop)]
pub struct Finder {
    /// The places of the bodies, by class and name.
    pub bodies: Vec<Placed>,
    /// For each body the number of its selector.
    pub shapes: Vec<Option<usize>>,
    /// The places of the fields, by class and name.
    pub fields: Vec<Placed>,
    /// The numbers of the selectors of fields, by name and kind.
    pub slots: Vec<Placed>,
}

/// The name and the kinds of a selector: its result first, and then the parameters.
fn sel_key(alloc: Global, sel: &MethodSel) -> Result<Vec<u32>, AllocError>
    ensures { IfOk result (λ key. key.items ≡ sel_key sel.now) }
{
    let mut key = Vec::new(alloc);
    key.push(sel.name.0)?;
    key.push(sel.shape.result as u32)?;
    for kind in sel.shape.params.as_slice() {
        key.push(*kind as u32)?;
    }
    Ok(key)
}

/// The names and the kinds of the selectors of methods.
fn sel_keys(alloc: Global, names: &[MethodSel]) -> Result<Vec<Vec<u32>>, AllocError>
    ensures { IfOk result (λ all. keys_in all.items ≡ map sel_key names.now) }
{
    let mut all = Vec::new(alloc);
    for sel in names {
        let key = sel_key(alloc, sel)?;
        all.push(key)?;
    }
    Ok(all)
}

/// For each body the number of its selector, where it has one.
fn shapes_of(
    alloc: Global,
    bodies: &[BodyAt],
    index: &[Placed],
) -> Result<Vec<Option<usize>>, AllocError>
    ensures { IfOk result (λ all. (names : List AMethodSel) → IsIndex (map sel_key names) index.now
        → ShapesTold names bodies.now (length bodies.now) all.items) }
{
    let mut all = Vec::new(alloc);
    for x in bodies {
        let key = shape_key(alloc, x)?;
        all.push(place_of(index, &key))?;
    }
    Ok(all)
}

/// For each body the number of its selector, where it has one, among those of methods.
fn shapes_among(
    alloc: Global,
    bodies: &[BodyAt],
    names: &[MethodSel],
) -> Result<Vec<Option<usize>>, AllocError>
    ensures { IfOk result (λ all. ShapesTold names.now bodies.now (length bodies.now) all.items) }
{
    let keys = sel_keys(alloc, names)?;
    let index = indexed(alloc, keys)?;
    let all = shapes_of(alloc, bodies, &index)?;
    Ok(all)
}

/// The places of the bodies, by class and name.
fn bodies_by_class(alloc: Global, bodies: &[BodyAt]) -> Result<Vec<Placed>, AllocError>
    ensures { IfOk result (λ index. IsIndex (map body_key bodies.now) index.items) }
{
    let keys = body_keys(alloc, bodies)?;
    let index = indexed(alloc, keys)?;
    Ok(index)
}

/// The places of the fields, by class and name.
fn fields_by_class(alloc: Global, fields: &[FieldAt]) -> Result<Vec<Placed>, AllocError>
    ensures { IfOk result (λ index. IsIndex (map field_key fields.now) index.items) }
{
    let keys = field_keys(alloc, fields)?;
    let index = indexed(alloc, keys)?;
    Ok(index)
}

/// The numbers of the selectors of fields, by name and kind.
pub fn slots_by_kind(alloc: Global, names: &[FieldSel]) -> Result<Vec<Placed>, AllocError>
    ensures { IfOk result (λ index. IsIndex (map slot_key names.now) index.items) }
{
    let keys = slot_keys(alloc, names)?;
    let index = indexed(alloc, keys)?;
    Ok(index)
}

/// By what the declared bodies and fields are found, and the selectors.
pub fn finder_of(
    alloc: Global,
    declared: &Declared,
    names: &Selectors,
) -> Result<Finder, AllocError>
    ensures methods { IfOk result (MethodsPlaced declared.now.bodies.items names.now.methods) }
    ensures fields { IfOk result (FieldsPlaced declared.now.fields.items names.now.fields) }
{
    let shapes = shapes_among(alloc, &declared.bodies, names.methods.as_slice())?;
    let bodies = bodies_by_class(alloc, &declared.bodies)?;
    let fields = fields_by_class(alloc, &declared.fields)?;
    let slots = slots_by_kind(alloc, names.fields.as_slice())?;
    Ok(Finder {
        bodies,
        shapes,
        fields,
        slots,
    })
}
