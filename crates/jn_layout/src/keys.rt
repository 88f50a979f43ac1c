ghost use Rattle.std.specs.Prelude.{◌≡◌, ◌∷◌, [], map, IfOk};
ghost use Rattle.jn_index.specs.Index.{keys_in};
ghost use Rattle.jn_layout.specs.Keys.{class_key, body_key, field_key, shape_key, slot_key};

use crate::declared::{BodyAt, FieldAt};
use jn_agree::selectors::FieldSel;
use jn_base::tree::Name;
use jn_table::ClassId;
use std::alloc::{AllocError, Global};

/// A key of two numbers.
fn two(alloc: Global, first: u32, second: u32) -> Result<Vec<u32>, AllocError>
    ensures { IfOk result (λ key. key.items ≡ first ∷ second ∷ []) }
{
    let mut key = Vec::new(alloc);
    key.push(first)?;
    key.push(second)?;
    Ok(key)
}

/// What a declared body or field of the class is found by: nothing where there is no class.
fn class_key(alloc: Global, class: Option<ClassId>, name: Name) -> Result<Vec<u32>, AllocError>
    ensures { IfOk result (λ key. key.items ≡ class_key class name) }
{
    match class {
        None => Ok(Vec::new(alloc)),
        Some(id) => two(alloc, id.0 as u32, name.0),
    }
}

/// The name and the kinds of a body: its result first, and then the parameters.
pub fn shape_key(alloc: Global, x: &BodyAt) -> Result<Vec<u32>, AllocError>
    ensures { IfOk result (λ key. key.items ≡ shape_key x.now) }
{
    let mut key = two(alloc, x.name.0, x.result as u32)?;
    for kind in x.params.as_slice() {
        key.push(*kind as u32)?;
    }
    Ok(key)
}

/// What the bodies are found by.
pub fn body_keys(alloc: Global, bodies: &[BodyAt]) -> Result<Vec<Vec<u32>>, AllocError>
    ensures { IfOk result (λ all. keys_in all.items ≡ map body_key bodies.now) }
{
    let mut all = Vec::new(alloc);
    for x in bodies {
        let key = class_key(alloc, x.class, x.name)?;
        all.push(key)?;
    }
    Ok(all)
}

/// What the fields are found by.
pub fn field_keys(alloc: Global, fields: &[FieldAt]) -> Result<Vec<Vec<u32>>, AllocError>
    ensures { IfOk result (λ all. keys_in all.items ≡ map field_key fields.now) }
{
    let mut all = Vec::new(alloc);
    for x in fields {
        let key = class_key(alloc, x.class, x.name)?;
        all.push(key)?;
    }
    Ok(all)
}

/// The names and the kinds of the bodies.
pub fn shape_keys(alloc: Global, bodies: &[BodyAt]) -> Result<Vec<Vec<u32>>, AllocError>
    ensures { IfOk result (λ all. keys_in all.items ≡ map shape_key bodies.now) }
{
    let mut all = Vec::new(alloc);
    for x in bodies {
        let key = shape_key(alloc, x)?;
        all.push(key)?;
    }
    Ok(all)
}

/// The names and the kinds of selectors of fields.
pub fn slot_keys(alloc: Global, names: &[FieldSel]) -> Result<Vec<Vec<u32>>, AllocError>
    ensures { IfOk result (λ all. keys_in all.items ≡ map slot_key names.now) }
{
    let mut all = Vec::new(alloc);
    for sel in names {
        let key = two(alloc, sel.name.0, sel.kind as u32)?;
        all.push(key)?;
    }
    Ok(all)
}
