ghost use Rattle.std.specs.Prelude.{◌≡◌, map, IfOk};
ghost use Rattle.jn_link.specs.Start.{text_bytes, image_bytes, sel_shape, sel_kind};

use jn_agree::selectors::{FieldSel, MethodSel};
use jn_base::tree;
use jn_code::Shape;
use jn_code::image::Text;
use sqlite_items::Items;
use std::alloc::{AllocError, Global};

/// The texts of a program, in their order.
pub fn texts_of(alloc: Global, texts: &[tree::Text]) -> Result<Items<Text>, AllocError>
    ensures { IfOk result (λ all. map image_bytes all ≡ map text_bytes texts.now) }
{
    let mut all = Items::new(alloc);
    for text in texts {
        let bytes = Items::from_slice(alloc, text.bytes.as_slice())?;
        all.push(Text { bytes })?;
    }
    Ok(all)
}

/// The shapes of method selectors, in their order.
pub fn shapes_of(alloc: Global, names: &[MethodSel]) -> Result<Items<Shape>, AllocError>
    ensures { IfOk result (λ all. all ≡ map sel_shape names.now) }
{
    let mut all = Items::new(alloc);
    for sel in names {
        let params = Items::from_slice(alloc, sel.shape.params.as_slice())?;
        let result = sel.shape.result;
        all.push(Shape { params, result })?;
    }
    Ok(all)
}

/// The kinds of field selectors, in their order.
pub fn kinds_of(alloc: Global, names: &[FieldSel]) -> Result<Items<u8>, AllocError>
    ensures { IfOk result (λ all. all ≡ map sel_kind names.now) }
{
    let mut all = Items::new(alloc);
    for sel in names {
        all.push(sel.kind)?;
    }
    Ok(all)
}
