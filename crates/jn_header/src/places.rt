//! Heads by their names.

ghost use Rattle.std.specs.Prelude.{nat_eq, IfOk};
ghost use Rattle.indexmap.specs.IndexMap.{get};
ghost use Rattle.jn_header.specs.Bodies.{ArePlaced};

use crate::bodies::BodyHead;
use indexmap::IndexMap;
use std::alloc::{AllocError, Global};

/// By the number of each name the place of a head with it.
pub fn places_of(alloc: Global, heads: &[BodyHead]) -> Result<IndexMap<u32, usize>, AllocError>
    ensures { IfOk result (λ places. ArePlaced heads.now (get nat_eq places)) }
{
    let mut places = IndexMap::new(alloc);
    for k in 0..heads.len() {
        places.insert(heads[k].name.name.0, k)?;
    }
    Ok(places)
}
