//! Sets of names, by their numbers.

ghost use Rattle.std.specs.Prelude.{◌↔◌, Contains, IfOk};
ghost use Rattle.jn_base.specs.declared.tree.Name.{Name as AName};

use indexmap::IndexSet;
use jn_base::tree::Name;
use std::alloc::{AllocError, Global};

/// The set of the names of a list.
pub fn name_set(alloc: Global, names: &[Name]) -> Result<IndexSet<u32>, AllocError>
    ensures { IfOk result (λ set. (m : AName) → Contains set.keys m.0 ↔ Contains names.now m) }
{
    let mut set = IndexSet::new(alloc);
    for name in names {
        let (_, _) = set.insert_full(name.0)?;
    }
    Ok(set)
}
