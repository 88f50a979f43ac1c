ghost use Rattle.std.specs.Prelude.{◌≡◌, ◌-◌, ◌≤◌, ◌++◌, ◌∷◌, [], length, take, IfOk};

use crate::tree::Name;
use sqlite_items::Items;
use std::alloc::{AllocError, Global};

/// The path of a class or package: the names of its namespaces from the top-level one, then its own.
///
/// Its depth is the number of its names. The path without names is the program itself.
#[derive(Debug, Drop)]
pub struct Path {
    pub names: Items<Name>,
}

impl Path {
    /// The path without its last `k` names, `k` from 0 to the depth.
    pub fn up(&self, alloc: Global, k: u8) -> Result<Path, AllocError>
        requires { k ≤ length self.now.names }
        ensures { IfOk result (λ path. path.names ≡ take (length self.now.names - k) self.now.names) }
    {
        let depth = self.names.len() - k as usize;
        let names = Items::from_slice(alloc, &self.names.as_slice()[..depth])?;
        Ok(Path { names })
    }

    /// The path with one more name behind its last one.
    pub fn down(&self, alloc: Global, name: Name) -> Result<Path, AllocError>
        ensures { IfOk result (λ path. path.names ≡ self.now.names ++ name ∷ []) }
    {
        let mut names = Items::from_slice(alloc, self.names.as_slice())?;
        names.push(name)?;
        Ok(Path { names })
    }
}
