ghost use Rattle.std.specs.Prelude.{◌≡◌, ◌↔◌, [], ◌∷◌, ◌++◌, reverse, IsTrue, IfOk, IfSome, IfNone, length};
ghost use Rattle.jn_base.specs.declared.tree.Name.{Name as AName};
ghost use Rattle.jn_table.specs.Places.{name_numbers, path_key};
ghost use Rattle.jn_table.specs.Ups.{IsUnder, up_path};

use jn_base::compare::same_names;
use jn_base::path::Path;
use jn_base::tree::Name;
use sqlite_items::Items;
use std::alloc::{AllocError, Global};
use std::marker::Model;

/// A path, which contracts see as its names, the innermost first.
#[derive(Drop)]
pub struct Route {
    names: Items<Name>,
}

impl Model for Route {
    ghost use Rattle.std.specs.Prelude.{List, reverse};
    ghost use Rattle.jn_base.specs.declared.tree.Name.{Name as AName};

    ghost Value = { List AName };

    ghost view = { λ route. reverse route.names };
}

/// The one name that the names have behind those of `up`, where they are these and one more.
fn one_more(names: &[Name], up: &[Name]) -> Option<Name>
    ensures some { IfSome result (λ C. names.now ≡ up.now ++ C ∷ []) }
    ensures none { IfNone result ((C : AName) → names.now ≡ up.now ++ C ∷ [] → ⊥) }
{
    if names.is_empty() {
        return None;
    }
    let last = names.len() - 1;
    if same_names(&names[..last], up) {
        return Some(names[last]);
    }
    None
}

/// The numbers of the names.
fn numbers_of(alloc: Global, names: &[Name]) -> Result<Vec<u32>, AllocError>
    ensures { IfOk result (λ numbers. numbers.items ≡ name_numbers names.now) }
{
    let mut numbers = Vec::new(alloc);
    for name in names {
        numbers.push(name.0)?;
    }
    Ok(numbers)
}

/// The names but for the last.
fn without_last(names: &[Name]) -> &[Name]
    ensures { reverse result.now ≡ up_path (reverse names.now) }
{
    if names.is_empty() {
        return names;
    }
    &names[..names.len() - 1]
}

impl Route {
    /// The program itself, the namespace of the top-level names.
    pub fn root(alloc: Global) -> Route
        ensures { result ≡ [] }
    {
        Route {
            names: Items::new(alloc),
        }
    }

    /// Whether both are one path.
    pub fn is(&self, other: &Route) -> bool
        ensures { IsTrue result ↔ (self.now ≡ other.now) }
    {
        same_names(self.names.as_slice(), other.names.as_slice())
    }

    /// The same path.
    pub fn copy(&self, alloc: Global) -> Result<Route, AllocError>
        ensures { IfOk result (λ route. route ≡ self.now) }
    {
        let names = Items::from_slice(alloc, self.names.as_slice())?;
        Ok(Route { names })
    }

    /// The path with one more name behind its last one.
    pub fn down(&self, alloc: Global, name: Name) -> Result<Route, AllocError>
        ensures { IfOk result (λ route. route ≡ name ∷ self.now) }
    {
        let mut names = Items::from_slice(alloc, self.names.as_slice())?;
        names.push(name)?;
        Ok(Route { names })
    }

    /// The path without its last name. The program itself stays as it is.
    pub fn up(&self, alloc: Global) -> Result<Route, AllocError>
        ensures { IfOk result (λ up. up ≡ up_path self.now) }
    {
        let names = Items::from_slice(alloc, without_last(self.names.as_slice()))?;
        Ok(Route { names })
    }

    /// The last name of the path, where `up` is the path without it.
    pub fn under(&self, up: &Route) -> Option<Name>
        ensures some { IfSome result (λ C. self.now ≡ C ∷ up.now) }
        ensures none { IfNone result ((C : AName) → self.now ≡ C ∷ up.now → ⊥) }
    {
        one_more(self.names.as_slice(), up.names.as_slice())
    }

    /// Whether `up` is the path without its last name.
    pub fn is_under(&self, up: &Route) -> bool
        ensures { IsTrue result ↔ IsUnder self.now up.now }
    {
        match self.under(up) {
            Some(_) => true,
            None => false,
        }
    }

    /// The numbers of the path's names, the outermost first.
    pub fn key(&self, alloc: Global) -> Result<Vec<u32>, AllocError>
        ensures { IfOk result (λ key. key.items ≡ path_key self.now) }
    {
        numbers_of(alloc, self.names.as_slice())
    }

    /// The path with the outermost name first.
    pub fn shown(&self, alloc: Global) -> Result<Path, AllocError>
        ensures { IfOk result (λ path. path.names ≡ reverse self.now) }
    {
        let names = Items::from_slice(alloc, self.names.as_slice())?;
        Ok(Path { names })
    }
}
