//! Classes by their numbers.

ghost use Rattle.std.specs.Prelude.{◌≡◌, ◌↔◌, [], reverse, drop, IsTrue, IfOk, MatchOption, slice_get};
ghost use Rattle.jn_base.specs.declared.tree.Program.{Program};
ghost use Rattle.jn_sem.specs.Sharing.{IsClass};
ghost use Rattle.jn_table.specs.Tables.{IsFilled, IsFilledAt};
ghost use Rattle.jn_meaning.specs.Values.{path_at, path_in};

use jn_base::compare::same_names;
use jn_base::path::Path;
use jn_base::tree::{Kind, Name};
use jn_table::{ClassId, Table};
use sqlite_items::at;

/// Whether the number has a path.
fn is_known(t: &Table, id: ClassId) -> bool
    ensures { IsTrue result ↔ IsFilledAt t.now id }
{
    (id.0 as usize) < t.known().len()
}

/// Whether it is the kind of a class.
fn is_class_kind(kind: Kind) -> bool
    ensures { IsTrue result ↔ (kind ≡ Kind.Class) }
{
    match kind {
        Kind::Class => true,
        Kind::Package => false,
    }
}

/// Whether the number is that of a class.
pub fn is_class(t: &Table, id: ClassId) -> bool
    ensures { (p : Program) → IsFilled p t.now → IsTrue result ↔ IsClass p (path_at t.now.known.items id) }
{
    if !is_known(t, id) {
        return false;
    }
    is_class_kind(t.row(id).kind)
}

/// The number of a path, where it is that of a class.
pub fn class_at(t: &Table, path: &Path) -> Option<ClassId>
    ensures { MatchOption result ((p : Program) → IsFilled p t.now → IsClass p (reverse path.now.names) → ⊥)
        (λ id. ((p : Program) → IsFilled p t.now → IsClass p (reverse path.now.names)) × (path_at t.now.known.items id ≡ reverse path.now.names)) }
{
    match t.find(path) {
        None => None,
        Some(id) => { if is_class(t, id) { Some(id) } else { None } }
    }
}

/// The names of the path of a number, the outermost first; none where it has no path.
pub fn names_at(t: &Table, id: ClassId) -> &[Name]
    ensures { reverse result.now ≡ path_at t.now.known.items id }
{
    match at(t.known(), id.0 as usize) {
        None => &[],
        Some(path) => path.names.as_slice(),
    }
}

/// Whether both numbers have one path.
pub fn is_one_path(t: &Table, a: ClassId, b: ClassId) -> bool
    ensures { IsTrue result ↔ (path_at t.now.known.items a ≡ path_at t.now.known.items b) }
{
    same_names(names_at(t, a), names_at(t, b))
}

/// The names without the last ones.
pub fn without(names: &[Name], k: usize) -> &[Name]
    ensures { reverse result.now ≡ drop k (reverse names.now) }
{
    &names[..names.len().saturating_sub(k)]
}
