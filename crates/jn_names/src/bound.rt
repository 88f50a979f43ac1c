ghost use Rattle.std.specs.Prelude.{◌≡◌, ◌++◌, ◌∷◌, [], length, reverse, drop, IsTrue, ◌↔◌, IfOk, OnOk, IfSome, IfNone};
ghost use Rattle.jn_base.specs.declared.tree.Program.{Program};
ghost use Rattle.jn_base.specs.declared.tree.Kind.TheVariants as kinds;
ghost use Rattle.jn_base.specs.Universe.{InUniverse};
ghost use Rattle.jn_base.specs.Paths.{shown};
ghost use Rattle.jn_base.specs.Supers.{Sup};
ghost use Rattle.jn_base.specs.Members.{HasKind};
ghost use Rattle.jn_table.specs.Rows.{ArePaths, HasField};
ghost use Rattle.jn_table.specs.Tables.{StandsFor, IsFilledAt, IsFilled};
ghost use Rattle.jn_names.specs.Bounds.{HasNone, AddsPaths};

use jn_base::compare::{has_name, same_names};
use jn_base::path::Path;
use jn_base::tree::{Kind, Name};
use jn_table::{ClassId, Table};
use sqlite_items::Items;
use std::alloc::{AllocError, Global};
use std::marker::Model;

/// A path, which contracts see as its names, the innermost first.
#[derive(Drop)]
pub struct Bound {
    path: Path,
}

impl Model for Bound {
    ghost use Rattle.std.specs.Prelude.{List, reverse};
    ghost use Rattle.jn_base.specs.declared.tree.Name.{Name as AName};

    ghost Value = { List AName };

    ghost view = { λ bound. reverse bound.path.names };
}

impl Bound {
    /// The program itself.
    pub fn root(alloc: Global) -> Bound
        ensures { result ≡ [] }
    {
        let names = Items::new(alloc);
        Bound {
            path: Path { names },
        }
    }

    /// The path of these names, the outermost first.
    pub fn of(alloc: Global, names: &[Name]) -> Result<Bound, AllocError>
        ensures { IfOk result (λ bound. bound ≡ reverse names.now) }
    {
        let names = Items::from_slice(alloc, names)?;
        Ok(Bound {
            path: Path { names },
        })
    }

    /// The names, the outermost first.
    pub fn names(&self) -> &[Name]
        ensures { reverse result.now ≡ self.now }
    {
        self.path.names.as_slice()
    }

    /// How many names it has.
    pub fn depth(&self) -> usize
        ensures { result ≡ length self.now }
    {
        self.path.names.len()
    }

    /// The path without its last `k` names; the program itself where it has no more.
    pub fn without(&self, alloc: Global, k: usize) -> Result<Bound, AllocError>
        ensures { IfOk result (λ bound. bound ≡ drop k self.now) }
    {
        let names = self.path.names.as_slice();
        Bound::of(alloc, &names[..names.len().saturating_sub(k)])
    }

    /// One more name behind the last one.
    pub fn push(&mut self, name: Name) -> Result<(), AllocError>
        ensures { OnOk result (self.new ≡ name ∷ self.old) }
    {
        self.path.names.push(name)
    }

    /// More names behind the last one, in their order.
    pub fn extend(&mut self, names: &[Name]) -> Result<(), AllocError>
        ensures { OnOk result (self.new ≡ reverse names.now ++ self.old) }
    {
        for name in names {
            self.push(*name)?;
        }
        Ok(())
    }

    /// The path as the tree and refusals have it.
    pub fn shown(&self, alloc: Global) -> Result<Path, AllocError>
        ensures { IfOk result (λ path. path ≡ shown self.now) }
    {
        let names = Items::from_slice(alloc, self.path.names.as_slice())?;
        Ok(Path { names })
    }

    /// Its number in the table, where it has one.
    pub fn number(&self, t: &Table) -> Option<ClassId>
        ensures filled { IfSome result (λ id. IsFilledAt t.now id) }
        ensures some { IfSome result (λ id. StandsFor t.now id self.now) }
        ensures none { IfNone result (HasNone t.now self.now) }
    {
        t.find(&self.path)
    }

    /// Whether it is a path of the universe, by a table in which that is filled.
    pub fn is_known(&self, t: &Table) -> bool
        ensures { (p : Program) → IsFilled p t.now → IsTrue result ↔ InUniverse p self.now }
    {
        match self.number(t) {
            Some(_) => true,
            None => false,
        }
    }

    /// Whether both are one path.
    pub fn is(&self, other: &Bound) -> bool
        ensures { IsTrue result ↔ (self.now ≡ other.now) }
    {
        same_names(self.path.names.as_slice(), other.path.names.as_slice())
    }

    /// Whether the other path is a super of this one.
    pub fn is_below(&self, t: &Table, other: &Bound) -> bool
        ensures { (p : Program) → IsFilled p t.now → IsTrue result ↔ Sup p self.now other.now }
    {
        if self.is(other) {
            return true;
        }
        match self.number(t) {
            None => false,
            Some(heir) => match other.number(t) {
                None => false,
                Some(above) => t.sup(heir, above),
            },
        }
    }

    /// The supers of the path, itself among them, each once and in class order, by a table in which the
    /// universe is filled.
    pub fn supers(&self, alloc: Global, t: &Table) -> Result<Vec<Bound>, AllocError>
        ensures { IfOk result (λ all. (p : Program) → IsFilled p t.now → ArePaths p (Sup p self.now) all.items) }
    {
        let mut all = Vec::new(alloc);
        match self.number(t) {
            None => {
                let itself = self.without(alloc, 0)?;
                all.push(itself)?;
            }
            Some(id) => add_paths(alloc, t, &t.row(id).sups, &mut all)?,
        }
        Ok(all)
    }

    /// Whether some declaration at a super has the field, by a table in which the universe is filled.
    pub fn has_field(&self, t: &Table, name: Name) -> bool
        ensures { (p : Program) → IsFilled p t.now → IsTrue result ↔ HasField p self.now name }
    {
        match self.number(t) {
            None => false,
            Some(id) => has_name(&t.row(id).fields, name),
        }
    }

    /// Whether it is a class, by a table in which the universe is filled.
    pub fn is_class(&self, t: &Table) -> bool
        ensures { (p : Program) → IsFilled p t.now → IsTrue result ↔ HasKind p self.now kinds.Class }
    {
        match self.number(t) {
            None => false,
            Some(id) => is_class(t.row(id).kind),
        }
    }
}

/// Adds the paths of the numbers, in their order.
fn add_paths(
    alloc: Global,
    t: &Table,
    ids: &[ClassId],
    all: &mut Vec<Bound>,
) -> Result<(), AllocError>
    ensures { OnOk result (AddsPaths t.now ids.now all.old.items all.new.items) }
{
    let known = t.known();
    for id in ids {
        match known.get(id.0 as usize) {
            Some(path) => {
                let bound = Bound::of(alloc, path.names.as_slice())?;
                all.push(bound)?;
            }
            None => {}
        }
    }
    Ok(())
}

/// Whether it is the kind of a class.
fn is_class(kind: Kind) -> bool
    ensures { IsTrue result ↔ (kind ≡ kinds.Class) }
{
    match kind {
        Kind::Class => true,
        Kind::Package => false,
    }
}
