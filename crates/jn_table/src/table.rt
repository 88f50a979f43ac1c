ghost use Rattle.std.specs.Prelude.{◌≡◌, ◌≤◌, [], length, IfOk, IfErr, IfSome, IfNone, OnOk, OnErr};
ghost use Rattle.jn_table.specs.Depths.{IsOrdered};
ghost use Rattle.jn_table.specs.Own.{AreDeclared};
ghost use Rattle.jn_table.specs.Places.{ArePlaces};

use crate::class::{ClassId, Row};
use crate::entry::{Entry, entries};
use crate::fault::TableFault;
use crate::fill::fill_all;
use crate::finding::{Located, place_of};
use crate::gather::Part;
use crate::lookup::has_class;
use crate::order::{copied, name_order};
use crate::own::names_at;
use crate::spots::{Spot, field_at, method_at, spots_of, way_of};
use jn_base::path::Path;
use jn_base::tree::{Name, Program, Text};
use sqlite_items::Items;
use std::alloc::{AllocError, Global};

/// The class table of a program: the paths whose rows are filled, each with its row.
///
/// `IsTableOf` says in a contract of which program it is, and `IsFilled` that the whole universe is filled.
#[derive(Drop)]
pub struct Table {
    alloc: Global,
    texts: Items<Text>,
    entries: Vec<Entry>,
    order: Vec<Name>,
    known: Vec<Path>,
    rows: Vec<Row>,
    places: Vec<Located>,
    declared: Vec<Vec<usize>>,
    spots: Vec<Spot>,
    ghost ordered: { IsOrdered entries.items order.items },
    ghost few: { length known.items ≤ 4096 },
    ghost paired: { length rows.items ≡ length known.items },
    ghost placed: { ArePlaces known.items places.items },
    ghost declared_are: { AreDeclared entries.items known.items declared.items },
}

impl Table {
    ghost use Rattle.jn_base.specs.ProgramNames.{IsNamed};
    ghost use Rattle.jn_table.specs.Tables.{IsTableOf, IsFilledAt, IsPathOf, HasNoNumber, StaysTable, KeepsNumbers};
    ghost use Rattle.jn_table.specs.Tables.{SaysFilled, SaysRefused, SaysRow, SaysSup, SaysBefore, numbered};
    ghost use Rattle.jn_table.specs.Tables.{filled_paths};
    ghost use Rattle.jn_table.specs.OwnParts.{SaysMethods, SaysFields};

    /// The table of a program, which knows no path yet. It holds the program's declarations.
    ///
    /// `IsNamed` says that equal names of the program have one number and that it has each name of a
    /// declaration, as each program has that a source spells.
    pub fn new(alloc: Global, p: &Program) -> Result<Table, AllocError>
        ensures table { IfOk result (λ table. IsNamed p.now → IsTableOf p.now table) }
        ensures unknown { IfOk result (λ table. numbered table ≡ []) }
    {
        let entries = entries(alloc, p)?;
        let order = name_order(alloc, p.names.as_slice(), &entries)?;
        let texts = copied(alloc, p.names.as_slice())?;
        let spots = spots_of(alloc, p)?;
        Ok(Table {
            alloc,
            texts,
            entries,
            order,
            known: Vec::new(alloc),
            rows: Vec::new(alloc),
            places: Vec::new(alloc),
            declared: Vec::new(alloc),
            spots,
        })
    }

    /// Fills the rows of the whole universe.
    ///
    /// It is refused exactly where the universe has more than 4,096 paths, with the 4,097th in class order;
    /// then where a path is its own strict super, and then where the supers of a path have both kinds, each
    /// with the first such path in class order. After a refusal the table has what it had. A number stands
    /// for one path for good.
    pub fn ask_all(&mut self) -> Result<(), TableFault>
        ensures stays { StaysTable self.old self.new }
        ensures numbers { KeepsNumbers self.old self.new }
        ensures ok { OnOk result (SaysFilled self.old self.new) }
        ensures err { IfErr result (λ fault. SaysRefused self.old fault) }
        ensures kept { OnErr result (self.new ≡ self.old) }
    {
        if !self.known.is_empty() {
            return Ok(());
        }
        let all = fill_all(
            self.alloc,
            self.texts.as_slice(),
            &self.entries,
            &self.order,
        )?;
        self.known = all.known;
        self.rows = all.rows;
        self.places = all.places;
        self.declared = all.declared;
        Ok(())
    }

    /// The row of a filled number.
    pub fn row(&self, id: ClassId) -> &Row
        requires { IsFilledAt self.now id }
        ensures { SaysRow self.now id result.now }
    {
        &self.rows[id.0 as usize]
    }

    /// Whether the second of two filled numbers is a super of the first.
    pub fn sup(&self, a: ClassId, b: ClassId) -> bool
        requires a { IsFilledAt self.now a }
        requires b { IsFilledAt self.now b }
        ensures { SaysSup self.now a b result }
    {
        has_class(&self.rows[a.0 as usize].sups, b)
    }

    /// The number of a path, none exactly where its row isn't filled. It is found by halves.
    pub fn find(&self, q: &Path) -> Option<ClassId>
        ensures some { IfSome result (λ id. IsFilledAt self.now id) }
        ensures path { IfSome result (λ id. IsPathOf self.now id q.now) }
        ensures none { IfNone result (HasNoNumber self.now q.now) }
    {
        place_of(&self.places, q)
    }

    /// The way to the declaration at a path, or at its longest front that has one: the places of the declarations of its
    /// names from the outermost on, each in the list in which it stands.
    ///
    /// Nothing is promised of it, so who goes by it compares names, as `decl_near` and `home_near` of `jn_homes` do.
    pub fn way<'a>(&'a self, q: &Path) -> &'a [usize] {
        match place_of(&self.places, q) {
            Some(id) => way_of(&self.spots, &self.declared, &self.rows, id, q.names.len()),
            None => &[],
        }
    }

    /// The place of a method among the members of the declaration at a path. Nothing is promised of it.
    pub fn method_place(&self, q: &Path, m: Name) -> Option<usize> {
        let id = place_of(&self.places, q)?;
        method_at(&self.spots, &self.declared, id, m)
    }

    /// The place of a field among the members of the declaration at a path. Nothing is promised of it.
    pub fn field_place(&self, q: &Path, f: Name) -> Option<usize> {
        let id = place_of(&self.places, q)?;
        field_at(&self.spots, &self.declared, id, f)
    }

    /// Whether the path of the first of two filled numbers comes before that of the second in the class order.
    pub fn before(&self, a: ClassId, b: ClassId) -> bool
        requires a { IsFilledAt self.now a }
        requires b { IsFilledAt self.now b }
        ensures { SaysBefore self.now a b result }
    {
        a.0 < b.0
    }

    /// The paths whose rows are filled, each once.
    pub fn known(&self) -> &[Path]
        ensures { result.now ≡ filled_paths self.now }
    {
        &self.known
    }

    /// The names of the methods that the declarations at the path of a filled number have themselves.
    pub fn own_methods(&self, id: ClassId) -> Result<Vec<Name>, AllocError>
        requires { IsFilledAt self.now id }
        ensures { IfOk result (λ names. SaysMethods self.now id names.items) }
    {
        let row = &self.declared[id.0 as usize];
        names_at(self.alloc, &self.entries, row, Part::Methods)
    }

    /// The names of the fields that the declarations at the path of a filled number have themselves.
    pub fn own_fields(&self, id: ClassId) -> Result<Vec<Name>, AllocError>
        requires { IsFilledAt self.now id }
        ensures { IfOk result (λ names. SaysFields self.now id names.items) }
    {
        let row = &self.declared[id.0 as usize];
        names_at(self.alloc, &self.entries, row, Part::Fields)
    }
}
