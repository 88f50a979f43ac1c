ghost use Rattle.std.specs.Prelude.{◌≡◌, List, nat_eq, option_copied};
ghost use Rattle.indexmap.specs.IndexMap.{get};
ghost use Rattle.jn_base.specs.declared.tree.Program.{Program};
ghost use Rattle.jn_base.specs.declared.path.Path.{Path as ShownPath};
ghost use Rattle.jn_base.specs.Paths.{Path as APath};
ghost use Rattle.jn_table.specs.Rows.{IsNumber};
ghost use Rattle.jn_header.specs.Bodies.{AreHeadRows, ArePlaced, FindsHead, HeadIs, LeastHeadIs, SaysOf};

use crate::bodies::{Bodies, BodyHead, HeadRow};
use jn_base::tree::Name;
use jn_names::Least;
use jn_table::ClassId;
use sqlite_items::at;

/// The head of this name.
fn find_head(row: &HeadRow, name: Name) -> Option<&BodyHead>
    ensures { ArePlaced row.now.heads.items (get nat_eq row.now.places)
        → FindsHead row.now.heads.items name (option_copied result) }
{
    match row.places.get(&name.0) {
        None => None,
        Some(place) => at(&row.heads, *place),
    }
}

/// The head of a method that the declaration at the path of a number has itself.
pub fn head_at(rows: &[HeadRow], id: ClassId, name: Name) -> Option<&BodyHead>
    ensures { (p : Program) (known : List ShownPath) (R : APath) → AreHeadRows p known rows.now → IsNumber known id R → HeadIs p R name (option_copied result) }
{
    match at(rows, id.0 as usize) {
        None => None,
        Some(row) => find_head(row, name),
    }
}

/// The head of the least body of a method at a class; none where there is no least body.
pub fn least_head(bodies: &Bodies, id: ClassId, name: Name) -> Option<&BodyHead>
    ensures { SaysOf bodies.now id (λ p R. LeastHeadIs p R name (option_copied result)) }
{
    match bodies.members.least(id, name) {
        Least::None => None,
        Least::Many(_, _) => None,
        Least::One(at) => head_at(&bodies.rows, at, name),
    }
}
