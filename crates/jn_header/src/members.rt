ghost use Rattle.jn_base.specs.declared.tree.Program.{Program};
ghost use Rattle.jn_base.specs.Paths.{Path as APath};
ghost use Rattle.jn_table.specs.Rows.{IsNumber};
ghost use Rattle.jn_table.specs.Tables.{IsFilledAt};
ghost use Rattle.jn_table.specs.declared.table.Table.{Table as ATable};
ghost use Rattle.jn_names.specs.Members.{IsMembersOf};
ghost use Rattle.jn_rules.specs.Questions.{Answers};
ghost use Rattle.jn_rules.specs.Members.{BadField};
ghost use Rattle.jn_header.specs.Members.{FirstOf, FirstBad};

use jn_base::tree::Name;
use jn_names::{Least, Members};
use jn_table::{ClassId, Table};

/// Whether a field name of a class has two declarations.
fn is_twice(members: &Members, id: ClassId, f: &Name) -> bool
    ensures { (p : Program) (t : ATable) (R : APath) → IsMembersOf p t members.now → IsNumber t.known.items id R → Answers (BadField p R f.now) result }
{
    match members.field(id, *f) {
        Least::None => false,
        Least::One(_) => false,
        Least::Many(_, _) => true,
    }
}

/// The first of the field names that has two declarations.
fn first_twice(members: &Members, id: ClassId, names: &[Name]) -> Option<Name>
    ensures { (p : Program) (t : ATable) (R : APath) → IsMembersOf p t members.now → IsNumber t.known.items id R → FirstOf (BadField p R) names.now result }
{
    for f in names {
        if is_twice(members, id, f) {
            return Some(*f);
        }
    }
    None
}

/// The first field name of a class, by its bytes, that has two declarations in the supers of the class; none where
/// each has one.
pub fn field_twice(t: &Table, members: &Members, id: ClassId) -> Option<Name>
    requires { IsFilledAt t.now id }
    ensures { (p : Program) (R : APath) → IsMembersOf p t.now members.now → IsNumber t.now.known.items id R → FirstBad p (BadField p R) result }
{
    first_twice(members, id, &t.row(id).fields)
}
