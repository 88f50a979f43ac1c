ghost use Rattle.std.specs.Prelude.{◌↔◌, Contains, IsTrue};
ghost use Rattle.jn_names.specs.Ascending.{Ascend};

use crate::ascending::is_among;
use indexmap::IndexSet;
use jn_table::ClassId;

/// The supers of a class, and the numbers of the names that its declarations have themselves.
#[derive(Drop)]
pub struct MemberRow {
    pub sups: Vec<ClassId>,
    pub methods: IndexSet<u32>,
    pub fields: IndexSet<u32>,
    ghost ascending: { Ascend sups.items },
}

/// Whether the number is a super's.
pub fn is_super(row: &MemberRow, id: ClassId) -> bool
    ensures { IsTrue result ↔ Contains row.now.sups.items id }
{
    is_among(&row.sups, id)
}
