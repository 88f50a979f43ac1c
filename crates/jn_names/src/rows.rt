ghost use Rattle.std.specs.Prelude.{IfOk};
ghost use Rattle.jn_base.specs.declared.tree.Program.{Program};
ghost use Rattle.jn_base.specs.Paths.{Path};
ghost use Rattle.jn_table.specs.Rows.{IsNumber};
ghost use Rattle.jn_table.specs.Tables.{IsFilledAt, IsTableOf};
ghost use Rattle.jn_names.specs.Members.{IsMemberRow};

use crate::ascending::in_order;
use crate::member_row::MemberRow;
use crate::name_set::name_set;
use jn_table::{ClassId, Table};
use std::alloc::{AllocError, Global};

/// The row of a filled number.
pub fn row_of(alloc: Global, t: &Table, id: ClassId) -> Result<MemberRow, AllocError>
    requires { IsFilledAt t.now id }
    ensures { IfOk result (λ row. (p : Program) (R : Path) → IsTableOf p t.now → IsNumber t.now.known.items id R
        → IsMemberRow p t.now.known.items R row) }
{
    let sups = in_order(alloc, &t.row(id).sups)?;
    let methods = name_set(alloc, &t.own_methods(id)?)?;
    let fields = name_set(alloc, &t.own_fields(id)?)?;
    Ok(MemberRow {
        sups,
        methods,
        fields,
    })
}
