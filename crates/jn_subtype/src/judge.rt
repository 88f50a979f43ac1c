ghost use Rattle.std.specs.Prelude.{◌↔◌, IfOk, IsTrue};
ghost use Rattle.jn_base.specs.declared.tree.Program.{Program};
ghost use Rattle.jn_base.specs.Fits.{TypeFits, ScopeFits};
ghost use Rattle.jn_table.specs.Tables.{IsFilled};
ghost use Rattle.jn_intern.specs.Pools.{InPool, ScopeInPool, shown, scope_in, Keeps};
ghost use Rattle.jn_sem.specs.Below.{Below};
ghost use Rattle.jn_subtype.specs.Judges.{JudgesStay};

use crate::below::is_below;
use jn_intern::{Pool, Scope, TyId};
use jn_table::Table;
use std::alloc::{AllocError, Global};

/// Decides which types are below which.
#[derive(Drop)]
pub struct Judge {
    alloc: Global,
}

impl Judge {
    ghost use Rattle.std.specs.Prelude.{List};
    ghost use Rattle.jn_base.specs.declared.types.Ty.{Ty};
    ghost use Rattle.jn_table.specs.declared.table.Table.{Table};
    ghost use Rattle.jn_subtype.specs.Judges.{JudgeFits};

    /// A judge that has answered nothing yet, and so fits every pool and table. It keeps the allocator.
    pub fn new(alloc: Global) -> Result<Judge, AllocError>
        ensures { IfOk result (λ judge. (pool : List Ty) (table : Table) → JudgeFits judge pool table) }
    {
        Ok(Judge { alloc })
    }

    /// Whether the first type is below the second one, in the scope.
    ///
    /// The scope fits, and so do both types; they need not be in normal form. The universe is filled in the table.
    /// Each number of the pool shows the same afterwards, also after a refusal, and the judge still fits.
    pub fn sub(
        &mut self,
        pool: &mut Pool,
        table: &Table,
        scope: &Scope,
        s: TyId,
        t: TyId,
    ) -> Result<bool, AllocError>
        requires judge { JudgeFits self.old pool.old table.now }
        requires s { InPool pool.old s }
        requires t { InPool pool.old t }
        requires known { ScopeInPool pool.old scope.now }
        requires fits { ScopeFits (scope_in pool.old scope.now) }
        requires s_fits { TypeFits (scope_in pool.old scope.now) (shown pool.old s) }
        requires t_fits { TypeFits (scope_in pool.old scope.now) (shown pool.old t) }
        ensures below { IfOk result (λ r. (p : Program) → IsFilled p table.now → IsTrue r
            ↔ Below p (scope_in pool.old scope.now) (shown pool.old s) (shown pool.old t)) }
        ensures keeps { Keeps pool.old pool.new }
        ensures still { JudgeFits self.new pool.new table.now }
    {
        is_below(self.alloc, pool, scope, table, pool.show(s), pool.show(t))
    }
}

/// A judge still fits after the pool and the table have grown.
pub fn judges_stay()
    ensures { JudgesStay }
{}
