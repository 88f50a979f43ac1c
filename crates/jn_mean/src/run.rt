ghost use Rattle.std.specs.Prelude.{◌≡◌, [], IfOk, OnErr};
ghost use Rattle.jn_base.specs.Duplicates.{duplicates};
ghost use Rattle.jn_base.specs.WithinLimits.{IsWithinLimits};
ghost use Rattle.jn_table.specs.Tables.{IsTableOf};
ghost use Rattle.jn_header.specs.Judged.{AreParts};
ghost use Rattle.jn_meaning.specs.Ran.{Ran, CutShort, HasMeanCause};
ghost use Rattle.jn_rules.specs.Verdict.{HeadersPass};

use jn_base::tree::Program;
use jn_header::{Headers, check_headers};
use jn_intern::Pool;
use jn_io::Sink;
use jn_meaning::{MeanFault, World, run_with};
use jn_sem::outcome::Outcome;
use jn_table::Table;
use std::alloc::{AllocError, Global};

/// The parts of a program that its meaning asks.
fn parts_of(alloc: Global, p: &Program, table: &mut Table) -> Result<Headers, AllocError>
    requires limits { IsWithinLimits p.now }
    requires once { duplicates p.now ≡ [] }
    requires table { IsTableOf p.now table.old }
    ensures { IfOk result (λ h. AreParts p.now table.new h) }
{
    let mut pool = Pool::new(alloc)?;
    match check_headers(alloc, p, table, &mut pool) {
        Ok(headers) => Ok(headers),
        Err(_) => Err(AllocError),
    }
}

/// Runs a program with at most so many charges, an arena of so many cells and at most so many frames, `main` the first: how it ends,
/// and its output, which goes to the sink in pieces of 8,192 bytes and a last shorter one.
///
/// The program is within the limits, no name stands twice in it, and nothing that it says outside its bodies is refused. Its bodies
/// may be refused: then it may be Stuck. WriteFault comes only where the sink's count of faults rose. After it, and after Memory, the
/// sink took a prefix of what the run prints.
pub fn mean<O: Sink>(
    alloc: Global,
    p: &Program,
    budget: u64,
    arena: u32,
    depth: u32,
    out: &mut O,
) -> Result<Outcome, MeanFault>
    requires limits { IsWithinLimits p.now }
    requires once { duplicates p.now ≡ [] }
    requires headers { HeadersPass p.now }
    ensures ran { IfOk result (λ o. Ran p.now budget arena depth o (O.taken out.old) (O.taken out.new)) }
    ensures cut { OnErr result (CutShort p.now budget arena depth (O.taken out.old) (O.taken out.new)) }
    ensures cause { HasMeanCause (O.faults out.old) (O.faults out.new) result }
{
    let mut table = Table::new(alloc, p)?;
    let headers = parts_of(alloc, p, &mut table)?;
    let w = World {
        program: p,
        masks: &headers.masks,
        members: &headers.members,
        groups: &headers.groups,
        slots: &headers.slots,
    };
    run_with(alloc, &w, &mut table, budget, arena, depth, out)
}
