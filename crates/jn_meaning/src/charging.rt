//! One charge: an act of the frame at work, and what becomes of the run by it.

ghost use Rattle.std.specs.Prelude.{◌≡◌, IfOk};
ghost use Rattle.jn_meaning.specs.World.{Stands};
ghost use Rattle.jn_meaning.specs.Running.{Proceeds, Charges};

use crate::did::{Did, Ending, Line};
use crate::dispatch::act;
use crate::entering::enter;
use crate::fault::MeanFault;
use crate::frame::Frame;
use crate::heap::Heap;
use crate::open::next_act;
use crate::settling::{leave, settle};
use crate::world::World;
use jn_table::Table;
use std::alloc::Global;

/// What came of a charge: what is to be printed, and how the run ended, where it did.
#[derive(Clone, Copy)]
pub struct Charged<'a> {
    pub line: Option<Line<'a>>,
    pub ending: Option<Ending>,
}

/// What becomes of the run by what the frame at work did.
fn proceed<'a>(
    alloc: Global,
    w: &World<'a>,
    t: &Table,
    did: Did<'a>,
    depth: u32,
    now: &mut Frame<'a>,
    waiting: &mut Vec<Frame<'a>>,
    h: &Heap,
) -> Result<Charged<'a>, MeanFault>
    requires { Stands w.now t.now }
    ensures { IfOk result (λ x. Proceeds w.now.program.now t.now.known.items depth did.entry now.old waiting.old.items h.now x.line x.ending now.new waiting.new.items) }
{
    match did {
        Did::Went => {
            let ending = settle(now, waiting)?;
            Ok(Charged { line: None, ending })
        }
        Did::Printed(line) => {
            let ending = settle(now, waiting)?;
            let line = Some(line);
            Ok(Charged { line, ending })
        }
        Did::Entered(called) => {
            let ending = enter(alloc, w, t, called, depth, now, waiting, h)?;
            Ok(Charged { line: None, ending })
        }
        Did::Left(v) => {
            let ending = leave(now, waiting, v)?;
            Ok(Charged { line: None, ending })
        }
        Did::Ended(o) => Ok(Charged {
            line: None,
            ending: Some(o),
        }),
    }
}

/// One charge. A frame with nothing to do is gone once the one before is settled.
pub fn charge<'a>(
    alloc: Global,
    w: &World<'a>,
    t: &mut Table,
    arena: u32,
    depth: u32,
    now: &mut Frame<'a>,
    waiting: &mut Vec<Frame<'a>>,
    h: &mut Heap,
) -> Result<Charged<'a>, MeanFault>
    requires { Stands w.now t.old }
    ensures charges { IfOk result (λ x. Charges w.now.program.now t.old.known.items arena depth now.old waiting.old.items h.old x.line x.ending now.new waiting.new.items h.new) }
    ensures kept { t.new ≡ t.old }
{
    match next_act(&mut now.todo)? {
        None => {
            let ending = settle(now, waiting)?;
            Ok(Charged { line: None, ending })
        }
        Some(due) => {
            now.locals.truncate(due.scope);
            let did = act(alloc, w, t, now, h, arena, due.act)?;
            proceed(alloc, w, t, did, depth, now, waiting, h)
        }
    }
}
