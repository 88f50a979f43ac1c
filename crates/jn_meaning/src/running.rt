//! A run: charges until it ends or they are used up.

ghost use Rattle.std.specs.Prelude.{◌≡◌, [], ◌++◌, IfOk, OnOk, OnErr};
ghost use Rattle.jn_io.specs.Causes.{HasCause};
ghost use Rattle.jn_output.specs.Writes.{Wrote, Cut};
ghost use Rattle.jn_sem.specs.Run.{no_method};
ghost use Rattle.jn_meaning.specs.World.{Stands};
ghost use Rattle.jn_meaning.specs.Running.{IsStart, Starts, IsOutcome, Charges, put};
ghost use Rattle.jn_meaning.specs.Ran.{Ran, WroteRun, CutShort, HasMeanCause};

use crate::act::Act;
use crate::charging::{Charged, charge};
use crate::did::{Ending, Line};
use crate::fault::MeanFault;
use crate::frame::Frame;
use crate::heap::Heap;
use crate::locals::Locals;
use crate::pile::Pile;
use crate::value::Value;
use crate::work::{Item, Work};
use crate::world::World;
use jn_base::tree::{Method, Name, Named, Place};
use jn_io::{Failed, Sink};
use jn_output::Output;
use jn_sem::outcome::Outcome;
use jn_table::Table;
use sqlite_items::Items;
use std::alloc::{AllocError, Global};

/// A run under way: the frame at work, those that wait, the latest last, and the heap.
#[derive(Drop)]
struct Running<'a> {
    now: Frame<'a>,
    waiting: Vec<Frame<'a>>,
    heap: Heap,
}

/// A method without anything, which the frame that starts the program has.
fn no_method(alloc: Global) -> Method
    ensures { result ≡ no_method }
{
    let at = Place { line: 0, column: 0 };
    Method {
        result: None,
        name: Named { name: Name(0), at },
        params: Items::new(alloc),
        sharing: Items::new(alloc),
        body: Items::new(alloc),
    }
}

/// The frame that starts the program: `new Main()`, and then the call of `main`.
fn start_frame<'a>(alloc: Global, method: &'a Method) -> Result<Frame<'a>, AllocError>
    requires { method.now ≡ no_method }
    ensures { IfOk result (λ f. IsStart f) }
{
    let mut todo = Work::new(alloc);
    todo.put(0, Item::Act(Act::Open))?;
    todo.put(0, Item::Act(Act::Begin))?;
    Ok(Frame {
        class: None,
        method,
        this: Value::Null,
        locals: Locals::new(alloc),
        vals: Pile::new(alloc),
        todo,
        keeps: false,
    })
}

/// The outcome of a run that ended so.
fn outcome_of(o: Ending) -> Outcome
    ensures { IsOutcome o result }
{
    match o {
        Ending::Ends => Outcome::Ends,
        Ending::AtNull => Outcome::Null,
        Ending::Zero => Outcome::Zero,
        Ending::Arena => Outcome::Arena,
        Ending::Depth => Outcome::Depth,
        Ending::Stuck(why) => Outcome::Stuck(why),
    }
}

/// What a charge prints, where it prints.
fn show<O: Sink>(line: Option<Line>, output: &mut Output, out: &mut O) -> Result<(), Failed>
    ensures wrote { OnOk result (Wrote (O.taken out.old) (O.taken out.new) output.old output.new (put [] line.entry)) }
    ensures cut { OnErr result (Cut (O.taken out.old) (O.taken out.new) (output.old ++ put [] line.entry)) }
    ensures cause { HasCause (O.faults out.old) (O.faults out.new) result }
{
    match line {
        None => Ok(()),
        Some(Line::Number(z)) => output.number(z, out),
        Some(Line::Truth(b)) => output.truth(b, out),
        Some(Line::Text(text)) => output.line(text, out),
    }
}

/// One charge of a run. What it may want is memory alone.
fn step<'a>(
    alloc: Global,
    w: &World<'a>,
    t: &mut Table,
    arena: u32,
    depth: u32,
    run: &mut Running<'a>,
) -> Result<Charged<'a>, AllocError>
    requires { Stands w.now t.old }
    ensures charges { IfOk result (λ x. Charges w.now.program.now t.old.known.items arena depth run.old.now run.old.waiting.items run.old.heap x.line x.ending run.new.now run.new.waiting.items run.new.heap) }
    ensures kept { t.new ≡ t.old }
{
    let now = &mut run.now;
    match charge(
        alloc,
        w,
        t,
        arena,
        depth,
        now,
        &mut run.waiting,
        &mut run.heap,
    ) {
        Ok(charged) => Ok(charged),
        Err(_) => Err(AllocError),
    }
}

/// Runs from the start until the run ends or the charges are used up. What makes no whole piece waits.
fn go<'a, O: Sink>(
    alloc: Global,
    w: &World<'a>,
    t: &mut Table,
    budget: u64,
    arena: u32,
    depth: u32,
    run: &mut Running<'a>,
    output: &mut Output,
    out: &mut O,
) -> Result<Outcome, MeanFault>
    requires stands { Stands w.now t.old }
    requires start { Starts run.old.now run.old.waiting.items run.old.heap }
    requires empty { output.old ≡ [] }
    ensures wrote { IfOk result (λ o. WroteRun w.now.program.now budget arena depth o (O.taken out.old) (O.taken out.new) output.new) }
    ensures cut { OnErr result (CutShort w.now.program.now budget arena depth (O.taken out.old) (O.taken out.new)) }
    ensures cause { HasMeanCause (O.faults out.old) (O.faults out.new) result }
    ensures kept { t.new ≡ t.old }
{
    for turn in 0..budget {
        let charged = step(alloc, w, t, arena, depth, run)?;
        show(charged.line, output, out)?;
        if let Some(o) = charged.ending {
            return Ok(outcome_of(o));
        }
    }
    Ok(Outcome::More)
}

/// A run that is at its start.
fn start<'a>(alloc: Global, method: &'a Method) -> Result<Running<'a>, AllocError>
    requires { method.now ≡ no_method }
    ensures { IfOk result (λ r. Starts r.now r.waiting.items r.heap) }
{
    let now = start_frame(alloc, method)?;
    Ok(Running {
        now,
        waiting: Vec::new(alloc),
        heap: Heap {
            objects: Vec::new(alloc),
            used: 0,
        },
    })
}

/// The run of a program with so many charges, an arena of so many cells and so many frames, and its output.
///
/// WriteFault comes only where the sink's count of faults rose. After it, and after Memory, the sink took a prefix of what the run
/// prints.
pub fn run_with<O: Sink>(
    alloc: Global,
    w: &World,
    t: &mut Table,
    budget: u64,
    arena: u32,
    depth: u32,
    out: &mut O,
) -> Result<Outcome, MeanFault>
    requires { Stands w.now t.old }
    ensures ran { IfOk result (λ o. Ran w.now.program.now budget arena depth o (O.taken out.old) (O.taken out.new)) }
    ensures cut { OnErr result (CutShort w.now.program.now budget arena depth (O.taken out.old) (O.taken out.new)) }
    ensures cause { HasMeanCause (O.faults out.old) (O.faults out.new) result }
    ensures kept { t.new ≡ t.old }
{
    let method = no_method(alloc);
    let mut run = start(alloc, &method)?;
    let mut output = Output::make(alloc)?;
    let outcome = go(
        alloc,
        w,
        t,
        budget,
        arena,
        depth,
        &mut run,
        &mut output,
        out,
    )?;
    output.flush(out)?;
    Ok(outcome)
}
