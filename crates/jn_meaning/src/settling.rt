//! What becomes of the frames below one that has ended.

ghost use Rattle.std.specs.Prelude.{◌≡◌, ◌+◌, List, length, OnOk, IfOk, is_some, not, ◌&&◌};
ghost use Rattle.std.specs.Option.{option_map};
ghost use Rattle.jn_base.specs.declared.path.Path.{Path as ShownPath};
ghost use Rattle.jn_sem.specs.Run.{given};
ghost use Rattle.jn_meaning.specs.Values.{value_of};
ghost use Rattle.jn_meaning.specs.Frames.{frame_of};
ghost use Rattle.jn_meaning.specs.Running.{Resumes, SettlesTop, Settles, Leaves};

use crate::did::Ending;
use crate::fault::MeanFault;
use crate::frame::Frame;
use crate::open::is_done;
use crate::value::Value;
use jn_base::tree::Method;
use jn_sem::outcome::Why;
use std::alloc::AllocError;

/// Where the end of bodies leads.
#[derive(Clone, Copy)]
pub enum Settled {
    /// The frame at work has something to do.
    Works,
    /// It had ended, and the one that waited for it is at work now.
    Again,
    /// The run has ended.
    Over(Ending),
}

/// The frame that waited has the result among its operands, where it is kept.
pub fn give(f: &mut Frame, v: Option<Value>) -> Result<(), AllocError>
    ensures { OnOk result ((known : List ShownPath) → frame_of known f.new ≡ given (option_map (value_of known) v) (frame_of known f.old)) }
{
    match v {
        None => Ok(()),
        Some(v) => {
            if !f.keeps {
                return Ok(());
            }
            f.vals.push(v)?;
            Ok(())
        }
    }
}

/// Takes the latest frame that waits; false where none does.
fn resume<'a>(now: &mut Frame<'a>, waiting: &mut Vec<Frame<'a>>) -> bool
    ensures { Resumes now.new waiting.old.items waiting.new.items result }
{
    match waiting.pop() {
        None => false,
        Some(f) => {
            *now = f;
            true
        }
    }
}

/// Whether the method has a result.
fn has_result(method: &Method) -> bool
    ensures { result ≡ is_some method.now.result }
{
    match &method.result {
        None => false,
        Some(_) => true,
    }
}

/// The frame at work goes on where it has something to do. Else its body has ended without a result, and the one that waits
/// goes on, where it needs none.
fn settle_top<'a>(now: &mut Frame<'a>, waiting: &mut Vec<Frame<'a>>) -> Result<Settled, MeanFault>
    ensures told { IfOk result (λ s. SettlesTop now.old waiting.old.items s now.new waiting.new.items) }
    ensures less { IfOk result (λ s. s ≡ Settled.Again → length waiting.old.items ≡ length waiting.new.items + 1) }
{
    if !is_done(&mut now.todo)? {
        return Ok(Settled::Works);
    }
    if has_result(now.method) {
        return Ok(Settled::Over(Ending::Stuck(Why::Kind)));
    }
    if !resume(now, waiting) {
        return Ok(Settled::Over(Ending::Ends));
    }
    if now.keeps {
        return Ok(Settled::Over(Ending::Stuck(Why::Kind)));
    }
    Ok(Settled::Again)
}

/// Bodies that have ended are gone; how the run ends, where it does.
pub fn settle<'a>(
    now: &mut Frame<'a>,
    waiting: &mut Vec<Frame<'a>>,
) -> Result<Option<Ending>, MeanFault>
    ensures { IfOk result (λ o. Settles now.old waiting.old.items o now.new waiting.new.items) }
{
    let turns = waiting.len() + 1;
    for turn in 0..turns {
        match settle_top(now, waiting)? {
            Settled::Works => return Ok(None),
            Settled::Over(o) => return Ok(Some(o)),
            Settled::Again => {}
        }
    }
    Ok(Some(Ending::Ends))
}

/// Whether the frame waits for a result that isn't there.
fn lacks_result(f: &Frame, v: Option<Value>) -> bool
    ensures { result ≡ (not (is_some v) && f.now.keeps) }
{
    match v {
        None => f.keeps,
        Some(_) => false,
    }
}

/// The frame at work has ended with this result, or without one, and those that waited go on.
pub fn leave<'a>(
    now: &mut Frame<'a>,
    waiting: &mut Vec<Frame<'a>>,
    v: Option<Value>,
) -> Result<Option<Ending>, MeanFault>
    ensures { IfOk result (λ o. Leaves waiting.old.items v o now.new waiting.new.items) }
{
    if !resume(now, waiting) {
        return Ok(Some(Ending::Ends));
    }
    if lacks_result(now, v) {
        return Ok(Some(Ending::Stuck(Why::Kind)));
    }
    give(now, v)?;
    settle(now, waiting)
}
