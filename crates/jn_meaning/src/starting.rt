//! How a run begins: `new Main()`, and the call of `main` on it.

ghost use Rattle.std.specs.Prelude.{◌≡◌, ◌↔◌, ℕ, IsTrue, IfOk};
ghost use Rattle.jn_sem.specs.Acts as acts;
ghost use Rattle.jn_sem.specs.Does.{IsSpelled};
ghost use Rattle.jn_meaning.specs.World.{Stands};
ghost use Rattle.jn_meaning.specs.Tells.{Tells};
ghost use Rattle.jn_meaning.specs.Creating.{Acted};
ghost use Rattle.jn_meaning.specs.Opening.{OpensAt};

use crate::calling::call_at;
use crate::classes::is_class;
use crate::creating::make_named;
use crate::did::{Did, Ending};
use crate::fault::MeanFault;
use crate::frame::Frame;
use crate::heap::Heap;
use crate::value::Value;
use crate::world::World;
use jn_base::tree::{Name, Program, Text};
use jn_sem::outcome::Why;
use jn_table::{ClassId, Table};
use sqlite_items::Items;
use std::alloc::Global;

/// Whether these are the bytes of the text.
fn has_bytes(text: &Text, bytes: &[u8]) -> bool
    ensures { IsTrue result ↔ (text.now.bytes ≡ bytes.now) }
{
    text.bytes.as_slice() == bytes
}

/// The name that is spelled so; none where there is none.
fn spelled(p: &Program, bytes: &[u8]) -> Result<Option<Name>, MeanFault>
    ensures { IfOk result (λ o. Tells (IsSpelled p.now bytes.now) o) }
{
    for (i, text) in p.names.as_slice().iter().enumerate() {
        if has_bytes(text, bytes) {
            if i > 4294967295 {
                return Err(MeanFault::Memory);
            }
            return Ok(Some(Name(i as u32)));
        }
    }
    Ok(None)
}

/// `new Main()`.
pub fn begin<'a>(
    alloc: Global,
    w: &World<'a>,
    t: &mut Table,
    f: &mut Frame<'a>,
    h: &mut Heap,
    arena: u32,
) -> Result<Did<'a>, MeanFault>
    requires { Stands w.now t.old }
    ensures did { IfOk result (λ d. Acted w.now.program.now t.old.known.items arena acts.Begin f.old h.old d f.new h.new) }
    ensures kept { t.new ≡ t.old }
{
    match spelled(w.program, b"Main")? {
        None => Ok(Did::Ended(Ending::Stuck(Why::Missing))),
        Some(name) => {
            let mut names = Items::new(alloc);
            names.push(name)?;
            let args = Vec::new(alloc);
            make_named(alloc, w, t, f, h, arena, names, args, true)
        }
    }
}

/// The call of `main` on an object of a class.
fn open_at<'a>(
    alloc: Global,
    w: &World<'a>,
    t: &mut Table,
    r: Value,
    id: ClassId,
) -> Result<Did<'a>, MeanFault>
    requires { Stands w.now t.old }
    ensures did { IfOk result (λ d. OpensAt w.now.program.now t.old.known.items r id d) }
    ensures kept { t.new ≡ t.old }
{
    if !is_class(t, id) {
        return Err(MeanFault::Memory);
    }
    match spelled(w.program, b"main")? {
        None => Ok(Did::Ended(Ending::Stuck(Why::Missing))),
        Some(name) => {
            let mut all = Vec::new(alloc);
            all.push(r)?;
            call_at(alloc, w, t, id, name, all)
        }
    }
}

/// The call of `main` on the latest operand.
pub fn open<'a>(
    alloc: Global,
    w: &World<'a>,
    t: &mut Table,
    f: &mut Frame<'a>,
    h: &Heap,
) -> Result<Did<'a>, MeanFault>
    requires { Stands w.now t.old }
    ensures did { IfOk result (λ d. (m : ℕ) → Acted w.now.program.now t.old.known.items m acts.Open f.old h.now d f.new h.now) }
    ensures kept { t.new ≡ t.old }
{
    f.keeps = false;
    match f.vals.pop() {
        None => Ok(Did::Ended(Ending::Stuck(Why::Missing))),
        Some(r) => match r {
            Value::Reference(_, id) => open_at(alloc, w, t, r, id),
            Value::Null => Ok(Did::Ended(Ending::AtNull)),
            Value::Number(_) => Ok(Did::Ended(Ending::Stuck(Why::Kind))),
            Value::Truth(_) => Ok(Did::Ended(Ending::Stuck(Why::Kind))),
        },
    }
}
