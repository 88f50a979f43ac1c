//! Calls and returns.

ghost use Rattle.std.specs.Prelude.{◌≡◌, ◌<◌, ◌≤◌, ◌+◌, ◌^◌, ◌∷◌, [], List, ℕ, ℤ, Some, length, map, slice_get, true, false, drop};
ghost use Rattle.jn_code.specs.declared.image.Code.{Code};
ghost use Rattle.jn_code.specs.declared.image.Image.{Image};
ghost use Rattle.jn_code.specs.declared.instr.Instr.TheVariants as Instr;
ghost use Rattle.jn_code.specs.Known.{IsSound};
ghost use Rattle.jn_code.specs.Machine.{rules, obey, waits};
ghost use Rattle.jn_steps.specs.Steps.{Enters, Leaves};
ghost use Rattle.jn_steps.specs.Frames.{machine_does};
ghost use Rattle.jn_machine.specs.Acts.{frame_of};
ghost use Rattle.jn_machine.specs.Needs.{Has, OnTop, IsClass};
ghost use Rattle.jn_machine.specs.Sizes.{Sized, HasUnder, taken, drop_args, under};
ghost use Rattle.jn_machine.specs.Does.{next_of, IsTurn};
ghost use Rattle.jn_machine.specs.Calls.{HasArgs, IsView, HasReceiver, Roomy, RoomBack, SameSizes};

use crate::did::Turn;
use crate::entries::code_of;
use crate::frame::Frame;
use crate::frames::Frames;
use crate::numbers::{class_in, reference_in};
use jn_code::Image;

// The code begins, with this receiver and the latest operands, where that many frames are allowed.
fn begin(image: &Image, frames: &mut Frames, now: &mut Frame, b: u32, z: i64, args: usize) -> Turn
    requires code { (c : Code) → slice_get image.now.codes b ≡ Some c → args + length c.locals + 1 ≤ frames.old.wide }
    requires there { b < length image.now.codes }
    requires short { frames.old.wide < 2 ^ 64 }
    requires has { args ≤ length now.old.vals.words }
    requires under { HasUnder now.old.keeps (record { limit = now.old.vals.limit; words = drop_args args now.old.vals.words }) }
    requires sized { Sized frames.old.wide frames.old.high now.old }
    requires place { now.old.place + 1 < 2 ^ 64 }
    ensures turns { (m : ℕ) (h : List ℤ) (out : List ℕ) → machine_does (rules image.now m) frames.old.limit (Enters b (z ∷ taken args now.old.vals.words []) (waits now.old.keeps (frame_of now.old) (under now.old.keeps z (drop_args args now.old.vals.words))) h) (map frame_of frames.old.waiting) out ≡ next_of image.now result now.new frames.new h out }
    ensures line { IsTurn image.now result }
    ensures same { SameSizes frames.new frames.old }
    ensures sized { Sized frames.old.wide frames.old.high now.new }
{
    if frames.waiting() == frames.limit() {
        return Turn::Depth;
    }
    let locals = image.codes.as_slice()[b as usize].locals.len();
    now.place += 1;
    frames.enter(now, b as usize, z, args, locals);
    Turn::On
}

/// The method of the receiver's class.
pub fn call(image: &Image, frames: &mut Frames, now: &mut Frame, s: u32) -> Turn
    requires sound { IsSound image.now }
    requires args { HasArgs image.now s 1 now.old.vals.words }
    requires receiver { HasReceiver image.now s now.old.vals.words }
    requires roomy { Roomy image.now frames.old }
    requires sized { Sized frames.old.wide frames.old.high now.old }
    requires place { now.old.place + 1 < 2 ^ 64 }
    ensures turns { (m : ℕ) (h : List ℤ) (out : List ℕ) → machine_does (rules image.now m) frames.old.limit (obey image.now m (Instr.Call s) (frame_of now.old) h) (map frame_of frames.old.waiting) out ≡ next_of image.now result now.new frames.new h out }
    ensures line { IsTurn image.now result }
    ensures same { SameSizes frames.new frames.old }
    ensures sized { Sized frames.old.wide frames.old.high now.new }
{
    let args = image.methods.as_slice()[s as usize].params.len();
    let z = now.vals.peek(args);
    let r = match reference_in(z) {
        None => return Turn::Null,
        Some(r) => r,
    };
    match code_of(&image.classes.as_slice()[r.view as usize], s) {
        None => Turn::Null,
        Some(b) => {
            now.keeps = true;
            begin(image, frames, now, b, z, args)
        }
    }
}

/// The method of the class that is the latest operand.
pub fn call_at(image: &Image, frames: &mut Frames, now: &mut Frame, s: u32) -> Turn
    requires sound { IsSound image.now }
    requires has { Has 1 now.old.vals }
    requires class { OnTop (IsClass image.now) now.old.vals.words }
    requires args { HasArgs image.now s 1 (drop 1 now.old.vals.words) }
    requires receiver { HasReceiver image.now s (drop 1 now.old.vals.words) }
    requires roomy { Roomy image.now frames.old }
    requires sized { Sized frames.old.wide frames.old.high now.old }
    requires place { now.old.place + 1 < 2 ^ 64 }
    ensures turns { (m : ℕ) (h : List ℤ) (out : List ℕ) → machine_does (rules image.now m) frames.old.limit (obey image.now m (Instr.Callat s) (frame_of now.old) h) (map frame_of frames.old.waiting) out ≡ next_of image.now result now.new frames.new h out }
    ensures line { IsTurn image.now result }
    ensures same { SameSizes frames.new frames.old }
    ensures sized { Sized frames.old.wide frames.old.high now.new }
{
    let k = class_in(now.vals.take());
    let args = image.methods.as_slice()[s as usize].params.len();
    let z = now.vals.peek(args);
    if reference_in(z).is_none() {
        return Turn::Null;
    }
    match code_of(&image.classes.as_slice()[k], s) {
        None => Turn::Null,
        Some(b) => {
            now.keeps = true;
            begin(image, frames, now, b, z, args)
        }
    }
}

/// The constructor of the latest operand's class, where it has one. The operand stays.
pub fn construct(image: &Image, frames: &mut Frames, now: &mut Frame, s: u32) -> Turn
    requires sound { IsSound image.now }
    requires has { Has 1 now.old.vals }
    requires view { OnTop (IsView image.now) now.old.vals.words }
    requires args { HasArgs image.now s 0 (drop 1 now.old.vals.words) }
    requires roomy { Roomy image.now frames.old }
    requires sized { Sized frames.old.wide frames.old.high now.old }
    requires place { now.old.place + 1 < 2 ^ 64 }
    ensures turns { (m : ℕ) (h : List ℤ) (out : List ℕ) → machine_does (rules image.now m) frames.old.limit (obey image.now m (Instr.Ctor s) (frame_of now.old) h) (map frame_of frames.old.waiting) out ≡ next_of image.now result now.new frames.new h out }
    ensures line { IsTurn image.now result }
    ensures same { SameSizes frames.new frames.old }
    ensures sized { Sized frames.old.wide frames.old.high now.new }
{
    let z = now.vals.take();
    let args = image.methods.as_slice()[s as usize].params.len();
    let r = match reference_in(z) {
        None => return Turn::Null,
        Some(r) => r,
    };
    match code_of(&image.classes.as_slice()[r.view as usize], s) {
        None => {
            now.vals.forget(args);
            now.vals.put(z);
            now.place += 1;
            Turn::On
        }
        Some(b) => {
            now.keeps = false;
            begin(image, frames, now, b, z, args)
        }
    }
}

/// A code that ends gives its result to the latest that waits.
pub fn back(frames: &mut Frames, now: &mut Frame, v: Option<i64>) -> Turn
    requires room { RoomBack frames.old.high v frames.old.waiting }
    requires sized { Sized frames.old.wide frames.old.high now.old }
    ensures turns { (i : Image) (m : ℕ) (h : List ℤ) (out : List ℕ) → machine_does (rules i m) frames.old.limit (Leaves v h) (map frame_of frames.old.waiting) out ≡ next_of i result now.new frames.new h out }
    ensures line { (i : Image) → IsTurn i result }
    ensures same { SameSizes frames.new frames.old }
    ensures sized { Sized frames.old.wide frames.old.high now.new }
{
    if frames.waiting() == 0 {
        return Turn::Done;
    }
    frames.leave(now);
    if let Some(z) = v {
        if now.keeps {
            now.vals.put(z);
        }
    }
    Turn::On
}
