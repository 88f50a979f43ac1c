//! Instructions that look at the image: each obeys one, as the definition has it.

ghost use Rattle.std.specs.Prelude.{◌<◌, ◌+◌, ◌^◌, length};
ghost use Rattle.jn_code.specs.declared.instr.Instr.TheVariants as Instr;
ghost use Rattle.jn_machine.specs.Needs.{Has, OnTop, IsClass};
ghost use Rattle.jn_machine.specs.Acts.{SameRoom};
ghost use Rattle.jn_machine.specs.Does.{InImage};

use crate::did::{Did, Line};
use crate::entries::{member_of, ups_of, viewed};
use crate::frame::Frame;
use crate::numbers::class_in;
use jn_code::Image;

/// The class that many times above. It answers Null where there is none.
pub fn up(image: &Image, f: &mut Frame, n: u8) -> Did
    requires has { Has 1 f.old.vals }
    requires place { f.old.place + 1 < 2 ^ 64 }
    ensures does { InImage image.now (Instr.Up n) f.old result f.new }
    ensures room { SameRoom f.old f.new }
{
    let z = f.vals.take();
    match ups_of(image, n, class_in(z)) {
        None => Did::Null,
        Some(k) => {
            f.vals.put(k as i64);
            f.place += 1;
            Did::On
        }
    }
}

/// The class of that name within the class. It answers Null where there is none.
pub fn down(image: &Image, f: &mut Frame, name: u16) -> Did
    requires has { Has 1 f.old.vals }
    requires top { OnTop (IsClass image.now) f.old.vals.words }
    requires place { f.old.place + 1 < 2 ^ 64 }
    ensures does { InImage image.now (Instr.Down name) f.old result f.new }
    ensures room { SameRoom f.old f.new }
{
    let z = f.vals.take();
    match member_of(&image.classes.as_slice()[class_in(z)], name) {
        None => Did::Null,
        Some(k) => {
            f.vals.put(k as i64);
            f.place += 1;
            Did::On
        }
    }
}

/// The reference, viewed in the class's family. It answers Null where it has no counterpart there.
pub fn conv(image: &Image, f: &mut Frame) -> Did
    requires has { Has 2 f.old.vals }
    requires top { OnTop (IsClass image.now) f.old.vals.words }
    requires place { f.old.place + 1 < 2 ^ 64 }
    ensures does { InImage image.now Instr.Conv f.old result f.new }
    ensures room { SameRoom f.old f.new }
{
    let k = f.vals.take();
    let z = f.vals.take();
    match viewed(image, image.classes.as_slice()[class_in(k)].family, z) {
        None => Did::Null,
        Some(w) => {
            f.vals.put(w);
            f.place += 1;
            Did::On
        }
    }
}

/// The text of that number is to be printed.
pub fn printt(image: &Image, f: &mut Frame, t: u32) -> Did
    requires there { t < length image.now.texts }
    requires place { f.old.place + 1 < 2 ^ 64 }
    ensures does { InImage image.now (Instr.Printt t) f.old result f.new }
    ensures room { SameRoom f.old f.new }
{
    f.place += 1;
    Did::Print(Line::Text(t))
}
