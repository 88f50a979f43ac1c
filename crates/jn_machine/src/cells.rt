//! Instructions that look at the cells: each obeys one, as the definition has it.

ghost use Rattle.std.specs.Prelude.{◌≡◌, ◌<◌, ◌≤◌, ◌+◌, ◌^◌, length};
ghost use Rattle.jn_code.specs.Machine.{field_value};
ghost use Rattle.jn_code.specs.declared.instr.Instr.TheVariants as Instr;
ghost use Rattle.jn_machine.specs.Needs.{Has, OnTop, Below, HasGroup, Reaches};
ghost use Rattle.jn_machine.specs.Acts.{SameRoom};
ghost use Rattle.jn_machine.specs.Does.{Does};

use crate::did::Did;
use crate::entries::{slot_of, viewed};
use crate::frame::Frame;
use crate::heap::Heap;
use crate::numbers::{class_in, reference_in, reference_word};
use jn_code::Image;

/// A new object of the class.
pub fn make(image: &Image, heap: &mut Heap, f: &mut Frame) -> Did
    requires has { Has 1 f.old.vals }
    requires top { OnTop (HasGroup image.now) f.old.vals.words }
    requires place { f.old.place + 1 < 2 ^ 64 }
    requires classes { length image.now.classes ≤ 4096 }
    requires arena { heap.old.limit < 2 ^ 32 }
    ensures does { Does image.now heap.old.limit Instr.New f.old heap.old.words result f.new heap.new.words }
    ensures room { SameRoom f.old f.new }
    ensures limit { heap.new.limit ≡ heap.old.limit }
{
    let k = class_in(f.vals.take());
    let group = image.classes.as_slice()[k].group;
    if group == 65535 {
        return Did::Null;
    }
    let slots = image.groups.as_slice()[group as usize].slots.len();
    let used = heap.used();
    if heap.limit() - used <= slots {
        return Did::Arena;
    }
    heap.add(group as i64, slots);
    f.vals.put(reference_word(k as u16, used as u32));
    f.place += 1;
    Did::On
}

/// What a field of that kind gives: kind 4 is viewed in the receiver's family.
fn field_value(image: &Image, kind: u8, family: u16, z: i64) -> Option<i64>
    ensures { result ≡ field_value image.now kind family z }
{
    if kind == 4 {
        return viewed(image, family, z);
    }
    Some(z)
}

/// The value of the receiver's field. It answers Null where there is none.
pub fn get(image: &Image, heap: &Heap, f: &mut Frame, s: u32) -> Did
    requires has { Has 1 f.old.vals }
    requires top { OnTop (Reaches image.now heap.now.words s) f.old.vals.words }
    requires field { s < length image.now.fields }
    requires place { f.old.place + 1 < 2 ^ 64 }
    ensures does { Does image.now heap.now.limit (Instr.Get s) f.old heap.now.words result f.new heap.now.words }
    ensures room { SameRoom f.old f.new }
{
    let r = match reference_in(f.vals.take()) {
        None => return Did::Null,
        Some(r) => r,
    };
    let row = &image.classes.as_slice()[r.view as usize];
    let slot = match slot_of(row, s) {
        None => return Did::Null,
        Some(slot) => slot,
    };
    let z = heap.get(r.cell as usize + 1 + slot as usize);
    match field_value(image, image.fields.as_slice()[s as usize], row.family, z) {
        None => Did::Null,
        Some(w) => {
            f.vals.put(w);
            f.place += 1;
            Did::On
        }
    }
}

/// To the receiver's field. It answers Null where there is none.
pub fn put(image: &Image, heap: &mut Heap, f: &mut Frame, s: u32) -> Did
    requires has { Has 2 f.old.vals }
    requires below { Below (Reaches image.now heap.old.words s) f.old.vals.words }
    requires place { f.old.place + 1 < 2 ^ 64 }
    ensures does { Does image.now heap.old.limit (Instr.Put s) f.old heap.old.words result f.new heap.new.words }
    ensures room { SameRoom f.old f.new }
    ensures limit { heap.new.limit ≡ heap.old.limit }
{
    let z = f.vals.take();
    let r = match reference_in(f.vals.take()) {
        None => return Did::Null,
        Some(r) => r,
    };
    let row = &image.classes.as_slice()[r.view as usize];
    match slot_of(row, s) {
        None => Did::Null,
        Some(slot) => {
            heap.set(r.cell as usize + 1 + slot as usize, z);
            f.place += 1;
            Did::On
        }
    }
}
