ghost use Rattle.std.specs.Prelude.{◌≡◌, ◌<◌, ◌≤◌, ◌+◌, ◌^◌, length};
ghost use Rattle.jn_machine.specs.Acts.{SameRoom};
ghost use Rattle.jn_machine.specs.Does.{Does};
ghost use Rattle.jn_machine.specs.Wants.{Wants};

use crate::did::Did;
use crate::frame::Frame;
use crate::heap::Heap;
use crate::{cells, object, plain};
use jn_code::{Image, Instr};

/// Obeys one instruction, but for a call, which is still to be made.
pub fn obey(image: &Image, heap: &mut Heap, f: &mut Frame, x: Instr) -> Did
    requires wants { Wants image.now x f.old heap.old.words }
    requires place { f.old.place + 1 < 2 ^ 64 }
    requires classes { length image.now.classes ≤ 4096 }
    requires arena { heap.old.limit < 2 ^ 32 }
    ensures does { Does image.now heap.old.limit x f.old heap.old.words result f.new heap.new.words }
    ensures room { SameRoom f.old f.new }
    ensures limit { heap.new.limit ≡ heap.old.limit }
{
    match x {
        Instr::Int(z) => plain::int(f, z),
        Instr::Bool(b) => plain::boolean(f, b),
        Instr::Null => plain::null(f),
        Instr::Cls(k) => plain::class(f, k),
        Instr::Load(x) => plain::load(f, x),
        Instr::Store(x) => plain::store(f, x),
        Instr::Pop => plain::pop(f),
        Instr::Add => plain::add(f),
        Instr::Sub => plain::sub(f),
        Instr::Mul => plain::mul(f),
        Instr::Div => plain::div(f),
        Instr::Rem => plain::rem(f),
        Instr::Neg => plain::neg(f),
        Instr::Lt => plain::lt(f),
        Instr::Le => plain::le(f),
        Instr::Gt => plain::gt(f),
        Instr::Ge => plain::ge(f),
        Instr::Eqi => plain::eqi(f),
        Instr::Eqb => plain::eqb(f),
        Instr::Eqr => plain::eqr(f),
        Instr::Not => plain::not(f),
        Instr::Jump(t) => plain::jump(f, t),
        Instr::Jfalse(t) => plain::jfalse(f, t),
        Instr::Jtrue(t) => plain::jtrue(f, t),
        Instr::Viewof => plain::viewof(f),
        Instr::Up(n) => object::up(image, f, n),
        Instr::Down(name) => object::down(image, f, name),
        Instr::New => cells::make(image, heap, f),
        Instr::Ctor(s) => Did::Construct(s),
        Instr::Call(s) => Did::Call(s),
        Instr::Callat(s) => Did::CallAt(s),
        Instr::Get(s) => cells::get(image, heap, f, s),
        Instr::Put(s) => cells::put(image, heap, f, s),
        Instr::Conv => object::conv(image, f),
        Instr::Check => plain::check(f),
        Instr::Printi => plain::printi(f),
        Instr::Printb => plain::printb(f),
        Instr::Printt(t) => object::printt(image, f, t),
        Instr::Ret => plain::ret(f),
        Instr::Retv => plain::retv(f),
    }
}
