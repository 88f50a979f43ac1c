ghost use Rattle.std.specs.Prelude.{◌≡◌, ◌++◌, decimal, IfOk, OnOk};
ghost use Rattle.jn_exec.specs.Lines.{fault_line, fault_text, field_word, code_word, row_word, number, word};

use itoa::Buffer;
use jn_code::{CodeWhy, FieldKind, ImageFault, RowWhy};
use std::alloc::{AllocError, Global};

/// The line that tells the fault, with its line feed: `image: Short 34`.
#[tactic(auto, unfolding(crate::specs::Lines::fault_line))]
pub fn fault_line(alloc: Global, fault: ImageFault) -> Result<Vec<u8>, AllocError>
    ensures { IfOk result (λ v. v.items ≡ fault_line fault) }
{
    let mut out = Vec::new(alloc);
    put(&mut out, b"image: ")?;
    put_fault(&mut out, fault)?;
    put(&mut out, b"\n")?;
    Ok(out)
}

fn put(out: &mut Vec<u8>, text: &[u8]) -> Result<(), AllocError>
    ensures { OnOk result (out.new.items ≡ out.old.items ++ text.now) }
{
    out.extend_from_slice(text)
}

fn put_number(out: &mut Vec<u8>, n: u32) -> Result<(), AllocError>
    ensures { OnOk result (out.new.items ≡ out.old.items ++ number n) }
{
    let mut buffer = Buffer::new();
    put(out, b" ")?;
    put(out, buffer.format(n).as_bytes())
}

fn put_word(out: &mut Vec<u8>, text: &[u8]) -> Result<(), AllocError>
    ensures { OnOk result (out.new.items ≡ out.old.items ++ word text.now) }
{
    put(out, b" ")?;
    put(out, text)
}

fn put_fault(out: &mut Vec<u8>, fault: ImageFault) -> Result<(), AllocError>
    ensures { OnOk result (out.new.items ≡ out.old.items ++ fault_text fault) }
{
    match fault {
        ImageFault::BadMagic => put(out, b"BadMagic"),
        ImageFault::Short(at) => put_at(out, b"Short", at),
        ImageFault::BadField(at, kind) => put_at_word(out, b"BadField", at, field_word(kind)),
        ImageFault::Trailing(at) => put_at(out, b"Trailing", at),
        ImageFault::TooLong => put(out, b"TooLong"),
        ImageFault::BadCode(k, n, why) => put_code(out, k, n, why),
        ImageFault::BadRow(k, why) => put_at_word(out, b"BadRow", k as u32, row_word(why)),
        ImageFault::Memory => put(out, b"Memory"),
    }
}

fn put_at(out: &mut Vec<u8>, name: &[u8], at: u32) -> Result<(), AllocError>
    ensures { OnOk result (out.new.items ≡ out.old.items ++ (name.now ++ number at)) }
{
    put(out, name)?;
    put_number(out, at)
}

fn put_at_word(out: &mut Vec<u8>, name: &[u8], at: u32, text: &[u8]) -> Result<(), AllocError>
    ensures { OnOk result (out.new.items ≡ out.old.items ++ (name.now ++ (number at ++ word text.now))) }
{
    put_at(out, name, at)?;
    put_word(out, text)
}

fn put_code(out: &mut Vec<u8>, k: u32, n: u32, why: CodeWhy) -> Result<(), AllocError>
    ensures { OnOk result (out.new.items ≡ out.old.items ++ fault_text (ImageFault.BadCode k n why)) }
{
    put_at(out, b"BadCode", k)?;
    put_number(out, n)?;
    put_word(out, code_word(why))
}

fn field_word(kind: FieldKind) -> &'static [u8]
    ensures { result.now ≡ field_word kind }
{
    match kind {
        FieldKind::Kind => b"kind",
        FieldKind::Count => b"count",
        FieldKind::Order => b"order",
        FieldKind::Opcode => b"opcode",
        FieldKind::Bool => b"bool",
    }
}

fn code_word(why: CodeWhy) -> &'static [u8]
    ensures { result.now ≡ code_word why }
{
    match why {
        CodeWhy::Number => b"Number",
        CodeWhy::Local => b"Local",
        CodeWhy::Target => b"Target",
        CodeWhy::Stack => b"Stack",
        CodeWhy::Kind => b"Kind",
        CodeWhy::Join => b"Join",
        CodeWhy::End => b"End",
        CodeWhy::Start => b"Start",
    }
}

fn row_word(why: RowWhy) -> &'static [u8]
    ensures { result.now ≡ row_word why }
{
    match why {
        RowWhy::Up => b"Up",
        RowWhy::Group => b"Group",
        RowWhy::Member => b"Member",
        RowWhy::Method => b"Method",
        RowWhy::Field => b"Field",
        RowWhy::Other => b"Other",
    }
}
