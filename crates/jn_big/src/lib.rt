//! The generator: the source that a number from 1 to 64 stands for, and what is told of its run.
//!
//! The source is `big_source` in specs/Source.antt, what is told is `summary` in specs/Summary.antt. A run's output is
//! kept by a sink of its own, `Kept`, until it is told.
#![tactic(auto)]

ghost use Rattle.std.specs.Prelude.{◌≡◌, ◌++◌, decimal, OnOk};

pub mod examples;
mod kept;
mod report;
mod source;

use itoa::Buffer;
pub use kept::Kept;
pub use report::summary;
pub use source::big;
use std::alloc::AllocError;

fn put(out: &mut Vec<u8>, text: &[u8]) -> Result<(), AllocError>
    ensures { OnOk result (out.new.items ≡ out.old.items ++ text.now) }
{
    out.extend_from_slice(text)
}

fn put_number(out: &mut Vec<u8>, n: u8) -> Result<(), AllocError>
    ensures { OnOk result (out.new.items ≡ out.old.items ++ decimal n) }
{
    let mut buffer = Buffer::new();
    put(out, buffer.format(n).as_bytes())
}
