//! How large the frames of an image's codes are.

ghost use Rattle.std.specs.Prelude.{◌≡◌, ◌≤◌, ◌+◌, All, length};
ghost use Rattle.jn_code.specs.Form.{InForm};
ghost use Rattle.jn_machine.specs.Calls.{IsWide, IsHigh};

use jn_code::{Code, Image};

/// How many variables a code has.
fn width_of(code: &Code) -> usize
    ensures { result ≡ length code.now.params + length code.now.locals }
{
    code.params.as_slice().len() + code.locals.as_slice().len()
}

/// As many variables as the code with the most of them has.
pub fn widest(image: &Image) -> usize
    requires { InForm image.now }
    ensures all { All (IsWide result) image.now.codes }
    ensures most { result ≤ 255 }
{
    let codes = image.codes.as_slice();
    let mut wide: usize = 0;
    for code in codes {
        wide = wide.max(width_of(code));
    }
    wide
}

/// As many operands as the code with the most of them has.
pub fn highest(image: &Image) -> usize
    requires { InForm image.now }
    ensures all { All (IsHigh result) image.now.codes }
    ensures most { result ≤ 4096 }
{
    let codes = image.codes.as_slice();
    let mut high: usize = 0;
    for code in codes {
        high = high.max(code.stack as usize);
    }
    high
}
