//! What the rows of an image say of a class. An entry is found by walking its list.

ghost use Rattle.std.specs.Prelude.{◌≡◌, ◌<◌, ◌^◌, IfSome};
ghost use Rattle.jn_code.specs.Machine.{up_of, ups_of, member_in, code_in, slot_in, other_in, viewed};

use crate::numbers::{reference_in, reference_word};
use jn_code::{ClassRow, Image};

/// The class of that name within a class.
pub fn member_of(row: &ClassRow, name: u16) -> Option<u16>
    ensures { result ≡ member_in row.now name }
{
    let entries = row.members.as_slice();
    for entry in entries {
        if entry.name == name {
            return Some(entry.class);
        }
    }
    None
}

/// The code that a class runs for a selector.
pub fn code_of(row: &ClassRow, selector: u32) -> Option<u32>
    ensures { result ≡ code_in row.now selector }
{
    let entries = row.methods.as_slice();
    for entry in entries {
        if entry.selector == selector {
            return Some(entry.code);
        }
    }
    None
}

/// The slot that a class reads for a selector.
pub fn slot_of(row: &ClassRow, selector: u32) -> Option<u8>
    ensures { result ≡ slot_in row.now selector }
{
    let entries = row.fields.as_slice();
    for entry in entries {
        if entry.selector == selector {
            return Some(entry.slot);
        }
    }
    None
}

/// The counterpart of a class in another family.
pub fn other_of(row: &ClassRow, family: u16) -> Option<u16>
    ensures { result ≡ other_in row.now family }
{
    let entries = row.others.as_slice();
    for entry in entries {
        if entry.family == family {
            return Some(entry.class);
        }
    }
    None
}

/// The class above, where there is one.
pub fn up_of(image: &Image, k: usize) -> Option<usize>
    ensures up { result ≡ up_of image.now k }
    ensures small { IfSome result (λ up. up < 2 ^ 16) }
{
    match image.classes.get(k) {
        Some(row) => {
            if row.up == 65535 {
                None
            } else {
                Some(row.up as usize)
            }
        }
        None => None,
    }
}

/// The class that many times above.
pub fn ups_of(image: &Image, n: u8, k: usize) -> Option<usize>
    requires { k < 2 ^ 63 }
    ensures up { result ≡ ups_of image.now n k }
    ensures small { IfSome result (λ up. up < 2 ^ 63) }
{
    let mut class = k;
    let mut left = n;
    while left > 0 {
        left -= 1;
        match up_of(image, class) {
            Some(up) => class = up,
            None => return None,
        }
    }
    Some(class)
}

/// A word viewed at its class's counterpart in a family. Null stays.
pub fn viewed(image: &Image, family: u16, z: i64) -> Option<i64>
    ensures { result ≡ viewed image.now family z }
{
    let r = match reference_in(z) {
        None => return Some(z),
        Some(r) => r,
    };
    let row = match image.classes.get(r.view as usize) {
        None => return None,
        Some(row) => row,
    };
    if row.family == family {
        return Some(z);
    }
    match other_of(row, family) {
        None => None,
        Some(k) => Some(reference_word(k, r.cell)),
    }
}
