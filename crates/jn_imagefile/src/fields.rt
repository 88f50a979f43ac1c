//! Fields of one value.

ghost use Rattle.std.specs.Prelude.{◌≤◌, IfOk};
ghost use Rattle.std.specs.Int.{w16, w32, w64};
ghost use Rattle.jn_code.specs.SpellsFields.{byte, number, signed, raw, kind_byte, at_most, at_least, truth};
ghost use Rattle.jn_imagefile.specs.Gives.{Gives};

use crate::stop::Stop;
use jn_code::FieldKind;

pub fn u8_at(bytes: &[u8]) -> Result<(u8, &[u8]), Stop>
    ensures { Gives (λ x. (x.0, x.1.now)) result (byte.read bytes.now) }
{
    match bytes {
        [] => Err(Stop::Short(0)),
        [first, rest @ ..] => Ok((*first, rest)),
    }
}

pub fn u16_at(bytes: &[u8]) -> Result<(u16, &[u8]), Stop>
    ensures { Gives (λ x. (x.0, x.1.now)) result ((number w16).read bytes.now) }
{
    if bytes.len() < 2 {
        return Err(Stop::Short(bytes.len()));
    }
    let (front, rest) = bytes.split_at(2);
    Ok((u16::from_le_bytes([front[0], front[1]]), rest))
}

pub fn u32_at(bytes: &[u8]) -> Result<(u32, &[u8]), Stop>
    ensures { Gives (λ x. (x.0, x.1.now)) result ((number w32).read bytes.now) }
{
    if bytes.len() < 4 {
        return Err(Stop::Short(bytes.len()));
    }
    let (front, rest) = bytes.split_at(4);
    let number = u32::from_le_bytes([front[0], front[1], front[2], front[3]]);
    Ok((number, rest))
}

pub fn i64_at(bytes: &[u8]) -> Result<(i64, &[u8]), Stop>
    ensures { Gives (λ x. (x.0, x.1.now)) result (signed.read bytes.now) }
{
    if bytes.len() < 8 {
        return Err(Stop::Short(bytes.len()));
    }
    let (front, rest) = bytes.split_at(8);
    let number = i64::from_le_bytes([
        front[0], front[1], front[2], front[3], front[4], front[5], front[6], front[7],
    ]);
    Ok((number, rest))
}

pub fn kind_at(bytes: &[u8], least: u8, most: u8) -> Result<(u8, &[u8]), Stop>
    ensures { Gives (λ x. (x.0, x.1.now)) result ((kind_byte least most).read bytes.now) }
{
    let (kind, rest) = u8_at(bytes)?;
    if kind < least || most < kind {
        return Err(Stop::Bad(bytes.len(), FieldKind::Kind));
    }
    Ok((kind, rest))
}

pub fn truth_at(bytes: &[u8]) -> Result<(u8, &[u8]), Stop>
    ensures { Gives (λ x. (x.0, x.1.now)) result (truth.read bytes.now) }
{
    let (value, rest) = u8_at(bytes)?;
    if 1 < value {
        return Err(Stop::Bad(bytes.len(), FieldKind::Bool));
    }
    Ok((value, rest))
}

/// A count in one byte.
pub fn small_count_at(bytes: &[u8], most: u8) -> Result<(u8, &[u8]), Stop>
    ensures reads { Gives (λ x. (x.0, x.1.now)) result ((at_most most byte).read bytes.now) }
    ensures few { IfOk result (λ x. x.0 ≤ most) }
{
    let (count, rest) = u8_at(bytes)?;
    if most < count {
        return Err(Stop::Bad(bytes.len(), FieldKind::Count));
    }
    Ok((count, rest))
}

/// A count in two bytes.
pub fn count_at(bytes: &[u8], most: u16) -> Result<(u16, &[u8]), Stop>
    ensures { Gives (λ x. (x.0, x.1.now)) result ((at_most most (number w16)).read bytes.now) }
{
    let (count, rest) = u16_at(bytes)?;
    if most < count {
        return Err(Stop::Bad(bytes.len(), FieldKind::Count));
    }
    Ok((count, rest))
}

/// The first number of an entry, in two bytes.
pub fn u16_from(bytes: &[u8], least: u64) -> Result<(u16, &[u8]), Stop>
    ensures { Gives (λ x. (x.0, x.1.now)) result ((at_least least (number w16)).read bytes.now) }
{
    let (number, rest) = u16_at(bytes)?;
    if u64::from(number) < least {
        return Err(Stop::Bad(bytes.len(), FieldKind::Order));
    }
    Ok((number, rest))
}

/// The first number of an entry, in four bytes.
pub fn u32_from(bytes: &[u8], least: u64) -> Result<(u32, &[u8]), Stop>
    ensures { Gives (λ x. (x.0, x.1.now)) result ((at_least least (number w32)).read bytes.now) }
{
    let (number, rest) = u32_at(bytes)?;
    if u64::from(number) < least {
        return Err(Stop::Bad(bytes.len(), FieldKind::Order));
    }
    Ok((number, rest))
}
