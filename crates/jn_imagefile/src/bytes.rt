//! Numbers as bytes, the lowest first.

ghost use Rattle.std.specs.Prelude.{◌≡◌, ◌<◌, ◌++◌, [], ◌∷◌, OnOk};
ghost use Rattle.std.specs.Int.{w16, w32};
ghost use Rattle.jn_code.specs.SpellsFields.{number, signed};

use std::alloc::AllocError;

pub fn put_u8(out: &mut Vec<u8>, n: u8) -> Result<(), AllocError>
    ensures { OnOk result (out.new.items ≡ out.old.items ++ n ∷ []) }
{
    out.push(n)?;
    Ok(())
}

pub fn put_u16(out: &mut Vec<u8>, n: u16) -> Result<(), AllocError>
    ensures { OnOk result (out.new.items ≡ out.old.items ++ (number w16).spelled n) }
{
    out.extend_from_slice(&n.to_le_bytes())
}

pub fn put_u32(out: &mut Vec<u8>, n: u32) -> Result<(), AllocError>
    ensures bytes { OnOk result (out.new.items ≡ out.old.items ++ (number w32).spelled n) }
    ensures fits { n < 4294967296 }
{
    out.extend_from_slice(&n.to_le_bytes())
}

pub fn put_i64(out: &mut Vec<u8>, z: i64) -> Result<(), AllocError>
    ensures { OnOk result (out.new.items ≡ out.old.items ++ signed.spelled z) }
{
    out.extend_from_slice(&z.to_le_bytes())
}
