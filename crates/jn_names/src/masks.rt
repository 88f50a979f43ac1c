ghost use Rattle.std.specs.Prelude.{◌≡◌, ◌<◌, ◌≤◌, ◌+◌, ℕ, [], IsTrue, ◌↔◌};
ghost use Rattle.std.specs.Int.{bit_at};
ghost use Rattle.jn_base.specs.declared.tree.Program.{Program};
ghost use Rattle.jn_base.specs.Duplicates.{has_name};
ghost use Rattle.jn_base.specs.ResolveTypes.{IsMask, MasksAre, IsFieldOfAny, MaskFits, FirstUnfit};
ghost use Rattle.jn_table.specs.Rows.{HasField};
ghost use Rattle.jn_table.specs.Tables.{IsFilled};
ghost use Rattle.jn_names.specs.Masking.{seen_of, IsMaskNamed};

use crate::bound::Bound;
use jn_base::compare::is_name;
use jn_base::tree::{Name, Named};
use jn_base::types::Masks;
use jn_table::Table;

/// Whether one of the masks has the name.
fn is_named(masks: &[Named], name: Name) -> bool
    ensures { IsTrue result ↔ IsMaskNamed masks.now name }
{
    for m in masks {
        if is_name(m.name, name) {
            return true;
        }
    }
    false
}

/// Whether the mask of a number is one of these.
fn is_mask(names: &[Name], masks: &[Named], i: usize) -> bool
    ensures { IsTrue result ↔ IsMask names.now masks.now i }
{
    match names.get(i) {
        None => false,
        Some(name) => is_named(masks, *name),
    }
}

/// The word of the masks whose numbers begin at one.
fn word(names: &[Name], masks: &[Named], from: usize) -> u64
    requires { from ≤ 192 }
    ensures { (i : ℕ) → i < 64 → (bit_at result i ≡ 1) ↔ IsMask names.now masks.now (from + i) }
{
    let mut word = 0u64;
    for b in 0..64u32 {
        if is_mask(names, masks, from + b as usize) {
            word |= 1 << b;
        }
    }
    word
}

/// The set of masks, by their numbers.
pub fn masks_of(names: &[Name], masks: &[Named]) -> Masks
    ensures { MasksAre names.now masks.now result }
{
    Masks([
        word(names, masks, 0),
        word(names, masks, 64),
        word(names, masks, 128),
        word(names, masks, 192),
    ])
}

/// Whether one of the masks has the name; the definitions have the last one first.
fn stands_before(masks: &[Named], name: Name) -> bool
    ensures { result ≡ has_name (seen_of masks.now) name }
{
    let mut found = false;
    for m in masks {
        found = m.name.0 == name.0 || found;
    }
    found
}

/// Whether a mask is a field of one of the bounds.
fn is_field_of_any(t: &Table, bounds: &[Bound], name: Name) -> bool
    ensures { (p : Program) → IsFilled p t.now → IsTrue result ↔ IsFieldOfAny p bounds.now name }
{
    for b in bounds {
        if b.has_field(t, name) {
            return true;
        }
    }
    false
}

/// Whether the mask is a field, and none of those before.
fn mask_fits(t: &Table, bounds: &[Bound], before: &[Named], m: Named) -> bool
    ensures { (p : Program) → IsFilled p t.now → IsTrue result ↔ MaskFits p bounds.now (seen_of before.now) m }
{
    is_field_of_any(t, bounds, m.name) && !stands_before(before, m.name)
}

/// The first mask that is no field of any bound or stands twice.
pub fn first_unfit(t: &Table, bounds: &[Bound], masks: &[Named]) -> Option<Named>
    ensures { (p : Program) → IsFilled p t.now → FirstUnfit p bounds.now [] masks.now result }
{
    for i in 0..masks.len() {
        if !mask_fits(t, bounds, &masks[..i], masks[i]) {
            return Some(masks[i]);
        }
    }
    None
}
