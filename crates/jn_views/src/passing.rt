ghost use Rattle.std.specs.Prelude.{◌≡◌, ◌↔◌, ℕ, IsTrue, IfSome, IfNone};
ghost use Rattle.jn_base.specs.Atoms.{HasMask};
ghost use Rattle.jn_base.specs.declared.tree.Name.{Name as AName};
ghost use Rattle.jn_sem.specs.Holds.{Passes, Blocks, IsFirstName};
ghost use Rattle.jn_sem.specs.Values.{HasField, Masked};
ghost use Rattle.jn_share.specs.Slots.{HaveOneSlot};
ghost use Rattle.jn_table.specs.Tables.{IsFilledAt};
ghost use Rattle.jn_views.specs.Turning.{SaysOfSlots, SaysOfViews, masked_sides};

use jn_base::tree::Name;
use jn_base::types::Masks;
use jn_masks::has;
use jn_share::Slots;
use jn_table::{ClassId, Table};

/// Whether `i` is one of the masks, and its name is that of the field.
fn is_mask(m: Masks, i: usize, name: Name, field: Name) -> bool
    ensures { IsTrue result ↔ (HasMask m i × (name ≡ field)) }
{
    i < 256 && name.0 == field.0 && has(m, i as u8)
}

/// Whether the field is one of the masks.
pub fn is_masked(m: Masks, names: &[Name], field: Name) -> bool
    ensures { IsTrue result ↔ Masked names.now m field }
{
    for (i, name) in names.iter().enumerate() {
        if is_mask(m, i, *name, field) {
            return true;
        }
    }
    false
}

/// Whether both classes have the field, in one slot.
fn one_slot(s: &Slots, u: ClassId, w: ClassId, field: Name) -> bool
    ensures { SaysOfSlots s.now u w (λ p U W. IsTrue result ↔ HaveOneSlot p U field W field) }
{
    match s.slot(u, field) {
        None => false,
        Some(a) => match s.slot(w, field) {
            None => false,
            Some(b) => a == b,
        },
    }
}

/// Whether the field of the second class passes.
fn passes(
    s: &Slots,
    from: Masks,
    to: Masks,
    names: &[Name],
    u: ClassId,
    w: ClassId,
    field: Name,
) -> bool
    ensures { SaysOfSlots s.now u w (λ p U W. IsTrue result ↔ Passes p (masked_sides from to names.now) U W field) }
{
    if is_masked(to, names, field) {
        return true;
    }
    if is_masked(from, names, field) {
        return false;
    }
    one_slot(s, u, w, field)
}

/// The first field of the second class, by name, that doesn't pass.
pub fn first_blocked(
    t: &Table,
    s: &Slots,
    from: Masks,
    to: Masks,
    names: &[Name],
    u: ClassId,
    w: ClassId,
) -> Option<Name>
    requires { IsFilledAt t.now w }
    ensures some { IfSome result (λ f. SaysOfViews t.now s.now u w
        (λ p U W. IsFirstName p (Blocks p (masked_sides from to names.now) U W) f)) }
    ensures none { IfNone result (SaysOfViews t.now s.now u w (λ p U W. (f : AName) → HasField p W f
        → Passes p (masked_sides from to names.now) U W f)) }
{
    for field in &t.row(w).fields {
        if !passes(s, from, to, names, u, w, *field) {
            return Some(*field);
        }
    }
    None
}
