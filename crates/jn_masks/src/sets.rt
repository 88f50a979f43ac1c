ghost use Rattle.std.specs.Prelude.{◌≡◌, ◌↔◌, ◌⊎◌, ◌<◌, ℕ, IsTrue};
ghost use Rattle.std.specs.Int.{bit_at};
ghost use Rattle.jn_base.specs.Atoms.{HasMask};
ghost use Rattle.jn_masks.specs.Sets.{IsWithin};

use jn_base::types::Masks;

/// Whether the mask `i` is in the set.
pub fn has(m: Masks, i: u8) -> bool
    ensures { IsTrue result ↔ HasMask m i }
{
    (m.0[usize::from(i / 64)] >> (i % 64)) & 1 == 1
}

/// The set with the mask `i`.
pub fn add(m: Masks, i: u8) -> Masks
    ensures { (j : ℕ) → HasMask result j ↔ (HasMask m j ⊎ (j ≡ i)) }
{
    let mut words = m.0;
    words[usize::from(i / 64)] |= 1 << (i % 64);
    Masks(words)
}

/// The set without the mask `i`.
pub fn drop(m: Masks, i: u8) -> Masks
    ensures { (j : ℕ) → HasMask result j ↔ (HasMask m j × (j ≡ i → ⊥)) }
{
    let mut words = m.0;
    words[usize::from(i / 64)] &= !(1 << (i % 64));
    Masks(words)
}

/// The masks of the two sets together.
pub fn join(a: Masks, b: Masks) -> Masks
    ensures { (j : ℕ) → HasMask result j ↔ (HasMask a j ⊎ HasMask b j) }
{
    Masks([
        a.0[0] | b.0[0],
        a.0[1] | b.0[1],
        a.0[2] | b.0[2],
        a.0[3] | b.0[3],
    ])
}

/// Whether each bit of the first word is set in the second one.
fn word_within(a: u64, b: u64) -> bool
    ensures { IsTrue result ↔ ((k : ℕ) → k < 64 → bit_at a k ≡ 1 → bit_at b k ≡ 1) }
{
    a & !b == 0
}

/// Whether each mask of the first set is in the second one.
pub fn within(a: Masks, b: Masks) -> bool
    ensures { IsTrue result ↔ IsWithin a b }
{
    for w in 0..4 {
        if !word_within(a.0[w], b.0[w]) {
            return false;
        }
    }
    true
}
