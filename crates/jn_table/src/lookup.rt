ghost use Rattle.std.specs.Prelude.{◌≡◌, ◌↔◌, Contains, IsTrue};

use crate::class::ClassId;

/// Whether the number is in the list.
pub fn has_class(ids: &[ClassId], id: ClassId) -> bool
    ensures { IsTrue result ↔ Contains ids.now id }
{
    for other in ids {
        if is_class(*other, id) {
            return true;
        }
    }
    false
}

/// Whether the two are one number.
fn is_class(a: ClassId, b: ClassId) -> bool
    ensures { IsTrue result ↔ (a ≡ b) }
{
    a.0 == b.0
}
