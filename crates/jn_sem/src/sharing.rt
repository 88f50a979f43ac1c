ghost use Rattle.jn_sem.specs.LawsOfSharing.{SharingLaws};
ghost use Rattle.jn_sem.specs.LawsOfSlots.{SlotLaws, FieldsPassThere};

/// To be related is an equivalence on classes, and counterparts go from family to family and back.
pub fn sharing_laws()
    ensures { SharingLaws }
{}

/// To have one slot for a field is an equivalence on the classes of a group that have it, and two of them have one slot
/// exactly where Diff doesn't hold. Here no class has a field with two declarations, and field types fit their classes.
pub fn slot_laws()
    ensures { SlotLaws }
{}

/// Where no class has a field with two declarations, and names stand before each bracket of a field's type, field types fit
/// their classes.
pub fn fields_pass()
    ensures { FieldsPassThere }
{}
