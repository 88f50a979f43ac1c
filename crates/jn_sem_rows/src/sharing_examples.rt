ghost use Rattle.jn_sem_rows.specs.SlotsExample.{Tagged, TwoSlots, Linked, Refuted};
ghost use Rattle.jn_sem_rows.specs.SlotRows.{DeepSlots, MaskedSide, AtAnHeir};
ghost use Rattle.jn_sem_rows.specs.Views.{Dispatch, FieldViews, NewObjects, NextViews};

/// Two families of one class: related classes and counterparts, a field that is one slot in both views, and one that only the
/// heir's view has. An object of either class takes 3 cells.
pub fn one_class()
    ensures { Tagged }
{}

/// A field of its family's class, where the heir's class has a further field: it has two slots.
pub fn two_slots()
    ensures { TwoSlots }
{}

/// A field of its own class, where the heir's class has no further field: it has one slot.
pub fn one_slot()
    ensures { Linked }
{}

/// A view change that sharing doesn't grant: the class and the field that refute it.
pub fn refuted()
    ensures { Refuted }
{}

/// A call runs the body at the view; a view change makes one view of another, and both are one object.
pub fn dispatch()
    ensures { Dispatch }
{}

/// A field of one slot is read and stored through two views; one that only one view has is without a value until it gets one.
pub fn field_views()
    ensures { FieldViews }
{}

/// A new object takes a cell for each slot of its group, and its own fields are 0; the term of `new` hangs on the view of `this`.
pub fn new_objects()
    ensures { NewObjects }
{}

/// What is read from a field whose type hangs on `this` is seen in the family of the view at which it is read.
pub fn next_views()
    ensures { NextViews }
{}

/// A field has two slots by those of another field alone.
pub fn deep_slots()
    ensures { DeepSlots }
{}

/// A mask on the side that is shared refutes a constraint that holds without it.
pub fn masked_side()
    ensures { MaskedSide }
{}

/// A constraint of a header at its class, and at an heir with sharing and without.
pub fn at_an_heir()
    ensures { AtAnHeir }
{}
