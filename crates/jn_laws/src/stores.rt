ghost use Rattle.jn_laws.specs.LawsOfStores.{SlotsTakeValues};

/// One slot has one type, and a value that one of its views takes fits it at each of them.
pub fn slots_take_values()
    ensures { SlotsTakeValues }
{}
