ghost use Rattle.jn_sem.specs.LawsOfHeaps.{HeapLaws};

/// A run only adds objects, cells and values of slots that had none, so that the values that are in a type stay in it.
pub fn heap_laws()
    ensures { HeapLaws }
{}
