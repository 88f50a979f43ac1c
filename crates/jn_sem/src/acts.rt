ghost use Rattle.jn_sem.specs.LawsOfActs.{ActsAre};

/// What each form of expression and statement has to do, form by form.
pub fn acts_are()
    ensures { ActsAre }
{}
