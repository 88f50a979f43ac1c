ghost use Rattle.jn_sem.specs.LawsOfFinding.{FindsOne, FindsOneIn};

/// What a step of the meaning asks of the terms, counterparts and sizes of a program has one answer at most.
pub fn finds_one()
    ensures { FindsOne }
{}

/// What it asks of bodies, fields and slots has one answer at most, where steps 4 and 5 of the verdict refuse nothing.
pub fn finds_one_in()
    ensures { FindsOneIn }
{}
