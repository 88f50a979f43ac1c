ghost use Rattle.std.specs.Prelude.{ℕ, List, Option};
ghost use Rattle.jn_steps.specs.Runs.{Next};
ghost use Rattle.jn_steps.specs.Laws.{OutputGrows};
ghost use Rattle.jn_steps.specs.Reports.{OneOf, StepsKeep};
ghost use Rattle.jn_lockstep.specs.Together.{Together, Agree};

/// Two machines that go on together for any number of charges agree: the first has states `S`, ends `O` and steps
/// `T`, the second has states `M` and ends `Q`. It does nothing.
pub fn lockstep<S, O, T, M, Q>()
    ensures { (rate : ℕ) (from : T → S) (to : T → Next S O) (shown : S → List ℕ) (move : M → Next M Q)
        (mshown : M → List ℕ) (halts : O → Option Q) → StepsKeep (OneOf from to) shown → OutputGrows move mshown →
        (s : S) (m : M) → ((b : ℕ) → Together rate (OneOf from to) shown move mshown halts b s m rate) →
        Agree rate (OneOf from to) shown move mshown halts s m }
{}
