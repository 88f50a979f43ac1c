ghost use Rattle.std.specs.Prelude.{◌≡◌, List, ℕ, ◌∷◌, pos, negsuc, true, []};
ghost use Rattle.jn_steps.specs.Runs.{Next};
ghost use Rattle.jn_steps.specs.Laws.{OutputGrows, RunsGoOn, RunsInParts};
ghost use Rattle.jn_steps.specs.Reports.{OneOf, StepsKeep, StopsEarlier, ReportsTheRun};
ghost use Rattle.jn_steps.specs.Frames.{Rules, State, machine_step};
ghost use Rattle.jn_steps.specs.Numbers.{sum_of, difference_of, product_of, negation_of, quotient_of, remainder_of, number_line, truth_line};

/// The laws of runs, over any states `S` and outcomes `O`. It does nothing.
///
/// Where each step keeps what was put, a run with more steps goes on from where it was, and one that has ended stays as it
/// is. A run of m + n steps is one of m, and then one of n.
pub fn runs_go_on<S, O>()
    ensures go_on { (step : S → Next S O) (shown : S → List ℕ) → OutputGrows step shown → RunsGoOn step shown }
    ensures parts { (step : S → Next S O) → RunsInParts step }
{}

/// Runs of steps that are said by a relation, over any states `S`, outcomes `O` and steps `T`. It does nothing.
///
/// Where each step keeps what was put, there is a report of a run that was stopped earlier, and the later report goes on from
/// it. Where a function tells the step, the report is that of its run.
pub fn reports_stop_earlier<S, O, T>()
    ensures earlier { (from : T → S) (to : T → Next S O) (shown : S → List ℕ) → StepsKeep (OneOf from to) shown →
        StopsEarlier (OneOf from to) shown }
    ensures run { (step : S → Next S O) (shown : S → List ℕ) → ReportsTheRun step shown }
{}

/// A machine over frames `F` and a heap `H`, whatever its rules, goes on from where it was when it has more steps. It does
/// nothing.
pub fn machines_go_on<F, H, B, V, O>()
    ensures { (rules : Rules F H B V O) (depth : ℕ) → RunsGoOn (machine_step rules depth) (λ (s : State F H). s.output) }
{}

/// Worked rows of the numbers: they wrap, a quotient goes toward 0, a remainder has the sign of the dividend. It does
/// nothing.
pub fn number_rows()
    ensures sum { sum_of (pos 9223372036854775807) (pos 1) ≡ negsuc 9223372036854775807 }
    ensures difference { difference_of (pos 2) (pos 5) ≡ negsuc 2 }
    ensures product { product_of (pos 4611686018427387904) (pos 2) ≡ negsuc 9223372036854775807 }
    ensures negation { negation_of (negsuc 9223372036854775807) ≡ negsuc 9223372036854775807 }
    ensures quotient { quotient_of (negsuc 6) (pos 2) ≡ Some (negsuc 2) }
    ensures least_quotient { quotient_of (negsuc 9223372036854775807) (negsuc 0) ≡ Some (negsuc 9223372036854775807) }
    ensures no_quotient { quotient_of (pos 1) (pos 0) ≡ None }
    ensures remainder { remainder_of (negsuc 6) (pos 2) ≡ Some (negsuc 0) }
    ensures other_remainder { remainder_of (pos 7) (negsuc 1) ≡ Some (pos 1) }
    ensures no_remainder { remainder_of (pos 1) (pos 0) ≡ None }
    ensures number { number_line (negsuc 11) ≡ 45 ∷ 49 ∷ 50 ∷ 10 ∷ [] }
    ensures truth { truth_line true ≡ 116 ∷ 114 ∷ 117 ∷ 101 ∷ 10 ∷ [] }
{}
