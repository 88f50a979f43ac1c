//! Worked rows of the machine and of validity, over a small image. Each function does nothing.

ghost use Rattle.std.specs.Prelude.{◌≡◌, ◌++◌, ◌∷◌, [], pos, negsuc, false, true};
ghost use Rattle.jn_steps.specs.Numbers.{number_line, truth_line, line_of};
ghost use Rattle.jn_code.specs.Machine.{Done, Null, Zero, Arena, Depth};
ghost use Rattle.jn_code.specs.Form.{InForm, Ascends, IsKind, IsFieldKind, IsResultKind};
ghost use Rattle.jn_code.specs.Valid.{first_fault};
ghost use Rattle.jn_code.specs.Example.{Runs, RunsWithin, code_fault, row_fault, slots_fault, row, rows, world_of, plain_image, start_code, adder, seven};

use crate::fault::{CodeWhy, ImageFault, RowWhy};
use crate::instr::Instr;

/// Numbers and truth values: the earlier operand is the left one, and a quotient goes toward 0.
pub fn number_rows()
    ensures sub { Runs (Instr.Int (pos 3) ∷ Instr.Int (pos 4) ∷ Instr.Sub ∷ Instr.Printi ∷ Instr.Ret ∷
        []) Done (number_line (negsuc 0)) }
    ensures mul { Runs (Instr.Int (negsuc 2) ∷ Instr.Int (pos 4) ∷ Instr.Mul ∷ Instr.Printi ∷
        Instr.Ret ∷ []) Done (number_line (negsuc 11)) }
    ensures div { Runs (Instr.Int (negsuc 6) ∷ Instr.Int (pos 2) ∷ Instr.Div ∷ Instr.Printi ∷
        Instr.Ret ∷ []) Done (number_line (negsuc 2)) }
    ensures rem { Runs (Instr.Int (negsuc 6) ∷ Instr.Int (pos 2) ∷ Instr.Rem ∷ Instr.Printi ∷
        Instr.Ret ∷ []) Done (number_line (negsuc 0)) }
    ensures least_div { Runs (Instr.Int (negsuc 9223372036854775807) ∷ Instr.Int (negsuc 0) ∷ Instr.Div ∷
        Instr.Printi ∷ Instr.Ret ∷ []) Done (number_line (negsuc 9223372036854775807)) }
    ensures least_rem { Runs (Instr.Int (negsuc 9223372036854775807) ∷ Instr.Int (negsuc 0) ∷ Instr.Rem ∷
        Instr.Printi ∷ Instr.Ret ∷ []) Done (number_line (pos 0)) }
    ensures div_zero { Runs (Instr.Printt 0 ∷ Instr.Int (pos 1) ∷ Instr.Int (pos 0) ∷ Instr.Div ∷
        Instr.Printi ∷ Instr.Ret ∷ []) Zero (104 ∷ 105 ∷ 10 ∷ []) }
    ensures rem_zero { Runs (Instr.Int (pos 1) ∷ Instr.Int (pos 0) ∷ Instr.Rem ∷ Instr.Printi ∷ Instr.Ret ∷
        []) Zero [] }
    ensures neg { Runs (Instr.Int (negsuc 9223372036854775807) ∷ Instr.Neg ∷ Instr.Printi ∷ Instr.Ret ∷
        []) Done (number_line (negsuc 9223372036854775807)) }
    ensures wraps { Runs (Instr.Int (pos 9223372036854775807) ∷ Instr.Int (pos 1) ∷ Instr.Add ∷
        Instr.Printi ∷ Instr.Ret ∷ []) Done (number_line (negsuc 9223372036854775807)) }
    ensures lt { Runs (Instr.Int (negsuc 0) ∷ Instr.Int (pos 0) ∷ Instr.Lt ∷ Instr.Printb ∷
        Instr.Int (pos 0) ∷ Instr.Int (pos 0) ∷ Instr.Lt ∷ Instr.Printb ∷ Instr.Ret ∷ [])
        Done (truth_line true ++ truth_line false) }
    ensures le { Runs (Instr.Int (pos 0) ∷ Instr.Int (pos 0) ∷ Instr.Le ∷ Instr.Printb ∷
        Instr.Int (pos 1) ∷ Instr.Int (pos 0) ∷ Instr.Le ∷ Instr.Printb ∷ Instr.Ret ∷ [])
        Done (truth_line true ++ truth_line false) }
    ensures gt { Runs (Instr.Int (pos 1) ∷ Instr.Int (pos 0) ∷ Instr.Gt ∷ Instr.Printb ∷
        Instr.Int (pos 0) ∷ Instr.Int (pos 0) ∷ Instr.Gt ∷ Instr.Printb ∷ Instr.Ret ∷ [])
        Done (truth_line true ++ truth_line false) }
    ensures ge { Runs (Instr.Int (pos 0) ∷ Instr.Int (pos 0) ∷ Instr.Ge ∷ Instr.Printb ∷
        Instr.Int (negsuc 0) ∷ Instr.Int (pos 0) ∷ Instr.Ge ∷ Instr.Printb ∷
        Instr.Ret ∷ []) Done (truth_line true ++ truth_line false) }
    ensures eqi { Runs (Instr.Int (negsuc 0) ∷ Instr.Int (negsuc 0) ∷ Instr.Eqi ∷ Instr.Printb ∷
        Instr.Int (pos 1) ∷ Instr.Int (negsuc 0) ∷ Instr.Eqi ∷ Instr.Printb ∷
        Instr.Ret ∷ []) Done (truth_line true ++ truth_line false) }
    ensures eqb { Runs (Instr.Bool 1 ∷ Instr.Bool 1 ∷ Instr.Eqb ∷ Instr.Printb ∷ Instr.Bool 1 ∷
        Instr.Bool 0 ∷ Instr.Eqb ∷ Instr.Not ∷ Instr.Not ∷ Instr.Printb ∷ Instr.Ret ∷ [])
        Done (truth_line true ++ truth_line false) }
{}

/// Locals begin as 0, false and null; a jump goes to the instruction that it names.
pub fn local_rows()
    ensures zeros { Runs (Instr.Load 1 ∷ Instr.Printi ∷ Instr.Load 2 ∷ Instr.Printb ∷ Instr.Load 0 ∷
        Instr.Null ∷ Instr.Eqr ∷ Instr.Printb ∷ Instr.Ret ∷ [])
        Done (number_line (pos 0) ++ truth_line false ++ truth_line true) }
    ensures store { Runs (Instr.Int (pos 8) ∷ Instr.Store 1 ∷ Instr.Load 1 ∷ Instr.Load 1 ∷ Instr.Pop ∷
        Instr.Printi ∷ Instr.Ret ∷ []) Done (number_line (pos 8)) }
    ensures jump { Runs (Instr.Jump 3 ∷ Instr.Int (pos 1) ∷ Instr.Printi ∷ Instr.Int (pos 2) ∷
        Instr.Printi ∷ Instr.Ret ∷ []) Done (number_line (pos 2)) }
    ensures jfalse { Runs (Instr.Bool 0 ∷ Instr.Jfalse 4 ∷ Instr.Int (pos 1) ∷ Instr.Printi ∷
        Instr.Bool 1 ∷ Instr.Jfalse 8 ∷ Instr.Int (pos 3) ∷ Instr.Printi ∷ Instr.Ret ∷
        []) Done (number_line (pos 3)) }
    ensures jtrue { Runs (Instr.Bool 1 ∷ Instr.Jtrue 4 ∷ Instr.Int (pos 1) ∷ Instr.Printi ∷
        Instr.Bool 0 ∷ Instr.Jtrue 8 ∷ Instr.Int (pos 3) ∷ Instr.Printi ∷ Instr.Ret ∷ [])
        Done (number_line (pos 3)) }
{}

/// Objects and views: two views of one object are equal references, and a field of kind 4 is read in the family of its
/// object's view.
pub fn view_rows()
    ensures one_object { Runs (Instr.Cls 1 ∷ Instr.New ∷ Instr.Store 0 ∷ Instr.Load 0 ∷ Instr.Load 0 ∷
        Instr.Cls 3 ∷ Instr.Conv ∷ Instr.Eqr ∷ Instr.Printb ∷ Instr.Ret ∷ [])
        Done (truth_line true) }
    ensures two_objects { Runs (Instr.Cls 1 ∷ Instr.New ∷ Instr.Cls 1 ∷ Instr.New ∷ Instr.Eqr ∷ Instr.Printb ∷
        Instr.Ret ∷ []) Done (truth_line false) }
    ensures not_null { Runs (Instr.Cls 1 ∷ Instr.New ∷ Instr.Null ∷ Instr.Eqr ∷ Instr.Printb ∷ Instr.Ret ∷ []) Done (truth_line false) }
    ensures fields { Runs (Instr.Cls 1 ∷ Instr.New ∷ Instr.Store 0 ∷ Instr.Load 0 ∷ Instr.Int (pos 5) ∷
        Instr.Put 0 ∷ Instr.Load 0 ∷ Instr.Get 0 ∷ Instr.Printi ∷ Instr.Load 0 ∷
        Instr.Get 1 ∷ Instr.Null ∷ Instr.Eqr ∷ Instr.Printb ∷ Instr.Ret ∷ [])
        Done (number_line (pos 5) ++ truth_line true) }
    ensures shared { Runs (Instr.Cls 1 ∷ Instr.New ∷ Instr.Store 0 ∷ Instr.Load 0 ∷ Instr.Int (pos 5) ∷
        Instr.Put 0 ∷ Instr.Load 0 ∷ Instr.Cls 2 ∷ Instr.Conv ∷ Instr.Get 0 ∷
        Instr.Printi ∷ Instr.Ret ∷ []) Done (number_line (pos 5)) }
    ensures read_in_family { Runs (Instr.Cls 1 ∷ Instr.New ∷ Instr.Store 0 ∷ Instr.Load 0 ∷ Instr.Load 0 ∷
        Instr.Int (pos 5) ∷ Instr.Put 0 ∷ Instr.Load 0 ∷ Instr.Put 1 ∷ Instr.Load 0 ∷
        Instr.Cls 3 ∷ Instr.Conv ∷ Instr.Get 1 ∷ Instr.Int (pos 7) ∷ Instr.Call 0 ∷
        Instr.Printi ∷ Instr.Ret ∷ []) Done (number_line (pos 7)) }
    ensures no_counterpart { Runs (Instr.Cls 1 ∷ Instr.New ∷ Instr.Cls 4 ∷ Instr.Conv ∷ Instr.Store 0 ∷
        Instr.Ret ∷ []) Null [] }
    ensures null_stays { Runs (Instr.Null ∷ Instr.Cls 4 ∷ Instr.Conv ∷ Instr.Store 0 ∷ Instr.Ret ∷ []) Done [] }
    ensures viewof { Runs (Instr.Cls 3 ∷ Instr.New ∷ Instr.Viewof ∷ Instr.Up 1 ∷ Instr.Down 0 ∷
        Instr.New ∷ Instr.Int (pos 7) ∷ Instr.Call 0 ∷ Instr.Printi ∷ Instr.Ret ∷ [])
        Done (number_line (pos 7)) }
    ensures viewof_null { Runs (Instr.Null ∷ Instr.Viewof ∷ Instr.Pop ∷ Instr.Ret ∷ []) Null [] }
    ensures up_none { Runs (Instr.Cls 1 ∷ Instr.Up 2 ∷ Instr.Pop ∷ Instr.Ret ∷ []) Null [] }
    ensures up_itself { Runs (Instr.Cls 4 ∷ Instr.Up 0 ∷ Instr.Pop ∷ Instr.Ret ∷ []) Done [] }
    ensures down_none { Runs (Instr.Cls 0 ∷ Instr.Down 1 ∷ Instr.Pop ∷ Instr.Ret ∷ []) Null [] }
    ensures a_package { Runs (Instr.Cls 0 ∷ Instr.New ∷ Instr.Pop ∷ Instr.Ret ∷ []) Null [] }
    ensures check_null { Runs (Instr.Null ∷ Instr.Check ∷ Instr.Pop ∷ Instr.Ret ∷ []) Null [] }
    ensures check_object { Runs (Instr.Cls 1 ∷ Instr.New ∷ Instr.Check ∷ Instr.Pop ∷ Instr.Ret ∷ []) Done [] }
    ensures get_null { Runs (Instr.Null ∷ Instr.Get 0 ∷ Instr.Pop ∷ Instr.Ret ∷ []) Null [] }
    ensures put_null { Runs (Instr.Null ∷ Instr.Int (pos 1) ∷ Instr.Put 0 ∷ Instr.Ret ∷ []) Null [] }
    ensures arena_full { Runs (Instr.Cls 1 ∷ Instr.New ∷ Instr.Pop ∷ Instr.Cls 1 ∷ Instr.New ∷ Instr.Pop ∷
        Instr.Cls 1 ∷ Instr.New ∷ Instr.Pop ∷ Instr.Printt 0 ∷ Instr.Cls 1 ∷
        Instr.New ∷ Instr.Pop ∷ Instr.Ret ∷ []) Arena (104 ∷ 105 ∷ 10 ∷ []) }
    ensures last_cell { RunsWithin 3 2 (Instr.Cls 1 ∷ Instr.New ∷ Instr.Pop ∷ Instr.Ret ∷ []) Done }
    ensures past_the_last { RunsWithin 2 2 (Instr.Cls 1 ∷ Instr.New ∷ Instr.Pop ∷ Instr.Ret ∷ []) Arena }
{}

/// Calls: the code is that of the view, or of the class that is named; the depth counts each frame but the first.
pub fn call_rows()
    ensures by_view { Runs (Instr.Cls 1 ∷ Instr.New ∷ Instr.Store 0 ∷ Instr.Load 0 ∷ Instr.Int (pos 5) ∷
        Instr.Put 0 ∷ Instr.Load 0 ∷ Instr.Int (pos 7) ∷ Instr.Call 0 ∷ Instr.Printi ∷
        Instr.Load 0 ∷ Instr.Cls 3 ∷ Instr.Conv ∷ Instr.Int (pos 7) ∷ Instr.Call 0 ∷
        Instr.Printi ∷ Instr.Ret ∷ []) Done (number_line (pos 12) ++ number_line (pos 7)) }
    ensures by_class { Runs (Instr.Cls 3 ∷ Instr.New ∷ Instr.Store 0 ∷ Instr.Load 0 ∷ Instr.Int (pos 5) ∷
        Instr.Put 0 ∷ Instr.Load 0 ∷ Instr.Int (pos 7) ∷ Instr.Cls 1 ∷ Instr.Callat 0 ∷
        Instr.Printi ∷ Instr.Ret ∷ []) Done (number_line (pos 12)) }
    ensures null { Runs (Instr.Null ∷ Instr.Int (pos 7) ∷ Instr.Call 0 ∷ Instr.Printi ∷ Instr.Ret ∷ []) Null [] }
    ensures null_at { Runs (Instr.Null ∷ Instr.Int (pos 7) ∷ Instr.Cls 1 ∷ Instr.Callat 0 ∷ Instr.Printi ∷
        Instr.Ret ∷ []) Null [] }
    ensures no_entry { Runs (Instr.Cls 1 ∷ Instr.New ∷ Instr.Int (pos 7) ∷ Instr.Call 1 ∷ Instr.Ret ∷ []) Null [] }
    ensures no_entry_at { Runs (Instr.Cls 1 ∷ Instr.New ∷ Instr.Int (pos 7) ∷ Instr.Cls 1 ∷ Instr.Callat 1 ∷
        Instr.Ret ∷ []) Null [] }
    ensures constructor { Runs (Instr.Int (pos 7) ∷ Instr.Cls 1 ∷ Instr.New ∷ Instr.Ctor 0 ∷ Instr.Get 0 ∷
        Instr.Printi ∷ Instr.Ret ∷ []) Done (number_line (pos 0)) }
    ensures no_constructor { Runs (Instr.Int (pos 7) ∷ Instr.Cls 1 ∷ Instr.New ∷ Instr.Ctor 1 ∷ Instr.Get 0 ∷
        Instr.Printi ∷ Instr.Ret ∷ []) Done (number_line (pos 0)) }
    ensures null_constructor { Runs (Instr.Int (pos 7) ∷ Instr.Null ∷ Instr.Ctor 1 ∷ Instr.Pop ∷ Instr.Ret ∷ []) Null [] }
    ensures call_in_depth { RunsWithin 9 1 (Instr.Cls 1 ∷ Instr.New ∷ Instr.Int (pos 7) ∷ Instr.Call 0 ∷ Instr.Pop ∷
        Instr.Ret ∷ []) Done }
    ensures call_too_deep { RunsWithin 9 0 (Instr.Cls 1 ∷ Instr.New ∷ Instr.Int (pos 7) ∷ Instr.Call 0 ∷ Instr.Pop ∷
        Instr.Ret ∷ []) Depth }
    ensures callat_too_deep { RunsWithin 9 0 (Instr.Cls 1 ∷ Instr.New ∷ Instr.Int (pos 7) ∷ Instr.Cls 3 ∷ Instr.Callat 0 ∷
        Instr.Pop ∷ Instr.Ret ∷ []) Depth }
    ensures ctor_too_deep { RunsWithin 9 0 (Instr.Int (pos 7) ∷ Instr.Cls 1 ∷ Instr.New ∷ Instr.Ctor 0 ∷ Instr.Pop ∷
        Instr.Ret ∷ []) Depth }
    ensures ctor_without_code { RunsWithin 9 0 (Instr.Int (pos 7) ∷ Instr.Cls 1 ∷ Instr.New ∷ Instr.Ctor 1 ∷ Instr.Pop ∷
        Instr.Ret ∷ []) Done }
{}

/// The causes at an instruction, and which comes first.
pub fn code_fault_rows()
    ensures no_text { code_fault (Instr.Printt 1 ∷ Instr.Ret ∷ []) ≡ Some (ImageFault.BadCode 0 0 CodeWhy.Number) }
    ensures no_class { code_fault (Instr.Cls 5 ∷ Instr.Pop ∷ Instr.Ret ∷ []) ≡ Some (ImageFault.BadCode 0 0 CodeWhy.Number) }
    ensures wrong_shape { code_fault (Instr.Call 2 ∷ Instr.Ret ∷ []) ≡ Some (ImageFault.BadCode 0 0 CodeWhy.Number) }
    ensures field { code_fault (Instr.Get 2 ∷ Instr.Ret ∷ []) ≡ Some (ImageFault.BadCode 0 0 CodeWhy.Number) }
    ensures no_local { code_fault (Instr.Load 3 ∷ Instr.Pop ∷ Instr.Ret ∷ []) ≡ Some (ImageFault.BadCode 0 0 CodeWhy.Local) }
    ensures local_before_stack { code_fault (Instr.Store 3 ∷ Instr.Ret ∷ []) ≡ Some (ImageFault.BadCode 0 0 CodeWhy.Local) }
    ensures no_target { code_fault (Instr.Jump 2 ∷ Instr.Ret ∷ []) ≡ Some (ImageFault.BadCode 0 0 CodeWhy.Target) }
    ensures target_before_stack { code_fault (Instr.Jfalse 9 ∷ Instr.Ret ∷ []) ≡ Some (ImageFault.BadCode 0 0 CodeWhy.Target) }
    ensures too_few { code_fault (Instr.Int (pos 1) ∷ Instr.Add ∷ Instr.Pop ∷ Instr.Ret ∷ []) ≡ Some (ImageFault.BadCode 0 1 CodeWhy.Stack) }
    ensures too_many { code_fault (Instr.Int (pos 1) ∷ Instr.Int (pos 1) ∷ Instr.Int (pos 1) ∷ Instr.Int (pos 1) ∷
        Instr.Int (pos 1) ∷ Instr.Ret ∷ []) ≡ Some (ImageFault.BadCode 0 4 CodeWhy.Stack) }
    ensures stack_before_kind { code_fault (Instr.Bool 1 ∷ Instr.Add ∷ Instr.Pop ∷ Instr.Ret ∷ []) ≡ Some (ImageFault.BadCode 0 1 CodeWhy.Stack) }
    ensures kind { code_fault (Instr.Int (pos 1) ∷ Instr.Not ∷ Instr.Pop ∷ Instr.Ret ∷ []) ≡ Some (ImageFault.BadCode 0 1 CodeWhy.Kind) }
    ensures printed_kind { code_fault (Instr.Bool 1 ∷ Instr.Printi ∷ Instr.Ret ∷ []) ≡ Some (ImageFault.BadCode 0 1 CodeWhy.Kind) }
    ensures printed_reference { code_fault (Instr.Null ∷ Instr.Printi ∷ Instr.Ret ∷ []) ≡ Some (ImageFault.BadCode 0 1 CodeWhy.Kind) }
    ensures printed_number { code_fault (Instr.Int (pos 1) ∷ Instr.Printb ∷ Instr.Ret ∷ []) ≡ Some (ImageFault.BadCode 0 1 CodeWhy.Kind) }
    ensures stored_kind { code_fault (Instr.Int (pos 1) ∷ Instr.Store 0 ∷ Instr.Ret ∷ []) ≡ Some (ImageFault.BadCode 0 1 CodeWhy.Kind) }
    ensures result { code_fault (Instr.Int (pos 1) ∷ Instr.Retv ∷ []) ≡ Some (ImageFault.BadCode 0 1 CodeWhy.Kind) }
    ensures result_of_nothing { code_fault (Instr.Retv ∷ []) ≡ Some (ImageFault.BadCode 0 0 CodeWhy.Stack) }
    ensures kind_of_field { code_fault (Instr.Cls 1 ∷ Instr.New ∷ Instr.Int (pos 1) ∷ Instr.Put 1 ∷ Instr.Ret ∷ []) ≡ Some (ImageFault.BadCode 0 3 CodeWhy.Kind) }
    ensures other_kinds { code_fault (Instr.Bool 1 ∷ Instr.Jfalse 3 ∷ Instr.Int (pos 1) ∷ Instr.Ret ∷ []) ≡ Some (ImageFault.BadCode 0 2 CodeWhy.Join) }
    ensures a_loop { code_fault (Instr.Int (pos 1) ∷ Instr.Jump 0 ∷ []) ≡ Some (ImageFault.BadCode 0 1 CodeWhy.Join) }
    ensures one_target_only { code_fault (Instr.Bool 0 ∷ Instr.Jtrue 4 ∷ Instr.Int (pos 1) ∷ Instr.Pop ∷
        Instr.Int (pos 1) ∷ Instr.Jump 4 ∷ []) ≡ Some (ImageFault.BadCode 0 5 CodeWhy.Join) }
    ensures goes_past_the_end { code_fault (Instr.Int (pos 1) ∷ Instr.Pop ∷ []) ≡ Some (ImageFault.BadCode 0 1 CodeWhy.End) }
    ensures dead_code { code_fault (Instr.Ret ∷ Instr.Pop ∷ Instr.Ret ∷ []) ≡ Some (ImageFault.BadCode 0 1 CodeWhy.Stack) }
    ensures empty { code_fault [] ≡ Some (ImageFault.BadCode 0 0 CodeWhy.End) }
{}

/// The causes at a class, and that a class comes before a code.
pub fn row_fault_rows()
    ensures family { row_fault (row 65535 3 65535) ≡ Some (ImageFault.BadRow 4 RowWhy.Up) }
    ensures up_itself { row_fault (row 4 4 65535) ≡ Some (ImageFault.BadRow 4 RowWhy.Up) }
    ensures up_of_another_family { row_fault (row 2 0 65535) ≡ Some (ImageFault.BadRow 4 RowWhy.Up) }
    ensures group { row_fault (row 0 0 1) ≡ Some (ImageFault.BadRow 4 RowWhy.Group) }
    ensures member { row_fault (record (row 65535 4 65535) { members = record { name = 0; class = 1 } ∷ [] }) ≡ Some (ImageFault.BadRow 4 RowWhy.Member) }
    ensures no_member { row_fault (record (row 65535 4 65535) { members = record { name = 0; class = 5 } ∷ [] }) ≡ Some (ImageFault.BadRow 4 RowWhy.Member) }
    ensures wrong_shape { row_fault (record (row 0 0 0) { methods = record { selector = 1; code = 1 } ∷ [] }) ≡ Some (ImageFault.BadRow 4 RowWhy.Method) }
    ensures method_of_start { row_fault (record (row 0 0 0) { methods = record { selector = 0; code = 0 } ∷ [] }) ≡ Some (ImageFault.BadRow 4 RowWhy.Method) }
    ensures no_code { row_fault (record (row 0 0 0) { methods = record { selector = 0; code = 3 } ∷ [] }) ≡ Some (ImageFault.BadRow 4 RowWhy.Method) }
    ensures no_selector { row_fault (record (row 0 0 0) { methods = record { selector = 2; code = 1 } ∷ [] }) ≡ Some (ImageFault.BadRow 4 RowWhy.Method) }
    ensures no_group { row_fault (record (row 0 0 65535) { fields = record { selector = 0; slot = 0 } ∷ [] }) ≡ Some (ImageFault.BadRow 4 RowWhy.Field) }
    ensures no_slot { row_fault (record (row 0 0 0) { fields = record { selector = 0; slot = 2 } ∷ [] }) ≡ Some (ImageFault.BadRow 4 RowWhy.Field) }
    ensures slot_kind { row_fault (record (row 0 0 0) { fields = record { selector = 0; slot = 1 } ∷ [] }) ≡ Some (ImageFault.BadRow 4 RowWhy.Field) }
    ensures truth_slot { slots_fault (2 ∷ 3 ∷ []) ≡ Some (ImageFault.BadRow 1 RowWhy.Field) }
    ensures number_slot { slots_fault (1 ∷ 3 ∷ []) ≡ None }
    ensures no_field { row_fault (record (row 0 0 0) { fields = record { selector = 2; slot = 0 } ∷ [] }) ≡ Some (ImageFault.BadRow 4 RowWhy.Field) }
    ensures other_group { row_fault (record (row 0 0 0) { others = record { family = 2; class = 2 } ∷ [] }) ≡ Some (ImageFault.BadRow 4 RowWhy.Other) }
    ensures other_family { row_fault (record (row 0 0 0) { others = record { family = 0; class = 3 } ∷ [] }) ≡ Some (ImageFault.BadRow 4 RowWhy.Other) }
    ensures no_group_no_other { row_fault (record (row 0 0 65535) { others = record { family = 2; class = 2 } ∷ [] }) ≡ Some (ImageFault.BadRow 4 RowWhy.Other) }
    ensures group_before_member { row_fault (record (row 0 0 1) { members = record { name = 0; class = 1 } ∷ [] }) ≡ Some (ImageFault.BadRow 4 RowWhy.Group) }
    ensures good { row_fault (record (row 0 0 0) { others = record { family = 2; class = 3 } ∷ [] }) ≡ None }
{}

/// The start comes last: it has to be there, with no parameters and no result.
pub fn start_rows()
    ensures no_code { first_fault (record (plain_image 1 seven) { start = 1 }) ≡ Some (ImageFault.BadCode 1 0 CodeWhy.Start) }
    ensures parameters { first_fault (world_of rows adder) ≡ Some (ImageFault.BadCode 0 0 CodeWhy.Start) }
    ensures code_first { first_fault (record (plain_image 0 seven) { start = 1 }) ≡ Some (ImageFault.BadCode 0 0 CodeWhy.Stack) }
{}

/// Which images are in form.
pub fn form_rows()
    ensures plain { InForm (plain_image 1 seven) }
    ensures truth { InForm (plain_image 1 (Instr.Bool 2 ∷ [])) → ⊥ }
    ensures stack { InForm (plain_image 4097 seven) → ⊥ }
    ensures ascending { Ascends (1 ∷ 2 ∷ 4 ∷ []) }
    ensures equal { Ascends (1 ∷ 2 ∷ 2 ∷ []) → ⊥ }
    ensures kind { IsKind 4 → ⊥ }
    ensures no_kind { IsKind 0 → ⊥ }
    ensures field_kind { IsFieldKind 4 }
    ensures no_result { IsResultKind 0 }
    ensures result { IsResultKind 4 → ⊥ }
{}
