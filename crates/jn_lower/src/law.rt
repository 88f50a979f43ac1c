ghost use Rattle.jn_lower.specs.Laws.{AddedStand, NothingStands};
ghost use Rattle.jn_lower.specs.Plainly.{NoneStands, BlockStands, DoStands, ReturnStands, EndStands, PrintStands, TextStands};
ghost use Rattle.jn_lower.specs.Stores.{LocalStands, AssignStands, SetStands};
ghost use Rattle.jn_lower.specs.Called.{NoArgsStand, OneArgStands, PostStands, NoPartsStand, LastPartStands, OnePartStands, FieldStands, CallStands, NewStands, SuperStands, BareSuperStands};
ghost use Rattle.jn_lower.specs.Composed.{ViewStands, NotStands, NegStands, ChainStands, StrictStands, DecidingStands, IfStands, WhileStands};

/// What is added at the end stands there. It does nothing.
pub fn added_stand()
    ensures { AddedStand }
{}

/// Where nothing is emitted, nothing stands. It does nothing.
pub fn nothing_stands()
    ensures { NothingStands }
{}

/// `!e` stands where its operand and NOT are emitted. It does nothing.
pub fn not_stands()
    ensures { NotStands }
{}

/// `-e` stands where its operand and NEG are emitted. It does nothing.
pub fn neg_stands()
    ensures { NegStands }
{}

/// A chain stands where its first operand and its operators are emitted. It does nothing.
pub fn chain_stands()
    ensures { ChainStands }
{}

/// An operator that evaluates both operands stands where its right operand and its own instructions are emitted, and
/// those behind it. It does nothing.
pub fn strict_stands()
    ensures { StrictStands }
{}

/// `&&` and `||` stand where their two jumps are patched. It does nothing.
pub fn deciding_stands()
    ensures { DecidingStands }
{}

/// `if` stands where its two jumps are patched. It does nothing.
pub fn if_stands()
    ensures { IfStands }
{}

/// `while` stands where its jump past the end is patched. It does nothing.
pub fn while_stands()
    ensures { WhileStands }
{}

/// No statement stands where nothing is emitted.
/// It does nothing.
pub fn none_stands()
    ensures { NoneStands }
{}

/// A block stands where its statements are emitted, and those behind it.
/// It does nothing.
pub fn block_stands()
    ensures { BlockStands }
{}

/// An expression whose value is dropped stands where it is emitted, and the statements behind it.
/// It does nothing.
pub fn do_stands()
    ensures { DoStands }
{}

/// `return` with a value stands where the value and RETV are emitted, and the statements behind it.
/// It does nothing.
pub fn return_stands()
    ensures { ReturnStands }
{}

/// `return` without a value stands where RET is emitted, and the statements behind it.
/// It does nothing.
pub fn end_stands()
    ensures { EndStands }
{}

/// `print` of a value stands where the value and what prints its type are emitted, and the statements behind it.
/// It does nothing.
pub fn print_stands()
    ensures { PrintStands }
{}

/// `print` of a text stands where PRINTT is emitted, and the statements behind it.
/// It does nothing.
pub fn text_stands()
    ensures { TextStands }
{}

/// A view change stands where its operand, the class of its target and CONV are emitted. It does nothing.
pub fn view_stands()
    ensures { ViewStands }
{}

/// A declaration of a local stands where the value and what binds the local are emitted, and the statements behind it.
/// It does nothing.
pub fn local_stands()
    ensures { LocalStands }
{}

/// An assignment stands where the value and STORE are emitted, and the statements behind it.
/// It does nothing.
pub fn assign_stands()
    ensures { AssignStands }
{}

/// An assignment to a field stands where the receiver, the value and PUT are emitted, and the statements behind it.
/// It does nothing.
pub fn set_stands()
    ensures { SetStands }
{}

/// No argument stands where nothing is emitted.
/// It does nothing.
pub fn no_args_stand()
    ensures { NoArgsStand }
{}

/// Arguments stand where the first one is emitted, and the others behind it.
/// It does nothing.
pub fn one_arg_stands()
    ensures { OneArgStands }
{}

/// What stands behind a receiver does so where the receiver is emitted, and its parts behind it.
/// It does nothing.
pub fn post_stands()
    ensures { PostStands }
{}

/// No part behind a receiver stands where nothing is emitted.
/// It does nothing.
pub fn no_parts_stand()
    ensures { NoPartsStand }
{}

/// The last part behind a receiver stands where it is emitted.
/// It does nothing.
pub fn last_part_stands()
    ensures { LastPartStands }
{}

/// Parts behind a receiver stand where the first one is emitted, and the others behind it.
/// It does nothing.
pub fn one_part_stands()
    ensures { OnePartStands }
{}

/// A field stands where GET is emitted.
/// It does nothing.
pub fn field_stands()
    ensures { FieldStands }
{}

/// A call stands where its arguments and CALL are emitted.
/// It does nothing.
pub fn call_stands()
    ensures { CallStands }
{}

/// A new object stands where its arguments, its class, NEW and the constructor are emitted.
/// It does nothing.
pub fn new_stands()
    ensures { NewStands }
{}

/// `super` with arguments stands where the first argument, what brings `this` below it, the others and CALLAT are
/// emitted.
/// It does nothing.
pub fn super_stands()
    ensures { SuperStands }
{}

/// `super` without arguments stands where `this` and CALLAT are emitted.
/// It does nothing.
pub fn bare_super_stands()
    ensures { BareSuperStands }
{}
