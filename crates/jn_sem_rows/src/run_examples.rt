ghost use Rattle.jn_sem_rows.specs.OperatorsExample.{OperatorRows};
ghost use Rattle.jn_sem_rows.specs.TwoPrints.{SixCharges};
ghost use Rattle.jn_sem_rows.specs.VoidOperand.{VoidOperand};
ghost use Rattle.jn_sem_rows.specs.MainRuns.{Operators, Bindings, Calls, Recursion};

/// A `main` that prints two numbers runs for six charges: each of them, and the runs with six and with five.
pub fn two_prints()
    ensures { SixCharges }
{}

/// Rows of operators: equality of objects, kinds, remainders.
pub fn operator_rows()
    ensures { OperatorRows }
{}

/// A call whose result is wanted, of a body that gives none, ends the run with the charge that ended the body.
pub fn void_operand()
    ensures { VoidOperand }
{}

/// A chain of `||` is charged for each operator; no act tests the right operand of `&&`; a sum needs numbers.
pub fn operators()
    ensures { Operators }
{}

/// A value of a wrong kind that is bound is outside the declared type; null is no path.
pub fn bindings()
    ensures { Bindings }
{}

/// At a call a null receiver comes before the depth, and the depth before a null argument.
pub fn calls()
    ensures { Calls }
{}

/// A method that calls itself twice needs four frames with `main`'s, and no more.
pub fn recursion()
    ensures { Recursion }
{}
