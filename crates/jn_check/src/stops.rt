//! Whether the end of a block can be reached.

ghost use Rattle.std.specs.Prelude.{◌≡◌};
ghost use Rattle.jn_rules.specs.Stmts.{stops, all_stop};

use jn_base::tree::Stmt;

/// Whether a statement can't be passed: `return`, a block with such a statement, an `if` with two such blocks.
#[cycle(stopping)]
fn stops(s: &Stmt) -> bool
    ensures { result ≡ stops s.now }
{
    match s {
        Stmt::Block(body) => all_stop(body.as_slice()),
        Stmt::If(_, one, other, _) => all_stop(one.as_slice()) && all_stop(other.as_slice()),
        Stmt::Return(_, _) => true,
        Stmt::Local(_, _, _, _) => false,
        Stmt::Assign(_, _) => false,
        Stmt::Set(_, _, _) => false,
        Stmt::Do(_) => false,
        Stmt::While(_, _, _) => false,
        Stmt::Print(_, _) => false,
        Stmt::PrintText(_, _) => false,
    }
}

/// Whether some statement of a block can't be passed.
#[cycle(stopping)]
pub fn all_stop(ss: &[Stmt]) -> bool
    ensures { result ≡ all_stop ss.now }
{
    for s in ss {
        if stops(s) {
            return true;
        }
    }
    false
}
