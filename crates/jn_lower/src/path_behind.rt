ghost use Rattle.std.specs.Prelude.{◌≡◌, suc, IfSome};
ghost use Rattle.jn_sem.specs.Acts.{path_behind, in_body};

use jn_base::tree::Stmt;

/// The number behind a number of the machine, where it is one.
pub fn next_number(n: usize) -> Option<usize>
    ensures { IfSome result (λ m. m ≡ suc n) }
{
    if n == usize::MAX {
        return None;
    }
    Some(n + 1)
}

/// The number of the next local behind the statements, where it is a number of the machine.
#[cycle(locals)]
pub fn path_behind(ss: &[Stmt], path: usize) -> Option<usize>
    ensures { IfSome result (λ n. n ≡ path_behind ss.now path) }
{
    let mut at = path;
    for s in ss {
        match path_after(s, at) {
            None => return None,
            Some(next) => at = next,
        }
    }
    Some(at)
}

/// The number of the next local behind a statement.
#[cycle(locals)]
fn path_after(s: &Stmt, path: usize) -> Option<usize>
    ensures { IfSome result (λ n. n ≡ (in_body s.now).path_after path) }
{
    match s {
        Stmt::Block(body) => path_behind(body.as_slice(), path),
        Stmt::Local(_, _, _, _) => next_number(path),
        Stmt::If(_, one, other, _) => match path_behind(one.as_slice(), path) {
            None => None,
            Some(next) => path_behind(other.as_slice(), next),
        },
        Stmt::While(_, body, _) => path_behind(body.as_slice(), path),
        Stmt::Assign(_, _) => Some(path),
        Stmt::Set(_, _, _) => Some(path),
        Stmt::Do(_) => Some(path),
        Stmt::Return(_, _) => Some(path),
        Stmt::Print(_, _) => Some(path),
        Stmt::PrintText(_, _) => Some(path),
    }
}
