ghost use Rattle.std.specs.Prelude.{◌≡◌, ◌≤◌, ◌<◌, All, Contains, IfNone, IfSome, length};
ghost use Rattle.jn_intern.specs.Places.{IsAt, Lacks};

use crate::scope::Bind;

/// The place of the first bind of a path.
fn first_of(binds: &[Bind], path: u32) -> Option<usize>
    ensures within { IfSome result (λ i. i < length binds.now) }
    ensures some { IfSome result (λ i. IsAt binds.now path i) }
    ensures none { IfNone result (Lacks binds.now path) }
{
    for i in 0..binds.len() {
        if binds[i].path == path {
            return Some(i);
        }
    }
    None
}

/// Where a path stands if the paths from it to the newest one are numbered without a gap; else a place before it, or
/// any.
fn expected(binds: &[Bind], path: u32) -> usize
    ensures { result ≤ length binds.now }
{
    match binds.last() {
        None => 0,
        Some(newest) => {
            let behind = newest.path.saturating_sub(path) as usize;
            (binds.len() - 1).saturating_sub(behind)
        }
    }
}

/// The place of a bind of the path. It is looked for from where the path is expected on.
pub fn place_of(binds: &[Bind], path: u32) -> Option<usize>
    ensures within { IfSome result (λ i. i < length binds.now) }
    ensures some { IfSome result (λ i. IsAt binds.now path i) }
    ensures none { IfNone result (Lacks binds.now path) }
{
    let n = expected(binds, path);
    match first_of(&binds[n..], path) {
        Some(i) => Some(n + i),
        None => first_of(&binds[..n], path),
    }
}

/// The bind of a path.
pub fn bind_of(binds: &[Bind], path: u32) -> Option<Bind>
    ensures some { IfSome result (λ b. Contains binds.now b × (b.path ≡ path)) }
    ensures none { IfNone result (All (λ b. b.path ≡ path → ⊥) binds.now) }
{
    match place_of(binds, path) {
        None => None,
        Some(i) => Some(binds[i]),
    }
}
