ghost use Rattle.std.specs.Prelude.{◌≡◌, ◌<◌, [], length, IfOk};
ghost use Rattle.jn_base.specs.Duplicates.{duplicates};
ghost use Rattle.jn_base.specs.Paths.{Path as APath};
ghost use Rattle.jn_homes.specs.Homes.{HomeIs};
ghost use Rattle.jn_share.specs.Homes.{HomesTo};
ghost use Rattle.jn_share.specs.Pairing.{IsAt};

use jn_base::tree::{Place, Program};
use jn_homes::home_near;
use jn_table::Table;
use std::alloc::{AllocError, Global};

/// The home of the number.
fn home_at(p: &Program, t: &Table, k: usize) -> Option<Place>
    requires { k < length t.now.known.items }
    ensures { duplicates p.now ≡ [] → (R : APath) → IsAt t.now.known.items k R → HomeIs p.now R result }
{
    let path = &t.known()[k];
    home_near(p, path, t.way(path))
}

/// The home of each number.
pub fn homes_of(alloc: Global, p: &Program, t: &Table) -> Result<Vec<Option<Place>>, AllocError>
    ensures { IfOk result (λ homes. HomesTo p.now t.now.known.items (length t.now.known.items) homes.items) }
{
    let mut homes = Vec::new(alloc);
    for k in 0..t.known().len() {
        homes.push(home_at(p, t, k))?;
    }
    Ok(homes)
}
