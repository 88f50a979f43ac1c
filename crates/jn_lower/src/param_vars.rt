ghost use Rattle.std.specs.Prelude.{◌≡◌, IfOk, OnOk};
ghost use Rattle.jn_lower.specs.Known.{spot_of, ParamAdded, ParamsFound, AreParamsOf};

use crate::known::bare_form;
use jn_base::names::{Role, Spot, Var, Vars};
use jn_base::path::Path;
use jn_base::tree::{Method, Name, Param};
use jn_names::type_of;
use jn_table::Table;
use sqlite_items::Items;
use std::alloc::{AllocError, Global};

/// Where a type of the class's method stands.
fn spot(alloc: Global, class: &Path, owner: Name) -> Result<Spot, AllocError>
    ensures { IfOk result (λ s. s ≡ spot_of class.now owner) }
{
    let names = Items::from_slice(alloc, class.names.as_slice())?;
    Ok(Spot {
        class: Path { names },
        owner,
        role: Role::Value,
    })
}

/// One more parameter, with its type where those before it are in scope. A type that is refused, which no checked body
/// has, is refused for want of memory.
fn add_param(
    alloc: Global,
    t: &Table,
    spot: &Spot,
    known: &mut Vars,
    x: &Param,
) -> Result<(), AllocError>
    ensures { OnOk result (ParamAdded t.now spot.now known.old.list known.new.list x.now) }
{
    let n = known.list.len();
    if n >= 4294967295 {
        return Err(AllocError);
    }
    match type_of(alloc, t, &[], spot, known, &x.ty) {
        Err(_) => Err(AllocError),
        Ok(given) => {
            let ty = bare_form(alloc, &spot.class, known.list.as_slice(), &given)?;
            known.list.push(Var {
                name: x.name.name,
                path: (n + 1) as u32,
                fixed: x.fixed,
                ty,
            })
        }
    }
}

/// These parameters, each with its type where those before it are in scope.
fn params_at(alloc: Global, t: &Table, spot: &Spot, params: &[Param]) -> Result<Vars, AllocError>
    ensures { IfOk result (λ vs. ParamsFound t.now spot.now params.now vs.list) }
{
    let mut known = Vars {
        list: Items::new(alloc),
    };
    for x in params {
        add_param(alloc, t, spot, &mut known, x)?;
    }
    Ok(known)
}

/// The parameters of the class's method, with their types in normal form, but for masks.
pub fn params_of(alloc: Global, t: &Table, class: &Path, m: &Method) -> Result<Vars, AllocError>
    ensures { IfOk result (λ vs. AreParamsOf t.now class.now m.now vs.list) }
{
    let spot = spot(alloc, class, m.name.name)?;
    params_at(alloc, t, &spot, m.params.as_slice())
}
