//! The parameters of a body that is called.

ghost use Rattle.std.specs.Prelude.{◌≡◌, IfOk};
ghost use Rattle.jn_meaning.specs.World.{Stands};
ghost use Rattle.jn_meaning.specs.Values.{path_at};
ghost use Rattle.jn_meaning.specs.Tells.{ParamsTold};
ghost use Rattle.jn_meaning.specs.Params.{ParamAdded, body_at};

use crate::fault::MeanFault;
use crate::terms::type_at;
use crate::world::World;
use jn_base::names::{Var, Vars};
use jn_base::tree::{Method, Name, Param};
use jn_table::{ClassId, Table};
use sqlite_items::Items;
use std::alloc::Global;

/// One more parameter; false where its type stands for none.
fn add_param(
    alloc: Global,
    w: &World,
    t: &mut Table,
    class: ClassId,
    owner: Name,
    vars: &mut Vars,
    param: &Param,
) -> Result<bool, MeanFault>
    requires { Stands w.now t.old }
    ensures told { IfOk result (λ b. ParamAdded w.now.program.now (path_at t.old.known.items class) owner vars.old vars.new param.now b) }
    ensures kept { t.new ≡ t.old }
{
    let found = type_at(alloc, w, t, class, owner, vars, &param.ty)?;
    match found {
        None => Ok(false),
        Some(ty) => {
            let n = vars.list.len();
            if n >= 4294967295 {
                return Err(MeanFault::Memory);
            }
            vars.list.push(Var {
                name: param.name.name,
                path: (n + 1) as u32,
                fixed: param.fixed,
                ty,
            })?;
            Ok(true)
        }
    }
}

/// The parameters of a body, with their types; none where one of these stands for none.
pub fn params_of(
    alloc: Global,
    w: &World,
    t: &mut Table,
    class: ClassId,
    method: &Method,
) -> Result<Option<Vars>, MeanFault>
    requires { Stands w.now t.old }
    ensures told { IfOk result (λ o. ParamsTold w.now.program.now (body_at t.old.known.items class method.now) o) }
    ensures kept { t.new ≡ t.old }
{
    let mut vars = Vars {
        list: Items::new(alloc),
    };
    for param in method.params.as_slice() {
        if !add_param(alloc, w, t, class, method.name.name, &mut vars, param)? {
            return Ok(None);
        }
    }
    Ok(Some(vars))
}
