ghost use Rattle.std.specs.Prelude.{◌≡◌, reverse};
ghost use Rattle.jn_base.specs.Resolve.{is_class, this_alone, as_path, of_variable, newest, path_before};
ghost use Rattle.jn_names.specs.Before.{told_before};

use jn_base::names::{Role, Var, Vars};
use jn_base::tree::{Name, Ref};
use jn_base::types::Ty;

/// What stands before `.class`: the path of this number; a name that is not in scope; or what is no path.
#[derive(Clone, Copy)]
pub enum Before {
    Path(u32),
    NotInScope(Name),
    NoPath,
}

/// Whether it is a class type.
fn is_class(ty: &Ty) -> bool
    ensures { result ≡ is_class ty.now }
{
    match ty {
        Ty::Class(_, _) => true,
        Ty::Int => false,
        Ty::Bool => false,
        Ty::Null => false,
        Ty::Void => false,
    }
}

/// Whether `this` alone is a path.
fn this_alone(role: Role) -> bool
    ensures { result ≡ this_alone role }
{
    match role {
        Role::Field => true,
        Role::From => true,
        Role::To => true,
        Role::Value => false,
        Role::View => false,
        Role::New => false,
        Role::Super => false,
    }
}

/// The path of a variable, where it is one.
fn path_of(v: &Var) -> Before
    ensures { told_before result ≡ as_path v.now }
{
    if v.fixed && is_class(&v.ty) {
        return Before::Path(v.path);
    }
    Before::NoPath
}

/// What the newest variable of the name is.
fn variable(vars: &[Var], x: Name) -> Before
    ensures { told_before result ≡ of_variable x (newest (reverse vars.now) x) }
{
    let mut found = Before::NotInScope(x);
    for v in vars {
        if v.name.0 == x.0 {
            found = path_of(v);
        }
    }
    found
}

/// What stands before `.class`.
pub fn path_before(role: Role, vars: &Vars, r: Ref) -> Before
    ensures { told_before result ≡ path_before role vars.now r }
{
    match r {
        Ref::This => Before::Path(0),
        Ref::Var(x) => {
            if this_alone(role) {
                return Before::NoPath;
            }
            variable(vars.list.as_slice(), x)
        }
    }
}
