ghost use Rattle.std.specs.Prelude.{◌≡◌, ◌∷◌, map, IfOk, OnOk};
ghost use Rattle.jn_agree.specs.Follows.{is_tested};
ghost use Rattle.jn_agree.specs.Places.{testing, tests};
ghost use Rattle.jn_lower.specs.Emitted.{Adds};
ghost use Rattle.jn_lower.specs.Whole.{DeclaresAll, kind_of_var};

use crate::emitter::Emitter;
use crate::locals::kind_of_type;
use crate::straight::is_class;
use jn_base::names::Var;
use jn_code::Instr;
use std::alloc::AllocError;

/// The number of a local, in one byte. One above 255, which no program within the limits has, is refused for want of
/// memory.
pub fn local(path: u32) -> Result<u8, AllocError>
    ensures { IfOk result (λ q. q ≡ path) }
{
    u8::try_from(path).map_err(|_| AllocError)
}

/// Declares `this` and the parameters: a reference, and the kinds of their types.
pub fn declared(out: &mut Emitter, vars: &[Var]) -> Result<(), AllocError>
    ensures { OnOk result (DeclaresAll (3 ∷ map kind_of_var vars.now) out.old out.new) }
{
    out.declare(3)?;
    for x in vars {
        out.declare(kind_of_type(&x.ty))?;
    }
    Ok(())
}

/// Whether the parameter is tested on entry: a final one of class type.
pub fn is_tested(x: &Var) -> bool
    ensures { result ≡ is_tested x.now }
{
    x.fixed && is_class(&x.ty)
}

/// Adds the test of a parameter, where it is one that is tested: LOAD, CHECK, POP.
pub fn testing(out: &mut Emitter, tested: bool, q: u8) -> Result<(), AllocError>
    ensures { OnOk result (Adds (testing tested q) out.old out.new) }
{
    if tested {
        out.push(Instr::Load(q))?;
        out.push(Instr::Check)?;
        out.push(Instr::Pop)
    } else {
        Ok(())
    }
}

/// Adds the tests of the parameters, in their order.
pub fn tests(out: &mut Emitter, vars: &[Var]) -> Result<(), AllocError>
    ensures { OnOk result (Adds (tests vars.now) out.old out.new) }
{
    for x in vars {
        let q = local(x.path)?;
        testing(out, is_tested(x), q)?;
    }
    Ok(())
}
