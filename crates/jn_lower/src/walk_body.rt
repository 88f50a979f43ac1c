ghost use Rattle.std.specs.Prelude.{◌≡◌, ◌≤◌, ◌+◌, length, [], IfOk, OnOk};
ghost use Rattle.jn_base.specs.Duplicates.{duplicates};
ghost use Rattle.jn_sem.specs.Acts.{path_behind};
ghost use Rattle.jn_sem.specs.Does.{Body};
ghost use Rattle.jn_code.specs.Form.{CodeInForm};
ghost use Rattle.jn_rules.specs.Headers.{Header};
ghost use Rattle.jn_agree.specs.Naming.{Naming};
ghost use Rattle.jn_places.specs.StmtPlaces.{TypedBodyAt};
ghost use Rattle.jn_lower.specs.Emitted.{Adds};
ghost use Rattle.jn_lower.specs.Written.{written_result, param_tests};
ghost use Rattle.jn_lower.specs.Lowering.{PartsAre, BodyIs};
ghost use Rattle.jn_lower.specs.Formed.{IsFormed};
ghost use Rattle.jn_lower.specs.Walks.{IsAbove, DeclaresEach, Begun, CodeMade, Finished};

use crate::cursor::Marks;
use crate::emitter::Emitter;
use crate::ending::code_of;
use crate::formed::is_formed;
use crate::kinds::{is_reference, written_kind};
use crate::param_vars::params_of;
use crate::params::testing;
use crate::path_behind::{next_number, path_behind};
use crate::straight::last_return;
use crate::walk::{Parts, Walk};
use crate::walk_stmts::stmts;
use jn_agree::selectors::Selectors;
use jn_base::names::Resolved;
use jn_base::path::Path;
use jn_base::tree::{Method, Param, Program, Stmt, TypeTerm};
use jn_code::Code;
use jn_share::Slots;
use jn_table::Table;
use std::alloc::{AllocError, Global};

/// The kind of a written result, 0 of `void`.
fn written_result(ty: &Option<TypeTerm>) -> u8
    ensures { result ≡ written_result ty.now }
{
    match ty {
        None => 0,
        Some(ty) => written_kind(ty),
    }
}

/// The number, in one byte. One above 255, which no local of a program within the limits has, is refused for want of
/// memory.
fn byte_of(n: usize) -> Result<u8, AllocError>
    ensures { IfOk result (λ q. q ≡ n) }
{
    u8::try_from(n).map_err(|_| AllocError)
}

/// The number of the next local behind the statements.
fn next_behind(ss: &[Stmt], first: usize) -> Result<u8, AllocError>
    ensures { IfOk result (λ q. q ≡ path_behind ss.now first) }
{
    match path_behind(ss, first) {
        None => Err(AllocError),
        Some(n) => byte_of(n),
    }
}

/// The first number that no variable has.
fn scratch_of(m: &Method) -> Result<u8, AllocError>
    ensures { IfOk result (IsAbove m.now) }
{
    match next_number(m.params.len()) {
        None => Err(AllocError),
        Some(first) => next_behind(m.body.as_slice(), first),
    }
}

/// A local for each parameter, of its kind.
fn declare_params(out: &mut Emitter, params: &[Param]) -> Result<(), AllocError>
    ensures { OnOk result (DeclaresEach params.now out.old out.new) }
{
    for x in params {
        out.declare(written_kind(&x.ty))?;
    }
    Ok(())
}

/// The receiver and the parameters have their locals, and nothing is emitted yet.
fn begin(alloc: Global, m: &Method) -> Result<Emitter, AllocError>
    ensures { IfOk result (Begun m.now) }
{
    let mut out = Emitter::new(alloc, scratch_of(m)?);
    out.declare(3)?;
    declare_params(&mut out, m.params.as_slice())?;
    Ok(out)
}

/// Adds the tests of the final parameters of class type, in their order.
fn test_params(out: &mut Emitter, params: &[Param]) -> Result<(), AllocError>
    ensures { OnOk result (Adds (param_tests 1 params.now) out.old out.new) }
{
    let mut q: u8 = 1;
    for x in params {
        testing(out, x.fixed && is_reference(&x.ty), q)?;
        match q.checked_add(1) {
            None => return Err(AllocError),
            Some(next) => q = next,
        }
    }
    Ok(())
}

/// The code of what was emitted. What isn't in the form of a code, or hasn't a local for each variable, is refused for
/// want of memory. Its operands are counted as the most that an image may say.
fn finish_with(
    alloc: Global,
    out: Emitter,
    count: usize,
    above: u8,
    kind: u8,
) -> Result<Code, AllocError>
    ensures { IfOk result (CodeMade out count above kind) }
{
    if !is_formed(&out, count, above) {
        return Err(AllocError);
    }
    code_of(alloc, out, count, kind, 4096)
}

/// The code of what was emitted for the method.
fn finish(alloc: Global, out: Emitter, m: &Method) -> Result<Code, AllocError>
    ensures finished { IfOk result (Finished m.now out) }
    ensures formed { IfOk result (IsFormed m.now) }
{
    let above = scratch_of(m)?;
    match next_number(m.params.len()) {
        None => Err(AllocError),
        Some(count) => finish_with(alloc, out, count, above, written_result(&m.result)),
    }
}

/// The class that declares the body.
fn declaring(r: &Resolved) -> &Path
    ensures { result.now ≡ r.now.class }
{
    &r.class
}

/// The code of a body that was checked: it stands at the body's place. The parts are those of the program, and `r` is
/// what is known of the body. No name stands twice in the program. The code is in form, has room for 3,806 operands, and
/// has at most three locals more than its body.
pub fn lower(
    alloc: Global,
    p: &Program,
    t: &Table,
    slots: &Slots,
    m: &Method,
    r: &Resolved,
    s: &Selectors,
) -> Result<Code, AllocError>
    requires { duplicates p.now ≡ [] }
    ensures at { IfOk result (λ code. (n : Naming) (b : Body) (k : Header) → PartsAre p.now t.now slots.now s.now n
        → BodyIs p.now m.now r.now b k → TypedBodyAt p.now n b k code) }
    ensures room { IfOk result (λ code. 3806 ≤ code.stack) }
    ensures in_form { IfOk result CodeInForm }
    ensures locals { IfOk result (λ code. length code.params + length code.locals
        ≤ path_behind m.now.body (length code.params) + 3) }
{
    let mut out = begin(alloc, m)?;
    test_params(&mut out, m.params.as_slice())?;
    let class = declaring(r);
    let mut known = params_of(alloc, t, class, m)?;
    let g = Parts {
        alloc,
        p,
        t,
        slots,
        names: s,
        class,
        vars: &[],
    };
    let marks = Marks::of(r);
    let mut w = Walk {
        out,
        marks,
        last: 0,
    };
    stmts(&g, &mut known, &mut w, m.body.as_slice())?;
    last_return(&mut w.out, written_result(&m.result))?;
    finish(alloc, w.out, m)
}
