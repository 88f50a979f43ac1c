//! The class `Main` with which a run begins.

ghost use Rattle.std.specs.Prelude.{◌≡◌, ◌↔◌, [], ◌∷◌, None, IsTrue, IfOk};
ghost use Rattle.jn_base.specs.Duplicates.{duplicates};
ghost use Rattle.jn_base.specs.TableRules.{DeclarationsPass};
ghost use Rattle.jn_base.specs.Universe.{InUniverse};
ghost use Rattle.jn_names.specs.Members.{IsMembersOf};
ghost use Rattle.jn_sem.specs.Does.{IsSpelled};
ghost use Rattle.jn_rules.specs.Questions.{Answers, Finds};
ghost use Rattle.jn_rules.specs.Verdict.{HasMain};
ghost use Rattle.jn_check.specs.Mains.{BeginsAt, FormTold, HasNoParams};

use jn_base::tree::{Method, Name, Program, Text};
use jn_expr::{least_at, method_at};
use jn_names::{Bound, Members};
use jn_table::Table;
use std::alloc::{AllocError, Global};

/// How a method looks: whether it has no parameters, and whether it has no result.
#[derive(Clone, Copy, Debug, PartialEq, Eq)]
pub struct Form {
    pub no_params: bool,
    pub void: bool,
}

/// How the method looks.
fn form_of(m: &Method) -> Form
    ensures no_params { IsTrue result.no_params ↔ (m.now.params ≡ []) }
    ensures void { IsTrue result.void ↔ (m.now.result ≡ None) }
{
    let no_params = m.params.is_empty();
    let void = m.result.is_none();
    Form { no_params, void }
}

/// Whether these are the bytes of the text.
fn has_bytes(text: &Text, bytes: &[u8]) -> bool
    ensures { IsTrue result ↔ (text.now.bytes ≡ bytes.now) }
{
    text.bytes.as_slice() == bytes
}

/// The name that is spelled so, where there is one. No source has so many names that its number doesn't fit.
fn spelled(p: &Program, bytes: &[u8]) -> Result<Option<Name>, AllocError>
    ensures { IfOk result (λ o. Finds (IsSpelled p.now bytes.now) o) }
{
    for (i, text) in p.names.as_slice().iter().enumerate() {
        if has_bytes(text, bytes) {
            if i > 4294967295 {
                return Err(AllocError);
            }
            return Ok(Some(Name(i as u32)));
        }
    }
    Ok(None)
}

/// How the least body of a method of the class looks, where it has one.
fn least_form(
    alloc: Global,
    p: &Program,
    table: &Table,
    members: &Members,
    class: &Bound,
    name: Name,
) -> Result<Option<Form>, AllocError>
    requires once { duplicates p.now ≡ [] }
    requires members { IsMembersOf p.now table.now members.now }
    ensures { IfOk result (λ o. FormTold p.now class.now name o) }
{
    match least_at(alloc, table, members, class, name)? {
        None => Ok(None),
        Some(owner) => {
            let path = owner.shown(alloc)?;
            match method_at(p, table, &path, name) {
                None => Err(AllocError),
                Some(m) => Ok(Some(form_of(m))),
            }
        }
    }
}

/// Whether the least body of a method of the class, where it has one, is without parameters.
fn has_no_params(
    alloc: Global,
    p: &Program,
    table: &Table,
    members: &Members,
    class: &Bound,
    name: Name,
) -> Result<bool, AllocError>
    requires declarations { DeclarationsPass p.now }
    requires members { IsMembersOf p.now table.now members.now }
    requires class { InUniverse p.now class.now }
    ensures { IfOk result (λ told. Answers (HasNoParams p.now class.now name) told) }
{
    match least_form(alloc, p, table, members, class, name)? {
        None => Ok(true),
        Some(form) => Ok(form.no_params),
    }
}

/// Whether a run can begin with the class and the method of these names.
fn begins_at(
    alloc: Global,
    p: &Program,
    table: &Table,
    members: &Members,
    class_name: Name,
    name: Name,
) -> Result<bool, AllocError>
    requires declarations { DeclarationsPass p.now }
    requires members { IsMembersOf p.now table.now members.now }
    ensures { IfOk result (λ told. Answers (BeginsAt p.now class_name name) told) }
{
    let mut class = Bound::root(alloc);
    class.push(class_name)?;
    if !class.is_class(table) {
        return Ok(false);
    }
    match least_form(alloc, p, table, members, &class, name)? {
        None => Ok(false),
        Some(form) => {
            if !form.no_params {
                return Ok(false);
            }
            if !form.void {
                return Ok(false);
            }
            has_no_params(alloc, p, table, members, &class, class_name)
        }
    }
}

/// Whether there is a top-level class `Main` with a least `main` without parameters and without a result, and its
/// constructor has no parameters.
pub fn has_main(
    alloc: Global,
    p: &Program,
    table: &Table,
    members: &Members,
) -> Result<bool, AllocError>
    requires declarations { DeclarationsPass p.now }
    requires members { IsMembersOf p.now table.now members.now }
    ensures { IfOk result (λ told. Answers (HasMain p.now) told) }
{
    match spelled(p, b"Main")? {
        None => Ok(false),
        Some(class) => match spelled(p, b"main")? {
            None => Ok(false),
            Some(name) => begins_at(alloc, p, table, members, class, name),
        },
    }
}
