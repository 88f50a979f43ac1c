ghost use Rattle.std.specs.Prelude.{◌≡◌, ◌↔◌, ◌++◌, IsTrue, IfOk, reverse};
ghost use Rattle.jn_base.specs.Atoms.{atom_of};
ghost use Rattle.jn_agree.specs.Naming.{Naming};
ghost use Rattle.jn_lower.specs.Selecting.{IsNumberOf, IsCtorOf, HeadIs, method_sel, field_sel};

use jn_agree::selectors::{FieldSel, MethodSel};
use jn_base::compare::is_name;
use jn_base::tree::Name;
use jn_base::types::Atom;
use std::alloc::AllocError;

/// Whether both are the same kinds.
fn same_kinds(xs: &[u8], ys: &[u8]) -> bool
    ensures { IsTrue result ↔ (xs.now ≡ ys.now) }
{
    xs == ys
}

/// Whether the selector has that name and that shape.
fn selects_method(sel: &MethodSel, name: Name, params: &[u8], kind: u8) -> bool
    ensures { IsTrue result ↔ (sel.now ≡ method_sel name params.now kind) }
{
    if !is_name(sel.name, name) {
        return false;
    }
    if sel.shape.result != kind {
        return false;
    }
    same_kinds(sel.shape.params.as_slice(), params)
}

/// Whether the selector has that name and that kind.
fn selects_field(sel: &FieldSel, name: Name, kind: u8) -> bool
    ensures { IsTrue result ↔ (sel.now ≡ field_sel name kind) }
{
    if !is_name(sel.name, name) {
        return false;
    }
    sel.kind == kind
}

/// The place of the selector with that name and that shape, where there is one.
fn method_place(names: &[MethodSel], name: Name, params: &[u8], kind: u8) -> Option<usize>
    ensures { IsNumberOf (method_sel name params.now kind) names.now result }
{
    for (k, sel) in names.iter().enumerate() {
        if selects_method(sel, name, params, kind) {
            return Some(k);
        }
    }
    None
}

/// The place of the selector with that name and that kind, where there is one.
fn field_place(names: &[FieldSel], name: Name, kind: u8) -> Option<usize>
    ensures { IsNumberOf (field_sel name kind) names.now result }
{
    for (k, sel) in names.iter().enumerate() {
        if selects_field(sel, name, kind) {
            return Some(k);
        }
    }
    None
}

/// The place in four bytes. One above 4294967295, which no selector of a program within the limits has, is refused for
/// want of memory.
fn four_bytes(place: Option<usize>) -> Result<Option<u32>, AllocError>
    ensures { IfOk result (λ found. found ≡ place) }
{
    match place {
        None => Ok(None),
        Some(k) => match u32::try_from(k) {
            Ok(k) => Ok(Some(k)),
            Err(_) => Err(AllocError),
        },
    }
}

/// The number of the selector with that name and that shape, where there is one.
pub fn method_number(
    names: &[MethodSel],
    name: Name,
    params: &[u8],
    kind: u8,
) -> Result<Option<u32>, AllocError>
    ensures { IfOk result (IsNumberOf (method_sel name params.now kind) names.now) }
{
    four_bytes(method_place(names, name, params, kind))
}

/// The number of the selector with that name and that kind, where there is one.
pub fn field_number(names: &[FieldSel], name: Name, kind: u8) -> Result<Option<u32>, AllocError>
    ensures { IfOk result (IsNumberOf (field_sel name kind) names.now) }
{
    four_bytes(field_place(names, name, kind))
}

/// The last of the names, none where there is none.
pub fn last_of(names: &[Name]) -> Option<Name>
    ensures { HeadIs (reverse names.now) result }
{
    if names.is_empty() {
        None
    } else {
        Some(names[names.len() - 1])
    }
}

/// The name of the class that an atom says: its last one.
pub fn name_of(x: &Atom) -> Option<Name>
    ensures { HeadIs ((atom_of x.now).names ++ (atom_of x.now).exact) result }
{
    match last_of(x.names.as_slice()) {
        Some(name) => Some(name),
        None => last_of(x.exact.as_slice()),
    }
}

/// The number of the selector that a constructor of the atom's class with parameters of these kinds has, where some
/// class has one.
pub fn constructor_number(
    names: &[MethodSel],
    x: &Atom,
    params: &[u8],
) -> Result<Option<u32>, AllocError>
    ensures { IfOk result (λ found. (n : Naming) → n.methods ≡ names.now
        → IsCtorOf n (atom_of x.now) params.now found) }
{
    match name_of(x) {
        None => Ok(None),
        Some(name) => method_number(names, name, params, 0),
    }
}
