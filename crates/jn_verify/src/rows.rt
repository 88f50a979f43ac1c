//! What is wrong with a class.

ghost use Rattle.std.specs.Prelude.{◌≡◌, ◌∷◌};
ghost use Rattle.std.specs.Option.{option_copied};
ghost use Rattle.std.specs.List.{list_all};
ghost use Rattle.jn_code.specs.Rows.{same_numbers, numbered, group_of, up_is_good, group_is_good, member_is_good, has_shape, method_is_good, slot_is_good, field_is_good, other_is_good, row_fault};

use crate::numbers::kind_of;
use crate::tails::kind_eq;
use jn_code::{
    ClassRow, Code, FieldEntry, Group, Image, MemberEntry, MethodEntry, OtherEntry, RowWhy, Shape,
};

fn same_numbers(xs: &[u8], ys: &[u8]) -> bool
    ensures { result ≡ same_numbers xs.now ys.now }
{
    let mut at = 0;
    while at < xs.len() {
        if at >= ys.len() {
            return false;
        }
        if xs[at] != ys[at] {
            return false;
        }
        at += 1;
    }
    if at < ys.len() {
        return false;
    }
    true
}

// The first parameter is a reference, and these follow.
fn has_params(params: &[u8], rest: &[u8]) -> bool
    ensures { result ≡ same_numbers params.now (3 ∷ rest.now) }
{
    if params.is_empty() || params[0] != 3 {
        return false;
    }
    same_numbers(&params[1..], rest)
}

fn group_of<'a>(image: &'a Image, row: &ClassRow) -> Option<&'a Group>
    ensures { option_copied result ≡ group_of image.now row.now }
{
    if row.group == 65535 {
        return None;
    }
    image.groups.get(row.group as usize)
}

fn up_is_good(image: &Image, k: u16, row: &ClassRow) -> bool
    ensures { result ≡ up_is_good image.now k row.now }
{
    if row.up == 65535 && row.family == k {
        return true;
    }
    if row.up >= k {
        return false;
    }
    match image.classes.get(row.up as usize) {
        Some(up) => up.family == row.family,
        None => false,
    }
}

fn group_is_good(image: &Image, row: &ClassRow) -> bool
    ensures { result ≡ group_is_good image.now row.now }
{
    row.group == 65535 || image.groups.get(row.group as usize).is_some()
}

fn member_is_good(image: &Image, k: u16, entry: MemberEntry) -> bool
    ensures { result ≡ member_is_good image.now k entry }
{
    match image.classes.get(entry.class as usize) {
        Some(member) => member.up == k,
        None => false,
    }
}

fn has_shape(shape: &Shape, code: &Code) -> bool
    ensures { result ≡ has_shape shape.now code.now }
{
    has_params(code.params.as_slice(), shape.params.as_slice()) && code.result == shape.result
}

fn method_is_good(image: &Image, entry: MethodEntry) -> bool
    ensures { result ≡ method_is_good image.now entry }
{
    let Some(shape) = image.methods.get(entry.selector as usize) else {
        return false;
    };
    match image.codes.get(entry.code as usize) {
        Some(code) => has_shape(shape, code),
        None => false,
    }
}

fn slot_is_good(image: &Image, entry: FieldEntry, group: &Group) -> bool
    ensures { result ≡ slot_is_good image.now entry group.now }
{
    let Some(field) = image.fields.get(entry.selector as usize) else {
        return false;
    };
    match group.slots.get(entry.slot as usize) {
        Some(slot) => kind_eq(kind_of(*slot), kind_of(*field)),
        None => false,
    }
}

fn field_is_good(image: &Image, row: &ClassRow, entry: FieldEntry) -> bool
    ensures { result ≡ field_is_good image.now row.now entry }
{
    match group_of(image, row) {
        Some(group) => slot_is_good(image, entry, group),
        None => false,
    }
}

fn other_is_good(image: &Image, row: &ClassRow, entry: OtherEntry) -> bool
    ensures { result ≡ other_is_good image.now row.now entry }
{
    if row.group == 65535 {
        return false;
    }
    match image.classes.get(entry.class as usize) {
        Some(other) => other.group == row.group && other.family == entry.family,
        None => false,
    }
}

fn members_are_good(image: &Image, k: u16, entries: &[MemberEntry]) -> bool
    ensures { result ≡ list_all (member_is_good image.now k) entries.now }
{
    for entry in entries {
        if !member_is_good(image, k, *entry) {
            return false;
        }
    }
    true
}

fn methods_are_good(image: &Image, entries: &[MethodEntry]) -> bool
    ensures { result ≡ list_all (method_is_good image.now) entries.now }
{
    for entry in entries {
        if !method_is_good(image, *entry) {
            return false;
        }
    }
    true
}

fn fields_are_good(image: &Image, row: &ClassRow, entries: &[FieldEntry]) -> bool
    ensures { result ≡ list_all (field_is_good image.now row.now) entries.now }
{
    for entry in entries {
        if !field_is_good(image, row, *entry) {
            return false;
        }
    }
    true
}

fn others_are_good(image: &Image, row: &ClassRow, entries: &[OtherEntry]) -> bool
    ensures { result ≡ list_all (other_is_good image.now row.now) entries.now }
{
    for entry in entries {
        if !other_is_good(image, row, *entry) {
            return false;
        }
    }
    true
}

/// What is wrong with class k.
pub fn row_fault(image: &Image, k: u16, row: &ClassRow) -> Option<RowWhy>
    ensures { result ≡ row_fault image.now k row.now }
{
    if !up_is_good(image, k, row) {
        return Some(RowWhy::Up);
    }
    if !group_is_good(image, row) {
        return Some(RowWhy::Group);
    }
    if !members_are_good(image, k, row.members.as_slice()) {
        return Some(RowWhy::Member);
    }
    if !methods_are_good(image, row.methods.as_slice()) {
        return Some(RowWhy::Method);
    }
    if !fields_are_good(image, row, row.fields.as_slice()) {
        return Some(RowWhy::Field);
    }
    if !others_are_good(image, row, row.others.as_slice()) {
        return Some(RowWhy::Other);
    }
    None
}
