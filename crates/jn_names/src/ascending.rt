//! Numbers of classes in ascending order, among which one is found by halves.

ghost use Rattle.std.specs.Prelude.{◌≡◌, ◌↔◌, Contains, IsTrue, IfOk};
ghost use Rattle.jn_names.specs.Ascending.{Ascend};

use jn_table::ClassId;
use sqlite_items::at;
use std::alloc::{AllocError, Global};

/// Whether the two are one number.
pub fn is_class(a: ClassId, b: ClassId) -> bool
    ensures { IsTrue result ↔ (a ≡ b) }
{
    a.0 == b.0
}

/// Whether the number is in the list. It is found by halves.
pub fn is_among(ids: &[ClassId], id: ClassId) -> bool
    requires { Ascend ids.now }
    ensures { IsTrue result ↔ Contains ids.now id }
{
    let place = ids.partition_point(|x| x.0 < id.0);
    match at(ids, place) {
        None => false,
        Some(other) => is_class(*other, id),
    }
}

/// Whether none of the numbers is above one behind it.
fn ascend(ids: &[ClassId]) -> bool
    ensures { IsTrue result ↔ Ascend ids.now }
{
    for k in 1..ids.len() {
        if ids[k].0 < ids[k - 1].0 {
            return false;
        }
    }
    true
}

/// A copy of the numbers.
fn copied(alloc: Global, ids: &[ClassId]) -> Result<Vec<ClassId>, AllocError>
    ensures { IfOk result (λ all. all.items ≡ ids.now) }
{
    let mut all = Vec::new(alloc);
    for id in ids {
        all.push(*id)?;
    }
    Ok(all)
}

/// A copy of the numbers, where they ascend; else none.
pub fn in_order(alloc: Global, ids: &[ClassId]) -> Result<Vec<ClassId>, AllocError>
    ensures ascend { IfOk result (λ all. Ascend all.items) }
    ensures same { IfOk result (λ all. Ascend ids.now → all.items ≡ ids.now) }
{
    if !ascend(ids) {
        return Ok(Vec::new(alloc));
    }
    copied(alloc, ids)
}
