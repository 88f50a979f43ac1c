ghost use Rattle.std.specs.Prelude.{◌≡◌, ◌<◌, ℕ, List, map, length, IfSome, IfNone, cond};
ghost use Rattle.jn_base.specs.declared.tree.Program.{Program};
ghost use Rattle.jn_base.specs.Paths.{Path as APath};
ghost use Rattle.jn_table.specs.declared.table.Table.{Table as ATable};
ghost use Rattle.jn_table.specs.Rows.{IsNumber};
ghost use Rattle.jn_index.specs.Index.{IsIndex};
ghost use Rattle.jn_agree.specs.declared.selectors.MethodSel.{MethodSel as AMethodSel};
ghost use Rattle.jn_agree.specs.declared.selectors.FieldSel.{FieldSel as AFieldSel};
ghost use Rattle.jn_agree.specs.Naming.{Naming};
ghost use Rattle.jn_layout.specs.declared.declared.BodyAt.{BodyAt as ABodyAt};
ghost use Rattle.jn_layout.specs.declared.declared.FieldAt.{FieldAt as AFieldAt};
ghost use Rattle.jn_layout.specs.Pairs.{OnlyIs};
ghost use Rattle.jn_layout.specs.Keys.{body_key, field_key, slot_key};
ghost use Rattle.jn_layout.specs.Finding.{ShapesTold, MethodsPlaced, FieldsPlaced};
ghost use Rattle.jn_layout.specs.Lookups.{FoundAt, NoneTo, IsBodyOf, IsFieldOf, SelectsField, MethodsAsked, MethodPair, FieldsAsked, FieldPair, MethodPairOf, FieldPairOf};

use crate::declared::FieldAt;
use crate::finder::Finder;
use crate::pairs::Pair;
use crate::parts::four_bytes;
use jn_base::tree::Name;
use jn_index::{Placed, place_of};
use jn_names::{Least, Members};
use jn_share::Slots;
use jn_table::ClassId;
use sqlite_items::at;

/// The number of the body of the class with that name.
fn find_body(index: &[Placed], class: ClassId, name: Name) -> Option<usize>
    ensures some { IfSome result (λ k. (bodies : List ABodyAt) → IsIndex (map body_key bodies) index.now
        → FoundAt (IsBodyOf class name) bodies k) }
    ensures none { IfNone result ((bodies : List ABodyAt) → IsIndex (map body_key bodies) index.now
        → NoneTo (IsBodyOf class name) bodies (length bodies)) }
{
    place_of(index, &[class.0 as u32, name.0])
}

/// The place of the field of the class with that name.
fn find_field(index: &[Placed], class: ClassId, name: Name) -> Option<usize>
    ensures some { IfSome result (λ k. (fields : List AFieldAt) → IsIndex (map field_key fields) index.now
        → FoundAt (IsFieldOf class name) fields k) }
    ensures none { IfNone result ((fields : List AFieldAt) → IsIndex (map field_key fields) index.now
        → NoneTo (IsFieldOf class name) fields (length fields)) }
{
    place_of(index, &[class.0 as u32, name.0])
}

/// The number of the selector with the name and the kind.
fn find_field_sel(index: &[Placed], name: Name, kind: u8) -> Option<usize>
    ensures some { IfSome result (λ k. (names : List AFieldSel) → IsIndex (map slot_key names) index.now
        → FoundAt (SelectsField name kind) names k) }
    ensures none { IfNone result ((names : List AFieldSel) → IsIndex (map slot_key names) index.now
        → NoneTo (SelectsField name kind) names (length names)) }
{
    place_of(index, &[name.0, kind as u32])
}

/// The selector of the body at the place, with the place.
fn method_pair(shapes: &[Option<usize>], place: usize) -> Option<Pair>
    ensures { (names : List AMethodSel) (bodies : List ABodyAt) → ShapesTold names bodies (length bodies) shapes.now
        → MethodPairOf bodies names place result }
{
    match at(shapes, place) {
        None => None,
        Some(told) => match told {
            None => None,
            Some(sel) => {
                let key = four_bytes(*sel);
                let value = four_bytes(place);
                Some(Pair { key, value })
            }
        },
    }
}

/// The selector of the method of the class, with the number of the body that the class runs for it.
pub fn method_at(m: &Members, finder: &Finder, id: ClassId, name: Name) -> Option<Pair>
    ensures { (p : Program) (t : ATable) (n : Naming) (R : APath) (names : List AMethodSel) (bodies : List ABodyAt)
        → MethodsAsked p t m.now names bodies n → MethodsPlaced bodies names finder.now → IsNumber t.known.items id R
        → OnlyIs (MethodPair p n R name) result }
{
    match m.least(id, name) {
        Least::None => None,
        Least::Many(_, _) => None,
        Least::One(class) => match find_body(&finder.bodies, class, name) {
            None => None,
            Some(place) => method_pair(&finder.shapes, place),
        },
    }
}

/// The kind of the field: 4 where its type hangs on `this`.
pub fn kind_at(hangs: bool, kind: u8) -> u8
    ensures { result ≡ cond hangs 4 kind }
{
    if hangs {
        return 4;
    }
    kind
}

/// The selector of that name and kind with the slot.
fn field_pair(index: &[Placed], name: Name, kind: u8, slot: Option<u8>) -> Option<Pair>
    ensures pair { (names : List AFieldSel) → IsIndex (map slot_key names) index.now
        → FieldPairOf names name kind slot result }
    ensures small { IfSome result (λ x. x.value < 256) }
{
    match slot {
        None => None,
        Some(slot) => match find_field_sel(index, name, kind) {
            None => None,
            Some(sel) => {
                let key = four_bytes(sel);
                let value = slot as u32;
                Some(Pair { key, value })
            }
        },
    }
}

/// The selector of the field of the class, with the number of its slot.
pub fn field_at(
    m: &Members,
    s: &Slots,
    fields: &[FieldAt],
    finder: &Finder,
    id: ClassId,
    name: Name,
) -> Option<Pair>
    ensures is { (p : Program) (t : ATable) (n : Naming) (R : APath) (names : List AFieldSel)
        → FieldsAsked p t m.now s.now names fields.now n → FieldsPlaced fields.now names finder.now
        → IsNumber t.known.items id R → OnlyIs (FieldPair p n s.now id R name) result }
    ensures small { IfSome result (λ x. x.value < 256) }
{
    match m.field(id, name) {
        Least::None => None,
        Least::Many(_, _) => None,
        Least::One(class) => match find_field(&finder.fields, class, name) {
            None => None,
            Some(place) => match at(fields, place) {
                None => None,
                Some(x) => {
                    let kind = kind_at(s.hangs(id, name), x.kind);
                    field_pair(&finder.slots, name, kind, s.slot(id, name))
                }
            },
        },
    }
}
