ghost use Rattle.std.specs.Prelude.{◌≡◌, ◌-◌, ℕ, List, slice_get, slice_set, map, IfOk};
ghost use Rattle.jn_reach.specs.Each.{Each};
ghost use Rattle.jn_link.specs.Groups.{slot_kind, painted_by, painted, painted_in, painted_rows, IsBlank, IsBlankFor, AreGroupsFor, GivesGroups};

use jn_code::image::Group;
use jn_code::{ClassRow, FieldEntry};
use jn_share::Slots;
use jn_table::ClassId;
use sqlite_items::{Items, at};
use std::alloc::{AllocError, Global};

/// A group of so many slots, each of which has the kind of a reference so far.
fn blank(alloc: Global, slots: u16) -> Result<Group, AllocError>
    ensures { IfOk result (IsBlank slots) }
{
    let kinds = vec![in alloc; 3; usize::from(slots)]?;
    Ok(Group {
        slots: Items::from_vec(kinds),
    })
}

/// The number as that of a class. One above 65535, which no class of a program within the limits has, is refused for
/// want of memory.
fn class_id(k: usize) -> Result<ClassId, AllocError>
    ensures { IfOk result (λ id. id.0 ≡ k) }
{
    let k = u16::try_from(k).map_err(|_| AllocError)?;
    Ok(ClassId(k))
}

/// The group of the class, with as many slots as its size says.
fn blank_for(alloc: Global, s: &Slots, k: usize) -> Result<Group, AllocError>
    ensures { IfOk result (IsBlankFor s.now k) }
{
    let id = class_id(k)?;
    blank(alloc, s.size(id).saturating_sub(1))
}

/// The groups of these first classes.
fn blanks(alloc: Global, s: &Slots, firsts: &[usize]) -> Result<Vec<Group>, AllocError>
    ensures { IfOk result (λ all. Each (IsBlankFor s.now) firsts.now all.items) }
{
    let mut all = Vec::new(alloc);
    for k in firsts {
        let group = blank_for(alloc, s, *k)?;
        all.push(group)?;
    }
    Ok(all)
}

/// The slot has the kind of a field's selector: a reference that is read in the family of its object's view is one as
/// any other there.
fn paint_slot(group: &mut Group, slot: u8, kind: u8)
    ensures { group.new.slots ≡ slice_set group.old.slots slot (slot_kind kind) }
{
    let at = slot as usize;
    if at < group.slots.len() {
        group.slots.set(at, kind.min(3));
    }
}

/// The slot of the entry has the kind of the entry's selector.
fn paint_entry(group: &mut Group, kinds: &[u8], e: &FieldEntry)
    ensures { group.new.slots ≡ painted_by (slice_get kinds.now e.now.selector) e.now.slot group.old.slots }
{
    match at(kinds, e.selector as usize) {
        None => {}
        Some(kind) => paint_slot(group, e.slot, *kind),
    }
}

/// The slots of the entries have the kinds of their selectors.
fn paint(group: &mut Group, kinds: &[u8], entries: &[FieldEntry])
    ensures { group.new.slots ≡ painted kinds.now entries.now group.old.slots }
{
    for e in entries {
        paint_entry(group, kinds, e);
    }
}

/// The slots of the row's group have the kinds of the row's fields. A package has no group.
fn paint_row(groups: &mut Vec<Group>, kinds: &[u8], row: &ClassRow)
    ensures { groups.new.items
        ≡ painted_in kinds.now row.now (slice_get groups.old.items row.now.group) groups.old.items }
{
    let at = row.group as usize;
    if at < groups.len() {
        let group = &mut groups[at];
        paint(group, kinds, row.fields.as_slice());
    }
}

/// The slots of all groups have the kinds of the rows' fields.
fn paint_rows(groups: &mut Vec<Group>, kinds: &[u8], rows: &[ClassRow])
    ensures { groups.new.items ≡ painted_rows kinds.now rows.now groups.old.items }
{
    for row in rows {
        paint_row(groups, kinds, row);
    }
}

/// The groups with these first classes, with the kinds of the rows' fields.
fn painted_groups(
    alloc: Global,
    s: &Slots,
    firsts: &[usize],
    kinds: &[u8],
    rows: &[ClassRow],
) -> Result<Items<Group>, AllocError>
    ensures { IfOk result (AreGroupsFor s.now firsts.now kinds.now rows.now) }
{
    let mut groups = blanks(alloc, s, firsts)?;
    paint_rows(&mut groups, kinds, rows);
    Ok(Items::from_vec(groups))
}

/// The groups of an image, by the numbers of their first classes, the kinds of the field selectors, and the rows: each
/// has a slot for each of its size but one, of the kind of the slot's fields.
pub fn groups_of(
    alloc: Global,
    s: &Slots,
    firsts: &[usize],
    kinds: &[u8],
    rows: &[ClassRow],
) -> Result<Items<Group>, AllocError>
    ensures made { IfOk result (AreGroupsFor s.now firsts.now kinds.now rows.now) }
    ensures are { IfOk result (GivesGroups s.now firsts.now kinds.now rows.now) }
{
    painted_groups(alloc, s, firsts, kinds, rows)
}
