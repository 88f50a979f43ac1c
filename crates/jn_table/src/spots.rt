//! Where each declaration is expected in the text of its program, and each of its members in it. Nothing is promised of
//! these places, so who goes by one compares names.

use crate::class::{ClassId, Row};
use jn_base::tree::{Decl, Member, Name, Program};
use jn_index::{Placed, indexed, place_of};
use std::alloc::{AllocError, Global};

/// The kinds of members, as their keys have them.
const NESTED: u32 = 0;

const FIELD: u32 = 1;

const METHOD: u32 = 2;

/// Where a declaration is expected.
#[derive(Drop)]
pub struct Spot {
    /// Its place in the list in which it stands, and before it those of the declarations around it, from the outermost on.
    way: Vec<usize>,
    /// The kinds and names of its members, by which their places are found by halves.
    members: Vec<Placed>,
}

/// The key of a member: its kind and its name.
fn key_of(alloc: Global, member: &Member) -> Result<Vec<u32>, AllocError> {
    let key = match member {
        Member::Inner(decl) => [NESTED, decl.name.name.0],
        Member::Slot(field) => [FIELD, field.name.name.0],
        Member::Body(method) => [METHOD, method.name.name.0],
    };
    Vec::from_slice(alloc, &key)
}

/// The members by their keys.
fn members_of(alloc: Global, members: &[Member]) -> Result<Vec<Placed>, AllocError> {
    let mut keys = Vec::new(alloc);
    for member in members {
        keys.push(key_of(alloc, member)?)?;
    }
    indexed(alloc, keys)
}

/// The spot of a declaration to which this way leads.
fn spot_of(alloc: Global, decl: &Decl, way: &[usize]) -> Result<Spot, AllocError> {
    let members = members_of(alloc, decl.members.as_slice())?;
    let way = Vec::from_slice(alloc, way)?;
    Ok(Spot { way, members })
}

/// The way with one more place.
fn longer(alloc: Global, way: &[usize], place: usize) -> Result<Vec<usize>, AllocError> {
    let mut all = Vec::from_slice(alloc, way)?;
    all.push(place)?;
    Ok(all)
}

/// Adds the spot of a declaration, and those of the ones nested in it, in the order of the text.
fn add_spots(
    alloc: Global,
    decl: &Decl,
    way: &[usize],
    spots: &mut Vec<Spot>,
) -> Result<(), AllocError> {
    spots.push(spot_of(alloc, decl, way)?)?;
    for (place, member) in decl.members.as_slice().iter().enumerate() {
        match member {
            Member::Inner(nested) => {
                let inner = longer(alloc, way, place)?;
                add_spots(alloc, nested, &inner, spots)?
            }
            Member::Slot(_) => {}
            Member::Body(_) => {}
        }
    }
    Ok(())
}

/// The spots of the declarations of a program, in the order of its text, which is that of the entries.
pub fn spots_of(alloc: Global, p: &Program) -> Result<Vec<Spot>, AllocError> {
    let mut spots = Vec::new(alloc);
    for (place, decl) in p.decls.as_slice().iter().enumerate() {
        add_spots(alloc, decl, &[place], &mut spots)?;
    }
    Ok(spots)
}

/// The spot of the first of the declarations at a path.
fn spot_at<'a>(spots: &'a [Spot], declared: &[Vec<usize>], id: ClassId) -> Option<&'a Spot> {
    let entries = declared.get(id.0 as usize)?;
    let first = entries.get(0)?;
    spots.get(*first)
}

/// The number of the path without its last name.
fn up_at(rows: &[Row], id: ClassId) -> Option<ClassId> {
    let row = rows.get(id.0 as usize)?;
    row.up
}

/// The way to the declaration at a path of so many names, or at its longest front that has one.
pub fn way_of<'a>(
    spots: &'a [Spot],
    declared: &[Vec<usize>],
    rows: &[Row],
    id: ClassId,
    names: usize,
) -> &'a [usize] {
    let mut at = id;
    for _ in 0..names {
        if let Some(spot) = spot_at(spots, declared, at) {
            return &spot.way;
        }
        match up_at(rows, at) {
            Some(up) => at = up,
            None => return &[],
        }
    }
    &[]
}

/// The place of a member of this kind and name in the declaration at a path.
fn member_at(
    spots: &[Spot],
    declared: &[Vec<usize>],
    id: ClassId,
    kind: u32,
    name: Name,
) -> Option<usize> {
    let spot = spot_at(spots, declared, id)?;
    place_of(&spot.members, &[kind, name.0])
}

/// The place of a method in the declaration at a path.
pub fn method_at(
    spots: &[Spot],
    declared: &[Vec<usize>],
    id: ClassId,
    name: Name,
) -> Option<usize> {
    member_at(spots, declared, id, METHOD, name)
}

/// The place of a field in the declaration at a path.
pub fn field_at(spots: &[Spot], declared: &[Vec<usize>], id: ClassId, name: Name) -> Option<usize> {
    member_at(spots, declared, id, FIELD, name)
}
