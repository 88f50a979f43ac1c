ghost use Rattle.std.specs.Prelude.{◌≡◌, ◌<◌, ℕ, List, Contains, IfOk, length};
ghost use Rattle.jn_reach.specs.Each.{Each};
ghost use Rattle.jn_base.specs.declared.tree.Program.{Program as AProgram};
ghost use Rattle.jn_base.specs.Paths.{Path as APath};
ghost use Rattle.jn_table.specs.declared.table.Table.{Table as ATable};
ghost use Rattle.jn_table.specs.Rows.{IsNumber, IsRow};
ghost use Rattle.jn_table.specs.Tables.{IsFilled, IsFilledAt};
ghost use Rattle.jn_share.specs.Groups.{AreGroups};
ghost use Rattle.jn_names.specs.declared.members.Members.{Members as AMembers};
ghost use Rattle.jn_share.specs.declared.groups.Groups.{Groups as AGroups};
ghost use Rattle.jn_share.specs.declared.slots.Slots.{Slots as ASlots};
ghost use Rattle.jn_agree.specs.declared.selectors.Selectors.{Selectors as ASelectors};
ghost use Rattle.jn_layout.specs.Asked.{RowsAsked};
ghost use Rattle.jn_agree.specs.Naming.{Naming};
ghost use Rattle.jn_code.specs.declared.image.Image.{Image};
ghost use Rattle.jn_agree.specs.Rows.{HasEntry, SlotsAre};
ghost use Rattle.jn_layout.specs.declared.pairs.Pair.{Pair as APair};
ghost use Rattle.jn_layout.specs.Pairs.{AreEntries, Gathers};
ghost use Rattle.jn_agree.specs.declared.selectors.MethodSel.{MethodSel as AMethodSel};
ghost use Rattle.jn_agree.specs.declared.selectors.FieldSel.{FieldSel as AFieldSel};
ghost use Rattle.jn_layout.specs.declared.declared.BodyAt.{BodyAt as ABodyAt};
ghost use Rattle.jn_layout.specs.Finding.{MethodsPlaced, FieldsPlaced};
ghost use Rattle.jn_layout.specs.Lookups.{MethodsAsked, MethodPair, FieldsAsked, FieldPair, FieldPlace};
ghost use Rattle.jn_layout.specs.RowLists.{IsMade, ArePairs, OfRows, RowRight, AreMemberEntries, AreMethodEntries, AreFieldEntries, AreOtherEntries, RowsRight, FirstsListed};

use crate::declared::{Declared, FieldAt, declared_of};
use crate::finder::{Finder, finder_of};
use crate::kin::{Kin, families_of, firsts_of, kin_of};
use crate::lookups::{field_at, method_at};
use crate::pairs::{Pair, in_order};
use crate::parts::{family_of, group_of, members_of, others_of, two_bytes, up_of};
use jn_agree::selectors::Selectors;
use jn_base::tree::{Name, Program};
use jn_code::{ClassRow, FieldEntry, MemberEntry, MethodEntry, OtherEntry};
use jn_names::Members;
use jn_share::{Groups, Slots};
use jn_table::{ClassId, Row, Table};
use sqlite_items::Items;
use std::alloc::{AllocError, Global};

/// What the rows of all classes are made of.
#[derive(Drop)]
pub struct Made {
    pub kin: Kin,
    /// For each number that of its family.
    pub families: Vec<usize>,
    /// The numbers of the first classes of all groups.
    pub firsts: Vec<usize>,
    pub declared: Declared,
    pub finder: Finder,
}

/// The lists of a row, as pairs of numbers.
#[derive(Drop)]
pub struct RowPairs {
    pub members: Vec<Pair>,
    pub methods: Vec<Pair>,
    pub fields: Vec<Pair>,
    pub others: Vec<Pair>,
}

/// What the rows of all classes are made of.
fn make(
    alloc: Global,
    p: &Program,
    t: &Table,
    g: &Groups,
    names: &Selectors,
) -> Result<Made, AllocError>
    ensures { IfOk result (λ made. IsMade p.now t.now g.now names.now made) }
{
    let kin = kin_of(alloc, g)?;
    let families = families_of(alloc, t)?;
    let firsts = firsts_of(alloc, t, &kin)?;
    let declared = declared_of(alloc, p, t)?;
    let finder = finder_of(alloc, &declared, names)?;
    Ok(Made {
        kin,
        families,
        firsts,
        declared,
        finder,
    })
}

/// The selectors of the methods, with the codes that the class runs for them.
fn method_pairs(
    alloc: Global,
    m: &Members,
    finder: &Finder,
    id: ClassId,
    list: &[Name],
) -> Result<Vec<Pair>, AllocError>
    ensures { IfOk result (λ all. (p : AProgram) (t : ATable) (n : Naming) (R : APath) (names : List AMethodSel)
        (bodies : List ABodyAt) → MethodsAsked p t m.now names bodies n → MethodsPlaced bodies names finder.now
        → IsNumber t.known.items id R
        → Gathers (MethodPair p n R) list.now all.items) }
{
    let mut all = Vec::new(alloc);
    for name in list {
        match method_at(m, finder, id, *name) {
            None => {}
            Some(pair) => all.push(pair)?,
        }
    }
    Ok(all)
}

/// The codes that the class runs, by the numbers of the selectors.
fn methods_of(
    alloc: Global,
    m: &Members,
    finder: &Finder,
    id: ClassId,
    row: &Row,
) -> Result<Vec<Pair>, AllocError>
    ensures { IfOk result (λ all. (p : AProgram) (t : ATable) (n : Naming) (R : APath) (names : List AMethodSel)
        (bodies : List ABodyAt) → MethodsAsked p t m.now names bodies n → MethodsPlaced bodies names finder.now
        → IsNumber t.known.items id R
        → IsRow p t.known.items R row.now → AreEntries (HasEntry p n R) all.items) }
{
    let pairs = method_pairs(alloc, m, finder, id, &row.methods)?;
    in_order(pairs)
}

/// The selectors of the fields, with the slots that the class reads for them.
fn field_pairs(
    alloc: Global,
    m: &Members,
    s: &Slots,
    fields: &[FieldAt],
    finder: &Finder,
    id: ClassId,
    list: &[Name],
) -> Result<Vec<Pair>, AllocError>
    ensures is { IfOk result (λ all. (p : AProgram) (t : ATable) (n : Naming) (R : APath) (names : List AFieldSel)
        → FieldsAsked p t m.now s.now names fields.now n → FieldsPlaced fields.now names finder.now
        → IsNumber t.known.items id R
        → Gathers (FieldPair p n s.now id R) list.now all.items) }
    ensures small { IfOk result (λ all. (x : APair) → Contains all.items x → x.value < 256) }
{
    let mut all = Vec::new(alloc);
    for name in list {
        match field_at(m, s, fields, finder, id, *name) {
            None => {}
            Some(pair) => all.push(pair)?,
        }
    }
    Ok(all)
}

/// The slots that the class reads, by the numbers of the selectors.
fn fields_of(
    alloc: Global,
    m: &Members,
    s: &Slots,
    fields: &[FieldAt],
    finder: &Finder,
    id: ClassId,
    row: &Row,
) -> Result<Vec<Pair>, AllocError>
    ensures is { IfOk result (λ all. (p : AProgram) (t : ATable) (n : Naming) (R : APath) (names : List AFieldSel)
        → FieldsAsked p t m.now s.now names fields.now n → FieldsPlaced fields.now names finder.now
        → IsNumber t.known.items id R
        → IsRow p t.known.items R row.now → AreEntries (FieldPlace p n s.now id R) all.items) }
    ensures small { IfOk result (λ all. (x : APair) → Contains all.items x → x.value < 256) }
{
    let pairs = field_pairs(alloc, m, s, fields, finder, id, &row.fields)?;
    in_order(pairs)
}

/// The entries of members.
fn member_entries(alloc: Global, pairs: &[Pair]) -> Result<Items<MemberEntry>, AllocError>
    ensures { IfOk result (AreMemberEntries pairs.now) }
{
    let mut all = Items::new(alloc);
    for x in pairs {
        let name = two_bytes(x.key as usize);
        let class = two_bytes(x.value as usize);
        all.push(MemberEntry { name, class })?;
    }
    Ok(all)
}

/// The entries of methods.
fn method_entries(alloc: Global, pairs: &[Pair]) -> Result<Items<MethodEntry>, AllocError>
    ensures { IfOk result (AreMethodEntries pairs.now) }
{
    let mut all = Items::new(alloc);
    for x in pairs {
        all.push(MethodEntry {
            selector: x.key,
            code: x.value,
        })?;
    }
    Ok(all)
}

/// The number in one byte.
fn one_byte(k: u32) -> u8
    ensures { k < 256 → result ≡ k }
{
    k.min(255) as u8
}

/// The entries of fields.
fn field_entries(alloc: Global, pairs: &[Pair]) -> Result<Items<FieldEntry>, AllocError>
    ensures { IfOk result (AreFieldEntries pairs.now) }
{
    let mut all = Items::new(alloc);
    for x in pairs {
        let selector = x.key;
        let slot = one_byte(x.value);
        all.push(FieldEntry { selector, slot })?;
    }
    Ok(all)
}

/// The entries of counterparts.
fn other_entries(alloc: Global, pairs: &[Pair]) -> Result<Items<OtherEntry>, AllocError>
    ensures { IfOk result (AreOtherEntries pairs.now) }
{
    let mut all = Items::new(alloc);
    for x in pairs {
        let family = two_bytes(x.key as usize);
        let class = two_bytes(x.value as usize);
        all.push(OtherEntry { family, class })?;
    }
    Ok(all)
}

/// The lists of the row of a class.
fn pairs_of(
    alloc: Global,
    t: &Table,
    m: &Members,
    s: &Slots,
    made: &Made,
    id: ClassId,
) -> Result<RowPairs, AllocError>
    requires { IsFilledAt t.now id }
    ensures { IfOk result (λ all. (g : AGroups) (names : ASelectors) → OfRows t.now m.now g s.now names (λ p n. (R : APath)
        → IsMade p t.now g names made.now → IsNumber t.now.known.items id R → ArePairs p n s.now id R all)) }
{
    let row = t.row(id);
    let finder = &made.finder;
    let members = members_of(alloc, row)?;
    let methods = methods_of(alloc, m, finder, id, row)?;
    let slots = fields_of(alloc, m, s, &made.declared.fields, finder, id, row)?;
    let others = others_of(alloc, t, &made.kin, &made.families, id.0 as usize)?;
    Ok(RowPairs {
        members,
        methods,
        fields: slots,
        others,
    })
}

/// The row of a class, of its lists.
fn class_row(
    alloc: Global,
    t: &Table,
    made: &Made,
    pairs: &RowPairs,
    id: ClassId,
) -> Result<ClassRow, AllocError>
    requires { IsFilledAt t.now id }
    ensures { IfOk result (λ row. (m : AMembers) (g : AGroups) (s : ASlots) (names : ASelectors)
        → OfRows t.now m g s names (λ p n. (R : APath) → IsMade p t.now g names made.now
        → IsNumber t.now.known.items id R → ArePairs p n s id R pairs.now → RowRight p n s id R row)) }
{
    let members = member_entries(alloc, &pairs.members)?;
    let methods = method_entries(alloc, &pairs.methods)?;
    let fields = field_entries(alloc, &pairs.fields)?;
    let others = other_entries(alloc, &pairs.others)?;
    let k = id.0 as usize;
    let up = up_of(t.row(id));
    let family = family_of(&made.families, k);
    let group = group_of(t, &made.kin, &made.firsts, k);
    Ok(ClassRow {
        up,
        family,
        group,
        members,
        methods,
        fields,
        others,
    })
}

/// The row of a class.
fn row_of(
    alloc: Global,
    t: &Table,
    m: &Members,
    s: &Slots,
    made: &Made,
    id: ClassId,
) -> Result<ClassRow, AllocError>
    requires { IsFilledAt t.now id }
    ensures { IfOk result (λ row. (g : AGroups) (names : ASelectors) → OfRows t.now m.now g s.now names (λ p n. (R : APath)
        → IsMade p t.now g names made.now → IsNumber t.now.known.items id R → RowRight p n s.now id R row)) }
{
    let pairs = pairs_of(alloc, t, m, s, made, id)?;
    let row = class_row(alloc, t, made, &pairs, id)?;
    Ok(row)
}

/// The rows of an image: one for each class and package of the universe, in class order.
///
/// The universe is filled in the table, and the members, groups and slots are those of the program; each body has a
/// shape, each declared field a type, and the selectors have each of them once with its name. Two fields of one group have
/// one number exactly where they have one slot.
pub fn class_rows(
    alloc: Global,
    p: &Program,
    t: &Table,
    m: &Members,
    g: &Groups,
    s: &Slots,
    names: &Selectors,
) -> Result<Items<ClassRow>, AllocError>
    ensures rows { IfOk result (λ rows. (n : Naming) → RowsAsked p.now t.now m.now g.now s.now names.now n
        → RowsRight p.now n s.now rows) }
    ensures slots { IfOk result (λ rows. (n : Naming) (i : Image) → RowsAsked p.now t.now m.now g.now s.now names.now n
        → i.classes ≡ rows → SlotsAre p.now i n) }
{
    let made = make(alloc, p, t, g, names)?;
    let mut rows = Items::new(alloc);
    for k in 0..t.known().len() {
        let row = row_of(alloc, t, m, s, &made, ClassId(k as u16))?;
        rows.push(row)?;
    }
    Ok(rows)
}

/// The numbers of the first classes of all groups, in class order: group k of an image is that of the k-th of them.
pub fn group_firsts(alloc: Global, t: &Table, g: &Groups) -> Result<Vec<usize>, AllocError>
    ensures { IfOk result (λ all. (p : AProgram) → IsFilled p t.now → AreGroups p t.now.known.items g.now
        → FirstsListed p t.now all.items) }
{
    let kin = kin_of(alloc, g)?;
    let firsts = firsts_of(alloc, t, &kin)?;
    Ok(firsts)
}
