ghost use Rattle.std.specs.Prelude.{◌≡◌, ◌↔◌, false, Contains, Some, IsTrue, IfOk, IfSome, MatchOption, length, nat_eq};
ghost use Rattle.indexmap.specs.IndexMap.{get};
ghost use Rattle.jn_base.specs.TableRules.{IsCycle, NoneIs};
ghost use Rattle.jn_table.specs.Tables.{IsFilled};
ghost use Rattle.jn_table.specs.declared.class.ClassId.{ClassId as AClassId};
ghost use Rattle.jn_names.specs.declared.members.Least.TheVariants as least;
ghost use Rattle.jn_names.specs.Ascending.{Ascend};
ghost use Rattle.jn_names.specs.Listed.{AreListed, method_keys, field_keys};
ghost use Rattle.jn_names.specs.MemberRows.{SupAtRow, HasLowerRow, PassedRow, PassedTo, IsLowRow, FirstLowRow};
ghost use Rattle.jn_names.specs.MemberRows.{FieldlessRow, FieldlessTo, IsFieldRow, FirstFieldRow, LeastRow, FieldRow};
ghost use Rattle.jn_names.specs.MemberRows.{IsOneRow, AboveRow, AboveTo};

use crate::ascending::{is_among, is_class};
use crate::by_name::keep_at_each;
use crate::member_row::{MemberRow, is_super};
use crate::rows::row_of;
use indexmap::IndexMap;
use jn_base::tree::{Name, Program};
use jn_table::{ClassId, Table};
use sqlite_items::at;
use std::alloc::{AllocError, Global};

/// How often a class has a method or a field among its supers.
#[derive(Clone, Copy, Debug, PartialEq, Eq)]
pub enum Least {
    /// No super declares it.
    None,
    /// The least declaration of a method, or the only one of a field.
    One(ClassId),
    /// There is no such one: the first two declarations of a method below which no other stands, or of a field, in
    /// class order.
    Many(ClassId, ClassId),
}

/// Which declarations the methods and fields of each class have.
///
/// The least one of a method stands among the supers of the class and among the classes that declare it. The shorter of
/// the two lists is walked, and each number of it is looked for in the other by halves.
#[derive(Drop)]
pub struct Members {
    rows: Vec<MemberRow>,
    by_method: IndexMap<u32, Vec<ClassId>>,
    by_field: IndexMap<u32, Vec<ClassId>>,
    ghost methods_listed: { AreListed method_keys rows.items (get nat_eq by_method) },
    ghost fields_listed: { AreListed field_keys rows.items (get nat_eq by_field) },
}

/// Whether it is the number.
fn is_just(but: Option<ClassId>, id: ClassId) -> bool
    ensures { IsTrue result ↔ (but ≡ Some id) }
{
    match but {
        None => false,
        Some(other) => is_class(other, id),
    }
}

fn has_sup(rows: &[MemberRow], a: ClassId, b: ClassId) -> bool
    ensures { IsTrue result ↔ SupAtRow rows.now a b }
{
    match at(rows, a.0 as usize) {
        None => false,
        Some(row) => is_super(row, b),
    }
}

/// Whether `t` is another one, is in the other list, and stands below `s`.
fn is_lower(rows: &[MemberRow], among: &[ClassId], s: ClassId, t: ClassId) -> bool
    requires { Ascend among.now }
    ensures { IsTrue result ↔ ((t ≡ s → ⊥) × Contains among.now t × SupAtRow rows.now t s) }
{
    if is_class(t, s) {
        return false;
    }
    if !is_among(among, t) {
        return false;
    }
    has_sup(rows, t, s)
}

/// Whether another of the numbers is in the other list and stands below `s`.
fn has_lower(rows: &[MemberRow], among: &[ClassId], ids: &[ClassId], s: ClassId) -> bool
    requires { Ascend among.now }
    ensures { IsTrue result ↔ HasLowerRow rows.now ids.now among.now s }
{
    for t in ids {
        if is_lower(rows, among, s, *t) {
            return true;
        }
    }
    false
}

/// Whether the number is not in the other list, is the one that is left out, or has another below.
fn is_passed(
    rows: &[MemberRow],
    among: &[ClassId],
    ids: &[ClassId],
    but: Option<ClassId>,
    s: ClassId,
) -> bool
    requires { Ascend among.now }
    ensures passed { IsTrue result → PassedRow rows.now ids.now among.now but s }
    ensures low { result ≡ false → IsLowRow rows.now ids.now among.now but s }
{
    if !is_among(among, s) {
        return true;
    }
    if is_just(but, s) {
        return true;
    }
    has_lower(rows, among, ids, s)
}

/// The first of the numbers, but for one, that is in the other list and has none below.
fn first_low(
    rows: &[MemberRow],
    among: &[ClassId],
    ids: &[ClassId],
    but: Option<ClassId>,
) -> Option<ClassId>
    requires { Ascend among.now }
    ensures { MatchOption result (PassedTo rows.now ids.now among.now but (length ids.now))
        (FirstLowRow rows.now ids.now among.now but) }
{
    for s in ids {
        if !is_passed(rows, among, ids, but, *s) {
            return Some(*s);
        }
    }
    None
}

/// Whether the number is not in the other list, or is the one that is left out.
fn is_fieldless(among: &[ClassId], but: Option<ClassId>, s: ClassId) -> bool
    requires { Ascend among.now }
    ensures passed { IsTrue result → FieldlessRow among.now but s }
    ensures other { result ≡ false → IsFieldRow among.now but s }
{
    if !is_among(among, s) {
        return true;
    }
    is_just(but, s)
}

/// The first of the numbers, but for one, that is in the other list.
fn first_field(among: &[ClassId], ids: &[ClassId], but: Option<ClassId>) -> Option<ClassId>
    requires { Ascend among.now }
    ensures { MatchOption result (FieldlessTo ids.now among.now but (length ids.now))
        (FirstFieldRow ids.now among.now but) }
{
    for s in ids {
        if !is_fieldless(among, but, *s) {
            return Some(*s);
        }
    }
    None
}

/// Whether the number stands below the one before it, where there is one.
fn is_lower_yet(rows: &[MemberRow], low: Option<ClassId>, s: ClassId) -> bool
    ensures { (a : AClassId) → low ≡ Some a → IsTrue result ↔ SupAtRow rows.now s a }
{
    match low {
        None => true,
        Some(a) => has_sup(rows, s, a),
    }
}

/// Whether the number is in the other list and stands below the one before it, where there is one.
fn goes_down(rows: &[MemberRow], among: &[ClassId], low: Option<ClassId>, s: ClassId) -> bool
    requires { Ascend among.now }
    ensures { IsTrue result → Contains among.now s }
{
    is_among(among, s) && is_lower_yet(rows, low, s)
}

/// One of the numbers that are in the other list: where one stands below all others, that one.
fn lowest(rows: &[MemberRow], among: &[ClassId], ids: &[ClassId]) -> Option<ClassId>
    requires { Ascend among.now }
    ensures { IfSome result (IsOneRow ids.now among.now) }
{
    let mut low = None;
    for s in ids {
        if goes_down(rows, among, low, *s) {
            low = Some(*s);
        }
    }
    low
}

/// Whether the number is not in the other list, or is `a`, or `a` stands below it.
fn is_above(rows: &[MemberRow], among: &[ClassId], a: ClassId, s: ClassId) -> bool
    requires { Ascend among.now }
    ensures { IsTrue result → AboveRow rows.now among.now a s }
{
    if !is_among(among, s) {
        return true;
    }
    is_class(s, a) || has_sup(rows, a, s)
}

/// Whether `a` stands below all others of the numbers that are in the other list.
fn are_above(rows: &[MemberRow], among: &[ClassId], ids: &[ClassId], a: ClassId) -> bool
    requires { Ascend among.now }
    ensures { IsTrue result → AboveTo rows.now ids.now among.now a (length ids.now) }
{
    for s in ids {
        if !is_above(rows, among, a, *s) {
            return false;
        }
    }
    true
}

/// Whether `a` has none below, and stands below all others of the numbers that are in the other list.
fn is_least(rows: &[MemberRow], among: &[ClassId], ids: &[ClassId], a: ClassId) -> bool
    requires { Ascend among.now }
    ensures { IsTrue result → IsOneRow ids.now among.now a
        → LeastRow rows.now ids.now among.now (least.One a) }
{
    are_above(rows, among, ids, a) && !has_lower(rows, among, ids, a)
}

/// The least one of the numbers that are in the other list, or the first two that have none below. The least one is
/// found by walks over the numbers; only where there is none, each is asked for another below.
fn least_among(rows: &[MemberRow], among: &[ClassId], ids: &[ClassId]) -> Least
    requires { Ascend among.now }
    ensures { LeastRow rows.now ids.now among.now result }
{
    match lowest(rows, among, ids) {
        None => low_ones(rows, among, ids),
        Some(a) => {
            if is_least(rows, among, ids, a) {
                return Least::One(a);
            }
            low_ones(rows, among, ids)
        }
    }
}

/// The same, of which each number that is in the other list is asked for another below.
fn low_ones(rows: &[MemberRow], among: &[ClassId], ids: &[ClassId]) -> Least
    requires { Ascend among.now }
    ensures { LeastRow rows.now ids.now among.now result }
{
    match first_low(rows, among, ids, None) {
        None => Least::None,
        Some(a) => match first_low(rows, among, ids, Some(a)) {
            None => Least::One(a),
            Some(b) => Least::Many(a, b),
        },
    }
}

/// The only one of the numbers that is in the other list, or the first two.
fn field_among(among: &[ClassId], ids: &[ClassId]) -> Least
    requires { Ascend among.now }
    ensures { FieldRow ids.now among.now result }
{
    match first_field(among, ids, None) {
        None => Least::None,
        Some(a) => match first_field(among, ids, Some(a)) {
            None => Least::One(a),
            Some(b) => Least::Many(a, b),
        },
    }
}

/// The least one of the numbers that are supers of the row's class, or the first two. The shorter list is walked.
fn least_of(rows: &[MemberRow], row: &MemberRow, ids: &[ClassId]) -> Least
    requires { Ascend ids.now }
    ensures { LeastRow rows.now ids.now row.now.sups.items result }
{
    if ids.len() <= row.sups.len() {
        return least_among(rows, &row.sups, ids);
    }
    least_among(rows, ids, &row.sups)
}

/// The only one of the numbers that is a super of the row's class, or the first two. The shorter list is walked.
fn field_of(row: &MemberRow, ids: &[ClassId]) -> Least
    requires { Ascend ids.now }
    ensures { FieldRow ids.now row.now.sups.items result }
{
    if ids.len() <= row.sups.len() {
        return field_among(&row.sups, ids);
    }
    field_among(ids, &row.sups)
}

impl Members {
    ghost use Rattle.jn_names.specs.Members.{IsMembersOf, SaysLeast, SaysField, SaysDeclaring, SaysSuper};

    /// The members of a program, by a table in which its universe is filled.
    pub fn build(alloc: Global, p: &Program, t: &Table) -> Result<Members, AllocError>
        ensures { IfOk result (λ members. IsFilled p.now t.now → NoneIs (IsCycle p.now)
            → IsMembersOf p.now t.now members) }
    {
        let mut rows = Vec::new(alloc);
        let mut by_method = IndexMap::new(alloc);
        let mut by_field = IndexMap::new(alloc);
        for k in 0..t.known().len() {
            let id = ClassId(k as u16);
            let row = row_of(alloc, t, id)?;
            keep_at_each(alloc, &mut by_method, row.methods.as_slice(), id)?;
            keep_at_each(alloc, &mut by_field, row.fields.as_slice(), id)?;
            rows.push(row)?;
        }
        Ok(Members {
            rows,
            by_method,
            by_field,
        })
    }

    /// The least declaration of a method of a class, or the first two where there is none.
    pub fn least(&self, id: ClassId, m: Name) -> Least
        ensures { SaysLeast self.now id m result }
    {
        match at(&self.rows, id.0 as usize) {
            None => Least::None,
            Some(row) => match self.by_method.get(&m.0) {
                None => Least::None,
                Some(ids) => least_of(&self.rows, row, ids),
            },
        }
    }

    /// The declaration of a field of a class, or the first two where there are more.
    pub fn field(&self, id: ClassId, f: Name) -> Least
        ensures { SaysField self.now id f result }
    {
        match at(&self.rows, id.0 as usize) {
            None => Least::None,
            Some(row) => match self.by_field.get(&f.0) {
                None => Least::None,
                Some(ids) => field_of(row, ids),
            },
        }
    }

    /// The classes whose own declarations have a method, in ascending order.
    pub fn declaring(&self, m: Name) -> &[ClassId]
        ensures told { SaysDeclaring self.now m result.now }
        ensures ascend { Ascend result.now }
    {
        match self.by_method.get(&m.0) {
            None => &[],
            Some(ids) => ids,
        }
    }

    /// Whether the other class is a super of the class.
    pub fn is_super(&self, id: ClassId, other: ClassId) -> bool
        ensures { SaysSuper self.now id other result }
    {
        has_sup(&self.rows, id, other)
    }
}
