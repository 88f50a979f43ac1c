ghost use Rattle.std.specs.Prelude.{◌≡◌, ◌<◌, ◌+◌, ℕ, length, IsTrue};
ghost use Rattle.std.specs.List.Sorted.{IsStrictlyIncreasing};
ghost use Rattle.jn_base.specs.Paths.{Path as APath};
ghost use Rattle.jn_table.specs.Tables.{IsFilledAt};
ghost use Rattle.jn_share.specs.Counting.{CountIs, Counts, IsEntryOf, IsEntryTo, SaysCount, SaysOther, SaysOthers};
ghost use Rattle.jn_share.specs.Members.{AreGroupMembers};
ghost use Rattle.jn_share.specs.Pairing.{IsAt};

use crate::groups::Groups;
use crate::members::{GroupMembers, members_of};
use crate::pairs::is_class;
use jn_table::{ClassId, Table};

/// The sum of two counts; past the limit only that it is past.
fn plus(a: usize, b: usize) -> usize
    ensures { (m n : ℕ) → CountIs m a → CountIs n b → CountIs (m + n) result }
{
    a.saturating_add(b)
}

/// Whether the path of the first number is a class, and the second number is another one.
fn is_other(t: &Table, r: usize, k: usize) -> bool
    ensures within { IsTrue result → r < length t.now.known.items }
    ensures is { SaysOther t.now r k result }
{
    if r >= t.known().len() {
        return false;
    }
    r != k && is_class(t, r)
}

/// How many of the numbers are other classes.
fn others(t: &Table, among: &[usize], k: usize) -> usize
    requires { IsStrictlyIncreasing among.now }
    ensures { SaysOthers t.now among.now k result }
{
    let mut count = 0;
    for r in among {
        if is_other(t, *r, k) {
            count = plus(count, 1);
        }
    }
    count
}

/// The number of entries of the path of the number.
fn row_entries(t: &Table, g: &Groups, lists: &GroupMembers, id: ClassId) -> usize
    requires filled { IsFilledAt t.now id }
    requires within { id.0 < length t.now.known.items }
    requires lists { AreGroupMembers g.now lists.now }
    ensures { SaysCount t.now g.now (λ p. (R : APath) → IsAt t.now.known.items id.0 R
        → Counts (IsEntryOf p R) result) }
{
    let row = t.row(id);
    let names = plus(plus(row.members.len(), row.methods.len()), row.fields.len());
    if !is_class(t, id.0 as usize) {
        return names;
    }
    plus(
        names,
        others(t, members_of(lists, id.0 as usize), id.0 as usize),
    )
}

/// The number of entries of the program.
pub fn entries(t: &Table, g: &Groups, lists: &GroupMembers) -> usize
    requires { AreGroupMembers g.now lists.now }
    ensures { SaysCount t.now g.now (λ p. Counts (IsEntryTo p t.now.known.items (length t.now.known.items)) result) }
{
    let mut count = 0;
    for k in 0..t.known().len() {
        count = plus(count, row_entries(t, g, lists, ClassId(k as u16)));
    }
    count
}
