ghost use Rattle.std.specs.Prelude.{IfOk};
ghost use Rattle.std.specs.List.Sorted.{IsStrictlyIncreasing};
ghost use Rattle.jn_reach.specs.Pairs.{AreMembers};
ghost use Rattle.jn_share.specs.Members.{AreGroupMembers, MembersAre};

use crate::groups::Groups;
use jn_reach::class_members;
use sqlite_items::at;
use std::alloc::{AllocError, Global};

/// The numbers of each group.
#[derive(Drop)]
pub struct GroupMembers {
    /// For each number the first one of its group.
    pub starts: Vec<usize>,
    /// For each first number the numbers of its group, in ascending order.
    pub numbers: Vec<Vec<usize>>,
}

/// The numbers of each group.
pub fn group_members(alloc: Global, g: &Groups) -> Result<GroupMembers, AllocError>
    ensures { IfOk result (λ lists. AreGroupMembers g.now lists) }
{
    let starts = g.starts(alloc)?;
    let numbers = class_members(alloc, &starts)?;
    Ok(GroupMembers { starts, numbers })
}

/// The numbers of the group of the number.
pub fn members_of(lists: &GroupMembers, k: usize) -> &[usize]
    requires { AreMembers lists.now.starts.items lists.now.numbers.items }
    ensures ascending { IsStrictlyIncreasing result.now }
    ensures are { MembersAre lists.now k result.now }
{
    match at(&lists.starts, k) {
        None => &[],
        Some(start) => match at(&lists.numbers, *start) {
            None => &[],
            Some(numbers) => numbers,
        },
    }
}
