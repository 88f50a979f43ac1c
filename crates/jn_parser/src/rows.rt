//! A step over items, and items put together.

ghost use Rattle.std.specs.Prelude.{◌≡◌, ◌∷◌, [], IfOk, MatchOption};

use sqlite_items::Items;
use std::alloc::{AllocError, Global};

/// The first of some items, and those behind it.
pub fn split_first<T: Copy>(items: &[T]) -> Option<(T, &[T])>
    ensures { MatchOption result (items.now ≡ []) (λ x. items.now ≡ x.0 ∷ x.1.now) }
{
    match items {
        [] => None,
        [first, others @ ..] => Some((*first, others)),
    }
}

/// One item.
pub fn alone<T: Drop>(alloc: Global, item: T) -> Result<Items<T>, AllocError>
    ensures { IfOk result (λ all. all ≡ item ∷ []) }
{
    let mut all = Items::new(alloc);
    all.push(item)?;
    Ok(all)
}

/// The first, and the others behind it.
pub fn joined<T: Drop>(alloc: Global, first: T, others: Items<T>) -> Result<Items<T>, AllocError>
    ensures { IfOk result (λ all. all ≡ first ∷ others) }
{
    let mut all = Items::new(alloc);
    all.push(first)?;
    all.append(others)?;
    Ok(all)
}
