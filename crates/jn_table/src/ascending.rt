ghost use Rattle.std.specs.Prelude.{Contains, IfOk};
ghost use Rattle.jn_reach.specs.Graph.{Lists};

use std::alloc::AllocError;

/// The numbers in ascending order, each once.
pub fn ascending(numbers: Vec<usize>) -> Result<Vec<usize>, AllocError>
    ensures { IfOk result (λ row. Lists (Contains numbers.items) row.items) }
{
    let mut row = numbers;
    row.sort()?;
    row.dedup();
    Ok(row)
}
