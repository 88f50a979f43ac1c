//! What the rows of `rows_classes` can't say as data: that the laws of the crates below can be called.
#![tactic(auto)]

#[cfg(test)]
mod tests;
