use jn_intern::Scope;

/// Where a statement stands, beside the variables in scope: their types, their present masks, and the number of the
/// next local.
#[derive(Drop)]
pub struct Locals {
    /// `this` and the variables, each with its declared type.
    pub declared: Scope,
    /// The same paths, each with the masks that it has now.
    pub scope: Scope,
    /// The number of the next local; numbers aren't used again behind a block.
    pub next: u32,
}
