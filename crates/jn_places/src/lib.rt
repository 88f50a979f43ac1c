//! Which instructions are those of a form, with the typing beside, as definitions.
//!
//! Nothing here computes. Where the code of a form depends on types, what the rules find says which code it is.
#![tactic(auto)]
