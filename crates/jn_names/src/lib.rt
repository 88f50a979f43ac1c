//! What the names of a program stand for: the terms of its types, and the methods and fields of its classes.
//!
//! `resolve` tells what a term stands for, `resolve_type` and `resolve_view` a type and a view with their masks,
//! `field_types` the type of each declared field, and `mask_names` numbers the masks. The rules are the definitions
//! of `jn_base` (specs/Resolve and specs/ResolveTypes there). `Members` has the least declaration of each method and
//! the declaration of each field.
#![tactic(auto)]

mod ascending;
mod before;
mod bound;
mod by_name;
mod fault;
mod fields;
mod masks;
mod member_row;
mod members;
mod name_set;
mod numbering;
mod resolving;
mod rows;
mod scope;
mod seek;
mod term;
mod types;

pub use bound::Bound;
pub use fault::NameFault;
pub use fields::field_types;
pub use jn_base::names::{Resolved, Role, Spot, Var, Vars};
pub use members::{Least, Members};
pub use numbering::mask_names;
pub use resolving::{resolve, resolve_type, resolve_view};
pub use scope::atom_bound;
pub use term::atom_of;
pub use types::type_of;
