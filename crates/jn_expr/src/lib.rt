//! The types of expressions.
#![tactic(auto)]

mod calls;
mod closure;
mod env;
mod fault;
mod fields;
mod fits;
mod grants;
mod lookup;
mod makes;
mod marks;
mod masks;
mod members;
mod news;
mod operators;
mod sharing;
mod super_calls;
mod supers;
mod types;
mod values;
mod views;
mod walk;

pub use env::{Env, Value};
pub use fault::refused;
pub use fields::of_receiver;
pub use fits::type_fits;
pub use lookup::method_at;
pub use marks::{kind_of, note_atom, note_kind, note_member, note_var};
pub use masks::{is_masked, masks_of};
pub use members::{Declared, constructor_from, field_of, least_at};
pub use operators::{is_bool, is_int, is_null, is_object};
pub use types::{below, normal_of, path_of, put_in};
pub use values::{is_class, masks_at, newest};
pub use walk::{type_of, value_of};
