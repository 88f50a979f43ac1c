//! The class table of a program: the paths of its universe, each with its kind, supers, members, methods and fields.
//!
//! [`Table::new`] takes the declarations of a tree, and [`Table::ask_all`] fills the rows of the whole
//! universe, or answers the first refusal: more than 4,096 paths, a path that is its own strict super, or one
//! whose supers have both kinds. [`Table::row`], [`Table::sup`], [`Table::find`], [`Table::before`] and
//! [`Table::known`] read it. `specs/Tables` says of which program a table is and what the calls say,
//! `specs/Rows` what a row says of a path, and `specs/Answers` why a universe is refused.
//!
//! How a table is made: the declarations are a list of entries (`entry`), with their names in the order of their
//! bytes (`order`). A depth is made of the one above it: its paths are the members of the paths above, path by path
//! and name by name (`children`, by the places of the names that `named` has), its direct supers come of the rows
//! above (`level`), and its supers are the closure of these. `depths` goes on to the last depth that has a path, or
//! to the 4,097th path, so it ends on every program, also where inheritance is cyclic, and never holds more paths.
//! The depths together are one graph, whose nodes are the paths in class order (`nodes`). With the closure of its
//! edges and with what the declarations at each path are and have (`own`) it is a `universe`, in which `judge`
//! looks for cycles and for two kinds, and of which `row` makes the rows. `finding` has the paths in an order in
//! which one is found by halves, and `groups` the entries by their paths and by their namespaces, the paths of a
//! depth by their names and what they are under, and the paths by what is near them (`near`). `ascending` puts
//! numbers in order, each once, and `spots` has where each declaration and
//! each of its members is expected in the text.
//!
//! A [`ClassId`] is the place of its path in class order.
#![tactic(auto)]

mod ascending;
mod children;
mod class;
mod depths;
mod entry;
mod fault;
mod field_types;
mod fill;
mod finding;
mod gather;
mod groups;
mod judge;
mod level;
mod lookup;
mod named;
mod near;
mod nodes;
mod order;
mod own;
mod route;
mod row;
mod spots;
mod table;
mod universe;

pub use class::{ClassId, Row, RowMember};
pub use fault::TableFault;
pub use field_types::{FieldTy, FieldTypes};
pub use table::Table;
