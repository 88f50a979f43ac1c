//! Which classes share objects, and which fields share slots: the groups of shared classes of a program, and the slots
//! of its fields.
//!
//! A family is a top-level name. `adapts A` on a top-level declaration X relates each class X.t with the class A.t, and
//! `shares A` on a nested declaration X.t relates that one alone; related is the least equivalence over these pairs,
//! and a group is one of its classes. [`Groups::build`] looks for the first listed name that may not stand there (E12),
//! and finds the groups where there is none; [`Groups::related`] and [`Groups::counterpart`] read them. Two views of
//! one object that are related have one slot for a field, unless the field's type differs between them so that a value
//! of the one is none of the other. [`Slots::build`] checks the limits of entries and slots (E04), and numbers the
//! slots of each group; [`Slots::slot`], [`Slots::size`] and [`Slots::hangs`] read them. [`is_family`] and [`lacks`]
//! ask of one listed name what making the groups asks of all.
//!
//! `specs/Groups` and `specs/Slots` say of which program groups and slots are and what the calls say, `specs/Limits`
//! which limit is passed; families, related classes, listed names, slots and what makes two slots of a field are
//! definitions of `jn_sem`.
//!
//! How groups are made: the listed names are gathered from the tree (`listed`) and checked one by one (`families`).
//! Each gives pairs of numbers of a table, looked for in its family alone (`pairs`), and the least equivalence over
//! these has a first number for each class. A class keeps this and its family (`rows`), and a group its numbers, once
//! for all its classes: so what is kept is linear in the paths, and a counterpart is looked for in its group.
//!
//! How slots are made: what is asked often is read off the table and the field types (`prepared`). The classes of a
//! group begin in one part and are parted, step by step, until no field tells two of a part apart (`alike`,
//! `refining`). Each field of a class then has a first class with which it has one slot (`firsts`), and these make the
//! numbers of the group's slots (`keys`).
#![tactic(auto)]

mod alike;
mod atoms;
mod declaring;
mod entries;
mod families;
mod fault;
mod field_first;
mod firsts;
mod groups;
mod homes;
mod keys;
mod listed;
mod members;
mod pairs;
mod parting;
mod paths;
mod prepared;
mod refining;
mod rows;
mod slots;
mod trail;

pub use alike::{hangs_on_this, is_this};
pub use atoms::{in_atom, in_atoms, in_type};
pub use families::{is_family, lacks};
pub use fault::ShareFault;
pub use groups::Groups;
pub use listed::InList;
pub use slots::Slots;
