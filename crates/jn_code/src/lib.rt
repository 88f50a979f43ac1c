//! Images of stack code: what they hold, which of them are in form and which are valid, and what the machine does with one.
#![tactic(auto)]

pub mod fault;
pub mod image;
pub mod instr;
pub mod kind;
pub mod law;
pub mod rows;
pub mod spelling;

pub use fault::{CodeWhy, FieldKind, ImageFault, RowWhy};
pub use image::{
    ClassRow, Code, FieldEntry, Group, Image, MemberEntry, MethodEntry, OtherEntry, Shape, Text,
};
pub use instr::Instr;
pub use kind::OperandKind;
