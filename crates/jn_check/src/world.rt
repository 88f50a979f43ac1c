use jn_base::names::Resolved;
use jn_names::Members;
use jn_share::{Groups, Slots};
use jn_table::Table;

/// What a program that is accepted is known by: its class table, its least members, the groups of its classes, the
/// slots of their fields, and what the names of each body stand for, in source order.
#[derive(Drop)]
pub struct World {
    pub table: Table,
    pub members: Members,
    pub groups: Groups,
    pub slots: Slots,
    pub bodies: Vec<Resolved>,
}
