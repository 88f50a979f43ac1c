use jn_base::tree::{Name, Program};
use jn_names::Members;
use jn_share::{Groups, Slots};

/// A program with what is known of it beside its class table: the names of its masks, its members, groups and slots.
#[derive(Clone, Copy)]
pub struct World<'a> {
    pub program: &'a Program,
    pub masks: &'a [Name],
    pub members: &'a Members,
    pub groups: &'a Groups,
    pub slots: &'a Slots,
}
