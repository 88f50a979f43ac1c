//! How a call on the outside fails.

/// The outside failed: a fault was counted, or the file to begin isn't there.
#[derive(Clone, Copy, Debug, PartialEq, Eq)]
pub struct Failed;

/// Why a file was not saved.
#[derive(Clone, Copy, Debug, PartialEq, Eq)]
pub enum SaveFault {
    /// The store failed, and counted it.
    Failed,
    /// There was no memory for it.
    Memory,
}
