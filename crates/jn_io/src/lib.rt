//! The outside of the compiler: where it reads and saves files, and where its output goes.
//!
//! `Store` and `Sink` are traits that count their faults: a call may answer `Failed` only where the count rose, so a
//! caller that hands the fault on can't make one up. What a store or a sink holds is told or not. `MemStore` and
//! `MemSink` tell all, and fail exactly where they are asked to. `DirStore` and `StdSink` are real files and streams;
//! they tell no content, since no contract can say what the system holds.
#![tactic(auto)]

mod calls;
mod dir_store;
mod faults;
mod mem_files;
mod mem_sink;
mod mem_store;
mod sink;
mod std_sink;
mod store;

pub use dir_store::DirStore;
pub use faults::{Failed, SaveFault};
pub use mem_sink::MemSink;
pub use mem_store::MemStore;
pub use sink::Sink;
pub use std_sink::StdSink;
pub use store::Store;
