//! Tables of cases, as data: a file of cases is TOML, a list of tables under `case`.
//!
//! A program of rows reads such a file, does what each case asks, and compares. `Case` is one table with its name and
//! the line where it begins; `Case::text` and its like read what stands under a key; `bytes_of` reads bytes, also in
//! hex and with repeats; `Tally` counts the cases and tells each that differs.
#![tactic(auto)]

mod bytes;
mod case;
mod fault;
mod read;
mod run;
mod tally;

pub use bytes::bytes_of;
pub use case::Case;
pub use fault::CasesFault;
pub use read::read_cases;
pub use run::{Rows, run_cases, run_files};
pub use tally::Tally;
