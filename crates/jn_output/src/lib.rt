//! Output that goes to a sink in pieces of exactly 8,192 bytes, and a last shorter one: texts, numbers and truth values, each a
//! line.
#![tactic(auto)]

mod output;

pub use output::Output;
