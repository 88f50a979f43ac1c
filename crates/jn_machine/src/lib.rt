//! The machine that runs images, in memory that was taken before: frames, operands, cells and output.
#![tactic(auto)]

mod call;
mod cells;
mod did;
mod entries;
mod frame;
mod frames;
mod heap;
mod locals;
mod machine;
mod numbers;
mod obey;
mod object;
mod operands;
mod output;
mod plain;
mod run;
mod turn;
mod widths;

pub use machine::Machine;
pub use run::Halt;
