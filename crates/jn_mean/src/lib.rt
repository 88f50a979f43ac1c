//! The plain run of a program: [`mean`] runs a program's meaning as it is defined, whatever is compiled.
#![tactic(auto)]

mod run;

pub use run::mean;
