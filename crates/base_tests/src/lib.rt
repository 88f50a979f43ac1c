//! Tests of the tree's calls: paths, names and anchors compared, and the forms that a program has.
#![tactic(auto)]

#[cfg(test)]
mod compared;
#[cfg(test)]
mod forms;
#[cfg(test)]
mod paths;
