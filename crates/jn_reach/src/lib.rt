//! Closures over numbered nodes, each proved exact: what chains of edges reach, the classes of the least equivalence
//! that holds some pairs, and the least set that holds some seeds and is closed under rules of one premise.
//!
//! A graph is a list of rows. Its nodes are the numbers below its length, and row a lists the nodes to which an edge
//! leads from a, in any order and as often as it likes; [`edges_of`] makes one of pairs. Each answer holds a node
//! exactly where the definition does:
//!
//! | Call | Its answer | Defined in |
//! |---|---|---|
//! | [`reached`], [`reached_from`], [`closure`] | the ends of chains of edges from several nodes, from one, from each | `specs/Chain`, `specs/Graph` |
//! | [`origins`] | from which of the starts a node is reached first | `specs/Origins` |
//! | [`first_on_cycle`] | the first node that is the end of a chain of one edge or more from itself | `specs/Chain` |
//! | [`least_set`] | what follows from the seeds | `specs/Derived` |
//! | [`class_firsts`], [`class_members`] | the least node of each node's class, and the nodes of each class | `specs/Equivalent`, `specs/Pairs` |
//!
//! Lists of nodes are ascending and hold each node once, so a caller that numbers its things in some order has its
//! answers in that order. A node is a `usize` of any size, and each call asks that no edge, pair or start leads
//! outside the graph. The only error is want of memory; no call changes what it is given.
//!
//! [`origins`], [`reached`], [`least_set`] and [`class_firsts`] visit each node once and follow each edge once, and
//! their memory grows with the nodes and edges. [`closure`] does this for each node, and keeps only the rows that it
//! gives. Neither time nor memory is in a contract, but for that each call ends.
//!
//! The nodes stand for things by their places in a list. `specs/Numbers` says that a relation on things is that of
//! their numbers, and `proofs/Numbering` carries each closure of the numbers to that of the things:
//! `Numbers-closure`, `Numbers-chain`, `Numbers-steps`, `Numbers-equivalent`, `NumbersSet-derived`. `proofs/Chains`
//! has the laws over any relation, and `laws` those over graphs and pairs as contracts. `Each` and `Searches` serve
//! loops that make one thing for each, or that look for one.
#![tactic(auto)]

mod cycle;
mod laws;
mod lists;
mod pairs;
mod search;

pub use cycle::{first_on_cycle, has_edge};
pub use laws::{chains_are_least, classes_are_least, origins_are_one, sets_are_least};
pub use lists::{closure, reached, reached_from};
pub use pairs::{are_below, class_firsts, class_members, edges_of, least_set};
pub use search::origins;
