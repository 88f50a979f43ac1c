//! Tests of the outside and of the top call that no row can say: real files and streams, a caller that knows only the
//! traits, and the laws.
#![tactic(auto)]

#[cfg(test)]
mod tests;
