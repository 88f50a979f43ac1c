use jn_base::refusal::Limit;

/// Where reading stops, by how many words stand from there to the end.
#[derive(Clone, Copy, Debug, PartialEq, Eq)]
pub enum Fault {
    /// No program goes on with the word.
    Syntax(usize),
    /// The word passes the limit.
    Passed(Limit, usize),
}
