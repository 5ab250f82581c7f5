//! What a judge says of a history.

/// What a judge says of a history.
#[derive(Clone, Copy, Debug, PartialEq, Eq)]
pub enum Verdict {
    /// A single thread could have produced it: each order is answered, at once or later, as the sequential directory
    /// answers then, under the rules that it is judged by.
    Legal,
    /// It isn't. This line, counted from 1, is the first that breaks the rules. If only replies are missing at its
    /// end, or the end of a head, this is the line after its last.
    Differs(usize),
}
