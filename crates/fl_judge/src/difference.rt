//! Where the lines of a trace break the rules.

use fl_history::Line;
use fl_order::Told;

/// Where the lines of a trace break the rules, and what these want there.
#[derive(Clone, Copy, Debug, PartialEq, Eq)]
pub struct Difference {
    /// The number, from 1, of the first line that does. If only replies are missing, or the end of a head, this is the
    /// line after the last.
    pub number: usize,
    /// This line; none if it is missing.
    pub found: Option<Line>,
    /// The reply that has to come in its place; none if none has. Then an order may, or a line of a head.
    pub due: Option<Told>,
}
