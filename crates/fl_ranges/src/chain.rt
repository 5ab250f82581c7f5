//! On which chain the rows of a node's locks stand.
ghost use Rattle.std.specs.Prelude.{◌≡◌, ◌≤◌, ◌<◌};
ghost use Rattle.fl_spans.specs.Rows.{chain_count};
ghost use Rattle.fl_ranges.specs.Placing.{home};

use fl_marks::{Key, Mark};
use fl_spans::{Rows, Span};

// The chain of a node's rows.
pub(crate) fn home(table: &Rows<Key, Span<Mark>>, node: u64) -> usize
    requires { 1 ≤ chain_count table.now }
    ensures home { result ≡ home (chain_count table.now) node }
    ensures in_range { result < chain_count table.now }
{
    (node % table.chain_count() as u64) as usize
}
