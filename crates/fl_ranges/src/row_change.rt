//! Changes of locks in rows.
ghost use Rattle.std.specs.Prelude.{◌≡◌, ◌<◌, ◌↔◌, None, IsErr, OnOk, OnErr};
ghost use Rattle.fl_spans.specs.Rows.{chain_count, limit_of};
ghost use Rattle.fl_marks.specs.Marking.{stroke_on, stroked};
ghost use Rattle.fl_marks.specs.Runs.{runs, without_node};
ghost use Rattle.fl_ranges.specs.Inside.LockRows.{row_marks, IsLockTable};

use crate::chain::home;
use crate::find_row::find_row;
use fl_marks::{Key, LAST_BYTE, Mark, Range};
use fl_spans::{Full, Rows, Span};

// The bytes of the range get the mark, or lose theirs. A refusal changes nothing.
pub(crate) fn stroke(
    table: &mut Rows<Key, Span<Mark>>,
    key: &Key,
    range: &Range,
    mark: Option<Mark>,
) -> Result<(), Full>
    requires table { IsLockTable table.old (limit_of table.old) (chain_count table.old) }
    ensures full { IsErr result ↔
        (limit_of table.old < runs (stroked (stroke_on key.now range.now mark) (row_marks table.old))) }
    ensures ok { OnOk result (row_marks table.new ≡ stroked (stroke_on key.now range.now mark) (row_marks table.old)) }
    ensures err { OnErr result (table.new ≡ table.old) }
    ensures table { IsLockTable table.new (limit_of table.old) (chain_count table.old) }
{
    let (mut row, own) = find_row(table, key);
    if own {
        return fl_spans::stroke(table, &mut row, range.start, range.end, mark);
    }
    let Some(mark) = mark else {
        return Ok(());
    };
    let span = Span {
        start: range.start,
        end: range.end,
        mark,
    };
    table.insert_row(&mut row, *key, span)
}

// All bytes of the key lose their marks.
pub(crate) fn erase_owner(table: &mut Rows<Key, Span<Mark>>, key: &Key)
    requires table { IsLockTable table.old (limit_of table.old) (chain_count table.old) }
    ensures erased { row_marks table.new
        ≡ stroked (record { key = key.now; start = 0; end = LAST_BYTE; mark = None }) (row_marks table.old) }
    ensures table { IsLockTable table.new (limit_of table.old) (chain_count table.old) }
{
    let (mut row, own) = find_row(table, key);
    if own {
        table.remove_row(&mut row);
    }
}

// All bytes of the node lose their marks, of both classes and all owners.
pub(crate) fn erase_node(table: &mut Rows<Key, Span<Mark>>, node: u64)
    requires table { IsLockTable table.old (limit_of table.old) (chain_count table.old) }
    ensures erased { row_marks table.new ≡ without_node node (row_marks table.old) }
    ensures table { IsLockTable table.new (limit_of table.old) (chain_count table.old) }
{
    let mut row = table.first_row(home(table, node));
    while let Some(key) = table.key(&row) {
        if key.node > node {
            break;
        }
        if key.node == node {
            table.remove_row(&mut row);
        } else {
            table.next_row(&mut row);
        }
    }
}
