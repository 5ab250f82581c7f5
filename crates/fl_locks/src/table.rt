//! The table.

ghost use Rattle.std.specs.Prelude.{◌≡◌, ◌++◌, ◌∷◌, [], IfOk, OnOk, replicate, string_bytes};
ghost use Rattle.fl_locks.specs.Cells.{heading, cell_text, is_right};
ghost use Rattle.fl_locks.specs.Table.{width_of, inner_columns, sized_columns, aligned, line_text, table_text};

use crate::cell::{Column, heading, is_right, push_cell};
use crate::row::LockRow;
use std::alloc::{AllocError, Global};

/// A column with its width in bytes.
#[derive(Clone, Copy)]
pub(crate) struct SizedColumn {
    column: Column,
    width: usize,
}

/// A table of locks in the form of lslocks(8): a line of headings, then a line for each row, each ended by a newline.
/// The columns are TYPE, MODE, START, END, PID, OWNER, UNIQUE, BLOCKER and FILE, with one space between them. Each but
/// the last is as wide as its heading and its widest cell. It fails only if memory runs out.
pub fn lock_table(alloc: Global, rows: &[LockRow]) -> Result<String, AllocError>
    ensures { IfOk result (λ text. string_bytes text ≡ table_text rows.now) }
{
    let columns = sized_columns(alloc, rows)?;
    let mut text = String::new(alloc);
    let mut cell = String::new(alloc);
    push_headings(&mut text, columns.as_slice())?;
    for row in rows {
        push_row(&mut text, &mut cell, columns.as_slice(), row)?;
    }
    Ok(text)
}

// Each column but the last, with its width.
fn sized_columns(alloc: Global, rows: &[LockRow]) -> Result<Vec<SizedColumn>, AllocError>
    ensures { IfOk result (λ columns. columns.items ≡ sized_columns rows.now) }
{
    let mut cell = String::new(alloc);
    let mut columns = Vec::new(alloc);
    for column in &inner_columns() {
        let width = width_of(&mut cell, *column, rows)?;
        columns.push(SizedColumn {
            column: *column,
            width,
        })?;
    }
    Ok(columns)
}

// Each column but the last.
#[tactic(auto, unfolding(crate::specs::Table::inner_columns))]
fn inner_columns() -> [Column; 8]
    ensures { result ≡ inner_columns }
{
    [
        Column::Type,
        Column::Mode,
        Column::Start,
        Column::End,
        Column::Pid,
        Column::Owner,
        Column::Unique,
        Column::Blocker,
    ]
}

// How wide a column is. Each cell is written into the same string, which is emptied before.
fn width_of(cell: &mut String, column: Column, rows: &[LockRow]) -> Result<usize, AllocError>
    ensures { IfOk result (λ width. width ≡ width_of rows.now column) }
{
    let mut width = heading(column).len();
    for row in rows {
        cell.clear();
        push_cell(cell, column, row)?;
        width = width.max(cell.len());
    }
    Ok(width)
}

fn push_headings(text: &mut String, columns: &[SizedColumn]) -> Result<(), AllocError>
    ensures { OnOk result (string_bytes text.new ≡ string_bytes text.old ++ line_text columns.now heading) }
{
    for sized in columns {
        push_inner(text, *sized, heading(sized.column))?;
    }
    text.push_str(heading(Column::File))?;
    text.push('\n')
}

// The line of a row. Each cell is written into a string of its own first, which is emptied before.
fn push_row(
    text: &mut String,
    cell: &mut String,
    columns: &[SizedColumn],
    row: &LockRow,
) -> Result<(), AllocError>
    ensures { OnOk result (string_bytes text.new
        ≡ string_bytes text.old ++ line_text columns.now (λ column. cell_text column row.now)) }
{
    for sized in columns {
        cell.clear();
        push_cell(cell, sized.column, row)?;
        push_inner(text, *sized, cell.as_str())?;
    }
    push_cell(text, Column::File, row)?;
    text.push('\n')
}

// A cell as wide as its column, and the space behind it.
fn push_inner(text: &mut String, sized: SizedColumn, cell: &str) -> Result<(), AllocError>
    ensures { OnOk result (string_bytes text.new
        ≡ string_bytes text.old ++ (aligned (is_right sized.column) sized.width cell.now ++ 32 ∷ [])) }
{
    let gap = sized.width.saturating_sub(cell.len());
    if is_right(sized.column) {
        push_spaces(text, gap)?;
        text.push_str(cell)?;
    } else {
        text.push_str(cell)?;
        push_spaces(text, gap)?;
    }
    text.push(' ')
}

fn push_spaces(text: &mut String, count: usize) -> Result<(), AllocError>
    ensures { OnOk result (string_bytes text.new ≡ string_bytes text.old ++ replicate count 32) }
{
    for _at in 0..count {
        text.push(' ')?;
    }
    Ok(())
}
