//! The cells of the table.

ghost use Rattle.std.specs.Prelude.{◌≡◌, ◌++◌, OnOk, string_bytes};
ghost use Rattle.fl_locks.specs.Cells.{heading, cell_text, end_text, file_text, is_right, star};
ghost use Rattle.fl_locks.specs.Cells.{unique_text, pids_text};

use crate::name::push_name;
use crate::row::{Blocker, LockRow};
use crate::words::{class_word, kind_word};
use fl_marks::LAST_BYTE;
use std::alloc::AllocError;
use std::fmt::Write;

/// A column of the table.
#[derive(Clone, Copy)]
pub(crate) enum Column {
    Type,
    Mode,
    Start,
    End,
    Pid,
    Owner,
    Unique,
    Blocker,
    File,
}

/// The word at the top of a column.
pub(crate) fn heading(column: Column) -> &'static str
    ensures { result.now ≡ heading column }
{
    match column {
        Column::Type => "TYPE",
        Column::Mode => "MODE",
        Column::Start => "START",
        Column::End => "END",
        Column::Pid => "PID",
        Column::Owner => "OWNER",
        Column::Unique => "UNIQUE",
        Column::Blocker => "BLOCKER",
        Column::File => "FILE",
    }
}

/// Whether a column has numbers, which stand at its right.
pub(crate) fn is_right(column: Column) -> bool
    ensures { result ≡ is_right column }
{
    match column {
        Column::Start | Column::End | Column::Pid | Column::Owner | Column::Unique => true,
        Column::Type | Column::Mode | Column::Blocker | Column::File => false,
    }
}

/// Writes what a row has in a column.
pub(crate) fn push_cell(text: &mut String, column: Column, row: &LockRow) -> Result<(), AllocError>
    ensures { OnOk result (string_bytes text.new ≡ string_bytes text.old ++ cell_text column row.now) }
{
    match column {
        Column::Type => text.push_str(class_word(row.key.class)),
        Column::Mode => write!(text, "{}{}", kind_word(row.mark.kind), star(row.unique)),
        Column::Start => write!(text, "{}", row.start),
        Column::End => push_end(text, row.end),
        Column::Pid => write!(text, "{}", row.mark.pid),
        Column::Owner => write!(text, "{}", row.key.owner),
        Column::Unique => push_unique(text, row.unique),
        Column::Blocker => push_pids(text, row.blockers.as_slice()),
        Column::File => push_file(text, row),
    }
}

fn star(unique: Option<u64>) -> &'static str
    ensures { result.now ≡ star unique }
{
    match unique {
        None => "",
        Some(_) => "*",
    }
}

fn push_end(text: &mut String, end: u64) -> Result<(), AllocError>
    ensures { OnOk result (string_bytes text.new ≡ string_bytes text.old ++ end_text end) }
{
    if end == LAST_BYTE {
        text.push_str("EOF")
    } else {
        write!(text, "{end}")
    }
}

fn push_unique(text: &mut String, unique: Option<u64>) -> Result<(), AllocError>
    ensures { OnOk result (string_bytes text.new ≡ string_bytes text.old ++ unique_text unique) }
{
    match unique {
        None => text.push_str("-"),
        Some(unique) => write!(text, "{unique}"),
    }
}

fn push_pids(text: &mut String, blockers: &[Blocker]) -> Result<(), AllocError>
    ensures { OnOk result (string_bytes text.new ≡ string_bytes text.old ++ pids_text blockers.now) }
{
    let Some((first, others)) = blockers.split_first() else {
        return text.push_str("-");
    };
    write!(text, "{}", first.pid)?;
    for blocker in others {
        write!(text, ",{}", blocker.pid)?;
    }
    Ok(())
}

fn push_file(text: &mut String, row: &LockRow) -> Result<(), AllocError>
    ensures { OnOk result (string_bytes text.new ≡ string_bytes text.old ++ file_text row.now) }
{
    push_name(text, &row.name)?;
    if row.linked {
        return Ok(());
    }
    text.push_str(" (deleted)")
}
