//! The line of JSON.

ghost use Rattle.std.specs.Prelude.{◌≡◌, ◌++◌, IfOk, OnOk, map, option_copied, string_bytes};
ghost use Rattle.std.specs.List.{join_with_byte};
ghost use Rattle.fl_locks.specs.Json.{lock_members, range_members, waiting_members, file_members};
ghost use Rattle.fl_locks.specs.Json.{unique_json, name_json, blocker_json, row_json, json_text};

use crate::name::push_hex;
use crate::row::{Blocker, LockRow};
use crate::words::{class_word, kind_word};
use fl_order::Name;
use std::alloc::{AllocError, Global};
use std::fmt::Write;

/// The locks as one line of JSON, an array with an object for each row, which is ended by a newline. A name is a string
/// of the hex digits of its bytes, since it need not be text. It fails only if memory runs out.
pub fn lock_json(alloc: Global, rows: &[LockRow]) -> Result<String, AllocError>
    ensures { IfOk result (λ text. string_bytes text ≡ json_text rows.now) }
{
    let mut text = String::new(alloc);
    text.push('[')?;
    push_rows(&mut text, rows)?;
    text.push_str("]\n")?;
    Ok(text)
}

// The rows, with a comma between each two.
fn push_rows(text: &mut String, rows: &[LockRow]) -> Result<(), AllocError>
    ensures { OnOk result (string_bytes text.new ≡ string_bytes text.old ++ join_with_byte 44 (map row_json rows.now)) }
{
    let Some((first, others)) = rows.split_first() else {
        return Ok(());
    };
    push_row(text, first)?;
    for row in others {
        text.push(',')?;
        push_row(text, row)?;
    }
    Ok(())
}

fn push_row(text: &mut String, row: &LockRow) -> Result<(), AllocError>
    ensures { OnOk result (string_bytes text.new ≡ string_bytes text.old ++ row_json row.now) }
{
    text.push_str("{")?;
    push_lock(text, row)?;
    text.push_str(",")?;
    push_range(text, row)?;
    text.push_str(",")?;
    push_waiting(text, row)?;
    text.push_str(",")?;
    push_file(text, row)?;
    text.push_str("}")?;
    Ok(())
}

// Which lock it is, and whether it waits.
#[tactic(auto, unfolding(crate::specs::Json::lock_members))]
fn push_lock(text: &mut String, row: &LockRow) -> Result<(), AllocError>
    ensures { OnOk result (string_bytes text.new ≡ string_bytes text.old ++ lock_members row.now) }
{
    let (class, kind) = (class_word(row.key.class), kind_word(row.mark.kind));
    let waits = row.unique.is_some();
    write!(
        text,
        "\"type\":\"{class}\",\"mode\":\"{kind}\",\"waits\":{waits}"
    )?;
    Ok(())
}

// Which bytes it is on, and whose it is.
#[tactic(auto, unfolding(crate::specs::Json::range_members))]
fn push_range(text: &mut String, row: &LockRow) -> Result<(), AllocError>
    ensures { OnOk result (string_bytes text.new ≡ string_bytes text.old ++ range_members row.now) }
{
    let LockRow { start, end, .. } = row;
    let (pid, owner) = (row.mark.pid, row.key.owner);
    write!(
        text,
        "\"start\":{start},\"end\":{end},\"pid\":{pid},\"owner\":{owner}"
    )
}

// Which request it is, if it waits, and who is in its way.
#[tactic(auto, unfolding(crate::specs::Json::waiting_members))]
fn push_waiting(text: &mut String, row: &LockRow) -> Result<(), AllocError>
    ensures { OnOk result (string_bytes text.new ≡ string_bytes text.old ++ waiting_members row.now) }
{
    text.push_str("\"unique\":")?;
    push_unique(text, row.unique)?;
    text.push_str(",\"blockers\":[")?;
    push_blockers(text, row.blockers.as_slice())?;
    text.push_str("]")?;
    Ok(())
}

// On which file.
#[tactic(auto, unfolding(crate::specs::Json::file_members))]
fn push_file(text: &mut String, row: &LockRow) -> Result<(), AllocError>
    ensures { OnOk result (string_bytes text.new ≡ string_bytes text.old ++ file_members row.now) }
{
    write!(text, "\"node\":{},\"name\":", row.key.node)?;
    push_name(text, row.linked_name())
}

fn push_unique(text: &mut String, unique: Option<u64>) -> Result<(), AllocError>
    ensures { OnOk result (string_bytes text.new ≡ string_bytes text.old ++ unique_json unique) }
{
    match unique {
        None => text.push_str("null"),
        Some(unique) => write!(text, "{unique}"),
    }
}

// Those in the way, with a comma between each two.
fn push_blockers(text: &mut String, blockers: &[Blocker]) -> Result<(), AllocError>
    ensures { OnOk result (string_bytes text.new
        ≡ string_bytes text.old ++ join_with_byte 44 (map blocker_json blockers.now)) }
{
    let Some((first, others)) = blockers.split_first() else {
        return Ok(());
    };
    push_blocker(text, *first)?;
    for blocker in others {
        text.push(',')?;
        push_blocker(text, *blocker)?;
    }
    Ok(())
}

fn push_blocker(text: &mut String, blocker: Blocker) -> Result<(), AllocError>
    ensures { OnOk result (string_bytes text.new ≡ string_bytes text.old ++ blocker_json blocker) }
{
    write!(
        text,
        "{{\"owner\":{},\"pid\":{}}}",
        blocker.owner, blocker.pid
    )
}

fn push_name(text: &mut String, name: Option<&Name>) -> Result<(), AllocError>
    ensures { OnOk result (string_bytes text.new ≡ string_bytes text.old ++ name_json (option_copied name.entry)) }
{
    let Some(name) = name else {
        return text.push_str("null");
    };
    text.push('"')?;
    push_hex(text, name.as_bytes())?;
    text.push('"')
}
