//! The lines of a head, both ways.

ghost use Rattle.std.specs.Prelude.{◌≡◌, ◌+◌, ◌≤◌, ◌++◌, ◌∷◌, ℕ, Bool, List, length, vec_capacity};
ghost use Rattle.std.specs.Prelude.{IfSome, IsSome, codes};
ghost use Rattle.std.specs.Str.{IsUtf8};
ghost use Rattle.fl_order.specs.Sayable.{FitsHead, FitsPart, FitsState};
ghost use Rattle.fl_order.specs.declared.order.LockAsk.{LockAsk};
ghost use Rattle.fl_order.specs.declared.state_part.Head.{Head};
ghost use Rattle.fl_order.specs.declared.state_part.StateLine.{StateLine};
ghost use Rattle.fl_order.specs.declared.state_part.StatePart.TheVariants as part;
ghost use Rattle.fl_words.specs.State.{head_text, node_text, file_text, run_text, wait_text, part_text, state_text};

use crate::lock_ask::{push_lock_ask, read_lock_ask};
use crate::spelling::{push, push_flag, push_name, push_number, push_numbers};
use crate::words::{flag, flag_word, name, number, split_word, u32_word, u64_word};
use fl_order::{Head, StateLine, StatePart};

/// A line of a head.
pub fn push_state(text: &mut Vec<u8>, line: &StateLine)
    requires room { length text.old.items + 690 ≤ vec_capacity text.old }
    ensures bytes { text.new.items ≡ text.old.items ++ state_text line.now }
    ensures few { length text.new.items ≤ length text.old.items + 690 }
    ensures capacity { vec_capacity text.old ≤ vec_capacity text.new }
    ensures utf8 { IsUtf8 text.old.items → IsUtf8 text.new.items }
{
    match line {
        StateLine::Head(head) => {
            push(text, "state");
            push_head(text, head);
        }
        StateLine::Part(part) => push_part(text, part),
        StateLine::Go => push(text, "go"),
    }
}

// A space, and what a head begins with.
fn push_head(text: &mut Vec<u8>, head: &Head)
    requires room { length text.old.items + 170 ≤ vec_capacity text.old }
    ensures bytes { text.new.items ≡ text.old.items ++ 32 ∷ head_text head.now }
    ensures few { length text.new.items ≤ length text.old.items + 170 }
    ensures capacity { vec_capacity text.old ≤ vec_capacity text.new }
    ensures utf8 { IsUtf8 text.old.items → IsUtf8 text.new.items }
{
    let Head {
        lines,
        fair,
        runs,
        parked,
        files,
        open_files,
        node,
        fh,
    } = *head;
    let (runs, parked) = (u64::from(runs), u64::from(parked));
    let (files, open_files) = (u64::from(files), u64::from(open_files));
    push_number(text, lines);
    push_flag(text, fair);
    push_numbers(text, &[runs, parked, files, open_files, node, fh]);
}

// A part of a state.
fn push_part(text: &mut Vec<u8>, part: &StatePart)
    requires room { length text.old.items + 680 ≤ vec_capacity text.old }
    ensures bytes { text.new.items ≡ text.old.items ++ part_text part.now }
    ensures few { length text.new.items ≤ length text.old.items + 680 }
    ensures capacity { vec_capacity text.old ≤ vec_capacity text.new }
    ensures utf8 { IsUtf8 text.old.items → IsUtf8 text.new.items }
{
    match part {
        StatePart::Node {
            number,
            lookups,
            linked,
            mode,
            uid,
            gid,
            name,
        } => {
            push(text, "node");
            push_numbers(text, &[*number, *lookups]);
            push_flag(text, *linked);
            push_numbers(text, &[u64::from(*mode), u64::from(*uid), u64::from(*gid)]);
            push_name(text, name);
        }
        StatePart::File { fh, node } => {
            push(text, "file");
            push_numbers(text, &[*fh, *node]);
        }
        StatePart::Lock {
            node,
            owner,
            start,
            end,
            write,
            pid,
            flock,
        } => {
            push(text, "lock");
            push_numbers(text, &[*node, *owner, *start, *end]);
            push_flag(text, *write);
            push_number(text, u64::from(*pid));
            push_flag(text, *flock);
        }
        StatePart::Wait { unique, node, ask } => {
            push(text, "wait");
            push_numbers(text, &[*unique, *node]);
            push_lock_ask(text, ask);
        }
    }
}

/// A line of a head; none if it has any other spelling.
pub fn read_state(text: &str) -> Option<StateLine>
    ensures fits { IfSome result FitsState }
    ensures spelled { IfSome result (λ line. text.now ≡ state_text line) }
    ensures only { (line : StateLine) → FitsState line → text.now ≡ state_text line → IsSome result }
{
    if text == "go" {
        return Some(StateLine::Go);
    }
    let (word, rest) = split_word(text)?;
    match word {
        "state" => Some(StateLine::Head(read_head(rest)?)),
        "node" => Some(StateLine::Part(read_node(rest)?)),
        "file" => Some(StateLine::Part(read_file(rest)?)),
        "lock" => Some(StateLine::Part(read_run(rest)?)),
        "wait" => Some(StateLine::Part(read_wait(rest)?)),
        _ => None,
    }
}

fn read_head(text: &str) -> Option<Head>
    ensures fits { IfSome result FitsHead }
    ensures spelled { IfSome result (λ head. text.now ≡ head_text head) }
    ensures only { (head : Head) → FitsHead head → text.now ≡ head_text head → IsSome result }
{
    let (lines, rest) = u64_word(text)?;
    let (fair, rest) = flag_word(rest)?;
    let (runs, rest) = u32_word(rest)?;
    let (parked, rest) = u32_word(rest)?;
    let (files, rest) = u32_word(rest)?;
    let (open_files, rest) = u32_word(rest)?;
    let (node, rest) = u64_word(rest)?;
    let fh = number(rest)?;
    Some(Head {
        lines,
        fair,
        runs,
        parked,
        files,
        open_files,
        node,
        fh,
    })
}

fn read_node(text: &str) -> Option<StatePart>
    ensures fits { IfSome result FitsPart }
    ensures spelled { IfSome result (λ it. part_text it ≡ codes "node " ++ text.now) }
    ensures only { (number lookups : ℕ) (linked : Bool) (mode uid gid : ℕ) (name : List ℕ) →
        FitsPart (part.Node number lookups linked mode uid gid name) →
        text.now ≡ node_text number lookups linked mode uid gid name → IsSome result }
{
    let (number, rest) = u64_word(text)?;
    let (lookups, rest) = u64_word(rest)?;
    let (linked, rest) = flag_word(rest)?;
    let (mode, rest) = u32_word(rest)?;
    let (uid, rest) = u32_word(rest)?;
    let (gid, rest) = u32_word(rest)?;
    let name = name(rest)?;
    Some(StatePart::Node {
        number,
        lookups,
        linked,
        mode,
        uid,
        gid,
        name,
    })
}

fn read_file(text: &str) -> Option<StatePart>
    ensures fits { IfSome result FitsPart }
    ensures spelled { IfSome result (λ it. part_text it ≡ codes "file " ++ text.now) }
    ensures only { (fh node : ℕ) → FitsPart (part.File fh node) → text.now ≡ file_text fh node → IsSome result }
{
    let (fh, rest) = u64_word(text)?;
    let node = number(rest)?;
    Some(StatePart::File { fh, node })
}

fn read_run(text: &str) -> Option<StatePart>
    ensures fits { IfSome result FitsPart }
    ensures spelled { IfSome result (λ it. part_text it ≡ codes "lock " ++ text.now) }
    ensures only { (node owner start end : ℕ) (write : Bool) (pid : ℕ) (flock : Bool) →
        FitsPart (part.Lock node owner start end write pid flock) →
        text.now ≡ run_text node owner start end write pid flock → IsSome result }
{
    let (node, rest) = u64_word(text)?;
    let (owner, rest) = u64_word(rest)?;
    let (start, rest) = u64_word(rest)?;
    let (end, rest) = u64_word(rest)?;
    let (write, rest) = flag_word(rest)?;
    let (pid, rest) = u32_word(rest)?;
    let flock = flag(rest)?;
    Some(StatePart::Lock {
        node,
        owner,
        start,
        end,
        write,
        pid,
        flock,
    })
}

fn read_wait(text: &str) -> Option<StatePart>
    ensures fits { IfSome result FitsPart }
    ensures spelled { IfSome result (λ it. part_text it ≡ codes "wait " ++ text.now) }
    ensures only { (unique node : ℕ) (ask : LockAsk) → FitsPart (part.Wait unique node ask) →
        text.now ≡ wait_text unique node ask → IsSome result }
{
    let (unique, rest) = u64_word(text)?;
    let (node, rest) = u64_word(rest)?;
    let ask = read_lock_ask(rest)?;
    Some(StatePart::Wait { unique, node, ask })
}
