//! What the lines of a text ask of a client.
ghost use Rattle.std.specs.Prelude.{◌≡◌, ◌⊎◌, ℕ, ◌^◌, ◌<◌, map, Ok, None, Some, IfOk, IfErr};
ghost use Rattle.std.specs.Fmt.{decimal};
ghost use Rattle.lockd_drive.specs.Drive.{count_of, line_says, text_says};
ghost use Rattle.lockd_drive.specs.Drive.Inside.{said_by, TextFaults};
ghost use Rattle.lockd_faults.specs.declared.fault.CommandFault.TheVariants.{BadLine, NoMemory};

use lockd_faults::{CommandFault, read_line, split_line};
use std::alloc::Global;

/// What one line asks for.
#[derive(Drop)]
pub(crate) enum Action {
    /// These bytes are sent.
    Send(Vec<u8>),
    /// So many replies are waited for.
    Receive(u32),
}

/// What the lines of a text ask for, in their order.
pub(crate) fn read_actions(alloc: Global, text: &[u8]) -> Result<Vec<Action>, CommandFault>
    ensures said { IfOk result (λ actions. text_says text.now ≡ Ok (map said_by actions.items)) }
    ensures error { IfErr result (TextFaults text.now) }
{
    let mut actions = Vec::new(alloc);
    let mut rest = text;
    let mut number = 1;
    while !rest.is_empty() {
        let Some((line, after)) = split_line(rest) else {
            return Err(CommandFault::BadLine(number));
        };
        let action: Action = read_action(alloc, line, number)?;
        actions.push(action)?;
        rest = after;
        number += 1;
    }
    Ok(actions)
}

// What the line of this number asks for.
fn read_action(alloc: Global, line: &[u8], number: usize) -> Result<Action, CommandFault>
    ensures said { IfOk result (λ action. line_says line.now ≡ Some (said_by action)) }
    ensures error { IfErr result (λ fault. (fault ≡ NoMemory)
        ⊎ ((fault ≡ BadLine number) × (line_says line.now ≡ None))) }
{
    match line.strip_prefix(b"recv ") {
        Some(word) => Ok(Action::Receive(read_count(alloc, word, number)?)),
        None => Ok(Action::Send(read_line(alloc, line, number)?)),
    }
}

// How many replies the line of this number waits for, by the word behind `recv `: the spelling of 1 to 1000.
fn read_count(alloc: Global, word: &[u8], number: usize) -> Result<u32, CommandFault>
    ensures count { IfOk result (λ n. count_of word.now ≡ Some n) }
    ensures error { IfErr result (λ fault. (fault ≡ NoMemory)
        ⊎ ((fault ≡ BadLine number) × (count_of word.now ≡ None))) }
{
    let Some(count) = parsed(word) else {
        return Err(CommandFault::BadLine(number));
    };
    let spelled = format!(in alloc; "{count}")?;
    if count < 1 || count > 1000 || spelled.as_bytes() != word {
        return Err(CommandFault::BadLine(number));
    }
    Ok(count)
}

// The number of which a word is the spelling, or another if it is none.
fn parsed(word: &[u8]) -> Option<u32>
    ensures { (n : ℕ) → n < 2 ^ 32 → word.now ≡ decimal n → result ≡ Some n }
{
    str::from_utf8(word).ok()?.parse().ok()
}
