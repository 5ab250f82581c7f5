//! The head that tells what is there.

ghost use Rattle.std.specs.Prelude.{◌≡◌, IfOk};
ghost use Rattle.fl_desk.specs.Heads.{head_lines, IsToldBy, NamesRules};
ghost use Rattle.fl_desk.specs.Leading.{LeadsTo};
ghost use Rattle.fl_marks.specs.Conflict.{IsLawful};

use crate::laws::a_head_leads_to_what_it_tells;
use fl_core::Core;
use fl_order::{Head, NoMemory, StatePart};
use fl_state::{StateSink, tell_state};
use std::alloc::Global;

/// A head in parts: what it begins with, and the parts of its state.
#[derive(Drop)]
pub struct ToldHead {
    /// What it begins with.
    pub head: Head,
    /// The parts, in their order.
    pub parts: Vec<StatePart>,
}

/// The head of a history that goes on from what is there, if no locks conflict there. It says that so many lines stand
/// before it. It fails only if memory runs out.
pub fn head_of(alloc: Global, core: &Core, lines: u64) -> Result<ToldHead, NoMemory>
    requires { IsLawful core.now.marking }
    ensures told { IfOk result (λ it. IsToldBy core.now.rules it.head it.parts.items) }
    ensures leads { IfOk result (λ it. LeadsTo (head_lines it.head it.parts.items) core.now) }
    ensures lines { IfOk result (λ it. it.head.lines ≡ lines) }
{
    a_head_leads_to_what_it_tells();
    let mut telling = Telling {
        parts: Vec::new(alloc),
    };
    if !tell_state(core, &mut telling) {
        return Err(NoMemory);
    }
    Ok(ToldHead {
        head: first_of(core, lines),
        parts: telling.parts,
    })
}

/// What a head begins with that tells what is there.
pub(crate) fn first_of(core: &Core, lines: u64) -> Head
    ensures lines { result.lines ≡ lines }
    ensures rules { NamesRules result core.now.rules }
    ensures node { result.node ≡ core.now.view.directory.next_node }
    ensures fh { result.fh ≡ core.now.view.directory.next_fh }
{
    let rules = core.rules();
    let directory = core.arenas().directory;
    Head {
        lines,
        fair: rules.fair,
        runs: rules.runs,
        parked: rules.parked,
        files: rules.files,
        open_files: rules.open_files,
        node: directory.next_node,
        fh: directory.next_fh,
    }
}

// The parts so far.
#[derive(Drop)]
struct Telling {
    parts: Vec<StatePart>,
}

impl StateSink for Telling {
    ghost told = { λ telling. telling.parts.items };

    ghost kept = { λ _. tt };

    fn tell(&mut self, part: &StatePart) -> bool {
        self.parts.push(*part).is_ok()
    }
}
