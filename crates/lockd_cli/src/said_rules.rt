//! What a command line says of the rules.

ghost use Rattle.std.specs.Prelude.{◌≡◌, ◌≤◌, ◌||◌, ℕ, None, Some};
ghost use Rattle.fl_waiting.specs.Limits.{AllowsRuns, AllowsParked, AllowsFiles, AllowsOpen};
ghost use Rattle.lockd_cli.specs.Said.{IsOver};

use fl_waiting::{MOST_FILES, MOST_OPEN, MOST_PARKED, MOST_RUNS, Rules};

/// The rules that a command line names. What it doesn't name is taken from other rules: those of a head, or the
/// standard ones.
#[derive(Clone, Copy, Debug, PartialEq, Eq)]
pub struct SaidRules {
    /// `--fair`. That requests are not to wait fairly can't be said.
    pub fair: bool,
    /// `--whole`: the session is whole. No head of a trace names it.
    pub whole: bool,
    /// `--runs`: the most runs of locked bytes, 1 to 65,536.
    pub runs: Option<u32>,
    /// `--parked`: the most parked requests, 1 to 1,024.
    pub parked: Option<u32>,
    /// `--files`: the most files, 1 to 65,536.
    pub files: Option<u32>,
    /// `--open`: the most open files, 1 to 65,536.
    pub open_files: Option<u32>,
}

impl SaidRules {
    /// These rules, each that is said in place of the other. `clap` lets no number through that is out of its range;
    /// such a one would become the nearest that isn't.
    pub fn over(self, others: Rules) -> Rules
        ensures fair { result.fair ≡ (self.fair || others.fair) }
        ensures whole { result.whole ≡ (self.whole || others.whole) }
        ensures runs { IsOver AllowsRuns self.runs others.runs result.runs }
        ensures parked { IsOver AllowsParked self.parked others.parked result.parked }
        ensures files { IsOver AllowsFiles self.files others.files result.files }
        ensures open_files { IsOver AllowsOpen self.open_files others.open_files result.open_files }
    {
        let runs = said_over(self.runs, others.runs, MOST_RUNS);
        let parked = said_over(self.parked, others.parked, MOST_PARKED as u32);
        let files = said_over(self.files, others.files, MOST_FILES);
        let open_files = said_over(self.open_files, others.open_files, MOST_OPEN);
        let rules = others.with_fair(self.fair || others.fair);
        let rules = rules.with_whole(self.whole || others.whole);
        let rules = rules.with_limits(runs, parked).unwrap();
        rules.with_files(files, open_files).unwrap()
    }
}

// The number that is said, and the other one if none is; at least one, and at most so many.
pub(crate) fn said_over(said: Option<u32>, other: u32, most: u32) -> u32
    requires other { (1 ≤ other) × (other ≤ most) }
    ensures other { said ≡ None → result ≡ other }
    ensures said { (n : ℕ) → said ≡ Some n → 1 ≤ n → n ≤ most → result ≡ n }
    ensures range { (1 ≤ result) × (result ≤ most) }
{
    said.unwrap_or(other).clamp(1, most)
}
