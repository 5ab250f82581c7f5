//! By which rules requests wait, and how many locks, parked requests, files and open files there may be.

ghost use Rattle.fl_waiting.specs.Limits.{AllowsRuns, AllowsParked, AllowsFiles, AllowsOpen};

use crate::parked::MOST_PARKED;

/// The most runs of locked bytes that rules may allow.
pub const MOST_RUNS: u32 = 65_536;

/// The most files that rules may allow.
pub const MOST_FILES: u32 = 65_536;

/// The most open files that rules may allow.
pub const MOST_OPEN: u32 = 65_536;

// What the standard rules allow.
const STANDARD_RUNS: u32 = 4_096;

const STANDARD_PARKED: u32 = 256;

const STANDARD_FILES: u32 = 256;

const STANDARD_OPEN: u32 = 1_024;

/// By which rules requests wait, and how many locks, parked requests, files and open files there may be.
#[derive(Clone, Copy, Debug, PartialEq, Eq)]
pub struct Rules {
    /// Whether a request for a record lock also waits behind an older one that waits: of another owner, on the same
    /// node, with a byte in common, if one of the two is for a write lock. Whole-file locks have no part in it.
    pub fair: bool,
    /// Whether a session with one worker is *whole*: it also takes MKNOD, MKDIR and RMDIR, answers READDIR, STATFS and
    /// READ, and has errors of its own for LINK, SYMLINK, RENAME and WRITE. Otherwise all are ENOSYS. What an order is
    /// answered that is taken doesn't depend on it, so no trace names it.
    pub whole: bool,
    /// The most runs of locked bytes, over all files and both classes.
    pub runs: u32,
    /// The most parked requests at once.
    pub parked: u32,
    /// The most files and folders at once: nodes that have a name, lookups or an open file. The root isn't counted.
    pub files: u32,
    /// The most open files (fh) at once.
    pub open_files: u32,
    pub ghost some_runs: { AllowsRuns runs },
    pub ghost some_parked: { AllowsParked parked },
    pub ghost some_files: { AllowsFiles files },
    pub ghost some_open: { AllowsOpen open_files },
}

impl Rules {
    ghost use Rattle.std.specs.Prelude.{◌≡◌, ◌↔◌, IsSome, IfSome};
    ghost use Rattle.fl_waiting.specs.Limits.{AllowsRuns, AllowsParked, AllowsFiles, AllowsOpen};
    ghost use Rattle.fl_waiting.specs.Waiting.{standard};

    /// The rules if nothing else is said: no request waits behind another, and there are at most 4,096 runs of locked
    /// bytes, 256 parked requests, 256 files and 1,024 open files.
    pub fn standard() -> Rules
        ensures { result ≡ standard }
    {
        Rules {
            fair: false,
            whole: false,
            runs: STANDARD_RUNS,
            parked: STANDARD_PARKED,
            files: STANDARD_FILES,
            open_files: STANDARD_OPEN,
        }
    }

    /// The same rules, and fair or not.
    pub fn with_fair(self, fair: bool) -> Rules
        ensures { result ≡ record self { fair = fair } }
    {
        Rules {
            fair,
            whole: self.whole,
            runs: self.runs,
            parked: self.parked,
            files: self.files,
            open_files: self.open_files,
        }
    }

    /// The same rules, for a whole session or not.
    pub fn with_whole(self, whole: bool) -> Rules
        ensures { result ≡ record self { whole = whole } }
    {
        Rules {
            fair: self.fair,
            whole,
            runs: self.runs,
            parked: self.parked,
            files: self.files,
            open_files: self.open_files,
        }
    }

    /// The same rules with at most so many runs, 1 to 65,536, and parked requests, 1 to 1,024; none for other numbers.
    pub fn with_limits(self, runs: u32, parked: u32) -> Option<Rules>
        ensures some { IsSome result ↔ (AllowsRuns runs × AllowsParked parked) }
        ensures is { IfSome result (λ rules. (rules.runs ≡ runs) × (rules.parked ≡ parked)) }
        ensures others { IfSome result (λ rules.
            (rules.fair ≡ self.fair) × (rules.whole ≡ self.whole) × (rules.files ≡ self.files)
            × (rules.open_files ≡ self.open_files)) }
    {
        if runs == 0 || runs > MOST_RUNS {
            return None;
        }
        if parked == 0 || parked as usize > MOST_PARKED {
            return None;
        }
        Some(Rules {
            fair: self.fair,
            whole: self.whole,
            runs,
            parked,
            files: self.files,
            open_files: self.open_files,
        })
    }

    /// The same rules with at most so many files, 1 to 65,536, and open files, 1 to 65,536; none for other numbers.
    pub fn with_files(self, files: u32, open_files: u32) -> Option<Rules>
        ensures some { IsSome result ↔ (AllowsFiles files × AllowsOpen open_files) }
        ensures is { IfSome result (λ rules. (rules.files ≡ files) × (rules.open_files ≡ open_files)) }
        ensures others { IfSome result (λ rules.
            (rules.fair ≡ self.fair) × (rules.whole ≡ self.whole) × (rules.runs ≡ self.runs)
            × (rules.parked ≡ self.parked)) }
    {
        if files == 0 || files > MOST_FILES {
            return None;
        }
        if open_files == 0 || open_files > MOST_OPEN {
            return None;
        }
        Some(Rules {
            fair: self.fair,
            whole: self.whole,
            runs: self.runs,
            parked: self.parked,
            files,
            open_files,
        })
    }
}
