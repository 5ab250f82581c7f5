//! When the trace of a server goes on in a new piece, and how many pieces stay.

ghost use Rattle.std.specs.Prelude.{◌≤◌};
ghost use Rattle.std.specs.Option.{ForSome};

/// When the trace of a server goes on in a new piece, and how many pieces stay.
#[derive(Clone, Copy)]
pub struct Rotation {
    /// `--rotate`: a new piece is due once the last one has so many bytes, 1 to 4,294,967,295.
    pub bytes: u32,
    /// `--keep`: how many pieces stay, the last among them, 2 to 4,294,967,295; all, if that isn't said.
    pub keep: Option<u32>,
    pub ghost some_bytes: { 1 ≤ bytes },
    pub ghost two_kept: { ForSome keep (λ pieces. 2 ≤ pieces) },
}
