//! Messages that are laid out from their fields. The layouts are those of `fuse.h` (protocol 7.31).

ghost use Rattle.std.specs.Prelude.{◌≡◌, ◌++◌, ◌∷◌, [], IfOk, OnOk};
ghost use Rattle.fl_testing.specs.Messages.{header, longs, pair};

use std::alloc::{AllocError, Global};

/// Messages, one behind the other.
#[derive(Drop)]
pub struct Messages {
    /// All bytes of them.
    pub bytes: Vec<u8>,
}

// Two numbers of 4 bytes, the first of which stands first.
fn pair(first: u32, second: u32) -> u64
    ensures { result ≡ pair first second }
{
    u64::from(first) + 4_294_967_296 * u64::from(second)
}

// Adds bytes.
fn push(to: &mut Vec<u8>, bytes: &[u8]) -> Result<(), AllocError>
    ensures { OnOk result (to.new.items ≡ to.old.items ++ bytes.now) }
{
    to.extend_from_slice(bytes)
}

impl Messages {
    /// None yet.
    pub fn new(alloc: Global) -> Messages
        ensures { result.bytes.items ≡ [] }
    {
        Messages {
            bytes: Vec::new(alloc),
        }
    }

    /// An INIT at 7.31, of the unique 1, that asks for no readahead and no flags.
    pub fn with_init(alloc: Global) -> Result<Messages, AllocError>
        ensures { IfOk result (λ made. made.bytes.items ≡ longs (header 56 26 1 0 ++ pair 7 31 ∷ 0 ∷ [])) }
    {
        let mut messages = Messages::new(alloc);
        messages.longs(&[pair(56, 26), 1, 0, 0, 0, pair(7, 31), 0])?;
        Ok(messages)
    }

    // Adds numbers of 8 bytes.
    #[tactic(auto, unfolding(crate::specs::Messages::longs))]
    fn longs(&mut self, numbers: &[u64]) -> Result<(), AllocError>
        ensures { OnOk result (self.new.bytes.items ≡ self.old.bytes.items ++ longs numbers.now) }
    {
        for number in numbers {
            push(&mut self.bytes, &number.to_le_bytes())?;
        }
        Ok(())
    }

    /// LOOKUP in the root, of a name of 15 letters `a` that no file has. Its uid, gid, pid and padding are 0.
    pub fn seek(&mut self, unique: u64) -> Result<(), AllocError>
        ensures { OnOk result (self.new.bytes.items
            ≡ self.old.bytes.items ++ longs (header 56 1 unique 1 ++ 7016996765293437281 ∷ 27410143614427489 ∷ [])) }
    {
        // The letters, and the zero byte behind them.
        let first = 0x6161_6161_6161_6161;
        let last = 0x0061_6161_6161_6161;
        self.longs(&[pair(56, 1), unique, 1, 0, 0, first, last])
    }
}
