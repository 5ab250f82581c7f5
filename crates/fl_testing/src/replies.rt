//! Replies in a row of bytes. The layout is that of `struct fuse_out_header` (protocol 7.31).

ghost use Rattle.std.specs.Prelude.{◌≡◌, ◌↔◌, ◌≤◌, length, drop, IfSome, IsSome};
ghost use Rattle.fl_testing.specs.Replies.{error, long, word};

/// The unique of a reply, and the number of its error, 0 if it has none.
pub type Reply = (u64, u32);

// The number in the 4 bytes from a place on, the lowest first; 0 if there are fewer.
#[tactic(auto, unfolding(crate::specs::Replies::word))]
fn word_at(bytes: &[u8], at: usize) -> u32
    ensures { result ≡ word bytes.now at }
{
    if bytes.len() < 4 || bytes.len() - 4 < at {
        return 0;
    }
    u32::from_le_bytes([bytes[at], bytes[at + 1], bytes[at + 2], bytes[at + 3]])
}

// The same of 8 bytes.
#[tactic(auto, unfolding(crate::specs::Replies::long))]
fn long_at(bytes: &[u8], at: usize) -> u64
    ensures { result ≡ long bytes.now at }
{
    if bytes.len() < 8 || bytes.len() - 8 < at {
        return 0;
    }
    u64::from(word_at(bytes, at)) + 4_294_967_296 * u64::from(word_at(bytes, at + 4))
}

// What a reply says in its first 16 bytes, behind its length.
fn reply_of(head: &[u8]) -> Reply
    ensures { (result.0 ≡ long head.now 8) × (result.1 ≡ error head.now) }
{
    (long_at(head, 8), 0u32.wrapping_sub(word_at(head, 4)))
}

/// The reply at the front of these bytes, and what stands behind it; none if they begin with no whole reply.
pub fn first_reply(bytes: &[u8]) -> Option<(Reply, &[u8])>
    ensures whole { IsSome result ↔ (16 ≤ word bytes.now 0) × (word bytes.now 0 ≤ length bytes.now) }
    ensures reply { IfSome result (λ found. (found.0.0 ≡ long bytes.now 8) × (found.0.1 ≡ error bytes.now)) }
    ensures behind { IfSome result (λ found. found.1.now ≡ drop (word bytes.now 0) bytes.now) }
{
    let len = word_at(bytes, 0) as usize;
    if len < 16 || len > bytes.len() {
        return None;
    }
    Some((reply_of(bytes), &bytes[len..]))
}
