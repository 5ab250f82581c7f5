//! Replies, read from the words of a `tell` line.

ghost use Rattle.std.specs.Prelude.{◌≡◌, ◌++◌, ◌∷◌, ℕ, Result, IfSome, IsSome, codes};
ghost use Rattle.fl_order.specs.Errno.{number_of};
ghost use Rattle.fl_order.specs.Sayable.{FitsAttr, FitsAnswer, FitsResult, FitsTold};
ghost use Rattle.fl_order.specs.declared.errno.Errno.{Errno};
ghost use Rattle.fl_order.specs.declared.told.Answer.{Answer};
ghost use Rattle.fl_order.specs.declared.told.Answer.TheVariants.{Made, Lock};
ghost use Rattle.fl_order.specs.declared.told.Attr.{Attr as Attributes};
ghost use Rattle.fl_order.specs.declared.told.Told.{Told};
ghost use Rattle.fl_trace.specs.Text.{attr_text, made_text, lock_text, answer_text, result_text, told_text};

use fl_order::{Answer, Attr, Errno, Told};
use fl_words::{number, split_word, u32_number, u32_word, u64_word};

// Each error once.
const ERRORS: [Errno; 19] = [
    Errno::EPERM,
    Errno::ENOENT,
    Errno::EINTR,
    Errno::EBADF,
    Errno::EAGAIN,
    Errno::ENOMEM,
    Errno::EEXIST,
    Errno::ENOTDIR,
    Errno::EISDIR,
    Errno::EINVAL,
    Errno::ENFILE,
    Errno::EFBIG,
    Errno::ENOSPC,
    Errno::EDEADLK,
    Errno::ENAMETOOLONG,
    Errno::ENOLCK,
    Errno::ENOSYS,
    Errno::EPROTO,
    Errno::EOPNOTSUPP,
];

/// A reply; none if it has any other spelling.
pub(super) fn read_told(text: &str) -> Option<Told>
    ensures fits { IfSome result FitsTold }
    ensures spelled { IfSome result (λ told. text.now ≡ told_text told) }
    ensures only { (told : Told) → FitsTold told → text.now ≡ told_text told → IsSome result }
{
    let (unique, rest) = u64_word(text)?;
    let result = read_result(rest)?;
    Some(Told { unique, result })
}

// An answer, or an error by its number; none if it has any other spelling.
fn read_result(text: &str) -> Option<Result<Answer, Errno>>
    ensures fits { IfSome result FitsResult }
    ensures spelled { IfSome result (λ told. text.now ≡ result_text told) }
    ensures only { (told : Result Answer Errno) → FitsResult told → text.now ≡ result_text told → IsSome result }
{
    if text == "ok" {
        return Some(Ok(Answer::Done));
    }
    let (word, rest) = split_word(text)?;
    match word {
        "entry" => Some(Ok(Answer::Entry(read_attr(rest)?))),
        "attr" => Some(Ok(Answer::Attr(read_attr(rest)?))),
        "open" => Some(Ok(Answer::Open(number(rest)?))),
        "made" => Some(Ok(read_made(rest)?)),
        "lock" => Some(Ok(read_lock(rest)?)),
        "err" => Some(Err(errno(u32_number(rest)?)?)),
        _ => None,
    }
}

fn read_attr(text: &str) -> Option<Attr>
    ensures fits { IfSome result FitsAttr }
    ensures spelled { IfSome result (λ attr. text.now ≡ attr_text attr) }
    ensures only { (attr : Attributes) → FitsAttr attr → text.now ≡ attr_text attr → IsSome result }
{
    let (node, rest) = u64_word(text)?;
    let (mode, rest) = u32_word(rest)?;
    let (nlink, rest) = u32_word(rest)?;
    let (uid, rest) = u32_word(rest)?;
    let gid = u32_number(rest)?;
    Some(Attr {
        node,
        mode,
        nlink,
        uid,
        gid,
    })
}

// A node's attributes, and the number of an open file.
fn read_made(text: &str) -> Option<Answer>
    ensures fits { IfSome result FitsAnswer }
    ensures spelled { IfSome result (λ answer. answer_text answer ≡ codes "made " ++ text.now) }
    ensures only { (attr : Attributes) (fh : ℕ) → FitsAnswer (Made attr fh) →
        text.now ≡ made_text attr fh → IsSome result }
{
    let (node, rest) = u64_word(text)?;
    let (mode, rest) = u32_word(rest)?;
    let (nlink, rest) = u32_word(rest)?;
    let (uid, rest) = u32_word(rest)?;
    let (gid, rest) = u32_word(rest)?;
    let fh = number(rest)?;
    let attr = Attr {
        node,
        mode,
        nlink,
        uid,
        gid,
    };
    Some(Answer::Made(attr, fh))
}

fn read_lock(text: &str) -> Option<Answer>
    ensures fits { IfSome result FitsAnswer }
    ensures spelled { IfSome result (λ answer. answer_text answer ≡ codes "lock " ++ text.now) }
    ensures only { (start end kind pid : ℕ) → FitsAnswer (Lock start end kind pid) →
        text.now ≡ lock_text start end kind pid → IsSome result }
{
    let (start, rest) = u64_word(text)?;
    let (end, rest) = u64_word(rest)?;
    let (kind, rest) = u32_word(rest)?;
    let pid = u32_number(rest)?;
    Some(Answer::Lock {
        start,
        end,
        kind,
        pid,
    })
}

// The error of a number.
fn errno(number: u32) -> Option<Errno>
    ensures number { IfSome result (λ error. number_of error ≡ number) }
    ensures only { (error : Errno) → number ≡ number_of error → IsSome result }
{
    ERRORS
        .iter()
        .find(|error| error.number() == number)
        .copied()
}
