//! Why a line is bad, in words: of a trace, or of hex.

use fl_order::OpKind;
use std::fmt;
use std::fmt::{Display, Formatter};

// A line of so many bytes or more, its newline not counted, is longer than any of a trace.
const TOO_LONG: usize = 700;

// The greatest numbers behind `ask`: worker, unique, node, uid, gid and pid.
const ASKED: [u64; 6] = [
    15,
    u64::MAX,
    u64::MAX,
    u32::MAX as u64,
    u32::MAX as u64,
    u32::MAX as u64,
];

// The greatest numbers behind `create`: whether a file that is there is an error, and permissions.
const CREATED: [u64; 2] = [1, 0o777];

// The greatest number behind `mknod` and `mkdir`: a mode.
const MADE: [u64; 1] = [u32::MAX as u64];

// What may stand behind the unique of a reply.
const REPLIES: [&str; 7] = ["ok", "entry", "attr", "open", "made", "lock", "err"];

/// Why a line is bad.
#[derive(Clone, Copy)]
pub enum Why<'a> {
    /// For this reason.
    Said(&'static str),
    /// For what stands around one of its words.
    Word(&'static str, &'a str, &'static str),
    /// It has this byte, which stands in none.
    Byte(u8),
    /// This number is greater than the greatest.
    Great(&'a str, u64),
    /// It has this byte, which is no hex digit.
    NoDigit(u8),
}

impl Display for Why<'_> {
    fn fmt<W: fmt::Write>(&self, f: &mut Formatter<W>) -> fmt::Result {
        match self {
            Why::Said(reason) => f.write_str(reason),
            Why::Word(before, word, behind) => write!(f, "{before}{word}{behind}"),
            Why::Byte(byte) => write!(f, "it has the byte {byte}, which stands in no line"),
            Why::Great(word, most) => write!(f, "{word} is too great: the most is {most}"),
            Why::NoDigit(byte) => {
                let byte = char::from(*byte);
                write!(f, "{byte} is no hex digit")
            }
        }
    }
}

const UNENDED: Why<'_> = Why::Said("no newline ends it");

const CUT_OFF: Why<'_> = Why::Said(
    "no newline ends it: check --cut drops the end of a trace that was cut off",
);

// How the lines of a head begin.
const HEAD_WORDS: [&[u8]; 6] = [b"state ", b"node ", b"file ", b"lock ", b"wait ", b"go"];

const TOLD: Why<'_> = Why::Said("a script has orders alone: leave out the replies");

const HEADED: Why<'_> = Why::Said("a script has orders alone: leave out the head");

const EMPTY: Why<'_> = Why::Said("it is empty");

const LONG: Why<'_> = Why::Said("it is longer than any line of a trace");

const RETURN: Why<'_> = Why::Said("it has a carriage return: lines end with a newline alone");

const SPACE: Why<'_> = Why::Said("one space stands between words, and none at the ends");

const SHORT: Why<'_> = Why::Said("words are missing at its end");

const UPPER: Why<'_> = Why::Said("the name of a file is written in lower case hex");

const ODD: Why<'_> = Why::Said("it has an odd number of hex digits");

const NO_REPLIES: Why<'_> = Why::Said("recv waits for 1 to 1000 replies");

/// Why a line is none of a script. A newline ends it, or none does.
pub fn why_bad_order(text: &[u8], ended: bool) -> Why<'_> {
    if !ended {
        return UNENDED;
    }
    if text.starts_with(b"tell ") {
        return TOLD;
    }
    if HEAD_WORDS.iter().any(|word| text.starts_with(word)) {
        return HEADED;
    }
    why_bad(text, ended)
}

/// Why a line is none of a trace. A newline ends it, or none does. Of one that is too long some may be missing.
pub fn why_bad(text: &[u8], ended: bool) -> Why<'_> {
    if !ended {
        return CUT_OFF;
    }
    if text.is_empty() {
        return EMPTY;
    }
    if text.len() >= TOO_LONG {
        return LONG;
    }
    match odd_byte(text) {
        Some(why) => why,
        None => why_words(str::from_utf8(text).unwrap_or("")),
    }
}

/// Why a line is none of hex, and none that waits for replies. A newline ends it, or none does.
pub fn why_bad_hex(text: &[u8], ended: bool) -> Why<'_> {
    if !ended {
        return UNENDED;
    }
    if let Some(why) = odd_byte(text) {
        return why;
    }
    if let Some(count) = text.strip_prefix(b"recv ") {
        let word = str::from_utf8(count).unwrap_or("");
        return why_number(word, 1000).unwrap_or(NO_REPLIES);
    }
    match text.iter().copied().find(|byte| !byte.is_ascii_hexdigit()) {
        Some(byte) => Why::NoDigit(byte),
        None => ODD,
    }
}

// The first byte that stands in no line, if there is one.
fn odd_byte(text: &[u8]) -> Option<Why<'_>> {
    match text.iter().copied().find(|byte| *byte < 32 || *byte > 126)? {
        b'\r' => Some(RETURN),
        byte => Some(Why::Byte(byte)),
    }
}

fn why_words(text: &str) -> Why<'_> {
    if text.starts_with(' ') || text.ends_with(' ') || text.contains("  ") {
        return SPACE;
    }
    let (word, rest) = first_word(text);
    match word {
        "ask" => why_asked(rest),
        "tell" => why_told(rest),
        "state" | "file" | "lock" | "wait" => why_fields(word, rest),
        "node" | "go" => unfit(word),
        _ => Why::Word("it begins with ", word, ", and with neither ask nor tell"),
    }
}

// The first word of a text, and what stands behind it.
fn first_word(text: &str) -> (&str, &str) {
    text.split_once(' ').unwrap_or((text, ""))
}

// What stands behind numbers up to these, or why they don't stand there.
fn behind_numbers<'a>(text: &'a str, greatest: &[u64]) -> Result<&'a str, Why<'a>> {
    let mut rest = text;
    for most in greatest {
        let (word, behind) = first_word(rest);
        if let Some(why) = why_number(word, *most) {
            return Err(why);
        }
        rest = behind;
    }
    Ok(rest)
}

fn why_asked(text: &str) -> Why<'_> {
    let rest = match behind_numbers(text, &ASKED) {
        Ok(rest) => rest,
        Err(why) => return why,
    };
    let (word, fields) = first_word(rest);
    if word.is_empty() {
        return SHORT;
    }
    match OpKind::of_word(word) {
        Some(OpKind::Create) => why_named(word, &CREATED, fields),
        Some(OpKind::Mknod | OpKind::Mkdir) => why_named(word, &MADE, fields),
        Some(OpKind::Lookup | OpKind::Unlink | OpKind::Rmdir) => why_named(word, &[], fields),
        Some(kind) if kind.shape().is_ok() => why_fields(word, fields),
        _ => Why::Word("no order is named ", word, ""),
    }
}

// Why numbers up to these and the name of a file don't fit behind the name of an order.
fn why_named<'a>(order: &'a str, greatest: &[u64], fields: &'a str) -> Why<'a> {
    match behind_numbers(fields, greatest) {
        Err(why) => why,
        Ok(name) if is_upper_hex(name) => UPPER,
        Ok(_) => unfit(order),
    }
}

// Whether a name would be hex if its letters were lower case.
fn is_upper_hex(name: &str) -> bool {
    name.bytes().all(|byte| byte.is_ascii_hexdigit())
        && name.bytes().any(|byte| byte.is_ascii_uppercase())
}

fn why_told(text: &str) -> Why<'_> {
    let rest = match behind_numbers(text, &[u64::MAX]) {
        Ok(rest) => rest,
        Err(why) => return why,
    };
    let (word, fields) = first_word(rest);
    if word.is_empty() {
        return SHORT;
    }
    if REPLIES.iter().any(|name| *name == word) {
        return why_fields(word, fields);
    }
    Why::Word("no reply is named ", word, "")
}

// Why these words behind a name don't fit.
fn why_fields<'a>(name: &'a str, fields: &'a str) -> Why<'a> {
    let mut rest = fields;
    for _ in 0..fields.len() {
        if rest.is_empty() {
            break;
        }
        let (word, behind) = first_word(rest);
        if let Some(why) = why_number(word, u64::MAX) {
            return why;
        }
        rest = behind;
    }
    unfit(name)
}

// What stands behind this name doesn't fit.
fn unfit(name: &str) -> Why<'_> {
    Why::Word(
        "what stands behind ",
        name,
        " doesn't fit: see docs/TRACE.md",
    )
}

// Why a word is no number up to the most that it may be, if it is none.
fn why_number(word: &str, most: u64) -> Option<Why<'_>> {
    let bytes = word.as_bytes();
    if bytes.is_empty() {
        return Some(SHORT);
    }
    if !bytes.iter().all(|byte| byte.is_ascii_digit()) {
        return Some(Why::Word("", word, " is no number"));
    }
    if bytes.len() > 1 && bytes[0] == b'0' {
        return Some(Why::Word("", word, " has a zero in front"));
    }
    match word.parse::<u64>() {
        Ok(number) if number <= most => None,
        _ => Some(Why::Great(word, most)),
    }
}
