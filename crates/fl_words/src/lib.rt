//! The words of a line of text, both ways: numbers, names, and a yes or no, with one space between them; and the lines
//! of a head, with what a lock request asks for.
//!
//! Each reader takes the one spelling that a word has, and each word leads back to what it is of (`laws`).
#![tactic(auto)]

pub mod laws;
mod lock_ask;
mod spelling;
mod state;
mod words;

pub use lock_ask::{push_lock_ask, read_lock_ask};
pub use spelling::{push, push_flag, push_name, push_number, push_numbers};
pub use state::{push_state, read_state};
pub use words::{
    first_word, flag, flag_word, name, number, split_word, u32_number, u32_word, u64_word,
};
