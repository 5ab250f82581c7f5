//! Tests of the arena, of rows, of spans, of the lock table, of lists of locks, of the directory and of told states, by
//! what is public of them.

mod arena;
mod last_numbers;
mod lists;
mod ranges;
mod rows;
mod spans;
mod states;

use std::fmt::Debug;
use std::process::Abort;

// What was told is what is wanted.
fn same<T: Debug + PartialEq>(rt: &impl Abort, told: &T, wanted: &T) {
    assert_eq!(rt; *told, *wanted);
}
