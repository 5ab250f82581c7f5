//! Tests of the public face of the book, by the names of `fl_book`: a board with its seats, and each public call of a
//! desk, its history, the judge and the text.
#![tactic(auto)]

#[cfg(test)]
mod tests;
