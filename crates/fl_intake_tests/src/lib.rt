//! Tests of an intake, by what is public of it.
#![tactic(auto)]

#[cfg(test)]
mod tests;
