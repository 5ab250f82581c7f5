//! Tests of the workers of a session, over a counter in memory.
#![tactic(auto)]

#[cfg(test)]
mod tests;
