//! Tests of sessions with workers that the built program can't show: one worker alone, which serves as a session
//! without workers does, and orders that are held up.
#![tactic(auto)]

#[cfg(test)]
mod tests;
