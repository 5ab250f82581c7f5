//! Tests over writers in memory, of what no built program shows: a trace whose writer fails, an outbox whose writer
//! breaks, an output that takes all and then can't hand it on, and a session over memory. A trace is also read and
//! printed with each allocation refused in turn. All is by what is public. The scripts of `tests` try the rest.
#![tactic(auto)]

#[cfg(test)]
mod tests;
