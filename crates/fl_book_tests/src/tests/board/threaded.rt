//! Tests of a board by threads, by what is public of it.

mod pool;
mod rounds;
mod watched;

// A number that only looks random.
fn roll(worker: u32, round: u64) -> u64 {
    let number = round.saturating_add(u64::from(worker).saturating_mul(4_099));
    number.saturating_mul(number).saturating_mul(40_503) / 1_024
}
