//! Tests of `fl_arena`, `fl_spans`, `fl_ranges`, `fl_locks`, `fl_dir` and `fl_state`: each generic call once, what no
//! clause says, and what no program calls. `tests/locks/ranges.py` has the others.
#![tactic(auto)]

#[cfg(test)]
mod tests;
