//! Tests of a board, and of a desk with what becomes of its history.

mod board;
mod desk;
