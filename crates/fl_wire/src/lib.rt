//! The messages of the lock directory as the bytes of the FUSE kernel protocol 7.31 (Linux `fuse.h`).
//!
//! Reading is total: each message of 40 to 8,192 bytes is an order, a batch of FORGETs or an INIT, or it is refused.
//! A message that is laid out from an order reads back as that order, and one that is laid out from pairs as their
//! FORGETs. No call that reads can be refused for memory. `Frame::whole` reads what only some sessions answer: READDIR,
//! STATFS, and requests that are refused with errors of their own. None of these is an order.
//!
//! Replies are appended to bytes of the caller. The reply to a READDIR is laid out entry by entry: `begin_list`,
//! `append_dirent` until one doesn't fit, `end_list`.
//!
//! No proof says that a Linux kernel sends and reads these bytes: the layouts were copied from `fuse.h` by hand.
//! `tests/serve/messages.py` and `tests/serve/whole.py` have messages and replies that were laid out from it by hand as
//! well.
#![tactic(auto)]

mod append;
mod batch;
mod cut;
mod frame;
mod init;
mod layout;
mod listing;
mod reading;
mod single;
mod whole;
mod writing;

pub use batch::Batch;
pub use cut::{Step, next_frame};
pub use frame::Frame;
pub use init::{InitStep, read_init, write_init};
pub use listing::{append_dirent, begin_list, end_list};
pub use single::{BLANK, Single};
pub use whole::WholeAsk;
pub use writing::{write_statfs, write_told};
