//! A gate that counts.

use fl_workers::Gate;
use std::sync::atomic::{AtomicU64, Ordering};

/// Counts the orders and the replies that it is told of.
#[derive(Drop)]
pub(super) struct Watch {
    passed: AtomicU64,
    sent: AtomicU64,
    // How many orders had come to it when the first reply was sent.
    first: AtomicU64,
}

impl Watch {
    /// It was told of none.
    pub(super) fn new() -> Watch {
        Watch {
            passed: AtomicU64::new(0),
            sent: AtomicU64::new(0),
            first: AtomicU64::new(0),
        }
    }

    /// How many orders had come to it when the first reply was sent.
    pub(super) fn orders_before_the_first_reply(&self) -> u64 {
        self.first.load(Ordering::SeqCst)
    }
}

impl Gate for Watch {
    fn pass(&self, _unique: u64) {
        self.passed.fetch_add(1, Ordering::SeqCst);
    }

    fn sent(&self, _unique: u64) {
        if self.sent.fetch_add(1, Ordering::SeqCst) == 0 {
            let orders = self.passed.load(Ordering::SeqCst);
            self.first.store(orders, Ordering::SeqCst);
        }
    }
}
