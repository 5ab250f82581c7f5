//! For how long nobody has looked.

use fl_core::Rules;

/// How many orders `hand_in_one` and `hand_in_all` were given since somebody looked, and how many it takes until the
/// copies that looks read are let go. It concerns only how fast a board is.
///
/// It takes one order for each slot of the core. To update both copies for so many orders costs about what new copies
/// cost. Copies that were made anew stay. So a board spends at most twice that on copies that nobody reads.
#[derive(Drop)]
pub(crate) struct Idle {
    orders: u64,
    most: u64,
}

impl Idle {
    /// None so far, of a board with these rules. By the standard ones it takes 5,632 orders.
    pub(crate) fn new(rules: Rules) -> Idle {
        Idle {
            orders: 0,
            most: rules.runs as u64
                + rules.parked as u64
                + rules.files as u64
                + rules.open_files as u64,
        }
    }

    /// From here on it is never long. Copies that were made anew stay: else each thread that made some would keep
    /// memory of its own for them.
    pub(crate) fn end(&mut self) {
        self.most = u64::MAX;
    }

    /// So many orders come, and somebody looked since the last ones, or not: whether nobody has for long.
    pub(crate) fn is_long(&mut self, looked: bool, orders: usize) -> bool {
        let before = if looked { 0 } else { self.orders };
        self.orders = before.saturating_add(orders as u64);
        self.orders >= self.most
    }
}
