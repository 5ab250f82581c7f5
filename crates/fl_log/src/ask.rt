//! What a log is made of.

use crate::log::Entry;
use fl_order::Order;
use logbook::Plain;
use std::marker::Model;

/// An order, and the worker who handed it in, as contracts see it. The log is there for proofs alone, so no value of it
/// is made. It has no field: the proof of a function spells out the layout of each type that a call there names.
pub struct Ask {}

impl Model for Ask {
    ghost use Rattle.fl_log.specs.Asked.{Ask as Asked, no_ask};

    ghost Value = { Asked };

    ghost view = { λ _. no_ask };
}

impl Entry for Ask {
    ghost author = { λ ask. ask.worker };
}

/// An order that is lent, and the worker who hands it in: what an ask is made of.
#[derive(Clone, Copy, Debug)]
pub struct Asking<'a> {
    /// The worker's number, from 0.
    pub worker: u32,
    /// What it asks.
    pub order: &'a Order,
}

/// How it stands in a log.
pub struct AsAsk;

impl<'a> Plain<Asking<'a>, Ask, u64> for AsAsk {
    ghost use Rattle.std.specs.Prelude.{None};
    ghost use Rattle.fl_log.specs.Asked.{ask_of};

    ghost ask = { λ asking. ask_of asking.worker asking.order.now };

    ghost state = { λ asking. None };
}
