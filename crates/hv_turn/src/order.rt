//! The rule of the table, and the names of its steps. These types are for the proofs alone.
ghost use Rattle.hv_turn.specs.Views.{gives_part, one_part, joined, spent};
ghost use Rattle.hv_turn.specs.Order.{Turning, beginning, draws, looks, tallies, hands_on, settles};

use crate::storied::Storied;
use crate::view::View;
use atomic_table::{Join, Play, Split, TableRule};
use std::marker::PhantomData;
use std::snapshot::Snapshot;

/// What holds between any two steps. Its key is the value at the start.
pub struct Order<S> {
    marker: PhantomData<S>,
}

impl<S: Storied> TableRule<Option<S>, View<S, S::Item, S::Root>, Snapshot<S>> for Order<S> {
    ghost holds = { λ key. Turning S.items S.root S.later S.keeps key.value };

    ghost first = { λ key. beginning S.items S.root S.later S.keeps key.value };
}

pub(crate) struct Draw;

impl<S: Storied> Play<Option<S>, View<S, S::Item, S::Root>> for Draw {
    ghost then = { draws S.items S.root S.later S.keeps };
}

pub(crate) struct Look;

impl<S: Storied> Play<Option<S>, View<S, S::Item, S::Root>> for Look {
    ghost then = { looks S.items S.root S.later S.keeps };
}

pub(crate) struct Tally;

impl<S: Storied> Play<Option<S>, View<S, S::Item, S::Root>> for Tally {
    ghost then = { tallies S.items S.root S.later S.keeps };
}

pub(crate) struct HandOn;

impl<S: Storied> Play<Option<S>, View<S, S::Item, S::Root>> for HandOn {
    ghost then = { hands_on S.items S.root S.later S.keeps };
}

pub(crate) struct Settle;

impl<S: Storied> Play<Option<S>, View<S, S::Item, S::Root>> for Settle {
    ghost then = { settles S.items S.root S.later S.keeps };
}

pub(crate) struct Part;

impl<S, I, Q> Split<View<S, I, Q>> for Part {
    ghost left = { gives_part };

    ghost right = { one_part };
}

pub(crate) struct Both;

impl<S, I, Q> Join<View<S, I, Q>> for Both {
    ghost both = { joined };

    ghost spent = { spent };
}
