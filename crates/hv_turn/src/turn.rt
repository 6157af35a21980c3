ghost use Rattle.std.specs.Prelude.{◌≡◌, ℕ, ◌++◌, ◌<◌, ◌-◌, true, false, [], length, IfOk, IfErr, Some, None};
ghost use mathlib.Core.List.{IsPrefix};

use crate::order::{Both, Draw, HandOn, Look, Order, Part, Settle, Tally};
use crate::seat::{Inner, Seat};
use crate::storied::Storied;
use crate::view::View;
use atomic_table::{Refused, Table};
use hv_base::NoMemory;
use std::alloc::Global;
use std::marker::Model;
use std::snapshot::Snapshot;
use std::sync::Wait;

// The indexes of the words: the next ticket, the ticket that is served, and the length of the history.
const TICKET: usize = 0;

const SERVING: usize = 1;

const COUNT: usize = 2;

// A sleep compares the low 32 bits of a word.
const LOW: u64 = 0xffff_ffff;

/// A lock that is taken in the order in which its tickets were drawn. Contracts see which turn it is.
pub struct Turn<S: Storied> {
    table: Table<Option<S>, View<S, S::Item, S::Root>, Snapshot<S>, Order<S>, Global>,
}

impl<S: Storied> Model for Turn<S> {
    ghost use Rattle.std.specs.Prelude.{◌≡◌};
    ghost use Rattle.atomic_table.specs.Seated.{TableId};

    ghost Value = { TableId };

    ghost view = { λ t. t.table.shared.table_id };

    ghost invariant = { λ t. (t.table.shared.table_id.words ≡ 3) × (t.table.shared.table_id.slots ≡ 1) };
}

/// The value, while a seat has the turn. It has no `Drop`, so it ends in `leave`.
pub struct Held<S> {
    pub value: S,
}

impl<S: Storied> Turn<S> {
    ghost use Rattle.hv_turn.specs.declared.view.Stage.TheVariants.{Idle, Waits};
    ghost use Rattle.hv_turn.specs.Counts.{times, within};
    ghost use Rattle.hv_turn.specs.Views.{waits, places_behind, GoesOn, IsSeen};
    ghost use Rattle.hv_turn.specs.Order.{Comes};
    ghost use Rattle.hv_turn.specs.Tokens.{first_token, IsSameOrOneMore, Joins};

    /// A turn over the value, and the seat that has all 64 parts of it. Without memory the value comes back.
    pub fn new(value: S, alloc: Global) -> Result<(Turn<S>, Seat<S>), (NoMemory, S)>
        requires keeps { S.keeps value }
        ensures seat { IfOk result (λ r. r.1 ≡ first_token r.0 (S.items value) (S.root value) value) }
        ensures back { IfErr result (λ e. e.1 ≡ value) }
    {
        let length = value.length();
        let about = Snapshot::of(&value);
        let Ok(mut slots) = Vec::with_capacity(alloc, 1) else {
            return Err((NoMemory, value));
        };
        slots.push_reserved(Some(value));
        match Table::new(alloc, &[0, 0, length], slots, &about) {
            Ok((table, inner)) => Ok((Turn { table }, Seat { inner, length: 0 })),
            Err(Refused { mut slots }) => {
                let value = slots.pop().unwrap().unwrap();
                slots.destroy_empty();
                Err((NoMemory, value))
            }
        }
    }

    /// A new seat, which has one part of the other's and has seen what it has seen.
    pub fn split(&self, seat: &mut Seat<S>) -> Seat<S>
        requires turn { seat.old.turn ≡ self.now }
        requires free { seat.old.has_turn ≡ false }
        requires parts { 1 < seat.old.parts }
        ensures kept { seat.new ≡ record seat.old { parts = seat.old.parts - 1 } }
        ensures given { result ≡ record seat.old { own = []; parts = 1 } }
    {
        let inner = self.table.shared.split_seat::<Part>(&mut seat.inner);
        Seat { inner, length: 0 }
    }

    /// Takes in another seat: its parts, its own places, and what it has seen.
    pub fn join(&self, seat: &mut Seat<S>, other: Seat<S>)
        requires turn { (seat.old.turn ≡ self.now) × (other.turn ≡ self.now) }
        requires free { (seat.old.has_turn ≡ false) × (other.has_turn ≡ false) }
        ensures { Joins S.later seat.old other seat.new }
    {
        self.table
            .shared
            .join_seat::<Both>(&mut seat.inner, other.into_inner());
        self.table.shared.load::<Settle>(&mut seat.inner, TICKET);
    }

    // Draws the next ticket. At the last number it tries for ever.
    fn draw<R: Wait>(&self, rt: &R, inner: &mut Inner<S>) -> u64
        requires turn { inner.old.table_id ≡ self.now }
        requires idle { inner.old.me.0.stage ≡ Idle }
        requires part { 0 < inner.old.me.0.parts }
        ensures turn { (inner.new.table_id ≡ inner.old.table_id) × (inner.new.id ≡ inner.old.id) }
        ensures ticket { inner.new.me ≡ (waits inner.old.me.0 result, inner.old.me.1) }
    {
        let mut next = self.table.shared.peek(TICKET);
        for _ in rt.forever() {
            if next < u64::MAX {
                let found = self
                    .table
                    .shared
                    .compare_exchange::<Draw>(inner, TICKET, next, next + 1);
                if found == next {
                    return next;
                }
                next = found;
            }
        }
        unreachable!()
    }

    // Waits until the ticket is served.
    fn wait_for<R: Wait>(&self, rt: &R, inner: &mut Inner<S>, ticket: u64)
        requires turn { inner.old.table_id ≡ self.now }
        requires waits { inner.old.me.0.stage ≡ Waits ticket }
        requires part { 0 < inner.old.me.0.parts }
        ensures turn { (inner.new.table_id ≡ inner.old.table_id) × (inner.new.id ≡ inner.old.id) }
        ensures comes { Comes S.items S.root S.later S.keeps inner.old.me ticket inner.new.me }
    {
        for _ in rt.forever() {
            let serving = self.table.shared.load::<Look>(inner, SERVING);
            if serving == ticket {
                return;
            }
            self.table.shared.park(rt, SERVING, (serving & LOW) as u32);
        }
        unreachable!()
    }

    /// Waits for the turn, and takes the value. The seat has seen a beginning of its history, and with all parts the whole.
    pub fn enter<R: Wait>(&self, rt: &R, seat: &mut Seat<S>) -> Held<S>
        requires turn { seat.old.turn ≡ self.now }
        requires free { seat.old.has_turn ≡ false }
        ensures seat { seat.new ≡ record seat.old { stood = S.items result.value; took = Some result.value; has_turn = true } }
        ensures begins { IsPrefix seat.old.seen (S.items result.value) }
        ensures alone { seat.old.parts ≡ 64 → (S.items result.value ≡ seat.old.seen) × (seat.old.saw ≡ Some result.value) }
        ensures root { seat.old.root ≡ Some (S.root result.value) }
        ensures keeps { S.keeps result.value }
        ensures later { GoesOn S.later seat.old.saw result.value }
        ensures seen { IsSeen S.items seat.old.saw seat.old.seen }
    {
        let ticket = self.draw(rt, &mut seat.inner);
        self.wait_for(rt, &mut seat.inner, ticket);
        let value = self
            .table
            .shared
            .exchange(&mut seat.inner, 0, None)
            .unwrap();
        seat.length = value.length();
        Held { value }
    }

    /// Gives the turn back, with the value. Its history is the one that stood at `enter`, or has one item more.
    pub fn leave(&self, seat: &mut Seat<S>, held: Held<S>)
        requires turn { seat.old.turn ≡ self.now }
        requires has { seat.old.has_turn ≡ true }
        requires history { IsSameOrOneMore seat.old.stood (S.items held.value) }
        requires keeps { S.keeps held.value }
        requires later { GoesOn S.later seat.old.took held.value }
        ensures { let history = S.items held.value in
            seat.new ≡ record seat.old { seen = history; saw = Some held.value; stood = []; took = None; own = seat.old.own ++ places_behind seat.old.stood history; has_turn = false } }
    {
        let Held { value } = held;
        let more = value.length() - seat.length;
        let shared = &self.table.shared;
        let empty = shared.exchange(&mut seat.inner, 0, Some(value));
        let None = empty else { unreachable!() };
        shared.fetch_add::<Tally>(&mut seat.inner, COUNT, more);
        shared.fetch_add::<HandOn>(&mut seat.inner, SERVING, 1);
        shared.wake_all(SERVING);
    }

    /// Ends the turn, and gives the value back. The seat has all parts, and has seen its whole history. The places since the start are its own, each once.
    pub fn close(self, seat: Seat<S>) -> S
        requires turn { seat.turn ≡ self }
        requires free { seat.has_turn ≡ false }
        requires all { seat.parts ≡ 64 }
        ensures root { seat.root ≡ Some (S.root result) }
        ensures whole { S.items result ≡ seat.seen }
        ensures keeps { S.keeps result }
        ensures value { seat.saw ≡ Some result }
        ensures places { (p : ℕ) → times p seat.own ≡ within seat.start (length (S.items result)) p }
    {
        let Turn { table } = self;
        let mut closed = table.close_with(seat.into_inner());
        let value = closed.take(0).unwrap();
        closed.free();
        value
    }
}

impl<S: Storied + Drop> Drop for Turn<S> {
    fn drop(self) {
        let Self { table } = self;
        drop(table);
    }
}
