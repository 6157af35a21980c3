ghost use Rattle.std.specs.Prelude.{◌≡◌, ◌≤◌, false};
ghost use Rattle.hv_actor.specs.Acting.{Touched, sees, Held, Went, Anything};
ghost use Rattle.hv_turn.specs.Views.{GoesOn};
ghost use Rattle.hv_seated.specs.Sharing.{IsSharedLater};
ghost use Rattle.hv_seated.specs.Seats.{Fixed, no_seat, fixed_of, IsSeated};

use crate::shared::Shared;
use hv_actor::{Act, Actor, Housed};
use hv_shelf::Shelf;
use hv_turn::{Seat, Turn};
use std::alloc::Global;
use std::marker::{Brand, PhantomData};
use std::snapshot::Snapshot;
use std::sync::Wait;

/// What no step changes of a chair's seat, and what is so still when it is given back, whoever acted with the chair meanwhile: of
/// which turn it is, how many parts it has, and how long the history was at the start. A call at `Brand` says what that is.
pub trait SeatKey {
    ghost fixed: { Fixed };
}

impl SeatKey for Brand {
    ghost fixed = { no_seat };
}

/// A seat at a turn as one who acts on the house: each of its steps waits for the turn, and is one hold. It isn't `Drop`, so that a
/// seat can't be lost: it ends in `into_seat`.
pub struct Chair<'a, K: SeatKey, R: Wait, D: Shelf, H: Housed<D>> {
    rt: &'a R,
    turn: &'a Turn<Shared<D, H>>,
    seat: Seat<Shared<D, H>>,
    // The house as it was when the seat gave it back last.
    seen: Snapshot<Shared<D, H>>,
    about: PhantomData<K>,
}

impl<'a, K: SeatKey, R: Wait, D: Shelf, H: Housed<D>> Chair<'a, K, R, D, H> {
    /// Takes a seat once through the turn, so that the house is seen as it is now.
    pub fn new(
        rt: &'a R,
        turn: &'a Turn<Shared<D, H>>,
        seat: Seat<Shared<D, H>>,
    ) -> Chair<'a, K, R, D, H>
        requires turn { seat.turn ≡ turn.now }
        requires free { seat.has_turn ≡ false }
        requires fixed { fixed_of seat ≡ K.fixed }
        ensures seated { IsSeated result.turn.now result.seat result.seen.value H.keeps H.shuts K.fixed }
        ensures own { result.seat.own ≡ seat.own }
        ensures later { GoesOn (IsSharedLater D.faults H.seen) seat.saw result.seen.value }
    {
        let mut seat = seat;
        let held = turn.enter(rt, &mut seat);
        let seen = Snapshot::of(&held.value);
        turn.leave(&mut seat, held);
        Chair {
            rt,
            turn,
            seat,
            seen,
            about: PhantomData,
        }
    }

    /// The seat, when all is done.
    pub fn into_seat(self) -> Seat<Shared<D, H>>
        ensures seat { result ≡ self.entry.seat }
    {
        let Chair {
            rt: _rt,
            turn: _turn,
            seat,
            seen: _seen,
            about: _about,
        } = self;
        seat
    }

    /// One step: the turn comes, the act is done, and the turn goes on.
    fn one_step<A: Act<D, H>>(&mut self, alloc: Global, act: A) -> A::Answer
        requires seated { IsSeated self.old.turn.now self.old.seat self.old.seen.value H.keeps H.shuts K.fixed }
        requires few { A.most ≤ 1 }
        requires can { (now : H) → H.keeps now → Touched D.faults H.seen self.old.seen.value.house now
            → A.can act (H.seen now) }
        ensures seated { IsSeated self.new.turn.now self.new.seat self.new.seen.value H.keeps H.shuts K.fixed }
        ensures held { Held (sees D.told D.faults H.seen H.keeps) (Touched D.faults H.seen) self.old.seen.value.house
            self.new.seen.value.house
            (λ seen. A.call act seen result) (A.outcome act result) (λ before now. A.does act before now result) }
        ensures went { Went Anything (A.adds act result) self.old.seat.own self.new.seat.own
            (H.seen self.old.seen.value.house).trail (H.seen self.new.seen.value.house).trail }
    {
        let mut held = self.turn.enter(self.rt, &mut self.seat);
        let answer = act.act(alloc, &mut held.value.house);
        let seen = Snapshot::of(&held.value);
        self.turn.leave(&mut self.seat, held);
        self.seen = seen;
        answer
    }
}

impl<'a, K: SeatKey, R: Wait, D: Shelf, H: Housed<D>> Actor<D, H> for Chair<'a, K, R, D, H> {
    ghost use Rattle.hv_actor.specs.Acting.{Anything, Touched};
    ghost use Rattle.hv_actor.specs.Rows.{anything_rows};
    ghost use Rattle.hv_seated.specs.Seats.{IsSeated, seated_keeps, seated_shuts, one_of_one};

    ghost house = { λ chair. chair.seen.value.house };

    ghost own = { λ chair. chair.seat.own };

    ghost between = { Anything };

    ghost meanwhile = { Touched D.faults H.seen };

    ghost keeps = { λ chair. IsSeated chair.turn.now chair.seat chair.seen.value H.keeps H.shuts K.fixed };

    ghost most = { 1 };

    ghost goes_on = { λ before now later. later };

    ghost kept = { λ chair seated.
        seated_keeps chair.turn.now chair.seat chair.seen.value H.keeps H.shuts K.fixed seated };

    ghost shut = { λ chair seated.
        seated_shuts chair.turn.now chair.seat chair.seen.value H.keeps H.shuts K.fixed seated };

    ghost rows = { anything_rows };

    ghost one = { one_of_one };

    fn hold<A: Act<D, H>>(&mut self, alloc: Global, act: A) -> A::Answer {
        self.one_step(alloc, act)
    }
}
