ghost use Rattle.std.specs.Prelude.{◌≡◌, ◌≤◌, ◌<◌, ◌+◌, ◌-◌, ◌++◌, min, length, vec_len, vec_capacity, IfOk, true};
ghost use Rattle.hv_actor.specs.Acting.{IsLater, Touched, sees, Held, Went, Anything, numbers_from, own_among};

use crate::actor::{Act, Actor, Housed};
use hv_base::NoMemory;
use hv_shelf::Shelf;
use std::alloc::Global;
use std::marker::PhantomData;

/// Others who act on a house.
pub trait Others<D: Shelf, H: Housed<D>>: Drop {
    /// Lets them do what they want to do now.
    fn go(&mut self, alloc: Global, house: &mut H)
        requires keeps { H.keeps house.old }
        requires shuts { H.shuts house.old }
        ensures keeps { H.keeps house.new }
        ensures shuts { H.shuts house.new }
        ensures later { IsLater D.faults (H.seen house.old) (H.seen house.new) };
}

/// A house on which others act too: before each step of the one who holds it, as often as there is room to keep
/// which places are its own, and not from then on.
pub struct Crowd<D: Shelf, H: Housed<D>, O: Others<D, H>> {
    house: H,
    others: O,
    early: Vec<u64>,
    since: u64,
    store: PhantomData<D>,
}

/// Keeps the places of the items from `at` on, two at most, in a list that has room.
fn keep(early: &mut Vec<u64>, at: u64, now: u64)
    requires room { vec_len early.old + 2 ≤ vec_capacity early.old }
    requires least { at ≤ now }
    requires most { now ≤ at + 2 }
    ensures places { early.new.items ≡ early.old.items ++ numbers_from at (now - at) }
{
    if at < now {
        early.push(at).unwrap();
        if at + 1 < now {
            early.push(at + 1).unwrap();
        }
    }
}

impl<D: Shelf, H: Housed<D>, O: Others<D, H>> Crowd<D, H, O> {
    /// The house among these others, who come as often as there is room for the places of a step, two at most, among so many.
    pub fn new(
        alloc: Global,
        house: H,
        others: O,
        places: usize,
    ) -> Result<Crowd<D, H, O>, NoMemory>
        ensures house { IfOk result (λ crowd. crowd.house ≡ house) }
    {
        let early = Vec::with_capacity(alloc, places)?;
        let since = house.items();
        Ok(Crowd {
            house,
            others,
            early,
            since,
            store: PhantomData,
        })
    }

    /// The house, when the others have gone.
    pub fn into_house(self) -> H
        ensures house { result ≡ self.house }
    {
        let Crowd {
            house,
            others: _others,
            early: _early,
            since: _since,
            store: _store,
        } = self;
        house
    }

    /// The house and the others, when all is done.
    pub fn into_parts(self) -> (H, O)
        ensures house { result.0 ≡ self.house }
        ensures others { result.1 ≡ self.others }
    {
        let Crowd {
            house,
            others,
            early: _early,
            since: _since,
            store: _store,
        } = self;
        (house, others)
    }

    /// The places of its own that it keeps: all of them up to the place from which on each is its own.
    pub fn kept(&self) -> &[u64]
        ensures kept { result.now ≡ self.now.early.items }
    {
        &self.early
    }

    /// The place from which on each is its own.
    pub fn since(&self) -> u64
        ensures since { result ≡ self.now.since }
    {
        self.since
    }
}

impl<D: Shelf, H: Housed<D>, O: Others<D, H>> Crowd<D, H, O> {
    /// Ends the places that were all its own where the trail ends, if they began behind it.
    fn settle(&mut self)
        ensures house { self.new.house ≡ self.old.house }
        ensures early { self.new.early ≡ self.old.early }
        ensures since { self.new.since ≡ min self.old.since (length (H.seen self.old.house).trail) }
    {
        self.since = self.since.min(self.house.items());
    }

    /// Whether others may come: there is room to keep a step's places, and no place is its own but those that are kept.
    fn has_room(&self) -> bool
        ensures room { result ≡ true → vec_len self.now.early + 2 ≤ vec_capacity self.now.early }
        ensures since { result ≡ true → self.now.since ≡ length (H.seen self.now.house).trail }
    {
        self.early.len() + 2 <= self.early.capacity() && self.since == self.house.items()
    }

    /// One step, behind those of the others.
    fn behind_others<A: Act<D, H>>(&mut self, alloc: Global, act: A) -> A::Answer
        requires keeps { H.keeps self.old.house }
        requires shuts { H.shuts self.old.house }
        requires can { (now : H) → H.keeps now → Touched D.faults H.seen self.old.house now → A.can act (H.seen now) }
        requires room { vec_len self.old.early + 2 ≤ vec_capacity self.old.early }
        requires since { self.old.since ≡ length (H.seen self.old.house).trail }
        ensures keeps { H.keeps self.new.house }
        ensures shuts { H.shuts self.new.house }
        ensures held { Held (sees D.told D.faults H.seen H.keeps) (Touched D.faults H.seen) self.old.house
            self.new.house
            (λ seen. A.call act seen result) (A.outcome act result) (λ before now. A.does act before now result) }
        ensures went { Went Anything (A.adds act result)
            (own_among self.old.early.items self.old.since (H.seen self.old.house).trail)
            (own_among self.new.early.items self.new.since (H.seen self.new.house).trail)
            (H.seen self.old.house).trail (H.seen self.new.house).trail }
    {
        self.others.go(alloc, &mut self.house);
        let at = self.house.items();
        let answer = act.act(alloc, &mut self.house);
        let now = self.house.items();
        keep(&mut self.early, at, now);
        self.since = now;
        answer
    }

    /// One step, and nobody comes before it.
    fn undisturbed<A: Act<D, H>>(&mut self, alloc: Global, act: A) -> A::Answer
        requires keeps { H.keeps self.old.house }
        requires shuts { H.shuts self.old.house }
        requires can { (now : H) → H.keeps now → Touched D.faults H.seen self.old.house now → A.can act (H.seen now) }
        requires since { self.old.since ≤ length (H.seen self.old.house).trail }
        ensures keeps { H.keeps self.new.house }
        ensures shuts { H.shuts self.new.house }
        ensures held { Held (sees D.told D.faults H.seen H.keeps) (Touched D.faults H.seen) self.old.house
            self.new.house
            (λ seen. A.call act seen result) (A.outcome act result) (λ before now. A.does act before now result) }
        ensures went { Went Anything (A.adds act result)
            (own_among self.old.early.items self.old.since (H.seen self.old.house).trail)
            (own_among self.new.early.items self.new.since (H.seen self.new.house).trail)
            (H.seen self.old.house).trail (H.seen self.new.house).trail }
    {
        act.act(alloc, &mut self.house)
    }
}

impl<D: Shelf, H: Housed<D>, O: Others<D, H>> Actor<D, H> for Crowd<D, H, O> {
    ghost use Rattle.hv_actor.specs.Acting.{Anything, Touched, own_among};
    ghost use Rattle.hv_actor.specs.Rows.{anything_rows, one_of_two};

    ghost house = { λ c. c.house };

    ghost own = { λ c. own_among c.early.items c.since (H.seen c.house).trail };

    ghost between = { Anything };

    ghost meanwhile = { Touched D.faults H.seen };

    ghost keeps = { λ c. H.keeps c.house × H.shuts c.house };

    ghost most = { 2 };

    ghost goes_on = { λ before now later. later };

    ghost kept = { λ c keeps. keeps.0 };

    ghost shut = { λ c keeps. keeps.1 };

    ghost rows = { anything_rows };

    ghost one = { one_of_two };

    fn hold<A: Act<D, H>>(&mut self, alloc: Global, act: A) -> A::Answer {
        self.settle();
        if self.has_room() {
            self.behind_others(alloc, act)
        } else {
            self.undisturbed(alloc, act)
        }
    }
}
