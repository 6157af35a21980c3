ghost use Rattle.std.specs.Prelude.{◌≡◌, ◌+◌, ◌≤◌, ◌++◌, ◌∷◌, [], length, vec_len, OnOk, OnErr, refl};
ghost use Rattle.std.proofs.Common.{◌∙◌};
ghost use mathlib.Core.List.{IsPrefix};
ghost use Rattle.hv_turn.specs.Tokens.{IsSameOrOneMore};
ghost use Rattle.hv_turn.proofs.Prefixes.{prefix_self, prefix_trans};

use hv_turn::Storied;
use std::alloc::Global;

/// What one thread added in one of its turns.
#[derive(Clone, Copy)]
pub struct Item {
    pub thread: u64,
    pub turn: u64,
}

/// There was no room for an item, or no memory.
#[derive(Clone, Copy)]
pub struct NotAdded;

/// A list of items that has room for so many.
#[derive(Drop)]
pub struct Log {
    pub room: u64,
    pub items: Vec<Item>,
}

impl Log {
    pub fn new(alloc: Global, room: u64) -> Log
        ensures { (result.room ≡ room) × (result.items.items ≡ []) }
    {
        Log {
            room,
            items: Vec::new(alloc),
        }
    }

    pub fn add(&mut self, item: Item) -> Result<(), NotAdded>
        requires fits { vec_len self.old.items ≤ self.old.room }
        ensures added { OnOk result (self.new.items.items ≡ self.old.items.items ++ item ∷ []) }
        ensures same { OnErr result (self.new.items.items ≡ self.old.items.items) }
        ensures room { self.new.room ≡ self.old.room }
        ensures fits { vec_len self.new.items ≤ self.new.room }
    {
        if self.items.len() as u64 >= self.room {
            return Err(NotAdded);
        }
        match self.items.push(item) {
            Ok(()) => Ok(()),
            Err(_) => Err(NotAdded),
        }
    }

    /// The same, and how many were added.
    pub fn count_added(&mut self, item: Item) -> u64
        requires fits { vec_len self.old.items ≤ self.old.room }
        ensures history { IsSameOrOneMore self.old.items.items self.new.items.items }
        ensures count { length self.new.items.items ≡ length self.old.items.items + result }
        ensures most { result ≤ 1 }
        ensures room { self.new.room ≡ self.old.room }
        ensures fits { vec_len self.new.items ≤ self.new.room }
    {
        match self.add(item) {
            Ok(()) => 1,
            Err(NotAdded) => 0,
        }
    }
}

impl Storied for Log {
    type Item = Item;

    type Root = u64;

    ghost items = { λ log. log.items.items };

    ghost root = { λ log. log.room };

    ghost later = { λ a b. IsPrefix a.items.items b.items.items × (a.room ≡ b.room) };

    ghost keeps = { λ log. vec_len log.items ≤ log.room };

    ghost reflexive = { λ x. (prefix_self x.items.items, refl) };

    ghost transitive = { λ x y z p q. (prefix_trans _ _ _ p.0 q.0, p.1 ∙ q.1) };

    ghost same_root = { λ x y p. p.1 };

    ghost begins = { λ x y p. p.0 };

    fn length(&self) -> u64 {
        self.items.len() as u64
    }
}
