ghost use Rattle.std.specs.Prelude.{◌≡◌, ◌+◌, ◌<◌, ◌≤◌, ◌++◌, ◌∷◌, [], vec_len, vec_capacity};

use hv_base::NoMemory;
use std::alloc::Global;
use std::marker::Model;

/// The group of an item, and the number of the item of its group before it: 0 where it is the first.
#[derive(Clone, Copy)]
struct Link {
    group: u64,
    before: u64,
}

/// The groups of the items of a list, one after another, and the way from each item to the one of its
/// group before it. Items and groups are numbered from 1. `lasts` has the last item of each group.
#[derive(Drop)]
pub struct Links {
    links: Vec<Link>,
    lasts: Vec<u64>,
}

impl Model for Links {
    ghost use Rattle.hv_links.specs.Links.{Linked, linked, AreLinked};

    ghost Value = { Linked };

    ghost view = { λ links. linked links.links links.lasts };

    ghost invariant = { λ links. AreLinked links.links.items links.lasts.items };
}

/// Appends to a vector that has room.
fn append<T: Drop>(items: &mut Vec<T>, item: T)
    requires room { vec_len items.old < vec_capacity items.old }
    ensures items { items.new.items ≡ items.old.items ++ item ∷ [] }
    ensures len { vec_len items.new ≡ vec_len items.old + 1 }
    ensures capacity { vec_capacity items.old ≤ vec_capacity items.new }
{
    items.push(item).unwrap();
}

impl Links {
    ghost use Rattle.std.specs.Prelude.{◌≡◌, ◌+◌, ◌<◌, ◌≤◌, ◌++◌, ◌∷◌, [], length, OnOk};
    ghost use Rattle.hv_links.specs.Links.{last_of, before_of};

    /// Those of no items, of no group. It takes no memory.
    pub fn new(alloc: Global) -> Links
        ensures groups { result.groups ≡ [] }
        ensures count { result.count ≡ 0 }
    {
        Links {
            links: Vec::new(alloc),
            lasts: Vec::new(alloc),
        }
    }

    /// Makes room for so many items and groups more.
    pub fn reserve(&mut self, items: usize, groups: usize) -> Result<(), NoMemory>
        ensures groups { self.new.groups ≡ self.old.groups }
        ensures count { self.new.count ≡ self.old.count }
        ensures items { self.old.item_room ≤ self.new.item_room }
        ensures more { self.old.group_room ≤ self.new.group_room }
        ensures enough_items { OnOk result (items ≤ self.new.item_room) }
        ensures enough_groups { OnOk result (groups ≤ self.new.group_room) }
    {
        self.links.reserve(items)?;
        self.lasts.reserve(groups)?;
        Ok(())
    }

    /// Makes the next group, of no items yet.
    pub fn add_group(&mut self)
        requires room { 0 < self.old.group_room }
        ensures groups { self.new.groups ≡ self.old.groups }
        ensures count { self.new.count ≡ self.old.count + 1 }
        ensures items { self.new.item_room ≡ self.old.item_room }
        ensures more { self.old.group_room ≤ self.new.group_room + 1 }
    {
        append(&mut self.lasts, 0);
    }

    /// Puts an item of this group behind the others.
    pub fn add(&mut self, group: u64)
        requires some { 0 < group }
        requires there { group ≤ self.old.count }
        requires room { 0 < self.old.item_room }
        ensures groups { self.new.groups ≡ self.old.groups ++ group ∷ [] }
        ensures count { self.new.count ≡ self.old.count }
        ensures items { self.old.item_room ≤ self.new.item_room + 1 }
        ensures more { self.new.group_room ≡ self.old.group_room }
    {
        let at = group as usize - 1;
        let before = self.lasts[at];
        append(&mut self.links, Link { group, before });
        self.lasts[at] = self.links.len() as u64;
    }

    /// The number of the last item of this group, 0 where there is none.
    pub fn last(&self, group: u64) -> u64
        ensures last { result ≡ last_of group self.now.groups }
        ensures bound { result ≤ length self.now.groups }
    {
        let lasts = self.lasts.as_slice();
        if group == 0 {
            return 0;
        }
        match lasts.get(group as usize - 1) {
            Some(last) => *last,
            None => 0,
        }
    }

    /// The number of the item before this one that is of its group, 0 where there is none.
    pub fn before(&self, number: u64) -> u64
        ensures before { result ≡ before_of number self.now.groups }
        ensures less { 0 < number → result < number }
    {
        if number == 0 {
            return 0;
        }
        match self.links.get(number as usize - 1) {
            Some(link) => link.before,
            None => 0,
        }
    }
}
