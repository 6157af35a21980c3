use crate::notes::IdNote;
use hv_base::NoMemory;
use std::alloc::Global;
use std::marker::Model;

/// Write ids that come and go, by table. Contracts see them in their order, and how many more fit without
/// asking for memory.
#[derive(Drop)]
pub struct PendingIds {
    ids: Vec<IdNote>,
}

impl Model for PendingIds {
    ghost use Rattle.std.specs.Prelude.{◌-◌, vec_len, vec_capacity};
    ghost use Rattle.std.specs.List.Sorted.{IsNonDecreasingBy};
    ghost use Rattle.hv_ids.specs.Ids.{Pending, note_table};

    ghost Value = { Pending };

    ghost view = { λ pending. record {
      ids = pending.ids.items;
      room = vec_capacity pending.ids - vec_len pending.ids;
    } };

    ghost invariant = { λ pending. IsNonDecreasingBy note_table pending.ids.items };
}

impl PendingIds {
    ghost use Rattle.std.specs.Prelude.{◌≡◌, ◌+◌, ◌<◌, ◌≤◌, [], filter, OnOk};
    ghost use Rattle.hv_ids.specs.Ids.{put_id, is_of_other, is_in};

    /// No ids. It takes no memory.
    pub fn new(alloc: Global) -> PendingIds
        ensures ids { result.ids ≡ [] }
    {
        PendingIds {
            ids: Vec::new(alloc),
        }
    }

    /// Makes room for so many ids more.
    pub fn reserve(&mut self, more: usize) -> Result<(), NoMemory>
        ensures ids { self.new.ids ≡ self.old.ids }
        ensures room { self.old.room ≤ self.new.room }
        ensures enough { OnOk result (more ≤ self.new.room) }
    {
        self.ids.reserve(more)?;
        Ok(())
    }

    /// All of them, by table.
    pub fn as_slice(&self) -> &[IdNote]
        ensures ids { result.now ≡ self.now.ids }
    {
        self.ids.as_slice()
    }

    /// Puts an id behind those of its table.
    pub fn add(&mut self, id: IdNote)
        requires room { 0 < self.old.room }
        ensures ids { self.new.ids ≡ put_id id self.old.ids }
        ensures room { self.old.room ≤ self.new.room + 1 }
    {
        let at = up_to(&self.ids, id.table);
        self.ids.insert(at, id).unwrap();
    }

    /// Takes out the ids of a transaction.
    pub fn take_out(&mut self, txn: u64)
        ensures ids { self.new.ids ≡ filter (is_of_other txn) self.old.ids }
        ensures room { self.old.room ≤ self.new.room }
    {
        self.ids.retain(|id| id.txn != txn);
    }

    /// Those of one table.
    pub fn of_table(&self, table: u64) -> &[IdNote]
        ensures ids { result.now ≡ filter (is_in table) self.now.ids }
    {
        part_of(&self.ids, table)
    }
}

ghost use Rattle.std.specs.Prelude.{◌≡◌, ◌<◌, ◌≤◌, length, filter, nat_le, nat_lt, true, false};
ghost use Rattle.std.specs.List.Sorted.{IsNonDecreasingBy, IsPartitionPoint};
ghost use Rattle.hv_ids.specs.Ids.{note_table, is_in};

/// How many ids are of tables below this one.
fn below(ids: &[IdNote], table: u64) -> usize
    requires sorted { IsNonDecreasingBy note_table ids.now }
    ensures bound { result ≤ length ids.now }
    ensures point { IsPartitionPoint (λ (id : IdNote). nat_lt id.table table ≡ true)
        (λ (id : IdNote). nat_lt id.table table ≡ false) ids.now result }
{
    ids.partition_point(|id| id.table < table)
}

/// How many ids are of tables up to this one.
fn up_to(ids: &[IdNote], table: u64) -> usize
    requires sorted { IsNonDecreasingBy note_table ids.now }
    ensures bound { result ≤ length ids.now }
    ensures point { IsPartitionPoint (λ (id : IdNote). nat_le id.table table ≡ true)
        (λ (id : IdNote). nat_le id.table table ≡ false) ids.now result }
{
    ids.partition_point(|id| id.table <= table)
}

/// Those of one table, found by binary search.
fn part_of(ids: &[IdNote], table: u64) -> &[IdNote]
    requires sorted { IsNonDecreasingBy note_table ids.now }
    ensures ids { result.now ≡ filter (is_in table) ids.now }
{
    let rest = &ids[below(ids, table)..];
    &rest[..up_to(rest, table)]
}
