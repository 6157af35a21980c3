use crate::index::Index;
use crate::jobs::JobNote;
use crate::names::{has_name, has_named, name_place, note_names};
use crate::notes::{End, Held, TableNote, TransactionNote, append};
use crate::openings::OpeningNotes;
use crate::past::PastNotes;
use crate::said::kept;
use hv_ast::Stmt;
use hv_base::{List, NoMemory, Text, Touch};
use hv_history::{Entry, numbered};
use std::alloc::Global;
use std::marker::Model;

/// The list of the journal's entries, which is the warehouse's history. Beside each entry that has a
/// text it keeps that text's tree without the rows that an INSERT writes out, and beside them all what is asked
/// often: so nobody walks them. `names` has the numbers of the live tables, by name.
/// Contracts see the entries, and how many more fit without asking for memory.
#[derive(Drop)]
pub struct Book {
    alloc: Global,
    entries: Vec<Entry>,
    trees: Vec<Option<Stmt>>,
    index: Index,
    openings: OpeningNotes,
    past: PastNotes,
    names: Vec<u64>,
}

impl Model for Book {
    ghost use Rattle.hv_history.specs.Book.{Kept};
    ghost use Rattle.hv_book.specs.Index.{IsIndexed};

    ghost Value = { Kept };

    ghost view = { λ book. record { entries = book.entries.items; spare = book.index.room } };

    ghost invariant = { λ book. IsIndexed book.entries book.trees book.index book.openings book.past book.names };
}

impl Book {
    ghost use Rattle.std.specs.Prelude.{◌≡◌, ℕ, ◌+◌, ◌*◌, ◌^◌, ◌<◌, ◌≤◌, ◌++◌, ◌∷◌, [], Some, map, OnOk, IsOk};
    ghost use Rattle.std.specs.Option.{option_copied, option_map};
    ghost use Rattle.hv_history.specs.declared.state.Table.{Table};
    ghost use Rattle.hv_history.specs.Book.{tree_of_entry};
    ghost use Rattle.hv_history.specs.State.{state_of, numbered, created_shape};
    ghost use Rattle.hv_history.specs.Legal.{load, is_named};
    ghost use Rattle.hv_book.specs.Briefs.{brief, brief_table, brief_job, open_from, held_by, given_at, tree_in, session_at, session_in};
    ghost use Rattle.hv_book.specs.Said.{said, said_of_entry, said_at, said_text};
    ghost use Rattle.hv_book.specs.Index.{openings_in};
    ghost use Rattle.hv_book.specs.Past.{IsPast, past_in};
    ghost use Rattle.hv_book.specs.Opened.{AreOpened};
    ghost use Rattle.hv_book.specs.Names.{name_at};
    ghost use Rattle.std.specs.List.{list_any};
    ghost use Rattle.std.specs.Cmp.Lexicographic.{pointwise};
    ghost use Rattle.std.specs.Prelude.{Bool, List, nat_eq};
    ghost use Rattle.hv_base.specs.declared.ids.Touch.{Touch};
    ghost use Rattle.hv_book.specs.Commits.{commits_so, passes_at, touches_at, touches_by, wrote_in, IsRising};

    /// The book of no entries. It takes no memory.
    pub fn new(alloc: Global) -> Book
        ensures entries { result.entries ≡ [] }
    {
        Book {
            alloc,
            entries: Vec::new(alloc),
            trees: Vec::new(alloc),
            index: Index::new(alloc),
            openings: OpeningNotes::new(alloc),
            past: PastNotes::new(alloc),
            names: Vec::new(alloc),
        }
    }

    pub fn entries(&self) -> &[Entry]
        ensures entries { result.now ≡ self.now.entries }
    {
        self.entries.as_slice()
    }

    /// What is kept of the tree beside the entry at this place, from 0. None where the entry has no text.
    pub fn tree(&self, at: usize) -> Option<&Stmt>
        ensures tree { option_copied result ≡ said_at self.now.entries at }
    {
        match self.trees.get(at) {
            Some(tree) => tree.as_ref(),
            None => None,
        }
    }

    /// The transactions, by number from 1: their Starts and ends.
    pub fn transactions(&self) -> &[TransactionNote]
        ensures transactions { result.now ≡ map brief (state_of self.now.entries).transactions }
    {
        self.index.transactions.as_slice()
    }

    /// The places where the transactions were opened, rising.
    pub fn opened(&self) -> &[u64]
        ensures opened { AreOpened self.now.entries result.now }
    {
        self.index.opened.as_slice()
    }

    /// The numbers of the open transactions, rising.
    pub fn ongoing(&self) -> &[u64]
        ensures ongoing { result.now ≡ open_from 1 (map brief (state_of self.now.entries).transactions) }
    {
        self.index.ongoing.as_slice()
    }

    /// The tables, by number from 1: their ids, whether they are live, how many write ids were given.
    pub fn tables(&self) -> &[TableNote]
        ensures tables { result.now ≡ map brief_table (state_of self.now.entries).tables }
    {
        self.index.tables.as_slice()
    }

    /// The compaction jobs, by number from 1.
    pub fn jobs(&self) -> &[JobNote]
        ensures jobs { result.now ≡ map brief_job (state_of self.now.entries).jobs }
    {
        self.index.jobs.as_slice()
    }

    /// The entries, and the one that each open transaction and each working job still needs.
    pub fn load(&self) -> u128
        ensures load { result ≡ load (state_of self.now.entries) }
        ensures bound { result ≤ 3 * 2 ^ 64 }
    {
        let entries = self.entries.as_slice().len() as u128;
        let ongoing = self.index.ongoing.as_slice().len() as u128;
        entries + ongoing + u128::from(self.index.jobs.working())
    }

    /// Whether the table of this number, live or dropped, has this name; where there is none, whether the name is empty.
    pub fn has_name(&self, table: u64, name: &Text) -> bool
        ensures same { result
            ≡ pointwise nat_eq (name_at (state_of self.now.entries).tables table) name.now }
    {
        has_name(self, table, name.as_str())
    }

    /// Whether a live table has this name.
    pub fn has_named(&self, name: &Text) -> bool
        ensures named { result ≡ list_any (is_named name.now) (state_of self.now.entries).tables }
    {
        has_named(self, &self.names, name.as_str())
    }

    /// The write ids of the open transactions.
    pub fn held(&self) -> &[Held]
        ensures held { (k : ℕ) → held_by k result.now
            ≡ given_at (numbered (state_of self.now.entries).transactions k) }
    {
        self.index.held.as_slice()
    }

    /// The places of the commits, rising.
    pub fn commits(&self) -> &[u64]
        ensures commits { (passes : ℕ → List Touch → Bool)
            → list_any (commits_so passes) (state_of self.now.entries).transactions
            ≡ list_any (passes_at passes self.now.entries) result.now }
        ensures rising { IsRising result.now }
    {
        self.index.commits.as_slice()
    }

    /// What the Commit at this place wrote. None where no Commit stands there.
    pub fn touches(&self, place: u64) -> Option<&List<Touch>>
        ensures touches { option_copied result ≡ touches_at self.now.entries place }
    {
        match self.entries.get(place as usize) {
            Some(Entry::Commit { wrote, .. }) => Some(wrote),
            _ => None,
        }
    }

    /// What the transaction of this number wrote, where it committed its writes.
    pub fn committed(&self, txn: u64) -> Option<&List<Touch>>
        ensures wrote { option_copied result
            ≡ wrote_in (numbered (state_of self.now.entries).transactions txn) }
    {
        match numbered(&self.index.transactions, txn) {
            Some(note) => self.touches_by(note.ending),
            None => None,
        }
    }

    fn touches_by(&self, end: Option<End>) -> Option<&List<Touch>>
        ensures touches { option_copied result ≡ touches_by self.now.entries end }
    {
        match end {
            Some(end) => self.touches(end.at),
            None => None,
        }
    }

    /// The openings of the store.
    pub fn openings(&self) -> &OpeningNotes
        ensures openings { openings_in result.now ≡ (state_of self.now.entries).openings }
    {
        &self.openings
    }

    /// What is kept for the earlier places of the book: its write ids, and its tables.
    pub fn past(&self) -> &PastNotes
        ensures past { IsPast self.now.entries (past_in result.now) }
    {
        &self.past
    }

    /// What is kept of the tree of the text that opened the transaction of this number.
    pub fn opening_tree(&self, txn: u64) -> Option<&Stmt>
        ensures tree { option_copied result
            ≡ tree_in (numbered (state_of self.now.entries).transactions txn) }
    {
        match numbered(&self.index.opened, txn) {
            Some(place) => self.tree(*place as usize),
            None => None,
        }
    }

    /// The session whose statement opened the transaction of this number.
    pub fn session(&self, txn: u64) -> Option<&Text>
        ensures session { option_copied result
            ≡ session_in (numbered (state_of self.now.entries).transactions txn) }
    {
        match numbered(&self.index.opened, txn) {
            Some(place) => self.session_at(*place),
            None => None,
        }
    }

    /// The session of the transaction that was opened at this place.
    fn session_at(&self, place: u64) -> Option<&Text>
        ensures session { option_copied result ≡ session_at self.now.entries place }
    {
        match self.entries.get(place as usize) {
            Some(Entry::Opened { session, .. }) => Some(session),
            _ => None,
        }
    }

    /// What is kept of the tree of the text that made the table of this number.
    pub fn table_tree(&self, table: u64) -> Option<&Stmt>
        ensures shape { (t : Table) → numbered (state_of self.now.entries).tables table ≡ Some t
            → t.info.shape ≡ created_shape (option_copied result) }
    {
        match numbered(&self.index.texts, table) {
            Some(text) => self.text_tree(*text),
            None => None,
        }
    }

    /// What is kept of the tree of the text at a place, where there is one.
    fn text_tree(&self, text: Option<u64>) -> Option<&Stmt>
        ensures tree { option_copied result ≡ said_text self.now.entries text }
    {
        match text {
            Some(place) => self.tree(place as usize),
            None => None,
        }
    }

    /// Makes room for so many entries more.
    pub fn reserve(&mut self, more: usize) -> Result<(), NoMemory>
        ensures entries { self.new.entries ≡ self.old.entries }
        ensures room { OnOk result (more ≤ self.new.spare) }
        ensures spare { self.old.spare ≤ self.new.spare }
        ensures has { more ≤ self.old.spare → IsOk result }
    {
        if more <= self.index.room {
            return Ok(());
        }
        self.entries.reserve(more)?;
        self.trees.reserve(more)?;
        self.openings.kept.reserve(more)?;
        self.past.reserve(more)?;
        self.names.reserve(more)?;
        self.index.reserve(more)
    }

    /// Appends an entry where there is room, with its text's tree, which is there exactly where it has a text. What is
    /// kept of it has no rows that an INSERT writes out.
    pub fn put(&mut self, entry: Entry, tree: Option<Stmt>)
        requires room { 0 < self.old.spare }
        requires tree { tree ≡ tree_of_entry entry }
        ensures entries { self.new.entries ≡ self.old.entries ++ entry ∷ [] }
        ensures spare { self.old.spare ≤ self.new.spare + 1 }
    {
        self.put_said(entry, tree);
    }

    /// Appends an entry where there is room, with what is kept of its text's tree, or with more of it.
    pub fn put_said(&mut self, entry: Entry, tree: Option<Stmt>)
        requires room { 0 < self.old.spare }
        requires tree { option_map said tree ≡ said_of_entry entry }
        ensures entries { self.new.entries ≡ self.old.entries ++ entry ∷ [] }
        ensures spare { self.old.spare ≤ self.new.spare + 1 }
    {
        let place = self.entries.as_slice().len() as u64;
        let next = self.index.tables.as_slice().len() as u64 + 1;
        let at = name_place(self, &self.names, &entry);
        note_names(&mut self.names, at, next, &entry);
        self.past.note(&self.index, place, &entry);
        self.index.note(place, &entry);
        self.openings.note(place, &entry);
        append(&mut self.entries, entry);
        let light = kept(self.alloc, tree);
        append(&mut self.trees, light);
    }
}
