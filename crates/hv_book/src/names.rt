ghost use Rattle.std.specs.Prelude.{◌≡◌, ◌+◌, ◌<◌, ◌≤◌, length, nat_eq, true, false, vec_len, vec_capacity};
ghost use Rattle.std.specs.Cmp.Lexicographic.{pointwise};
ghost use Rattle.std.specs.Option.{option_copied};
ghost use Rattle.std.specs.List.{list_any};
ghost use Rattle.hv_history.specs.State.{state_of, numbered, created_shape, made_shape};
ghost use Rattle.hv_history.specs.Legal.{is_named};
ghost use Rattle.hv_book.specs.Names.{name_at, NamesRise, IsNamed, IsNamePoint, IsNamePlace, names_behind};

use crate::book::Book;
use crate::notes::close;
use hv_ast::Stmt;
use hv_history::{Entry, numbered};

/// The name of the table that this text makes, empty where it makes none.
fn made_name(tree: Option<&Stmt>) -> &str
    ensures name { result.now ≡ (created_shape (option_copied tree.entry)).name }
{
    match tree {
        Some(Stmt::CreateTable(create)) => create.table.as_str(),
        _ => "",
    }
}

/// The name of the table that the text makes which opened the transaction of this number, empty where it makes none.
fn name_by(book: &Book, txn: u64) -> &str
    ensures name { result.now ≡ (made_shape (numbered (state_of book.now.entries).transactions txn)).name }
{
    made_name(book.opening_tree(txn))
}

/// The name of the table of this number, empty where there is none.
fn name_of(book: &Book, table: u64) -> &str
    ensures name { result.now ≡ name_at (state_of book.now.entries).tables table }
{
    match numbered(book.tables(), table) {
        Some(_) => made_name(book.table_tree(table)),
        None => "",
    }
}

/// Whether the table of this number has this name; where there is none, whether the name is empty.
pub fn has_name(book: &Book, table: u64, name: &str) -> bool
    ensures same { result ≡ pointwise nat_eq (name_at (state_of book.now.entries).tables table) name.now }
{
    name_of(book, table) == name
}

/// How many of these tables have names below this one.
fn names_below(book: &Book, numbers: &[u64], name: &str) -> usize
    requires rise { NamesRise (state_of book.now.entries).tables numbers.now }
    ensures bound { result ≤ length numbers.now }
    ensures point { IsNamePoint (state_of book.now.entries).tables name.now numbers.now result }
{
    numbers.partition_point(|table| name_of(book, *table).cmp(name).is_lt())
}

/// Whether one of the live tables, which these are by name, has this name.
pub fn has_named(book: &Book, numbers: &[u64], name: &str) -> bool
    requires named { IsNamed (state_of book.now.entries).tables numbers.now }
    ensures named { result ≡ list_any (is_named name.now) (state_of book.now.entries).tables }
{
    match numbers.get(names_below(book, numbers, name)) {
        Some(table) => name_of(book, *table) == name,
        None => false,
    }
}

/// Where a table that this entry makes comes among the live ones, which these are by name.
pub fn name_place(book: &Book, numbers: &[u64], entry: &Entry) -> usize
    requires named { IsNamed (state_of book.now.entries).tables numbers.now }
    ensures bound { result ≤ length numbers.now }
    ensures place { IsNamePlace (state_of book.now.entries) numbers.now entry.now result }
{
    match entry {
        Entry::Create { txn, .. } => { names_below(book, numbers, name_by(book, txn.0)) }
        _ => 0,
    }
}

/// Notes an entry, where a table that it makes has the next number and comes at this place.
pub fn note_names(numbers: &mut Vec<u64>, at: usize, next: u64, entry: &Entry)
    requires bound { at ≤ vec_len numbers.old }
    requires room { vec_len numbers.old < vec_capacity numbers.old }
    ensures numbers { numbers.new.items ≡ names_behind at next entry.now numbers.old.items }
    ensures len { vec_len numbers.new ≤ vec_len numbers.old + 1 }
    ensures capacity { vec_capacity numbers.old ≤ vec_capacity numbers.new }
{
    match entry {
        Entry::Create { .. } => numbers.insert(at, next).unwrap(),
        Entry::Drop { table, .. } => close(numbers, table.0),
        _ => {}
    }
}
