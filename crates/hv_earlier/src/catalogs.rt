ghost use Rattle.std.specs.Prelude.{◌≡◌, ◌++◌, Some, is_some, IfOk, OnOk, take};
ghost use Rattle.std.specs.Option.{option_copied, option_map, option_to_list};
ghost use Rattle.hv_meta.specs.hv_book.specs.hv_history.specs.State.{state_of, numbered, created_shape};
ghost use Rattle.hv_meta.specs.Catalogs.{info_in};
ghost use Rattle.hv_meta.specs.hv_book.specs.Past.{table_live};
ghost use Rattle.hv_meta.specs.hv_book.specs.Names.{name_in};
ghost use Rattle.hv_earlier.specs.Lists.{catalog_at, info_of_name};
ghost use Rattle.hv_earlier.specs.Places.{live_so};

use crate::counts::was_live;
use hv_ast::Stmt;
use hv_base::{List, NoMemory, TableId, Text};
use hv_logic::{Catalog, TableInfo};
use hv_meta::hv_book::hv_history::numbered;
use hv_meta::hv_book::{Book, TableNote};
use hv_meta::made_shape;
use std::alloc::Global;

fn made_info(alloc: Global, note: &TableNote, tree: Option<&Stmt>) -> Result<TableInfo, NoMemory>
    ensures { IfOk result (λ info. info ≡ record {
      table = record { 0 = note.now.id };
      shape = created_shape (option_copied tree.entry);
    }) }
{
    Ok(TableInfo {
        table: TableId(note.id),
        shape: made_shape(alloc, tree)?,
    })
}

/// Whether the table of this number was there and live at that place.
pub fn is_live_at(book: &Book, position: usize, table: u64) -> bool
    ensures live { result ≡ live_so
        (option_map table_live (numbered (state_of (take position book.now.entries)).tables table)) }
{
    match was_live(book, position, table) {
        Some(live) => live,
        None => false,
    }
}

/// The table of this number, where it was live at that place.
fn info_at(
    alloc: Global,
    book: &Book,
    position: usize,
    table: u64,
) -> Result<Option<TableInfo>, NoMemory>
    ensures { IfOk result (λ info. option_to_list info
        ≡ info_in (numbered (state_of (take position book.now.entries)).tables table)) }
{
    if !is_live_at(book, position, table) {
        return Ok(None);
    }
    match numbered(book.tables(), table) {
        Some(note) => Ok(Some(made_info(alloc, note, book.table_tree(table))?)),
        None => Ok(None),
    }
}

/// Appends the table of this number, where it was live at that place.
fn put_info(
    alloc: Global,
    book: &Book,
    position: usize,
    table: u64,
    infos: &mut Vec<TableInfo>,
) -> Result<(), NoMemory>
    ensures { OnOk result (infos.new.items ≡ infos.old.items
        ++ info_in (numbered (state_of (take position book.now.entries)).tables table)) }
{
    if let Some(info) = info_at(alloc, book, position, table)? {
        infos.push(info)?;
    }
    Ok(())
}

/// The live tables at a place of the book, from 0, by number: the entries before it count. It walks
/// the tables alone.
pub fn catalog_at(alloc: Global, book: &Book, position: usize) -> Result<Catalog, NoMemory>
    ensures catalog { IfOk result (λ catalog.
        catalog.tables ≡ catalog_at book.now.entries position) }
{
    let mut infos = Vec::new(alloc);
    for i in 0..book.tables().len() {
        put_info(alloc, book, position, i as u64 + 1, &mut infos)?;
    }
    Ok(Catalog {
        tables: List::from_vec(infos),
    })
}

/// The name of the table that this text makes, empty where it makes none.
fn made_name(tree: Option<&Stmt>) -> &str
    ensures name { result.now ≡ (created_shape (option_copied tree.entry)).name }
{
    match tree {
        Some(Stmt::CreateTable(create)) => create.table.as_str(),
        _ => "",
    }
}

/// The name of the table of this number, live or dropped, where it was there at that place; else an empty one.
pub fn name_at(book: &Book, position: usize, table: u64) -> &str
    ensures { result.now ≡ name_in (numbered (state_of (take position book.now.entries)).tables table) }
{
    match was_live(book, position, table) {
        Some(_) => made_name(book.table_tree(table)),
        None => "",
    }
}

/// Whether the table of this number was live at that place, and has this name.
fn is_named_at(book: &Book, position: usize, table: u64, name: &Text) -> bool
    ensures named { result ≡ is_some (info_of_name name.now
        (info_in (numbered (state_of (take position book.now.entries)).tables table))) }
{
    is_live_at(book, position, table) && made_name(book.table_tree(table)) == name.as_str()
}

/// The first of the live tables at a place of the book, from 0, that has this name. Only that one is made.
pub fn find_at(
    alloc: Global,
    book: &Book,
    position: usize,
    name: &Text,
) -> Result<Option<TableInfo>, NoMemory>
    ensures found { IfOk result (λ found.
        found ≡ info_of_name name.now (catalog_at book.now.entries position)) }
{
    for i in 0..book.tables().len() {
        let table = i as u64 + 1;
        if is_named_at(book, position, table, name) {
            return info_at(alloc, book, position, table);
        }
    }
    Ok(None)
}
