ghost use Rattle.std.specs.Option.{option_map};
ghost use Rattle.std.specs.Prelude.{◌≡◌, ◌≤◌, ◌++◌, ◌∷◌, [], ◌⊎◌, ℕ, List, length, IfOk, OnOk, OnErr, IfErr, IsErrOf, MatchResult};
ghost use Rattle.hv_base.specs.Told.{Tells};
ghost use Rattle.hv_shelf.specs.Causes.{HardCause};
ghost use Rattle.hv_history.specs.declared.entry.Entry.{Entry};
ghost use Rattle.hv_fits.specs.hv_book.specs.Said.{said, said_of_entry};
ghost use Rattle.hv_history.specs.Journal.{Leads, place_of};
ghost use Rattle.hv_history.specs.State.{nothing_yet, state_of};
ghost use Rattle.hv_history.specs.Legal.{Fits, AllFit};
ghost use Rattle.hv_fits.specs.Texts.{IsHanded};
ghost use Rattle.hv_recovery.specs.Causes.{of_text};
ghost use Rattle.hv_recovery.specs.Recovery.{IsJournalOf, IsBadJournalAt, IsFaultFor, IsNoAnswer, HasStatement, IsRefusedAt};

use crate::bytes::journal_bytes;
use crate::fault::OpenFault;
use hv_ast::Stmt;
use hv_base::{Limits, NoMemory};
use hv_fits::fits;
use hv_fits::hv_book::Book;
use hv_history::Entry;
use hv_journal::next_record;
use hv_reading::{TextFault, skim_statement};
use hv_shelf::Shelf;
use std::alloc::Global;

/// What a text's fault is at this gate.
fn refusal(fault: TextFault, at: u64) -> OpenFault
    ensures { result ≡ of_text at fault }
{
    match fault {
        TextFault::NoMemory => OpenFault::NoMemory,
        _ => OpenFault::BadJournal { at },
    }
}

/// The tree of the text of the entry at this gate, without the rows that an INSERT writes out.
fn tree_beside(alloc: Global, entry: &Entry, at: u64) -> Result<Option<Stmt>, OpenFault>
    ensures tree { IfOk result (λ tree. option_map said tree ≡ said_of_entry entry.now) }
    ensures statement { OnOk result (HasStatement entry.now) }
    ensures handed { IfOk result (IsHanded entry.now) }
    ensures bad { IfErr result (IsRefusedAt (HasStatement entry.now) at) }
{
    match entry {
        Entry::Opened { text, .. } => match skim_statement(alloc, text) {
            Ok(tree) => Ok(Some(tree)),
            Err(fault) => Err(refusal(fault, at)),
        },
        _ => Ok(None),
    }
}

fn discard<T: Drop>(_value: T) {}

/// What is kept of the tree of the entry at this gate, or more of it, where the entry fits the book.
fn judge(
    alloc: Global,
    limits: &Limits,
    book: &Book,
    entry: &Entry,
    at: u64,
) -> Result<Option<Stmt>, OpenFault>
    requires fit { AllFit limits.now nothing_yet book.now.entries }
    ensures tree { IfOk result (λ tree. option_map said tree ≡ said_of_entry entry.now) }
    ensures good { OnOk result (Fits limits.now (state_of book.now.entries) entry.now) }
    ensures bad { IfErr result
        (IsRefusedAt (Fits limits.now (state_of book.now.entries) entry.now) at) }
{
    let tree = tree_beside(alloc, entry, at)?;
    if fits(book, limits, entry, tree.as_ref()) {
        Ok(tree)
    } else {
        discard(tree);
        Err(OpenFault::BadJournal { at })
    }
}

/// Appends an entry with what is kept of its text's tree, or with more of it.
fn append(book: &mut Book, entry: Entry, tree: Option<Stmt>) -> Result<(), NoMemory>
    requires tree { option_map said tree ≡ said_of_entry entry }
    ensures ok { OnOk result (book.new.entries ≡ book.old.entries ++ entry ∷ []) }
    ensures err { OnErr result (book.new.entries ≡ book.old.entries) }
{
    if book.reserve(1).is_ok() {
        book.put_said(entry, tree);
        Ok(())
    } else {
        discard(entry);
        discard(tree);
        Err(NoMemory)
    }
}

/// Appends the entry at this gate to the book, where it fits.
fn admit(
    alloc: Global,
    limits: &Limits,
    book: &mut Book,
    entry: Entry,
    at: u64,
) -> Result<(), OpenFault>
    requires fit { AllFit limits.now nothing_yet book.old.entries }
    ensures entries { OnOk result (book.new.entries ≡ book.old.entries ++ entry ∷ []) }
    ensures good { OnOk result (Fits limits.now (state_of book.old.entries) entry) }
    ensures bad { IfErr result (IsRefusedAt (Fits limits.now (state_of book.old.entries) entry) at) }
{
    match judge(alloc, limits, book, &entry, at) {
        Ok(tree) => {
            append(book, entry, tree)?;
            Ok(())
        }
        Err(fault) => {
            discard(entry);
            Err(fault)
        }
    }
}

/// Reads the entries behind the open gates up to the first closed one into an empty book. The
/// answer is the place of that gate.
fn scan(alloc: Global, limits: &Limits, bytes: &[u8], book: &mut Book) -> Result<u64, OpenFault>
    requires empty { book.old.entries ≡ [] }
    requires long { 2 ≤ length bytes.now }
    ensures found { OnOk result (IsJournalOf limits.now book.new.entries bytes.now) }
    ensures place { IfOk result (λ at. at ≡ place_of book.new.entries) }
    ensures bad { IfErr result (IsFaultFor limits.now bytes.now) }
    ensures unfailed { IsErrOf result OpenFault.Failed → ⊥ }
{
    let mut rest = bytes;
    let mut at = 0;
    while let Some((entry, behind)) = next_record(alloc, rest, at)? {
        admit(alloc, limits, book, entry, at)?;
        at += (rest.len() - behind.len()) as u64;
        rest = behind;
    }
    Ok(at)
}

/// Reads a journal's bytes: the book, and the place of its closed gate. A journal of no byte or of
/// one is the empty book, with the place 0.
pub fn read_book(alloc: Global, limits: &Limits, bytes: &[u8]) -> Result<(Book, u64), OpenFault>
    ensures found { IfOk result (λ x. IsJournalOf limits.now x.0.entries bytes.now) }
    ensures place { IfOk result (λ x. x.1 ≡ place_of x.0.entries) }
    ensures bad { IfErr result (IsFaultFor limits.now bytes.now) }
    ensures unfailed { IsErrOf result OpenFault.Failed → ⊥ }
{
    let mut book = Book::new(alloc);
    if bytes.len() < 2 {
        return Ok((book, 0));
    }
    match scan(alloc, limits, bytes, &mut book) {
        Ok(at) => Ok((book, at)),
        Err(fault) => {
            discard(book);
            Err(fault)
        }
    }
}

/// Reads the journal that a store holds: the book, and the place of its closed gate.
///
/// # Errors
/// `BadJournal` at the first gate that is missing, or that is open with no record behind it whose
/// entry fits; `Failed` where the store failed. The store is as it was.
pub fn read_journal<D: Shelf>(
    alloc: Global,
    shelf: &mut D,
    limits: &Limits,
) -> Result<(Book, u64), OpenFault>
    // What is read fits, whatever the store tells, and the place is its closed gate's.
    ensures fit { IfOk result (λ x. AllFit limits.now nothing_yet x.0.entries) }
    ensures place { IfOk result (λ x. x.1 ≡ place_of x.0.entries) }
    // What is read is the journal's book, and a bad gate is one.
    ensures found { IfOk result (λ x.
        Tells (D.told shelf.old) (λ s. IsJournalOf limits.now x.0.entries s.journal)) }
    ensures bad { IfErr result (λ fault.
        Tells (D.told shelf.old) (λ s. IsFaultFor limits.now s.journal fault)) }
    // The journal's book is read, and its bad gate found, unless the store fails or memory runs out.
    ensures only { Tells (D.told shelf.old) (λ s. (book : List Entry)
        → IsJournalOf limits.now book s.journal
        → MatchResult result (λ x. x.0.entries ≡ book) IsNoAnswer) }
    ensures named { Tells (D.told shelf.old) (λ s. (at : ℕ) → IsBadJournalAt limits.now s.journal at
        → MatchResult result (λ _. ⊥)
        (λ fault. (fault ≡ OpenFault.BadJournal at) ⊎ IsNoAnswer fault)) }
    ensures same { D.told shelf.new ≡ D.told shelf.old }
    ensures cause { HardCause (IsErrOf result OpenFault.Failed)
        (D.faults shelf.old) (D.faults shelf.new) (D.hard shelf.old) (D.hard shelf.new) }
{
    let bytes = journal_bytes(alloc, shelf)?;
    read_book(alloc, limits, &bytes)
}
