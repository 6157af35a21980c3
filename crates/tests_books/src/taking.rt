ghost use Rattle.std.specs.Prelude.{◌≡◌, ◌++◌, ◌∷◌, [], Some, OnOk, OnErr, IfErr};
ghost use Rattle.hv_reading.specs.Faults.{IsRefusalOf};
ghost use Rattle.hv_history.specs.Book.{tree_of_entry};
ghost use Rattle.hv_history.specs.declared.entry.Entry.TheVariants.{Opened};

use hv_ast::Stmt;
use hv_base::{NoMemory, Text, TxnId};
use hv_book::Book;
use hv_history::Entry;
use hv_reading::{TextFault, read_statement};
use std::alloc::Global;

fn discard<T: Drop>(_value: T) {}

/// Appends an entry with its text's tree, which is there exactly where it has a text.
pub fn append(book: &mut Book, entry: Entry, tree: Option<Stmt>) -> Result<(), NoMemory>
    requires tree { tree ≡ tree_of_entry entry }
    ensures ok { OnOk result (book.new.entries ≡ book.old.entries ++ entry ∷ []) }
    ensures err { OnErr result (book.new.entries ≡ book.old.entries) }
{
    if book.reserve(1).is_ok() {
        book.put(entry, tree);
        Ok(())
    } else {
        discard(entry);
        discard(tree);
        Err(NoMemory)
    }
}

/// Appends the opening of a transaction for this text, where the text is a statement. The error is
/// the text's fault; the book is then as it was.
pub fn take(
    alloc: Global,
    book: &mut Book,
    txn: TxnId,
    session: Text,
    number: u64,
    text: Text,
) -> Result<(), TextFault>
    ensures taken { OnOk result (book.new.entries ≡ book.old.entries ++ Opened txn session number text ∷ []) }
    ensures kept { OnErr result (book.new.entries ≡ book.old.entries) }
    ensures fault { IfErr result (λ fault. IsRefusalOf fault text) }
{
    let tree = read_statement(alloc, &text)?;
    let entry = Entry::Opened {
        txn,
        session,
        number,
        text,
    };
    append(book, entry, Some(tree))?;
    Ok(())
}
