//! What is printed for a transaction.
ghost use Rattle.std.specs.Prelude.{◌≡◌, IfOk};
ghost use Rattle.std.specs.Option.{option_copied};
ghost use Rattle.hv_history.specs.State.{meaning, state_of};
ghost use Rattle.hv_history.specs.Answers.{committed_text, ending_text, answer_of, answer};

use crate::replay::Replay;
use hv_base::{List, NoMemory, Touch};
use hv_history::{Ending, Entry, Transaction, cause_text, counts_line, listing, numbered, ok_line};
use hv_logic::Meaning;
use std::alloc::Global;

// What the statement that opened a transaction came to at its Start.
fn meaning(transaction: &Transaction) -> Option<&Meaning>
    ensures { option_copied result ≡ meaning transaction.now }
{
    match transaction.statements.as_slice().first() {
        Some(statement) => match &statement.meaning {
            Some(meaning) => Some(meaning.get()),
            None => None,
        },
        None => None,
    }
}

// What a statement of this meaning prints when it has committed.
fn committed_text(
    alloc: Global,
    meaning: Option<&Meaning>,
    wrote: &[Touch],
) -> Result<Vec<u8>, NoMemory>
    ensures { IfOk result (λ text. text.items ≡ committed_text (option_copied meaning.entry) wrote.now) }
{
    match meaning {
        Some(Meaning::Listing(names, rows)) => listing(alloc, names.as_slice(), rows.as_slice()),
        Some(Meaning::Change(_, _)) => counts_line(alloc, wrote),
        _ => ok_line(alloc),
    }
}

fn ending_text(
    alloc: Global,
    transaction: &Transaction,
    ending: &Ending,
) -> Result<Vec<u8>, NoMemory>
    ensures { IfOk result (λ text. text.items ≡ ending_text transaction.now ending.now) }
{
    match ending {
        Ending::Committed(_, wrote) => {
            committed_text(alloc, meaning(transaction), wrote.as_slice())
        }
        Ending::Aborted(_, cause) => cause_text(alloc, &transaction.snapshot, cause),
        Ending::Made(_, _) => ok_line(alloc),
        Ending::Dropped(_, _) => ok_line(alloc),
    }
}

// What is printed for a transaction, None while it is open.
fn answer_of(alloc: Global, transaction: &Transaction) -> Result<Option<List<u8>>, NoMemory>
    ensures { IfOk result (λ text. text ≡ answer_of transaction.now) }
{
    match &transaction.ending {
        Some(ending) => {
            let text = ending_text(alloc, transaction, ending)?;
            Ok(Some(List::from_vec(text)))
        }
        None => Ok(None),
    }
}

/// What is printed for the transaction of that number, None where there is none or it is open:
/// the definition's own answer, by replaying the book from its first entry.
pub fn answer(alloc: Global, entries: &[Entry], txn: u64) -> Result<Option<List<u8>>, NoMemory>
    ensures { IfOk result (λ text. text ≡ answer (state_of entries.now) txn) }
{
    let replay = Replay::of(alloc, entries)?;
    match numbered(&replay.transactions, txn) {
        Some(transaction) => answer_of(alloc, transaction),
        None => Ok(None),
    }
}
