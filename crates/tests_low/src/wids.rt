use crate::words::number;
use hv_base::{Duplicate, NoMemory, WriteId};
use hv_wids::{Exception, WriteIdList};
use std::alloc::Global;

/// Writes 1 to 5, of which 2 was open and 4 and 5 had been aborted.
fn sample(alloc: Global) -> Result<WriteIdList, NoMemory> {
    let exceptions = vec![in alloc;
        Exception {
            write: WriteId(2),
            aborted: false
        },
        Exception {
            write: WriteId(4),
            aborted: true
        },
        Exception {
            write: WriteId(5),
            aborted: true
        },
    ]?;
    Ok(WriteIdList::new(WriteId(5), exceptions))
}

/// Writes 1 to 5, of which 3 had been aborted.
fn aborted(alloc: Global) -> Result<WriteIdList, NoMemory> {
    let exceptions = vec![in alloc;
        Exception {
            write: WriteId(3),
            aborted: true
        },
    ]?;
    Ok(WriteIdList::new(WriteId(5), exceptions))
}

/// Asks the copy of a list.
pub fn answer(alloc: Global, out: &mut String, call: &str, words: &[&str]) -> Result<(), NoMemory> {
    let first = if call == "aborted" {
        aborted(alloc)
    } else {
        sample(alloc)
    };
    let list = first?.duplicate(alloc)?;
    let (low, high) = (number(words, 0), number(words, 1));
    let done = match call {
        "valid" => write!(out, "{}", list.valid(WriteId(low))),
        "range" if low <= high => write!(out, "{:?}", list.range(WriteId(low), WriteId(high))),
        "base" | "aborted" => write!(out, "{}", list.valid_base(WriteId(low))),
        _ => write!(out, "{list:?}"),
    };
    Ok(done?)
}
