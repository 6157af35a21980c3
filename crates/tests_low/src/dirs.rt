ghost use Rattle.std.specs.Prelude.{All, IfOk};
ghost use Rattle.hv_dirs.specs.Names.{IsName};

use crate::words::piece;
use hv_base::{NoMemory, Text, WriteId};
use hv_dirs::{DirName, choose, own_delta, parse_name, print_name};
use hv_wids::{Exception, WriteIdList};
use std::alloc::Global;

/// The name that a text is, and its text again.
fn name(alloc: Global, out: &mut String, text: &str) -> Result<(), NoMemory> {
    match parse_name(alloc, &Text::of(alloc, text)?)? {
        Some(name) => Ok(write!(out, "{name:?} {}", print_name(alloc, &name)?)?),
        None => Ok(write!(out, "none")?),
    }
}

/// Write ids 1 to 3, of which 2 is open.
fn open(alloc: Global) -> Result<WriteIdList, NoMemory> {
    let open = Exception {
        write: WriteId(2),
        aborted: false,
    };
    Ok(WriteIdList::new(WriteId(3), vec![in alloc; open]?))
}

/// Write ids 1 to 4, of which 1 is aborted and 3 open.
fn aborted(alloc: Global) -> Result<WriteIdList, NoMemory> {
    let aborted = Exception {
        write: WriteId(1),
        aborted: true,
    };
    let open = Exception {
        write: WriteId(3),
        aborted: false,
    };
    Ok(WriteIdList::new(WriteId(4), vec![in alloc; aborted, open]?))
}

fn list_of(alloc: Global, name: &str) -> Result<WriteIdList, NoMemory> {
    match name {
        "open" => open(alloc),
        "aborted" => aborted(alloc),
        _ => Ok(WriteIdList::new(WriteId(4), Vec::new(alloc))),
    }
}

/// The names of texts that are some.
fn names_of(alloc: Global, texts: &str) -> Result<Vec<DirName>, NoMemory>
    ensures { IfOk result (λ names. All IsName names.items) }
{
    let mut names = Vec::new(alloc);
    for text in texts.split(' ') {
        if let Some(name) = parse_name(alloc, &Text::of(alloc, text)?)? {
            names.push(name)?;
        }
    }
    Ok(names)
}

/// What is chosen, by places.
fn chosen(alloc: Global, out: &mut String, words: &[&str]) -> Result<(), NoMemory> {
    let names = names_of(alloc, piece(words, 1))?;
    let choice = choose(alloc, &names, &list_of(alloc, piece(words, 0))?)?;
    let (deltas, deletes) = (choice.deltas.as_slice(), choice.deletes.as_slice());
    Ok(write!(out, "{:?} {deltas:?} {deletes:?}", choice.base)?)
}

/// The directory of the first statement of the first write, or of the last of the last.
fn delta(alloc: Global, out: &mut String, which: &str) -> Result<(), NoMemory> {
    let name = match which {
        "first" => own_delta(alloc, 1, 0),
        _ => own_delta(alloc, 9_999_999, 9999),
    };
    Ok(write!(out, "{}", name?)?)
}

pub fn answer(alloc: Global, out: &mut String, call: &str, words: &[&str]) -> Result<(), NoMemory> {
    match call {
        "name" => name(alloc, out, piece(words, 0)),
        "choose" => chosen(alloc, out, words),
        "delta" => delta(alloc, out, piece(words, 0)),
        _ => Ok(()),
    }
}
