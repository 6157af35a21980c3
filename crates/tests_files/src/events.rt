//! A store over files in memory, of which something is exchanged or taken away between two calls, whichever they are.
use crate::memory_files::MemoryFiles;
use crate::steps::is_done;
use crate::words::piece;
use hv_base::NoMemory;
use hv_files::{Cause, FileFault, FileShelf};
use std::alloc::Global;

/// How many calls of the system a row makes at most.
const MOST: u64 = 1_000;

/// Another store beside the one that is asked, and its tables, as they are printed.
const OTHER: &str =
    "/ /journal=theirs /lock= /tables/ /tables/0000001/ /tables/0000001/a/ /tables/0000001/a/bucket_00000=theirs ";

const OTHER_TABLES: &str = "/ /0000001/ /0000001/a/ /0000001/a/bucket_00000=theirs ";

/// Opens the folder `wh` of files in memory, of which some get other names before the call of that number: the other store,
/// and those that a text names behind these words.
fn opened<'a>(
    alloc: Global,
    moves: &'a str,
    due: u64,
    begin: &str,
    text: &str,
) -> Result<FileShelf<MemoryFiles<'a>>, FileFault> {
    let mut files = MemoryFiles::new(alloc, moves, due);
    files.fill("other", OTHER)?;
    files.fill(begin, text)?;
    FileShelf::over(alloc, files, "wh")
}

fn name_of(fault: FileFault) -> &'static str {
    match fault {
        FileFault::Device(Cause::NoJournal) => "NoJournal",
        FileFault::Device(Cause::NotAFolder) => "NotAFolder",
        FileFault::Device(Cause::NotAFile) => "NotAFile",
        _ => "fails",
    }
}

/// What comes of opening the folder `wh` where a text names what stands, behind these words.
fn opening(alloc: Global, begin: &str, text: &str) -> &'static str {
    match opened(alloc, "", u64::MAX, begin, text) {
        Ok(_) => "opens",
        Err(fault) => name_of(fault),
    }
}

/// Whether each call after the event has failed, and each before it was done.
fn calls_are_so(
    alloc: Global,
    shelf: &mut FileShelf<MemoryFiles<'_>>,
    begun: bool,
    calls: &str,
) -> Result<bool, NoMemory> {
    let (mut so, mut happened) = (true, begun);
    for call in calls.split('|') {
        let done = is_done(alloc, shelf, call)?;
        let now = shelf.system().happened;
        so &= done != happened || now != happened;
        happened = now;
    }
    Ok(so)
}

/// Whether what isn't to be touched is as it was.
fn is_kept(alloc: Global, files: &MemoryFiles<'_>, event: &str) -> Result<bool, FileFault> {
    let place = piece(event, if files.happened { 2 } else { 1 });
    let mut found = String::new(alloc);
    files.print(&mut found, place)?;
    let is_tables = place.ends_with("/tables");
    Ok(found.as_str() == if is_tables { OTHER_TABLES } else { OTHER })
}

/// Whether what a run has left is opened.
fn is_left(alloc: Global, files: &MemoryFiles<'_>) -> Result<bool, FileFault> {
    let mut left = String::new(alloc);
    files.print(&mut left, "wh")?;
    Ok(opening(alloc, "wh", left.as_str()) == "opens")
}

/// Whether all is as it is to be behind the calls.
fn is_well(alloc: Global, files: &MemoryFiles<'_>, event: &str) -> Result<bool, FileFault> {
    let kept = is_kept(alloc, files, event)?;
    if kept && files.is_killed() {
        is_left(alloc, files)
    } else {
        Ok(kept)
    }
}

/// Whether it goes as it is to, and whether the event came.
fn goes(
    alloc: Global,
    shelf: &mut FileShelf<MemoryFiles<'_>>,
    event: &str,
    calls: &str,
) -> Result<(bool, bool), FileFault> {
    let files = shelf.system();
    if files.reached && piece(event, 2) != "wh" {
        // What comes before a part was opened is as if it had come before the store was.
        return Ok((true, true));
    }
    let begun = files.happened;
    let so = calls_are_so(alloc, shelf, begun, calls)?;
    let files = shelf.system();
    let well = is_well(alloc, files, event)?;
    Ok((so && well, files.reached))
}

/// How it goes where the event comes before the call of that number.
fn tried(alloc: Global, event: &str, due: u64, calls: &str) -> Result<(bool, bool), FileFault> {
    match opened(alloc, piece(event, 0), due, "wh", piece(event, 3)) {
        Ok(mut shelf) => goes(alloc, &mut shelf, event, calls),
        Err(FileFault::Device(_)) => Ok((true, true)),
        Err(fault) => Err(fault),
    }
}

fn say_end(out: &mut String, so: bool, due: u64) -> Result<(), NoMemory> {
    let said = if so {
        out.push_str("so at each ")
    } else {
        write!(out, "not so at {due} ")
    };
    Ok(said?)
}

/// Lets the event come before each call of the system in turn, up to the first that isn't made.
pub fn events(alloc: Global, out: &mut String, event: &str, calls: &str) -> Result<(), NoMemory> {
    for due in 0..MOST {
        let Ok((so, reached)) = tried(alloc, event, due, calls) else {
            return Err(NoMemory);
        };
        if !so || !reached {
            return say_end(out, so && due > 0, due);
        }
    }
    Ok(())
}

/// Opens the folder `wh` where these stand.
pub fn opens(alloc: Global, out: &mut String, text: &str) -> Result<(), NoMemory> {
    Ok(out.push_str(opening(alloc, "", text))?)
}
