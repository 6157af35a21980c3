//! What stands in the folder where the program runs.
use crate::words::piece;
use hv_files::{FileFault, FileShelf, RealFiles, System};
use hv_shelf::Shelf;
use std::alloc::Global;
use std::fs::{self, File};
use std::rt::Files;

fn is_empty<R: Files + AllocGlobal + Copy>(rt: &R, path: &str) -> bool {
    match fs::read_dir(rt, path) {
        Ok(mut names) => names.next().is_none(),
        Err(_) => false,
    }
}

fn is_file<R: Files>(rt: &R, path: &str) -> bool {
    match rt.metadata(path) {
        Ok(found) => found.is_file(),
        Err(_) => false,
    }
}

/// The store in a folder.
pub fn open<R: Files<File = File> + AllocGlobal + Copy>(
    rt: &R,
    path: &str,
) -> Result<FileShelf<RealFiles<R>>, FileFault> {
    FileShelf::at(rt.alloc(), *rt, path)
}

/// Whether nothing is written behind the last place of a journal that there is, which counts as a hard fault.
fn has_last<S: System + Drop>(shelf: &mut FileShelf<S>) -> bool {
    let fails = shelf.journal_write(u64::MAX, b"z").is_err();
    fails && shelf.fault_count() == 1 && shelf.hard_count() == 1
}

fn is_limited<R: Files<File = File> + AllocGlobal + Copy>(rt: &R, path: &str) -> bool {
    match open(rt, path) {
        Ok(mut shelf) => has_last(&mut shelf),
        Err(_) => false,
    }
}

/// Whether a call of the system at a path, with another path, or a text, behind it, succeeds; None where it is no such call.
fn is_done<R: Files>(rt: &R, alloc: Global, call: &str) -> Option<bool> {
    let (path, other) = (piece(call, 1), piece(call, 2));
    let done = match piece(call, 0) {
        "create" => fs::create_dir_all(rt, path),
        "link" => rt.symlink(other, path),
        "move" => rt.rename(path, other),
        "text" => fs::write(rt, path, other),
        "unlink" => rt.remove_file(path),
        "delete" => rt.remove_dir_all(alloc, path),
        _ => return None,
    };
    Some(done.is_ok())
}

/// Whether what is asked of the folder is so, or a call of the system succeeds; None where it is neither.
pub fn is_so<R: Files<File = File> + AllocGlobal + Copy>(rt: &R, call: &str) -> Option<bool> {
    let path = piece(call, 1);
    match piece(call, 0) {
        "exists" => Some(fs::exists(rt, path).unwrap_or(false)),
        "is_file" => Some(is_file(rt, path)),
        "is_empty" => Some(is_empty(rt, path)),
        "is_refused" => Some(open(rt, path).is_err()),
        "is_limited" => Some(is_limited(rt, path)),
        _ => is_done(rt, rt.alloc(), call),
    }
}
