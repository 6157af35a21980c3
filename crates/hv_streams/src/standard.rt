use std::fs::{File, OpenOptions};
use std::os::fd::AsRawFd;
use std::rt::Files;

/// The largest number of a standard stream.
const LAST_STREAM: i32 = 2;

/// Keeps the numbers 0, 1 and 2 from the files that a program opens.
#[derive(Drop)]
pub struct Standard {
    /// Open for as long as the program uses files.
    held: [Option<File>; 3],
}

impl Standard {
    /// Where a standard stream is closed the null device takes its number, open the wrong way about: so a
    /// read of the input, or a write to the output, fails as it does where the stream is closed. Where
    /// there is no null device the numbers stay free.
    pub fn hold<R: Files<File = File>>(rt: &R) -> Standard {
        Standard {
            held: [next(rt), next(rt), next(rt)],
        }
    }
}

/// Takes the lowest number that is free, if it is a standard stream's.
fn next<R: Files<File = File>>(rt: &R) -> Option<File> {
    let file = null(rt, true)?;
    match file.as_raw_fd() {
        0 => Some(file),
        1..=LAST_STREAM => {
            drop(file);
            null(rt, false)
        }
        _ => None,
    }
}

/// The null device, to write it or to read it.
fn null<R: Files<File = File>>(rt: &R, write: bool) -> Option<File> {
    let mut how = OpenOptions::new();
    how.write(write).read(!write);
    how.open(rt, "/dev/null").ok()
}
