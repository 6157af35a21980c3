use crate::words::{piece, spelled};
use hv_base::NoMemory;
use hv_rowfile::{FileFault, decode, encode};
use std::alloc::Global;

/// The rows (1,'x') and (2,'y') of write id 1: the records begin at 17 and 54, and the file ends at 91.
const TWO_ROWS: &[u8] = b"HVR1\0\0\0\0\0\0\0\0\0\0\0\0\x02\
\0\0\0\0\0\0\0\x01\0\0\0\0\0\0\0\0\0\0\0\0\0\0\0\x0d\0\x02\x02\0\0\0\x01\x04\0\0\0\x01x\
\0\0\0\0\0\0\0\x01\0\0\0\0\0\0\0\0\0\0\0\x01\0\0\0\x0d\0\x02\x02\0\0\0\x02\x04\0\0\0\x01y";

/// Row 9 of statement 3 of write id 258 in bucket 7, with a value of each kind.
const EACH_KIND: &[u8] = b"HVR1\0\0\0\0\x07\0\0\0\0\0\0\0\x01\
\0\0\0\0\0\0\x01\x02\0\0\0\x03\0\0\0\0\0\0\0\x09\0\0\0\x2a\0\x07\
\0\x01\x01\x02\xff\xff\xff\xfe\x03\x80\0\0\0\0\0\0\0\x04\0\0\0\x02\xc3\xa9\
\x05\xff\xf5\x06\xc6\x06\0\0\0\x02\0\x02\0\0\0\x05";

/// Write id 2 deleted row 5 of write id 1.
const ONE_DELETE: &[u8] = b"HVR1\x01\0\0\0\0\0\0\0\0\0\0\0\x01\
\0\0\0\0\0\0\0\x01\0\0\0\0\0\0\0\0\0\0\0\x05\0\0\0\0\0\0\0\x02";

/// What `decode` is to say where bytes are a file.
const FILE: u64 = u64::MAX;

/// Of (from, to, least, most, said): where one of the bytes from..to is changed to a value of least..=most,
/// the file is damaged at `said`, or still a file. Of a list the first that fits holds; each was worked out
/// by hand from the layout.
type Change = (usize, usize, u8, u8, u64);

/// Only the last record may come later: the second one stands right behind the first. An INT and a DATE
/// have one length.
const TWO_ROWS_CHANGED: &[Change] = &[
    (0, 4, 0, 255, 0),
    // Read as deletes, of 28 bytes each: the second one's deleter is 0.
    (4, 5, 1, 1, 45),
    (4, 5, 0, 255, 4),
    (5, 9, 0, 255, FILE),
    (16, 17, 0, 0, 17),
    (16, 17, 1, 1, 54),
    (9, 17, 0, 255, 91),
    (24, 25, 0, 0, 17),
    (17, 37, 0, 255, 54),
    (43, 44, 5, 5, FILE),
    (44, 48, 0, 255, FILE),
    (53, 54, 0, 127, FILE),
    (37, 54, 0, 255, 17),
    (61, 62, 0, 0, 54),
    (73, 74, 0, 0, 54),
    (54, 74, 0, 255, FILE),
    (80, 81, 5, 5, FILE),
    (81, 85, 0, 255, FILE),
    (90, 91, 0, 127, FILE),
    (74, 91, 0, 255, 54),
];

const EACH_KIND_CHANGED: &[Change] = &[
    (0, 4, 0, 255, 0),
    // Read as a delete, of 28 bytes, and bytes behind it.
    (4, 5, 1, 1, 45),
    (4, 5, 0, 255, 4),
    (5, 9, 0, 255, FILE),
    (16, 17, 0, 0, 17),
    (9, 17, 0, 255, 83),
    (17, 37, 0, 255, FILE),
    // BOOLEAN false; a DATE in the place of the INT; INT; BIGINT.
    (45, 46, 0, 0, FILE),
    (46, 47, 5, 5, FILE),
    (47, 51, 0, 255, FILE),
    (52, 60, 0, 255, FILE),
    // Other characters of two bytes.
    (65, 66, 0xc2, 0xdf, FILE),
    (66, 67, 0x80, 0xbf, FILE),
    // An INT in the place of the DATE; later days.
    (67, 68, 2, 2, FILE),
    (69, 70, 0xf6, 0xff, FILE),
    (70, 71, 0x07, 0xff, FILE),
    (71, 72, 0xc7, 0xff, FILE),
    // A DATE in the place of the INT in the array.
    (78, 79, 5, 5, FILE),
    (79, 83, 0, 255, FILE),
    (37, 83, 0, 255, 17),
];

const ONE_DELETE_CHANGED: &[Change] = &[
    (0, 4, 0, 255, 0),
    // Read as inserts, the deleter's bytes are a length of 0, and no row is that short.
    (4, 5, 0, 0, 17),
    (4, 5, 0, 255, 4),
    (5, 9, 0, 255, FILE),
    (16, 17, 0, 0, 17),
    (9, 17, 0, 255, 45),
    (24, 25, 0, 0, 17),
    (44, 45, 0, 0, 17),
    (17, 45, 0, 255, FILE),
];

fn said(changes: &[Change], place: usize, byte: u8) -> u64 {
    for (from, to, least, most, said) in changes {
        if *from <= place && place < *to && *least <= byte && byte <= *most {
            return *said;
        }
    }
    FILE
}

/// What `decode` says: where the bytes are damaged, or that they are a file, which is written to them again. None where
/// it is written to others.
fn says(alloc: Global, bytes: &[u8]) -> Result<Option<u64>, NoMemory> {
    match decode(alloc, bytes) {
        Ok((deletes, bucket, recs)) => {
            let written = encode(alloc, deletes, bucket, recs.as_slice())?;
            Ok(if written.as_slice() == bytes {
                Some(FILE)
            } else {
                None
            })
        }
        Err(FileFault::Damaged { at }) => Ok(Some(at)),
        Err(FileFault::NoMemory) => Err(NoMemory),
    }
}

/// For how many other values of the byte at a place `decode` says what it should.
fn agreeing(
    alloc: Global,
    bytes: &[u8],
    changes: &[Change],
    place: usize,
) -> Result<u64, NoMemory> {
    let mut changed = bytes.to_vec(alloc)?;
    let mut count = 0u64;
    for byte in 0..=255_u8 {
        if let Some(slot) = changed.get_mut(place) {
            *slot = byte;
        }
        let right = says(alloc, &changed)? == Some(said(changes, place, byte));
        if right && bytes.get(place) != Some(&byte) {
            count = count.wrapping_add(1);
        }
    }
    Ok(count)
}

/// Each byte of the files in turn, changed to each other value.
fn each_change(alloc: Global, out: &mut String) -> Result<(), NoMemory> {
    let files = [
        (TWO_ROWS, TWO_ROWS_CHANGED),
        (EACH_KIND, EACH_KIND_CHANGED),
        (ONE_DELETE, ONE_DELETE_CHANGED),
    ];
    for (bytes, changes) in files {
        let mut count = 0u64;
        for place in 0..bytes.len() {
            count = count.wrapping_add(agreeing(alloc, bytes, changes, place)?);
        }
        write!(out, "{count} ")?;
    }
    Ok(())
}

/// A front, so many times the letter a, and whether that is a file.
fn long(alloc: Global, out: &mut String, words: &[&str]) -> Result<(), NoMemory> {
    let mut bytes = spelled(alloc, piece(words, 0))?;
    for _ in 0..piece(words, 1).parse::<u32>().unwrap_or(0) {
        bytes.push(b'a')?;
    }
    Ok(write!(out, "{:?}", says(alloc, &bytes)? == Some(FILE))?)
}

/// The bytes' records, or where they are damaged; and whether the file is written to the same bytes.
fn file(alloc: Global, out: &mut String, words: &[&str]) -> Result<(), NoMemory> {
    let bytes = spelled(alloc, piece(words, 0))?;
    let again = says(alloc, &bytes)? == Some(FILE);
    Ok(write!(out, "{again} {:?}", decode(alloc, &bytes))?)
}

pub fn answer(alloc: Global, out: &mut String, call: &str, words: &[&str]) -> Result<(), NoMemory> {
    match call {
        "file" => file(alloc, out, words),
        "long" => long(alloc, out, words),
        "each_change" => each_change(alloc, out),
        _ => Ok(()),
    }
}
