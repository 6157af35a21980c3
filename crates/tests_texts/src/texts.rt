use crate::words::piece;
use hv_base::NoMemory;
use hv_text::{find, length, like, lower, substring, substring_from, trim, upper};
use std::alloc::{AllocError, Global};

fn letters(alloc: Global, out: &mut String, text: &str) -> Result<(), NoMemory> {
    let small = lower(alloc, text)?;
    let large = upper(alloc, text)?;
    Ok(write!(out, "{small} {large}")?)
}

fn part(out: &mut String, call: &str, words: &[&str]) -> Result<(), AllocError> {
    let text = piece(words, 0);
    let place = piece(words, 1).parse::<i64>().unwrap_or(0);
    let count = piece(words, 2).parse::<i64>().unwrap_or(0);
    let part = match call {
        "substring" => substring(text, place, count),
        "substring_from" => substring_from(text, place),
        _ => trim(text),
    };
    write!(out, "[{part}]")
}

pub fn answer(alloc: Global, out: &mut String, call: &str, words: &[&str]) -> Result<(), NoMemory> {
    let (text, other) = (piece(words, 0), piece(words, 1));
    if call == "letters" {
        return letters(alloc, out, text);
    }
    let done = match call {
        "like" => write!(out, "{}", like(text, other)),
        "find" => write!(out, "{:?}", find(text, other)),
        "length" => write!(out, "{}", length(text)),
        _ => part(out, call, words),
    };
    Ok(done?)
}
