//! Threads that take turns at one log. Each row of `ROWS` has how many threads there are, how many turns each of them takes, and
//! for how many items the log has room; the program prints what the log is then.
#![tactic(auto)]

mod log;
mod work;

use log::{Item, Log};
use std::alloc::Global;
use std::io;
use std::sync::Wait;
use std::thread::Threads;
use work::by_threads;

static ROWS: [(u64, u64, u64); 3] = [
    (2, 10_000, 1_000_000),
    (8, 10_000, 1_000_000),
    (8, 1_000, 100),
];

// Whether the items of one thread are of its turns 0, 1, 2 and on.
fn is_in_order(items: &[Item], thread: u64) -> bool {
    items
        .iter()
        .filter(|item| item.thread == thread)
        .enumerate()
        .all(|(place, item)| item.turn == place as u64)
}

fn print_log<R: Print>(rt: &R, log: &Log, added: u64, threads: u64) -> io::Result<()> {
    let items = log.items.as_slice();
    let ordered = (0..threads).all(|thread| is_in_order(items, thread));
    let told = if ordered {
        "each once and in its thread's order"
    } else {
        "not as they were added"
    };
    println!(rt; "{} items of {added} that were added, {told}", items.len())
}

fn print_row<R: Threads + Wait + Sync + Print>(
    rt: &R,
    alloc: Global,
    threads: u64,
    turns: u64,
    room: u64,
) -> io::Result<()> {
    print!(rt; "{threads} threads, {turns} turns each, room for {room}: ")?;
    match by_threads(rt, alloc, threads, turns, room) {
        Ok((log, added)) => print_log(rt, &log, added, threads),
        Err(_) => println!(rt; "no memory"),
    }
}

fn main(rt: HostRuntime) -> io::Result<()> {
    let alloc = rt.alloc();
    for (threads, turns, room) in &ROWS {
        print_row(&rt, alloc, *threads, *turns, *room)?;
    }
    Ok(())
}
