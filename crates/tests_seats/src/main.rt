//! Two threads do statements beside each other over one house, which stands over a store in memory. Each acts from a chair
//! of its own and waits for the turn at each of its acts. Who acts alone behind them reads what they left.
#![tactic(auto)]

ghost use Rattle.tests_seats.specs.Beside.{IsAsKept, told_memory, hard_memory};

mod apart;
mod house;
mod statements;
mod threads;

use crate::house::{close, open_told};
use crate::statements::say_all;
use crate::threads::beside;
use hv_actor::Housed;
use hv_session::hv_beginning::hv_steps::hv_table_reader::hv_acts::ToldHouse;
use hv_shelf::MemoryShelf;
use std::alloc::Global;
use std::io;
use std::io::ErrorKind;
use std::sync::Wait;
use std::thread::Threads;

/// Who acts alone, by the number of its statements.
const ALONE: u64 = 2;

/// What was said, where all was done.
fn print_said<R: Print>(rt: &R, who: &str, said: &Option<String>) -> io::Result<()> {
    match said {
        Some(said) => print!(rt; "{who}\n{said}"),
        None => print!(rt; "{who}\nstopped\n"),
    }
}

/// Does statements alone, and says what came of them.
fn said_alone(alloc: Global, house: &mut ToldHouse<MemoryShelf>) -> Option<String>
    requires keeps { IsAsKept told_memory hard_memory house.old }
{
    let mut said = String::new(alloc);
    match say_all(alloc, house, ALONE, &mut said) {
        Some(()) => Some(said),
        None => None,
    }
}

/// Lets two threads do their statements over a house, and then reads both tables.
fn play<R: Threads + Wait + Sync + Print>(
    rt: &R,
    alloc: Global,
    house: ToldHouse<MemoryShelf>,
) -> io::Result<()>
    requires keeps { IsAsKept told_memory hard_memory house }
{
    match beside(rt, alloc, house) {
        Ok((mut house, one, two)) => {
            let items = house.items();
            let alone = said_alone(alloc, &mut house);
            close(house);
            print_said(rt, "one:", &one)?;
            print_said(rt, "two:", &two)?;
            print!(rt; "{items} items\n")?;
            print_said(rt, "alone:", &alone)
        }
        Err(house) => {
            close(house);
            Err(ErrorKind::OutOfMemory.into())
        }
    }
}

fn main(rt: HostRuntime) -> io::Result<()> {
    let alloc = rt.alloc();
    let Ok(store) = MemoryShelf::new(alloc, Vec::new(alloc)) else {
        return Err(ErrorKind::OutOfMemory.into());
    };
    let house = open_told(alloc, store)?;
    play(&rt, alloc, house)
}
