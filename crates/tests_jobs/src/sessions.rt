//! The lines of a case of statements.
ghost use Rattle.std.specs.Prelude.{◌≡◌, IsOk, IfOk, OnOk};
ghost use Rattle.tests_jobs.specs.Keeping.{IsAtHand};

use crate::acting::{do_order, stage};
use crate::desk::{Desk, leave_desk, leave_held};
use crate::house::{close, open_told};
use crate::others::Scripted;
use crate::stores::Listed;
use crate::words::{add, cut, number, say};
use hv_actor::Crowd;
use hv_session::hv_beginning::hv_steps::hv_table_reader::hv_acts::ToldHouse;
use hv_shelf::Shelf;
use std::alloc::Global;
use std::io;
use std::io::ErrorKind;
use std::mem::replace;

/// Says what others did, where the run goes on.
fn say_others(said: &mut String, done: io::Result<()>, others: &Scripted) -> io::Result<()>
    ensures went { OnOk result (IsOk done) }
{
    done?;
    if others.lacks {
        return Err(ErrorKind::OutOfMemory.into());
    }
    add(said, others.said.as_str())
}

/// The house, where that went well; else it is closed.
fn kept<D: Shelf + Listed + Drop>(
    house: ToldHouse<D>,
    done: io::Result<()>,
) -> io::Result<ToldHouse<D>>
    ensures same { IfOk result (λ kept. kept ≡ house) }
    ensures went { OnOk result (IsOk done) }
{
    match done {
        Ok(()) => Ok(house),
        Err(why) => {
            close(house);
            Err(why)
        }
    }
}

/// Does what one is to do among others, who have room for so many of one's own places to be kept:
/// `32 ada SELECT * FROM t`.
fn among<D: Shelf + Listed + Drop>(
    alloc: Global,
    house: ToldHouse<D>,
    desk: &mut Desk,
    rest: &str,
    said: &mut String,
) -> io::Result<ToldHouse<D>>
    requires ready { IsAtHand D.told D.hard desk.old house }
    ensures ready { IfOk result (IsAtHand D.told D.hard desk.new) }
{
    let (places, order) = cut(rest, ' ');
    let others = Scripted {
        moves: replace(&mut desk.moves, String::new(alloc)),
        comings: 0,
        said: String::new(alloc),
        lacks: false,
    };
    let Ok(mut crowd) = Crowd::new(alloc, house, others, number(places) as usize) else {
        return Err(ErrorKind::OutOfMemory.into());
    };
    let done = do_order(alloc, &mut crowd, desk, order, said);
    let (house, others) = crowd.into_parts();
    let told = say_others(said, done, &others);
    kept(house, told)
}

/// Does a line for which nobody else comes. `others` keeps what they will do at one of their comings:
/// `4 bo SELECT * FROM t` or `4 abort 7`.
fn line_alone<D: Shelf + Listed + Drop>(
    alloc: Global,
    house: &mut ToldHouse<D>,
    desk: &mut Desk,
    word: &str,
    rest: &str,
    said: &mut String,
) -> io::Result<()>
    requires ready { IsAtHand D.told D.hard desk.old house.old }
    ensures ready { OnOk result (IsAtHand D.told D.hard desk.new house.new) }
{
    match word {
        "alone" => do_order(alloc, house, desk, rest, said),
        "others" => say(&mut desk.moves, rest),
        "hold" => {
            desk.hold = stage(rest);
            Ok(())
        }
        "files" => house.house.shelf().tell_files(alloc, said),
        "fails" => Ok(()),
        _ => say(said, "no such line"),
    }
}

/// Does a line. `again` opens the store once more; what was held is lost.
fn step<D: Shelf + Listed + Drop>(
    alloc: Global,
    house: ToldHouse<D>,
    desk: &mut Desk,
    line: &str,
    said: &mut String,
) -> io::Result<ToldHouse<D>>
    requires ready { IsAtHand D.told D.hard desk.old house }
    ensures ready { IfOk result (IsAtHand D.told D.hard desk.new) }
{
    let mut house = house;
    let (word, rest) = cut(line, ' ');
    match word {
        "again" => {
            leave_held(desk);
            open_told(alloc, house.into_house().close())
        }
        "among" => among(alloc, house, desk, rest, said),
        _ => {
            let done = line_alone(alloc, &mut house, desk, word, rest, said);
            kept(house, done)
        }
    }
}

/// Says the line, and does it.
fn told_step<D: Shelf + Listed + Drop>(
    alloc: Global,
    house: ToldHouse<D>,
    desk: &mut Desk,
    line: &str,
    said: &mut String,
) -> io::Result<ToldHouse<D>>
    requires ready { IsAtHand D.told D.hard desk.old house }
    ensures ready { IfOk result (IsAtHand D.told D.hard desk.new) }
{
    match say(said, line) {
        Ok(()) => step(alloc, house, desk, line, said),
        Err(why) => kept(house, Err(why)),
    }
}

/// Does the lines of a case over a store, up to one that fails.
pub(crate) fn play<D: Shelf + Listed + Drop>(
    alloc: Global,
    store: D,
    lines: &str,
    said: &mut String,
) -> io::Result<()> {
    let mut house = open_told(alloc, store)?;
    let mut desk = Desk {
        moves: String::new(alloc),
        hold: None,
        held: None,
    };
    for line in lines.lines() {
        match told_step(alloc, house, &mut desk, line, said) {
            Ok(next) => house = next,
            Err(why) => {
                leave_desk(desk);
                return Err(why);
            }
        }
    }
    close(house);
    leave_desk(desk);
    Ok(())
}
