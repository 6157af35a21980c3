//! A statement that is opened and started by acts, and then done to its end act by act, over whoever acts on the house.
ghost use Rattle.std.specs.Prelude.{◌≡◌, ◌≤◌, IfOk, IfSome, length};
ghost use Rattle.hv_ast.specs.declared.statement.Stmt.{Stmt as Tree};
ghost use Rattle.hv_built.specs.Running.{Runs};
ghost use Rattle.hv_stands.specs.Running.{Asking};
ghost use Rattle.hv_session.specs.hv_beginning.specs.hv_steps.specs.hv_table_reader.specs.hv_acts.specs.Told.{trail_in};
ghost use Rattle.hv_session.specs.hv_beginning.specs.hv_steps.specs.Going.{HasWaited};
ghost use Rattle.hv_session.specs.hv_beginning.specs.Beginnings.{WaitsIn};
ghost use Rattle.tests_seats.specs.Beside.{IsAsked, IsOnItsWay, way_of};

use crate::house::leave;
use hv_actor::Actor;
use hv_ast::{Stmt, discard};
use hv_base::{Text, TxnId};
use hv_reading::read_statement;
use hv_session::hv_beginning::hv_steps::hv_table_reader::hv_acts::{
    ActFault, OpenTransaction, StartOrAbort, Started, ToldHouse,
};
use hv_session::hv_beginning::hv_steps::{Reply, Way};
use hv_session::{Paused, Point, finish};
use hv_shelf::Shelf;
use std::alloc::Global;

/// What the first thread does.
static ONE: [&str; 5] = [
    "CREATE TABLE one (a INT)",
    "INSERT INTO one VALUES (1), (2)",
    "INSERT INTO one VALUES (3)",
    "DELETE FROM one WHERE a = 2",
    "SELECT * FROM one",
];

/// What the second does beside it.
static TWO: [&str; 5] = [
    "CREATE TABLE two (s STRING)",
    "INSERT INTO two VALUES ('x')",
    "UPDATE two SET s = 'y'",
    "INSERT INTO two VALUES ('z')",
    "SELECT * FROM two",
];

/// What is done alone behind both.
static BEHIND: [&str; 3] = ["SELECT * FROM one", "SELECT * FROM two", "DROP TABLE two"];

/// The longest text of a statement.
const MOST_TEXT: usize = 32_768;

/// A statement of a session, read twice: once for the book.
pub(crate) struct Asked {
    session: Text,
    text: Text,
    kept: Stmt,
    tree: Stmt,
}

/// Reads a text once more, which was read to `kept`.
fn read_again(alloc: Global, session: Text, text: Text, kept: Stmt) -> Option<Asked>
    requires kept { Runs text kept }
    requires short { length text ≤ 32768 }
    requires named { length session ≤ 32 }
    ensures asked { IfSome result IsAsked }
{
    match read_statement(alloc, &text) {
        Ok(tree) => Some(Asked {
            session,
            text,
            kept,
            tree,
        }),
        Err(_) => {
            discard(kept);
            None
        }
    }
}

/// The statement of a text, where it runs and memory doesn't lack.
fn read_asked(alloc: Global, words: &str) -> Option<Asked>
    ensures asked { IfSome result IsAsked }
{
    let Ok(session) = Text::of(alloc, "ann") else {
        return None;
    };
    let Ok(text) = Text::of(alloc, words) else {
        return None;
    };
    if session.len() > 32 || text.len() > MOST_TEXT {
        return None;
    }
    match read_statement(alloc, &text) {
        Ok(kept) => read_again(alloc, session, text, kept),
        Err(_) => None,
    }
}

/// Opens a statement, which waits then for its Start.
fn open_one<D: Shelf + Drop, W: Actor<D, ToldHouse<D>>>(
    alloc: Global,
    actor: &mut W,
    session: Text,
    text: Text,
    tree: Stmt,
) -> Result<TxnId, ActFault>
    requires keeps { W.keeps actor.old }
    requires runs { Runs text tree }
    requires short { length text ≤ 32768 }
    requires named { length session ≤ 32 }
    ensures keeps { W.keeps actor.new }
    ensures waits { IfOk result (λ txn. WaitsIn (W.house actor.new)
        (record { session = session; number = 0; text = text }) tree txn.0) }
{
    actor.hold(
        alloc,
        OpenTransaction {
            session,
            number: 0,
            text,
            tree,
        },
    )
}

/// Starts a statement that waits, or aborts it for what stands in its way.
fn start_one<D: Shelf + Drop, W: Actor<D, ToldHouse<D>>>(
    alloc: Global,
    actor: &mut W,
    txn: TxnId,
) -> Result<Started, ActFault>
    requires keeps { W.keeps actor.old }
    ensures keeps { W.keeps actor.new }
    ensures starts { (asking : Asking) (said : Tree) → HasWaited (trail_in (W.house actor.old)) asking txn.0 said
        → IfOk result (λ found. IfSome (way_of txn found) (IsOnItsWay (W.house actor.new) asking said)) }
{
    actor.hold(alloc, StartOrAbort { txn })
}

/// The way of a statement that was started.
fn way_of(txn: TxnId, found: Started) -> Option<Way>
    ensures way { result ≡ way_of txn found }
{
    match found {
        Started::At(place) => Some(Way { txn, place }),
        Started::Aborted(aborted) => {
            leave(aborted);
            None
        }
    }
}

/// Starts a statement that waits.
fn started<D: Shelf + Drop, W: Actor<D, ToldHouse<D>>>(
    alloc: Global,
    actor: &mut W,
    txn: TxnId,
) -> Option<Way>
    requires keeps { W.keeps actor.old }
    ensures keeps { W.keeps actor.new }
    ensures way { (asking : Asking) (said : Tree) → HasWaited (trail_in (W.house actor.old)) asking txn.0 said
        → IfSome result (IsOnItsWay (W.house actor.new) asking said) }
{
    match start_one(alloc, actor, txn) {
        Ok(found) => way_of(txn, found),
        Err(_) => None,
    }
}

/// Opens a statement in one act, and starts it in another one.
fn begun<D: Shelf + Drop, W: Actor<D, ToldHouse<D>>>(
    alloc: Global,
    actor: &mut W,
    session: Text,
    text: Text,
    tree: Stmt,
) -> Option<Way>
    requires keeps { W.keeps actor.old }
    requires runs { Runs text tree }
    requires short { length text ≤ 32768 }
    requires named { length session ≤ 32 }
    ensures keeps { W.keeps actor.new }
    ensures way { IfSome result (IsOnItsWay (W.house actor.new)
        (record { session = session; number = 0; text = text }) tree) }
{
    match open_one(alloc, actor, session, text, tree) {
        Ok(txn) => started(alloc, actor, txn),
        Err(_) => None,
    }
}

/// Does a started statement to its end.
fn end_one<D: Shelf + Drop, W: Actor<D, ToldHouse<D>>>(
    alloc: Global,
    actor: &mut W,
    way: Way,
    tree: Stmt,
) -> Option<Reply>
    requires keeps { W.keeps actor.old }
    requires way { (asking : Asking) × IsOnItsWay (W.house actor.old) asking tree way }
    ensures keeps { W.keeps actor.new }
{
    let paused = Paused {
        way,
        tree,
        point: Point::Started,
    };
    match finish(alloc, actor, paused) {
        Ok(reply) => Some(reply),
        Err(_) => None,
    }
}

/// Does a statement. None where it wasn't started, or the run stops.
fn do_one<D: Shelf + Drop, W: Actor<D, ToldHouse<D>>>(
    alloc: Global,
    actor: &mut W,
    asked: Asked,
) -> Option<Reply>
    requires keeps { W.keeps actor.old }
    requires asked { IsAsked asked }
    ensures keeps { W.keeps actor.new }
{
    let Asked {
        session,
        text,
        kept,
        tree,
    } = asked;
    match begun(alloc, actor, session, text, kept) {
        Some(way) => end_one(alloc, actor, way, tree),
        None => {
            discard(tree);
            None
        }
    }
}

/// What is replied, as printed.
fn say(said: &mut String, reply: &Reply) -> Option<()> {
    let text = str::from_utf8(reply.text.as_slice()).unwrap_or("no text\n");
    said.push_str(text).ok()
}

/// Does the statement of this text, and says what is replied.
fn say_one<D: Shelf + Drop, W: Actor<D, ToldHouse<D>>>(
    alloc: Global,
    actor: &mut W,
    words: &str,
    said: &mut String,
) -> Option<()>
    requires keeps { W.keeps actor.old }
    ensures keeps { W.keeps actor.new }
{
    let Some(taken) = read_asked(alloc, words) else {
        return None;
    };
    match do_one(alloc, actor, taken) {
        Some(reply) => say(said, &reply),
        None => None,
    }
}

/// Does these statements, one after the other, up to one that stops.
fn say_each<D: Shelf + Drop, W: Actor<D, ToldHouse<D>>>(
    alloc: Global,
    actor: &mut W,
    texts: &[&str],
    said: &mut String,
) -> Option<()>
    requires keeps { W.keeps actor.old }
    ensures keeps { W.keeps actor.new }
{
    for words in texts {
        if say_one(alloc, actor, *words, said).is_none() {
            return None;
        }
    }
    Some(())
}

/// Does all statements of one who acts, by its number.
pub(crate) fn say_all<D: Shelf + Drop, W: Actor<D, ToldHouse<D>>>(
    alloc: Global,
    actor: &mut W,
    who: u64,
    said: &mut String,
) -> Option<()>
    requires keeps { W.keeps actor.old }
    ensures keeps { W.keeps actor.new }
{
    match who {
        0 => say_each(alloc, actor, &ONE, said),
        1 => say_each(alloc, actor, &TWO, said),
        _ => say_each(alloc, actor, &BEHIND, said),
    }
}
