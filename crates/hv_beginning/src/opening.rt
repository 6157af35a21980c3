//! How a statement is opened: with its Start at once, or, where something stands in the way, with its abort.
ghost use Rattle.std.specs.Prelude.{◌≡◌, ◌≤◌, ℕ, List, length, Err, IfOk, IfErr};
ghost use Rattle.hv_ast.specs.declared.statement.Stmt.{Stmt as Tree};
ghost use Rattle.hv_built.specs.Running.{Runs};
ghost use Rattle.hv_stands.specs.Running.{Asking};
ghost use Rattle.hv_steps.specs.hv_table_reader.specs.hv_acts.specs.declared.told.ToldHouse.{ToldHouse as House};
ghost use Rattle.hv_steps.specs.hv_table_reader.specs.hv_acts.specs.Told.{trail_in};
ghost use Rattle.hv_steps.specs.Going.{IsOpenHouse, faults_in, GainsSome, WasOpened};
ghost use Rattle.hv_steps.specs.Leaving.{IsLeftFor, EndsAct};
ghost use Rattle.hv_steps.specs.Phases.{Begins, HaltsBeginning};
ghost use Rattle.hv_beginning.specs.Beginnings.{GoesBeginning, lacking, WasHindered, BeginsAtOnce, IsLeftRunning, OpenedFirst, unopened, OpensSo, WaitsIn, reply_of, started_as, StartsSo};
ghost use Rattle.hv_actor.specs.Acting.{among, known};

use hv_actor::Actor;
use hv_ast::{Stmt, discard};
use hv_base::{Duplicate, NoMemory, Text, TxnId};
use hv_reading::read_statement;
use hv_shelf::Shelf;
use hv_steps::hv_table_reader::hv_acts::hv_telling::hv_house::HouseFault;
use hv_steps::hv_table_reader::hv_acts::{
    Aborted, ActFault, Begin, BeginFault, Begun, OpenTransaction, StartOrAbort, Started, ToldHouse,
};
use hv_steps::{Done, Opened, Reply, Way, end_without};
use std::alloc::Global;

/// The session and the text of a statement once more.
fn copy_asked(alloc: Global, session: &Text, text: &Text) -> Result<(Text, Text), NoMemory>
    ensures session { IfOk result (λ copies. copies.0 ≡ session.now) }
    ensures text { IfOk result (λ copies. copies.1 ≡ text.now) }
{
    let name = session.duplicate(alloc)?;
    let words = text.duplicate(alloc)?;
    Ok((name, words))
}

/// What a statement comes to where the house's call failed and nothing was noted.
fn lacking(fault: HouseFault) -> Result<Opened, HouseFault>
    ensures lacks { result ≡ lacking fault }
{
    match fault {
        HouseFault::NoMemory => Ok(Opened::NoMemory),
        HouseFault::Store => Err(HouseFault::Store),
        HouseFault::Failed { count } => Err(HouseFault::Failed { count }),
    }
}

/// Opens a statement and starts it, both at once, where nothing stands in its way.
fn begin_at_once<D: Shelf + Drop, W: Actor<D, ToldHouse<D>>>(
    alloc: Global,
    actor: &mut W,
    session: Text,
    number: u64,
    text: Text,
    tree: Stmt,
) -> Result<Begun, BeginFault>
    requires keeps { W.keeps actor.old }
    requires both { 2 ≤ W.most }
    requires running { IsOpenHouse (W.house actor.old) }
    requires runs { Runs text tree }
    requires short { length text ≤ 32768 }
    requires named { length session ≤ 32 }
    ensures keeps { W.keeps actor.new }
    ensures begins { BeginsAtOnce (among D.told D.faults W.between W.meanwhile)
        (record { session = session; number = number; text = text }) tree
        (known (W.own actor.old) (W.house actor.old)) (known (W.own actor.new) (W.house actor.new)) result }
{
    actor.hold(
        alloc,
        Begin {
            session,
            number,
            text,
            tree,
        },
    )
}

/// Opens a statement, which waits then for its Start.
fn open_waiting<D: Shelf + Drop, W: Actor<D, ToldHouse<D>>>(
    alloc: Global,
    actor: &mut W,
    session: Text,
    number: u64,
    text: Text,
    tree: Stmt,
) -> Result<TxnId, ActFault>
    requires keeps { W.keeps actor.old }
    requires running { IsOpenHouse (W.house actor.old) }
    requires runs { Runs text tree }
    requires short { length text ≤ 32768 }
    requires named { length session ≤ 32 }
    ensures keeps { W.keeps actor.new }
    ensures waits { IfOk result (λ txn. WaitsIn (W.house actor.new)
        (record { session = session; number = number; text = text }) tree txn.0) }
    ensures opens { (first : House D) (own : List ℕ) → WasHindered D.faults W.between tree (known own first)
        (known (W.own actor.old) (W.house actor.old))
        → OpensSo (among D.told D.faults W.between W.meanwhile)
        (record { session = session; number = number; text = text }) tree
        (known own first) (known (W.own actor.new) (W.house actor.new)) result }
{
    actor.hold(
        alloc,
        OpenTransaction {
            session,
            number,
            text,
            tree,
        },
    )
}

/// Starts a statement that waits, or aborts it for what stands in its way.
fn start_waiting<D: Shelf + Drop, W: Actor<D, ToldHouse<D>>>(
    alloc: Global,
    actor: &mut W,
    txn: TxnId,
) -> Result<Started, ActFault>
    requires keeps { W.keeps actor.old }
    requires running { IsOpenHouse (W.house actor.old) }
    requires was { WasOpened (trail_in (W.house actor.old)) txn.0 }
    ensures keeps { W.keeps actor.new }
    ensures was { WasOpened (trail_in (W.house actor.new)) txn.0 }
    ensures left { IfErr result (IsLeftFor D.told W.meanwhile txn.0 (W.house actor.new)) }
    ensures ends { IfErr result EndsAct }
    ensures starts { (first : House D) (own : List ℕ) (asking : Asking) (said : Tree)
        → OpenedFirst D.faults W.between asking txn.0 said (known own first)
        (known (W.own actor.old) (W.house actor.old))
        → StartsSo (among D.told D.faults W.between W.meanwhile) asking txn said (known own first)
        (known (W.own actor.new) (W.house actor.new)) result }
{
    actor.hold(alloc, StartOrAbort { txn })
}

/// What is replied for a statement that was aborted where it was to start.
fn reply_of(aborted: Aborted) -> Reply
    ensures reply { result ≡ reply_of aborted }
{
    let Aborted {
        at,
        cause: _cause,
        text,
    } = aborted;
    Reply {
        text,
        refused: true,
        ended: Some(at),
    }
}

/// Ends an opened statement that was neither started nor aborted where it was to start.
fn end_unstarted<D: Shelf + Drop, W: Actor<D, ToldHouse<D>>>(
    alloc: Global,
    actor: &mut W,
    txn: TxnId,
    why: ActFault,
) -> Result<Opened, HouseFault>
    requires keeps { W.keeps actor.old }
    requires left { IsLeftFor D.told W.meanwhile txn.0 (W.house actor.old) why }
    requires ends { EndsAct why }
    requires was { WasOpened (trail_in (W.house actor.old)) txn.0 }
    ensures keeps { W.keeps actor.new }
    ensures goes { (first : House D) (own : List ℕ) (asking : Asking) (said : Tree)
        → OpenedFirst D.faults W.between asking txn.0 said (known own first)
        (known (W.own actor.old) (W.house actor.old))
        → GoesBeginning (among D.told D.faults W.between W.meanwhile) asking said (known own first)
        (known (W.own actor.new) (W.house actor.new)) result }
{
    match end_without(alloc, actor, txn, why) {
        Ok(done) => Ok(Opened::Ended(done)),
        Err(fault) => Err(fault),
    }
}

/// Starts an opened statement or ends it.
fn start_or_end<D: Shelf + Drop, W: Actor<D, ToldHouse<D>>>(
    alloc: Global,
    actor: &mut W,
    txn: TxnId,
) -> Result<Opened, HouseFault>
    requires keeps { W.keeps actor.old }
    requires running { IsOpenHouse (W.house actor.old) }
    requires was { WasOpened (trail_in (W.house actor.old)) txn.0 }
    ensures keeps { W.keeps actor.new }
    ensures goes { (first : House D) (own : List ℕ) (asking : Asking) (said : Tree)
        → OpenedFirst D.faults W.between asking txn.0 said (known own first)
        (known (W.own actor.old) (W.house actor.old))
        → GoesBeginning (among D.told D.faults W.between W.meanwhile) asking said (known own first)
        (known (W.own actor.new) (W.house actor.new)) result }
{
    match start_waiting(alloc, actor, txn) {
        Ok(found) => Ok(started_as(txn, found)),
        Err(why) => end_unstarted(alloc, actor, txn, why),
    }
}

/// What a statement comes to that started, or was aborted where it was to start.
pub fn started_as(txn: TxnId, found: Started) -> Opened
    ensures opened { result ≡ started_as txn found }
{
    match found {
        Started::At(place) => Opened::Started(Way { txn, place }),
        Started::Aborted(aborted) => Opened::Ended(Done::Replied(reply_of(aborted))),
    }
}

/// What a statement comes to that wasn't opened. Only the lack of room or a call that failed is an answer there.
pub fn unopened(why: ActFault) -> Result<Opened, HouseFault>
    ensures unopened { result ≡ unopened why }
{
    match why {
        ActFault::Full { entries } => Ok(Opened::Full { entries }),
        ActFault::House(fault) => lacking(fault),
        ActFault::Ended { .. } => Err(HouseFault::Store),
        ActFault::Held { .. } => Err(HouseFault::Store),
        ActFault::Broken { .. } => Err(HouseFault::Store),
        ActFault::Unfit => Err(HouseFault::Store),
    }
}

/// Opens a statement, and then starts it or ends it.
fn open_and_start<D: Shelf + Drop, W: Actor<D, ToldHouse<D>>>(
    alloc: Global,
    actor: &mut W,
    session: Text,
    number: u64,
    text: Text,
    tree: Stmt,
) -> Result<Opened, HouseFault>
    requires keeps { W.keeps actor.old }
    requires running { IsOpenHouse (W.house actor.old) }
    requires runs { Runs text tree }
    requires short { length text ≤ 32768 }
    requires named { length session ≤ 32 }
    ensures keeps { W.keeps actor.new }
    ensures goes { (first : House D) (own : List ℕ) → WasHindered D.faults W.between tree (known own first)
        (known (W.own actor.old) (W.house actor.old))
        → GoesBeginning (among D.told D.faults W.between W.meanwhile)
        (record { session = session; number = number; text = text }) tree
        (known own first) (known (W.own actor.new) (W.house actor.new)) result }
{
    match open_waiting(alloc, actor, session, number, text, tree) {
        Ok(txn) => start_or_end(alloc, actor, txn),
        Err(why) => unopened(why),
    }
}

/// Opens a statement that could not begin. It is read once more, for the book: since its text runs, only memory may lack there.
fn open_hindered<D: Shelf + Drop, W: Actor<D, ToldHouse<D>>>(
    alloc: Global,
    actor: &mut W,
    session: Text,
    number: u64,
    text: Text,
) -> Result<Opened, HouseFault>
    requires keeps { W.keeps actor.old }
    requires running { IsOpenHouse (W.house actor.old) }
    requires short { length text ≤ 32768 }
    requires named { length session ≤ 32 }
    ensures keeps { W.keeps actor.new }
    ensures goes { (first : House D) (own : List ℕ) (said : Tree) → Runs text said
        → WasHindered D.faults W.between said (known own first) (known (W.own actor.old) (W.house actor.old))
        → GoesBeginning (among D.told D.faults W.between W.meanwhile)
        (record { session = session; number = number; text = text }) said
        (known own first) (known (W.own actor.new) (W.house actor.new)) result }
{
    match read_statement(alloc, &text) {
        Ok(tree) => open_and_start(alloc, actor, session, number, text, tree),
        Err(_) => Ok(Opened::NoMemory),
    }
}

/// Goes on where a statement was not begun at once.
fn not_begun<D: Shelf + Drop, W: Actor<D, ToldHouse<D>>>(
    alloc: Global,
    actor: &mut W,
    session: Text,
    number: u64,
    text: Text,
    why: BeginFault,
) -> Result<Opened, HouseFault>
    requires keeps { W.keeps actor.old }
    requires running { IsLeftRunning (W.house actor.old) why }
    requires short { length text ≤ 32768 }
    requires named { length session ≤ 32 }
    ensures keeps { W.keeps actor.new }
    ensures goes { (first : House D) (own : List ℕ) (said : Tree) → Runs text said
        → BeginsAtOnce (among D.told D.faults W.between W.meanwhile)
        (record { session = session; number = number; text = text }) said
        (known own first) (known (W.own actor.old) (W.house actor.old)) (Err why)
        → GoesBeginning (among D.told D.faults W.between W.meanwhile)
        (record { session = session; number = number; text = text }) said
        (known own first) (known (W.own actor.new) (W.house actor.new)) result }
{
    match why {
        BeginFault::Held { .. } => open_hindered(alloc, actor, session, number, text),
        BeginFault::Full { .. } => open_hindered(alloc, actor, session, number, text),
        BeginFault::House(fault) => lacking(fault),
    }
}

/// Begins a statement, or opens it, of which the session and the text are there once more.
fn begin_or_open<D: Shelf + Drop, W: Actor<D, ToldHouse<D>>>(
    alloc: Global,
    actor: &mut W,
    session: Text,
    number: u64,
    text: Text,
    tree: Stmt,
    name: Text,
    words: Text,
) -> Result<Opened, HouseFault>
    requires keeps { W.keeps actor.old }
    requires both { 2 ≤ W.most }
    requires running { IsOpenHouse (W.house actor.old) }
    requires runs { Runs text tree }
    requires short { length text ≤ 32768 }
    requires named { length session ≤ 32 }
    requires name { name ≡ session }
    requires words { words ≡ text }
    ensures keeps { W.keeps actor.new }
    ensures goes { GoesBeginning (among D.told D.faults W.between W.meanwhile)
        (record { session = session; number = number; text = text }) tree
        (known (W.own actor.old) (W.house actor.old)) (known (W.own actor.new) (W.house actor.new)) result }
{
    match begin_at_once(alloc, actor, session, number, text, tree) {
        Ok(start) => Ok(Opened::Started(Way {
            txn: start.txn,
            place: start.place,
        })),
        Err(why) => not_begun(alloc, actor, name, number, words, why),
    }
}

/// Opens a statement and starts it, both at once; or, where something stands in its way, opens it and then starts or aborts it in one hold.
/// `tree` is that of its text.
///
/// # Errors
/// `Store` where the journal failed or others closed the house, and `NoMemory` where memory lacked even for an abort.
pub fn begin<D: Shelf + Drop, W: Actor<D, ToldHouse<D>>>(
    alloc: Global,
    actor: &mut W,
    session: Text,
    number: u64,
    text: Text,
    tree: Stmt,
) -> Result<Opened, HouseFault>
    requires keeps { W.keeps actor.old }
    requires both { 2 ≤ W.most }
    requires running { IsOpenHouse (W.house actor.old) }
    requires runs { Runs text tree }
    requires short { length text ≤ 32768 }
    requires named { length session ≤ 32 }
    ensures keeps { W.keeps actor.new }
    ensures begins { (said : Tree) → Runs text said → IfOk result
        (λ opened. GainsSome D.faults W.between (faults_in D.faults (W.house actor.old))
        (known (W.own actor.old) (W.house actor.old)) (known (W.own actor.new) (W.house actor.new))
        (Begins (W.house actor.old) (W.house actor.new) (record { session = session; number = number; text = text })
        said opened)) }
    ensures halts { IfErr result (HaltsBeginning (among D.told D.faults W.between W.meanwhile)
        (record { session = session; number = number; text = text })
        (known (W.own actor.old) (W.house actor.old)) (known (W.own actor.new) (W.house actor.new))) }
{
    match copy_asked(alloc, &session, &text) {
        Ok((name, words)) => begin_or_open(alloc, actor, session, number, text, tree, name, words),
        Err(NoMemory) => {
            discard(tree);
            Ok(Opened::NoMemory)
        }
    }
}
