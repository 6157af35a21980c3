//! Which statement each reply is of. A held statement that was refused before its hold replies where it stands, and
//! one that was held at its release; where both can be, both are told.
use crate::watching::Reply;
use hv_base::{NoMemory, Refusal, Stage};
use hv_script::{Action, Statement};
use std::alloc::Global;

/// The numbers of the statements of which a reply may be: none of a session's line, mostly one.
#[derive(Clone, Copy)]
pub struct Owner {
    pub number: Option<u64>,
    pub other: Option<u64>,
}

impl Owner {
    fn sure(number: u64) -> Owner {
        Owner {
            number: Some(number),
            other: None,
        }
    }
}

/// A statement that is held.
#[derive(Clone, Copy)]
struct Held {
    /// The place of its session.
    place: u64,
    number: u64,
    stage: Stage,
}

/// The owners of the replies so far, and the statements that are held.
#[derive(Drop)]
struct Owners {
    owners: Vec<Owner>,
    held: Vec<Held>,
}

/// What is released between a held statement and its own release, or what comes before.
#[derive(Drop)]
struct Window {
    released: Vec<Held>,
    /// The last one is the statement's own release.
    closed: bool,
}

/// When a statement replied that has a hold.
#[derive(Clone, Copy)]
enum Fate {
    Before,
    After,
    Unknown,
}

/// Before which stage a refusal ends its statement.
#[derive(Clone, Copy)]
enum Ends {
    /// Before it has a snapshot, for its text or for another's lock.
    Start,
    /// For its names and types.
    Read,
    /// For the limits of its rows.
    Commit,
    /// At its commit.
    Last,
    /// At any.
    Any,
}

/// Before which stage this refusal comes.
fn ends_at(refusal: Refusal) -> Ends {
    match refusal {
        Refusal::ReadFault | Refusal::WriteFault | Refusal::NoMemory | Refusal::Damaged =>
            Ends::Any,
        Refusal::RowLimit | Refusal::PartitionLimit | Refusal::MergeTwice => Ends::Commit,
        Refusal::Conflict | Refusal::Aborted => Ends::Last,
        Refusal::Blocked => Ends::Start,
        // It has no room to begin, or for its write id.
        Refusal::JournalFull => Ends::Any,
        _ if refusal.number() < 10 => Ends::Start,
        _ if refusal.number() < 30 => Ends::Read,
        _ => Ends::Any,
    }
}

/// The refusal that a reply is.
pub fn refusal_of(text: &str) -> Option<Refusal> {
    let digits = match text.split_once(' ') {
        Some((digits, _)) => digits,
        None => text,
    };
    match digits.parse::<u32>() {
        Ok(number) => Refusal::of_number(number),
        Err(_) => None,
    }
}

fn ends_of(reply: &Reply) -> Ends {
    match reply {
        Reply::Refused(text) => match refusal_of(text.as_str()) {
            Some(refusal) => ends_at(refusal),
            None => Ends::Any,
        },
        _ => Ends::Last,
    }
}

/// Whether a statement that is to be held before a stage may have replied so before it: it is refused then.
fn can_end_before(reply: Option<&Reply>, stage: Stage) -> bool {
    let Some(reply) = reply else {
        return true;
    };
    match ends_of(reply) {
        Ends::Start | Ends::Any => true,
        Ends::Read => matches!(stage, Stage::Read | Stage::Commit),
        Ends::Commit => matches!(stage, Stage::Commit),
        Ends::Last => false,
    }
}

/// Whether a statement that was held before a stage may reply so.
fn can_end_after(reply: Option<&Reply>, stage: Stage) -> bool {
    match reply {
        None => true,
        Some(Reply::Session) => false,
        Some(Reply::Other) => true,
        Some(reply) => match ends_of(reply) {
            Ends::Any => true,
            _ => !can_end_before(Some(reply), stage),
        },
    }
}

/// Whether statements that were held may reply so, in this order.
fn can_all_end(replies: &[Reply], held: &[Held]) -> bool {
    for (place, one) in held.iter().enumerate() {
        if !can_end_after(replies.get(place), one.stage) {
            return false;
        }
    }
    true
}

/// The held statement of a session.
fn find(held: &[Held], place: u64) -> Option<Held> {
    for one in held {
        if one.place == place {
            return Some(*one);
        }
    }
    None
}

/// What is released after a held statement of the session at a place.
fn window_after(
    alloc: Global,
    after: &[Action],
    held: &[Held],
    place: u64,
) -> Result<Window, NoMemory> {
    let mut released = Vec::new(alloc);
    let mut closed = false;
    for action in after {
        let session = match action {
            Action::Release(session) => session,
            // They print nothing.
            Action::Compact | Action::Clean | Action::Barrier => continue,
            Action::Run(_) | Action::Announce(_) => break,
        };
        if session.place == place {
            closed = true;
            break;
        }
        if let Some(one) = find(held, session.place) {
            released.push(one)?;
        }
    }
    Ok(Window { released, closed })
}

/// When a statement with a hold replied, by the replies from there on.
fn fate_of(own: Held, window: &Window, replies: &[Reply]) -> Fate {
    let released = window.released.as_slice();
    let last = replies.get(released.len());
    if !window.closed {
        // The next one to print is the line of a session, after those that are released.
        return match last {
            Some(Reply::Session) => Fate::After,
            Some(_) => Fate::Before,
            None => Fate::Unknown,
        };
    }
    let others = replies.get(1..).unwrap_or(&[]);
    let before = can_end_before(replies.first(), own.stage) && can_all_end(others, released);
    let after = can_end_after(last, own.stage) && can_all_end(replies, released);
    match (before, after) {
        _ if released.is_empty() => Fate::After,
        (true, false) => Fate::Before,
        (false, true) => Fate::After,
        _ => Fate::Unknown,
    }
}

impl Owners {
    /// Takes a statement with a hold, and the replies from there on.
    fn hold(&mut self, own: Held, window: &Window, replies: &[Reply]) -> Result<(), NoMemory> {
        match fate_of(own, window, replies) {
            Fate::Before => self.owners.push(Owner::sure(own.number))?,
            Fate::After => self.held.push(own)?,
            Fate::Unknown => self.spread(own, window)?,
        }
        Ok(())
    }

    /// The statement replied before what is released after it, or after it.
    fn spread(&mut self, own: Held, window: &Window) -> Result<(), NoMemory> {
        let mut before = own.number;
        for one in &window.released {
            self.owners.push(Owner {
                number: Some(before),
                other: Some(one.number),
            })?;
            before = one.number;
            self.held.retain(|other| other.place != one.place);
        }
        self.owners.push(Owner {
            number: Some(before),
            other: Some(own.number),
        })?;
        Ok(())
    }

    fn run(
        &mut self,
        alloc: Global,
        statement: &Statement,
        after: &[Action],
        replies: &[Reply],
    ) -> Result<(), NoMemory> {
        let Some(stage) = statement.hold else {
            self.owners.push(Owner::sure(statement.number))?;
            return Ok(());
        };
        let own = Held {
            place: statement.session.place,
            number: statement.number,
            stage,
        };
        let window = window_after(alloc, after, self.held.as_slice(), own.place)?;
        let rest = replies.get(self.owners.len()..).unwrap_or(&[]);
        self.hold(own, &window, rest)
    }

    /// Passes an action, with those after it.
    fn pass(
        &mut self,
        alloc: Global,
        action: &Action,
        after: &[Action],
        replies: &[Reply],
    ) -> Result<(), NoMemory> {
        match action {
            Action::Run(statement) => self.run(alloc, statement, after, replies),
            Action::Announce(_) => {
                self.owners.push(Owner {
                    number: None,
                    other: None,
                })?;
                Ok(())
            }
            Action::Release(session) => {
                if let Some(one) = find(self.held.as_slice(), session.place) {
                    self.owners.push(Owner::sure(one.number))?;
                    self.held.retain(|other| other.place != one.place);
                }
                Ok(())
            }
            // They print nothing.
            Action::Compact | Action::Clean | Action::Barrier => Ok(()),
        }
    }
}

/// The owners of the replies, in order, and perhaps of some that didn't come any more.
pub fn owners_of(
    alloc: Global,
    actions: &[Action],
    replies: &[Reply],
) -> Result<Vec<Owner>, NoMemory> {
    let mut owners = Owners {
        owners: Vec::new(alloc),
        held: Vec::new(alloc),
    };
    let mut after = actions;
    for action in actions {
        after = after.get(1..).unwrap_or(&[]);
        owners.pass(alloc, action, after, replies)?;
    }
    let Owners { owners, held: _ } = owners;
    Ok(owners)
}
