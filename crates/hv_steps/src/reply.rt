use crate::ready::{Ready, Reply, Way};
use hv_effect::Touching;

/// How a statement ended.
#[derive(Drop)]
pub enum Done {
    /// By an entry of its own, with this reply.
    Replied(Reply),
    /// Others ended it, and this is what is told of their entry.
    Gone(Reply),
}

/// What came of opening a statement and starting it.
#[derive(Drop)]
pub enum Opened {
    /// It has its snapshot.
    Started(Way),
    /// There was no room for it, and nothing was noted: the book has so many entries.
    Full { entries: u64 },
    /// Memory lacked before it was opened, and nothing was noted.
    NoMemory,
    /// It was opened and has ended.
    Ended(Done),
}

/// What a started statement comes to.
#[derive(Drop)]
pub enum Outcome {
    Means(Touching),
    Ended(Done),
}

/// What came of the aborts that a statement asks for: it has asked for all, or it has ended on the way.
#[derive(Drop)]
pub enum Asked {
    All,
    Ended(Done),
}

/// A statement that was prepared: it is ready to end, or it has ended on the way.
#[derive(Drop)]
pub enum Prepared {
    Ready(Ready),
    Ended(Done),
}
