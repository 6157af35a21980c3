use hv_ast::Stmt;
use hv_beginning::hv_steps::hv_effect::Touching;
use hv_beginning::hv_steps::{Done, Ready, Reply, Way};

/// How far a held statement has come.
#[derive(Drop)]
pub enum Point {
    /// It has its snapshot.
    Started,
    /// What it comes to is known.
    Meant(Touching),
    /// Its files are put; its end is to be noted.
    Ready(Ready),
}

/// A statement that is held: its transaction was open and has its snapshot.
#[derive(Drop)]
pub struct Paused {
    pub way: Way,
    pub tree: Stmt,
    pub point: Point,
}

/// How far a statement of a tree was carried.
#[derive(Drop)]
pub enum Carried {
    /// It was opened, and has ended.
    Ended(Done),
    /// It is held where it was to be.
    Kept(Paused),
    /// There was no room for it, and nothing was opened: the book has so many entries.
    Full { entries: u64 },
    /// Memory lacked before it was opened.
    NoMemory,
}

/// What taking up a statement answers.
#[derive(Drop)]
pub enum Taken {
    /// It has ended, or was never opened, and this is its reply.
    Replied(Reply),
    /// It is held where it was to be.
    Kept(Paused),
}
