use hv_session::hv_beginning::hv_steps::Done;

/// How a statement of a tree passed that was never held.
#[derive(Drop)]
pub enum Passed {
    /// It was opened, and has ended.
    Ended(Done),
    /// There was no room for it, and nothing was opened: the book has so many entries.
    Full { entries: u64 },
    /// Memory lacked before it was opened.
    NoMemory,
}
