use hv_base::{Stage, Text};

/// A session: its name, and how many sessions were named before it. `main` is the first.
#[derive(Drop)]
pub struct Session {
    pub name: Text,
    pub place: u64,
}

/// A statement of a session, with its number over the whole script, from 1, and the stage before
/// which it is to be held.
#[derive(Drop)]
pub struct Statement {
    pub session: Session,
    pub number: u64,
    pub text: Text,
    pub hold: Option<Stage>,
}

/// What a script asks to be done.
#[derive(Drop)]
pub enum Action {
    /// To run a statement, up to its hold.
    Run(Statement),
    /// To print the line of a session, to which the statements behind it belong.
    Announce(Session),
    /// To finish the held statement of a session.
    Release(Session),
    /// To ask for the compactions that are due, and then to do one.
    Compact,
    /// To take away what is no longer needed.
    Clean,
    /// To end a phase, where sessions are served beside each other; else nothing.
    Barrier,
}
