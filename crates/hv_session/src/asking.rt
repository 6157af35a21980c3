//! What is handed over for a statement.

use hv_base::{Stage, Text};

/// A statement that is to be taken up: its session, with the session's place in the script, from 0, its number, its
/// text, and the stage at which it is to be held.
#[derive(Drop)]
pub struct Asking {
    pub session: Text,
    pub place: u64,
    pub number: u64,
    pub text: Text,
    pub hold: Option<Stage>,
}

/// How statements are taken up: whether one that has to wait for a lock waits, and how many workers there are.
#[derive(Clone, Copy)]
pub struct How {
    pub waits: bool,
    pub workers: usize,
}
