//! The room of a book: what entries take of it, later ones don't give back.
#![tactic(auto)]

mod laws;

pub use laws::{load_never_falls, no_room_opens_none};
