//! A statement of a session over whoever acts on the house: taken up, held where it is to be, and ended act by act, so that others may act on
//! the house between.
#![tactic(auto)]

pub use hv_beginning;

mod alone;
mod asking;
mod concluding;
mod finishing;
mod laws;
mod lines;
mod paused;
mod readying;
mod statement;
mod taking;

pub use alone::{
    alone_adds, alone_begins, alone_concludes, alone_goes, alone_prepares, alone_refuses,
    alone_sees, alone_stops, who_acts_alone,
};
pub use asking::{Asking, How};
pub use concluding::conclude;
pub use finishing::{finish, reply_from};
pub use laws::what_is_held_can_be_finished;
pub use lines::{full_reply, memory_reply, text_reply};
pub use paused::{Paused, Point, Taken};
pub use readying::get_ready;
pub use statement::take_up;
