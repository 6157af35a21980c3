//! What is kept between two lines of a case of statements, and what is printed of them.
ghost use Rattle.std.specs.Prelude.{◌≡◌, None};

use crate::words::add;
use hv_base::Stage;
use hv_session::Paused;
use hv_session::hv_beginning::hv_steps::Reply;
use std::io;
use std::mem::ManuallyDrop;

/// What others will do when they come, a line a move; where the next statement is to be held; and one that is held.
pub(crate) struct Desk {
    pub(crate) moves: String,
    pub(crate) hold: Option<Stage>,
    pub(crate) held: Option<Paused>,
}

/// Leaves what is held, and will never be finished.
pub(crate) fn leave_held(desk: &mut Desk)
    ensures hold { desk.new.hold ≡ desk.old.hold }
    ensures held { desk.new.held ≡ None }
{
    let _left = ManuallyDrop::new(desk.held.take());
}

/// Lets go of a desk, and leaves what is held.
pub(crate) fn leave_desk(desk: Desk) {
    let Desk {
        moves: _moves,
        hold: _hold,
        held,
    } = desk;
    let _left = ManuallyDrop::new(held);
}

/// A reply.
pub(crate) fn say_reply(said: &mut String, reply: &Reply) -> io::Result<()> {
    add(
        said,
        str::from_utf8(reply.text.as_slice()).unwrap_or("no text\n"),
    )
}
