use hv_base::List;
use hv_history::Cause;

/// A transaction that an act aborted in its hold: the place of its Abort in the book, its cause, and what is printed for it.
#[derive(Drop)]
pub struct Aborted {
    pub at: u64,
    pub cause: Cause,
    pub text: List<u8>,
}
