/// Where a session stands between two steps of a statement, under no hold.
#[derive(Clone, Copy, Debug)]
pub struct Point {
    /// The session's place in the script, from 0.
    pub session: u64,
    /// The statement's number within its session, from 0.
    pub number: u64,
    pub stage: Stage,
}

/// Which step comes next, or that the statement's reply stands.
#[derive(Clone, Copy, Debug)]
pub enum Stage {
    Taken,
    Start,
    Read,
    Commit,
    Replied,
}

/// What a session calls between two steps. A test's gate may keep a session waiting there. A
/// gate tells nothing and changes nothing.
pub trait Gate {
    fn at(&self, point: Point);
}

/// The gate of the program: it returns at once.
#[derive(Clone, Copy)]
pub struct NoGate;

impl Gate for NoGate {
    fn at(&self, _point: Point) {}
}
