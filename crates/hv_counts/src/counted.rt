/// How many records a file has that was read, and how many bytes.
#[derive(Clone, Copy)]
pub struct Counted {
    pub rows: u64,
    pub bytes: u64,
}
