/// A stage of the work of a query.
#[derive(Clone, Copy)]
pub enum StageKind {
    /// Each part of the rows by itself.
    Map,
    /// What has one key is brought together.
    Shuffle,
    /// What was brought together is put together.
    Reduce,
}
