//! What of a store is held open, and which changes of names it asks for.

/// What a store holds open for as long as it is there.
#[derive(Clone, Copy)]
pub enum Part {
    /// The store's folder.
    Folder,
    /// The folder of all tables.
    Tables,
    /// The file that no two stores hold at once.
    Lock,
    /// The journal, which no two stores hold at once either.
    Journal,
}

/// A change of names in folders.
#[derive(Clone, Copy)]
pub enum Change {
    MakeFolder,
    RemoveFile,
    RemoveFolder,
    /// The only one that asks for a second path.
    Rename,
}
