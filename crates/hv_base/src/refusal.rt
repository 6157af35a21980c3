ghost use Rattle.std.specs.Prelude.{◌≡◌, ◌==◌};
ghost use Rattle.std.specs.List.{find};
ghost use Rattle.hv_base.specs.Refusals.{number, name, IsNumbered};

/// Why a statement is refused. A refused statement prints its number and its name.
#[derive(Clone, Copy)]
pub enum Refusal {
    /// A character of the text begins no token.
    BadCharacter = 1,
    /// A quote or a backquote that nothing closes.
    OpenString = 2,
    /// A number above 9223372036854775807.
    WideNumber = 3,
    /// The text is no statement, or one of a form that doesn't run.
    Syntax = 4,
    /// Brackets and CASE nest too deep.
    Nesting = 5,
    /// There is no table of that name.
    NoTable = 10,
    /// There is no column of that name.
    NoColumn = 11,
    /// A name may be that of several columns.
    Ambiguous = 12,
    /// A value or an operand has a type that doesn't stand there.
    BadType = 13,
    /// There are more or fewer values than columns.
    BadCount = 14,
    /// A column stands outside of an aggregate and isn't grouped by.
    NotGrouped = 15,
    /// A column that may not be changed.
    FixedColumn = 16,
    /// The clauses of a MERGE don't go together.
    MergeClauses = 17,
    /// There is a table of that name.
    TableExists = 18,
    /// A number or a count is past its limit.
    Limit = 19,
    /// A materialized view's query is of a form that a view can't keep.
    ViewForm = 22,
    /// The table is a materialized view, which only its rebuild changes.
    IsView = 23,
    /// The table is no materialized view.
    NotView = 24,
    /// A window function stands where none may.
    WindowPlace = 25,
    /// Another transaction changed the same rows first.
    Conflict = 30,
    /// The transaction was asked to end.
    Aborted = 31,
    /// The journal has no room.
    JournalFull = 32,
    /// A MERGE changes one row twice.
    MergeTwice = 36,
    /// Another transaction holds a lock.
    Blocked = 37,
    /// A file couldn't be read.
    ReadFault = 38,
    /// A file couldn't be written.
    WriteFault = 39,
    /// Memory ran out.
    NoMemory = 40,
    /// A row takes more bytes than it may.
    RowLimit = 41,
    /// A statement writes to more partitions than it may.
    PartitionLimit = 42,
    /// A file isn't as it was written.
    Damaged = 43,
    /// The session's transaction has ended already.
    TransactionOver = 44,
    /// A statement that doesn't run inside a transaction.
    NotInTransaction = 45,
    /// There is no transaction to end.
    NoTransaction = 46,
}

/// Every refusal.
const ALL: [Refusal; 33] = [
    Refusal::BadCharacter,
    Refusal::OpenString,
    Refusal::WideNumber,
    Refusal::Syntax,
    Refusal::Nesting,
    Refusal::NoTable,
    Refusal::NoColumn,
    Refusal::Ambiguous,
    Refusal::BadType,
    Refusal::BadCount,
    Refusal::NotGrouped,
    Refusal::FixedColumn,
    Refusal::MergeClauses,
    Refusal::TableExists,
    Refusal::Limit,
    Refusal::ViewForm,
    Refusal::IsView,
    Refusal::NotView,
    Refusal::WindowPlace,
    Refusal::Conflict,
    Refusal::Aborted,
    Refusal::JournalFull,
    Refusal::MergeTwice,
    Refusal::Blocked,
    Refusal::ReadFault,
    Refusal::WriteFault,
    Refusal::NoMemory,
    Refusal::RowLimit,
    Refusal::PartitionLimit,
    Refusal::Damaged,
    Refusal::TransactionOver,
    Refusal::NotInTransaction,
    Refusal::NoTransaction,
];

/// The first of these refusals that has this number.
fn first_of(refusals: &[Refusal], wanted: u32) -> Option<Refusal>
    ensures { result ≡ find (λ refusal. number refusal == wanted) refusals.now }
{
    for refusal in refusals {
        if refusal.number() == wanted {
            return Some(*refusal);
        }
    }
    None
}

impl Refusal {
    /// The number that is printed.
    pub fn number(self) -> u32
        ensures { result ≡ number self }
    {
        self as u32
    }

    /// The name that is printed behind the number.
    pub fn name(self) -> &'static str
        ensures { result.now ≡ name self }
    {
        match self {
            Refusal::BadCharacter => "BadCharacter",
            Refusal::OpenString => "OpenString",
            Refusal::WideNumber => "WideNumber",
            Refusal::Syntax => "Syntax",
            Refusal::Nesting => "Nesting",
            Refusal::NoTable => "NoTable",
            Refusal::NoColumn => "NoColumn",
            Refusal::Ambiguous => "Ambiguous",
            Refusal::BadType => "BadType",
            Refusal::BadCount => "BadCount",
            Refusal::NotGrouped => "NotGrouped",
            Refusal::FixedColumn => "FixedColumn",
            Refusal::MergeClauses => "MergeClauses",
            Refusal::TableExists => "TableExists",
            Refusal::Limit => "Limit",
            Refusal::ViewForm => "ViewForm",
            Refusal::IsView => "IsView",
            Refusal::NotView => "NotView",
            Refusal::WindowPlace => "WindowPlace",
            Refusal::Conflict => "Conflict",
            Refusal::Aborted => "Aborted",
            Refusal::JournalFull => "JournalFull",
            Refusal::MergeTwice => "MergeTwice",
            Refusal::Blocked => "Blocked",
            Refusal::ReadFault => "ReadFault",
            Refusal::WriteFault => "WriteFault",
            Refusal::NoMemory => "NoMemory",
            Refusal::RowLimit => "RowLimit",
            Refusal::PartitionLimit => "PartitionLimit",
            Refusal::Damaged => "Damaged",
            Refusal::TransactionOver => "TransactionOver",
            Refusal::NotInTransaction => "NotInTransaction",
            Refusal::NoTransaction => "NoTransaction",
        }
    }

    /// The refusal of this number, if there is one.
    pub fn of_number(number: u32) -> Option<Refusal>
        ensures { IsNumbered result number }
    {
        first_of(&ALL, number)
    }
}
