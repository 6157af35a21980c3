//! What holds of the grammar of statements, and of texts. The functions do nothing: each contract is
//! a law.

ghost use Rattle.hv_parse_stmt.specs.Exact.{ReadIsSpelled, SpelledIsRead, OneStatement, TreeIsSpelled, OneTree, SpelledOrFaulty};

/// What is read is spelled so.
pub fn read_is_spelled()
    ensures { ReadIsSpelled }
{}

/// What is spelled to the end is read, where no level is too deep.
pub fn spelled_is_read()
    ensures { SpelledIsRead }
{}

/// At most one statement has these tokens.
pub fn one_statement()
    ensures { OneStatement }
{}

/// The tree of a text is the one that it spells.
pub fn tree_is_spelled()
    ensures { TreeIsSpelled }
{}

/// A text spells at most one statement.
pub fn one_tree()
    ensures { OneTree }
{}

/// A text spells a statement or has a fault, and never both.
pub fn spelled_or_faulty()
    ensures { SpelledOrFaulty }
{}
