//! What holds of the grammar and its reading. The functions do nothing: each contract is a law.

ghost use Rattle.hv_parse_expr.specs.Exact.{ReadIsSpelled, SpelledIsRead, OneTree, TypesAreExact};

/// What is read is spelled so.
pub fn read_is_spelled()
    ensures { ReadIsSpelled }
{}

/// What is spelled is read, where no level is too deep and the token behind can't continue it.
pub fn spelled_is_read()
    ensures { SpelledIsRead }
{}

/// At most one expression stands at a place.
pub fn one_tree()
    ensures { OneTree }
{}

/// A type is read exactly where it is spelled.
pub fn types_are_exact()
    ensures { TypesAreExact }
{}
