//! What holds of the grammar of queries and its reading. The functions do nothing: each contract is
//! a law.

ghost use Rattle.hv_parse_query.specs.Exact.{ReadIsSpelled, SpelledIsRead};

/// What is read is spelled so.
pub fn read_is_spelled()
    ensures { ReadIsSpelled }
{}

/// What is spelled is read, where no level is too deep and nothing behind it goes on.
pub fn spelled_is_read()
    ensures { SpelledIsRead }
{}
