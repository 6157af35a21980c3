//! What holds of the grammar. The functions do nothing: each contract is a law.

ghost use Rattle.hv_grammar.specs.Worked as worked;
ghost use Rattle.hv_grammar.specs.WorkedQueries as query;
ghost use Rattle.hv_grammar.specs.WorkedStatements as statement;
ghost use Rattle.hv_grammar.specs.WorkedTexts as text;

/// Texts with their trees, worked out by hand: each neighbouring pair of levels, chains, each form
/// once, and what is refused.
pub fn expressions_are_read()
    ensures levels { worked.AreRead worked.levels }
    ensures chains { worked.AreRead worked.chains }
    ensures tests { worked.AreRead worked.tests }
    ensures forms { worked.AreRead worked.forms }
    ensures refused { worked.AreRead worked.refused }
{}

/// Queries with their trees, worked out by hand: each clause, each join, names that are keywords
/// elsewhere, what a union's ORDER BY belongs to, and what is refused.
pub fn queries_are_read()
    ensures selects { query.AreStatements query.selects }
    ensures names { query.AreStatements query.names }
    ensures sources { query.AreStatements query.sources }
    ensures unions { query.AreStatements query.unions }
    ensures broken { query.AreStatements query.broken }
{}

/// Statements of every other form with their trees, worked out by hand: with all their parts, with
/// none, with one missing, and with the parts swapped.
pub fn statements_are_read()
    ensures inserts { query.AreStatements statement.inserts }
    ensures changes { query.AreStatements statement.changes }
    ensures merges { query.AreStatements statement.merges }
    ensures tables { query.AreStatements statement.tables }
    ensures asked { query.AreStatements statement.asked }
    ensures realistic { query.AreStatements statement.realistic }
{}

/// Texts with their tree or fault, worked out by hand: SET texts, and which fault comes first.
pub fn texts_are_read()
    ensures settings { text.HaveTrees text.settings }
    ensures faults { text.HaveFaults text.faults }
{}
