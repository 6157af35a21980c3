//! What is asked of the warehouse: SHOW, DESCRIBE and ABORT.

ghost use Rattle.std.specs.Prelude.{◌≡◌};
ghost use Rattle.hv_grammar.specs.Choices as choices;
ghost use Rattle.hv_grammar.specs.StatementReading as reading;
ghost use Rattle.hv_parse_expr.specs.Reads.{Reads};

use hv_ast::{Show, Stmt};
use hv_base::List;
use hv_grammar::Kind;
use hv_parse_expr::{ReadFault, Tokens};
use hv_parse_query::table_name;
use std::alloc::Global;

/// Behind SHOW, TABLES, `PARTITIONS name`, TRANSACTIONS, LOCKS or COMPACTIONS.
#[tactic(auto, unfolding(hv_grammar::specs::StatementReading::show))]
pub fn show(alloc: Global, tokens: &mut Tokens<'_>) -> Result<Stmt, ReadFault>
    ensures { Reads (reading.show tokens.old) result tokens.new }
{
    let kind = tokens.peek();
    tokens.pass();
    match kind {
        Kind::Tables => Ok(Stmt::Show(Show::Tables)),
        Kind::Partitions => Ok(Stmt::Show(Show::Partitions(table_name(alloc, tokens)?))),
        Kind::Transactions => Ok(Stmt::Show(Show::Transactions)),
        Kind::Locks => Ok(Stmt::Show(Show::Locks)),
        Kind::Compactions => Ok(Stmt::Show(Show::Compactions)),
        _ => Err(ReadFault::Syntax),
    }
}

/// Behind DESCRIBE, a table's name.
#[tactic(auto, unfolding(hv_grammar::specs::StatementReading::describe))]
pub fn describe(alloc: Global, tokens: &mut Tokens<'_>) -> Result<Stmt, ReadFault>
    ensures { Reads (reading.describe tokens.old) result tokens.new }
{
    Ok(Stmt::Describe(table_name(alloc, tokens)?))
}

fn is_number(kind: Kind) -> bool
    ensures { result ≡ choices.is_number kind }
{
    match kind {
        Kind::Number => true,
        _ => false,
    }
}

/// The first number, and those behind it.
#[tactic(auto, unfolding(hv_grammar::specs::StatementReading::more_numbers))]
fn more_numbers(alloc: Global, tokens: &mut Tokens<'_>, first: u64) -> Result<List<u64>, ReadFault>
    ensures { Reads (reading.more_numbers first tokens.old) result tokens.new }
{
    let mut found = Vec::new(alloc);
    found.push(first)?;
    for _turn in 0..tokens.left() {
        if !is_number(tokens.peek()) {
            break;
        }
        found.push(tokens.number()?)?;
    }
    Ok(List::from_vec(found))
}

/// `number {number}`
#[tactic(auto, unfolding(hv_grammar::specs::StatementReading::numbers))]
fn numbers(alloc: Global, tokens: &mut Tokens<'_>) -> Result<List<u64>, ReadFault>
    ensures { Reads (reading.numbers tokens.old) result tokens.new }
{
    let first = tokens.number()?;
    more_numbers(alloc, tokens, first)
}

/// Behind ABORT, `TRANSACTIONS number {number}`.
#[tactic(auto, unfolding(hv_grammar::specs::StatementReading::abort))]
pub fn abort(alloc: Global, tokens: &mut Tokens<'_>) -> Result<Stmt, ReadFault>
    ensures { Reads (reading.abort tokens.old) result tokens.new }
{
    tokens.expect(Kind::Transactions)?;
    Ok(Stmt::AbortTransactions(numbers(alloc, tokens)?))
}
