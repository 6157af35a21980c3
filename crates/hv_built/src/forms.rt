ghost use Rattle.std.specs.Prelude.{◌≡◌};
ghost use Rattle.hv_typing.specs.Analysis.{are_windowless, is_form};

use crate::windows::{is_windowless, is_windowless_source};
use hv_ast::{Rows, Stmt};

fn are_windowless(rows: &Rows) -> bool
    ensures { result ≡ are_windowless rows.now }
{
    match rows {
        Rows::Values(_) => true,
        Rows::Query(query) => is_windowless(query),
    }
}

/// Whether statements of this form are analysed.
#[tactic(auto, unfolding(hv_typing::specs::Analysis::is_form))]
pub(crate) fn is_form(stmt: &Stmt) -> bool
    ensures { result ≡ is_form stmt.now }
{
    match stmt {
        Stmt::Query(query) => is_windowless(query),
        Stmt::Insert(insert) => are_windowless(&insert.rows),
        Stmt::Update(_) => true,
        Stmt::Delete(_) => true,
        Stmt::Merge(merge) => is_windowless_source(&merge.source),
        Stmt::Truncate(_) => true,
        Stmt::CreateTable(_) => true,
        Stmt::DropTable(_) => true,
        Stmt::Show(_) | Stmt::Describe(_) => true,
        Stmt::Compact(_) => true,
        Stmt::Set(_) | Stmt::AbortTransactions(_) => true,
        Stmt::Explain(query) => is_windowless(query),
        _ => false,
    }
}
