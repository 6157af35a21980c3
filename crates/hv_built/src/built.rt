//! Which statements run today.

ghost use Rattle.std.specs.Prelude.{◌≡◌};
ghost use Rattle.hv_built.specs.Built.{is_built};

use crate::forms::is_form;
use hv_ast::Stmt;

/// Whether statements of this form run today: those that are analysed. The other forms are refused as
/// Syntax.
pub fn is_built(stmt: &Stmt) -> bool
    ensures { result ≡ is_built stmt.now }
{
    is_form(stmt)
}
