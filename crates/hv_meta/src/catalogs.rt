ghost use Rattle.std.specs.Prelude.{◌≡◌, IfOk};
ghost use Rattle.std.specs.Option.{option_copied};
ghost use Rattle.hv_book.specs.hv_history.specs.State.{created_shape};

use hv_ast::Stmt;
use hv_base::{List, NoMemory, Text};
use hv_book::hv_history::hv_meaning::hv_typing::hv_logic::{Shape, shape_of};
use std::alloc::Global;

/// The shape of the table that this text makes: one without a name and columns where it makes none.
pub fn made_shape(alloc: Global, tree: Option<&Stmt>) -> Result<Shape, NoMemory>
    ensures { IfOk result (λ shape. shape ≡ created_shape (option_copied tree.entry)) }
{
    match tree {
        Some(Stmt::CreateTable(create)) => shape_of(alloc, create),
        _ => Ok(Shape {
            name: Text::of(alloc, "")?,
            columns: List::empty(alloc),
            parts: List::empty(alloc),
            bucketed: List::empty(alloc),
            buckets: 0,
        }),
    }
}
