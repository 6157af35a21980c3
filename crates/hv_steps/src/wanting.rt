//! Which partitions of a table a statement reads.

ghost use Rattle.std.specs.Prelude.{◌≡◌, ◌==◌, ◌&&◌, not, ℕ, List, length, slice_get, Some, IfOk};
ghost use Rattle.hv_steps.specs.Wanting.{picked, needs_in};

use hv_base::{NoMemory, Text};
use hv_effect::{Need, Studied};
use hv_logic::{Column, TableInfo};
use hv_table_reader::Wants;
use std::alloc::Global;

/// What is needed of a table, and the columns whose values its partitions' texts say.
#[derive(Drop)]
pub struct Wanting<'a> {
    pub need: Need<'a>,
    pub parts: &'a [Column],
}

impl<'a> Wants for Wanting<'a> {
    ghost use Rattle.hv_steps.specs.Wanting.{picked};

    ghost picks = { picked };

    fn wants(&self, alloc: Global, partition: &Text) -> Result<bool, NoMemory> {
        self.need.wants(alloc, self.parts, partition)
    }
}

/// Whether no partition is needed.
pub fn is_none<'a>(need: &Need<'a>) -> bool
    ensures { result ≡ (not need.now.all && (length need.now.tests.items == 0)) }
{
    if need.all {
        return false;
    }
    need.tests.as_slice().is_empty()
}

/// What a statement needs of the table at this place, which has this description.
pub fn wanting_of<'a>(
    alloc: Global,
    studied: &'a Studied,
    place: usize,
    info: &'a TableInfo,
) -> Result<Wanting<'a>, NoMemory>
    requires { slice_get studied.now.infos.items place ≡ Some info.now }
    ensures { IfOk result (λ wanting. (text : List ℕ) → picked wanting text ≡ needs_in studied.now place text) }
{
    let need = studied.need(alloc, place)?;
    Ok(Wanting {
        need,
        parts: info.shape.parts.as_slice(),
    })
}
