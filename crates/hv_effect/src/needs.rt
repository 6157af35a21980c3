//! Which partitions of a table a statement needs.

ghost use Rattle.std.specs.Prelude.{◌≡◌, ◌||◌, true, false, List, IfOk, OnOk};
ghost use Rattle.hv_value.specs.declared.value.Value.{Value as ValueOf};
ghost use Rattle.hv_route.specs.Partitions.{partition_values};
ghost use Rattle.hv_effect.specs.Needs.{width_of, widths_of, condition_needs, query_needs, deletes_need, origin_needs, own_needs, change_needs, some_keeps, test_keeps, wants};

use hv_base::{Boxed, NoMemory, Text};
use hv_expr::TypedExpr;
use hv_logic::{Column, TableInfo};
use hv_rewrite::{PartitionTest, prune, prune_rows, widths_fit};
use hv_route::partition_values;
use hv_typing::{Deletes, Origin, TypedChange, TypedQuery};
use hv_value::Row;
use std::alloc::Global;

/// Which partitions of a table are needed: all, or those that one of these tests keeps.
#[derive(Drop)]
pub struct Need<'a> {
    pub all: bool,
    pub tests: Vec<PartitionTest<'a>>,
}

fn any_keeps(alloc: Global, tests: &[PartitionTest], parts: &Row) -> Result<bool, NoMemory>
    ensures { IfOk result (λ kept. kept ≡ some_keeps tests.now parts.now.values) }
{
    for test in tests {
        if test.keeps(alloc, parts)? {
            return Ok(true);
        }
    }
    Ok(false)
}

impl<'a> Need<'a> {
    pub(crate) fn none(alloc: Global) -> Need<'a>
        ensures { (values : List ValueOf) → wants result values ≡ false }
    {
        Need {
            all: false,
            tests: Vec::new(alloc),
        }
    }

    pub(crate) fn put_all(&mut self)
        ensures { (values : List ValueOf) → wants self.new values ≡ (wants self.old values || true) }
    {
        self.all = true;
    }

    fn put(&mut self, test: PartitionTest<'a>) -> Result<(), NoMemory>
        ensures { OnOk result ((values : List ValueOf)
            → wants self.new values ≡ (wants self.old values || test_keeps values test.entry)) }
    {
        self.tests.push(test)?;
        Ok(())
    }

    /// Whether the partition of this text is needed, of a table with these partition columns.
    pub fn wants(&self, alloc: Global, parts: &[Column], text: &Text) -> Result<bool, NoMemory>
        ensures { IfOk result (λ wanted. wanted ≡ wants self.now (partition_values parts.now text.now)) }
    {
        if self.all {
            return Ok(true);
        }
        let values = partition_values(alloc, parts, text)?;
        any_keeps(alloc, self.tests.as_slice(), &Row { values })
    }
}

/// How many values the rows of each table have.
pub(crate) fn widths_of(alloc: Global, infos: &[TableInfo]) -> Result<Vec<usize>, NoMemory>
    ensures { IfOk result (λ widths. widths.items ≡ widths_of infos.now) }
{
    let mut widths = Vec::with_capacity(alloc, infos.len())?;
    for info in infos {
        widths.push(width_of(info)?)?;
    }
    Ok(widths)
}

fn width_of(info: &TableInfo) -> Result<usize, NoMemory>
    ensures { IfOk result (λ width. width ≡ width_of info.now) }
{
    let columns = info.shape.columns.len();
    columns.checked_add(info.shape.parts.len()).ok_or(NoMemory)
}

/// Adds what the query needs of the table at this place.
pub(crate) fn put_query<'a>(
    alloc: Global,
    widths: &[usize],
    query: &'a TypedQuery,
    place: usize,
    need: &mut Need<'a>,
) -> Result<(), NoMemory>
    ensures { OnOk result ((values : List ValueOf)
        → wants need.new values ≡ (wants need.old values || query_needs widths.now place values query.now)) }
{
    if widths_fit(query, widths) {
        need.put(prune(alloc, query, place)?)
    } else {
        need.put_all();
        Ok(())
    }
}

fn put_condition<'a>(
    alloc: Global,
    width: usize,
    condition: &'a Option<Boxed<TypedExpr>>,
    need: &mut Need<'a>,
) -> Result<(), NoMemory>
    ensures { OnOk result ((values : List ValueOf)
        → wants need.new values ≡ (wants need.old values || condition_needs width condition.now values)) }
{
    let Ok(width) = u32::try_from(width) else {
        return Err(NoMemory);
    };
    need.put(prune_rows(alloc, condition, width)?)
}

/// Adds what a change of the table of this description needs of it for the rows that it deletes.
fn put_deleted<'a>(
    alloc: Global,
    info: &TableInfo,
    deletes: &'a Deletes,
    need: &mut Need<'a>,
) -> Result<(), NoMemory>
    ensures { OnOk result ((values : List ValueOf)
        → wants need.new values ≡ (wants need.old values || deletes_need info.now values deletes.now)) }
{
    match deletes {
        Deletes::Nothing => Ok(()),
        Deletes::Matching(condition) => put_condition(alloc, width_of(info)?, condition, need),
        Deletes::Received => {
            need.put_all();
            Ok(())
        }
    }
}

fn put_origin<'a>(
    alloc: Global,
    widths: &[usize],
    origin: &'a Origin,
    place: usize,
    need: &mut Need<'a>,
) -> Result<(), NoMemory>
    ensures { OnOk result ((values : List ValueOf)
        → wants need.new values ≡ (wants need.old values || origin_needs widths.now place values origin.now)) }
{
    match origin {
        Origin::Values(_) => Ok(()),
        Origin::Query(query) => put_query(alloc, widths, query.get(), place, need),
        Origin::Deleted => Ok(()),
    }
}

fn put_own<'a>(
    alloc: Global,
    infos: &[TableInfo],
    change: &'a TypedChange,
    place: usize,
    need: &mut Need<'a>,
) -> Result<(), NoMemory>
    ensures { OnOk result ((values : List ValueOf)
        → wants need.new values ≡ (wants need.old values || own_needs infos.now place values change.now)) }
{
    if change.table as usize != place {
        return Ok(());
    }
    match infos.get(place) {
        None => Ok(()),
        Some(info) => put_deleted(alloc, info, &change.deletes, need),
    }
}

/// Adds what the change needs of the table at this place.
pub(crate) fn put_change<'a>(
    alloc: Global,
    infos: &[TableInfo],
    widths: &[usize],
    change: &'a TypedChange,
    place: usize,
    need: &mut Need<'a>,
) -> Result<(), NoMemory>
    requires { widths.now ≡ widths_of infos.now }
    ensures { OnOk result ((values : List ValueOf)
        → wants need.new values ≡ (wants need.old values || change_needs infos.now place values change.now)) }
{
    put_own(alloc, infos, change, place, need)?;
    put_origin(alloc, widths, &change.origin, place, need)
}
