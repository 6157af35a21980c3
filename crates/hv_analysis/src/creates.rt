//! CREATE TABLE.

ghost use Rattle.std.specs.Prelude.{◌≡◌, IfOk, map, position, is_some};
ghost use Rattle.std.specs.List.{list_all, list_any};
ghost use Rattle.hv_logic.specs.Shapes.{is_column, bucket_names, bucket_place, shape_of};
ghost use Rattle.hv_typing.specs.Faults.{Types};
ghost use Rattle.hv_typing.specs.Creates.{place_of, is_table, is_among, repeats, names_repeat, is_bucket_column, is_array, has_array, is_array_named, arrays_route, buckets_fit, numbers_fit, is_property, is_unkept, fault_of, created};

use hv_ast::{Clustering, ColumnDefinition, CreateTable, Property, TypeName};
use hv_base::{Refusal, Text};
use hv_logic::{TableInfo, bucket_names, bucket_place, shape_of};
use hv_typing::{Logic, TypeFault};
use std::alloc::Global;

const MOST_COLUMNS: usize = 64;

const MOST_PARTITION_COLUMNS: usize = 4;

const MOST_BUCKETS: u64 = 256;

/// The place of the table of that name.
pub(crate) fn place_of(name: &Text, tables: &[TableInfo]) -> Option<usize>
    ensures { result ≡ place_of name.now tables.now }
{
    tables.iter().position(|info| info.shape.name == *name)
}

fn is_among(columns: &[ColumnDefinition], column: &ColumnDefinition) -> bool
    ensures { result ≡ is_among columns.now column.now }
{
    for other in columns {
        if other.name == column.name {
            return true;
        }
    }
    false
}

fn repeats(columns: &[ColumnDefinition]) -> bool
    ensures { result ≡ repeats columns.now }
{
    for (i, column) in columns.iter().enumerate() {
        if is_among(&columns[i + 1..], column) {
            return true;
        }
    }
    false
}

fn any_among(columns: &[ColumnDefinition], partitions: &[ColumnDefinition]) -> bool
    ensures { result ≡ list_any (is_among columns.now) partitions.now }
{
    for column in partitions {
        if is_among(columns, column) {
            return true;
        }
    }
    false
}

fn names_repeat(create: &CreateTable) -> bool
    ensures { result ≡ names_repeat create.now }
{
    let columns = create.columns.as_slice();
    let partitions = create.partitions.as_slice();
    repeats(columns) || repeats(partitions) || any_among(columns, partitions)
}

fn are_bucket_columns(columns: &[ColumnDefinition], names: &[Text]) -> bool
    ensures { result ≡ list_all (is_bucket_column columns.now) names.now }
{
    for name in names {
        if bucket_place(columns, name).is_none() {
            return false;
        }
    }
    true
}

fn has_array(column: &ColumnDefinition) -> bool
    ensures { result ≡ has_array column.now }
{
    match column.kind {
        TypeName::Array(_) => true,
        TypeName::Scalar(_) => false,
    }
}

fn any_array(columns: &[ColumnDefinition]) -> bool
    ensures { result ≡ list_any has_array columns.now }
{
    for column in columns {
        if has_array(column) {
            return true;
        }
    }
    false
}

fn is_array_named(columns: &[ColumnDefinition], name: &Text) -> bool
    ensures { result ≡ is_array_named columns.now name.now }
{
    for column in columns {
        if column.name == *name && has_array(column) {
            return true;
        }
    }
    false
}

fn any_array_named(columns: &[ColumnDefinition], names: &[Text]) -> bool
    ensures { result ≡ list_any (is_array_named columns.now) names.now }
{
    for name in names {
        if is_array_named(columns, name) {
            return true;
        }
    }
    false
}

fn arrays_route(create: &CreateTable) -> bool
    ensures { result ≡ arrays_route create.now }
{
    any_array(create.partitions.as_slice())
        || any_array_named(create.columns.as_slice(), bucket_names(&create.clustering))
}

fn buckets_fit(clustering: &Option<Clustering>) -> bool
    ensures { result ≡ buckets_fit clustering.now }
{
    match clustering {
        None => true,
        Some(clustering) => 1 <= clustering.count && clustering.count <= MOST_BUCKETS,
    }
}

fn numbers_fit(create: &CreateTable) -> bool
    ensures { result ≡ numbers_fit create.now }
{
    let columns = create.columns.len();
    let partitions = create.partitions.len();
    columns.saturating_add(partitions) <= MOST_COLUMNS
        && partitions <= MOST_PARTITION_COLUMNS
        && buckets_fit(&create.clustering)
}

fn is_property(key: &str, value: &str, property: &Property) -> bool
    ensures { result ≡ is_property key.now value.now property.now }
{
    property.key.as_str() == key && property.value.as_str() == value
}

fn is_unkept(property: &Property) -> bool
    ensures { result ≡ is_unkept property.now }
{
    is_property("transactional", "false", property)
        || is_property("transactional_properties", "insert_only", property)
}

fn any_unkept(properties: &[Property]) -> bool
    ensures { result ≡ list_any is_unkept properties.now }
{
    for property in properties {
        if is_unkept(property) {
            return true;
        }
    }
    false
}

fn fault_of(exists: bool, create: &CreateTable) -> Option<Refusal>
    ensures { result ≡ fault_of exists create.now }
{
    let columns = create.columns.as_slice();
    if exists && !create.if_absent {
        Some(Refusal::TableExists)
    } else if names_repeat(create) {
        Some(Refusal::Ambiguous)
    } else if !are_bucket_columns(columns, bucket_names(&create.clustering)) {
        Some(Refusal::NoColumn)
    } else if arrays_route(create) {
        Some(Refusal::BadType)
    } else if !numbers_fit(create) {
        Some(Refusal::Limit)
    } else if any_unkept(create.properties.as_slice()) {
        Some(Refusal::Limit)
    } else {
        None
    }
}

/// The shape of the new table, or the first fault.
#[tactic(auto, unfolding(hv_typing::specs::Creates::created))]
pub(crate) fn created(
    alloc: Global,
    tables: &[TableInfo],
    create: &CreateTable,
) -> Result<Logic, TypeFault>
    ensures { Types result (created tables.now create.now) }
{
    let exists = place_of(&create.table, tables).is_some();
    if let Some(refusal) = fault_of(exists, create) {
        return Err(TypeFault::Refused(refusal));
    }
    if exists {
        Ok(Logic::Nothing)
    } else {
        Ok(Logic::Make(shape_of(alloc, create)?))
    }
}
