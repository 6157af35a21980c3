//! The shape of the table that a CREATE TABLE describes.

ghost use Rattle.std.specs.Prelude.{◌≡◌, IfOk, map};
ghost use Rattle.hv_logic.specs.Shapes.{bucket_names, bucket_place, place_or_first, bucket_count, shape_of};

use crate::catalog::Shape;
use crate::types::defined_columns;
use hv_ast::{Clustering, ColumnDefinition, CreateTable};
use hv_base::{Duplicate, List, NoMemory, Text};
use std::alloc::Global;

/// The names of the bucket columns.
pub fn bucket_names(clustering: &Option<Clustering>) -> &[Text]
    ensures { result.now ≡ bucket_names clustering.now }
{
    match clustering {
        None => &[],
        Some(clustering) => clustering.columns.as_slice(),
    }
}

/// The place of the column of that name.
pub fn bucket_place(columns: &[ColumnDefinition], name: &Text) -> Option<usize>
    ensures { result ≡ bucket_place columns.now name.now }
{
    columns.iter().position(|column| column.name == *name)
}

fn bucket_number(columns: &[ColumnDefinition], name: &Text) -> Result<u32, NoMemory>
    ensures { IfOk result (λ place. place ≡ place_or_first (bucket_place columns.now name.now)) }
{
    let place = match bucket_place(columns, name) {
        None => 0,
        Some(place) => place,
    };
    match u32::try_from(place) {
        Ok(place) => Ok(place),
        Err(_) => Err(NoMemory),
    }
}

fn bucket_places(
    alloc: Global,
    columns: &[ColumnDefinition],
    names: &[Text],
) -> Result<List<u32>, NoMemory>
    ensures { IfOk result (λ places. places ≡ map (λ name. place_or_first (bucket_place columns.now name)) names.now) }
{
    let mut places = Vec::with_capacity(alloc, names.len())?;
    for name in names {
        places.push(bucket_number(columns, name)?)?;
    }
    Ok(List::from_vec(places))
}

fn bucket_count(clustering: &Option<Clustering>) -> Result<u32, NoMemory>
    ensures { IfOk result (λ count. count ≡ bucket_count clustering.now) }
{
    match clustering {
        None => Ok(0),
        Some(clustering) => match u32::try_from(clustering.count) {
            Ok(count) => Ok(count),
            Err(_) => Err(NoMemory),
        },
    }
}

/// The shape of the table that a CREATE TABLE makes.
pub fn shape_of(alloc: Global, create: &CreateTable) -> Result<Shape, NoMemory>
    ensures { IfOk result (λ shape. shape ≡ shape_of create.now) }
{
    let columns = create.columns.as_slice();
    Ok(Shape {
        name: create.table.duplicate(alloc)?,
        columns: defined_columns(alloc, columns)?,
        parts: defined_columns(alloc, create.partitions.as_slice())?,
        bucketed: bucket_places(alloc, columns, bucket_names(&create.clustering))?,
        buckets: bucket_count(&create.clustering)?,
    })
}
