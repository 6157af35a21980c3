//! Where the files of a directory stand: one function a kind of path.
ghost use Rattle.std.specs.Prelude.{◌≡◌, false, map, IfOk, OnOk, string_bytes};
ghost use Rattle.hv_paths.specs.Names.{has_slash};
ghost use Rattle.hv_paths.specs.Paths.{dir_path, file_path, working_path};

use crate::fault::{Cause, FileFault};
use crate::names::{bucket_name, folders_of, has_slash};
use crate::paths::{path_below, path_in};
use hv_base::{TableId, Text};
use hv_shelf::Place;
use std::alloc::Global;

/// The folder of a directory of files. A name with a slash has none.
pub fn dir_path(
    alloc: Global,
    tables: &str,
    table: TableId,
    partition: &Text,
    dir: &Text,
) -> Result<String, FileFault>
    ensures path { IfOk result
        (λ path. string_bytes path ≡ dir_path tables.now table.0 partition.now dir.now) }
    ensures safe { OnOk result (has_slash dir.now ≡ false) }
{
    if has_slash(dir.as_str()) {
        return Err(FileFault::Device(Cause::Other));
    }
    let names = folders_of(alloc, table, partition.as_str(), dir.as_str())?;
    Ok(path_below(alloc, tables, names.as_slice())?)
}

/// A file.
pub fn file_path(alloc: Global, tables: &str, place: &Place) -> Result<String, FileFault>
    ensures { IfOk result (λ path. string_bytes path ≡ file_path tables.now place.now) }
{
    let folder = dir_path(alloc, tables, place.table, &place.partition, &place.dir)?;
    let name = bucket_name(alloc, place.bucket)?;
    Ok(path_in(alloc, folder.as_str(), name.as_str())?)
}

/// What stands beside a file while it is written.
pub fn working_path(alloc: Global, tables: &str, place: &Place) -> Result<String, FileFault>
    ensures { IfOk result (λ path. string_bytes path ≡ working_path tables.now place.now) }
{
    let folder = dir_path(alloc, tables, place.table, &place.partition, &place.dir)?;
    let name = bucket_name(alloc, place.bucket)?;
    let mut beside = String::from_str(alloc, ".")?;
    beside.push_str(name.as_str())?;
    Ok(path_in(alloc, folder.as_str(), beside.as_str())?)
}
