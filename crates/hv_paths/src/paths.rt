//! Where everything of a store stands: one function a kind of path.
ghost use Rattle.std.specs.Prelude.{◌≡◌, map, IfOk, string_bytes};
ghost use Rattle.hv_paths.specs.Names.{path_below};
ghost use Rattle.hv_paths.specs.Paths.{path_in, journal_path, lock_path, tables_path, table_path, partition_path};

use crate::names::{outer_folders, table_name};
use hv_base::{NoMemory, TableId, Text};
use std::alloc::Global;
use std::path::Path;

/// The path of a name in a folder.
pub fn path_in(alloc: Global, folder: &str, name: &str) -> Result<String, NoMemory>
    ensures { IfOk result (λ path. string_bytes path ≡ path_in folder.now name.now) }
{
    let mut path = String::from_str(alloc, folder)?;
    path.push_str("/")?;
    path.push_str(name)?;
    Ok(path)
}

/// The journal of the store in a folder.
pub fn journal_path(alloc: Global, folder: &str) -> Result<String, NoMemory>
    ensures { IfOk result (λ path. string_bytes path ≡ journal_path folder.now) }
{
    path_in(alloc, folder, "journal")
}

/// The lock of the store in a folder.
pub fn lock_path(alloc: Global, folder: &str) -> Result<String, NoMemory>
    ensures { IfOk result (λ path. string_bytes path ≡ lock_path folder.now) }
{
    path_in(alloc, folder, "lock")
}

/// The folder of all tables of the store in a folder.
pub fn tables_path(alloc: Global, folder: &str) -> Result<String, NoMemory>
    ensures { IfOk result (λ path. string_bytes path ≡ tables_path folder.now) }
{
    path_in(alloc, folder, "tables")
}

/// The folder of a table.
pub fn table_path(alloc: Global, tables: &str, table: TableId) -> Result<String, NoMemory>
    ensures { IfOk result (λ path. string_bytes path ≡ table_path tables.now table.0) }
{
    path_in(alloc, tables, table_name(alloc, table)?.as_str())
}

/// The path that leads from a folder through folders of these names.
pub fn path_below(alloc: Global, from: &str, names: &[String]) -> Result<String, NoMemory>
    ensures { IfOk result
        (λ path. string_bytes path ≡ path_below from.now (map string_bytes names.now)) }
{
    let mut path = String::from_str(alloc, from)?;
    for name in names {
        path = path_in(alloc, path.as_str(), name.as_str())?;
    }
    Ok(path)
}

/// The folder of a partition.
pub fn partition_path(
    alloc: Global,
    tables: &str,
    table: TableId,
    partition: &Text,
) -> Result<String, NoMemory>
    ensures { IfOk result
        (λ path. string_bytes path ≡ partition_path tables.now table.0 partition.now) }
{
    let names = outer_folders(alloc, table, partition.as_str())?;
    path_below(alloc, tables, names.as_slice())
}

/// The folder in which the last name of a path stands.
pub fn outer_of(path: &str) -> &str {
    match path.rsplit_once('/') {
        Some((outer, _)) => outer,
        None => path,
    }
}

/// The path of the folder above, which for a lone name is the working folder.
pub fn above(path: &str) -> &str {
    match Path::new(path).parent() {
        Some(above) if !above.as_str().is_empty() => above.as_str(),
        _ => ".",
    }
}
