ghost use Rattle.std.specs.Prelude.{◌≡◌, ◌<◌, ◌++◌, ◌^◌, ℕ, map, Some, IfOk, IfSome, OnOk, string_bytes};
ghost use Rattle.std.specs.Char.{is_ascii_digit};
ghost use Rattle.std.specs.List.{list_all};
ghost use Rattle.hv_paths.specs.Paths.{outer_folders};
ghost use Rattle.hv_paths.specs.Names.{is_marked, has_equals, piece_name, dir_name, padded, table_name, is_table, bucket_name, Names, folders_of, pieces_of, has_slash};

use hv_base::{NoMemory, TableId};
use std::alloc::Global;

/// What a name in the folder of a table, or of a piece of a partition's text, stands for.
#[derive(Clone, Copy)]
pub enum Entry<'a> {
    /// A piece of a partition's text.
    Piece(&'a str),
    /// A directory of files.
    Dir(&'a str),
    /// Nothing that this store has put there.
    Other,
}

/// Whether a name that stands for itself can't be this: it is empty, or begins with a dot or a mark.
fn is_marked(name: &str) -> bool
    ensures { result ≡ is_marked name.now }
{
    match name.as_bytes().first() {
        Some(byte) => *byte == b'.' || *byte == b'%' || *byte == b'@',
        None => true,
    }
}

fn has_equals(name: &str) -> bool
    ensures { result ≡ has_equals name.now }
{
    name.as_bytes().iter().any(|byte| *byte == b'=')
}

/// Whether a name is one that this store gives: a piece of a partition's text, or a directory of
/// Hive's kinds.
pub fn is_ours(name: &str) -> bool {
    has_equals(name)
        || name.starts_with('%')
        || name.starts_with('@')
        || name.starts_with("delta_")
        || name.starts_with("delete_delta_")
        || name.starts_with("base_")
}

/// Whether a name would lead to another folder.
pub fn has_slash(name: &str) -> bool
    ensures { result ≡ has_slash name.now }
{
    name.as_bytes().iter().any(|byte| *byte == b'/')
}

/// The name of the folder of one piece of a partition's text.
fn piece_name(alloc: Global, piece: &str) -> Result<String, NoMemory>
    ensures { IfOk result (λ name. string_bytes name ≡ piece_name piece.now) }
{
    let plain = has_equals(piece) && !is_marked(piece);
    let mut name = String::from_str(alloc, if plain { "" } else { "%" })?;
    name.push_str(piece)?;
    Ok(name)
}

/// The name of the folder of a directory of files.
pub fn dir_name(alloc: Global, dir: &str) -> Result<String, NoMemory>
    ensures { IfOk result (λ name. string_bytes name ≡ dir_name dir.now) }
{
    let marked = has_equals(dir) || is_marked(dir);
    let mut name = String::from_str(alloc, if marked { "@" } else { "" })?;
    name.push_str(dir)?;
    Ok(name)
}

/// Tells what a name stands for.
pub fn entry_of(name: &str) -> Entry<'_>
    ensures { Names result name.now }
{
    if let Some(piece) = name.strip_prefix('%') {
        let plain = has_equals(piece) && !is_marked(piece);
        return if plain {
            Entry::Other
        } else {
            Entry::Piece(piece)
        };
    }
    if let Some(dir) = name.strip_prefix('@') {
        let marked = has_equals(dir) || is_marked(dir);
        return if marked {
            Entry::Dir(dir)
        } else {
            Entry::Other
        };
    }
    if is_marked(name) {
        Entry::Other
    } else if has_equals(name) {
        Entry::Piece(name)
    } else {
        Entry::Dir(name)
    }
}

/// Appends a number in decimal digits, with zeros in front up to a width.
fn push_number(alloc: Global, name: &mut String, width: usize, number: u64) -> Result<(), NoMemory>
    ensures { OnOk result
        (string_bytes name.new ≡ string_bytes name.old ++ padded width number) }
{
    let digits = format!(in alloc; "{number}")?;
    for _ in 0..width.saturating_sub(digits.len()) {
        name.push_str("0")?;
    }
    name.push_str(digits.as_str())?;
    Ok(())
}

/// The name of a table's folder, as `0000001`.
pub fn table_name(alloc: Global, table: TableId) -> Result<String, NoMemory>
    ensures { IfOk result (λ name. string_bytes name ≡ table_name table.0) }
{
    let mut name = String::new(alloc);
    push_number(alloc, &mut name, 7, table.0)?;
    Ok(name)
}

fn has_digits_alone(bytes: &[u8]) -> bool
    ensures { result ≡ list_all is_ascii_digit bytes.now }
{
    bytes.iter().all(|byte| byte.is_ascii_digit())
}

/// Whether a folder of this name, in the folder of all tables, may be a table's.
pub fn is_table(name: &str) -> bool
    ensures { result ≡ is_table name.now }
{
    if name.is_empty() {
        false
    } else {
        has_digits_alone(name.as_bytes())
    }
}

/// The name of a file, as `bucket_00000`.
pub fn bucket_name(alloc: Global, bucket: u32) -> Result<String, NoMemory>
    ensures { IfOk result (λ name. string_bytes name ≡ bucket_name bucket) }
{
    let mut name = String::from_str(alloc, "bucket_")?;
    push_number(alloc, &mut name, 5, u64::from(bucket))?;
    Ok(name)
}

/// The bucket of the file that has this name, None where it is no name of a file.
pub fn read_bucket(alloc: Global, name: &str) -> Result<Option<u32>, NoMemory>
    ensures found { IfOk result (λ found. IfSome found (λ bucket. bucket_name bucket ≡ name.now)) }
    ensures every { IfOk result (λ found. (bucket : ℕ) → bucket < 2 ^ 32
        → bucket_name bucket ≡ name.now → found ≡ Some bucket) }
{
    let Some(digits) = name.strip_prefix("bucket_") else {
        return Ok(None);
    };
    let Ok(bucket) = digits.parse::<u32>() else {
        return Ok(None);
    };
    let spelled = bucket_name(alloc, bucket)?;
    Ok(if spelled.as_str() == name {
        Some(bucket)
    } else {
        None
    })
}

/// The names of the folders from the folder of all tables down to a partition's.
pub fn outer_folders(
    alloc: Global,
    table: TableId,
    partition: &str,
) -> Result<Vec<String>, NoMemory>
    ensures { IfOk result
        (λ names. map string_bytes names.items ≡ outer_folders table.0 partition.now) }
{
    let mut names = Vec::new(alloc);
    names.push(table_name(alloc, table)?)?;
    push_pieces(alloc, &mut names, partition)?;
    Ok(names)
}

/// The names of the folders from the folder of all tables down to a directory.
pub fn folders_of(
    alloc: Global,
    table: TableId,
    partition: &str,
    dir: &str,
) -> Result<Vec<String>, NoMemory>
    ensures { IfOk result
        (λ names. map string_bytes names.items ≡ folders_of table.0 partition.now dir.now) }
{
    let mut names = outer_folders(alloc, table, partition)?;
    names.push(dir_name(alloc, dir)?)?;
    Ok(names)
}

/// Appends the names of the folders of a partition's text.
fn push_pieces(alloc: Global, names: &mut Vec<String>, text: &str) -> Result<(), NoMemory>
    ensures { OnOk result (map string_bytes names.new.items
        ≡ map string_bytes names.old.items ++ map piece_name (pieces_of text.now)) }
{
    if text.is_empty() {
        return Ok(());
    }
    for piece in text.split('/') {
        names.push(piece_name(alloc, piece)?)?;
    }
    Ok(())
}
