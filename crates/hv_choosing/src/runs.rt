ghost use Rattle.std.specs.Prelude.{◌≡◌, ◌≤◌, length};
ghost use Rattle.std.specs.List.{prefix_len};
ghost use Rattle.hv_choosing.specs.Taken.{is_beside, run_length};

use crate::listing::DirFile;

/// How many of these files at the front are of the first one's partition.
fn count_beside(first: &DirFile, files: &[DirFile]) -> usize
    ensures { result ≡ prefix_len (is_beside first.now) files.now }
{
    files
        .iter()
        .take_while(|file| file.place.partition == first.place.partition)
        .count()
}

/// How many of these files at the front are of one partition.
pub fn run_length(files: &[DirFile]) -> usize
    ensures value { result ≡ run_length files.now }
    ensures bound { result ≤ length files.now }
{
    match files.first() {
        Some(first) => count_beside(first, files),
        None => 0,
    }
}
