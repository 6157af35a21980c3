ghost use Rattle.std.specs.Prelude.{◌≡◌, ◌++◌, true, false, None, filter, map, IfOk, OnOk, IsPermutation, IsSorted};
ghost use Rattle.std.specs.Ordering.{nat_cmp};
ghost use Rattle.std.specs.Cmp.Lexicographic.{slice_cmp};
ghost use Rattle.std.specs.List.{AllByRecursion, flat_map};
ghost use Rattle.hv_dirs.specs.Choice.{sight_of, IsChosen};
ghost use Rattle.hv_choosing.specs.Listing.{IsNamed};
ghost use Rattle.hv_choosing.specs.Taken.{names_of, text_at, base_at, texts_at, is_in_one, run_taken, files_taken};

use crate::listing::DirFile;
use crate::runs::run_length;
use hv_base::{Duplicate, NoMemory, Text};
use hv_dirs::{DirName, choose};
use hv_wids::WriteIdList;
use std::alloc::Global;

/// The files that a reader takes: those of rows, in bases and deltas, and those of deletes, in delete deltas.
#[derive(Drop)]
pub struct Taken {
    pub inserts: Vec<DirFile>,
    pub deletes: Vec<DirFile>,
}

fn names_of(alloc: Global, run: &[DirFile]) -> Result<Vec<DirName>, NoMemory>
    ensures { IfOk result (λ names. names.items ≡ names_of run.now) }
{
    let mut names = Vec::new(alloc);
    for file in run {
        names.push(file.dir.name())?;
    }
    Ok(names)
}

/// Appends the name of the directory of the file at this place.
fn push_text(
    alloc: Global,
    run: &[DirFile],
    place: usize,
    texts: &mut Vec<Text>,
) -> Result<(), NoMemory>
    ensures { OnOk result (texts.new.items ≡ texts.old.items ++ text_at run.now place) }
{
    match run.get(place) {
        Some(file) => Ok(texts.push(file.place.dir.duplicate(alloc)?)?),
        None => Ok(()),
    }
}

fn push_base(
    alloc: Global,
    run: &[DirFile],
    base: Option<usize>,
    texts: &mut Vec<Text>,
) -> Result<(), NoMemory>
    ensures { OnOk result (texts.new.items ≡ texts.old.items ++ base_at run.now base) }
{
    match base {
        Some(place) => push_text(alloc, run, place, texts),
        None => Ok(()),
    }
}

fn push_texts(
    alloc: Global,
    run: &[DirFile],
    places: &[usize],
    texts: &mut Vec<Text>,
) -> Result<(), NoMemory>
    ensures { OnOk result (texts.new.items ≡ texts.old.items ++ flat_map (text_at run.now) places.now) }
{
    for place in places {
        push_text(alloc, run, *place, texts)?;
    }
    Ok(())
}

/// The names of the directories of the files at these places.
fn texts_at(
    alloc: Global,
    run: &[DirFile],
    base: Option<usize>,
    places: &[usize],
) -> Result<Vec<Text>, NoMemory>
    ensures { IfOk result (λ texts. texts.items ≡ texts_at run.now base places.now) }
{
    let mut texts = Vec::new(alloc);
    push_base(alloc, run, base, &mut texts)?;
    push_texts(alloc, run, places, &mut texts)?;
    Ok(texts)
}

/// The same texts, rising.
fn rising(texts: Vec<Text>) -> Result<Vec<Text>, NoMemory>
    ensures sorted { IfOk result (λ found. IsSorted (slice_cmp nat_cmp) found.items) }
    ensures same { IfOk result (λ found. IsPermutation texts.items found.items) }
{
    let mut texts = texts;
    texts.sort()?;
    Ok(texts)
}

/// Whether the file's directory has one of these names, which rise.
fn is_in_one(texts: &[Text], file: &DirFile) -> bool
    requires { IsSorted (slice_cmp nat_cmp) texts.now }
    ensures { result ≡ is_in_one texts.now file.now }
{
    texts.binary_search(&file.place.dir).is_ok()
}

/// Appends the files of these in directories of these names, which rise.
fn push_files(
    alloc: Global,
    run: &[DirFile],
    texts: &[Text],
    files: &mut Vec<DirFile>,
) -> Result<(), NoMemory>
    requires { IsSorted (slice_cmp nat_cmp) texts.now }
    ensures { OnOk result (files.new.items ≡ files.old.items ++ filter (is_in_one texts.now) run.now) }
{
    for file in run {
        if is_in_one(texts, file) {
            files.push(file.duplicate(alloc)?)?;
        }
    }
    Ok(())
}

/// Appends the files of these in the directories of those at these places.
fn push_at(
    alloc: Global,
    run: &[DirFile],
    base: Option<usize>,
    places: &[usize],
    files: &mut Vec<DirFile>,
) -> Result<(), NoMemory>
    ensures { OnOk result (files.new.items
        ≡ files.old.items ++ filter (is_in_one (texts_at run.now base places.now)) run.now) }
{
    let texts = rising(texts_at(alloc, run, base, places)?)?;
    push_files(alloc, run, &texts, files)
}

/// Appends the files of one partition that are taken.
fn take_run(
    alloc: Global,
    list: &WriteIdList,
    run: &[DirFile],
    taken: &mut Taken,
) -> Result<(), NoMemory>
    requires { AllByRecursion IsNamed run.now }
    ensures inserts { OnOk result (taken.new.inserts.items
        ≡ taken.old.inserts.items ++ run_taken false (sight_of list.now) run.now) }
    ensures deletes { OnOk result (taken.new.deletes.items
        ≡ taken.old.deletes.items ++ run_taken true (sight_of list.now) run.now) }
{
    let names = names_of(alloc, run)?;
    let choice = choose(alloc, &names, list)?;
    push_at(alloc, run, choice.base, &choice.deltas, &mut taken.inserts)?;
    push_at(alloc, run, None, &choice.deletes, &mut taken.deletes)
}

/// Of a table's files, partition by partition, those that a reader takes under its list.
pub fn take_files(alloc: Global, list: &WriteIdList, files: &[DirFile]) -> Result<Taken, NoMemory>
    requires { AllByRecursion IsNamed files.now }
    ensures inserts { IfOk result (λ taken. taken.inserts.items ≡ files_taken false list.now files.now) }
    ensures deletes { IfOk result (λ taken. taken.deletes.items ≡ files_taken true list.now files.now) }
{
    let mut taken = Taken {
        inserts: Vec::new(alloc),
        deletes: Vec::new(alloc),
    };
    let mut rest = files;
    for _turn in 0..files.len() {
        let (run, behind) = rest.split_at(run_length(rest));
        take_run(alloc, list, run, &mut taken)?;
        rest = behind;
    }
    Ok(taken)
}
