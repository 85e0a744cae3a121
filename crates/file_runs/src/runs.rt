ghost use Rattle.std.specs.Prelude.{◌≡◌, ◌==◌, ◌<◌, ◌++◌, ◌∷◌, [], ◌≤◌, not, nat_le, nat_lt, find, filter};
ghost use Rattle.std.specs.Prelude.{length, slice_index_or, IfOk, IfSome, OnOk, MatchOption, None, Some};
ghost use Rattle.std.specs.List.{AllByRecursion, prefix_len};
ghost use Rattle.std.specs.List.Sorted.{IsNonDecreasingBy};
ghost use Rattle.address_space.specs.Runs.{IsFileRun, Precedes, last_file};
ghost use Rattle.file_runs.specs.Records.{AreRuns, IsInhabited, ends_from, files_in, last_id, left_of, start_at};

use crate::shared_run::SharedRun;
use address_space::{FileId, FileRecord, FileRun, SharedRecord};
use std::alloc::{AllocError, Global};

/// A deletion copies at most this many records, and the places of all runs: for 100,000 files some 250 and 400.
const RUN_MOST: usize = 256;

/// The files, in runs of at most `RUN_MOST`.
pub(crate) fn runs_of(alloc: Global, files: &[SharedRecord]) -> Result<Vec<SharedRun>, AllocError>
    requires { IsFileRun files.now }
    ensures value { IfOk result (λ runs. files_in runs.items ≡ files.now) }
    ensures runs { IfOk result (λ runs. AreRuns runs.items) }
{
    let mut runs = Vec::new(alloc);
    let mut rest = files;
    while rest.len() > 0 {
        let (front, behind) = rest.split_at(cut(rest.len()));
        runs.push(run_of(alloc, front)?)?;
        rest = behind;
    }
    Ok(runs)
}

/// How many of this many files the next run has.
fn cut(count: usize) -> usize
    requires { 0 < count }
    ensures some { 0 < result }
    ensures within { result ≤ count }
{
    count.min(RUN_MOST)
}

fn run_of(alloc: Global, files: &[SharedRecord]) -> Result<SharedRun, AllocError>
    requires some { 0 < length files.now }
    requires run { IsFileRun files.now }
    ensures { IfOk result (λ run. run ≡ files.now) }
{
    let mut run = FileRun::new(alloc);
    put_records(&mut run, files)?;
    SharedRun::new(alloc, run)
}

/// Appends the records. They are shared.
fn put_records(files: &mut FileRun, records: &[SharedRecord]) -> Result<(), AllocError>
    requires { IsFileRun (files.old ++ records.now) }
    ensures { OnOk result (files.new ≡ files.old ++ records.now) }
{
    for record in records {
        files.push_shared(record.share()?)?;
    }
    Ok(())
}

/// How many files the runs have together.
pub(crate) fn count_of(runs: &[SharedRun]) -> usize
    requires { IsFileRun (files_in runs.now) }
    ensures { result ≡ length (files_in runs.now) }
{
    let mut count = 0;
    for run in runs {
        count += run.as_slice().len();
    }
    count
}

/// How many files there are up to the end of each run.
pub(crate) fn ends_of(alloc: Global, runs: &[SharedRun]) -> Result<Vec<usize>, AllocError>
    requires { IsFileRun (files_in runs.now) }
    ensures { IfOk result (λ ends. ends.items ≡ ends_from 0 runs.now) }
{
    let mut ends = Vec::with_capacity(alloc, runs.len())?;
    let mut count = 0;
    for run in runs {
        count += run.as_slice().len();
        ends.push(count)?;
    }
    Ok(ends)
}

/// The file at place `i` of the runs.
pub(crate) fn file_of<'a>(runs: &'a [SharedRun], ends: &[usize], i: usize) -> &'a FileRecord
    requires ends { ends.now ≡ ends_from 0 runs.now }
    requires within { i < length (files_in runs.now) }
    ensures { result.now ≡ slice_index_or (files_in runs.now) i result.now }
{
    let at = count_upto(ends, i);
    let files = runs[at].as_slice();
    files[i - start_of(ends, at)].record()
}

/// How many files come before the run at a place.
fn start_of(ends: &[usize], at: usize) -> usize
    requires { at ≤ length ends.now }
    ensures { result ≡ start_at 0 ends.now at }
{
    if at == 0 { 0 } else { ends[at - 1] }
}

/// How many of the runs end at place `i` or before it.
fn count_upto(ends: &[usize], i: usize) -> usize
    requires { IsNonDecreasingBy (λ end. end) ends.now }
    ensures { result ≡ prefix_len (λ end. nat_le end i) ends.now }
{
    ends.partition_point(
        |end: &usize| -> bool
            ensures { result ≡ nat_le end.now i }
        { *end <= i },
    )
}

/// The file of the runs with this id.
pub(crate) fn find_among(runs: &[SharedRun], id: FileId) -> Option<&FileRecord>
    requires { AreRuns runs.now }
    ensures { MatchOption result (find (λ file. file.id == id.0) (files_in runs.now) ≡ None)
        (λ file. find (λ file. file.id == id.0) (files_in runs.now) ≡ Some file.now) }
{
    match runs.get(count_before(runs, id)) {
        Some(run) => find_in(run.as_slice(), id),
        None => None,
    }
}

/// How many of the runs end before the id.
fn count_before(runs: &[SharedRun], id: FileId) -> usize
    requires { AreRuns runs.now }
    ensures { result ≡ prefix_len (λ files. nat_lt (last_id files) id.0) runs.now }
{
    runs.partition_point(
        |run: &SharedRun| -> bool
            ensures { result ≡ nat_lt (last_id run.now) id.0 }
        { run.last_id() < id.0 },
    )
}

/// The file with this id, found by halving.
fn find_in(files: &[SharedRecord], id: FileId) -> Option<&FileRecord>
    requires { IsFileRun files.now }
    ensures { MatchOption result (find (λ file. file.id == id.0) files.now ≡ None)
        (λ file. find (λ file. file.id == id.0) files.now ≡ Some file.now) }
{
    let place = files.binary_search_by_key(
        &id.0,
        |file: &SharedRecord| -> u64
            ensures { result ≡ file.now.id }
        { file.record().id.0 },
    );
    match place {
        Ok(i) => Some(files[i].record()),
        Err(_) => None,
    }
}

/// The runs without the file of this id: the one that has it is copied, and the others are shared.
pub(crate) fn runs_without(
    alloc: Global,
    runs: &[SharedRun],
    id: FileId,
) -> Result<Vec<SharedRun>, AllocError>
    requires { AreRuns runs.now }
    ensures value { IfOk result (λ left. files_in left.items ≡ filter (λ file. not (file.id == id.0)) (files_in runs.now)) }
    ensures runs { IfOk result (λ left. AreRuns left.items) }
{
    let (before, reached) = runs.split_at(count_before(runs, id));
    let mut left = Vec::with_capacity(alloc, runs.len())?;
    put_shares(&mut left, before)?;
    put_rest(alloc, &mut left, reached, id)?;
    Ok(left)
}

/// Appends the runs, the first of them without the file of this id.
fn put_rest(
    alloc: Global,
    into: &mut Vec<SharedRun>,
    runs: &[SharedRun],
    id: FileId,
) -> Result<(), AllocError>
    ensures value { OnOk result (files_in into.new.items ≡ files_in into.old.items ++ left_of id.0 runs.now) }
    ensures inhabited { OnOk result
        (AllByRecursion IsInhabited into.old.items → AllByRecursion IsInhabited runs.now → AllByRecursion IsInhabited into.new.items) }
{
    let [run, after @ ..] = runs else {
        return Ok(());
    };
    put_without(alloc, into, run, id)?;
    put_shares(into, after)
}

/// Appends the runs. They are shared.
fn put_shares(into: &mut Vec<SharedRun>, runs: &[SharedRun]) -> Result<(), AllocError>
    ensures { OnOk result (into.new.items ≡ into.old.items ++ runs.now) }
{
    for run in runs {
        put_share(into, run)?;
    }
    Ok(())
}

/// Appends the run. It is shared.
#[inline]
fn put_share(into: &mut Vec<SharedRun>, run: &SharedRun) -> Result<(), AllocError>
    ensures value { OnOk result (into.new.items ≡ into.old.items ++ run.now ∷ []) }
    ensures inhabited { OnOk result (AllByRecursion IsInhabited into.old.items → AllByRecursion IsInhabited into.new.items) }
{
    into.push(run.share()?)?;
    Ok(())
}

/// Appends a run without the file of this id, if a file is left.
fn put_without(
    alloc: Global,
    into: &mut Vec<SharedRun>,
    run: &SharedRun,
    id: FileId,
) -> Result<(), AllocError>
    ensures value { OnOk result (files_in into.new.items ≡ files_in into.old.items ++ filter (λ file. not (file.id == id.0)) run.now) }
    ensures inhabited { OnOk result (AllByRecursion IsInhabited into.old.items → AllByRecursion IsInhabited into.new.items) }
{
    let left = records_without(alloc, run.as_slice(), id)?;
    put_files(alloc, into, left)
}

/// Appends files as a run of their own, if there are any.
fn put_files(alloc: Global, into: &mut Vec<SharedRun>, files: FileRun) -> Result<(), AllocError>
    ensures value { OnOk result (files_in into.new.items ≡ files_in into.old.items ++ files) }
    ensures inhabited { OnOk result (AllByRecursion IsInhabited into.old.items → AllByRecursion IsInhabited into.new.items) }
{
    if files.len() == 0 {
        return Ok(());
    }
    into.push(SharedRun::new(alloc, files)?)?;
    Ok(())
}

/// The records except those with this id. They are shared.
fn records_without(alloc: Global, files: &[SharedRecord], id: FileId) -> Result<FileRun, AllocError>
    requires { IsFileRun files.now }
    ensures { IfOk result (λ left. left ≡ filter (λ file. not (file.id == id.0)) files.now) }
{
    let mut left = FileRun::new(alloc);
    for file in files {
        put_other(&mut left, file, id)?;
    }
    Ok(left)
}

/// Appends the record, unless it has this id. It is shared.
#[inline]
fn put_other(files: &mut FileRun, record: &SharedRecord, id: FileId) -> Result<(), AllocError>
    requires { IfSome (last_file files.old) (λ last. Precedes last record.now) }
    ensures { OnOk result (files.new ≡ files.old ++ filter (λ file. not (file.id == id.0)) (record.now ∷ [])) }
{
    if record.record().id == id {
        return Ok(());
    }
    files.push_shared(record.share()?)
}

/// Appends the runs.
pub(crate) fn put_runs(into: &mut Vec<SharedRun>, runs: &[SharedRun]) -> Result<(), AllocError>
    requires { IsFileRun (files_in into.old.items ++ files_in runs.now) }
    ensures value { OnOk result (files_in into.new.items ≡ files_in into.old.items ++ files_in runs.now) }
    ensures inhabited { OnOk result (AllByRecursion IsInhabited into.old.items → AllByRecursion IsInhabited into.new.items) }
{
    for run in runs {
        put_run(into, run)?;
    }
    Ok(())
}

/// Appends a run, joined with the last one if both are short.
fn put_run(into: &mut Vec<SharedRun>, run: &SharedRun) -> Result<(), AllocError>
    requires { IsFileRun (files_in into.old.items ++ run.now) }
    ensures value { OnOk result (files_in into.new.items ≡ files_in into.old.items ++ run.now) }
    ensures inhabited { OnOk result (AllByRecursion IsInhabited into.old.items → AllByRecursion IsInhabited into.new.items) }
{
    match into.pop() {
        Some(last) => put_two(into, last, run),
        None => put_share(into, run),
    }
}

/// Appends two runs, as one if both are short.
fn put_two(into: &mut Vec<SharedRun>, last: SharedRun, run: &SharedRun) -> Result<(), AllocError>
    requires { IsFileRun (last ++ run.now) }
    ensures value { OnOk result (files_in into.new.items ≡ files_in into.old.items ++ last ++ run.now) }
    ensures inhabited { OnOk result (AllByRecursion IsInhabited into.old.items → AllByRecursion IsInhabited into.new.items) }
{
    if last.as_slice().len() <= RUN_MOST / 2 && run.as_slice().len() <= RUN_MOST / 2 {
        return put_joined(into, &last, run);
    }
    into.push(last)?;
    put_share(into, run)
}

/// Appends the files of two runs as one run.
fn put_joined(
    into: &mut Vec<SharedRun>,
    last: &SharedRun,
    run: &SharedRun,
) -> Result<(), AllocError>
    requires { IsFileRun (last.now ++ run.now) }
    ensures value { OnOk result (files_in into.new.items ≡ files_in into.old.items ++ last.now ++ run.now) }
    ensures inhabited { OnOk result (AllByRecursion IsInhabited into.old.items → AllByRecursion IsInhabited into.new.items) }
{
    let alloc = *into.allocator();
    let mut files = FileRun::new(alloc);
    put_records(&mut files, last.as_slice())?;
    put_records(&mut files, run.as_slice())?;
    put_files(alloc, into, files)
}
