ghost use Rattle.std.specs.Prelude.{◌≡◌, ◌==◌, ◌<◌, ◌++◌, [], not, find, filter, length, slice_index_or, IfOk, MatchOption, None, Some};
ghost use Rattle.std.specs.List.{AllByRecursion};
ghost use Rattle.address_space.specs.Runs.{IsFileRun};
ghost use Rattle.file_runs.specs.Records.{AreRuns, IsInhabited, files_in};

use crate::runs::{count_of, ends_of, file_of, find_among, put_runs, runs_of, runs_without};
use crate::shared_run::SharedRun;
use address_space::{FileId, FileRecord, FileRun};
use std::alloc::{AllocError, Global};
use std::marker::Model;

/// Files in rising ids, at rising addresses that none of them shares. A change shares what it leaves as it is: a deletion copies one run.
#[derive(Drop)]
pub struct Records {
    runs: Vec<SharedRun>,
    // how many files there are up to the end of each run
    ends: Vec<usize>,
    count: usize,
}

impl Model for Records {
    ghost use Rattle.std.specs.Prelude.{List};
    ghost use Rattle.address_space.specs.Runs.{FileEntry};
    ghost use Rattle.file_runs.specs.Records.{IsOf, files_in};

    ghost Value = { List FileEntry };

    ghost view = { λ r. files_in r.runs.items };

    ghost invariant = { λ r. IsOf r.runs.items r.ends.items r.count };
}

impl Records {
    /// No files. It takes no memory.
    pub fn new(alloc: Global) -> Self
        ensures { result ≡ [] }
    {
        Records {
            runs: Vec::new(alloc),
            ends: Vec::new(alloc),
            count: 0,
        }
    }

    /// The files of a run, in runs that can be shared.
    pub fn of(alloc: Global, files: FileRun) -> Result<Self, AllocError>
        ensures value { IfOk result (λ records. records ≡ files) }
        ensures run { IfOk result (λ _. IsFileRun files) }
    {
        let runs = runs_of(alloc, files.as_slice())?;
        let records = Records::of_runs(alloc, runs)?;
        Ok(records)
    }

    fn of_runs(alloc: Global, runs: Vec<SharedRun>) -> Result<Self, AllocError>
        requires { AreRuns runs.items }
        ensures { IfOk result (λ records. records ≡ files_in runs.items) }
    {
        let ends = ends_of(alloc, &runs)?;
        let count = count_of(&runs);
        Ok(Records { runs, ends, count })
    }

    /// The number of files. It takes one step.
    pub fn len(&self) -> usize
        ensures value { result ≡ length self.now }
        ensures run { IsFileRun self.now }
    {
        self.count
    }

    /// The file at place `i`, counted from 0. Its run is found by halving.
    pub fn get(&self, i: usize) -> &FileRecord
        requires { i < length self.now }
        ensures value { result.now ≡ slice_index_or self.now i result.now }
        ensures run { IsFileRun self.now }
    {
        file_of(self.runs.as_slice(), self.ends.as_slice(), i)
    }

    /// The runs, in order.
    pub fn runs(&self) -> &[SharedRun]
        ensures value { files_in result.now ≡ self.now }
        ensures runs { AreRuns result.now }
        ensures run { IsFileRun self.now }
    {
        self.runs.as_slice()
    }

    /// The file with this id, found by halving: first its run, then its place there.
    pub fn find(&self, id: FileId) -> Option<&FileRecord>
        ensures value { MatchOption result (find (λ file. file.id == id.0) self.now ≡ None)
            (λ file. find (λ file. file.id == id.0) self.now ≡ Some file.now) }
        ensures run { IsFileRun self.now }
    {
        find_among(self.runs.as_slice(), id)
    }

    /// The files except those with this id. All runs but one are shared.
    pub fn without(&self, id: FileId) -> Result<Self, AllocError>
        ensures { IfOk result (λ left. left ≡ filter (λ file. not (file.id == id.0)) self.now) }
    {
        let alloc = *self.runs.allocator();
        let runs = runs_without(alloc, self.runs.as_slice(), id)?;
        let left = Records::of_runs(alloc, runs)?;
        Ok(left)
    }

    /// These files, and after them those of `next`, whose runs are shared, except that two that are short enough become one.
    pub fn and(self, next: &Records) -> Result<Self, AllocError>
        requires { IsFileRun (self ++ next.now) }
        ensures { IfOk result (λ records. records ≡ self ++ next.now) }
    {
        let alloc = *next.runs.allocator();
        let mut runs = self.into_runs();
        put_runs(&mut runs, next.runs.as_slice())?;
        let records = Records::of_runs(alloc, runs)?;
        Ok(records)
    }

    fn into_runs(self) -> Vec<SharedRun>
        ensures files { files_in result.items ≡ self }
        ensures inhabited { AllByRecursion IsInhabited result.items }
    {
        let Records {
            runs,
            ends: _ends,
            count: _count,
        } = self;
        runs
    }
}
