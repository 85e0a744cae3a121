//! The answer to a line that is not a query, and its text.
ghost use Rattle.std.specs.Prelude.{◌≡◌, ◌++◌, OnOk};
ghost use Rattle.std.specs.List.{list_any};
ghost use Rattle.file_runs.specs.Records.{files_in};
ghost use Rattle.live_version.specs.Contents.{VersionContent, files_of};
ghost use Rattle.script_lang.specs.Answers.{is_refusal};
ghost use Rattle.script_lang.specs.Lines.{text_of_lines};
ghost use Rattle.answer_text.specs.Texts.{listing_lines, record_lines};
ghost use Rattle.answer_text.specs.Given.{answer_lines, is_change};

use address_space::SharedRecord;
use file_runs::SharedRun;
use live_version::{Slot, Version};
use script_lang::{
    Refusal, put_file, put_gone, put_merging, put_opened, put_record, put_refusal, put_saved,
    put_shards, put_total, put_unwatched, put_watch,
};
use std::alloc::AllocError;

/// The answer to a line that is not a query.
#[derive(Clone, Copy)]
pub enum Answer {
    /// A file got this id and these addresses, the first and the last.
    Added(u64, u64, u64),
    /// The file with this id is gone.
    Gone(u64),
    /// The surviving files, which the version has.
    Files,
    /// A merge is pending.
    Merging,
    /// How many slots there are.
    Slots(u64),
    /// An image of this number of bytes was kept.
    Saved(u64),
    /// An image of this number of files was opened.
    Opened(u64),
    /// A query is watched, by this number.
    Watching(u64),
    /// The watch with this number is ended.
    Unwatched(u64),
    /// The line is refused.
    Refused(Refusal),
}

impl Answer {
    /// Whether the collection or a file was changed. Such a line is completed once that is done, and every other line once its answer is
    /// made.
    pub fn is_change(&self) -> bool
        ensures { result ≡ is_change self.now }
    {
        match self {
            Answer::Added(_, _, _) | Answer::Gone(_) | Answer::Saved(_) | Answer::Opened(_) => true,
            Answer::Files | Answer::Merging | Answer::Slots(_) => false,
            Answer::Watching(_) | Answer::Unwatched(_) | Answer::Refused(_) => false,
        }
    }

    /// Whether the line is refused.
    pub fn is_refused(&self) -> bool
        ensures { (version : VersionContent) → result ≡ list_any is_refusal (answer_lines version self.now) }
    {
        match self {
            Answer::Refused(_) => true,
            Answer::Files => false,
            _ => false,
        }
    }
}

/// Appends a line for each of some files.
fn put_files(out: &mut Vec<u8>, files: &[SharedRecord]) -> Result<(), AllocError>
    ensures { OnOk result (out.new.items ≡ out.old.items ++ text_of_lines (record_lines files.now)) }
{
    for file in files {
        put_record(out, file.record())?;
    }
    Ok(())
}

/// Appends a line for each file of some runs.
fn put_runs(out: &mut Vec<u8>, runs: &[SharedRun]) -> Result<(), AllocError>
    ensures { OnOk result (out.new.items ≡ out.old.items ++ text_of_lines (record_lines (files_in runs.now))) }
{
    for run in runs {
        put_files(out, run.as_slice())?;
    }
    Ok(())
}

/// Appends a line for each surviving file of some slots.
fn put_slots(out: &mut Vec<u8>, slots: &[Slot]) -> Result<(), AllocError>
    ensures { OnOk result (out.new.items ≡ out.old.items ++ text_of_lines (record_lines (files_of slots.now))) }
{
    for slot in slots {
        put_runs(out, slot.records().runs())?;
    }
    Ok(())
}

/// Appends the list of the surviving files.
fn put_listing(out: &mut Vec<u8>, version: &Version) -> Result<(), AllocError>
    ensures { OnOk result (out.new.items ≡ out.old.items ++ text_of_lines (listing_lines (files_of version.now.slots))) }
{
    put_slots(out, version.slots())?;
    put_total(out, version.file_count())?;
    Ok(())
}

/// Appends an answer over the version that the line leaves.
pub fn put_answer(out: &mut Vec<u8>, version: &Version, answer: &Answer) -> Result<(), AllocError>
    ensures { OnOk result (out.new.items ≡ out.old.items ++ text_of_lines (answer_lines version.now answer.now)) }
{
    match answer {
        Answer::Added(id, first, last) => put_file(out, *id, *first, *last),
        Answer::Gone(id) => put_gone(out, *id),
        Answer::Files => put_listing(out, version),
        Answer::Merging => put_merging(out),
        Answer::Slots(count) => put_shards(out, *count),
        Answer::Saved(bytes) => put_saved(out, *bytes),
        Answer::Opened(files) => put_opened(out, *files),
        Answer::Watching(number) => put_watch(out, *number),
        Answer::Unwatched(number) => put_unwatched(out, *number),
        Answer::Refused(refusal) => put_refusal(out, refusal),
    }
}
