// What is left if something outside fails or is out of memory, if a limit is reached, and if an image is damaged.
ghost use Rattle.std.specs.Prelude.{◌≡◌, Some};
ghost use Rattle.outside.specs.Causes.{HasFileCause, CountsFileFault};
ghost use Rattle.outside.specs.Contents.{IsKept};

use crate::streams::SlowSource;
use crate::trials::{
    NAMES, counts, ends, failing_call, holds, mem_files, mem_sink, one_file, ran, run_over, says,
    served_over, serves, sure_files, sure_source, writes,
};
use outside::{
    FileError, Files, FreeGate, GhostCount, Loaded, MemFiles, Sink, SureFiles, SureSink,
    SureSource, WriteError,
};
use query_run::{Limits, Status, run};
use std::alloc::{AllocError, Global};
use std::process::Abort;
use std::random::RandomSource;
use std::sync::Wait;
use std::test::Fail;
use std::thread::Threads;

// A script with each kind of call of the outside, and its text.
const SCRIPT: &[u8] =
    b"open v\nadd a\nadd b\nfind \"to\"\nmerge\nfind \"be\"\nsave i\ndel 2\nfind \"to\"\n";

const BEFORE_SAVED: &[u8] =
    b"opened 1\nfile 2 10 17\nfile 3 18 19\n11 11\n15 15\n= 2\nmerging\n12 12\n16 16\n= 2\n";

const TEXT: &[u8] =
    b"opened 1\nfile 2 10 17\nfile 3 18 19\n11 11\n15 15\n= 2\nmerging\n12 12\n16 16\n= 2\nsaved 111\ngone 2\n= 0\n";

// How many bytes of the script a call of the source hands over: lines end within what a call hands over and at its end.
const HANDED: usize = 4;

// More calls than an object gets from the script.
const MANY: u64 = 100;

/// The objects that can fail, or be out of memory.
#[derive(Clone, Copy, Debug, PartialEq, Eq)]
enum Part {
    Source,
    Sink,
    Files,
}

/// How a run ended: its status, what was written, whether the image was kept, and whether each other name holds what it held.
#[derive(Drop)]
struct Ended {
    status: Status,
    written: Vec<u8>,
    kept: bool,
    same: bool,
}

/// This call if it is of that object, else 0 for none.
fn call_of(part: Part, whose: Part, call: u64) -> u64 {
    if part == whose { call } else { 0 }
}

/// Whether each name holds what it held.
fn are_same(files: &MemFiles) -> bool {
    for (name, content) in NAMES {
        if files.content(name) != Some(content) {
            return false;
        }
    }
    true
}

/// Runs the script with one object failing at one call.
fn failing<R: Threads + Wait + Sync + RandomSource + AllocGlobal>(
    rt: &R,
    part: Part,
    call: u64,
) -> Result<Ended, AllocError> {
    let calls = failing_call(rt.alloc(), call_of(part, Part::Source, call))?;
    let mut source = SlowSource::new(rt.alloc(), SCRIPT, HANDED, calls)?;
    let mut sink = mem_sink(rt.alloc(), call_of(part, Part::Sink, call))?;
    let mut files = mem_files(rt.alloc(), call_of(part, Part::Files, call))?;
    let status = ran(rt, &[], &mut files, &mut source, &mut sink, &FreeGate)?;
    Ok(Ended {
        status,
        written: sink.written().to_vec(rt.alloc())?,
        kept: files.content(b"i").is_some(),
        same: are_same(&files),
    })
}

/// The whole lines that the source handed over before this call.
fn lines_before(call: u64) -> &'static [u8] {
    let count = (call as usize).saturating_sub(1).saturating_mul(HANDED);
    let front = &SCRIPT[..count.min(SCRIPT.len())];
    match front.iter().rposition(|byte| *byte == b'\n') {
        Some(at) => &front[..at + 1],
        None => b"",
    }
}

/// If this call of the source fails, the lines before it are answered, and no more.
fn fails_at_read<R: Threads + Wait + Sync + RandomSource + AllocGlobal + Abort>(
    rt: &R,
    call: u64,
) -> Result<(), AllocError> {
    let ended = failing(rt, Part::Source, call)?;
    let mut files = mem_files(rt.alloc(), 0)?;
    let (_, want) = run_over(rt, &[], &mut files, lines_before(call), &FreeGate)?;
    let is_kept = want.len() > BEFORE_SAVED.len();
    let want = (Status::ReadFault, want.as_slice());
    ends(rt, &call, (ended.status, ended.written.as_slice()), want);
    holds(rt, &call, ended.kept == is_kept);
    Ok(())
}

#[test]
fn whichever_call_of_the_source_fails_the_lines_before_it_are_answered(
    rt: HostRuntime,
) -> Result<(), Fail> {
    let calls = (SCRIPT.len() / HANDED) as u64;
    for call in 1..calls + 2 {
        fails_at_read(&rt, call)?;
    }
    let ended = failing(&rt, Part::Source, calls + 2)?;
    let got = (ended.status, ended.written.as_slice());
    ends(&rt, &"no call", got, (Status::Done, TEXT));
    Ok(())
}

/// A beginning of the text is written, and each name except that of the image holds what it held.
fn begins<R: Abort>(rt: &R, part: Part, call: u64, ended: &Ended) {
    let case = (part, call);
    holds(rt, &case, TEXT.starts_with(ended.written.as_slice()));
    holds(rt, &case, ended.same);
}

/// Whether all is written. If it is not, the run ended with this status, and the image is kept exactly if at least this number of bytes
/// is written.
fn is_whole<R: Abort>(rt: &R, call: u64, ended: &Ended, want: Status, bytes: usize) -> bool {
    let written = ended.written.as_slice();
    if ended.status == Status::Done {
        writes(rt, &call, written, TEXT);
        return true;
    }
    says(rt, &call, ended.status, want);
    holds(rt, &call, written.len() < TEXT.len());
    holds(rt, &call, ended.kept == (written.len() >= bytes));
    false
}

/// How many calls an object gets: each fails in turn, and none in the last run.
fn calls_that_fail<R: Threads + Wait + Sync + RandomSource + AllocGlobal + Abort>(
    rt: &R,
    part: Part,
    want: Status,
    bytes: usize,
) -> Result<u64, AllocError> {
    for call in 1..MANY {
        let ended = failing(rt, part, call)?;
        begins(rt, part, call, &ended);
        if is_whole(rt, call, &ended, want, bytes) {
            return Ok(call);
        }
    }
    Ok(0)
}

#[test]
fn whichever_call_fails_a_beginning_is_written_and_the_image_is_kept_or_not(
    rt: HostRuntime,
) -> Result<(), Fail> {
    // after how many bytes the image is kept: if the save itself fails it is not
    let sink = calls_that_fail(&rt, Part::Sink, Status::WriteFault, BEFORE_SAVED.len())?;
    holds(&rt, &"sink", sink > 2);
    let files = calls_that_fail(&rt, Part::Files, Status::FileFault, TEXT.len())?;
    holds(&rt, &"files", files > 2);
    Ok(())
}

/// Is out of memory at one of its calls.
#[derive(Drop)]
struct HungrySink {
    taken: Vec<u8>,
    calls: u64,
    hungry: u64,
}

impl Sink for HungrySink {
    ghost written = { λ s. Some s.taken.items };

    ghost faults = { λ _. 0 };

    fn write(&mut self, piece: &[u8]) -> Result<usize, WriteError> {
        self.calls = self.calls.saturating_add(1);
        if self.calls == self.hungry {
            return Err(WriteError::NoMemory);
        }
        self.taken.extend_from_slice(piece)?;
        Ok(piece.len())
    }
}

/// Are out of memory at one of their calls.
#[derive(Drop)]
struct HungryFiles {
    inner: SureFiles,
    calls: u64,
    hungry: u64,
    unkept: GhostCount,
}

impl HungryFiles {
    /// Keeps the bytes, even if this call is out of memory: after an error the name may hold something else.
    fn put(&mut self, name: &[u8], bytes: &[u8]) -> Result<(), FileError>
        ensures kept { IsKept (⟦<SureFiles as Files>⟧.held self.old.inner) (⟦<SureFiles as Files>⟧.held self.new.inner)
            name.now bytes.now result }
        ensures cause { HasFileCause 0 0 result }
        ensures counts { CountsFileFault 0 0 result }
        ensures unkept { self.new.unkept ≡ self.old.unkept }
    {
        self.calls = self.calls.saturating_add(1);
        if self.calls != self.hungry {
            return self.inner.keep(name, bytes);
        }
        match self.inner.keep(name, bytes) {
            Ok(()) => Err(FileError::NoMemory),
            Err(fault) => Err(fault),
        }
    }
}

impl Files for HungryFiles {
    ghost held = { λ f. ⟦<SureFiles as Files>⟧.held f.inner };

    ghost faults = { λ _. 0 };

    ghost unkept = { λ f. f.unkept };

    fn load(&mut self, name: &[u8], most: u64, out: &mut Vec<u8>) -> Result<Loaded, FileError> {
        self.calls = self.calls.saturating_add(1);
        if self.calls == self.hungry {
            return Err(FileError::NoMemory);
        }
        self.inner.load(name, most, out)
    }

    fn keep(&mut self, name: &[u8], bytes: &[u8]) -> Result<(), FileError> {
        match self.put(name, bytes) {
            Ok(()) => Ok(()),
            Err(fault) => {
                self.unkept.add_one();
                Err(fault)
            }
        }
    }
}

/// Whether each name holds what it held.
fn are_sure_same(files: &SureFiles) -> bool {
    for (name, content) in NAMES {
        if files.content(name) != Some(content) {
            return false;
        }
    }
    true
}

/// Runs the script with one object out of memory at one call.
fn hungry<R: Threads + Wait + Sync + RandomSource + AllocGlobal>(
    rt: &R,
    part: Part,
    call: u64,
) -> Result<Ended, AllocError> {
    let mut source = sure_source(rt.alloc(), SCRIPT)?;
    let mut sink = HungrySink {
        taken: Vec::new(rt.alloc()),
        calls: 0,
        hungry: call_of(part, Part::Sink, call),
    };
    let mut files = HungryFiles {
        inner: sure_files(rt.alloc())?,
        calls: 0,
        hungry: call_of(part, Part::Files, call),
        unkept: GhostCount::none(),
    };
    let status = ran(rt, &[], &mut files, &mut source, &mut sink, &FreeGate)?;
    Ok(Ended {
        status,
        written: sink.taken,
        kept: files.inner.content(b"i").is_some(),
        same: are_sure_same(&files.inner),
    })
}

/// How many calls an object gets: each is out of memory in turn, and none in the last run.
fn calls_that_want<R: Threads + Wait + Sync + RandomSource + AllocGlobal + Abort>(
    rt: &R,
    part: Part,
) -> Result<u64, AllocError> {
    for call in 1..MANY {
        let ended = hungry(rt, part, call)?;
        begins(rt, part, call, &ended);
        // all that is left to write then is the answer to the save and to what follows it
        let is_kept = ended.written.len() >= BEFORE_SAVED.len();
        holds(rt, &(part, call), ended.kept == is_kept);
        if ended.status == Status::Done {
            writes(rt, &(part, call), ended.written.as_slice(), TEXT);
            return Ok(call);
        }
        says(rt, &(part, call), ended.status, Status::NoMemory);
    }
    Ok(0)
}

#[test]
fn whichever_call_is_out_of_memory_a_beginning_is_written_and_no_other_name_is_changed(
    rt: HostRuntime,
) -> Result<(), Fail> {
    let sink = calls_that_want(&rt, Part::Sink)?;
    holds(&rt, &"sink", sink > 3);
    let files = calls_that_want(&rt, Part::Files)?;
    holds(&rt, &"files", files > 3);
    Ok(())
}

/// A run over objects that never fail. It is proved that none is ever said to have failed.
fn sure_run<R: Threads + Wait + Sync + RandomSource>(
    rt: &R,
    alloc: Global,
    files: &mut SureFiles,
    source: &mut SureSource,
    sink: &mut SureSink,
) -> Status
    ensures read { ¬ (result ≡ Status.ReadFault) }
    ensures write { ¬ (result ≡ Status.WriteFault) }
    ensures file { ¬ (result ≡ Status.FileFault) }
{
    let mut completed = 0;
    run(
        rt,
        alloc,
        &[],
        files,
        source,
        sink,
        &FreeGate,
        &mut completed,
    )
}

// The image of no file from address 0, with 2^64 - 1 in the place of its number of files.
const MANY_FILES: &[u8] =
    b"GCLIMG02\0\0\0\0\0\0\0\0\0\0\0\0\0\0\0\0\0\0\0\0\0\0\0\0\xff\xff\xff\xff\xff\xff\xff\xff\0\0\0\0\0\0\0\0";

#[test]
fn an_image_of_more_files_than_it_has_bytes_is_none(rt: HostRuntime) -> Result<(), Fail> {
    let mut files = MemFiles::new(
        rt.alloc(),
        one_file(rt.alloc(), b"i", MANY_FILES)?,
        Vec::new(rt.alloc()),
    );
    let (status, written) = run_over(&rt, &[], &mut files, b"open i\nfiles\n", &FreeGate)?;
    let want = (
        Status::DoneWithRefusals,
        b"! not an image\n= 0\n".as_slice(),
    );
    ends(&rt, &"an image", (status, written.as_slice()), want);
    Ok(())
}

#[test]
fn the_line_that_names_a_missing_file_comes_after_the_completed_ones(
    rt: HostRuntime,
) -> Result<(), Fail> {
    let scripts: [(&[u8], u64); 5] = [
        (b"add missing\n", 0),
        (b"add a\ncount \"to\"\n\nadd missing\nadd a\n", 3),
        (b"count \"to\"\ncount \"be\"\nopen missing", 2),
        (b"merge\nadd missing\n", 1),
        (b"del 9\nnone\nadd missing\n", 2),
    ];
    for (script, lines) in scripts {
        let mut files = mem_files(rt.alloc(), 0)?;
        let mut source = sure_source(rt.alloc(), script)?;
        let mut sink = SureSink::new(rt.alloc());
        let mut completed = 7;
        let status = run(
            &rt,
            rt.alloc(),
            &[],
            &mut files,
            &mut source,
            &mut sink,
            &FreeGate,
            &mut completed,
        );
        says(&rt, &script, status, Status::FileFault);
        counts(&rt, &script, completed, lines);
    }
    Ok(())
}

#[test]
fn over_sure_objects_a_name_that_is_not_held_has_no_bytes(rt: HostRuntime) -> Result<(), Fail> {
    let mut files = sure_files(rt.alloc())?;
    let mut source = sure_source(rt.alloc(), b"open missing\nadd missing\nfiles\n")?;
    let mut sink = SureSink::new(rt.alloc());
    let status = sure_run(&rt, rt.alloc(), &mut files, &mut source, &mut sink);
    let want = b"! not an image\nfile 0 0 1\n0 0 1 missing\n= 1\n".as_slice();
    let want = (Status::DoneWithRefusals, want);
    ends(&rt, &"missing", (status, sink.written()), want);
    Ok(())
}

// The most bytes of an image; the status, the output, and whether the image is kept.
const IMAGES: [(u64, Status, &[u8], bool); 2] = [
    (
        96,
        Status::DoneWithRefusals,
        b"file 0 0 7\n! file too long\n",
        false,
    ),
    (97, Status::Done, b"file 0 0 7\nsaved 97\n", true),
];

#[test]
fn an_image_of_a_byte_too_many_is_not_kept(rt: HostRuntime) -> Result<(), Fail> {
    for (image, want, output, kept) in IMAGES {
        let limits = Limits {
            image,
            ..Limits::greatest()
        };
        let mut files = mem_files(rt.alloc(), 0)?;
        let got = served_over(&rt, 0, &limits, &mut files, b"add a\nsave i\n")?;
        serves(&rt, &image, &got, (want, 2, output));
        holds(&rt, &image, files.content(b"i").is_some() == kept);
    }
    Ok(())
}

/// Files that hold this image as `i`.
fn with_image(alloc: Global, image: &[u8]) -> Result<MemFiles, AllocError> {
    Ok(MemFiles::new(alloc, one_file(alloc, b"i", image)?, Vec::new(alloc)))
}

/// The image of the file `a`.
fn saved_image<R: Threads + Wait + Sync + RandomSource + AllocGlobal>(
    rt: &R,
) -> Result<Vec<u8>, AllocError> {
    let mut files = mem_files(rt.alloc(), 0)?;
    let (_, _) = run_over(rt, &[], &mut files, b"add a\nsave i\n", &FreeGate)?;
    files.content(b"i").unwrap_or(b"").to_vec(rt.alloc())
}

/// These bytes are not opened.
fn is_no_image<R: Threads + Wait + Sync + RandomSource + AllocGlobal + Abort>(
    rt: &R,
    image: &[u8],
) -> Result<(), AllocError> {
    let mut files = with_image(rt.alloc(), image)?;
    let (status, written) = run_over(rt, &[], &mut files, b"open i\n", &FreeGate)?;
    let want = (Status::DoneWithRefusals, b"! not an image\n".as_slice());
    ends(rt, &image.len(), (status, written.as_slice()), want);
    Ok(())
}

#[test]
fn a_front_part_of_an_image_is_not_opened(rt: HostRuntime) -> Result<(), Fail> {
    let image = saved_image(&rt)?;
    holds(&rt, &"97 bytes", image.len() == 97);
    for len in 0..image.len() {
        let (front, _) = image.split_at(len);
        is_no_image(&rt, front)?;
    }
    Ok(())
}

/// Whether this image is opened, and then it is saved again as it is. The byte at this place was changed.
fn is_opened<R: Threads + Wait + Sync + RandomSource + AllocGlobal + Abort>(
    rt: &R,
    image: &[u8],
    at: usize,
) -> Result<bool, AllocError> {
    let mut files = with_image(rt.alloc(), image)?;
    let (_, written) = run_over(rt, &[], &mut files, b"open i\nsave j\n", &FreeGate)?;
    if written.as_slice() == b"opened 1\nsaved 97\n".as_slice() {
        holds(rt, &at, files.content(b"j") == Some(image));
        return Ok(true);
    }
    writes(rt, &at, written.as_slice(), b"! not an image\nsaved 48\n");
    Ok(false)
}

#[test]
fn an_image_with_a_changed_byte_is_refused_or_saved_again_as_it_is(
    rt: HostRuntime,
) -> Result<(), Fail> {
    let mut image = saved_image(&rt)?;
    let mut is_ever_opened = false;
    for at in 0..image.len() {
        let byte = image[at];
        image[at] = byte.wrapping_add(1);
        is_ever_opened |= is_opened(&rt, image.as_slice(), at)?;
        image[at] = byte;
    }
    holds(&rt, &"some change is an image", is_ever_opened);
    Ok(())
}
