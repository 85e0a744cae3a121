ghost use Rattle.std.specs.Prelude.{◌≡◌, ◌+◌, ◌≤◌, IfOk, length};
ghost use Rattle.gcl_model.specs.Limits.{address_end};

use crate::compared::same;
use address_space::{
    AddressesSpent, FileId, FileRecord, FileRun, NAME_MOST, Range, SharedRecord, is_name, place,
};
use gcl_model::{ADDRESS_END, Bytes};
use std::alloc::{AllocError, Global};
use std::process::Abort;
use std::test::Fail;

/// A call for this many addresses gives these, or they are spent.
fn places<R: Abort>(rt: &R, next: u64, need: u64, want: Option<(u64, u64)>) {
    assert!(rt; next <= ADDRESS_END && 1 <= need && need <= ADDRESS_END);
    let case = (next, need);
    match place(next, need) {
        Ok(Range { first, last }) => same(rt, &case, &Some((first, last)), &want),
        Err(spent) => {
            same(rt, &case, &spent, &AddressesSpent { next, need });
            same(rt, &case, &None, &want);
        }
    }
}

#[test]
fn the_next_addresses_are_given_until_they_are_spent(rt: HostRuntime) {
    let cases = [
        (0, 2, Some((0, 1))),
        (7, 3, Some((7, 9))),
        (0, ADDRESS_END, Some((0, ADDRESS_END - 1))),
        (ADDRESS_END - 2, 2, Some((ADDRESS_END - 2, ADDRESS_END - 1))),
        (ADDRESS_END - 1, 2, None),
        (ADDRESS_END, 1, None),
        (ADDRESS_END, ADDRESS_END, None),
    ];
    for (next, need, want) in cases {
        places(&rt, next, need, want);
    }
}

/// The bytes are a name, or are not.
fn names<R: Abort>(rt: &R, bytes: &[u8], want: bool) {
    same(rt, &bytes, &is_name(bytes), &want);
}

/// This many letters.
fn letters(alloc: Global, count: usize) -> Result<Vec<u8>, AllocError> {
    let mut letters = Vec::new(alloc);
    for _ in 0..count {
        letters.push(b'a')?;
    }
    Ok(letters)
}

#[test]
fn a_name_is_text_without_control_bytes_or_outer_spaces(rt: HostRuntime) -> Result<(), Fail> {
    let cases: [(&[u8], bool); 13] = [
        (b"a", true),
        (b"a b.txt", true),
        (b"", false),
        (b" a", false),
        (b"a ", false),
        (b" ", false),
        (b"a\tb", false),
        (b"a\x1fb", false),
        (b"a\x7fb", false),
        (b"\xc3\xa4", true),
        (b"\xc3", false),
        (b"\xed\xa0\x80", false),
        (b"\xff", false),
    ];
    for (bytes, want) in cases {
        names(&rt, bytes, want);
    }
    names(&rt, letters(rt.alloc(), NAME_MOST)?.as_slice(), true);
    names(&rt, letters(rt.alloc(), NAME_MOST + 1)?.as_slice(), false);
    Ok(())
}

/// The record of a file with this id, and this many addresses, starting at `base`.
fn record(
    alloc: Global,
    id: u64,
    base: u64,
    len: u64,
    name: &[u8],
) -> Result<FileRecord, AllocError>
    requires bounded { 2 ≤ len }
    requires in_range { base + len ≤ address_end }
    ensures { IfOk result (λ file. (file.id ≡ id) × (file.base ≡ base) × (file.len ≡ len)) }
{
    Ok(FileRecord {
        id: FileId(id),
        base,
        len,
        name: Bytes::copy_of(alloc, name)?,
    })
}

/// The record is of this id, and has these addresses and this name.
fn is_record<R: Abort>(rt: &R, file: &FileRecord, numbers: (FileId, u64, u64), name: &[u8]) {
    same(rt, &name, &(file.id, file.base, file.len), &numbers);
    same(rt, &name, &file.name.as_slice(), &name);
}

/// The run has this many files.
fn has_files<R: Abort>(rt: &R, run: &FileRun, count: usize)
    ensures { length run.now ≡ count }
{
    assert!(rt; run.len() == count && run.as_slice().len() == count);
}

/// The files 0 and 2.
fn run_of_two(alloc: Global) -> Result<FileRun, AllocError> {
    let mut run = FileRun::new(alloc);
    run.push(record(alloc, 0, 0, 2, b"a")?)?;
    run.push(record(alloc, 2, 7, 3, b"b")?)?;
    Ok(run)
}

#[test]
fn a_run_keeps_its_files_in_order(rt: HostRuntime) -> Result<(), Fail> {
    has_files(&rt, &FileRun::new(rt.alloc()), 0);
    let run = run_of_two(rt.alloc())?;
    has_files(&rt, &run, 2);
    is_record(&rt, run.get(1), (FileId(2), 7, 3), b"b");
    Ok(())
}

#[test]
fn a_shared_record_is_the_same_and_has_its_range(rt: HostRuntime) -> Result<(), Fail> {
    let file = record(rt.alloc(), 3, ADDRESS_END - 3, 3, b"a")?;
    let shared = SharedRecord::new(rt.alloc(), file)?.share()?;
    let file = shared.record();
    is_record(&rt, file, (FileId(3), ADDRESS_END - 3, 3), b"a");
    let range = Range {
        first: ADDRESS_END - 3,
        last: ADDRESS_END - 1,
    };
    same(&rt, &"its range", &file.range(), &range);
    Ok(())
}
