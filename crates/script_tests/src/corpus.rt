use made_corpus::{Draws, MadeFiles, SummarySink, made_script};
use outside::{Files, Loaded, Sink};
use std::alloc::{AllocError, Global};
use std::process::Abort;
use std::test::Fail;

#[test]
fn the_first_number_below_a_hundred_drawn_from_0_is_7(rt: HostRuntime) {
    let mut draws = Draws { state: 0 };
    assert_eq!(rt; draws.draw(100), 7);
    assert_eq!(rt; draws.state, 1_442_695_040_888_963_407);
}

const FIRST: &[u8] =
    b"w592 w164 w266 <s> w160 w110 w93 w133 w39 w11 w272 w306 w456 w64 w119 w224 w144 w205 w525 w448 w792 w30 w228 w748 w308 </s> w0";

/// A load through the bound gives all of the name's bytes or not, and these.
fn loads<R: Abort, F: Files>(
    rt: &R,
    alloc: Global,
    files: &mut F,
    (name, most): (&[u8], u64),
    (whole, content): (bool, &[u8]),
) -> Result<(), Fail> {
    let mut out = Vec::from_slice(alloc, b"before")?;
    let is_whole = files.load(name, most, &mut out)? == Loaded::Whole;
    assert_eq!(rt; is_whole, whole, "{name:?} {most}");
    assert_eq!(rt; out.as_slice(), content, "{name:?} {most}");
    Ok(())
}

/// `count` made files.
fn made<R: Abort>(rt: &R, alloc: Global, start: u64, count: u64) -> MadeFiles {
    assert!(rt; count <= 10_000);
    MadeFiles::new(alloc, start, count)
}

#[test]
fn a_made_file_has_its_content_and_every_other_name_none(rt: HostRuntime) -> Result<(), Fail> {
    let cases: [(u64, u64, &[u8], u64, bool, &[u8]); 16] = [
        (0, 1, b"m0", 1000, true, FIRST),
        (0, 1, b"m0", 126, true, FIRST),
        (0, 1, b"m0", 125, false, FIRST),
        (0, 1, b"m0", 3, false, b"w592"),
        (0, 1, b"m0", 0, false, b"w"),
        // The numbers wrap around.
        (u64::MAX, 2, b"m1", 1000, true, FIRST),
        (u64::MAX - 8, 10, b"m9", 1000, true, FIRST),
        (u64::MAX - 9, 11, b"m10", 1000, true, FIRST),
        (u64::MAX, 1, b"m1", 1000, true, b""),
        (0, 0, b"m0", 1000, true, b""),
        (u64::MAX - 8, 10, b"m09", 1000, true, b""),
        (0, 10, b"m00", 1000, true, b""),
        (0, 10, b"m+0", 1000, true, b""),
        (0, 10, b"m", 1000, true, b""),
        (0, 10, b"", 1000, true, b""),
        (0, 10, b"n0", 0, true, b""),
    ];
    for (start, count, name, most, whole, content) in cases {
        let mut files = made(&rt, rt.alloc(), start, count);
        loads(&rt, rt.alloc(), &mut files, (name, most), (whole, content))?;
    }
    Ok(())
}

#[test]
fn a_kept_name_has_its_bytes_and_every_other_name_what_it_had(rt: HostRuntime) -> Result<(), Fail> {
    let alloc = rt.alloc();
    let mut files = MadeFiles::new(alloc, 0, 1);
    // what is kept, and what `m0` and `image` hold then
    let steps: [(&[u8], &[u8], &[u8], &[u8]); 4] = [
        (b"image", b"to be", FIRST, b"to be"),
        (b"m1", b"or", FIRST, b"to be"),
        (b"m0", b"", b"", b"to be"),
        (b"image", b"or not", b"", b"or not"),
    ];
    for (name, bytes, made, image) in steps {
        files.keep(name, bytes)?;
        loads(&rt, alloc, &mut files, (b"m0", 1000), (true, made))?;
        loads(&rt, alloc, &mut files, (b"image", 1000), (true, image))?;
    }
    loads(&rt, alloc, &mut files, (b"image", 3), (false, b"or n"))?;
    Ok(())
}

/// The script over `count` files is this.
fn is_made<R: Abort>(
    rt: &R,
    alloc: Global,
    start: u64,
    count: u64,
    script: &[u8],
) -> Result<(), AllocError> {
    assert!(rt; count <= 10_000);
    let made = made_script(alloc, start, count)?;
    assert_eq!(rt; made.text.as_slice(), script, "{start} {count}");
    Ok(())
}

#[test]
fn a_script_has_a_turn_for_each_file(rt: HostRuntime) -> Result<(), Fail> {
    let cases: [(u64, u64, &[u8]); 5] = [
        (7, 0, b""),
        (
            u64::MAX,
            1,
            b"add m0\nfind \"w27\"..\"w3\"\ncount (\"<s>\"..\"</s>\") > \"w10\"\ntop 5 (\"w40\"^\"w31\") < [20]\n",
        ),
        (
            2,
            2,
            b"add m0\ndel 0\nfind \"w32\"..\"w12\"\ncount (\"<s>\"..\"</s>\") > \"w19\"\ntop 5 (\"w43\"^\"w42\") < [20]\nadd m1\nmerge\nfind \"w27\"..\"w16\"\ncount (\"<s>\"..\"</s>\") > \"w35\"\ntop 5 (\"w42\"^\"w44\") < [20]\n",
        ),
        (
            12,
            1,
            b"add m0\nshards\nfind \"w14\"..\"w28\"\ncount (\"<s>\"..\"</s>\") > \"w0\"\ntop 5 (\"w19\"^\"w33\") < [20]\n",
        ),
        (
            7,
            2,
            b"add m0\nfind \"w15\"..\"w31\"\ncount (\"<s>\"..\"</s>\") > \"w31\"\ntop 5 (\"w19\"^\"w13\") < [20]\nadd m1\ndel 0\nfind \"w1\"..\"w48\"\ncount (\"<s>\"..\"</s>\") > \"w37\"\ntop 5 (\"w43\"^\"w2\") < [20]\n",
        ),
    ];
    for (start, count, script) in cases {
        is_made(&rt, rt.alloc(), start, count, script)?;
    }
    Ok(())
}

/// A sink that was written these pieces.
fn written<R: Abort>(rt: &R, pieces: &[&[u8]]) -> Result<SummarySink, Fail> {
    let mut sink = SummarySink::new();
    for piece in pieces {
        assert_eq!(rt; sink.write(piece)?, piece.len());
    }
    Ok(sink)
}

/// The summary of a run of nine lines over two files made from 7.
fn summary(alloc: Global, sink: &SummarySink) -> Result<Vec<u8>, AllocError> {
    let script = made_script(alloc, 7, 2)?;
    let mut out = Vec::new(alloc);
    sink.put_summary(&mut out, 7, 2, script.lines)?;
    Ok(out)
}

#[test]
fn a_summary_tells_refusals_bytes_and_their_sum(rt: HostRuntime) -> Result<(), Fail> {
    // the pieces of a text, and the last three lines
    let cases: [(&[&[u8]], &[u8]); 5] = [
        (&[], b"refused 0\nbytes 0\nsum 0\n"),
        (&[b"= 2\n"], b"refused 0\nbytes 4\nsum 153\n"),
        (
            &[b"! no", b" file 7\n= 1\n!"],
            b"refused 2\nbytes 17\nsum 1016\n",
        ),
        (&[b"a!\n", b"!", b"!"], b"refused 1\nbytes 5\nsum 206\n"),
        (&[b"\n", b"\n!"], b"refused 1\nbytes 3\nsum 53\n"),
    ];
    for (pieces, told) in cases {
        let sink = written(&rt, pieces)?;
        let mut want = Vec::from_slice(rt.alloc(), b"made 7 2\nlines 9\n")?;
        want.extend_from_slice(told)?;
        assert_eq!(rt; summary(rt.alloc(), &sink)?.as_slice(), want.as_slice());
    }
    Ok(())
}
