use address_space::{FileId, FileRecord};
use gcl_model::{Bytes, Interval};
use script_lang::{
    Command, LineCut, LineFeed, Refusal, Taken, command, line_at, put_file, put_gone, put_interval,
    put_merging, put_opened, put_record, put_refusal, put_saved, put_shards, put_total,
};
use std::alloc::{AllocError, Global};
use std::process::Abort;
use std::test::Fail;

fn cut(from: usize, to: usize, after: usize) -> Option<LineCut> {
    Some(LineCut {
        from,
        to,
        after,
        long: false,
    })
}

fn long_cut(at: usize, after: usize) -> Option<LineCut> {
    Some(LineCut {
        from: at,
        to: at,
        after,
        long: true,
    })
}

/// The line at a place is cut like this.
fn is_cut<R: Abort>(rt: &R, bytes: &[u8], at: usize, most: usize, want: Option<LineCut>) {
    assert!(rt; at <= bytes.len());
    assert_eq!(rt; line_at(bytes, at, most), want, "{bytes:?} from {at}");
}

#[test]
fn lines_lose_a_return_and_outer_blanks_and_may_be_long(rt: HostRuntime) {
    let cases: [(&[u8], usize, usize, Option<LineCut>); 14] = [
        (b"", 0, 5, None),
        (b"a\n", 2, 5, None),
        (b"\n", 0, 5, cut(0, 0, 1)),
        (b"ab\ncd", 0, 5, cut(0, 2, 3)),
        (b"ab\ncd", 3, 5, cut(3, 5, 5)),
        (b"a\r\n", 0, 5, cut(0, 1, 3)),
        (b"a\r\r\n", 0, 5, cut(0, 2, 4)),
        (b"\t a\t\n", 0, 5, cut(2, 3, 5)),
        (b" \t \n", 0, 5, cut(0, 0, 4)),
        (b"12345\n", 0, 5, cut(0, 5, 6)),
        (b"123456\n7", 0, 5, long_cut(0, 7)),
        (b"a\n123456", 2, 5, long_cut(2, 8)),
        (b" \ta b\t\r\n", 0, 7, cut(2, 5, 8)),
        (b" \ta b\t\r\n", 0, 6, long_cut(0, 8)),
    ];
    for (bytes, at, most, want) in cases {
        is_cut(&rt, bytes, at, most, want);
    }
}

/// A command as a word, a number and bytes, to compare it with.
fn parts<'a>(command: &'a Command) -> (&'static str, u64, &'a [u8]) {
    match command {
        Command::Blank => ("blank", 0, &[]),
        Command::Add(name) => ("add", 0, name.as_slice()),
        Command::Del(id) => ("del", *id, &[]),
        Command::Find(query) => ("find", 0, query.as_slice()),
        Command::Count(query) => ("count", 0, query.as_slice()),
        Command::Top(most, query) => ("top", *most, query.as_slice()),
        Command::Files => ("files", 0, &[]),
        Command::Merge => ("merge", 0, &[]),
        Command::Shards => ("shards", 0, &[]),
        Command::Save(name) => ("save", 0, name.as_slice()),
        Command::Load(name) => ("open", 0, name.as_slice()),
        Command::Watch(query) => ("watch", 0, query.as_slice()),
        Command::Unwatch(number) => ("unwatch", *number, &[]),
        Command::Wrong => ("wrong", 0, &[]),
    }
}

/// The line is the command of this word, number and bytes.
fn is_command<R: Abort>(
    rt: &R,
    alloc: Global,
    line: &[u8],
    want: (&str, u64, &[u8]),
) -> Result<(), AllocError> {
    let command = command(alloc, line)?;
    assert_eq!(rt; parts(&command), want, "{line:?}");
    Ok(())
}

#[test]
fn each_command_takes_its_argument_and_no_other(rt: HostRuntime) -> Result<(), Fail> {
    let cases: [(&[u8], &str, u64, &[u8]); 36] = [
        (b"", "blank", 0, b""),
        (b"watch \"a\"", "watch", 0, b"\"a\""),
        (b"watch", "watch", 0, b""),
        (b"unwatch 015", "unwatch", 15, b""),
        (b"unwatch x", "wrong", 0, b""),
        (b"add a.txt", "add", 0, b"a.txt"),
        (b"add\t a b", "add", 0, b"a b"),
        (b"add", "wrong", 0, b""),
        (b"add a\x01b", "wrong", 0, b""),
        (b"add \xff", "wrong", 0, b""),
        (b"add a ", "wrong", 0, b""),
        (b"del 7", "del", 7, b""),
        (b"del 007", "del", 7, b""),
        (
            b"del 999999999999999999",
            "del",
            999_999_999_999_999_999,
            b"",
        ),
        (b"del 0000000000000000007", "wrong", 0, b""),
        (b"del -7", "wrong", 0, b""),
        (b"del 7 8", "wrong", 0, b""),
        (b"find \"to\"..\"be\"", "find", 0, b"\"to\"..\"be\""),
        (b"find", "find", 0, b""),
        (b"find\"to\"", "wrong", 0, b""),
        (b"count  [3]", "count", 0, b"[3]"),
        (b"count", "count", 0, b""),
        (b"top 2 \"to\"", "top", 2, b"\"to\""),
        (b"top 2\t", "top", 2, b""),
        (b"top 2", "top", 2, b""),
        (b"top", "wrong", 0, b""),
        (b"top \"to\"", "wrong", 0, b""),
        (b"top 2\"to\"", "wrong", 0, b""),
        (b"files", "files", 0, b""),
        (b"files x", "wrong", 0, b""),
        (b"merge", "merge", 0, b""),
        (b"shards", "shards", 0, b""),
        (b"save a.gcl", "save", 0, b"a.gcl"),
        (b"save", "wrong", 0, b""),
        (b"open a.gcl", "open", 0, b"a.gcl"),
        (b"Files", "wrong", 0, b""),
    ];
    for (line, word, number, bytes) in cases {
        is_command(&rt, rt.alloc(), line, (word, number, bytes))?;
    }
    Ok(())
}

/// What is answered when files come and go, and to queries.
fn put_found(out: &mut Vec<u8>) -> Result<(), AllocError> {
    put_file(out, 0, 0, 7)?;
    put_gone(out, 12)?;
    put_interval(out, Interval::new(1, 20))?;
    put_total(out, 0)
}

fn put_named(alloc: Global, out: &mut Vec<u8>) -> Result<(), AllocError> {
    let record = FileRecord {
        id: FileId(2),
        base: 10,
        len: 2,
        name: Bytes::copy_of(alloc, b"a b")?,
    };
    put_record(out, &record)
}

/// What is answered when slots are merged and counted, and images saved and opened.
fn put_numbers(out: &mut Vec<u8>) -> Result<(), AllocError> {
    put_merging(out)?;
    put_shards(out, 2)?;
    put_saved(out, 118)?;
    put_opened(out, 0)
}

fn put_refusals(out: &mut Vec<u8>) -> Result<(), AllocError> {
    let refusals = [
        Refusal::Command,
        Refusal::LongLine,
        Refusal::NoFile(3),
        Refusal::TooLong,
        Refusal::NoAddresses,
        Refusal::NotEmpty,
        Refusal::NotImage,
    ];
    for refusal in &refusals {
        put_refusal(out, refusal)?;
    }
    Ok(())
}

#[test]
fn each_answer_is_one_line(rt: HostRuntime) -> Result<(), Fail> {
    let mut out = Vec::new(rt.alloc());
    put_found(&mut out)?;
    put_named(rt.alloc(), &mut out)?;
    put_numbers(&mut out)?;
    put_refusals(&mut out)?;
    assert_eq!(rt;
        out.as_slice(),
        b"file 0 0 7\ngone 12\n1 20\n= 0\n2 10 11 a b\nmerging\nshards 2\nsaved 118\nopened 0\n! command\n! long line\n! no file 3\n! file too long\n! no addresses\n! not empty\n! not an image\n".as_slice()
    );
    Ok(())
}

/// Appends what was taken: the line, or an exclamation mark for a long one, and a bar.
fn put_taken(out: &mut Vec<u8>, taken: &Taken) -> Result<(), Fail> {
    match taken {
        Taken::Line(line) => out.extend_from_slice(line.as_slice())?,
        Taken::Long => out.push(b'!')?,
        Taken::More => return Ok(()),
    }
    out.push(b'|')?;
    Ok(())
}

/// Pushes a piece, and takes the lines that are there.
fn feed_piece(
    rt: &impl Abort,
    feed: &mut LineFeed,
    piece: &[u8],
    out: &mut Vec<u8>,
) -> Result<(), Fail> {
    assert!(rt; !feed.has_line());
    feed.push(piece)?;
    for _ in 0..9 {
        put_taken(out, &feed.take()?)?;
    }
    assert!(rt; !feed.has_line(), "{piece:?}");
    Ok(())
}

/// The lines of a text that is cut after each byte whose digit in `cuts` is 1, the first one's digit being the last.
fn lines_of_pieces(
    rt: &impl Abort,
    alloc: Global,
    text: &[u8],
    most: u64,
    cuts: u64,
) -> Result<Vec<u8>, Fail> {
    let mut feed = LineFeed::new(alloc, most);
    let mut out = Vec::new(alloc);
    let mut piece = Vec::new(alloc);
    let mut rest = cuts;
    for b in text {
        piece.push(*b)?;
        if rest % 2 == 1 {
            feed_piece(rt, &mut feed, piece.as_slice(), &mut out)?;
            piece.clear();
        }
        rest /= 2;
    }
    feed_piece(rt, &mut feed, piece.as_slice(), &mut out)?;
    assert!(rt; !feed.has_line());
    put_taken(&mut out, &feed.finish()?)?;
    Ok(out)
}

/// Appends the lines of a text, each as `put_taken` does.
fn put_lines(out: &mut Vec<u8>, text: &[u8], most: u64) -> Result<(), Fail> {
    let mut rest = text;
    for _ in text {
        let Some(cut) = line_at(rest, 0, most as usize) else {
            return Ok(());
        };
        if cut.long {
            out.push(b'!')?;
        }
        out.extend_from_slice(&rest[cut.from..cut.to])?;
        out.push(b'|')?;
        rest = &rest[cut.after..];
    }
    Ok(())
}

/// The lines of a text that comes in pieces of `len` bytes: after each piece all whole lines, and then the rest.
fn whole_lines_of_pieces(
    rt: &impl Abort,
    alloc: Global,
    text: &[u8],
    most: u64,
    len: usize,
) -> Result<Vec<u8>, Fail> {
    let mut feed = LineFeed::new(alloc, most);
    let mut out = Vec::new(alloc);
    assert!(rt; len > 0);
    for piece in text.chunks(len) {
        assert!(rt; !feed.has_line());
        feed.push(piece)?;
        put_lines(&mut out, feed.ready(), most)?;
        feed.take_ready();
    }
    put_lines(&mut out, feed.rest(), most)?;
    Ok(out)
}

/// The text has these lines, cut anywhere in its first eight bytes, and in pieces of one length.
fn has_lines<R: Abort>(
    rt: &R,
    alloc: Global,
    text: &[u8],
    most: u64,
    want: &[u8],
) -> Result<(), Fail> {
    for cuts in 0..256u64 {
        let got = lines_of_pieces(rt, alloc, text, most, cuts)?;
        assert_eq!(rt;
            got.as_slice(),
            want,
            "{text:?} at most {most}, cut by {cuts}"
        );
    }
    for len in [1, 2, 3, 7] {
        let got = whole_lines_of_pieces(rt, alloc, text, most, len)?;
        assert_eq!(rt;
            got.as_slice(),
            want,
            "{text:?} at most {most}, in pieces of {len}"
        );
    }
    Ok(())
}

#[test]
fn a_text_has_the_same_lines_however_it_is_cut(rt: HostRuntime) -> Result<(), Fail> {
    let cases: [(&[u8], u64, &[u8]); 14] = [
        (b"", 5, b""),
        (b"\n\n", 5, b"||"),
        (b"a\nbc", 5, b"a|bc|"),
        (b"a\r\n \tb", 5, b"a|b|"),
        (b"a b\r\r\n\r", 5, b"a b\r||"),
        (b"abc\nde\nf", 2, b"!|de|f|"),
        (b"ab\r\nabcd", 2, b"!|!|"),
        (b"a\n\nb\n", 0, b"!||!|"),
        (b"abcdefgh", u64::MAX, b"abcdefgh|"),
        (b"abcdefghijklmn\nop\n", 3, b"!|op|"),
        (b"ab\r\ncdefg\r\nh\r\n", 5, b"ab|!|h|"),
        (b"abcdef\nabcdefg\n\nh", 7, b"abcdef|abcdefg||h|"),
        (b"a\nb\nc\nd\ne\nf\ng", 1, b"a|b|c|d|e|f|g|"),
        (b"abcdefghijklmnop", 3, b"!|"),
    ];
    for (text, most, want) in cases {
        has_lines(&rt, rt.alloc(), text, most, want)?;
    }
    Ok(())
}

/// A feed of lines of at most three bytes that was given a piece lends these whole lines, and this is left.
fn lends<R: Abort>(
    rt: &R,
    alloc: Global,
    piece: &[u8],
    ready: &[u8],
    rest: &[u8],
) -> Result<(), AllocError> {
    let mut feed = LineFeed::new(alloc, 3);
    feed.push(piece)?;
    assert_eq!(rt; feed.ready(), ready, "{piece:?}");
    feed.take_ready();
    assert_eq!(rt; feed.ready(), b"".as_slice(), "{piece:?}");
    assert_eq!(rt; feed.rest(), rest, "{piece:?}");
    Ok(())
}

#[test]
fn whole_lines_are_lent_up_to_the_last_newline(rt: HostRuntime) -> Result<(), Fail> {
    let cases: [(&[u8], &[u8], &[u8]); 6] = [
        (b"", b"", b""),
        (b"ab", b"", b"ab"),
        (b"\n", b"\n", b""),
        (b"a\n\r\nb", b"a\n\r\n", b"b"),
        (b"abcdef\nab", b"abcdef\n", b"ab"),
        (b"a\nabcdef", b"a\n", b"abcd"),
    ];
    for (piece, ready, rest) in cases {
        lends(&rt, rt.alloc(), piece, ready, rest)?;
    }
    Ok(())
}
