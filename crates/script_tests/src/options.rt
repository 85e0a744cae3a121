use command_words::{Made, Options, options_of, wrong_word};
use gcl_model::Bytes;
use std::alloc::{AllocError, Global};
use std::process::Abort;
use std::test::Fail;

/// The words of a line that is cut at its bars: `a|b` is two words, and the empty line none.
fn words_of(alloc: Global, line: &[u8]) -> Result<Vec<Bytes>, AllocError> {
    let mut words = Vec::new(alloc);
    if line.is_empty() {
        return Ok(words);
    }
    let mut word = Bytes::new(alloc);
    for b in line {
        if *b == b'|' {
            words.push(word)?;
            word = Bytes::new(alloc);
        } else {
            word.push(*b)?;
        }
    }
    words.push(word)?;
    Ok(words)
}

/// The words of the line ask for these options, or for none.
fn writes<R: Abort>(
    rt: &R,
    alloc: Global,
    line: &[u8],
    want: Option<Options>,
) -> Result<(), AllocError> {
    let words = words_of(alloc, line)?;
    assert_eq!(rt; options_of(alloc, words.as_slice())?, want, "{line:?}");
    Ok(())
}

fn given(first: u64, readers: usize) -> Option<Options> {
    Some(Options {
        first,
        readers,
        made: None,
    })
}

fn made(first: u64, readers: usize, start: u64, count: u64) -> Option<Options> {
    Some(Options {
        first,
        readers,
        made: Some(Made { start, count }),
    })
}

#[test]
fn options_stand_in_any_order_each_once_with_values_joined_or_behind(
    rt: HostRuntime,
) -> Result<(), Fail> {
    let cases: [(&[u8], Option<Options>); 17] = [
        (b"", given(0, 4)),
        (b"--first|7", given(7, 4)),
        (b"--first=7", given(7, 4)),
        (b"--readers|2", given(0, 2)),
        (b"--readers=16", given(0, 16)),
        (b"--readers=1", given(0, 1)),
        (b"--readers|2|--first|7", given(7, 2)),
        (b"--first=7|--readers|2", given(7, 2)),
        (b"--first|007", given(7, 4)),
        (b"--first=000000000000000000", given(0, 4)),
        (
            b"--first|72057594037927936",
            given(72_057_594_037_927_936, 4),
        ),
        (b"--made|3|--count|8", made(0, 4, 3, 8)),
        (b"--count=8|--made=3", made(0, 4, 3, 8)),
        (b"--made=0|--count=0", made(0, 4, 0, 0)),
        (
            b"--made=999999999999999999|--count|10000",
            made(0, 4, 999_999_999_999_999_999, 10_000),
        ),
        (
            b"--made=3|--readers=1|--count=8|--first=9",
            made(9, 1, 3, 8),
        ),
        (
            b"--first|9|--count|8|--readers|16|--made|3",
            made(9, 16, 3, 8),
        ),
    ];
    for (line, want) in cases {
        writes(&rt, rt.alloc(), line, want)?;
    }
    Ok(())
}

// Lines whose words are outside the grammar.
static OUTSIDE: [&[u8]; 55] = [
    // a word that no option begins with, and one too many
    b"|",
    b"7",
    b"-",
    b"gclq",
    b"first=7",
    b"--first|7|8",
    b"--first=7|8",
    // repeats, also of one value and in both forms
    b"--first=7|--first=7",
    b"--first|7|--first=7",
    b"--readers|2|--readers|2",
    b"--made=1|--count=1|--made=1",
    // no value, or an option in its place
    b"--first",
    b"--first=",
    b"--first|",
    b"--first|--readers|2",
    b"--first|--readers=2",
    b"--readers=2|--first",
    // `--`, help, version, abbreviations, short and other names
    b"--",
    b"--|--first=7",
    b"--first=7|--",
    b"--first|--",
    b"--help",
    b"-h",
    b"help",
    b"--version",
    b"-V",
    b"--fir=7",
    b"--f|7",
    b"-f|7",
    b"--firsts=7",
    b"--First=7",
    b"--=7",
    b"---first=7",
    // signs, blanks, other digits and two joins
    b"--first|-1",
    b"--first=-1",
    b"--first=+1",
    b"--first= 7",
    b"--first=7 ",
    b"--first=0x7",
    b"--first==7",
    b"--first=7=7",
    // bounds, and 19 digits
    b"--first=72057594037927937",
    b"--first=0000000000000000007",
    b"--readers=0",
    b"--readers=17",
    b"--made=1|--count=10001",
    // `--made` and `--count` one without the other
    b"--made=1",
    b"--count=1",
    b"--made|1|--first|7",
    b"--count|1|--readers|2",
    // bytes that are not UTF-8
    b"\xff",
    b"--first=\xff",
    b"--first|\xff",
    b"\xff|--first=7",
    b"--first=7|--\xc3",
];

#[test]
fn all_other_words_are_outside_the_grammar(rt: HostRuntime) -> Result<(), Fail> {
    for line in OUTSIDE {
        writes(&rt, rt.alloc(), line, None)?;
    }
    Ok(())
}

#[test]
fn a_message_can_name_the_word_that_is_wrong(rt: HostRuntime) -> Result<(), Fail> {
    let cases: [(&[u8], Option<&[u8]>); 9] = [
        (b"--first=7|--readers|2", None),
        (b"--first=7|in.txt|--readers", Some(b"in.txt")),
        (b"--fir=7", Some(b"--fir=7")),
        (b"--first|--readers|2", Some(b"--readers")),
        (b"--readers=17|--first", Some(b"--readers=17")),
        (b"--first|x", Some(b"x")),
        (b"--readers=2|--first", Some(b"--first")),
        (b"--first=7|--first=7", None),
        (b"--made=1", None),
    ];
    for (line, want) in cases {
        let words = words_of(rt.alloc(), line)?;
        assert_eq!(rt; wrong_word(words.as_slice()), want, "{line:?}");
    }
    Ok(())
}
