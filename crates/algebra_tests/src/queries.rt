use crate::compared::same;
use gcl_model::Expr;
use gcl_parser::{ParseFault, QueryKind, parse};
use std::alloc::{AllocError, Global};
use std::process::Abort;
use std::test::Fail;

/// Writes an expression with a bracket around each node: terms and widths as they are, and `_` after each term of a
/// phrase.
#[cycle(write)]
fn write(out: &mut Vec<u8>, expr: &Expr) -> Result<(), AllocError> {
    match expr {
        Expr::Term(term) => out.extend_from_slice(term.as_slice()),
        Expr::Phrase(terms) => {
            for term in terms.as_slice() {
                out.extend_from_slice(term.as_slice())?;
                out.push(b'_')?;
            }
            Ok(())
        }
        Expr::Width(width) => {
            let digits = format!(in *out.allocator(); "{width}")?;
            out.extend_from_slice(digits.as_bytes())
        }
        Expr::Both(operands) => write_chain(out, operands.as_slice(), b'^'),
        Expr::One(operands) => write_chain(out, operands.as_slice(), b'+'),
        Expr::Seq(operands) => write_chain(out, operands.as_slice(), b'.'),
        Expr::Containing(left, right) => {
            out.push(b'(')?;
            write(out, left)?;
            out.push(b'>')?;
            write(out, right)?;
            out.extend_from_slice(b")".as_slice())
        }
        Expr::ContainedIn(left, right) => {
            out.push(b'(')?;
            write(out, left)?;
            out.push(b'<')?;
            write(out, right)?;
            out.extend_from_slice(b")".as_slice())
        }
        Expr::NotContaining(left, right) => {
            out.push(b'(')?;
            write(out, left)?;
            out.extend_from_slice(b"/>".as_slice())?;
            write(out, right)?;
            out.extend_from_slice(b")".as_slice())
        }
        Expr::NotContainedIn(left, right) => {
            out.push(b'(')?;
            write(out, left)?;
            out.extend_from_slice(b"/<".as_slice())?;
            write(out, right)?;
            out.extend_from_slice(b")".as_slice())
        }
    }
}

#[cycle(write)]
fn write_chain(out: &mut Vec<u8>, operands: &[Expr], joint: u8) -> Result<(), AllocError> {
    out.push(b'(')?;
    for operand in operands {
        write(out, operand)?;
        out.push(joint)?;
    }
    out.extend_from_slice(b")".as_slice())
}

/// What the query is, written with brackets.
fn written(alloc: Global, text: &[u8]) -> Result<Vec<u8>, ParseFault> {
    let expr = parse(alloc, text)?;
    let mut out = Vec::new(alloc);
    write(&mut out, &expr)?;
    Ok(out)
}

fn fault(alloc: Global, text: &[u8]) -> Option<(u64, QueryKind)> {
    match parse(alloc, text) {
        Err(ParseFault::Query(fault)) => Some((fault.at, fault.kind)),
        _ => None,
    }
}

/// `count` brackets around a term.
fn nested(alloc: Global, count: usize) -> Result<Vec<u8>, AllocError> {
    let mut text = Vec::new(alloc);
    for _ in 0..count {
        text.push(b'(')?;
    }
    text.extend_from_slice(b"\"a\"".as_slice())?;
    for _ in 0..count {
        text.push(b')')?;
    }
    Ok(text)
}

/// A term, and `count` times a joint and the term.
fn joined(alloc: Global, count: usize) -> Result<Vec<u8>, AllocError> {
    let mut text = Vec::new(alloc);
    text.extend_from_slice(b"\"a\"".as_slice())?;
    for _ in 0..count {
        text.extend_from_slice(b"+\"a\"".as_slice())?;
    }
    Ok(text)
}

/// Queries, and what each is, written with brackets.
const GIVEN: [(&[u8], &[u8]); 19] = [
    (b"\"To\"", b"to"),
    (b"\"to be\"", b"to_be_"),
    (b"\"<file!>\"", b"<file!>"),
    (b"\" <file!>\"", b"<file>"),
    (b"\"King's\"", b"king_s_"),
    (b"\"Inter\"*", b"inter*"),
    (b"\" \xc3\xa9t\xc3\xa9, \"*", b"\xc3\xa9t\xc3\xa9*"),
    (b"\"n\"*^\"o\"*", b"(n*^o*^)"),
    (b"\t[0007] ", b"7"),
    (b"[72057594037927936]", b"72057594037927936"),
    (b"(\"a\")", b"a"),
    (b"\"to\"..\"be\"^\"not\"", b"((to.be.)^not^)"),
    (b"\"to\" + \"be\" ^ \"not\"", b"(to+(be^not^)+)"),
    (b"\"a\"+\"b\"+\"c\"", b"(a+b+c+)"),
    (b"(\"a\"+\"b\")+\"c\"", b"((a+b+)+c+)"),
    (b"[2] > \"to\" > \"be\"", b"((2>to)>be)"),
    (b"[2]<\"a\"/>\"b\"/<\"c\"", b"(((2<a)/>b)/<c)"),
    (b"[2] > (\"to\" > \"be\")", b"(2>(to>be))"),
    (b"\"a\"+\"b\">\"c\"+\"d\"", b"((a+b+)>(c+d+))"),
];

/// The query is this, written with brackets.
fn gives<R: Abort>(rt: &R, alloc: Global, text: &[u8], want: &[u8]) -> Result<(), ParseFault> {
    same(rt, &text, &written(alloc, text)?.as_slice(), &want);
    Ok(())
}

#[test]
fn queries_give_their_expressions(rt: HostRuntime) -> Result<(), Fail> {
    for (text, want) in GIVEN {
        gives(&rt, rt.alloc(), text, want)?;
    }
    Ok(())
}

/// Texts that are not queries, each with the place and the kind of its first fault.
const REFUSED: [(&[u8], u64, QueryKind); 41] = [
    (b"", 0, QueryKind::OperandExpected),
    (b" \t", 2, QueryKind::OperandExpected),
    (b"(\"to\"", 5, QueryKind::OperatorOrCloseExpected),
    (b"\"to\" ..", 7, QueryKind::OperandExpected),
    (b"\"a\"^)", 4, QueryKind::OperandExpected),
    (b"()", 1, QueryKind::OperandExpected),
    (b"\"a\" \"b\"", 4, QueryKind::OperatorOrCloseExpected),
    (b"\"a\" (", 4, QueryKind::OperatorOrCloseExpected),
    (b"\"a\")", 3, QueryKind::OperatorOrCloseExpected),
    (b"\"a\" . \"b\"", 4, QueryKind::Character),
    (b"\"a\"...\"b\"", 5, QueryKind::Character),
    (b"\"a\" / \"b\"", 4, QueryKind::Character),
    (b"a", 0, QueryKind::Character),
    (b"]", 0, QueryKind::Character),
    (b"\"a\"+\xc3", 4, QueryKind::Character),
    (b"\"a\"+\0", 4, QueryKind::Character),
    (b"\"abc", 0, QueryKind::OpenQuote),
    (b"\"a\" \"", 4, QueryKind::OpenQuote),
    (b"[0]", 0, QueryKind::BadWidth),
    (b"[5", 0, QueryKind::BadWidth),
    (b"[]", 0, QueryKind::BadWidth),
    (b"[ 5]", 0, QueryKind::BadWidth),
    (b"\"a\" [0]", 4, QueryKind::BadWidth),
    (b"[72057594037927937]", 0, QueryKind::BadWidth),
    (b"[18446744073709551617]", 0, QueryKind::BadWidth),
    (b"[99999999999999999999]", 0, QueryKind::BadWidth),
    (
        b"[1234567890123456789012345678901234567890]",
        0,
        QueryKind::BadWidth,
    ),
    (b"\"\"", 0, QueryKind::EmptyTerm),
    (b"\"a\"^\" . \"", 4, QueryKind::EmptyTerm),
    (b"\"\"*", 0, QueryKind::EmptyTerm),
    (b"\"to be\"*", 0, QueryKind::BadPrefix),
    (b"\"king's\"*", 0, QueryKind::BadPrefix),
    (b"\"a\" + \"<t>\"*", 6, QueryKind::BadPrefix),
    (b"\"<br/>\"*", 0, QueryKind::BadPrefix),
    (b"\"</file!>\"*", 0, QueryKind::BadPrefix),
    (b"\"a\" \"b c\"*", 4, QueryKind::BadPrefix),
    (b"\"a\" *", 4, QueryKind::Character),
    (b"\"a\"**", 4, QueryKind::Character),
    (b"[1]*", 3, QueryKind::Character),
    (b"(\"a\")*", 5, QueryKind::Character),
    (b"*", 0, QueryKind::Character),
];

/// The text is refused at this place, for this cause.
fn refuses<R: Abort>(rt: &R, alloc: Global, text: &[u8], at: u64, kind: QueryKind) {
    same(rt, &text, &fault(alloc, text), &Some((at, kind)));
}

#[test]
fn refusals_have_a_place_and_a_kind(rt: HostRuntime) {
    for (text, at, kind) in REFUSED {
        refuses(&rt, rt.alloc(), text, at, kind);
    }
}

/// The query takes `bytes` bytes, written with brackets.
fn takes<R: Abort>(rt: &R, alloc: Global, text: &[u8], bytes: usize) -> Result<(), ParseFault> {
    same(rt, &"its length", &written(alloc, text)?.len(), &bytes);
    Ok(())
}

#[test]
fn twelve_brackets_and_256_operands_pass_and_one_more_of_either_does_not(
    rt: HostRuntime,
) -> Result<(), Fail> {
    let alloc = rt.alloc();
    gives(&rt, alloc, nested(alloc, 12)?.as_slice(), b"a")?;
    refuses(
        &rt,
        alloc,
        nested(alloc, 13)?.as_slice(),
        12,
        QueryKind::TooDeep,
    );
    takes(&rt, alloc, joined(alloc, 255)?.as_slice(), 514)?;
    refuses(
        &rt,
        alloc,
        joined(alloc, 256)?.as_slice(),
        1024,
        QueryKind::TooLarge,
    );
    Ok(())
}
