ghost use Rattle.std.specs.Prelude.{◌<◌};
ghost use Rattle.gcl_model.specs.Limits.{far};
ghost use Rattle.gcl_model.specs.FormOf.{form_of};
ghost use Rattle.gcl_model.specs.WellFormed.{IsWellFormed};

use crate::checks::same;
use crate::passes::query;
use gcl_eval::{count, first_end, first_start, last_end, last_start, list, list_from};
use gcl_model::{
    Bytes, Expr, Interval, IntervalList, Ledger, Question, Steps, TokenList, counted, uncounted,
};
use plain_text::{PlainText, of_tokens, slow_list};
use std::alloc::{AllocError, Global};
use std::process::Abort;
use std::test::Fail;

/// Which access is asked for: the first or the last member, by its start or by its end.
#[derive(Clone, Copy)]
enum Access {
    FirstStart,
    FirstEnd,
    LastEnd,
    LastStart,
}

/// One access of an expression.
#[derive(Drop)]
struct AccessAt<'a> {
    expr: &'a Expr,
    text: &'a PlainText,
    access: Access,
    k: u64,
}

impl Question for AccessAt<'_> {
    ghost use Rattle.std.specs.Prelude.{◌≡◌, ◌<◌};
    ghost use Rattle.gcl_model.specs.Access.{first_start, first_end, last_end, last_start};
    ghost use Rattle.gcl_model.specs.Limits.{far};
    ghost use Rattle.gcl_model.specs.FormOf.{form_of};
    ghost use Rattle.gcl_model.specs.Meaning.{concordance};
    ghost use Rattle.gcl_model.specs.Cost.{cost};
    ghost use Rattle.gcl_model.specs.WellFormed.{IsWellFormed};
    ghost use Rattle.index_tests.specs.declared.evaluation.Access.TheVariants.{FirstStart, FirstEnd, LastEnd, LastStart};

    type Answer = Option<Interval>;

    ghost can_ask = { λ asked. IsWellFormed (form_of asked.expr.now) × (asked.k < far) };

    ghost answers = { λ asked answer.
        (asked.access ≡ FirstStart → answer ≡ first_start (concordance asked.text.now (form_of asked.expr.now)) asked.k) ×
        (asked.access ≡ FirstEnd → answer ≡ first_end (concordance asked.text.now (form_of asked.expr.now)) asked.k) ×
        (asked.access ≡ LastEnd → answer ≡ last_end (concordance asked.text.now (form_of asked.expr.now)) asked.k) ×
        (asked.access ≡ LastStart → answer ≡ last_start (concordance asked.text.now (form_of asked.expr.now)) asked.k) };

    ghost most = { λ asked _. cost asked.text.now 1 (form_of asked.expr.now) };

    fn ask<L: Ledger>(&self, steps: &mut Steps<L>) -> Option<Interval> {
        match self.access {
            Access::FirstStart => first_start(self.expr, self.text, self.k, steps),
            Access::FirstEnd => first_end(self.expr, self.text, self.k, steps),
            Access::LastEnd => last_end(self.expr, self.text, self.k, steps),
            Access::LastStart => last_start(self.expr, self.text, self.k, steps),
        }
    }
}

/// The number of members.
#[derive(Drop)]
struct Count<'a> {
    expr: &'a Expr,
    text: &'a PlainText,
}

impl Question for Count<'_> {
    ghost use Rattle.std.specs.Prelude.{◌≡◌, ◌+◌, ◌*◌, length};
    ghost use Rattle.gcl_model.specs.FormOf.{form_of};
    ghost use Rattle.gcl_model.specs.Meaning.{concordance};
    ghost use Rattle.gcl_model.specs.Cost.{cost};
    ghost use Rattle.gcl_model.specs.WellFormed.{IsWellFormed};

    type Answer = u64;

    ghost can_ask = { λ asked. IsWellFormed (form_of asked.expr.now) };

    ghost answers = { λ asked answer. answer ≡ length (concordance asked.text.now (form_of asked.expr.now)) };

    ghost most = { λ asked answer. (answer + 1) * cost asked.text.now 1 (form_of asked.expr.now) };

    fn ask<L: Ledger>(&self, steps: &mut Steps<L>) -> u64 {
        count(self.expr, self.text, steps)
    }
}

/// The first `most` members that start at or after `k`.
#[derive(Drop)]
struct ListFrom<'a> {
    alloc: Global,
    expr: &'a Expr,
    text: &'a PlainText,
    k: u64,
    most: u64,
}

impl Question for ListFrom<'_> {
    ghost use Rattle.std.specs.Prelude.{◌≡◌, ◌+◌, ◌*◌, ◌<◌, length, take, IfOk};
    ghost use Rattle.gcl_model.specs.Limits.{far};
    ghost use Rattle.gcl_model.specs.FormOf.{form_of};
    ghost use Rattle.gcl_model.specs.Meaning.{concordance};
    ghost use Rattle.gcl_model.specs.Cost.{cost};
    ghost use Rattle.gcl_model.specs.WellFormed.{IsWellFormed};
    ghost use Rattle.gcl_eval.specs.Members.{members_from};

    type Answer = Result<IntervalList, AllocError>;

    ghost can_ask = { λ asked. IsWellFormed (form_of asked.expr.now) × (asked.k < far) };

    ghost answers = { λ asked answer. IfOk answer (λ members. members ≡
        take asked.most (members_from (concordance asked.text.now (form_of asked.expr.now)) asked.k)) };

    ghost most = { λ asked _.
        (length (take asked.most (members_from (concordance asked.text.now (form_of asked.expr.now)) asked.k)) + 1) *
        cost asked.text.now 1 (form_of asked.expr.now) };

    fn ask<L: Ledger>(&self, steps: &mut Steps<L>) -> Result<IntervalList, AllocError> {
        list_from(self.alloc, self.expr, self.text, self.k, self.most, steps)
    }
}

/// All members.
#[derive(Drop)]
struct List<'a> {
    alloc: Global,
    expr: &'a Expr,
    text: &'a PlainText,
}

impl Question for List<'_> {
    ghost use Rattle.std.specs.Prelude.{◌≡◌, ◌+◌, ◌*◌, ◌-◌, ◌^◌, length, take, IfOk};
    ghost use Rattle.gcl_model.specs.FormOf.{form_of};
    ghost use Rattle.gcl_model.specs.Meaning.{concordance};
    ghost use Rattle.gcl_model.specs.Cost.{cost};
    ghost use Rattle.gcl_model.specs.WellFormed.{IsWellFormed};

    type Answer = Result<IntervalList, AllocError>;

    ghost can_ask = { λ asked. IsWellFormed (form_of asked.expr.now) };

    ghost answers = { λ asked answer. IfOk answer (λ members. members ≡
        take (2 ^ 64 - 1) (concordance asked.text.now (form_of asked.expr.now))) };

    ghost most = { λ asked _. (length (take (2 ^ 64 - 1) (concordance asked.text.now (form_of asked.expr.now))) + 1) *
        cost asked.text.now 1 (form_of asked.expr.now) };

    fn ask<L: Ledger>(&self, steps: &mut Steps<L>) -> Result<IntervalList, AllocError> {
        list(self.alloc, self.expr, self.text, u64::MAX, steps)
    }
}

/// The first and the last address of an interval.
type Ends = (u64, u64);

/// A query, and the ends of its members.
type Row = (&'static str, &'static [Ends]);

/// The tokens of a file at consecutive addresses.
fn text_of<R: Abort>(
    rt: &R,
    alloc: Global,
    first: u64,
    tokens: &TokenList,
) -> Result<PlainText, AllocError> {
    assert!(rt; first <= 10 && tokens.len() <= 200_000);
    of_tokens(alloc, first, tokens)
}

/// The text of these words, starting at this address.
fn words_from<R: Abort>(
    rt: &R,
    alloc: Global,
    first: u64,
    words: &[&str],
) -> Result<PlainText, AllocError> {
    text_of(rt, alloc, first, &TokenList::of(alloc, words)?)
}

fn ends_of(interval: Interval) -> Ends {
    (interval.start, interval.end)
}

/// These are the members.
fn are<R: Abort>(rt: &R, asked: &str, members: &[Interval], want: &[Ends]) {
    same(rt, &asked, &members.len(), &want.len());
    for (member, ends) in members.iter().zip(want) {
        same(rt, &asked, &ends_of(*member), ends);
    }
}

/// The access, by looking at each member.
fn plain_access(members: &[Interval], access: Access, k: u64) -> Option<Interval> {
    let mut found = None;
    for member in members {
        let is_found = match access {
            Access::FirstStart => k <= member.start && found.is_none(),
            Access::FirstEnd => k <= member.end && found.is_none(),
            Access::LastEnd => member.end <= k,
            Access::LastStart => member.start <= k,
        };
        if is_found {
            found = Some(*member);
        }
    }
    found
}

/// Each access of the expression at an address is that of the members.
fn accesses_are<R: Abort>(rt: &R, expr: &Expr, text: &PlainText, members: &[Interval], k: u64)
    requires well_formed { IsWellFormed (form_of expr.now) }
    requires below { k < far }
{
    for access in [
        Access::FirstStart,
        Access::FirstEnd,
        Access::LastEnd,
        Access::LastStart,
    ] {
        let found = uncounted(&AccessAt {
            expr,
            text,
            access,
            k,
        });
        same(rt, &k, &found, &plain_access(members, access, k));
    }
}

/// The first `most` of these members that start at or after `k`.
fn front(
    alloc: Global,
    members: &[Interval],
    k: u64,
    most: u64,
) -> Result<Vec<Interval>, AllocError> {
    let mut front = Vec::new(alloc);
    for member in members {
        if member.start >= k && (front.len() as u64) < most {
            front.push(*member)?;
        }
    }
    Ok(front)
}

/// The list from an address is the front of the members that start at or after it.
fn page_is<R: Abort>(
    rt: &R,
    alloc: Global,
    expr: &Expr,
    text: &PlainText,
    members: &[Interval],
    k: u64,
    most: u64,
) -> Result<(), AllocError>
    requires well_formed { IsWellFormed (form_of expr.now) }
    requires below { k < far }
{
    let page = uncounted(&ListFrom {
        alloc,
        expr,
        text,
        k,
        most,
    })?;
    let want = front(alloc, members, k, most)?;
    same(rt, &(k, most), &page.as_slice(), &want.as_slice());
    Ok(())
}

/// Each access and each page at an address follow from the members.
fn follows_at<R: Abort>(
    rt: &R,
    alloc: Global,
    expr: &Expr,
    text: &PlainText,
    members: &[Interval],
    k: u64,
) -> Result<(), AllocError>
    requires well_formed { IsWellFormed (form_of expr.now) }
    requires below { k < far }
{
    accesses_are(rt, expr, text, members, k);
    for most in 0..4u64 {
        page_is(rt, alloc, expr, text, members, k, most)?;
    }
    Ok(())
}

/// The count and the list are those of the members.
fn is_listed<R: Abort>(
    rt: &R,
    alloc: Global,
    expr: &Expr,
    text: &PlainText,
    members: &[Interval],
) -> Result<(), AllocError>
    requires { IsWellFormed (form_of expr.now) }
{
    let count = uncounted(&Count { expr, text });
    same(rt, &"count", &count, &(members.len() as u64));
    let listed = uncounted(&List { alloc, expr, text })?;
    same(rt, &"list", &listed.as_slice(), &members);
    Ok(())
}

/// The count, the list, each access and each page follow from the members.
fn follows<R: Abort>(
    rt: &R,
    alloc: Global,
    expr: &Expr,
    text: &PlainText,
    members: &[Interval],
) -> Result<(), AllocError>
    requires { IsWellFormed (form_of expr.now) }
{
    is_listed(rt, alloc, expr, text, members)?;
    for k in 0..10u64 {
        follows_at(rt, alloc, expr, text, members, k)?;
    }
    Ok(())
}

/// The query has these members by the plain list, and all else follows.
fn has<R: Abort>(
    rt: &R,
    alloc: Global,
    text: &PlainText,
    asked: &str,
    want: &[Ends],
) -> Result<(), AllocError> {
    let expr = query(rt, alloc, asked);
    let members = slow_list(alloc, &expr, text)?;
    are(rt, asked, members.as_slice(), want);
    follows(rt, alloc, &expr, text, members.as_slice())
}

/// Over a text of these words, starting at 0, each query has its members.
fn each_has<R: Abort>(
    rt: &R,
    alloc: Global,
    words: &[&str],
    rows: &[Row],
) -> Result<(), AllocError> {
    let text = words_from(rt, alloc, 0, words)?;
    for (asked, want) in rows {
        has(rt, alloc, &text, asked, want)?;
    }
    Ok(())
}

/// `to be or not to be` between the tokens of a file's boundary, at 0 to 7.
const HAMLET: [&str; 8] = ["<file!>", "to", "be", "or", "not", "to", "be", "</file!>"];

const LEAVES: [Row; 4] = [
    ("\"to\"", &[(1, 1), (5, 5)]),
    ("\"to be\"", &[(1, 2), (5, 6)]),
    ("[7]", &[(0, 6), (1, 7)]),
    // 2^56
    ("[72057594037927936]", &[]),
];

#[test]
fn each_kind_of_leaf_has_the_members_of_the_plain_list(rt: HostRuntime) -> Result<(), Fail> {
    each_has(&rt, rt.alloc(), &HAMLET, &LEAVES)?;
    Ok(())
}

const CHAINS: [Row; 4] = [
    ("\"to\" ^ \"not\"", &[(1, 4), (4, 5)]),
    ("\"be\" .. \"to\"", &[(2, 5)]),
    ("\"to\" + \"be\"", &[(1, 1), (2, 2), (5, 5), (6, 6)]),
    ("(\"to\" ^ \"not\") + \"be\"", &[(2, 2), (4, 5), (6, 6)]),
];

#[test]
fn each_kind_of_chain_has_the_members_of_the_plain_list(rt: HostRuntime) -> Result<(), Fail> {
    each_has(&rt, rt.alloc(), &HAMLET, &CHAINS)?;
    Ok(())
}

/// The ends of each place of a token that is one of these words.
fn places_of(alloc: Global, tokens: &[&str], words: &[&str]) -> Result<Vec<Ends>, AllocError> {
    let mut places = Vec::new(alloc);
    for (i, token) in tokens.iter().enumerate() {
        if words.iter().any(|word| word == token) {
            places.push((i as u64, i as u64))?;
        }
    }
    Ok(places)
}

const LETTERS: [&str; 12] = ["a", "b", "a", "c", "b", "a", "b", "d", "e", "f", "g", "h"];

const ALPHABET: [&str; 17] = [
    "a", "b", "c", "d", "e", "f", "g", "h", "i", "j", "k", "l", "m", "n", "o", "p", "q",
];

/// The number of members and the look-ups that find it are these.
fn is_counted<R: Abort>(rt: &R, expr: &Expr, text: &PlainText, want: (u64, u64))
    requires { IsWellFormed (form_of expr.now) }
{
    same(rt, &"count", &counted(&Count { expr, text }), &want);
}

/// The query of one of these words.
fn one_of(alloc: Global, words: &[&str]) -> Result<String, AllocError> {
    let mut query = String::new(alloc);
    for word in words {
        query.push_str(if query.is_empty() { "\"" } else { "+\"" })?;
        query.push_str(word)?;
        query.push('"')?;
    }
    Ok(query)
}

/// Over `LETTERS` one of these words has the places of each, which are counted in `look_ups` look-ups.
fn one_of_has<R: Abort>(
    rt: &R,
    alloc: Global,
    words: &[&str],
    look_ups: u64,
) -> Result<(), AllocError> {
    let text = words_from(rt, alloc, 0, &LETTERS)?;
    let want = places_of(alloc, &LETTERS, words)?;
    let asked = one_of(alloc, words)?;
    let count = (want.len() as u64, look_ups);
    is_counted(rt, &query(rt, alloc, &asked), &text, count);
    has(rt, alloc, &text, &asked, want.as_slice())
}

/// Each operand is looked up once at first, and once more for each of its members; the last of 65 has no place and is asked at each turn.
#[test]
fn one_of_many_words_has_the_places_of_each(rt: HostRuntime) -> Result<(), Fail> {
    let mut many = ["none"; 65];
    many[0] = "c";
    many[63] = "a";
    many[64] = "b";
    for (words, look_ups) in [
        (&ALPHABET[..2], 8),
        (&ALPHABET[..3], 10),
        (&ALPHABET[..8], 20),
        (&ALPHABET[..16], 28),
        (&ALPHABET[..17], 29),
        (&ALPHABET[12..], 5),
        (many.as_slice(), 76),
    ] {
        one_of_has(&rt, rt.alloc(), words, look_ups)?;
    }
    Ok(())
}

// The first answer of `"or" ^ "to"`, (1, 3), has (1, 2) in it: it is passed together with that, and the operand is asked again.
const LONGER: [Row; 1] = [(
    "\"to be\" + (\"be\" .. \"not\") + (\"or\" ^ \"to\")",
    &[(1, 2), (2, 4), (3, 5), (5, 6)],
)];

#[test]
fn one_of_longer_operands_has_the_members_of_the_plain_list(rt: HostRuntime) -> Result<(), Fail> {
    each_has(&rt, rt.alloc(), &HAMLET, &LONGER)?;
    Ok(())
}

// The members of `"to" ^ "be"` with "not" or without it, and the places of "to" in `"be" .. "to"` or not in it.
const CONTAINMENTS: [Row; 4] = [
    ("(\"to\" ^ \"be\") > \"not\"", &[(2, 5)]),
    ("(\"to\" ^ \"be\") /> \"not\"", &[(1, 2), (5, 6)]),
    ("\"to\" < (\"be\" .. \"to\")", &[(5, 5)]),
    ("\"to\" /< (\"be\" .. \"to\")", &[(1, 1)]),
];

#[test]
fn each_kind_of_containment_has_the_members_of_the_plain_list(rt: HostRuntime) -> Result<(), Fail> {
    each_has(&rt, rt.alloc(), &HAMLET, &CONTAINMENTS)?;
    Ok(())
}

/// A query, an access, its address, the interval that it answers and the look-ups that it takes.
type Taken = (&'static str, Access, u64, Option<Ends>, u64);

/// The access of the query has this answer, and takes this number of look-ups.
fn takes<R: Abort>(rt: &R, alloc: Global, text: &PlainText, taken: &Taken) {
    let (asked, access, k, want, look_ups) = *taken;
    assert!(rt; k <= 10);
    let (answer, count) = counted(&AccessAt {
        expr: &query(rt, alloc, asked),
        text,
        access,
        k,
    });
    let found = (answer.map(|interval| ends_of(interval)), count);
    same(rt, &(asked, k), &found, &(want, look_ups));
}

/// Over a text of these words, starting at this address, each access has its answer, and takes its number of look-ups.
fn each_takes<R: Abort>(
    rt: &R,
    alloc: Global,
    first: u64,
    words: &[&str],
    rows: &[Taken],
) -> Result<(), AllocError> {
    let text = words_from(rt, alloc, first, words)?;
    for taken in rows {
        takes(rt, alloc, &text, taken);
    }
    Ok(())
}

// At 3 to 9.
const FROM_THREE: [&str; 7] = ["a", "b", "a", "c", "b", "a", "b"];

// Accesses of "b" and "c" by each chain, and of a width.
const OF_B_AND_C: [Taken; 9] = [
    ("\"b\" ^ \"c\"", Access::FirstStart, 0, Some((4, 6)), 4),
    ("\"b\" ^ \"c\"", Access::LastEnd, 9, Some((6, 7)), 4),
    ("\"b\" ^ \"c\"", Access::FirstEnd, 7, Some((6, 7)), 8),
    ("\"b\" ^ \"c\"", Access::LastStart, 5, Some((4, 6)), 8),
    ("\"b\" + \"c\"", Access::FirstStart, 5, Some((6, 6)), 2),
    ("\"b\" + \"c\"", Access::FirstEnd, 5, Some((6, 6)), 4),
    ("\"b\" .. \"c\"", Access::FirstStart, 0, Some((4, 6)), 3),
    ("\"b\" .. \"c\"", Access::LastEnd, 9, Some((4, 6)), 3),
    ("[3]", Access::FirstStart, 0, Some((3, 5)), 0),
];

/// A far access of "both of" or "one of" takes two near ones, and "followed by" asks its nearest operand once. A width asks nothing.
#[test]
fn each_access_takes_so_many_look_ups(rt: HostRuntime) -> Result<(), Fail> {
    each_takes(&rt, rt.alloc(), 3, &FROM_THREE, &OF_B_AND_C)?;
    Ok(())
}

// Far accesses of two words, one followed by the other.
const IN_ORDER: [Taken; 8] = [
    ("\"b\" .. \"c\"", Access::FirstEnd, 5, Some((4, 6)), 3),
    ("\"b\" .. \"c\"", Access::LastStart, 5, Some((4, 6)), 3),
    ("\"b\" .. \"a\"", Access::FirstEnd, 6, Some((7, 8)), 3),
    ("\"b\" .. \"c\"", Access::FirstEnd, 7, None, 1),
    ("\"c\" .. \"b\"", Access::FirstEnd, 8, None, 4),
    ("\"a\" .. \"c\"", Access::LastStart, 4, None, 4),
    ("\"c\" .. \"b\"", Access::FirstEnd, 4, Some((6, 7)), 5),
    ("\"b\" .. \"c\"", Access::LastStart, 8, Some((4, 6)), 5),
];

/// The last operand is asked first, then the way goes back and forward again: three look-ups in place of four to six if it ends
/// as it began, and one if the last operand has no answer. Else the next member is looked for, past that way or from the edge.
#[test]
fn a_far_access_of_followed_by_asks_its_last_operand_first(rt: HostRuntime) -> Result<(), Fail> {
    each_takes(&rt, rt.alloc(), 3, &FROM_THREE, &IN_ORDER)?;
    Ok(())
}

const THREE_IN_ORDER: [Row; 1] = [("\"a\" .. \"b\" .. \"a\"", &[(0, 2), (2, 5)])];

#[test]
fn three_words_in_order_have_the_members_of_the_plain_list(rt: HostRuntime) -> Result<(), Fail> {
    each_has(&rt, rt.alloc(), &LETTERS, &THREE_IN_ORDER)?;
    Ok(())
}

/// Over a text of these words, starting at 0, the members of the query are counted in this number of look-ups.
fn counts<R: Abort>(
    rt: &R,
    alloc: Global,
    words: &[&str],
    asked: &str,
    want: (u64, u64),
) -> Result<(), AllocError> {
    let text = words_from(rt, alloc, 0, words)?;
    is_counted(rt, &query(rt, alloc, asked), &text, want);
    Ok(())
}

/// Two look-ups for each of the two members, and one that finds no further one.
#[test]
fn counting_a_containment_takes_turns_alone(rt: HostRuntime) -> Result<(), Fail> {
    counts(&rt, rt.alloc(), &HAMLET, "\"to\" < \"to\"", (2, 5))?;
    Ok(())
}

const AROUND_NOT: [Taken; 1] = [(
    "(\"or\" ^ \"be\") > \"not\"",
    Access::FirstStart,
    0,
    Some((3, 6)),
    13,
)];

/// At (2, 3) the second operand's answer is (4, 4), and at the next member, (3, 6), it still is: only the first one is asked again.
#[test]
fn a_containment_asks_its_second_operand_once_while_the_answer_holds(
    rt: HostRuntime,
) -> Result<(), Fail> {
    each_takes(&rt, rt.alloc(), 0, &HAMLET, &AROUND_NOT)?;
    Ok(())
}

const WITHOUT_H: [Row; 1] = [("\"a\" /> \"h\"", &[(0, 0), (2, 2), (5, 5)])];

/// The one "h" is looked up once for all three members, and "a" once for each and once more.
#[test]
fn a_count_keeps_what_is_known_of_the_second_operand_from_member_to_member(
    rt: HostRuntime,
) -> Result<(), Fail> {
    counts(&rt, rt.alloc(), &LETTERS, "\"a\" /> \"h\"", (3, 5))?;
    each_has(&rt, rt.alloc(), &LETTERS, &WITHOUT_H)?;
    Ok(())
}

const OF_LETTERS: [Row; 2] = [
    ("\"a\" /< (\"c\" .. \"h\")", &[(0, 0), (2, 2)]),
    ("(\"a\" .. \"b\") > \"c\"", &[(2, 4)]),
];

#[test]
fn containments_of_letters_have_the_members_of_the_plain_list(rt: HostRuntime) -> Result<(), Fail> {
    each_has(&rt, rt.alloc(), &LETTERS, &OF_LETTERS)?;
    Ok(())
}

fn push_times(
    alloc: Global,
    tokens: &mut TokenList,
    word: &str,
    times: u64,
) -> Result<(), AllocError> {
    for _ in 0..times {
        tokens.push(Bytes::copy_of(alloc, word.as_bytes())?)?;
    }
    Ok(())
}

/// `times` times "x", then "y", and `times` times "x" again.
fn around_a_rare_word(alloc: Global, times: u64) -> Result<TokenList, AllocError> {
    let mut tokens = TokenList::new(alloc);
    push_times(alloc, &mut tokens, "x", times)?;
    push_times(alloc, &mut tokens, "y", 1)?;
    push_times(alloc, &mut tokens, "x", times)?;
    Ok(tokens)
}

/// Four look-ups for each of the two members, and two that find no further one.
#[test]
fn a_rare_word_beside_a_common_one_is_counted_in_few_look_ups(rt: HostRuntime) -> Result<(), Fail> {
    let tokens = around_a_rare_word(rt.alloc(), 50_000)?;
    let text = text_of(&rt, rt.alloc(), 0, &tokens)?;
    let expr = query(&rt, rt.alloc(), "\"x\" ^ \"y\"");
    is_counted(&rt, &expr, &text, (2, 10));
    Ok(())
}
