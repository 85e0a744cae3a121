use crate::holding::{is_phrase, is_term};
use crate::nesting::{all_cover, any_contains, covers, has_width, is_inside, is_least};
use crate::order::runs_in_order;
use crate::pairs::PairTest;
use crate::text::PlainText;
use gcl_model::{Bytes, Interval, IntervalList};

/// One address that holds the token.
#[derive(Drop)]
pub(crate) struct IsTerm<'a> {
    pub text: &'a PlainText,
    pub token: &'a [u8],
}

impl PairTest for IsTerm<'_> {
    ghost use Rattle.gcl_model.specs.Meaning.{is_term};

    ghost test = { λ t. is_term t.text.now t.token.now };

    fn passes(&self, pair: Interval) -> bool {
        is_term(self.text, self.token, pair)
    }
}

/// As many addresses as tokens, which hold the tokens in order.
#[derive(Drop)]
pub(crate) struct IsPhrase<'a> {
    pub text: &'a PlainText,
    pub tokens: &'a [Bytes],
}

impl PairTest for IsPhrase<'_> {
    ghost use Rattle.gcl_model.specs.Meaning.{is_phrase};

    ghost test = { λ t. is_phrase t.text.now t.tokens.now };

    fn passes(&self, pair: Interval) -> bool {
        is_phrase(self.text, self.tokens, pair)
    }
}

/// This many addresses.
#[derive(Drop)]
pub(crate) struct HasWidth {
    pub width: u64,
}

impl PairTest for HasWidth {
    ghost use Rattle.gcl_model.specs.Meaning.{is_width};

    ghost test = { λ t. is_width t.width };

    fn passes(&self, pair: Interval) -> bool {
        has_width(pair, self.width)
    }
}

/// A member of each list is nested in the pair.
#[derive(Drop)]
pub(crate) struct AllCover<'a> {
    pub lists: &'a [IntervalList],
}

impl PairTest for AllCover<'_> {
    ghost use Rattle.gcl_model.specs.Meaning.{all_cover};

    ghost test = { λ t. all_cover t.lists.now };

    fn passes(&self, pair: Interval) -> bool {
        all_cover(self.lists, pair)
    }
}

/// The pair is a member of a list.
#[derive(Drop)]
pub(crate) struct AnyContains<'a> {
    pub lists: &'a [IntervalList],
}

impl PairTest for AnyContains<'_> {
    ghost use Rattle.gcl_model.specs.Meaning.{any_contains};

    ghost test = { λ t. any_contains t.lists.now };

    fn passes(&self, pair: Interval) -> bool {
        any_contains(self.lists, pair)
    }
}

/// The pair runs through members of the lists in order.
#[derive(Drop)]
pub(crate) struct RunsInOrder<'a> {
    pub lists: &'a [IntervalList],
}

impl PairTest for RunsInOrder<'_> {
    ghost use Rattle.gcl_model.specs.Meaning.{runs_in_order};

    ghost test = { λ t. runs_in_order t.lists.now };

    fn passes(&self, pair: Interval) -> bool {
        runs_in_order(self.lists, pair)
    }
}

/// No other member is nested in the pair.
#[derive(Drop)]
pub(crate) struct IsLeast<'a> {
    pub members: &'a [Interval],
}

impl PairTest for IsLeast<'_> {
    ghost use Rattle.gcl_model.specs.Extents.{is_least};

    ghost test = { λ t. is_least t.members.now };

    fn passes(&self, pair: Interval) -> bool {
        is_least(self.members, pair)
    }
}

/// A member is nested in the pair.
#[derive(Drop)]
pub(crate) struct Covers<'a> {
    pub members: &'a [Interval],
}

impl PairTest for Covers<'_> {
    ghost use Rattle.gcl_model.specs.Extents.{covers};

    ghost test = { λ t. covers t.members.now };

    fn passes(&self, pair: Interval) -> bool {
        covers(self.members, pair)
    }
}

/// The pair is nested in a member.
#[derive(Drop)]
pub(crate) struct IsInside<'a> {
    pub members: &'a [Interval],
}

impl PairTest for IsInside<'_> {
    ghost use Rattle.gcl_model.specs.Extents.{is_inside};

    ghost test = { λ t. is_inside t.members.now };

    fn passes(&self, pair: Interval) -> bool {
        is_inside(self.members, pair)
    }
}

/// The pair fails the other test.
#[derive(Drop)]
pub(crate) struct Fails<T: PairTest> {
    pub test: T,
}

impl<T: PairTest> PairTest for Fails<T> {
    ghost use Rattle.std.specs.Prelude.{not};

    ghost test = { λ t c. not (T.test t.test c) };

    fn passes(&self, pair: Interval) -> bool {
        !self.test.passes(pair)
    }
}
