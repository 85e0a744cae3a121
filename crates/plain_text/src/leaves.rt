ghost use Rattle.std.specs.Prelude.{◌≡◌, ◌+◌, ◌≤◌, length, take, drop};
ghost use Rattle.gcl_model.specs.Texts.{IsText, next_place, previous_place};
ghost use Rattle.plain_text.specs.Holders.{first_holder, last_holder};

use crate::text::PlainText;
use gcl_model::{Leaves, Ledger, Span, Steps};

impl Leaves for PlainText {
    ghost text = { λ t. t };

    ghost most = { λ _. 1 };

    fn next<L: Ledger>(&self, term: &[u8], k: u64, steps: &mut Steps<L>) -> Option<u64>
        ensures answer { result ≡ next_place self.now.words term.now k }
        ensures sound { IsText self.now }
        ensures step { steps.new ≡ steps.old + 1 }
        ensures counted { steps.old ≤ steps.new }
        ensures cost { steps.new ≤ steps.old + 1 }
    {
        steps.tick();
        first_from(self, self.count_before(k), term)
    }

    fn prev<L: Ledger>(&self, term: &[u8], k: u64, steps: &mut Steps<L>) -> Option<u64>
        ensures answer { result ≡ previous_place self.now.words term.now k }
        ensures sound { IsText self.now }
        ensures step { steps.new ≡ steps.old + 1 }
        ensures counted { steps.old ≤ steps.new }
        ensures cost { steps.new ≤ steps.old + 1 }
    {
        steps.tick();
        last_below(self, self.count_upto(k), term)
    }

    fn span(&self) -> Span {
        self.addresses()
    }
}

/// The address of the first word from place `start` that is the term.
fn first_from(text: &PlainText, start: usize, term: &[u8]) -> Option<u64>
    ensures { result ≡ first_holder (drop start text.now.words) term.now }
{
    for i in start..text.word_count() {
        let (address, token) = text.word_at(i);
        if token == term {
            return Some(address);
        }
    }
    None
}

/// The address of the last word before place `end` that is the term.
fn last_below(text: &PlainText, end: usize, term: &[u8]) -> Option<u64>
    requires { end ≤ length text.now.words }
    ensures { result ≡ last_holder (take end text.now.words) term.now }
{
    let mut left = end;
    while left > 0 {
        left -= 1;
        let (address, token) = text.word_at(left);
        if token == term {
            return Some(address);
        }
    }
    None
}
