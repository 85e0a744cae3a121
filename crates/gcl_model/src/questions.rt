ghost use Rattle.std.specs.Prelude.{◌≡◌, ◌<◌, ◌≤◌, ◌+◌};

use crate::steps::{Ledger, NoLedger, Steps, Tally};
use std::marker::Brand;
use std::sync::ledger;
use std::sync::ledger::Blank;

/// Something that is asked with a counter of look-ups, whatever its ledger. A caller without a counter asks by `uncounted`, or by
/// `counted` to learn how many look-ups there were.
pub trait Question {
    ghost use Rattle.std.specs.Prelude.{ℕ};

    type Answer;

    /// What must hold before it is asked.
    ghost can_ask: { Self → Type 0 };

    /// What holds of the answer.
    ghost answers: { Self → Self.Answer → Type 0 };

    /// How many look-ups this answer may take.
    ghost most: { Self → Self.Answer → ℕ };

    fn ask<L: Ledger>(&self, steps: &mut Steps<L>) -> Self::Answer
        requires { can_ask self.now }
        ensures answer { answers self.now result }
        ensures cost { steps.new ≤ steps.old + most self.now result };
}

/// Asks with a counter that keeps nothing.
pub fn uncounted<Q: Question>(question: &Q) -> Q::Answer
    requires asked { Q.can_ask question.now }
    ensures { Q.answers question.now result }
{
    ask_uncounted::<Brand, Q>(question, Blank::new(1))
}

fn ask_uncounted<B: ledger::Ledger, Q: Question>(question: &Q, blank: Blank) -> Q::Answer
    requires asked { Q.can_ask question.now }
    requires name { blank.name ≡ B.name }
    requires parts { blank.parts ≡ B.parts }
    requires some { 0 < blank.parts }
    ensures { Q.answers question.now result }
{
    let mut steps = Steps::<NoLedger<B>>::open(blank);
    question.ask(&mut steps)
}

/// Asks, and returns the answer and the number of look-ups.
pub fn counted<Q: Question>(question: &Q) -> (Q::Answer, u64)
    requires asked { Q.can_ask question.now }
    ensures answer { Q.answers question.now result.0 }
    ensures cost { result.1 ≤ Q.most question.now result.0 }
{
    ask_counted::<Brand, Q>(question, Blank::new(1))
}

fn ask_counted<B: ledger::Ledger, Q: Question>(question: &Q, blank: Blank) -> (Q::Answer, u64)
    requires asked { Q.can_ask question.now }
    requires name { blank.name ≡ B.name }
    requires parts { blank.parts ≡ B.parts }
    requires some { 0 < blank.parts }
    ensures answer { Q.answers question.now result.0 }
    ensures cost { result.1 ≤ Q.most question.now result.0 }
{
    let mut steps = Steps::<Tally<B>>::open(blank);
    let answer = question.ask(&mut steps);
    (answer, steps.count())
}
