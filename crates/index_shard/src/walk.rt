ghost use Rattle.std.specs.Prelude.{◌≡◌, ◌+◌, [], ◌++◌, ◌↔◌, length, IsNone};
ghost use Rattle.std.specs.Option.{option_to_list};

use gcl_model::{Ledger, Steps};
use posting_code::Postings;
use std::marker::Model;

/// The postings of one term that are still to come. Blocks are read one at a time, each once.
#[derive(Drop)]
pub struct Walk<'a> {
    list: Postings<'a>,
    next_block: usize,
    members: [u64; 64],
    at: usize,
    count: usize,
}

impl<'a> Model for Walk<'a> {
    ghost use Rattle.std.specs.Prelude.{◌≡◌, List, ℕ, ◌≤◌, length, ◌*◌, ◌++◌, take, drop};
    ghost use Rattle.posting_code.specs.Postings.{blocks_of};

    ghost Value = { List ℕ };

    ghost view = { λ w. drop w.at (take w.count w.members) ++ drop (64 * w.next_block) w.list };

    ghost invariant = { λ w. (w.at ≤ w.count) × (w.count ≤ 64) × (w.next_block ≤ blocks_of w.list) × (length w.members ≡ 64) };
}

impl<'a> Walk<'a> {
    pub(crate) fn new(list: Postings<'a>) -> Self
        ensures { result ≡ list.entry }
    {
        Walk {
            list,
            next_block: 0,
            members: [0; 64],
            at: 0,
            count: 0,
        }
    }

    /// The next posting, which is one step. At the end it returns None, without a step.
    pub fn next<L: Ledger>(&mut self, steps: &mut Steps<L>) -> Option<u64>
        ensures postings { self.old ≡ option_to_list result ++ self.new }
        ensures none { IsNone result ↔ (self.old ≡ []) }
        ensures step { steps.new ≡ steps.old + length (option_to_list result) }
    {
        if self.at == self.count {
            if self.next_block == self.list.block_count() {
                return None;
            }
            self.count = self.list.read_block(self.next_block, &mut self.members);
            self.next_block += 1;
            self.at = 0;
        }
        let address = self.members[self.at];
        self.at += 1;
        steps.tick();
        Some(address)
    }
}
