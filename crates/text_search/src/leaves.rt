use crate::search::{last_of, next_of};
use crate::text::QueryText;
use gcl_model::{Leaves, Ledger, Span, Steps};

impl Leaves for QueryText<'_> {
    ghost text = { λ t. t };

    ghost most = { λ _. 1 };

    fn next<L: Ledger>(&self, term: &[u8], k: u64, steps: &mut Steps<L>) -> Option<u64> {
        steps.tick();
        next_of(self.places(term), k)
    }

    fn prev<L: Ledger>(&self, term: &[u8], k: u64, steps: &mut Steps<L>) -> Option<u64> {
        steps.tick();
        last_of(self.places(term), k)
    }

    fn span(&self) -> Span {
        self.addresses()
    }
}
