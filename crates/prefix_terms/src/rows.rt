ghost use Rattle.std.specs.Prelude.{◌≡◌, ◌<◌};
ghost use Rattle.gcl_model.specs.Wide.{begins_with};
ghost use Rattle.index_shard.specs.Tables.{IsShard};
ghost use Rattle.prefix_terms.specs.Runs.{IsFirstAbove, IsRun, names};

use index_shard::Shard;

/// The places from `from` up to `end` in a table of terms.
#[derive(Clone, Copy)]
pub struct Run {
    pub from: usize,
    pub end: usize,
}

/// The places of the terms that begin with the prefix: in byte order they are consecutive.
pub fn run_of(shard: &Shard, prefix: &[u8]) -> Run
    ensures run { IsRun (names shard.now.table) prefix.now result.from result.end }
    ensures shard { IsShard shard.now }
{
    let from = first_place(shard, prefix);
    let mut end = from;
    while end < shard.term_count() {
        if !begins_with(shard.term(end), prefix) {
            return Run { from, end };
        }
        end += 1;
    }
    Run { from, end }
}

/// The place of the first term that is the prefix or comes after it, or after the last term if all come before it.
fn first_place(shard: &Shard, prefix: &[u8]) -> usize
    ensures first { IsFirstAbove (names shard.now.table) prefix.now result }
    ensures shard { IsShard shard.now }
{
    let count = shard.term_count();
    match shard.term_from(prefix, false) {
        Some(term) => shard.place(term).unwrap_or(count),
        None => count,
    }
}

/// Whether the term begins with the prefix.
pub(crate) fn begins_with(term: &[u8], prefix: &[u8]) -> bool
    ensures { result ≡ begins_with prefix.now term.now }
{
    term.starts_with(prefix)
}
