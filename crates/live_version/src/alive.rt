ghost use Rattle.std.specs.Prelude.{◌≡◌, ◌+◌, ◌≤◌, length};
ghost use Rattle.gcl_model.specs.Texts.{next_place, previous_place};
ghost use Rattle.live_version.specs.Contents.{live_words};

use crate::look_up::LookUp;
use crate::slot::Slot;
use index_shard::Direction;

impl Slot {
    /// The least address at or after `k` that holds the term and is not dead. A dead range is passed as a whole, and without surviving
    /// files nothing is looked up.
    pub(crate) fn next<T: LookUp>(
        &self,
        term: &T,
        number: usize,
        k: u64,
        counter: &mut T::Counter,
    ) -> Option<u64>
        requires { T.knows term.now number self.now.shard }
        ensures answer { result ≡ next_place (live_words self.now) (T.term term.now) k }
        ensures counted { T.count counter.old ≤ T.count counter.new }
        ensures cost { T.count counter.new ≤ T.count counter.old + (1 + length self.now.mask) }
    {
        if self.files() == 0 {
            return None;
        }
        let shard = self.shard();
        let mask = self.mask();
        let range = self.range();
        let mut from = k;
        loop {
            let p = term.nearest(number, shard, from, Direction::Forward, counter)?;
            match mask.dead(p) {
                None => return Some(p),
                Some(dead) => {
                    if range.last <= dead.last {
                        return None;
                    }
                    from = dead.last + 1;
                }
            }
        }
    }

    /// The greatest address up to `k` that holds the term and is not dead.
    pub(crate) fn prev<T: LookUp>(
        &self,
        term: &T,
        number: usize,
        k: u64,
        counter: &mut T::Counter,
    ) -> Option<u64>
        requires { T.knows term.now number self.now.shard }
        ensures answer { result ≡ previous_place (live_words self.now) (T.term term.now) k }
        ensures counted { T.count counter.old ≤ T.count counter.new }
        ensures cost { T.count counter.new ≤ T.count counter.old + (1 + length self.now.mask) }
    {
        if self.files() == 0 {
            return None;
        }
        let shard = self.shard();
        let mask = self.mask();
        let range = self.range();
        let mut upto = k;
        loop {
            let p = term.nearest(number, shard, upto, Direction::Backward, counter)?;
            match mask.dead(p) {
                None => return Some(p),
                Some(dead) => {
                    if dead.first <= range.first {
                        return None;
                    }
                    upto = dead.first - 1;
                }
            }
        }
    }
}
