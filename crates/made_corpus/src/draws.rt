ghost use Rattle.std.specs.Prelude.{◌≡◌, ◌<◌};
ghost use Rattle.made_corpus.specs.Draws.{next_state, draw};

const FACTOR: u64 = 6_364_136_223_846_793_005;

const SUMMAND: u64 = 1_442_695_040_888_963_407;

/// A generator of numbers: the same state draws the same numbers.
#[derive(Drop)]
pub struct Draws {
    pub state: u64,
}

impl Draws {
    /// A number below a bound.
    pub fn draw(&mut self, below: u64) -> u64
        requires { 0 < below }
        ensures value { result ≡ draw self.old.state below }
        ensures state { self.new.state ≡ next_state self.old.state }
        ensures bound { result < below }
    {
        self.state = self.state.wrapping_mul(FACTOR).wrapping_add(SUMMAND);
        (self.state >> 33) % below
    }
}
