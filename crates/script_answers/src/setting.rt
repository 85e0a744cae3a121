ghost use Rattle.script_answers.specs.States.{AreLimits};
ghost use Rattle.script_answers.specs.inner.Once.{AreLimits-prop};

use crate::limits::Limits;
use query_lanes::Context;

/// What a run is given once, and never changes.
#[derive(Drop)]
pub struct Setting<'a, R, G> {
    /// What starts and joins its threads, where its memory comes from, and the gate that its merges pass.
    pub context: Context<'a, R, G>,
    /// How long its parts may be.
    pub limits: Limits,
    ghost allowed: { AreLimits limits } by { AreLimits-prop limits },
}
