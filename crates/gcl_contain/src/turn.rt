/// What the loop of a containment does at a member `a` of its first operand.
#[derive(Clone, Copy, Debug, PartialEq, Eq)]
pub enum Turn {
    /// `a` is the answer.
    Accept,
    /// The loop goes on with the first operand's access at this address.
    GoTo(u64),
    /// There is no answer.
    Finish,
}
