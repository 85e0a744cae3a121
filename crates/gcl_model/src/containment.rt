/// One of the four operators that keep members of a first operand by those of a second.
#[derive(Clone, Copy, Debug, PartialEq, Eq)]
pub enum Containment {
    /// `>`
    Containing,
    /// `<`
    ContainedIn,
    /// `/>`
    NotContaining,
    /// `/<`
    NotContainedIn,
}
