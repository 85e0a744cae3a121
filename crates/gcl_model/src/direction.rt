/// A direction along the addresses, or the side of an address on which something is looked for.
#[derive(Clone, Copy, Debug, PartialEq, Eq)]
pub enum Direction {
    /// From lower addresses to higher ones. What is looked for is at the address or after it.
    Forward,
    /// From higher addresses to lower ones. What is looked for is at the address or before it.
    Backward,
}
