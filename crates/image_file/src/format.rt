/// The two versions of the format. The second is written, and both are read.
#[derive(Clone, Copy, Debug, PartialEq, Eq)]
pub enum Format {
    /// Most numbers take four or eight bytes, and addresses end at 2^48.
    One,
    /// Most numbers are packed, and addresses end at 2^56.
    Two,
}
