use gcl_model::Bytes;

/// What was taken from a feed of lines.
#[derive(Drop)]
pub enum Taken {
    /// What the next line says.
    Line(Bytes),
    /// The next line has more bytes than a line may have.
    Long,
    /// The next line is not complete yet.
    More,
}
