use gcl_model::Expr;

/// An expression that was read, and the place after it.
#[derive(Drop)]
pub struct Parsed {
    pub expr: Expr,
    pub end: usize,
}
