use gcl_model::Expr;

/// A standing query: its number, and the expression whose list is watched.
#[derive(Drop)]
pub struct Watch {
    pub id: u64,
    pub expr: Expr,
}
