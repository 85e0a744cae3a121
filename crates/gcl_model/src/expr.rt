use crate::bytes::Bytes;
use crate::token_list::TokenList;

/// An expression of the algebra of concordance lists (Clarke, Cormack and Burkowski 1995).
/// Contracts see it by its form (`form_of`): a plain tree of the same kinds.
#[derive(Drop)]
pub enum Expr {
    /// The addresses that hold the token.
    Term(Bytes),
    /// The intervals whose addresses hold these tokens in order; two tokens or more.
    Phrase(TokenList),
    /// Every interval of this many addresses, 1 to `ADDRESS_END`.
    Width(u64),
    /// The least intervals in which an interval of each operand is nested; two operands or more.
    Both(Vec<Expr>),
    /// The least intervals of all operands; two operands or more.
    One(Vec<Expr>),
    /// The least intervals from an interval of the first operand to one of the last, each after the one before.
    Seq(Vec<Expr>),
    /// Those of the first in which one of the second is nested.
    Containing(Box<Expr>, Box<Expr>),
    /// Those of the first that are nested in one of the second.
    ContainedIn(Box<Expr>, Box<Expr>),
    /// Those of the first in which none of the second is nested.
    NotContaining(Box<Expr>, Box<Expr>),
    /// Those of the first that are nested in none of the second.
    NotContainedIn(Box<Expr>, Box<Expr>),
}
