//! What several tests begin with.
ghost use Rattle.std.specs.Prelude.{◌<◌, IfSome};
ghost use Rattle.gcl_model.specs.Limits.{far};
ghost use Rattle.gcl_model.specs.FormOf.{form_of};
ghost use Rattle.gcl_model.specs.WellFormed.{IsWellFormed};

use gcl_model::{ADDRESS_END, Expr, Interval};
use gcl_parser::parse;
use std::alloc::Global;

/// The address after the start of the last member, or `k` if there is none.
pub fn behind(members: &[Interval], k: u64) -> u64
    requires { k < far }
    ensures { result < far }
{
    match members.last() {
        Some(member) => member.start.min(ADDRESS_END) + 1,
        None => k,
    }
}

/// The expression of a query.
pub fn expression(alloc: Global, query: &[u8]) -> Option<Expr>
    ensures { IfSome result (λ expr. IsWellFormed (form_of expr)) }
{
    parse(alloc, query).ok()
}
