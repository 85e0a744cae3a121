//! The four containments: what the loop of a node does at a member of its first operand.
//!
//! Such a node keeps the members of `A` that contain a member of `B`, or that lie in one, or that do not. Its loop
//! takes one member `a` of `A` at a time, asks `B` once, and a turn says what is next: accept `a`, go on in `A` from
//! or up to an address, or finish. Contracts see a turn as a move, and each turn is exactly the move of its kind.
//!
//! The layer above uses two laws over any two lists whose members rise. A move is right: it accepts exactly the members
//! of the node's list, a leap skips none of them, and nothing is left when it finishes. And rejecting turns advance:
//! both `a` and `b` come strictly after those of the previous rejecting turn, or before them on the way back.
//! Example: `B` has the one member (4, 4). At (1, 2) the loop of "containing" goes on at 4; (2, 5) contains (4, 4) and
//! is accepted.
#![tactic(auto)]

mod backward;
mod forward;
mod laws;
mod turn;

pub use backward::{has_turn_back, in_turn_back, not_has_turn_back, not_in_turn_back};
pub use forward::{has_turn, in_turn, not_has_turn, not_in_turn};
pub use laws::{moves_are_right, rejecting_turns_advance};
pub use turn::Turn;
