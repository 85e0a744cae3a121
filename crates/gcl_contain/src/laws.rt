ghost use Rattle.gcl_contain.specs.Kinds.{
  containing,
  contained_in,
  not_containing,
  not_contained_in,
  containing_back,
  contained_in_back,
  not_containing_back,
  not_contained_in_back,
};
ghost use Rattle.gcl_contain.specs.Laws.{ForwardIsRight, BackwardIsRight, ForwardAdvances, BackwardAdvances};

/// A move accepts exactly the members of the node's list, a leap skips none of them, and none is left when the loop
/// finishes.
pub fn moves_are_right()
    ensures containing { ForwardIsRight containing }
    ensures contained_in { ForwardIsRight contained_in }
    ensures not_containing { ForwardIsRight not_containing }
    ensures not_contained_in { ForwardIsRight not_contained_in }
    ensures containing_back { BackwardIsRight containing_back }
    ensures contained_in_back { BackwardIsRight contained_in_back }
    ensures not_containing_back { BackwardIsRight not_containing_back }
    ensures not_contained_in_back { BackwardIsRight not_contained_in_back }
{}

/// The two members of a rejecting turn come strictly after those of the rejecting turn before it, or before them on
/// the way back. So no loop has more such turns than either list has members.
pub fn rejecting_turns_advance()
    ensures containing { ForwardAdvances containing }
    ensures contained_in { ForwardAdvances contained_in }
    ensures not_containing { ForwardAdvances not_containing }
    ensures not_contained_in { ForwardAdvances not_contained_in }
    ensures containing_back { BackwardAdvances containing_back }
    ensures contained_in_back { BackwardAdvances contained_in_back }
    ensures not_containing_back { BackwardAdvances not_containing_back }
    ensures not_contained_in_back { BackwardAdvances not_contained_in_back }
{}
