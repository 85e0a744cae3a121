ghost use Rattle.gcl_model.specs.Forms.{contained_in, not_contained_in};
ghost use Rattle.gcl_locality.specs.Laws.{ChangesAreLocal, MembersAreLocal, ContainedAreLocalAround};
ghost use Rattle.gcl_locality.specs.Windows.{WindowsTell};

/// If two texts are the same outside a range, the lists of an expression over them differ between two addresses alone.
pub fn changes_are_local()
    ensures { ChangesAreLocal }
{}

/// Without `<` and `/<`, whether an interval is a member depends on its own addresses and their words alone.
pub fn members_are_local()
    ensures { MembersAreLocal }
{}

/// With one of them, whose first operand has none, it depends also on the members of the second operand that contain it.
pub fn contained_are_local_around()
    ensures inside { ContainedAreLocalAround contained_in }
    ensures not_inside { ContainedAreLocalAround not_contained_in }
{}

/// A text with the words of an expression's window at two addresses determines the members that touch these addresses.
pub fn windows_tell()
    ensures { WindowsTell }
{}
