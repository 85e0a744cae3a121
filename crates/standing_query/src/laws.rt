ghost use Rattle.standing_query.specs.Laws.{ChangesAreExact};

/// The changes of two lists rise, and they are exactly what is in one of the two alone.
pub fn changes_are_exact()
    ensures { ChangesAreExact }
{}
