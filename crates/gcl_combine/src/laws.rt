ghost use Rattle.gcl_combine.specs.Laws.{BothGoesForward, BothGoesBackward, OneGoesForward, OneGoesBackward};

/// The accesses of "both of", from those of its operands.
pub fn both_of_accesses()
    ensures forward { BothGoesForward }
    ensures backward { BothGoesBackward }
{}

/// The accesses of "one of", from those of its operands.
pub fn one_of_accesses()
    ensures forward { OneGoesForward }
    ensures backward { OneGoesBackward }
{}
