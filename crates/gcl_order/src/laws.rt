ghost use Rattle.gcl_order.specs.Laws.{SeqGoesForward, SeqGoesBackward, SeqGoesFromLast, SeqGoesFromFirst};

/// The accesses of "followed by", from those of its operands.
pub fn followed_by_accesses()
    ensures forward { SeqGoesForward }
    ensures backward { SeqGoesBackward }
    ensures from_last { SeqGoesFromLast }
    ensures from_first { SeqGoesFromFirst }
{}
