ghost use Rattle.gcl_model.specs.Laws.{AddingKeepsTiers, MergingKeepsTiers, OpeningMakesTiers, TiersAreFew, TailsAreJoined};

/// An added file, whose addresses come after all that were given, leaves tiers.
pub fn adding_keeps_tiers()
    ensures { AddingKeepsTiers }
{}

/// So does a merge of all slots.
pub fn merging_keeps_tiers()
    ensures { MergingKeepsTiers }
{}

/// The slots of an opened image are tiers.
pub fn opening_makes_tiers()
    ensures { OpeningMakesTiers }
{}

/// There are at most 28 tiers.
pub fn tiers_are_few()
    ensures { TiersAreFew }
{}

/// An add merges as many of the last slots into one as `tail_count` says.
pub fn tails_are_joined()
    ensures { TailsAreJoined }
{}
