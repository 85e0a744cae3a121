ghost use Rattle.manifest_publish.specs.Laws.{MayAddNext, NumbersArePlaces, EachStands, SlotsKeepFiles, VersionsAreShared};

/// A next version of the last one may be published.
pub fn a_next_version_may_be_added()
    ensures { MayAddNext }
{}

/// A version's number is its place in the history.
pub fn numbers_are_places()
    ensures { NumbersArePlaces }
{}

/// Each version of a history stands for a collection.
pub fn each_version_stands_for_a_collection()
    ensures { EachStands }
{}

/// Two beginnings of one history agree on each number that both reach.
pub fn versions_are_shared()
    ensures { VersionsAreShared }
{}

/// A slot that has the range and the number of surviving files of an earlier one has the same files and words: these numbers of a
/// slot determine what is in it.
pub fn slots_of_one_name_are_the_same()
    ensures { SlotsKeepFiles }
{}
