ghost use Rattle.wide_terms.specs.Laws.{ExpansionsAreWellFormed, ExpansionsAreWide, MatchingWordsAreExact, OthersStay};
ghost use Rattle.wide_terms.specs.Trees.{OneFlattens, TreesFlatten};

/// The concordance list of an expansion is the wide list of the expression.
pub fn expansions_are_wide()
    ensures { ExpansionsAreWide }
{}

/// The expansion of a well-formed expression is well formed.
pub fn expansions_are_well_formed()
    ensures { ExpansionsAreWellFormed }
{}

/// An expression without prefix terms is its own expansion, and its wide list is its concordance list.
pub fn others_stay()
    ensures { OthersStay }
{}

/// The words that match a prefix rise, and are exactly the words of the text that begin with it.
pub fn matching_words_are_exact()
    ensures { MatchingWordsAreExact }
{}

/// One of several operands, of which one is itself one of some, is one of them all: `(a + b) + c` is `a + b + c`.
pub fn one_of_flattens()
    ensures { OneFlattens }
{}

/// A tree of terms has the same list as "one of" all its terms.
pub fn trees_flatten()
    ensures { TreesFlatten }
{}
