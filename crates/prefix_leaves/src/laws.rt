ghost use Rattle.prefix_leaves.specs.Laws.{NamesThatAreApartDecide};

/// Over a text in which each word has the name that means it, an expression of names that are apart is answered as over the words.
pub fn names_that_are_apart_decide()
    ensures { NamesThatAreApartDecide }
{}
