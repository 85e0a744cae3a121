ghost use Rattle.text_search.specs.Laws.{NamesDecideTheList, NamesDecideTheWideList, NamesDecideTheCost, NamesDecideTheMergeCost};

/// An expression asks a text for the words that it names, and for no others.
pub fn names_decide()
    ensures list { NamesDecideTheList }
    ensures wide { NamesDecideTheWideList }
    ensures cost { NamesDecideTheCost }
    ensures merge_cost { NamesDecideTheMergeCost }
{}
