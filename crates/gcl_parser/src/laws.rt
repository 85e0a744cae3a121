ghost use Rattle.gcl_parser.specs.Laws.{QueriesAreNotRefused, QueriesStandForOneForm, QueryFormsAreOfQueries};

/// A text is not refused if and only if it is a query within the limits, and it stands for one form at most.
pub fn queries_are_not_refused()
    ensures not_refused { QueriesAreNotRefused }
    ensures one_form { QueriesStandForOneForm }
{}

/// `query_form`, which computes the form of a text, gives the one that the grammar relates to it, and none if it is refused.
pub fn query_forms_are_of_queries()
    ensures { QueryFormsAreOfQueries }
{}
