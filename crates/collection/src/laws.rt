ghost use Rattle.collection.specs.Calls.{CallsReach};

/// After any list of calls the version stands for the collection that its adds, deletions and openings give, whatever merges came between,
/// and its slots have the ranges that the rules give.
pub fn calls_reach()
    ensures { CallsReach }
{}
