ghost use Rattle.change_search.specs.Laws.{AddsAgree, DeletesAgree};

/// The texts of two versions differ only within the addresses of the file that was added, or deleted, between them: so
/// `ChangeListing::between` may be called with these.
pub fn edits_agree()
    ensures added { AddsAgree }
    ensures deleted { DeletesAgree }
{}
