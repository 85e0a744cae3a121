ghost use Rattle.gcl_model.specs.Laws.{TokensAreTokens};

/// Each token of a text is a token by itself: cut again, it gives itself alone.
pub fn tokens_are_tokens()
    ensures { TokensAreTokens }
{}
