ghost use Rattle.index_shard.specs.Laws.{PostingsArePlaces, WordsRise};

/// The postings of a term are the places of its word: a look-up in a shard is a look-up among its words.
pub fn postings_are_places()
    ensures { PostingsArePlaces }
{}

/// The words of a shard are at rising addresses of its range.
pub fn words_rise()
    ensures { WordsRise }
{}
