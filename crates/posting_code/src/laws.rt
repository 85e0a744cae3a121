ghost use Rattle.posting_code.specs.Laws.{SpellingIsTheOnlyOne, NoSpellingBeginsAnother};

/// Each number below 2^56 has exactly one spelling.
pub fn each_number_has_one_spelling()
    ensures { SpellingIsTheOnlyOne }
{}

/// No spelling of a number is a prefix of another's: what begins with one can be read in one way only.
pub fn no_spelling_begins_another()
    ensures { NoSpellingBeginsAnother }
{}
