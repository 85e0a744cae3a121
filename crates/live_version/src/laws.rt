ghost use Rattle.live_version.specs.Laws.{HasFilesOf, HasTextOf, SlotsArePartsOf, StandsForOne, WordsAreOfFiles, WordsAreOfTerms};

/// A version stands for at most one collection: its records and words fix every file.
pub fn a_version_stands_for_one()
    ensures { StandsForOne }
{}

/// Its text is that of the collection which it stands for.
pub fn a_version_has_the_text()
    ensures { HasTextOf }
{}

/// A file with an id survives in the version exactly if it does in the collection.
pub fn a_version_has_the_files()
    ensures { HasFilesOf }
{}

/// Without a surviving file a version has no live word.
pub fn words_are_of_files()
    ensures { WordsAreOfFiles }
{}

/// The token of each live word is a term of the slots, so going through the terms misses no word.
pub fn words_are_of_terms()
    ensures { WordsAreOfTerms }
{}

/// A slot has the live words of the version within its range, and the files.
pub fn slots_are_parts()
    ensures { SlotsArePartsOf }
{}
