ghost use Rattle.image_file.specs.Laws.{HasOneSpelling, HasSpelling, IsOfOneVersion, SpellsOne};

/// Each sound collection of which nothing was deleted, and whose tokens are shorter than 2^56 bytes, has a spelling of version 2.
pub fn collections_have_spellings()
    ensures { HasSpelling }
{}

/// It has no other spelling of the same version.
pub fn a_collection_has_one_spelling()
    ensures { HasOneSpelling }
{}

/// No bytes spell two collections.
pub fn bytes_spell_one_collection()
    ensures { SpellsOne }
{}

/// No bytes are an image of both versions.
pub fn bytes_are_of_one_version()
    ensures { IsOfOneVersion }
{}
