ghost use Rattle.token_places.specs.Laws.{
  TokensHavePlaces,
  PlacesAreAsMany,
  FilePlacesAreAsMany,
  PlacesAreInOrder,
  PlacesGiveTheirTokens,
  NothingElse,
  FilePlacesRise,
};

/// Each token of a text has one place, and so has each address of a file.
pub fn tokens_have_places()
    ensures tokens { TokensHavePlaces }
    ensures as_many { PlacesAreAsMany }
    ensures of_file { FilePlacesAreAsMany }
{}

/// Places rise, and neighbours are disjoint, or equal if they are of one self-closing tag.
pub fn places_are_in_order()
    ensures { PlacesAreInOrder }
{}

/// The bytes of a place, cut again, give exactly the tokens that come from it.
pub fn places_give_their_tokens()
    ensures { PlacesGiveTheirTokens }
{}

/// The bytes between two places, before the first and after the last give no token.
pub fn nothing_else()
    ensures { NothingElse }
{}

/// The place of a later address begins and ends no earlier.
pub fn file_places_rise()
    ensures { FilePlacesRise }
{}
