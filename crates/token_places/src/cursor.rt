ghost use Rattle.std.specs.Prelude.{◌≡◌, ◌-◌, ◌<◌, ◌≤◌, [], ◌∷◌, ◌++◌, ℕ, length, IfSome, IsNone};
ghost use Rattle.token_places.specs.Cursors.{placed_behind};
ghost use Rattle.token_places.specs.Places.{placed_at, placed_tokens, stretch};
ghost use Rattle.word_tokens.specs.Lexemes.{lexeme_tokens};

use crate::place::Place;
use crate::placed_token::{PlacedToken, TokenKind};
use std::marker::Model;
use word_tokens::{Lexeme, first_lexeme};

/// The tokens of a text that are still to come, with their places. They are found one at a time, and take no memory.
#[derive(Drop)]
pub struct PlaceCursor<'a> {
    // how many bytes the text has
    size: usize,
    rest: &'a [u8],
    // where the last token comes from
    place: Place,
    // the name of a self-closing tag whose closing token is still to come
    unclosed: Option<&'a [u8]>,
}

impl<'a> Model for PlaceCursor<'a> {
    ghost use Rattle.std.specs.Prelude.{List, ◌≤◌, length};
    ghost use Rattle.token_places.specs.Places.{Placed};

    ghost Value = { List Placed };

    ghost use Rattle.token_places.specs.Cursors.{still_to_come};

    ghost view = { λ c. still_to_come c.unclosed c.place c.size c.rest.now };

    ghost invariant = { λ c. length c.rest.now ≤ c.size };
}

impl<'a> PlaceCursor<'a> {
    /// All tokens of the text are still to come.
    pub fn new(bytes: &'a [u8]) -> Self
        ensures { result ≡ placed_tokens bytes.now }
    {
        PlaceCursor {
            size: bytes.len(),
            rest: bytes,
            place: Place { from: 0, to: 0 },
            unclosed: None,
        }
    }

    /// An independent cursor over what is still to come.
    pub fn copy(&self) -> Self
        ensures { result ≡ self.now }
    {
        PlaceCursor {
            size: self.size,
            rest: self.rest,
            place: self.place,
            unclosed: self.unclosed,
        }
    }

    /// The next token and where it comes from, or None at the end.
    pub fn next(&mut self) -> Option<PlacedToken<'a>>
        ensures some { IfSome result (λ token. self.old ≡ token ∷ self.new) }
        ensures none { IsNone result → self.old ≡ [] }
        ensures end { IsNone result → self.new ≡ [] }
    {
        if let Some(name) = self.unclosed {
            self.unclosed = None;
            return Some(PlacedToken::new(self.place, TokenKind::CloseTag, name));
        }
        let found = next_lexeme(self.rest);
        let place = Place {
            from: self.size - found.from.len(),
            to: self.size - found.behind.len(),
        };
        self.rest = found.behind;
        self.place = place;
        match found.lexeme {
            Lexeme::Word(word) => Some(PlacedToken::new(place, TokenKind::Word, word)),
            Lexeme::OpenTag(name) => Some(PlacedToken::new(place, TokenKind::OpenTag, name)),
            Lexeme::CloseTag(name) => Some(PlacedToken::new(place, TokenKind::CloseTag, name)),
            Lexeme::EmptyTag(name) => {
                self.unclosed = Some(name);
                Some(PlacedToken::new(place, TokenKind::OpenTag, name))
            }
            Lexeme::Separator => None,
        }
    }
}

/// A lexeme, with the text that starts at it and the text after it.
#[derive(Drop)]
struct FoundLexeme<'a> {
    lexeme: Lexeme<'a>,
    from: &'a [u8],
    behind: &'a [u8],
}

/// The first lexeme that gives a token, or a separator if no token is left.
fn next_lexeme(bytes: &[u8]) -> FoundLexeme<'_>
    ensures placed { (n : ℕ) → length bytes.now ≤ n → placed_behind n bytes.now ≡
        placed_at (stretch (n - length result.from.now) (n - length result.behind.now)) (lexeme_tokens result.lexeme)
        ++ placed_behind n result.behind.now }
    ensures none { lexeme_tokens result.lexeme ≡ [] → (n : ℕ) → length bytes.now ≤ n → placed_behind n bytes.now ≡ [] }
    ensures within { length result.from.now ≤ length bytes.now }
    ensures ordered { length result.behind.now ≤ length result.from.now }
{
    let mut rest = bytes;
    while !rest.is_empty() {
        let (lexeme, behind) = cut_lexeme(rest);
        match lexeme {
            Lexeme::Separator => {}
            _ => {
                return FoundLexeme {
                    lexeme,
                    from: rest,
                    behind,
                };
            }
        }
        rest = behind;
    }
    FoundLexeme {
        lexeme: Lexeme::Separator,
        from: rest,
        behind: rest,
    }
}

/// The lexeme at the front of the text, and what comes after it.
fn cut_lexeme(text: &[u8]) -> (Lexeme<'_>, &[u8])
    requires { 0 < length text.now }
    ensures placed { (n : ℕ) → length text.now ≤ n → placed_behind n text.now ≡
        placed_at (stretch (n - length text.now) (n - length result.1.now)) (lexeme_tokens result.0) ++ placed_behind n result.1.now }
    ensures shorter { length result.1.now < length text.now }
{
    let (lexeme, size) = first_lexeme(text);
    let (_, rest) = text.split_at(size);
    (lexeme, rest)
}
