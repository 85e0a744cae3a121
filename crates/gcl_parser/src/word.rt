ghost use Rattle.gcl_model.specs.Tokens.{is_word_byte, tokens_of};
ghost use Rattle.gcl_parser.specs.QueryTokens.{is_word, is_one_word};
ghost use Rattle.std.specs.List.{list_all};
ghost use Rattle.std.specs.Prelude.{◌≡◌};

use word_tokens::{Lexeme, first_lexeme, token_count};

/// Whether the text gives just one token, and that is a word. It allocates nothing.
pub fn is_one_word(text: &[u8]) -> bool
    ensures { result ≡ is_one_word (tokens_of text.now) }
{
    let mut rest = text;
    while !rest.is_empty() {
        let (lexeme, size) = first_lexeme(rest);
        let (_, behind) = rest.split_at(size);
        match lexeme {
            Lexeme::Separator => rest = behind,
            Lexeme::Word(word) => return is_word(word) && token_count(behind) == 0,
            Lexeme::OpenTag(_) => return false,
            Lexeme::CloseTag(_) => return false,
            Lexeme::EmptyTag(_) => return false,
        }
    }
    false
}

fn is_word(bytes: &[u8]) -> bool
    ensures { result ≡ is_word bytes.now }
{
    !bytes.is_empty() && has_word_bytes_alone(bytes)
}

fn has_word_bytes_alone(bytes: &[u8]) -> bool
    ensures { result ≡ list_all is_word_byte bytes.now }
{
    bytes.iter().all(|byte| is_word_byte(*byte))
}

fn is_word_byte(byte: u8) -> bool
    ensures { result ≡ is_word_byte byte }
{
    byte.is_ascii_alphabetic() || byte.is_ascii_digit() || byte >= 128
}
