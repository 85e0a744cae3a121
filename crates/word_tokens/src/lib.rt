//! The tokens of a text.
//!
//! Bytes are cut into words and tags by one pass: a word is a run of letters, digits and bytes of 128 or more, a tag
//! gives its name between `<` and `>`, and everything else separates. Letters come out in lower case. Contracts see the
//! list `tokens_of` of `gcl_model`, a `TokenText` as the list of its tokens, and bytes that are one token by themselves
//! as `IsToken`.
//!
//! The layers above use `tokens`, `token_text` (the same in two blocks of memory), `TokenCursor` (one at a time),
//! `token_count`, `is_token` and the law that each token of a text is a token. Of `To <B x="1">be</B >` the tokens are
//! `to`, `<b>`, `be` and `</b>`. Code that needs to know where a token comes from uses `first_lexeme`, the step that all
//! of these take.
#![tactic(auto)]

mod classes;
mod cursor;
mod cut;
mod joined;
mod laws;
mod lexeme;

pub use cursor::TokenCursor;
pub use cut::{is_spelled, is_token, token_count, token_text, tokens};
pub use joined::TokenText;
pub use laws::tokens_are_tokens;
pub use lexeme::{Lexeme, first_lexeme};
