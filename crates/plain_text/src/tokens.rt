ghost use Rattle.std.specs.Prelude.{◌≡◌, ◌+◌, ◌≤◌, length, IfOk};
ghost use Rattle.gcl_model.specs.Limits.{address_end};
ghost use Rattle.plain_text.specs.Puts.{text_from};

use crate::text::PlainText;
use gcl_model::{Span, TokenList};
use std::alloc::{AllocError, Global};

/// The tokens at consecutive addresses, starting at `first`. The span has exactly these addresses.
pub fn of_tokens(alloc: Global, first: u64, tokens: &TokenList) -> Result<PlainText, AllocError>
    requires { first + length tokens.now ≤ address_end }
    ensures { IfOk result (λ text. text ≡ text_from first tokens.now) }
{
    let next = first + tokens.len() as u64;
    let mut text = PlainText::new(alloc, Span { first, next });
    for (i, token) in tokens.as_slice().iter().enumerate() {
        text.put(first + i as u64, token.as_slice())?;
    }
    Ok(text)
}
