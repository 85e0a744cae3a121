ghost use Rattle.std.specs.Prelude.{◌≡◌, ◌+◌, ◌<◌, ◌≤◌, ◌++◌, ◌⊎◌, ◌∷◌, [], length, Ok, Err, IfOk, IfErr, OnOk};
ghost use Rattle.query_names.specs.PutIn.{bracketed, most_query, put_in};

use crate::definitions::Definitions;
use crate::fault::NameFault;
use crate::names::name_len;
use std::alloc::Global;

/// The most bytes that a query may have once all names are put in.
pub const MOST_QUERY: usize = 65_536;

/// Appends a text in brackets. `at` is the place of its `$` in the query.
fn put_text(out: &mut Vec<u8>, text: &[u8], at: u64) -> Result<(), NameFault>
    requires few { length out.old.items ≤ most_query }
    ensures ok { OnOk result (out.new.items ≡ out.old.items ++ bracketed text.now) }
    ensures few { OnOk result (length out.new.items ≤ most_query) }
    ensures err { IfErr result (λ fault. (fault ≡ NameFault.NoMemory)
        ⊎ ((fault ≡ NameFault.TooLong at) × (most_query < length out.old.items + length (bracketed text.now)))) }
{
    if MOST_QUERY - out.len() < text.len() + 2 {
        return Err(NameFault::TooLong(at));
    }
    out.extend_from_slice(b"(")?;
    out.extend_from_slice(text)?;
    out.extend_from_slice(b")")?;
    Ok(())
}

/// Appends a byte. `at` is its place in the query.
fn put_byte(out: &mut Vec<u8>, b: u8, at: u64) -> Result<(), NameFault>
    requires few { length out.old.items ≤ most_query }
    ensures ok { OnOk result (out.new.items ≡ out.old.items ++ b ∷ []) }
    ensures few { OnOk result (length out.new.items ≤ most_query) }
    ensures err { IfErr result (λ fault. (fault ≡ NameFault.NoMemory)
        ⊎ ((fault ≡ NameFault.TooLong at) × (most_query < length out.old.items + 1))) }
{
    if out.len() >= MOST_QUERY {
        return Err(NameFault::TooLong(at));
    }
    out.extend_from_slice(&[b])?;
    Ok(())
}

/// The query with the text of each name put in, in brackets. A refusal gives its place in the query as passed in.
pub fn put_in(alloc: Global, definitions: &Definitions, query: &[u8]) -> Result<Vec<u8>, NameFault>
    ensures ok { IfOk result (λ whole. put_in definitions.now query.now ≡ Ok whole.items) }
    ensures err { IfErr result (λ fault. (fault ≡ NameFault.NoMemory) ⊎ (put_in definitions.now query.now ≡ Err fault)) }
{
    let mut out = Vec::new(alloc);
    let mut at = 0;
    let mut quoted = false;
    while at < query.len() {
        let b = query[at];
        let place = at as u64;
        at += 1;
        if b == b'$' && !quoted {
            let rest = &query[at..];
            let name = &rest[..name_len(rest)];
            let Some(text) = definitions.text(name) else {
                return Err(NameFault::Unknown(place));
            };
            put_text(&mut out, text, place)?;
            at += name.len();
        } else {
            put_byte(&mut out, b, place)?;
            if b == b'"' {
                quoted = !quoted;
            }
        }
    }
    Ok(out)
}
