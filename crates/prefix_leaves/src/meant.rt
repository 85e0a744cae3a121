//! Which words a prefix term means.
ghost use Rattle.std.specs.Prelude.{◌≡◌, [], IfSome, IsNone};
ghost use Rattle.gcl_model.specs.Wide.{begins_with, prefix_of};
ghost use Rattle.prefix_leaves.specs.Renaming.{is_meant_by};
ghost use Rattle.prefix_leaves.specs.Prefixes.{is_meant_by_one, places_among};

use prefix_places::PrefixPlaces;

/// What is in front of the last byte.
#[inline]
pub(crate) fn front(prefix: &[u8]) -> &[u8]
    ensures { result.now ≡ prefix_of prefix.now }
{
    &prefix[..prefix.len().saturating_sub(1)]
}

#[inline]
pub(crate) fn begins_with(word: &[u8], prefix: &[u8]) -> bool
    ensures { result ≡ begins_with prefix.now word.now }
{
    word.starts_with(prefix)
}

/// Whether the token begins with what is in front of the `*`.
#[inline]
pub(crate) fn is_meant_by(token: &[u8], prefix: &[u8]) -> bool
    ensures { result ≡ is_meant_by token.now prefix.now }
{
    begins_with(token, front(prefix))
}

/// Whether one of the prefix terms means the token.
#[inline]
pub(crate) fn is_meant_by_one(prefixes: &[PrefixPlaces], token: &[u8]) -> bool
    ensures { result ≡ is_meant_by_one prefixes.now token.now }
{
    for prefix in prefixes {
        if is_meant_by(token, prefix.token()) {
            return true;
        }
    }
    false
}

/// The prefix term with this token.
#[inline]
pub(crate) fn find_prefix<'a>(
    prefixes: &'a [PrefixPlaces],
    token: &[u8],
) -> Option<&'a PrefixPlaces>
    ensures some { IfSome result (λ found. found.now.places ≡ places_among prefixes.now token.now) }
    ensures none { IsNone result → places_among prefixes.now token.now ≡ [] }
{
    for prefix in prefixes {
        if prefix.token() == token {
            return Some(prefix);
        }
    }
    None
}
