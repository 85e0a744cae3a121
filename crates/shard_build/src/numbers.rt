//! The numbers of the names, by their hashes.
//!
//! A name's number is its place in `NameLists`. The map has for each hash the first place of a name with it, so that names' bytes are kept
//! in one place alone, and hashed once for a look-up.
ghost use Rattle.std.specs.Prelude.{◌≡◌, ◌++◌, [], ◌∷◌, ℕ, Some, IsSome, OnOk, OnErr, bytes_eq, nat_eq};
ghost use Rattle.std.specs.List.{position_from};
ghost use Rattle.std.specs.Map.{keys_of, update};
ghost use Rattle.shard_build.specs.Met.{AreNumbered, AreNumbersOf, TellsHashes, hash_by, name_at as name_of, names_of, told_by};

use crate::lists::{NameLists, name_at};
use crate::seeded::Seeded;
use std::alloc::{AllocError, Global};
use std::collections::HashMap;
use std::hash::{BuildHasher, FoldHasher, Hasher};

/// For each hash of a name the first place of a name with it.
#[derive(Drop)]
pub(crate) struct Numbers {
    // the hash of each name begins with this
    initial: FoldHasher,
    places: HashMap<u64, usize, Seeded>,
}

impl Numbers {
    /// The numbers of no names. It takes no memory.
    pub(crate) fn new(alloc: Global, seed: u64) -> Self
        ensures { AreNumbersOf result [] }
    {
        let hashers = Seeded::new(seed);
        Numbers {
            initial: hashers.build_hasher(),
            places: HashMap::with_hasher(alloc, hashers),
        }
    }

    /// The hash of a name.
    // The byte after its bytes mixes their result once more: a name of 16 bytes chooses the first multiplier.
    fn hash_of(&self, name: &[u8]) -> u64
        ensures { result ≡ hash_by self.now.initial name.now }
    {
        let mut state = self.initial;
        state.write(name);
        state.write_u8(0xff);
        state.finish()
    }
}

/// The number of a token, if it is one of the names.
pub(crate) fn find_number(numbers: &Numbers, lists: &NameLists, token: &[u8]) -> Option<usize>
    requires { AreNumbersOf numbers.now (keys_of lists.now.items) }
    ensures { result ≡ position_from (bytes_eq token.now) 0 (keys_of lists.now.items) }
{
    let Some(number) = numbers.places.get(&numbers.hash_of(token)).copied() else {
        return None;
    };
    if is_name_at(lists, number, token) {
        return Some(number);
    }
    search_names(lists, token)
}

/// Whether a token is the name with this number.
fn is_name_at(lists: &NameLists, number: usize, token: &[u8]) -> bool
    ensures { result ≡ bytes_eq token.now (name_of lists.now.items number) }
{
    token == name_at(lists, number)
}

/// The number of a token, if it is one of the names, by a search through them: another name has its hash.
fn search_names(lists: &NameLists, token: &[u8]) -> Option<usize>
    ensures { result ≡ position_from (bytes_eq token.now) 0 (keys_of lists.now.items) }
{
    for number in 0..lists.len() {
        if is_name_at(lists, number, token) {
            return Some(number);
        }
    }
    None
}

/// Numbers a name that is to go last. After an Err nothing has changed.
pub(crate) fn add_number(
    numbers: &mut Numbers,
    lists: &NameLists,
    name: &[u8],
) -> Result<(), AllocError>
    requires { AreNumbersOf numbers.old (keys_of lists.now.items) }
    ensures ok { OnOk result (AreNumbersOf numbers.new (keys_of lists.now.items ++ name.now ∷ [])) }
    ensures err { OnErr result (AreNumbersOf numbers.new (keys_of lists.now.items)) }
{
    let hash = numbers.hash_of(name);
    if numbers.places.contains_key(&hash) {
        return Ok(());
    }
    numbers.places.insert(hash, lists.len())?;
    Ok(())
}

/// Forgets the number of a name that was last.
fn forget_number(numbers: &mut Numbers, lists: &NameLists, name: &[u8])
    requires { AreNumbersOf numbers.old (keys_of lists.now.items ++ name.now ∷ []) }
    ensures { AreNumbersOf numbers.new (keys_of lists.now.items) }
{
    let hash = numbers.hash_of(name);
    if numbers.places.get(&hash).copied() == Some(lists.len()) {
        let _ = numbers.places.remove(&hash);
    }
}

/// Forgets the names above a bound, the last one first, while no list has addresses.
pub(crate) fn forget_above(lists: &mut NameLists, numbers: &mut Numbers, most: usize)
    requires { AreNumbered numbers.old (names_of lists.old.items []) }
    ensures { AreNumbered numbers.new (names_of lists.new.items []) }
{
    for _ in most..lists.len() {
        if let Some((name, _)) = lists.pop() {
            forget_number(numbers, lists, name.as_slice());
        }
    }
}

/// Gives another number to a name whose hash has one.
fn set_number(numbers: &mut Numbers, name: &[u8], number: usize)
    requires { IsSome (told_by numbers.old (hash_by numbers.old.initial name.now)) }
    ensures initial { numbers.new.initial ≡ numbers.old.initial }
    ensures told { (hash : ℕ) → told_by numbers.new hash
        ≡ update nat_eq (told_by numbers.old) (hash_by numbers.old.initial name.now) (Some number) hash }
{
    let hash = numbers.hash_of(name);
    if let Some(place) = numbers.places.get_mut(&hash) {
        *place = number;
    }
}

/// Gives each name its place as its number, after the names were put in another order. It takes no memory.
// The last name goes first, so that the place of the first name with a hash stays.
pub(crate) fn number_anew(lists: &NameLists, numbers: &mut Numbers)
    requires { TellsHashes (hash_by numbers.old.initial) (told_by numbers.old) (keys_of lists.now.items) }
    ensures { AreNumbersOf numbers.new (keys_of lists.now.items) }
{
    let mut number = lists.len();
    while number > 0 {
        number -= 1;
        set_number(numbers, name_at(lists, number), number);
    }
}

/// Gives back memory beyond that for this many names.
pub(crate) fn shrink_numbers(numbers: &mut Numbers, names: usize)
    ensures initial { numbers.new.initial ≡ numbers.old.initial }
    ensures told { (hash : ℕ) → told_by numbers.new hash ≡ told_by numbers.old hash }
{
    numbers.places.shrink_to(names);
}
