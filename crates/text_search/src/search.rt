ghost use Rattle.std.specs.Prelude.{◌≡◌, nat_le, nat_lt, find};
ghost use Rattle.gcl_model.specs.Access.{find_last};
ghost use Rattle.text_search.specs.Tables.{AreClimbing};

/// The least of rising addresses that is at or after `k`.
pub(crate) fn next_of(places: &[u32], k: u64) -> Option<u64>
    requires { AreClimbing places.now }
    ensures { result ≡ find (λ p. nat_le k p) places.now }
{
    let before = places.partition_point(
        |place: &u32| -> bool
            ensures { result ≡ nat_lt place.now k }
        { (*place as u64) < k },
    );
    if before == places.len() {
        return None;
    }
    Some(places[before] as u64)
}

/// The greatest of rising addresses that is at or before `k`.
pub(crate) fn last_of(places: &[u32], k: u64) -> Option<u64>
    requires { AreClimbing places.now }
    ensures { result ≡ find_last (λ p. nat_le p k) places.now }
{
    let upto = places.partition_point(
        |place: &u32| -> bool
            ensures { result ≡ nat_le place.now k }
        { *place as u64 <= k },
    );
    if upto == 0 {
        return None;
    }
    Some(places[upto - 1] as u64)
}
