//! Lists of values by census block, in the order of their codes.

ghost use Rattle.std.specs.{Prelude.{◌≡◌, map}, List.Sorted.IsStrictlySortedBy, Ordering.nat_cmp};
ghost use Rattle.std.specs.{Map.lookup, BTreeMap.is_at};

/// Returns the value of the block `code` in `entries`, which ascend by code, if it stands there.
pub(crate) fn value_of<V: Copy>(entries: &[(u64, V)], code: u64) -> Option<V>
    requires { IsStrictlySortedBy nat_cmp (map (λ e. e.0) entries.now) }
    ensures { result ≡ lookup (is_at (nat_cmp code)) entries.now }
{
    match entries.binary_search_by_key(&code, |entry| entry.0) {
        Ok(place) => Some(entries[place].1),
        Err(_) => None,
    }
}
