//! Binary search for a key: over groups of chunks, over the chunks of one group, and in a chunk.
ghost use Rattle.std.specs.Prelude.{◌≡◌, ◌+◌, ◌<◌, ◌≤◌, ◌^◌, true, false, T as Holds, IfOk, IfErr, length};
ghost use Rattle.std.specs.Fn.{FnReturnsAt};
ghost use Rattle.std.specs.List.{All};
ghost use Rattle.std.specs.Option.{option_copied};
ghost use Rattle.std.specs.List.Sorted.{IsSearchInRange};
ghost use Rattle.std.specs.FinMap.{is_sorted};
ghost use Rattle.camp_share.specs.Inside.Parts.{joined, IsPart};
ghost use Rattle.camp_share.specs.Inside.Places.{ends_below, IsBorder, IsAt, WouldBeAt, IsInPart, IsPartFor, WouldBeInPart};

use crate::Key;
use crate::growing::{Growing, Part, length_of};

// Finds the first chunk with a key that is not below `key`. Returns the groups of chunks before it, the
// number of further chunks before it, and the chunk; `None` if all keys are below.
pub(crate) fn part_for<'a, K: Key, V>(
    parts: &'a Growing<Part<(K, V)>>,
    key: &K,
) -> (&'a [Part<Part<(K, V)>>], usize, Option<&'a Part<(K, V)>>)
    requires parts { All IsPart parts.now }
    requires sorted { Holds (is_sorted K.cmp (joined parts.now)) }
    ensures { IsPartFor K.cmp parts.now key.now (length (joined result.0.now) + result.1) (option_copied result.2) }
{
    let (closed, last) = parts.divided();
    let at = by_halves(
        closed,
        |group| group.last().is_some_and(|part| ends_below(part, key)),
    );
    let among = if at < closed.len() { &closed[at] } else { last };
    let found = by_halves(among, |part| ends_below(part, key));
    (&closed[..at], found, among.get(found))
}

// Finds the partition point of items: the number of those that pass a test; all that pass come first.
fn by_halves<T, F: Fn(&T) -> bool>(items: &[T], passed: F) -> usize
    requires { F.IsAlwaysCallable passed }
    ensures within { result ≤ length items.now }
    ensures border { IsBorder (λ item. FnReturnsAt F.Fn passed item true) (λ item. FnReturnsAt F.Fn passed item false) items.now result result }
{
    let mut low = 0;
    let mut high = items.len();
    while low < high {
        let middle = low + (high - low) / 2;
        if passed(&items[middle]) {
            low = middle + 1;
        } else {
            high = middle;
        }
    }
    low
}

// True if the last key of a chunk is below `key`.
fn ends_below<K: Key, V>(part: &[(K, V)], key: &K) -> bool
    ensures { result ≡ ends_below K.cmp part.now key.now }
{
    part.last().is_some_and(|entry| entry.0.cmp(key).is_lt())
}

// Searches sorted entries for a key. Returns its index or, as an error, the index at which it would be inserted.
pub(crate) fn place_in<K: Key, V>(entries: &[(K, V)], key: &K) -> Result<usize, usize>
    requires { Holds (is_sorted K.cmp entries.now) }
    ensures range { IsSearchInRange result (length entries.now) }
    ensures found { IfOk result (IsAt entries.now key.now) }
    ensures absent { IfErr result (WouldBeAt K.cmp entries.now key.now) }
{
    entries.binary_search_by(|entry| entry.0.cmp(key))
}

// Searches chunks for a key. Returns its chunk and position or, as an error, those at which it would be inserted.
pub(crate) fn search<K: Key, V>(
    parts: &Growing<Part<(K, V)>>,
    key: &K,
) -> Result<(usize, usize), (usize, usize)>
    requires parts { All IsPart parts.now }
    requires sorted { Holds (is_sorted K.cmp (joined parts.now)) }
    requires fits { length (joined parts.now) < 2 ^ 64 }
    ensures found { IfOk result (λ at. IsInPart parts.now key.now at.0 at.1) }
    ensures absent { IfErr result (λ at. WouldBeInPart K.cmp parts.now key.now at.0 at.1) }
{
    let (passed, behind, part) = part_for(parts, key);
    let index = length_of(passed) + behind;
    let Some(part) = part else {
        return Err((index, 0));
    };
    match place_in(part, key) {
        Ok(place) => Ok((index, place)),
        Err(place) => Err((index, place)),
    }
}
