//! The order of byte strings.
ghost use Rattle.std.specs.Prelude.{◌≡◌};
ghost use Rattle.std.specs.Ordering.{nat_cmp};
ghost use Rattle.std.specs.Cmp.Lexicographic.{slice_cmp};

use std::cmp::Ordering;

/// Compares byte strings lexicographically: by the first two bytes that differ, else by length.
pub(crate) fn order(bytes: &[u8], others: &[u8]) -> Ordering
    ensures { result ≡ slice_cmp nat_cmp bytes.now others.now }
{
    let mut rest = others.iter();
    for byte in bytes {
        match rest.next() {
            Some(other) => {
                let found = byte.cmp(other);
                if found.is_ne() {
                    return found;
                }
            }
            None => return Ordering::Greater,
        }
    }
    if rest.next().is_some() {
        return Ordering::Less;
    }
    Ordering::Equal
}
