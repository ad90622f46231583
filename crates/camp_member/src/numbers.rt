//! For each seat the number of its last entry that counted.
ghost use Rattle.std.specs.Prelude.{◌≡◌, ◌==◌, ℕ, [], OnOk, OnErr, if◌then◌else◌};
ghost use Rattle.camp_member.specs.Entries.{number_in};

use std::alloc::{AllocError, Global};
use std::collections::BTreeMap;

/// For each seat the number of its last entry that counted; 0 if none did.
pub(crate) type Numbers = BTreeMap<u128, u64>;

/// Makes an empty table.
pub(crate) fn no_numbers(alloc: Global) -> Numbers
    ensures none { result.entries ≡ [] }
{
    BTreeMap::new(alloc)
}

/// Returns the number of the last entry of a seat that counted; 0 if none did.
pub(crate) fn number_of(numbers: &Numbers, seat: u128) -> u64
    ensures exact { result ≡ number_in numbers.now.entries seat }
{
    numbers.get(&seat).copied().unwrap_or(0)
}

/// Sets the number of a seat.
pub(crate) fn set_number(numbers: &mut Numbers, seat: u128, number: u64) -> Result<(), AllocError>
    ensures set { OnOk result ((other : ℕ) → number_in numbers.new.entries other ≡ (if other == seat then number else number_in numbers.old.entries other)) }
    ensures stays { OnErr result (numbers.new.entries ≡ numbers.old.entries) }
{
    numbers.insert(seat, number)?;
    Ok(())
}
