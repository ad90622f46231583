//! The error of an operation that can be blocked.
ghost use Rattle.std.specs.Prelude.{◌≡◌};
ghost use Rattle.camp_catch.specs.declared.faults.Unmade.TheVariants as unmade;

use std::alloc::{AllocError, AllocFailed};

/// Why an operation has no result: it is blocked, or memory ran out.
#[derive(Clone, Copy, Debug)]
pub enum Unmade<W> {
    Blocked(W),
    Memory,
}

impl<W> From<AllocError> for Unmade<W> {
    ghost from_gives = { λ _ why. why ≡ unmade.Memory };

    fn from(_error: AllocError) -> Unmade<W> {
        Unmade::Memory
    }
}

impl<W, T: Drop> From<AllocFailed<T>> for Unmade<W> {
    ghost from_gives = { λ _ why. why ≡ unmade.Memory };

    fn from(_error: AllocFailed<T>) -> Unmade<W> {
        Unmade::Memory
    }
}
