ghost use Rattle.std.specs.Prelude.{◌≡◌, ◌↔◌, ◌<◌, ◌≤◌, ⊤, IsTrue};
ghost use Rattle.camp_repo.specs.Limits.{bounded, default_bounds};

use crate::LimitFault;
use std::alloc::AllocError;
use std::marker::Model;

/// The limits of a repository: the most catches of a branch, 1 to 16,777,216, and the most branches, 1 to
/// 65,536. Contracts see it as `Bounds`.
#[derive(Debug)]
pub struct Limits {
    catches: usize,
    branches: usize,
}

impl Model for Limits {
    ghost use Rattle.camp_repo.specs.Limits.{Bounds, AreLimits};

    ghost Value = { Bounds };

    ghost view = { λ limits. record { catches = limits.catches; branches = limits.branches } };

    ghost invariant = { λ limits. AreLimits limits.catches limits.branches };

    ghost inverse = { λ bounds. record { catches = bounds.catches; branches = bounds.branches } };

    ghost inverse_ok = { λ limits are i. limits };
}

impl Clone for Limits {
    ghost is_clone = { λ limits copy. copy ≡ limits };

    ghost is_infallible = { λ _. ⊤ };

    fn clone(&self) -> Result<Limits, AllocError> {
        Ok(*self)
    }
}

impl Copy for Limits {}

/// Returns the default limits: 4,096 catches in a branch, and 256 branches.
impl Default for Limits {
    ghost is_default = { λ limits. limits ≡ default_bounds };

    fn default() -> Limits {
        Limits {
            catches: 4_096,
            branches: 256,
        }
    }
}

impl Limits {
    /// The greatest limit of the catches of a branch.
    pub const MAX_CATCHES: usize = 16_777_216;

    /// The greatest limit of the branches of a repository.
    pub const MAX_BRANCHES: usize = 65_536;

    /// Makes the limits with these numbers.
    pub fn new(catches: usize, branches: usize) -> Result<Limits, LimitFault>
        ensures exact { result ≡ bounded catches branches }
    {
        if !(1..=Limits::MAX_CATCHES).contains(&catches) {
            return Err(LimitFault::Catches);
        }
        if !(1..=Limits::MAX_BRANCHES).contains(&branches) {
            return Err(LimitFault::Branches);
        }
        Ok(Limits { catches, branches })
    }

    /// True if both limits are equal.
    #[tactic(auto, using(crate::proofs::SameLimits::same_bounds))]
    pub(crate) fn is_same(&self, other: &Limits) -> bool
        ensures exact { IsTrue result ↔ (self.now ≡ other.now) }
    {
        if self.catches() != other.catches() {
            return false;
        }
        self.branches() == other.branches()
    }

    /// Returns the most catches of a branch.
    pub fn catches(&self) -> usize
        ensures value { result ≡ self.now.catches }
        ensures some { 0 < result }
        ensures few { result ≤ 16_777_216 }
    {
        self.catches
    }

    /// Returns the most branches of a repository.
    pub fn branches(&self) -> usize
        ensures value { result ≡ self.now.branches }
        ensures some { 0 < result }
        ensures few { result ≤ 65_536 }
    {
        self.branches
    }
}
