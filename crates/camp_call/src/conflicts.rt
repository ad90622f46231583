//! The reply that lists conflicts.
ghost use Rattle.std.specs.Prelude.{◌≡◌};

use camp_base::Name;
use std::marker::Model;

/// Pairs of names of patches that are in conflict.
#[derive(Debug, Drop)]
pub struct Conflicts {
    pairs: Vec<(Name, Name)>,
}

impl Model for Conflicts {
    ghost use Rattle.std.specs.Prelude.{List, ℕ};

    ghost Value = { List (List ℕ × List ℕ) };

    ghost view = { λ conflicts. conflicts.pairs.items };
}

impl Conflicts {
    /// Wraps the pairs; does not allocate.
    pub fn new(pairs: Vec<(Name, Name)>) -> Conflicts
        ensures exact { result ≡ pairs.items }
    {
        Conflicts { pairs }
    }

    pub fn pairs(&self) -> &[(Name, Name)]
        ensures exact { result.now ≡ self.now }
    {
        &self.pairs
    }
}
