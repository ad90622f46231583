//! Lists of names.
ghost use Rattle.std.specs.Prelude.{◌≡◌, ◌↔◌, IfOk, IsTrue};

use camp_base::Name;
use std::alloc::AllocError;
use std::marker::Model;

/// Names in a given order; a name may occur twice.
#[derive(Debug, Drop)]
pub struct Names {
    names: Vec<Name>,
}

impl Model for Names {
    ghost use Rattle.std.specs.Prelude.{List, ℕ};

    ghost Value = { List (List ℕ) };

    ghost view = { λ list. list.names.items };
}

impl Names {
    /// Wraps the names; does not allocate.
    pub fn new(names: Vec<Name>) -> Names
        ensures exact { result ≡ names.items }
    {
        Names { names }
    }

    pub fn as_slice(&self) -> &[Name]
        ensures exact { result.now ≡ self.now }
    {
        &self.names
    }

    pub fn try_clone(&self) -> Result<Names, AllocError>
        ensures exact { IfOk result (λ copy. copy ≡ self.now) }
    {
        let names = self.names.clone()?;
        Ok(Names { names })
    }

    /// True if the two are the same names in the same order; does not allocate.
    pub fn is_same(&self, other: &Names) -> bool
        ensures exact { IsTrue result ↔ (self.now ≡ other.now) }
    {
        self.as_slice() == other.as_slice()
    }
}
