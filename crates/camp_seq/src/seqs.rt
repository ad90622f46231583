//! The list of labelled primitives.
ghost use Rattle.std.specs.Prelude.{◌≡◌, ◌↔◌, [], ◌∷◌, ◌++◌, if◌then◌else◌, is_ok, IfErr, IfOk, IsTrue};

use camp_prim::Named;
use std::alloc::{AllocError, AllocFailed, Global};
use std::marker::Model;

/// A list of labelled primitives, each of which applies to the state that those before it leave.
#[derive(Debug, Drop)]
pub struct Seq {
    pub(crate) items: Vec<Named>,
}

impl Model for Seq {
    ghost use Rattle.std.specs.Prelude.{List};
    ghost use Rattle.camp_prim.specs.declared.named.Named.{Named};

    ghost Value = { List Named };

    ghost view = { λ seq. seq.items.items };
}

impl Seq {
    /// Makes an empty list; does not allocate.
    pub fn empty(alloc: Global) -> Seq
        ensures exact { result ≡ [] }
    {
        Seq {
            items: Vec::new(alloc),
        }
    }

    /// Makes an empty list with capacity for `room` primitives.
    pub fn with_room(alloc: Global, room: usize) -> Result<Seq, AllocError>
        ensures exact { IfOk result (λ seq. seq ≡ []) }
    {
        let items = Vec::with_capacity(alloc, room)?;
        Ok(Seq { items })
    }

    /// Appends a primitive. An error returns it and leaves the list unchanged.
    pub fn push(&mut self, p: Named) -> Result<(), AllocFailed<Named>>
        ensures pushed { self.new ≡ (if is_ok result then self.old ++ p ∷ [] else self.old) }
        ensures given_back { IfErr result (λ error. error.value ≡ p) }
    {
        self.items.push(p)
    }

    pub fn items(&self) -> &[Named]
        ensures exact { result.now ≡ self.now }
    {
        &self.items
    }

    pub fn try_clone(&self) -> Result<Seq, AllocError>
        ensures exact { IfOk result (λ copy. copy ≡ self.now) }
    {
        let mut items = Vec::with_capacity(*self.items.allocator(), self.items.len())?;
        for p in &self.items {
            items.push(p.try_clone()?)?;
        }
        Ok(Seq { items })
    }

    /// True if the two have the same primitives in the same order; does not allocate.
    pub fn is_same(&self, other: &Seq) -> bool
        ensures exact { IsTrue result ↔ (self.now ≡ other.now) }
    {
        if self.items.len() != other.items.len() {
            return false;
        }
        for (at, p) in self.items.iter().enumerate() {
            if !p.is_same(&other.items[at]) {
                return false;
            }
        }
        true
    }
}
