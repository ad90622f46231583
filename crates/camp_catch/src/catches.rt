//! Catches and conflictors.
ghost use Rattle.std.specs.Prelude.{◌≡◌, ◌↔◌, IfOk, IsTrue};
ghost use Rattle.camp_catch.specs.Catches.{catch_key, effect_of};

use camp_base::Name;
use camp_ctx::{Contexted, CtxSet};
use camp_prim::{Key, Named};
use camp_seq::Seq;
use camp_share::Share;
use std::alloc::AllocError;
use std::slice;

/// One change of a patch as it is in a branch: plain, or in conflict with others.
#[derive(Drop)]
pub enum Catch {
    Plain(Named),
    Conflictor(Conflictor),
}

/// A change in conflict. `effect` is what it does to a tree; its conflicts and its identity are seen from the state
/// after the effect.
#[derive(Drop)]
pub struct Conflictor {
    pub effect: Seq,
    pub conflicts: CtxSet,
    pub identity: Contexted,
}

impl Catch {
    /// Returns the name of its patch.
    pub fn name(&self) -> &Name
        ensures exact { result.now ≡ (catch_key self.now).name }
    {
        match self {
            Catch::Plain(patch) => &patch.name,
            Catch::Conflictor(conflictor) => conflictor.identity.name(),
        }
    }

    /// Returns its position in its patch.
    pub fn place(&self) -> u8
        ensures exact { result ≡ (catch_key self.now).place }
    {
        match self {
            Catch::Plain(patch) => patch.place,
            Catch::Conflictor(conflictor) => conflictor.identity.place(),
        }
    }

    /// Returns the absolute label: that of its patch, or of its identity.
    pub fn key(&self) -> Key
        ensures exact { result ≡ catch_key self.now }
    {
        match self {
            Catch::Plain(patch) => patch.label().key(),
            Catch::Conflictor(conflictor) => conflictor.identity.key(),
        }
    }

    /// Returns its effect on a tree, primitive by primitive.
    pub fn effect(&self) -> &[Named]
        ensures exact { result.now ≡ effect_of self.now }
    {
        match self {
            Catch::Plain(patch) => slice::from_ref(patch),
            Catch::Conflictor(conflictor) => conflictor.effect.items(),
        }
    }

    pub fn try_clone(&self) -> Result<Catch, AllocError>
        ensures exact { IfOk result (λ copy. copy ≡ self.now) }
    {
        match self {
            Catch::Plain(patch) => Ok(Catch::Plain(patch.try_clone()?)),
            Catch::Conflictor(conflictor) => Ok(Catch::Conflictor(conflictor.try_clone()?)),
        }
    }

    /// True if both are plain with the same patch, or conflictors with the same fields; does not allocate.
    pub fn is_same(&self, other: &Catch) -> bool
        ensures exact { IsTrue result ↔ (self.now ≡ other.now) }
    {
        match (self, other) {
            (Catch::Plain(a), Catch::Plain(b)) => a.is_same(b),
            (Catch::Conflictor(j), Catch::Conflictor(k)) => j.is_same(k),
            _ => false,
        }
    }
}

impl Conflictor {
    pub fn try_clone(&self) -> Result<Conflictor, AllocError>
        ensures exact { IfOk result (λ copy. copy ≡ self.now) }
    {
        let effect = self.effect.try_clone()?;
        let conflicts = self.conflicts.try_clone()?;
        let identity = self.identity.try_clone()?;
        Ok(Conflictor {
            effect,
            conflicts,
            identity,
        })
    }

    /// True if the two have the same fields; does not allocate.
    pub fn is_same(&self, other: &Conflictor) -> bool
        ensures exact { IsTrue result ↔ (self.now ≡ other.now) }
    {
        self.identity.is_same(&other.identity)
            && self.effect.is_same(&other.effect)
            && self.conflicts.is_same(&other.conflicts)
    }
}

impl Share for Catch {
    fn share(&self) -> Result<Catch, AllocError> {
        self.try_clone()
    }
}
