//! The changes of a patch.
ghost use Rattle.std.specs.Prelude.{◌≡◌, ◌↔◌, [], ◌∷◌, IfOk, IsTrue, MatchOption};
ghost use Rattle.camp_call.specs.Patches.{IsPatchSized};

use crate::MAX_CHANGES;
use camp_prim::Primitive;
use std::alloc::AllocError;
use std::marker::Model;
use std::slice;

/// The changes of a patch in the order in which they are applied: 1 to 64 of them.
#[derive(Debug, Drop)]
pub struct Changes {
    prims: Held,
}

// One change is stored without a list, since most patches have one; a copy of it does not allocate.
#[derive(Debug, Drop)]
enum Held {
    One(Primitive),
    Many(Vec<Primitive>),
}

impl Model for Changes {
    ghost use Rattle.std.specs.Prelude.{List};
    ghost use Rattle.camp_prim.specs.declared.primitives.Primitive.{Primitive};
    ghost use Rattle.camp_call.specs.Patches.{IsPatchSized};
    ghost use Rattle.camp_call.specs.Inside.ChangesFields.{held_changes};

    ghost Value = { List Primitive };

    ghost view = { λ changes. held_changes changes.prims };

    ghost invariant = { λ changes. IsPatchSized (held_changes changes.prims) };
}

impl Changes {
    /// Wraps the changes of a patch; `None` unless there are 1 to 64. Does not allocate.
    pub fn new(mut prims: Vec<Primitive>) -> Option<Changes>
        ensures exact { MatchOption result
            (¬ (IsPatchSized prims.items))
            (λ changes. IsPatchSized prims.items × (changes ≡ prims.items)) }
    {
        if prims.len() > MAX_CHANGES {
            return None;
        }
        if prims.len() > 1 {
            return Some(Changes {
                prims: Held::Many(prims),
            });
        }
        let prim = prims.pop()?;
        Some(Changes {
            prims: Held::One(prim),
        })
    }

    /// Wraps the change of a patch of one change; does not allocate.
    pub fn of_one(prim: Primitive) -> Changes
        ensures exact { result ≡ prim ∷ [] }
    {
        Changes {
            prims: Held::One(prim),
        }
    }

    pub fn prims(&self) -> &[Primitive]
        ensures value { result.now ≡ self.now }
        ensures sized { IsPatchSized self.now }
    {
        match &self.prims {
            Held::One(prim) => slice::from_ref(prim),
            Held::Many(prims) => prims,
        }
    }

    /// Copies the changes, which share their paths and lines with the copy. A copy of one change does not allocate; a
    /// copy of more allocates only their list.
    pub fn try_clone(&self) -> Result<Changes, AllocError>
        ensures exact { IfOk result (λ copy. copy ≡ self.now) }
    {
        let prims = match &self.prims {
            Held::One(prim) => Held::One(prim.try_clone()?),
            Held::Many(prims) => Held::Many(copies(prims)?),
        };
        Ok(Changes { prims })
    }

    /// True if the two are the same changes in the same order; does not allocate.
    pub fn is_same(&self, other: &Changes) -> bool
        ensures exact { IsTrue result ↔ (self.now ≡ other.now) }
    {
        let (prims, others) = (self.prims(), other.prims());
        if prims.len() != others.len() {
            return false;
        }
        for (at, prim) in prims.iter().enumerate() {
            if !prim.is_same(&others[at]) {
                return false;
            }
        }
        true
    }
}

fn copies(prims: &Vec<Primitive>) -> Result<Vec<Primitive>, AllocError>
    ensures { IfOk result (λ copies. copies.items ≡ prims.now.items) }
{
    let mut copies = Vec::with_capacity(*prims.allocator(), prims.len())?;
    for prim in prims {
        copies.push(prim.try_clone()?)?;
    }
    Ok(copies)
}
