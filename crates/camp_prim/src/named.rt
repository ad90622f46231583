//! The labelled primitive.
ghost use Rattle.std.specs.Prelude.{◌≡◌, ◌↔◌, IfOk, IsTrue};
ghost use Rattle.camp_base.specs.Answers.{Answers};
ghost use Rattle.camp_prim.specs.Effect.{Applies, inverse_of};
ghost use Rattle.camp_prim.specs.Labels.{label_of};

use crate::{Label, Primitive};
use camp_base::{Apply, Name, Tree};
use camp_share::Share;
use std::alloc::AllocError;

/// A primitive with its label: the name of its patch, its position in it, and its sign. The absolute label is
/// the name and the position; positions in a recorded patch are 1 to 64.
#[derive(Debug, Drop)]
pub struct Named {
    pub name: Name,
    pub place: u8,
    /// True for the inverse of the primitive that was recorded.
    pub inverse: bool,
    pub prim: Primitive,
}

impl Named {
    /// Returns the label: name, position and sign.
    pub fn label(&self) -> Label
        ensures exact { result ≡ label_of self.now }
    {
        Label {
            name: self.name,
            place: self.place,
            inverse: self.inverse,
        }
    }

    /// Returns the inverse: the inverse primitive under the label with the other sign.
    pub fn invert(self) -> Named
        ensures exact { result ≡ inverse_of self }
    {
        let Named {
            name,
            place,
            inverse,
            prim,
        } = self;
        Named {
            name,
            place,
            inverse: !inverse,
            prim: prim.invert(),
        }
    }

    /// Copies the primitive and its label; does not allocate.
    pub fn try_clone(&self) -> Result<Named, AllocError>
        ensures exact { IfOk result (λ copy. copy ≡ self.now) }
    {
        let prim = self.prim.try_clone()?;
        Ok(Named {
            name: self.name,
            place: self.place,
            inverse: self.inverse,
            prim,
        })
    }

    /// True if both labels and both primitives are equal.
    pub fn is_same(&self, other: &Named) -> bool
        ensures exact { IsTrue result ↔ (self.now ≡ other.now) }
    {
        if self.name != other.name {
            return false;
        }
        if self.place != other.place {
            return false;
        }
        if self.inverse != other.inverse {
            return false;
        }
        self.prim.is_same(&other.prim)
    }

    /// Applies the primitive to a tree. After an error the tree is unchanged.
    pub fn apply(&self, tree: &mut Tree) -> Result<(), Apply>
        ensures exact { Answers (Applies self.now.prim) tree.old result tree.new }
    {
        self.prim.apply(tree)
    }
}

impl Share for Named {
    fn share(&self) -> Result<Named, AllocError> {
        self.try_clone()
    }
}
