//! Labels of primitives, and their order.
ghost use Rattle.std.specs.Prelude.{◌≡◌, ◌↔◌, IsTrue};
ghost use Rattle.std.specs.Cmp.{IsTotalOrder};
ghost use Rattle.std.specs.FinMap.{IsAntisymmetric};
ghost use Rattle.std.specs.Ordering.{is_lt};
ghost use Rattle.camp_prim.specs.declared.labels.Key.{Key};
ghost use Rattle.camp_prim.specs.declared.labels.Label.{Label};
ghost use Rattle.camp_prim.specs.Labels.{key_cmp, key_of, label_cmp, label_of, opposite, SameKey};

use crate::Named;
use camp_base::Name;
use std::cmp::Ordering;

/// The absolute label of a primitive: the name of its patch and its position in it, from 1. Keys are ordered
/// by the bytes of the name, and then by position.
#[derive(Clone, Copy, Debug, PartialEq, Eq, PartialOrd, Ord)]
pub struct Key {
    pub name: Name,
    pub place: u8,
}

/// The label of a primitive: the name of its patch, its position in it, and its sign. Labels are ordered by
/// the bytes of the name, then by position, and then the positive before the negative.
#[derive(Clone, Copy, Debug, PartialEq, Eq, PartialOrd, Ord)]
pub struct Label {
    pub name: Name,
    pub place: u8,
    /// True for the label of an inverse.
    pub inverse: bool,
}

impl Label {
    /// Returns the absolute label: name and position.
    pub fn key(self) -> Key
        ensures exact { result ≡ key_of self }
    {
        Key {
            name: self.name,
            place: self.place,
        }
    }

    /// Returns the label with the other sign.
    pub fn opposite(self) -> Label
        ensures exact { result ≡ opposite self }
    {
        Label {
            name: self.name,
            place: self.place,
            inverse: !self.inverse,
        }
    }
}

/// Labels are totally ordered, and only equal labels compare as equal.
#[tactic(auto, using(crate::proofs::LabelOrder::label_total, crate::proofs::LabelOrder::label_ties))]
pub fn labels_are_ordered()
    ensures is { (a b : Label) → ⟦<Label as Ord>⟧.cmp a b ≡ label_cmp a b }
    ensures total { IsTotalOrder label_cmp }
    ensures ties { IsAntisymmetric label_cmp }
{}

/// Keys are totally ordered, and only equal keys compare as equal.
#[tactic(auto, using(crate::proofs::LabelOrder::key_total, crate::proofs::LabelOrder::key_ties))]
pub fn keys_are_ordered()
    ensures is { (a b : Key) → ⟦<Key as Ord>⟧.cmp a b ≡ key_cmp a b }
    ensures total { IsTotalOrder key_cmp }
    ensures ties { IsAntisymmetric key_cmp }
{}

/// True if the two have the same name and position; signs may differ.
pub fn have_same_key(p: &Named, q: &Named) -> bool
    ensures exact { IsTrue result ↔ SameKey p.now q.now }
{
    if p.place != q.place {
        return false;
    }
    p.name == q.name
}

/// True if the label of `p` is less than that of `q`.
pub fn has_less_label(p: &Named, q: &Named) -> bool
    ensures exact { result ≡ is_lt (label_cmp (label_of p.now) (label_of q.now)) }
{
    match p.name.cmp(&q.name) {
        Ordering::Less => true,
        Ordering::Greater => false,
        Ordering::Equal => p.label() < q.label(),
    }
}
