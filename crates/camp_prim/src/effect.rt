//! Laws of the effect of a primitive on a tree.
ghost use Rattle.camp_prim.specs.Applied.{AppliedIsApplies, InverseLeadsBack};

/// A primitive leads from a tree to at most one tree.
#[tactic(auto, using(crate::proofs::Applied::applied_is))]
pub fn applied_is_applies()
    ensures law { AppliedIsApplies }
{}

/// A primitive and its inverse undo each other.
#[tactic(auto, using(crate::proofs::Inverses::inverse_leads_back))]
pub fn inverse_leads_back()
    ensures law { InverseLeadsBack }
{}
