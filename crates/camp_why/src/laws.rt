//! The laws of explanations: what they say is true.
ghost use Rattle.camp_why.specs.Grounds.{RefusalsHaveGrounds};
ghost use Rattle.camp_why.specs.Hints.{HintsAreSeen};
ghost use Rattle.camp_why.specs.Laws.{MisfitsAreReasons, RefusalsAreExplained};

/// The reported reason of a change is true; if one is reported, the change does not apply.
pub fn misfits_are_reasons()
    ensures law { MisfitsAreReasons }
{}

/// If a refusal alone does not say why, a cause is reported, and it is true.
#[tactic(auto, using(crate::proofs::Grounding::refusals_explained))]
pub fn refusals_are_explained()
    ensures law { RefusalsAreExplained }
{}

/// What a refusal says of a call is true at the state that refuses it.
#[tactic(auto, using(crate::proofs::Grounding::have_grounds))]
pub fn refusals_have_grounds()
    ensures law { RefusalsHaveGrounds }
{}

/// The hint on a line with a fault is true; if there is none, no hint applies.
#[tactic(auto, using(crate::proofs::Seeing::are_seen))]
pub fn hints_are_seen()
    ensures law { HintsAreSeen }
{}
