//! The laws of branches, as functions whose contracts state them.
ghost use Rattle.camp_branch.specs.Laws.{ConflictsAreDetermined, NamesAreOfPatches, ObliteratesKeepLawful, OutcomesAreDetermined, PullsBeginWithOwn, PullsKeepLawful, RecordsKeepLawful, TreesAreDetermined};

/// A branch leads to at most one tree, the tree of its effects.
#[tactic(auto, using(crate::proofs::KeepLawful::trees_are_determined))]
pub fn trees_are_determined()
    ensures law { TreesAreDetermined }
{}

/// The names of a branch are those of its patches, in their order.
#[tactic(auto, using(crate::proofs::BranchLabels::names_of_patches))]
pub fn names_are_of_patches()
    ensures law { NamesAreOfPatches }
{}

/// A pull has exactly one outcome, and so has an obliteration.
#[tactic(auto, using(crate::proofs::OutcomesDetermined::outcomes_are_determined))]
pub fn outcomes_are_determined()
    ensures law { OutcomesAreDetermined }
{}

/// The conflicts of a branch are exactly one list of pairs.
pub fn conflicts_are_determined()
    ensures law { ConflictsAreDetermined }
{}

/// The result of a pull begins with the catches of the branch that is pulled into.
pub fn pulls_begin_with_own()
    ensures law { PullsBeginWithOwn }
{}

/// The result of a pull has the patches of the branch that is pulled into, and then the wanted ones in the order of the
/// other branch; it is lawful.
#[tactic(auto, using(crate::proofs::KeepLawful::pulls_keep_lawful))]
pub fn pulls_keep_lawful()
    ensures law { PullsKeepLawful }
{}

/// An obliteration keeps the other patches in their order, and the resulting branch is lawful.
#[tactic(auto, using(crate::proofs::KeepLawful::obliterates_keep_lawful))]
pub fn obliterates_keep_lawful()
    ensures law { ObliteratesKeepLawful }
{}

/// A new branch is lawful, and stays so when a patch is recorded under a new name.
#[tactic(auto, using(crate::proofs::KeepLawful::records_keep_lawful))]
pub fn records_keep_lawful()
    ensures law { RecordsKeepLawful }
{}
