//! The laws of catches, as functions whose contracts state them.
ghost use Rattle.camp_catch.specs.Cases.{CasesExclude, MergeCasesExclude};
ghost use Rattle.camp_catch.specs.Laws.{CatchCommuteIsUnique, CommuteKeepsEffects, KeepLabels, ListsKeepEffects, CatchMergeIsSymmetric, MergeIsUnique, MergeKeepsEffects};
ghost use Rattle.camp_catch.specs.ListLaws.{ArrangeByMembers, CatchesAreDecided, FrontsFollowFronts, ListsAreUnique, ListsSucceedOrAreBlocked, BlockersAreIncluded};

/// If two catches fit a tree one after the other, so do those that they commute to, and both orders lead to
/// the same tree.
pub fn commute_keeps_effects()
    ensures law { CommuteKeepsEffects }
{}

/// If two catches fit the same tree, each of those that they merge to fits after the other, and both orders
/// lead to the same tree.
pub fn merge_keeps_effects()
    ensures law { MergeKeepsEffects }
{}

/// The merge of two catches does not depend on which comes first.
#[tactic(auto, using(crate::proofs::MergeEffects::merging_is_symmetric))]
pub fn merge_is_symmetric()
    ensures law { CatchMergeIsSymmetric }
{}

/// No two cases of commuting apply to the same two catches.
#[tactic(auto, using(crate::proofs::CommuteCases::cases_exclude))]
pub fn cases_exclude_one_another()
    ensures law { CasesExclude }
{}

/// Two catches commute to at most one pair, whichever case gives it.
pub fn commute_is_unique()
    ensures law { CatchCommuteIsUnique }
{}

/// No two cases of merging apply to the same two catches.
#[tactic(auto, using(crate::proofs::MergeCases::cases_exclude))]
pub fn merge_cases_exclude()
    ensures law { MergeCasesExclude }
{}

/// Two catches merge to at most one pair, whichever case gives it.
pub fn merge_is_unique()
    ensures law { MergeIsUnique }
{}

/// A list that is arranged, aligned or merged still fits its tree, and leads to the same tree.
#[tactic(auto, using(crate::proofs::ListEffects::lists_keep_effects))]
pub fn lists_keep_effects()
    ensures law { ListsKeepEffects }
{}

/// Commuting, merging, arranging, aligning and merging lists keep absolute labels.
#[tactic(auto, using(crate::proofs::KeptLabels::keep_labels))]
pub fn labels_are_kept()
    ensures law { KeepLabels }
{}

/// Arranging, aligning and merging lists have at most one result and, if they are blocked, at most one pair of labels.
#[tactic(auto, using(crate::proofs::ListResults::lists_are_unique))]
pub fn lists_are_unique()
    ensures law { ListsAreUnique }
{}

/// It is decidable whether two catches commute, and whether they merge.
#[tactic(auto, using(crate::proofs::ListResults::are_decided))]
pub fn catches_are_decided()
    ensures law { CatchesAreDecided }
{}

/// Arranging, aligning and merging a list either has a result or is blocked at some labels, never both.
#[tactic(auto, using(crate::proofs::ListResults::lists_succeed_or_are_blocked))]
pub fn lists_succeed_or_are_blocked()
    ensures law { ListsSucceedOrAreBlocked }
{}

/// Arranging by names depends only on which names are given, not on their order.
#[tactic(auto, using(crate::proofs::ListResults::arrange_by_members))]
pub fn arrange_goes_by_members()
    ensures law { ArrangeByMembers }
{}

/// If a patch blocks others on their way to the front of a list of plain catches with headroom, every set of patches
/// that includes those others and can be moved to the front includes that patch too.
pub fn blockers_are_included()
    ensures law { BlockersAreIncluded }
{}

/// Two sets of patches that can each be moved to the front of a list of plain catches with headroom can be moved there
/// one after the other: after the second set, what the first has besides it can be moved to the front of the rest.
pub fn fronts_follow_fronts()
    ensures law { FrontsFollowFronts }
{}
