//! The laws of the repository, as functions whose contracts state them.
ghost use Rattle.camp_repo.specs.Laws.{AcceptedCallsHaveEffect, HistoriesAreCounted, HistoriesAreLawful, HistoriesGiveTrees};
ghost use Rattle.camp_repo.specs.LimitLaws.{DefaultLimitsHold, StatesHoldTheirLimits};
ghost use Rattle.camp_repo.specs.Laws.{HistoriesKeepLimits, InitialIsLawful, OutcomesAreDefined, RepositoryIsLawful, StepsKeepLawful, StepsKeepLimits, TreesAreAnswered};

/// A new repository is lawful, whatever its limits.
#[tactic(auto, using(crate::proofs::StepsLawful::initial_lawful))]
pub fn initial_is_lawful()
    ensures law { InitialIsLawful }
{}

/// An accepted call leads from a lawful state to a lawful one.
pub fn steps_keep_lawful()
    ensures law { StepsKeepLawful }
{}

/// An accepted branch call appends the copy as the last branch; a record appends its patch to its branch, and a pull
/// the wanted patches; an obliteration keeps the other patches. No other branch changes, and one more call is counted.
pub fn accepted_calls_have_effect()
    ensures law { AcceptedCallsHaveEffect }
{}

/// Every legal history leads to a lawful state, whatever the limits.
pub fn histories_are_lawful()
    ensures law { HistoriesAreLawful }
{}

/// After every legal history, the tree of a branch is the effects of its catches applied to the empty tree,
/// and a question for it is answered with that tree.
pub fn histories_tell_trees()
    ensures law { HistoriesGiveTrees }
{}

/// A state counts the calls of the history that leads to it: the number in the reply to an accepted call is
/// its position in the history, from 1.
#[tactic(auto, using(crate::proofs::HistoriesLawful::histories_counted))]
pub fn histories_are_counted()
    ensures law { HistoriesAreCounted }
{}

/// No call changes the limits of a repository.
pub fn calls_keep_limits()
    ensures steps { StepsKeepLimits }
    ensures histories { HistoriesKeepLimits }
{}

/// A call that passes all earlier tests is refused as too large exactly if a branch would have more catches, or the
/// repository more branches, than its limits allow.
#[tactic(auto, using(crate::proofs::LimitSteps::states_hold))]
pub fn states_hold_their_limits()
    ensures law { StatesHoldTheirLimits }
{}

/// With the default limits a repository has at most 4,096 catches in a branch, and at most 256 branches.
#[tactic(auto, using(crate::proofs::LimitSteps::default_limits_hold))]
pub fn default_limits_hold()
    ensures law { DefaultLimitsHold }
{}

/// Each branch of a lawful state has a tree, with which a question for it is answered.
pub fn trees_are_answered()
    ensures law { TreesAreAnswered }
{}

/// The results of a pull, an obliteration and a question for conflicts are those of the definitions of
/// branches.
#[tactic(auto, using(crate::proofs::Effects::outcomes_defined))]
pub fn outcomes_are_defined()
    ensures law { OutcomesAreDefined }
{}

/// A repository is an object, whatever its limits: it counts its accepted calls, and only calls that write are
/// accepted.
pub fn repository_is_lawful()
    ensures law { RepositoryIsLawful }
{}
