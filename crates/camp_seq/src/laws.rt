//! The laws of lists, as functions whose contracts state them.
ghost use Rattle.camp_seq.specs.Laws.{AreDetermined, AreEquivalent, EquivalentRun, HasNormalOrder, InverseOfListLeadsBack, MergeCloses, MergeIsEquivalent, MergeIsPassing, MergeIsSymmetric, SplitByLabels};
ghost use Rattle.camp_seq.specs.Room.{LawOfThree, MergesInAnyOrder, NormalForm};

/// Equivalent lists lead from the same trees to the same trees.
#[tactic(auto, using(crate::proofs::ListRuns::equivalent_run))]
pub fn equivalent_lists_run_alike()
    ensures law { EquivalentRun }
{}

/// Commuting past a list, moving to the front, splitting and normal ordering give equivalent lists.
#[tactic(auto, using(crate::proofs::ListEquivalence::are_equivalent))]
pub fn lists_of_results_are_equivalent()
    ensures law { AreEquivalent }
{}

/// Commuting past a list, moving to the front, splitting, normal ordering and merging have at most one
/// result.
#[tactic(auto, using(crate::proofs::ListResults::are_determined))]
pub fn results_of_lists_are_determined()
    ensures law { AreDetermined }
{}

/// A list and its inverse undo each other.
#[tactic(auto, using(crate::proofs::ListRuns::inverse_all_leads_back))]
pub fn inverse_of_a_list_leads_back()
    ensures law { InverseOfListLeadsBack }
{}

/// Every list has a normal order.
#[tactic(auto, using(crate::proofs::NormalOrders::has_normal_order))]
pub fn every_list_has_a_normal_order()
    ensures law { HasNormalOrder }
{}

/// Two lists that merge cleanly lead to the same tree in both orders.
pub fn clean_merge_closes()
    ensures law { MergeCloses }
{}

/// The two orders of a clean merge are equivalent.
#[tactic(auto, using(crate::proofs::MergeGrid::merge_is_equivalent))]
pub fn clean_merge_is_equivalent()
    ensures law { MergeIsEquivalent }
{}

/// Whether two lists merge cleanly does not depend on which comes first.
#[tactic(auto, using(crate::proofs::MergeGrid::merge_is_symmetric))]
pub fn clean_merge_is_symmetric()
    ensures law { MergeIsSymmetric }
{}

/// Two lists merge cleanly exactly if the inverse of one commutes past the other.
#[tactic(auto, using(crate::proofs::MergeGrid::merge_is_passing))]
pub fn clean_merge_is_passing_the_inverse()
    ensures law { MergeIsPassing }
{}

/// In a split, each element of the first list has one of the given labels, and no element of the second has.
pub fn splits_are_by_labels()
    ensures law { SplitByLabels }
{}

/// With headroom: if the first two of three primitives commute and the third commutes past both, the six orders of the
/// three exist and agree.
#[tactic(auto, using(crate::proofs::LawOfThree::law_of_three))]
pub fn six_orders_of_three_agree()
    ensures law { LawOfThree }
{}

/// A list with headroom and every list equivalent to it have the same normal order.
#[tactic(auto, using(crate::proofs::NormalForms::normal_form))]
pub fn normal_order_is_a_normal_form()
    ensures law { NormalForm }
{}

/// Whether two lists have headroom to merge does not depend on the order of their elements; with headroom, neither does
/// whether they merge cleanly.
#[tactic(auto, using(crate::proofs::MergeOrders::merging_in_any_order))]
pub fn lists_merge_in_any_order()
    ensures law { MergesInAnyOrder }
{}
