//! The laws of contexted patches, as functions whose contracts state them.
ghost use Rattle.camp_ctx.specs.Laws.{AddingHasResult, AddingIsUnique, AreSymmetric, EmptyChangesNothing, KeepValid};
ghost use Rattle.camp_ctx.specs.Room.{AddsInAnyOrder, ReachGivesRoomToAdd};

/// Adding, commuting past, and merging after a common part have at most one result.
#[tactic(auto, using(crate::proofs::SetChanges::are_determined))]
pub fn results_in_context_are_determined()
    ensures law { AddingIsUnique }
{}

/// Adding always has a result.
#[tactic(auto, using(crate::proofs::SetChanges::adding_has_result))]
pub fn adding_has_result()
    ensures law { AddingHasResult }
{}

/// Adding and commuting past keep validity: what is valid after a primitive or a list becomes something that
/// is valid before it.
#[tactic(auto, using(crate::proofs::SetChanges::keep_valid))]
pub fn adding_and_passing_keep_valid()
    ensures law { KeepValid }
{}

/// Adding the empty list changes nothing.
#[tactic(auto, using(crate::proofs::SetChanges::empty_changes_nothing))]
pub fn adding_the_empty_list_changes_nothing()
    ensures law { EmptyChangesNothing }
{}

/// Whether two contexted patches conflict does not depend on which comes first.
pub fn conflict_is_symmetric()
    ensures law { AreSymmetric }
{}

/// If the primitives of a list, a context and a patch are in range, and the reach of all of them together is at most
/// 2^30, the list has headroom to be added.
#[tactic(auto, using(crate::proofs::RoomToAdd::reach_gives_room_to_add))]
pub fn reach_gives_room_to_add()
    ensures law { ReachGivesRoomToAdd }
{}

/// With headroom, the result of adding a list does not depend on the order of its elements.
#[tactic(auto, using(crate::proofs::AddOrders::adds_in_any_order))]
pub fn list_adds_in_any_order()
    ensures law { AddsInAnyOrder }
{}
