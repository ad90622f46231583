//! The laws of questions, as functions whose contracts state them.
ghost use Rattle.camp_questions.specs.Laws.{AlongIsEnough, ArrowsAreDirectNeeds, ArrowsLeadBackwards, ForeseenHappens, HeldCanBeTakenOut, HeldIsDetermined, HeldIsLeast, LinesAreAddedByPatches, LinesHaveNames, MissingIsPulled, NeedsAndHeldAreOne, NeedsAreDetermined, NeedsAreLeast, NeedsAreReached, NeedsCanBePulled, NeedsComeFirst, OrderKeepsNames, PartsAreReached, RecordedIsShown, SidesApply, SidesAreAccepted};

/// An accepted pull without names appends the missing patches, in this order; if none is missing, the pull is refused
/// as having nothing to do.
#[tactic(auto, using(crate::proofs::MissingNames::missing_is_pulled))]
pub fn missing_is_pulled()
    ensures law { MissingIsPulled }
{}

/// The dependencies of patches include the patches and can be moved to the front of their branch; each further
/// dependency blocks some of the others on the way.
pub fn needs_come_first()
    ensures law { NeedsComeFirst }
{}

/// If all catches of a branch are plain and have headroom, the dependencies of patches are the least list
/// that contains them and can be moved to the front.
pub fn needs_are_least()
    ensures law { NeedsAreLeast }
{}

/// Patches have exactly one list of dependencies.
#[tactic(auto, using(crate::proofs::BranchGrowths::needs_are_determined))]
pub fn needs_are_determined()
    ensures law { NeedsAreDetermined }
{}

/// Obliterating patches together with everything that depends on them is accepted; each of the dependents
/// depends on one of the patches or of the other dependents.
pub fn held_can_be_taken_out()
    ensures law { HeldCanBeTakenOut }
{}

/// Patches have exactly one list of dependents.
#[tactic(auto, using(crate::proofs::BranchGrowths::held_is_determined))]
pub fn held_is_determined()
    ensures law { HeldIsDetermined }
{}

/// If all catches of a branch are plain and have headroom, the dependents of patches are the least list that
/// contains them and can be taken out.
pub fn held_is_least()
    ensures law { HeldIsLeast }
{}

/// If all catches of a branch are plain and have headroom, a pull of the dependencies of some patches into a branch
/// that has none of them does not fail because one of them depends on another patch.
pub fn needs_can_be_pulled()
    ensures law { NeedsCanBePulled }
{}

/// If all catches of a branch are plain and have headroom, one patch depends on another exactly if it is a
/// dependent of the other.
pub fn needs_and_held_are_one()
    ensures law { NeedsAndHeldAreOne }
{}

/// Each line of a file of a branch has a name, which is that of one of its patches; undoing a hunk gives all
/// lines the names that they had.
#[tactic(auto, using(crate::proofs::AnnotationLaws::lines_have_names))]
pub fn lines_have_names()
    ensures law { LinesHaveNames }
{}

/// Each line of a file was added by a hunk of the patch whose name it has, if every primitive whose label occurs again
/// in the effects of the branch only restores removed lines. In a lawful branch of plain catches no label occurs again,
/// so this always holds.
#[tactic(auto, using(crate::proofs::BroughtLines::lines_are_added_by_patches))]
pub fn lines_are_added_by_patches()
    ensures law { LinesAreAddedByPatches }
{}

/// Plain patches give the files the same lines, with the same names, in whatever order they are.
#[tactic(auto, using(crate::proofs::SwappedNames::order_keeps_names))]
pub fn order_keeps_names()
    ensures law { OrderKeepsNames }
{}

/// In the state after its record, a patch is shown with the changes that were recorded.
pub fn recorded_is_shown()
    ensures law { RecordedIsShown }
{}

/// The arrows of a graph lead from each patch to exactly its direct dependencies.
#[tactic(auto, using(crate::proofs::Arrows::arrows_are_direct_needs))]
pub fn arrows_are_direct_needs()
    ensures law { ArrowsAreDirectNeeds }
{}

/// In the graph of a lawful branch whose catches are all plain and have headroom, the dependencies of a patch
/// are the patches reached from it along the arrows.
pub fn needs_are_reached()
    ensures law { NeedsAreReached }
{}

/// In the graph of a lawful branch, the part that belongs to some patches consists of those reached from one
/// of them along the arrows and those that reach one of them.
pub fn parts_are_reached()
    ensures law { PartsAreReached }
{}

/// The changes of a side apply to the tree of the branch, one after the other.
pub fn sides_apply()
    ensures law { SidesApply }
{}

/// A record of the changes of a side is accepted if it is within the limits; under a new name, it is refused only as
/// too large.
#[tactic(auto, using(crate::proofs::SidesAccepted::sides_are_accepted))]
pub fn sides_are_accepted()
    ensures law { SidesAreAccepted }
{}

/// A pull of the names that `along` returns is refused neither for a missing patch nor because one depends on
/// another.
#[tactic(auto, using(crate::proofs::AlongEnough::along_is_enough))]
pub fn along_is_enough()
    ensures law { AlongIsEnough }
{}

/// The arrows of a graph of a lawful branch lead backwards: each to a patch that was recorded or pulled earlier.
pub fn arrows_lead_backwards()
    ensures law { ArrowsLeadBackwards }
{}

/// A call does what was foreseen: it gets the foreseen reply, and questions directly after it return the foreseen tree
/// and conflicts of the branch that it writes to.
#[tactic(auto, using(crate::proofs::Foreseeing::foreseen_happens))]
pub fn foreseen_happens()
    ensures law { ForeseenHappens }
{}
