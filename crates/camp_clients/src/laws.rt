//! The laws of runs, as functions whose contracts state them.
ghost use Rattle.camp_clients.specs.Laws.{DoneWasAccepted, LockedIsSerial, OpeningIsAlone, SharedIsSerial};

use camp_object::Object;

/// A single section over a head has the replies and the history of a serial run.
pub fn shared_is_serial<State: Object>()
    ensures law { SharedIsSerial State.object }
{}

/// A single section over a lock has the replies and the history of a serial run.
#[tactic(auto, using(crate::proofs::Single::locked_is_serial))]
pub fn locked_is_serial<State: Object>()
    ensures law { LockedIsSerial State.object }
{}

/// In a serial run whose history is legal, each call that is reported as accepted was accepted after the calls before
/// it.
#[tactic(auto, using(crate::proofs::Single::done_was_accepted))]
pub fn done_was_accepted<State: Object>()
    ensures law { DoneWasAccepted State.object }
{}

/// The first section of a run over a head runs alone: the history begins with its accepted calls, in their
/// order, and no other call comes between them.
pub fn opening_is_alone<State: Object>()
    ensures law { OpeningIsAlone State.object }
{}
