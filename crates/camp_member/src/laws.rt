//! The laws of readers and members of one log.
ghost use Rattle.camp_member.specs.Laws.{AcceptedOnce, CountedAreSnapshot, EachTagCountsOnce, FindsOn, AdvancesAnyhow, AdvancesOn, NobodyIsBusy, NothingIsRead, NothingIsRestored, ReadersAgree, ReadersShareOneHistory, ReadsOn, RestoresOn, SnapshotStandsForLog, StopsAtForeign};
ghost use Rattle.camp_object.specs.Objects.{begun};

use camp_object::Object;

/// A reader has read the lawful part of its log: from its start, entry by entry, up to the first that is foreign.
pub fn readers_follow_the_log<State: Object>()
    ensures starts { (first : State) → NothingIsRead (begun State.object first) }
    ensures goes_on { (first : State) → ReadsOn (begun State.object first) }
    ensures stops { (first : State) → StopsAtForeign (begun State.object first) }
{}

/// The entries of a seat that count have the numbers 1, 2, .. in order, so no tag counts twice.
pub fn each_tag_counts_once<State: Object>()
    ensures law { EachTagCountsOnce State.Call }
{}

/// Readers of one log have the same history. If two readers have read different prefixes of it, the history of one is a
/// prefix of the other's.
pub fn readers_share_one_history<State: Object>()
    ensures agree { (first : State) → ReadersAgree (begun State.object first) }
    ensures law { (first : State) → ReadersShareOneHistory (begun State.object first) }
{}

/// A reader that was restored from a snapshot of a log, and continues at the end of that log, has read that log, so all
/// that holds of readers holds of it. The entries of a log that count are a snapshot of it.
pub fn snapshots_stand_for_the_log<State: Object>()
    ensures starts { (first : State) → NothingIsRestored (begun State.object first) }
    ensures goes_on { (first : State) → RestoresOn (begun State.object first) }
    ensures stands { (first : State) → SnapshotStandsForLog (begun State.object first) }
    ensures counted { (first : State) → CountedAreSnapshot (begun State.object first) }
{}

/// A member has read the lawful part of its log: it reads each entry that it finds after those before it.
pub fn members_follow_the_log<State: Object>()
    ensures law { (first : State) → FindsOn (begun State.object first) }
{}

/// Over a run of a member, each answer is right as `Ask` says, at a history that begins with that of the answer before
/// it. The history gets exactly those calls of the seat that were answered as accepted, each once. No answer is Busy.
pub fn members_are_answered_once<State: Object>()
    ensures goes_on { (first : State) → AdvancesOn (begun State.object first) }
    ensures anyhow { (first : State) → AdvancesAnyhow (begun State.object first) }
    ensures once { (first : State) → AcceptedOnce (begun State.object first) }
    ensures not_busy { NobodyIsBusy State.Reply }
{}
