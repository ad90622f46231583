//! What holds of members of one log of texts.
ghost use Rattle.camp_shared.specs.Laws.{AcceptedAreAnswered, FindsTextsInOrder, KeepsWhatWasRead, MembersShareOneHistory, MoreTextsGiveMore, NobodyReadsOn, OpensAtTitle, OpensRestored, RestoresTextsInOrder, SameTagAddsNothing, SameTextsAgree, SnapshotStandsForTexts};

/// The history of a member is the lawful part of the entries of the texts that it found, from a new repository
/// with the limits of the title; all members stop at the first text that is foreign.
pub fn members_follow_the_texts()
    ensures opens { OpensAtTitle }
    ensures goes_on { FindsTextsInOrder }
    ensures keeps { KeepsWhatWasRead }
    ensures stops { NobodyReadsOn }
{}

/// A member that was restored from a snapshot of a log, and continues at the end of that log, has read that log, so all
/// that holds of members holds of it.
pub fn snapshots_stand_for_the_texts()
    ensures opens { OpensRestored }
    ensures goes_on { RestoresTextsInOrder }
    ensures stands { SnapshotStandsForTexts }
{}

/// Of several texts with one tag only the first in the log counts, wherever the others are.
pub fn each_tag_of_texts_counts_once()
    ensures law { SameTagAddsNothing }
{}

/// Members that have read the same texts have the same history, and of members of one log the history of one is
/// a prefix of the other's.
pub fn members_share_one_history()
    ensures agree { SameTextsAgree }
    ensures begins { MoreTextsGiveMore }
    ensures law { MembersShareOneHistory }
{}

/// The calls of the member's own seat in its history are those that it answered as accepted, each once.
pub fn accepted_calls_are_answered()
    ensures law { AcceptedAreAnswered }
{}
