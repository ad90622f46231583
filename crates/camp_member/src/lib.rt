//! A member of a log that many processes share: what all of them read is one history. It does no IO of its own.
#![tactic(auto)]

mod drafts;
mod entries;
mod faults;
mod finding;
mod laws;
mod members;
mod notes;
mod numbers;
mod readers;
mod requests;
mod restoring;
mod wanting;

pub use entries::{Entry, MAX_CALLS};
pub use faults::ReadFault;
pub use laws::{
    each_tag_counts_once, members_are_answered_once, members_follow_the_log,
    readers_follow_the_log, readers_share_one_history, snapshots_stand_for_the_log,
};
pub use members::Member;
pub use notes::{NotedCall, Noting};
pub use readers::Reader;
pub use requests::{NoReply, Request, Want};
