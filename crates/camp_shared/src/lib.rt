//! A repository that many processes share over a log of texts. A member of the log takes texts and returns texts.
#![tactic(auto)]

mod faults;
mod finding;
mod laws;
mod members;
mod restoring;
mod wanting;

pub use camp_member::{NoReply, ReadFault};
pub use faults::{AskFault, OpenFault};
pub use laws::{
    accepted_calls_are_answered, each_tag_of_texts_counts_once, members_follow_the_texts,
    members_share_one_history, snapshots_stand_for_the_texts,
};
pub use members::{MAX_CALL_BYTES, SharedRepository};
pub use wanting::TextWant;
