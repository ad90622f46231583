//! The requests to a member, and what a member wants of its log.
use crate::Entry;
use thiserror::Error;

/// A call, a number that the caller chooses for it, and how many accepted calls the member must at least have read
/// before it answers.
#[derive(Drop)]
pub struct Request<Call: Drop> {
    pub id: u64,
    pub call: Call,
    pub at_least: u64,
}

/// Why a request got no reply. Its call is not part of the history.
#[derive(Clone, Copy, PartialEq, Eq, Debug, Error)]
pub enum NoReply {
    /// The log has refused the entry, so that it will never be in it.
    #[error("the log refused the entry")]
    Refused,
    /// The log ends with fewer accepted calls than the request waits for.
    #[error("the log ends before what was seen")]
    Ended,
    /// The log can be read no further.
    #[error("the log can be read no further")]
    Stopped,
}

/// What a member wants of its log.
#[derive(Drop)]
pub enum Want<Call: Drop> {
    /// Nothing: no request waits.
    Nothing,
    /// To read the log from this index on.
    Read { from: usize },
    /// To append this entry, unless the log has one with the same tag, and to read the log up to it. The entry is
    /// wanted until it is found or refused.
    Append { entry: Entry<Call> },
}
