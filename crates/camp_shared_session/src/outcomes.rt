//! What a member wants of its log, and the kinds of its answers, without the number and the text.
use camp_shared::NoReply;

/// What a member wants of its log.
#[derive(Clone, Copy, PartialEq, Eq, Debug)]
pub enum Wanted {
    /// Nothing: no request waits.
    Nothing,
    /// To read the log from an index on, which is the number.
    Read,
    /// To append the text under its seat and the number, unless the log has an entry under them.
    Append,
}

/// The kind of an answer.
#[derive(Clone, Copy, PartialEq, Eq, Debug)]
pub enum Answered {
    /// All answers were taken already.
    Nothing,
    /// The text is the reply to the request of the number.
    Reply,
    /// The request of the number gets no reply.
    Without(NoReply),
}
