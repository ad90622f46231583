//! Members of a log that share a repository, for programs in other languages: numbers and texts in and out.
#![tactic(auto)]

mod outcomes;
mod sessions;

pub use camp_shared::{AskFault, NoReply, OpenFault, ReadFault};
pub use outcomes::{Answered, Wanted};
pub use sessions::SharedSession;
