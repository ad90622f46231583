//! The calls of a repository of branches, and its replies.
#![tactic(auto)]

mod calls;
mod changes;
mod conflicts;
mod names;
mod replies;

pub use calls::Call;
pub use changes::Changes;
pub use conflicts::Conflicts;
pub use names::Names;
pub use replies::{Refusal, Reply};

/// The most changes of a patch.
pub const MAX_CHANGES: usize = 64;
