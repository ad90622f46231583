//! Conversations over a repository that is persisted in a file: an answer is written only after all calls accepted
//! before it are durable.
#![tactic(auto)]

mod conversations;
mod laws;

pub use camp_kept::{Disk, DurableRepository, Inspection, PersistenceFault, inspect};
pub use conversations::{FramedStore, StoredConversation};
pub use laws::stores_keep_promises;
