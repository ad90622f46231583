//! One loop for any backend and any framing: requests are read by the framing and executed by the backend, in groups
//! with one commit each. No response is written before the commit of its group.
mod backends;
mod books;
mod frames;
mod framings;
mod groups;
mod lines;
mod runs;

pub use backends::Backend;
pub use books::{Conversation, FramedConversation};
pub use frames::Frames;
pub use framings::Framing;
pub use groups::{GroupLimits, Halt};
pub use lines::{Lines, Prompts};
pub use runs::{Stop, responses_are_durable, run};
