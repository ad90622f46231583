//! Running sections of calls over one object: one after the other, in threads over a lock, or in threads over a head.
#![tactic(auto)]

mod comparisons;
mod faults;
mod first_states;
mod gates;
mod heads;
mod laws;
mod locks;
mod one_by_one;
mod sections;
mod synchronising;

pub use comparisons::{MAX_SECTIONS, has_exactly};
pub use faults::LockFault;
pub use gates::SectionGate;
pub use heads::{HeadPlan, HeadRun, shared, shared_from};
pub use laws::{done_was_accepted, locked_is_serial, opening_is_alone, shared_is_serial};
pub use locks::{locked, locked_from};
pub use one_by_one::{BookRun, serial, serial_from};
pub use sections::{Answers, ask_all};
