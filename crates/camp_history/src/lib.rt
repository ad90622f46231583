//! One growing history for many threads: a head, and the seats at which they call it.
#![tactic(auto)]

mod asks;
mod desks;
mod faults;
mod gates;
mod heads;
mod installing;
mod kept;
mod lists;
mod marks;
mod parents;
mod publishing;
mod seats;
mod snapshots;
mod synchronising;
mod walks;

pub use desks::HeadDesk;
pub use faults::HeadFault;
pub use gates::{Gate, NoGate};
pub use heads::Head;
pub use kept::Kept;
pub use seats::Seat;
