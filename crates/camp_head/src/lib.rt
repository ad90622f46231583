//! The repository shared by threads: one growing history of calls, and the seats at which they are asked:
//! `camp_history` with the repository's `State` as its object.
#![tactic(auto)]

pub use camp_history::{Gate, HeadFault, NoGate};
pub use camp_repo::Fault;
use camp_repo::State;

/// One history of calls to a repository, which many seats share.
pub type Head = camp_history::Head<State>;

/// Where one caller asks a head.
pub type Seat = camp_history::Seat<State>;

/// A call stored in a head, which can be executed at any of its seats.
pub type Kept = camp_history::Kept<State>;

/// Executes calls at a seat of a head, as a desk; its gate is notified of each call.
pub type HeadDesk<'r, 'h, 's, 'g, R, G> = camp_history::HeadDesk<'r, 'h, 's, 'g, R, State, G>;
