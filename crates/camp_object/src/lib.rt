//! An object that one thread owns, its history, and what an answer says of that history.
#![tactic(auto)]

mod books;
mod desks;
mod faults;
mod objects;

pub use books::Book;
pub use desks::{BookDesk, Desk};
pub use faults::Fault;
pub use objects::{Decided, Object};
