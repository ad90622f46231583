//! Runs of scripts, from the bytes of a reader to those of a writer: in one thread, in threads over a
//! lock, and in threads over a head.
#![tactic(auto)]

mod books;
mod faults;
mod heads;
mod inputs;
mod laws;
mod locks;
mod outputs;
mod turn_gate;

pub use books::run_book;
pub use camp_clients::SectionGate;
pub use camp_head::{Gate, NoGate};
pub use camp_repo::Limits;
pub use faults::RunFault;
pub use heads::{run_head, run_head_at};
pub use laws::{
    kept_text_leads_back, locked_section_is_serial, one_by_one_is_serial, seat_zero_is_preserved,
    shared_section_is_serial,
};
pub use locks::run_locked;
pub use turn_gate::TurnGate;
