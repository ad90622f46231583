//! Why a call is refused: which change, which line, which limit; and hints on lines that have a fault.
#![tactic(auto)]

mod causes;
mod hints;
mod laws;
mod misfits;
mod stops;

pub use causes::{Cause, explain};
pub use hints::{Hint, begins_signed, call_part, find_hint, misnamed};
pub use laws::{
    hints_are_seen, misfits_are_reasons, refusals_are_explained, refusals_have_grounds,
};
pub use misfits::{Misfit, find_misfit};
pub use stops::{Hindrance, Stop};
