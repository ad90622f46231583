//! Primitive patches: adding a file, removing one, and a hunk of lines; applied to trees, inverted,
//! commuted, and labelled with a name, a position and a sign.
#![tactic(auto)]

mod bodies;
mod commuting;
mod effect;
mod hunks;
mod labels;
mod named;
mod neighbours;
mod primitives;
mod stays;

pub use bodies::SideLines;
pub use commuting::{both_commute_alike, commute, commute_has_laws, commute_is_unique};
pub use effect::{applied_is_applies, inverse_leads_back};
pub use hunks::Hunk;
pub use labels::{Key, Label, has_less_label, have_same_key, keys_are_ordered, labels_are_ordered};
pub use named::Named;
pub use neighbours::commute_in_place;
pub use primitives::Primitive;
pub use stays::{commutes, commutes_unchanged};
