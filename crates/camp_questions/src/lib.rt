//! Questions about the patches of a repository. A question changes nothing.
#![tactic(auto)]

mod annotations;
mod common_lines;
mod contents;
mod dependencies;
mod differences;
mod fast;
mod faults;
mod finding;
mod foresight;
mod graph_texts;
mod graphs;
mod keeping;
mod laws;
mod mark_hunks;
mod marking;
mod needed;
mod nodes;
mod open_changes;
mod open_conflicts;
mod passing;
mod pictures;
mod pull_along;
mod related;
mod reporting;
mod showing;
mod sides;
mod walks;

pub use annotations::{Annotated, annotate};
pub use contents::{branches, file};
pub use dependencies::{held_by, needs};
pub use differences::missing;
pub use faults::Unanswered;
pub use foresight::{BranchState, Foreseen, what_if};
pub use graph_texts::graph_text;
pub use graphs::{Node, PatchGraph, graph};
pub use laws::{
    along_is_enough, arrows_are_direct_needs, arrows_lead_backwards, foreseen_happens,
    held_can_be_taken_out, held_is_determined, held_is_least, lines_are_added_by_patches,
    lines_have_names, missing_is_pulled, needs_and_held_are_one, needs_are_determined,
    needs_are_least, needs_are_reached, needs_can_be_pulled, needs_come_first, order_keeps_names,
    parts_are_reached, recorded_is_shown, sides_apply, sides_are_accepted,
};
pub use marking::{Marked, MarkedFile, MarkedHunk, Version, marks};
pub use open_conflicts::unresolved_pairs;
pub use pictures::{Picture, picture_of};
pub use pull_along::along;
pub use showing::{Shown, show};
pub use sides::{SideChanges, side};
