//! Catches: plain patches and conflictors, how they and lists of them commute and merge, and the laws of that. The
//! notions are those of Lynagh's camp patch theory and of `Darcs.Patch.V3.Core`; the cases are this project's own
//! choice.
#![tactic(auto)]

mod aligning;
mod arranging;
mod catches;
mod commuting;
mod conflictors;
mod fast;
mod faults;
mod laws;
mod merging;
mod merging_lists;
mod moves;
mod seen;
mod values;

pub use aligning::align;
pub use arranging::{Arranged, Stuck, arrange};
pub use catches::{Catch, Conflictor};
pub use commuting::commute;
pub use faults::Unmade;
pub use laws::{
    arrange_goes_by_members, blockers_are_included, cases_exclude_one_another, catches_are_decided,
    commute_is_unique, commute_keeps_effects, fronts_follow_fronts, labels_are_kept,
    lists_are_unique, lists_keep_effects, lists_succeed_or_are_blocked, merge_cases_exclude,
    merge_is_symmetric, merge_is_unique, merge_keeps_effects,
};
pub use merging::merge;
pub use merging_lists::{NoMerge, merge_lists};
