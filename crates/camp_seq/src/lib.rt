//! Lists of labelled primitives, which count as equal up to commuting neighbours.
#![tactic(auto)]

mod chains;
mod fast;
mod fronts;
mod laws;
mod merges;
mod orders;
mod passes;
mod rooms;
mod runs;
mod seqs;
mod splits;

pub use chains::{can_commute, is_chain};
pub use fast::{are_own_orders, are_own_orders_of_chain, is_own_order, stays_past};
pub use fronts::front;
pub use laws::{
    clean_merge_closes, clean_merge_is_equivalent, clean_merge_is_passing_the_inverse,
    clean_merge_is_symmetric, equivalent_lists_run_alike, every_list_has_a_normal_order,
    inverse_of_a_list_leads_back, lists_merge_in_any_order, lists_of_results_are_equivalent,
    normal_order_is_a_normal_form, results_of_lists_are_determined, six_orders_of_three_agree,
    splits_are_by_labels,
};
pub use merges::{clean_merge, invert_all};
pub use orders::{norm, ordered, put_first, put_in_order};
pub use passes::{pass_by, past, past_all};
pub use rooms::{has_room, has_room_to_merge, reach_gives_room};
pub use runs::apply_all;
pub use seqs::Seq;
pub use splits::split;
