//! Faster ways to the results of the definitions. Each applies in some cases only, and gives the defined result there.
//!
//! - A list is its own normal order if the label of each element is not less than any label before it, or the element
//! does not commute with the one before it. Then no element can be moved in front of one with a greater label.
//! - A list has headroom if its greatest line and all its old and new lines add up to at most 2^30. Such a list is
//! ordered by insertion.
//! - An element that comes before a list in normal order is commuted to the right past lesser labels. Nothing else is
//! moved if a quick check shows that no later element can be moved in front of it.
//! - A primitive that keeps its line as it passes a list leaves all elements unchanged. If the first element of the
//! list blocks it, it cannot pass.
mod insertions;
mod looks;

pub(crate) use insertions::{commute_right_in_order, order_by_insertion};
pub(crate) use looks::{is_blocked_by_head, stays_first};
pub use looks::{are_own_orders, are_own_orders_of_chain, is_own_order, stays_past};
