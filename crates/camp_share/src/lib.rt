//! Reference-counted values that share what did not change: single values, lists in chunks, and sorted maps over them.
#![tactic(auto)]

mod changes;
mod few_or_many;
mod growing;
mod iters;
mod lists;
mod maps;
mod part_lists;
mod pieces;
mod search;
mod shared;

pub use iters::Iter;
pub use lists::SharedList;
pub use maps::{Key, MapBuilder, SharedMap};
pub use shared::{Share, Shared};
