//! Values: calls on names, trees, primitives, lists, contexts, catches and shared lists. Begin with `calls`, and
//! `trees` for one kind of value.

pub(crate) mod arguments;
pub(crate) mod bases;
pub(crate) mod calls;
pub(crate) mod catches;
pub(crate) mod contexts;
pub(crate) mod lists;
pub(crate) mod numbers;
pub(crate) mod primitives;
pub(crate) mod results;
pub(crate) mod shares;
pub(crate) mod splits;
pub(crate) mod trees;
