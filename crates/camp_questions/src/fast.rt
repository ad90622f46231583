//! Faster ways to what the definitions reach by adding names one by one.
//!
//! - Dependents are found in one pass over the patches of a branch, from the first to the last: a patch stays if it can
//! be moved in front of all that are to be taken out; any other has to be taken out too.
//! - The dependencies of plain patches are their dependents in the inverted branch, which has the inverses of all
//! changes in reverse order; both branches must have headroom. Otherwise names are added one by one.
//! - A patch of plain changes moves unchanged in front of patches to be taken out that change other files. Files are
//! compared by small hashes of their paths.
mod changed_files;
mod independence;
mod inverting;
mod patch_catches;
mod reaching;
mod taken_out;

pub(crate) use independence::dependents_by_pass;
pub(crate) use inverting::inverted_patches;
pub(crate) use patch_catches::{PatchCatches, by_patch};
pub(crate) use reaching::all_reached;
