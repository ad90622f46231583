//! Callers of the libraries that the line of camp_uses in `crates.txt` names. They are proved from public clauses
//! alone, which shows what the contracts are good for.
#![tactic(auto)]

pub mod branches;
pub mod calls;
pub mod catches;
pub mod examples;
pub mod heads;
pub mod lists;
pub mod numbers;
pub mod patches;
pub mod questions;
pub mod repositories;
pub mod runs;
pub mod scripts;
pub mod storing;
pub mod trees;
