//! The library for C: the exports that `include/camp.h` declares, over the sessions and views of `camp_talk` and the
//! members of `camp_shared_session`.
#![tactic(auto)]

mod codes;
mod handles;
mod kinds;
mod member_codes;
mod members;
mod objects;
mod parts;
mod repositories;
mod views;

pub use handles::Handle;
