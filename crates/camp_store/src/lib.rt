//! Texts that are persisted in a file: a batch is durable as a whole before it is acknowledged.
#![tactic(auto)]

mod blocks;
mod disks;
mod faults;
mod laws;
mod logs;
mod readings;

pub use blocks::Digest;
pub use faults::StoreFault;
pub use laws::{
    batches_are_atomic_at_each_moment, damaged_files_do_not_decode, files_decode_to_one_list,
};
pub use logs::Log;
pub use readings::{Reading, decode, read};
pub use sqlite_disk::Disk;
