//! Names, paths, lines, and trees of files.
#![tactic(auto)]

mod bytes;
mod faults;
mod lines;
mod names;
mod paths;
mod trees;

pub use faults::{Apply, BaseFault};
pub use lines::Line;
pub use names::Name;
pub use paths::Path;
pub use trees::Tree;

/// The most bytes of a name.
pub const MAX_NAME_LENGTH: usize = 40;

/// The most bytes of a path.
pub const MAX_PATH_LENGTH: usize = 200;

/// The most bytes of a line.
pub const MAX_LINE_LENGTH: usize = 4_096;
