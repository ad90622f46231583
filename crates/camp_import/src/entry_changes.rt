//! Changes of the entries of a git tree.

use camp_coding::Mode;

/// A change of the entries of a git tree, made by a commit. Paths and contents are bytes of git.
#[derive(Debug, Drop)]
pub enum EntryChange {
    /// Sets the entry at a path, whatever was there.
    Set {
        mode: Mode,
        content: Vec<u8>,
        path: Vec<u8>,
    },
    /// Removes the entry at a path or, if there is none, all entries in the folder of this path.
    Delete(Vec<u8>),
    /// Removes all entries.
    DeleteAll,
}
