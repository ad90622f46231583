//! Commands of a stream: each is an item and all items that belong to it.

ghost use Rattle.std.specs.Prelude.{◌≡◌};
ghost use Rattle.camp_stream.specs.declared.commands.ReadError.TheVariants as error;

use crate::StreamFaultKind;
use camp_coding::Mode;
use std::alloc::{AllocError, AllocFailed};
use thiserror::Error;

/// A change of the entries of a commit. `read_path` decodes its path.
#[derive(Clone, Copy, Debug)]
pub enum FileChange<'a> {
    /// Sets an entry to a content, which is given by a mark or an id.
    Set {
        mode: Mode,
        content: &'a [u8],
        path: &'a [u8],
    },
    /// Deletes a file, or all files in a folder.
    Delete(&'a [u8]),
    /// Deletes all files.
    DeleteAll,
}

/// A blob: the content of a file.
#[derive(Clone, Copy, Debug)]
pub struct Blob<'a> {
    pub mark: Option<&'a [u8]>,
    pub original_oid: Option<&'a [u8]>,
    pub content: &'a [u8],
}

/// A commit: its parents, and what it changes in the tree of the first one.
#[derive(Debug, Drop)]
pub struct Commit<'a> {
    pub reference: &'a [u8],
    pub mark: Option<&'a [u8]>,
    pub original_oid: Option<&'a [u8]>,
    pub author: Option<&'a [u8]>,
    pub committer: &'a [u8],
    pub encoding: Option<&'a [u8]>,
    pub message: &'a [u8],
    pub from: Option<&'a [u8]>,
    pub merges: Vec<&'a [u8]>,
    pub changes: Vec<FileChange<'a>>,
}

/// A reset: a reference is set to a commit, or begins anew.
#[derive(Clone, Copy, Debug)]
pub struct Reset<'a> {
    pub reference: &'a [u8],
    pub from: Option<&'a [u8]>,
}

/// A tag with a message.
#[derive(Clone, Copy, Debug)]
pub struct Tag<'a> {
    pub name: &'a [u8],
    pub mark: Option<&'a [u8]>,
    pub from: &'a [u8],
    pub original_oid: Option<&'a [u8]>,
    pub tagger: Option<&'a [u8]>,
    pub message: &'a [u8],
}

/// A command of a stream. Its texts are slices of the stream.
#[derive(Debug, Drop)]
pub enum Command<'a> {
    Blob(Blob<'a>),
    Commit(Commit<'a>),
    Reset(Reset<'a>),
    Tag(Tag<'a>),
    Progress(&'a [u8]),
    Feature(&'a [u8]),
    Option(&'a [u8]),
    Checkpoint,
    Done,
}

/// A fault of a stream.
#[derive(Clone, Copy, Debug, PartialEq, Eq)]
pub struct StreamFault {
    /// What is wrong.
    pub kind: StreamFaultKind,
    /// The number of bytes from the item that is wrong to the end of the stream. `line_of` returns its line.
    pub left: usize,
}

/// Why a stream was not read to its end.
#[derive(Clone, Copy, Debug, PartialEq, Eq, Error)]
pub enum ReadError {
    /// Out of memory.
    #[error("out of memory")]
    Memory,
    /// The first fault of the stream.
    #[error("{}", .0.kind)]
    Fault(StreamFault),
}

impl From<AllocError> for ReadError {
    ghost from_gives = { λ _ e. e ≡ error.Memory };

    fn from(_error: AllocError) -> ReadError {
        ReadError::Memory
    }
}

impl<T: Drop> From<AllocFailed<T>> for ReadError {
    ghost from_gives = { λ _ e. e ≡ error.Memory };

    fn from(_error: AllocFailed<T>) -> ReadError {
        ReadError::Memory
    }
}
