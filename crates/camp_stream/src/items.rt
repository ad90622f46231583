//! Items of a stream of `git fast-import`: its lines, and data with their bytes.

use camp_coding::Mode;
use thiserror::Error;

/// A line that consists of a word alone.
#[derive(Clone, Copy, Debug, PartialEq, Eq)]
pub enum BareItem {
    Blob,
    DeleteAll,
    Checkpoint,
    Done,
}

/// A line that consists of a word and a text.
#[derive(Clone, Copy, Debug, PartialEq, Eq)]
pub enum TextItem {
    Commit,
    Tag,
    Reset,
    OriginalOid,
    Author,
    Committer,
    Tagger,
    Encoding,
    From,
    Merge,
    Progress,
    Feature,
    Option,
}

/// An item of a stream. Its texts are slices of the stream.
#[derive(Clone, Copy, Debug)]
pub enum StreamItem<'a> {
    /// An empty line.
    Blank,
    /// A word alone.
    Bare(BareItem),
    /// A word and a text, as `commit refs/heads/main`.
    Text(TextItem, &'a [u8]),
    /// `mark` and a mark: `:` and digits.
    Mark(&'a [u8]),
    /// `data` and as many bytes as it says.
    Data(&'a [u8]),
    /// `M`: sets an entry to a content, which is given by a mark or an id. `read_path` decodes its path.
    Modify {
        mode: Mode,
        content: &'a [u8],
        path: &'a [u8],
    },
    /// `D`: deletes a file, or all files in a folder. `read_path` decodes the path.
    Delete(&'a [u8]),
}

/// What is wrong with an item of a stream.
#[derive(Clone, Copy, Debug, PartialEq, Eq, Error)]
pub enum StreamFaultKind {
    /// The stream ends within a line, or before the data has as many bytes as it says.
    #[error("the stream ends within a command")]
    CutOff,
    /// The first word is not one of a stream, or needs a text and has none.
    #[error("unknown command")]
    UnknownCommand,
    /// A mark is not `:` and digits.
    #[error("bad mark")]
    BadMark,
    /// The length of data is not 1 to 10 digits; data up to a delimiter is not supported.
    #[error("bad length of data")]
    BadLength,
    /// The mode is not that of a file, link or submodule.
    #[error("bad mode")]
    BadMode,
    /// `M` needs a mode, a content and a path, with a space between each two.
    #[error("bad change of a file")]
    BadModify,
    /// `C` and `R` are not supported.
    #[error("copies and renames are not taken: export without -M and -C")]
    CopyOrRename,
    /// The item can't come after those before it, such as a mark outside a command.
    #[error("misplaced command")]
    Misplaced,
}
