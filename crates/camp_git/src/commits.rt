//! The commit of a patch as a command.
ghost use Rattle.std.specs.Prelude.{◌≡◌, ◌<◌, ◌++◌, [], codes, OnOk, IfOk};
ghost use Rattle.camp_git.specs.FastImport.{IsOneLine, from_text, head_text, line};
ghost use Rattle.camp_git.specs.Exports.{reference_of};
ghost use Rattle.camp_git.specs.Inside.Commits.{IsWritten, differences_of, commit_at, from_of, paths_in};

use crate::changes::append_changes;
use crate::texts::{append_message, append_numbered, append_parts};
use camp_base::{Name, Path, Tree};
use camp_share::SharedMap;
use std::alloc::AllocError;

/// The position of a commit in the history: its branch, the name of its patch, its mark, which is the number of catches
/// of the branch up to and including the patch, and the mark of its parent, or 0.
#[derive(Drop)]
pub(crate) struct Place {
    pub(crate) branch: Name,
    pub(crate) name: Name,
    pub(crate) mark: u64,
    pub(crate) from: u64,
}

/// Appends the commit from one tree to another that differs only at these paths.
pub(crate) fn append_commit(
    text: &mut Vec<u8>,
    place: &Place,
    paths: &SharedMap<Path, ()>,
    old: &Tree,
    new: &Tree,
) -> Result<(), AllocError>
    requires { 0 < place.now.mark }
    ensures { OnOk result (IsWritten text.old.items (commit_at place.now (differences_of old.now new.now (paths_in paths.now))) text.new.items) }
{
    append_head(text, place)?;
    append_changes(text, paths, old, new)
}

// Appends the command of a commit up to its changes.
fn append_head(text: &mut Vec<u8>, place: &Place) -> Result<(), AllocError>
    ensures text { OnOk result (text.new.items ≡ text.old.items ++ head_text (commit_at place.now [])) }
    ensures named { IfOk result (λ _. IsOneLine (reference_of place.now.branch)) }
{
    append_reference(text, &place.branch)?;
    append_numbered(text, b"mark :", place.mark)?;
    text.extend_from_slice(b"committer camp <camp> 0 +0000\n")?;
    append_message(text, &place.name)?;
    append_from(text, place.from)
}

fn append_reference(text: &mut Vec<u8>, branch: &Name) -> Result<(), AllocError>
    ensures text { OnOk result (text.new.items ≡ text.old.items ++ line (codes "commit " ++ reference_of branch.now)) }
    ensures named { IfOk result (λ _. IsOneLine (reference_of branch.now)) }
{
    append_parts(text, &[b"commit refs/heads/", branch.bytes(), b"\n"])
}

fn append_from(text: &mut Vec<u8>, from: u64) -> Result<(), AllocError>
    ensures { OnOk result (text.new.items ≡ text.old.items ++ from_text (from_of from)) }
{
    if from == 0 {
        return Ok(());
    }
    append_numbered(text, b"from :", from)
}
