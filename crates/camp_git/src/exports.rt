//! Exporting a branch.
ghost use Rattle.camp_git.specs.Answers.{Exports};

use crate::Unexported;
use crate::streams::stream_of;
use camp_base::Name;
use camp_repo::State;
use camp_script::write_text;
use std::alloc::Global;
use std::io::Write;

/// Writes a branch as a stream for `git fast-import`: on `refs/heads/BRANCH` a commit for each patch, in the order of
/// the branch. The message of a commit is the name of its patch and a line feed; its tree is the tree of the branch up
/// to and including the patch. The stream is made in memory before its first byte is written, so nothing is written if
/// git can't store one of the trees.
pub fn export<W: Write>(
    alloc: Global,
    state: &State,
    branch: &Name,
    writer: &mut W,
) -> Result<(), Unexported>
    ensures exact { Exports state.now branch.now (W.contents writer.old) result (W.contents writer.new) }
{
    let Some(found) = state.branch(branch) else {
        return Err(Unexported::NoBranch(*branch));
    };
    let text = stream_of(alloc, branch, found)?;
    match write_text(writer, &text) {
        Ok(()) => Ok(()),
        Err(error) => Err(Unexported::Write(error)),
    }
}
