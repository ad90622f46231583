//! The texts about refusals.
ghost use Rattle.std.specs.Prelude.{◌≡◌};
ghost use Rattle.camp_talk.specs.Topics.{reason_number, reasons};

use crate::answer_parts::joined;
use crate::questions::Reason;
use camp_repo::{Limits, Refusal};
use itoa::Buffer;
use std::alloc::{AllocError, Global};

/// Renders the meaning of each refusal.
pub(crate) fn all_sayings(alloc: Global) -> Result<Vec<u8>, AllocError> {
    let mut text = Vec::new(alloc);
    let reasons = reasons();
    for reason in &reasons {
        text.extend_from_slice(saying(*reason).as_bytes())?;
    }
    Ok(text)
}

/// Renders the meaning of a refusal, and the hint on it in a repository with these limits.
pub(crate) fn reason_text(
    alloc: Global,
    limits: Limits,
    reason: Reason,
) -> Result<Vec<u8>, AllocError> {
    match reason {
        Reason::TooLarge => limits_text(alloc, limits),
        _ => joined(alloc, &[saying(reason).as_bytes(), cure(reason).as_bytes()]),
    }
}

// Renders that a limit would be exceeded, and the limits.
fn limits_text(alloc: Global, limits: Limits) -> Result<Vec<u8>, AllocError> {
    let mut digits = Buffer::new();
    let branches = digits.format(limits.branches()).as_bytes();
    let mut digits = Buffer::new();
    let catches = digits.format(limits.catches()).as_bytes();
    joined(
        alloc,
        &[
            saying(Reason::TooLarge).as_bytes(),
            b"The limits: 65535 lines in a side of an edit, 1000000 lines in a file, ",
            branches,
            b" branches\nand ",
            catches,
            b" changes in a branch. Split the edit or the patch, or obliterate patches.\n",
        ],
    )
}

/// Returns the reasons of refusals, in the order of their numbers.
pub(crate) fn reasons() -> [Reason; 14]
    ensures { result ≡ reasons }
{
    [
        Reason::BadName,
        Reason::BadPath,
        Reason::BadLine,
        Reason::NoBranch,
        Reason::BranchExists,
        Reason::PatchExists,
        Reason::NoPatch,
        Reason::NothingToDo,
        Reason::TooLarge,
        Reason::DoesNotApply,
        Reason::Depends,
        Reason::Diverged,
        Reason::NoMerge,
        Reason::SameBranch,
    ]
}

/// Returns the number of a reason.
pub(crate) fn reason_number(reason: Reason) -> &'static str
    ensures { result.now ≡ reason_number reason }
{
    match reason {
        Reason::BadName => "1",
        Reason::BadPath => "2",
        Reason::BadLine => "3",
        Reason::NoBranch => "4",
        Reason::BranchExists => "5",
        Reason::PatchExists => "6",
        Reason::NoPatch => "7",
        Reason::NothingToDo => "8",
        Reason::TooLarge => "9",
        Reason::DoesNotApply => "10",
        Reason::Depends => "11",
        Reason::Diverged => "12",
        Reason::NoMerge => "13",
        Reason::SameBranch => "14",
    }
}

/// Returns the reason of a refusal.
pub(crate) fn reason_of(refusal: &Refusal) -> Reason {
    match refusal {
        Refusal::NoBranch(_) => Reason::NoBranch,
        Refusal::BranchExists(_) => Reason::BranchExists,
        Refusal::PatchExists(_) => Reason::PatchExists,
        Refusal::NoPatch(_) => Reason::NoPatch,
        Refusal::NothingToDo => Reason::NothingToDo,
        Refusal::TooLarge => Reason::TooLarge,
        Refusal::DoesNotApply => Reason::DoesNotApply,
        Refusal::Depends { .. } => Reason::Depends,
        Refusal::Diverged(_) => Reason::Diverged,
        Refusal::NoMerge { .. } => Reason::NoMerge,
        Refusal::SameBranch(_) => Reason::SameBranch,
    }
}

/// Returns the form of a refusal with its meaning.
pub(crate) fn saying(reason: Reason) -> &'static str {
    match reason {
        Reason::BadName => "1: a word is not a name; it is reported as the fault bad name\n",
        Reason::BadPath => "2: a word is not a path; it is reported as the fault bad path\n",
        Reason::BadLine => "3: a line is too long; it is reported as the fault bad line\n",
        Reason::NoBranch => "refused 4 BRANCH: there is no such branch\n",
        Reason::BranchExists => "refused 5 BRANCH: there is a branch of this name already\n",
        Reason::PatchExists => "refused 6 NAME: some branch has a patch of this name\n",
        Reason::NoPatch => "refused 7 NAME: the branch has no such patch\n",
        Reason::NothingToDo => "refused 8: nothing to do, TO has all that would be pulled\n",
        Reason::TooLarge => "refused 9: a limit would be exceeded\n",
        Reason::DoesNotApply => "refused 10: a change does not apply to the files as they are\n",
        Reason::Depends => "refused 11 PATCH ON: PATCH depends on ON\n",
        Reason::Diverged => {
            "refused 12 NAME: in one branch NAME can't be moved before what the other lacks, or its two forms differ\n"
        }
        Reason::NoMerge => "refused 13 LEFT RIGHT: LEFT of TO and RIGHT of FROM do not merge\n",
        Reason::SameBranch => "refused 14 BRANCH: a branch does not pull from itself\n",
    }
}

/// Returns the hint on a reason.
pub(crate) fn cure(reason: Reason) -> &'static str {
    match reason {
        Reason::BadName => {
            "A name has 1 to 40 characters of a to z, 0 to 9 and -, and does not begin with -.\n"
        }
        Reason::BadPath => {
            "A path has 1 to 200 printing ASCII characters and no blank. Between its / no part is\n\
            empty, . or .. and so it begins and ends with no /.\n"
        }
        Reason::BadLine => "A line of a body has at most 4096 bytes after its sign. Split it.\n",
        Reason::NoBranch => "branches lists those that exist, and branch makes one.\n",
        Reason::BranchExists => "Take another name.\n",
        Reason::PatchExists => "Take another name. To have that patch here, pull it.\n",
        Reason::NoPatch =>
            "names lists the patches of a branch, and missing those that another has and it lacks.\n",
        Reason::NothingToDo => "Nothing has to be done.\n",
        Reason::TooLarge => "Split the edit or the patch, or obliterate patches.\n",
        Reason::DoesNotApply => {
            "add needs a free path, remove a file without lines, and an edit a file with its old lines at LINE.\n\
            Until more is recorded, file BRANCH PATH shows the file before the first change.\n"
        }
        Reason::Depends => {
            "In a pull list ON too; along lists all that it needs. In an obliterate list PATCH too; held\n\
            lists all that have to go.\n"
        }
        Reason::Diverged => {
            "Obliterate it in one of them, with what depends on it, and pull again.\n"
        }
        Reason::NoMerge => "Pull without RIGHT, or obliterate LEFT in TO first.\n",
        Reason::SameBranch => "Name another branch.\n",
    }
}
