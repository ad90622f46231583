//! The report on a request that was refused: what its refusal means, what prevents it, and what to do.
use crate::cause_reports::{append_cause, limit_cure};
use crate::plain_texts::PlainText;
use crate::questions::{ParsedCommand, Question, Reason};
use crate::refusal_texts::{cure, reason_of, saying};
use camp_base::Name;
use camp_call::Call;
use camp_repo::{Refusal, State};
use camp_why::Cause;
use std::alloc::{AllocError, Global};

/// The most names on a line.
const MOST_NAMES: usize = 20;

/// Appends what a refusal means, the branches that the request names, what prevents it at the state, and what
/// to do.
pub(crate) fn append_refusal(
    alloc: Global,
    text: &mut PlainText,
    state: &State,
    request: &ParsedCommand,
    refusal: &Refusal,
    cause: &Option<Cause>,
) -> Result<(), AllocError> {
    text.push(&[saying(reason_of(refusal)).as_bytes()])?;
    append_sides(text, request)?;
    match refusal {
        Refusal::NoBranch(_) => append_absent(text, state, request)?,
        Refusal::BranchExists(name) => {
            text.push(&[b"There is a branch ", name.bytes(), b".\n"])?;
            append_names(text, &[b"Branches:"], state.names())?;
        }
        Refusal::PatchExists(name) => append_holders(alloc, text, state, name)?,
        Refusal::NoPatch(name) => append_lacked(alloc, text, state, request, name)?,
        Refusal::NothingToDo => append_had(text, state, request)?,
        Refusal::SameBranch(_) => append_names(text, &[b"Branches:"], state.names())?,
        _ => append_found(text, cause)?,
    }
    let cure = cure_at(state, request, refusal, cause).as_bytes();
    text.push(&[cure])
}

fn append_found(text: &mut PlainText, cause: &Option<Cause>) -> Result<(), AllocError> {
    match cause {
        Some(cause) => append_cause(text, cause),
        None => Ok(()),
    }
}

// Returns the hint on the refusal of a request.
fn cure_at(
    state: &State,
    request: &ParsedCommand,
    refusal: &Refusal,
    cause: &Option<Cause>,
) -> &'static str {
    match (refusal, cause) {
        (Refusal::PatchExists(name), _) => record_cure(state, request, name),
        (Refusal::TooLarge, Some(cause)) => limit_cure(cause),
        (Refusal::Depends { .. }, _) => depends_cure(request),
        _ => cure(reason_of(refusal)),
    }
}

// Returns the hint if the patch exists that a call would record: pull it, unless the branch itself has it.
fn record_cure(state: &State, request: &ParsedCommand, name: &Name) -> &'static str {
    match about(request) {
        Some((_, branch)) if holds(state, name, &branch) => "Take another name.\n",
        _ => cure(Reason::PatchExists),
    }
}

// Returns the hint if one patch depends on another: pull both, or take both out.
fn depends_cure(request: &ParsedCommand) -> &'static str {
    match request {
        ParsedCommand::Call(Call::Obliterate { .. }) => {
            "List PATCH too; held lists all that have to go.\n"
        }
        _ => "List ON too; along lists all that the pull needs.\n",
    }
}

// Appends the branches that a request names as FROM, as BRANCH and as TO.
fn append_sides(text: &mut PlainText, request: &ParsedCommand) -> Result<(), AllocError> {
    let Some((role, branch)) = about(request) else {
        return Ok(());
    };
    text.push(&[role.as_bytes(), b" is ", branch.bytes()])?;
    if let Some(to) = target(request) {
        text.push(&[b", and TO is ", to.bytes()])?;
    }
    text.push(&[b".\n"])
}

// Appends those of the branches that a request names that do not exist; and the branches that do.
fn append_absent(
    text: &mut PlainText,
    state: &State,
    request: &ParsedCommand,
) -> Result<(), AllocError> {
    let mut first = None;
    if let Some((_, branch)) = about(request) {
        append_no_branch(text, state, &branch)?;
        first = Some(branch);
    }
    match target(request) {
        Some(to) if first != Some(to) => append_no_branch(text, state, &to)?,
        _ => {}
    }
    append_names(text, &[b"Branches:"], state.names())
}

// Appends the text for a branch that does not exist; nothing if it exists.
fn append_no_branch(text: &mut PlainText, state: &State, branch: &Name) -> Result<(), AllocError> {
    if state.branch(branch).is_some() {
        return Ok(());
    }
    text.push(&[b"There is no branch ", branch.bytes(), b".\n"])
}

// Appends the text for a patch that a branch lacks, and which branches have it.
fn append_lacked(
    alloc: Global,
    text: &mut PlainText,
    state: &State,
    request: &ParsedCommand,
    patch: &Name,
) -> Result<(), AllocError> {
    if let Some((_, branch)) = about(request) {
        let (branch, patch) = (branch.bytes(), patch.bytes());
        text.push(&[b"Branch ", branch, b" has no patch ", patch, b".\n"])?;
    }
    append_holders(alloc, text, state, patch)
}

// Appends the patches of FROM that a pull would bring, if TO has all.
fn append_had(
    text: &mut PlainText,
    state: &State,
    request: &ParsedCommand,
) -> Result<(), AllocError> {
    let ParsedCommand::Call(Call::Pull { from, names, .. }) = request else {
        return Ok(());
    };
    if let Some(names) = names {
        return append_had_names(text, names.as_slice());
    }
    match state.branch(from) {
        Some(theirs) => {
            let all = theirs.names()?;
            append_had_names(text, &all)
        }
        None => Ok(()),
    }
}

fn append_had_names(text: &mut PlainText, names: &[Name]) -> Result<(), AllocError> {
    if names.is_empty() {
        return text.push(&[b"FROM has no patch.\n"]);
    }
    append_names(text, &[b"TO has already:"], names)
}

// Appends the branches that have a patch, or that there is none.
fn append_holders(
    alloc: Global,
    text: &mut PlainText,
    state: &State,
    patch: &Name,
) -> Result<(), AllocError> {
    let mut holders = Vec::from_slice(alloc, state.names())?;
    holders.retain(|branch| holds(state, patch, branch));
    if holders.is_empty() {
        return text.push(&[b"No branch has ", patch.bytes(), b".\n"]);
    }
    append_names(text, &[b"Branches with ", patch.bytes(), b":"], &holders)
}

fn holds(state: &State, patch: &Name, branch: &Name) -> bool {
    match state.branch(branch) {
        Some(branch) => branch.has_patch(patch),
        None => false,
    }
}

// Appends words followed by names: at most a limit, then `..` if there are more.
fn append_names(text: &mut PlainText, words: &[&[u8]], names: &[Name]) -> Result<(), AllocError> {
    text.push(words)?;
    for name in &names[..MOST_NAMES.min(names.len())] {
        text.push(&[b" ", name.bytes()])?;
    }
    if names.len() > MOST_NAMES {
        text.push(&[b" .."])?;
    }
    text.push(&[b"\n"])
}

// Returns the branch from which a request takes something, as FROM, or that it is about, as BRANCH.
fn about(request: &ParsedCommand) -> Option<(&'static str, Name)> {
    match request {
        ParsedCommand::Call(Call::Branch { from, .. } | Call::Pull { from, .. })
        | ParsedCommand::Question(Question::Missing { from, .. } | Question::Along { from, .. }) =>
            { Some(("FROM", *from)) }
        ParsedCommand::Call(
            Call::Record { branch, .. }
            | Call::Obliterate { branch, .. }
            | Call::Tree(branch)
            | Call::Conflicts(branch)
            | Call::Names(branch),
        )
        | ParsedCommand::Question(
            Question::Needs { branch, .. }
            | Question::Held { branch, .. }
            | Question::Show { branch, .. }
            | Question::Annotate { branch, .. }
            | Question::Open(branch)
            | Question::Side { branch, .. }
            | Question::Marks { branch, .. }
            | Question::File { branch, .. }
            | Question::Graph { branch, .. },
        ) => Some(("BRANCH", *branch)),
        _ => None,
    }
}

// Returns the branch that a request names as TO.
fn target(request: &ParsedCommand) -> Option<Name> {
    match request {
        ParsedCommand::Call(Call::Pull { to, .. })
        | ParsedCommand::Question(Question::Missing { to, .. } | Question::Along { to, .. }) =>
            Some(*to),
        _ => None,
    }
}
