//! The commits of a stream.

ghost use Rattle.std.specs.Prelude.{◌≡◌, ◌≢◌, true, false, [], ◌∷◌, ◌++◌, IfOk, Ok, option_and_then};
ghost use Rattle.std.specs.List.{slice_get};
ghost use Rattle.camp_stream.specs.CommandValues.{CommitCommand, change_values, text_value, value_of_command, value_of_commit};
ghost use Rattle.camp_stream.specs.Commands.{command_at};
ghost use Rattle.camp_transfer.specs.Inside.Reading.{EndsWithBytes, GivesNext, IsReasonFor};
ghost use Rattle.camp_transfer.specs.Reading.{ReadsCommits, announces_done, commits_among, faulty_path, path_in_stream};

use crate::{StopReason, StreamStop};
use camp_commits::{ApplyError, CommandFault, StreamObjects, TreeCommit, apply};
use camp_stream::{Command, Commit, FileChange, ReadError, read_command};
use std::alloc::{AllocError, Global};

/// The commits of a stream, up to its end or its first fault.
#[derive(Drop)]
pub struct StreamCommits<'a> {
    /// The commits, each after its parents.
    pub commits: Vec<TreeCommit>,
    /// What is defined after them.
    pub objects: StreamObjects<'a>,
    pub end: StreamEnd<'a>,
}

/// Where the reading of a stream has ended.
#[derive(Clone, Copy, Debug)]
pub enum StreamEnd<'a> {
    /// At the end of the stream, or at `done`. Without `feature done` a stream that is cut off within the changes of its
    /// last commit is whole, too.
    Whole,
    /// At the first fault.
    Stopped(StreamStop<'a>),
}

/// What the first command of the rest of a stream gives.
#[derive(Drop)]
enum Found<'a> {
    /// What is defined after it, the commit that it makes, and the bytes after it.
    Next(StreamObjects<'a>, Option<TreeCommit>, &'a [u8]),
    End(StreamEnd<'a>),
}

/// Reads the commits of a stream; `known` are those that it may name without making them.
pub fn read_commits<'a>(
    alloc: Global,
    known: StreamObjects<'a>,
    stream: &'a [u8],
) -> Result<StreamCommits<'a>, AllocError>
    ensures exact { IfOk result (λ found. ReadsCommits known.entry stream.now found) }
{
    let mut commits = Vec::new(alloc);
    let mut objects = known;
    let mut rest = stream;
    let announced = announces_done(stream);
    'commands: for _ in 0..stream.len() {
        match next_command(alloc, &objects, announced, rest)? {
            Found::Next(after, made, left) => {
                commits = with_made(commits, made)?;
                objects = after;
                rest = left;
            }
            Found::End(end) => {
                return Ok(StreamCommits {
                    commits,
                    objects,
                    end,
                });
            }
        }
    }
    Ok(StreamCommits {
        commits,
        objects,
        end: end_of_bytes(announced),
    })
}

/// Adds the commit that a command makes, if it makes one.
fn with_made(
    mut commits: Vec<TreeCommit>,
    made: Option<TreeCommit>,
) -> Result<Vec<TreeCommit>, AllocError>
    ensures { IfOk result (λ all. all.items ≡ commits.items ++ commits_among (made ∷ [])) }
{
    match made {
        Some(commit) => {
            commits.push(commit)?;
            Ok(commits)
        }
        None => Ok(commits),
    }
}

/// True if the first line of a stream announces that it ends with `done`.
fn announces_done(stream: &[u8]) -> bool
    ensures { result ≡ announces_done stream.now }
{
    stream.starts_with(b"feature done\n")
}

/// Where the reading ends if no bytes are left: at a fault if `done` was announced.
fn end_of_bytes<'a>(announced: bool) -> StreamEnd<'a>
    ensures { EndsWithBytes announced result }
{
    if announced {
        return StreamEnd::Stopped(StreamStop {
            why: StopReason::Unfinished,
            left: 0,
        });
    }
    StreamEnd::Whole
}

/// Reads and applies the first command of the rest of a stream.
fn next_command<'a>(
    alloc: Global,
    objects: &StreamObjects<'a>,
    announced: bool,
    rest: &'a [u8],
) -> Result<Found<'a>, AllocError>
    ensures { IfOk result (GivesNext announced objects.now rest.now) }
{
    if rest.is_empty() {
        return Ok(Found::End(end_of_bytes(announced)));
    }
    match read_command(alloc, rest) {
        Ok((command, left)) => apply_command(alloc, objects, announced, &command, rest, left),
        Err(ReadError::Memory) => Err(AllocError),
        Err(ReadError::Fault(fault)) => Ok(Found::End(StreamEnd::Stopped(StreamStop {
            why: StopReason::Malformed(fault.kind),
            left: fault.left,
        }))),
    }
}

/// Applies a command, of which `left` are the bytes after it. If `done` was announced, the last command of the stream
/// does not count.
fn apply_command<'a>(
    alloc: Global,
    objects: &StreamObjects<'a>,
    announced: bool,
    command: &Command<'a>,
    rest: &'a [u8],
    left: &'a [u8],
) -> Result<Found<'a>, AllocError>
    ensures { command_at rest.now ≡ Ok (value_of_command command.now, left.now) → IfOk result (GivesNext announced objects.now rest.now) }
{
    if let Command::Done = command {
        return Ok(Found::End(StreamEnd::Whole));
    }
    if !is_followed(announced, left) {
        return Ok(Found::End(end_of_bytes(announced)));
    }
    match apply(alloc, objects, command) {
        Ok(step) => Ok(Found::Next(step.objects, step.commit, left)),
        Err(ApplyError::Memory) => Err(AllocError),
        Err(ApplyError::Fault(fault)) => Ok(Found::End(StreamEnd::Stopped(StreamStop {
            why: reason_of(fault, command),
            left: rest.len(),
        }))),
    }
}

/// False if `done` was announced and no bytes are left, so that a command may be cut off.
fn is_followed(announced: bool, left: &[u8]) -> bool
    ensures whole { result ≡ true → announced ≡ true → left.now ≢ [] }
    ensures last { result ≡ false → (announced ≡ true) × (left.now ≡ []) }
{
    if announced {
        return !left.is_empty();
    }
    true
}

/// The fault of a command, with the commit and the path that it is about.
fn reason_of<'a>(fault: CommandFault, command: &Command<'a>) -> StopReason<'a>
    ensures { IsReasonFor fault (value_of_command command.now) result }
{
    match command {
        Command::Commit(commit) => StopReason::Command {
            fault,
            commit: commit.original_oid,
            path: path_of(fault, commit),
        },
        _ => StopReason::Command {
            fault,
            commit: None,
            path: None,
        },
    }
}

/// The path of the change that a fault is about, if it is about one.
fn path_of<'a>(fault: CommandFault, commit: &Commit<'a>) -> Option<&'a [u8]>
    ensures { text_value result ≡ faulty_path (CommitCommand (value_of_commit commit.now)) fault }
{
    match fault {
        CommandFault::Change(wrong) => path_at(commit, wrong.index),
        CommandFault::Entry(wrong) => path_at(commit, wrong.index),
        _ => None,
    }
}

fn path_at<'a>(commit: &Commit<'a>, index: usize) -> Option<&'a [u8]>
    ensures { text_value result ≡ option_and_then path_in_stream (slice_get (change_values commit.now.changes.items) index) }
{
    match commit.changes.get(index)? {
        FileChange::Set { path, .. } => Some(*path),
        FileChange::Delete(path) => Some(*path),
        FileChange::DeleteAll => None,
    }
}
