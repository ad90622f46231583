//! Commands read from the bytes of a stream.

ghost use Rattle.std.specs.Prelude.{◌≡◌, IfOk, option_map};
ghost use Rattle.camp_stream.specs.CommandValues.{change_values, command_values, text_values, value_of_blob, value_of_command, value_of_commit, value_of_reset, value_of_tag};
ghost use Rattle.camp_stream.specs.Commands.{ReadsTo, bare_command, blob_at, changes_at, command_at, command_from, commit_at, line_at_rest, merges_at, next_command, reset_at, short_command, stream_at, tag_at, text_command, unless_done};
ghost use Rattle.camp_stream.specs.StreamValues.{value_of_item};

use crate::commands::{Blob, Command, Commit, FileChange, ReadError, Reset, Tag};
use crate::items::{BareItem, StreamFaultKind, StreamItem, TextItem};
use crate::wanted::{
    fault_at, first_item, optional_change, optional_mark, optional_text, read_data, required_text,
    skip_blank,
};
use std::alloc::Global;

/// Reads the first command of a stream. Returns it and the bytes after it; its texts are slices of the stream.
#[tactic(auto, unfolding(crate::specs::Commands::command_at))]
pub fn read_command(alloc: Global, stream: &[u8]) -> Result<(Command<'_>, &[u8]), ReadError>
    ensures exact { ReadsTo (λ found. (value_of_command found.0, found.1.now)) result (command_at stream.now) }
{
    let (item, rest) = first_item(stream)?;
    read_from(alloc, item, stream, rest)
}

/// Reads the commands of a stream, up to its end or to `done`. Returns them and the bytes after that; their texts are
/// slices of the stream.
#[tactic(auto, unfolding(crate::specs::Commands::stream_at))]
pub fn read_stream(alloc: Global, stream: &[u8]) -> Result<(Vec<Command<'_>>, &[u8]), ReadError>
    ensures exact { ReadsTo (λ found. (command_values found.0.items, found.1.now)) result (stream_at stream.now) }
{
    let mut commands = Vec::new(alloc);
    let mut rest = stream;
    'commands: for _ in 0..stream.len() {
        let (found, after) = next_command(alloc, rest)?;
        let Some(command) = found else {
            return Ok((commands, after));
        };
        commands.push(command)?;
        rest = after;
    }
    Ok((commands, rest))
}

#[tactic(auto, unfolding(crate::specs::Commands::next_command))]
fn next_command(alloc: Global, bytes: &[u8]) -> Result<(Option<Command<'_>>, &[u8]), ReadError>
    ensures { ReadsTo (λ found. (option_map value_of_command found.0, found.1.now)) result (next_command bytes.now) }
{
    if bytes.is_empty() {
        return Ok((None, bytes));
    }
    let (command, rest) = read_command(alloc, bytes)?;
    Ok((unless_done(command), rest))
}

fn unless_done(command: Command<'_>) -> Option<Command<'_>>
    ensures { option_map value_of_command result ≡ unless_done (value_of_command command.entry) }
{
    match command {
        Command::Done => None,
        other => Some(other),
    }
}

/// Returns the line number, counted from 1, of the bytes of a stream of which `left` are left.
pub fn line_of(stream: &[u8], left: usize) -> usize
    ensures exact { result ≡ line_at_rest stream.now left }
{
    let read = &stream[..stream.len().saturating_sub(left)];
    let mut feeds = 0;
    for byte in read {
        if *byte == b'\n' {
            feeds += 1;
        }
    }
    feeds + 1
}

fn read_from<'a>(
    alloc: Global,
    item: StreamItem<'a>,
    bytes: &'a [u8],
    rest: &'a [u8],
) -> Result<(Command<'a>, &'a [u8]), ReadError>
    ensures { ReadsTo (λ found. (value_of_command found.0, found.1.now)) result (command_from (value_of_item item.entry) bytes.now rest.now) }
{
    match item {
        StreamItem::Bare(item) => read_bare(item, bytes, rest),
        StreamItem::Text(item, text) => read_text(alloc, item, text, bytes, rest),
        _ => Err(fault_at(StreamFaultKind::Misplaced, bytes)),
    }
}

fn read_bare<'a>(
    item: BareItem,
    bytes: &'a [u8],
    rest: &'a [u8],
) -> Result<(Command<'a>, &'a [u8]), ReadError>
    ensures { ReadsTo (λ found. (value_of_command found.0, found.1.now)) result (bare_command item bytes.now rest.now) }
{
    match item {
        BareItem::Blob => {
            let (blob, rest) = read_blob(rest)?;
            Ok((Command::Blob(blob), rest))
        }
        BareItem::Checkpoint => read_short(Command::Checkpoint, rest),
        BareItem::Done => Ok((Command::Done, rest)),
        BareItem::DeleteAll => Err(fault_at(StreamFaultKind::Misplaced, bytes)),
    }
}

fn read_text<'a>(
    alloc: Global,
    item: TextItem,
    text: &'a [u8],
    bytes: &'a [u8],
    rest: &'a [u8],
) -> Result<(Command<'a>, &'a [u8]), ReadError>
    ensures { ReadsTo (λ found. (value_of_command found.0, found.1.now)) result (text_command item text.now bytes.now rest.now) }
{
    match item {
        TextItem::Commit => {
            let (commit, rest) = read_commit(alloc, text, rest)?;
            Ok((Command::Commit(commit), rest))
        }
        TextItem::Tag => {
            let (tag, rest) = read_tag(text, rest)?;
            Ok((Command::Tag(tag), rest))
        }
        TextItem::Reset => {
            let (reset, rest) = read_reset(text, rest)?;
            Ok((Command::Reset(reset), rest))
        }
        TextItem::Progress => read_short(Command::Progress(text), rest),
        TextItem::Feature => Ok((Command::Feature(text), rest)),
        TextItem::Option => Ok((Command::Option(text), rest)),
        _ => Err(fault_at(StreamFaultKind::Misplaced, bytes)),
    }
}

#[tactic(auto, unfolding(crate::specs::Commands::short_command))]
fn read_short<'a>(
    command: Command<'a>,
    bytes: &'a [u8],
) -> Result<(Command<'a>, &'a [u8]), ReadError>
    ensures { ReadsTo (λ found. (value_of_command found.0, found.1.now)) result (short_command (value_of_command command.entry) bytes.now) }
{
    let (_, rest) = skip_blank(bytes)?;
    Ok((command, rest))
}

#[tactic(auto, unfolding(crate::specs::Commands::blob_at))]
fn read_blob(bytes: &[u8]) -> Result<(Blob<'_>, &[u8]), ReadError>
    ensures { ReadsTo (λ found. (value_of_blob found.0, found.1.now)) result (blob_at bytes.now) }
{
    let (mark, rest) = optional_mark(bytes)?;
    let (original_oid, rest) = optional_text(TextItem::OriginalOid, rest)?;
    let (content, rest) = read_data(rest)?;
    let blob = Blob {
        mark,
        original_oid,
        content,
    };
    Ok((blob, rest))
}

#[tactic(auto, unfolding(crate::specs::Commands::reset_at))]
fn read_reset<'a>(reference: &'a [u8], bytes: &'a [u8]) -> Result<(Reset<'a>, &'a [u8]), ReadError>
    ensures { ReadsTo (λ found. (value_of_reset found.0, found.1.now)) result (reset_at reference.now bytes.now) }
{
    let (from, rest) = optional_text(TextItem::From, bytes)?;
    let (_, rest) = skip_blank(rest)?;
    Ok((Reset { reference, from }, rest))
}

#[tactic(auto, unfolding(crate::specs::Commands::tag_at))]
fn read_tag<'a>(name: &'a [u8], bytes: &'a [u8]) -> Result<(Tag<'a>, &'a [u8]), ReadError>
    ensures { ReadsTo (λ found. (value_of_tag found.0, found.1.now)) result (tag_at name.now bytes.now) }
{
    let (mark, rest) = optional_mark(bytes)?;
    let (from, rest) = required_text(TextItem::From, rest)?;
    let (original_oid, rest) = optional_text(TextItem::OriginalOid, rest)?;
    let (tagger, rest) = optional_text(TextItem::Tagger, rest)?;
    let (message, rest) = read_data(rest)?;
    let tag = Tag {
        name,
        mark,
        from,
        original_oid,
        tagger,
        message,
    };
    Ok((tag, rest))
}

#[tactic(auto, unfolding(crate::specs::Commands::commit_at))]
fn read_commit<'a>(
    alloc: Global,
    reference: &'a [u8],
    bytes: &'a [u8],
) -> Result<(Commit<'a>, &'a [u8]), ReadError>
    ensures { ReadsTo (λ found. (value_of_commit found.0, found.1.now)) result (commit_at reference.now bytes.now) }
{
    let (mark, rest) = optional_mark(bytes)?;
    let (original_oid, rest) = optional_text(TextItem::OriginalOid, rest)?;
    let (author, rest) = optional_text(TextItem::Author, rest)?;
    let (committer, rest) = required_text(TextItem::Committer, rest)?;
    let (encoding, rest) = optional_text(TextItem::Encoding, rest)?;
    let (message, rest) = read_data(rest)?;
    let (from, rest) = optional_text(TextItem::From, rest)?;
    let (merges, rest) = read_merges(alloc, rest)?;
    let (changes, rest) = read_changes(alloc, rest)?;
    let (_, rest) = skip_blank(rest)?;
    let commit = Commit {
        reference,
        mark,
        original_oid,
        author,
        committer,
        encoding,
        message,
        from,
        merges,
        changes,
    };
    Ok((commit, rest))
}

#[tactic(auto, unfolding(crate::specs::Commands::merges_at))]
fn read_merges(alloc: Global, bytes: &[u8]) -> Result<(Vec<&[u8]>, &[u8]), ReadError>
    ensures { ReadsTo (λ found. (text_values found.0.items, found.1.now)) result (merges_at bytes.now) }
{
    let mut merges = Vec::new(alloc);
    let mut rest = bytes;
    'merges: for _ in 0..bytes.len() {
        let (found, after) = optional_text(TextItem::Merge, rest)?;
        let Some(merge) = found else {
            return Ok((merges, after));
        };
        merges.push(merge)?;
        rest = after;
    }
    Ok((merges, rest))
}

#[tactic(auto, unfolding(crate::specs::Commands::changes_at))]
fn read_changes(alloc: Global, bytes: &[u8]) -> Result<(Vec<FileChange<'_>>, &[u8]), ReadError>
    ensures { ReadsTo (λ found. (change_values found.0.items, found.1.now)) result (changes_at bytes.now) }
{
    let mut changes = Vec::new(alloc);
    let mut rest = bytes;
    'changes: for _ in 0..bytes.len() {
        let (found, after) = optional_change(rest)?;
        let Some(change) = found else {
            return Ok((changes, after));
        };
        changes.push(change)?;
        rest = after;
    }
    Ok((changes, rest))
}
