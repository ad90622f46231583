//! Commands written as bytes of a stream.

ghost use Rattle.std.specs.Prelude.{◌≡◌, ◌++◌, OnOk};
ghost use Rattle.std.specs.List.{flat_map};
ghost use Rattle.camp_stream.specs.CommandTexts.{CommandsComeBack, StreamsComeBack, blob_text, file_change_bytes, stream_command_bytes, commit_text, contents_text, data_item_bytes, description_text, merge_text, optional_item, reset_text, tag_text};
ghost use Rattle.camp_stream.specs.CommandValues.{change_values, text_value, text_values, value_of_blob, value_of_change, value_of_command, value_of_commit, value_of_reset, value_of_tag};
ghost use Rattle.camp_stream.specs.StreamValues.{Mark, Text};

use crate::commands::{Blob, Command, Commit, FileChange, Reset, Tag};
use crate::items::{BareItem, StreamItem, TextItem};
use crate::writing::append_item;
use std::alloc::AllocError;

/// Appends the bytes of a command to a stream. An empty line comes after each data, and after a commit, a reset,
/// `progress` and `checkpoint`.
pub fn append_command(stream: &mut Vec<u8>, command: &Command<'_>) -> Result<(), AllocError>
    ensures exact { OnOk result (stream.new.items ≡ stream.old.items ++ stream_command_bytes (value_of_command command.now)) }
{
    match command {
        Command::Blob(blob) => append_blob(stream, blob),
        Command::Commit(commit) => append_commit(stream, commit),
        Command::Reset(reset) => append_reset(stream, reset),
        Command::Tag(tag) => append_tag(stream, tag),
        Command::Progress(text) => {
            append_item(stream, &StreamItem::Text(TextItem::Progress, text))?;
            Ok(stream.push(b'\n')?)
        }
        Command::Feature(text) => append_item(stream, &StreamItem::Text(TextItem::Feature, text)),
        Command::Option(text) => append_item(stream, &StreamItem::Text(TextItem::Option, text)),
        Command::Checkpoint => {
            append_item(stream, &StreamItem::Bare(BareItem::Checkpoint))?;
            Ok(stream.push(b'\n')?)
        }
        Command::Done => append_item(stream, &StreamItem::Bare(BareItem::Done)),
    }
}

/// Reading the bytes of a command that can be written gives that command, and leaves all bytes after it.
pub fn commands_come_back()
    ensures { CommandsComeBack }
{}

/// Reading the bytes of commands that can be written, none of them `done`, gives these commands.
pub fn streams_come_back()
    ensures { StreamsComeBack }
{}

#[tactic(auto, unfolding(crate::specs::CommandTexts::blob_text))]
fn append_blob(stream: &mut Vec<u8>, blob: &Blob<'_>) -> Result<(), AllocError>
    ensures { OnOk result (stream.new.items ≡ stream.old.items ++ blob_text (value_of_blob blob.now)) }
{
    append_item(stream, &StreamItem::Bare(BareItem::Blob))?;
    append_mark(stream, blob.mark)?;
    append_text(stream, TextItem::OriginalOid, blob.original_oid)?;
    append_data(stream, blob.content)
}

#[tactic(auto, unfolding(crate::specs::CommandTexts::commit_text))]
fn append_commit(stream: &mut Vec<u8>, commit: &Commit<'_>) -> Result<(), AllocError>
    ensures { OnOk result (stream.new.items ≡ stream.old.items ++ commit_text (value_of_commit commit.now)) }
{
    append_item(
        stream,
        &StreamItem::Text(TextItem::Commit, commit.reference),
    )?;
    append_description(stream, commit)?;
    append_contents(stream, commit)
}

#[tactic(auto, unfolding(crate::specs::CommandTexts::description_text))]
fn append_description(stream: &mut Vec<u8>, commit: &Commit<'_>) -> Result<(), AllocError>
    ensures { OnOk result (stream.new.items ≡ stream.old.items ++ description_text (value_of_commit commit.now)) }
{
    append_mark(stream, commit.mark)?;
    append_text(stream, TextItem::OriginalOid, commit.original_oid)?;
    append_text(stream, TextItem::Author, commit.author)?;
    append_item(
        stream,
        &StreamItem::Text(TextItem::Committer, commit.committer),
    )?;
    append_text(stream, TextItem::Encoding, commit.encoding)?;
    append_data(stream, commit.message)
}

#[tactic(auto, unfolding(crate::specs::CommandTexts::contents_text))]
fn append_contents(stream: &mut Vec<u8>, commit: &Commit<'_>) -> Result<(), AllocError>
    ensures { OnOk result (stream.new.items ≡ stream.old.items ++ contents_text (value_of_commit commit.now)) }
{
    append_text(stream, TextItem::From, commit.from)?;
    append_merges(stream, &commit.merges)?;
    append_changes(stream, &commit.changes)?;
    Ok(stream.push(b'\n')?)
}

#[tactic(auto, unfolding(crate::specs::CommandTexts::reset_text))]
fn append_reset(stream: &mut Vec<u8>, reset: &Reset<'_>) -> Result<(), AllocError>
    ensures { OnOk result (stream.new.items ≡ stream.old.items ++ reset_text (value_of_reset reset.now)) }
{
    append_item(stream, &StreamItem::Text(TextItem::Reset, reset.reference))?;
    append_text(stream, TextItem::From, reset.from)?;
    Ok(stream.push(b'\n')?)
}

#[tactic(auto, unfolding(crate::specs::CommandTexts::tag_text))]
fn append_tag(stream: &mut Vec<u8>, tag: &Tag<'_>) -> Result<(), AllocError>
    ensures { OnOk result (stream.new.items ≡ stream.old.items ++ tag_text (value_of_tag tag.now)) }
{
    append_item(stream, &StreamItem::Text(TextItem::Tag, tag.name))?;
    append_mark(stream, tag.mark)?;
    append_item(stream, &StreamItem::Text(TextItem::From, tag.from))?;
    append_text(stream, TextItem::OriginalOid, tag.original_oid)?;
    append_text(stream, TextItem::Tagger, tag.tagger)?;
    append_data(stream, tag.message)
}

fn append_mark(stream: &mut Vec<u8>, mark: Option<&[u8]>) -> Result<(), AllocError>
    ensures { OnOk result (stream.new.items ≡ stream.old.items ++ optional_item Mark (text_value mark.entry)) }
{
    match mark {
        Some(mark) => append_item(stream, &StreamItem::Mark(mark)),
        None => Ok(()),
    }
}

fn append_text(stream: &mut Vec<u8>, item: TextItem, text: Option<&[u8]>) -> Result<(), AllocError>
    ensures { OnOk result (stream.new.items ≡ stream.old.items ++ optional_item (Text item) (text_value text.entry)) }
{
    match text {
        Some(text) => append_item(stream, &StreamItem::Text(item, text)),
        None => Ok(()),
    }
}

fn append_data(stream: &mut Vec<u8>, bytes: &[u8]) -> Result<(), AllocError>
    ensures { OnOk result (stream.new.items ≡ stream.old.items ++ data_item_bytes bytes.now) }
{
    append_item(stream, &StreamItem::Data(bytes))?;
    Ok(stream.push(b'\n')?)
}

fn append_merges(stream: &mut Vec<u8>, merges: &[&[u8]]) -> Result<(), AllocError>
    ensures { OnOk result (stream.new.items ≡ stream.old.items ++ flat_map merge_text (text_values merges.now)) }
{
    for merge in merges {
        append_item(stream, &StreamItem::Text(TextItem::Merge, merge))?;
    }
    Ok(())
}

fn append_changes(stream: &mut Vec<u8>, changes: &[FileChange<'_>]) -> Result<(), AllocError>
    ensures { OnOk result (stream.new.items ≡ stream.old.items ++ flat_map file_change_bytes (change_values changes.now)) }
{
    for change in changes {
        append_change(stream, change)?;
    }
    Ok(())
}

fn append_change(stream: &mut Vec<u8>, change: &FileChange<'_>) -> Result<(), AllocError>
    ensures { OnOk result (stream.new.items ≡ stream.old.items ++ file_change_bytes (value_of_change change.now)) }
{
    match change {
        FileChange::Set {
            mode,
            content,
            path,
        } => append_item(
            stream,
            &StreamItem::Modify {
                mode: *mode,
                content,
                path,
            },
        ),
        FileChange::Delete(path) => append_item(stream, &StreamItem::Delete(path)),
        FileChange::DeleteAll => append_item(stream, &StreamItem::Bare(BareItem::DeleteAll)),
    }
}
