//! Reading the next item of a stream if it is the one that the caller wants.

ghost use Rattle.std.specs.Prelude.{◌≡◌, option_map};
ghost use Rattle.camp_stream.specs.CommandValues.{text_value, value_of_change};
ghost use Rattle.camp_stream.specs.Commands.{ReadsTo, blank_if, change_if, data_at, data_if, item_fault, first_item, mark_if, optional, optional_text, required, text_if};
ghost use Rattle.camp_stream.specs.StreamValues.{value_of_item};
ghost use Rattle.camp_stream.specs.declared.commands.ReadError.TheVariants as error;

use crate::commands::{FileChange, ReadError, StreamFault};
use crate::items::{BareItem, StreamFaultKind, StreamItem, TextItem};
use crate::reading::read_item;
use crate::words::text_word;

/// Reads the first item; a fault contains the number of bytes that are left.
#[tactic(auto, unfolding(crate::specs::Commands::first_item))]
pub(crate) fn first_item(bytes: &[u8]) -> Result<(StreamItem<'_>, &[u8]), ReadError>
    ensures { ReadsTo (λ found. (value_of_item found.0, found.1.now)) result (first_item bytes.now) }
{
    match read_item(bytes) {
        Ok(found) => Ok(found),
        Err(kind) => Err(fault_at(kind, bytes)),
    }
}

/// Makes the fault of the item at the start of these bytes.
pub(crate) fn fault_at(kind: StreamFaultKind, bytes: &[u8]) -> ReadError
    ensures { result ≡ error.Fault (item_fault kind bytes.now) }
{
    ReadError::Fault(StreamFault {
        kind,
        left: bytes.len(),
    })
}

/// Reads the text of the next item if its word is this one.
#[tactic(auto, unfolding(crate::specs::Commands::optional))]
pub(crate) fn optional_text(
    wanted: TextItem,
    bytes: &[u8],
) -> Result<(Option<&[u8]>, &[u8]), ReadError>
    ensures { ReadsTo (λ found. (text_value found.0, found.1.now)) result (optional_text wanted bytes.now) }
{
    if bytes.is_empty() {
        return Ok((None, bytes));
    }
    let (item, rest) = first_item(bytes)?;
    match text_if(wanted, item) {
        Some(text) => Ok((Some(text), rest)),
        None => Ok((None, bytes)),
    }
}

/// Reads the text of the next item, whose word must be this one.
#[tactic(auto, unfolding(crate::specs::Commands::required))]
pub(crate) fn required_text(wanted: TextItem, bytes: &[u8]) -> Result<(&[u8], &[u8]), ReadError>
    ensures { ReadsTo (λ found. (found.0.now, found.1.now)) result (required (text_if wanted) bytes.now) }
{
    let (item, rest) = first_item(bytes)?;
    match text_if(wanted, item) {
        Some(text) => Ok((text, rest)),
        None => Err(fault_at(StreamFaultKind::Misplaced, bytes)),
    }
}

/// Reads the next item if it is a mark.
#[tactic(auto, unfolding(crate::specs::Commands::optional))]
pub(crate) fn optional_mark(bytes: &[u8]) -> Result<(Option<&[u8]>, &[u8]), ReadError>
    ensures { ReadsTo (λ found. (text_value found.0, found.1.now)) result (optional mark_if bytes.now) }
{
    if bytes.is_empty() {
        return Ok((None, bytes));
    }
    let (item, rest) = first_item(bytes)?;
    match item {
        StreamItem::Mark(mark) => Ok((Some(mark), rest)),
        _ => Ok((None, bytes)),
    }
}

/// Reads the next item if it is one of a commit's changes.
#[tactic(auto, unfolding(crate::specs::Commands::optional))]
pub(crate) fn optional_change(bytes: &[u8]) -> Result<(Option<FileChange<'_>>, &[u8]), ReadError>
    ensures { ReadsTo (λ found. (option_map value_of_change found.0, found.1.now)) result (optional change_if bytes.now) }
{
    if bytes.is_empty() {
        return Ok((None, bytes));
    }
    let (item, rest) = first_item(bytes)?;
    match change_if(item) {
        Some(change) => Ok((Some(change), rest)),
        None => Ok((None, bytes)),
    }
}

/// Reads an optional empty line.
#[tactic(auto, unfolding(crate::specs::Commands::optional))]
pub(crate) fn skip_blank(bytes: &[u8]) -> Result<(Option<()>, &[u8]), ReadError>
    ensures { ReadsTo (λ found. (found.0, found.1.now)) result (optional blank_if bytes.now) }
{
    if bytes.is_empty() {
        return Ok((None, bytes));
    }
    let (item, rest) = first_item(bytes)?;
    match item {
        StreamItem::Blank => Ok((Some(()), rest)),
        _ => Ok((None, bytes)),
    }
}

/// Reads data, and the empty line after it if there is one.
#[tactic(auto, unfolding(crate::specs::Commands::data_at))]
pub(crate) fn read_data(bytes: &[u8]) -> Result<(&[u8], &[u8]), ReadError>
    ensures { ReadsTo (λ found. (found.0.now, found.1.now)) result (data_at bytes.now) }
{
    let (data, rest) = required_data(bytes)?;
    let (_, rest) = skip_blank(rest)?;
    Ok((data, rest))
}

#[tactic(auto, unfolding(crate::specs::Commands::required))]
fn required_data(bytes: &[u8]) -> Result<(&[u8], &[u8]), ReadError>
    ensures { ReadsTo (λ found. (found.0.now, found.1.now)) result (required data_if bytes.now) }
{
    let (item, rest) = first_item(bytes)?;
    match item {
        StreamItem::Data(data) => Ok((data, rest)),
        _ => Err(fault_at(StreamFaultKind::Misplaced, bytes)),
    }
}

fn text_if<'a>(wanted: TextItem, item: StreamItem<'a>) -> Option<&'a [u8]>
    ensures { text_value result ≡ text_if wanted (value_of_item item.entry) }
{
    match item {
        StreamItem::Text(item, text) => {
            if text_word(item) == text_word(wanted) {
                return Some(text);
            }
            None
        }
        _ => None,
    }
}

fn change_if<'a>(item: StreamItem<'a>) -> Option<FileChange<'a>>
    ensures { option_map value_of_change result ≡ change_if (value_of_item item.entry) }
{
    match item {
        StreamItem::Modify {
            mode,
            content,
            path,
        } => Some(FileChange::Set {
            mode,
            content,
            path,
        }),
        StreamItem::Delete(path) => Some(FileChange::Delete(path)),
        StreamItem::Bare(BareItem::DeleteAll) => Some(FileChange::DeleteAll),
        _ => None,
    }
}
