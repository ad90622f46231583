//! Items read from the bytes of a stream.

ghost use Rattle.std.specs.Prelude.{◌<◌, ◌≤◌, IfOk, length};
ghost use Rattle.camp_stream.specs.StreamItems.{GivesItem, data_item, item_at, line_item, mark_item, modify_item, spaced_item, word_item};

use crate::items::{StreamFaultKind, StreamItem};
use crate::words::{
    bare_item, cut_at, decimal_value, is_data_length, is_mark, mode_of_digits, text_item,
};

/// Reads the first item of a stream. Returns it and the bytes after it. Does not allocate: the texts of the item are
/// slices of the stream. `CutOff` if more bytes could complete the item.
pub fn read_item(stream: &[u8]) -> Result<(StreamItem<'_>, &[u8]), StreamFaultKind>
    ensures exact { GivesItem result (item_at stream.now) }
    ensures shorter { IfOk result (λ found. length found.1.now < length stream.now) }
{
    match cut_at(b'\n', stream) {
        Some((line, rest)) => read_line(line, rest),
        None => Err(StreamFaultKind::CutOff),
    }
}

fn read_line<'a>(
    line: &'a [u8],
    rest: &'a [u8],
) -> Result<(StreamItem<'a>, &'a [u8]), StreamFaultKind>
    ensures exact { GivesItem result (line_item line.now rest.now) }
    ensures within { IfOk result (λ found. length found.1.now ≤ length rest.now) }
{
    if line.is_empty() {
        return Ok((StreamItem::Blank, rest));
    }
    if let Some(item) = bare_item(line) {
        return Ok((StreamItem::Bare(item), rest));
    }
    match cut_at(b' ', line) {
        Some((word, text)) => read_spaced(word, text, rest),
        None => Err(StreamFaultKind::UnknownCommand),
    }
}

fn read_spaced<'a>(
    word: &'a [u8],
    text: &'a [u8],
    rest: &'a [u8],
) -> Result<(StreamItem<'a>, &'a [u8]), StreamFaultKind>
    ensures exact { GivesItem result (spaced_item word.now text.now rest.now) }
    ensures within { IfOk result (λ found. length found.1.now ≤ length rest.now) }
{
    match text_item(word) {
        Some(item) => Ok((StreamItem::Text(item, text), rest)),
        None => read_word(word, text, rest),
    }
}

fn read_word<'a>(
    word: &'a [u8],
    text: &'a [u8],
    rest: &'a [u8],
) -> Result<(StreamItem<'a>, &'a [u8]), StreamFaultKind>
    ensures exact { GivesItem result (word_item word.now text.now rest.now) }
    ensures within { IfOk result (λ found. length found.1.now ≤ length rest.now) }
{
    if word == b"M".as_slice() {
        return read_modify(text, rest);
    }
    if word == b"D".as_slice() {
        return Ok((StreamItem::Delete(text), rest));
    }
    if word == b"mark".as_slice() {
        return read_mark(text, rest);
    }
    if word == b"data".as_slice() {
        return read_data(text, rest);
    }
    if word == b"C".as_slice() {
        return Err(StreamFaultKind::CopyOrRename);
    }
    if word == b"R".as_slice() {
        return Err(StreamFaultKind::CopyOrRename);
    }
    Err(StreamFaultKind::UnknownCommand)
}

fn read_mark<'a>(
    text: &'a [u8],
    rest: &'a [u8],
) -> Result<(StreamItem<'a>, &'a [u8]), StreamFaultKind>
    ensures exact { GivesItem result (mark_item text.now rest.now) }
    ensures within { IfOk result (λ found. length found.1.now ≤ length rest.now) }
{
    if is_mark(text) {
        return Ok((StreamItem::Mark(text), rest));
    }
    Err(StreamFaultKind::BadMark)
}

fn read_data<'a>(
    text: &'a [u8],
    rest: &'a [u8],
) -> Result<(StreamItem<'a>, &'a [u8]), StreamFaultKind>
    ensures exact { GivesItem result (data_item text.now rest.now) }
    ensures within { IfOk result (λ found. length found.1.now ≤ length rest.now) }
{
    if !is_data_length(text) {
        return Err(StreamFaultKind::BadLength);
    }
    let len = decimal_value(text);
    if len > rest.len() {
        return Err(StreamFaultKind::CutOff);
    }
    let (bytes, after) = rest.split_at(len);
    Ok((StreamItem::Data(bytes), after))
}

fn read_modify<'a>(
    text: &'a [u8],
    rest: &'a [u8],
) -> Result<(StreamItem<'a>, &'a [u8]), StreamFaultKind>
    ensures exact { GivesItem result (modify_item text.now rest.now) }
    ensures within { IfOk result (λ found. length found.1.now ≤ length rest.now) }
{
    let Some((digits, text)) = cut_at(b' ', text) else {
        return Err(StreamFaultKind::BadModify);
    };
    let Some(mode) = mode_of_digits(digits) else {
        return Err(StreamFaultKind::BadMode);
    };
    let Some((content, path)) = cut_at(b' ', text) else {
        return Err(StreamFaultKind::BadModify);
    };
    let item = StreamItem::Modify {
        mode,
        content,
        path,
    };
    Ok((item, rest))
}
