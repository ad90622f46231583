//! Items written as bytes of a stream.

ghost use Rattle.std.specs.Prelude.{◌≡◌, ◌∷◌, [], ◌++◌, codes, length, OnOk};
ghost use Rattle.std.specs.Fmt.{decimal};
ghost use Rattle.camp_base.specs.Signs.{newline, space};
ghost use Rattle.camp_coding.specs.Modes.{mode_text};
ghost use Rattle.camp_stream.specs.StreamItems.{ItemsComeBack, item_text};
ghost use Rattle.camp_stream.specs.StreamValues.{value_of_item};

use crate::items::StreamItem;
use crate::words::{bare_word, text_word};
use camp_coding::Mode;
use itoa::Buffer;
use std::alloc::AllocError;

/// Appends the bytes of an item to a stream.
pub fn append_item(stream: &mut Vec<u8>, item: &StreamItem<'_>) -> Result<(), AllocError>
    ensures exact { OnOk result (stream.new.items ≡ stream.old.items ++ item_text (value_of_item item.now)) }
{
    match item {
        StreamItem::Blank => Ok(stream.push(b'\n')?),
        StreamItem::Bare(item) => append_line(stream, bare_word(*item)),
        StreamItem::Text(item, text) => {
            append_word(stream, text_word(*item))?;
            append_line(stream, text)
        }
        StreamItem::Mark(mark) => {
            append_word(stream, b"mark")?;
            append_line(stream, mark)
        }
        StreamItem::Data(bytes) => append_data(stream, bytes),
        StreamItem::Modify {
            mode,
            content,
            path,
        } => append_modify(stream, *mode, content, path),
        StreamItem::Delete(path) => {
            append_word(stream, b"D")?;
            append_line(stream, path)
        }
    }
}

/// Reading the bytes of an item that can be written gives that item, and leaves all bytes after it.
pub fn items_come_back()
    ensures { ItemsComeBack }
{}

fn append_data(stream: &mut Vec<u8>, bytes: &[u8]) -> Result<(), AllocError>
    ensures { OnOk result (stream.new.items ≡ stream.old.items ++ (codes "data " ++ decimal (length bytes.now) ++ newline ∷ bytes.now)) }
{
    append_word(stream, b"data")?;
    let mut buffer = Buffer::new();
    append_line(stream, buffer.format(bytes.len()).as_bytes())?;
    Ok(stream.extend_from_slice(bytes)?)
}

fn append_modify(
    stream: &mut Vec<u8>,
    mode: Mode,
    content: &[u8],
    path: &[u8],
) -> Result<(), AllocError>
    ensures { OnOk result (stream.new.items ≡ stream.old.items ++ (codes "M " ++ mode_text mode ++ space ∷ content.now ++ space ∷ path.now ++ newline ∷ [])) }
{
    append_word(stream, b"M")?;
    append_word(stream, mode.text())?;
    append_word(stream, content)?;
    append_line(stream, path)
}

fn append_word(stream: &mut Vec<u8>, word: &[u8]) -> Result<(), AllocError>
    ensures { OnOk result (stream.new.items ≡ stream.old.items ++ (word.now ++ space ∷ [])) }
{
    stream.extend_from_slice(word)?;
    Ok(stream.push(b' ')?)
}

fn append_line(stream: &mut Vec<u8>, text: &[u8]) -> Result<(), AllocError>
    ensures { OnOk result (stream.new.items ≡ stream.old.items ++ (text.now ++ newline ∷ [])) }
{
    stream.extend_from_slice(text)?;
    Ok(stream.push(b'\n')?)
}
