//! Words of items, and lines split at their spaces.

ghost use Rattle.std.specs.Prelude.{◌≡◌, ◌==◌, ◌<◌, ◌≤◌, IfSome, length, option_map};
ghost use Rattle.std.specs.List.{list_all, position_or_len};
ghost use Rattle.camp_base.specs.Signs.{is_digit};
ghost use Rattle.camp_stream.specs.StreamItems.{bare_item, bare_word, cut_at, decimal_value, described_item, is_data_length, is_mark, mode_of_digits, text_item, text_word};

use crate::items::{BareItem, TextItem};
use camp_coding::Mode;

/// The most digits of the length of data.
pub(crate) const MAX_DIGITS: usize = 10;

/// Returns the bytes before the first one that equals `mark`, and those after it; `None` if no byte does.
pub(crate) fn cut_at(mark: u8, bytes: &[u8]) -> Option<(&[u8], &[u8])>
    ensures exact { option_map (λ parts. (parts.0.now, parts.1.now)) result ≡ cut_at mark bytes.now }
    ensures shorter { IfSome result (λ parts. length parts.1.now < length bytes.now) }
{
    let len = len_before(mark, bytes);
    if len >= bytes.len() {
        return None;
    }
    let (before, after) = bytes.split_at(len);
    Some((before, &after[1..]))
}

fn len_before(mark: u8, bytes: &[u8]) -> usize
    ensures place { result ≡ position_or_len (λ byte. byte == mark) bytes.now }
    ensures within { result ≤ length bytes.now }
{
    bytes
        .iter()
        .position(|byte| *byte == mark)
        .unwrap_or(bytes.len())
}

/// Returns the item that consists of this word alone, if there is one.
pub(crate) fn bare_item(word: &[u8]) -> Option<BareItem>
    ensures { result ≡ bare_item word.now }
{
    if word == b"blob".as_slice() {
        return Some(BareItem::Blob);
    }
    if word == b"deleteall".as_slice() {
        return Some(BareItem::DeleteAll);
    }
    if word == b"checkpoint".as_slice() {
        return Some(BareItem::Checkpoint);
    }
    if word == b"done".as_slice() {
        return Some(BareItem::Done);
    }
    None
}

/// Returns the word of an item that consists of it alone.
pub(crate) fn bare_word(item: BareItem) -> &'static [u8]
    ensures { result.now ≡ bare_word item }
{
    match item {
        BareItem::Blob => b"blob",
        BareItem::DeleteAll => b"deleteall",
        BareItem::Checkpoint => b"checkpoint",
        BareItem::Done => b"done",
    }
}

/// Returns the item with this word and a text, if there is one.
pub(crate) fn text_item(word: &[u8]) -> Option<TextItem>
    ensures { result ≡ text_item word.now }
{
    if word == b"commit".as_slice() {
        return Some(TextItem::Commit);
    }
    if word == b"tag".as_slice() {
        return Some(TextItem::Tag);
    }
    if word == b"reset".as_slice() {
        return Some(TextItem::Reset);
    }
    if word == b"progress".as_slice() {
        return Some(TextItem::Progress);
    }
    if word == b"feature".as_slice() {
        return Some(TextItem::Feature);
    }
    if word == b"option".as_slice() {
        return Some(TextItem::Option);
    }
    described_item(word)
}

/// Returns the item with this word and a text that describes a commit or a tag, if there is one.
fn described_item(word: &[u8]) -> Option<TextItem>
    ensures { result ≡ described_item word.now }
{
    if word == b"original-oid".as_slice() {
        return Some(TextItem::OriginalOid);
    }
    if word == b"author".as_slice() {
        return Some(TextItem::Author);
    }
    if word == b"committer".as_slice() {
        return Some(TextItem::Committer);
    }
    if word == b"tagger".as_slice() {
        return Some(TextItem::Tagger);
    }
    if word == b"encoding".as_slice() {
        return Some(TextItem::Encoding);
    }
    if word == b"from".as_slice() {
        return Some(TextItem::From);
    }
    if word == b"merge".as_slice() {
        return Some(TextItem::Merge);
    }
    None
}

/// Returns the word of an item that has a word and a text.
pub(crate) fn text_word(item: TextItem) -> &'static [u8]
    ensures { result.now ≡ text_word item }
{
    match item {
        TextItem::Commit => b"commit",
        TextItem::Tag => b"tag",
        TextItem::Reset => b"reset",
        TextItem::OriginalOid => b"original-oid",
        TextItem::Author => b"author",
        TextItem::Committer => b"committer",
        TextItem::Tagger => b"tagger",
        TextItem::Encoding => b"encoding",
        TextItem::From => b"from",
        TextItem::Merge => b"merge",
        TextItem::Progress => b"progress",
        TextItem::Feature => b"feature",
        TextItem::Option => b"option",
    }
}

/// Returns the mode with these digits, if there is one.
pub(crate) fn mode_of_digits(digits: &[u8]) -> Option<Mode>
    ensures { result ≡ mode_of_digits digits.now }
{
    if digits == b"100644".as_slice() {
        return Some(Mode::Regular);
    }
    if digits == b"644".as_slice() {
        return Some(Mode::Regular);
    }
    if digits == b"100755".as_slice() {
        return Some(Mode::Executable);
    }
    if digits == b"755".as_slice() {
        return Some(Mode::Executable);
    }
    if digits == b"120000".as_slice() {
        return Some(Mode::Symlink);
    }
    if digits == b"160000".as_slice() {
        return Some(Mode::Submodule);
    }
    None
}

/// True if a text is `:` and decimal digits.
pub(crate) fn is_mark(text: &[u8]) -> bool
    ensures { result ≡ is_mark text.now }
{
    if text.is_empty() {
        return false;
    }
    let digits = &text[1..];
    text[0] == b':' && !digits.is_empty() && has_digits(digits)
}

/// True if a text is 1 to 10 decimal digits.
pub(crate) fn is_data_length(text: &[u8]) -> bool
    ensures { result ≡ is_data_length text.now }
{
    if text.is_empty() || text.len() > MAX_DIGITS {
        return false;
    }
    has_digits(text)
}

fn has_digits(text: &[u8]) -> bool
    ensures { result ≡ list_all is_digit text.now }
{
    text.iter().all(|byte| matches!(byte, b'0'..=b'9'))
}

/// Returns the value of decimal digits.
pub(crate) fn decimal_value(digits: &[u8]) -> usize
    requires { length digits.now ≤ 10 }
    ensures { result ≡ decimal_value digits.now }
{
    let mut value = 0;
    for digit in digits {
        value = value * 10 + usize::from(digit.saturating_sub(b'0'));
    }
    value
}
