//! Contents of git as lines of camp, and back.

ghost use Rattle.std.specs.Prelude.{◌≡◌, IfOk, map, option_map};
ghost use Rattle.camp_coding.specs.Contents.{ContentsComeBack, Encodes, StoresContent, decoded, wrapped_if};

use crate::lines::split_lines;
use crate::pieces::{are_pieces, join_stored};
use crate::wrapping::{has_long_line, store_plain, store_wrapped};
use camp_base::{BaseFault, Line};
use std::alloc::{AllocError, Global};

/// The content of a file of git as lines of camp, with what the lines alone do not say.
#[derive(Debug, Drop)]
pub struct EncodedContent {
    /// The lines of the content or, if one of them has over 4,096 bytes, the pieces of all lines.
    pub lines: Vec<Line>,
    /// True if the lines are pieces: `+` or `=`, and at most 4,095 bytes. After `+` the line continues, after
    /// `=` it ends.
    pub is_wrapped: bool,
    /// True if the content is not empty and its last byte is not LF.
    pub lacks_newline: bool,
}

/// Encodes a content. A line ends at LF only: CR is a byte of the line.
pub fn encode_content(alloc: Global, content: &[u8]) -> Result<EncodedContent, BaseFault>
    ensures exact { IfOk result (λ coded. Encodes content.now coded.lines.items coded.is_wrapped coded.lacks_newline) }
    ensures stores { IfOk result (λ coded. StoresContent content.now coded.lines.items coded.is_wrapped coded.lacks_newline) }
{
    let split = split_lines(alloc, content)?;
    let is_wrapped = has_long_line(&split.lines);
    let lines = store_lines(alloc, &split.lines, is_wrapped)?;
    Ok(EncodedContent {
        lines,
        is_wrapped,
        lacks_newline: split.lacks_newline,
    })
}

/// Returns the content that stored lines represent. `None` if the lines are said to be pieces, and one has no mark, or
/// the last one does not end its line.
pub fn decode_content(
    alloc: Global,
    stored: &[Line],
    is_wrapped: bool,
    lacks_newline: bool,
) -> Result<Option<Vec<u8>>, AllocError>
    ensures exact { IfOk result (λ found. option_map (λ content. content.items) found ≡ decoded stored.now is_wrapped lacks_newline) }
{
    if is_wrapped && !are_pieces(stored) {
        return Ok(None);
    }
    let mut content = join_stored(alloc, stored, is_wrapped)?;
    if lacks_newline {
        content.pop();
    }
    Ok(Some(content))
}

/// Decoding an encoded content gives that content.
pub fn contents_come_back()
    ensures { ContentsComeBack }
{}

fn store_lines(alloc: Global, lines: &[&[u8]], is_wrapped: bool) -> Result<Vec<Line>, BaseFault>
    ensures { IfOk result (λ stored. stored.items ≡ wrapped_if is_wrapped (map (λ line. line.now) lines.now)) }
{
    if is_wrapped {
        return store_wrapped(alloc, lines);
    }
    store_plain(alloc, lines)
}
