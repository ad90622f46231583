//! The lines of a content.

ghost use Rattle.std.specs.Prelude.{◌≡◌, map, IfOk};
ghost use Rattle.camp_coding.specs.Contents.{HasLines, between_newlines, content_lines, lacks_last_newline};
ghost use Rattle.camp_coding.specs.Inside.Splitting.{AreLinesBefore};

use std::alloc::{AllocError, Global};

/// The lines of a content, without LF, and true if the last one lacks its LF.
#[derive(Drop)]
pub(crate) struct SplitLines<'content> {
    pub(crate) lines: Vec<&'content [u8]>,
    pub(crate) lacks_newline: bool,
}

/// Splits a content into its lines.
pub(crate) fn split_lines<'content>(
    alloc: Global,
    content: &'content [u8],
) -> Result<SplitLines<'content>, AllocError>
    ensures has { IfOk result (λ split. HasLines content.now (map (λ line. line.now) split.lines.items) split.lacks_newline) }
    ensures lines { IfOk result (λ split. map (λ line. line.now) split.lines.items ≡ content_lines content.now) }
    ensures lacks { IfOk result (λ split. split.lacks_newline ≡ lacks_last_newline content.now) }
{
    let mut lines = split_at_newlines(alloc, content)?;
    let last = match lines.pop() {
        Some(last) => last,
        None => {
            return Ok(SplitLines {
                lines,
                lacks_newline: false,
            });
        }
    };
    Ok(lines_before(lines, last)?)
}

/// Returns the lines of a content, given the pieces between its line feeds; if the last piece is empty, it is no line.
fn lines_before<'content>(
    mut lines: Vec<&'content [u8]>,
    last: &'content [u8],
) -> Result<SplitLines<'content>, AllocError>
    ensures { IfOk result (λ split. AreLinesBefore (map (λ line. line.now) lines.entry.items) last.now (map (λ line. line.now) split.lines.items) split.lacks_newline) }
{
    if last.is_empty() {
        return Ok(SplitLines {
            lines,
            lacks_newline: false,
        });
    }
    lines.push(last)?;
    Ok(SplitLines {
        lines,
        lacks_newline: true,
    })
}

fn split_at_newlines<'content>(
    alloc: Global,
    content: &'content [u8],
) -> Result<Vec<&'content [u8]>, AllocError>
    ensures { IfOk result (λ pieces. map (λ piece. piece.now) pieces.items ≡ between_newlines content.now) }
{
    content.split(|byte| *byte == b'\n').collect(alloc)
}
