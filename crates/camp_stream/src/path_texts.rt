//! Paths of commands, quoted or not.

ghost use Rattle.std.specs.Prelude.{◌≡◌, IfOk, option_map};
ghost use Rattle.camp_stream.specs.QuotedPaths.{path_of_text};

use crate::unquoting::unquote_path;
use std::alloc::{AllocError, Global};

/// Decodes the path of a change: in quotes, which must end the text, or unquoted. `None` if the closing quote is
/// missing or does not end the text, or an escape is not one of C.
pub fn read_path(alloc: Global, text: &[u8]) -> Result<Option<Vec<u8>>, AllocError>
    ensures exact { IfOk result (λ found. option_map (λ path. path.items) found ≡ path_of_text text.now) }
{
    if text.is_empty() || text[0] != b'"' {
        return Ok(Some(Vec::from_slice(alloc, text)?));
    }
    let quoted = &text[1..];
    let Some(read) = unquote_path(alloc, quoted)? else {
        return Ok(None);
    };
    if read.end < quoted.len() {
        return Ok(None);
    }
    Ok(Some(read.path))
}
