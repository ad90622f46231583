//! Entries of a git tree from a camp tree.

ghost use Rattle.std.specs.Prelude.{◌≡◌, IfOk, Some, MatchOption, is_some};
ghost use Rattle.camp_coding.specs.GitTrees.{DecodesFile, GitFile, file_at, mode_lines};
ghost use Rattle.camp_coding.specs.declared.attributes.Attribute.TheVariants.{ModeLine};
ghost use Rattle.camp_coding.specs.declared.modes.Mode.{Mode};

use crate::modes::is_regular;
use crate::places::lines_at;
use crate::{Attribute, Mode, decode_content, parse_mode};
use camp_base::{Line, Tree};
use std::alloc::{AllocError, Global};

/// An entry of a git tree, decoded from a camp tree.
#[derive(Debug, Drop)]
pub struct DecodedFile {
    /// The mode of the entry.
    pub mode: Mode,
    /// The bytes of a file, the target of a link, or the id of a submodule and LF.
    pub content: Vec<u8>,
}

/// Decodes the entry of git at a path. `None` if the camp tree has no code of an entry there.
pub fn decode_file(
    alloc: Global,
    tree: &Tree,
    path: &[u8],
) -> Result<Option<DecodedFile>, AllocError>
    ensures exact { IfOk result (λ found. MatchOption found
        ((file : GitFile) → ¬ (DecodesFile tree.now path.now file))
        (λ file. DecodesFile tree.now path.now (record { mode = file.mode; content = file.content.items }))) }
{
    let stored = match lines_at(alloc, tree, None, path)? {
        Some(stored) => stored,
        None => return Ok(None),
    };
    let mode = match mode_at(alloc, tree, path)? {
        Some(mode) => mode,
        None => return Ok(None),
    };
    let is_wrapped = has_attribute(alloc, tree, Attribute::Wrapped, path)?;
    let lacks_newline = has_attribute(alloc, tree, Attribute::LacksNewline, path)?;
    let content = match decode_content(alloc, &stored, is_wrapped, lacks_newline)? {
        Some(content) => content,
        None => return Ok(None),
    };
    Ok(Some(DecodedFile { mode, content }))
}

fn has_attribute(
    alloc: Global,
    tree: &Tree,
    attribute: Attribute,
    path: &[u8],
) -> Result<bool, AllocError>
    ensures { IfOk result (λ has. has ≡ is_some (file_at tree.now (Some attribute) path.now)) }
{
    let lines = lines_at(alloc, tree, Some(attribute), path)?;
    Ok(lines.is_some())
}

fn mode_at(alloc: Global, tree: &Tree, path: &[u8]) -> Result<Option<Mode>, AllocError>
    ensures { IfOk result (λ found. MatchOption found
        ((mode : Mode) → ¬ (file_at tree.now (Some ModeLine) path.now ≡ mode_lines mode))
        (λ mode. file_at tree.now (Some ModeLine) path.now ≡ mode_lines mode)) }
{
    match lines_at(alloc, tree, Some(Attribute::ModeLine), path)? {
        Some(lines) => Ok(mode_of(&lines)),
        None => Ok(Some(Mode::Regular)),
    }
}

fn mode_of(lines: &[Line]) -> Option<Mode>
    ensures { MatchOption result ((mode : Mode) → ¬ (Some lines.now ≡ mode_lines mode)) (λ mode. Some lines.now ≡ mode_lines mode) }
{
    if lines.len() != 1 {
        return None;
    }
    let mode = match parse_mode(lines[0].bytes()) {
        Some(mode) => mode,
        None => return None,
    };
    if is_regular(mode) {
        return None;
    }
    Some(mode)
}
