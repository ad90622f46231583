//! The entries of a git tree that a camp tree stores.

ghost use Rattle.std.specs.Prelude.{◌≡◌, IfOk, None, Some, OnOk};
ghost use Rattle.camp_coding.specs.GitTrees.{PutsFile, RemovesFile, TreesComeBack, empty_file_if, mode_lines, place_path};
ghost use Rattle.camp_coding.specs.Inside.Placing.{ClearsPlace, SetsPlace};
ghost use Rattle.camp_coding.specs.Modes.{mode_text};
ghost use Rattle.camp_coding.specs.declared.attributes.Attribute.TheVariants.{ModeLine};
ghost use Rattle.camp_coding.specs.declared.trees.EncodeFault.TheVariants as encode;

use crate::modes::is_regular;
use crate::places::set_place;
use crate::{Attribute, Mode, encode_content};
use camp_base::{Apply, Line, Tree};
use std::alloc::{AllocError, Global};
use thiserror::Error;

/// The most lines of a file of camp.
pub const MAX_LINES: usize = 1_000_000;

/// Why camp can't store an entry of a git tree.
#[derive(Clone, Copy, PartialEq, Eq, Debug, Error)]
pub enum EncodeFault {
    /// The path in camp of the entry, or of an attribute of it, is not valid: it is too long, or has a component that
    /// is empty, `.` or `..`.
    #[error("the path can't be held")]
    BadPath,
    /// The content would be stored in more than 1,000,000 lines.
    #[error("more than 1,000,000 lines")]
    TooManyLines,
    /// Out of memory.
    #[error("out of memory")]
    Memory,
}

impl From<AllocError> for EncodeFault {
    ghost from_gives = { λ _ fault. fault ≡ encode.Memory };

    fn from(_error: AllocError) -> EncodeFault {
        EncodeFault::Memory
    }
}

impl From<Apply> for EncodeFault {
    ghost from_gives = { λ _ fault. fault ≡ encode.Memory };

    fn from(_error: Apply) -> EncodeFault {
        EncodeFault::Memory
    }
}

/// Returns the tree with this entry of git at a path, instead of any that was there. Entries below the path stay.
pub fn put_file(
    alloc: Global,
    tree: &Tree,
    path: &[u8],
    mode: Mode,
    content: &[u8],
) -> Result<Tree, EncodeFault>
    ensures exact { PutsFile path.now (record { mode = mode; content = content.now }) tree.now result }
{
    let encoded = match encode_content(alloc, content) {
        Ok(encoded) => encoded,
        Err(_) => return Err(EncodeFault::Memory),
    };
    if encoded.lines.len() > MAX_LINES {
        return Err(EncodeFault::TooManyLines);
    }
    let mut new = tree.try_clone()?;
    set_place(alloc, &mut new, None, path, Some(&encoded.lines))?;
    set_mode(alloc, &mut new, path, mode)?;
    set_flag(
        alloc,
        &mut new,
        Attribute::LacksNewline,
        path,
        encoded.lacks_newline,
    )?;
    set_flag(
        alloc,
        &mut new,
        Attribute::Wrapped,
        path,
        encoded.is_wrapped,
    )?;
    Ok(new)
}

/// Returns the tree without the entry of git at a path, if there is one. Entries below the path stay.
pub fn remove_file(alloc: Global, tree: &Tree, path: &[u8]) -> Result<Tree, AllocError>
    ensures exact { IfOk result (λ new. RemovesFile path.now tree.now new) }
{
    let mut new = tree.try_clone()?;
    clear_place(alloc, &mut new, None, path)?;
    clear_place(alloc, &mut new, Some(Attribute::ModeLine), path)?;
    clear_place(alloc, &mut new, Some(Attribute::LacksNewline), path)?;
    clear_place(alloc, &mut new, Some(Attribute::Wrapped), path)?;
    Ok(new)
}

/// Decoding the code of a git tree gives that tree: at each path its entry, or none.
pub fn trees_come_back()
    ensures { TreesComeBack }
{}

fn set_mode(alloc: Global, tree: &mut Tree, path: &[u8], mode: Mode) -> Result<(), EncodeFault>
    ensures { SetsPlace (place_path (Some ModeLine) path.now) (mode_lines mode) tree.old result tree.new }
{
    if is_regular(mode) {
        return set_place(alloc, tree, Some(Attribute::ModeLine), path, None);
    }
    let line = mode_line(alloc, mode)?;
    set_place(alloc, tree, Some(Attribute::ModeLine), path, Some(&[line]))
}

fn mode_line(alloc: Global, mode: Mode) -> Result<Line, AllocError>
    ensures { IfOk result (λ line. line ≡ mode_text mode) }
{
    match Line::new(alloc, mode.text()) {
        Ok(line) => Ok(line),
        Err(_) => Err(AllocError),
    }
}

fn set_flag(
    alloc: Global,
    tree: &mut Tree,
    attribute: Attribute,
    path: &[u8],
    is_set: bool,
) -> Result<(), EncodeFault>
    ensures { SetsPlace (place_path (Some attribute) path.now) (empty_file_if is_set) tree.old result tree.new }
{
    if is_set {
        return set_place(alloc, tree, Some(attribute), path, Some(&[]));
    }
    set_place(alloc, tree, Some(attribute), path, None)
}

fn clear_place(
    alloc: Global,
    tree: &mut Tree,
    place: Option<Attribute>,
    path: &[u8],
) -> Result<(), AllocError>
    ensures { OnOk result (ClearsPlace (place_path place path.now) tree.old tree.new) }
{
    match set_place(alloc, tree, place, path, None) {
        Ok(()) => Ok(()),
        Err(_) => Err(AllocError),
    }
}
