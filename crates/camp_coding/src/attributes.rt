//! What git stores of a file besides its lines, and the paths of camp at which this is stored.

ghost use Rattle.std.specs.Prelude.{◌≡◌, IfOk};
ghost use Rattle.camp_coding.specs.Attributes.{AttributePathsAreFree, AttributePathsDiffer, MakesPath, attribute_folder, attribute_path};
ghost use Rattle.camp_coding.specs.GitPaths.{escaped_path};

use crate::escape_path;
use camp_base::{BaseFault, Path};
use std::alloc::{AllocError, Global};

/// The attributes of a file of git, each of which is a file of camp of its own.
#[derive(Clone, Copy, Debug, PartialEq, Eq)]
pub enum Attribute {
    /// Its mode: a file in `%m` with one line. Without it the file is a regular one.
    ModeLine,
    /// Its last line lacks LF: an empty file in `%n`.
    LacksNewline,
    /// Its lines are stored in pieces: an empty file in `%w`.
    Wrapped,
    /// A commit that changes nothing: an empty file in `%e`, under the id of the commit, which is added and
    /// removed.
    EmptyCommit,
}

/// Returns the path in camp of a path of git. `BadPath` if camp can't represent it: escaped, it has over 200 bytes, or
/// a component that is empty, `.` or `..`.
pub fn encode_path(alloc: Global, path: &[u8]) -> Result<Path, BaseFault>
    ensures exact { MakesPath (escaped_path path.now) result }
{
    let text = escape_path(alloc, path)?;
    path_of(alloc, &text)
}

/// Returns the path in camp of an attribute of a path of git. `BadPath` if camp can't represent it.
pub fn encode_attribute_path(
    alloc: Global,
    attribute: Attribute,
    path: &[u8],
) -> Result<Path, BaseFault>
    ensures exact { MakesPath (attribute_path attribute path.now) result }
{
    let text = attribute_text(alloc, attribute, path)?;
    path_of(alloc, &text)
}

/// No path of git, escaped, is the path of an attribute.
pub fn attribute_paths_are_free()
    ensures { AttributePathsAreFree }
{}

/// If the paths of two attributes are equal, so are their kinds and their paths of git.
pub fn attribute_paths_differ()
    ensures { AttributePathsDiffer }
{}

fn path_of(alloc: Global, text: &[u8]) -> Result<Path, BaseFault>
    ensures { MakesPath text.now result }
{
    Path::new(alloc, text)
}

fn attribute_text(alloc: Global, attribute: Attribute, path: &[u8]) -> Result<Vec<u8>, AllocError>
    ensures { IfOk result (λ text. text.items ≡ attribute_path attribute path.now) }
{
    let mut text = Vec::from_slice(alloc, folder_of(attribute))?;
    text.extend_from_slice(&escape_path(alloc, path)?)?;
    Ok(text)
}

fn folder_of(attribute: Attribute) -> &'static [u8]
    ensures { result.now ≡ attribute_folder attribute }
{
    match attribute {
        Attribute::ModeLine => b"%m/",
        Attribute::LacksNewline => b"%n/",
        Attribute::Wrapped => b"%w/",
        Attribute::EmptyCommit => b"%e/",
    }
}
