//! Rendering trees.
ghost use Rattle.std.specs.Prelude.{◌≡◌, ◌++◌, IfOk, OnOk, string_bytes};
ghost use Rattle.camp_notation.specs.Trees.{file_notation, tree_notation};

use crate::words::{append_lines, append_separator, append_word};
use camp_base::{Line, Path, Tree};
use camp_share::SharedList;
use std::alloc::{AllocError, Global};

/// Renders a tree, as `{d/e: [], f: [one, two]}`.
pub fn tree_text(alloc: Global, tree: &Tree) -> Result<String, AllocError>
    ensures exact { IfOk result (λ text. string_bytes text ≡ tree_notation tree.now) }
{
    let mut text = String::new(alloc);
    text.push('{')?;
    for at in 0..tree.len() {
        let Some((path, lines)) = tree.at(at) else {
            unreachable!();
        };
        append_separator(&mut text, at)?;
        append_file(&mut text, path, lines)?;
    }
    text.push('}')?;
    Ok(text)
}

fn append_file(text: &mut String, path: &Path, lines: &SharedList<Line>) -> Result<(), AllocError>
    ensures { OnOk result (string_bytes text.new ≡ string_bytes text.old ++ file_notation (path.now, lines.now)) }
{
    append_word(text, path.bytes())?;
    text.push_str(": ")?;
    let copies = lines.to_vec()?;
    append_lines(text, &copies)
}
