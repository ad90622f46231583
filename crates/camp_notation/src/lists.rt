//! Rendering lists of primitives.
ghost use Rattle.std.specs.Prelude.{◌≡◌, ◌++◌, IfOk, OnOk, string_bytes};
ghost use Rattle.camp_notation.specs.Lists.{list_text};

use crate::patches::append_named;
use crate::words::append_separator;
use camp_prim::Named;
use camp_seq::Seq;
use std::alloc::{AllocError, Global};

/// Renders a list of labelled primitives, as `[a add f, p f 1 [] -> [x]]`. Known ones are rendered by their
/// labels alone, as `[a, p^]`.
pub fn list_text(alloc: Global, known: &[Named], s: &Seq) -> Result<String, AllocError>
    ensures exact { IfOk result (λ text. string_bytes text ≡ list_text known.now s.now) }
{
    let mut text = String::new(alloc);
    append_list(&mut text, known, s.items())?;
    Ok(text)
}

pub(crate) fn append_list(text: &mut String, known: &[Named], s: &[Named]) -> Result<(), AllocError>
    ensures { OnOk result (string_bytes text.new ≡ string_bytes text.old ++ list_text known.now s.now) }
{
    text.push('[')?;
    for (at, p) in s.iter().enumerate() {
        append_separator(text, at)?;
        append_named(text, known, p)?;
    }
    text.push(']')
}
