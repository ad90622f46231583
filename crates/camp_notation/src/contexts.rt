//! Rendering contexted patches and sets.
ghost use Rattle.std.specs.Prelude.{◌≡◌, ◌++◌, IfOk, OnOk, string_bytes};
ghost use Rattle.std.specs.FinMap.{values};
ghost use Rattle.camp_notation.specs.Contexts.{context_text, contexted_text, set_text};
ghost use Rattle.camp_notation.specs.Words.{row};

use crate::lists::append_list;
use crate::patches::append_named;
use crate::words::append_separator;
use camp_ctx::{Contexted, CtxSet};
use camp_prim::Named;
use std::alloc::{AllocError, Global};

/// Renders a contexted patch, as `:p`, `p:q` and `[a, b]:q`. Known primitives are rendered by their labels
/// alone.
pub fn contexted_text(alloc: Global, known: &[Named], x: &Contexted) -> Result<String, AllocError>
    ensures exact { IfOk result (λ text. string_bytes text ≡ contexted_text known.now x.now) }
{
    let mut text = String::new(alloc);
    append_contexted(&mut text, known, x)?;
    Ok(text)
}

/// Renders a set of contexted patches in the order of their labels, as `{:p, p:q}`.
pub fn set_text(alloc: Global, known: &[Named], xs: &CtxSet) -> Result<String, AllocError>
    ensures exact { IfOk result (λ text. string_bytes text ≡ set_text known.now xs.now) }
{
    let mut text = String::new(alloc);
    append_set(&mut text, known, xs)?;
    Ok(text)
}

pub(crate) fn append_contexted(
    text: &mut String,
    known: &[Named],
    x: &Contexted,
) -> Result<(), AllocError>
    ensures { OnOk result (string_bytes text.new ≡ string_bytes text.old ++ contexted_text known.now x.now) }
{
    append_context(text, known, x.context().items())?;
    text.push(':')?;
    append_named(text, known, x.patch())
}

fn append_context(text: &mut String, known: &[Named], context: &[Named]) -> Result<(), AllocError>
    ensures { OnOk result (string_bytes text.new ≡ string_bytes text.old ++ context_text known.now context.now) }
{
    match context {
        [] => Ok(()),
        [p] => append_named(text, known, p),
        _ => append_list(text, known, context),
    }
}

pub(crate) fn append_set(text: &mut String, known: &[Named], xs: &CtxSet) -> Result<(), AllocError>
    ensures { OnOk result (string_bytes text.new ≡ string_bytes text.old ++ set_text known.now xs.now) }
{
    text.push('{')?;
    append_members(text, known, xs)?;
    text.push('}')
}

fn append_members(text: &mut String, known: &[Named], xs: &CtxSet) -> Result<(), AllocError>
    ensures { OnOk result
        (string_bytes text.new ≡ string_bytes text.old ++ row (contexted_text known.now) (values xs.now)) }
{
    for at in 0..xs.len() {
        let Some(x) = xs.at(at) else {
            unreachable!();
        };
        append_separator(text, at)?;
        append_contexted(text, known, x)?;
    }
    Ok(())
}
