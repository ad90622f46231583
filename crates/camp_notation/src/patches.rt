//! Rendering labels and primitives.
ghost use Rattle.std.specs.Prelude.{◌≡◌, ◌++◌, option_copied, IfOk, OnOk, string_bytes};
ghost use Rattle.camp_notation.specs.Patches.{change_text, first_with, has_text, hunk_text, label_text, named_text, place_text, sign_text, whole_text};

use crate::words::{append_lines, append_word};
use camp_prim::{Hunk, Label, Named, Primitive};
use itoa::Buffer;
use std::alloc::{AllocError, Global};
use std::fmt::Write;

/// Renders a label as `NAME.PLACE^`, without the position if it is 1, and without the caret unless it is an
/// inverse.
pub fn label_text(alloc: Global, label: Label) -> Result<String, AllocError>
    ensures exact { IfOk result (λ text. string_bytes text ≡ label_text label) }
{
    let mut text = String::new(alloc);
    append_label(&mut text, label)?;
    Ok(text)
}

/// Renders a labelled primitive: its label and its change, as `a add f`, `a remove f` and `p.2^ f 5 [e] ->
/// [g]`. A known one is rendered by its label alone, if it is the first of them with that label.
pub fn named_text(alloc: Global, known: &[Named], p: &Named) -> Result<String, AllocError>
    ensures exact { IfOk result (λ text. string_bytes text ≡ named_text known.now p.now) }
{
    let mut text = String::new(alloc);
    append_named(&mut text, known, p)?;
    Ok(text)
}

pub(crate) fn append_named(text: &mut String, known: &[Named], p: &Named) -> Result<(), AllocError>
    ensures { OnOk result (string_bytes text.new ≡ string_bytes text.old ++ named_text known.now p.now) }
{
    let whole = whole_text(*text.allocator(), p)?;
    if is_known(known, p.label(), &whole)? {
        append_label(text, p.label())
    } else {
        text.push_str(&whole)
    }
}

/// True if a label alone represents the primitive with this text.
fn is_known(known: &[Named], label: Label, whole: &String) -> Result<bool, AllocError>
    ensures { IfOk result (λ found. found ≡ has_text (string_bytes whole.now) (first_with label known.now)) }
{
    match first_with(known, label) {
        Some(k) => Ok(whole_text(*whole.allocator(), k)?.as_bytes() == whole.as_bytes()),
        None => Ok(false),
    }
}

/// Returns the first known primitive with a label, or `None`.
pub(crate) fn first_with(known: &[Named], label: Label) -> Option<&Named>
    ensures { option_copied result ≡ first_with label known.now }
{
    known.iter().find(|k| k.label().cmp(&label).is_eq())
}

fn whole_text(alloc: Global, p: &Named) -> Result<String, AllocError>
    ensures { IfOk result (λ text. string_bytes text ≡ whole_text p.now) }
{
    let mut text = String::new(alloc);
    append_label(&mut text, p.label())?;
    text.push(' ')?;
    append_change(&mut text, &p.prim)?;
    Ok(text)
}

fn append_label(text: &mut String, label: Label) -> Result<(), AllocError>
    ensures { OnOk result (string_bytes text.new ≡ string_bytes text.old ++ label_text label) }
{
    let name = label.name;
    write!(text, "{name}")?;
    append_place(text, label.place)?;
    append_sign(text, label.inverse)
}

fn append_place(text: &mut String, place: u8) -> Result<(), AllocError>
    ensures { OnOk result (string_bytes text.new ≡ string_bytes text.old ++ place_text place) }
{
    if place == 1 {
        return Ok(());
    }
    text.push('.')?;
    text.push_str(Buffer::new().format(place))
}

fn append_sign(text: &mut String, inverse: bool) -> Result<(), AllocError>
    ensures { OnOk result (string_bytes text.new ≡ string_bytes text.old ++ sign_text inverse) }
{
    if !inverse {
        return Ok(());
    }
    text.push('^')
}

fn append_change(text: &mut String, change: &Primitive) -> Result<(), AllocError>
    ensures { OnOk result (string_bytes text.new ≡ string_bytes text.old ++ change_text change.now) }
{
    match change {
        Primitive::Add(path) => {
            text.push_str("add ")?;
            append_word(text, path.bytes())
        }
        Primitive::Remove(path) => {
            text.push_str("remove ")?;
            append_word(text, path.bytes())
        }
        Primitive::Hunk(hunk) => append_hunk(text, hunk),
    }
}

fn append_hunk(text: &mut String, hunk: &Hunk) -> Result<(), AllocError>
    ensures { OnOk result (string_bytes text.new ≡ string_bytes text.old ++ hunk_text hunk.now) }
{
    append_word(text, hunk.path().bytes())?;
    text.push(' ')?;
    text.push_str(Buffer::new().format(hunk.line()))?;
    text.push(' ')?;
    append_lines(text, hunk.old())?;
    text.push_str(" -> ")?;
    append_lines(text, hunk.new())
}
