//! The canonical text of calls, in the form of a script.
ghost use Rattle.std.specs.Prelude.{◌≡◌, ◌++◌, false, IfErr, IfOk, IsTrue, OnOk};
ghost use Rattle.std.specs.List.{flat_map, AllByRecursion};
ghost use Rattle.camp_base.specs.Bytes.{is_name};
ghost use Rattle.camp_prim.specs.declared.primitives.Primitive.TheVariants as primitive;
ghost use Rattle.camp_script.specs.Canonical.{canonical_change, call_text, record_text, section_text, AreLines, IsChange, IsScriptCall};
ghost use Rattle.camp_script.specs.Inside.Written.{patch_text};
ghost use Rattle.camp_script.specs.Keeping.{CanBeInScript, ListsNames, calls_of, kept_text};
ghost use Rattle.camp_script.specs.Texts.{signed_line};

use crate::CallFault;
use crate::histories::append_call_words;
use crate::spaces::{append_line, append_named};
use crate::texts::append_signed_line;
use camp_base::{Line, Name};
use camp_call::Call;
use camp_prim::{Hunk, Primitive};
use itoa::Buffer;
use std::alloc::{AllocError, Global};

/// Renders a call in the form of a script, with the bodies of its edits. No script can contain a call whose
/// list of names is empty.
pub fn call_text(alloc: Global, call: &Call) -> Result<Vec<u8>, CallFault>
    ensures text { IfOk result (λ text. text.items ≡ call_text call.now) }
    ensures stands { IfOk result (λ _. IsScriptCall call.now) }
    ensures unnamed { IfErr result (λ why. why ≡ CallFault.NoNames → ListsNames call.now → ⊥) }
{
    if !lists_names(call) {
        return Err(CallFault::NoNames);
    }
    Ok(accepted_text(alloc, call)?)
}

/// Renders an accepted call, as `call_text` does. No repository accepts a call whose list of names is empty;
/// such a call is rendered as if it had no list.
pub fn accepted_text(alloc: Global, call: &Call) -> Result<Vec<u8>, AllocError>
    ensures text { IfOk result (λ text. text.items ≡ call_text call.now) }
    ensures stands { IfOk result (λ _. CanBeInScript call.now) }
{
    let mut text = Vec::new(alloc);
    append_call(&mut text, call)?;
    Ok(text)
}

/// Renders calls as a section of a script, each as `call_text` does.
pub fn section_text(alloc: Global, calls: &[Call]) -> Result<Vec<u8>, CallFault>
    ensures text { IfOk result (λ text. text.items ≡ section_text calls.now) }
    ensures stand { IfOk result (λ _. AllByRecursion IsScriptCall calls.now) }
    ensures unnamed { IfErr result (λ why. why ≡ CallFault.NoNames → AllByRecursion ListsNames calls.now → ⊥) }
{
    let mut text = Vec::new(alloc);
    for call in calls {
        if !lists_names(call) {
            return Err(CallFault::NoNames);
        }
        append_call(&mut text, call)?;
    }
    Ok(text)
}

/// Renders the text that stores a history: a script of one section with its calls in order. The seats are not
/// stored.
pub fn kept_text(alloc: Global, history: &[(u32, Call)]) -> Result<Vec<u8>, AllocError>
    ensures text { IfOk result (λ text. text.items ≡ kept_text history.now) }
    ensures stand { IfOk result (λ _. AllByRecursion CanBeInScript (calls_of history.now)) }
{
    let mut text = Vec::new(alloc);
    for entry in history {
        append_call(&mut text, &entry.1)?;
    }
    Ok(text)
}

/// Renders changes in the form of a group, with the bodies of their edits.
pub fn changes_text(alloc: Global, changes: &[Primitive]) -> Result<Vec<u8>, AllocError>
    ensures text { IfOk result (λ text. text.items ≡ flat_map canonical_change changes.now) }
    ensures changes { IfOk result (λ _. AllByRecursion IsChange changes.now) }
{
    let mut text = Vec::new(alloc);
    append_changes(&mut text, changes)?;
    Ok(text)
}

// True if a call that lists names lists at least one.
fn lists_names(call: &Call) -> bool
    ensures listed { IsTrue result → ListsNames call.now }
    ensures unlisted { result ≡ false → ListsNames call.now → ⊥ }
{
    match call {
        Call::Pull {
            names: Some(names),
            ..
        } => !names.as_slice().is_empty(),
        Call::Obliterate { names, .. } => !names.as_slice().is_empty(),
        _ => true,
    }
}

fn append_call(text: &mut Vec<u8>, call: &Call) -> Result<(), AllocError>
    ensures text { OnOk result (text.new.items ≡ text.old.items ++ call_text call.now) }
    ensures stands { IfOk result (λ _. CanBeInScript call.now) }
{
    match call {
        Call::Record {
            branch,
            name,
            changes,
        } => append_record(text, *branch, *name, changes.prims()),
        other => {
            append_call_words(text, other)?;
            Ok(text.push(b'\n')?)
        }
    }
}

fn append_record(
    text: &mut Vec<u8>,
    branch: Name,
    name: Name,
    changes: &[Primitive],
) -> Result<(), AllocError>
    ensures text { OnOk result (text.new.items ≡ text.old.items ++ record_text branch name changes.now) }
    ensures names { IfOk result (λ _. IsTrue (is_name branch) × IsTrue (is_name name)) }
    ensures changes { IfOk result (λ _. AllByRecursion IsChange changes.now) }
{
    text.extend_from_slice(b"record")?;
    append_named(text, &[branch, name])?;
    text.push(b' ')?;
    append_patch(text, changes)
}

// Renders a single change, or those of a group.
fn append_patch(text: &mut Vec<u8>, changes: &[Primitive]) -> Result<(), AllocError>
    ensures text { OnOk result (text.new.items ≡ text.old.items ++ patch_text changes.now) }
    ensures changes { IfOk result (λ _. AllByRecursion IsChange changes.now) }
{
    match changes {
        [change] => append_change(text, change),
        _ => {
            append_line(text, b"group", &[])?;
            append_changes(text, changes)?;
            append_line(text, b"done", &[])
        }
    }
}

fn append_changes(text: &mut Vec<u8>, changes: &[Primitive]) -> Result<(), AllocError>
    ensures text { OnOk result (text.new.items ≡ text.old.items ++ flat_map canonical_change changes.now) }
    ensures changes { IfOk result (λ _. AllByRecursion IsChange changes.now) }
{
    for change in changes {
        append_change(text, change)?;
    }
    Ok(())
}

// Renders a change with its body.
fn append_change(text: &mut Vec<u8>, change: &Primitive) -> Result<(), AllocError>
    ensures text { OnOk result (text.new.items ≡ text.old.items ++ canonical_change change.now) }
    ensures change { IfOk result (λ _. IsChange change.now) }
{
    match change {
        Primitive::Add(path) => append_line(text, b"add", &[path.bytes()]),
        Primitive::Remove(path) => append_line(text, b"remove", &[path.bytes()]),
        Primitive::Hunk(hunk) => append_edit(text, hunk),
    }
}

fn append_edit(text: &mut Vec<u8>, hunk: &Hunk) -> Result<(), AllocError>
    ensures text { OnOk result (text.new.items ≡ text.old.items ++ canonical_change (primitive.Hunk hunk.now)) }
    ensures change { IfOk result (λ _. IsChange (primitive.Hunk hunk.now)) }
{
    let mut place = Buffer::new();
    let words = [hunk.path().bytes(), place.format(hunk.line()).as_bytes()];
    append_line(text, b"edit", &words)?;
    append_side(text, b'-', hunk.old())?;
    append_side(text, b'+', hunk.new())?;
    append_line(text, b"end", &[])
}

fn append_side(text: &mut Vec<u8>, sign: u8, lines: &[Line]) -> Result<(), AllocError>
    ensures text { OnOk result (text.new.items ≡ text.old.items ++ flat_map (signed_line sign) lines.now) }
    ensures lines { IfOk result (λ _. AreLines lines.now) }
{
    for line in lines {
        append_signed_line(text, sign, line)?;
    }
    Ok(())
}
