//! The text of a history, and the words of its calls.
ghost use Rattle.std.specs.Prelude.{◌≡◌, ◌∷◌, ◌++◌, IfOk, OnOk};
ghost use Rattle.std.specs.List.{join_with_byte};
ghost use Rattle.camp_base.specs.Signs.{space};
ghost use Rattle.camp_script.specs.Canonical.{AreNames};
ghost use Rattle.camp_script.specs.HistoryTexts.{change_words, changes_words, call_words, entry_text, history_text};
ghost use Rattle.camp_script.specs.Inside.Spaces.{spaced};
ghost use Rattle.camp_script.specs.Inside.Written.{CanBeOnLine};
ghost use Rattle.camp_script.specs.Writing.{Writes};

use crate::WriteFault;
use crate::spaces::{append_count, append_named, append_number, append_words};
use crate::texts::write_made;
use camp_base::Name;
use camp_call::Call;
use camp_prim::Primitive;
use itoa::Buffer;
use std::alloc::{AllocError, Global};
use std::io::Write;

/// Writes the text of a history. If memory runs out nothing is written; if the writer fails, a prefix of the
/// text is.
pub fn write_history<W: Write>(
    alloc: Global,
    history: &[(u32, Call)],
    writer: &mut W,
) -> Result<(), WriteFault>
    ensures writes { Writes (W.contents writer.old) (history_text history.now) result (W.contents writer.new) }
{
    write_made(writer, history_text(alloc, history))
}

/// Renders a history.
pub fn history_text(alloc: Global, history: &[(u32, Call)]) -> Result<Vec<u8>, AllocError>
    ensures text { IfOk result (λ text. text.items ≡ history_text history.now) }
{
    let mut text = Vec::new(alloc);
    append_history(&mut text, history)?;
    Ok(text)
}

pub(crate) fn append_history(text: &mut Vec<u8>, history: &[(u32, Call)]) -> Result<(), AllocError>
    ensures { OnOk result (text.new.items ≡ text.old.items ++ history_text history.now) }
{
    append_count(text, b"history", history.len() as u64)?;
    let mut at = 0;
    for (seat, call) in history {
        at += 1;
        append_entry(text, at, *seat, call)?;
    }
    Ok(())
}

fn append_entry(text: &mut Vec<u8>, at: u64, seat: u32, call: &Call) -> Result<(), AllocError>
    ensures { OnOk result (text.new.items ≡ text.old.items ++ entry_text at (seat, call.now)) }
{
    text.extend_from_slice(Buffer::new().format(at).as_bytes())?;
    append_number(text, u64::from(seat))?;
    text.push(b' ')?;
    append_call_words(text, call)?;
    Ok(text.push(b'\n')?)
}

/// Appends the words of a call, as in a history, with one space between each two.
pub(crate) fn append_call_words(text: &mut Vec<u8>, call: &Call) -> Result<(), AllocError>
    ensures text { OnOk result (text.new.items ≡ text.old.items ++ join_with_byte space (call_words call.now)) }
    ensures stands { IfOk result (λ _. CanBeOnLine call.now) }
{
    match call {
        Call::Branch { new, from } => append_command(text, b"branch", &[*new, *from], &[]),
        Call::Record {
            branch,
            name,
            changes,
        } => {
            append_command(text, b"record", &[*branch, *name], &[])?;
            append_changes_words(text, changes.prims())
        }
        Call::Pull { from, to, names } => match names {
            None => append_command(text, b"pull", &[*from, *to], &[]),
            Some(names) => append_command(text, b"pull", &[*from, *to], names.as_slice()),
        },
        Call::Obliterate { branch, names } => {
            append_command(text, b"obliterate", &[*branch], names.as_slice())
        }
        Call::Tree(branch) => append_command(text, b"tree", &[*branch], &[]),
        Call::Conflicts(branch) => append_command(text, b"conflicts", &[*branch], &[]),
        Call::Names(branch) => append_command(text, b"names", &[*branch], &[]),
    }
}

// Appends the word of a command, names, and listed names.
fn append_command(
    text: &mut Vec<u8>,
    word: &[u8],
    names: &[Name],
    listed: &[Name],
) -> Result<(), AllocError>
    ensures text { OnOk result (text.new.items ≡ text.old.items ++ join_with_byte space (word.now ∷ names.now ++ listed.now)) }
    ensures names { IfOk result (λ _. AreNames names.now × AreNames listed.now) }
{
    text.extend_from_slice(word)?;
    append_named(text, names)?;
    append_named(text, listed)
}

fn append_changes_words(text: &mut Vec<u8>, changes: &[Primitive]) -> Result<(), AllocError>
    ensures { OnOk result (text.new.items ≡ text.old.items ++ spaced (changes_words changes.now)) }
{
    match changes {
        [change] => append_change_words(text, change),
        _ => {
            append_words(text, &[b"group"])?;
            append_number(text, changes.len() as u64)
        }
    }
}

fn append_change_words(text: &mut Vec<u8>, change: &Primitive) -> Result<(), AllocError>
    ensures { OnOk result (text.new.items ≡ text.old.items ++ spaced (change_words change.now)) }
{
    match change {
        Primitive::Add(path) => append_words(text, &[b"add".as_slice(), path.bytes()]),
        Primitive::Remove(path) => append_words(text, &[b"remove".as_slice(), path.bytes()]),
        Primitive::Hunk(hunk) => {
            append_words(text, &[b"edit".as_slice(), hunk.path().bytes()])?;
            append_number(text, u64::from(hunk.line()))?;
            append_number(text, hunk.old().len() as u64)?;
            append_number(text, hunk.new().len() as u64)
        }
    }
}
