//! Rendering of answers, and writing of texts.
ghost use Rattle.std.specs.Prelude.{◌≡◌, ◌∷◌, ◌++◌, codes, List, IfOk, IsTrue, MatchResult, OnOk, ℕ};
ghost use Rattle.std.specs.List.{flat_map};
ghost use Rattle.std.specs.Io.KnownBytes.{Appends};
ghost use Rattle.camp_base.specs.Bytes.{is_line};
ghost use Rattle.camp_script.specs.Texts.{line_text, refusal_words, signed_line, file_text, tree_text, reply_text, answer_text, HasText, pair_text, name_text};
ghost use Rattle.camp_script.specs.Writing.{AppendsProperPrefix, Writes};

use crate::WriteFault;
use crate::spaces::{append_count, append_line, append_numbered};
use camp_base::{Line, Name, Path, Tree};
use camp_call::{Refusal, Reply};
use camp_object::Fault;
use camp_share::SharedList;
use itoa::Buffer;
use std::alloc::{AllocError, Global};
use std::io;
use std::io::{ErrorKind, Write};

/// Writes the text of the answer to a call: a reply, or that the object was busy or the seat full. If memory runs out,
/// nothing is written; if the writer fails, a prefix of the text is.
pub fn write_reply<W: Write>(
    alloc: Global,
    answer: &Result<Reply, Fault>,
    writer: &mut W,
) -> Result<(), WriteFault>
    requires { HasText answer.now }
    ensures writes { Writes (W.contents writer.old) (answer_text answer.now) result (W.contents writer.new) }
{
    write_made(writer, answer_text(alloc, answer))
}

/// Writes a rendered text; if memory ran out while it was rendered, writes nothing.
pub(crate) fn write_made<W: Write>(
    writer: &mut W,
    made: Result<Vec<u8>, AllocError>,
) -> Result<(), WriteFault>
    ensures { (text : List ℕ) → IfOk made (λ made. made.items ≡ text) → Writes (W.contents writer.old) text result (W.contents writer.new) }
{
    let Ok(text) = made else {
        return Err(WriteFault::Memory);
    };
    match write_text(writer, &text) {
        Ok(()) => Ok(()),
        Err(error) => Err(WriteFault::Write(error)),
    }
}

/// Writes all bytes of a text. If the writer fails, a proper prefix of the text is written. Retries a writer
/// that is interrupted.
pub fn write_text<W: Write>(writer: &mut W, text: &[u8]) -> io::Result<()>
    ensures writes { MatchResult result
        (λ _. Appends (W.contents writer.old) (W.contents writer.new) text.now)
        (λ _. AppendsProperPrefix (W.contents writer.old) (W.contents writer.new) text.now) }
{
    let mut rest = text;
    for _ in 0..u64::MAX {
        if rest.is_empty() {
            break;
        }
        match writer.write(rest) {
            Ok(0) => return Err(ErrorKind::WriteZero.into()),
            Ok(count) => rest = &rest[count..],
            Err(error) if error.kind() == ErrorKind::Interrupted => {}
            Err(error) => return Err(error),
        }
    }
    if rest.is_empty() {
        return Ok(());
    }
    Err(ErrorKind::TimedOut.into())
}

/// Renders the answer to a call.
pub fn answer_text(alloc: Global, answer: &Result<Reply, Fault>) -> Result<Vec<u8>, AllocError>
    requires { HasText answer.now }
    ensures text { IfOk result (λ text. text.items ≡ answer_text answer.now) }
{
    let mut text = Vec::new(alloc);
    append_answer(&mut text, answer)?;
    Ok(text)
}

pub(crate) fn append_answer(
    text: &mut Vec<u8>,
    answer: &Result<Reply, Fault>,
) -> Result<(), AllocError>
    requires { HasText answer.now }
    ensures { OnOk result (text.new.items ≡ text.old.items ++ answer_text answer.now) }
{
    match answer {
        Ok(reply) => append_reply(text, reply),
        Err(Fault::Busy { lost }) => append_count(text, b"busy", u64::from(*lost)),
        Err(Fault::Full) => append_line(text, b"full", &[]),
        Err(Fault::Memory) => unreachable!(),
    }
}

/// Renders the reply to a call.
pub fn reply_text(alloc: Global, reply: &Reply) -> Result<Vec<u8>, AllocError>
    ensures text { IfOk result (λ text. text.items ≡ reply_text reply.now) }
{
    let mut text = Vec::new(alloc);
    append_reply(&mut text, reply)?;
    Ok(text)
}

fn append_reply(text: &mut Vec<u8>, reply: &Reply) -> Result<(), AllocError>
    ensures { OnOk result (text.new.items ≡ text.old.items ++ reply_text reply.now) }
{
    match reply {
        Reply::Done(at) => append_count(text, b"ok", *at),
        Reply::Refused(refusal) => append_refusal(text, refusal),
        Reply::Tree(tree) => append_tree(text, tree),
        Reply::Conflicts(conflicts) => {
            append_count(text, b"conflicts", conflicts.pairs().len() as u64)?;
            append_pairs(text, conflicts.pairs())
        }
        Reply::Names(names) => {
            append_count(text, b"names", names.as_slice().len() as u64)?;
            append_names(text, names.as_slice())
        }
    }
}

fn append_refusal(text: &mut Vec<u8>, refusal: &Refusal) -> Result<(), AllocError>
    ensures { OnOk result (text.new.items ≡ text.old.items ++ line_text (codes "refused" ∷ refusal_words refusal.now)) }
{
    match refusal {
        Refusal::NoBranch(branch) => append_numbered(text, b"refused", 4, &[*branch]),
        Refusal::BranchExists(branch) => append_numbered(text, b"refused", 5, &[*branch]),
        Refusal::PatchExists(name) => append_numbered(text, b"refused", 6, &[*name]),
        Refusal::NoPatch(name) => append_numbered(text, b"refused", 7, &[*name]),
        Refusal::NothingToDo => append_numbered(text, b"refused", 8, &[]),
        Refusal::TooLarge => append_numbered(text, b"refused", 9, &[]),
        Refusal::DoesNotApply => append_numbered(text, b"refused", 10, &[]),
        Refusal::Depends { patch, on } => append_numbered(text, b"refused", 11, &[*patch, *on]),
        Refusal::Diverged(name) => append_numbered(text, b"refused", 12, &[*name]),
        Refusal::NoMerge { left, right } => append_numbered(text, b"refused", 13, &[*left, *right]),
        Refusal::SameBranch(branch) => append_numbered(text, b"refused", 14, &[*branch]),
    }
}

/// Appends pairs of names, each on a line. If memory runs out, some pairs may have been appended.
pub fn append_pairs(text: &mut Vec<u8>, pairs: &[(Name, Name)]) -> Result<(), AllocError>
    ensures text { OnOk result (text.new.items ≡ text.old.items ++ flat_map pair_text pairs.now) }
{
    for (first, second) in pairs {
        append_line(text, first.bytes(), &[second.bytes()])?;
    }
    Ok(())
}

/// Appends names, each on a line. If memory runs out, some names may have been appended.
pub fn append_names(text: &mut Vec<u8>, names: &[Name]) -> Result<(), AllocError>
    ensures text { OnOk result (text.new.items ≡ text.old.items ++ flat_map name_text names.now) }
{
    for name in names {
        append_line(text, name.bytes(), &[])?;
    }
    Ok(())
}

fn append_tree(text: &mut Vec<u8>, tree: &Tree) -> Result<(), AllocError>
    ensures { OnOk result (text.new.items ≡ text.old.items ++ tree_text tree.now) }
{
    append_count(text, b"tree", tree.len() as u64)?;
    for (path, lines) in tree.iter() {
        append_file(text, path, lines)?;
    }
    Ok(())
}

fn append_file(text: &mut Vec<u8>, path: &Path, lines: &SharedList<Line>) -> Result<(), AllocError>
    ensures { OnOk result (text.new.items ≡ text.old.items ++ file_text (path.now, lines.now)) }
{
    let mut count = Buffer::new();
    let words = [path.bytes(), count.format(lines.len()).as_bytes()];
    append_line(text, b"file", &words)?;
    append_lines(text, b'=', lines)
}

/// Appends lines, with a sign before each. If memory runs out, some lines may have been appended.
pub fn append_lines(
    text: &mut Vec<u8>,
    sign: u8,
    lines: &SharedList<Line>,
) -> Result<(), AllocError>
    ensures text { OnOk result (text.new.items ≡ text.old.items ++ flat_map (signed_line sign) lines.now) }
{
    for line in lines.iter() {
        append_signed_line(text, sign, line)?;
    }
    Ok(())
}

pub(crate) fn append_signed_line(
    text: &mut Vec<u8>,
    sign: u8,
    line: &Line,
) -> Result<(), AllocError>
    ensures text { OnOk result (text.new.items ≡ text.old.items ++ signed_line sign line.now) }
    ensures line { IfOk result (λ _. IsTrue (is_line line.now)) }
{
    text.push(sign)?;
    text.extend_from_slice(line.bytes())?;
    Ok(text.push(b'\n')?)
}
