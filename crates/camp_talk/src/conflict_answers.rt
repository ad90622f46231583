//! Conflicts and their sides as texts.
ghost use Rattle.std.specs.Prelude.{◌≡◌, ◌++◌, IfOk, OnOk};
ghost use Rattle.std.specs.List.{flat_map};
ghost use Rattle.camp_script.specs.Texts.{pair_text};
ghost use Rattle.camp_talk.specs.Inside.Responses.{RendersFound};
ghost use Rattle.camp_talk.specs.QuestionAnswers.{conflict_hunk_text, marked_lines, marks_answer, open_answer, pairs_answer, side_answer, side_text};

use crate::answer_parts::{append_parts, counted_text};
use crate::file_answers::no_file;
use camp_base::Name;
use camp_questions::{Marked, MarkedFile, MarkedHunk, SideChanges, Unanswered, Version};
use camp_repo::Conflicts;
use camp_script::{append_lines, append_pairs, changes_text};
use itoa::Buffer;
use std::alloc::{AllocError, Global};

/// Renders the pairs of patches in an unresolved conflict.
pub(crate) fn render_open(
    alloc: Global,
    found: Result<Conflicts, Unanswered>,
) -> Result<Vec<u8>, Unanswered>
    ensures { RendersFound open_answer found result }
{
    match found {
        Ok(pairs) => Ok(render_pairs(alloc, "open", &pairs)?),
        Err(why) => Err(why),
    }
}

/// Renders pairs of patches as a counted text.
pub(crate) fn render_pairs(
    alloc: Global,
    word: &str,
    pairs: &Conflicts,
) -> Result<Vec<u8>, AllocError>
    ensures { IfOk result (λ text. text.items ≡ pairs_answer word.now pairs.now) }
{
    counted_text(alloc, word, pairs_text(alloc, pairs.pairs()))
}

fn pairs_text(alloc: Global, pairs: &[(Name, Name)]) -> Result<Vec<u8>, AllocError>
    ensures { IfOk result (λ text. text.items ≡ flat_map pair_text pairs.now) }
{
    let mut text = Vec::new(alloc);
    append_pairs(&mut text, pairs)?;
    Ok(text)
}

/// Renders the changes of the side of a patch.
pub(crate) fn render_side(
    alloc: Global,
    found: Result<SideChanges, Unanswered>,
) -> Result<Vec<u8>, Unanswered>
    ensures { RendersFound side_answer found result }
{
    match found {
        Ok(side) => Ok(counted_text(alloc, "side", changes_text(alloc, side.changes()))?),
        Err(why) => Err(why),
    }
}

/// Renders a file with the unresolved sides of its conflicts.
pub(crate) fn render_marks(
    alloc: Global,
    found: Result<Marked, Unanswered>,
) -> Result<Vec<u8>, Unanswered>
    ensures { RendersFound marks_answer found result }
{
    match found {
        Ok(Marked::File(file)) => Ok(counted_text(alloc, "marks", marked_lines(alloc, &file))?),
        Ok(Marked::NoFile) => Ok(no_file(alloc)?),
        Err(why) => Err(why),
    }
}

fn marked_lines(alloc: Global, file: &MarkedFile) -> Result<Vec<u8>, AllocError>
    ensures { IfOk result (λ text. text.items ≡ marked_lines file.now) }
{
    let mut text = Vec::new(alloc);
    for place in file.places() {
        append_conflict_hunk(&mut text, place)?;
    }
    append_lines(&mut text, b'=', file.rest())?;
    Ok(text)
}

fn append_conflict_hunk(text: &mut Vec<u8>, place: &MarkedHunk) -> Result<(), AllocError>
    ensures { OnOk result (text.new.items ≡ text.old.items ++ conflict_hunk_text place.now) }
{
    append_lines(text, b'=', place.before())?;
    let mut digits = Buffer::new();
    let sides = digits.format(place.sides().len()).as_bytes();
    let mut digits = Buffer::new();
    let lines = digits.format(place.lines().len()).as_bytes();
    append_parts(text, &[b"conflict ", sides, b" ", lines, b"\n"])?;
    append_lines(text, b'=', place.lines())?;
    append_sides(text, place.sides())
}

fn append_sides(text: &mut Vec<u8>, sides: &[Version]) -> Result<(), AllocError>
    ensures { OnOk result (text.new.items ≡ text.old.items ++ flat_map side_text sides.now) }
{
    for side in sides {
        append_side(text, side)?;
    }
    Ok(())
}

fn append_side(text: &mut Vec<u8>, side: &Version) -> Result<(), AllocError>
    ensures { OnOk result (text.new.items ≡ text.old.items ++ side_text side.now) }
{
    let mut digits = Buffer::new();
    let lines = digits.format(side.lines.len()).as_bytes();
    append_parts(text, &[b"side ", side.name.bytes(), b" ", lines, b"\n"])?;
    append_lines(text, b'+', &side.lines)
}
