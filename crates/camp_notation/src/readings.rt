//! Reading words, primitives, lists and trees.
ghost use Rattle.std.specs.Prelude.{◌≡◌, IfOk};
ghost use Rattle.camp_notation.specs.Lists.{list_text};
ghost use Rattle.camp_notation.specs.Patches.{label_text, named_text};
ghost use Rattle.camp_notation.specs.Trees.{tree_notation};
ghost use Rattle.camp_notation.specs.Words.{lines_text, word_text};

use crate::cursors::Cursor;
use crate::patches::first_with;
use crate::rows::{CURLY, Row, SQUARE, read_row};
use crate::{NotationError, label_text, lines_text, list_text, named_text, tree_text, word_text};
use camp_base::{Line, Name, Path, Tree};
use camp_prim::{Label, Named, Primitive};
use camp_seq::Seq;
use std::alloc::Global;

/// Parses a labelled primitive. A label alone represents the first of the known primitives with that label.
pub fn read_named(alloc: Global, known: &[Named], text: &[u8]) -> Result<Named, NotationError>
    ensures text { IfOk result (λ p. text.now ≡ named_text known.now p) }
{
    let mut cursor = Cursor::new(alloc, known, text);
    let p = read_item(&mut cursor)?;
    cursor.expect_written(text, named_text(alloc, known, &p))?;
    Ok(p)
}

/// Parses a list.
pub fn read_list(alloc: Global, known: &[Named], text: &[u8]) -> Result<Seq, NotationError>
    ensures text { IfOk result (λ s. text.now ≡ list_text known.now s) }
{
    let mut cursor = Cursor::new(alloc, known, text);
    let s = read_items(&mut cursor)?;
    cursor.expect_written(text, list_text(alloc, known, &s))?;
    Ok(s)
}

/// Parses a tree.
pub fn read_tree(alloc: Global, text: &[u8]) -> Result<Tree, NotationError>
    ensures text { IfOk result (λ tree. text.now ≡ tree_notation tree) }
{
    let mut cursor = Cursor::new(alloc, &[], text);
    let tree = read_files(&mut cursor)?;
    cursor.expect_written(text, tree_text(alloc, &tree))?;
    Ok(tree)
}

/// Parses a word to its bytes.
pub fn read_word(alloc: Global, text: &[u8]) -> Result<Vec<u8>, NotationError>
    ensures text { IfOk result (λ bytes. text.now ≡ word_text bytes.items) }
{
    let mut cursor = Cursor::new(alloc, &[], text);
    let bytes = cursor.word()?;
    cursor.expect_written(text, word_text(alloc, &bytes))?;
    Ok(bytes)
}

/// Parses lines in brackets.
pub fn read_lines(alloc: Global, text: &[u8]) -> Result<Vec<Line>, NotationError>
    ensures text { IfOk result (λ lines. text.now ≡ lines_text lines.items) }
{
    let mut cursor = Cursor::new(alloc, &[], text);
    let lines = read_row_of_lines(&mut cursor)?;
    cursor.expect_written(text, lines_text(alloc, &lines))?;
    Ok(lines)
}

/// Parses a label.
pub fn read_label(alloc: Global, text: &[u8]) -> Result<Label, NotationError>
    ensures text { IfOk result (λ label. text.now ≡ label_text label) }
{
    let mut cursor = Cursor::new(alloc, &[], text);
    let label = read_label_there(&mut cursor)?;
    let copy = label;
    cursor.expect_written(text, label_text(alloc, copy))?;
    Ok(label)
}

fn read_files(cursor: &mut Cursor) -> Result<Tree, NotationError> {
    read_row(Tree::empty(cursor.alloc), CURLY, cursor)
}

impl Row for Tree {
    fn read_next(&mut self, cursor: &mut Cursor) -> Result<(), NotationError> {
        let path = read_path(cursor)?;
        cursor.expect(b": ", ':')?;
        let lines = read_row_of_lines(cursor)?;
        self.add_file(&path)?;
        Ok(self.splice(&path, 1, &[], &lines)?)
    }
}

fn read_path(cursor: &mut Cursor) -> Result<Path, NotationError> {
    let word = cursor.word()?;
    Ok(Path::new(cursor.alloc, &word)?)
}

pub(crate) fn read_items(cursor: &mut Cursor) -> Result<Seq, NotationError> {
    read_row(Seq::empty(cursor.alloc), SQUARE, cursor)
}

impl Row for Seq {
    fn read_next(&mut self, cursor: &mut Cursor) -> Result<(), NotationError> {
        let p = read_item(cursor)?;
        Ok(self.push(p)?)
    }
}

pub(crate) fn read_item(cursor: &mut Cursor) -> Result<Named, NotationError> {
    let label = read_label_there(cursor)?;
    if !cursor.take(b" ") {
        return known_item(cursor.known, label);
    }
    let prim = read_change(cursor)?;
    Ok(Named {
        name: label.name,
        place: label.place,
        inverse: label.inverse,
        prim,
    })
}

fn known_item(known: &[Named], label: Label) -> Result<Named, NotationError> {
    match first_with(known, label) {
        Some(p) => Ok(p.try_clone()?),
        None => Err(NotationError::UnknownLabel),
    }
}

fn read_label_there(cursor: &mut Cursor) -> Result<Label, NotationError> {
    let name = Name::new(cursor.name())?;
    let place = read_place(cursor)?;
    let inverse = cursor.take(b"^");
    Ok(Label {
        name,
        place,
        inverse,
    })
}

fn read_place(cursor: &mut Cursor) -> Result<u8, NotationError> {
    if !cursor.take(b".") {
        return Ok(1);
    }
    let place = u8::try_from(cursor.number()?);
    place.ok().ok_or(NotationError::BadNumber)
}

// Parses `add PATH`, `remove PATH`, or `PATH LINE [OLD, ..] -> [NEW, ..]`. Which of them it is depends on what follows
// the second word, so that a path may be called `add`.
fn read_change(cursor: &mut Cursor) -> Result<Primitive, NotationError> {
    let first = cursor.word()?;
    read_behind(&first, cursor)
}

fn read_behind(first: &[u8], cursor: &mut Cursor) -> Result<Primitive, NotationError> {
    cursor.expect(b" ", ' ')?;
    let second = cursor.word()?;
    if cursor.take(b" ") {
        read_hunk(first, &second, cursor)
    } else {
        change_of(cursor.alloc, first, &second)
    }
}

fn change_of(alloc: Global, word: &[u8], path: &[u8]) -> Result<Primitive, NotationError> {
    let path = Path::new(alloc, path)?;
    match word {
        b"add" => Ok(Primitive::Add(path)),
        b"remove" => Ok(Primitive::Remove(path)),
        _ => Err(NotationError::NoChange),
    }
}

fn read_hunk(path: &[u8], line: &[u8], cursor: &mut Cursor) -> Result<Primitive, NotationError> {
    let path = Path::new(cursor.alloc, path)?;
    let (line, old, new) = read_sides(line, cursor)?;
    let change = Primitive::hunk(path, line, old, new).ok_or(NotationError::NoHunk)?;
    Ok(change.into_shared(cursor.alloc)?)
}

// Parses the line of a hunk, which is `line`, and its two sides.
fn read_sides(
    line: &[u8],
    cursor: &mut Cursor,
) -> Result<(u32, Vec<Line>, Vec<Line>), NotationError> {
    let line = read_number(cursor.alloc, line)?;
    let old = read_row_of_lines(cursor)?;
    let new = read_new_side(cursor)?;
    Ok((line, old, new))
}

fn read_new_side(cursor: &mut Cursor) -> Result<Vec<Line>, NotationError> {
    cursor.expect(b" -> ", '-')?;
    read_row_of_lines(cursor)
}

fn read_number(alloc: Global, digits: &[u8]) -> Result<u32, NotationError> {
    let mut cursor = Cursor::new(alloc, &[], digits);
    let number = cursor.number()?;
    cursor.expect_end()?;
    Ok(number)
}

fn read_row_of_lines(cursor: &mut Cursor) -> Result<Vec<Line>, NotationError> {
    read_row(Vec::new(cursor.alloc), SQUARE, cursor)
}

impl Row for Vec<Line> {
    fn read_next(&mut self, cursor: &mut Cursor) -> Result<(), NotationError> {
        let word = cursor.word()?;
        Ok(self.push(Line::new(cursor.alloc, &word)?)?)
    }
}
