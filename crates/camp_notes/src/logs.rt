//! Notes in the order in which they were given.
ghost use Rattle.std.specs.Prelude.{◌≡◌, ◌++◌, ◌∷◌, [], drop, length, OnErr, OnOk};
ghost use Rattle.std.specs.FinMap.{empty};
ghost use Rattle.camp_notes.specs.Logs.{notes_placed};
ghost use Rattle.camp_notes.specs.Notes.{with_notes};

use crate::{Note, Notes};
use std::alloc::{AllocError, Global};
use std::marker::Model;

/// A note, and the number of calls that were accepted before it.
#[derive(Drop)]
pub struct PlacedNote {
    pub at: usize,
    pub note: Note,
}

/// The notes of a repository, in the order in which they were given. Of several notes of one name the last counts.
#[derive(Drop)]
pub struct NoteLog {
    placed: Vec<PlacedNote>,
    /// The notes that count, by their names.
    texts: Notes,
}

impl Model for NoteLog {
    ghost use Rattle.std.specs.Prelude.{List, ◌≡◌};
    ghost use Rattle.std.specs.FinMap.{empty};
    ghost use Rattle.camp_notes.specs.Logs.{notes_placed};
    ghost use Rattle.camp_notes.specs.Notes.{with_notes};
    ghost use Rattle.camp_notes.specs.declared.logs.PlacedNote.{PlacedNote};

    ghost Value = { List PlacedNote };

    ghost view = { λ log. log.placed.items };

    ghost invariant = { λ log. log.texts ≡ with_notes empty (notes_placed log.placed.items) };
}

impl NoteLog {
    /// Makes a log without notes.
    pub fn new(alloc: Global) -> NoteLog
        ensures exact { result ≡ [] }
    {
        NoteLog {
            placed: Vec::new(alloc),
            texts: Notes::new(alloc),
        }
    }

    /// Returns all notes, in order.
    pub fn placed(&self) -> &[PlacedNote]
        ensures exact { result.now ≡ self.now }
    {
        &self.placed
    }

    /// Returns the notes that count.
    pub fn notes(&self) -> &Notes
        ensures exact { result.now ≡ with_notes empty (notes_placed self.now) }
    {
        &self.texts
    }

    /// Adds a note after this number of calls, which is whatever the caller says. If memory runs out, nothing changes, and
    /// the given note is dropped.
    pub fn push(&mut self, at: usize, note: Note) -> Result<(), AllocError>
        ensures exact { OnOk result (self.new ≡ self.old ++ record { at = at; note = note } ∷ []) }
        ensures same { OnErr result (self.new ≡ self.old) }
    {
        let mut texts = self.texts.try_clone()?;
        texts.insert(note.try_clone()?)?;
        self.placed.push(PlacedNote { at, note })?;
        self.texts = texts;
        Ok(())
    }
}
