//! Notes as values.
ghost use Rattle.std.specs.Prelude.{◌≡◌, ◌≤◌, ◌<◌, ◌==◌, IfOk, MatchOption, None, OnErr, OnOk, Some, length};
ghost use Rattle.std.specs.FinMap as map;
ghost use Rattle.std.specs.List.{AllByRecursion};
ghost use Rattle.std.specs.Map.Iter.{ShowsInOrder, deref};
ghost use Rattle.camp_notes.specs.Limits.{longest_note};
ghost use Rattle.camp_notes.specs.Notes.{CanBeNote, notes_in, with_notes};
ghost use Rattle.camp_notes.specs.Texts.{notes_text};

use crate::MAX_NOTE_LENGTH;
use crate::rendering::append_note;
use camp_base::Name;
use camp_share::{Iter, Share, Shared, SharedMap};
use std::alloc::{AllocError, Global};
use std::marker::Model;

/// The text of a note: at most 65,536 bytes.
#[derive(Drop)]
pub struct NoteText {
    bytes: Shared<Vec<u8>>,
}

impl Model for NoteText {
    ghost use Rattle.std.specs.Prelude.{List, ◌≤◌, length, ℕ};
    ghost use Rattle.camp_notes.specs.Limits.{longest_note};

    ghost Value = { List ℕ };

    ghost view = { λ text. text.bytes.items };

    ghost invariant = { λ text. length text.bytes.items ≤ longest_note };
}

impl NoteText {
    /// Makes a text of these bytes; `None` if there are too many.
    pub fn new(alloc: Global, bytes: Vec<u8>) -> Result<Option<NoteText>, AllocError>
        ensures exact { IfOk result (λ made. MatchOption made
            (longest_note < length bytes.items)
            (λ text. (length bytes.items ≤ longest_note) × (text ≡ bytes.items))) }
    {
        if bytes.len() > MAX_NOTE_LENGTH {
            return Ok(None);
        }
        let bytes = Shared::new(alloc, bytes)?;
        Ok(Some(NoteText { bytes }))
    }

    /// Returns the bytes of the text.
    pub fn bytes(&self) -> &[u8]
        ensures value { result.now ≡ self.now }
        ensures short { length self.now ≤ longest_note }
    {
        self.bytes.as_slice()
    }

    /// Copies the text: increments one reference count; does not allocate.
    pub fn try_clone(&self) -> Result<NoteText, AllocError>
        ensures exact { IfOk result (λ copy. copy ≡ self.now) }
    {
        self.share()
    }
}

impl Share for NoteText {
    fn share(&self) -> Result<NoteText, AllocError> {
        let bytes = self.bytes.share()?;
        Ok(NoteText { bytes })
    }
}

/// A note: the name of a patch, and a text about it.
#[derive(Drop)]
pub struct Note {
    pub name: Name,
    pub text: NoteText,
}

/// The notes of a repository: at most one for each name, sorted by the bytes of the names. A patch need not exist.
#[derive(Drop)]
pub struct Notes {
    texts: SharedMap<Name, NoteText>,
}

impl Model for Notes {
    ghost use Rattle.std.specs.Ordering.{nat_cmp};
    ghost use Rattle.std.specs.Cmp.Lexicographic.{slice_cmp};
    ghost use Rattle.std.specs.FinMap as map;
    ghost use Rattle.std.specs.Coded.{coded_ℕ, coded_list};
    ghost use Rattle.camp_share.specs.Maps.{map_of};
    ghost use Rattle.camp_notes.specs.Notes.{NoteTexts};

    ghost Value = { NoteTexts };

    ghost coded = { map.code (coded_list coded_ℕ) (coded_list coded_ℕ) };

    ghost view = { λ notes. map_of (slice_cmp nat_cmp) notes.texts };
}

impl Notes {
    /// Makes a map without notes.
    pub fn new(alloc: Global) -> Notes
        ensures exact { result ≡ map.empty }
    {
        Notes {
            texts: SharedMap::new(alloc),
        }
    }

    /// Returns the number of notes.
    pub fn len(&self) -> usize
        ensures exact { result ≡ map.len self.now }
    {
        self.texts.len()
    }

    /// True if there are no notes.
    pub fn is_empty(&self) -> bool
        ensures exact { result ≡ (map.len self.now == 0) }
    {
        self.len() == 0
    }

    /// Returns the note of a patch.
    pub fn get(&self, name: &Name) -> Option<&NoteText>
        ensures exact { MatchOption result
            (map.get self.now name.now ≡ None)
            (λ text. map.get self.now name.now ≡ Some text.now) }
    {
        let text = self.texts.get(name)?;
        Some(text)
    }

    /// Iterates over the notes in the order of their names.
    pub fn iter(&self) -> Iter<'_, (Name, NoteText)>
        ensures rest { result ≡ map.entries self.now }
        ensures runs { ShowsInOrder (deref {X = Name × NoteText}) }
    {
        self.texts.iter()
    }

    /// Sets the note of a patch; an empty text is a note, and nothing removes one. If memory runs out, nothing changes, and
    /// the given note is dropped.
    pub fn insert(&mut self, note: Note) -> Result<(), AllocError>
        ensures exact { OnOk result (self.new ≡ map.insert self.old note.name note.text) }
        ensures same { OnErr result (self.new ≡ self.old) }
    {
        self.texts = self.texts.inserted(note.name, note.text)?;
        Ok(())
    }

    /// Returns the notes after more notes, of which the last of each name counts.
    pub fn inserted_all(&self, notes: &[Note]) -> Result<Notes, AllocError>
        ensures exact { IfOk result (λ new. new ≡ with_notes self.now notes.now) }
    {
        let mut all = self.try_clone()?;
        for note in notes {
            all.insert(note.try_clone()?)?;
        }
        Ok(all)
    }

    /// Renders the notes in the order of their names.
    pub fn to_text(&self, alloc: Global) -> Result<Vec<u8>, AllocError>
        ensures exact { IfOk result (λ text. text.items ≡ notes_text (notes_in self.now)) }
        ensures can { IfOk result (λ _. AllByRecursion CanBeNote (notes_in self.now)) }
    {
        let mut text = Vec::new(alloc);
        for (name, note) in self.iter() {
            append_note(&mut text, name, note)?;
        }
        Ok(text)
    }

    /// Copies the notes, which share all texts with the copy.
    pub fn try_clone(&self) -> Result<Notes, AllocError>
        ensures exact { IfOk result (λ copy. copy ≡ self.now) }
    {
        let texts = self.texts.share()?;
        Ok(Notes { texts })
    }
}

impl Share for Notes {
    fn share(&self) -> Result<Notes, AllocError> {
        self.try_clone()
    }
}

impl Note {
    /// Copies the note, which shares its text with the copy.
    pub fn try_clone(&self) -> Result<Note, AllocError>
        ensures exact { IfOk result (λ copy. copy ≡ self.now) }
    {
        let text = self.text.try_clone()?;
        Ok(Note {
            name: self.name,
            text,
        })
    }
}
