//! The laws of notes.
ghost use Rattle.camp_notes.specs.Laws.{MapsComeBack, NotesMakeTheirMap, TextsTellNotes};

/// Notes with the same text are the same notes, in the same order.
pub fn texts_tell_notes()
    ensures law { TextsTellNotes }
{}

/// The notes of a map, taken one after the other, make the map.
pub fn notes_make_their_map()
    ensures law { NotesMakeTheirMap }
{}

/// The notes that are parsed from the text of a map make the map.
pub fn maps_come_back()
    ensures law { MapsComeBack }
{}
