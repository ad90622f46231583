//! Lines of groups and of bodies.
ghost use Rattle.std.specs.Prelude.{◌≡◌, ◌≢◌, ◌≤◌, ◌<◌, ◌+◌, ◌∷◌, [], if◌then◌else◌, false, IfErr, IfOk, Ok, Some, length, map, nat_lt};
ghost use Rattle.std.specs.Option.{option_map};
ghost use Rattle.camp_base.specs.Bytes.{is_line};
ghost use Rattle.camp_base.specs.Limits.{greatest_reach, most_changes};
ghost use Rattle.camp_prim.specs.Hunks.{IsInRange};
ghost use Rattle.camp_script.specs.declared.faults.FaultKind.TheVariants as kind;
ghost use Rattle.camp_script.specs.Faults.{fault_at};
ghost use Rattle.camp_script.specs.Gives.{Advances, GivesFaultFirst, IsFaultFirst};
ghost use Rattle.camp_script.specs.Inside.Files.{change_at};
ghost use Rattle.camp_script.specs.Inside.ReadingFields.{open_record_of, open_edit_of, edit_so_far, IsOpen, HasRoomFor};
ghost use Rattle.camp_script.specs.Lines.{is_skipped, words_of};
ghost use Rattle.camp_script.specs.Changes.{whole_change, edit_change, change_of, group_line_of, grown, ended_edit};
ghost use Rattle.camp_script.specs.Inside.Asking.{HasRoomForChange, ParsesGroupLine, ended_change, group_line_parsed};
ghost use Rattle.camp_script.specs.Inside.Progress.{after_change, with_call, with_edit, with_one_more, with_record};
ghost use Rattle.camp_call.specs.declared.calls.Call.TheVariants as call;
ghost use Rattle.camp_script.specs.Inside.Steps.{after_group_line, after_parsed_group_line, after_end, after_body, after_record_line, HasMeaningIn};

use crate::faults::{FaultKind, ScriptFault, at_line};
use crate::lines::{Words, first_words, is_comment};
use crate::readings::Reading;
use crate::records::{OpenEdit, OpenRecord, WholeFile};
use crate::words::{no_words, number_at, one_word, path_at, two_words};
use camp_base::{BaseFault, Line, Path};
use camp_call::{Call, Changes, MAX_CHANGES};
use camp_prim::{Primitive, SideLines};
use std::alloc::Global;

/// The greatest sum of the line of an edit and the numbers of its old and of its new lines.
const MAX_REACH: usize = 1 << 30;

/// The meaning of a line of a group: a change of a whole file, an edit whose body follows, or the end of the
/// group.
#[derive(Drop)]
pub(crate) enum ParsedGroupLine {
    Change(Primitive),
    Edit { path: Path, line: u32 },
    Done,
}

impl Reading {
    /// Reads a line of a record whose changes follow.
    pub(crate) fn read_record_line(
        &mut self,
        number: u64,
        line: &[u8],
        mut begun: OpenRecord,
    ) -> Result<(), ScriptFault>
        requires { IsOpen self.old.calls begun }
        ensures given { Advances result self.new (after_record_line number self.old (open_record_of begun) (option_map open_edit_of begun.open_edit) line.now) }
        ensures memory { IfErr result (λ fault. fault ≡ ScriptFault.Memory → HasMeaningIn (option_map open_edit_of begun.open_edit) line.now) }
    {
        match begun.open_edit.take() {
            None => self.read_group_words(number, line, begun),
            Some(edit) => self.read_body_line(number, line, begun, edit),
        }
    }

    // Reads a line of a group, outside bodies.
    fn read_group_words(
        &mut self,
        number: u64,
        line: &[u8],
        begun: OpenRecord,
    ) -> Result<(), ScriptFault>
        requires { IsOpen self.old.calls begun }
        ensures given { Advances result self.new (after_parsed_group_line number self.old (open_record_of begun) (group_line_of number (length begun.changes.items) (words_of line.now))) }
        ensures memory { IfErr result (λ fault. fault ≡ ScriptFault.Memory → is_skipped (words_of line.now) ≡ false) }
    {
        let mut words = Words::new(line);
        let Some(word) = words.next() else {
            self.with_record(begun);
            return Ok(());
        };
        if is_comment(word) {
            self.with_record(begun);
            return Ok(());
        }
        let words = first_words(words);
        self.read_change(number, begun, word, words.as_slice())
    }

    // Parses a line of a group from its first word and the others.
    fn read_change(
        &mut self,
        number: u64,
        begun: OpenRecord,
        word: &[u8],
        words: &[&[u8]],
    ) -> Result<(), ScriptFault>
        requires { IsOpen self.old.calls begun }
        ensures { Advances result self.new (after_parsed_group_line number self.old (open_record_of begun) (change_of number (length begun.changes.items) word.now (map (λ word. word.now) words.now))) }
    {
        let told = self.parse_group_line(number, &begun, word, words)?;
        self.take_group_line(number, begun, told)
    }

    // Updates the progress of the reader by a parsed line of a group.
    fn take_group_line(
        &mut self,
        number: u64,
        begun: OpenRecord,
        told: ParsedGroupLine,
    ) -> Result<(), ScriptFault>
        requires open { IsOpen self.old.calls begun }
        requires room { HasRoomForChange (length begun.changes.items) told }
        ensures { Advances result self.new (after_group_line number self.old (open_record_of begun) (group_line_parsed told)) }
    {
        match told {
            ParsedGroupLine::Change(change) => self.add_change(begun, change),
            ParsedGroupLine::Edit { path, line } => {
                self.open_edit(number, begun, path, line);
                Ok(())
            }
            ParsedGroupLine::Done => self.end_record(number, begun),
        }
    }

    // Reads a change of a whole file in a group.
    fn add_change(&mut self, mut begun: OpenRecord, change: Primitive) -> Result<(), ScriptFault>
        requires open { IsOpen self.old.calls begun }
        requires room { length begun.changes.items < most_changes }
        ensures { Advances result self.new (Ok (with_record self.old (with_one_more (open_record_of begun) change))) }
    {
        begun.changes.push(change)?;
        begun.open_edit = None;
        self.with_record(begun);
        Ok(())
    }

    // Reads the first line of an edit in a group.
    fn open_edit(&mut self, number: u64, mut begun: OpenRecord, path: Path, line: u32)
        requires open { IsOpen self.old.calls begun }
        requires room { length begun.changes.items < most_changes }
        requires counted { 1 ≤ line }
        ensures { self.new ≡ with_record self.old (with_edit (open_record_of begun) path line number) }
    {
        begun.open_edit = Some(OpenEdit {
            path,
            line,
            opened: number,
            old: SideLines::new(),
            new: SideLines::new(),
        });
        self.with_record(begun)
    }

    // Parses a line of a group from its first word and the others.
    fn parse_group_line(
        &self,
        number: u64,
        begun: &OpenRecord,
        word: &[u8],
        words: &[&[u8]],
    ) -> Result<ParsedGroupLine, ScriptFault>
        ensures { ParsesGroupLine number self.now (open_record_of begun.now) result (change_of number (length begun.now.changes.items) word.now (map (λ word. word.now) words.now)) }
    {
        if word == b"add".as_slice() {
            let path = one_word(number, words)?;
            return self.parse_whole_change(number, begun, WholeFile::Add, path);
        }
        if word == b"remove".as_slice() {
            let path = one_word(number, words)?;
            return self.parse_whole_change(number, begun, WholeFile::Remove, path);
        }
        if word == b"edit".as_slice() {
            let (path, line) = two_words(number, words)?;
            return self.parse_edit_head(number, begun, path, line);
        }
        if word == b"done".as_slice() {
            no_words(number, words)?;
            return Ok(ParsedGroupLine::Done);
        }
        Err(at_line(number, FaultKind::BadGroup))
    }

    fn parse_whole_change(
        &self,
        number: u64,
        begun: &OpenRecord,
        file: WholeFile,
        path: &[u8],
    ) -> Result<ParsedGroupLine, ScriptFault>
        ensures { ParsesGroupLine number self.now (open_record_of begun.now) result (whole_change (change_at file) number (length begun.now.changes.items) path.now) }
    {
        if begun.changes.len() >= MAX_CHANGES {
            return Err(at_line(number, FaultKind::BadGroup));
        }
        let path = path_at(self.allocator(), number, path)??;
        Ok(ParsedGroupLine::Change(file.at(path)))
    }

    fn parse_edit_head(
        &self,
        number: u64,
        begun: &OpenRecord,
        path: &[u8],
        line: &[u8],
    ) -> Result<ParsedGroupLine, ScriptFault>
        ensures { ParsesGroupLine number self.now (open_record_of begun.now) result (edit_change number (length begun.now.changes.items) path.now line.now) }
    {
        if begun.changes.len() >= MAX_CHANGES {
            return Err(at_line(number, FaultKind::BadGroup));
        }
        let path = path_at(self.allocator(), number, path)?;
        let line = number_at(number, line)?;
        Ok(ParsedGroupLine::Edit { path: path?, line })
    }

    // Reads a line of the body of an edit.
    fn read_body_line(
        &mut self,
        number: u64,
        line: &[u8],
        mut begun: OpenRecord,
        mut edit: OpenEdit,
    ) -> Result<(), ScriptFault>
        requires open { IsOpen self.old.calls begun }
        requires room { HasRoomFor begun.changes.items (Some edit) }
        ensures { Advances result self.new (after_body number self.old (open_record_of begun) (open_edit_of edit) line.now) }
    {
        if line == b"end".as_slice() {
            return self.end_edit(number, begun, edit);
        }
        grow(self.allocator(), number, line, &mut edit)?;
        begun.open_edit = Some(edit);
        self.with_record(begun);
        Ok(())
    }

    // Reads the line `end`.
    fn end_edit(
        &mut self,
        number: u64,
        begun: OpenRecord,
        edit: OpenEdit,
    ) -> Result<(), ScriptFault>
        requires open { IsOpen self.old.calls begun }
        requires room { HasRoomFor begun.changes.items (Some edit) }
        ensures { Advances result self.new (after_end number self.old (open_record_of begun) (open_edit_of edit)) }
    {
        let change = close(self.allocator(), number, edit)?;
        self.end_change(number, begun, change)
    }

    // Ends a change after its last line: a group continues, and a single change ends its record.
    fn end_change(
        &mut self,
        number: u64,
        mut begun: OpenRecord,
        change: Primitive,
    ) -> Result<(), ScriptFault>
        requires open { IsOpen self.old.calls begun }
        requires room { length begun.changes.items < most_changes }
        ensures { Advances result self.new (after_change number self.old (open_record_of begun) change) }
    {
        if !begun.grouped && begun.changes.is_empty() {
            return self.end_single(begun, change);
        }
        begun.changes.push(change)?;
        begun.open_edit = None;
        if begun.grouped {
            self.with_record(begun);
            return Ok(());
        }
        self.end_record(number, begun)
    }

    // Ends a record whose only change this is.
    fn end_single(&mut self, begun: OpenRecord, change: Primitive) -> Result<(), ScriptFault>
        requires { IsOpen self.old.calls begun }
        ensures { Advances result self.new (Ok (with_call self.old (call.Record begun.branch begun.name (change ∷ [])))) }
    {
        let changes = Changes::of_one(change);
        let call = Call::Record {
            branch: begun.branch,
            name: begun.name,
            changes,
        };
        self.with_call(call, true)
    }
}

// Makes the change of an edit that ends at this line.
fn close(alloc: Global, number: u64, edit: OpenEdit) -> Result<Primitive, ScriptFault>
    requires { 1 ≤ edit.line }
    ensures { GivesFaultFirst result (ended_change number (edit_so_far edit)) }
{
    test_body(number, &edit)?;
    let OpenEdit {
        path,
        line,
        opened: _,
        old,
        new,
    } = edit;
    let Some(change) = Primitive::of_sides(alloc, path, line, old, new)? else {
        unreachable!();
    };
    Ok(change)
}

// Checks that an edit may end: a side has lines, and its hunk is in range.
fn test_body(number: u64, edit: &OpenEdit) -> Result<(), ScriptFault>
    requires { 1 ≤ edit.now.line }
    ensures passed { IfOk result (λ _. ended_edit number (edit_so_far edit.now) ≡ Ok (edit_so_far edit.now)) }
    ensures range { IfOk result (λ _. IsInRange (edit_so_far edit.now)) }
    ensures fault { IfErr result (λ fault. IsFaultFirst fault (ended_edit number (edit_so_far edit.now))) }
    ensures told { IfErr result (λ fault. fault ≢ ScriptFault.Memory) }
{
    if edit.old.is_empty() && edit.new.is_empty() {
        return Err(at_line(number, FaultKind::BadEdit));
    }
    if reaches_too_far(edit.line, edit.old.len(), edit.new.len()) {
        return Err(at_line(number, FaultKind::BadNumber));
    }
    Ok(())
}

// True if the line of an edit and the numbers of its old and new lines add up to more than 2^30.
fn reaches_too_far(line: u32, old: usize, new: usize) -> bool
    ensures { result ≡ nat_lt greatest_reach (line + old + new) }
{
    if old > MAX_REACH || new > MAX_REACH {
        return true;
    }
    line as usize + old + new > MAX_REACH
}

// Appends a line to a side of an edit: old lines first, new ones after them.
fn grow(alloc: Global, number: u64, line: &[u8], edit: &mut OpenEdit) -> Result<(), ScriptFault>
    ensures given { IfOk result (λ _. grown number (edit_so_far edit.entry.now) line.now ≡ Ok (edit_so_far edit.exit.now)) }
    ensures placed { IfOk result (λ _. (edit.exit.now.line ≡ edit.entry.now.line) × (edit.exit.now.opened ≡ edit.entry.now.opened)) }
    ensures fault { IfErr result (λ fault. IsFaultFirst fault (grown number (edit_so_far edit.entry.now) line.now)) }
{
    match line {
        [b'-', bytes @ ..] if edit.new.is_empty() => {
            let line = line_at(alloc, number, bytes)?;
            edit.old.push(alloc, line)?;
            Ok(())
        }
        [b'+', bytes @ ..] => {
            let line = line_at(alloc, number, bytes)?;
            edit.new.push(alloc, line)?;
            Ok(())
        }
        _ => Err(at_line(number, FaultKind::BadEdit)),
    }
}

// Returns the bytes after the sign of a line of a side.
fn line_at(alloc: Global, number: u64, bytes: &[u8]) -> Result<Line, ScriptFault>
    ensures given { GivesFaultFirst result (if is_line bytes.now then Ok bytes.now else fault_at number kind.BadLine) }
{
    match Line::new(alloc, bytes) {
        Ok(line) => Ok(line),
        Err(BaseFault::Memory) => Err(ScriptFault::Memory),
        Err(_) => Err(at_line(number, FaultKind::BadLine)),
    }
}
