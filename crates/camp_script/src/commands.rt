//! Lines outside groups and bodies.
ghost use Rattle.std.specs.Prelude.{◌≡◌, ◌≢◌, ◌≤◌, ◌∷◌, [], false, IfErr, IfOk, map};
ghost use Rattle.camp_script.specs.Gives.{Advances, GivesFaultFirst};
ghost use Rattle.camp_script.specs.Inside.Files.{change_at};
ghost use Rattle.camp_script.specs.Lines.{is_skipped, words_of};
ghost use Rattle.camp_script.specs.Commands as command;
ghost use Rattle.camp_script.specs.Commands.{branch_line, whole_record, edit_record, record_line, pull_line, obliterate_line, branch_at, question, short_command, command, command_of, names_or_all};
ghost use Rattle.camp_script.specs.Inside.Asking.{ParsesLine, EditLineIsCounted, command_parsed};
ghost use Rattle.camp_script.specs.Inside.Steps.{after_command, after_parsed_command};

use crate::faults::{FaultKind, ScriptFault, at_line};
use crate::lines::{Words, first_words, is_comment};
use crate::readings::Reading;
use crate::records::{OpenEdit, OpenRecord, WholeFile};
use crate::words::{
    list_names, name_at, no_words, number_at, one_word, path_at, three_words, two_words,
};
use camp_base::{Name, Path};
use camp_call::{Call, Changes, Names};
use camp_prim::SideLines;

/// The meaning of a command: a call, the record of an edit or of a group, or the section of the next client.
#[derive(Drop)]
pub(crate) enum ParsedLine {
    Call(Call),
    Edit {
        branch: Name,
        name: Name,
        path: Path,
        line: u32,
    },
    Group {
        branch: Name,
        name: Name,
    },
    Section,
}

impl Reading {
    /// Reads a line outside groups and bodies.
    pub(crate) fn read_words(&mut self, number: u64, line: &[u8]) -> Result<(), ScriptFault>
        ensures given { Advances result self.new (after_parsed_command number self.old (command_of number (words_of line.now))) }
        ensures memory { IfErr result (λ fault. fault ≡ ScriptFault.Memory → is_skipped (words_of line.now) ≡ false) }
    {
        let mut words = Words::new(line);
        let Some(word) = words.next() else {
            return Ok(());
        };
        if is_comment(word) {
            return Ok(());
        }
        self.read_command(number, word, words)
    }

    // Parses a command from its first word and the others. A function of its own, so that its fault is proved once for
    // all kinds of commands.
    fn read_command(
        &mut self,
        number: u64,
        word: &[u8],
        words: Words<'_>,
    ) -> Result<(), ScriptFault>
        ensures { Advances result self.new (after_parsed_command number self.old (command number word.now words.entry)) }
    {
        let asked = self.parse_command(number, word, words)?;
        self.take_command(number, asked)
    }

    // Updates the progress of the reader by a parsed command.
    fn take_command(&mut self, number: u64, asked: ParsedLine) -> Result<(), ScriptFault>
        requires { EditLineIsCounted asked }
        ensures { Advances result self.new (after_command number self.old (command_parsed asked)) }
    {
        match asked {
            ParsedLine::Call(call) => self.append_call(number, call),
            ParsedLine::Section => self.next_section(number),
            ParsedLine::Group { branch, name } => self.begin_group(number, branch, name),
            ParsedLine::Edit {
                branch,
                name,
                path,
                line,
            } => self.begin_edit(number, branch, name, path, line),
        }
    }

    fn begin_group(&mut self, number: u64, branch: Name, name: Name) -> Result<(), ScriptFault>
        ensures { Advances result self.new (after_command number self.old (command.BeginGroup branch name)) }
    {
        self.check_limit(number)?;
        let changes = Vec::new(self.allocator());
        self.with_record(OpenRecord {
            branch,
            name,
            opened: number,
            grouped: true,
            changes,
            open_edit: None,
        });
        Ok(())
    }

    fn begin_edit(
        &mut self,
        number: u64,
        branch: Name,
        name: Name,
        path: Path,
        line: u32,
    ) -> Result<(), ScriptFault>
        requires { 1 ≤ line }
        ensures { Advances result self.new (after_command number self.old (command.BeginEdit branch name path line)) }
    {
        self.check_limit(number)?;
        let alloc = self.allocator();
        let open_edit = Some(OpenEdit {
            path,
            line,
            opened: number,
            old: SideLines::new(),
            new: SideLines::new(),
        });
        self.with_record(OpenRecord {
            branch,
            name,
            opened: number,
            grouped: false,
            changes: Vec::new(alloc),
            open_edit,
        });
        Ok(())
    }

    // Parses a command from its first word and the others.
    fn parse_command(
        &self,
        number: u64,
        word: &[u8],
        words: Words<'_>,
    ) -> Result<ParsedLine, ScriptFault>
        ensures { ParsesLine number self.now result (command number word.now words.entry) }
    {
        if word == b"pull".as_slice() {
            return self.read_pull(number, words);
        }
        if word == b"obliterate".as_slice() {
            return self.read_obliterate(number, words);
        }
        let words = first_words(words);
        self.read_short_command(number, word, words.as_slice())
    }

    // Parses a command without a list of names.
    fn read_short_command(
        &self,
        number: u64,
        word: &[u8],
        words: &[&[u8]],
    ) -> Result<ParsedLine, ScriptFault>
        ensures { ParsesLine number self.now result (short_command number word.now (map (λ word. word.now) words.now)) }
    {
        if word == b"branch".as_slice() {
            return self.read_branch(number, words);
        }
        if word == b"record".as_slice() {
            return self.read_record(number, words);
        }
        if word == b"client".as_slice() {
            no_words(number, words)?;
            return Ok(ParsedLine::Section);
        }
        self.read_question(number, word, words)
    }

    fn read_branch(&self, number: u64, words: &[&[u8]]) -> Result<ParsedLine, ScriptFault>
        ensures { ParsesLine number self.now result (branch_line number (map (λ word. word.now) words.now)) }
    {
        let (new, from) = two_words(number, words)?;
        let new = name_at(number, new)?;
        let from = name_at(number, from)?;
        Ok(ParsedLine::Call(Call::Branch { new, from }))
    }

    fn read_record(&self, number: u64, words: &[&[u8]]) -> Result<ParsedLine, ScriptFault>
        ensures { ParsesLine number self.now result (record_line number (map (λ word. word.now) words.now)) }
    {
        let (branch, name, change, rest) = three_words(number, words)?;
        if change == b"add".as_slice() {
            let path = one_word(number, rest)?;
            return self.read_whole(number, WholeFile::Add, branch, name, path);
        }
        if change == b"remove".as_slice() {
            let path = one_word(number, rest)?;
            return self.read_whole(number, WholeFile::Remove, branch, name, path);
        }
        if change == b"edit".as_slice() {
            let (path, line) = two_words(number, rest)?;
            return self.read_edit(number, branch, name, path, line);
        }
        if change == b"group".as_slice() {
            no_words(number, rest)?;
            let branch = name_at(number, branch)?;
            let name = name_at(number, name)?;
            return Ok(ParsedLine::Group { branch, name });
        }
        Err(at_line(number, FaultKind::UnknownCommand))
    }

    fn read_whole(
        &self,
        number: u64,
        file: WholeFile,
        branch: &[u8],
        name: &[u8],
        path: &[u8],
    ) -> Result<ParsedLine, ScriptFault>
        ensures { ParsesLine number self.now result (whole_record (change_at file) number branch.now name.now path.now) }
    {
        let branch = name_at(number, branch)?;
        let name = name_at(number, name)?;
        let path = path_at(self.allocator(), number, path)?;
        self.check_limit(number)?;
        let changes = Changes::of_one(file.at(path?));
        Ok(ParsedLine::Call(Call::Record {
            branch,
            name,
            changes,
        }))
    }

    fn read_edit(
        &self,
        number: u64,
        branch: &[u8],
        name: &[u8],
        path: &[u8],
        line: &[u8],
    ) -> Result<ParsedLine, ScriptFault>
        ensures { ParsesLine number self.now result (edit_record number branch.now name.now path.now line.now) }
    {
        let branch = name_at(number, branch)?;
        let name = name_at(number, name)?;
        let path = self.parse_path_shared(number, path)?;
        let line = number_at(number, line)?;
        self.check_limit(number)?;
        Ok(ParsedLine::Edit {
            branch,
            name,
            path: path?,
            line,
        })
    }

    fn read_pull(&self, number: u64, mut words: Words<'_>) -> Result<ParsedLine, ScriptFault>
        ensures { ParsesLine number self.now result (pull_line number words.entry) }
    {
        let Some(from) = words.next() else {
            return Err(at_line(number, FaultKind::WrongNumberOfWords));
        };
        let Some(to) = words.next() else {
            return Err(at_line(number, FaultKind::WrongNumberOfWords));
        };
        let from = name_at(number, from)?;
        let to = name_at(number, to)?;
        let names = list_names(self.allocator(), number, words)?;
        self.check_limit(number)?;
        let names = names_or_all(names?);
        Ok(ParsedLine::Call(Call::Pull { from, to, names }))
    }

    fn read_obliterate(&self, number: u64, mut words: Words<'_>) -> Result<ParsedLine, ScriptFault>
        ensures { ParsesLine number self.now result (obliterate_line number words.entry) }
    {
        let Some(branch) = words.next() else {
            return Err(at_line(number, FaultKind::WrongNumberOfWords));
        };
        if words.duplicate().next().is_none() {
            return Err(at_line(number, FaultKind::WrongNumberOfWords));
        }
        let branch = name_at(number, branch)?;
        let names = list_names(self.allocator(), number, words)?;
        self.check_limit(number)?;
        let names = names?;
        Ok(ParsedLine::Call(Call::Obliterate { branch, names }))
    }

    fn read_question(
        &self,
        number: u64,
        word: &[u8],
        words: &[&[u8]],
    ) -> Result<ParsedLine, ScriptFault>
        ensures { ParsesLine number self.now result (question number word.now (map (λ word. word.now) words.now)) }
    {
        if word == b"tree".as_slice() {
            return Ok(ParsedLine::Call(Call::Tree(branch_at(number, words)?)));
        }
        if word == b"conflicts".as_slice() {
            return Ok(ParsedLine::Call(Call::Conflicts(branch_at(number, words)?)));
        }
        if word == b"names".as_slice() {
            return Ok(ParsedLine::Call(Call::Names(branch_at(number, words)?)));
        }
        Err(at_line(number, FaultKind::UnknownCommand))
    }
}

// Parses the branch of a question, its only word.
fn branch_at(number: u64, words: &[&[u8]]) -> Result<Name, ScriptFault>
    ensures given { GivesFaultFirst result (branch_at number (map (λ word. word.now) words.now)) }
    ensures told { IfErr result (λ fault. fault ≢ ScriptFault.Memory) }
{
    name_at(number, one_word(number, words)?)
}

// Returns the names that a pull lists; without a list it pulls all.
fn names_or_all(names: Names) -> Option<Names>
    ensures { result ≡ names_or_all names }
{
    if names.as_slice().is_empty() {
        return None;
    }
    Some(names)
}
