//! The progress of a reader of scripts, and how each line changes it.
ghost use Rattle.std.specs.Prelude.{◌≡◌, false, true, IfErr, IfOk, Ok};
ghost use Rattle.camp_call.specs.Calls.{is_writing};
ghost use Rattle.camp_script.specs.Gives.{Advances, GivesFaultFirst, GivesPath};
ghost use Rattle.camp_script.specs.Reading.{is_full};
ghost use Rattle.camp_script.specs.Inside.Progress.{start, with_call, with_record, after_call, after_client, after_record, finished};
ghost use Rattle.camp_script.specs.declared.faults.FaultKind.TheVariants as kind;
ghost use Rattle.camp_script.specs.Inside.Steps.{after_line, HasMeaning, wanted_in};
ghost use Rattle.camp_script.specs.Inside.ReadingFields.{open_record_of};

use crate::faults::{FaultKind, ScriptFault, at_line};
use crate::grouping::Expected;
use crate::records::OpenRecord;
use crate::scripts::Script;
use crate::words::path_at;
use crate::{MAX_SECTIONS, MAX_WRITES};
use camp_base::Path;
use camp_call::{Call, Changes};
use std::alloc::{AllocError, Global};
use std::marker::Model;
use std::mem;

/// The progress of a reader of scripts: the sections before this one, the calls of this one, how many of them write,
/// and the open record, if any.
#[derive(Drop)]
pub(crate) struct Reading {
    closed: Vec<Vec<Call>>,
    calls: Vec<Call>,
    writes: usize,
    open_record: Option<OpenRecord>,
}

impl Model for Reading {
    ghost use Rattle.camp_script.specs.Inside.Progress.{Progress};

    ghost Value = { Progress };

    ghost use Rattle.camp_script.specs.Inside.ReadingFields.{progress_of, SectionsAreCounted};

    ghost view = { progress_of };

    ghost invariant = { SectionsAreCounted };
}

impl Reading {
    ghost use Rattle.camp_script.specs.Inside.ReadingFields.{open_record_of, open_edit_of, MayGrow, IsOpen, OpenRecordFits};

    /// Starts before the first line.
    pub(crate) fn new(alloc: Global) -> Reading
        ensures { result ≡ start }
    {
        Reading {
            closed: Vec::new(alloc),
            calls: Vec::new(alloc),
            writes: 0,
            open_record: None,
        }
    }

    pub(crate) fn allocator(&self) -> Global {
        *self.calls.allocator()
    }

    /// Parses a word as a path, as `path_at` does. If the call before ends with a change at the same path, shares its
    /// bytes.
    pub(crate) fn parse_path_shared(
        &self,
        number: u64,
        word: &[u8],
    ) -> Result<Result<Path, AllocError>, ScriptFault>
        ensures { GivesPath result number word.now }
    {
        match self.last_path() {
            Some(path) if path.bytes() == word => Ok(path.try_clone()),
            _ => path_at(self.allocator(), number, word),
        }
    }

    // Returns the path of the last change of the call before.
    fn last_path(&self) -> Option<&Path> {
        match self.calls.last()? {
            Call::Record { changes, .. } => Some(changes.prims().last()?.path()),
            _ => None,
        }
    }

    /// Reads a numbered line, counted from 1.
    pub(crate) fn read_line(&mut self, number: u64, line: &[u8]) -> Result<(), ScriptFault>
        ensures given { Advances result self.new (after_line number self.old.open_record self.old line.now) }
        ensures memory { IfErr result (λ fault. fault ≡ ScriptFault.Memory → HasMeaning self.old.open_record line.now) }
    {
        match self.open_record.take() {
            None => self.read_words(number, line),
            Some(begun) => self.read_record_line(number, line, begun),
        }
    }

    /// Returns the kind of lines that follow a first line, given the record that it has opened.
    pub(crate) fn wanted(&self) -> Expected
        ensures { result ≡ wanted_in self.now.open_record }
    {
        match &self.open_record {
            None => Expected::Nothing,
            Some(begun) if begun.grouped => Expected::Group,
            Some(_) => Expected::Body,
        }
    }

    /// Ends the reading after the last line.
    pub(crate) fn finish(self) -> Result<Script, ScriptFault>
        ensures { GivesFaultFirst result (finished self self.open_record) }
    {
        let Reading {
            mut closed,
            calls,
            writes: _,
            open_record,
        } = self;
        if let Some(begun) = open_record {
            return Err(begun.not_ended());
        }
        closed.push(calls)?;
        Ok(Script::of_sections(closed))
    }

    /// Checks that a section may have one more writing call; else returns a fault at this line.
    pub(crate) fn check_limit(&self, number: u64) -> Result<(), ScriptFault>
        ensures room { IfOk result (λ _. is_full self.now.calls ≡ false) }
        ensures fault { IfErr result (λ fault. (fault ≡ ScriptFault.Line (record { line = number; kind = kind.TooManyCommands })) × (is_full self.now.calls ≡ true)) }
    {
        if self.writes >= MAX_WRITES {
            return Err(at_line(number, FaultKind::TooManyCommands));
        }
        Ok(())
    }

    /// Appends a call, given whether it writes.
    pub(crate) fn with_call(&mut self, call: Call, writes: bool) -> Result<(), ScriptFault>
        requires exact { writes ≡ is_writing call }
        requires room { writes ≡ true → MayGrow self.old.calls }
        ensures { Advances result self.new (Ok (with_call self.old call)) }
    {
        self.calls.push(call)?;
        if writes {
            self.writes += 1;
        }
        self.open_record = None;
        Ok(())
    }

    pub(crate) fn with_record(&mut self, begun: OpenRecord)
        requires { IsOpen self.old.calls begun }
        ensures { self.new ≡ with_record self.old (open_record_of begun) }
    {
        self.open_record = Some(begun);
    }

    /// Reads the last line of a record.
    pub(crate) fn end_record(&mut self, number: u64, begun: OpenRecord) -> Result<(), ScriptFault>
        requires { IsOpen self.old.calls begun }
        ensures { Advances result self.new (after_record number self.old (open_record_of begun)) }
    {
        let OpenRecord {
            branch,
            name,
            changes,
            ..
        } = begun;
        match Changes::new(changes) {
            None => Err(at_line(number, FaultKind::BadGroup)),
            Some(changes) => {
                let call = Call::Record {
                    branch,
                    name,
                    changes,
                };
                self.with_call(call, true)
            }
        }
    }

    /// Appends a call on a single line.
    pub(crate) fn append_call(&mut self, number: u64, call: Call) -> Result<(), ScriptFault>
        ensures { Advances result self.new (after_call number self.old call) }
    {
        let writes = call.is_writing();
        if writes {
            self.check_limit(number)?;
        }
        self.with_call(call, writes)
    }

    /// Reads the line of a client: the next section begins.
    pub(crate) fn next_section(&mut self, number: u64) -> Result<(), ScriptFault>
        ensures { Advances result self.new (after_client number self.old) }
    {
        if self.closed.len() >= MAX_SECTIONS - 1 {
            return Err(at_line(number, FaultKind::TooManyClients));
        }
        let alloc = self.allocator();
        let calls = mem::replace(&mut self.calls, Vec::new(alloc));
        self.writes = 0;
        self.open_record = None;
        self.closed.push(calls)?;
        Ok(())
    }
}
