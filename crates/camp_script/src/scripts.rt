//! Scripts, and reading them.
ghost use Rattle.std.specs.Prelude.{◌≡◌, map, IfErr};
ghost use Rattle.camp_script.specs.Gives.{Gives};
ghost use Rattle.camp_script.specs.Reading.{script_of};
ghost use Rattle.camp_script.specs.Sections.{AreWithinLimits};
ghost use Rattle.camp_script.specs.Wanting.{ScriptMayWant};

use crate::faults::ScriptFault;
use crate::lines::without_end;
use crate::readings::Reading;
use bstr::ByteSlice;
use camp_call::Call;
use std::alloc::Global;
use std::marker::Model;

/// A script: the calls of the opening, followed by those of each client.
#[derive(Drop)]
pub struct Script {
    sections: Vec<Vec<Call>>,
}

impl Model for Script {
    ghost use Rattle.std.specs.Prelude.{List, map};
    ghost use Rattle.camp_call.specs.declared.calls.Call.{Call};

    ghost Value = { List (List Call) };

    ghost use Rattle.camp_script.specs.Sections.{AreWithinLimits};

    ghost view = { λ script. map (λ section. section.items) script.sections.items };

    ghost invariant = { λ script. AreWithinLimits (map (λ section. section.items) script.sections.items) };
}

impl Script {
    /// Returns the calls of each section, in order.
    pub fn sections(&self) -> &[Vec<Call>]
        ensures value { map (λ section. section.items) result.now ≡ self.now }
        ensures limits { AreWithinLimits self.now }
    {
        &self.sections
    }

    /// Returns the calls of each section, in order, and consumes the script.
    pub fn into_sections(self) -> Vec<Vec<Call>>
        ensures exact { map (λ section. section.items) result.items ≡ self }
    {
        let Script { sections } = self;
        sections
    }

    pub(crate) fn of_sections(sections: Vec<Vec<Call>>) -> Script
        requires { AreWithinLimits (map (λ section. section.items) sections.items) }
        ensures { result ≡ map (λ section. section.items) sections.items }
    {
        Script { sections }
    }
}

/// Reads the script that bytes represent, or returns the first fault of its lines. Out of memory is possible, but not
/// if the first line that is neither blank nor a comment has a fault.
pub fn read_script(alloc: Global, bytes: &[u8]) -> Result<Script, ScriptFault>
    ensures given { Gives result (script_of bytes.now) }
    ensures memory { IfErr result (λ fault. fault ≡ ScriptFault.Memory → ScriptMayWant bytes.now) }
{
    let mut reading = Reading::new(alloc);
    let mut number = 0;
    for line in bytes.lines_with_terminator() {
        number += 1;
        reading.read_line(number, without_end(line))?;
    }
    reading.finish()
}
