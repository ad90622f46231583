//! A record whose changes follow, with those read so far.
ghost use Rattle.std.specs.Prelude.{◌≡◌};
ghost use Rattle.camp_script.specs.Inside.Files.{change_at};
ghost use Rattle.camp_script.specs.Inside.ReadingFields.{open_record_of, IsNotEnded};

use crate::faults::{FaultKind, ScriptFault, at_line};
use camp_base::{Name, Path};
use camp_prim::{Primitive, SideLines};

/// A record that has not ended: the line that begins it, whether its changes are in a group, those so far,
/// and the edit that has not ended, if any.
#[derive(Drop)]
pub(crate) struct OpenRecord {
    pub branch: Name,
    pub name: Name,
    pub opened: u64,
    pub grouped: bool,
    pub changes: Vec<Primitive>,
    pub open_edit: Option<OpenEdit>,
}

impl OpenRecord {
    /// Returns the fault of a script that ends within this record: its edit or its group has not ended.
    pub(crate) fn not_ended(&self) -> ScriptFault
        ensures { IsNotEnded result (open_record_of self.now) }
    {
        match &self.open_edit {
            None => at_line(self.opened, FaultKind::GroupNotEnded),
            Some(edit) => at_line(edit.opened, FaultKind::EditNotEnded),
        }
    }
}

/// An edit whose body has not ended: the line that begins it, and its sides so far.
#[derive(Drop)]
pub(crate) struct OpenEdit {
    pub path: Path,
    pub line: u32,
    pub opened: u64,
    pub old: SideLines,
    pub new: SideLines,
}

/// What a change does to a whole file.
#[derive(Clone, Copy)]
pub(crate) enum WholeFile {
    Add,
    Remove,
}

impl WholeFile {
    pub(crate) fn at(self, path: Path) -> Primitive
        ensures { result ≡ change_at self path }
    {
        match self {
            WholeFile::Add => Primitive::Add(path),
            WholeFile::Remove => Primitive::Remove(path),
        }
    }
}
