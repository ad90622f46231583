//! Modes of the entries of a git tree.

ghost use Rattle.std.specs.Prelude.{◌≡◌, ◌↔◌, IsTrue, MatchOption};
ghost use Rattle.camp_coding.specs.GitTrees.{is_regular};
ghost use Rattle.camp_coding.specs.Modes.{mode_text};
ghost use Rattle.camp_coding.specs.declared.modes.Mode.{Mode};

use crate::paths::is_same_text;

/// The mode of an entry of a git tree that is not a tree itself.
#[derive(Clone, Copy, Debug, PartialEq, Eq)]
pub enum Mode {
    /// A file, 100644.
    Regular,
    /// An executable file, 100755.
    Executable,
    /// A symbolic link, 120000. Its content is its target.
    Symlink,
    /// A submodule, a commit of another repository, 160000. Its content is the id of the commit.
    Submodule,
}

impl Mode {
    /// Returns the digits of the mode.
    pub fn text(self) -> &'static [u8]
        ensures exact { result.now ≡ mode_text self }
    {
        match self {
            Mode::Regular => b"100644",
            Mode::Executable => b"100755",
            Mode::Symlink => b"120000",
            Mode::Submodule => b"160000",
        }
    }
}

/// True if the mode is that of a regular file.
pub(crate) fn is_regular(mode: Mode) -> bool
    ensures { result ≡ is_regular mode }
{
    matches!(mode, Mode::Regular)
}

/// Returns the mode that has these digits, or None if there is none.
pub fn parse_mode(text: &[u8]) -> Option<Mode>
    ensures exact { MatchOption result ((mode : Mode) → ¬ (mode_text mode ≡ text.now)) (λ mode. mode_text mode ≡ text.now) }
{
    if is_mode(Mode::Regular, text) {
        return Some(Mode::Regular);
    }
    if is_mode(Mode::Executable, text) {
        return Some(Mode::Executable);
    }
    if is_mode(Mode::Symlink, text) {
        return Some(Mode::Symlink);
    }
    if is_mode(Mode::Submodule, text) {
        return Some(Mode::Submodule);
    }
    None
}

fn is_mode(mode: Mode, text: &[u8]) -> bool
    ensures { IsTrue result ↔ (mode_text mode ≡ text.now) }
{
    is_same_text(mode.text(), text)
}
