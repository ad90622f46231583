//! Titles of logs: the first entry, which names the limits of the repository.
ghost use Rattle.std.specs.Prelude.{◌≡◌, ◌==◌, ◌≤◌, Some, length, IfOk};
ghost use Rattle.std.specs.List.{position_or_len};
ghost use Rattle.camp_base.specs.Signs.{space};
ghost use Rattle.camp_entries.specs.Titles.{AreLimitsOfLog, IsLogTitle, log_title};
ghost use Rattle.camp_repo.specs.Limits.{AreLimits, Bounds};

use crate::heads::parse_number;
use camp_repo::Limits;
use itoa::Buffer;
use std::alloc::{AllocError, Global};

/// The title of a log whose repository has the default limits.
const PLAIN_TITLE: &[u8] = b"camp log 1\n";

/// The number of bytes of a title before the first limit.
const BEFORE_CATCHES: usize = 19;

/// The number of bytes of a title between its two limits.
const BETWEEN_LIMITS: usize = 10;

/// Renders the title of a log, which names the limits of its repository.
pub fn log_title_text(alloc: Global, limits: Limits) -> Result<Vec<u8>, AllocError>
    ensures exact { IfOk result (λ text. text.items ≡ log_title limits) }
    ensures title { IfOk result (λ text. IsLogTitle text.items limits) }
{
    let mut catches = Buffer::new();
    let mut branches = Buffer::new();
    let mut text = Vec::from_slice(alloc, b"camp log 1 catches ".as_slice())?;
    text.extend_from_slice(catches.format(limits.catches()).as_bytes())?;
    text.extend_from_slice(b" branches ")?;
    text.extend_from_slice(branches.format(limits.branches()).as_bytes())?;
    text.push(b'\n')?;
    Ok(text)
}

/// Parses the title of a log. Returns the limits that it names, or the default ones if it names none; `None` if the
/// text is no title.
pub fn parse_log_title(alloc: Global, text: &[u8]) -> Result<Option<Limits>, AllocError>
    ensures exact { IfOk result (AreLimitsOfLog text.now) }
{
    if text == PLAIN_TITLE {
        return Ok(Some(Limits::default()));
    }
    let Some(limits) = only_limits_of(text) else {
        return Ok(None);
    };
    let title = log_title_text(alloc, limits)?;
    if title.as_slice() != text {
        return Ok(None);
    }
    Ok(Some(limits))
}

// Parses the numbers of a title.
fn only_limits_of(text: &[u8]) -> Option<Limits>
    ensures { (limits : Bounds) → AreLimits limits.catches limits.branches → log_title limits ≡ text.now → result ≡ Some limits }
{
    if text.len() < BEFORE_CATCHES {
        return None;
    }
    let rest = &text[BEFORE_CATCHES..];
    let len = space_in(rest);
    if rest.len() - len <= BETWEEN_LIMITS {
        return None;
    }
    let Some(catches) = parse_number(&rest[..len]) else {
        return None;
    };
    let Some(branches) = parse_number(&rest[len + BETWEEN_LIMITS..rest.len() - 1]) else {
        return None;
    };
    match Limits::new(catches as usize, branches as usize) {
        Ok(limits) => Some(limits),
        Err(_) => None,
    }
}

// Returns the index of the first space, or the length.
fn space_in(bytes: &[u8]) -> usize
    ensures place { result ≡ position_or_len (λ byte. byte == space) bytes.now }
    ensures within { result ≤ length bytes.now }
{
    bytes
        .iter()
        .position(|byte| *byte == b' ')
        .unwrap_or(bytes.len())
}
