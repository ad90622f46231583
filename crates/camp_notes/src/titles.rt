//! The header lines of notes.
ghost use Rattle.std.specs.Prelude.{◌≡◌, ◌++◌, ◌∷◌, MatchOption, MatchResult, codes};
ghost use Rattle.camp_base.specs.Signs.{newline};
ghost use Rattle.camp_notes.specs.Faults.{has_no_feed};
ghost use Rattle.camp_notes.specs.Inside.{BeginsTitle, FailsTitle};

use crate::NoteFaultKind;
use camp_base::Name;

/// What begins the header line of a note.
const SIGN: &[u8] = b"#note ";

/// Parses the header line of a note. Returns the name, and the bytes after the line.
#[tactic(auto, using(crate::proofs::TitleLemmas::misplaced_title, crate::proofs::TitleLemmas::after_note_sign))]
pub(crate) fn parse_title(bytes: &[u8]) -> Result<(Name, &[u8]), NoteFaultKind>
    ensures { MatchResult result (λ found. BeginsTitle bytes.now found.0 found.1.now) (FailsTitle bytes.now) }
{
    match bytes.strip_prefix(SIGN) {
        Some(line) => parse_name(line),
        None => Err(NoteFaultKind::Misplaced),
    }
}

// Parses the name of a note, given the bytes after the sign of its first line.
#[tactic(auto, using(crate::proofs::TitleLemmas::unended_title))]
fn parse_name(bytes: &[u8]) -> Result<(Name, &[u8]), NoteFaultKind>
    ensures { MatchResult result
        (λ found. BeginsTitle (codes "#note " ++ bytes.now) found.0 found.1.now)
        (FailsTitle (codes "#note " ++ bytes.now)) }
{
    match split_line(bytes) {
        Some((word, rest)) => name_of(word, rest),
        None => Err(NoteFaultKind::NotEnded),
    }
}

// Makes the name of a note of a word, which the rest follows after a line feed.
#[tactic(auto, using(crate::proofs::TitleLemmas::bad_title, crate::proofs::TitleLemmas::good_title))]
fn name_of<'a>(word: &[u8], rest: &'a [u8]) -> Result<(Name, &'a [u8]), NoteFaultKind>
    requires { has_no_feed word.now }
    ensures { MatchResult result
        (λ found. BeginsTitle (codes "#note " ++ word.now ++ newline ∷ rest.now) found.0 found.1.now)
        (FailsTitle (codes "#note " ++ word.now ++ newline ∷ rest.now)) }
{
    match Name::new(word) {
        Ok(name) => Ok((name, rest)),
        Err(_) => Err(NoteFaultKind::BadName),
    }
}

// Splits bytes at their first line feed; `None` if there is none.
fn split_line(bytes: &[u8]) -> Option<(&[u8], &[u8])>
    ensures { MatchOption result (has_no_feed bytes.now)
        (λ parts. has_no_feed parts.0.now × (bytes.now ≡ parts.0.now ++ newline ∷ parts.1.now)) }
{
    for at in 0..bytes.len() {
        if bytes[at] == b'\n' {
            return Some((&bytes[..at], &bytes[at + 1..]));
        }
    }
    None
}
