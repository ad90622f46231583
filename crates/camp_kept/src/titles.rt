//! The first text of a store, which contains the limits of its repository.
ghost use Rattle.std.specs.Prelude.{◌≡◌, ◌↔◌, ◌∷◌, Some, codes, map, IfErr, IfOk, IsTrue, List, ℕ};
ghost use Rattle.camp_kept.specs.Faults.{IsNoDiskFault, RefusesFile};
ghost use Rattle.camp_kept.specs.Titles.{AreAsWanted, CanBeLimits, SaysLimits, is_default, limits_among, new_limits, title_of, title_with};
ghost use Rattle.camp_repo.specs.Limits.{Bounds};
ghost use Rattle.camp_store.specs.Blocks.{DecodesTo};

use crate::PersistenceFault;
use camp_repo::Limits;
use camp_script::{Words, count_of, first_words};
use itoa::Buffer;
use std::alloc::{AllocError, Global};

/// The first text of a store with the default limits.
const TITLE: &[u8] = b"camp store 1\n";

/// Renders the first text of a store with these limits.
pub(crate) fn render_title(alloc: Global, limits: &Limits) -> Result<Vec<u8>, AllocError>
    ensures text { IfOk result (λ text. text.items ≡ title_of limits.now) }
    ensures range { IfOk result (λ _. CanBeLimits limits.now) }
{
    if is_default(limits) {
        return TITLE.to_vec(alloc);
    }
    let mut number = Buffer::new();
    let mut text = b"camp store 1 catches ".to_vec(alloc)?;
    text.extend_from_slice(number.format(limits.catches()).as_bytes())?;
    text.extend_from_slice(b" branches ")?;
    text.extend_from_slice(number.format(limits.branches()).as_bytes())?;
    text.push(b'\n')?;
    Ok(text)
}

/// Parses the first text of a store: returns its limits, or `None` if no store begins with this text.
pub(crate) fn parse_title(alloc: Global, text: &[u8]) -> Result<Option<Limits>, AllocError>
    ensures exact { IfOk result (λ found. SaysLimits text.now found) }
{
    let Some(limits) = limits_in(text) else {
        return Ok(None);
    };
    let title = render_title(alloc, &limits)?;
    if title.as_slice() != text {
        return Ok(None);
    }
    Ok(Some(limits))
}

// Returns the limits of a text that is the first of a store.
fn limits_in(text: &[u8]) -> Option<Limits>
    ensures { (limits : Bounds) → CanBeLimits limits → title_of limits ≡ text.now → result ≡ Some limits }
{
    if is_default_title(text) {
        return Some(Limits::default());
    }
    let (catches, branches) = numbers_in(text)?;
    match Limits::new(catches as usize, branches as usize) {
        Ok(found) => Some(found),
        Err(_) => None,
    }
}

fn is_default_title(text: &[u8]) -> bool
    ensures { IsTrue result ↔ (text.now ≡ codes "camp store 1\n") }
{
    text == TITLE
}

// Returns the two numbers of a title with limits; `None` for another text.
fn numbers_in(text: &[u8]) -> Option<(u64, u64)>
    ensures { (limits : Bounds) → CanBeLimits limits → title_with limits ≡ text.now → result ≡ Some (limits.catches, limits.branches) }
{
    if text.len() <= TITLE.len() {
        return None;
    }
    let words = first_words(Words::new(&text[TITLE.len()..text.len() - 1]));
    numbers_among(words.as_slice())
}

// Returns the second and the fourth word of four, if both are numbers.
fn numbers_among(words: &[&[u8]]) -> Option<(u64, u64)>
    ensures { result ≡ limits_among (map (λ word. word.now) words.now) }
{
    match words {
        [_, catches, _, branches] => Some((count_of(catches)?, count_of(branches)?)),
        _ => None,
    }
}

/// Returns the limits of a store, given its first text. If limits are wanted, the store has to have them.
pub(crate) fn limits_of(
    alloc: Global,
    title: &[u8],
    wanted: &Option<Limits>,
) -> Result<Limits, PersistenceFault>
    ensures says { IfOk result (λ limits. SaysLimits title.now (Some limits)) }
    ensures wanted { IfOk result (AreAsWanted wanted.now) }
    ensures refused { IfErr result (λ why. (texts : List (List ℕ)) (file : List ℕ) → DecodesTo (title.now ∷ texts) file → RefusesFile wanted.now why file) }
    ensures not_disk { IfErr result IsNoDiskFault }
{
    let Some(limits) = parse_title(alloc, title)? else {
        return Err(PersistenceFault::NoStore);
    };
    if !are_wanted(&limits, wanted) {
        return Err(PersistenceFault::OtherLimits {
            catches: limits.catches(),
            branches: limits.branches(),
        });
    }
    Ok(limits)
}

// True if these are the wanted limits, or no limits are wanted.
fn are_wanted(limits: &Limits, wanted: &Option<Limits>) -> bool
    ensures { IsTrue result ↔ AreAsWanted wanted.now limits.now }
{
    match wanted {
        Some(others) => are_same(limits, others),
        None => true,
    }
}

/// Returns the limits of a new store: the wanted ones, or else the default ones.
pub(crate) fn new_limits(wanted: &Option<Limits>) -> Limits
    ensures exact { result ≡ new_limits wanted.now }
    ensures range { CanBeLimits result }
{
    let limits = match wanted {
        Some(limits) => *limits,
        None => Limits::default(),
    };
    let _catches = limits.catches();
    let _branches = limits.branches();
    limits
}

fn is_default(limits: &Limits) -> bool
    ensures { result ≡ is_default limits.now }
{
    let default = Limits::default();
    limits.catches() == default.catches() && limits.branches() == default.branches()
}

fn are_same(limits: &Limits, others: &Limits) -> bool
    ensures { IsTrue result ↔ (limits.now ≡ others.now) }
{
    if limits.catches() != others.catches() {
        return false;
    }
    limits.branches() == others.branches()
}
