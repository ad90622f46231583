//! The hunks of a file with marks: the ranges of lines where versions of it differ.
ghost use Rattle.std.specs.Prelude.{◌≡◌, [], ◌∷◌, ◌++◌, map, filter, fold, if◌then◌else◌, IfOk, OnOk};
ghost use Rattle.std.specs.List.{slice_range};
ghost use Rattle.camp_questions.specs.MarkHunks.{at_range, differs_within, file_from, is_within, union_of, hunk_from, range_of, touch, with_marks, with_range};

use crate::common_lines::{common_end, common_front};
use crate::marking::{MarkedFile, MarkedHunk, Version};
use camp_base::Line;
use camp_share::SharedList;
use std::alloc::{AllocError, Global};

/// Lines of a file, from one index up to another, which is excluded; empty if the two are equal.
#[derive(Clone, Copy)]
pub struct Range {
    pub from: usize,
    pub to: usize,
}

/// Returns a file with the lines of its versions in the ranges where they differ.
pub(crate) fn with_marks(
    lines: &SharedList<Line>,
    versions: &[Version],
) -> Result<MarkedFile, AllocError>
    ensures { IfOk result (λ file. file ≡ with_marks lines.now versions.now) }
{
    let alloc = lines.allocator();
    let ranges = ranges_of(alloc, lines, versions)?;
    let found = merged_ranges(alloc, &ranges)?;
    file_with(lines, versions, &ranges, &found)
}

/// Makes the file with marks, given the hunks, and for each version the range in which it differs.
fn file_with(
    lines: &SharedList<Line>,
    versions: &[Version],
    ranges: &[Range],
    found: &[Range],
) -> Result<MarkedFile, AllocError>
    requires { ranges.now ≡ map (λ version. range_of lines.now version.lines) versions.now }
    ensures { IfOk result (λ file. file ≡ file_from lines.now versions.now 0 found.now) }
{
    let mut places = Vec::with_capacity(lines.allocator(), found.len())?;
    let mut at = 0;
    for place in found {
        let next = hunk_from(lines, versions, ranges, at, *place)?;
        places.push(next)?;
        at = place.to;
    }
    let rest = part(lines, at, lines.len())?;
    Ok(MarkedFile { places, rest })
}

/// Returns for each version the range in which it differs from the file.
fn ranges_of(
    alloc: Global,
    lines: &SharedList<Line>,
    versions: &[Version],
) -> Result<Vec<Range>, AllocError>
    ensures { IfOk result (λ ranges. ranges.items ≡ map (λ version. range_of lines.now version.lines) versions.now) }
{
    let lines = lines.to_vec()?;
    let mut ranges = Vec::with_capacity(alloc, versions.len())?;
    for version in versions {
        let others = version.lines.to_vec()?;
        ranges.push(range_of(&lines, &others))?;
    }
    Ok(ranges)
}

/// Returns the range of a file where another list of lines differs from it: the file's lines without those that both
/// have in common at the start and, in what remains, at the end.
fn range_of(lines: &[Line], others: &[Line]) -> Range
    ensures { result ≡ range_of lines.now others.now }
{
    let from = common_front(lines, others);
    let end = common_end(&lines[from..], &others[from..]);
    Range {
        from,
        to: lines.len() - end,
    }
}

/// Joins ranges that overlap or touch.
fn merged_ranges(alloc: Global, ranges: &[Range]) -> Result<Vec<Range>, AllocError>
    ensures { IfOk result (λ places. places.items ≡ fold with_range [] ranges.now) }
{
    let mut places = Vec::new(alloc);
    for range in ranges {
        places = with_range(alloc, &places, *range)?;
    }
    Ok(places)
}

/// Returns disjoint ranges in ascending order with one more added: those before it, the union with those that it
/// touches, and those after it.
fn with_range(alloc: Global, places: &[Range], range: Range) -> Result<Vec<Range>, AllocError>
    ensures { IfOk result (λ new. new.items ≡ with_range places.now range) }
{
    let mut new = Vec::from_slice(alloc, places)?;
    new.retain(|place| place.to < range.from);
    new.push(joined_with(range, places))?;
    let mut behind = Vec::from_slice(alloc, places)?;
    behind.retain(|place| range.to < place.from);
    new.extend_from_slice(&behind)?;
    Ok(new)
}

/// Returns the union of a range and those that it touches.
fn joined_with(range: Range, places: &[Range]) -> Range
    ensures { result ≡ fold union_of range (filter (touch range) places.now) }
{
    let mut whole = range;
    for place in places {
        if touch(range, *place) {
            whole = join(whole, *place);
        }
    }
    whole
}

/// True if two ranges overlap or touch.
fn touch(range: Range, other: Range) -> bool
    ensures { result ≡ touch range other }
{
    range.from <= other.to && other.from <= range.to
}

/// Returns the union of two ranges.
fn join(range: Range, other: Range) -> Range
    ensures { result ≡ union_of range other }
{
    Range {
        from: range.from.min(other.from),
        to: range.to.max(other.to),
    }
}

/// Makes a hunk whose context lines begin at an index.
fn hunk_from(
    lines: &SharedList<Line>,
    versions: &[Version],
    ranges: &[Range],
    at: usize,
    place: Range,
) -> Result<MarkedHunk, AllocError>
    requires { ranges.now ≡ map (λ version. range_of lines.now version.lines) versions.now }
    ensures { IfOk result (λ next. next ≡ hunk_from lines.now versions.now at place) }
{
    let before = part(lines, at, place.from)?;
    let within = part(lines, place.from, place.to)?;
    let sides = sides_at(lines, versions, ranges, place)?;
    Ok(MarkedHunk {
        before,
        lines: within,
        sides,
    })
}

/// Returns the sides of a hunk: of each version that differs from the file within the hunk, the lines that it has
/// there.
fn sides_at(
    lines: &SharedList<Line>,
    versions: &[Version],
    ranges: &[Range],
    place: Range,
) -> Result<Vec<Version>, AllocError>
    requires { ranges.now ≡ map (λ version. range_of lines.now version.lines) versions.now }
    ensures { IfOk result (λ sides. sides.items ≡ map (at_range lines.now place) (filter (differs_within lines.now place) versions.now)) }
{
    let mut sides = Vec::new(lines.allocator());
    for at in 0..versions.len() {
        push_within(&mut sides, lines, place, &ranges[at], &versions[at])?;
    }
    Ok(sides)
}

/// Appends a side to those of a hunk, the lines that a version has there, if the version differs from the file within
/// the hunk.
fn push_within(
    sides: &mut Vec<Version>,
    lines: &SharedList<Line>,
    place: Range,
    range: &Range,
    version: &Version,
) -> Result<(), AllocError>
    ensures { OnOk result (sides.new.items ≡
        (if is_within range.now place then sides.old.items ++ at_range lines.now place version.now ∷ [] else sides.old.items)) }
{
    if !is_within(*range, place) {
        return Ok(());
    }
    let side = at_range(lines, place, version)?;
    sides.push(side)?;
    Ok(())
}

/// True if a range is within another.
fn is_within(range: Range, place: Range) -> bool
    ensures { result ≡ is_within range place }
{
    place.from <= range.from && range.to <= place.to
}

/// Returns the lines that a version has at a hunk.
fn at_range(
    lines: &SharedList<Line>,
    place: Range,
    version: &Version,
) -> Result<Version, AllocError>
    ensures { IfOk result (λ side. side ≡ at_range lines.now place version.now) }
{
    let behind = lines.len().saturating_sub(place.to);
    let to = version.lines.len().saturating_sub(behind);
    let there = part(&version.lines, place.from, to)?;
    Ok(Version {
        name: version.name,
        lines: there,
    })
}

/// Returns the lines from one index up to another; empty past the end.
fn part(lines: &SharedList<Line>, from: usize, to: usize) -> Result<SharedList<Line>, AllocError>
    ensures { IfOk result (λ part. part ≡ slice_range lines.now from to) }
{
    let end = to.min(lines.len());
    let start = from.min(end);
    Ok(lines.copied(start, end)?)
}
