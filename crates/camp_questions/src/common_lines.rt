//! The common lines of two lists at their start and end.
ghost use Rattle.std.specs.Prelude.{◌≡◌, ◌≤◌, length, bytes_eq};
ghost use Rattle.camp_questions.specs.CommonLines.{common_end, common_front};

use camp_base::Line;

/// Returns the number of equal lines at the start of both.
pub(crate) fn common_front(lines: &[Line], others: &[Line]) -> usize
    ensures exact { result ≡ common_front lines.now others.now }
    ensures within { result ≤ length lines.now }
    ensures within_too { result ≤ length others.now }
{
    let most = lines.len().min(others.len());
    for at in 0..most {
        if !is_same(&lines[at], &others[at]) {
            return at;
        }
    }
    most
}

/// Returns the number of equal lines at the end of both.
pub(crate) fn common_end(lines: &[Line], others: &[Line]) -> usize
    ensures exact { result ≡ common_end lines.now others.now }
    ensures within { result ≤ length lines.now }
    ensures within_too { result ≤ length others.now }
{
    let most = lines.len().min(others.len());
    for at in 0..most {
        if !is_same(&lines[lines.len() - 1 - at], &others[others.len() - 1 - at]) {
            return at;
        }
    }
    most
}

fn is_same(line: &Line, other: &Line) -> bool
    ensures { result ≡ bytes_eq line.now other.now }
{
    line == other
}
