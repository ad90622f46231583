//! The files that catches change, as small hashes of their paths.
ghost use Rattle.std.specs.Prelude.{◌≡◌, ◌<◌, map, length, IfOk};
ghost use Rattle.std.specs.List.{AllByRecursion, list_any};
ghost use Rattle.camp_questions.specs.Inside.ChangedFiles.{AreFilesOf, BecomeMarked, path_hash, is_marked, catch_hash};

use crate::fast::patch_catches::PatchCatches;
use camp_base::Path;
use camp_catch::Catch;
use camp_share::Shared;
use std::alloc::{AllocError, Global};

/// The number of possible hashes. Two files with the same hash count as one, which only costs a slower check.
pub(crate) const HASHES: usize = 4093;

/// The files that a patch changes: for each of its catches the hash of the path.
#[derive(Drop)]
pub(crate) struct PatchFiles {
    pub numbers: Vec<usize>,
}

/// Returns for each of some patches the hashes of the files that it changes.
pub(crate) fn files_of(
    alloc: Global,
    patches: &[PatchCatches],
) -> Result<Vec<PatchFiles>, AllocError>
    ensures { IfOk result (λ files. AreFilesOf patches.now files.items) }
{
    let mut files = Vec::with_capacity(alloc, patches.len())?;
    for patch in patches {
        let numbers = numbers_of(alloc, &patch.catches)?;
        files.push(PatchFiles { numbers })?;
    }
    Ok(files)
}

fn numbers_of(alloc: Global, catches: &[Shared<Catch>]) -> Result<Vec<usize>, AllocError>
    ensures { IfOk result (λ numbers. numbers.items ≡ map catch_hash catches.now) }
{
    let mut numbers = Vec::with_capacity(alloc, catches.len())?;
    for catch in catches {
        numbers.push(catch_hash(catch))?;
    }
    Ok(numbers)
}

/// Returns the hash of the path that a plain catch changes.
fn catch_hash(catch: &Catch) -> usize
    ensures { result ≡ catch_hash catch.now }
{
    match catch {
        Catch::Plain(p) => path_hash(p.prim.path()),
        Catch::Conflictor(_) => 0,
    }
}

/// Returns the hash of a path.
fn path_hash(path: &Path) -> usize
    ensures { result ≡ path_hash path.now }
{
    let bytes = path.bytes();
    let mut number = 0;
    for byte in bytes {
        number = (number * 31 + *byte as usize) % HASHES;
    }
    number
}

/// True if one of these hashes is marked.
pub(crate) fn is_any_marked(marks: &[bool], numbers: &[usize]) -> bool
    ensures { result ≡ list_any (is_marked marks.now) numbers.now }
{
    numbers.iter().any(|number| is_marked(marks, *number))
}

fn is_marked(marks: &[bool], number: usize) -> bool
    ensures { result ≡ is_marked marks.now number }
{
    number < marks.len() && marks[number]
}

/// Marks these hashes too.
pub(crate) fn mark_numbers(marks: &mut [bool], numbers: &[usize])
    requires { AllByRecursion (λ number. number < length marks.old) numbers.now }
    ensures { BecomeMarked marks.old numbers.now marks.new }
{
    for number in numbers {
        marks[*number] = true;
    }
}
