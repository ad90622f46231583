//! Paths of camp at which a tree may have changed.

ghost use Rattle.std.specs.Prelude.{None, Some, IfOk};
ghost use Rattle.camp_coding.specs.Attributes.{MakesPath};
ghost use Rattle.camp_coding.specs.GitTrees.{place_path};
ghost use Rattle.camp_import.specs.Inside.Changing.{AddsPlace, AddsPlaces};

use camp_base::{BaseFault, Path};
use camp_coding::{Attribute, encode_attribute_path, encode_path};
use camp_share::{Share, SharedMap};
use std::alloc::{AllocError, Global};

/// Adds to a set the paths in camp of a path of git and of its attributes.
pub(crate) fn with_places(
    alloc: Global,
    paths: &SharedMap<Path, ()>,
    path: &[u8],
) -> Result<SharedMap<Path, ()>, AllocError>
    ensures { IfOk result (λ set. AddsPlaces path.now paths.now set) }
{
    let own = with_place(alloc, paths, None, path)?;
    let mode = with_place(alloc, &own, Some(Attribute::ModeLine), path)?;
    let newline = with_place(alloc, &mode, Some(Attribute::LacksNewline), path)?;
    let wrapped = with_place(alloc, &newline, Some(Attribute::Wrapped), path)?;
    Ok(wrapped)
}

fn with_place(
    alloc: Global,
    paths: &SharedMap<Path, ()>,
    place: Option<Attribute>,
    path: &[u8],
) -> Result<SharedMap<Path, ()>, AllocError>
    ensures { IfOk result (λ set. AddsPlace (place_path place path.now) paths.now set) }
{
    match place_of(alloc, place, path) {
        Ok(camp_path) => {
            let more = paths.inserted(camp_path, ())?;
            Ok(more)
        }
        Err(BaseFault::BadPath) => {
            let same = paths.share()?;
            Ok(same)
        }
        Err(_) => Err(AllocError),
    }
}

fn place_of(alloc: Global, place: Option<Attribute>, path: &[u8]) -> Result<Path, BaseFault>
    ensures { MakesPath (place_path place path.now) result }
{
    match place {
        Some(attribute) => encode_attribute_path(alloc, attribute, path),
        None => encode_path(alloc, path),
    }
}
