//! References, each stored under its path in camp.

ghost use Rattle.camp_commits.specs.Resolving.{ResolvesTo, reference_key};

use crate::faults::{ApplyError, CommandFault, refuse};
use camp_base::{BaseFault, Path};
use camp_coding::encode_path;
use std::alloc::Global;

/// Returns the path under which a reference is stored.
pub(crate) fn reference_key(alloc: Global, reference: &[u8]) -> Result<Path, ApplyError>
    ensures { ResolvesTo (λ key. key) result (reference_key reference.now) }
{
    match encode_path(alloc, reference) {
        Ok(key) => Ok(key),
        Err(BaseFault::BadPath) => Err(refuse(CommandFault::BadReference)),
        Err(_) => Err(ApplyError::Memory),
    }
}
