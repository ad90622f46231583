//! Callers of `camp_script`.
ghost use Rattle.std.specs.Prelude.{◌≡◌, ◌++◌, ◌∷◌, [], IfOk, IfErr, codes};
ghost use Rattle.std.specs.Fmt.{decimal};
ghost use Rattle.camp_script.specs.declared.faults.ScriptFault.TheVariants as fault;

use camp_repo::Reply;
use camp_script::{Script, ScriptFault, answer_text, read_script};
use std::alloc::{AllocError, Global};

/// Returns the text of the reply to an accepted call.
pub fn done(alloc: Global, at: u64) -> Result<Vec<u8>, AllocError>
    ensures exact { IfOk result (λ text. text.items ≡ codes "ok " ++ decimal at ++ codes "\n") }
{
    answer_text(alloc, &Ok(Reply::Done(at)))
}

/// Reads an empty input as a script: it has one section, without a call.
pub fn empty(alloc: Global) -> Result<Script, ScriptFault>
    ensures script { IfOk result (λ script. script ≡ [] ∷ []) }
    ensures fault { IfErr result (λ why. why ≡ fault.Memory) }
{
    read_script(alloc, b"")
}
