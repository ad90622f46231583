//! Callers of `camp_call`.
ghost use Rattle.std.specs.Prelude.{◌≡◌, true, IfOk, MatchOption};
ghost use Rattle.camp_call.specs.Calls.{IsCall, is_writing};
ghost use Rattle.camp_call.specs.Patches.{IsPatchSized};

use camp_base::Name;
use camp_call::{Call, Changes};
use camp_prim::Primitive;
use std::alloc::AllocError;

/// Returns the call that records these changes under a name, or `None` for no change or too many.
pub fn record(branch: Name, name: Name, prims: Vec<Primitive>) -> Option<Call>
    ensures exact { MatchOption result
        (¬ (IsPatchSized prims.items))
        (λ call. (call ≡ Call.Record branch name prims.items) × IsCall call × (is_writing call ≡ true)) }
{
    let Some(changes) = Changes::new(prims) else {
        return None;
    };
    Some(Call::Record {
        branch,
        name,
        changes,
    })
}

/// Copies a call, and compares the copy with it: the two are equal.
pub fn copied(call: &Call) -> Result<(Call, bool), AllocError>
    ensures copy { IfOk result (λ both. both.0 ≡ call.now) }
    ensures same { IfOk result (λ both. both.1 ≡ true) }
{
    let copy = call.try_clone()?;
    let is_same = copy.is_same(call);
    Ok((copy, is_same))
}
