//! Repositories: opened, asked and closed.
ghost use Rattle.std.specs.Option.{option_map_or};
ghost use Rattle.std.specs.Prelude.{◌≡◌, ◌++◌, None, length, take, drop, min, IfOk};
ghost use Rattle.camp_c.specs.Handles.{AsksOne, OnRepository, OpensRepository, OpensWithin, answer_of, repository_in};
ghost use Rattle.camp_repo.specs.Limits.{bounded, default_bounds};
ghost use Rattle.camp_talk.specs.Sessions.{new_repository};
ghost use Rattle.camp_c.specs.declared.objects.OpenObject.TheVariants.{Session as OfSession};

use crate::codes::{ALREADY_OPEN, DONE, LIMITS, MEMORY};
use crate::handles::Handle;
use crate::objects::OpenObject;
use camp_talk::{Limits, Session};
use std::alloc::{AllocError, Global};

/// Opens a closed handle on a new repository with the default limits: one branch `main` without a patch.
#[unsafe(no_mangle)]
pub extern "C" fn camp_open(alloc: Global, handle: &mut Handle) -> i32
    ensures { OpensRepository default_bounds handle.old.keeper.held result handle.new.keeper.held }
{
    open(alloc, handle, Limits::default())
}

/// Opens a closed handle on a new repository with these limits: 1 to 16,777,216 catches of a branch, and 1 to
/// 65,536 branches.
#[unsafe(no_mangle)]
pub extern "C" fn camp_open_with(
    alloc: Global,
    handle: &mut Handle,
    catches: usize,
    branches: usize,
) -> i32
    ensures { OpensWithin (bounded catches branches) handle.old.keeper.held result handle.new.keeper.held }
{
    match Limits::new(catches, branches) {
        Ok(limits) => open(alloc, handle, limits),
        Err(_) if handle.is_open() => ALREADY_OPEN,
        Err(_) => LIMITS,
    }
}

fn open(alloc: Global, handle: &mut Handle, limits: Limits) -> i32
    ensures { OpensRepository limits handle.old.keeper.held result handle.new.keeper.held }
{
    if handle.is_open() {
        return ALREADY_OPEN;
    }
    match begin(alloc, limits) {
        Ok(object) => {
            handle.put(object);
            DONE
        }
        Err(_) => MEMORY,
    }
}

fn begin(alloc: Global, limits: Limits) -> Result<Box<OpenObject>, AllocError>
    ensures { IfOk result (λ object. object.value ≡ OfSession (new_repository limits)) }
{
    let session = Session::with_limits(alloc, limits)?;
    Ok(Box::new(alloc, OpenObject::Session(session))?)
}

/// Executes the commands of a text, which is a conversation of its own. If memory runs out, exactly the first
/// ones were executed, as many as `camp_executed` returns.
#[unsafe(no_mangle)]
pub extern "C" fn camp_ask(alloc: Global, handle: &mut Handle, text: &[u8]) -> i32
    ensures { OnRepository (AsksOne text.now) handle.old.keeper.held result handle.new.keeper.held }
{
    handle.on_repository(alloc, |repository| match repository.ask(alloc, text) {
        Ok(()) => DONE,
        Err(_) => MEMORY,
    })
}

/// Returns how many commands of the last text were executed, each blank line and comment among them.
#[unsafe(no_mangle)]
pub extern "C" fn camp_executed(alloc: Global, handle: &mut Handle) -> usize
    ensures same { handle.new.keeper.held ≡ handle.old.keeper.held }
    ensures count { result ≡ option_map_or (λ repository. repository.executed) (repository_in handle.old.keeper.held) 0 }
{
    handle.in_repository(alloc, 0, |repository| repository.executed())
}

/// Returns the number of bytes of the answer to the last text.
#[unsafe(no_mangle)]
pub extern "C" fn camp_answer_length(alloc: Global, handle: &mut Handle) -> usize
    ensures same { handle.new.keeper.held ≡ handle.old.keeper.held }
    ensures length { result ≡ length (answer_of handle.old.keeper.held) }
{
    handle.in_repository(alloc, 0, |repository| repository.answer().len())
}

/// Writes as much of the answer to the last text as fits in a buffer, and returns the number of bytes
/// written.
#[unsafe(no_mangle)]
pub extern "C" fn camp_answer(alloc: Global, handle: &mut Handle, buffer: &mut [u8]) -> usize
    ensures same { handle.new.keeper.held ≡ handle.old.keeper.held }
    ensures count { result ≡ min (length buffer.old) (length (answer_of handle.old.keeper.held)) }
    ensures bytes { buffer.new ≡ take result (answer_of handle.old.keeper.held) ++ drop result buffer.old }
{
    let Some(object) = handle.take(alloc) else {
        return 0;
    };
    let count = copy_front(object.answer(), buffer);
    handle.put(object);
    count
}

/// Sets `at` to the first byte of the answer to the last text, which stays there until the next call with this
/// handle, and returns the number of bytes. If there is no repository, `at` is unchanged.
#[unsafe(no_mangle)]
pub extern "C" fn camp_lend_answer(alloc: Global, handle: &mut Handle, at: &mut *const u8) -> usize
    ensures same { handle.new.keeper.held ≡ handle.old.keeper.held }
    ensures length { result ≡ length (answer_of handle.old.keeper.held) }
    ensures unlent { repository_in handle.old.keeper.held ≡ None → at.new ≡ at.old }
{
    let Some(object) = handle.take(alloc) else {
        return 0;
    };
    let length = object.lend_answer(at);
    handle.put(object);
    length
}

/// Writes as many bytes as fit in a buffer.
pub(crate) fn copy_front(from: &[u8], to: &mut [u8]) -> usize
    ensures count { result ≡ min (length to.old) (length from.now) }
    ensures bytes { to.new ≡ take result from.now ++ drop result to.old }
{
    let count = to.len().min(from.len());
    to[..count].copy_from_slice(&from[..count]);
    count
}

/// Closes a handle.
#[unsafe(no_mangle)]
pub extern "C" fn camp_close(alloc: Global, handle: &mut Handle)
    ensures { handle.new.keeper.held ≡ None }
{
    let _object = handle.take(alloc);
}
