//! Views: each has the state that a repository had at one moment, and answers only questions.
ghost use Rattle.std.specs.Prelude.{◌≡◌, ◌++◌, None, length, take, drop, min, IfOk, IsOkAnd};
ghost use Rattle.camp_c.specs.Handles.{OnView, OpensClosed, OpensFrom, OpensView, OpensViewAgain, SeesOne, answer_of_view, view_in};
ghost use Rattle.camp_c.specs.Inside.{Shows};
ghost use Rattle.camp_c.specs.declared.objects.OpenObject.TheVariants.{View as OfView};

use crate::codes::{ALREADY_OPEN, DONE, MEMORY, NOT_OPEN, WRONG_KIND};
use crate::handles::Handle;
use crate::objects::OpenObject;
use crate::repositories::copy_front;
use camp_talk::View;
use std::alloc::{AllocError, Global};

/// Opens a closed handle on a view of a repository as it is now.
#[unsafe(no_mangle)]
pub extern "C" fn camp_look(alloc: Global, handle: &mut Handle, view: &mut Handle) -> i32
    ensures same { handle.new.keeper.held ≡ handle.old.keeper.held }
    ensures opens { OpensView handle.old.keeper.held view.old.keeper.held result view.new.keeper.held }
{
    let made = handle.in_repository(alloc, None, |repository| Some(repository.view(alloc)));
    open_made(alloc, handle, made, view)
}

/// Opens a closed handle on a view that was made of the value of another handle; `None` if that has no value of the
/// kind.
pub(crate) fn open_made(
    alloc: Global,
    from: &Handle,
    made: Option<Result<View, AllocError>>,
    handle: &mut Handle,
) -> i32
    ensures { OpensFrom Shows made from.now.keeper.held handle.old.keeper.held result handle.new.keeper.held }
{
    match made {
        Some(view) => open_shown(alloc, view, handle),
        None if from.is_open() => WRONG_KIND,
        None => NOT_OPEN,
    }
}

// Opens a closed handle on a view, if memory has not run out for the view.
fn open_shown(alloc: Global, view: Result<View, AllocError>, handle: &mut Handle) -> i32
    ensures { OpensClosed (Shows view) handle.old.keeper.held result handle.new.keeper.held }
{
    if handle.is_open() {
        return ALREADY_OPEN;
    }
    match boxed(alloc, view) {
        Ok(object) => {
            handle.put(object);
            DONE
        }
        Err(_) => MEMORY,
    }
}

fn boxed(alloc: Global, view: Result<View, AllocError>) -> Result<Box<OpenObject>, AllocError>
    ensures { IfOk result (λ object. IsOkAnd view (λ view. object.value ≡ OfView view)) }
{
    let view = view?;
    Ok(Box::new(alloc, OpenObject::View(view))?)
}

/// Answers the questions in a text by the state of a view. Only the view's answer changes.
#[unsafe(no_mangle)]
pub extern "C" fn camp_view_ask(alloc: Global, view: &mut Handle, text: &[u8]) -> i32
    ensures { OnView (SeesOne text.now) view.old.keeper.held result view.new.keeper.held }
{
    view.on_view(alloc, |view| match view.ask(alloc, text) {
        Ok(()) => DONE,
        Err(_) => MEMORY,
    })
}

/// Returns the number of bytes of the answer to the last text.
#[unsafe(no_mangle)]
pub extern "C" fn camp_view_answer_length(alloc: Global, view: &mut Handle) -> usize
    ensures same { view.new.keeper.held ≡ view.old.keeper.held }
    ensures length { result ≡ length (answer_of_view view.old.keeper.held) }
{
    view.in_view(alloc, 0, |view| view.answer().len())
}

/// Writes as much of the answer to the last text as fits in a buffer, and returns the number of bytes
/// written.
#[unsafe(no_mangle)]
pub extern "C" fn camp_view_answer(alloc: Global, view: &mut Handle, buffer: &mut [u8]) -> usize
    ensures same { view.new.keeper.held ≡ view.old.keeper.held }
    ensures count { result ≡ min (length buffer.old) (length (answer_of_view view.old.keeper.held)) }
    ensures bytes { buffer.new ≡ take result (answer_of_view view.old.keeper.held) ++ drop result buffer.old }
{
    let Some(object) = view.take(alloc) else {
        return 0;
    };
    let count = copy_front(object.answer_of_view(), buffer);
    view.put(object);
    count
}

/// Sets `at` to the first byte of the answer to the last text, which stays there until the next call with this
/// handle, and returns the number of bytes. If there is no view, `at` is unchanged.
#[unsafe(no_mangle)]
pub extern "C" fn camp_lend_view_answer(
    alloc: Global,
    view: &mut Handle,
    at: &mut *const u8,
) -> usize
    ensures same { view.new.keeper.held ≡ view.old.keeper.held }
    ensures length { result ≡ length (answer_of_view view.old.keeper.held) }
    ensures unlent { view_in view.old.keeper.held ≡ None → at.new ≡ at.old }
{
    let Some(object) = view.take(alloc) else {
        return 0;
    };
    let length = object.lend_answer_of_view(at);
    view.put(object);
    length
}

/// Opens a closed handle on one more view of the state of a view.
#[unsafe(no_mangle)]
pub extern "C" fn camp_view_again(alloc: Global, view: &mut Handle, other: &mut Handle) -> i32
    ensures same { view.new.keeper.held ≡ view.old.keeper.held }
    ensures opens { OpensViewAgain view.old.keeper.held other.old.keeper.held result other.new.keeper.held }
{
    let made = view.in_view(alloc, None, |view| Some(view.again(alloc)));
    open_made(alloc, view, made, other)
}

/// Closes a view.
#[unsafe(no_mangle)]
pub extern "C" fn camp_view_close(alloc: Global, view: &mut Handle)
    ensures { view.new.keeper.held ≡ None }
{
    let _object = view.take(alloc);
}
