//! Members of a log that share a repository: opened, asked and closed.
ghost use Rattle.std.specs.Option.{option_map_or};
ghost use Rattle.std.specs.Prelude.{◌≡◌, ◌+◌, ◌*◌, ◌^◌, ◌++◌, None, length, take, drop, min, IfErr, IfOk};
ghost use Rattle.camp_c.specs.Inside.{HoldsMember};
ghost use Rattle.camp_c.specs.Handles.{OnMember, OpensClosed, member_in, text_of_member};
ghost use Rattle.camp_c.specs.Members.{AsksOneCall, EndsOne, FindsOne, OpensOneMember, OpensViewOfMember, RefusesOne, RemovesAnswer, RendersOne, RestoresOne, TakesSeat, WantsOne};
ghost use Rattle.camp_shared.specs.Sharing.{IsNotOpened};

use crate::codes::{ALREADY_OPEN, DONE, MEMORY};
use crate::handles::Handle;
use crate::member_codes;
use crate::objects::OpenObject;
use crate::repositories::copy_front;
use crate::views::open_made;
use camp_shared_session::{OpenFault, SharedSession};
use camp_talk::View;
use std::alloc::Global;

/// Opens a closed handle on a new member of a seat that no other process has, over the log whose first entry is this
/// title. A seat has 128 bits, in two halves.
#[unsafe(no_mangle)]
pub extern "C" fn camp_member_open(
    alloc: Global,
    handle: &mut Handle,
    seat_high: u64,
    seat_low: u64,
    title: &[u8],
) -> i32
    ensures { OpensClosed (OpensOneMember (seat_high * 2 ^ 64 + seat_low) title.now) handle.old.keeper.held result handle.new.keeper.held }
{
    if handle.is_open() {
        return ALREADY_OPEN;
    }
    match begin(alloc, seat_of(seat_high, seat_low), title) {
        Ok(object) => {
            handle.put(object);
            DONE
        }
        Err(fault) => member_codes::opening(fault),
    }
}

// Returns the seat with these halves.
fn seat_of(high: u64, low: u64) -> u128
    ensures { result ≡ high * 2 ^ 64 + low }
{
    (high as u128) * 18_446_744_073_709_551_616 + (low as u128)
}

fn begin(alloc: Global, seat: u128, title: &[u8]) -> Result<Box<OpenObject>, OpenFault>
    ensures opened { IfOk result (λ object. HoldsMember seat title.now object.value) }
    ensures fault { IfErr result (IsNotOpened title.now) }
{
    let session = SharedSession::new(alloc, seat, title)?;
    match Box::new(alloc, OpenObject::Member(session)) {
        Ok(object) => Ok(object),
        Err(_) => Err(OpenFault::Memory),
    }
}

/// Takes another seat, unless a request waits: for a process that was forked.
#[unsafe(no_mangle)]
pub extern "C" fn camp_member_take_seat(
    alloc: Global,
    handle: &mut Handle,
    seat_high: u64,
    seat_low: u64,
) -> i32
    ensures { OnMember (TakesSeat (seat_high * 2 ^ 64 + seat_low)) handle.old.keeper.held result handle.new.keeper.held }
{
    let seat = seat_of(seat_high, seat_low);
    handle.on_member(alloc, |member| {
        if member.take_seat(seat) {
            DONE
        } else {
            member_codes::WAITS
        }
    })
}

/// Queues the call in a text under a number that the caller chooses, to be answered when the history has `at_least`
/// accepted calls or more.
#[unsafe(no_mangle)]
pub extern "C" fn camp_member_ask(
    alloc: Global,
    handle: &mut Handle,
    id: u64,
    text: &[u8],
    at_least: u64,
) -> i32
    ensures { OnMember (AsksOneCall id text.now at_least) handle.old.keeper.held result handle.new.keeper.held }
{
    handle.on_member(alloc, |member| {
        member_codes::asking(member.ask(alloc, id, text, at_least))
    })
}

/// Answers the first requests that can be answered at what was read, and returns what the member wants of its log, with
/// a number and a text.
#[unsafe(no_mangle)]
pub extern "C" fn camp_member_want(alloc: Global, handle: &mut Handle) -> i32
    ensures { OnMember WantsOne handle.old.keeper.held result handle.new.keeper.held }
{
    handle.on_member(alloc, |member| want(alloc, member))
}

fn want(alloc: Global, member: &mut SharedSession) -> i32
    ensures { WantsOne member.old result member.new }
{
    match member.want(alloc) {
        Ok(wanted) => member_codes::want(wanted),
        Err(_) => MEMORY,
    }
}

/// Reads the text of the entry at an index of the log, in order; the title has index 0.
#[unsafe(no_mangle)]
pub extern "C" fn camp_member_found(
    alloc: Global,
    handle: &mut Handle,
    index: usize,
    text: &[u8],
) -> i32
    ensures { OnMember (FindsOne index text.now) handle.old.keeper.held result handle.new.keeper.held }
{
    handle.on_member(alloc, |member| {
        member_codes::reading(member.found(alloc, index, text))
    })
}

/// Restores the text that a snapshot of the log has at an index, in order; entries before it may be missing.
#[unsafe(no_mangle)]
pub extern "C" fn camp_member_restore(
    alloc: Global,
    handle: &mut Handle,
    index: usize,
    text: &[u8],
) -> i32
    ensures { OnMember (RestoresOne index text.now) handle.old.keeper.held result handle.new.keeper.held }
{
    handle.on_member(alloc, |member| {
        member_codes::reading(member.restore(alloc, index, text))
    })
}

/// Reports that the log has refused the entry under way, which will never be in it.
#[unsafe(no_mangle)]
pub extern "C" fn camp_member_refused(alloc: Global, handle: &mut Handle) -> i32
    ensures { OnMember RefusesOne handle.old.keeper.held result handle.new.keeper.held }
{
    handle.on_member(alloc, |member| match member.refused() {
        Ok(()) => DONE,
        Err(_) => MEMORY,
    })
}

/// Reports that the log ends at an index: it has as many entries, with its title.
#[unsafe(no_mangle)]
pub extern "C" fn camp_member_ended(alloc: Global, handle: &mut Handle, index: usize) -> i32
    ensures { OnMember (EndsOne index) handle.old.keeper.held result handle.new.keeper.held }
{
    handle.on_member(alloc, |member| end(member, index))
}

fn end(member: &mut SharedSession, index: usize) -> i32
    ensures { EndsOne index member.old result member.new }
{
    match member.ended(index) {
        Ok(()) => DONE,
        Err(_) => MEMORY,
    }
}

/// Removes the next answer, in the order of the requests: the number is that of its request, and the text is the reply.
#[unsafe(no_mangle)]
pub extern "C" fn camp_member_answer(alloc: Global, handle: &mut Handle) -> i32
    ensures { OnMember RemovesAnswer handle.old.keeper.held result handle.new.keeper.held }
{
    handle.on_member(alloc, |member| take_answer(alloc, member))
}

fn take_answer(alloc: Global, member: &mut SharedSession) -> i32
    ensures { RemovesAnswer member.old result member.new }
{
    match member.answer(alloc) {
        Ok(answered) => member_codes::answer(answered),
        Err(_) => MEMORY,
    }
}

/// Renders the accepted call at an index of the history, after its note, as the text.
#[unsafe(no_mangle)]
pub extern "C" fn camp_member_call(alloc: Global, handle: &mut Handle, at: usize) -> i32
    ensures { OnMember (RendersOne at) handle.old.keeper.held result handle.new.keeper.held }
{
    handle.on_member(alloc, |member| match member.call(alloc, at) {
        Ok(true) => DONE,
        Ok(false) => member_codes::NOTHING,
        Err(_) => MEMORY,
    })
}

/// Returns the number that a member returned last.
#[unsafe(no_mangle)]
pub extern "C" fn camp_member_number(alloc: Global, handle: &mut Handle) -> u64
    ensures same { handle.new.keeper.held ≡ handle.old.keeper.held }
    ensures number { result ≡ option_map_or (λ member. member.number) (member_in handle.old.keeper.held) 0 }
{
    handle.in_member(alloc, 0, |member| member.number())
}

/// Returns the number of bytes of the text that a member returned last.
#[unsafe(no_mangle)]
pub extern "C" fn camp_member_text_length(alloc: Global, handle: &mut Handle) -> usize
    ensures same { handle.new.keeper.held ≡ handle.old.keeper.held }
    ensures length { result ≡ length (text_of_member handle.old.keeper.held) }
{
    handle.in_member(alloc, 0, |member| member.text().len())
}

/// Writes as much of the text that a member returned last as fits in a buffer, and returns the number of bytes written.
#[unsafe(no_mangle)]
pub extern "C" fn camp_member_text(alloc: Global, handle: &mut Handle, buffer: &mut [u8]) -> usize
    ensures same { handle.new.keeper.held ≡ handle.old.keeper.held }
    ensures count { result ≡ min (length buffer.old) (length (text_of_member handle.old.keeper.held)) }
    ensures bytes { buffer.new ≡ take result (text_of_member handle.old.keeper.held) ++ drop result buffer.old }
{
    let Some(object) = handle.take(alloc) else {
        return 0;
    };
    let count = copy_front(object.text(), buffer);
    handle.put(object);
    count
}

/// Returns the index of the entry that a member reads next; the title has index 0.
#[unsafe(no_mangle)]
pub extern "C" fn camp_member_index(alloc: Global, handle: &mut Handle) -> usize
    ensures same { handle.new.keeper.held ≡ handle.old.keeper.held }
    ensures index { result ≡ option_map_or (λ member. member.member.reading.index + 1) (member_in handle.old.keeper.held) 0 }
{
    handle.in_member(alloc, 0, |member| member.index())
}

/// Returns the number of accepted calls in what a member has read.
#[unsafe(no_mangle)]
pub extern "C" fn camp_member_accepted(alloc: Global, handle: &mut Handle) -> u64
    ensures same { handle.new.keeper.held ≡ handle.old.keeper.held }
    ensures accepted { result ≡ option_map_or (λ member. length member.member.reading.history) (member_in handle.old.keeper.held) 0 }
{
    handle.in_member(alloc, 0, |member| member.accepted())
}

/// Opens a closed handle on a view of the repository after what a member has read.
#[unsafe(no_mangle)]
pub extern "C" fn camp_member_look(alloc: Global, handle: &mut Handle, view: &mut Handle) -> i32
    ensures same { handle.new.keeper.held ≡ handle.old.keeper.held }
    ensures opens { OpensViewOfMember handle.old.keeper.held view.old.keeper.held result view.new.keeper.held }
{
    let made = handle.in_member(alloc, None, |member| Some(View::of(alloc, member.state())));
    open_made(alloc, handle, made, view)
}

/// Closes a member.
#[unsafe(no_mangle)]
pub extern "C" fn camp_member_close(alloc: Global, handle: &mut Handle)
    ensures { handle.new.keeper.held ≡ None }
{
    let _object = handle.take(alloc);
}
