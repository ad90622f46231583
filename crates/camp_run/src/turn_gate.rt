//! A gate at which clients over a head take turns.
ghost use Rattle.std.specs.Prelude.{◌<◌};

use camp_clients::SectionGate;
use camp_head::Gate;
use std::array::from_fn;
use std::sync::Wait;
use std::sync::atomic::{AtomicU64, Ordering};
use std::time::Duration;

/// Microseconds for which the first client of the queue sleeps between two polls, unless it is woken. The second sleeps
/// four times as long, the third nine times, and so on.
const PAUSE: u64 = 100;
/// The number of positions in the queue for which clients sleep longer than those before them; all after them sleep as
/// long as the last of these.
const POSITIONS: u64 = 8;
/// The number of polls that find the same owner of the turn, after which a client sleeps four times as long until the
/// owner changes.
const POLLS_BEFORE_LONG_PAUSE: u32 = 4;
/// Polls after which a client stops waiting.
const MOST_POLLS: u32 = 1_000;
/// Polls without progress within a call after which the owner of the turn counts as stalled.
const POLLS_UNTIL_STALLED: u32 = 8;
/// Polls without progress between two calls after which the owner counts as gone.
const POLLS_UNTIL_GONE: u32 = 2;
/// The most seats of a head.
const SEATS: u64 = 64;
/// The number of phases of a step.
const PHASES: u64 = 4;

/// The phase of the owner of the turn.
#[derive(Clone, Copy)]
enum Phase {
    /// It executes a query, or has executed all of its calls.
    Idle,
    /// It decides a call.
    Deciding,
    /// It publishes a call by a compare-exchange.
    Publishing,
    /// It has tried to publish a call.
    Published,
}

impl Phase {
    /// Returns the phase as a number, 0 to 3.
    fn number(self) -> u64 {
        match self {
            Phase::Idle => 0,
            Phase::Deciding => 1,
            Phase::Publishing => 2,
            Phase::Published => 3,
        }
    }
}

/// Encodes the step that comes after `step` as one number: the count of steps, the phase, and the seat.
fn next_step(step: u64, phase: Phase, seat: u32) -> u64 {
    let count = (step / (PHASES * SEATS)).wrapping_add(1);
    let high = count.wrapping_mul(PHASES).wrapping_add(phase.number());
    high.wrapping_mul(SEATS).wrapping_add(seat as u64 % SEATS)
}

/// Returns the phase of a step.
fn phase_of(step: u64) -> Phase {
    match step / SEATS % PHASES {
        0 => Phase::Idle,
        1 => Phase::Deciding,
        2 => Phase::Publishing,
        _ => Phase::Published,
    }
}

/// True if a step is one of a seat.
fn is_step_of(step: u64, seat: u32) -> bool {
    step % SEATS == seat as u64 % SEATS
}

/// Returns the distance from the seat of a step to another seat, in the order of their numbers.
fn seats_between(step: u64, seat: u32) -> u64
    ensures { result < 64 }
{
    (seat as u64 % SEATS + 2 * SEATS - 1 - step % SEATS) % SEATS
}

/// Counts the seats between that of a step and another one whose bits are set.
fn set_bits_between(bits: u64, step: u64, seat: u32) -> u64 {
    let first = (step % SEATS) as u32 + 1;
    let nearer = 1u64
        .rotate_left(seats_between(step, seat) as u32)
        .wrapping_sub(1);
    (bits.rotate_right(first) & nearer).count_ones() as u64
}

/// Returns the number of polls without progress after which the next client takes the turn.
fn polls_before_taking(step: u64) -> u32 {
    match phase_of(step) {
        Phase::Idle => 0,
        Phase::Published => POLLS_UNTIL_GONE,
        Phase::Deciding | Phase::Publishing => POLLS_UNTIL_STALLED,
    }
}

/// What a waiting client has found at its polls.
#[derive(Drop)]
struct Watch {
    /// The last step, and a bit for each seat that waited.
    found: (u64, u64),
    /// Successive polls that found both unchanged.
    unchanged: u32,
    /// Successive polls that found the turn with the same seat.
    polls: u32,
}

impl Watch {
    fn new() -> Watch {
        Watch {
            found: (0, 0),
            unchanged: 0,
            polls: 0,
        }
    }

    /// Stores the last step and the waiting seats that a poll found.
    fn note_poll(&mut self, step: u64, waiting: u64) {
        let (last, before) = self.found;
        let is_same = step == last && waiting == before;
        let is_one_turn = step % SEATS == last % SEATS;
        self.unchanged = if is_same {
            self.unchanged.saturating_add(1)
        } else {
            0
        };
        self.polls = if is_one_turn {
            self.polls.saturating_add(1)
        } else {
            0
        };
        self.found = (step, waiting);
    }

    /// True if a client with `before` clients before it in the queue may take the turn, since the owner has made no
    /// progress.
    fn may_take_turn(&self, before: u64) -> bool {
        let step = self.found.0;
        before == 0 && self.unchanged >= polls_before_taking(step)
            || self.unchanged >= POLLS_UNTIL_STALLED
    }

    /// Returns how long a client sleeps that has `before` clients before it in the queue.
    fn pause(&self, before: u64) -> Duration {
        let times = before.min(POSITIONS - 1) + 1;
        let pause = PAUSE * times * times;
        let is_long = self.polls > POLLS_BEFORE_LONG_PAUSE;
        Duration::from_micros(if is_long {
            pause.saturating_mul(4)
        } else {
            pause
        })
    }
}

/// Returns the index of the wake count of a seat.
fn index_of(seat: u64) -> usize
    ensures { result < 64 }
{
    (seat % SEATS) as usize
}

/// The wake counts on which the clients sleep.
#[derive(Drop)]
struct WakeCounts {
    /// For each seat the number of times that its client was woken.
    counts: [AtomicU64; 64],
}

impl WakeCounts {
    fn new() -> WakeCounts {
        WakeCounts {
            counts: from_fn(|_| AtomicU64::new(0)),
        }
    }

    /// Returns the wake count of a seat: how often its client was woken.
    fn count(&self, seat: u64) -> u64 {
        self.counts[index_of(seat)].load(Ordering::SeqCst)
    }

    /// Wakes the client of a seat.
    fn wake(&self, seat: u64) {
        let index = index_of(seat);
        self.counts[index].fetch_add(1, Ordering::SeqCst);
        self.counts[index].wake_one();
    }

    /// Sleeps until the client of a seat is woken or the time is over. Returns at once if the wake count is not `count`
    /// any more.
    fn sleep<R: Wait>(&self, rt: &R, seat: u64, count: u64, time: Duration) {
        let low = (count % 4_294_967_296) as u32;
        self.counts[index_of(seat)].park_timeout(rt, low, time);
    }
}

/// A gate at which clients take turns: one executes its calls, and the others that want to publish wait, for a limited
/// time, in the order of their seats. If all published at once, one would succeed, and the others would have to decide
/// their calls again. No answer depends on the gate. A waiting client has published nothing, so nobody waits for it; an
/// owner that makes no progress loses the turn.
#[derive(Drop)]
pub struct TurnGate<'a, R: Wait> {
    rt: &'a R,
    /// The last step of the client that owns the turn.
    step: AtomicU64,
    /// A bit for each seat that waits.
    waiting: AtomicU64,
    wake_counts: WakeCounts,
}

impl<'a, R: Wait> TurnGate<'a, R> {
    /// Makes a gate at which nobody has the turn.
    pub fn new(rt: &'a R) -> TurnGate<'a, R> {
        TurnGate {
            rt,
            step: AtomicU64::new(Phase::Idle.number()),
            waiting: AtomicU64::new(0),
            wake_counts: WakeCounts::new(),
        }
    }

    /// Returns the number of clients that wait at this moment: 0 once a run has ended.
    pub fn waiting(&self) -> u32 {
        self.all_waiting().count_ones()
    }

    /// Returns how often clients were woken so far, which is at most two times for each section that has ended.
    pub fn wakes(&self) -> u64 {
        let mut wakes = 0u64;
        for seat in 0..SEATS {
            wakes = wakes.wrapping_add(self.wake_counts.count(seat));
        }
        wakes
    }

    fn last_step(&self) -> u64 {
        self.step.load(Ordering::SeqCst)
    }

    fn all_waiting(&self) -> u64 {
        self.waiting.load(Ordering::SeqCst)
    }

    /// Replaces the last step by the next one, if the last step is still `step`; true if it was.
    fn advance(&self, step: u64, phase: Phase, seat: u32) -> bool {
        let next = next_step(step, phase, seat);
        self.step
            .compare_exchange(step, next, Ordering::SeqCst, Ordering::SeqCst)
            .is_ok()
    }

    /// Wakes the client of the first of the seats, counted from `from`, whose bits are set.
    fn wake_first(&self, from: u64, bits: u64) {
        if bits != 0 {
            self.wake_counts
                .wake(from.wrapping_add(bits.trailing_zeros() as u64));
        }
    }

    /// Wakes the next two clients of the queue.
    fn wake_next(&self, seat: u32) {
        let from = seat as u64 % SEATS + 1;
        let bits = self.all_waiting().rotate_right(from as u32);
        self.wake_first(from, bits);
        self.wake_first(from, bits & bits.wrapping_sub(1));
    }

    /// Waits in the queue, visible to the other clients.
    fn wait_in_queue(&self, seat: u32, lost: u32) {
        let bit = 1u64.rotate_left(seat % 64);
        self.waiting.fetch_or(bit, Ordering::SeqCst);
        self.wait_for_turn(seat, lost);
        self.waiting.fetch_and(!bit, Ordering::SeqCst);
    }

    /// Waits for the turn, for a limited time, and takes it. A client that is woken but is not next publishes once
    /// without the turn: this shows it the newest calls, so it has few to see when its turn comes.
    fn wait_for_turn(&self, seat: u32, lost: u32) {
        let first_count = self.wake_counts.count(seat as u64);
        let mut watch = Watch::new();
        for _ in 0..MOST_POLLS {
            let count = self.wake_counts.count(seat as u64);
            let step = self.last_step();
            watch.note_poll(step, self.all_waiting());
            let before = set_bits_between(watch.found.1, step, seat);
            if watch.may_take_turn(before) && self.advance(step, Phase::Publishing, seat) {
                return;
            }
            if lost == 0 && count != first_count {
                return;
            }
            let pause = watch.pause(before);
            self.wake_counts.sleep(self.rt, seat as u64, count, pause);
        }
    }
}

impl<'a, R: Wait> Gate for TurnGate<'a, R> {
    fn before(&self, seat: u32, _call: u32) {
        let step = self.last_step();
        if is_step_of(step, seat) {
            self.advance(step, Phase::Deciding, seat);
        }
    }

    /// Waits for the turn, unless the seat has it. The compare-exchange that follows a wait usually fails, since other
    /// calls came in between; it shows the seat the newest call, and the seat tries again at once.
    fn exchange(&self, seat: u32, lost: u32) {
        let step = self.last_step();
        if is_step_of(step, seat) && self.advance(step, Phase::Publishing, seat) {
            return;
        }
        self.wait_in_queue(seat, lost);
    }

    fn after(&self, seat: u32, _call: u32) {
        let step = self.last_step();
        if !is_step_of(step, seat) {
            return;
        }
        let phase = match phase_of(step) {
            Phase::Publishing => Phase::Published,
            Phase::Idle | Phase::Deciding | Phase::Published => Phase::Idle,
        };
        self.advance(step, phase, seat);
    }
}

impl<'a, R: Wait> SectionGate for TurnGate<'a, R> {
    /// Waits for the turn before a section that begins with a call that writes, unless the seat has the turn. Without
    /// the turn the call would usually lose its exchange, and slow the owner down while threads are still being
    /// started.
    fn begin(&self, seat: u32, writes: bool) {
        if writes && !is_step_of(self.last_step(), seat) {
            self.wait_in_queue(seat, 0);
        }
    }

    fn end(&self, seat: u32) {
        let step = self.last_step();
        if is_step_of(step, seat) && self.advance(step, Phase::Idle, seat) {
            self.wake_next(seat);
        }
    }
}
