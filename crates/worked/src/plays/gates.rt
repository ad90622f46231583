//! Gates at which the seats of a run wait for each other.
use crate::plays::commands::number;
use crate::plays::faults::PlayFault;
use crate::words::{meaning_of, split_word};
use bstr::ByteSlice;
use camp_run::{Gate, SectionGate, TurnGate};
use std::alloc::Global;
use std::sync::Wait;
use std::sync::atomic::{AtomicU64, Ordering};
use std::thread;

/// How often a seat polls before it gives up.
const MOST_POLLS: u32 = 100_000_000;

#[derive(Clone, Copy, PartialEq)]
enum Kind {
    Before,
    Asks,
    Writes,
    Exchange,
    After,
    End,
}

/// A scheduling event: its kind, the seat, and a number (the index of the call; the compare-exchanges that
/// the call has lost; 0 at the start and the end of a section).
#[derive(Clone, Copy, PartialEq)]
struct Event {
    kind: Kind,
    seat: u32,
    number: u32,
}

/// A delay: at an event of one seat it waits until an event of another one.
#[derive(Drop)]
struct Delay {
    at: Event,
    until: Event,
    has_come: AtomicU64,
    has_passed: AtomicU64,
    gave_up: AtomicU64,
}

impl Delay {
    fn wait(&self) {
        for _ in 0..MOST_POLLS {
            if self.has_come.load(Ordering::SeqCst) == 1 {
                self.has_passed.store(1, Ordering::SeqCst);
                return;
            }
            thread::yield_now();
        }
        self.gave_up.store(1, Ordering::SeqCst);
    }

    fn is_kept(&self) -> bool {
        self.has_passed.load(Ordering::SeqCst) == 1 && self.gave_up.load(Ordering::SeqCst) == 0
    }
}

/// The delays of a run.
#[derive(Drop)]
pub(crate) struct Delays {
    all: Vec<Delay>,
}

impl Delays {
    pub(crate) fn new(alloc: Global) -> Delays {
        Delays {
            all: Vec::new(alloc),
        }
    }

    /// Reads the lines at the start that begin with `wait`. Returns the lines after them.
    pub(crate) fn read<'a>(&mut self, lines: &'a [&'a [u8]]) -> Result<&'a [&'a [u8]], PlayFault> {
        for (at, line) in lines.iter().enumerate() {
            match line.strip_prefix(b"wait ") {
                Some(words) => self.push(words)?,
                None => return Ok(&lines[at..]),
            }
        }
        Ok(&[])
    }

    /// Adds a delay by words such as `before 1 0 until after 2 0`.
    fn push(&mut self, words: &[u8]) -> Result<(), PlayFault> {
        let (at, until) = events_of(words)?;
        let delay = Delay {
            at,
            until,
            has_come: AtomicU64::new(0),
            has_passed: AtomicU64::new(0),
            gave_up: AtomicU64::new(0),
        };
        Ok(self.all.push(delay)?)
    }

    pub(crate) fn are_none(&self) -> bool {
        self.all.is_empty()
    }

    /// True if each delay took place, and no seat gave up waiting.
    pub(crate) fn are_kept(&self) -> bool {
        for delay in &self.all {
            if !delay.is_kept() {
                return false;
            }
        }
        true
    }

    fn notify(&self, kind: Kind, seat: u32, number: u32) {
        let event = Event { kind, seat, number };
        for delay in &self.all {
            if delay.until == event {
                delay.has_come.store(1, Ordering::SeqCst);
            }
        }
        for delay in &self.all {
            if delay.at == event {
                delay.wait();
            }
        }
    }
}

impl Gate for Delays {
    fn before(&self, seat: u32, call: u32) {
        self.notify(Kind::Before, seat, call);
    }

    fn exchange(&self, seat: u32, lost: u32) {
        self.notify(Kind::Exchange, seat, lost);
    }

    fn after(&self, seat: u32, call: u32) {
        self.notify(Kind::After, seat, call);
    }
}

impl SectionGate for Delays {
    fn begin(&self, seat: u32, writes: bool) {
        let kind = if writes { Kind::Writes } else { Kind::Asks };
        self.notify(kind, seat, 0);
    }

    fn end(&self, seat: u32) {
        self.notify(Kind::End, seat, 0);
    }
}

/// Delays at the events of clients that take turns; a client that is delayed keeps its turn.
#[derive(Drop)]
pub(crate) struct DelayedTurns<'a, R: Wait> {
    turn_gate: TurnGate<'a, R>,
    delays: &'a Delays,
    ended: AtomicU64,
}

impl<'a, R: Wait> DelayedTurns<'a, R> {
    pub(crate) fn new(rt: &'a R, delays: &'a Delays) -> DelayedTurns<'a, R> {
        DelayedTurns {
            turn_gate: TurnGate::new(rt),
            delays,
            ended: AtomicU64::new(0),
        }
    }

    /// Checks after a run that nobody waits, and that no section has woken more than two clients.
    pub(crate) fn are_over(&self) -> Result<(), PlayFault> {
        if self.turn_gate.waiting() != 0 {
            return Err(PlayFault::Wrong("a client still waits"));
        }
        let ended = self.ended.load(Ordering::SeqCst);
        if self.turn_gate.wakes() / 2 > ended {
            return Err(PlayFault::Wrong("clients are woken too often"));
        }
        Ok(())
    }
}

impl<'a, R: Wait> Gate for DelayedTurns<'a, R> {
    fn before(&self, seat: u32, call: u32) {
        self.turn_gate.before(seat, call);
        self.delays.before(seat, call);
    }

    fn exchange(&self, seat: u32, lost: u32) {
        self.turn_gate.exchange(seat, lost);
        self.delays.exchange(seat, lost);
    }

    fn after(&self, seat: u32, call: u32) {
        self.turn_gate.after(seat, call);
        self.delays.after(seat, call);
    }
}

impl<'a, R: Wait> SectionGate for DelayedTurns<'a, R> {
    fn begin(&self, seat: u32, writes: bool) {
        self.turn_gate.begin(seat, writes);
        self.delays.begin(seat, writes);
    }

    fn end(&self, seat: u32) {
        self.turn_gate.end(seat);
        self.ended.fetch_add(1, Ordering::SeqCst);
        self.delays.end(seat);
    }
}

const NO_DELAY: PlayFault = PlayFault::Wrong("wait MOMENT SEAT NUMBER until MOMENT SEAT NUMBER");

fn events_of(words: &[u8]) -> Result<(Event, Event), PlayFault> {
    let (at, until) = words.split_once_str(b" until ").ok_or(NO_DELAY)?;
    Ok((event_of(at)?, event_of(until)?))
}

fn event_of(words: &[u8]) -> Result<Event, PlayFault> {
    let (kind, rest) = split_word(words);
    let (seat, count) = split_word(rest);
    Ok(Event {
        kind: kind_of(kind)?,
        seat: number(seat)?,
        number: number(count)?,
    })
}

fn kind_of(word: &[u8]) -> Result<Kind, PlayFault> {
    meaning_of(KINDS, word).ok_or(NO_DELAY)
}

const KINDS: &[(&str, Kind)] = &[
    ("before", Kind::Before),
    ("asks", Kind::Asks),
    ("writes", Kind::Writes),
    ("exchange", Kind::Exchange),
    ("after", Kind::After),
    ("end", Kind::End),
];
