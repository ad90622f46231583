//! Heads and their seats.
ghost use Rattle.std.specs.Prelude.{◌<◌, All, IfOk, IfSome, length};
ghost use Rattle.camp_history.specs.Seats.{IsSeatOf};

use crate::entries::Play;
use crate::plays::commands::read_numbers;
use crate::plays::faults::PlayFault;
use crate::plays::{Answer, append_bytes, append_words};
use camp_head::{Head, HeadFault, Seat};
use camp_repo::{Call, Fault};
use camp_script::history_text;
use std::alloc::Global;
use std::sync::Wait;

/// A head and its seats, in any order.
#[derive(Drop)]
pub(crate) struct Seating {
    head: Head,
    seats: Vec<Seat>,
    ghost are_seats: { All (IsSeatOf head) seats.items },
}

const NO_SEAT: PlayFault = PlayFault::Wrong("no such seat");

impl Seating {
    /// Makes a head. The sizes are the number of seats, the calls of each, the tries of a call, and the distance
    /// between snapshots.
    pub(crate) fn new(alloc: Global, sizes: [u32; 4]) -> Result<Seating, HeadFault> {
        let [seats, per_seat, tries, every] = sizes;
        let (head, seats) = Head::new(alloc, seats, per_seat, tries, every)?;
        Ok(Seating { head, seats })
    }

    /// Executes a line about one seat or two, and appends the result.
    pub(crate) fn append_report(
        &mut self,
        play: Play,
        words: &[u8],
        text: &mut Vec<u8>,
    ) -> Result<(), PlayFault> {
        let mut seats = [u32::MAX; 2];
        read_numbers(words, &mut seats)?;
        match play {
            Play::Meet => self.append_met(seats[0], seats[1], text),
            Play::History => self.append_history(seats[0], text),
            Play::Publish => self.publish(seats[0]),
            Play::Adopted => self.append_adopted(seats[0], text),
            _ => self.append_seen(seats[0], text),
        }
    }

    /// Appends how many calls a seat has seen, and how many of its own were accepted.
    fn append_seen(&self, number: u32, text: &mut Vec<u8>) -> Result<(), PlayFault> {
        let seat = self.seat(number)?;
        let (position, accepted) = (seat.position(), seat.accepted());
        append_words(
            format!(in *text.allocator(); "position {position} accepted {accepted}\n"),
            text,
        )
    }

    /// Appends how many snapshots a seat has installed from slots.
    fn append_adopted(&self, number: u32, text: &mut Vec<u8>) -> Result<(), PlayFault> {
        let adopted = self.seat(number)?.adopted();
        append_words(format!(in *text.allocator(); "adopted {adopted}\n"), text)
    }

    /// Publishes what a seat has seen.
    fn publish(&self, number: u32) -> Result<(), PlayFault> {
        Ok(self.head.publish_snapshot(self.seat(number)?)?)
    }

    /// Appends what a seat has seen.
    fn append_history(&self, number: u32, text: &mut Vec<u8>) -> Result<(), PlayFault> {
        match self.head.history(self.seat(number)?) {
            Ok(history) => append_bytes(history_text(*text.allocator(), &history), text),
            Err(fault) => Err(PlayFault::from(fault)),
        }
    }

    fn seat(&self, number: u32) -> Result<&Seat, PlayFault>
        ensures { IfOk result (λ seat. IsSeatOf self.now.head seat.now) }
    {
        match find(&self.seats, number) {
            Some(at) => Ok(&self.seats[at]),
            None => Err(NO_SEAT),
        }
    }

    /// Stores a call and executes it at a seat.
    pub(crate) fn ask<R: Wait>(
        &mut self,
        rt: &R,
        number: u32,
        call: &Call,
    ) -> Result<Answer, PlayFault> {
        let kept = match self.head.keep(rt, call) {
            Ok(kept) => kept,
            Err(fault) => return Ok(Err(fault)),
        };
        let mut seat = take(&self.head, &mut self.seats, number)?;
        let (position, accepted) = (seat.position(), seat.accepted());
        let answer = self.head.ask(&mut seat, kept);
        let is_kept = seat.accepted() == accepted && seat.position() >= position;
        put(&self.head, &mut self.seats, seat)?;
        if let Err(Fault::Memory) = answer {
            if !is_kept {
                return Err(PlayFault::Wrong("out of memory, and another seat"));
            }
        }
        Ok(answer)
    }

    fn append_met(&mut self, first: u32, second: u32, text: &mut Vec<u8>) -> Result<(), PlayFault> {
        self.meet(first, second)?;
        Ok(text.extend_from_slice(b"met\n")?)
    }

    /// Synchronises the first seat with the second.
    fn meet(&mut self, first: u32, second: u32) -> Result<(), PlayFault> {
        if first == second || find(&self.seats, first).is_none() {
            return Err(NO_SEAT);
        }
        let second = take(&self.head, &mut self.seats, second)?;
        let first = take(&self.head, &mut self.seats, first)?;
        let (first, second, answer) = self.head.meet(first, second);
        put(&self.head, &mut self.seats, first)?;
        put(&self.head, &mut self.seats, second)?;
        Ok(answer?)
    }
}

fn find(seats: &[Seat], number: u32) -> Option<usize>
    ensures { IfSome result (λ at. at < length seats.now) }
{
    for (at, seat) in seats.iter().enumerate() {
        if seat.number() == number {
            return Some(at);
        }
    }
    None
}

fn take(head: &Head, seats: &mut Vec<Seat>, number: u32) -> Result<Seat, PlayFault>
    requires { All (IsSeatOf head.now) seats.old.items }
    ensures left { All (IsSeatOf head.now) seats.new.items }
    ensures taken { IfOk result (IsSeatOf head.now) }
{
    match find(seats, number) {
        Some(at) => Ok(seats.remove(at)),
        None => Err(NO_SEAT),
    }
}

fn put(head: &Head, seats: &mut Vec<Seat>, seat: Seat) -> Result<(), PlayFault>
    requires left { All (IsSeatOf head.now) seats.old.items }
    requires seat { IsSeatOf head.now seat }
    ensures { All (IsSeatOf head.now) seats.new.items }
{
    Ok(seats.push(seat)?)
}
