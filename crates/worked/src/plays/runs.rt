//! Scripts that are run in one thread, over a lock or over a head.
ghost use Rattle.std.specs.Prelude.{◌↔◌, ◌<◌, ◌≤◌, IsTrue};
ghost use Rattle.camp_clients.specs.Sections.{most_run_tries};

use crate::entries::Play;
use crate::plays::commands::{number, read_numbers};
use crate::plays::faults::{NO_COMMAND, NO_LINE, PlayFault, ran};
use crate::plays::gates::{DelayedTurns, Delays};
use crate::plays::{Entry, append_words};
use crate::words::{joined, meaning_of, split_word};
use bstr::ByteSlice;
use camp_run::{Limits, NoGate, run_book, run_head, run_head_at, run_locked};
use std::alloc::{AllocError, Global};
use std::io::{Read, Write};
use std::sync::Wait;
use std::thread::Threads;
use worked_ends::{Reader, Sizes, Writer};

/// How a script is run.
#[derive(Clone, Copy)]
enum Means {
    /// In one thread.
    Book,
    /// In threads over a lock.
    Locked,
    /// In threads over a head; a call gives up after this many lost exchanges.
    Head(u32),
    /// In threads over a head, with clients that take turns.
    Turns(u32),
}

const MEANS: &[(&str, Means)] = &[
    ("book", Means::Book),
    ("locked", Means::Locked),
    ("head", Means::Head(100)),
    ("turns", Means::Turns(100)),
];

/// What is shown of a run.
#[derive(Clone, Copy)]
enum Output {
    /// Its output, with the history.
    Answers,
    /// How its calls were answered.
    Counts,
    /// The bytes that arrived at its writer; its reader and its writer may fail.
    Ends,
}

#[derive(Clone, Copy)]
struct Manner {
    means: Means,
    output: Output,
    sizes: Sizes,
}

/// A reader and a writer that never fail.
const ENDLESS: Sizes = Sizes {
    reads: u32::MAX,
    read_size: u32::MAX,
    writes: u32::MAX,
    write_size: u32::MAX,
    times: 0,
};

/// A script, and the delays of the seats of a run.
#[derive(Drop)]
struct Run {
    manner: Manner,
    delays: Delays,
    commands: Vec<u8>,
}

/// Runs the script of an entry, and appends what is to be shown of the run.
pub(crate) fn append_run<R: Threads + Wait + Sync>(
    rt: &R,
    entry: Entry<'_>,
    text: &mut Vec<u8>,
) -> Result<(), PlayFault> {
    let run = run_of(*text.allocator(), entry)?;
    let mut writer = run.writer(*text.allocator());
    let ended = run.play(rt, *text.allocator(), &mut writer);
    run.append_output(ended, &writer, text)
}

fn run_of(alloc: Global, entry: Entry<'_>) -> Result<Run, PlayFault> {
    let manner = manner_of(entry)?;
    let mut delays = Delays::new(alloc);
    let lines = delays.read(entry.body)?;
    let commands = joined(alloc, lines)?;
    Ok(Run {
        manner,
        delays,
        commands,
    })
}

/// Parses a run from a line such as `run head 3 counts` or `ends book: 9 1 9 1 0`.
fn manner_of(entry: Entry<'_>) -> Result<Manner, PlayFault> {
    let (_, words) = split_word(entry.first);
    if matches!(entry.play, Play::Ends) {
        return failing(words);
    }
    let (words, output) = match words.strip_suffix(b" counts") {
        Some(words) => (words, Output::Counts),
        None => (words, Output::Answers),
    };
    Ok(Manner {
        means: means_of(words)?,
        output,
        sizes: ENDLESS,
    })
}

fn failing(words: &[u8]) -> Result<Manner, PlayFault> {
    let Some((words, numbers)) = words.split_once_str(b": ") else {
        return Err(NO_COMMAND);
    };
    let mut sizes = [0; 5];
    read_numbers(numbers, &mut sizes)?;
    let [reads, read_size, writes, write_size, times] = sizes;
    Ok(Manner {
        means: means_of(words)?,
        output: Output::Ends,
        sizes: Sizes {
            reads,
            read_size,
            writes,
            write_size,
            times,
        },
    })
}

fn means_of(words: &[u8]) -> Result<Means, PlayFault> {
    let (word, tries) = split_word(words);
    match meaning_of(MEANS, word) {
        Some(Means::Head(_)) if !tries.is_empty() => Ok(Means::Head(number(tries)?)),
        Some(Means::Turns(_)) if !tries.is_empty() => Ok(Means::Turns(number(tries)?)),
        Some(means) => Ok(means),
        None => Err(NO_LINE),
    }
}

fn is_allowed(tries: u32) -> bool
    ensures { IsTrue result ↔ ((0 < tries) × (tries ≤ most_run_tries)) }
{
    0 < tries && tries <= 1_000
}

impl Run {
    fn writer(&self, alloc: Global) -> Writer {
        Writer::new(alloc, self.manner.sizes, false)
    }

    fn play<R: Threads + Wait + Sync>(
        &self,
        rt: &R,
        alloc: Global,
        writer: &mut Writer,
    ) -> Result<(), PlayFault> {
        let mut reader = Reader::new(&self.commands, self.manner.sizes);
        answer(rt, alloc, self.manner, &self.delays, &mut reader, writer)
    }

    /// Appends what is to be shown of a run with this result. A run for which memory runs out is tried again.
    fn append_output(
        &self,
        ended: Result<(), PlayFault>,
        writer: &Writer,
        text: &mut Vec<u8>,
    ) -> Result<(), PlayFault> {
        if writer.wants_memory() {
            return Err(PlayFault::Memory);
        }
        match self.manner.output {
            Output::Ends => append_ends(ended, writer.written(), text),
            output => {
                self.is_well(ended, writer.written())?;
                append_written(output, writer.written(), text)
            }
        }
    }

    /// Checks that a run for which memory ran out has written nothing.
    fn is_well(&self, ended: Result<(), PlayFault>, written: &[u8]) -> Result<(), PlayFault> {
        match ended {
            Err(PlayFault::Memory) if !written.is_empty() => {
                Err(PlayFault::Wrong("out of memory, and a text"))
            }
            Ok(()) if !self.delays.are_kept() => Err(PlayFault::Wrong("a seat gave up")),
            ended => ended,
        }
    }
}

fn answer<T: Threads + Wait + Sync, R: Read, W: Write>(
    rt: &T,
    alloc: Global,
    manner: Manner,
    delays: &Delays,
    reader: &mut R,
    writer: &mut W,
) -> Result<(), PlayFault> {
    let history = matches!(manner.output, Output::Answers);
    let limits = Limits::default();
    match manner.means {
        Means::Book => ran(run_book(alloc, limits, reader, writer, history)),
        Means::Locked => ran(run_locked(rt, alloc, limits, reader, writer, history)),
        Means::Head(tries) if is_allowed(tries) => {
            if delays.are_none() {
                return ran(run_head(rt, alloc, limits, reader, writer, history, tries, &NoGate));
            }
            ran(run_head_at(
                rt, alloc, limits, reader, writer, history, tries, delays, delays,
            ))
        }
        Means::Turns(tries) if is_allowed(tries) => {
            let gate = DelayedTurns::new(rt, delays);
            ran(run_head_at(
                rt, alloc, limits, reader, writer, history, tries, &gate, &gate,
            ))?;
            gate.are_over()
        }
        Means::Head(_) | Means::Turns(_) => Err(PlayFault::Wrong("1 to 1000 tries")),
    }
}

/// Appends the bytes that arrived, or how the run failed and how many bytes arrived.
fn append_ends(
    ended: Result<(), PlayFault>,
    written: &[u8],
    text: &mut Vec<u8>,
) -> Result<(), PlayFault> {
    match ended {
        Ok(()) => Ok(text.extend_from_slice(written)?),
        Err(PlayFault::Memory) => Err(PlayFault::Memory),
        Err(fault) => {
            let count = written.len();
            let words = fault.words(*text.allocator())?;
            append_words(
                format!(in *text.allocator(); "{words} behind {count} bytes\n"),
                text,
            )
        }
    }
}

fn append_written(output: Output, written: &[u8], text: &mut Vec<u8>) -> Result<(), PlayFault> {
    match output {
        Output::Counts => append_words(counts_text(*text.allocator(), written), text),
        _ => Ok(text.extend_from_slice(written)?),
    }
}

/// Appends how many calls were accepted, refused and busy.
fn counts_text(alloc: Global, answers: &[u8]) -> Result<String, AllocError> {
    let accepted = count(answers, b"ok ");
    let refused = count(answers, b"refused ");
    let busy = count(answers, b"busy ");
    format!(in alloc; "accepted {accepted} refused {refused} busy {busy}\n")
}

/// Counts the lines that begin with these bytes.
fn count(text: &[u8], prefix: &[u8]) -> u32 {
    let mut count = 0_u32;
    for line in text.lines() {
        if line.starts_with(prefix) {
            count = count.saturating_add(1);
        }
    }
    count
}
