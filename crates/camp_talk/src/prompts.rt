//! Prompts for a person at a terminal: one asks for each line.
use std::alloc::Global;
use std::io::{self, BufRead, Read, Write};

/// The text before the first prompt.
const GREETING: &[u8] =
    b"camp keeps branches of named patches. help lists the commands, why explains the last fault or refusal; end ends a body, done a group, quit the session.\n";

/// The kind of the next line.
#[derive(Clone, Copy, Drop)]
enum NextLine {
    /// The first line of a command.
    Command,
    /// A further line of a body or a group.
    Inside,
    /// None: the input ended after a line without a line feed.
    End,
}

/// A reader of lines that writes a prompt before each line.
#[derive(Drop)]
pub(crate) struct Prompting<R, W> {
    reader: R,
    prompts: W,
    next_line: NextLine,
    /// The unread rest of the last line, with its line feed; without one if the input ends after that line.
    line: Vec<u8>,
}

impl<R: BufRead, W: Write> Prompting<R, W> {
    pub(crate) fn new(alloc: Global, reader: R, prompts: W) -> Self {
        let mut prompting = Prompting {
            reader,
            prompts,
            next_line: NextLine::Command,
            line: Vec::new(alloc),
        };
        prompting.show(GREETING);
        prompting
    }

    /// Prepares for the first line of a command.
    pub(crate) fn begin(&mut self) {
        self.next_line = NextLine::Command;
    }

    // Writes a text. If this fails, the error is reported when the next answer can't be written.
    fn show(&mut self, text: &[u8]) {
        if self.prompts.write_all(text).is_ok() {
            let _ = self.prompts.flush();
        }
    }

    // Asks for the next line by a prompt, and reads it. Returns none at the end of the input, and for a command `quit`.
    fn ask_line(&mut self) -> io::Result<()> {
        match self.next_line {
            NextLine::Command => self.show(b"camp> "),
            NextLine::Inside => self.show(b"....> "),
            NextLine::End => {}
        }
        self.line.clear();
        if self.reader.read_until(b'\n', &mut self.line)? == 0 {
            self.show(b"\n");
        }
        if matches!(self.next_line, NextLine::Command)
            && self.line.trim_ascii() == b"quit".as_slice()
        {
            self.line.clear();
        }
        self.next_line = if self.line.ends_with(b"\n") {
            NextLine::Inside
        } else {
            NextLine::End
        };
        Ok(())
    }
}

impl<R: BufRead, W: Write> Read for Prompting<R, W> {
    fn read(&mut self, buf: &mut [u8]) -> io::Result<usize> {
        let mut shown = self.fill_buf()?;
        let count = shown.read(buf)?;
        self.consume(count);
        Ok(count)
    }
}

impl<R: BufRead, W: Write> BufRead for Prompting<R, W> {
    fn fill_buf(&mut self) -> io::Result<&[u8]> {
        if self.line.is_empty() {
            self.ask_line()?;
        }
        Ok(self.line.as_slice())
    }

    fn consume(&mut self, amount: usize) {
        let used = amount.min(self.line.len());
        self.line.drain(..used);
    }
}
