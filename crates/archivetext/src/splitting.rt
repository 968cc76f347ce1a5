//! The lines of a text, one after the other.
ghost use Rattle.std.specs.Prelude.{◌≡◌, ◌+◌, ◌<◌, ◌^◌, length, Ok};

use crate::faults::{LineFault, PackFault};

/// The lines of a text that are left to read, and how many were read.
#[derive(Clone, Copy)]
pub(crate) struct Lines<'a> {
    read: usize,
    rest: &'a [u8],
    ghost counted: { read + length rest.now < 2 ^ 64 },
}

impl<'a> Lines<'a> {
    ghost use Rattle.archivetext.specs.Pack.{at_end};
    ghost use Rattle.archivetext.specs.Packing.{number, Split};

    pub(crate) fn of(text: &'a [u8]) -> Lines<'a>
        ensures rest { result.rest.now ≡ text.now }
        ensures read { result.read ≡ 0 }
    {
        Lines {
            read: 0,
            rest: text,
        }
    }

    /// The first line and those behind it, if there is a line feed.
    pub(crate) fn first(self) -> Option<(&'a [u8], Lines<'a>)>
        ensures { Split self.entry result }
    {
        let len = self.rest.iter().position(|byte| *byte == b'\n')?;
        let (line, rest) = self.rest.split_at(len);
        let behind = Lines {
            read: self.read + 1,
            rest: &rest[1..],
        };
        Some((line, behind))
    }

    /// The number of the next line, which begins somewhere in the text.
    pub(crate) fn number(self) -> usize
        requires { 0 < length self.rest.now }
        ensures { result ≡ number self.entry }
    {
        self.read + 1
    }

    /// The fault of the next line.
    pub(crate) fn fault(self, why: LineFault) -> PackFault
        requires { 0 < length self.rest.now }
        ensures { result ≡ record { line = number self.entry; why = why } }
    {
        PackFault {
            line: self.number(),
            why,
        }
    }

    /// Nothing may stand behind the last line feed.
    pub(crate) fn end(self) -> Result<(), PackFault>
        ensures { result ≡ at_end (number self.entry) self.entry.rest.now (Ok tt) }
    {
        if !self.rest.is_empty() {
            return Err(self.fault(LineFault::NotEnded));
        }
        Ok(())
    }
}
