//! The lines of a text, each with its number and where it begins.
ghost use Rattle.std.specs.Prelude.{◌≡◌, ◌+◌, ◌^◌, ◌<◌, ◌≤◌, length};
ghost use Rattle.keys.specs.Words.{Lacks};

use crate::words::cut;
use faults::{LineFault, Place};

/// A line of the text, without its end: its number, from 1, and where it begins.
#[derive(Clone, Copy)]
pub(crate) struct Line<'t> {
    pub bytes: &'t [u8],
    pub number: usize,
    pub offset: usize,
    ghost endless: { Lacks 10 bytes.now },
    ghost within: { offset + length bytes.now < 2 ^ 64 },
}

impl Line<'_> {
    ghost use Rattle.text.specs.Passing.{spot_of};

    /// The place of the line.
    pub(crate) fn place(&self) -> Place
        ensures { result ≡ spot_of self.now }
    {
        Place::of(self.number, self.offset, self.bytes)
    }
}

/// The lines of a text that are still to come, how many were passed, and where the next one begins.
#[derive(Drop)]
pub(crate) struct Lines<'t> {
    rest: &'t [u8],
    pub passed: usize,
    offset: usize,
    ghost within: { offset + length rest.now < 2 ^ 63 },
    ghost counted: { passed ≤ offset },
}

impl<'t> Lines<'t> {
    ghost use Rattle.std.specs.Prelude.{MatchResult};
    ghost use Rattle.text.specs.Passing.{Passes, Next, Unended, Stuck};

    /// All lines of a text.
    pub(crate) fn of(text: &'t [u8]) -> Lines<'t>
        ensures rest { result.rest.now ≡ text.now }
        ensures passed { result.passed ≡ 0 }
        ensures offset { result.offset ≡ 0 }
    {
        Lines {
            rest: text,
            passed: 0,
            offset: 0,
        }
    }

    /// Passes the next line, or refuses what has no end and passes nothing.
    pub(crate) fn pass(&mut self) -> Result<Line<'t>, LineFault>
        ensures { MatchResult result (Passes self.old self.new) (Unended self.old self.new) }
    {
        let number = self.passed + 1;
        let offset = self.offset;
        let Some((bytes, rest)) = cut(self.rest, b'\n') else {
            return Err(LineFault::Misformed(Place::of(number, offset, self.rest)));
        };
        *self = Lines {
            rest,
            passed: number,
            offset: offset + bytes.len() + 1,
        };
        Ok(Line {
            bytes,
            number,
            offset,
        })
    }

    /// The same, unless the text is at its end.
    // no `Iterator`: one that goes on after an error has no end, and the lines passed are counted afterwards
    pub(crate) fn next(&mut self) -> Result<Option<Line<'t>>, LineFault>
        ensures { MatchResult result (Next self.old self.new) (Stuck self.old self.new) }
    {
        if self.rest.is_empty() {
            return Ok(None);
        }
        self.pass().map(Some)
    }
}
