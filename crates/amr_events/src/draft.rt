//! The lines of a script that have ended, while it is read. `ScriptReader` adds a line at a time.
ghost use Rattle.std.specs.Prelude.{◌≡◌, ◌+◌, IfOk, OnOk};
ghost use Rattle.amr_events.specs.Answers.{Stops};
ghost use Rattle.amr_events.specs.Scripts.{is_blank as is_blank_line, HasFault};
ghost use Rattle.amr_events.specs.Drafts.{so_far, nothing, begins_with as begins_script_with, Adds};

use crate::actions::Event;
use crate::error::{Fault, LineError, ScriptError};
use crate::header::is_header;
use crate::line::read_line;
use crate::text_cache::TextCache;
use crate::version::Version;
use json::Scratch;
use std::alloc::{AllocError, Global};

/// The longest line, in bytes before its line feed.
pub(crate) const LONGEST_LINE: usize = 1_048_576;

/// The most events of a script.
const MOST_EVENTS: usize = 1_000_000;

/// What the lines so far were read as.
#[derive(Drop)]
pub(crate) struct Draft {
    pub(crate) version: Version,
    pub(crate) events: Vec<Event>,
    /// The number of the next line, from 1.
    pub(crate) number: u64,
    alloc: Global,
    scratch: Scratch,
    cache: TextCache,
}

impl Draft {
    /// Returns a draft of no line.
    pub(crate) fn new(alloc: Global) -> Draft
        ensures nothing { so_far result ≡ nothing }
        ensures number { result.number ≡ 1 }
    {
        Draft {
            version: Version::One,
            events: Vec::new(alloc),
            number: 1,
            alloc,
            scratch: Scratch::new(alloc),
            cache: TextCache::new(alloc),
        }
    }

    /// Reads the next line, and counts it. A count that doesn't fit a `u64` is out of memory.
    pub(crate) fn add_line(&mut self, line: &[u8]) -> Result<(), ScriptError>
        ensures added { OnOk result (Adds line.now (so_far self.old) (so_far self.new)) }
        ensures counted { OnOk result (self.new.number ≡ self.old.number + 1) }
        ensures fault { Stops (HasFault self.old.number
            (begins_script_with (so_far self.old) line.now) line.now (so_far self.old)) result }
    {
        self.read_line(line)?;
        self.number = self.number.checked_add(1).ok_or(AllocError)?;
        Ok(())
    }

    /// Reads the next line, and appends its event unless the line is blank or is the header.
    fn read_line(&mut self, line: &[u8]) -> Result<(), ScriptError>
        ensures added { OnOk result (Adds line.now (so_far self.old) (so_far self.new)) }
        ensures number { OnOk result (self.new.number ≡ self.old.number) }
        ensures fault { Stops (HasFault self.old.number
            (begins_script_with (so_far self.old) line.now) line.now (so_far self.old)) result }
    {
        let number = self.number;
        if line.len() > LONGEST_LINE {
            return Err(ScriptError::Refused(Fault::LineTooLong { line: number }));
        }
        if is_blank(line) {
            return Ok(());
        }
        if self.begins_with(line)? {
            self.version = Version::Two;
            return Ok(());
        }
        if self.events.len() >= MOST_EVENTS {
            return Err(ScriptError::Refused(Fault::TooManyEvents));
        }
        let event = read_line(
            self.alloc,
            self.version,
            &mut self.scratch,
            &mut self.cache,
            line,
        );
        match event {
            Ok(event) => {
                self.events.push(event)?;
                Ok(())
            }
            Err(LineError::Memory) => Err(ScriptError::Memory),
            Err(LineError::Faulty) => Err(ScriptError::Refused(Fault::BadLine { line: number })),
        }
    }

    /// Returns whether the line is the header. Only a line before all events can be.
    fn begins_with(&self, line: &[u8]) -> Result<bool, AllocError>
        ensures { IfOk result (λ header. header ≡ begins_script_with (so_far self.now) line.now) }
    {
        match self.version {
            Version::One if self.events.is_empty() => is_header(self.alloc, line),
            _ => Ok(false),
        }
    }
}

/// Returns whether a line has nothing but JSON's white space.
fn is_blank(line: &[u8]) -> bool
    ensures { result ≡ is_blank_line line.now }
{
    line.iter()
        .all(|byte| matches!(*byte, b' ' | b'\t' | b'\n' | b'\r'))
}
