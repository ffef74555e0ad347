//! Reading a script from its bytes, as they come: each line is read as soon as it has ended, and
//! only the unfinished one is kept.
ghost use Rattle.std.specs.Prelude.{ℕ, List, [], ◌∷◌, ◌++◌, OnOk};
ghost use Rattle.amr_events.specs.Answers.{Answers, Stops};
ghost use Rattle.amr_events.specs.Scripts.{ScriptIs};
ghost use Rattle.amr_events.specs.ScriptReaders.{HasRead, Follows, IsRefusedAfter, IsOneLine};

use crate::draft::{Draft, LONGEST_LINE};
use crate::error::{Fault, ScriptError};
use crate::script::Script;
use memchr::memchr;
use std::alloc::Global;

/// A reader of a script: JSON lines (jsonlines.org), each an event as `read_event` reads it.
///
/// A line feed ends a line; the last line may lack it. Lines of nothing but JSON's white space are
/// skipped, but counted. The script is of version 2 if the first line that isn't blank is the
/// object `{"v":2}`, which is no event, and else of version 1. A line has at most 1,048,576 bytes,
/// and a script at most 1,000,000 events. It fails with the first faulty line: one that is too
/// long, then one event too many, then a line that isn't an event.
#[derive(Drop)]
pub struct ScriptReader {
    /// The lines that have ended.
    draft: Draft,
    /// The bytes of the line that hasn't.
    unfinished: Vec<u8>,
}

impl ScriptReader {
    /// Returns a reader of a script of which no byte was read.
    #[tactic(auto, using(crate::proofs::ReaderSteps::none_read, crate::proofs::LineSteps::nothing_read))]
    pub fn new(alloc: Global) -> ScriptReader
        ensures { HasRead [] result }
    {
        ScriptReader {
            draft: Draft::new(alloc),
            unfinished: Vec::new(alloc),
        }
    }

    /// Reads more bytes. The script is refused at the first faulty line, as soon as it has ended or
    /// is too long, whatever follows it.
    pub fn add_bytes(&mut self, bytes: &[u8]) -> Result<(), ScriptError>
        ensures read { OnOk result (Follows bytes.now self.old self.new) }
        ensures refused { Stops (IsRefusedAfter bytes.now self.old) result }
    {
        let mut left = bytes;
        while let Some(end) = memchr(b'\n', left) {
            self.end_line(&left[..end])?;
            left = &left[end + 1..];
        }
        self.keep(left)
    }

    /// Reads the last line, which may lack its line feed, and returns the script.
    pub fn finish(self) -> Result<Script, ScriptError>
        ensures { (bytes : List ℕ) → HasRead bytes self → Answers (ScriptIs bytes) result }
    {
        let mut draft = self.draft;
        draft.add_line(self.unfinished.as_slice())?;
        Ok(Script::new(draft.version, draft.events))
    }

    /// Reads the rest of a line and the line feed after it. A line of which nothing was kept isn't
    /// copied.
    fn end_line(&mut self, rest: &[u8]) -> Result<(), ScriptError>
        requires { IsOneLine rest.now }
        ensures read { OnOk result (Follows (rest.now ++ 10 ∷ []) self.old self.new) }
        ensures refused { Stops (IsRefusedAfter (rest.now ++ 10 ∷ []) self.old) result }
    {
        if self.unfinished.is_empty() {
            return self.draft.add_line(rest);
        }
        self.keep(rest)?;
        self.draft.add_line(self.unfinished.as_slice())?;
        self.unfinished.clear();
        Ok(())
    }

    /// Keeps more bytes of the unfinished line.
    #[tactic(auto, using(crate::proofs::ReaderSteps::kept, crate::proofs::ReaderSteps::too_long))]
    fn keep(&mut self, part: &[u8]) -> Result<(), ScriptError>
        requires { IsOneLine part.now }
        ensures read { OnOk result (Follows part.now self.old self.new) }
        ensures refused { Stops (IsRefusedAfter part.now self.old) result }
    {
        if self.unfinished.len() + part.len() > LONGEST_LINE {
            return Err(ScriptError::Refused(Fault::LineTooLong {
                line: self.draft.number,
            }));
        }
        self.unfinished.extend_from_slice(part)?;
        Ok(())
    }
}
