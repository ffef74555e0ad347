//! The line that is being read, byte by byte. It never fails: a line that is too long, or for which
//! memory runs out, is only marked as such, and the session answers with a refusal.
ghost use Rattle.std.specs.Prelude.{[], ◌∷◌, ◌++◌, ◌≡◌, ◌≤◌, List, ℕ, true};

use std::alloc::Global;

/// The most bytes of a command line, without its line feed.
pub const LONGEST: usize = 1_048_576;

/// The bytes of a line so far. If the line is too long, only that is known of it; if memory ran
/// out, only its length.
#[derive(Debug, Drop)]
pub struct Line {
    bytes: Vec<u8>,
    len: usize,
    is_held: bool,
}

/// What is known of a line.
#[derive(Clone, Copy, Debug)]
pub enum Content<'a> {
    /// The line has more than `LONGEST` bytes.
    TooLong,
    /// The line isn't too long, but memory ran out for it.
    NoMemory,
    Held(&'a [u8]),
}

impl Line {
    ghost use Rattle.amreplay.specs.CommandLines.Content.{IsContent};
    ghost use Rattle.amreplay.specs.CommandLines.Line.{Holds, IsHeld};

    /// Returns an empty line. It takes no memory.
    pub fn new(alloc: Global) -> Line
        ensures empty { Holds result [] }
        ensures held { IsHeld result }
    {
        Line {
            bytes: Vec::new(alloc),
            len: 0,
            is_held: true,
        }
    }

    /// Appends a byte. It never fails.
    pub fn push(&mut self, byte: u8)
        ensures { (bytes : List ℕ) → Holds self.old bytes → Holds self.new (bytes ++ byte ∷ []) }
    {
        if self.len > LONGEST {
            return;
        }
        self.len += 1;
        if self.len > LONGEST {
            self.bytes.clear();
            return;
        }
        if self.is_held && self.bytes.push(byte).is_err() {
            self.is_held = false;
            self.bytes.clear();
        }
    }

    /// Empties the line, and keeps its memory.
    pub fn clear(&mut self)
        ensures empty { Holds self.new [] }
        ensures held { IsHeld self.new }
    {
        self.bytes.clear();
        self.len = 0;
        self.is_held = true;
    }

    /// Returns what is known of the line.
    pub fn content(&self) -> Content<'_>
        ensures { (bytes : List ℕ) → Holds self.now bytes → IsContent bytes result }
    {
        if self.len > LONGEST {
            return Content::TooLong;
        }
        if !self.is_held {
            return Content::NoMemory;
        }
        Content::Held(self.bytes.as_slice())
    }
}
