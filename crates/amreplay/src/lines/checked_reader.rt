//! A reader that counts its calls and knows whether it failed, so that the program can say why
//! reading ended. Files and commands are read through it.
ghost use Rattle.std.specs.Prelude.{◌≡◌, ◌<◌, false};
ghost use Rattle.std.specs.Io.{ReadsAtMost};
ghost use Rattle.std.specs.Io.KnownBytes.{ReadConsumes};
ghost use Rattle.amreplay.specs.Lines.CheckedReader.{CountsCall};

use std::io::Read;
use thiserror::Error;

/// The number of the read that isn't made any more, 2^40. It bounds the reads, so that reading
/// always ends.
const LAST_CALL: u64 = 1_099_511_627_776;

/// Reading ended before the end of the bytes: the reader failed, or it was called as often as it
/// may be.
#[derive(Clone, Copy, Debug, PartialEq, Eq, Error)]
#[error("reading ended before the end of the bytes")]
pub struct ReadFailed;

/// A reader, the number of calls, and whether one failed.
#[derive(Drop)]
pub struct CheckedReader<R> {
    reader: R,
    calls: u64,
    failed: bool,
    ghost within: { calls < 1_099_511_627_776 },
}

impl<R: Read> CheckedReader<R> {
    /// Wraps a reader that hasn't been called yet.
    pub fn new(reader: R) -> CheckedReader<R>
        ensures reader { result.reader ≡ reader }
        ensures uncalled { result.calls ≡ 0 }
        ensures sound { result.failed ≡ false }
    {
        CheckedReader {
            reader,
            calls: 0,
            failed: false,
        }
    }

    /// Reads once. Reading ends at any error of the reader, even an interrupted call, and at the
    /// call numbered `LAST_CALL`.
    pub fn read(&mut self, chunk: &mut [u8]) -> Result<usize, ReadFailed>
        ensures bound { ReadsAtMost result chunk.new }
        ensures bytes { ReadConsumes (R.remaining self.old.reader) (R.remaining self.new.reader)
            result chunk.new }
        ensures counted { CountsCall result self.old.failed self.new.failed
            self.old.calls self.new.calls }
    {
        if self.calls + 1 == LAST_CALL {
            return Err(ReadFailed);
        }
        self.calls += 1;
        match self.reader.read(chunk) {
            Ok(n) => Ok(n),
            Err(_) => {
                self.failed = true;
                Err(ReadFailed)
            }
        }
    }
}
