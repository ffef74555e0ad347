//! A writer that knows whether it failed. A failed write is then never taken for memory that ran
//! out, and what was written is always a prefix of the text. Everything that is printed goes
//! through it.
ghost use Rattle.std.specs.Prelude.{◌≡◌, ◌≢◌, IfOk, flat_map, false};
ghost use Rattle.std.specs.Io.KnownBytes.{WriteAppends, Keeps};
ghost use Rattle.std.specs.Io.{WritesAtMost};
ghost use Rattle.amreplay.specs.Lines.CheckedWriter.{WritesText, FailsAt};

use std::io::Write;
use thiserror::Error;

/// The writer failed after a prefix of the text.
#[derive(Clone, Copy, Debug, PartialEq, Eq, Error)]
#[error("writing failed")]
pub struct WriteFailed;

/// A writer, and whether it failed.
#[derive(Drop)]
pub struct CheckedWriter<W> {
    writer: W,
    failed: bool,
}

impl<W: Write> CheckedWriter<W> {
    /// Wraps a writer that hasn't failed.
    pub fn new(writer: W) -> CheckedWriter<W>
        ensures { result ≡ record { writer = writer; failed = false } }
    {
        CheckedWriter {
            writer,
            failed: false,
        }
    }

    /// Writes once. A write that takes no byte counts as failed.
    fn write_once(&mut self, bytes: &[u8]) -> Result<usize, WriteFailed>
        ensures bound { WritesAtMost result bytes.now }
        ensures some { IfOk result (λ taken. taken ≢ 0) }
        ensures bytes { WriteAppends (W.contents self.old.writer) (W.contents self.new.writer)
            result bytes.now }
        ensures failed { FailsAt result self.old.failed self.new.failed }
    {
        match self.writer.write(bytes) {
            Ok(taken) if taken != 0 => Ok(taken),
            _ => {
                self.failed = true;
                Err(WriteFailed)
            }
        }
    }
}

/// Writes all the bytes, in several writes if the writer takes only a part. It fails at any error
/// of the writer, even an interrupted write, and at a write that takes no byte.
pub fn write_whole<W: Write>(out: &mut CheckedWriter<W>, bytes: &[u8]) -> Result<(), WriteFailed>
    ensures written { WritesText (W.contents out.old.writer) (W.contents out.new.writer)
        result bytes.now }
    ensures failed { FailsAt result out.old.failed out.new.failed }
{
    let mut rest = bytes;
    while !rest.is_empty() {
        let taken = out.write_once(rest)?;
        rest = &rest[taken..];
    }
    Ok(())
}

/// Flushes the writer.
pub fn flush<W: Write>(out: &mut CheckedWriter<W>) -> Result<(), WriteFailed>
    ensures kept { Keeps (W.contents out.old.writer) (W.contents out.new.writer) }
    ensures failed { FailsAt result out.old.failed out.new.failed }
{
    match out.writer.flush() {
        Ok(()) => Ok(()),
        Err(_) => {
            out.failed = true;
            Err(WriteFailed)
        }
    }
}

/// Writes the parts, one after another.
pub fn write_parts<W: Write>(out: &mut CheckedWriter<W>, parts: &[&[u8]]) -> Result<(), WriteFailed>
    ensures written { WritesText (W.contents out.old.writer) (W.contents out.new.writer)
        result (flat_map (λ part. part.now) parts.now) }
    ensures failed { FailsAt result out.old.failed out.new.failed }
{
    for part in parts {
        write_whole(out, part)?;
    }
    Ok(())
}
