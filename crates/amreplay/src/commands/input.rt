//! Taking in the bytes of commands as they come, and answering each line at its line feed.
//! `converse` calls `take_bytes` after each read.
ghost use Rattle.std.specs.Prelude.{◌≡◌, [], ◌∷◌};
ghost use Rattle.amreplay.specs.Lines.CheckedWriter.{FailsAt};
ghost use Rattle.amreplay.specs.Commands.Replies.{incident_of};
ghost use Rattle.amreplay.specs.Commands.Talk.{Takes};

use crate::command_lines::Line;
use crate::commands::dispatch::answer_line;
use crate::lines::{CheckedWriter, WriteFailed};
use amr_replay::Session;
use std::alloc::Global;
use std::io::Write;

/// Takes in bytes, and answers each line that ends among them.
pub(crate) fn take_bytes<W: Write>(
    alloc: Global,
    session: &mut Session,
    line: &mut Line,
    bytes: &[u8],
    out: &mut CheckedWriter<W>,
) -> Result<(), WriteFailed>
    ensures kept { incident_of session.new ≡ incident_of session.old }
    ensures heard { Takes (incident_of session.old) (W.contents out.old.writer)
        session.old.cursor line.old
        (W.contents out.new.writer) session.new.cursor line.new result bytes.now }
    ensures failed { FailsAt result out.old.failed out.new.failed }
{
    for b in bytes {
        take_byte(alloc, session, line, *b, out)?;
    }
    Ok(())
}

/// Takes in one byte. If it is a line feed, answers the line.
fn take_byte<W: Write>(
    alloc: Global,
    session: &mut Session,
    line: &mut Line,
    b: u8,
    out: &mut CheckedWriter<W>,
) -> Result<(), WriteFailed>
    ensures kept { incident_of session.new ≡ incident_of session.old }
    ensures heard { Takes (incident_of session.old) (W.contents out.old.writer)
        session.old.cursor line.old
        (W.contents out.new.writer) session.new.cursor line.new result (b ∷ []) }
    ensures failed { FailsAt result out.old.failed out.new.failed }
{
    if b != b'\n' {
        line.push(b);
        return Ok(());
    }
    answer_line(alloc, session, line, out)?;
    line.clear();
    Ok(())
}
