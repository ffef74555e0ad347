//! A session over any reader and any writer: commands are read, cut into lines, and answered.
//! `program` calls `converse`. A test can call it with any bytes.
ghost use Rattle.std.specs.Prelude.{◌≡◌, ℕ, ◌<◌, ◌≤◌, List, [], length, take, Option, MatchResult};
ghost use Rattle.std.specs.Io.KnownBytes.{Consumes, Keeps, IsAtEnd};
ghost use Rattle.amreplay.specs.Lines.CheckedReader.{CountsCall};
ghost use Rattle.amreplay.specs.Lines.CheckedWriter.{FailsAt};
ghost use Rattle.amreplay.specs.Commands.Replies.{incident_of};
ghost use Rattle.amreplay.specs.Commands.Converse.{Converses, Turns, Printed, Stands, CountsTurn};
ghost use Rattle.amreplay.specs.Commands.Talk.{StopsShort};
ghost use Rattle.amreplay.specs.Ends.{EndsBy, ReadsBy};

use crate::command_lines::Line;
use crate::commands::dispatch::answer_line;
use crate::commands::input::take_bytes;
use crate::fault::Fault;
use crate::lines::{CheckedReader, CheckedWriter, WriteFailed};
use amr_replay::Session;
use std::alloc::Global;
use std::io::{Read, Write};

/// How many bytes are asked for at once.
const CHUNK: usize = 4096;

/// Whether there may be more to read.
#[derive(Clone, Copy, Debug, PartialEq, Eq)]
enum Turn {
    More,
    Ended,
}

/// Reads commands until they end, and writes the answer to each line.
///
/// It flushes the writer after each line. Reading also ends at an error of the reader, and at the
/// read numbered 1,099,511,627,776. A line that is cut short by either isn't executed.
pub fn converse<R: Read, W: Write>(
    alloc: Global,
    session: &mut Session,
    commands: &mut CheckedReader<R>,
    out: &mut CheckedWriter<W>,
) -> Result<(), Fault>
    requires { session.old.cursor ≡ 0 }
    ensures conversed { Converses (incident_of session.old) (R.remaining commands.old.reader)
        (R.remaining commands.new.reader)
        (W.contents out.old.writer) (W.contents out.new.writer) result }
    ensures read { ReadsBy result commands.old.failed commands.new.failed commands.new.calls }
    ensures written { EndsBy result out.old.failed out.new.failed }
{
    let mut line = Line::new(alloc);
    let mut chunk = [0u8; CHUNK];
    loop {
        match take_turn(alloc, session, &mut line, &mut chunk, commands, out)? {
            Turn::More => {}
            Turn::Ended => return Ok(()),
        }
    }
}

/// Reads once, and answers the lines that end in what was read.
fn take_turn<R: Read, W: Write>(
    alloc: Global,
    session: &mut Session,
    line: &mut Line,
    chunk: &mut [u8],
    commands: &mut CheckedReader<R>,
    out: &mut CheckedWriter<W>,
) -> Result<Turn, Fault>
    requires { 0 < length chunk.old }
    ensures kept { incident_of session.new ≡ incident_of session.old }
    ensures turned { Turns (incident_of session.old) (R.remaining commands.old.reader)
        (R.remaining commands.new.reader)
        (W.contents out.old.writer) (W.contents out.new.writer) session.old.cursor
        session.new.cursor
        line.old line.new result }
    ensures counted { CountsTurn result commands.old.calls commands.new.calls }
    ensures read { ReadsBy result commands.old.failed commands.new.failed commands.new.calls }
    ensures written { EndsBy result out.old.failed out.new.failed }
{
    let n = read_once(commands, chunk)?;
    if n == 0 {
        finish(alloc, session, line, out)?;
        return Ok(Turn::Ended);
    }
    take_bytes(alloc, session, line, &chunk[..n], out)?;
    Ok(Turn::More)
}

/// Answers the last line, which has no line feed.
fn finish<W: Write>(
    alloc: Global,
    session: &mut Session,
    line: &Line,
    out: &mut CheckedWriter<W>,
) -> Result<(), WriteFailed>
    ensures kept { incident_of session.new ≡ incident_of session.old }
    ensures printed { (start : Option (List ℕ)) (bytes : List ℕ)
        → Stands (incident_of session.old) start (W.contents out.old.writer) bytes
        session.old.cursor line.now
        → MatchResult result
        (λ _. Printed (incident_of session.old) start (W.contents out.new.writer) bytes)
        (λ _. StopsShort (incident_of session.old) start (W.contents out.new.writer) bytes []) }
    ensures failed { FailsAt result out.old.failed out.new.failed }
{
    answer_line(alloc, session, line, out)
}

/// Reads once.
fn read_once<R: Read>(commands: &mut CheckedReader<R>, chunk: &mut [u8]) -> Result<usize, Fault>
    requires { 0 < length chunk.old }
    ensures read { MatchResult result
        (λ n. (n ≤ length chunk.new)
        × Consumes (R.remaining commands.old.reader) (R.remaining commands.new.reader)
        (take n chunk.new)
        × (n ≡ 0 → IsAtEnd (R.remaining commands.new.reader)))
        (λ fault. (fault ≡ Fault.CannotReadCommands)
        × Keeps (R.remaining commands.old.reader) (R.remaining commands.new.reader)) }
    ensures counted { CountsCall result commands.old.failed commands.new.failed commands.old.calls
        commands.new.calls }
{
    match commands.read(chunk) {
        Ok(n) => Ok(n),
        Err(_) => Err(Fault::CannotReadCommands),
    }
}
