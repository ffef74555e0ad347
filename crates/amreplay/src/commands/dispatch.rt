//! Answering one command line: parsing it, executing the command, and writing the answer. The
//! commands themselves are in `queries.rt` and `navigation.rt`.
ghost use Rattle.std.specs.Prelude.{◌≡◌, ◌≤◌, List, ℕ, length};
ghost use Rattle.amreplay.specs.Lines.CheckedWriter.{FailsAt};
ghost use Rattle.amreplay.specs.declared.command_lines.command.ParsedLine.TheVariants.{Asks};
ghost use Rattle.amreplay.specs.CommandLines.Line.{longest, Holds};
ghost use Rattle.amreplay.specs.Commands.Replies.{incident_of};
ghost use Rattle.amreplay.specs.Commands.Answer.{AnsweredBy, HasLineOutcome};
ghost use Rattle.amreplay.specs.Commands.Talk.{Answers};

use crate::command_lines::{Command, Content, Line, ParsedLine};
use crate::commands::answer::{Answer, Refusal, write_answer};
use crate::commands::navigation::{move_cursor, trial};
use crate::commands::queries::{list, position};
use crate::lines::{CheckedWriter, Word, WriteFailed, flush};
use amr_replay::Session;
use std::alloc::Global;
use std::io::Write;

/// Answers a line, writes the answer, and flushes the writer.
#[tactic(auto, using(crate::proofs::CommandsLemmas::Answering::answers_flushed))]
pub(crate) fn answer_line<W: Write>(
    alloc: Global,
    session: &mut Session,
    line: &Line,
    out: &mut CheckedWriter<W>,
) -> Result<(), WriteFailed>
    ensures kept { incident_of session.new ≡ incident_of session.old }
    ensures answered { (bytes : List ℕ) → Holds line.now bytes
        → Answers (incident_of session.old) session.old.cursor session.new.cursor bytes
        (W.contents out.old.writer) (W.contents out.new.writer) result }
    ensures failed { FailsAt result out.old.failed out.new.failed }
{
    let answer = answer(alloc, session, line);
    write_answer(out, session.cursor(), &answer)?;
    flush(out)
}

/// Answers a line, even one that is too long or isn't held.
fn answer(alloc: Global, session: &mut Session, line: &Line) -> Answer
    ensures kept { incident_of session.new ≡ incident_of session.old }
    ensures has_line_outcome { (bytes : List ℕ) → Holds line.now bytes
        → HasLineOutcome (incident_of session.old) session.old.cursor session.new.cursor
        bytes result }
{
    match line.content() {
        Content::TooLong => Answer::Refused(Word::Unknown, Refusal::LineTooLong),
        Content::NoMemory => Answer::Refused(Word::Unknown, Refusal::Memory),
        Content::Held(bytes) => answer_bytes(alloc, session, bytes),
    }
}

/// Parses the bytes of a line, and executes the command.
fn answer_bytes(alloc: Global, session: &mut Session, bytes: &[u8]) -> Answer
    ensures kept { incident_of session.new ≡ incident_of session.old }
    ensures has_line_outcome { length bytes.now ≤ longest
        → HasLineOutcome (incident_of session.old) session.old.cursor session.new.cursor
        bytes.now result }
{
    let parsed = ParsedLine::read(alloc, session.version(), bytes);
    answer_parsed(alloc, session, parsed)
}

/// Executes what a line was parsed as.
fn answer_parsed(alloc: Global, session: &mut Session, parsed: ParsedLine) -> Answer
    ensures kept { incident_of session.new ≡ incident_of session.old }
    ensures answered { AnsweredBy session.old session.new parsed result }
{
    match parsed {
        ParsedLine::Nothing => Answer::Nothing,
        ParsedLine::Asks(command) => answer_command(alloc, session, command),
        ParsedLine::Malformed(word) => Answer::Refused(word, Refusal::BadLine),
        ParsedLine::BadMoment => Answer::Refused(Word::SeekTime, Refusal::BadTime),
        ParsedLine::BadArgument(word) => Answer::Refused(word, Refusal::BadLine),
        ParsedLine::NoMemory(word) => Answer::Refused(word, Refusal::Memory),
    }
}

/// Executes a command. If memory runs out, the command is undone and refused.
fn answer_command(alloc: Global, session: &mut Session, command: Command) -> Answer
    ensures kept { incident_of session.new ≡ incident_of session.old }
    ensures answered { AnsweredBy session.old session.new (Asks command) result }
{
    match command {
        Command::Move(movement) => move_cursor(alloc, session, movement),
        Command::Trial(event) => trial(alloc, session, &event),
        Command::Query(query) => list(alloc, session, &query),
        Command::Cursor => position(session),
    }
}
