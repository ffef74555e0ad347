//! What is written for a command line. Each answer is decided first and written after; a refusal, a
//! step back and the answer to `cursor` are written without memory.
ghost use Rattle.std.specs.Prelude.{◌≡◌};
ghost use Rattle.amreplay.specs.Lines.CheckedWriter.{WritesText, FailsAt};
ghost use Rattle.amreplay.specs.Commands.Answer.{answer_text};
ghost use Rattle.amreplay.specs.Commands.Refusals.{refusal_number};

use crate::lines::{
    CheckedWriter, Word, WriteFailed, write_back, write_backward_seek, write_position,
    write_refused, write_whole,
};
use amr_time::Moment;
use std::io::Write;

/// Why a command is refused. The numbers are listed in `docs/RULES.md`.
#[derive(Clone, Copy, Debug, PartialEq, Eq)]
pub(crate) enum Refusal {
    /// An allocation failed.
    Memory,
    /// The argument isn't a moment.
    BadTime,
    /// The line isn't a command.
    BadLine,
    /// The line has more bytes than a command line may have.
    LineTooLong,
    /// The cursor is at the end of the script.
    AtEnd,
    /// The cursor is at the start of the script.
    AtStart,
    /// The script has fewer events than that.
    OutOfRange,
}

impl Refusal {
    /// Returns the number that is printed.
    fn number(self) -> u64
        ensures { result ≡ refusal_number self }
    {
        match self {
            Refusal::Memory => 0,
            Refusal::BadTime => 3,
            Refusal::BadLine => 13,
            Refusal::LineTooLong => 14,
            Refusal::AtEnd => 22,
            Refusal::AtStart => 23,
            Refusal::OutOfRange => 24,
        }
    }
}

/// What is written for a command. Only `Built` and `Listed` have taken memory; the others are
/// written without any.
#[derive(Drop)]
pub(crate) enum Answer {
    Nothing,
    /// The whole output of a command.
    Built(String),
    /// The lines of a listing, and its last line.
    Listed(Vec<u8>),
    /// The line of a step back.
    WentBack,
    /// The line of a seek that passed no event.
    SoughtBack(Word),
    /// The line of `cursor`: the cursor, the number of events, and the clock.
    Position(usize, usize, Moment),
    Refused(Word, Refusal),
}

/// Writes an answer; `cursor` is where the command has left the cursor.
pub(crate) fn write_answer<W: Write>(
    out: &mut CheckedWriter<W>,
    cursor: usize,
    answer: &Answer,
) -> Result<(), WriteFailed>
    ensures written { WritesText (W.contents out.old.writer) (W.contents out.new.writer)
        result (answer_text cursor answer.now) }
    ensures failed { FailsAt result out.old.failed out.new.failed }
{
    match answer {
        Answer::Nothing => Ok(()),
        Answer::Built(text) => write_whole(out, text.as_bytes()),
        Answer::Listed(lines) => write_whole(out, lines.as_slice()),
        Answer::WentBack => write_back(out, cursor),
        Answer::SoughtBack(word) => write_backward_seek(out, *word, cursor),
        Answer::Position(at, events, now) => write_position(out, *at, *events, *now),
        Answer::Refused(word, refusal) => write_refused(out, *word, cursor, refusal.number()),
    }
}
