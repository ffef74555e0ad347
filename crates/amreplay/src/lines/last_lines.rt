//! The status lines that end the commands of a session. Those of refusals, of steps back and of
//! `cursor` are written part by part, because they must not take memory.
ghost use Rattle.std.specs.Prelude.{◌≡◌, IfOk, string_bytes};
ghost use Rattle.amreplay.specs.Lines.LastLines.{moves_line, cursor_line, position_line, refused_line};
ghost use Rattle.amreplay.specs.Lines.CheckedWriter.{WritesText, FailsAt};
ghost use Rattle.amreplay.specs.declared.lines.word.Word.TheVariants.{Back};

use crate::lines::checked_writer::{CheckedWriter, WriteFailed, write_parts};
use crate::lines::word::{Word, word_text};
use amr_time::{Moment, MomentText};
use itoa::Buffer;
use std::alloc::{AllocError, Global};
use std::io::Write;

/// Returns the last line of a command that passes events, with the number of moves that they made.
pub fn moves_text(
    alloc: Global,
    word: Word,
    cursor: usize,
    moves: usize,
) -> Result<String, AllocError>
    ensures { IfOk result (λ text. string_bytes text ≡ moves_line word cursor moves) }
{
    let word = word_text(word);
    format!(in alloc; "{{\"command\":\"{word}\",\"cursor\":{cursor},\"moves\":{moves}}}\n")
}

/// Returns the last line of a command with its word and the cursor only.
pub fn cursor_text(alloc: Global, word: Word, cursor: usize) -> Result<String, AllocError>
    ensures { IfOk result (λ text. string_bytes text ≡ cursor_line word cursor) }
{
    let word = word_text(word);
    format!(in alloc; "{{\"command\":\"{word}\",\"cursor\":{cursor}}}\n")
}

/// Writes the line of the command `cursor`: the cursor, the number of events, and the clock. It takes
/// no memory.
pub fn write_position<W: Write>(
    out: &mut CheckedWriter<W>,
    cursor: usize,
    events: usize,
    now: Moment,
) -> Result<(), WriteFailed>
    ensures written { WritesText (W.contents out.old.writer) (W.contents out.new.writer)
        result (position_line cursor events now) }
    ensures failed { FailsAt result out.old.failed out.new.failed }
{
    let mut cursor_digits = Buffer::new();
    let mut events_digits = Buffer::new();
    let now = MomentText::of(now);
    write_parts(
        out,
        &[
            b"{\"command\":\"cursor\",\"cursor\":",
            cursor_digits.format(cursor).as_bytes(),
            b",\"events\":",
            events_digits.format(events).as_bytes(),
            b",\"now\":\"",
            now.as_bytes(),
            b"\"}\n",
        ],
    )
}

/// Writes the line of a refused command, with the number of the reason. It takes no memory.
pub fn write_refused<W: Write>(
    out: &mut CheckedWriter<W>,
    word: Word,
    cursor: usize,
    reason: u64,
) -> Result<(), WriteFailed>
    ensures written { WritesText (W.contents out.old.writer) (W.contents out.new.writer)
        result (refused_line word cursor reason) }
    ensures failed { FailsAt result out.old.failed out.new.failed }
{
    let mut cursor_digits = Buffer::new();
    let mut reason_digits = Buffer::new();
    write_parts(
        out,
        &[
            b"{\"command\":\"",
            word_text(word).as_bytes(),
            b"\",\"cursor\":",
            cursor_digits.format(cursor).as_bytes(),
            b",\"refused\":",
            reason_digits.format(reason).as_bytes(),
            b"}\n",
        ],
    )
}

/// Writes the line of a step back. It takes no memory.
pub fn write_back<W: Write>(out: &mut CheckedWriter<W>, cursor: usize) -> Result<(), WriteFailed>
    ensures written { WritesText (W.contents out.old.writer) (W.contents out.new.writer)
        result (cursor_line Back cursor) }
    ensures failed { FailsAt result out.old.failed out.new.failed }
{
    let mut digits = Buffer::new();
    write_parts(
        out,
        &[
            b"{\"command\":\"back\",\"cursor\":",
            digits.format(cursor).as_bytes(),
            b"}\n",
        ],
    )
}

/// Writes the line of a seek that passes no event, because it goes to the cursor or below. It takes
/// no memory.
pub fn write_backward_seek<W: Write>(
    out: &mut CheckedWriter<W>,
    word: Word,
    cursor: usize,
) -> Result<(), WriteFailed>
    ensures written { WritesText (W.contents out.old.writer) (W.contents out.new.writer)
        result (moves_line word cursor 0) }
    ensures failed { FailsAt result out.old.failed out.new.failed }
{
    let mut digits = Buffer::new();
    write_parts(
        out,
        &[
            b"{\"command\":\"",
            word_text(word).as_bytes(),
            b"\",\"cursor\":",
            digits.format(cursor).as_bytes(),
            b",\"moves\":0}\n",
        ],
    )
}
