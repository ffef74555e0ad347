//! The words of a session's commands, as its lines print them. `command_lines` recognizes the
//! same words.
ghost use Rattle.std.specs.Prelude.{◌≡◌};
ghost use Rattle.amreplay.specs.Lines.LastLines.{word_text as text_of_word};

/// The word of a command, as its last line prints it.
#[derive(Clone, Copy, Debug, PartialEq, Eq)]
pub enum Word {
    Step,
    Back,
    Seek,
    SeekTime,
    Trial,
    Explain,
    Alerts,
    Silences,
    Groups,
    Log,
    Transcript,
    Cursor,
    /// Any other word, which is printed as a question mark.
    Unknown,
}

/// Returns the word as it is printed.
pub fn word_text(word: Word) -> &'static str
    ensures { result.now ≡ text_of_word word }
{
    match word {
        Word::Step => "step",
        Word::Back => "back",
        Word::Seek => "seek",
        Word::SeekTime => "seek-time",
        Word::Trial => "trial",
        Word::Explain => "explain",
        Word::Alerts => "alerts",
        Word::Silences => "silences",
        Word::Groups => "groups",
        Word::Log => "log",
        Word::Transcript => "transcript",
        Word::Cursor => "cursor",
        Word::Unknown => "?",
    }
}
