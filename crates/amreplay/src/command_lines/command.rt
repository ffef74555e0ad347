//! Parsing a command line: the word, and the argument that its command takes. A session calls
//! `ParsedLine::read` for each line. Nothing here is executed.
ghost use Rattle.std.specs.Prelude.{◌≡◌};
ghost use Rattle.std.specs.Str.{is_utf8};
ghost use Rattle.amreplay.specs.CommandLines.Command.{word_named, word_of_move, word_of_query, word_of_command, said_alone, seek_said, seek_time_said, trial_said, explain_said, with_argument, said_by, said_in, said_of, moment_in};
ghost use Rattle.amreplay.specs.CommandLines.ParsedLine.{LineSays, Reads, ReadsSuch, TextSays, WordSays};

use crate::command_lines::digits::{all_digits, number};
use crate::command_lines::parts::{argument, trimmed, word};
use crate::lines::{Word, word_text};
use amr_events::actions::Event;
use amr_events::{LineError, ScriptError, Version, read_event, read_labels};
use amr_labels::Labels;
use amr_time::{Moment, read_moment};
use std::alloc::Global;
use std::str::from_utf8;

/// A command that moves the cursor.
#[derive(Drop)]
pub enum Move {
    Step,
    Back,
    /// Moves the cursor to this many events from the start. A number too large for a `usize` is
    /// read as the greatest.
    Seek(usize),
    SeekTime(Moment),
}

/// A command that lists what the state holds.
#[derive(Drop)]
pub enum Query {
    Explain(Labels),
    Alerts,
    Silences,
    Groups,
    Log,
    Transcript,
}

/// A command of a session, with its argument.
#[derive(Drop)]
pub enum Command {
    Move(Move),
    Trial(Event),
    Query(Query),
    Cursor,
}

impl Move {
    /// Returns the word of the command.
    fn word(&self) -> Word
        ensures { result ≡ word_of_move self.now }
    {
        match self {
            Move::Step => Word::Step,
            Move::Back => Word::Back,
            Move::Seek(_) => Word::Seek,
            Move::SeekTime(_) => Word::SeekTime,
        }
    }
}

impl Query {
    /// Returns the word of the command.
    pub fn word(&self) -> Word
        ensures { result ≡ word_of_query self.now }
    {
        match self {
            Query::Explain(_) => Word::Explain,
            Query::Alerts => Word::Alerts,
            Query::Silences => Word::Silences,
            Query::Groups => Word::Groups,
            Query::Log => Word::Log,
            Query::Transcript => Word::Transcript,
        }
    }
}

impl Command {
    /// Returns the word of the command.
    fn word(&self) -> Word
        ensures { result ≡ word_of_command self.now }
    {
        match self {
            Command::Move(movement) => movement.word(),
            Command::Trial(_) => Word::Trial,
            Command::Query(query) => query.word(),
            Command::Cursor => Word::Cursor,
        }
    }
}

/// What a line was parsed as.
#[derive(Drop)]
pub enum ParsedLine {
    /// The line is empty but for white space.
    Nothing,
    Asks(Command),
    /// The word isn't known, or its argument is missing, superfluous, or not a number.
    Malformed(Word),
    /// The argument isn't a moment.
    BadMoment,
    /// The argument isn't an event, or not a label set.
    BadArgument(Word),
    /// Memory ran out for the argument.
    NoMemory(Word),
}

/// The words that are commands.
const KNOWN_WORDS: [Word; 12] = [
    Word::Step,
    Word::Back,
    Word::Seek,
    Word::SeekTime,
    Word::Trial,
    Word::Explain,
    Word::Alerts,
    Word::Silences,
    Word::Groups,
    Word::Log,
    Word::Transcript,
    Word::Cursor,
];

/// Parses a text without white space at its ends.
#[tactic(auto, unfolding(crate::specs::CommandLines::Command::said_in))]
fn read_text(alloc: Global, version: Version, text: &[u8]) -> ParsedLine
    ensures { ReadsSuch (TextSays version text.now) (said_in version text.now) result }
{
    if text.is_empty() {
        return ParsedLine::Nothing;
    }
    read_argument(alloc, version, word_of(word(text)), argument(text))
}

/// Returns whether the bytes are UTF-8.
#[tactic(auto, using(crate::proofs::CommandLinesLemmas::Utf8::is_text, crate::proofs::CommandLinesLemmas::Utf8::is_no_text))]
fn is_text(line: &[u8]) -> bool
    ensures { result ≡ is_utf8 line.now }
{
    match from_utf8(line) {
        Ok(_) => true,
        Err(_) => false,
    }
}

/// Parses a word's argument.
#[tactic(auto, unfolding(crate::specs::CommandLines::Command::said_by))]
fn read_argument(alloc: Global, version: Version, word: Word, argument: &[u8]) -> ParsedLine
    ensures { ReadsSuch (WordSays version word argument.now) (said_by version word argument.now)
        result }
{
    match word {
        Word::Step => alone(Command::Move(Move::Step), argument),
        Word::Back => alone(Command::Move(Move::Back), argument),
        Word::Seek => seek(argument),
        Word::SeekTime => seek_time(argument),
        Word::Trial => trial(alloc, version, argument),
        Word::Explain => explain(alloc, argument),
        Word::Alerts => alone(Command::Query(Query::Alerts), argument),
        Word::Silences => alone(Command::Query(Query::Silences), argument),
        Word::Groups => alone(Command::Query(Query::Groups), argument),
        Word::Log => alone(Command::Query(Query::Log), argument),
        Word::Transcript => alone(Command::Query(Query::Transcript), argument),
        Word::Cursor => alone(Command::Cursor, argument),
        Word::Unknown => ParsedLine::Malformed(word),
    }
}

/// Parses the argument of `explain`, which is a label set as a JSON object.
fn explain(alloc: Global, argument: &[u8]) -> ParsedLine
    ensures { Reads (with_argument Word.Explain explain_said argument.now) result }
{
    if argument.is_empty() {
        return ParsedLine::Malformed(Word::Explain);
    }
    match read_labels(alloc, argument) {
        Ok(labels) => ParsedLine::Asks(Command::Query(Query::Explain(labels))),
        Err(LineError::Faulty) => ParsedLine::BadArgument(Word::Explain),
        Err(LineError::Memory) => ParsedLine::NoMemory(Word::Explain),
    }
}

/// Parses the argument of `trial`, which is an event as on a line of a script of this version.
#[tactic(auto, unfolding(crate::specs::CommandLines::Command::said_by))]
fn trial(alloc: Global, version: Version, argument: &[u8]) -> ParsedLine
    ensures { ReadsSuch (WordSays version Word.Trial argument.now)
        (said_by version Word.Trial argument.now) result }
{
    if argument.is_empty() {
        return ParsedLine::Malformed(Word::Trial);
    }
    match read_event(alloc, version, argument) {
        Ok(event) => ParsedLine::Asks(Command::Trial(event)),
        Err(ScriptError::Refused(_)) => ParsedLine::BadArgument(Word::Trial),
        Err(ScriptError::Memory) => ParsedLine::NoMemory(Word::Trial),
    }
}

/// Parses the argument of `seek-time`.
fn seek_time(argument: &[u8]) -> ParsedLine
    ensures { result ≡ with_argument Word.SeekTime seek_time_said argument.now }
{
    if argument.is_empty() {
        return ParsedLine::Malformed(Word::SeekTime);
    }
    match moment(argument) {
        Some(moment) => ParsedLine::Asks(Command::Move(Move::SeekTime(moment))),
        None => ParsedLine::BadMoment,
    }
}

/// Reads a moment, in RFC 3339.
#[tactic(auto, using(crate::proofs::CommandLinesLemmas::Utf8::is_text, crate::proofs::CommandLinesLemmas::Utf8::is_no_text), unfolding(crate::specs::CommandLines::Command::moment_in))]
fn moment(text: &[u8]) -> Option<Moment>
    ensures { result ≡ moment_in text.now }
{
    match from_utf8(text) {
        Ok(text) => read_moment(text).ok(),
        Err(_) => None,
    }
}

/// Parses the argument of `seek`, a decimal number of events.
fn seek(argument: &[u8]) -> ParsedLine
    ensures { result ≡ with_argument Word.Seek seek_said argument.now }
{
    if argument.is_empty() || !all_digits(argument) {
        return ParsedLine::Malformed(Word::Seek);
    }
    ParsedLine::Asks(Command::Move(Move::Seek(number(argument))))
}

/// Parses a command that takes no argument.
fn alone(command: Command, argument: &[u8]) -> ParsedLine
    ensures { result ≡ said_alone command argument.now }
{
    if argument.is_empty() {
        ParsedLine::Asks(command)
    } else {
        ParsedLine::Malformed(command.word())
    }
}

/// Returns the word that a text is, or `Unknown`.
#[tactic(auto, unfolding(crate::specs::CommandLines::Command::word_named))]
fn word_of(text: &[u8]) -> Word
    ensures { result ≡ word_named text.now }
{
    for word in &KNOWN_WORDS {
        if text == word_text(*word).as_bytes() {
            return *word;
        }
    }
    Word::Unknown
}

impl ParsedLine {
    /// Parses the bytes of a line, in a session of a script of this version. Only the arguments of
    /// `trial` and `explain` take memory.
    #[tactic(auto, unfolding(crate::specs::CommandLines::Command::said_of))]
    pub fn read(alloc: Global, version: Version, line: &[u8]) -> ParsedLine
        ensures { ReadsSuch (LineSays version line.now) (said_of version line.now) result }
    {
        if !is_text(line) {
            return ParsedLine::Malformed(Word::Unknown);
        }
        read_text(alloc, version, trimmed(line))
    }
}
