//! The grammar of matcher texts as a state machine: where each character leads, and what it adds.
//! `matcher_reader.rt` runs it. `specs/Matcher/MatcherText.antt` says the same as a grammar.
ghost use Rattle.std.specs.Prelude.{◌≡◌};
ghost use Rattle.amr_labels.specs.Matcher.MatcherText.{is_refused as tests_refused};
ghost use Rattle.amr_labels.specs.Matcher.MatcherReading as reading;

use crate::matcher::Operator;

/// A mode of the reading: what was read last, which decides what may come next.
#[derive(Clone, Copy)]
pub(crate) enum Mode {
    Start,
    Opened,
    NameLiteral,
    NameOpened,
    NameQuoted,
    NameEscape,
    AfterName,
    AfterBang,
    AfterEquals,
    ValueStart,
    ValueLiteral,
    ValueQuoted,
    ValueEscape,
    AfterValue,
    AfterComma,
    Closed,
}

/// What a character may mean outside quotes.
#[derive(Clone, Copy)]
pub(crate) enum Kind {
    Blank,
    Opening,
    Closing,
    Bang,
    Equals,
    Tilde,
    Comma,
    Quote,
    Reserved,
    Plain,
}

/// What a character adds to what was read.
#[derive(Clone, Copy)]
pub(crate) enum Part {
    Nothing,
    Brace,
    Name(char),
    NameEscaped(char),
    Compare(Operator),
    Value(char),
    ValueEscaped(char),
    End,
}

/// Where a character leads, and what it adds.
#[derive(Clone, Copy)]
pub(crate) struct Step {
    pub mode: Mode,
    pub part: Part,
}

/// Returns a step that leads to a state and adds a part.
fn go(mode: Mode, part: Part) -> Option<Step>
    ensures { result ≡ reading.go mode part }
{
    Some(Step { mode, part })
}

/// Returns what a character means outside quotes.
#[tactic(auto, unfolding(crate::specs::Matcher::MatcherReading::kind_of))]
fn kind_of(c: char) -> Kind
    ensures { result ≡ reading.kind_of c }
{
    if c.is_whitespace() {
        Kind::Blank
    } else if c == '{' {
        Kind::Opening
    } else if c == '}' {
        Kind::Closing
    } else if c == '!' {
        Kind::Bang
    } else if c == '=' {
        Kind::Equals
    } else if c == '~' {
        Kind::Tilde
    } else if c == ',' {
        Kind::Comma
    } else if c == '"' {
        Kind::Quote
    } else if c == '\\' || c == '\'' || c == '`' {
        Kind::Reserved
    } else {
        Kind::Plain
    }
}

/// Returns whether a backslash is refused before the character.
fn is_refused(c: char) -> bool
    ensures { result ≡ tests_refused c }
{
    c == 'a'
        || c == 'b'
        || c == 'f'
        || c == 'r'
        || c == 'v'
        || c == 'x'
        || c == 'u'
        || c == 'U'
        || c == '\''
        || ('0' <= c && c <= '7')
}

/// Steps where a matcher may begin, or the braces end, after white space or not.
#[tactic(auto, unfolding(crate::specs::Matcher::MatcherReading::begins_matcher))]
fn begins_matcher(braced: bool, here: Mode, c: char) -> Option<Step>
    ensures { result ≡ reading.begins_matcher braced here c (reading.kind_of c) }
{
    match kind_of(c) {
        Kind::Blank => go(here, Part::Nothing),
        Kind::Quote => go(Mode::NameOpened, Part::Nothing),
        Kind::Closing => {
            if braced {
                go(Mode::Closed, Part::Nothing)
            } else {
                None
            }
        }
        Kind::Plain => go(Mode::NameLiteral, Part::Name(c)),
        _ => None,
    }
}

/// Steps after a name, where an operator comes.
#[tactic(auto, unfolding(crate::specs::Matcher::MatcherReading::after_name))]
fn after_name(kind: Kind) -> Option<Step>
    ensures { result ≡ reading.after_name kind }
{
    match kind {
        Kind::Blank => go(Mode::AfterName, Part::Nothing),
        Kind::Equals => go(Mode::AfterEquals, Part::Compare(Operator::Equal)),
        Kind::Bang => go(Mode::AfterBang, Part::Nothing),
        _ => None,
    }
}

/// Steps where a value ends.
#[tactic(auto, unfolding(crate::specs::Matcher::MatcherReading::ends_value))]
fn ends_value(braced: bool, spaced: Mode, kind: Kind) -> Option<Step>
    ensures { result ≡ reading.ends_value braced spaced kind }
{
    match kind {
        Kind::Blank => go(spaced, Part::Nothing),
        Kind::Comma => go(Mode::AfterComma, Part::End),
        Kind::Closing => {
            if braced {
                go(Mode::Closed, Part::End)
            } else {
                None
            }
        }
        _ => None,
    }
}

/// Steps where a value may begin, or be left out.
#[tactic(auto, unfolding(crate::specs::Matcher::MatcherReading::begins_value))]
fn begins_value(braced: bool, c: char) -> Option<Step>
    ensures { result ≡ reading.begins_value braced c (reading.kind_of c) }
{
    match kind_of(c) {
        Kind::Quote => go(Mode::ValueQuoted, Part::Nothing),
        Kind::Plain => go(Mode::ValueLiteral, Part::Value(c)),
        kind => ends_value(braced, Mode::ValueStart, kind),
    }
}

/// Steps in an unquoted name, which goes on or ends.
#[tactic(auto, unfolding(crate::specs::Matcher::MatcherReading::in_name))]
fn in_name(c: char) -> Option<Step>
    ensures { result ≡ reading.in_name c (reading.kind_of c) }
{
    match kind_of(c) {
        Kind::Plain => go(Mode::NameLiteral, Part::Name(c)),
        kind => after_name(kind),
    }
}

/// Steps in an unquoted value, which goes on or ends.
#[tactic(auto, unfolding(crate::specs::Matcher::MatcherReading::in_value))]
fn in_value(braced: bool, c: char) -> Option<Step>
    ensures { result ≡ reading.in_value braced c (reading.kind_of c) }
{
    match kind_of(c) {
        Kind::Plain => go(Mode::ValueLiteral, Part::Value(c)),
        kind => ends_value(braced, Mode::AfterValue, kind),
    }
}

/// Steps after an exclamation mark.
#[tactic(auto, unfolding(crate::specs::Matcher::MatcherReading::after_bang))]
fn after_bang(kind: Kind) -> Option<Step>
    ensures { result ≡ reading.after_bang kind }
{
    match kind {
        Kind::Equals => go(Mode::ValueStart, Part::Compare(Operator::NotEqual)),
        Kind::Tilde => go(Mode::ValueStart, Part::Compare(Operator::NotMatches)),
        _ => None,
    }
}

/// Steps after an equals sign.
#[tactic(auto, unfolding(crate::specs::Matcher::MatcherReading::after_equals))]
fn after_equals(braced: bool, c: char) -> Option<Step>
    ensures { result ≡ reading.after_equals braced c (reading.kind_of c) }
{
    match kind_of(c) {
        Kind::Tilde => go(Mode::ValueStart, Part::Compare(Operator::Matches)),
        _ => begins_value(braced, c),
    }
}

/// Steps in quotes. A quote leads to `ended`, a backslash to `escape`, and any other character to
/// `plain`.
fn in_quotes(ended: Option<Step>, escape: Mode, plain: Option<Step>, c: char) -> Option<Step>
    ensures { result ≡ reading.in_quotes ended escape plain c }
{
    if c == '"' {
        ended
    } else if c == '\\' {
        go(escape, Part::Nothing)
    } else {
        plain
    }
}

/// Steps after a backslash in quotes.
fn after_backslash(quoted: Mode, part: Part, c: char) -> Option<Step>
    ensures { result ≡ reading.after_backslash quoted part c }
{
    if is_refused(c) {
        None
    } else {
        go(quoted, part)
    }
}

/// Steps before the first matcher, outside braces.
#[tactic(auto, unfolding(crate::specs::Matcher::MatcherReading::at_start))]
fn at_start(c: char) -> Option<Step>
    ensures { result ≡ reading.at_start c (reading.kind_of c) }
{
    match kind_of(c) {
        Kind::Opening => go(Mode::Opened, Part::Brace),
        _ => begins_matcher(false, Mode::Start, c),
    }
}

/// Steps after the braces.
#[tactic(auto, unfolding(crate::specs::Matcher::MatcherReading::after_braces))]
fn after_braces(kind: Kind) -> Option<Step>
    ensures { result ≡ reading.after_braces kind }
{
    match kind {
        Kind::Blank => go(Mode::Closed, Part::Nothing),
        _ => None,
    }
}

/// Returns where a character leads from a state, and what it adds. Returns `None` if no matcher
/// text continues with it.
#[tactic(auto, unfolding(crate::specs::Matcher::MatcherReading::step_from))]
pub(crate) fn step_from(braced: bool, mode: Mode, c: char) -> Option<Step>
    ensures { result ≡ reading.step_from braced mode c }
{
    match mode {
        Mode::Start => at_start(c),
        Mode::Opened => begins_matcher(true, Mode::Opened, c),
        Mode::NameLiteral => in_name(c),
        Mode::NameOpened => in_quotes(
            None,
            Mode::NameEscape,
            go(Mode::NameQuoted, Part::Name(c)),
            c,
        ),
        Mode::NameQuoted => in_quotes(
            go(Mode::AfterName, Part::Nothing),
            Mode::NameEscape,
            go(Mode::NameQuoted, Part::Name(c)),
            c,
        ),
        Mode::NameEscape => after_backslash(Mode::NameQuoted, Part::NameEscaped(c), c),
        Mode::AfterName => after_name(kind_of(c)),
        Mode::AfterBang => after_bang(kind_of(c)),
        Mode::AfterEquals => after_equals(braced, c),
        Mode::ValueStart => begins_value(braced, c),
        Mode::ValueLiteral => in_value(braced, c),
        Mode::ValueQuoted => in_quotes(
            go(Mode::AfterValue, Part::Nothing),
            Mode::ValueEscape,
            go(Mode::ValueQuoted, Part::Value(c)),
            c,
        ),
        Mode::ValueEscape => after_backslash(Mode::ValueQuoted, Part::ValueEscaped(c), c),
        Mode::AfterValue => ends_value(braced, Mode::AfterValue, kind_of(c)),
        Mode::AfterComma => begins_matcher(braced, Mode::AfterComma, c),
        Mode::Closed => after_braces(kind_of(c)),
    }
}

/// Returns what the end of the text adds in a state. Returns `None` if a text can't end there.
#[tactic(auto, unfolding(crate::specs::Matcher::MatcherReading::ending))]
pub(crate) fn ending(braced: bool, mode: Mode) -> Option<Part>
    ensures { result ≡ reading.ending braced mode }
{
    match mode {
        Mode::Closed | Mode::Start => Some(Part::Nothing),
        Mode::AfterComma => { if braced { None } else { Some(Part::Nothing) } }
        Mode::AfterEquals | Mode::ValueStart | Mode::ValueLiteral | Mode::AfterValue => {
            if braced { None } else { Some(Part::End) }
        }
        _ => None,
    }
}
