//! Reading a matcher text character by character. `matcher_steps.rt` says where each character
//! leads; here the parts are collected.
ghost use Rattle.std.specs.Prelude.{◌≡◌, ◌++◌, Some, None, IfOk, OnOk, option_map, if◌then◌else◌, encode_utf8_all, string_bytes};
ghost use Rattle.amr_labels.specs.Matcher.MatcherText.{meaning_of_escape as escaped_of};
ghost use Rattle.amr_labels.specs.Matcher.MatcherReading as reading;

use crate::Text;
use crate::matcher::Operator;
use crate::matcher::matcher_steps::{Mode, Part, ending, step_from};
use std::alloc::{AllocError, Global};
use std::marker::Model;

/// A matcher that was read. Its pattern isn't built yet.
#[derive(Drop)]
pub(crate) struct Draft {
    pub name: Text,
    pub operator: Operator,
    pub value: Text,
}

impl Model for Draft {
    ghost use Rattle.amr_labels.specs.Matcher.Matchers as matchers;

    ghost Value = { matchers.Matcher };

    ghost view = { λ draft. record { name = draft.name; operator = draft.operator; value = draft.value } };
}

/// What was read of a matcher text: the state of the reading, the name, operator and value that are
/// being read, and the matchers before them.
#[derive(Drop)]
pub(crate) struct Reader {
    braced: bool,
    mode: Mode,
    name: String,
    operator: Operator,
    value: String,
    drafts: Vec<Draft>,
}

impl Model for Reader {
    ghost use Rattle.std.specs.Prelude.{string_bytes};
    ghost use Rattle.amr_labels.specs.Matcher.MatcherReading as reading;

    ghost Value = { reading.Reading };

    ghost view = { λ reader. record { braced = reader.braced; mode = reader.mode; name = string_bytes reader.name; operator = reader.operator; value = string_bytes reader.value; matchers = reader.drafts.items } };
}

/// Appends the characters that a backslash and a character mean.
fn push_escaped(text: &mut String, c: char) -> Result<(), AllocError>
    ensures { OnOk result (string_bytes text.new ≡ string_bytes text.old
        ++ encode_utf8_all (escaped_of c)) }
{
    if c == '"' {
        text.push('"')
    } else if c == '\\' {
        text.push('\\')
    } else if c == 'n' {
        text.push('\n')
    } else if c == 't' {
        text.push('\t')
    } else {
        text.push('\\')?;
        text.push(c)
    }
}

impl Reader {
    /// Returns a reader that has read nothing yet.
    pub fn new(alloc: Global) -> Reader
        ensures { result ≡ reading.start }
    {
        Reader {
            braced: false,
            mode: Mode::Start,
            name: String::new(alloc),
            operator: Operator::Equal,
            value: String::new(alloc),
            drafts: Vec::new(alloc),
        }
    }

    /// Ends the matcher that is being read.
    #[tactic(auto, unfolding(crate::specs::Matcher::MatcherReading::with_part))]
    fn end_matcher(&mut self, alloc: Global) -> Result<(), AllocError>
        ensures { OnOk result (self.new ≡ reading.with_part Part.End self.old) }
    {
        let name = Text::from_str(alloc, self.name.as_str())?;
        let value = Text::from_str(alloc, self.value.as_str())?;
        self.drafts.push(Draft {
            name,
            operator: self.operator,
            value,
        })?;
        self.name.clear();
        self.value.clear();
        Ok(())
    }

    /// Adds what a character contributes.
    #[tactic(auto, unfolding(crate::specs::Matcher::MatcherReading::with_part))]
    fn add(&mut self, alloc: Global, part: Part) -> Result<(), AllocError>
        ensures { OnOk result (self.new ≡ reading.with_part part self.old) }
    {
        match part {
            Part::Nothing => Ok(()),
            Part::Brace => {
                self.braced = true;
                Ok(())
            }
            Part::Name(c) => self.name.push(c),
            Part::NameEscaped(c) => push_escaped(&mut self.name, c),
            Part::Compare(operator) => {
                self.operator = operator;
                Ok(())
            }
            Part::Value(c) => self.value.push(c),
            Part::ValueEscaped(c) => push_escaped(&mut self.value, c),
            Part::End => self.end_matcher(alloc),
        }
    }

    /// Reads the next character. Returns whether some matcher text continues with it.
    pub fn read(&mut self, alloc: Global, c: char) -> Result<bool, AllocError>
        ensures { IfOk result (λ goes_on. reading.next self.old c
            ≡ (if goes_on then Some self.new else None)) }
    {
        match step_from(self.braced, self.mode, c) {
            Some(step) => {
                self.add(alloc, step.part)?;
                self.mode = step.mode;
                Ok(true)
            }
            None => Ok(false),
        }
    }

    /// Returns the matchers, or `None` if a text can't end here.
    pub fn finish(self, alloc: Global) -> Result<Option<Vec<Draft>>, AllocError>
        ensures { IfOk result (λ found. option_map (λ drafts. drafts.items) found
            ≡ reading.matchers_at_end self) }
    {
        let mut reader = self;
        match ending(reader.braced, reader.mode) {
            Some(part) => {
                reader.add(alloc, part)?;
                Ok(Some(reader.into_drafts()))
            }
            None => Ok(None),
        }
    }

    /// Returns the matchers before the one that is being read.
    fn into_drafts(self) -> Vec<Draft>
        ensures { result.items ≡ self.matchers }
    {
        self.drafts
    }
}
