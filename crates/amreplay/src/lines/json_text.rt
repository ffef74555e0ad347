//! Writing JSON: whatever is printed appends itself to one text. Objects have their names and marks
//! as literals, in the order of the names; `push` appends such a literal with the value after it.
ghost use Rattle.std.specs.Prelude.{◌≡◌, ◌++◌, codes, map, IfOk, OnOk, string_bytes};
ghost use Rattle.std.specs.List.{flat_map};
ghost use Rattle.serde_json.specs.Data.{Data, array, boolean, string};
ghost use Rattle.serde_json.specs.View.{items_of};
ghost use Rattle.serde_json.specs.Written.{compact_text};
ghost use Rattle.amreplay.specs.Lines.Printed.{data_line};

use crate::lines::strings::{push_comma, push_string, push_texts};
use amr_events::posts::SilenceId;
use amr_labels::{Labels, Shared, Text, TextMap};
use amr_rules::LabelSets;
use amr_time::{Moment, push_moment};
use itoa::Buffer;
use std::alloc::{AllocError, Global};

/// The room that is made at once for a line, in bytes: most are shorter.
const LINE_ROOM: usize = 1024;

/// For this many lines room is made at once. More than that are rare, and the text grows.
const LINES_WITH_ROOM: usize = 64;

/// What is printed as JSON.
pub(crate) trait ToJson {
    /// The value that is printed.
    ghost json: { Self → Data };

    /// Appends the value as compact JSON.
    fn push_json(&self, out: &mut String) -> Result<(), AllocError>
        ensures { OnOk result (string_bytes out.new
            ≡ string_bytes out.old ++ compact_text (json self.now)) };
}

/// Returns the lines of values.
pub(crate) fn lines_text<T: ToJson>(alloc: Global, values: &[T]) -> Result<String, AllocError>
    ensures { IfOk result (λ text. string_bytes text
        ≡ flat_map (λ value. data_line (T.json value)) values.now) }
{
    let mut lines = String::new(alloc);
    push_lines(&mut lines, values)?;
    Ok(lines)
}

/// Appends the lines of values.
pub(crate) fn push_lines<T: ToJson>(out: &mut String, values: &[T]) -> Result<(), AllocError>
    ensures { OnOk result (string_bytes out.new
        ≡ string_bytes out.old ++ flat_map (λ value. data_line (T.json value)) values.now) }
{
    out.reserve(values.len().min(LINES_WITH_ROOM) * LINE_ROOM)?;
    for value in values {
        push_line(out, value)?;
    }
    Ok(())
}

/// Appends the line of a value.
pub(crate) fn push_line<T: ToJson>(out: &mut String, value: &T) -> Result<(), AllocError>
    ensures { OnOk result (string_bytes out.new
        ≡ string_bytes out.old ++ data_line (T.json value.now)) }
{
    value.push_json(out)?;
    out.push('\n')
}

/// Appends a literal, and a value after it.
pub(crate) fn push<T: ToJson>(out: &mut String, before: &str, value: &T) -> Result<(), AllocError>
    ensures { OnOk result (string_bytes out.new
        ≡ string_bytes out.old ++ (before.now ++ compact_text (T.json value.now))) }
{
    out.push_str(before)?;
    value.push_json(out)
}

/// Appends a literal, and an array of values after it.
pub(crate) fn push_array<T: ToJson>(
    out: &mut String,
    before: &str,
    values: &[T],
) -> Result<(), AllocError>
    ensures { OnOk result (string_bytes out.new ≡ string_bytes out.old
        ++ (before.now ++ compact_text (array (items_of (map T.json values.now))))) }
{
    out.push_str(before)?;
    out.push('[')?;
    let mut later = false;
    for value in values {
        push_comma(out, later)?;
        value.push_json(out)?;
        later = true;
    }
    out.push(']')
}

impl<T: ToJson + Drop> ToJson for Shared<T> {
    ghost json = { T.json };

    fn push_json(&self, out: &mut String) -> Result<(), AllocError> {
        self.get().push_json(out)
    }
}

impl ToJson for Labels {
    ghost use Rattle.amreplay.specs.Lines.Printed.{labels_data};

    ghost json = { labels_data };

    /// Appends a label set. One that needs no escape has its text already.
    fn push_json(&self, out: &mut String) -> Result<(), AllocError> {
        match self.printed() {
            Some(text) => out.push_str(text),
            None => push_texts(out, self.entries()),
        }
    }
}

impl ToJson for LabelSets {
    ghost use Rattle.amr_labels.specs.Set.{items};
    ghost use Rattle.amreplay.specs.Lines.Printed.{label_sets_data};

    ghost json = { λ sets. label_sets_data (items sets) };

    fn push_json(&self, out: &mut String) -> Result<(), AllocError> {
        push_array(out, "", self.as_slice())
    }
}

impl ToJson for TextMap {
    ghost use Rattle.amr_labels.specs.Map.{entries};
    ghost use Rattle.amreplay.specs.Lines.Printed.{texts_data};

    ghost json = { λ texts. texts_data (entries texts) };

    fn push_json(&self, out: &mut String) -> Result<(), AllocError> {
        push_texts(out, self.entries())
    }
}

impl ToJson for Text {
    ghost json = { string };

    fn push_json(&self, out: &mut String) -> Result<(), AllocError> {
        push_string(out, self.as_str())
    }
}

impl ToJson for &str {
    ghost json = { λ text. string text.now };

    fn push_json(&self, out: &mut String) -> Result<(), AllocError> {
        push_string(out, self)
    }
}

impl ToJson for SilenceId {
    ghost use Rattle.amr_events.specs.Posts.Ids.{id_text};

    ghost json = { λ id. string (id_text id) };

    fn push_json(&self, out: &mut String) -> Result<(), AllocError> {
        let text = self.text(*out.allocator())?;
        push_string(out, text.as_str())
    }
}

impl ToJson for Moment {
    ghost use Rattle.amreplay.specs.Lines.Printed.{moment_data};

    ghost json = { moment_data };

    fn push_json(&self, out: &mut String) -> Result<(), AllocError> {
        out.push('"')?;
        push_moment(out, *self)?;
        out.push('"')
    }
}

impl ToJson for Option<Moment> {
    ghost use Rattle.amreplay.specs.Lines.Printed.{since_data};

    ghost json = { since_data };

    fn push_json(&self, out: &mut String) -> Result<(), AllocError> {
        match self {
            None => out.push_str("null"),
            Some(moment) => moment.push_json(out),
        }
    }
}

impl ToJson for usize {
    ghost use Rattle.amreplay.specs.Lines.Printed.{number_data};

    ghost json = { number_data };

    fn push_json(&self, out: &mut String) -> Result<(), AllocError> {
        let mut digits = Buffer::new();
        out.push_str(digits.format(*self))
    }
}

impl ToJson for bool {
    ghost json = { boolean };

    fn push_json(&self, out: &mut String) -> Result<(), AllocError> {
        out.push_str(if *self { "true" } else { "false" })
    }
}
