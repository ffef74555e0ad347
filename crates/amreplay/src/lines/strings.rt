//! Strings, and objects of them. A string that needs no escape, as nearly all do, is copied as it is.
ghost use Rattle.std.specs.Prelude.{◌≡◌, ◌∷◌, ◌++◌, T, OnOk, string_bytes};
ghost use Rattle.std.specs.FinMap.{is_sorted};
ghost use Rattle.json.specs.Print.{escape, quoted};
ghost use Rattle.serde_json.specs.Written.{compact_text, comma_if};
ghost use Rattle.amr_labels.specs.Labels.{text_cmp};
ghost use Rattle.amreplay.specs.Lines.Printed.{texts_data};

use crate::lines::plain::needs_no_escape;
use amr_labels::Text;
use json::Writer;
use std::alloc::AllocError;

/// Appends an object with these texts under their names. The names are in order.
pub(crate) fn push_texts(out: &mut String, texts: &[(Text, Text)]) -> Result<(), AllocError>
    requires { T (is_sorted text_cmp texts.now) }
    ensures { OnOk result (string_bytes out.new
        ≡ string_bytes out.old ++ compact_text (texts_data texts.now)) }
{
    out.push('{')?;
    let mut later = false;
    for text in texts {
        push_member(out, later, text.0.as_str(), text.1.as_str())?;
        later = true;
    }
    out.push('}')
}

/// Appends a text under its name, as a member of an object, after a comma if there is one before.
fn push_member(out: &mut String, later: bool, name: &str, text: &str) -> Result<(), AllocError>
    ensures { OnOk result (string_bytes out.new ≡ string_bytes out.old
        ++ (comma_if later ++ (quoted name.now ++ 58 ∷ quoted text.now))) }
{
    push_comma(out, later)?;
    push_string(out, name)?;
    out.push(':')?;
    push_string(out, text)
}

/// Appends a string.
pub(crate) fn push_string(out: &mut String, text: &str) -> Result<(), AllocError>
    ensures { OnOk result (string_bytes out.new ≡ string_bytes out.old ++ quoted text.now) }
{
    if needs_no_escape(text.as_bytes()) {
        push_plain(out, text)
    } else {
        push_escaped(out, text)
    }
}

/// Appends a string without escapes.
fn push_plain(out: &mut String, text: &str) -> Result<(), AllocError>
    requires { escape text.now ≡ text.now }
    ensures { OnOk result (string_bytes out.new ≡ string_bytes out.old ++ quoted text.now) }
{
    out.push('"')?;
    out.push_str(text)?;
    out.push('"')
}

/// Appends a string with the escapes that it needs.
fn push_escaped(out: &mut String, text: &str) -> Result<(), AllocError>
    ensures { OnOk result (string_bytes out.new ≡ string_bytes out.old ++ quoted text.now) }
{
    let mut writer = Writer::new(Vec::new(*out.allocator()));
    writer.string(text)?;
    match str::from_utf8(writer.into_inner().as_slice()) {
        Ok(text) => out.push_str(text),
        Err(_) => unreachable!(),
    }
}

/// Appends a comma if there is something before.
pub(crate) fn push_comma(out: &mut String, later: bool) -> Result<(), AllocError>
    ensures { OnOk result (string_bytes out.new ≡ string_bytes out.old ++ comma_if later) }
{
    if later {
        out.push(',')?;
    }
    Ok(())
}
