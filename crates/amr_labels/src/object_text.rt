//! The text of labels as an object. Most alerts are printed many times, so a label set keeps the
//! text, and printing it takes one copy.
ghost use Rattle.std.specs.Prelude.{◌≡◌, ◌++◌, true, false, flat_map, codes, string_bytes, IfOk, IfSome, IfNone, OnOk};
ghost use Rattle.amr_labels.specs.ObjectText.{is_plain, is_plain_text, is_plain_label, are_plain, quoted_text, member_text, members_text, object_text};

use crate::text::Text;
use std::alloc::{AllocError, Global};

/// Returns the text of labels as an object, or `None` if a name or a value can't stand between
/// quotes as it is.
pub(crate) fn object_text(
    alloc: Global,
    labels: &[(Text, Text)],
) -> Result<Option<String>, AllocError>
    ensures text { IfOk result (λ found. IfSome found (λ text.
        string_bytes text ≡ object_text labels.now)) }
    ensures plain { IfOk result (λ found. IfSome found (λ text. are_plain labels.now ≡ true)) }
    ensures none { IfOk result (λ found. IfNone found (are_plain labels.now ≡ false)) }
{
    if !are_plain(labels) {
        return Ok(None);
    }
    Ok(Some(object(alloc, labels)?))
}

/// Returns whether all names and values can stand between quotes as they are.
fn are_plain(labels: &[(Text, Text)]) -> bool
    ensures { result ≡ are_plain labels.now }
{
    labels.iter().all(|label| is_plain_label(label))
}

/// Returns whether the name and the value of a label can stand between quotes as they are.
fn is_plain_label(label: &(Text, Text)) -> bool
    ensures { result ≡ is_plain_label label.now }
{
    is_plain_text(&label.0) && is_plain_text(&label.1)
}

/// Returns whether a text can stand between quotes as it is.
fn is_plain_text(text: &Text) -> bool
    ensures { result ≡ is_plain_text text.now }
{
    text.as_str().as_bytes().iter().all(|byte| is_plain(*byte))
}

/// Returns whether a byte can stand between quotes as it is.
pub fn is_plain(byte: u8) -> bool
    ensures { result ≡ is_plain byte }
{
    byte >= 0x20 && byte != b'"' && byte != b'\\'
}

/// Returns the object of labels. Most labels take no more than the bytes that are reserved for
/// each.
fn object(alloc: Global, labels: &[(Text, Text)]) -> Result<String, AllocError>
    ensures { IfOk result (λ text. string_bytes text ≡ object_text labels.now) }
{
    let mut text = String::with_capacity(alloc, labels.len().saturating_mul(36))?;
    text.push('{')?;
    push_members(&mut text, labels)?;
    text.push('}')?;
    Ok(text)
}

/// Appends the members of an object.
fn push_members(out: &mut String, labels: &[(Text, Text)]) -> Result<(), AllocError>
    ensures { OnOk result (string_bytes out.new
        ≡ string_bytes out.old ++ members_text labels.now) }
{
    match labels.split_first() {
        Some((first, others)) => {
            push_member(out, first)?;
            push_others(out, others)
        }
        None => Ok(()),
    }
}

/// Appends members with a comma before each.
fn push_others(out: &mut String, labels: &[(Text, Text)]) -> Result<(), AllocError>
    ensures { OnOk result (string_bytes out.new ≡ string_bytes out.old
        ++ flat_map (λ label. codes "," ++ member_text label) labels.now) }
{
    for label in labels {
        out.push(',')?;
        push_member(out, label)?;
    }
    Ok(())
}

/// Appends a member.
fn push_member(out: &mut String, label: &(Text, Text)) -> Result<(), AllocError>
    ensures { OnOk result (string_bytes out.new
        ≡ string_bytes out.old ++ member_text label.now) }
{
    push_quoted(out, &label.0)?;
    out.push(':')?;
    push_quoted(out, &label.1)
}

/// Appends a text between quotes.
fn push_quoted(out: &mut String, text: &Text) -> Result<(), AllocError>
    ensures { OnOk result (string_bytes out.new ≡ string_bytes out.old ++ quoted_text text.now) }
{
    out.push('"')?;
    out.push_str(text.as_str())?;
    out.push('"')
}
