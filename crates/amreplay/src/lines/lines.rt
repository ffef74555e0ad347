//! The lines of an event: its notifications and then the alerts that it skipped, or its refusal, or
//! its label. Notifications are written in `notification_text.rt`, the others here.
ghost use Rattle.std.specs.Prelude.{◌≡◌, ◌++◌, IfOk, OnOk, string_bytes};
ghost use Rattle.std.specs.List.{flat_map};
ghost use Rattle.amreplay.specs.Lines.Printed.{notification_line, skipped_line, skipped_lines, refused_event_line, outcome_lines, label_line, label_lines, event_lines};
ghost use Rattle.amr_events.specs.Actions.Acts.{act_of};
ghost use Rattle.amr_engine.specs.Outcomes.{outcome_view};

use crate::lines::json_text::{lines_text, push, push_array, push_lines};
use amr_engine::Outcome;
use amr_engine::state::Notification;
use amr_events::actions::{Act, Event};
use amr_labels::{Shared, Text};
use std::alloc::{AllocError, Global};
use std::fmt::Write;

/// Appends the lines of an event that had this outcome. Events are numbered from 1; an event that
/// is only tried has number 0.
pub fn push_event_lines(
    out: &mut String,
    number: u64,
    event: &Event,
    outcome: &Outcome,
) -> Result<(), AllocError>
    ensures { OnOk result (string_bytes out.new
        ≡ string_bytes out.old ++ event_lines number event.now (outcome_view outcome.now)) }
{
    push_outcome_lines(out, number, outcome)?;
    push_label_lines(out, number, event.act())
}

/// Appends the lines of an outcome.
fn push_outcome_lines(out: &mut String, event: u64, outcome: &Outcome) -> Result<(), AllocError>
    ensures { OnOk result (string_bytes out.new
        ≡ string_bytes out.old ++ outcome_lines event (outcome_view outcome.now)) }
{
    match outcome {
        Outcome::Accepted {
            moves: _,
            notes,
            skipped,
        } => push_accepted_lines(out, event, notes.as_slice(), skipped.as_slice()),
        Outcome::Refused(reason) => push_refused_line(out, event, reason.number()),
    }
}

/// Returns the lines of notifications.
pub fn notes_text(alloc: Global, notes: &[Shared<Notification>]) -> Result<String, AllocError>
    ensures { IfOk result (λ text. string_bytes text ≡ flat_map notification_line notes.now) }
{
    lines_text(alloc, notes)
}

/// Appends the line of an action that is a label.
fn push_label_lines(out: &mut String, event: u64, act: &Act) -> Result<(), AllocError>
    ensures { OnOk result (string_bytes out.new
        ≡ string_bytes out.old ++ label_lines event (act_of act.now)) }
{
    match act {
        Act::Label(text) => push_label_line(out, event, text),
        _ => Ok(()),
    }
}

/// Appends the line of a label.
fn push_label_line(out: &mut String, event: u64, text: &Text) -> Result<(), AllocError>
    ensures { OnOk result (string_bytes out.new
        ≡ string_bytes out.old ++ label_line event text.now) }
{
    write!(out, "{{\"event\":{event}")?;
    push(out, ",\"label\":", text)?;
    out.push_str("}\n")
}

/// Appends the lines of an accepted event: its notifications, and the line of its skipped alerts if
/// there are any.
fn push_accepted_lines(
    out: &mut String,
    event: u64,
    notes: &[Shared<Notification>],
    skipped: &[usize],
) -> Result<(), AllocError>
    ensures { OnOk result (string_bytes out.new ≡ string_bytes out.old
        ++ (flat_map notification_line notes.now ++ skipped_lines event skipped.now)) }
{
    push_lines(out, notes)?;
    if !skipped.is_empty() {
        push_skipped_line(out, event, skipped)?;
    }
    Ok(())
}

/// Appends the line of a refused event.
fn push_refused_line(out: &mut String, event: u64, reason: u64) -> Result<(), AllocError>
    ensures { OnOk result (string_bytes out.new
        ≡ string_bytes out.old ++ refused_event_line event reason) }
{
    write!(out, "{{\"event\":{event},\"reason\":{reason}}}\n")
}

/// Appends the line with the alerts that an event skipped, by their positions in the post, from 1.
fn push_skipped_line(out: &mut String, event: u64, positions: &[usize]) -> Result<(), AllocError>
    ensures { OnOk result (string_bytes out.new
        ≡ string_bytes out.old ++ skipped_line event positions.now) }
{
    write!(out, "{{\"event\":{event}")?;
    push_array(out, ",\"skipped\":", positions)?;
    out.push_str("}\n")
}
