//! The lines of listings, one for each thing listed. `listed_text.rt` writes each.
ghost use Rattle.std.specs.Prelude.{◌≡◌, IfOk};
ghost use Rattle.std.specs.List.{flat_map};
ghost use Rattle.amr_labels.specs.Map.{entries};
ghost use Rattle.amreplay.specs.Lines.Printed.{alert_line, silence_line, group_line, log_line};

use crate::lines::json_text::{lines_text, push_line};
use amr_engine::state::{Group, Store};
use std::alloc::{AllocError, Global};

/// Returns the lines of stored alerts.
pub fn alert_lines(alloc: Global, store: &Store) -> Result<Vec<u8>, AllocError>
    ensures { IfOk result (λ lines. lines.items
        ≡ flat_map alert_line (entries store.now.state.alerts)) }
{
    let sorted = store.alerts().sorted(alloc)?;
    let mut lines = String::new(alloc);
    for alert in sorted.as_slice() {
        push_line(&mut lines, alert)?;
    }
    Ok(lines.into_bytes())
}

/// Returns the lines of stored silences.
pub fn silence_lines(alloc: Global, store: &Store) -> Result<Vec<u8>, AllocError>
    ensures { IfOk result (λ lines. lines.items
        ≡ flat_map silence_line (entries store.now.state.silences)) }
{
    let sorted = store.silences().sorted(alloc)?;
    let mut lines = String::new(alloc);
    for silence in sorted.as_slice() {
        push_line(&mut lines, silence)?;
    }
    Ok(lines.into_bytes())
}

/// Returns the lines of groups.
pub fn group_lines(alloc: Global, groups: &[Group]) -> Result<Vec<u8>, AllocError>
    ensures { IfOk result (λ lines. lines.items ≡ flat_map group_line groups.now) }
{
    Ok(lines_text(alloc, groups)?.into_bytes())
}

/// Returns the lines of entries of the notification log.
pub fn log_lines(alloc: Global, store: &Store) -> Result<Vec<u8>, AllocError>
    ensures { IfOk result (λ lines. lines.items
        ≡ flat_map log_line (entries store.now.state.log)) }
{
    let sorted = store.log().sorted(alloc)?;
    let mut lines = String::new(alloc);
    for entry in sorted.as_slice() {
        push_line(&mut lines, entry)?;
    }
    Ok(lines.into_bytes())
}
