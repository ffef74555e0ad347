//! Reading posts of alerts straight from the tokens of their lines. Most lines of a script are
//! posts, and making a JSON value of each takes far longer than reading it. Lines and alerts of a
//! rarer shape are left to `line.rt`, which reads them from a JSON value.
ghost use Rattle.std.specs.Prelude.{◌≡◌, ◌<◌, ◌≤◌, ℕ, length, Some, IfOk, IfSome, option_and_then};
ghost use Rattle.serde_json.specs.Find.{as_str};
ghost use Rattle.amr_time.specs.Time.{latest_read};
ghost use Rattle.amr_time.specs.MomentRead.{moment_at};
ghost use Rattle.amr_events.specs.Refused.{LineIs, EventIs};
ghost use Rattle.amr_events.specs.Posted.{alerts_of};
ghost use Rattle.amr_events.specs.Tokens.{States};
ghost use Rattle.amr_events.specs.declared.version.Version.{Version};

use crate::actions::{Act, Event};
use crate::posted_tokens::{
    closes_object, has_key, opens_array, opens_object, string, usual_alert,
};
use crate::posts::PostedAlert;
use crate::text_cache::TextCache;
use amr_labels::Listing;
use amr_time::{Moment, read_moment};
use json::{Reader, Scratch};
use std::alloc::{AllocError, Global};
use std::str;

/// Reads the event of a line, of any version, that has a moment under `at` and then alerts under
/// `alerts`, and no other key. Returns `None` for a line of another shape. The scratch is the
/// reader's memory, kept from line to line.
pub(crate) fn read_post(
    alloc: Global,
    scratch: &mut Scratch,
    cache: &mut TextCache,
    line: &[u8],
) -> Result<Option<Event>, AllocError>
    ensures { IfOk result (λ read. IfSome read (λ event.
        (version : Version) → LineIs version line.now event)) }
{
    let Ok(text) = str::from_utf8(line) else {
        return Ok(None);
    };
    let mut reader = Reader::new(text, scratch)?;
    let event = post(alloc, cache, &mut reader)?;
    if reader.next().is_some() {
        return Ok(None);
    }
    Ok(event)
}

/// Reads an object with a moment and posted alerts.
fn post(
    alloc: Global,
    cache: &mut TextCache,
    reader: &mut Reader<'_>,
) -> Result<Option<Event>, AllocError>
    ensures { IfOk result (λ read. IfSome read (λ event.
        States (λ d. (version : Version) → EventIs version d event) 127 reader.old reader.new)) }
{
    if !opens_object(reader) || !has_key(reader, "at") {
        return Ok(None);
    }
    let Some(at) = usual_moment(reader) else {
        return Ok(None);
    };
    if !has_key(reader, "alerts") {
        return Ok(None);
    }
    let Some(alerts) = usual_alerts(alloc, cache, reader)? else {
        return Ok(None);
    };
    if !closes_object(reader) {
        return Ok(None);
    }
    Ok(Some(Event::new(at, Act::Post(alerts))))
}

/// Reads a moment, in RFC 3339.
fn usual_moment(reader: &mut Reader<'_>) -> Option<Moment>
    ensures read { IfSome result (λ at. (depth : ℕ)
        → States (λ d. option_and_then moment_at (as_str d) ≡ Some at) depth
        reader.old reader.new) }
    ensures bound { IfSome result (λ at. at ≤ latest_read) }
    ensures shorter { IfSome result (λ _. length reader.new < length reader.old) }
{
    match read_moment(string(reader)?) {
        Ok(at) => Some(at),
        Err(_) => None,
    }
}

/// Reads a list of posted alerts, in order.
fn usual_alerts(
    alloc: Global,
    cache: &mut TextCache,
    reader: &mut Reader<'_>,
) -> Result<Option<Listing<PostedAlert>>, AllocError>
    ensures read { IfOk result (λ read. IfSome read (λ alerts. (depth : ℕ) → 3 ≤ depth
        → States (λ d. alerts_of d ≡ Some alerts) depth reader.old reader.new)) }
    ensures shorter { IfOk result (λ read. IfSome read (λ _.
        length reader.new < length reader.old)) }
{
    if !opens_array(reader) {
        return Ok(None);
    }
    let mut alerts = Vec::new(alloc);
    while !reader.take_end_array() {
        match usual_alert(alloc, cache, reader)? {
            Some(alert) => alerts.push(alert)?,
            None => return Ok(None),
        }
    }
    let alerts = listing_of(alloc, alerts)?;
    Ok(Some(alerts))
}

/// Moves alerts to memory for just as many. To shrink the memory that they have instead would leave
/// a hole behind each post, and what the events take later would be scattered over these.
fn listing_of(
    alloc: Global,
    mut alerts: Vec<PostedAlert>,
) -> Result<Listing<PostedAlert>, AllocError>
    ensures { IfOk result (λ listing. listing ≡ alerts.items) }
{
    let mut moved = Vec::with_capacity(alloc, alerts.len())?;
    moved.append(&mut alerts)?;
    Ok(Listing::from_vec(moved))
}
